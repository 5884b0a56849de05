//! A time between two edges.
ghost use Rattle.std.specs.Prelude.{◌≡◌};
ghost use Rattle.edge_timing.specs.Lines.{between};

use crate::edge::Edge;
use crate::edge_timing::EdgeTiming;
use crate::since::Since;

/// Two edges of which a time is wanted, in the unit of the capture.
#[derive(Clone, Copy, Debug, PartialEq, Eq)]
pub struct Distance {
    pub timing: EdgeTiming,
    pub edge: Edge,
    pub since: Since,
    pub from: u64,
    pub to: u64,
}

/// The distance of two edges, where both were seen.
pub(crate) fn between(
    timing: EdgeTiming,
    edge: Edge,
    since: Since,
    from: Option<u64>,
    to: Option<u64>,
) -> Option<Distance>
    ensures { result ≡ between timing edge since from to }
{
    match (from, to) {
        (Some(from), Some(to)) => Some(Distance {
            timing,
            edge,
            since,
            from,
            to,
        }),
        (None, _) | (Some(_), None) => None,
    }
}
