//! What comes too soon, and how near the others come.
ghost use Rattle.std.specs.Prelude.{◌≡◌, false, [], ◌∷◌, OnOk};
ghost use Rattle.edge_timing.specs.Judged.{violation_of, IsJudging};

use crate::distance::Distance;
use crate::edge::Edge;
use crate::edge_times::EdgeTimes;
use crate::edge_timing::EdgeTiming;
use crate::since::Since;
use std::alloc::{AllocError, Allocator};

/// By what edges are judged.
#[derive(Clone, Copy, Debug, PartialEq, Eq)]
pub struct EdgeRuler {
    pub times: EdgeTimes,
    /// How many femtoseconds 1 of a time is.
    pub unit: u64,
    /// By how many femtoseconds a distance may be short.
    pub slack: u64,
    /// Each target has one LUN.
    pub one_lun: bool,
}

/// An edge that comes too soon after another: when, in the unit of the capture; how long after, and how long it is to, in femtoseconds.
#[derive(Clone, Copy, Debug, PartialEq, Eq)]
pub struct EdgeViolation {
    pub time: u64,
    pub timing: EdgeTiming,
    pub edge: Edge,
    pub since: Since,
    pub seen: u64,
    pub wanted: u64,
}

/// The distance that comes nearest to a time, or falls short of it the most, in femtoseconds, and when it ends, in the unit of the capture.
#[derive(Clone, Copy, Debug, PartialEq, Eq)]
pub struct EdgeNearest {
    pub time: u64,
    pub seen: u64,
    pub wanted: u64,
}

/// What is found of the edges of a capture.
#[derive(Debug, Drop)]
pub struct EdgeJudge<A: Allocator> {
    pub ruler: EdgeRuler,
    /// What comes too soon.
    pub told: Vec<EdgeViolation, A>,
    /// The nearest of each time, in the order of [`EdgeTiming::ALL`].
    pub nearest: [Option<EdgeNearest>; EdgeTiming::COUNT],
    /// A distance was judged.
    pub has_judged: bool,
}

// What a distance comes to.
fn violation_of(ruler: EdgeRuler, distance: Distance) -> EdgeViolation
    ensures { result ≡ violation_of ruler distance }
{
    let Distance {
        timing,
        edge,
        since,
        from,
        to,
    } = distance;
    EdgeViolation {
        time: to,
        timing,
        edge,
        since,
        seen: to.saturating_sub(from).saturating_mul(ruler.unit),
        wanted: ruler.times.least(timing),
    }
}

// Whether a distance has less to spare than the nearest one.
fn is_nearer(found: EdgeViolation, nearest: Option<EdgeNearest>) -> bool {
    match nearest {
        None => true,
        Some(nearest) => {
            found.seen.saturating_add(nearest.wanted) < nearest.seen.saturating_add(found.wanted)
        }
    }
}

impl<A: Allocator> EdgeJudge<A> {
    /// Nothing has been judged.
    pub fn new(alloc: A, ruler: EdgeRuler) -> EdgeJudge<A>
        ensures told { result.told.items ≡ [] }
        ensures ruler { result.ruler ≡ ruler }
        ensures judged { result.has_judged ≡ false }
    {
        EdgeJudge {
            ruler,
            told: Vec::new(alloc),
            nearest: [None; EdgeTiming::COUNT],
            has_judged: false,
        }
    }

    // Notes how near a distance comes.
    fn note(&mut self, found: EdgeViolation)
        ensures told { self.new.told ≡ self.old.told }
        ensures ruler { self.new.ruler ≡ self.old.ruler }
        ensures judged { self.new.has_judged ≡ self.old.has_judged }
    {
        if let Some(nearest) = self.nearest.get_mut(found.timing.place()) {
            if is_nearer(found, *nearest) {
                *nearest = Some(EdgeNearest {
                    time: found.time,
                    seen: found.seen,
                    wanted: found.wanted,
                });
            }
        }
    }

    // Judges a distance, if there is one.
    fn take(&mut self, distance: Option<Distance>) -> Result<(), AllocError>
        ensures { OnOk result (IsJudging self.old self.new (distance ∷ [])) }
    {
        let Some(distance) = distance else {
            return Ok(());
        };
        let found = violation_of(self.ruler, distance);
        self.has_judged = true;
        self.note(found);
        if found.seen.saturating_add(self.ruler.slack) < found.wanted {
            self.told.push(found)?;
        }
        Ok(())
    }

    /// Judges these distances, those of them that there are.
    pub(crate) fn take_all(&mut self, distances: &[Option<Distance>]) -> Result<(), AllocError>
        ensures { OnOk result (IsJudging self.old self.new distances.now) }
    {
        for distance in distances {
            self.take(*distance)?;
        }
        Ok(())
    }

    /// Puts what comes too soon in the order of time; of one time the strobes come first, then DQ, CLE, ALE and CE#.
    pub fn sort(&mut self) -> Result<(), AllocError> {
        self.told
            .sort_by_key(|found| (found.time, found.edge.rank()))
    }
}
