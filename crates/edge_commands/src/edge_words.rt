//! Edges that come too soon, in words.

use edge_timing::{EdgeNearest, EdgeTiming, EdgeViolation};
use recording::Nanoseconds;
use std::fmt;

/// An edge that comes too soon.
#[derive(Clone, Copy)]
pub(crate) struct LateEdge(pub(crate) EdgeViolation);

impl fmt::Display for LateEdge {
    fn fmt<W: fmt::Write>(&self, f: &mut fmt::Formatter<W>) -> fmt::Result {
        let EdgeViolation {
            time,
            timing,
            edge,
            since,
            seen,
            wanted,
        } = self.0;
        write!(
            f,
            "at {time} {} {} ns after {}, {} wants {} ({})",
            edge.words(),
            Nanoseconds(seen),
            since.words(),
            timing.name(),
            Nanoseconds(wanted),
            timing.fault().code()
        )
    }
}

/// How near a capture comes to a time.
#[derive(Clone, Copy)]
pub(crate) struct Margin {
    pub(crate) timing: EdgeTiming,
    pub(crate) nearest: EdgeNearest,
}

impl fmt::Display for Margin {
    fn fmt<W: fmt::Write>(&self, f: &mut fmt::Formatter<W>) -> fmt::Result {
        let EdgeNearest { time, seen, wanted } = self.nearest;
        write!(
            f,
            "{}: nearest {} ns at {time}, wants {}",
            self.timing.name(),
            Nanoseconds(seen),
            Nanoseconds(wanted)
        )
    }
}
