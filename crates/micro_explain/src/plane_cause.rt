//! A plane that may not be selected.

use crate::queue_cause::QueueCause;
use crate::refused::Refused;
use micro_claims::Planes;
use std::fmt;

/// Why the row of `cmd 06` may not be selected.
#[derive(Clone, Copy, Debug, PartialEq, Eq)]
pub enum PlaneCause {
    /// Rows are queued.
    Queued(QueueCause),
    /// Its plane, the only one of this number that it may be of, may hold no page.
    NotHeld { plane: u8 },
    /// It may be of several planes, and one of them may hold no page.
    SomeNotHeld,
}

impl PlaneCause {
    /// Against the row of `cmd 06`.
    pub(crate) fn of(refused: &Refused<'_>) -> Option<PlaneCause> {
        if let Some(queue) = QueueCause::of_lone_work(refused) {
            return Some(PlaneCause::Queued(queue));
        }
        let planes = refused.state.registers.planes;
        if planes.are_within(refused.state.lun.held) {
            None
        } else {
            Some(PlaneCause::of_planes(planes))
        }
    }

    fn of_planes(planes: Planes) -> PlaneCause {
        if planes.is_one() {
            PlaneCause::NotHeld {
                plane: planes.greatest(),
            }
        } else {
            PlaneCause::SomeNotHeld
        }
    }
}

impl fmt::Display for PlaneCause {
    fn fmt<W: fmt::Write>(&self, f: &mut fmt::Formatter<W>) -> fmt::Result {
        match self {
            PlaneCause::Queued(queue) => write!(f, "{queue}"),
            PlaneCause::NotHeld { plane } => write!(
                f,
                "plane {plane} may hold no page: a read of a row of it must come first"
            ),
            PlaneCause::SomeNotHeld => f.write_str(
                "the plane depends on the way, and may hold no page: a read of a row of it must come first",
            ),
        }
    }
}
