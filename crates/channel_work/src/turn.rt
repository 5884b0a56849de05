//! How a turn went.
ghost use Rattle.std.specs.Prelude.{◌≢◌, Some};
ghost use Rattle.seq_core.specs.declared.stepped.Stepped.TheVariants.{Went};
ghost use Rattle.channel_work.specs.State.{Tells};

use crate::tally::LunCount;
use seq_core::Stepped;

/// How a turn went.
#[derive(Clone, Copy, Debug, PartialEq, Eq)]
pub enum Turn {
    HandedOver,
    NotReady { polls: u64, works: u64 },
    Ended,
    Held,
    Empty,
    OutOfMemory,
}

impl Turn {
    /// That of the last answer of its steps, with what is then counted of its LUN.
    pub(crate) fn of(answer: Option<Stepped>, count: LunCount) -> Turn
        requires { answer ≢ Some Went }
        ensures { Tells count answer result }
    {
        match answer {
            Some(Stepped::HandedOver) => Turn::HandedOver,
            Some(Stepped::NotReady) => Turn::NotReady {
                polls: count.polls,
                works: count.works,
            },
            Some(Stepped::Ended) => Turn::Ended,
            Some(Stepped::Held) => Turn::Held,
            Some(Stepped::Empty) => Turn::Empty,
            Some(Stepped::Went) => unreachable!(),
            None => Turn::OutOfMemory,
        }
    }
}
