//! The numbers of statements, for messages.

use std::fmt;

// What a number of a statement tells.
#[derive(Clone, Copy)]
pub(crate) enum Number {
    Targets,
    ChipEnable,
    Lun,
    Base,
    Polls,
    Ready,
}

impl Number {
    // The least number that may stand there.
    pub(crate) fn least(self) -> u64 {
        match self {
            Number::Targets | Number::Polls | Number::Ready => 1,
            Number::ChipEnable | Number::Lun | Number::Base => 0,
        }
    }

    // The greatest number that may stand there.
    pub(crate) fn greatest(self) -> u64 {
        match self {
            Number::Targets => 4,
            Number::Polls => 1_000,
            Number::ChipEnable | Number::Lun | Number::Base | Number::Ready => u64::from(u32::MAX),
        }
    }

    // What it is called in the layout of its statement.
    fn name(self) -> &'static str {
        match self {
            Number::Targets | Number::Polls => "N",
            Number::ChipEnable => "CE",
            Number::Lun => "LUN",
            Number::Base => "BASE",
            Number::Ready => "K",
        }
    }
}

impl fmt::Display for Number {
    fn fmt<W: fmt::Write>(&self, f: &mut fmt::Formatter<W>) -> fmt::Result {
        write!(
            f,
            "{} is a number from {} to {}",
            self.name(),
            self.least(),
            self.greatest()
        )
    }
}
