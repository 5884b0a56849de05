//! Why a run file is refused.

ghost use Rattle.std.specs.Prelude.{◌≡◌};
ghost use Rattle.run_file.specs.Line.{code};

use thiserror::Error;

/// What is wrong with a line of a run file. Of several the first of this list is told.
#[derive(Clone, Copy, Debug, PartialEq, Eq, Error)]
pub enum RunFault {
    /// J1: the line begins with no statement's name, has a field too few or too many, or has a path that isn't ASCII.
    #[error("no statement has this name, a field is missing or one too many, or a path isn't ASCII")]
    UnknownLine,
    /// J2: a field isn't a decimal number in its range, or the job is the 65,537th.
    #[error("a field isn't a decimal number in its range, or the job is the 65,537th")]
    BadNumber,
    /// J3: `page` or `targets` is missing here, or something that stands once stands here again.
    #[error("`page` or `targets` is missing here, or what stands once stands here again")]
    OutOfOrder,
    /// J4: the channel has no such LUN.
    #[error("no such LUN")]
    NoSuchLun,
    /// J5: the input of a job is longer than its buffer.
    #[error("the input is longer than the buffer")]
    InputTooLong,
}

impl RunFault {
    /// Its code, `J1` to `J5`.
    pub fn code(self) -> &'static str
        ensures { result.now ≡ code self }
    {
        match self {
            RunFault::UnknownLine => "J1",
            RunFault::BadNumber => "J2",
            RunFault::OutOfOrder => "J3",
            RunFault::NoSuchLun => "J4",
            RunFault::InputTooLong => "J5",
        }
    }
}

/// A fault of a run file and the number of its line, from 1.
#[derive(Clone, Copy, Debug, PartialEq, Eq, Error)]
#[error("line {line}: {fault}")]
pub struct RunRefusal {
    pub fault: RunFault,
    pub line: usize,
}
