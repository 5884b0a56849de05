//! Why a text is refused.

ghost use Rattle.std.specs.Prelude.{◌≡◌};
ghost use Rattle.trace_text.specs.declared.refusal.TraceRefusal.TheVariants.{OutOfMemory};
ghost use Rattle.trace_text.specs.Codes.{trace_fault_code};

use std::alloc::{AllocError, AllocFailed};
use thiserror::Error;

/// What is wrong with a line of a text. A line is judged by its shape first, and then by its numbers.
#[derive(Clone, Copy, Debug, PartialEq, Eq, Error)]
pub enum TraceFault {
    /// The line isn't ended, its second field is none of the letters, or it has another number of fields than its
    /// letter wants.
    #[error("the line isn't ended by a line feed, has no letter of an item, or has another number of fields than its letter wants")]
    BadShape,
    /// A number field isn't a number of its form, whatever characters it has.
    #[error("a field isn't a number of its form")]
    BadNumber,
}

impl TraceFault {
    /// Its code, `X1` to `X2`.
    pub fn code(self) -> &'static str
        ensures { result.now ≡ trace_fault_code self }
    {
        match self {
            TraceFault::BadShape => "X1",
            TraceFault::BadNumber => "X2",
        }
    }
}

/// Why a text gives no trace.
#[derive(Clone, Copy, Debug, PartialEq, Eq, Error)]
pub enum TraceRefusal {
    /// The lowest line with a fault, counted from 1, and its first fault.
    #[error("{} at line {line}: {fault}", .fault.code())]
    Fault { fault: TraceFault, line: usize },
    /// Memory was refused to a text without a fault.
    #[error("out of memory")]
    OutOfMemory,
}

impl From<AllocError> for TraceRefusal {
    ghost from_gives = { λ _ e. e ≡ OutOfMemory };

    fn from(_e: AllocError) -> TraceRefusal {
        TraceRefusal::OutOfMemory
    }
}

impl<T: Drop> From<AllocFailed<T>> for TraceRefusal {
    ghost from_gives = { λ _ e. e ≡ OutOfMemory };

    fn from(_e: AllocFailed<T>) -> TraceRefusal {
        TraceRefusal::OutOfMemory
    }
}
