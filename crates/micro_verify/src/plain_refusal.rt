//! Why operations are refused.
ghost use Rattle.std.specs.Prelude.{◌≡◌};
ghost use Rattle.micro_verify.specs.declared.plain_refusal.PlainRefusal.TheVariants.{OutOfMemory};
ghost use Rattle.micro_verify.specs.Plain.{code};

use std::alloc::{AllocError, AllocFailed};
use thiserror::Error;

/// What is wrong with a list of operations. It is judged as a whole first, and then operation by operation.
#[derive(Clone, Copy, Debug, PartialEq, Eq, Error)]
pub enum PlainFault {
    /// L1: the list is empty.
    #[error("there are no operations")]
    NoOperations,
    /// L2: the text would have more than 1,024 words.
    #[error("the operations make more than 1024 words")]
    TooManyWords,
    /// L3: an operand is outside the geometry or the limits; the operation, counted from 0, is the first one with such an operand.
    #[error("operation {operation} reaches outside the page, the LUN or the greatest buffer")]
    OperandOutside { operation: usize },
}

impl PlainFault {
    /// Its code, `L1` to `L3`.
    pub fn code(self) -> &'static str
        ensures { result.now ≡ code self }
    {
        match self {
            PlainFault::NoOperations => "L1",
            PlainFault::TooManyWords => "L2",
            PlainFault::OperandOutside { .. } => "L3",
        }
    }
}

/// Why there is no text.
#[derive(Clone, Copy, Debug, PartialEq, Eq, Error)]
pub enum PlainRefusal {
    /// The operations have a fault, the first one that is met.
    #[error("{0}")]
    Fault(PlainFault),
    /// The operations have no fault, but there is no memory for the words.
    #[error("out of memory")]
    OutOfMemory,
}

impl From<AllocError> for PlainRefusal {
    ghost from_gives = { λ _ e. e ≡ OutOfMemory };

    fn from(_e: AllocError) -> PlainRefusal {
        PlainRefusal::OutOfMemory
    }
}
