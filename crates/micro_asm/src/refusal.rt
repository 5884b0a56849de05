//! Why a text is refused.

ghost use Rattle.std.specs.Prelude.{◌≡◌};
ghost use Rattle.micro_asm.specs.declared.refusal.AsmRefusal.TheVariants.{OutOfMemory};
ghost use Rattle.micro_asm.specs.Codes.{asm_fault_code, asm_fault_number, asm_fault_of};

use std::alloc::{AllocError, AllocFailed};
use thiserror::Error;

/// What is wrong with a line of a text. Of several the first of this list is told.
#[derive(Clone, Copy, Debug, PartialEq, Eq, Error)]
pub enum AsmFault {
    /// The line begins with no word's name, and is no label either; or a label hasn't the form of one.
    #[error("no word has this name, or a label hasn't the form of one")]
    UnknownWord,
    /// An operand is missing, is one too many, or is no number of its form.
    #[error("an operand is missing, is one too many or isn't a number of its form")]
    BadOperand,
    /// An operand is out of its range.
    #[error("an operand is out of range")]
    OperandOutOfRange,
    /// No label has the name to which a branch leads.
    #[error("no label has this name")]
    NoSuchLabel,
    /// A line before has the same label.
    #[error("a line before has the same label")]
    LabelTwice,
    /// No word stands after the label.
    #[error("no word stands after the label")]
    LabelAfterLastWord,
    /// The word is the 1,025th.
    #[error("the text has more than 1,024 words")]
    TooManyWords,
    /// A header line is missing here, or another one is to stand here.
    #[error("a header line is missing or out of order")]
    HeaderOutOfOrder,
}

impl AsmFault {
    /// Its code, `A1` to `A8`.
    pub fn code(self) -> &'static str
        ensures { result.now ≡ asm_fault_code self }
    {
        match self {
            AsmFault::UnknownWord => "A1",
            AsmFault::BadOperand => "A2",
            AsmFault::OperandOutOfRange => "A3",
            AsmFault::NoSuchLabel => "A4",
            AsmFault::LabelTwice => "A5",
            AsmFault::LabelAfterLastWord => "A6",
            AsmFault::TooManyWords => "A7",
            AsmFault::HeaderOutOfOrder => "A8",
        }
    }

    /// The number of its code, 1 to 8.
    pub fn number(self) -> u32
        ensures { result ≡ asm_fault_number self }
    {
        match self {
            AsmFault::UnknownWord => 1,
            AsmFault::BadOperand => 2,
            AsmFault::OperandOutOfRange => 3,
            AsmFault::NoSuchLabel => 4,
            AsmFault::LabelTwice => 5,
            AsmFault::LabelAfterLastWord => 6,
            AsmFault::TooManyWords => 7,
            AsmFault::HeaderOutOfOrder => 8,
        }
    }

    /// The fault whose code has this number, if there is one.
    #[tactic(auto, unfolding(crate::specs::Codes::asm_fault_of))]
    pub fn of_number(number: u32) -> Option<AsmFault>
        ensures { result ≡ asm_fault_of number }
    {
        match number {
            1 => Some(AsmFault::UnknownWord),
            2 => Some(AsmFault::BadOperand),
            3 => Some(AsmFault::OperandOutOfRange),
            4 => Some(AsmFault::NoSuchLabel),
            5 => Some(AsmFault::LabelTwice),
            6 => Some(AsmFault::LabelAfterLastWord),
            7 => Some(AsmFault::TooManyWords),
            8 => Some(AsmFault::HeaderOutOfOrder),
            _ => None,
        }
    }
}

/// Why a text gives no microprogram.
#[derive(Clone, Copy, Debug, PartialEq, Eq, Error)]
pub enum AsmRefusal {
    /// The lowest line with a fault, counted from 1, and its first fault.
    #[error("line {line}: {fault} ({})", .fault.code())]
    Fault { fault: AsmFault, line: usize },
    /// Memory was refused.
    #[error("out of memory")]
    OutOfMemory,
}

impl From<AllocError> for AsmRefusal {
    ghost from_gives = { λ _ e. e ≡ OutOfMemory };

    fn from(_e: AllocError) -> AsmRefusal {
        AsmRefusal::OutOfMemory
    }
}

impl<T: Drop> From<AllocFailed<T>> for AsmRefusal {
    ghost from_gives = { λ _ e. e ≡ OutOfMemory };

    fn from(_e: AllocFailed<T>) -> AsmRefusal {
        AsmRefusal::OutOfMemory
    }
}
