//! Why a text or a file is refused.

ghost use Rattle.std.specs.Prelude.{◌≡◌};
ghost use Rattle.micro_word.specs.declared.refusal.WordRefusal.TheVariants.{OutOfMemory};
ghost use Rattle.micro_word.specs.Codes.{word_fault_code, word_fault_number, word_fault_of};

use std::alloc::{AllocError, AllocFailed};
use thiserror::Error;

/// What is wrong with a text or a file. A file is judged from its front: M1, M2 and M3, then M6 of the
/// header; after that M4, M5 and M6 at each word in turn; and M7 when all words have passed.
#[derive(Clone, Copy, Debug, PartialEq, Eq, Error)]
pub enum WordFault {
    #[error("the file is shorter than its header of 16 bytes")]
    TooShort,
    #[error("the file begins with neither NMP1 nor NMP2")]
    UnknownFormat,
    #[error("the header names more than 1024 words, or more than the file has")]
    TooManyWords,
    #[error("no word has this code")]
    UnknownCode,
    #[error("a byte that this word doesn't use isn't 0")]
    UnusedFieldSet,
    #[error("a number is out of its range")]
    OutOfRange,
    #[error("the file goes on after its last word")]
    TrailingBytes,
}

impl WordFault {
    /// Its code, `M1` to `M7`.
    pub fn code(self) -> &'static str
        ensures { result.now ≡ word_fault_code self }
    {
        match self {
            WordFault::TooShort => "M1",
            WordFault::UnknownFormat => "M2",
            WordFault::TooManyWords => "M3",
            WordFault::UnknownCode => "M4",
            WordFault::UnusedFieldSet => "M5",
            WordFault::OutOfRange => "M6",
            WordFault::TrailingBytes => "M7",
        }
    }

    /// The number of its code, 1 to 7.
    pub fn number(self) -> u32
        ensures { result ≡ word_fault_number self }
    {
        match self {
            WordFault::TooShort => 1,
            WordFault::UnknownFormat => 2,
            WordFault::TooManyWords => 3,
            WordFault::UnknownCode => 4,
            WordFault::UnusedFieldSet => 5,
            WordFault::OutOfRange => 6,
            WordFault::TrailingBytes => 7,
        }
    }

    /// The fault whose code has this number, if there is one.
    #[tactic(auto, unfolding(crate::specs::Codes::word_fault_of))]
    pub fn of_number(number: u32) -> Option<WordFault>
        ensures { result ≡ word_fault_of number }
    {
        match number {
            1 => Some(WordFault::TooShort),
            2 => Some(WordFault::UnknownFormat),
            3 => Some(WordFault::TooManyWords),
            4 => Some(WordFault::UnknownCode),
            5 => Some(WordFault::UnusedFieldSet),
            6 => Some(WordFault::OutOfRange),
            7 => Some(WordFault::TrailingBytes),
            _ => None,
        }
    }
}

/// Why there is no text.
#[derive(Clone, Copy, Debug, PartialEq, Eq, Error)]
pub enum WordRefusal {
    /// The first fault, and the number of its word, counted from 0. A fault that is of no word tells 0.
    #[error("{} at word {word}: {fault}", .fault.code())]
    Fault { fault: WordFault, word: usize },
    /// Memory was refused to a text without a fault.
    #[error("out of memory")]
    OutOfMemory,
}

impl From<AllocError> for WordRefusal {
    ghost from_gives = { λ _ e. e ≡ OutOfMemory };

    fn from(_e: AllocError) -> WordRefusal {
        WordRefusal::OutOfMemory
    }
}

impl<T: Drop> From<AllocFailed<T>> for WordRefusal {
    ghost from_gives = { λ _ e. e ≡ OutOfMemory };

    fn from(_e: AllocFailed<T>) -> WordRefusal {
        WordRefusal::OutOfMemory
    }
}
