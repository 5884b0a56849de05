//! How the step of a word is answered, for whoever steps a program: the sequencer here, and one that keeps its state elsewhere.
ghost use Rattle.std.specs.Prelude.{◌≡◌};
ghost use Rattle.seq_core.specs.Progress.{outcome_of, is_done, code_of};

use crate::stepped::Stepped;
use micro_program::is_ready_status;
use micro_word::Word;

/// How the step of a word is answered, with the status that its poll brought.
pub fn outcome_of(word: Word, status: u8) -> Stepped
    ensures { result ≡ outcome_of word status }
{
    match word {
        Word::End { .. } => Stepped::Ended,
        Word::Yield => Stepped::HandedOver,
        Word::Wait if !is_ready_status(status) => Stepped::NotReady,
        _ => Stepped::Went,
    }
}

/// The word is done.
pub fn is_done(answer: Stepped) -> bool
    ensures { result ≡ is_done answer }
{
    !matches!(answer, Stepped::NotReady)
}

/// The code that a word ends with.
pub fn code_of(word: Word) -> Option<u8>
    ensures { result ≡ code_of word }
{
    match word {
        Word::End { code } => Some(code),
        _ => None,
    }
}
