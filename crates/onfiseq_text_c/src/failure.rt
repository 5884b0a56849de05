//! Why a text or a word file isn't written as the other.
ghost use Rattle.std.specs.Prelude.{◌≡◌};
ghost use Rattle.onfiseq_text_c.specs.Assembly.{told_of};

use micro_asm::AsmFault;
use micro_word::WordFault;
use placed_bytes::{OnfiseqPlaced, refused};

/// Why a text or a word file isn't written as the other.
#[derive(Clone, Copy)]
pub enum Failure {
    /// The fault of a text, at its line.
    Text { fault: AsmFault, line: usize },
    /// The fault of a word file, at its word or 0.
    File { fault: WordFault, word: usize },
    /// The text isn't UTF-8.
    NotText,
    OutOfMemory,
}

impl Failure {
    // What is told of it.
    pub(crate) fn told(self) -> OnfiseqPlaced
        ensures { result ≡ told_of self }
    {
        match self {
            Failure::Text { fault, line } => refused(b'A', fault.number(), line),
            Failure::File { fault, word } => refused(b'M', fault.number(), word),
            Failure::NotText => refused(b'U', 0, 0),
            Failure::OutOfMemory => refused(b'O', 0, 0),
        }
    }
}
