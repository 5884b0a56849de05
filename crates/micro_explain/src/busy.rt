//! A LUN that may be busy.

use crate::refused::Refused;
use std::fmt;

/// Since when the LUN may be busy.
#[derive(Clone, Copy, Debug, PartialEq, Eq)]
pub enum Busy {
    /// This word starts work, and no `wait` comes after it.
    Since { word: usize },
    /// This word starts work in one turn of a loop, and no `wait` comes after it in the next.
    SinceTurn { word: usize },
    /// This word starts work, and a way leads past the `wait` after it.
    PastWait { word: usize },
    /// No word is known to start work.
    Perhaps,
}

impl Busy {
    pub(crate) fn of(refused: &Refused<'_>) -> Busy {
        if let Some(word) = refused.history.work {
            return Busy::Since { word };
        }
        if let Some(turned) = refused.turned {
            if let Some(word) = turned.work {
                return Busy::SinceTurn { word };
            }
        }
        match refused.whole_history().started {
            Some(word) => Busy::PastWait { word },
            None => Busy::Perhaps,
        }
    }
}

impl fmt::Display for Busy {
    fn fmt<W: fmt::Write>(&self, f: &mut fmt::Formatter<W>) -> fmt::Result {
        f.write_str("the LUN may be busy, ")?;
        match self {
            Busy::Since { word } => write!(f, "a `wait` is missing after word {word}"),
            Busy::SinceTurn { word } => {
                write!(
                    f,
                    "a `wait` is missing after word {word} of the turn before"
                )
            }
            Busy::PastWait { word } => {
                write!(f, "a way leads here from word {word} past the `wait`")
            }
            Busy::Perhaps => f.write_str("a `wait` is missing"),
        }
    }
}
