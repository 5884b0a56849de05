//! A loop that does nothing more than its words would.

use crate::linted::Linted;
use micro_explain::next_around;
use micro_word::Word;
use std::fmt;

/// A `loop` that could be left out.
#[derive(Clone, Copy, Debug, PartialEq, Eq)]
pub enum IdleLoop {
    /// It turns once.
    Once { word: usize, next: usize },
    /// No word stands in it.
    Empty { word: usize, next: usize },
}

impl IdleLoop {
    pub(crate) fn of(linted: &Linted<'_>, at: usize, word: Word) -> Option<IdleLoop> {
        let Word::Loop { turns } = word else {
            return None;
        };
        let head = at.saturating_add(1);
        let next = next_around(linted.words, head)?;
        if linted.facts_at(at).is_none() {
            None
        } else if next == head {
            Some(IdleLoop::Empty { word: at, next })
        } else if turns == 1 {
            Some(IdleLoop::Once { word: at, next })
        } else {
            None
        }
    }

    /// The place of the `loop`.
    pub fn word(self) -> usize {
        match self {
            IdleLoop::Once { word, .. } | IdleLoop::Empty { word, .. } => word,
        }
    }
}

impl fmt::Display for IdleLoop {
    fn fmt<W: fmt::Write>(&self, f: &mut fmt::Formatter<W>) -> fmt::Result {
        match self {
            IdleLoop::Once { next, .. } => write!(
                f,
                "the loop turns once: leave it and its `next` (word {next}) out"
            ),
            IdleLoop::Empty { next, .. } => write!(
                f,
                "no word stands in the loop: leave it and its `next` (word {next}) out"
            ),
        }
    }
}
