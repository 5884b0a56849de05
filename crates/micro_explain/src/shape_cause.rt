//! A loop or a branch that doesn't fit the text.

use crate::loops::{loop_around, next_around};
use micro_word::Word;
use std::fmt;

/// What is wrong with a loop or a branch.
#[derive(Clone, Copy, Debug, PartialEq, Eq)]
pub enum ShapeCause {
    /// A `loop` that no `next` closes.
    NeverClosed,
    /// A `next` without a `loop` before it.
    NeverOpened,
    /// A `loop` in four others, the innermost of which begins at this word.
    InFour { innermost: usize },
    /// A branch to itself, or to a word before it.
    Back,
    /// A branch out of the loop that begins at this word.
    OutOf { word: usize },
    /// A branch into the loop that begins at this word.
    Into { word: usize },
}

impl ShapeCause {
    /// Against a `loop` or a `next` without its partner.
    pub(crate) fn of_unpaired(words: &[Word], at: usize) -> ShapeCause {
        match words.get(at) {
            Some(Word::Next) => ShapeCause::NeverOpened,
            _ => ShapeCause::NeverClosed,
        }
    }

    /// Against a `loop` in four others.
    pub(crate) fn of_nested(words: &[Word], at: usize) -> Option<ShapeCause> {
        Some(ShapeCause::InFour {
            innermost: loop_around(words, at)?,
        })
    }

    /// Against a branch.
    pub(crate) fn of_branch(words: &[Word], at: usize) -> Option<ShapeCause> {
        let target = target_of(*words.get(at)?)?;
        if target <= at {
            return Some(ShapeCause::Back);
        }
        match (loop_around(words, at), next_around(words, at)) {
            (Some(word), Some(next)) if next < target => Some(ShapeCause::OutOf { word }),
            _ => Some(ShapeCause::Into {
                word: loop_around(words, target)?,
            }),
        }
    }
}

// Where a branch leads.
fn target_of(word: Word) -> Option<usize> {
    match word {
        Word::BranchOnStatus { target, .. } | Word::Jump { target } => Some(usize::from(target)),
        _ => None,
    }
}

impl fmt::Display for ShapeCause {
    fn fmt<W: fmt::Write>(&self, f: &mut fmt::Formatter<W>) -> fmt::Result {
        match self {
            ShapeCause::NeverClosed => f.write_str("no `next` closes it"),
            ShapeCause::NeverOpened => f.write_str("no `loop` is open before it"),
            ShapeCause::InFour { innermost } => write!(
                f,
                "the loop of word {innermost} is the fourth that is open"
            ),
            ShapeCause::Back => f.write_str("it leads back, which only loops do"),
            ShapeCause::OutOf { word } => write!(f, "it leads out of the loop of word {word}"),
            ShapeCause::Into { word } => write!(f, "it leads into the loop of word {word}"),
        }
    }
}
