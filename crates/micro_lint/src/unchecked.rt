//! A program or an erase whose status nobody looks at.

use crate::linted::Linted;
use crate::ways::{FAIL, Search, leads_to};
use micro_explain::command_of;
use micro_word::Word;
use onfi_cycle::Command;
use std::fmt;

/// Work of the array that may fail.
#[derive(Clone, Copy, Debug, PartialEq, Eq)]
pub enum ArrayWork {
    Erase,
    Program,
}

/// A branch on other bits of the status.
#[derive(Clone, Copy, Debug, PartialEq, Eq)]
pub struct BranchAt {
    pub mask: u8,
    pub word: usize,
}

/// A program or an erase of which nothing tells whether it has failed: no branch on bit 0 of its status comes before the next command, and
/// no `get` of it.
#[derive(Clone, Copy, Debug, PartialEq, Eq)]
pub struct Unchecked {
    /// The word that starts it.
    pub word: usize,
    pub work: ArrayWork,
    /// The first branch after it, on other bits.
    pub branch: Option<BranchAt>,
}

impl ArrayWork {
    // The work that a word starts, where its status tells of all rows that were queued.
    fn of(word: Word) -> Option<ArrayWork> {
        match command_of(word) {
            Some(Command::BlockEraseConfirm) => Some(ArrayWork::Erase),
            Some(Command::ProgramConfirm) => Some(ArrayWork::Program),
            _ => None,
        }
    }
}

// The first branch from a place on, on the way that goes straight on, where no command comes before it.
fn branch_from(words: &[Word], from: usize) -> Option<BranchAt> {
    for (at, word) in words.iter().enumerate().skip(from) {
        match *word {
            Word::BranchOnStatus { mask, .. } => return Some(BranchAt { mask, word: at }),
            Word::Command { .. } | Word::End { .. } | Word::Jump { .. } => return None,
            Word::Address { .. }
            | Word::Get { .. }
            | Word::Put { .. }
            | Word::Seek { .. }
            | Word::Column { .. }
            | Word::RowAdd { .. }
            | Word::Row { .. }
            | Word::Plane { .. }
            | Word::Wait
            | Word::Yield
            | Word::ReadStatus
            | Word::Loop { .. }
            | Word::Next => {}
        }
    }
    None
}

impl Unchecked {
    pub(crate) fn of(linted: &Linted<'_>, at: usize, word: Word) -> Option<Unchecked> {
        let work = ArrayWork::of(word)?;
        let next = at.saturating_add(1);
        if linted.facts_at(at).is_none()
            || leads_to(linted.words, next, Search::FailLook(linted.facts))
        {
            return None;
        }
        Some(Unchecked {
            word: at,
            work,
            branch: branch_from(linted.words, next),
        })
    }
}

impl fmt::Display for ArrayWork {
    fn fmt<W: fmt::Write>(&self, f: &mut fmt::Formatter<W>) -> fmt::Result {
        f.write_str(match self {
            ArrayWork::Erase => "erase",
            ArrayWork::Program => "program",
        })
    }
}

impl fmt::Display for Unchecked {
    fn fmt<W: fmt::Write>(&self, f: &mut fmt::Formatter<W>) -> fmt::Result {
        let work = self.work;
        write!(f, "nothing looks at whether this {work} fails: ")?;
        match self.branch {
            None => write!(f, "a `brs {FAIL:02x}` after its `wait` does"),
            Some(BranchAt { mask, word }) => write!(
                f,
                "`brs {mask:02x}` (word {word}) looks at other bits, `brs {FAIL:02x}` looks at that one"
            ),
        }
    }
}
