//! A status that nothing uses, of a LUN that is ready.

use crate::linted::Linted;
use crate::ways::{Search, leads_to};
use micro_explain::PollWord;
use micro_word::Word;
use std::fmt;

/// A `wait` or `stat` on a LUN that surely is ready and drives the bus alone, and whose status nothing uses before the next poll.
#[derive(Clone, Copy, Debug, PartialEq, Eq)]
pub struct IdlePoll {
    pub word: usize,
    pub poll: PollWord,
}

// The word as one that asks for the status.
fn poll_of(word: Word) -> Option<PollWord> {
    match word {
        Word::Wait => Some(PollWord::Wait),
        Word::ReadStatus => Some(PollWord::Stat),
        _ => None,
    }
}

impl IdlePoll {
    pub(crate) fn of(linted: &Linted<'_>, at: usize, word: Word) -> Option<IdlePoll> {
        let poll = poll_of(word)?;
        let facts = linted.facts_at(at)?;
        let next = at.saturating_add(1);
        if !facts.is_ready
            || facts.shows.is_none()
            || leads_to(linted.words, next, Search::StatusUse(linted.facts))
        {
            return None;
        }
        Some(IdlePoll { word: at, poll })
    }
}

impl fmt::Display for IdlePoll {
    fn fmt<W: fmt::Write>(&self, f: &mut fmt::Formatter<W>) -> fmt::Result {
        let poll = self.poll;
        write!(
            f,
            "the LUN is ready already, and nothing uses the status of this {poll}: leave it out"
        )
    }
}
