//! A `get` that reads the status byte over and over.

use crate::linted::Linted;
use crate::ways::{Search, leads_to};
use micro_explain::{PollAt, loop_around, status_shown_by};
use micro_word::Word;
use std::fmt;

/// How often a status byte is read.
#[derive(Clone, Copy, Debug, PartialEq, Eq)]
pub enum Times {
    /// So many bytes are read at once.
    Bytes { bytes: u32 },
    /// One byte is read in each of so many turns of a loop.
    Turns { turns: u16 },
}

/// A `get` before which the LUN surely shows its status, and which reads that more than once.
#[derive(Clone, Copy, Debug, PartialEq, Eq)]
pub struct StatusRead {
    pub word: usize,
    pub times: Times,
    /// The word that asked for the status, where it can be told.
    pub poll: Option<PollAt>,
    /// The LUN has data to show.
    pub holds_data: bool,
}

// The turns of the innermost loop around a word, where it turns more than once.
fn turns_around(words: &[Word], at: usize) -> Option<u16> {
    match words.get(loop_around(words, at)?) {
        Some(Word::Loop { turns }) if *turns > 1 => Some(*turns),
        _ => None,
    }
}

// How often a `get` reads the status. A single byte in each turn is meant where there is no other data, or where that is shown afterwards.
fn times_read(linted: &Linted<'_>, at: usize, len: u32, holds_data: bool) -> Option<Times> {
    if len > 1 {
        return Some(Times::Bytes { bytes: len });
    }
    let turns = turns_around(linted.words, at)?;
    let meant = !holds_data
        || leads_to(
            linted.words,
            at.saturating_add(1),
            Search::DataShown(linted.words),
        );
    if meant {
        None
    } else {
        Some(Times::Turns { turns })
    }
}

impl StatusRead {
    pub(crate) fn of(linted: &Linted<'_>, at: usize, word: Word) -> Option<StatusRead> {
        let Word::Get { len } = word else {
            return None;
        };
        let facts = linted.facts_at(at)?;
        if !facts.is_ready || !facts.shows_status_alone() {
            return None;
        }
        Some(StatusRead {
            word: at,
            times: times_read(linted, at, len, facts.holds_data)?,
            poll: status_shown_by(linted.words, at, linted.several_luns),
            holds_data: facts.holds_data,
        })
    }
}

impl fmt::Display for Times {
    fn fmt<W: fmt::Write>(&self, f: &mut fmt::Formatter<W>) -> fmt::Result {
        match self {
            Times::Bytes { bytes } => write!(f, "it reads the status {bytes} times"),
            Times::Turns { turns } => write!(f, "it reads the status in each of {turns} turns"),
        }
    }
}

impl fmt::Display for StatusRead {
    fn fmt<W: fmt::Write>(&self, f: &mut fmt::Formatter<W>) -> fmt::Result {
        let times = self.times;
        match self.poll {
            _ if !self.holds_data => write!(
                f,
                "{times}, and the register may be empty: a read must come first"
            ),
            Some(poll) => write!(f, "{times}: a `cmd 00` is missing after {poll}"),
            None => write!(f, "{times}: a `cmd 00` is missing before it"),
        }
    }
}
