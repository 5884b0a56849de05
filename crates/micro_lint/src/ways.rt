//! Where the ways lead from a word.

use crate::facts::{Facts, facts_at};
use micro_explain::{command_of, loop_around};
use micro_word::{MAX_WORDS, Word};
use onfi_cycle::Command;

/// The bit of a status that says that the last program or erase has failed.
pub(crate) const FAIL: u8 = 0x01;

/// What is looked for on the ways that lead from a word.
#[derive(Clone, Copy)]
pub(crate) enum Search<'a> {
    /// A branch on the FAIL bit or a `get` of the status, before the next command.
    FailLook(&'a [Option<Facts>]),
    /// A branch or a `get` of the status, before the next poll.
    StatusUse(&'a [Option<Facts>]),
    /// A branch, or a `cmd 00` that shows the data again, before the next poll or read.
    DataShown(&'a [Word]),
}

// What a word on the way does to a search.
enum Fate {
    /// It is what is looked for.
    Found,
    /// The way ends there.
    Ends,
    GoesOn,
}

// The word is a `get` that may read the status.
fn may_read_status(facts: &[Option<Facts>], at: usize) -> bool {
    match facts_at(facts, at) {
        None => false,
        Some(facts) => facts.may_show_status(),
    }
}

// The word is a `cmd 00` without an address after it.
fn is_lone_read(words: &[Word], at: usize) -> bool {
    !matches!(words.get(at.saturating_add(1)), Some(Word::Address { .. }))
}

// Found, or on.
fn found_if(found: bool) -> Fate {
    if found { Fate::Found } else { Fate::GoesOn }
}

// To a look at whether work has failed.
fn fate_of_fail_look(facts: &[Option<Facts>], at: usize, word: Word) -> Fate {
    match word {
        Word::BranchOnStatus { mask, .. } => found_if(mask & FAIL != 0),
        Word::Get { .. } => found_if(may_read_status(facts, at)),
        Word::End { .. } | Word::Command { .. } | Word::Address { .. } | Word::Put { .. } => {
            Fate::Ends
        }
        Word::Seek { .. }
        | Word::Column { .. }
        | Word::RowAdd { .. }
        | Word::Row { .. }
        | Word::Plane { .. }
        | Word::Wait
        | Word::Yield
        | Word::ReadStatus
        | Word::Loop { .. }
        | Word::Next
        | Word::Jump { .. } => Fate::GoesOn,
    }
}

// To a use of a status.
fn fate_of_status_use(facts: &[Option<Facts>], at: usize, word: Word) -> Fate {
    match word {
        Word::BranchOnStatus { .. } => Fate::Found,
        Word::Get { .. } => found_if(may_read_status(facts, at)),
        Word::End { .. } | Word::Wait | Word::ReadStatus => Fate::Ends,
        Word::Command { .. }
        | Word::Address { .. }
        | Word::Put { .. }
        | Word::Seek { .. }
        | Word::Column { .. }
        | Word::RowAdd { .. }
        | Word::Row { .. }
        | Word::Plane { .. }
        | Word::Yield
        | Word::Loop { .. }
        | Word::Next
        | Word::Jump { .. } => Fate::GoesOn,
    }
}

// To data that is shown again.
fn fate_of_data_shown(words: &[Word], at: usize, word: Word) -> Fate {
    match word {
        Word::BranchOnStatus { .. } => Fate::Found,
        Word::Command { .. } => match command_of(word) {
            Some(Command::Read) if is_lone_read(words, at) => Fate::Found,
            Some(Command::Read) => Fate::Ends,
            Some(Command::ChangeReadColumnEnhanced) => Fate::Found,
            _ => Fate::GoesOn,
        },
        Word::End { .. } | Word::Wait | Word::ReadStatus => Fate::Ends,
        Word::Get { .. }
        | Word::Address { .. }
        | Word::Put { .. }
        | Word::Seek { .. }
        | Word::Column { .. }
        | Word::RowAdd { .. }
        | Word::Row { .. }
        | Word::Plane { .. }
        | Word::Yield
        | Word::Loop { .. }
        | Word::Next
        | Word::Jump { .. } => Fate::GoesOn,
    }
}

impl Search<'_> {
    // What the word at a place does to the search.
    fn fate(self, at: usize, word: Word) -> Fate {
        match self {
            Search::FailLook(facts) => fate_of_fail_look(facts, at, word),
            Search::StatusUse(facts) => fate_of_status_use(facts, at, word),
            Search::DataShown(words) => fate_of_data_shown(words, at, word),
        }
    }
}

// The places to which the ways lead.
#[derive(Drop)]
struct Ways {
    reached: [bool; MAX_WORDS],
}

impl Ways {
    // A way leads to a place.
    fn reach(&mut self, at: usize) {
        if at < MAX_WORDS {
            self.reached[at] = true;
        }
    }

    fn is_reached(&self, at: usize) -> bool {
        at < MAX_WORDS && self.reached[at]
    }

    // To each place where the word at a place leads.
    fn lead(&mut self, words: &[Word], at: usize, word: Word) {
        match word {
            Word::End { .. } => {}
            Word::Jump { target } => self.reach(usize::from(target)),
            Word::BranchOnStatus { target, .. } => {
                self.reach(at.saturating_add(1));
                self.reach(usize::from(target));
            }
            Word::Next => self.lead_from_next(words, at),
            Word::Command { .. }
            | Word::Address { .. }
            | Word::Get { .. }
            | Word::Put { .. }
            | Word::Seek { .. }
            | Word::Column { .. }
            | Word::RowAdd { .. }
            | Word::Row { .. }
            | Word::Plane { .. }
            | Word::Wait
            | Word::Yield
            | Word::ReadStatus
            | Word::Loop { .. } => self.reach(at.saturating_add(1)),
        }
    }

    // On, and back to the first word of the loop.
    fn lead_from_next(&mut self, words: &[Word], at: usize) {
        self.reach(at.saturating_add(1));
        if let Some(opener) = loop_around(words, at) {
            self.reach(opener.saturating_add(1));
        }
    }

    // Once through the text. Whether what is looked for stands on a way.
    fn pass(&mut self, words: &[Word], search: Search<'_>) -> bool {
        for (at, word) in words.iter().enumerate() {
            if self.is_reached(at) {
                match search.fate(at, *word) {
                    Fate::Found => return true,
                    Fate::Ends => {}
                    Fate::GoesOn => self.lead(words, at, *word),
                }
            }
        }
        false
    }
}

// Ways lead back from the ends of four loops at most, one in the other.
const PASSES: usize = 5;

/// Whether what is looked for stands on a way that leads from a place on.
pub(crate) fn leads_to(words: &[Word], from: usize, search: Search<'_>) -> bool {
    let mut ways = Ways {
        reached: [false; MAX_WORDS],
    };
    ways.reach(from);
    for _ in 0..PASSES {
        if ways.pass(words, search) {
            return true;
        }
    }
    false
}
