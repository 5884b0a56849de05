//! Words that no way reaches.

use crate::linted::Linted;
use micro_word::Word;
use std::fmt;

/// How the word before goes another way.
#[derive(Clone, Copy, Debug, PartialEq, Eq)]
pub enum WayOff {
    /// It is an `end`.
    End,
    /// It is a `jmp`.
    Jump,
    /// It is another, and is reached on no way that goes on.
    Other,
}

/// Words that no way reaches, from the first to the last of them.
#[derive(Clone, Copy, Debug, PartialEq, Eq)]
pub struct Unreached {
    pub first: usize,
    pub last: usize,
    /// How the word before the first goes another way.
    pub off: WayOff,
}

impl WayOff {
    fn of(word: Option<&Word>) -> WayOff {
        match word {
            Some(Word::End { .. }) => WayOff::End,
            Some(Word::Jump { .. }) => WayOff::Jump,
            _ => WayOff::Other,
        }
    }
}

impl Unreached {
    /// From this word on, where it is the first of them.
    pub(crate) fn of(linted: &Linted<'_>, at: usize) -> Option<Unreached> {
        let before = at.checked_sub(1)?;
        if linted.facts_at(at).is_some() || linted.facts_at(before).is_none() {
            return None;
        }
        Some(Unreached {
            first: at,
            last: last_unreached(linted, at),
            off: WayOff::of(linted.words.get(before)),
        })
    }
}

// The last of the words from a place on that no way reaches.
fn last_unreached(linted: &Linted<'_>, first: usize) -> usize {
    let mut last = first;
    for at in first..linted.words.len() {
        if linted.facts_at(at).is_some() {
            return last;
        }
        last = at;
    }
    last
}

impl fmt::Display for Unreached {
    fn fmt<W: fmt::Write>(&self, f: &mut fmt::Formatter<W>) -> fmt::Result {
        f.write_str(match self.off {
            WayOff::End => "an `end` stands before it and no branch leads here: ",
            WayOff::Jump => "a `jmp` stands before it and no branch leads here: ",
            WayOff::Other => "no way leads here: ",
        })?;
        let (first, last) = (self.first, self.last);
        if first == last {
            f.write_str("leave it out")
        } else {
            write!(f, "leave words {first} to {last} out")
        }
    }
}
