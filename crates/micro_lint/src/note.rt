//! What the author of a program surely didn't mean.

use crate::excess::Excess;
use crate::idle_loop::IdleLoop;
use crate::idle_poll::IdlePoll;
use crate::misordered::Misordered;
use crate::rewritten::Rewritten;
use crate::status_read::StatusRead;
use crate::unchecked::Unchecked;
use crate::unreached::Unreached;
use std::fmt;

/// What the author of a program surely didn't mean, though the verifier accepts it. It displays what is wrong and what mends it.
#[derive(Clone, Copy, Debug, PartialEq, Eq)]
pub enum Note {
    /// N1: a `get` reads the status byte over and over.
    StatusRead(StatusRead),
    /// N2: a row is programmed twice with no erase between.
    Rewritten(Rewritten),
    /// N3: the pages of a block are programmed out of order.
    Misordered(Misordered),
    /// N4: nobody looks at whether a program or an erase fails.
    Unchecked(Unchecked),
    /// N5: a number of the header is larger than is needed.
    Excess(Excess),
    /// N6: no way reaches some words.
    Unreached(Unreached),
    /// N7: a loop turns once, or has no words.
    IdleLoop(IdleLoop),
    /// N8: nothing uses the status of a LUN that is ready.
    IdlePoll(IdlePoll),
}

impl Note {
    /// Its code.
    pub fn code(self) -> &'static str {
        match self {
            Note::StatusRead(_) => "N1",
            Note::Rewritten(_) => "N2",
            Note::Misordered(_) => "N3",
            Note::Unchecked(_) => "N4",
            Note::Excess(_) => "N5",
            Note::Unreached(_) => "N6",
            Note::IdleLoop(_) => "N7",
            Note::IdlePoll(_) => "N8",
        }
    }

    /// The place of the word that it is of; None where it is of the header.
    pub fn word(self) -> Option<usize> {
        match self {
            Note::StatusRead(read) => Some(read.word),
            Note::Rewritten(rewritten) => Some(rewritten.word),
            Note::Misordered(misordered) => Some(misordered.word),
            Note::Unchecked(unchecked) => Some(unchecked.word),
            Note::Excess(_) => None,
            Note::Unreached(unreached) => Some(unreached.first),
            Note::IdleLoop(idle) => Some(idle.word()),
            Note::IdlePoll(idle) => Some(idle.word),
        }
    }
}

impl fmt::Display for Note {
    fn fmt<W: fmt::Write>(&self, f: &mut fmt::Formatter<W>) -> fmt::Result {
        match self {
            Note::StatusRead(read) => write!(f, "{read}"),
            Note::Rewritten(rewritten) => write!(f, "{rewritten}"),
            Note::Misordered(misordered) => write!(f, "{misordered}"),
            Note::Unchecked(unchecked) => write!(f, "{unchecked}"),
            Note::Excess(excess) => write!(f, "{excess}"),
            Note::Unreached(unreached) => write!(f, "{unreached}"),
            Note::IdleLoop(idle) => write!(f, "{idle}"),
            Note::IdlePoll(idle) => write!(f, "{idle}"),
        }
    }
}
