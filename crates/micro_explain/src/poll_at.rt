//! A word by which a status may be asked for, with its place.

use crate::poll_word::PollWord;
use std::fmt;

/// A word by which a status may be asked for, and its place.
#[derive(Clone, Copy, Debug, PartialEq, Eq)]
pub struct PollAt {
    pub poll: PollWord,
    pub word: usize,
}

impl fmt::Display for PollAt {
    fn fmt<W: fmt::Write>(&self, f: &mut fmt::Formatter<W>) -> fmt::Result {
        write!(f, "{} (word {})", self.poll, self.word)
    }
}
