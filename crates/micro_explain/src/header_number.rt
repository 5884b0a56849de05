//! The numbers of a header.

use micro_word::{Format, MAX_ROWS};
use std::fmt;

/// A number of the header.
#[derive(Clone, Copy, Debug, PartialEq, Eq)]
pub enum HeaderNumber {
    Rows,
    Buffer,
    Budget,
}

impl HeaderNumber {
    /// The most that a header may give.
    pub(crate) fn most(self) -> u32 {
        match self {
            HeaderNumber::Rows => u32::from(MAX_ROWS),
            HeaderNumber::Buffer => Format::Two.limit(),
            HeaderNumber::Budget => u32::MAX,
        }
    }
}

impl fmt::Display for HeaderNumber {
    fn fmt<W: fmt::Write>(&self, f: &mut fmt::Formatter<W>) -> fmt::Result {
        f.write_str(match self {
            HeaderNumber::Rows => "rows",
            HeaderNumber::Buffer => "buffer",
            HeaderNumber::Budget => "budget",
        })
    }
}
