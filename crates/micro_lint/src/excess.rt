//! A header that gives more than is needed.

use crate::header::Header;
use micro_explain::HeaderNumber;
use std::fmt;

/// A number of the header that is larger than is needed.
#[derive(Clone, Copy, Debug, PartialEq, Eq)]
pub struct Excess {
    pub number: HeaderNumber,
    /// The least that is enough.
    pub enough: u32,
    pub given: u32,
}

// The excess of one number.
fn excess_of(number: HeaderNumber, enough: u32, given: u32) -> Option<Excess> {
    if enough < given {
        Some(Excess {
            number,
            enough,
            given,
        })
    } else {
        None
    }
}

impl Excess {
    /// What a header gives that isn't needed.
    pub(crate) fn all(least: Header, given: Header) -> [Option<Excess>; 3] {
        [
            excess_of(HeaderNumber::Rows, least.rows, given.rows),
            excess_of(HeaderNumber::Buffer, least.buffer, given.buffer),
            excess_of(HeaderNumber::Budget, least.budget, given.budget),
        ]
    }
}

impl fmt::Display for Excess {
    fn fmt<W: fmt::Write>(&self, f: &mut fmt::Formatter<W>) -> fmt::Result {
        let (number, enough, given) = (self.number, self.enough, self.given);
        write!(
            f,
            "the header gives `{number} {given}`, and `{number} {enough}` is enough"
        )
    }
}
