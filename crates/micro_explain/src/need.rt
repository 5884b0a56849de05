//! A number of the header that is too small.

use crate::header_number::HeaderNumber;
use std::fmt;

/// How much of something a program may need, and what its header gives.
#[derive(Clone, Copy, Debug, PartialEq, Eq)]
pub struct Need {
    pub number: HeaderNumber,
    /// None where there is no bound.
    pub needed: Option<u32>,
    pub given: u32,
}

impl fmt::Display for Need {
    fn fmt<W: fmt::Write>(&self, f: &mut fmt::Formatter<W>) -> fmt::Result {
        let (number, given) = (self.number, self.given);
        let most = number.most();
        match self.needed {
            None => write!(
                f,
                "no bound is known for the `{number}` that it needs, and the header gives {given}"
            ),
            Some(needed) if needed > most => write!(
                f,
                "it needs `{number} {needed}`, and a header gives {most} at most"
            ),
            Some(needed) => write!(
                f,
                "it needs `{number} {needed}`, and the header gives {given}"
            ),
        }
    }
}
