//! A rule that an item breaks, in words.

use crate::cause::CauseInLine;
use onfi_cycle::Forbidden;
use std::fmt;

/// A rule that an item breaks, with the cause, where that is one that can be named, and the code.
#[derive(Clone, Copy)]
pub struct BrokenInWords {
    pub rule: Forbidden,
    pub cause: Option<CauseInLine>,
}

impl fmt::Display for BrokenInWords {
    fn fmt<W: fmt::Write>(&self, f: &mut fmt::Formatter<W>) -> fmt::Result {
        match self.cause {
            Some(cause) => write!(f, "{cause} ({})", self.rule.code()),
            None => write!(f, "{} ({})", self.rule, self.rule.code()),
        }
    }
}
