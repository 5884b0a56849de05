//! How much of a trace belongs to a vendor's sequences.

use std::fmt;

/// How much of a trace is passed over, since it belongs to a vendor's sequences.
#[derive(Clone, Copy, Debug, PartialEq, Eq)]
pub struct PassedAmount {
    pub sequences: usize,
    pub items: usize,
}

impl fmt::Display for PassedAmount {
    fn fmt<W: fmt::Write>(&self, f: &mut fmt::Formatter<W>) -> fmt::Result {
        write!(
            f,
            "passed over: {} vendor sequences, {} items",
            self.sequences, self.items
        )
    }
}
