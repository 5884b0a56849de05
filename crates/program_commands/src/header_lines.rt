//! A header as its three lines.

use micro_lint::Header;
use std::fmt;

/// The lines of a header.
#[derive(Clone, Copy)]
pub(crate) struct HeaderLines(pub Header);

impl fmt::Display for HeaderLines {
    fn fmt<W: fmt::Write>(&self, f: &mut fmt::Formatter<W>) -> fmt::Result {
        let Header {
            rows,
            buffer,
            budget,
        } = self.0;
        write!(f, "rows {rows}\nbuffer {buffer}\nbudget {budget}\n")
    }
}
