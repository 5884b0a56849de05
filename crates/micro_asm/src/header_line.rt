//! The lines of the header, for messages.

use shown_text::lines_before;
use std::fmt;

// One of the three lines of the header.
#[derive(Clone, Copy)]
pub(crate) enum HeaderLine {
    Rows,
    Buffer,
    Budget,
}

impl HeaderLine {
    // The header line that is wanted at this line of a text, all lines before being in order.
    pub(crate) fn wanted_at(text: &str, line: usize) -> Option<HeaderLine> {
        match lines_before(text, line) {
            0 => Some(HeaderLine::Rows),
            1 => Some(HeaderLine::Buffer),
            2 => Some(HeaderLine::Budget),
            _ => None,
        }
    }

    // The header line of this name.
    pub(crate) fn of_name(name: &str) -> Option<HeaderLine> {
        match name {
            "rows" => Some(HeaderLine::Rows),
            "buffer" => Some(HeaderLine::Buffer),
            "budget" => Some(HeaderLine::Budget),
            _ => None,
        }
    }
}

impl fmt::Display for HeaderLine {
    fn fmt<W: fmt::Write>(&self, f: &mut fmt::Formatter<W>) -> fmt::Result {
        f.write_str(match self {
            HeaderLine::Rows => "rows N",
            HeaderLine::Buffer => "buffer N",
            HeaderLine::Budget => "budget N",
        })
    }
}
