//! What is said of a header that was counted.

use crate::headed::is_headless;
use crate::style::Style;
use crate::told::Told;
use micro_lint::Header;
use micro_word::Text;
use shown_text::Shown;
use std::alloc::Allocator;
use std::fmt;
use std::io::{self, Write};

/// The microprogram at a path is an assembly text without a header, and this one was counted for it.
#[derive(Clone, Copy, Debug)]
pub struct CountedHeader<'p> {
    pub path: &'p str,
    pub header: Header,
}

impl fmt::Display for CountedHeader<'_> {
    fn fmt<W: fmt::Write>(&self, f: &mut fmt::Formatter<W>) -> fmt::Result {
        let Header {
            rows,
            buffer,
            budget,
        } = self.header;
        write!(
            f,
            "it has no header, for which `rows {rows}`, `buffer {buffer}` and `budget {budget}` are counted"
        )
    }
}

impl<'p> CountedHeader<'p> {
    /// The header that was counted for the text of a microprogram that was read from these bytes; none where they have one.
    pub fn of<A: Allocator>(
        path: &'p str,
        bytes: &[u8],
        text: &Text<A>,
    ) -> Option<CountedHeader<'p>> {
        if is_headless(bytes) {
            let header = Header::of(text);
            Some(CountedHeader { path, header })
        } else {
            None
        }
    }

    fn write<E: Write>(self, errors: &mut E, style: Style) -> io::Result<()> {
        match style {
            Style::Plain => writeln!(errors, "{}: {self}", Shown::path(self.path))?,
            Style::Json => {
                let told = Told {
                    path: Some(self.path),
                    ..Told::message(&self)
                };
                writeln!(errors, "{told}")?;
            }
        }
        errors.flush()
    }

    /// Says it. Where standard error takes nothing, nothing is said.
    pub fn say<E: Write>(self, errors: &mut E, style: Style) {
        let _ = self.write(errors, style);
    }
}

/// Says which header was counted for a microprogram that was read from these bytes, where they are a text without one. Where standard error takes
/// nothing, nothing is said.
pub fn say_counted<A: Allocator, E: Write>(
    errors: &mut E,
    style: Style,
    path: &str,
    bytes: &[u8],
    text: &Text<A>,
) {
    if let Some(counted) = CountedHeader::of(path, bytes, text) {
        counted.say(errors, style);
    }
}
