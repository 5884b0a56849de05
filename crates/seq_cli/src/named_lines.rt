//! Lines that say which file they are about.

use memchr::memchr;
use shown_text::Shown;
use std::io::{self, Write};

/// An output each of whose lines begins with a path and `: `, but for those that name it themselves.
#[derive(Drop)]
pub(crate) struct NamedLines<'a, W: Write> {
    output: &'a mut W,
    path: &'a str,
    /// What comes next begins a line.
    begins: bool,
}

impl<'a, W: Write> NamedLines<'a, W> {
    /// The lines of an output that are about this path.
    pub(crate) fn new(output: &'a mut W, path: &'a str) -> NamedLines<'a, W> {
        NamedLines {
            output,
            path,
            begins: true,
        }
    }
}

// The first line of these bytes, with its end.
fn first_line(bytes: &[u8]) -> &[u8] {
    match memchr(b'\n', bytes) {
        Some(place) => bytes.get(..place.saturating_add(1)).unwrap_or(bytes),
        None => bytes,
    }
}

// A line names its file itself: the path and a colon stand in front, or it is an object for a tool.
fn names_itself(line: &[u8], path: &str) -> bool {
    let behind = line.strip_prefix(path.as_bytes());
    line.starts_with(b"{") || behind.is_some_and(|rest| rest.starts_with(b":"))
}

impl<W: Write> Write for NamedLines<'_, W> {
    fn write(&mut self, buf: &[u8]) -> io::Result<usize> {
        let line = first_line(buf);
        if self.begins && !line.is_empty() {
            if !names_itself(line, self.path) {
                write!(self.output, "{}: ", Shown::path(self.path))?;
            }
            self.begins = false;
        }
        self.output.write_all(line)?;
        if line.ends_with(b"\n") {
            self.begins = true;
        }
        Ok(line.len().min(buf.len()))
    }

    fn flush(&mut self) -> io::Result<()> {
        self.output.flush()
    }
}
