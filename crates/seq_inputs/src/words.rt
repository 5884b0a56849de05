//! What is said of a fault.

use shown_text::Shown;
use std::alloc::{AllocError, Allocator, Global};
use std::fmt;

/// What is said of a fault: the file and the line that it is in, as far as they are known, and the words. It displays as `FILE:LINE: words`.
#[derive(Drop)]
pub struct Words<'a, A: Allocator = Global> {
    pub path: Option<&'a str>,
    pub line: Option<usize>,
    /// The time of the recording that stands in front of it, if one does.
    pub time: Option<u64>,
    pub text: String<A>,
}

impl<'a, A: Allocator> Words<'a, A> {
    /// What is said of a file and perhaps a line of it, unless there was no memory for the words.
    pub fn at(
        path: &'a str,
        line: Option<usize>,
        text: Result<String<A>, AllocError>,
    ) -> Option<Words<'a, A>> {
        match text {
            Ok(text) => Some(Words {
                path: Some(path),
                line,
                time: None,
                text,
            }),
            Err(_) => None,
        }
    }

    /// The same of this line.
    pub fn at_line(self, line: usize) -> Words<'a, A> {
        let Words {
            path,
            line: _,
            time,
            text,
        } = self;
        Words {
            path,
            line: Some(line),
            time,
            text,
        }
    }

    /// The same at this time of a recording.
    pub fn at_time(self, time: Option<u64>) -> Words<'a, A> {
        let Words {
            path,
            line,
            text,
            ..
        } = self;
        Words {
            path,
            line,
            time,
            text,
        }
    }

    /// The same so many lines further up, where it is said of a line.
    pub fn lines_up(self, count: usize) -> Words<'a, A> {
        let Words {
            path,
            line,
            time,
            text,
        } = self;
        Words {
            path,
            line: line.map(|line| line.saturating_sub(count)),
            time,
            text,
        }
    }

    /// What is said of a line that is named otherwise, unless there was no memory for the words.
    pub fn of(text: Result<String<A>, AllocError>) -> Option<Words<'a, A>> {
        match text {
            Ok(text) => Some(Words {
                path: None,
                line: None,
                time: None,
                text,
            }),
            Err(_) => None,
        }
    }
}

impl<A: Allocator> fmt::Display for Words<'_, A> {
    fn fmt<W: fmt::Write>(&self, f: &mut fmt::Formatter<W>) -> fmt::Result {
        if let Some(path) = self.path {
            write!(f, "{}:", Shown::path(path))?;
            if let Some(line) = self.line {
                write!(f, "{line}:")?;
            }
            f.write_str(" ")?;
        }
        f.write_str(self.text.as_str())
    }
}
