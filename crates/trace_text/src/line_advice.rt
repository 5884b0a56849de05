//! What is wrong with a line whatever item it is to be.

use shown_text::{Blanks, LineTrouble};
use std::fmt;

// What has to change.
#[derive(Clone, Copy)]
pub(crate) enum LineAdvice {
    // No line feed ends it.
    NotEnded,
    // Nothing stands in it.
    Empty,
    // A character may not stand there.
    Trouble(LineTrouble),
    // It has a comment.
    Comment,
    // A space stands before the first field.
    SpaceBefore,
    // A space stands after the last field.
    SpaceAfter,
    // Two spaces stand between two fields.
    TwoSpaces,
}

impl LineAdvice {
    // What has to change in a line, if it is one of these.
    pub(crate) fn find(line: &str, is_ended: bool) -> Option<LineAdvice> {
        if !is_ended {
            return Some(LineAdvice::NotEnded);
        }
        if line.is_empty() {
            return Some(LineAdvice::Empty);
        }
        if let Some(trouble) = LineTrouble::find(line, Blanks::SingleSpaces) {
            return Some(LineAdvice::Trouble(trouble));
        }
        if line.contains(';') || line.contains('#') || line.contains("//") {
            return Some(LineAdvice::Comment);
        }
        find_space(line)
    }
}

// Which space is one too many.
fn find_space(line: &str) -> Option<LineAdvice> {
    if line.starts_with(' ') {
        return Some(LineAdvice::SpaceBefore);
    }
    if line.ends_with(' ') {
        return Some(LineAdvice::SpaceAfter);
    }
    if line.contains("  ") {
        return Some(LineAdvice::TwoSpaces);
    }
    None
}

impl fmt::Display for LineAdvice {
    fn fmt<W: fmt::Write>(&self, f: &mut fmt::Formatter<W>) -> fmt::Result {
        match self {
            LineAdvice::NotEnded => f.write_str("the last line isn't ended by a line feed (LF)"),
            LineAdvice::Empty => f.write_str("the line is empty: each line of a trace is an item"),
            LineAdvice::Trouble(trouble) => write!(f, "{trouble}"),
            LineAdvice::Comment => f.write_str("a trace has no comments"),
            LineAdvice::SpaceBefore => f.write_str("a space stands before the first field"),
            LineAdvice::SpaceAfter => f.write_str("a space stands after the last field"),
            LineAdvice::TwoSpaces => {
                f.write_str("two spaces stand in a row; one stands between two fields")
            }
        }
    }
}
