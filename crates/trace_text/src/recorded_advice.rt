//! What is wrong with a line of a recorded text whatever item it is to be.

use shown_text::{Blanks, Fields, LineTrouble, Shown};
use std::fmt;

// What has to change.
#[derive(Clone, Copy)]
pub(crate) enum RecordedAdvice<'a> {
    // No line feed ends it.
    NotEnded,
    // A character may not stand there.
    Trouble(LineTrouble),
    // The time isn't a number, or is too large.
    BadTime(&'a str),
    // No item stands behind the time.
    NoItem,
}

impl<'a> RecordedAdvice<'a> {
    // What has to change in a line, if it is one of these.
    pub(crate) fn find(line: &'a str, is_ended: bool) -> Option<RecordedAdvice<'a>> {
        if !is_ended {
            return Some(RecordedAdvice::NotEnded);
        }
        let text = text_of(line);
        if let Some(trouble) = LineTrouble::find(text, Blanks::SpacesAndTabs) {
            return Some(RecordedAdvice::Trouble(trouble));
        }
        let time = Fields::of(text).get(0)?;
        let digits = time.strip_prefix('@')?;
        if digits.parse::<u64>().is_err() || digits.starts_with('+') {
            return Some(RecordedAdvice::BadTime(time));
        }
        match Fields::of(text).get(1) {
            Some(_) => None,
            None => Some(RecordedAdvice::NoItem),
        }
    }
}

// The line without its carriage return and its comment.
fn text_of(line: &str) -> &str {
    let line = line.strip_suffix('\r').unwrap_or(line);
    let text = match line.split_once('#') {
        Some((front, _)) => front,
        None => line,
    };
    Fields::of(text).text()
}

// The part of a line in which its item is to stand, behind its time.
pub(crate) fn item_text(line: &str) -> &str {
    let text = text_of(line);
    match Fields::of(text).get(0) {
        Some(time) if time.starts_with('@') => match text.split_once(time) {
            Some((_, item)) => item,
            None => text,
        },
        _ => text,
    }
}

impl fmt::Display for RecordedAdvice<'_> {
    fn fmt<W: fmt::Write>(&self, f: &mut fmt::Formatter<W>) -> fmt::Result {
        match self {
            RecordedAdvice::NotEnded => {
                f.write_str("the last line isn't ended by a line feed (LF)")
            }
            RecordedAdvice::Trouble(trouble) => write!(f, "{trouble}"),
            RecordedAdvice::BadTime(time) => write!(
                f,
                "`{}` is no time: a time is `@` and a decimal number below 2^64",
                Shown::line(time)
            ),
            RecordedAdvice::NoItem => f.write_str("no item stands behind the time"),
        }
    }
}
