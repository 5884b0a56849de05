//! Lines that are right by themselves, but not where they stand.

use crate::header_line::HeaderLine;
use shown_text::{Fields, is_near, line_at};
use std::fmt;

// Why a line may not stand in its place.
#[derive(Clone, Copy)]
pub(crate) enum BadPlace<'a> {
    // No label has this name, to which another may be near.
    NoLabel {
        label: &'a str,
        near: Option<&'a str>,
    },
    // This line has the same label.
    LabelBefore {
        line: usize,
    },
    // No word comes after the label.
    LastLabel,
    // There are as many words already as there may be.
    TooManyWords,
    // This header line is to stand here.
    HeaderWanted(HeaderLine),
    // The text ends before this header line.
    HeaderEnds(HeaderLine),
}

impl<'a> BadPlace<'a> {
    // Why this branch may not stand in a text.
    pub(crate) fn of_branch(text: &'a str, branch: &'a str) -> BadPlace<'a> {
        let label = target_of(branch);
        let near = match find_label(text, 1, label) {
            Some(near) => Some(near),
            None => find_label(text, 2, label),
        };
        BadPlace::NoLabel { label, near }
    }

    // Why this label may not stand in a text, another line of which has it already.
    pub(crate) fn of_label(text: &str, label: &str) -> BadPlace<'a> {
        BadPlace::LabelBefore {
            line: find_line(text, label),
        }
    }

    // Which header line is wanted in the place of this line.
    pub(crate) fn of_header(text: &str, line: usize) -> BadPlace<'a> {
        let wanted = HeaderLine::wanted_at(text, line).unwrap_or(HeaderLine::Budget);
        match Fields::of(line_at(text, line)).get(0) {
            Some(_) => BadPlace::HeaderWanted(wanted),
            None => BadPlace::HeaderEnds(wanted),
        }
    }
}

// The label to which a branch leads: its last field.
fn target_of(branch: &str) -> &str {
    let fields = Fields::of(branch);
    match fields.get(2) {
        Some(label) => label,
        None => fields.get(1).unwrap_or(""),
    }
}

// The first label of the text that is at most so many edits away from this one.
fn find_label<'a>(text: &'a str, edits: u8, label: &str) -> Option<&'a str> {
    for line in text.split('\n') {
        if let Some(name) = label_in(line)
            && is_near(edits, label, name)
        {
            return Some(name);
        }
    }
    None
}

// The label that a line is.
fn label_in(line: &str) -> Option<&str> {
    Fields::of(line).get(0)?.strip_suffix(':')
}

// The number of the first line with the label of this line.
fn find_line(text: &str, label: &str) -> usize {
    let wanted = label_in(label);
    let mut number: usize = 1;
    for line in text.split('\n') {
        if label_in(line) == wanted {
            return number;
        }
        number = number.saturating_add(1);
    }
    number
}

impl fmt::Display for BadPlace<'_> {
    fn fmt<W: fmt::Write>(&self, f: &mut fmt::Formatter<W>) -> fmt::Result {
        match self {
            BadPlace::NoLabel {
                label,
                near: Some(near),
            } => { write!(f, "no line is the label `{label}:`: is `{near}` meant?") }
            BadPlace::NoLabel { label, near: None } => {
                write!(f, "no line is the label `{label}:`")
            }
            BadPlace::LabelBefore { line } => write!(f, "line {line} has this label already"),
            BadPlace::LastLabel => f.write_str("a label names the next word, and there is none"),
            BadPlace::TooManyWords => f.write_str("a text has 1,024 words at most"),
            BadPlace::HeaderWanted(wanted) => {
                write!(
                    f,
                    "`{wanted}` is wanted here: the first three lines are rows N, buffer N and budget N, in this order"
                )
            }
            BadPlace::HeaderEnds(wanted) => {
                write!(
                    f,
                    "the text ends before `{wanted}`: its first three lines are rows N, buffer N and budget N, in this order"
                )
            }
        }
    }
}
