//! A line that is no header line, no word and no label.

use crate::header_line::HeaderLine;
use crate::names::{Name, name_of};
use crate::operands::is_label;
use shown_text::{Fields, Meant, Shown};
use std::fmt;

// The names of words.
const WORDS: [&str; 17] = [
    "end", "cmd", "addr", "get", "put", "seek", "col", "row", "rowadd", "plane", "wait", "yield",
    "stat", "brs", "jmp", "loop", "next",
];

// The names of header lines.
const HEADERS: [&str; 3] = ["rows", "buffer", "budget"];

// Why a line is none.
#[derive(Clone, Copy)]
pub(crate) enum UnknownLine<'a> {
    // A header line after the header.
    Header(HeaderLine),
    // No word has this name, which may be meant to be another.
    Misspelt {
        word: &'a str,
        meant: Meant<'static>,
    },
    // No word has this name, which is the only field.
    Alone {
        word: &'a str,
    },
    // No word has this name.
    NoWord {
        word: &'a str,
    },
    // Something stands after the label.
    AfterLabel {
        label: &'a str,
    },
    // A label hasn't the form of one.
    LabelForm {
        label: &'a str,
    },
    // A branch leads to a number.
    BranchToNumber,
    // A branch leads to a label with its colon.
    BranchWithColon {
        label: &'a str,
    },
}

impl<'a> UnknownLine<'a> {
    // Why this line is none, in the place of a header line or in that of a word.
    pub(crate) fn of(line: &'a str, heads: bool) -> UnknownLine<'a> {
        let fields = Fields::of(line);
        let word = fields.get(0).unwrap_or("");
        match name_of(heads, word.as_bytes()) {
            Some(Name::Branch) => of_target(fields.get(2).unwrap_or("")),
            Some(Name::Jump | Name::Number(_) | Name::Bare(_) | Name::Command | Name::Address) =>
                of_target(fields.get(1).unwrap_or("")),
            None => of_first(word, fields.count() > 1, heads),
        }
    }
}

// Why the target of a branch is none.
fn of_target(target: &str) -> UnknownLine<'_> {
    if !target.is_empty() && target.bytes().all(|byte| byte.is_ascii_digit()) {
        return UnknownLine::BranchToNumber;
    }
    match name_before_colon(target) {
        Some(label) => UnknownLine::BranchWithColon { label },
        None => UnknownLine::LabelForm { label: target },
    }
}

// The name of a label in front of its colon.
fn name_before_colon(field: &str) -> Option<&str> {
    let name = field.strip_suffix(':')?;
    if is_label(name.as_bytes()) {
        Some(name)
    } else {
        None
    }
}

// Why a line with this first field is none.
fn of_first(word: &str, has_more: bool, heads: bool) -> UnknownLine<'_> {
    if name_before_colon(word).is_some() {
        return UnknownLine::AfterLabel { label: word };
    }
    if word.ends_with(':') {
        return UnknownLine::LabelForm { label: word };
    }
    if let Some(header) = HeaderLine::of_name(word) {
        return UnknownLine::Header(header);
    }
    match find_meant(word, heads) {
        Some(meant) => UnknownLine::Misspelt { word, meant },
        None if has_more || !is_label(word.as_bytes()) => UnknownLine::NoWord { word },
        None => UnknownLine::Alone { word },
    }
}

// What the name is meant to be, where a header line is to stand or where a word is.
fn find_meant(word: &str, heads: bool) -> Option<Meant<'static>> {
    let header = if heads {
        Meant::find(word, &HEADERS)
    } else {
        None
    };
    match header {
        Some(meant) => Some(meant),
        None => Meant::find(word, &WORDS),
    }
}

impl fmt::Display for UnknownLine<'_> {
    fn fmt<W: fmt::Write>(&self, f: &mut fmt::Formatter<W>) -> fmt::Result {
        match self {
            UnknownLine::Header(line) => write!(
                f,
                "`{line}` stands only among the first three lines"
            ),
            UnknownLine::Misspelt { word, meant } => {
                write!(f, "no word `{}`: {meant}", Shown::line(word))
            }
            UnknownLine::Alone { word } => {
                write!(
                    f,
                    "no word `{word}`; a label has a colon after it: `{word}:`"
                )
            }
            UnknownLine::NoWord { word } => {
                write!(
                    f,
                    "no word `{}`, and no label alone on its line",
                    Shown::line(word)
                )
            }
            UnknownLine::AfterLabel { label } => {
                write!(
                    f,
                    "a label stands alone on its line: what comes after `{label}` begins the next line"
                )
            }
            UnknownLine::LabelForm { label } => {
                write!(
                    f,
                    "`{}` is no label: a label is a letter, then letters, digits or _, 32 at most",
                    Shown::line(label)
                )
            }
            UnknownLine::BranchToNumber => {
                f.write_str(
                    "a branch leads to a label, not to a number: write `there:` on a line of its own before that word, and `there` here",
                )
            }
            UnknownLine::BranchWithColon { label } => {
                write!(
                    f,
                    "the colon stands at the label alone: write `{label}` here"
                )
            }
        }
    }
}
