//! A line that is no statement.

use crate::name::{Name, name_of};
use crate::takes::{count_fields, layout_of};
use micro_asm::number_of;
use shown_text::{Fields, Meant, Shown, is_foreign_comment};
use std::fmt;

// The names of statements.
const NAMES: [&str; 6] = ["page", "targets", "image", "job", "polls", "fail"];

// Why a line is no statement.
#[derive(Clone, Copy)]
pub(crate) enum UnknownStatement<'a> {
    // A comment begins as in another language.
    ForeignComment,
    // No statement has this name, which may be meant to be another.
    Misspelt {
        word: &'a str,
        meant: Meant<'static>,
    },
    // No statement has this name.
    NoStatement {
        word: &'a str,
    },
    // A field is missing.
    Missing {
        layout: &'static str,
    },
    // A line `polls` speaks of no work that there is.
    NoWork {
        word: &'a str,
    },
    // This field is one too many.
    Extra {
        layout: &'static str,
        field: &'a str,
    },
}

impl<'a> UnknownStatement<'a> {
    // Why this line is no statement.
    pub(crate) fn of(line: &'a str) -> UnknownStatement<'a> {
        let fields = Fields::of(line);
        let word = fields.get(0).unwrap_or("");
        match name_of(word.as_bytes()) {
            Some(name) => of_fields(fields, name),
            None => of_word(word),
        }
    }
}

// Why this word begins no statement.
fn of_word(word: &str) -> UnknownStatement<'_> {
    if is_foreign_comment(word) {
        return UnknownStatement::ForeignComment;
    }
    match Meant::find(word, &NAMES) {
        Some(meant) => UnknownStatement::Misspelt { word, meant },
        None => UnknownStatement::NoStatement { word },
    }
}

// Why these fields are none of the statement with this name.
fn of_fields(fields: Fields<'_>, name: Name) -> UnknownStatement<'_> {
    match fields.get(count_fields(name, fields).saturating_add(1)) {
        Some(field) if is_foreign_comment(field) => UnknownStatement::ForeignComment,
        Some(field) => of_many_fields(fields, name, field),
        None => UnknownStatement::Missing {
            layout: layout_of(name, fields),
        },
    }
}

// Why these fields, of which this one is too many, are none of the statement with this name.
fn of_many_fields<'a>(fields: Fields<'a>, name: Name, field: &'a str) -> UnknownStatement<'a> {
    let layout = layout_of(name, fields);
    match (name, fields.get(1)) {
        (Name::Polls, Some("read" | "program" | "erase" | "lun")) => {
            UnknownStatement::Extra { layout, field }
        }
        (Name::Polls, Some(word)) if is_word(word) => UnknownStatement::NoWork { word },
        _ => UnknownStatement::Extra { layout, field },
    }
}

// A field is no number.
fn is_word(field: &str) -> bool {
    number_of(field.as_bytes()).is_none()
}

impl fmt::Display for UnknownStatement<'_> {
    fn fmt<W: fmt::Write>(&self, f: &mut fmt::Formatter<W>) -> fmt::Result {
        match self {
            UnknownStatement::ForeignComment => f.write_str("a comment begins with `;`"),
            UnknownStatement::Misspelt { word, meant } => {
                write!(f, "no statement `{}`: {meant}", Shown::line(word))
            }
            UnknownStatement::NoStatement { word } => {
                write!(
                    f,
                    "no statement `{}`: a line begins with page, targets, image, job, polls or fail",
                    Shown::line(word)
                )
            }
            UnknownStatement::Missing { layout } => {
                write!(f, "a field is missing: the line is `{layout}`")
            }
            UnknownStatement::NoWork { word } => {
                write!(
                    f,
                    "`{}` is none of read, program, erase and lun, of which a line `polls` speaks",
                    Shown::line(word)
                )
            }
            UnknownStatement::Extra { layout, field } => {
                write!(
                    f,
                    "`{}` is one field too many: the line is `{layout}`",
                    Shown::line(field)
                )
            }
        }
    }
}
