//! A line that hasn't the shape of an item.

use crate::item_fields::ItemFields;
use crate::line::{Letter, is_wide, letter_of};
use nand_geometry::Profile;
use onfi_cycle::Kind;
use shown_text::Shown;
use std::fmt;

// Why a line hasn't the shape of an item.
#[derive(Clone, Copy)]
pub(crate) enum BadShape<'a> {
    // It has one field.
    NoLetter,
    // Its letter is written in lower case.
    LowerCase {
        letter: &'a str,
        layout: &'static str,
    },
    // Its second field is no letter of an item.
    NoSuchLetter {
        field: &'a str,
    },
    // It has another number of fields than its letter wants.
    FieldCount {
        layout: &'static str,
        count: usize,
    },
}

impl<'a> BadShape<'a> {
    // Why a line with these fields hasn't the shape of an item.
    pub(crate) fn of(fields: ItemFields<'a>, profile: Profile) -> BadShape<'a> {
        let count = fields.count();
        if count < 2 {
            return BadShape::NoLetter;
        }
        let field = fields.get(1);
        match letter_of(field.as_bytes()) {
            Some(letter) => BadShape::FieldCount {
                layout: layout(letter, profile),
                count,
            },
            None => bad_letter(field, profile),
        }
    }
}

// Why this field is no letter of an item.
fn bad_letter(field: &str, profile: Profile) -> BadShape<'_> {
    match letter_in_lower_case(field) {
        Some(letter) => BadShape::LowerCase {
            letter: field,
            layout: layout(letter, profile),
        },
        None => BadShape::NoSuchLetter { field },
    }
}

// The letter that the field is but for its case.
fn letter_in_lower_case(field: &str) -> Option<Letter> {
    for upper in ["C", "A", "I", "O", "R", "Y"] {
        if field.eq_ignore_ascii_case(upper) {
            return letter_of(upper.as_bytes());
        }
    }
    None
}

// The fields of a line with this letter.
fn layout(letter: Letter, profile: Profile) -> &'static str {
    match letter {
        Letter::CycleOf(Kind::Cmd) => "CE C XX",
        Letter::CycleOf(Kind::Adr) => "CE A XX",
        Letter::CycleOf(Kind::Din) => "CE I XX",
        Letter::CycleOf(Kind::Dout) => "CE O XX",
        Letter::Ready => "CE R LUN FAIL",
        Letter::ArrayReady if is_wide(profile) => "CE Y LUN` or `CE Y LUN 1",
        Letter::ArrayReady => "CE Y LUN",
    }
}

impl fmt::Display for BadShape<'_> {
    fn fmt<W: fmt::Write>(&self, f: &mut fmt::Formatter<W>) -> fmt::Result {
        match self {
            BadShape::NoLetter => {
                f.write_str(
                    "a line is CE, one of the letters C, A, I, O, R and Y, and what the letter wants",
                )
            }
            BadShape::LowerCase { letter, layout } => {
                write!(
                    f,
                    "`{}` is in lower case: the line is `{layout}`",
                    Shown::line(letter)
                )
            }
            BadShape::NoSuchLetter { field } => {
                write!(
                    f,
                    "`{}` is none of the letters C, A, I, O, R and Y",
                    Shown::line(field)
                )
            }
            BadShape::FieldCount { layout, count } => {
                write!(f, "the line is `{layout}`, and here it has {count} fields")
            }
        }
    }
}
