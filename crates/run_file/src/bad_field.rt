//! A number that a statement doesn't take.

use crate::name::{Name, name_of};
use crate::number::Number;
use crate::takes::numbers;
use micro_asm::number_of;
use shown_text::{Fields, Shown};
use std::fmt;

// What is wrong with a statement that has its fields.
#[derive(Clone, Copy)]
pub(crate) enum BadField<'a> {
    // This field isn't decimal.
    NotDecimal { field: &'a str, number: Number },
    // This number is out of its range.
    OutOfRange { field: &'a str, number: Number },
    // Its numbers are right, and it is a job too many.
    TooManyJobs,
}

impl<'a> BadField<'a> {
    // What is wrong with this statement.
    pub(crate) fn of(line: &'a str) -> BadField<'a> {
        let fields = Fields::of(line);
        let word = fields.get(0).unwrap_or("");
        let bad = match name_of(word.as_bytes()) {
            Some(Name::Polls) => find_bad_polls(fields),
            Some(name) => find_bad(fields, 1, numbers(name)),
            None => None,
        };
        bad.unwrap_or(BadField::TooManyJobs)
    }
}

// The first of the numbers of a line `polls` that is wrong: they stand behind the word that says of which work it speaks.
fn find_bad_polls(fields: Fields<'_>) -> Option<BadField<'_>> {
    match (fields.count(), fields.get(1)) {
        (5, Some("lun")) => {
            find_bad(fields, 2, &[Number::ChipEnable, Number::Lun, Number::Polls])
        }
        (3, Some("read" | "program" | "erase")) => find_bad(fields, 2, numbers(Name::Polls)),
        _ => find_bad(fields, 1, numbers(Name::Polls)),
    }
}

// The first of the numbers from a field on that is wrong.
fn find_bad<'a>(fields: Fields<'a>, first: usize, numbers: &[Number]) -> Option<BadField<'a>> {
    for (place, number) in numbers.iter().enumerate() {
        let field = fields.get(place.saturating_add(first)).unwrap_or("");
        let bad = judge(field, *number);
        if bad.is_some() {
            return bad;
        }
    }
    None
}

// What is wrong with a number in this field, if anything is.
fn judge(field: &str, number: Number) -> Option<BadField<'_>> {
    let Some(value) = number_of(field.as_bytes()) else {
        return Some(BadField::NotDecimal { field, number });
    };
    if number.least() <= value && value <= number.greatest() {
        None
    } else {
        Some(BadField::OutOfRange { field, number })
    }
}

impl fmt::Display for BadField<'_> {
    fn fmt<W: fmt::Write>(&self, f: &mut fmt::Formatter<W>) -> fmt::Result {
        match self {
            BadField::NotDecimal { field, number } => {
                write!(
                    f,
                    "`{}` is no decimal number of 1 to 10 digits: {number}",
                    Shown::line(field)
                )
            }
            BadField::OutOfRange { field, number } => {
                write!(f, "`{}` is out of range: {number}", Shown::line(field))
            }
            BadField::TooManyJobs => f.write_str("a run has 65,536 jobs at most"),
        }
    }
}
