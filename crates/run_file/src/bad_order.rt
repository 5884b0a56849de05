//! Statements that may not stand where they do.

use crate::name::{Name, name_of};
use crate::takes::{layout, layout_of};
use micro_asm::number_of;
use shown_text::{Fields, line_at, lines_before};
use std::fmt;

// Why a statement may not stand in its place.
#[derive(Clone, Copy)]
pub(crate) enum BadOrder {
    // The first or second statement is wanted here.
    Wanted(Name),
    // The file ends before the first or second statement.
    Ends(Name),
    // This line says it already.
    Again {
        name: Name,
        layout: &'static str,
        line: usize,
    },
}

impl BadOrder {
    // Why this line of a run file may not stand in its place.
    pub(crate) fn of(text: &str, line: usize) -> BadOrder {
        let fields = Fields::of(line_at(text, line));
        match (wanted_at(text, line), name_in(fields)) {
            (Some(wanted), Some(_)) => BadOrder::Wanted(wanted),
            (Some(wanted), None) => BadOrder::Ends(wanted),
            (None, name) => {
                let name = name.unwrap_or(Name::Page);
                BadOrder::Again {
                    name,
                    layout: layout_of(name, fields),
                    line: find_line(text, fields),
                }
            }
        }
    }
}

// The name of a line's statement.
fn name_in(fields: Fields<'_>) -> Option<Name> {
    name_of(fields.get(0)?.as_bytes())
}

// What is wanted at this line of a run file, if it is the first or the second with fields.
fn wanted_at(text: &str, line: usize) -> Option<Name> {
    match lines_before(text, line) {
        0 => Some(Name::Page),
        1 => Some(Name::Targets),
        _ => None,
    }
}

// The number of the first line that says the same as this one, though it may give another file.
fn find_line(text: &str, wanted: Fields<'_>) -> usize {
    let mut number: usize = 1;
    for line in text.split('\n') {
        if says_the_same(Fields::of(line), wanted) {
            return number;
        }
        number = number.saturating_add(1);
    }
    number
}

// Whether two lines have one name, and are of one die or of the same work where that is `image` or `polls`.
fn says_the_same(line: Fields<'_>, other: Fields<'_>) -> bool {
    if line.get(0) != other.get(0) {
        return false;
    }
    match line.get(0) {
        Some("image") => is_of_one_lun(line, other, 1),
        Some("polls") => is_of_same_work(line, other),
        _ => true,
    }
}

// Whether the numbers of a target and a LUN, which stand from this field on, are the same in both lines.
fn is_of_one_lun(line: Fields<'_>, other: Fields<'_>, first: usize) -> bool {
    let second = first.saturating_add(1);
    number_at(line, first) == number_at(other, first)
        && number_at(line, second) == number_at(other, second)
}

// Whether two lines `polls` are of the same work.
fn is_of_same_work(line: Fields<'_>, other: Fields<'_>) -> bool {
    let is_of_lun = line.get(1) == Some("lun");
    layout_of(Name::Polls, line) == layout_of(Name::Polls, other)
        && (!is_of_lun || is_of_one_lun(line, other, 2))
}

// The number in this field of a line.
fn number_at(fields: Fields<'_>, place: usize) -> Option<u64> {
    number_of(fields.get(place)?.as_bytes())
}

impl fmt::Display for BadOrder {
    fn fmt<W: fmt::Write>(&self, f: &mut fmt::Formatter<W>) -> fmt::Result {
        match self {
            BadOrder::Wanted(name) => {
                write!(
                    f,
                    "`{}` is wanted here: the first two lines are page PATH and targets N, in this order",
                    layout(*name)
                )
            }
            BadOrder::Ends(name) => {
                write!(
                    f,
                    "the file ends before `{}`: its first two lines are page PATH and targets N, in this order",
                    layout(*name)
                )
            }
            BadOrder::Again {
                name: Name::Image,
                line,
                ..
            } => { write!(f, "a die has one image, and line {line} gives it") }
            BadOrder::Again { layout, line, .. } => {
                write!(f, "`{layout}` stands once, and line {line} has it")
            }
        }
    }
}
