//! What an author has to change in a run file that is refused.

use crate::bad_field::BadField;
use crate::bad_order::BadOrder;
use crate::refusal::RunFault;
use crate::unknown_statement::UnknownStatement;
use shown_text::{Blanks, Fields, LineTrouble, line_at};
use std::fmt;

// What has to change.
#[derive(Clone, Copy)]
pub(crate) enum Advice<'a> {
    // A character may not stand there.
    Trouble(LineTrouble),
    // The line is no statement.
    Unknown(UnknownStatement<'a>),
    // One of its numbers is wrong, or it is a job too many.
    Field(BadField<'a>),
    // It may not stand here.
    Order(BadOrder),
    // What the fault says of itself is enough.
    Fault(RunFault),
}

impl<'a> Advice<'a> {
    // What has to change in this line of a run file, in which it is told this fault.
    pub(crate) fn on(fault: RunFault, text: &'a str, line: usize) -> Advice<'a> {
        let stood = line_at(text, line);
        match fault {
            RunFault::UnknownLine => of_unknown_line(stood),
            RunFault::BadNumber => of_bad_number(stood),
            RunFault::OutOfOrder => Advice::Order(BadOrder::of(text, line)),
            RunFault::NoSuchLun | RunFault::InputTooLong => Advice::Fault(fault),
        }
    }

    // Whether the line is there.
    pub(crate) fn shows_line(self) -> bool {
        match self {
            Advice::Order(BadOrder::Ends(_)) => false,
            Advice::Trouble(_)
            | Advice::Unknown(_)
            | Advice::Field(_)
            | Advice::Order(BadOrder::Wanted(_) | BadOrder::Again { .. })
            | Advice::Fault(_) => true,
        }
    }
}

// What has to change in a line that is no statement.
fn of_unknown_line(line: &str) -> Advice<'_> {
    match trouble_in(line) {
        Some(advice) => advice,
        None => Advice::Unknown(UnknownStatement::of(line)),
    }
}

// What has to change in a statement with a number that is wrong, or in a job too many.
fn of_bad_number(line: &str) -> Advice<'_> {
    match trouble_in(line) {
        Some(advice) => advice,
        None => Advice::Field(BadField::of(line)),
    }
}

// What is wrong with the characters of a line, if anything is.
fn trouble_in<'a>(line: &str) -> Option<Advice<'a>> {
    let trouble = LineTrouble::find(Fields::of(line).text(), Blanks::SpacesAndTabs)?;
    Some(Advice::Trouble(trouble))
}

impl fmt::Display for Advice<'_> {
    fn fmt<W: fmt::Write>(&self, f: &mut fmt::Formatter<W>) -> fmt::Result {
        match self {
            Advice::Trouble(trouble) => write!(f, "{trouble}"),
            Advice::Unknown(unknown) => write!(f, "{unknown}"),
            Advice::Field(field) => write!(f, "{field}"),
            Advice::Order(order) => write!(f, "{order}"),
            Advice::Fault(fault) => write!(f, "{fault}"),
        }
    }
}
