//! What an author has to change in a text that is refused.

use crate::bad_operands::BadOperands;
use crate::bad_place::BadPlace;
use crate::header_line::HeaderLine;
use crate::refusal::AsmFault;
use crate::unknown_line::UnknownLine;
use shown_text::{Blanks, Fields, LineTrouble, line_at};
use std::fmt;

// What has to change.
#[derive(Clone, Copy)]
pub(crate) enum Advice<'a> {
    // A word file was given for a text.
    WordFile,
    // A character may not stand there.
    Trouble(LineTrouble),
    // A comment begins as in another language.
    ForeignComment,
    // The line is none.
    Unknown(UnknownLine<'a>),
    // Its operands are wrong.
    Operands(BadOperands<'a>),
    // It is right, but not here.
    Place(BadPlace<'a>),
}

impl<'a> Advice<'a> {
    // What has to change in this line of a text, in which it is told this fault.
    pub(crate) fn on(fault: AsmFault, text: &'a str, line: usize) -> Advice<'a> {
        let stood = line_at(text, line);
        match fault {
            AsmFault::UnknownWord if is_word_file(text, line) => Advice::WordFile,
            AsmFault::UnknownWord => {
                of_unknown_line(stood, HeaderLine::wanted_at(text, line).is_some())
            }
            AsmFault::BadOperand => of_bad_operand(stood),
            AsmFault::OperandOutOfRange => Advice::Operands(BadOperands::in_range(stood)),
            AsmFault::NoSuchLabel => Advice::Place(BadPlace::of_branch(text, stood)),
            AsmFault::LabelTwice => Advice::Place(BadPlace::of_label(text, stood)),
            AsmFault::LabelAfterLastWord => Advice::Place(BadPlace::LastLabel),
            AsmFault::TooManyWords => Advice::Place(BadPlace::TooManyWords),
            AsmFault::HeaderOutOfOrder => Advice::Place(BadPlace::of_header(text, line)),
        }
    }

    // Whether the line is there, and worth showing.
    pub(crate) fn shows_line(self) -> bool {
        match self {
            Advice::WordFile | Advice::Place(BadPlace::HeaderEnds(_)) => false,
            Advice::Trouble(_)
            | Advice::ForeignComment
            | Advice::Unknown(_)
            | Advice::Operands(_)
            | Advice::Place(_) => true,
        }
    }
}

// Whether a word file stands in the place of a text.
fn is_word_file(text: &str, line: usize) -> bool {
    line == 1 && (text.starts_with("NMP1") || text.starts_with("NMP2"))
}

// What has to change in a line that is none, in the place of a header line or in that of a word.
fn of_unknown_line(line: &str, heads: bool) -> Advice<'_> {
    match characters_of(line) {
        Some(advice) => advice,
        None => Advice::Unknown(UnknownLine::of(line, heads)),
    }
}

// What has to change in a line whose operands haven't their form.
fn of_bad_operand(line: &str) -> Advice<'_> {
    match characters_of(line) {
        Some(advice) => advice,
        None => Advice::Operands(BadOperands::in_form(line)),
    }
}

// What is wrong with a line whatever its word, if anything is.
fn characters_of<'a>(line: &str) -> Option<Advice<'a>> {
    let fields = Fields::of(line);
    if let Some(trouble) = LineTrouble::find(fields.text(), Blanks::SpacesAndTabs) {
        return Some(Advice::Trouble(trouble));
    }
    if fields.has_foreign_comment() {
        return Some(Advice::ForeignComment);
    }
    None
}

impl fmt::Display for Advice<'_> {
    fn fmt<W: fmt::Write>(&self, f: &mut fmt::Formatter<W>) -> fmt::Result {
        match self {
            Advice::WordFile => f.write_str("this is a word file: `onfiseq dis` makes its text"),
            Advice::Trouble(trouble) => write!(f, "{trouble}"),
            Advice::ForeignComment => f.write_str("a comment begins with `;`"),
            Advice::Unknown(unknown) => write!(f, "{unknown}"),
            Advice::Operands(operands) => write!(f, "{operands}"),
            Advice::Place(place) => write!(f, "{place}"),
        }
    }
}
