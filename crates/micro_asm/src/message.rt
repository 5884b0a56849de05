//! What is said of a refusal to a person.

use crate::advice::Advice;
use crate::refusal::AsmRefusal;
use shown_text::{Shown, line_at};
use std::fmt;

/// A refusal beside the text that was refused. It displays what stands in its line, unless the text ends before, and what is wanted there:
/// `` `addr 3 3`: addr takes FROM and COUNT, COUNT from 1, together 5 at most (A3)``. The file and the number of the line are for the caller to
/// write in front.
#[derive(Clone, Copy)]
pub struct AsmMessage<'a> {
    refusal: AsmRefusal,
    text: &'a str,
}

impl<'a> AsmMessage<'a> {
    /// A refusal of this text.
    pub fn new(refusal: AsmRefusal, text: &'a str) -> AsmMessage<'a> {
        AsmMessage { refusal, text }
    }
}

impl fmt::Display for AsmMessage<'_> {
    fn fmt<W: fmt::Write>(&self, f: &mut fmt::Formatter<W>) -> fmt::Result {
        match self.refusal {
            AsmRefusal::Fault { fault, line } => {
                let advice = Advice::on(fault, self.text, line);
                if advice.shows_line() {
                    write!(f, "`{}`: ", Shown::line(line_at(self.text, line)))?;
                }
                write!(f, "{advice} ({})", fault.code())
            }
            AsmRefusal::OutOfMemory => f.write_str("out of memory"),
        }
    }
}
