//! What is said of a refusal to a person.

use crate::advice::Advice;
use crate::refusal::RunRefusal;
use shown_text::{Shown, line_at};
use std::fmt;

/// A refusal beside the run file that was refused. It displays what stands in its line, unless the file ends before, and what is wanted there:
/// `` `targets 5`: `5` is out of range: N is a number from 1 to 4 (J2)``. The file and the number of the line are for the caller to write in front.
#[derive(Clone, Copy)]
pub struct RunMessage<'a> {
    refusal: RunRefusal,
    text: &'a str,
}

impl<'a> RunMessage<'a> {
    /// A refusal of this run file.
    pub fn new(refusal: RunRefusal, text: &'a str) -> RunMessage<'a> {
        RunMessage { refusal, text }
    }
}

impl fmt::Display for RunMessage<'_> {
    fn fmt<W: fmt::Write>(&self, f: &mut fmt::Formatter<W>) -> fmt::Result {
        let RunRefusal { fault, line } = self.refusal;
        let advice = Advice::on(fault, self.text, line);
        if advice.shows_line() {
            write!(f, "`{}`: ", Shown::line(line_at(self.text, line)))?;
        }
        write!(f, "{advice} ({})", fault.code())
    }
}
