//! What is said of a refusal to a person.

use crate::bad_number::BadNumber;
use crate::bad_shape::BadShape;
use crate::form::TraceForm;
use crate::item_fields::ItemFields;
use crate::line_advice::LineAdvice;
use crate::recorded_advice::{RecordedAdvice, item_text};
use crate::refusal::{TraceFault, TraceRefusal};
use nand_geometry::Profile;
use shown_text::{Shown, line_at};
use std::fmt;

/// A refusal beside the text that was refused. It displays what stands in its line, unless that is empty, and what is wanted there:
/// `` `0 C D0`: `D0` is in upper case: XX is two hexadecimal digits in lower case (X2)``. The file and the number of the line are for the caller to
/// write in front.
#[derive(Clone, Copy)]
pub struct TraceMessage<'a> {
    refusal: TraceRefusal,
    text: &'a str,
    form: TraceForm,
    profile: Profile,
}

impl<'a> TraceMessage<'a> {
    /// A refusal of this text, which was to have this form, and to be of this profile.
    pub fn new(
        refusal: TraceRefusal,
        text: &'a str,
        form: TraceForm,
        profile: Profile,
    ) -> TraceMessage<'a> {
        TraceMessage {
            refusal,
            text,
            form,
            profile,
        }
    }
}

// Writes what is wrong with an item that has these fields.
fn write_fault<W: fmt::Write>(
    f: &mut fmt::Formatter<W>,
    fault: TraceFault,
    fields: ItemFields<'_>,
    profile: Profile,
) -> fmt::Result {
    match fault {
        TraceFault::BadShape => write!(f, "{}", BadShape::of(fields, profile)),
        TraceFault::BadNumber => write!(f, "{}", BadNumber::of(fields, profile)),
    }
}

// Writes what is wanted in this line.
fn write_wanted<W: fmt::Write>(
    f: &mut fmt::Formatter<W>,
    fault: TraceFault,
    line: &str,
    is_ended: bool,
    profile: Profile,
) -> fmt::Result {
    match LineAdvice::find(line, is_ended) {
        Some(advice) => write!(f, "{advice}"),
        None => write_fault(f, fault, ItemFields::Strict(line), profile),
    }
}

// The same of a line of a recorded text.
fn write_wanted_recorded<W: fmt::Write>(
    f: &mut fmt::Formatter<W>,
    fault: TraceFault,
    line: &str,
    is_ended: bool,
    profile: Profile,
) -> fmt::Result {
    match RecordedAdvice::find(line, is_ended) {
        Some(advice) => write!(f, "{advice}"),
        None => write_fault(f, fault, ItemFields::Recorded(item_text(line)), profile),
    }
}

// Whether a line feed ends this line of a text, counted from 1.
fn is_ended(text: &str, line: usize) -> bool {
    text.split('\n').nth(line).is_some()
}

impl fmt::Display for TraceMessage<'_> {
    fn fmt<W: fmt::Write>(&self, f: &mut fmt::Formatter<W>) -> fmt::Result {
        match self.refusal {
            TraceRefusal::Fault { fault, line } => {
                let stood = line_at(self.text, line);
                if !stood.is_empty() {
                    write!(f, "`{}`: ", Shown::line(stood))?;
                }
                let is_ended = is_ended(self.text, line);
                match self.form {
                    TraceForm::Strict => write_wanted(f, fault, stood, is_ended, self.profile)?,
                    TraceForm::Recorded => write_wanted_recorded(
                        f,
                        fault,
                        stood,
                        is_ended,
                        self.profile,
                    )?,
                }
                write!(f, " ({})", fault.code())
            }
            TraceRefusal::OutOfMemory => f.write_str("out of memory"),
        }
    }
}
