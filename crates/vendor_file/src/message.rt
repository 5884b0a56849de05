//! What is said of a vendor file that is refused.

use crate::fault::{VendorFault, VendorFileFault};
use shown_text::{Shown, line_at};
use std::fmt;

/// A fault of a vendor file in words: what stands in the line, and what has to change.
#[derive(Clone, Copy)]
pub struct VendorMessage<'a> {
    fault: VendorFileFault,
    text: &'a str,
}

impl<'a> VendorMessage<'a> {
    /// The words of a fault that this text has.
    pub fn new(fault: VendorFileFault, text: &'a str) -> VendorMessage<'a> {
        VendorMessage { fault, text }
    }
}

// What has to change.
fn advice(fault: VendorFault) -> &'static str {
    match fault {
        VendorFault::BadForm => {
            "a line is the byte of a command, as `ef`, and then its steps: a byte, `A`, `A4`, `A=01`, `I`, `I4`, `I*`, `O`, `O4`, `O*`, and last `R`"
        }
        VendorFault::KnownCommand => {
            "the profile has this command, which begins a line only with an address that the profile hasn't, as `ec A=40 O*`"
        }
        VendorFault::Twice => "a line before it begins with the same command",
    }
}

impl fmt::Display for VendorMessage<'_> {
    fn fmt<W: fmt::Write>(&self, f: &mut fmt::Formatter<W>) -> fmt::Result {
        let VendorFileFault { fault, line } = self.fault;
        let shown = Shown::line(line_at(self.text, line));
        write!(f, "`{shown}`: {} ({})", advice(fault), fault.code())
    }
}
