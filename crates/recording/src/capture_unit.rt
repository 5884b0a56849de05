//! The unit of the times of a capture.

use bus_capture::CaptureForm;
use edge_timing::find_unit;
use std::fmt;

/// How many femtoseconds 1 of a written time is, where times are written and the capture says it.
pub fn unit_of(has_times: bool, form: CaptureForm, capture: &[u8]) -> Option<u64> {
    if has_times {
        find_unit(form, capture)
    } else {
        None
    }
}

/// A unit of times of so many femtoseconds.
#[derive(Clone, Copy)]
pub struct TimeUnit(pub u64);

// The parts of a second with their femtoseconds, the largest first.
const PARTS: [(&str, u64); 6] = [
    ("s", 1_000_000_000_000_000),
    ("ms", 1_000_000_000_000),
    ("us", 1_000_000_000),
    ("ns", 1_000_000),
    ("ps", 1_000),
    ("fs", 1),
];

impl fmt::Display for TimeUnit {
    fn fmt<W: fmt::Write>(&self, f: &mut fmt::Formatter<W>) -> fmt::Result {
        for (name, len) in PARTS {
            if len <= self.0 {
                return write!(f, "{} {name}", self.0.checked_div(len).unwrap_or(0));
            }
        }
        write!(f, "{} fs", self.0)
    }
}
