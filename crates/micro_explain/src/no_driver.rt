//! A LUN that may not drive the bus alone.

use crate::refused::Refused;
use std::fmt;

/// Why the LUN may not drive the bus alone.
#[derive(Clone, Copy, Debug, PartialEq, Eq)]
pub enum NoDriver {
    /// It is off: nothing was read yet, or not since a reset.
    Off,
    /// Other LUNs of its target may have had the bus.
    Others,
}

impl NoDriver {
    // Why it may not drive alone, where it may not.
    pub(crate) fn of(refused: &Refused<'_>) -> Option<NoDriver> {
        if refused.drives() {
            None
        } else if refused.has_several_luns() {
            Some(NoDriver::Others)
        } else {
            Some(NoDriver::Off)
        }
    }
}

impl fmt::Display for NoDriver {
    fn fmt<W: fmt::Write>(&self, f: &mut fmt::Formatter<W>) -> fmt::Result {
        f.write_str(match self {
            NoDriver::Off => "the LUN shows nothing: a read, a `stat` or a `wait` must come first",
            NoDriver::Others => {
                "other LUNs of the target may drive the bus: a `stat` or a `wait` must come first, and then, for data, a `cmd 00`"
            }
        })
    }
}
