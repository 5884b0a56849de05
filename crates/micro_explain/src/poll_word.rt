//! The words by which a status may be asked for.

use std::fmt;

/// A word by which a status may be asked for: by the program, or by another that has the bus.
#[derive(Clone, Copy, Debug, PartialEq, Eq)]
pub enum PollWord {
    Wait,
    Stat,
    Yield,
}

impl fmt::Display for PollWord {
    fn fmt<W: fmt::Write>(&self, f: &mut fmt::Formatter<W>) -> fmt::Result {
        f.write_str(match self {
            PollWord::Wait => "`wait`",
            PollWord::Stat => "`stat`",
            PollWord::Yield => "`yield`",
        })
    }
}
