//! One line of a bus.
ghost use Rattle.std.specs.Prelude.{◌≡◌};
ghost use Rattle.edge_timing.specs.Lines.{level_number, differs, falls, rises, at_if, line_begun, line_after};

use vcd_text::Level;

/// When a line last changed, rose and fell, as far as it did. The level that it is first given is no change, as nobody knows since when it has it.
#[derive(Clone, Copy, Debug, PartialEq, Eq)]
pub struct Line {
    pub changed: Option<u64>,
    pub rose: Option<u64>,
    pub fell: Option<u64>,
}

// A level as a number that is its own.
fn number_of(level: Level) -> u8
    ensures { result ≡ level_number level }
{
    match level {
        Level::Low => 0,
        Level::High => 1,
        Level::Unknown => 2,
    }
}

/// The level differs.
pub(crate) fn differs(before: Level, after: Level) -> bool
    ensures { result ≡ differs before after }
{
    number_of(before) != number_of(after)
}

/// A line that has been given a level before goes from high to low.
pub(crate) fn falls(before: Level, after: Level) -> bool
    ensures { result ≡ falls before after }
{
    number_of(before) == 1 && number_of(after) == 0
}

/// It goes from low to high.
pub(crate) fn rises(before: Level, after: Level) -> bool
    ensures { result ≡ rises before after }
{
    number_of(before) == 0 && number_of(after) == 1
}

// This time where it is so, else the one before.
fn at_if(so: bool, time: u64, before: Option<u64>) -> Option<u64>
    ensures { result ≡ at_if so time before }
{
    if so { Some(time) } else { before }
}

impl Line {
    /// Nothing has been seen of it.
    pub fn new() -> Line
        ensures { result ≡ line_begun }
    {
        Line {
            changed: None,
            rose: None,
            fell: None,
        }
    }

    /// After these levels before and after a time, where it may have been given a level before.
    pub fn after(self, time: u64, given: bool, before: Level, after: Level) -> Line
        ensures { result ≡ line_after self time given before after }
    {
        Line {
            changed: at_if(given && differs(before, after), time, self.changed),
            rose: at_if(rises(before, after), time, self.rose),
            fell: at_if(falls(before, after), time, self.fell),
        }
    }
}
