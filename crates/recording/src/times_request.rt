//! By which times a trace is judged.

use trace_timing::TimingMode;

/// Where the least times between cycles and the most times of work are from.
#[derive(Clone, Copy, Debug, PartialEq, Eq)]
pub enum TimingSource<'a> {
    /// Those of a timing mode.
    Mode(TimingMode),
    /// Those of the timing file at this path.
    File(&'a str),
}

/// By which times a trace is judged.
#[derive(Clone, Copy, Debug, PartialEq, Eq)]
pub struct TimesRequest<'a> {
    pub source: TimingSource<'a>,
    /// How many femtoseconds 1 of a time is.
    pub unit: u64,
    /// By how many femtoseconds a distance may be short.
    pub slack: u64,
}

/// The number of the mode by which times are judged, where the page declares modes and not that one.
pub fn undeclared_mode(source: TimingSource<'_>, modes: u16) -> Option<u8> {
    let TimingSource::Mode(mode) = source else {
        return None;
    };
    let number = mode.number();
    if modes != 0 && modes >> number & 1 == 0 {
        Some(number)
    } else {
        None
    }
}
