//! The most times of a chip.
ghost use Rattle.std.specs.Prelude.{◌≡◌, ◌<◌, ◌^◌};
ghost use Rattle.trace_timing.specs.Longest.{AreFinite, microseconds, reset_time, longest_of, time_of, bound_of};

use crate::modes::{TimingMode, femtoseconds};
use crate::page_times::PageTimes;
use onfi_cycle::Command;

/// Which time bounds work: a read, a program, an erase, a reset, or a command of features.
#[derive(Clone, Copy, Debug, PartialEq, Eq)]
pub enum BusyTime {
    Read,
    Program,
    Erase,
    Reset,
    Features,
}

impl BusyTime {
    /// The time that bounds the work which this command, or an address or an input behind it, begins; None where nothing is said of it.
    pub fn of(command: Command) -> Option<BusyTime>
        ensures { result ≡ bound_of command }
    {
        match command {
            Command::ReadConfirm
            | Command::CopybackRead
            | Command::ReadCacheSequential
            | Command::ReadCacheEnd
            | Command::ReadParameterPage => Some(BusyTime::Read),
            Command::ProgramConfirm | Command::ProgramCache => Some(BusyTime::Program),
            Command::BlockEraseConfirm => Some(BusyTime::Erase),
            Command::Reset => Some(BusyTime::Reset),
            Command::GetFeatures | Command::SetFeatures => Some(BusyTime::Features),
            _ => None,
        }
    }

    /// Its name in a datasheet.
    pub fn timing(self) -> &'static str {
        match self {
            BusyTime::Read => "tR",
            BusyTime::Program => "tPROG",
            BusyTime::Erase => "tBERS",
            BusyTime::Reset => "tRST",
            BusyTime::Features => "tFEAT",
        }
    }
}

/// The most times of a chip, each in femtoseconds and below 2 to the 62; 0 where nothing is said of one.
#[derive(Clone, Copy, Debug, PartialEq, Eq)]
pub struct LongestTimes {
    pub read: u64,
    pub program: u64,
    pub erase: u64,
    pub reset: u64,
    pub features: u64,
}

impl LongestTimes {
    /// The time that bounds this work.
    pub fn time_of(self, work: BusyTime) -> u64
        ensures { result ≡ time_of self work }
    {
        match work {
            BusyTime::Read => self.read,
            BusyTime::Program => self.program,
            BusyTime::Erase => self.erase,
            BusyTime::Reset => self.reset,
            BusyTime::Features => self.features,
        }
    }
}

// A number of microseconds in femtoseconds.
fn microseconds(number: u16) -> u64
    ensures value { result ≡ microseconds number }
    ensures bounded { result < 2 ^ 62 }
{
    u64::from(number) * 1_000_000_000
}

// tRST in femtoseconds: 1 ms in mode 0, and half of it in the others.
fn reset_time(mode: TimingMode) -> u64
    ensures value { result ≡ reset_time mode }
    ensures bounded { result < 2 ^ 62 }
{
    match mode {
        TimingMode::Zero => microseconds(1_000),
        TimingMode::One
        | TimingMode::Two
        | TimingMode::Three
        | TimingMode::Four
        | TimingMode::Five => microseconds(500),
    }
}

/// The most times of a timing mode, for a chip whose page says these: tR, tPROG and tBERS are the page's, tRST and tFEAT the mode's.
pub fn longest_of(mode: TimingMode, page: PageTimes) -> LongestTimes
    ensures value { result ≡ longest_of mode page }
    ensures bounded { AreFinite result }
{
    LongestTimes {
        read: microseconds(page.read_us),
        program: microseconds(page.program_us),
        erase: microseconds(page.erase_us),
        reset: reset_time(mode),
        features: femtoseconds(1_000),
    }
}
