//! Timing files: the least times of a chip, by its datasheet.
ghost use Rattle.std.specs.Prelude.{◌≡◌, ◌<◌, ◌^◌, IfOk, IfSome};
ghost use Rattle.trace_timing.specs.Codes.{timing_file_fault_code};
ghost use Rattle.trace_timing.specs.Longest.{AreFinite};
ghost use Rattle.trace_timing.specs.Wanted.{AreBounded};

use crate::busy_time::{LongestTimes, longest_of};
use crate::modes::{TimingMode, timings_of};
use crate::page_times::PageTimes;
use crate::timings::Timings;
use thiserror::Error;

/// What is wrong with a line of a timing file.
#[derive(Clone, Copy, Debug, PartialEq, Eq, Error)]
pub enum TimingFileFault {
    #[error("the line has no name of a timing, or another number of fields")]
    UnknownName,
    #[error("a number isn't one, or is too large")]
    BadNumber,
    #[error("a timing stands twice, or `mode` isn't first")]
    OutOfOrder,
}

impl TimingFileFault {
    /// Its code, `D1` to `D3`.
    pub fn code(self) -> &'static str
        ensures { result.now ≡ timing_file_fault_code self }
    {
        match self {
            TimingFileFault::UnknownName => "D1",
            TimingFileFault::BadNumber => "D2",
            TimingFileFault::OutOfOrder => "D3",
        }
    }
}

/// Why a timing file is refused: the fault, and its line, from 1.
#[derive(Clone, Copy, Debug, PartialEq, Eq, Error)]
#[error("line {line}: {fault}")]
pub struct TimingFileRefusal {
    pub fault: TimingFileFault,
    pub line: usize,
}

// The timings that a file may name: the ten that a trace shows first, then those that only a capture shows, and those that nothing here judges.
const NAMES: [&str; 29] = [
    "tADL", "tWHR", "tCCS", "tRHW", "tRR", "tWB", "tWC", "tRC", "tWP", "tRP", "tWH", "tREH", "tDS",
    "tDH", "tCLS", "tCLH", "tALS", "tALH", "tCS", "tCH", "tCEH", "tAR", "tCLR", "tIR", "tR",
    "tPROG", "tBERS", "tRST", "tFEAT",
];

// No time of a file is so many femtoseconds, some 4,600 seconds.
const TOO_LONG: u64 = 1 << 62;

// The femtoseconds of a unit.
fn femtoseconds_of(unit: &str) -> Option<u64> {
    match unit {
        "fs" => Some(1),
        "ps" => Some(1_000),
        "ns" => Some(1_000_000),
        "us" => Some(1_000_000_000),
        "ms" => Some(1_000_000_000_000),
        "s" => Some(1_000_000_000_000_000),
        _ => None,
    }
}

// The number that digits spell; none where they are none, or where it is too large.
fn number_of(digits: &str) -> Option<u64> {
    let mut number: u64 = 0;
    for byte in digits.bytes() {
        if !byte.is_ascii_digit() {
            return None;
        }
        number = number.checked_mul(10)?.checked_add(u64::from(byte - b'0'))?;
    }
    if digits.is_empty() {
        None
    } else {
        Some(number)
    }
}

// The digits behind a point, as parts of a unit: each is a tenth of the one before.
fn part_of(digits: &str, unit: u64) -> Option<u64> {
    if digits.is_empty() || digits.len() > 6 {
        return None;
    }
    let mut part: u64 = 0;
    let mut place = unit;
    for byte in digits.bytes() {
        if !byte.is_ascii_digit() {
            return None;
        }
        place /= 10;
        part = part.checked_add(u64::from(byte - b'0').checked_mul(place)?)?;
    }
    Some(part)
}

// A time in femtoseconds: a decimal number, up to six places behind a point, in a unit.
fn time_of(number: &str, unit: &str) -> Option<u64>
    ensures { IfSome result (λ time. time < 2 ^ 62) }
{
    let unit = femtoseconds_of(unit)?;
    let (whole, part) = match number.split_once('.') {
        None => (number, 0),
        Some((whole, digits)) => (whole, part_of(digits, unit)?),
    };
    let time = number_of(whole)?.checked_mul(unit)?.checked_add(part)?;
    if time < TOO_LONG { Some(time) } else { None }
}

/// What a timing file says: the mode that it stands on, and the times that it names.
#[derive(Clone, Copy, Debug, PartialEq, Eq)]
pub struct TimingFile {
    mode: Option<TimingMode>,
    // A line came that isn't `mode`.
    has_begun: bool,
    times: [Option<u64>; NAMES.len()],
}

// The place of a name in the list.
fn find_name(name: &str) -> Option<usize> {
    NAMES.iter().position(|known| *known == name)
}

impl TimingFile {
    // Nothing is said yet.
    fn new() -> TimingFile {
        TimingFile {
            mode: None,
            has_begun: false,
            times: [None; NAMES.len()],
        }
    }

    // The line `mode N`, which comes first.
    fn set_mode(&mut self, word: &str) -> Result<(), TimingFileFault> {
        if self.has_begun || self.mode.is_some() {
            return Err(TimingFileFault::OutOfOrder);
        }
        self.mode = Some(TimingMode::of(word).ok_or(TimingFileFault::BadNumber)?);
        Ok(())
    }

    // The line of a timing.
    fn set_time(&mut self, name: &str, number: &str, unit: &str) -> Result<(), TimingFileFault> {
        let place = find_name(name).ok_or(TimingFileFault::UnknownName)?;
        let time = time_of(number, unit).ok_or(TimingFileFault::BadNumber)?;
        self.has_begun = true;
        if let Some(kept) = self.times.get_mut(place) {
            if kept.is_some() {
                return Err(TimingFileFault::OutOfOrder);
            }
            *kept = Some(time);
        }
        Ok(())
    }

    // A line of a file.
    fn read_line(&mut self, line: &str) -> Result<(), TimingFileFault> {
        let said = match line.split_once('#') {
            Some((said, _comment)) => said,
            None => line,
        };
        let mut words = said.split_ascii_whitespace();
        let fields = (words.next(), words.next(), words.next(), words.next());
        match fields {
            (None, _, _, _) => Ok(()),
            (Some("mode"), Some(word), None, _) => self.set_mode(word),
            (Some(name), Some(number), None, _) => self.set_time(name, number, "ns"),
            (Some(name), Some(number), Some(unit), None) => self.set_time(name, number, unit),
            _ => Err(TimingFileFault::UnknownName),
        }
    }

    // A time of the file, or that of the mode where the file doesn't say it.
    fn time_at(&self, place: usize, of_mode: u64) -> u64
        requires { of_mode < 2 ^ 62 }
        ensures { result < 2 ^ 62 }
    {
        match self.times.get(place) {
            Some(Some(time)) if *time < TOO_LONG => *time,
            Some(_) | None => of_mode,
        }
    }

    /// The mode that it stands on: the one that it names, or mode 0.
    pub fn mode(&self) -> TimingMode {
        self.mode.unwrap_or(TimingMode::Zero)
    }

    /// The time of this name in femtoseconds, or that of the mode where the file doesn't say it.
    pub fn time_named(&self, name: &str, of_mode: u64) -> u64
        requires { of_mode < 2 ^ 62 }
        ensures { result < 2 ^ 62 }
    {
        match find_name(name) {
            Some(place) => self.time_at(place, of_mode),
            None => of_mode,
        }
    }

    /// The least times that a trace shows, each on top of the mode, for a chip of this parameter page.
    pub fn timings(&self, page: PageTimes) -> Timings
        ensures { AreBounded result }
    {
        let base = timings_of(self.mode(), page);
        Timings {
            t_adl: self.time_at(0, base.t_adl),
            t_whr: self.time_at(1, base.t_whr),
            t_ccs: self.time_at(2, base.t_ccs),
            t_rhw: self.time_at(3, base.t_rhw),
            t_rr: self.time_at(4, base.t_rr),
            t_wb: self.time_at(5, base.t_wb),
            t_wc: self.time_at(6, base.t_wc),
            t_rc: self.time_at(7, base.t_rc),
            t_wp: self.time_at(8, base.t_wp),
            t_rp: self.time_at(9, base.t_rp),
        }
    }

    /// The most times of work: those of the file, then those of this parameter page and of the mode.
    pub fn longest(&self, page: PageTimes) -> LongestTimes
        ensures { AreFinite result }
    {
        let base = longest_of(self.mode(), page);
        LongestTimes {
            read: self.time_at(24, base.read),
            program: self.time_at(25, base.program),
            erase: self.time_at(26, base.erase),
            reset: self.time_at(27, base.reset),
            features: self.time_at(28, base.features),
        }
    }
}

/// What a timing file says. A line has a timing and a decimal number of ns, or of the unit behind it; what comes behind `#` is a comment. Errors: the first
/// line with a fault.
pub fn read_timing_file(text: &str) -> Result<TimingFile, TimingFileRefusal> {
    let mut file = TimingFile::new();
    for (number, line) in text.lines().enumerate() {
        if let Err(fault) = file.read_line(line) {
            return Err(TimingFileRefusal {
                fault,
                line: number + 1,
            });
        }
    }
    Ok(file)
}

/// The least times that a timing file says, each on top of the mode that it names, or of mode 0, for a chip of this parameter page, as [`read_timing_file`] reads it.
pub fn read_timings(text: &str, page: PageTimes) -> Result<Timings, TimingFileRefusal>
    ensures { IfOk result (λ timings. AreBounded timings) }
{
    let file = read_timing_file(text)?;
    Ok(file.timings(page))
}
