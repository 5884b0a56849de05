//! The timing modes of the single data rate interface (ONFI 4.x, Timing Modes).
ghost use Rattle.std.specs.Prelude.{◌≡◌, ◌<◌, ◌≤◌, ◌^◌};
ghost use Rattle.trace_timing.specs.Wanted.{AreBounded};
ghost use Rattle.trace_timing.specs.Modes.{femtoseconds, faster, numbers_of, column_time, timings_by, timings_of};

use crate::page_times::PageTimes;
use crate::timings::Timings;

// Femtoseconds in a nanosecond.
pub(crate) const NANOSECOND: u64 = 1_000_000;

/// What differs between the modes, in nanoseconds.
#[derive(Clone, Copy, Debug, PartialEq, Eq)]
pub(crate) struct Mode {
    pub(crate) whr: u16,
    pub(crate) rhw: u16,
    pub(crate) rr: u16,
    pub(crate) wb: u16,
    pub(crate) wc: u16,
    pub(crate) rc: u16,
    pub(crate) pulse: u16,
}

/// A timing mode.
#[derive(Clone, Copy, Debug, PartialEq, Eq)]
pub enum TimingMode {
    Zero,
    One,
    Two,
    Three,
    Four,
    Five,
}

// What the modes 1 to 5 have in common, with these periods and this pulse.
fn faster(wc: u16, rc: u16, pulse: u16) -> Mode
    ensures { result ≡ faster wc rc pulse }
{
    Mode {
        whr: 80,
        rhw: 100,
        rr: 20,
        wb: 100,
        wc,
        rc,
        pulse,
    }
}

impl TimingMode {
    /// The mode of a digit, `0` to `5`.
    pub fn of(digit: &str) -> Option<TimingMode> {
        match digit {
            "0" => Some(TimingMode::Zero),
            "1" => Some(TimingMode::One),
            "2" => Some(TimingMode::Two),
            "3" => Some(TimingMode::Three),
            "4" => Some(TimingMode::Four),
            "5" => Some(TimingMode::Five),
            _ => None,
        }
    }

    /// Its number, 0 to 5.
    pub fn number(self) -> u8
        ensures { result ≤ 5 }
    {
        match self {
            TimingMode::Zero => 0,
            TimingMode::One => 1,
            TimingMode::Two => 2,
            TimingMode::Three => 3,
            TimingMode::Four => 4,
            TimingMode::Five => 5,
        }
    }

    // What differs. Compared with the tables of Linux 6.1 (nand_timings.c), where each of these numbers is the same.
    fn numbers(self) -> Mode
        ensures { result ≡ numbers_of self }
    {
        match self {
            TimingMode::Zero => Mode {
                whr: 120,
                rhw: 200,
                rr: 40,
                wb: 200,
                wc: 100,
                rc: 100,
                pulse: 50,
            },
            TimingMode::One => faster(45, 50, 25),
            TimingMode::Two => faster(35, 35, 17),
            TimingMode::Three => faster(30, 30, 15),
            TimingMode::Four => faster(25, 25, 12),
            TimingMode::Five => faster(20, 20, 10),
        }
    }
}

/// A number of nanoseconds in femtoseconds.
pub(crate) fn femtoseconds(nanoseconds: u16) -> u64
    ensures value { result ≡ femtoseconds nanoseconds }
    ensures bounded { result < 2 ^ 62 }
{
    u64::from(nanoseconds) * NANOSECOND
}

// tCCS: as the page says, 500 where it says none.
fn column_time(page: PageTimes) -> u16
    ensures { result ≡ column_time page }
{
    if page.column_ns == 0 {
        500
    } else {
        page.column_ns
    }
}

// The least times of a mode, for a chip with this tCCS.
fn timings_by(mode: Mode, column_ns: u16) -> Timings
    ensures value { result ≡ timings_by mode column_ns }
    ensures bounded { AreBounded result }
{
    Timings {
        t_adl: femtoseconds(400),
        t_whr: femtoseconds(mode.whr),
        t_ccs: femtoseconds(column_ns),
        t_rhw: femtoseconds(mode.rhw),
        t_rr: femtoseconds(mode.rr),
        t_wb: femtoseconds(mode.wb),
        t_wc: femtoseconds(mode.wc),
        t_rc: femtoseconds(mode.rc),
        t_wp: femtoseconds(mode.pulse),
        t_rp: femtoseconds(mode.pulse),
    }
}

/// The least times of a timing mode. tADL is 400 ns in each, and tCCS is that of the chip's parameter page, 500 ns where the page says none.
pub fn timings_of(mode: TimingMode, page: PageTimes) -> Timings
    ensures value { result ≡ timings_of mode page }
    ensures bounded { AreBounded result }
{
    timings_by(mode.numbers(), column_time(page))
}
