//! What is known of one target while times are judged.
ghost use Rattle.std.specs.Prelude.{◌≡◌};
ghost use Rattle.trace_timing.specs.Wanted.{AreBounded};
ghost use Rattle.trace_timing.specs.Clock.{begun, pair_of, ready_want, cycle_pair, busy_pair, ready_pair, asks_status, gives_status, gives_status_after, is_command, clock_after, clock_ready, clock_cut};

use crate::timing_fault::TimingFault;
use crate::timings::{Timings, Want};
use onfi_cycle::{Command, Kind};
use onfi_pauses::{LastCycle, Pauses, pauses_before};

/// A cycle and what is before it, both with a time: how long one comes after the other, and how long it is to, in femtoseconds.
#[derive(Clone, Copy, Debug, PartialEq, Eq)]
pub struct Pair {
    pub fault: TimingFault,
    pub seen: u64,
    pub wanted: u64,
}

/// What is known of a target.
#[derive(Clone, Copy, Debug, PartialEq, Eq)]
pub struct Clock {
    pub last: LastCycle,
    /// The time of the last cycle, if it has one.
    pub at: Option<u64>,
    /// A ready of the target came since.
    pub is_ready: bool,
    /// Its time, if it has one.
    pub ready_at: Option<u64>,
    /// A command of the target was seen.
    pub has_command: bool,
    /// Its outputs may be a status.
    pub may_give_status: bool,
}

// The pair of two times, where both are there and something is wanted of them.
fn pair_of(unit: u64, since: Option<u64>, time: Option<u64>, want: Option<Want>) -> Option<Pair>
    ensures { result ≡ pair_of unit since time want }
{
    match (since, time, want) {
        (Some(since), Some(time), Some(want)) => Some(Pair {
            fault: want.fault,
            seen: time.saturating_sub(since).saturating_mul(unit),
            wanted: want.least,
        }),
        (None, _, _) | (Some(_), None, _) | (Some(_), Some(_), None) => None,
    }
}

// The command asks for a status.
fn asks_status(command: Command) -> bool
    ensures { result ≡ asks_status command }
{
    matches!(command, Command::ReadStatus | Command::ReadStatusEnhanced)
}

// Whether the outputs after a command may be a status, where they might before it.
fn gives_status(before: bool, command: Command) -> bool
    ensures { result ≡ gives_status before command }
{
    if command.is_opener() || !command.is_known() {
        asks_status(command)
    } else {
        before
    }
}

// The same of the outputs.
fn gives_status_after(before: bool, kind: Kind, byte: u8) -> bool
    ensures { result ≡ gives_status_after before kind byte }
{
    match kind {
        Kind::Cmd => gives_status(before, Command::of(byte)),
        Kind::Adr | Kind::Din | Kind::Dout => before,
    }
}

// A command cycle.
fn is_command(kind: Kind) -> bool
    ensures { result ≡ is_command kind }
{
    matches!(kind, Kind::Cmd)
}

impl Clock {
    /// Nothing has been seen of the target.
    pub fn new() -> Clock
        ensures { result ≡ begun }
    {
        Clock {
            last: LastCycle::Nothing,
            at: None,
            is_ready: false,
            ready_at: None,
            has_command: false,
            may_give_status: true,
        }
    }

    /// The pair of a cycle with the last one of its target, if both have times.
    pub fn cycle_pair(
        self,
        timings: Timings,
        unit: u64,
        kind: Kind,
        time: Option<u64>,
    ) -> Option<Pair>
        requires { AreBounded timings }
        ensures { result ≡ cycle_pair timings unit self kind time }
    {
        let want = timings.cycle_want(self.has_command, self.last, kind);
        pair_of(unit, self.at, time, want)
    }

    /// The pair of a cycle with the last one of its target, where that began work.
    pub fn busy_pair(
        self,
        timings: Timings,
        unit: u64,
        kind: Kind,
        time: Option<u64>,
    ) -> Option<Pair>
        requires { AreBounded timings }
        ensures { result ≡ busy_pair timings unit self kind time }
    {
        let pauses = pauses_before(self.last, self.is_ready, kind);
        pair_of(unit, self.at, time, timings.pause_want(kind, pauses.busy))
    }

    // What is wanted since the ready.
    fn ready_want(self, timings: Timings, one_lun: bool, kind: Kind, pauses: Pauses) -> Option<Want>
        requires { AreBounded timings }
        ensures { result ≡ ready_want timings one_lun self kind pauses }
    {
        if one_lun && !self.may_give_status {
            timings.pause_want(kind, pauses.ready)
        } else {
            None
        }
    }

    /// The pair of a data output with the ready of its target, on a target of one LUN.
    pub fn ready_pair(
        self,
        timings: Timings,
        unit: u64,
        one_lun: bool,
        kind: Kind,
        time: Option<u64>,
    ) -> Option<Pair>
        requires { AreBounded timings }
        ensures { result ≡ ready_pair timings unit one_lun self kind time }
    {
        let pauses = pauses_before(self.last, self.is_ready, kind);
        let want = self.ready_want(timings, one_lun, kind, pauses);
        pair_of(unit, self.ready_at, time, want)
    }

    /// Once a cycle has come.
    pub fn after(self, kind: Kind, byte: u8, time: Option<u64>) -> Clock
        ensures { result ≡ clock_after self kind byte time }
    {
        Clock {
            last: self.last.after(kind, byte),
            at: time,
            is_ready: false,
            ready_at: None,
            has_command: self.has_command || is_command(kind),
            may_give_status: gives_status_after(self.may_give_status, kind, byte),
        }
    }

    /// Once a ready of the target has come.
    pub fn ready(self, time: Option<u64>) -> Clock
        ensures { result ≡ clock_ready self time }
    {
        Clock {
            is_ready: true,
            ready_at: time,
            ..self
        }
    }

    /// Where times go back: those before aren't compared with those behind.
    pub fn cut(self) -> Clock
        ensures { result ≡ clock_cut self }
    {
        Clock {
            at: None,
            ready_at: None,
            ..self
        }
    }
}
