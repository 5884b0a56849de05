//! Times for a trace that was modelled, and so has none.
ghost use Rattle.std.specs.Prelude.{◌≡◌, ◌≤◌};
ghost use Rattle.trace_timing.specs.Wanted.{AreBounded};

use crate::busy_time::{BusyTime, LongestTimes};
use crate::clock::{Clock, Pair};
use crate::modes::NANOSECOND;
use crate::timings::Timings;
use crate::watch::{TARGETS, clock_at, go_on};
use nand_geometry::Geometry;
use onfi_cycle::{BusState, Command, Cycle, Item, Kind, Lun, MAX_CHANNEL_LUNS};
use onfi_pauses::LastCycle;
use std::marker::Model;

/// A clock that goes on by the items of a trace, in nanoseconds: each cycle comes as soon as its pauses are over, and each ready once its work has taken
/// as long as it may. Its value is the time of the latest item, 0 before the first.
#[derive(Drop)]
pub struct ModelClock {
    timings: Timings,
    longest: LongestTimes,
    state: BusState,
    clocks: [Clock; TARGETS],
    /// When the work of each LUN is over, where it has begun.
    due: [Option<u64>; MAX_CHANNEL_LUNS],
    latest: u64,
}

impl Model for ModelClock {
    ghost use Rattle.std.specs.Prelude.{ℕ};
    ghost use Rattle.trace_timing.specs.Wanted.{AreBounded};

    ghost Value = { ℕ };

    ghost view = { λ c. c.latest };

    ghost invariant = { λ c. AreBounded c.timings };
}

// A number of femtoseconds in nanoseconds, rounded up.
fn nanoseconds(time: u64) -> u64 {
    time.div_ceil(NANOSECOND)
}

// How many nanoseconds a pair is short of what it is to be.
fn missing(pair: Option<Pair>) -> u64 {
    match pair {
        None => 0,
        Some(pair) => nanoseconds(pair.wanted.saturating_sub(pair.seen)),
    }
}

// The work that the last cycle of a target has begun, where a time bounds it.
fn work_of(last: LastCycle) -> Option<BusyTime> {
    match last {
        LastCycle::Command(command) | LastCycle::Address(command) => BusyTime::of(command),
        LastCycle::FeatureByte { .. } => Some(BusyTime::Features),
        LastCycle::Nothing | LastCycle::Input | LastCycle::Output => None,
    }
}

// The last cycle resets, and so abandons work.
fn resets(last: LastCycle) -> bool {
    matches!(
        last,
        LastCycle::Command(Command::Reset | Command::SynchronousReset)
            | LastCycle::Address(Command::ResetLun)
    )
}

impl ModelClock {
    /// Before the first item of a channel of so many targets of this geometry, 4 at most.
    pub fn new(
        geometry: Geometry,
        targets: u8,
        timings: Timings,
        longest: LongestTimes,
    ) -> ModelClock
        requires few { targets ≤ 4 }
        requires bounded { AreBounded timings }
    {
        ModelClock {
            timings,
            longest,
            state: BusState::new(geometry, targets),
            clocks: [Clock::new(); TARGETS],
            due: [None; MAX_CHANNEL_LUNS],
            latest: 0,
        }
    }

    // How many LUNs each target has.
    fn luns(&self) -> u8 {
        self.state.geometry().parts().luns
    }

    // The least time from one strobe of this kind to the next, in nanoseconds.
    fn period(&self, kind: Kind) -> u64 {
        nanoseconds(match kind {
            Kind::Dout => self.timings.t_rc,
            Kind::Cmd | Kind::Adr | Kind::Din => self.timings.t_wc,
        })
    }

    // The time of a cycle: a period after the latest item, or once its pauses are over.
    fn time_of_cycle(&self, cycle: Cycle) -> u64
        ensures { self.now ≤ result }
    {
        let kind = cycle.kind;
        let first = self.latest.saturating_add(self.period(kind));
        let clock = clock_at(&self.clocks, cycle.ce);
        let time = Some(first);
        let one_lun = self.luns() == 1;
        let since_cycle = clock.cycle_pair(self.timings, NANOSECOND, kind, time);
        let since_busy = clock.busy_pair(self.timings, NANOSECOND, kind, time);
        let since_ready = clock.ready_pair(self.timings, NANOSECOND, one_lun, kind, time);
        let more = missing(since_cycle).max(missing(since_busy));
        first.saturating_add(more.max(missing(since_ready)))
    }

    // The time of a ready: once the work of the LUN is over.
    fn time_of_ready(&self, lun: Lun) -> u64
        ensures { self.now ≤ result }
    {
        match self.due.get(lun.place(self.luns())) {
            Some(Some(due)) => self.latest.max(*due),
            Some(None) | None => self.latest,
        }
    }

    // The time of an item.
    fn time_of(&self, item: Item) -> u64
        ensures { self.now ≤ result }
    {
        match item {
            Item::Cyc(cycle) => self.time_of_cycle(cycle),
            Item::Rdy { ce, lun, .. } => self.time_of_ready(Lun { ce, lun }),
            Item::Ard { .. } => self.latest,
        }
    }

    // How long work takes that the last cycle of a target has begun, in nanoseconds: as long as it may, and tWB where nothing is said of it.
    fn duration(&self, last: LastCycle) -> u64 {
        let most = match work_of(last) {
            Some(work) => self.longest.time_of(work),
            None => 0,
        };
        nanoseconds(if most == 0 { self.timings.t_wb } else { most })
    }

    // The LUN works.
    fn is_busy(&self, lun: Lun) -> bool {
        match self.state.lun_state(lun) {
            Some(state) => state.busy,
            None => false,
        }
    }

    // The work of a LUN is over at this time from here on, if that is told.
    fn set_due(&mut self, lun: Lun, due: Option<u64>)
        ensures { self.new ≡ self.old }
    {
        let place = lun.place(self.luns());
        if let Some(kept) = self.due.get_mut(place) {
            *kept = due;
        }
    }

    // The work that the last cycle of a target has begun on a LUN of it, if it has, takes so long.
    fn begin_on(&mut self, lun: Lun, due: u64, is_reset: bool)
        ensures { self.new ≡ self.old }
    {
        let works = matches!(self.due.get(lun.place(self.luns())), Some(Some(_)));
        if self.is_busy(lun) && (is_reset || !works) {
            self.set_due(lun, Some(due));
        }
    }

    // The work that the last cycle of a target has begun, if it has, takes so long.
    fn begin_work(&mut self, ce: u8)
        ensures { self.new ≡ self.old }
    {
        let last = clock_at(&self.clocks, ce).last;
        if !last.begins_work() {
            return;
        }
        let due = self.latest.saturating_add(self.duration(last));
        let is_reset = resets(last);
        for lun in 0..self.luns() {
            self.begin_on(Lun { ce, lun }, due, is_reset);
        }
    }

    // Goes on by an item, which comes at this time.
    fn go_on(&mut self, item: Item, time: u64)
        ensures { self.new ≡ time }
    {
        self.latest = time;
        go_on(&mut self.clocks, item, Some(time));
        if self.state.judge(item).is_none() {
            self.state.apply(item);
        }
        match item {
            Item::Cyc(cycle) => self.begin_work(cycle.ce),
            Item::Rdy { ce, lun, .. } => self.set_due(Lun { ce, lun }, None),
            Item::Ard { .. } => {}
        }
    }

    /// Goes on by an item, and tells its time: it is never before that of the item in front of it.
    pub fn take(&mut self, item: Item) -> u64
        ensures rises { self.old ≤ result }
        ensures value { self.new ≡ result }
    {
        let time = self.time_of(item);
        self.go_on(item, time);
        time
    }
}
