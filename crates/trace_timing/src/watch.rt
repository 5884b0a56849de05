//! The times of a channel, item by item.
ghost use Rattle.std.specs.Prelude.{◌≡◌, ◌++◌, OnOk, IfOk, map, slice_set};
ghost use Rattle.trace_timing.specs.Wanted.{AreBounded};
ghost use Rattle.trace_timing.specs.Clock.{clock_cut};
ghost use Rattle.trace_timing.specs.Watch.{watch_begun, clock_at, is_before, clocks_at, backward_at, short_at, short_of_cycle, has_pair, short_of, pairs_with, clocks_after, told_of, watch_after, violations_of};

use crate::clock::{Clock, Pair};
use crate::timing_fault::TimingFault;
use crate::timings::Timings;
use crate::violation::Violation;
use onfi_cycle::{Cycle, Item};
use std::alloc::{AllocError, Allocator};

/// How many targets a channel has at most.
pub(crate) const TARGETS: usize = 4;

/// By what times are judged.
#[derive(Clone, Copy, Debug, PartialEq, Eq)]
pub struct Ruler {
    pub timings: Timings,
    /// How many femtoseconds 1 of a time is.
    pub unit: u64,
    /// By how many femtoseconds a distance may be short.
    pub slack: u64,
    /// Each target has one LUN.
    pub one_lun: bool,
}

/// An item with its time, if it has one.
#[derive(Clone, Copy, Debug, PartialEq, Eq)]
pub struct TimedItem {
    pub time: Option<u64>,
    pub item: Item,
}

/// What is known of a channel: a clock for each target, the latest time, and whether two times could be compared.
#[derive(Clone, Copy, Debug, PartialEq, Eq)]
pub struct Watch {
    pub clocks: [Clock; TARGETS],
    pub latest: Option<u64>,
    pub has_pairs: bool,
}

/// The clock of a target.
pub(crate) fn clock_at(clocks: &[Clock; TARGETS], ce: u8) -> Clock
    ensures { result ≡ clock_at clocks.now ce }
{
    match clocks.get(usize::from(ce)) {
        Some(clock) => *clock,
        None => Clock::new(),
    }
}

// Adds a pair that is too short.
fn push_short<A: Allocator>(
    told: &mut Vec<Violation, A>,
    item: usize,
    slack: u64,
    pair: Option<Pair>,
) -> Result<(), AllocError>
    ensures { OnOk result (told.new.items ≡ told.old.items ++ short_at item slack pair) }
{
    let Some(pair) = pair else {
        return Ok(());
    };
    let Pair {
        fault,
        seen,
        wanted,
    } = pair;
    if seen.saturating_add(slack) < wanted {
        told.push(Violation {
            item,
            fault,
            seen,
            wanted,
        })?;
    }
    Ok(())
}

// Adds what of a cycle comes too soon. Whether it has a pair at all.
fn push_cycle<A: Allocator>(
    told: &mut Vec<Violation, A>,
    ruler: Ruler,
    item: usize,
    clock: Clock,
    cycle: Cycle,
    time: Option<u64>,
) -> Result<bool, AllocError>
    requires { AreBounded ruler.timings }
    ensures told { OnOk result (told.new.items ≡ told.old.items ++ short_of_cycle ruler item clock cycle time) }
    ensures pairs { IfOk result (λ has. has ≡ has_pair ruler clock cycle time) }
{
    let Ruler {
        timings,
        unit,
        slack,
        one_lun,
    } = ruler;
    let by_cycle = clock.cycle_pair(timings, unit, cycle.kind, time);
    let by_work = clock.busy_pair(timings, unit, cycle.kind, time);
    let by_ready = clock.ready_pair(timings, unit, one_lun, cycle.kind, time);
    push_short(told, item, slack, by_cycle)?;
    push_short(told, item, slack, by_work)?;
    push_short(told, item, slack, by_ready)?;
    Ok(by_cycle.is_some() || by_work.is_some() || by_ready.is_some())
}

// Adds what of an item comes too soon. Whether it has a pair at all.
fn push_item<A: Allocator>(
    told: &mut Vec<Violation, A>,
    ruler: Ruler,
    number: usize,
    clocks: &[Clock; TARGETS],
    item: Item,
    time: Option<u64>,
) -> Result<bool, AllocError>
    requires { AreBounded ruler.timings }
    ensures told { OnOk result (told.new.items ≡ told.old.items ++ short_of ruler number clocks.now item time) }
    ensures pairs { IfOk result (λ has. has ≡ pairs_with ruler clocks.now item time) }
{
    match item {
        Item::Cyc(cycle) => {
            let clock = clock_at(clocks, cycle.ce);
            push_cycle(told, ruler, number, clock, cycle, time)
        }
        Item::Rdy { .. } | Item::Ard { .. } => Ok(false),
    }
}

// The clock of a target is this one from here on.
fn set_clock(clocks: &mut [Clock; TARGETS], ce: u8, clock: Clock)
    ensures { clocks.new ≡ slice_set clocks.old ce clock }
{
    let place = usize::from(ce);
    if place < TARGETS {
        clocks[place] = clock;
    }
}

/// The clocks once an item has come.
pub(crate) fn go_on(clocks: &mut [Clock; TARGETS], item: Item, time: Option<u64>)
    ensures { clocks.new ≡ clocks_after clocks.old item time }
{
    match item {
        Item::Cyc(cycle) => {
            let clock = clock_at(clocks, cycle.ce);
            set_clock(clocks, cycle.ce, clock.after(cycle.kind, cycle.byte, time));
        }
        Item::Rdy { ce, .. } => {
            let clock = clock_at(clocks, ce);
            set_clock(clocks, ce, clock.ready(time));
        }
        Item::Ard { .. } => {}
    }
}

/// Where times go back: those before aren't compared with those behind.
pub(crate) fn cut_all(clocks: &mut [Clock; TARGETS])
    ensures { clocks.new ≡ map clock_cut clocks.old }
{
    *clocks = clocks.map(|clock| clock.cut());
}

/// A time is before the latest one.
pub(crate) fn is_before(latest: Option<u64>, time: Option<u64>) -> bool
    ensures { result ≡ is_before latest time }
{
    match (latest, time) {
        (Some(latest), Some(time)) => time < latest,
        (None, _) | (Some(_), None) => false,
    }
}

impl Watch {
    /// Nothing has been seen.
    pub fn new() -> Watch
        ensures { result ≡ watch_begun }
    {
        Watch {
            clocks: [Clock::new(); TARGETS],
            latest: None,
            has_pairs: false,
        }
    }

    // Adds that a time goes back, where it does.
    fn push_backward<A: Allocator>(
        &mut self,
        told: &mut Vec<Violation, A>,
        number: usize,
        time: Option<u64>,
    ) -> Result<(), AllocError>
        ensures told { OnOk result (told.new.items ≡ told.old.items ++ backward_at number (is_before self.old.latest time)) }
        ensures clocks { OnOk result (self.new.clocks ≡ clocks_at self.old time) }
        ensures same { OnOk result ((self.new.latest ≡ self.old.latest) × (self.new.has_pairs ≡ self.old.has_pairs)) }
    {
        if !is_before(self.latest, time) {
            return Ok(());
        }
        cut_all(&mut self.clocks);
        told.push(Violation {
            item: number,
            fault: TimingFault::Backwards,
            seen: 0,
            wanted: 0,
        })?;
        Ok(())
    }

    /// Goes on by an item of this number, and adds what of it is wrong.
    pub fn take<A: Allocator>(
        &mut self,
        told: &mut Vec<Violation, A>,
        ruler: Ruler,
        number: usize,
        timed: TimedItem,
    ) -> Result<(), AllocError>
        requires { AreBounded ruler.timings }
        ensures told { OnOk result (told.new.items ≡ told.old.items ++ told_of ruler self.old number timed) }
        ensures watch { OnOk result (self.new ≡ watch_after ruler self.old timed) }
    {
        let TimedItem { time, item } = timed;
        self.push_backward(told, number, time)?;
        let has_pair = push_item(told, ruler, number, &self.clocks, item, time)?;
        go_on(&mut self.clocks, item, time);
        self.latest = time.or(self.latest);
        self.has_pairs = self.has_pairs || has_pair;
        Ok(())
    }
}

/// All that is wrong with the times of a trace, in the order of its items. A trace no two times of which can be compared is told so first.
pub fn find_violations<A: Allocator>(
    alloc: A,
    ruler: Ruler,
    items: &[TimedItem],
) -> Result<Vec<Violation, A>, AllocError>
    requires { AreBounded ruler.timings }
    ensures { IfOk result (λ told. told.items ≡ violations_of ruler items.now) }
{
    let mut told = Vec::new(alloc);
    let mut watch = Watch::new();
    for (number, timed) in items.iter().enumerate() {
        watch.take(&mut told, ruler, number, *timed)?;
    }
    if !watch.has_pairs {
        told.insert(
            0,
            Violation {
                item: 0,
                fault: TimingFault::NoTimes,
                seen: 0,
                wanted: 0,
            },
        )?;
    }
    Ok(told)
}
