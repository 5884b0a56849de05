//! Work that takes too long.
ghost use Rattle.std.specs.Prelude.{◌≡◌, ◌<◌, ◌+◌, ◌^◌, length, slice_get, IfOk};
ghost use Rattle.busy_times.specs.Overruns.{AreJudgeable, bound_work, is_long, falls, overrun_at, mark_at, is_late, overrun_from, time_in, overrun_of, overruns_of};
ghost use Rattle.trace_timing.specs.Clock.{elapsed};

use crate::bound::bound_of;
use crate::shown::{has_ended, is_abandoned, shows_work};
use std::alloc::{AllocError, Allocator};
use trace_ops::Operation;
use trace_timing::{BusyTime, LongestTimes, TimedItem, TimingFault, Violation};

/// By what the length of work is judged.
#[derive(Clone, Copy, Debug, PartialEq, Eq)]
pub struct BusyRuler {
    pub longest: LongestTimes,
    /// tWB, in femtoseconds: the LUN becomes busy so long after the item that begins the work, at the latest.
    pub to_busy: u64,
    /// How many femtoseconds 1 of a time is.
    pub unit: u64,
    /// By how many femtoseconds work may take longer.
    pub slack: u64,
}

/// Work, when it began, and how long it may take.
#[derive(Clone, Copy)]
pub(crate) struct Bounded {
    worker: Operation,
    work: BusyTime,
    // The time of the item that begins it.
    since: u64,
    // In femtoseconds, tWB included.
    wanted: u64,
    unit: u64,
    slack: u64,
}

// So many femtoseconds from one time to another.
fn elapsed(unit: u64, since: u64, time: u64) -> u64
    ensures { result ≡ elapsed unit since time }
{
    time.saturating_sub(since).saturating_mul(unit)
}

// The time is before the latest one.
fn falls(latest: u64, time: Option<u64>) -> bool
    ensures { result ≡ falls latest time }
{
    match time {
        None => false,
        Some(time) => time < latest,
    }
}

impl Bounded {
    // It is too long since the work began.
    fn is_long(self, time: Option<u64>) -> bool
        ensures { result ≡ is_long self time }
    {
        match time {
            None => false,
            Some(time) => {
                self.wanted.saturating_add(self.slack) < elapsed(self.unit, self.since, time)
            }
        }
    }

    // What is told of the item that shows it.
    fn violation_at(self, item: usize, time: Option<u64>) -> Violation
        ensures { result ≡ overrun_at self item time }
    {
        Violation {
            item,
            fault: TimingFault::TooLong(self.work),
            seen: elapsed(self.unit, self.since, time.unwrap_or(self.since)),
            wanted: self.wanted,
        }
    }

    // An item of this number shows that the work takes too long.
    fn is_late(self, ops: &[Operation], marks: &[usize], number: usize, timed: TimedItem) -> bool
        ensures { result ≡ is_late self ops.now marks.now number timed }
    {
        self.is_long(timed.time)
            && shows_work(ops, mark_at(marks, number), self.worker, number, timed.item)
    }

    // The first of these items that shows that the work takes too long, up to its end; no time is compared over one that falls.
    fn find_overrun(
        self,
        ops: &[Operation],
        marks: &[usize],
        begun: usize,
        items: &[TimedItem],
    ) -> Option<Violation>
        requires { begun + length items.now < 2 ^ 64 }
        ensures { result ≡ overrun_from self ops.now marks.now begun self.since items.now }
    {
        let mut number = begun;
        let mut latest = self.since;
        let mut rest = items;
        'rest: while let Some((first, later)) = rest.split_first() {
            if has_ended(self.worker.end, number) || falls(latest, first.time) {
                return None;
            }
            if self.is_late(ops, marks, number, *first) {
                return Some(self.violation_at(number, first.time));
            }
            latest = first.time.unwrap_or(latest);
            number += 1;
            rest = later;
        }
        None
    }
}

// The operation of an item.
fn mark_at(marks: &[usize], number: usize) -> usize
    ensures { result ≡ mark_at marks.now number }
{
    match marks.get(number) {
        None => 0,
        Some(mark) => *mark,
    }
}

// The time of an item that is there.
fn time_at(items: &[TimedItem], number: usize) -> Option<u64>
    ensures { result ≡ time_in (slice_get items.now number) }
{
    match items.get(number) {
        None => None,
        Some(timed) => timed.time,
    }
}

// Work that began at this time.
fn bound_work(ruler: BusyRuler, worker: Operation, work: BusyTime, since: u64) -> Bounded
    requires { AreJudgeable ruler }
    ensures { result ≡ bound_work ruler worker work since }
{
    let BusyRuler {
        longest,
        to_busy,
        unit,
        slack,
    } = ruler;
    Bounded {
        worker,
        work,
        since,
        wanted: longest.time_of(work) + to_busy,
        unit,
        slack,
    }
}

// What is told of an operation.
fn overrun_of(
    ruler: BusyRuler,
    ops: &[Operation],
    marks: &[usize],
    items: &[TimedItem],
    worker: Operation,
) -> Option<Violation>
    requires { AreJudgeable ruler }
    ensures { result ≡ overrun_of ruler ops.now marks.now items.now worker }
{
    if is_abandoned(worker.end) {
        return None;
    }
    let work = bound_of(worker)?;
    let start = worker.start?;
    if ruler.longest.time_of(work) == 0 {
        return None;
    }
    let since = time_at(items, start)?;
    let (_, rest) = items.split_at(start.min(items.len()));
    bound_work(ruler, worker, work, since).find_overrun(ops, marks, start, rest)
}

/// What takes too long of the operations of a trace, in their order: of each at the first item that shows it. `marks` has the operation of each item
/// ([`find_operations`](trace_ops::find_operations)). Of work that was abandoned, and of that whose time is 0, nothing is told.
pub fn find_overruns<A: Allocator>(
    alloc: A,
    ruler: BusyRuler,
    ops: &[Operation],
    marks: &[usize],
    items: &[TimedItem],
) -> Result<Vec<Violation, A>, AllocError>
    requires { AreJudgeable ruler }
    ensures { IfOk result (λ told. told.items ≡ overruns_of ruler ops.now marks.now items.now) }
{
    let mut told = Vec::new(alloc);
    for worker in ops {
        if let Some(violation) = overrun_of(ruler, ops, marks, items, *worker) {
            told.push(violation)?;
        }
    }
    Ok(told)
}
