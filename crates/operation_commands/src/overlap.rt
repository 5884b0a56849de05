//! How many LUNs were busy at once, and how long the bus was in use.

use crate::busy::end_item;
use crate::listed_trace::ListedTrace;
use onfi_cycle::Item;
use std::alloc::{AllocError, Global};
use std::fmt;
use trace_ops::{Ending, Operation};

// How many LUNs a channel has at most.
const MOST_LUNS: usize = 16;

/// How long a trace is, and in how much of it so many LUNs were busy and the bus was in use.
#[derive(Clone, Copy)]
pub(crate) struct Overlap {
    length: u64,
    /// In how much of it so many LUNs were busy.
    busy: [u64; MOST_LUNS + 1],
    // How many were busy at once at most.
    most: usize,
    cycle: u64,
    cycles: u64,
}

// The times of a trace where each item has one, and none falls: the first and the last.
fn ends_of(trace: &ListedTrace) -> Option<(u64, u64)> {
    let first = trace.time(0)?;
    let mut last = first;
    for found in trace.timed().iter() {
        let time = found.time?;
        if time < last {
            return None;
        }
        last = time;
    }
    Some((first, last))
}

// The time at which work ended; that of the end of the trace, where it wasn't seen to end.
fn end_time(trace: &ListedTrace, operation: Operation, last: u64) -> u64 {
    let at = match operation.end {
        Some(Ending::Abandoned { at }) => Some(at),
        Some(_) | None => end_item(operation),
    };
    match at {
        None => last,
        Some(at) => trace.time(at).unwrap_or(last),
    }
}

// The times at which work begins (false) and ends (true), in the order of time. Beginnings stand before the ends of the same time, so that work of no length ends
// after it has begun.
fn edges_of(alloc: Global, trace: &ListedTrace, last: u64) -> Result<Vec<(u64, bool)>, AllocError> {
    let mut edges = Vec::new(alloc);
    for operation in trace.operations.iter() {
        if let Some(start) = operation.start {
            if let Some(time) = trace.time(start) {
                edges.push((time, false))?;
                edges.push((end_time(trace, *operation, last), true))?;
            }
        }
    }
    edges.sort()?;
    Ok(edges)
}

// The least time between two cycles in a row, and how many cycles there are.
fn measure_cycles(trace: &ListedTrace) -> (u64, u64) {
    let mut before: Option<u64> = None;
    let mut least: Option<u64> = None;
    let mut count: u64 = 0;
    for found in trace.timed().iter() {
        if let Item::Cyc(_) = found.item {
            count = count.saturating_add(1);
            let step = match (before, found.time) {
                (Some(before), Some(time)) => Some(time.saturating_sub(before)),
                (None, _) | (_, None) => None,
            };
            least = match (least, step) {
                (Some(least), Some(step)) => Some(least.min(step)),
                (least, step) => least.or(step),
            };
            before = found.time;
        }
    }
    (least.unwrap_or(0), count)
}

impl Overlap {
    // So much time more in which so many are busy.
    fn add(&mut self, count: usize, time: u64) {
        if let Some(busy) = self.busy.get_mut(count) {
            *busy = busy.saturating_add(time);
        }
        if 0 < time {
            self.most = self.most.max(count.min(MOST_LUNS));
        }
    }

    // Goes over the beginnings and ends of work.
    fn count(&mut self, edges: &[(u64, bool)], first: u64, last: u64) {
        let mut now = first;
        let mut count: usize = 0;
        for (time, ends) in edges {
            self.add(count, time.saturating_sub(now));
            now = now.max(*time);
            count = if *ends {
                count.saturating_sub(1)
            } else {
                count.saturating_add(1)
            };
        }
        self.add(count, last.saturating_sub(now));
    }

    /// Those of a trace, where each item has a time, none falls, and the last is later than the first.
    pub(crate) fn of(alloc: Global, trace: &ListedTrace) -> Result<Option<Overlap>, AllocError> {
        let Some((first, last)) = ends_of(trace) else {
            return Ok(None);
        };
        if last <= first {
            return Ok(None);
        }
        let (cycle, cycles) = measure_cycles(trace);
        let mut overlap = Overlap {
            length: last - first,
            busy: [0; MOST_LUNS + 1],
            most: 0,
            cycle,
            cycles,
        };
        let edges = edges_of(alloc, trace, last)?;
        overlap.count(edges.as_slice(), first, last);
        Ok(Some(overlap))
    }
}

// How many of a hundred parts of a whole, rounded down.
fn percent(part: u64, whole: u64) -> u64 {
    if whole == 0 {
        return 0;
    }
    let share = u128::from(part) * 100 / u128::from(whole);
    u64::try_from(share).unwrap_or(100)
}

impl fmt::Display for Overlap {
    fn fmt<W: fmt::Write>(&self, f: &mut fmt::Formatter<W>) -> fmt::Result {
        write!(f, "time {}: ", self.length)?;
        for (count, busy) in self.busy.iter().enumerate() {
            if count <= self.most {
                let separator = if count == 0 { "" } else { ", " };
                let luns = if count == 1 { "LUN" } else { "LUNs" };
                let share = percent(*busy, self.length);
                write!(f, "{separator}{count} {luns} busy {share} %")?;
            }
        }
        let in_use = self.cycle.saturating_mul(self.cycles);
        write!(
            f,
            "; bus {} % (a cycle is {})",
            percent(in_use, self.length),
            self.cycle
        )
    }
}
