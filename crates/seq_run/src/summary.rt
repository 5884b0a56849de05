//! What there was in a run, in numbers.

use onfi_cycle::{Cycle, Item, Kind};
use std::fmt;
use std::time::Duration;

/// What there was in a run.
#[derive(Clone, Copy, Debug, PartialEq, Eq)]
pub(crate) struct Summary {
    jobs: usize,
    cycles: u64,
    polls: u64,
    inputs: u64,
    outputs: u64,
    // How often each of four LUNs of each of four targets became ready.
    readies: [[u64; 4]; 4],
}

impl Summary {
    // One ready more.
    fn add_ready(self, target: u8, lun: u8) -> Summary {
        let mut sum = self;
        if target < 4 && lun < 4 {
            let count = sum.readies[usize::from(target)][usize::from(lun)];
            sum.readies[usize::from(target)][usize::from(lun)] = count.saturating_add(1);
        }
        sum
    }

    /// How often a LUN became ready.
    pub(crate) fn readies_of(self, target: u32, lun: u32) -> u64 {
        if target < 4 && lun < 4 {
            self.readies[target as usize][lun as usize]
        } else {
            0
        }
    }

    // One cycle more.
    fn add_cycle(self, cycle: Cycle) -> Summary {
        let mut sum = self;
        sum.cycles = sum.cycles.saturating_add(1);
        match cycle.kind {
            Kind::Cmd if cycle.byte == 0x70 || cycle.byte == 0x78 => {
                sum.polls = sum.polls.saturating_add(1);
            }
            Kind::Din => sum.inputs = sum.inputs.saturating_add(1),
            Kind::Dout => sum.outputs = sum.outputs.saturating_add(1),
            _ => {}
        }
        sum
    }

    /// What there was in so many jobs with this trace.
    pub(crate) fn of(jobs: usize, trace: &[Item]) -> Summary {
        let mut sum = Summary {
            jobs,
            cycles: 0,
            polls: 0,
            inputs: 0,
            outputs: 0,
            readies: [[0; 4]; 4],
        };
        for item in trace {
            sum = match *item {
                Item::Cyc(cycle) => sum.add_cycle(cycle),
                Item::Rdy { ce, lun, .. } => sum.add_ready(ce, lun),
                Item::Ard { .. } => sum,
            };
        }
        sum
    }
}

impl fmt::Display for Summary {
    fn fmt<W: fmt::Write>(&self, f: &mut fmt::Formatter<W>) -> fmt::Result {
        // Each poll has put out one byte, the status.
        let read = self.outputs.saturating_sub(self.polls);
        let Summary {
            jobs,
            cycles,
            polls,
            inputs,
            outputs: _,
            readies: _,
        } = *self;
        write!(
            f,
            "jobs {jobs}, cycles {cycles}, polls {polls}, bytes to the dies {inputs}, bytes from the dies {read}"
        )
    }
}

/// What there was in a run, and how long its jobs took, if that is known.
#[derive(Clone, Copy, Debug)]
pub(crate) struct Stats {
    pub summary: Summary,
    pub time: Option<Duration>,
}

// How many cycles there were in a second, if it took any time.
fn cycles_a_second(cycles: u64, time: Duration) -> Option<u128> {
    let nanos = time.as_nanos();
    if nanos == 0 {
        return None;
    }
    Some(u128::from(cycles) * 1_000_000_000 / nanos)
}

impl fmt::Display for Stats {
    fn fmt<W: fmt::Write>(&self, f: &mut fmt::Formatter<W>) -> fmt::Result {
        let Stats { summary, time } = *self;
        write!(f, "{summary}")?;
        let Some(time) = time else {
            return Ok(());
        };
        let (whole, millis) = (time.as_secs(), time.subsec_millis());
        write!(f, ", seconds {whole}.{millis:03}, cycles a second ")?;
        match cycles_a_second(summary.cycles, time) {
            Some(cycles) => write!(f, "{cycles}"),
            None => f.write_str("-"),
        }
    }
}
