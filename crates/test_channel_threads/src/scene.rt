//! What four hosts store for a channel, and what a run of it must have come to.

use crate::chance::Chance;
use channel_work::{Gathered, NamedJob};
use nand_geometry::{Geometry, Parts};
use onfi_cycle::{Cycle, Item, Kind, Lun};
use std::alloc::Global;
use std::process::Abort;
use std::test::*;
use test_channel_scenes::Erase;
use trace_text::check;

/// Jobs of four hosts on so many LUNs, and what their workers' gate does.
pub(crate) struct Scene {
    pub(crate) parts: Parts,
    pub(crate) targets: u8,
    pub(crate) luns: u64,
    /// How many jobs each host stores.
    pub(crate) count: u64,
    /// Of sixteen draws, how many refuse a turn or a ready, and how many let a ready fail.
    pub(crate) refused: u64,
    pub(crate) failed: u64,
    /// No worker has a second turn before each has had one.
    pub(crate) takes_turns: bool,
}

impl Scene {
    /// The erase that a host stores under this number: the LUNs in turn, and on each two rows of the host's own.
    pub(crate) fn erase(&self, host: u64, number: u64) -> Erase {
        let place = number % self.luns.clamp(1, 16);
        Erase {
            parts: self.parts,
            lun: Lun {
                ce: (place / 4) as u8,
                lun: (place % 4) as u8,
            },
            base: first_row(host, number),
            tells: true,
        }
    }

    // Each job of the four hosts was done once, those of a host on a LUN in order.
    fn are_in_order(&self, done: &[NamedJob]) -> bool {
        let mut next = [0u64; 64];
        let mut seen = [0u64; 4];
        for one in done {
            let (host, number) = (one.name.host, one.name.number);
            let l = one.done.job.lun();
            let n = number % self.luns.clamp(1, 16);
            if host >= 4 || number >= self.count || u64::from(l.ce) * 4 + u64::from(l.lun) != n {
                return false;
            }
            let place = host as usize * 16 + n as usize;
            if number < next[place] {
                return false;
            }
            next[place] = number.saturating_add(1);
            seen[host as usize] = seen[host as usize].saturating_add(1);
        }
        seen == [self.count; 4]
    }

    // The trace is legal on a channel of so many targets.
    fn is_legal(&self, trace: &[Item]) -> Result<bool, Fail> {
        Ok(check(&Geometry::of(self.parts)?, self.targets.min(4), trace).is_ok())
    }

    /// All was done, in order, on a legal trace that tells the failures; on one LUN the jobs are told as they stand on the bus.
    pub(crate) fn is_done(
        &self,
        alloc: Global,
        gathered: &Gathered,
        gate: &Chance,
    ) -> Result<bool, Fail> {
        let trace = gathered.core.trace();
        let done = gathered.done.as_slice();
        let is_told = self.luns > 1
            || list_rows(alloc, trace)?.as_slice() == list_done(alloc, done)?.as_slice();
        Ok(
            is_told
                && self.are_in_order(done)
                && count_failures(trace) == count_failed(done)
                && gathered.backlog.is_empty()
                && gathered.seats.len() == 16
                && gathered.parked.len() == 0
                && gate.has_kept_turns()
                && self.is_legal(trace)?,
        )
    }
}

// The first row byte of a host's job.
fn first_row(host: u64, number: u64) -> u32 {
    ((host % 4) as u32 * 2 + (number % 2) as u32) * 2
}

// The first row byte of each erase in a trace.
fn list_rows(alloc: Global, trace: &[Item]) -> Result<Vec<u32>, Fail> {
    let mut rows = Vec::new(alloc);
    let mut opens = false;
    for item in trace {
        if let Item::Cyc(Cycle { kind, byte, .. }) = *item {
            if opens {
                rows.push(u32::from(byte))?;
            }
            opens = kind == Kind::Cmd && byte == 0x60;
        }
    }
    Ok(rows)
}

// The first row byte of each job that is done, by its name.
fn list_done(alloc: Global, done: &[NamedJob]) -> Result<Vec<u32>, Fail> {
    let mut rows = Vec::new(alloc);
    for one in done {
        rows.push(first_row(u64::from(one.name.host), one.name.number))?;
    }
    Ok(rows)
}

// How many readies say failure.
fn count_failures(trace: &[Item]) -> u64 {
    let mut failures: u64 = 0;
    for item in trace {
        if let Item::Rdy { fail, .. } = item
            && fail.last
        {
            failures = failures.saturating_add(1);
        }
    }
    failures
}

// How many jobs ended with 1.
fn count_failed(done: &[NamedJob]) -> u64 {
    let mut failed: u64 = 0;
    for one in done {
        if one.done.code == 1 {
            failed = failed.saturating_add(1);
        }
    }
    failed
}
