//! What the workers of a run ask: whether a LUN became ready, and whether all jobs are stored.

use channel_work::Gate;
use onfi_cycle::{Command, Failures, Lun};
use run_plan::{Failing, Polls};
use std::sync::atomic::{AtomicU64, Ordering};
use trace_timing::BusyTime;

/// The gate of a run: it gives every turn, and lets a LUN become ready after so many polls that say busy as its run file tells of its work.
#[derive(Drop)]
pub struct RunGate {
    polls: Polls,
    // In rising order.
    fails: Vec<Failing>,
    closed: AtomicU64,
    stopped: AtomicU64,
}

impl RunGate {
    /// A gate that isn't closed.
    pub fn new(polls: Polls, fails: Vec<Failing>) -> RunGate {
        let mut fails = fails;
        fails.as_mut_slice().sort_unstable();
        RunGate {
            polls,
            fails,
            closed: AtomicU64::new(0),
            stopped: AtomicU64::new(0),
        }
    }

    /// No more jobs come.
    pub fn close(&self) {
        self.closed.store(1, Ordering::SeqCst);
    }

    /// Memory was refused, so hosts store no more where the queue is full.
    pub fn stop(&self) {
        self.stopped.store(1, Ordering::SeqCst);
    }

    /// Whether memory was refused.
    pub fn is_stopped(&self) -> bool {
        self.stopped.load(Ordering::SeqCst) == 1
    }

    // Whether the next ready of a LUN is with this failure.
    fn fails_next(&self, lun: Lun, works: u64, before: bool) -> bool {
        let failing = Failing {
            target: lun.ce,
            lun: lun.lun,
            ready: works.saturating_add(1),
            before,
        };
        self.fails.as_slice().binary_search(&failing).is_ok()
    }

    // What the next ready of a LUN tells of failures.
    fn next_failures(&self, lun: Lun, works: u64) -> Failures {
        Failures {
            last: self.fails_next(lun, works, false),
            before: self.fails_next(lun, works, true),
        }
    }
}

impl Gate for RunGate {
    fn may_turn(&self, _worker: u32) -> bool {
        true
    }

    fn ready(&self, lun: Lun, busy_polls: u64, works: u64) -> Option<Failures> {
        self.ready_after(None, lun, busy_polls, works)
    }

    fn ready_after(
        &self,
        begun: Option<Command>,
        lun: Lun,
        busy_polls: u64,
        works: u64,
    ) -> Option<Failures> {
        let work = match begun {
            Some(command) => BusyTime::of(command),
            None => None,
        };
        if busy_polls < self.polls.count(lun, work) {
            None
        } else {
            Some(self.next_failures(lun, works))
        }
    }

    // Where the next ready tells of the page before it, the array is at that page until then.
    fn array_ready(&self, lun: Lun, works: u64) -> Option<bool> {
        if self.fails_next(lun, works, true) {
            None
        } else {
            Some(false)
        }
    }

    fn closed(&self) -> bool {
        self.closed.load(Ordering::SeqCst) == 1
    }
}
