//! The gate of four workers: turns and readies by chance, or turn by turn.

use channel_work::Gate;
use onfi_cycle::{Failures, Lun};
use std::sync::atomic::{AtomicU64, Ordering};
use std::thread;

// So often a worker asks in vain for its second turn, and then all pass.
const MOST_LOOKS: u64 = 1_000_000;

/// A gate that refuses turns and readies by chance, and lets readies fail by chance: so many of sixteen. Where workers take turns, none has a second
/// turn before each has had one.
#[derive(Drop)]
pub(crate) struct Chance {
    drawn: AtomicU64,
    closed: AtomicU64,
    refused: u64,
    failed: u64,
    takes_turns: bool,
    turns: [AtomicU64; 4],
    looks: AtomicU64,
}

impl Chance {
    pub(crate) fn new(refused: u64, failed: u64, takes_turns: bool) -> Chance {
        Chance {
            drawn: AtomicU64::new(0),
            closed: AtomicU64::new(0),
            refused,
            failed,
            takes_turns,
            turns: [
                AtomicU64::new(0),
                AtomicU64::new(0),
                AtomicU64::new(0),
                AtomicU64::new(0),
            ],
            looks: AtomicU64::new(0),
        }
    }

    // One of sixteen numbers.
    fn draw(&self) -> u64 {
        let drawn = self
            .drawn
            .fetch_add(0x9e37_79b9_7f4a_7c15, Ordering::SeqCst);
        let mixed = (drawn ^ (drawn >> 30)).wrapping_mul(0xbf58_476d_1ce4_e5b9);
        mixed >> 60
    }

    /// No more jobs come.
    pub(crate) fn close(&self) {
        self.closed.store(1, Ordering::SeqCst);
    }

    // Some worker hasn't had a turn yet.
    fn awaits_one(&self) -> bool {
        self.turns
            .iter()
            .any(|turns| turns.load(Ordering::SeqCst) == 0)
    }

    // A worker that has had a turn lets the others have theirs.
    fn lets_others(&self, worker: u32) -> bool {
        let mine = &self.turns[worker as usize % 4];
        if mine.load(Ordering::SeqCst) > 0
            && self.awaits_one()
            && self.looks.fetch_add(1, Ordering::SeqCst) < MOST_LOOKS
        {
            thread::yield_now();
            return true;
        }
        mine.fetch_add(1, Ordering::SeqCst);
        false
    }

    /// Each worker had its first turn before any had its second, where they take turns.
    pub(crate) fn has_kept_turns(&self) -> bool {
        !self.takes_turns || self.looks.load(Ordering::SeqCst) < MOST_LOOKS
    }
}

impl Gate for Chance {
    fn may_turn(&self, worker: u32) -> bool {
        self.refused <= self.draw() && !(self.takes_turns && self.lets_others(worker))
    }

    fn ready(&self, _lun: Lun, _polls: u64, _works: u64) -> Option<Failures> {
        if self.draw() < self.refused {
            None
        } else {
            Some(Failures {
                last: self.draw() < self.failed,
                before: false,
            })
        }
    }

    fn array_ready(&self, _lun: Lun, _works: u64) -> Option<bool> {
        Some(false)
    }

    fn closed(&self) -> bool {
        self.closed.load(Ordering::SeqCst) == 1
    }
}
