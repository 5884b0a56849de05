//! What a worker asks its gate. No clause says it: a `work` that asks with another LUN's polls or readies, with those of the whole channel, or
//! with none, fails here.
ghost use Rattle.std.specs.Prelude.{◌≡◌, None};

use channel_work::{Gate, Turns};
use onfi_cycle::{Failures, Lun};
use std::cell::Cell;
use std::marker::Brand;
use std::process::Abort;
use std::sync::Wait;
use std::sync::ledger::Blank;
use std::test::*;
use test_channel_scenes::{Erase, ON_ONE, ON_ZERO, ONE, TWO_LUNS, ZERO, make_erasing, run_alone};

/// What a gate is asked: whether a LUN became ready after so many busy polls and so many readies, or its array after so many readies.
#[derive(Clone, Copy, PartialEq, Eq)]
enum Asked {
    Ready(Lun, u64, u64),
    Array(Lun, u64),
}

/// A gate that gives every turn, lets each LUN be ready after so many busy polls, and keeps the first 16 things that it is asked.
#[derive(Drop)]
pub(crate) struct Recorder {
    polls: u64,
    asked: Cell<[Option<Asked>; 16]>,
    count: Cell<usize>,
}

impl Recorder {
    pub(crate) fn new(polls: u64) -> Recorder {
        Recorder {
            polls,
            asked: Cell::new([None; 16]),
            count: Cell::new(0),
        }
    }

    // It was asked so often, and this first.
    fn has_asked(&self, count: usize, all: &[Option<Asked>]) -> bool {
        self.count.get() == count && self.asked.get().as_slice() == all
    }

    fn keep(&self, asked: Asked) {
        let mut all = self.asked.get();
        let count = self.count.get();
        if let Some(place) = all.get_mut(count) {
            *place = Some(asked);
        }
        self.asked.set(all);
        self.count.set(count.saturating_add(1));
    }
}

impl Gate for Recorder {
    fn may_turn(&self, _worker: u32) -> bool {
        true
    }

    fn ready(&self, lun: Lun, busy_polls: u64, works: u64) -> Option<Failures> {
        self.keep(Asked::Ready(lun, busy_polls, works));
        if busy_polls < self.polls {
            None
        } else {
            Some(Failures::default())
        }
    }

    fn array_ready(&self, lun: Lun, works: u64) -> Option<bool> {
        self.keep(Asked::Array(lun, works));
        Some(false)
    }

    fn closed(&self) -> bool {
        true
    }
}

// Two erases on LUN 0, and one on LUN 1 that is stored between them.
const ERASES: &[Erase] = &[ON_ZERO, ON_ONE, Erase { base: 4, ..ON_ZERO }];

// What one worker asks that starts a job wherever it can, and else goes on with the oldest lease. A LUN is ready after its second busy poll; after
// each question of its ready that of its array follows, which counts a ready that has just come. LUN 0 begins, then LUN 1; each is polled once
// more and ready; the first erase of LUN 0 ends and its second begins, before that of LUN 1 ends; and it is polled once more.
const ASKED: &[Option<Asked>] = &[
    Some(Asked::Ready(ZERO, 1, 0)),
    Some(Asked::Array(ZERO, 0)),
    Some(Asked::Ready(ONE, 1, 0)),
    Some(Asked::Array(ONE, 0)),
    Some(Asked::Ready(ZERO, 2, 0)),
    Some(Asked::Array(ZERO, 1)),
    Some(Asked::Ready(ONE, 2, 0)),
    Some(Asked::Array(ONE, 1)),
    Some(Asked::Ready(ZERO, 1, 1)),
    Some(Asked::Array(ZERO, 1)),
    Some(Asked::Ready(ZERO, 2, 1)),
    Some(Asked::Array(ZERO, 2)),
    None,
    None,
    None,
    None,
];

// The three erases, by one worker on a target of two LUNs. How many are done.
fn play<L: Turns, R: Wait + AllocGlobal>(
    rt: &R,
    blank: Blank,
    gate: &Recorder,
) -> Result<usize, Fail>
    requires name { blank.name ≡ L.name }
    requires parts { (blank.parts ≡ L.parts) × (L.all ≡ L.parts) × (L.parts ≡ 9) × (L.origin ≡ None) }
{
    let state = make_erasing::<L, R>(rt, blank, TWO_LUNS, 1, ERASES)?;
    let gathered = run_alone(rt, state, gate)?;
    Ok(gathered.done.len())
}

#[test]
fn a_gate_is_asked_of_each_poll(rt: HostRuntime) -> Result<(), Fail> {
    let gate = Recorder::new(2);
    let count = play::<Brand, _>(&rt, Blank::new(9), &gate)?;
    assert!(rt; count == 3 && gate.has_asked(12, ASKED));
    Ok(())
}
