//! One worker on a channel, and what its jobs come to.
ghost use Rattle.std.specs.Prelude.{◌≡◌, None};

use channel_work::{Gate, Gathered, NamedJob, Turns};
use nand_geometry::Parts;
use onfi_cycle::{Failures, Lun};
use std::alloc::Global;
use std::cell::Cell;
use std::marker::Brand;
use std::process::Abort;
use std::sync::Wait;
use std::sync::ledger::Blank;
use std::test::*;
use test_channel_scenes::{
    Erase, FOUR_LUNS, ON_ONE, ON_ZERO, ONE, ONE_LUN, TWO_LUNS, Told, ZERO, make_erasing,
    read_trace, run_alone, tell_done,
};

/// A gate that gives every turn, and lets each LUN be ready after a busy poll.
pub(crate) struct Open;

impl Gate for Open {
    fn may_turn(&self, _worker: u32) -> bool {
        true
    }

    fn ready(&self, _lun: Lun, busy_polls: u64, _works: u64) -> Option<Failures> {
        if busy_polls < 1 {
            None
        } else {
            Some(Failures::default())
        }
    }

    fn array_ready(&self, _lun: Lun, _works: u64) -> Option<bool> {
        Some(false)
    }

    fn closed(&self) -> bool {
        true
    }
}

// An erase of LUN 0 that is verified for another geometry.
const ELSEWHERE: Erase = Erase {
    parts: ONE_LUN,
    ..ON_ZERO
};

/// What two erases on two LUNs of a target put onto the bus, by one worker.
pub(crate) const TWO_ERASES: &str = "0 C 60\n0 A 00\n0 A 00\n0 A 00\n0 C d0\n\
    0 C 78\n0 A 00\n0 A 00\n0 A 00\n0 O 80\n0 R 0 0\n\
    0 C 60\n0 A 20\n0 A 00\n0 A 00\n0 C d0\n\
    0 C 78\n0 A 20\n0 A 00\n0 A 00\n0 O 80\n0 R 1 0\n\
    0 C 78\n0 A 00\n0 A 00\n0 A 00\n0 O e0\n\
    0 C 78\n0 A 20\n0 A 00\n0 A 00\n0 O e0\n";

// What the erase of LUN 1 puts onto the bus alone.
const ERASE_OF_ONE: &str = "0 C 60\n0 A 20\n0 A 00\n0 A 00\n0 C d0\n\
    0 C 78\n0 A 20\n0 A 00\n0 A 00\n0 O 80\n0 R 1 0\n\
    0 C 78\n0 A 20\n0 A 00\n0 A 00\n0 O e0\n";

// Erases of nine LUNs of four targets.
const FIRST: Erase = Erase {
    parts: FOUR_LUNS,
    ..ON_ZERO
};

const NINE: [Erase; 9] = [
    Erase {
        lun: Lun { ce: 0, lun: 0 },
        ..FIRST
    },
    Erase {
        lun: Lun { ce: 0, lun: 1 },
        ..FIRST
    },
    Erase {
        lun: Lun { ce: 0, lun: 2 },
        ..FIRST
    },
    Erase {
        lun: Lun { ce: 0, lun: 3 },
        ..FIRST
    },
    Erase {
        lun: Lun { ce: 1, lun: 0 },
        ..FIRST
    },
    Erase {
        lun: Lun { ce: 1, lun: 1 },
        ..FIRST
    },
    Erase {
        lun: Lun { ce: 2, lun: 2 },
        ..FIRST
    },
    Erase {
        lun: Lun { ce: 3, lun: 2 },
        ..FIRST
    },
    Erase {
        lun: Lun { ce: 3, lun: 3 },
        ..FIRST
    },
];

// A gate that refuses so many turns, and then gives every one.
#[derive(Drop)]
struct Late {
    refusals: Cell<u32>,
}

impl Gate for Late {
    fn may_turn(&self, _worker: u32) -> bool {
        let left = self.refusals.get();
        self.refusals.set(left.saturating_sub(1));
        left == 0
    }

    fn ready(&self, lun: Lun, busy_polls: u64, works: u64) -> Option<Failures> {
        Open.ready(lun, busy_polls, works)
    }

    fn array_ready(&self, lun: Lun, works: u64) -> Option<bool> {
        Open.array_ready(lun, works)
    }

    fn closed(&self) -> bool {
        true
    }
}

// Erases of one worker, and what must come of them.
struct Work {
    parts: Parts,
    targets: u8,
    erases: &'static [Erase],
    // How many turns are refused before the first.
    refusals: u32,
    // What stands on the bus, where it is told here.
    trace: Option<&'static str>,
    // The jobs that are done first, how many are done, and how many aren't.
    first: &'static [Told],
    done: usize,
    left: usize,
    turns: u64,
}

// These jobs are done first, in this order.
fn are_done(done: &[NamedJob], wanted: &[Told]) -> bool {
    for (place, told) in wanted.iter().enumerate() {
        if tell_done(done, place) != Some(*told) {
            return false;
        }
    }
    true
}

// The worker does its jobs.
fn do_work<L: Turns, R: Wait + AllocGlobal>(
    rt: &R,
    blank: Blank,
    work: &Work,
) -> Result<Gathered, Fail>
    requires name { blank.name ≡ L.name }
    requires parts { (blank.parts ≡ L.parts) × (L.all ≡ L.parts) × (L.parts ≡ 9) × (L.origin ≡ None) }
{
    let state = make_erasing::<L, R>(rt, blank, work.parts, work.targets, work.erases)?;
    let gate = Late {
        refusals: Cell::new(work.refusals),
    };
    run_alone(rt, state, &gate)
}

// The jobs came to what they must, and all is given back.
fn has_come_to(alloc: Global, gathered: &Gathered, work: &Work) -> Result<bool, Fail> {
    let done = gathered.done.as_slice();
    let is_traced = match work.trace {
        None => true,
        Some(text) => gathered.core.trace() == read_trace(alloc, text)?.as_slice(),
    };
    Ok(
        is_traced
            && are_done(done, work.first)
            && done.len() == work.done
            && gathered.backlog.len() == work.left
            && gathered.parked.len() == 0
            && gathered.turns == work.turns,
    )
}

// Whether they do.
fn play<R: Wait + AllocGlobal>(rt: &R, work: &Work) -> Result<bool, Fail> {
    let gathered = do_work::<Brand, _>(rt, Blank::new(9), work)?;
    has_come_to(rt.alloc(), &gathered, work)
}

// Two jobs; one of another geometry, which stays; and nine that are started before any has a turn, so that the lease of the last can't be parked: the
// worker goes on with that lease, and its job is done first.
const WORKS: [Work; 3] = [
    Work {
        parts: TWO_LUNS,
        targets: 1,
        erases: &[ON_ZERO, ON_ONE],
        refusals: 0,
        trace: Some(TWO_ERASES),
        first: &[(0, 0, ZERO, 0), (0, 1, ONE, 0)],
        done: 2,
        left: 0,
        turns: 4,
    },
    Work {
        parts: TWO_LUNS,
        targets: 1,
        erases: &[ELSEWHERE, ON_ONE],
        refusals: 0,
        trace: Some(ERASE_OF_ONE),
        first: &[(0, 1, ONE, 0)],
        done: 1,
        left: 1,
        turns: 2,
    },
    Work {
        parts: FOUR_LUNS,
        targets: 4,
        erases: &NINE,
        refusals: 9,
        trace: None,
        first: &[(0, 8, Lun { ce: 3, lun: 3 }, 0)],
        done: 9,
        left: 0,
        turns: 18,
    },
];

#[test]
fn one_worker_does_its_jobs(rt: HostRuntime) -> Result<(), Fail> {
    for (place, work) in WORKS.iter().enumerate() {
        if !play(&rt, work)? {
            return Err(Fail::new(format_args!("work {place} came to something else")));
        }
    }
    Ok(())
}
