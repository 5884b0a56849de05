//! The run of a refusal as the caller is told it.
ghost use Rattle.std.specs.Prelude.{◌≡◌, ◌++◌, Option, map};
ghost use Rattle.micro_verify.specs.Lazy.{Counter as RunValue};
ghost use Rattle.micro_verify.specs.Playing.{Shown};
ghost use Rattle.refused_run.specs.Course.{last_item};
ghost use Rattle.onfiseq_verify_c.specs.Run.{TellsOwn, run_at, numbers_of, placed, sought_run, is_forbidden};

use crate::item::{OnfiseqItem, place_found, place_run};
use crate::verdict::Found;
use micro_verify::Counter;
use onfi_cycle::Item;
use refused_run::{End, Run};
use std::alloc::Global;

/// A run of a refused program: how many items it has, the word at which it ends, the number of the reason there, and 1 where its last item isn't permitted.
/// All are 0 where there is no run.
#[repr(C)]
#[derive(Clone, Copy)]
pub struct OnfiseqRun {
    pub count: u64,
    pub at: u64,
    pub number: u32,
    pub forbidden: u32,
}

// No run.
const NO_RUN: OnfiseqRun = OnfiseqRun {
    count: 0,
    at: 0,
    number: 0,
    forbidden: 0,
};

// Whether an item isn't permitted.
fn is_forbidden(item: Option<Item>) -> u32
    ensures { result ≡ is_forbidden item }
{
    match item {
        None => 0,
        Some(_) => 1,
    }
}

// What is told of a run of so many items that the refusal has by itself.
fn own_run(found: Found, count: usize) -> OnfiseqRun
    ensures { result ≡ run_at found count }
{
    match found {
        Found::Text { reason, word } => OnfiseqRun {
            count: count as u64,
            at: word as u64,
            number: reason.number(),
            forbidden: 1,
        },
        Found::Accepted | Found::Page(_) | Found::File { .. } | Found::OutOfMemory => OnfiseqRun {
            count: count as u64,
            at: 0,
            number: 0,
            forbidden: 1,
        },
    }
}

/// Tells the run that a refusal has by itself, if it has one.
pub(crate) fn tell_own(items: &mut [OnfiseqItem], found: Found, run: Option<Counter>) -> OnfiseqRun
    ensures { (c : Option RunValue) → Shown run c → TellsOwn found c items.old items.new result }
{
    match run {
        None => NO_RUN,
        Some(run) => {
            let count = place_run(items, Some(run));
            own_run(found, count)
        }
    }
}

/// Tells a run that was found.
pub(crate) fn tell_sought(items: &mut [OnfiseqItem], run: &Run<Global>) -> OnfiseqRun
    ensures told { result ≡ sought_run run.now.items.items run.now.end }
    ensures written { items.new ≡ placed (map numbers_of (run.now.items.items ++ last_item run.now.end.item)) items.old }
{
    let End { word, reason, item } = run.end;
    let count = place_found(items, run.items.as_slice(), item);
    OnfiseqRun {
        count: count as u64,
        at: word as u64,
        number: reason.number(),
        forbidden: is_forbidden(item),
    }
}
