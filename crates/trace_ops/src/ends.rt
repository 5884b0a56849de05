//! How an item ends the work of a LUN.
ghost use Rattle.std.specs.Prelude.{◌≡◌};
ghost use Rattle.trace_ops.specs.Listing.{is_taken, takes_some, has_failed, end_by_cycle, end_by, ended_if, ended_on, all_ended};

use crate::change::{Change, change_if};
use crate::judged::Judged;
use crate::looks::is_busy;
use crate::operation::{Ending, Operation, is_output, is_permitted};
use crate::places::Places;
use onfi_cycle::{Cycle, Item};
use std::alloc::Allocator;
use trace_faults::Verdict;

/// The LUN of this number was taken for ready.
pub(crate) fn is_taken(said: Verdict, lun: u8) -> bool
    ensures { result ≡ is_taken said lun }
{
    match said {
        Verdict::NotShown(ready) => ready.lun.lun == lun,
        Verdict::Permitted | Verdict::PassedOver | Verdict::Granted(_) | Verdict::Broken(_) =>
            false,
    }
}

// A LUN was taken for ready: where an item needs each of its target, the verdict names the first.
fn takes_some(said: Verdict) -> bool
    ensures { result ≡ takes_some said }
{
    match said {
        Verdict::NotShown(_) => true,
        Verdict::Permitted | Verdict::PassedOver | Verdict::Granted(_) | Verdict::Broken(_) =>
            false,
    }
}

/// A status byte says that work failed: bit 0.
pub(crate) fn has_failed(byte: u8) -> bool
    ensures { result ≡ has_failed byte }
{
    byte % 2 == 1
}

// How a cycle ends the work of a LUN that worked before it or didn't, and works after it or doesn't.
fn end_by_cycle(judged: &Judged, cycle: Cycle, lun: u8, was: bool, is: bool) -> Option<Ending>
    ensures { result ≡ end_by_cycle judged.now cycle lun was is }
{
    let at = judged.number;
    if is_taken(judged.said, lun) || takes_some(judged.said) && was && !is {
        Some(Ending::NotShown { at })
    } else if is_output(cycle.kind) && was && !is {
        Some(Ending::Shown {
            at,
            failed: has_failed(cycle.byte),
        })
    } else {
        None
    }
}

// How an item ends the work of this LUN, if it does.
fn end_by(judged: &Judged, item: Item, lun: u8) -> Option<Ending>
    ensures { result ≡ end_by judged.now item lun }
{
    match item {
        Item::Cyc(cycle) => {
            let was = is_busy(judged.before.at(lun));
            let is = is_busy(judged.after.at(lun));
            end_by_cycle(judged, cycle, lun, was, is)
        }
        Item::Rdy {
            lun: ready,
            fail,
            ..
        } => {
            if ready == lun && is_permitted(judged.said) {
                Some(Ending::Ready {
                    at: judged.number,
                    failed: fail.last,
                })
            } else {
                None
            }
        }
        Item::Ard { .. } => None,
    }
}

/// Ends the work of the operation of this number, if there is one and its work ends.
pub(crate) fn end_if<A: Allocator>(
    ops: &mut Vec<Operation, A>,
    end: Option<Ending>,
    at: Option<usize>,
)
    ensures { ops.new.items ≡ ended_if end at ops.old.items }
{
    if let Some(end) = end {
        change_if(ops, at, Change::End { end });
    }
}

// Ends the work of a LUN, if the item does.
fn end_on<A: Allocator>(ops: &mut Vec<Operation, A>, places: &Places, judged: &Judged, lun: u8)
    ensures { ops.new.items ≡ ended_on judged.now lun places.now ops.old.items }
{
    let end = end_by(judged, judged.item, lun);
    end_if(ops, end, places.worker(judged.ce, lun));
}

/// Ends the work of each LUN that the item ends.
pub(crate) fn end_all<A: Allocator>(ops: &mut Vec<Operation, A>, places: &Places, judged: &Judged)
    ensures { ops.new.items ≡ all_ended judged.now places.now ops.old.items }
{
    end_on(ops, places, judged, 0);
    end_on(ops, places, judged, 1);
    end_on(ops, places, judged, 2);
    end_on(ops, places, judged, 3);
}
