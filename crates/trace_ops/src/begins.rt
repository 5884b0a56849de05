//! The beginning of work.
ghost use Rattle.std.specs.Prelude.{◌≡◌, slice_get};
ghost use Rattle.trace_ops.specs.Listing.{is_reset, is_command, begins_by, works_unknown, is_working_opener, is_working_closer, works_as_foreign, is_input_to_chip, begins_foreign, starts_on, abandoned_by, begun_on, all_begun};

use crate::change::{Change, change_at};
use crate::ends::is_taken;
use crate::judged::Judged;
use crate::looks::is_busy;
use crate::operation::{Ending, Operation, closes_as_known, is_output, is_permitted};
use crate::owner::op_of;
use crate::places::Places;
use onfi_cycle::{Cycle, Item, Kind};
use std::alloc::Allocator;

fn is_command(kind: Kind) -> bool
    ensures { result ≡ is_command kind }
{
    match kind {
        Kind::Cmd => true,
        Kind::Adr | Kind::Din | Kind::Dout => false,
    }
}

fn is_reset(cycle: Cycle) -> bool
    ensures { result ≡ is_reset cycle }
{
    is_command(cycle.kind) && cycle.byte == 0xff
}

/// A LUN begins work by this item.
pub(crate) fn begins_by(judged: &Judged, item: Item, lun: u8) -> bool
    ensures { result ≡ begins_by judged.now item lun }
{
    match item {
        Item::Cyc(cycle) => {
            is_permitted(judged.said)
                && is_busy(judged.after.at(lun))
                && (!is_busy(judged.before.at(lun))
                    || is_taken(judged.said, lun)
                    || is_reset(cycle))
        }
        Item::Rdy { .. } | Item::Ard { .. } => false,
    }
}

// A command whose work the model doesn't know.
fn works_unknown(byte: u8) -> bool
    ensures { result ≡ works_unknown byte }
{
    byte == 0xef
        || byte == 0xee
        || byte == 0xed
        || byte == 0xfa
        || byte == 0xfc
        || byte == 0xd4
        || byte == 0xd5
        || byte == 0xd9
        || byte == 0xf9
}

fn is_working_opener(opener: Option<u8>) -> bool
    ensures { result ≡ is_working_opener opener }
{
    match opener {
        None => false,
        Some(byte) => works_unknown(byte),
    }
}

fn is_working_closer(closer: Option<u8>) -> bool
    ensures { result ≡ is_working_closer closer }
{
    match closer {
        None => false,
        Some(byte) => closes_as_known(byte),
    }
}

fn works_as_foreign(operation: Option<Operation>) -> bool
    ensures { result ≡ works_as_foreign operation }
{
    match operation {
        None => false,
        Some(operation) => {
            is_working_opener(operation.opener()) || is_working_closer(operation.closer)
        }
    }
}

fn is_input_to_chip(item: Item) -> bool
    ensures { result ≡ is_input_to_chip item }
{
    match item {
        Item::Cyc(cycle) => !is_output(cycle.kind),
        Item::Rdy { .. } | Item::Ard { .. } => false,
    }
}

// Work of which the model knows nothing begins, on a target of one LUN. The operation is looked at last, since that copies it.
fn begins_foreign(ops: &[Operation], judged: &Judged, lun: u8, number: usize) -> bool
    ensures { result ≡ begins_foreign judged.now lun (slice_get ops.now number) }
{
    judged.one_lun
        && lun == 0
        && is_input_to_chip(judged.item)
        && works_as_foreign(op_of(ops, Some(number)))
}

// A LUN begins work by this item of the operation.
fn starts_on(ops: &[Operation], judged: &Judged, lun: u8, number: usize) -> bool
    ensures { result ≡ starts_on judged.now lun number ops.now }
{
    begins_by(judged, judged.item, lun) || begins_foreign(ops, judged, lun, number)
}

// The work before it is abandoned.
fn abandon<A: Allocator>(
    ops: &mut Vec<Operation, A>,
    judged: &Judged,
    number: usize,
    worker: Option<usize>,
)
    ensures { ops.new.items ≡ abandoned_by judged.now number worker ops.old.items }
{
    if let Some(old) = worker {
        if old != number {
            let end = Ending::Abandoned { at: judged.number };
            change_at(ops, old, Change::End { end });
        }
    }
}

// Begins work on a LUN, if the item of this operation does.
fn begin_on<A: Allocator>(
    ops: &mut Vec<Operation, A>,
    places: &mut Places,
    judged: &Judged,
    number: usize,
    lun: u8,
)
    ensures ops { ops.new.items ≡ (begun_on judged.now number lun (record { places = places.old; ops = ops.old.items })).ops }
    ensures places { places.new ≡ (begun_on judged.now number lun (record { places = places.old; ops = ops.old.items })).places }
{
    if starts_on(ops.as_slice(), judged, lun, number) {
        abandon(ops, judged, number, places.worker(judged.ce, lun));
        let item = judged.number;
        change_at(ops, number, Change::Begin { item, lun });
        places.note_worker(judged.ce, lun, number);
    }
}

/// Begins work on each LUN on which the item of this operation does.
pub(crate) fn begin_all<A: Allocator>(
    ops: &mut Vec<Operation, A>,
    places: &mut Places,
    judged: &Judged,
    number: usize,
)
    ensures ops { ops.new.items ≡ (all_begun judged.now number (record { places = places.old; ops = ops.old.items })).ops }
    ensures places { places.new ≡ (all_begun judged.now number (record { places = places.old; ops = ops.old.items })).places }
{
    begin_on(ops, places, judged, number, 0);
    begin_on(ops, places, judged, number, 1);
    begin_on(ops, places, judged, number, 2);
    begin_on(ops, places, judged, number, 3);
}
