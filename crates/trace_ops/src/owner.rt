//! To which operation an item belongs.
ghost use Rattle.std.specs.Prelude.{◌≡◌, ◌++◌, ◌∷◌, [], length, slice_get, slice_set, IfOk, OnOk};
ghost use Rattle.trace_ops.specs.Listing.{Listing, op_of, either_of, is_foreign_at, is_foreign_op, is_open_program_op, is_open_read_op, closes_read, opens_alone, begins_one, returns_to_foreign, keeps_outputs, owner_on, owner_by, output_owner, cycle_owner, is_waiting, ready_owner, owner_of, new_by_command, new_one, newest_with, number_of, with_new};

use crate::judged::Judged;
use crate::looks::latch_of;
use crate::operation::{Beginning, Operation, closes_as_known, is_permitted, is_unknown};
use crate::places::Places;
use onfi_cycle::{Command, Cycle, Item, Kind, Latch};
use std::alloc::{AllocError, Allocator};

/// The operation of this number, if there is one.
pub(crate) fn op_of(ops: &[Operation], at: Option<usize>) -> Option<Operation>
    ensures { result ≡ op_of ops.now at }
{
    match at {
        None => None,
        Some(at) => ops.get(at).copied(),
    }
}

/// The one or the other.
pub(crate) fn either_of(first: Option<usize>, second: Option<usize>) -> Option<usize>
    ensures { result ≡ either_of first second }
{
    match first {
        None => second,
        Some(first) => Some(first),
    }
}

fn is_foreign_op(operation: Option<Operation>) -> bool
    ensures { result ≡ is_foreign_op operation }
{
    match operation {
        None => false,
        Some(operation) => operation.is_foreign(),
    }
}

/// The operation of this number is one that the model doesn't know.
pub(crate) fn is_foreign_at(ops: &[Operation], at: Option<usize>) -> bool
    ensures { result ≡ is_foreign_at ops.now at }
{
    is_foreign_op(op_of(ops, at))
}

fn is_open_program_op(operation: Option<Operation>) -> bool
    ensures { result ≡ is_open_program_op operation }
{
    match operation {
        None => false,
        Some(operation) => operation.is_open_program(),
    }
}

fn is_open_read_op(operation: Option<Operation>) -> bool
    ensures { result ≡ is_open_read_op operation }
{
    match operation {
        None => false,
        Some(operation) => operation.is_open_read(),
    }
}

// A 31h behind the addresses of a read, which it closes.
fn closes_read(newest: Option<Operation>, byte: u8) -> bool
    ensures { result ≡ closes_read newest byte }
{
    byte == 0x31 && is_open_read_op(newest)
}

// The command begins a sequence whatever was before: an 85h may go on with the data of a program.
fn opens_alone(byte: u8) -> bool
    ensures { result ≡ opens_alone byte }
{
    match Command::of(byte) {
        Command::ChangeWriteColumn => false,
        command => command.is_opener(),
    }
}

// A command begins an operation: an opener but a 31h that closes a read, one that isn't known but 15h, 32h and 35h, and 85h outside of a program.
fn begins_one(newest: Option<Operation>, byte: u8) -> bool
    ensures { result ≡ begins_one newest byte }
{
    (opens_alone(byte) && !closes_read(newest, byte))
        || (is_unknown(byte) && !closes_as_known(byte))
        || (byte == 0x85 && !is_open_program_op(newest))
}

// A 00h alone that goes back to what a foreign one gives.
fn returns_to_foreign(ops: &[Operation], newest: Option<Operation>) -> bool
    ensures { result ≡ returns_to_foreign ops.now newest }
{
    match newest {
        None => false,
        Some(operation) => operation.is_alone() && is_foreign_at(ops, operation.parent),
    }
}

// The newest operation takes the outputs of its target.
fn keeps_outputs(ops: &[Operation], newest: Option<usize>) -> bool
    ensures { result ≡ keeps_outputs ops.now newest }
{
    is_foreign_at(ops, newest) || returns_to_foreign(ops, op_of(ops, newest))
}

// The operation that a LUN's output belongs to, which is driven so.
fn owner_on(places: &Places, ce: u8, lun: u8, latch: Latch) -> Option<usize>
    ensures { result ≡ owner_on places.now ce lun latch }
{
    match latch {
        Latch::Off => None,
        Latch::Status => places.asker(ce, lun),
        Latch::Data => places.giver(ce, lun),
    }
}

// That of the LUN that drives the bus, if one does.
fn owner_by(places: &Places, judged: &Judged, driver: Option<u8>) -> Option<usize>
    ensures { result ≡ owner_by places.now judged.now driver }
{
    match driver {
        None => None,
        Some(lun) => owner_on(places, judged.ce, lun, latch_of(judged.before.at(lun))),
    }
}

// That of an output: by what its LUN gives, where it is permitted; else the newest.
fn output_owner(ops: &[Operation], places: &Places, judged: &Judged) -> Option<usize>
    ensures { result ≡ output_owner ops.now places.now judged.now }
{
    let newest = places.newest(judged.ce);
    if keeps_outputs(ops, newest) || !is_permitted(judged.said) {
        return newest;
    }
    either_of(owner_by(places, judged, judged.before.driver()), newest)
}

// That of a cycle of this kind; None: a new one.
fn cycle_owner(
    ops: &[Operation],
    places: &Places,
    judged: &Judged,
    cycle: Cycle,
    kind: Kind,
) -> Option<usize>
    ensures { result ≡ cycle_owner ops.now places.now judged.now cycle kind }
{
    let newest = places.newest(judged.ce);
    match kind {
        Kind::Cmd => {
            if begins_one(op_of(ops, newest), cycle.byte) {
                None
            } else {
                newest
            }
        }
        Kind::Adr | Kind::Din => newest,
        Kind::Dout => output_owner(ops, places, judged),
    }
}

// Work of which the model knows nothing, and that hasn't ended.
fn is_waiting(operation: Option<Operation>) -> bool
    ensures { result ≡ is_waiting operation }
{
    match operation {
        None => false,
        Some(operation) => operation.is_foreign() && operation.end.is_none(),
    }
}

// That of a ready.
fn ready_owner(ops: &[Operation], places: &Places, judged: &Judged, lun: u8) -> Option<usize>
    ensures { result ≡ ready_owner ops.now places.now judged.now lun }
{
    let worker = places.worker(judged.ce, lun);
    if is_permitted(judged.said) || is_waiting(op_of(ops, worker)) {
        worker
    } else {
        None
    }
}

/// The number of the operation to which an item belongs; None: a new one.
pub(crate) fn owner_of(
    ops: &[Operation],
    places: &Places,
    judged: &Judged,
    item: Item,
) -> Option<usize>
    ensures { result ≡ owner_of ops.now places.now judged.now item }
{
    match item {
        Item::Cyc(cycle) => cycle_owner(ops, places, judged, cycle, cycle.kind),
        Item::Rdy { lun, .. } => ready_owner(ops, places, judged, lun),
        Item::Ard { lun, .. } => ready_owner(ops, places, judged, lun),
    }
}

// A new one, whose first cycle is of this kind.
fn new_by_command(judged: &Judged, newest: Option<Operation>, cycle: Cycle, kind: Kind) -> Operation
    ensures { result ≡ new_by_command judged.now newest cycle kind }
{
    let (ce, number) = (judged.ce, judged.number);
    match kind {
        Kind::Cmd => {
            if begins_one(newest, cycle.byte) {
                Operation::begun(ce, number, Beginning::Opener(cycle.byte))
            } else {
                Operation::begun(ce, number, Beginning::Cut)
            }
        }
        Kind::Adr | Kind::Din | Kind::Dout => Operation::begun(ce, number, Beginning::Cut),
    }
}

// A new one, of this item.
fn new_one(judged: &Judged, newest: Option<Operation>, item: Item) -> Operation
    ensures { result ≡ new_one judged.now newest item }
{
    match item {
        Item::Cyc(cycle) => new_by_command(judged, newest, cycle, cycle.kind),
        Item::Rdy { lun, .. } => Operation {
            lun: Some(lun),
            ..Operation::begun(judged.ce, judged.number, Beginning::Ready)
        },
        Item::Ard { lun, .. } => Operation {
            lun: Some(lun),
            ..Operation::begun(judged.ce, judged.number, Beginning::Ready)
        },
    }
}

// A cycle's is the newest of its target.
fn note_newest(places: &mut Places, item: Item, ce: u8, number: usize)
    ensures { places.new ≡ record places.old { newest = newest_with item ce number places.old.newest } }
{
    match item {
        Item::Cyc(_) => places.note_newest(ce, number),
        Item::Rdy { .. } | Item::Ard { .. } => {}
    }
}

/// The number of the operation to which an item belongs that belongs to this one, or to a new one.
pub(crate) fn number_of(owner: Option<usize>, ops: &[Operation]) -> usize
    ensures { result ≡ number_of owner ops.now }
{
    match owner {
        Some(number) => number,
        None => ops.len(),
    }
}

/// Adds a new operation, where the item belongs to none.
pub(crate) fn push_new<A: Allocator>(
    ops: &mut Vec<Operation, A>,
    places: &mut Places,
    judged: &Judged,
    owner: Option<usize>,
) -> Result<(), AllocError>
    ensures ops { OnOk result (ops.new.items ≡ (with_new owner judged.now (record { places = places.old; ops = ops.old.items })).ops) }
    ensures places { OnOk result (places.new ≡ (with_new owner judged.now (record { places = places.old; ops = ops.old.items })).places) }
{
    match owner {
        Some(_) => Ok(()),
        None => {
            let newest = op_of(ops.as_slice(), places.newest(judged.ce));
            let number = ops.len();
            ops.push(new_one(judged, newest, judged.item))?;
            note_newest(places, judged.item, judged.ce, number);
            Ok(())
        }
    }
}
