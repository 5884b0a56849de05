//! The operations of a trace.
ghost use Rattle.std.specs.Prelude.{◌≡◌, ◌≤◌, ◌++◌, ◌∷◌, [], IfOk, OnOk, slice_get};
ghost use Rattle.onfi_cycle.specs.Sequence.{target_of};
ghost use Rattle.trace_ops.specs.declared.judged.Judged.{Judged as JudgedValue};
ghost use Rattle.trace_ops.specs.declared.places.Places.{Places as PlacesValue};
ghost use Rattle.trace_ops.specs.Listing.{Listing, is_new_opener, change_of, is_address, is_address_kind, is_alone_op, unfolded, noted_at, foreign_ended, polled_on, polled_by, polled, ready_end, with_ready, taken_by, listed, mark_in, owner_in, with_ends, has_one_lun, ops_of, marks_of, verdicts_as};

use crate::begins::begin_all;
use crate::change::{Change, change_at, change_if};
use crate::ends::{end_all, end_if, has_failed};
use crate::judged::Judged;
use crate::judging::judge_item;
use crate::looks::gives_status;
use crate::operation::{Ending, Operation, is_output, is_permitted, says_ready};
use crate::owner::{is_foreign_at, number_of, op_of, owner_of, push_new};
use crate::places::Places;
use crate::selects::select_all;
use nand_geometry::Geometry;
use onfi_cycle::{Item, Kind};
use std::alloc::{AllocError, Allocator};
use trace_faults::{Beginning, Readies, TraceJudge, Verdict};

// The opener of a new operation is no byte of it.
fn is_new_opener(owner: Option<usize>, kind: Kind) -> bool
    ensures { (judged : JudgedValue) → result ≡ is_new_opener owner judged kind }
{
    match (owner, kind) {
        (None, Kind::Cmd) => true,
        (None, Kind::Adr | Kind::Din | Kind::Dout) | (Some(_), _) => false,
    }
}

// What an item makes of its operation.
fn change_of(owner: Option<usize>, judged: &Judged, item: Item) -> Change
    ensures { result ≡ change_of owner judged.now item }
{
    let (number, said) = (judged.number, judged.said);
    match item {
        Item::Cyc(cycle) => {
            if is_new_opener(owner, cycle.kind) {
                Change::Opened { item: number, said }
            } else {
                Change::Cycle {
                    item: number,
                    kind: cycle.kind,
                    byte: cycle.byte,
                    said,
                }
            }
        }
        Item::Rdy { .. } | Item::Ard { .. } => Change::LoneReady { item: number, said },
    }
}

fn is_address_kind(kind: Kind) -> bool
    ensures { result ≡ is_address_kind kind }
{
    match kind {
        Kind::Adr => true,
        Kind::Cmd | Kind::Din | Kind::Dout => false,
    }
}

fn is_address(item: Item) -> bool
    ensures { result ≡ is_address item }
{
    match item {
        Item::Cyc(cycle) => is_address_kind(cycle.kind),
        Item::Rdy { .. } | Item::Ard { .. } => false,
    }
}

fn is_alone_op(operation: Option<Operation>) -> bool
    ensures { result ≡ is_alone_op operation }
{
    match operation {
        None => false,
        Some(operation) => operation.is_alone(),
    }
}

// A 00h that gets an address goes back to nothing.
fn unfold<A: Allocator>(ops: &mut Vec<Operation, A>, judged: &Judged, number: usize)
    ensures { ops.new.items ≡ unfolded judged.now number ops.old.items }
{
    if is_address(judged.item) && is_alone_op(op_of(ops.as_slice(), Some(number))) {
        change_at(ops, number, Change::Unfold);
    }
}

// Notes the item at its operation.
fn note_at<A: Allocator>(
    ops: &mut Vec<Operation, A>,
    judged: &Judged,
    owner: Option<usize>,
    number: usize,
)
    ensures { ops.new.items ≡ noted_at owner judged.now number ops.old.items }
{
    unfold(ops, judged, number);
    change_at(ops, number, change_of(owner, judged, judged.item));
}

// A status byte that says ready ends work of which the model knows nothing.
fn end_foreign<A: Allocator>(
    ops: &mut Vec<Operation, A>,
    judged: &Judged,
    byte: u8,
    at: Option<usize>,
)
    ensures { ops.new.items ≡ foreign_ended judged.now byte at ops.old.items }
{
    if is_foreign_at(ops.as_slice(), at) && says_ready(byte) {
        let end = Ending::Shown {
            at: judged.number,
            failed: has_failed(byte),
        };
        change_if(ops, at, Change::End { end });
    }
}

// A status byte is a poll of the work of its LUN.
fn poll_on<A: Allocator>(
    ops: &mut Vec<Operation, A>,
    judged: &Judged,
    number: usize,
    byte: u8,
    worker: Option<usize>,
)
    ensures { ops.new.items ≡ polled_on judged.now number byte worker ops.old.items }
{
    change_at(ops, number, Change::Show { byte });
    let item = judged.number;
    change_if(ops, worker, Change::Poll { item, byte });
    end_foreign(ops, judged, byte, worker);
}

// The same of the LUN that drives the bus, if it gives its status.
fn poll_by<A: Allocator>(
    ops: &mut Vec<Operation, A>,
    places: &Places,
    judged: &Judged,
    number: usize,
    byte: u8,
    driver: Option<u8>,
)
    ensures { ops.new.items ≡ polled_by judged.now number byte driver places.now ops.old.items }
{
    if let Some(lun) = driver {
        if gives_status(judged.before.at(lun)) {
            poll_on(ops, judged, number, byte, places.worker(judged.ce, lun));
        }
    }
}

// A permitted output of a status is a poll.
fn poll<A: Allocator>(
    ops: &mut Vec<Operation, A>,
    places: &Places,
    judged: &Judged,
    number: usize,
    item: Item,
)
    ensures { ops.new.items ≡ polled judged.now number item places.now ops.old.items }
{
    match item {
        Item::Cyc(cycle) => {
            if is_output(cycle.kind) && is_permitted(judged.said) {
                poll_by(
                    ops,
                    places,
                    judged,
                    number,
                    cycle.byte,
                    judged.before.driver(),
                );
            }
        }
        Item::Rdy { .. } | Item::Ard { .. } => {}
    }
}

// The end that a ready is of work of which the model knows nothing.
fn ready_end(item: Item, number: usize) -> Option<Ending>
    ensures { result ≡ ready_end item number }
{
    match item {
        Item::Rdy { fail, .. } => Some(Ending::Ready {
            at: number,
            failed: fail.last,
        }),
        Item::Cyc(_) | Item::Ard { .. } => None,
    }
}

// A ready ends work of which the model knows nothing, permitted or not.
fn end_by_ready<A: Allocator>(ops: &mut Vec<Operation, A>, judged: &Judged, number: usize)
    ensures { (places : PlacesValue) → ops.new.items ≡ (with_ready judged.now number (record { places = places; ops = ops.old.items })).ops }
{
    if is_foreign_at(ops.as_slice(), Some(number)) {
        end_if(ops, ready_end(judged.item, judged.number), Some(number));
    }
}

// Takes an item that belongs to this operation, or to a new one; its number.
fn take_by<A: Allocator>(
    ops: &mut Vec<Operation, A>,
    places: &mut Places,
    judged: &Judged,
    owner: Option<usize>,
    number: usize,
) -> Result<(), AllocError>
    ensures ops { OnOk result (ops.new.items ≡ (taken_by owner judged.now number (record { places = places.old; ops = ops.old.items })).ops) }
    ensures places { OnOk result (places.new ≡ (taken_by owner judged.now number (record { places = places.old; ops = ops.old.items })).places) }
{
    push_new(ops, places, judged, owner)?;
    note_at(ops, judged, owner, number);
    begin_all(ops, places, judged, number);
    select_all(ops, places, judged, number);
    poll(ops, places, judged, number, judged.item);
    end_by_ready(ops, judged, number);
    Ok(())
}

// Takes an item: the number of its operation.
fn take<A: Allocator>(
    ops: &mut Vec<Operation, A>,
    places: &mut Places,
    judged: &Judged,
) -> Result<usize, AllocError>
    ensures ops { OnOk result (ops.new.items ≡ (listed judged.now (record { places = places.old; ops = ops.old.items })).ops) }
    ensures places { OnOk result (places.new ≡ (listed judged.now (record { places = places.old; ops = ops.old.items })).places) }
    ensures mark { IfOk result (λ mark. mark ≡ mark_in judged.now (with_ends judged.now (record { places = places.old; ops = ops.old.items }))) }
{
    end_all(ops, places, judged);
    let owner = owner_of(ops.as_slice(), places, judged, judged.item);
    let number = number_of(owner, ops.as_slice());
    take_by(ops, places, judged, owner, number)?;
    Ok(number)
}

/// The operations of a trace, to which of them each item belongs, and what is said of it.
#[derive(Drop)]
pub struct Operations<A: Allocator> {
    /// In the order of their first items.
    pub operations: Vec<Operation, A>,
    /// Of each item the number of its operation, from 0.
    pub marks: Vec<usize, A>,
    /// Of each item whether it is permitted.
    pub verdicts: Vec<Verdict, A>,
}

/// The operations of a trace that begins there, on a channel of so many targets of this geometry, 4 at most. Items are judged as
/// [`find_faults`](trace_faults::find_faults) and [`find_faults_from_middle`](trace_faults::find_faults_from_middle) judge them. It takes some 16 bytes an item
/// and 200 an operation.
pub fn find_operations<A: Allocator + Clone>(
    alloc: A,
    geometry: &Geometry,
    targets: u8,
    items: &[Item],
    readies: Readies,
    beginning: Beginning,
) -> Result<Operations<A>, AllocError>
    requires { targets ≤ 4 }
    ensures operations { IfOk result (λ found. found.operations.items ≡ ops_of readies beginning geometry.now targets items.now) }
    ensures marks { IfOk result (λ found. found.marks.items ≡ marks_of readies beginning geometry.now targets items.now) }
    ensures verdicts { IfOk result (λ found. found.verdicts.items ≡ verdicts_as readies beginning geometry.now targets items.now) }
{
    let one_lun = geometry.parts().luns == 1;
    let mut judge = TraceJudge::new(geometry, targets, items, beginning);
    let mut places = Places::nobody();
    let mut operations = Vec::new(alloc.clone()?);
    let mut marks = Vec::new(alloc.clone()?);
    let mut verdicts = Vec::new(alloc);
    let mut number = 0;
    let mut rest = items;
    'rest: while let Some((first, later)) = rest.split_first() {
        let judged = judge_item(&mut judge, readies, one_lun, number, *first, later);
        marks.push(take(&mut operations, &mut places, &judged)?)?;
        verdicts.push(judged.said)?;
        number += 1;
        rest = later;
    }
    Ok(Operations {
        operations,
        marks,
        verdicts,
    })
}
