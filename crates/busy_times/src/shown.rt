//! Which items show that a LUN works still, or worked until then.
ghost use Rattle.std.specs.Prelude.{◌≡◌, ◌<◌};
ghost use Rattle.busy_times.specs.Overruns.{is_status, is_lun, is_same_lun, asks_after, asked_by, is_busy_output, is_ready_at, shows_work, has_ended, is_abandoned};

use onfi_cycle::{Item, Kind};
use trace_ops::{Beginning, Ending, Operation};

// A status is asked for: 70h or 78h.
fn is_status(beginning: Beginning) -> bool
    ensures { result ≡ is_status beginning }
{
    match beginning {
        Beginning::Opener(opener) => opener == 0x70 || opener == 0x78,
        Beginning::Cut | Beginning::Ready => false,
    }
}

// The LUN is this one.
fn is_lun(lun: Option<u8>, number: u8) -> bool
    ensures { result ≡ is_lun lun number }
{
    match lun {
        None => false,
        Some(other) => other == number,
    }
}

// Both are of one LUN, which is known.
fn is_same_lun(lun: Option<u8>, other: Option<u8>) -> bool
    ensures { result ≡ is_same_lun lun other }
{
    match lun {
        None => false,
        Some(number) => is_lun(other, number),
    }
}

// The first operation asks for the status of the LUN of the second.
fn asks_after(asker: Operation, worker: Operation) -> bool
    ensures { result ≡ asks_after asker worker }
{
    is_status(asker.beginning) && asker.ce == worker.ce && is_same_lun(asker.lun, worker.lun)
}

// The operation of this number does.
fn is_asked_by(ops: &[Operation], mark: usize, worker: Operation) -> bool
    ensures { result ≡ asked_by ops.now mark worker }
{
    match ops.get(mark) {
        None => false,
        Some(asker) => asks_after(*asker, worker),
    }
}

// A byte that comes out without RDY.
fn is_busy_output(kind: Kind, byte: u8) -> bool
    ensures { result ≡ is_busy_output kind byte }
{
    match kind {
        Kind::Dout => byte % 128 < 64,
        Kind::Cmd | Kind::Adr | Kind::Din => false,
    }
}

// The work ended by a ready that is written, at this item.
fn is_ready_at(end: Option<Ending>, number: usize) -> bool
    ensures { result ≡ is_ready_at end number }
{
    match end {
        Some(Ending::Ready { at, .. }) => at == number,
        Some(Ending::Shown { .. } | Ending::NotShown { .. } | Ending::Abandoned { .. }) | None =>
            false,
    }
}

/// The item of this number shows that the LUN of an operation works still, or worked until then: a status byte of it without RDY, or its written ready. The
/// item belongs to the operation `mark`.
pub(crate) fn shows_work(
    ops: &[Operation],
    mark: usize,
    worker: Operation,
    number: usize,
    item: Item,
) -> bool
    ensures { result ≡ shows_work ops.now mark worker number item }
{
    match item {
        Item::Cyc(cycle) => {
            is_busy_output(cycle.kind, cycle.byte) && is_asked_by(ops, mark, worker)
        }
        Item::Rdy { .. } => is_ready_at(worker.end, number),
        Item::Ard { .. } => false,
    }
}

/// The work ended before the item of this number.
pub(crate) fn has_ended(end: Option<Ending>, number: usize) -> bool
    ensures { result ≡ has_ended end number }
{
    match end {
        None => false,
        Some(
            Ending::Ready { at, .. }
            | Ending::Shown { at, .. }
            | Ending::NotShown { at }
            | Ending::Abandoned { at },
        ) => at < number,
    }
}

/// More work began before it was over.
pub(crate) fn is_abandoned(end: Option<Ending>) -> bool
    ensures { result ≡ is_abandoned end }
{
    match end {
        Some(Ending::Abandoned { .. }) => true,
        Some(Ending::Ready { .. } | Ending::Shown { .. } | Ending::NotShown { .. }) | None => false,
    }
}
