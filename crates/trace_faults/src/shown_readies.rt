//! The readies that a status output shows.
ghost use Rattle.std.specs.Prelude.{◌≡◌};
ghost use Rattle.onfi_cycle.specs.Look.{looked};
ghost use Rattle.trace_faults.specs.ShownReadies.{ready_of, array_ready_of, is_output_inside, ready_before, array_ready_before, gone_on_some, with_ready, with_readies, has_array_ready, has_fail_before, shown_failures, shown_array_failure};

use crate::denied::find_driver;
use crate::outside::{is_output, is_status};
use crate::trace_state::TraceState;
use nand_geometry::Geometry;
use onfi_cycle::{Cycle, Failures, Item, Lun, LunState, Status};

// The status byte says that the page before failed (FAILC).
fn has_fail_before(byte: u8) -> bool
    ensures { result ≡ has_fail_before byte }
{
    byte & 2 == 2
}

// What a ready tells that this byte shows: FAIL, unless the array goes on with what was programmed; and FAILC, where the chip programs caches.
fn shown_failures(geometry: &Geometry, lun: LunState, byte: u8) -> Failures
    ensures { result ≡ shown_failures geometry.now lun byte }
{
    Failures {
        last: Status(byte).has_failed() && !lun.programming,
        before: geometry.parts().optional.has_program_cache() && has_fail_before(byte),
    }
}

// What a ready of the array tells that this byte shows: FAIL, where that programs.
fn shown_array_failure(lun: LunState, byte: u8) -> bool
    ensures { result ≡ shown_array_failure lun byte }
{
    lun.programming && Status(byte).has_failed()
}

// The ready that a byte of a LUN shows.
fn ready_of(
    geometry: &Geometry,
    lun: Option<LunState>,
    ce: u8,
    number: u8,
    byte: u8,
) -> Option<Item>
    ensures { result ≡ ready_of geometry.now lun ce number byte }
{
    let lun = lun?;
    let status = Status(byte);
    if is_status(lun.latch) && lun.busy && status.is_ready() {
        return Some(Item::Rdy {
            ce,
            lun: number,
            fail: shown_failures(geometry, lun, byte),
        });
    }
    None
}

/// The status byte says that the array is ready (ARDY).
pub(crate) fn shows_array_ready(byte: u8) -> bool
    ensures { result ≡ has_array_ready byte }
{
    Status(byte).is_array_ready()
}

// The ready of its array that a byte of a LUN shows.
fn array_ready_of(lun: Option<LunState>, ce: u8, number: u8, byte: u8) -> Option<Item>
    ensures { result ≡ array_ready_of lun ce number byte }
{
    let lun = lun?;
    let status = Status(byte);
    if is_status(lun.latch)
        && !lun.busy
        && lun.array_busy
        && status.is_ready()
        && shows_array_ready(byte)
    {
        return Some(Item::Ard {
            ce,
            lun: number,
            fail: shown_array_failure(lun, byte),
        });
    }
    None
}

/// An output of the profile.
pub(crate) fn is_output_inside(state: &TraceState, cycle: Cycle) -> bool
    ensures { result ≡ is_output_inside state.now cycle }
{
    is_output(cycle.kind) && !state.is_outside(Item::Cyc(cycle))
}

// The ready that an item shows.
fn ready_before(state: &TraceState, item: Item) -> Option<Item>
    ensures { result ≡ ready_before state.now item }
{
    let Item::Cyc(cycle) = item else {
        return None;
    };
    if !is_output_inside(state, cycle) {
        return None;
    }
    let number = find_driver(&state.bus, cycle.ce)?;
    let lun = Lun {
        ce: cycle.ce,
        lun: number,
    };
    ready_of(
        &state.bus.geometry(),
        state.bus.lun_state(lun),
        cycle.ce,
        number,
        cycle.byte,
    )
}

// The ready of an array that an item shows.
fn array_ready_before(state: &TraceState, item: Item) -> Option<Item>
    ensures { result ≡ array_ready_before state.now item }
{
    let Item::Cyc(cycle) = item else {
        return None;
    };
    if !is_output_inside(state, cycle) {
        return None;
    }
    let number = find_driver(&state.bus, cycle.ce)?;
    let lun = Lun {
        ce: cycle.ce,
        lun: number,
    };
    array_ready_of(state.bus.lun_state(lun), cycle.ce, number, cycle.byte)
}

/// Goes on by a ready, if there is one.
pub(crate) fn go_on_by_some(state: &mut TraceState, ready: Option<Item>)
    ensures { state.new ≡ gone_on_some ready state.old }
{
    if let Some(item) = ready {
        let _ = state.go_on(item);
    }
}

/// Goes on by the readies that an item shows, in their order: that of the LUN that gives the output, and that of its array.
pub fn go_on_by_readies(state: &mut TraceState, item: Item) -> (Option<Item>, Option<Item>)
    ensures ready { result.0 ≡ ready_before state.old item }
    ensures array { result.1 ≡ array_ready_before (with_ready state.old item) item }
    ensures state { state.new ≡ with_readies state.old item }
{
    let ready = ready_before(state, item);
    go_on_by_some(state, ready);
    let array_ready = array_ready_before(state, item);
    go_on_by_some(state, array_ready);
    (ready, array_ready)
}
