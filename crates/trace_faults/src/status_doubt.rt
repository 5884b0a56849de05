//! Status bytes that contradict the trace that they stand in.
ghost use Rattle.std.specs.Prelude.{◌≡◌, ◌≤◌, ◌++◌, IfOk, OnOk};
ghost use Rattle.trace_faults.specs.StatusBytes.{array_doubt, lun_doubt, doubt_of, byte_doubt, doubted_at, doubts_of};

use crate::denied::find_driver;
use crate::outside::is_status;
use crate::readies::Readies;
use crate::shown_readies::{is_output_inside, shows_array_ready};
use crate::trace_state::TraceState;
use nand_geometry::Geometry;
use onfi_cycle::{Item, Lun, LunState, Status};
use std::alloc::{AllocError, Allocator};
use std::fmt;

/// What is wrong with a status byte.
#[derive(Clone, Copy, Debug, PartialEq, Eq)]
pub enum StatusDoubt {
    /// RDY, though the LUN works.
    ShowsReady,
    /// No RDY, though the LUN has no work.
    ShowsBusy,
    /// ARDY, though a cache read or a cache program goes on in the array.
    ShowsArrayReady,
    /// No ARDY, though nothing goes on in the array.
    ShowsArrayBusy,
}

/// An output of a trace, counted from 0, whose byte is a status that contradicts what stands before it.
#[derive(Clone, Copy, Debug, PartialEq, Eq)]
pub struct DoubtedByte {
    pub item: usize,
    pub doubt: StatusDoubt,
}

impl fmt::Display for StatusDoubt {
    fn fmt<W: fmt::Write>(&self, f: &mut fmt::Formatter<W>) -> fmt::Result {
        f.write_str(match self {
            StatusDoubt::ShowsReady => "the status shows RDY, and no ready of the LUN came before",
            StatusDoubt::ShowsBusy => "the status shows no RDY, and the LUN has no work",
            StatusDoubt::ShowsArrayReady => {
                "the status shows ARDY, and no ready of the array came before"
            }
            StatusDoubt::ShowsArrayBusy => "the status shows no ARDY, and the array has no work",
        })
    }
}

// What is wrong with the array's bit of a LUN that has no work of its own.
fn array_doubt(array_busy: bool, shows: bool) -> Option<StatusDoubt>
    ensures { result ≡ array_doubt array_busy shows }
{
    match (array_busy, shows) {
        (true, true) => Some(StatusDoubt::ShowsArrayReady),
        (false, false) => Some(StatusDoubt::ShowsArrayBusy),
        (true, false) | (false, true) => None,
    }
}

// What is wrong with the bits of a status.
fn lun_doubt(
    busy: bool,
    array_busy: bool,
    shows_ready: bool,
    shows_array_ready: bool,
) -> Option<StatusDoubt>
    ensures { result ≡ lun_doubt busy array_busy shows_ready shows_array_ready }
{
    match (busy, shows_ready) {
        (true, true) => Some(StatusDoubt::ShowsReady),
        (true, false) => None,
        (false, true) => array_doubt(array_busy, shows_array_ready),
        (false, false) => Some(StatusDoubt::ShowsBusy),
    }
}

// What is wrong with the byte of a LUN, if that is a status.
fn doubt_of(lun: Option<LunState>, byte: u8) -> Option<StatusDoubt>
    ensures { result ≡ doubt_of lun byte }
{
    let lun = lun?;
    if is_status(lun.latch) {
        lun_doubt(
            lun.busy,
            lun.array_busy,
            Status(byte).is_ready(),
            shows_array_ready(byte),
        )
    } else {
        None
    }
}

// What is wrong with the byte of an item, if that is a status.
fn byte_doubt(state: &TraceState, item: Item) -> Option<StatusDoubt>
    ensures { result ≡ byte_doubt state.now item }
{
    let Item::Cyc(cycle) = item else {
        return None;
    };
    if !is_output_inside(state, cycle) {
        return None;
    }
    let lun = Lun {
        ce: cycle.ce,
        lun: find_driver(&state.bus, cycle.ce)?,
    };
    doubt_of(state.bus.lun_state(lun), cycle.byte)
}

// Adds what is wrong with the byte of an item, if something is.
fn push_doubt<A: Allocator>(
    doubts: &mut Vec<DoubtedByte, A>,
    item: usize,
    doubt: Option<StatusDoubt>,
) -> Result<(), AllocError>
    ensures { OnOk result (doubts.new.items ≡ doubts.old.items ++ doubted_at item doubt) }
{
    if let Some(doubt) = doubt {
        doubts.push(DoubtedByte { item, doubt })?;
    }
    Ok(())
}

/// The status bytes of a trace on a channel of so many targets of this geometry, 4 at most, that contradict what stands before them: RDY is to show
/// whether the LUN works, and while it doesn't ARDY whether its array does. Where readies are shown by the status, RDY of a LUN that works is a ready.
pub fn find_status_doubts<A: Allocator>(
    alloc: A,
    geometry: &Geometry,
    targets: u8,
    items: &[Item],
    readies: Readies,
) -> Result<Vec<DoubtedByte, A>, AllocError>
    requires { targets ≤ 4 }
    ensures { IfOk result (λ doubts. doubts.items ≡ doubts_of readies geometry.now targets items.now) }
{
    let mut state = TraceState::before(geometry, targets, items);
    let mut doubts = Vec::new(alloc);
    let mut place = 0;
    let mut rest = items;
    'rest: while let Some((first, later)) = rest.split_first() {
        let item = *first;
        let _ = readies.go_on_to(&mut state, item, later);
        push_doubt(&mut doubts, place, byte_doubt(&state, item))?;
        let _ = state.go_on(item);
        place += 1;
        rest = later;
    }
    Ok(doubts)
}
