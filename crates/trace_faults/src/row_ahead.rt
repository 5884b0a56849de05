//! The row that the addresses give which come next on a target.
ghost use Rattle.std.specs.Prelude.{◌≡◌};
ghost use Rattle.nand_geometry.specs.Row.{row_of};
ghost use Rattle.onfi_cycle.specs.Sequence.{shifted};
ghost use Rattle.trace_faults.specs.RowAhead.{with_address, step_by, step_of, row_ahead, array_addresses, row_after, given_row};

use onfi_cycle::{Cycle, Item, Kind, RowBytes, TargetCycle};

/// A row of which not all addresses have come: how many are to come, and the last three of those that have.
#[derive(Clone, Copy)]
pub(crate) struct RowComing {
    pub(crate) left: usize,
    pub(crate) row: RowBytes,
}

// What an item says of a row that is coming.
#[derive(Clone, Copy)]
pub(crate) enum RowStep {
    // It is this one.
    Given(u32),
    // It doesn't come.
    BrokenOff,
    // So much of it has come.
    GoesOn(RowComing),
}

// The bytes with one more: the oldest goes.
fn shifted(row: RowBytes, byte: u8) -> RowBytes
    ensures { result ≡ shifted row byte }
{
    RowBytes {
        r1: row.r2,
        r2: row.r3,
        r3: byte,
    }
}

// The number of a row of these bytes, the lowest first.
fn row_of(r1: u8, r2: u8, r3: u8) -> u32
    ensures { result ≡ row_of r1 r2 r3 }
{
    u32::from(r1) + 256 * u32::from(r2) + 65_536 * u32::from(r3)
}

// An address more: the row is the last three of them.
fn with_address(coming: RowComing, byte: u8) -> RowStep
    ensures { result ≡ with_address coming byte }
{
    if coming.left <= 1 {
        RowStep::Given(row_of(coming.row.r2, coming.row.r3, byte))
    } else {
        RowStep::GoesOn(RowComing {
            left: coming.left - 1,
            row: shifted(coming.row, byte),
        })
    }
}

fn step_by(kind: Kind, coming: RowComing, byte: u8) -> RowStep
    ensures { result ≡ step_by kind coming byte }
{
    match kind {
        Kind::Adr => with_address(coming, byte),
        Kind::Cmd | Kind::Din | Kind::Dout => RowStep::BrokenOff,
    }
}

// What an item says of the row that is coming on this target.
fn step_of(ce: u8, coming: RowComing, item: Item) -> RowStep
    ensures { result ≡ step_of ce coming item }
{
    match item {
        Item::Cyc(cycle) => {
            if cycle.ce == ce {
                step_by(cycle.kind, coming, cycle.byte)
            } else {
                RowStep::GoesOn(coming)
            }
        }
        Item::Rdy { ce: other, .. } => {
            if other == ce {
                RowStep::BrokenOff
            } else {
                RowStep::GoesOn(coming)
            }
        }
        Item::Ard { .. } => RowStep::GoesOn(coming),
    }
}

// The row of a target, once so many addresses have come.
fn row_ahead(ce: u8, coming: RowComing, later: &[Item]) -> Option<u32>
    ensures { result ≡ row_ahead ce coming later.now }
{
    let mut now = coming;
    let mut rest = later;
    'rest: while let Some((first, others)) = rest.split_first() {
        match step_of(ce, now, *first) {
            RowStep::Given(row) => return Some(row),
            RowStep::BrokenOff => return None,
            RowStep::GoesOn(coming) => now = coming,
        }
        rest = others;
    }
    None
}

// How many addresses follow an opener whose row is of a LUN that has to be ready; none for any other cycle.
fn array_addresses(cycle: TargetCycle) -> usize
    ensures { result ≡ array_addresses cycle }
{
    match cycle {
        TargetCycle::CommandCycle(command) => {
            if command.addresses_the_array() {
                command.address_cycles()
            } else {
                0
            }
        }
        TargetCycle::AddressCycle(_) | TargetCycle::InputCycle(_) | TargetCycle::OutputCycle => 0,
    }
}

// The row that so many addresses of a target give, if some are wanted.
fn row_after(ce: u8, addresses: usize, later: &[Item]) -> Option<u32>
    ensures { result ≡ row_after ce addresses later.now }
{
    if addresses == 0 {
        return None;
    }
    let coming = RowComing {
        left: addresses,
        row: RowBytes {
            r1: 0,
            r2: 0,
            r3: 0,
        },
    };
    row_ahead(ce, coming, later)
}

/// The row that is given to an opener by what comes later.
pub(crate) fn given_row(cycle: Cycle, later: &[Item]) -> Option<u32>
    ensures { result ≡ given_row cycle later.now }
{
    let addresses = array_addresses(TargetCycle::of(cycle.kind, cycle.byte));
    row_after(cycle.ce, addresses, later)
}
