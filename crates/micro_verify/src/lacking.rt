//! Words whose bytes may not be there, so that no counter is told of them.
ghost use Rattle.std.specs.Prelude.{◌≡◌, ◌<◌, ◌≤◌, ◌^◌};
ghost use Rattle.micro_verify.specs.Cause.{place_of_phase, place_wanted, is_other, begins_wrong, wants_identity};
ghost use Rattle.micro_verify.specs.Playing.{lacks_told, is_outside_told};

use crate::registers::Registers;
use micro_claims::first_address;
use micro_word::Word;
use nand_geometry::Geometry;
use onfi_cycle::{DataPhase, TailFacts};

// Which of the two column bytes a change of the write column wants.
fn place_of_phase(phase: DataPhase) -> Option<usize>
    ensures { result ≡ place_of_phase phase }
{
    match phase {
        DataPhase::FirstColumn => Some(0),
        DataPhase::SecondColumn => Some(1),
        _ => None,
    }
}

// Which of the five address bytes the tail wants, where it wants an address.
fn place_wanted(tail: TailFacts) -> Option<usize>
    ensures { result ≡ place_wanted tail.opening tail.phase }
{
    match tail.opening {
        None => place_of_phase(tail.phase),
        Some(opening) => {
            if opening.addresses < opening.opener.address_cycles() {
                Some(first_address(opening.opener) + opening.addresses)
            } else {
                place_of_phase(tail.phase)
            }
        }
    }
}

// The one address of 90h or ECh is wanted.
fn wants_identity(tail: TailFacts) -> bool
    ensures { result ≡ wants_identity tail }
{
    match tail.opening {
        None => false,
        Some(opening) => opening.opener.reads_identity() && opening.addresses == 0,
    }
}

// An address begins at another place than the tail wants.
fn begins_wrong(tail: TailFacts, from: u8, count: u8) -> bool
    ensures { result ≡ begins_wrong tail from count }
{
    let other = match place_wanted(tail) {
        None => false,
        Some(place) => place != usize::from(from),
    };
    other && !wants_identity(tail)
}

// The row is outside those of the text, or the plane isn't there.
fn is_outside(geometry: &Geometry, rows: u32, registers: Registers) -> bool
    ensures { result ≡ is_outside_told geometry.now rows registers }
{
    u64::from(rows) <= registers.index || geometry.planes() <= u32::from(registers.plane)
}

/// The bytes of a word may not be there: an address that begins wrong or whose row is outside, one that begins with a row byte for 90h or
/// ECh, and inputs past the buffer.
pub(crate) fn lacks_bytes(
    geometry: &Geometry,
    rows: u32,
    buffer: u32,
    tail: TailFacts,
    registers: Registers,
    word: Word,
) -> bool
    requires few_bytes { registers.place < 2 ^ 36 }
    ensures { result ≡ lacks_told geometry.now rows buffer tail registers word }
{
    match word {
        Word::Address { from, count } => {
            let row = u32::from(from) + u32::from(count) > 2;
            begins_wrong(tail, from, count)
                || row && is_outside(geometry, rows, registers)
                || wants_identity(tail) && from > 1
        }
        Word::Put { len } => registers.place + u64::from(len) > u64::from(buffer),
        _ => false,
    }
}
