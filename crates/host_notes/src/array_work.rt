//! What an operation does to the array of its LUN.

use nand_geometry::{Geometry, RowParts};
use trace_ops::Operation;

/// A block of a LUN of a target.
#[derive(Clone, Copy, Debug, PartialEq, Eq, PartialOrd, Ord)]
pub(crate) struct BlockAt {
    pub(crate) ce: u8,
    pub(crate) lun: u32,
    pub(crate) block: u32,
}

/// What an operation does to the array of its LUN.
#[derive(Clone, Copy, Debug, PartialEq, Eq)]
pub(crate) enum ArrayWork {
    Erase(BlockAt),
    Program { block: BlockAt, page: u32 },
}

// The row of three address bytes, the least significant first.
fn row_of(bytes: [u8; 3]) -> u32 {
    let [low, middle, high] = bytes;
    u32::from(low) + 256 * u32::from(middle) + 65_536 * u32::from(high)
}

// A program that a 15h closed.
fn is_cache_program(operation: Operation) -> bool {
    operation.opener() == Some(0x80) && operation.closer == Some(0x15)
}

// An operation of which the model knows nothing. A copyback or a cache program is one where it isn't permitted.
fn is_outside(operation: Operation) -> bool {
    operation.is_foreign() && operation.opener() != Some(0x85) && !is_cache_program(operation)
}

impl ArrayWork {
    /// That of an operation of the profile whose work has begun, if it has one.
    pub(crate) fn of(geometry: &Geometry, operation: Operation) -> Option<ArrayWork> {
        if is_outside(operation) || !operation.is_permitted {
            return None;
        }
        let [first, second, third, fourth, fifth] = operation.addresses;
        match (
            operation.opener(),
            operation.closer,
            operation.address_count,
        ) {
            (Some(0x60), Some(_), 3) => {
                let row = geometry.parts_of(row_of([first, second, third]));
                let (block, _) = place_of(operation.ce, row);
                Some(ArrayWork::Erase(block))
            }
            (Some(0x80 | 0x85), Some(_), 5) => {
                let row = geometry.parts_of(row_of([third, fourth, fifth]));
                let (block, page) = place_of(operation.ce, row);
                Some(ArrayWork::Program { block, page })
            }
            (_, _, _) => None,
        }
    }
}

// The block and the page of a row.
fn place_of(ce: u8, row: RowParts) -> (BlockAt, u32) {
    let RowParts { lun, block, page } = row;
    (BlockAt { ce, lun, block }, page)
}
