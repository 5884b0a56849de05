//! A page of a LUN.
ghost use Rattle.std.specs.Prelude.{◌≡◌, ◌^◌, ◌<◌};
ghost use Rattle.onfi_cycle.specs.Effect.{page_address};

use nand_geometry::Geometry;

/// A page of a LUN, by its block and its place in the block.
#[derive(Clone, Copy, Debug, Default, PartialEq, Eq)]
pub struct PageAddress {
    pub block: u32,
    pub page: u64,
}

impl PageAddress {
    /// The block and page of a row.
    pub fn of_row(geometry: &Geometry, row: u32) -> PageAddress
        ensures value { result ≡ page_address geometry.now row }
        ensures small { result.page < 2 ^ 32 }
    {
        let parts = geometry.parts_of(row);
        PageAddress {
            block: parts.block,
            page: u64::from(parts.page),
        }
    }
}
