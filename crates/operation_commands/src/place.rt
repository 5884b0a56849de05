//! Where on a die an operation works.

use nand_geometry::{Geometry, RowParts};
use onfi_cycle::PageAddress;
use std::fmt;
use trace_ops::{Beginning, Operation};

/// Where on a die an operation works, as far as its addresses say it.
#[derive(Clone, Copy)]
pub(crate) struct Place {
    pub(crate) row: Option<u32>,
    pub(crate) page: Option<PageAddress>,
    // The row isn't in the geometry.
    is_outside: bool,
    // It works on a whole block.
    is_block: bool,
    pub(crate) column: Option<u32>,
    // The address byte of an operation without row and column.
    address: Option<u8>,
    lun: Option<u8>,
}

// How many address bytes an opener's column and row have.
fn address_bytes(opener: u8) -> (u8, u8) {
    match opener {
        0x00 | 0x80 | 0x85 | 0x06 => (2, 3),
        0x05 => (2, 0),
        0x60 | 0x78 => (0, 3),
        _ => (0, 0),
    }
}

// The first address byte of these is said as it is.
fn has_plain_address(opener: u8) -> bool {
    matches!(
        opener,
        0x90 | 0xec | 0xed | 0xee | 0xef | 0xfa | 0xd4 | 0xd5 | 0xd9 | 0xe1 | 0xe2 | 0xf9
    )
}

// The number of so many address bytes from a place on, the least significant first.
fn number_of(operation: Operation, from: u8, count: u8) -> Option<u32> {
    if count == 0 || operation.address_count < from.saturating_add(count) {
        return None;
    }
    let mut number: u32 = 0;
    for place in (from..from.saturating_add(count)).rev() {
        let byte = operation
            .addresses
            .as_slice()
            .get(usize::from(place))
            .copied()
            .unwrap_or(0);
        number = number.saturating_mul(256).saturating_add(u32::from(byte));
    }
    Some(number)
}

// The first address byte of an operation, where that is said as it is.
fn plain_address(operation: Operation, opener: u8) -> Option<u8> {
    if has_plain_address(opener) && 0 < operation.address_count {
        Some(operation.addresses[0])
    } else {
        None
    }
}

// Whether the parts of a row are there.
fn is_inside(geometry: &Geometry, parts: RowParts) -> bool {
    let all = geometry.parts();
    parts.lun < u32::from(all.luns) && parts.block < all.blocks && parts.page < all.pages
}

// What is said of no place.
const NOWHERE: Place = Place {
    row: None,
    page: None,
    is_outside: false,
    is_block: false,
    column: None,
    address: None,
    lun: None,
};

impl Place {
    // That of a row, if there is one.
    fn of_row(geometry: &Geometry, row: Option<u32>) -> Place {
        let Some(row) = row else {
            return NOWHERE;
        };
        let parts = geometry.parts_of(row);
        if !is_inside(geometry, parts) {
            return Place {
                row: Some(row),
                is_outside: true,
                ..NOWHERE
            };
        }
        Place {
            row: Some(row),
            page: Some(PageAddress::of_row(geometry, row)),
            lun: u8::try_from(parts.lun).ok(),
            ..NOWHERE
        }
    }

    /// That of an operation.
    pub(crate) fn of(geometry: &Geometry, operation: Operation) -> Place {
        let Beginning::Opener(opener) = operation.beginning else {
            return NOWHERE;
        };
        let (columns, rows) = address_bytes(opener);
        let of_row = Place::of_row(geometry, number_of(operation, columns, rows));
        Place {
            page: of_row.page.or(operation.held),
            is_block: opener == 0x60,
            column: number_of(operation, 0, columns),
            address: plain_address(operation, opener),
            ..of_row
        }
    }

    /// The LUN of an operation: that which works, or that of its row; the one of a target that has one.
    pub(crate) fn lun_of(self, geometry: &Geometry, operation: Operation) -> Option<u8> {
        match operation.beginning {
            Beginning::Cut => None,
            Beginning::Opener(_) | Beginning::Ready if geometry.parts().luns == 1 => Some(0),
            Beginning::Opener(_) | Beginning::Ready => match operation.start {
                Some(_) => operation.lun,
                None => self.lun.or(operation.lun),
            },
        }
    }

    /// Its block.
    pub(crate) fn block(self) -> Option<u32> {
        Some(self.page?.block)
    }

    /// Its page, of an operation that works on one.
    pub(crate) fn page_number(self) -> Option<u64> {
        if self.is_block {
            return None;
        }
        Some(self.page?.page)
    }

    /// Nothing is to be said of it.
    pub(crate) fn is_nowhere(self) -> bool {
        self.page.is_none() && !self.is_outside && self.column.is_none() && self.address.is_none()
    }

    // Its block and page, or its row.
    fn write_page<W: fmt::Write>(self, f: &mut fmt::Formatter<W>) -> Result<bool, fmt::Error> {
        if self.is_outside {
            write!(f, "row {:06x} outside", self.row.unwrap_or(0))?;
            return Ok(true);
        }
        let Some(page) = self.page else {
            return Ok(false);
        };
        write!(f, "b{}", page.block)?;
        if !self.is_block {
            write!(f, " p{}", page.page)?;
        }
        Ok(true)
    }
}

impl fmt::Display for Place {
    fn fmt<W: fmt::Write>(&self, f: &mut fmt::Formatter<W>) -> fmt::Result {
        let mut separator = if self.write_page(f)? { " " } else { "" };
        if let Some(column) = self.column {
            write!(f, "{separator}c{column}")?;
            separator = " ";
        }
        if let Some(address) = self.address {
            write!(f, "{separator}a{address:02x}")?;
        }
        Ok(())
    }
}
