//! A row of a plane.

use std::fmt;

/// A row, counted from the base of the job, in a plane.
#[derive(Clone, Copy, Debug, PartialEq, Eq)]
pub struct RowAt {
    pub row: u64,
    pub plane: u8,
    /// The die has several planes.
    pub several: bool,
}

impl RowAt {
    /// Both may be in one block of so many pages, whatever the base is.
    pub(crate) fn may_share_block(self, other: RowAt, pages: u64) -> bool {
        self.plane == other.plane && self.row.abs_diff(other.row) < pages
    }

    /// Both are in one block of so many pages, where the base begins a block.
    pub(crate) fn shares_block(self, other: RowAt, pages: u64) -> bool {
        self.plane == other.plane && self.block(pages) == other.block(pages)
    }

    // The block, counted from that of a base that begins one.
    fn block(self, pages: u64) -> u64 {
        self.row / pages.max(1)
    }
}

impl fmt::Display for RowAt {
    fn fmt<W: fmt::Write>(&self, f: &mut fmt::Formatter<W>) -> fmt::Result {
        let (row, plane) = (self.row, self.plane);
        if self.several {
            write!(f, "row {row} of plane {plane}")
        } else {
            write!(f, "row {row}")
        }
    }
}
