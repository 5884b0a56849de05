//! The numbers of a geometry, and their limits.
ghost use Rattle.std.specs.Prelude.{◌≡◌};
ghost use Rattle.nand_geometry.specs.Limits.{has_size_fault};

use crate::Optional;

/// The most LUNs of a target.
pub const MAX_LUNS: usize = 4;

/// The most bits of a row.
pub(crate) const MAX_ROW_BITS: u32 = 24;

/// The most plane bits.
pub(crate) const MAX_PLANE_BITS: u8 = 2;

const MIN_PAGE_BYTES: u32 = 512;

const MAX_PAGE_BYTES: u32 = 16_384;

const MAX_SPARE_BYTES: u32 = 4_096;

const MAX_PAGES: u32 = 4_096;

const MAX_BLOCKS: u32 = 65_536;

/// The numbers of a geometry, as a parameter page declares them (ONFI 4.x, Parameter Page Data Structure Definition).
/// The ranges are our own choice.
#[derive(Clone, Copy, Debug, PartialEq, Eq)]
pub struct Parts {
    /// Data bytes of a page, without the spare bytes: 512 to 16,384.
    pub page_bytes: u32,
    /// Spare bytes of a page: 0 to 4,096.
    pub spare_bytes: u32,
    /// Pages of a block: 1 to 4,096.
    pub pages: u32,
    /// Blocks of a LUN: 1 to 65,536, and at least one for each plane.
    pub blocks: u32,
    /// LUNs of a target: 1 to 4.
    pub luns: u8,
    /// How many of a block's lowest bits are its plane: 0 to 2.
    pub plane_bits: u8,
    /// Read Status Enhanced (78h) is there; several LUNs need it.
    pub enhanced: bool,
    /// Multi-plane program and erase are there.
    pub multi_plane: bool,
    /// Read cache is there.
    pub cache: bool,
    /// What else is there, beyond the base profile: nothing, unless a page was read for the wider one.
    pub optional: Optional,
}

/// The small chip of the examples, on which `onfiseq once` runs its files: one LUN of 8 blocks of 4 pages of 512 + 16 bytes, in one
/// plane, without the commands that are optional.
pub const SMALL_CHIP: Parts = Parts {
    page_bytes: 512,
    spare_bytes: 16,
    pages: 4,
    blocks: 8,
    luns: 1,
    plane_bits: 0,
    enhanced: false,
    multi_plane: false,
    cache: false,
    optional: Optional::NONE,
};

impl Parts {
    /// A size is out of range: data bytes, spare bytes, pages or blocks.
    pub(crate) fn has_size_fault(self) -> bool
        ensures { result ≡ has_size_fault self }
    {
        self.page_bytes < MIN_PAGE_BYTES
            || self.page_bytes > MAX_PAGE_BYTES
            || self.spare_bytes > MAX_SPARE_BYTES
            || self.pages < 1
            || self.pages > MAX_PAGES
            || self.blocks < 1
            || self.blocks > MAX_BLOCKS
    }
}
