//! A table of programs that are refused, each with what is told of it.

use nand_geometry::{Optional, Parts, SMALL_CHIP};

/// One LUN of 8 blocks of 4 pages of 512 + 16 bytes, in one plane.
pub(crate) const ONE_LUN: Parts = SMALL_CHIP;

/// The same, in two planes, with a cache read.
pub(crate) const TWO_PLANES: Parts = Parts {
    plane_bits: 1,
    multi_plane: true,
    cache: true,
    ..ONE_LUN
};

/// Two such LUNs.
pub(crate) const TWO_LUNS: Parts = Parts {
    luns: 2,
    enhanced: true,
    ..TWO_PLANES
};

/// Two planes of the wider profile, which are read at once, and whose pages are selected.
pub(crate) const PLANE_READS: Parts = Parts {
    optional: Optional(0x8e64),
    ..TWO_PLANES
};

/// The same, whose pages are copied.
pub(crate) const COPIES: Parts = Parts {
    optional: Optional(0x8e74),
    ..TWO_PLANES
};

/// The same, whose array programs a page of one plane while the next one comes.
pub(crate) const CACHES: Parts = Parts {
    optional: Optional(0x8e75),
    ..TWO_PLANES
};

/// The same, whose array programs pages of both planes so.
pub(crate) const GROUP_CACHES: Parts = Parts {
    optional: Optional(0xce75),
    ..TWO_PLANES
};
