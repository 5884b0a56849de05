//! A geometry as numbers.
ghost use Rattle.std.specs.Prelude.{◌≡◌};
ghost use Rattle.nand_geometry.specs.Limits.{InLimits, page_len};
ghost use Rattle.target_record.specs.Geometry.{parts_of, no_geometry};

use crate::record::{flag, is_set};
use nand_geometry::{Geometry, Optional, Parts};

/// A geometry: sizes in bytes, pages of a block, blocks and LUNs; `plane_bits` is the binary logarithm of the planes of a LUN.
/// `enhanced`, `multi_plane` and `cache` are 0 for no, and anything else for yes; `optional` is 0 in the base profile, and else the bits of what the chip has beside
/// it.
#[repr(C)]
#[derive(Clone, Copy)]
pub struct OnfiseqGeometry {
    pub page_bytes: u32,
    pub spare_bytes: u32,
    pub pages: u32,
    pub blocks: u32,
    pub luns: u8,
    pub plane_bits: u8,
    pub enhanced: u8,
    pub multi_plane: u8,
    pub cache: u8,
    pub optional: u16,
}

impl OnfiseqGeometry {
    /// The parts that the numbers stand for.
    pub fn parts(&self) -> Parts
        ensures { result ≡ parts_of self.now }
    {
        Parts {
            page_bytes: self.page_bytes,
            spare_bytes: self.spare_bytes,
            pages: self.pages,
            blocks: self.blocks,
            luns: self.luns,
            plane_bits: self.plane_bits,
            enhanced: is_set(self.enhanced),
            multi_plane: is_set(self.multi_plane),
            cache: is_set(self.cache),
            optional: Optional(self.optional),
        }
    }

    /// The geometry of these numbers.
    pub fn known(&self) -> Geometry
        requires { InLimits (parts_of self.now) }
        ensures { result ≡ parts_of self.now }
    {
        Geometry::of(self.parts()).unwrap()
    }

    /// How many bytes a page has.
    pub fn page_len(&self) -> u64
        ensures { result ≡ page_len (parts_of self.now) }
    {
        u64::from(self.page_bytes) + u64::from(self.spare_bytes)
    }

    /// The numbers of parts.
    pub fn of(parts: Parts) -> OnfiseqGeometry
        ensures { parts_of result ≡ parts }
    {
        OnfiseqGeometry {
            page_bytes: parts.page_bytes,
            spare_bytes: parts.spare_bytes,
            pages: parts.pages,
            blocks: parts.blocks,
            luns: parts.luns,
            plane_bits: parts.plane_bits,
            enhanced: flag(parts.enhanced),
            multi_plane: flag(parts.multi_plane),
            cache: flag(parts.cache),
            optional: parts.optional.0,
        }
    }

    /// All numbers 0.
    pub fn none() -> OnfiseqGeometry
        ensures { result ≡ no_geometry }
    {
        OnfiseqGeometry {
            page_bytes: 0,
            spare_bytes: 0,
            pages: 0,
            blocks: 0,
            luns: 0,
            plane_bits: 0,
            enhanced: 0,
            multi_plane: 0,
            cache: 0,
            optional: 0,
        }
    }
}
