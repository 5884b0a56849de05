//! A geometry: how many LUNs, blocks, pages and bytes a target has, and the rows that address them.
ghost use Rattle.std.specs.Prelude.{◌≡◌, ◌+◌, ◌*◌, ◌^◌, ◌<◌, Some, None, Ok, Err, MatchResult, length, slice_index};

use crate::checksum::checksum;
use crate::field::{three_fields, width};
use crate::parts::{MAX_LUNS, MAX_PLANE_BITS, MAX_ROW_BITS};
use crate::reading::{
    CHECKSUM_PLACE, COPY_LEN, declared_as, has_address_cycles, has_lun_operations, has_wide_bus,
    is_signed, is_sound,
};
use crate::writing::{features_block, organization_block};
use crate::{PageFault, Parts, Profile, RowParts};
use byteorder::{ByteOrder, LittleEndian};
use std::marker::Model;

/// A geometry: numbers inside the limits, with the widths of their row fields.
#[derive(Clone, Copy, Debug, PartialEq, Eq)]
pub struct Geometry {
    parts: Parts,
    block_width: u32,
    page_width: u32,
}

impl Model for Geometry {
    ghost use Rattle.std.proofs.Common.{sym};
    ghost use Rattle.nand_geometry.specs.declared.parts.Parts.{Parts};

    ghost Value = { Parts };

    ghost use Rattle.nand_geometry.specs.Limits.{KeepsWidths, block_bits, page_bits};

    ghost view = { λ g. g.parts };

    ghost invariant = { λ g. KeepsWidths g.parts g.block_width g.page_width };

    ghost inverse = { λ p. record { parts = p; block_width = block_bits p; page_width = page_bits p } };

    ghost inverse_ok = { λ g h i. record g { block_width = sym h.block i; page_width = sym h.page i } };
}

impl Geometry {
    ghost use Rattle.nand_geometry.specs.Limits.{InLimits, fault_of, page_len, planes, indices};
    ghost use Rattle.nand_geometry.specs.Page.{page};
    ghost use Rattle.nand_geometry.specs.Reading.{declared_as, copy_fault, read_of, read_as};
    ghost use Rattle.nand_geometry.specs.Row.{row_number, row_of, row_bytes_of, parts_of, is_inside, row_parts_of};

    /// The geometry of these numbers.
    ///
    /// Errors, the first that stands, in this order: `P6` a size is out of range; `P7` too many LUNs or none, or
    /// a row that 24 bits don't hold; `P8` plane bits past 2, or planes past the blocks; `P9` Read Status Enhanced is
    /// missing where there is more than one LUN. Any other numbers are a geometry. The limits are our own choice.
    pub fn of(parts: Parts) -> Result<Geometry, PageFault>
        ensures { MatchResult result (λ g. (fault_of parts ≡ None) × (g ≡ parts)) (λ e. fault_of parts ≡ Some e) }
    {
        if parts.has_size_fault() {
            return Err(PageFault::SizeOutOfRange);
        }
        if parts.luns < 1 || usize::from(parts.luns) > MAX_LUNS {
            return Err(PageFault::LunsOutOfRange);
        }
        let block_width = width(parts.blocks);
        let page_width = width(parts.pages);
        if width(u32::from(parts.luns)) + block_width + page_width > MAX_ROW_BITS {
            return Err(PageFault::LunsOutOfRange);
        }
        if parts.plane_bits > MAX_PLANE_BITS || parts.blocks < 1 << parts.plane_bits {
            return Err(PageFault::PlanesOutOfRange);
        }
        if parts.luns > 1 && !parts.enhanced {
            return Err(PageFault::LunCommandsMissing);
        }
        Ok(Geometry {
            parts,
            block_width,
            page_width,
        })
    }

    /// The geometry that a chip's parameter page declares, in the base profile: its `optional` is empty, whatever the page declares. `read_as` reads
    /// a page for the wider profile.
    pub fn read(bytes: &[u8]) -> Result<Geometry, PageFault>
        ensures { MatchResult result (λ g. read_of bytes.now ≡ Ok g) (λ e. read_of bytes.now ≡ Err e) }
    {
        Geometry::read_as(Profile::Base, bytes)
    }

    /// The geometry that a chip's parameter page declares, in a profile.
    ///
    /// The page is the first whole copy of 256 bytes that begins with `ONFI` and ends with its checksum; a rest shorter
    /// than a copy is left alone. Of that copy these ONFI fields are read: the signature (bytes 0 to 3), features (6, 7)
    /// and optional commands (8, 9), whose bit places are our own choice, data bytes and spare bytes of a page (80 to 85),
    /// pages of a block and blocks of a LUN (92 to 99), LUNs (100), address cycles (101), the plane bits in 113, and the
    /// checksum (254, 255). Of the same fields the wider profile reads what [`Optional`](crate::Optional) names. Nothing else is looked at, so a page of any revision is taken, also one that `page` wrote: its
    /// revision (4, 5) is zero, so Linux, which asks for one that it knows, wouldn't take it from a real chip.
    ///
    /// Errors, the first that stands, in this order: `P1` less than one copy of 256 bytes; `P2` the signature is in no
    /// whole copy; `P3` it is, but never with the right checksum; `P4` the bus has 16 bits; `P5` addresses aren't of two
    /// and three cycles; then those of `of`, where `P9` also stands for several LUNs without multiple LUN operations.
    pub fn read_as(profile: Profile, bytes: &[u8]) -> Result<Geometry, PageFault>
        ensures { MatchResult result (λ g. read_as profile bytes.now ≡ Ok g) (λ e. read_as profile bytes.now ≡ Err e) }
    {
        if bytes.len() < COPY_LEN {
            return Err(PageFault::TooShort);
        }
        let mut signed = false;
        for copy in bytes.chunks_exact(COPY_LEN) {
            if is_signed(copy) {
                if is_sound(copy) {
                    return Geometry::of_copy(profile, copy);
                }
                signed = true;
            }
        }
        Err(if signed {
            PageFault::WrongChecksum
        } else {
            PageFault::NoSignature
        })
    }

    /// The geometry that a copy of the parameter page declares in a profile, whose signature and checksum are right.
    #[tactic(auto, using(crate::proofs::ReadingLemmas::wide_fault, crate::proofs::ReadingLemmas::cycles_fault, crate::proofs::ReadingLemmas::several_fault, crate::proofs::ReadingLemmas::no_copy_fault))]
    fn of_copy(profile: Profile, copy: &[u8]) -> Result<Geometry, PageFault>
        requires { length copy.now ≡ COPY_LEN }
        ensures { MatchResult result (λ g. (copy_fault copy.now ≡ None) × (g ≡ declared_as profile copy.now)) (λ e. copy_fault copy.now ≡ Some e) }
    {
        if has_wide_bus(copy) {
            return Err(PageFault::WideBus);
        }
        if !has_address_cycles(copy) {
            return Err(PageFault::AddressCycles);
        }
        match Geometry::of(declared_as(profile, copy)) {
            Ok(geometry) if geometry.parts().luns > 1 && !has_lun_operations(copy) => {
                Err(PageFault::LunCommandsMissing)
            }
            Ok(geometry) => Ok(geometry),
            Err(fault) => Err(fault),
        }
    }

    /// The parameter page that declares this geometry; `read_as` gives the geometry back, with what the profile keeps of its `optional`.
    ///
    /// These ONFI fields are written: the signature (bytes 0 to 3), features (6, 7), where operations of several LUNs are
    /// declared exactly where there are several LUNs, optional commands (8, 9), data bytes and spare bytes of a page (80
    /// to 85), pages of a block and blocks of a LUN (92 to 99), LUNs (100), address cycles (101), plane bits (113) and the
    /// checksum (254, 255). All other bytes and bits are zero, the revision (4, 5) among them. So Linux, which asks for a
    /// revision that it knows, wouldn't take such a page from a real chip; `read` takes any revision.
    pub fn page(&self) -> [u8; 256]
        ensures { result ≡ page self.now }
    {
        let parts = self.parts;
        let mut page = [0; COPY_LEN];
        page[..32].copy_from_slice(&features_block(parts));
        page[80..128].copy_from_slice(&organization_block(parts));
        let sum = checksum(&page[..CHECKSUM_PLACE]);
        LittleEndian::write_u16(&mut page[CHECKSUM_PLACE..], sum);
        page
    }

    /// The numbers of the geometry, which are inside the limits.
    pub fn parts(&self) -> Parts
        ensures value { result ≡ self.now }
        ensures limits { InLimits self.now }
    {
        self.parts
    }

    /// How many bytes a page has: data bytes and spare bytes.
    pub fn page_len(&self) -> u32
        ensures { result ≡ page_len self.now }
    {
        let parts = self.parts;
        parts.page_bytes + parts.spare_bytes
    }

    /// How many planes a LUN has: 1, 2 or 4.
    pub fn planes(&self) -> u32
        ensures { result ≡ planes self.now }
    {
        1 << self.parts.plane_bits
    }

    /// How many page indices a LUN has: the pages of a block for each whole group of one block a plane.
    pub fn indices(&self) -> u32
        ensures { result ≡ indices self.now }
    {
        let parts = self.parts;
        parts.pages * (parts.blocks / self.planes())
    }

    /// The number of a row inside the geometry: the page in the lowest bits, above it the block and then the LUN, each
    /// field as wide as its numbers need (ONFI 4.x, Memory Organization, Addressing). `is_inside` is the test.
    pub fn row_number(&self, row: RowParts) -> u32
        requires lun { row.lun < self.now.luns }
        requires block { row.block < self.now.blocks }
        requires page { row.page < self.now.pages }
        ensures value { result ≡ row_number self.now row }
        ensures small { result < 2 ^ 24 }
    {
        three_fields(
            row.lun,
            row.block,
            row.page,
            self.block_width,
            self.page_width,
        )
    }

    /// The three row bytes of a page index in a plane of a LUN, the least significant first.
    ///
    /// Index i is page i mod `pages` of group i / `pages`; the group's block in the plane is group * `planes` + plane.
    /// None exactly where the LUN, the index or the plane is outside the geometry. That the plane is the lowest bits of
    /// the block is ONFI 4.x, Multi-plane Addressing; what an index stands for is our own choice.
    pub fn row_bytes(&self, lun: u8, index: u32, plane: u8) -> Option<[u8; 3]>
        ensures { result ≡ row_bytes_of self.now lun index plane }
    {
        let planes = self.planes();
        if lun >= self.parts.luns || index >= self.indices() || u32::from(plane) >= planes {
            return None;
        }
        let row = self.row_number(RowParts {
            lun: u32::from(lun),
            block: index / self.parts.pages * planes + u32::from(plane),
            page: index % self.parts.pages,
        });
        Some([
            (row % 256) as u8,
            (row / 256 % 256) as u8,
            (row / 65536 % 256) as u8,
        ])
    }

    /// What the number of a row names, inside the geometry or not: the LUN is all bits above the block field.
    pub fn parts_of(&self, row: u32) -> RowParts
        ensures { result ≡ parts_of self.now row }
    {
        RowParts {
            lun: row >> (self.block_width + self.page_width),
            block: (row >> self.page_width) % (1 << self.block_width),
            page: row % (1 << self.page_width),
        }
    }

    /// The LUN, the block and the page are each inside the geometry.
    pub fn is_inside(&self, row: RowParts) -> bool
        ensures { result ≡ is_inside self.now row }
    {
        row.lun < u32::from(self.parts.luns)
            && row.block < self.parts.blocks
            && row.page < self.parts.pages
    }

    /// What three row bytes name, the least significant byte first. None exactly where that is outside the geometry; a
    /// block that no index reaches is inside.
    pub fn row_parts(&self, bytes: [u8; 3]) -> Option<RowParts>
        ensures { let row = row_of (slice_index bytes 0) (slice_index bytes 1) (slice_index bytes 2)
            in result ≡ row_parts_of self.now row }
    {
        let row = u32::from(bytes[0]) + 256 * u32::from(bytes[1]) + 65536 * u32::from(bytes[2]);
        let parts = self.parts_of(row);
        if self.is_inside(parts) {
            Some(parts)
        } else {
            None
        }
    }
}
