//! The blocks of a parameter page (ONFI 4.x, Parameter Page Data Structure Definition), all but its checksum.

ghost use Rattle.std.specs.Prelude.{◌≡◌, ◌<◌, ◌≤◌, ◌^◌, take, slice_range};
ghost use Rattle.nand_geometry.specs.Flag.{flag};
ghost use Rattle.nand_geometry.specs.Page.{low_bytes, features, optional_commands, plane_operations, page_body};

use crate::Parts;
use byteorder::{ByteOrder, LittleEndian};

/// The four bytes of a number, the least significant first.
fn u32_bytes(number: u32) -> [u8; 4]
    ensures { result ≡ low_bytes 4 number }
{
    let mut bytes = [0; 4];
    LittleEndian::write_u32(&mut bytes, number);
    bytes
}

/// A bit of a field, where it is set.
pub(crate) fn flag(bit: u32, set: bool) -> u16
    requires { bit < 15 }
    ensures value { result ≡ flag bit set }
    ensures small { result ≤ 2 ^ bit }
{
    if set { 1 << bit } else { 0 }
}

/// Bit 1: operations of several LUNs; bit 3: program and erase of several planes; bit 4: copyback between odd and even pages;
/// bit 5: an interface of double data rate; bit 6: reads of several planes.
fn features(parts: Parts) -> u16
    ensures { result ≡ features parts }
{
    let optional = parts.optional;
    flag(1, parts.luns > 1)
        + flag(3, parts.multi_plane)
        + flag(4, optional.has_odd_even())
        + flag(5, optional.has_synchronous_reset())
        + flag(6, optional.has_plane_reads())
}

/// Page Cache Program is bit 0, read cache bit 1, Get and Set Features bit 2, Read Status Enhanced bit 3, Copyback bit 4, Read Unique ID bit 5,
/// Change Read Column Enhanced bit 6, Reset LUN bit 9.
fn optional_commands(parts: Parts) -> u16
    ensures { result ≡ optional_commands parts }
{
    let optional = parts.optional;
    flag(0, optional.has_program_cache())
        + flag(1, parts.cache)
        + flag(2, optional.has_features())
        + flag(3, parts.enhanced)
        + flag(4, optional.has_copyback())
        + flag(5, optional.has_unique_id())
        + flag(6, optional.has_enhanced_column())
        + flag(9, optional.has_lun_reset())
}

/// Bit 1: the blocks of one group of planes may have any bits above those of the plane; bit 2: cache programs of several planes.
#[tactic(auto, unfolding(crate::specs::Page::plane_operations))]
fn plane_operations(parts: Parts) -> u16
    ensures value { result ≡ plane_operations parts }
    ensures small { result < 256 }
{
    flag(1, parts.optional.has_free_blocks()) + flag(2, parts.optional.has_group_cache())
}

/// Bytes 0 to 31: the revision information and features block, whose revision bytes are zero.
pub fn features_block(parts: Parts) -> [u8; 32]
    ensures { result ≡ take 32 (page_body parts) }
{
    let mut block = [0; 32];
    block[..4].copy_from_slice(b"ONFI");
    LittleEndian::write_u16(&mut block[6..], features(parts));
    LittleEndian::write_u16(&mut block[8..], optional_commands(parts));
    block
}

/// Bytes 80 to 127: the memory organization block. 23h are two address bytes of the column and three of the row.
pub fn organization_block(parts: Parts) -> [u8; 48]
    ensures { result ≡ slice_range (page_body parts) 80 128 }
{
    let mut block = [0; 48];
    block[..4].copy_from_slice(&u32_bytes(parts.page_bytes));
    block[4..6].copy_from_slice(&u32_bytes(parts.spare_bytes)[..2]);
    block[12..16].copy_from_slice(&u32_bytes(parts.pages));
    block[16..20].copy_from_slice(&u32_bytes(parts.blocks));
    block[20] = parts.luns;
    block[21] = 0x23;
    block[33] = parts.plane_bits;
    block[34] = plane_operations(parts) as u8;
    block
}
