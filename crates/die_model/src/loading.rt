//! Reading a die's image.
ghost use Rattle.std.specs.Prelude.{◌≡◌, ◌+◌, ◌*◌, ◌≤◌, true, List, [], None, IfOk, length, replicate};
ghost use Rattle.nand_geometry.specs.Limits.{page_len};
ghost use Rattle.nand_geometry.specs.Reading.{u32_at};
ghost use Rattle.onfi_cycle.specs.declared.page_address.PageAddress.{PageAddress as At};
ghost use Rattle.die_model.specs.Pages.{page_in};
ghost use Rattle.die_model.specs.Loading.{has_numbers, is_page, row_fault, entry_len, entries_fault, image_fault, told, page_told, are_pages, ArePages};

use crate::pages::Pages;
use crate::refusal::ImageFault;
use byteorder::{ByteOrder, LittleEndian};
use nand_geometry::{Geometry, Parts};
use onfi_cycle::PageAddress;
use std::alloc::{AllocError, Allocator};

// How many bytes come before the entries.
const HEADER_LEN: usize = 24;

// How many bytes of an entry tell its row.
const ROW_LEN: usize = 4;

// The number in four bytes, the least significant first.
fn number_at(bytes: &[u8], place: usize) -> u32
    requires { place + 4 ≤ length bytes.now }
    ensures { result ≡ u32_at bytes.now place }
{
    LittleEndian::read_u32(&bytes[place..])
}

// The header has these numbers.
fn has_numbers(parts: Parts, bytes: &[u8]) -> bool
    requires { 24 ≤ length bytes.now }
    ensures { result ≡ has_numbers parts bytes.now }
{
    number_at(bytes, 4) == parts.page_bytes
        && number_at(bytes, 8) == parts.spare_bytes
        && number_at(bytes, 12) == parts.pages
        && number_at(bytes, 16) == parts.blocks
}

// How many bytes an entry has.
fn entry_len(geometry: &Geometry) -> usize
    ensures value { result ≡ entry_len geometry.now }
    ensures small { result ≤ 32768 }
{
    // Their contract says that they are in the limits, so the sum fits.
    let _limits = geometry.parts();
    ROW_LEN + geometry.page_len() as usize
}

// What is wrong with a row, where no row below `least` may come any more.
fn row_fault(geometry: &Geometry, least: u64, row: u32) -> Option<ImageFault>
    ensures { result ≡ row_fault geometry.now least row }
{
    let parts = geometry.parts_of(row);
    if parts.lun != 0 || !geometry.is_inside(parts) {
        return Some(ImageFault::Row);
    }
    if u64::from(row) < least {
        return Some(ImageFault::Order);
    }
    None
}

// The first fault of so many entries.
fn entries_fault(geometry: &Geometry, count: u32, entries: &[u8]) -> Option<ImageFault>
    requires { length entries.now ≡ count * entry_len geometry.now }
    ensures { result ≡ entries_fault geometry.now count 0 entries.now }
{
    let len = entry_len(geometry);
    let mut rest = entries;
    let mut least: u64 = 0;
    for k in 0..count {
        let row = number_at(rest, 0);
        let fault = row_fault(geometry, least, row);
        if fault.is_some() {
            return fault;
        }
        least = u64::from(row) + 1;
        rest = rest.split_at(len).1;
    }
    None
}

/// The first fault of an image, for a die of this geometry.
pub fn image_fault(geometry: &Geometry, bytes: &[u8]) -> Option<ImageFault>
    ensures { result ≡ image_fault geometry.now bytes.now }
{
    if bytes.len() < HEADER_LEN {
        return Some(ImageFault::Length);
    }
    if !bytes.starts_with(b"NDI1") {
        return Some(ImageFault::Magic);
    }
    if !has_numbers(geometry.parts(), bytes) {
        return Some(ImageFault::Numbers);
    }
    let count = number_at(bytes, 20);
    let entries = bytes.split_at(HEADER_LEN).1;
    if entries.len() != count as usize * entry_len(geometry) {
        return Some(ImageFault::Length);
    }
    entries_fault(geometry, count, entries)
}

// Keeps the pages of so many entries.
fn keep_entries<A: Allocator + Copy>(
    geometry: &Geometry,
    count: u32,
    entries: &[u8],
    pages: &mut Pages<A>,
) -> Result<(), AllocError>
    requires empty { pages.old ≡ [] }
    requires length { length entries.now ≡ count * entry_len geometry.now }
    requires inside { are_pages geometry.now count entries.now ≡ true }
    ensures told { IfOk result (λ _. (p : At) → page_in (page_len geometry.now) pages.new p
        ≡ told geometry.now count entries.now p (replicate (page_len geometry.now) 0xff)) }
    ensures inside { IfOk result (λ _. ArePages geometry.now pages.new) }
{
    let len = entry_len(geometry);
    let mut rest = entries;
    for k in 0..count {
        let (entry, later) = rest.split_at(len);
        let at = PageAddress::of_row(geometry, number_at(rest, 0));
        pages.put(at, entry.split_at(ROW_LEN).1)?;
        rest = later;
    }
    Ok(())
}

/// Keeps the pages of an image without a fault.
pub fn keep_image<A: Allocator + Copy>(
    geometry: &Geometry,
    bytes: &[u8],
    pages: &mut Pages<A>,
) -> Result<(), AllocError>
    requires empty { pages.old ≡ [] }
    requires faultless { image_fault geometry.now bytes.now ≡ None }
    ensures told { IfOk result (λ _. (p : At) → page_in (page_len geometry.now) pages.new p ≡ page_told geometry.now bytes.now p) }
    ensures inside { IfOk result (λ _. ArePages geometry.now pages.new) }
{
    let entries = bytes.split_at(HEADER_LEN).1;
    keep_entries(geometry, number_at(bytes, 20), entries, pages)?;
    Ok(())
}
