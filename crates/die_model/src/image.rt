//! Writing a die's image.
ghost use Rattle.std.specs.Prelude.{◌≡◌, ◌++◌, [], ◌∷◌, IfOk};
ghost use Rattle.die_model.specs.Image.{are_blank, is_written, entry, count_of, four, header};

use byteorder::{ByteOrder, LittleEndian};
use nand_geometry::{Geometry, Parts, RowParts};
use std::alloc::{AllocError, Allocator};

// Every byte is FF.
fn are_blank(bytes: &[u8]) -> bool
    ensures { result ≡ are_blank bytes.now }
{
    for b in bytes {
        if *b != 0xff {
            return false;
        }
    }
    true
}

// A page has an entry.
fn is_written(geometry: &Geometry, block: u32, page: u64, bytes: &[u8]) -> bool
    ensures { result ≡ is_written geometry.now (block, page) bytes.now }
{
    let parts = geometry.parts();
    block < parts.blocks && page < u64::from(parts.pages) && !are_blank(bytes)
}

/// How many entries a page has: one or none.
pub fn count_entry(geometry: &Geometry, block: u32, page: u64, bytes: &[u8]) -> u32
    ensures { result ≡ count_of geometry.now (((block, page), bytes.now) ∷ []) }
{
    if is_written(geometry, block, page, bytes) {
        1
    } else {
        0
    }
}

// Appends the four bytes of a number, the least significant first.
fn push_number<A: Allocator>(number: u32, out: &mut Vec<u8, A>) -> Result<(), AllocError>
    ensures { IfOk result (λ _. out.new.items ≡ out.old.items ++ four number) }
{
    let mut bytes = [0; 4];
    LittleEndian::write_u32(&mut bytes, number);
    out.extend_from_slice(&bytes)?;
    Ok(())
}

/// Begins an image of so many entries: its header.
pub fn begin_image<A: Allocator>(
    alloc: A,
    parts: Parts,
    count: u32,
) -> Result<Vec<u8, A>, AllocError>
    ensures { IfOk result (λ v. v.items ≡ header parts count) }
{
    let mut out = Vec::new(alloc);
    out.extend_from_slice(b"NDI1")?;
    push_number(parts.page_bytes, &mut out)?;
    push_number(parts.spare_bytes, &mut out)?;
    push_number(parts.pages, &mut out)?;
    push_number(parts.blocks, &mut out)?;
    push_number(count, &mut out)?;
    Ok(out)
}

/// Writes the entry of a page, if it has one.
pub fn write_entry<A: Allocator>(
    geometry: &Geometry,
    block: u32,
    page: u64,
    bytes: &[u8],
    out: &mut Vec<u8, A>,
) -> Result<(), AllocError>
    ensures { IfOk result (λ _. out.new.items ≡ out.old.items ++ entry geometry.now (block, page) bytes.now) }
{
    if is_written(geometry, block, page, bytes) {
        // Their contract says that they are in the limits, so there is a LUN 0.
        let _limits = geometry.parts();
        let row = geometry.row_number(RowParts {
            lun: 0,
            block,
            page: page as u32,
        });
        push_number(row, out)?;
        out.extend_from_slice(bytes)?;
    }
    Ok(())
}
