//! Writing word files.

ghost use Rattle.std.specs.Prelude.{◌≡◌, ◌++◌, IfOk};
ghost use Rattle.std.specs.Int.{w16, w32, to_le_bytes};
ghost use Rattle.micro_word.specs.declared.format.Format.TheVariants.{Two};
ghost use Rattle.micro_word.specs.Text.{magic, file2, FormatsDifferInOneByte};
ghost use Rattle.micro_word.specs.Reading.{reading};

use crate::format::{HEADER_BYTES, WORD_BYTES};
use crate::text::Text;
use byteorder::{ByteOrder, LittleEndian};
use std::alloc::{AllocError, Allocator};

/// The word file of a text, in format 2: 16 bytes and four for each word.
pub fn write<A: Allocator, B: Allocator>(alloc: A, text: &Text<B>) -> Result<Vec<u8, A>, AllocError>
    ensures value { IfOk result (λ v. v.items ≡ file2 text.now) }
    // What was written is read back.
    ensures read_back { IfOk result (λ v. reading v.items ≡ Ok text.now) }
{
    let words = text.words();
    let mut bytes = Vec::with_capacity(alloc, HEADER_BYTES + WORD_BYTES * words.len())?;
    bytes.extend_from_slice(&header_of(
        words.len() as u16,
        text.rows(),
        text.buffer(),
        text.budget(),
    ))?;
    for word in words {
        bytes.extend_from_slice(&word.to_bytes())?;
    }
    Ok(bytes)
}

/// A file of format 1, read and written again, changes in its fourth byte alone.
pub fn formats_differ_in_one_byte()
    ensures { FormatsDifferInOneByte }
{}

// The 16 bytes of a header.
fn header_of(words: u16, rows: u16, buffer: u32, budget: u32) -> [u8; HEADER_BYTES]
    ensures { result ≡ magic Two ++ to_le_bytes w16 words ++ to_le_bytes w16 rows ++ to_le_bytes w32 buffer ++ to_le_bytes w32 budget }
{
    let mut bytes = *b"NMP2............";
    LittleEndian::write_u16(&mut bytes[4..], words);
    LittleEndian::write_u16(&mut bytes[6..], rows);
    LittleEndian::write_u32(&mut bytes[8..], buffer);
    LittleEndian::write_u32(&mut bytes[12..], budget);
    bytes
}
