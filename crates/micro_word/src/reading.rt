//! Reading word files.

ghost use Rattle.std.specs.Prelude.{◌≡◌, ◌*◌, ◌≤◌, length, IfOk, IfErr, OnOk, IsOk};
ghost use Rattle.micro_word.specs.Text.{Microprogram, IsFileOf};
ghost use Rattle.micro_word.specs.Reading.{Gives, words_at, reading};

use crate::format::{HEADER_BYTES, WORD_BYTES};
use crate::header::Header;
use crate::refusal::{WordFault, WordRefusal};
use crate::text::{Text, fault};
use crate::word::Word;
use std::alloc::{AllocError, Allocator};

// The fault of a word, if one has a fault. Takes no memory.
fn check_words(header: Header, bytes: &[u8]) -> Result<(), WordRefusal>
    requires { 4 * header.words ≤ length bytes.now }
    ensures ok { OnOk result (IsOk (words_at header 0 header.words bytes.now)) }
    ensures err { IfErr result (λ e. words_at header 0 header.words bytes.now ≡ Err e) }
{
    let mut rest = bytes;
    for place in 0..usize::from(header.words) {
        header.read_word(place, rest)?;
        rest = rest.split_at(WORD_BYTES).1;
    }
    Ok(())
}

// The words, which have no fault.
fn read_words<A: Allocator>(
    alloc: A,
    header: Header,
    bytes: &[u8],
) -> Result<Vec<Word, A>, AllocError>
    requires length { 4 * header.words ≤ length bytes.now }
    requires faultless { IsOk (words_at header 0 header.words bytes.now) }
    ensures { IfOk result (λ v. words_at header 0 header.words bytes.now ≡ Ok v.items) }
{
    let mut words = Vec::with_capacity(alloc, usize::from(header.words))?;
    let mut rest = bytes;
    for place in 0..usize::from(header.words) {
        let word = header.read_word(place, rest).unwrap();
        words.push(word)?;
        rest = rest.split_at(WORD_BYTES).1;
    }
    Ok(words)
}

// The text of all the bytes.
#[tactic(auto, unfolding(crate::specs::Reading::reading))]
fn read_text<A: Allocator>(alloc: A, bytes: &[u8]) -> Result<Text<A>, WordRefusal>
    ensures { Gives result (reading bytes.now) }
{
    let header = Header::of(bytes)?;
    let body = bytes.split_at(HEADER_BYTES).1;
    check_words(header, body)?;
    if header.file_len() < bytes.len() {
        return Err(fault(WordFault::TrailingBytes, 0));
    }
    let words = read_words(alloc, header, body)?;
    Ok(Text::new(header.rows, header.buffer, header.budget, words))
}

/// Reads a word file of either format, which has to end with its last word. What is refused tells its
/// first fault and the number of that word. Memory is taken once there is no fault, and `OutOfMemory`
/// is answered only where it was refused.
pub fn read<A: Allocator>(alloc: A, bytes: &[u8]) -> Result<Text<A>, WordRefusal>
    // What is read is a text whose file the bytes are, in one of the formats.
    ensures found { IfOk result (IsFileOf bytes.now) }
    // Each file of a text is read as that text.
    ensures only { (x : Microprogram) → IsFileOf bytes.now x → Gives result (Ok x) }
    // Which fault it is.
    ensures value { Gives result (reading bytes.now) }
{
    read_text(alloc, bytes)
}
