//! The header of a word file, and the words after it.

ghost use Rattle.std.specs.Prelude.{◌≡◌, ◌+◌, ◌*◌, ◌≤◌, length, IfOk};
ghost use Rattle.micro_word.specs.Reading.{header_at, word_at, u16_at, u32_at};
ghost use Rattle.micro_word.specs.Word.{IsInRange};

use crate::format::{Format, HEADER_BYTES, MAX_WORDS, WORD_BYTES};
use crate::refusal::{WordFault, WordRefusal};
use crate::text::fault;
use crate::word::Word;
use byteorder::{ByteOrder, LittleEndian};

/// The first 16 bytes of a word file.
#[derive(Clone, Copy, Debug, PartialEq, Eq)]
pub struct Header {
    pub format: Format,
    pub words: u16,
    pub rows: u16,
    pub buffer: u32,
    pub budget: u32,
}

fn read_u16(bytes: &[u8], place: usize) -> u16
    requires { place + 2 ≤ length bytes.now }
    ensures { result ≡ u16_at bytes.now place }
{
    LittleEndian::read_u16(&bytes[place..])
}

fn read_u32(bytes: &[u8], place: usize) -> u32
    requires { place + 4 ≤ length bytes.now }
    ensures { result ≡ u32_at bytes.now place }
{
    LittleEndian::read_u32(&bytes[place..])
}

impl Header {
    /// The header of a file that holds all its words. Errors: `M1` to `M3`, and `M6` for a number out of its range.
    #[tactic(auto, unfolding(crate::specs::Reading::header_at))]
    pub fn of(bytes: &[u8]) -> Result<Header, WordRefusal>
        ensures value { result ≡ header_at bytes.now }
        ensures length { IfOk result (λ header. 16 + 4 * header.words ≤ length bytes.now) }
        ensures few { IfOk result (λ header. header.words ≤ 1024) }
    {
        if bytes.len() < HEADER_BYTES {
            return Err(fault(WordFault::TooShort, 0));
        }
        let format = Format::of(bytes).ok_or(fault(WordFault::UnknownFormat, 0))?;
        let header = Header {
            format,
            words: read_u16(bytes, 4),
            rows: read_u16(bytes, 6),
            buffer: read_u32(bytes, 8),
            budget: read_u32(bytes, 12),
        };
        if usize::from(header.words) > MAX_WORDS || bytes.len() < header.file_len() {
            return Err(fault(WordFault::TooManyWords, 0));
        }
        if !header.format.is_header_in_range(header.rows, header.buffer) {
            return Err(fault(WordFault::OutOfRange, 0));
        }
        Ok(header)
    }

    /// How many bytes a file with this header has.
    pub(crate) fn file_len(self) -> usize
        ensures { result ≡ 16 + 4 * self.words }
    {
        HEADER_BYTES + WORD_BYTES * usize::from(self.words)
    }

    /// The word in the first four bytes, which is word number `place` of its text. Errors: `M4`, `M5` and `M6`.
    #[tactic(auto, unfolding(crate::specs::Reading::word_at))]
    pub fn read_word(self, place: usize, bytes: &[u8]) -> Result<Word, WordRefusal>
        requires { 4 ≤ length bytes.now }
        ensures value { result ≡ word_at self place bytes.now }
        ensures range { IfOk result (λ word. IsInRange self.format self.words word) }
    {
        let field_a = bytes[1];
        let field_b = read_u16(bytes, 2);
        let word = Word::of(self.format, bytes[0], field_a, field_b).ok_or(fault(
            WordFault::UnknownCode,
            place,
        ))?;
        if word.has_stray(self.format, field_a, field_b) {
            return Err(fault(WordFault::UnusedFieldSet, place));
        }
        if !word.is_in_range(self.format, usize::from(self.words)) {
            return Err(fault(WordFault::OutOfRange, place));
        }
        Ok(word)
    }
}
