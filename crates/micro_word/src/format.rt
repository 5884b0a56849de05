ghost use Rattle.std.specs.Prelude.{◌≡◌};
ghost use Rattle.micro_word.specs.Word.{limit, is_header_in_range};
ghost use Rattle.micro_word.specs.Reading.{format_at};

/// The most words of a text.
pub const MAX_WORDS: usize = 1_024;

/// The most rows of a text.
pub const MAX_ROWS: u16 = 4_096;

/// The bytes of a word file before its first word.
pub const HEADER_BYTES: usize = 16;

/// The bytes of a word in its file.
pub const WORD_BYTES: usize = 4;

/// The format of a word file, our own choice.
#[derive(Clone, Copy, Debug, PartialEq, Eq)]
pub enum Format {
    /// `NMP1`: numbers of 16 bits.
    One,
    /// `NMP2`: `get`, `put` and `seek` carry 24 bits, and the buffer may be as long.
    Two,
}

impl Format {
    // The format whose four bytes come first in a file.
    pub(crate) fn of(bytes: &[u8]) -> Option<Format>
        ensures { result ≡ format_at bytes.now }
    {
        if bytes.starts_with(b"NMP1") {
            return Some(Format::One);
        }
        if bytes.starts_with(b"NMP2") {
            return Some(Format::Two);
        }
        None
    }

    /// The greatest buffer in bytes, and the greatest number of a `get`, `put` or `seek`.
    pub fn limit(self) -> u32
        ensures { result ≡ limit self }
    {
        match self {
            Format::One => 65_535,
            Format::Two => 16_777_215,
        }
    }

    // Whether the numbers of a header are in range.
    pub(crate) fn is_header_in_range(self, rows: u16, buffer: u32) -> bool
        ensures { result ≡ is_header_in_range self rows buffer }
    {
        1 <= rows && rows <= MAX_ROWS && buffer <= self.limit()
    }
}
