//! One word of a file.
ghost use Rattle.std.specs.Prelude.{◌≡◌, ℕ, ◌<◌, IfOk};
ghost use Rattle.micro_word.specs.Word.{IsInRange};
ghost use Rattle.micro_word.specs.declared.format.Format.{Format as FormatValue};
ghost use Rattle.word_file.specs.Words.{word_in, is_continuing, continues};

use micro_word::{HEADER_BYTES, Header, WORD_BYTES, Word, WordRefusal};

/// Why a word can't be read.
#[derive(Clone, Copy, Debug, PartialEq, Eq)]
pub enum WordMissing {
    /// The header or the word has a fault.
    Fault(WordRefusal),
    /// The file has fewer words.
    PastTheEnd,
}

/// The word of this number, counted from 0.
pub fn word_in(file: &[u8], at: usize) -> Result<Word, WordMissing>
    ensures value { result ≡ word_in file.now at }
    ensures range { IfOk result (λ word. (format : FormatValue) × (words : ℕ) × IsInRange format words word) }
    ensures inside { IfOk result (λ word. at < 1024) }
{
    let header = match Header::of(file) {
        Err(refusal) => return Err(WordMissing::Fault(refusal)),
        Ok(header) => header,
    };
    if usize::from(header.words) <= at {
        return Err(WordMissing::PastTheEnd);
    }
    let (_, rest) = file.split_at(HEADER_BYTES + WORD_BYTES * at);
    match header.read_word(at, rest) {
        Err(refusal) => Err(WordMissing::Fault(refusal)),
        Ok(word) => Ok(word),
    }
}

// Whether a word puts 31h on the bus, which continues a cache read.
fn is_continuing(word: Result<Word, WordMissing>) -> bool
    ensures { result ≡ is_continuing word }
{
    matches!(word, Ok(Word::Command { byte: 0x31 }))
}

/// Whether a word of the file continues a cache read: `cmd 31`.
pub fn continues_cache_read(file: &[u8], words: u16) -> bool
    ensures { result ≡ continues file.now 0 words }
{
    for at in 0..usize::from(words) {
        if is_continuing(word_in(file, at)) {
            return true;
        }
    }
    false
}
