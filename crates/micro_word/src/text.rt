//! Texts: the header and the words of a microprogram.

ghost use Rattle.std.specs.Prelude.{◌≡◌, ◌≤◌, ◌↔◌, length, All, IsOk, IfOk, IfErr};
ghost use Rattle.micro_word.specs.declared.format.Format.TheVariants.{Two};
ghost use Rattle.micro_word.specs.Text.{Microprogram, FitsFormat};
ghost use Rattle.micro_word.specs.Word.{IsInRange};
ghost use Rattle.micro_word.specs.Reading.{fault_of, out_of_range};

use crate::format::{Format, MAX_WORDS};
use crate::refusal::{WordFault, WordRefusal};
use crate::word::Word;
use std::alloc::{Allocator, Global};
use std::marker::Model;

/// A microprogram: its header and its words, every number in the range of format 2.
#[derive(Debug, Drop)]
pub struct Text<A: Allocator = Global> {
    rows: u16,
    buffer: u32,
    budget: u32,
    words: Vec<Word, A>,
}

/// Words that are no text: why, with the words handed back.
#[derive(Debug, Drop)]
pub struct WordsRefused<A: Allocator = Global> {
    pub refusal: WordRefusal,
    pub words: Vec<Word, A>,
}

impl<A: Allocator> Model for Text<A> {
    ghost use Rattle.micro_word.specs.declared.format.Format.TheVariants.{Two};
    ghost use Rattle.micro_word.specs.Text.{Microprogram, FitsFormat};

    ghost Value = { Microprogram };

    ghost view = { λ t. record { rows = t.rows; buffer = t.buffer; budget = t.budget; words = t.words.items } };

    ghost invariant = { λ t. FitsFormat Two (record { rows = t.rows; buffer = t.buffer; budget = t.budget; words = t.words.items }) };
}

impl<A: Allocator> Text<A> {
    /// The text of these numbers and words, if they fit format 2. Else its first fault: M3 for too many
    /// words, then M6 at word 0 for `rows` or `buffer`, then M6 at the first word with an operand out of
    /// range. A refusal hands the words back. Takes no memory.
    pub fn of(
        rows: u16,
        buffer: u32,
        budget: u32,
        words: Vec<Word, A>,
    ) -> Result<Text<A>, WordsRefused<A>>
        // Exactly what fits format 2 is a text.
        ensures accepted { let x : Microprogram = record { rows = rows; buffer = buffer; budget = budget; words = words.items } in
            IsOk result ↔ FitsFormat Two x }
        ensures value { let x : Microprogram = record { rows = rows; buffer = buffer; budget = budget; words = words.items } in
            IfOk result (λ text. text ≡ x) }
        ensures refused { IfErr result (λ refused. (fault_of rows buffer words.items ≡ Some refused.refusal)
            × (refused.words.items ≡ words.items)) }
    {
        match first_fault(rows, buffer, &words) {
            Some(refusal) => Err(WordsRefused { refusal, words }),
            None => Ok(Text::new(rows, buffer, budget, words)),
        }
    }

    // A text that is known to fit.
    pub(crate) fn new(rows: u16, buffer: u32, budget: u32, words: Vec<Word, A>) -> Text<A>
        requires { FitsFormat Two (record { rows = rows; buffer = buffer; budget = budget; words = words.items }) }
        ensures { result ≡ record { rows = rows; buffer = buffer; budget = budget; words = words.items } }
    {
        Text {
            rows,
            buffer,
            budget,
            words,
        }
    }

    /// How many rows the program may reach, counted from its base: 1 to 4,096.
    pub fn rows(&self) -> u16
        ensures value { result ≡ self.now.rows }
        ensures some { 1 ≤ result }
        ensures limit { result ≤ 4096 }
    {
        self.rows
    }

    /// The length of the buffer in bytes, at most 16,777,215.
    pub fn buffer(&self) -> u32
        ensures value { result ≡ self.now.buffer }
        ensures limit { result ≤ 16777215 }
    {
        self.buffer
    }

    /// How many bus cycles the program may cost.
    pub fn budget(&self) -> u32
        ensures { result ≡ self.now.budget }
    {
        self.budget
    }

    /// Where the words have their memory from.
    pub fn allocator(&self) -> &A {
        self.words.allocator()
    }

    /// The words, taken out of the text.
    pub fn into_words(self) -> Vec<Word, A>
        ensures { result.items ≡ self.words }
    {
        self.words
    }

    /// The words, at most 1,024, each with its operands in range.
    pub fn words(&self) -> &[Word]
        ensures value { result.now ≡ self.now.words }
        ensures fits { FitsFormat Two self.now }
        ensures in_range { All (IsInRange Two (length result.now)) result.now }
    {
        &self.words
    }
}

// A fault of a word.
pub(crate) fn fault(fault: WordFault, word: usize) -> WordRefusal
    ensures { result ≡ WordRefusal.Fault fault word }
{
    WordRefusal::Fault { fault, word }
}

// The first fault of a text.
#[tactic(auto, unfolding(crate::specs::Reading::fault_of))]
fn first_fault(rows: u16, buffer: u32, words: &[Word]) -> Option<WordRefusal>
    ensures { result ≡ fault_of rows buffer words.now }
{
    if words.len() > MAX_WORDS {
        return Some(fault(WordFault::TooManyWords, 0));
    }
    if !Format::Two.is_header_in_range(rows, buffer) {
        return Some(fault(WordFault::OutOfRange, 0));
    }
    match first_out_of_range(words) {
        Some(place) => Some(fault(WordFault::OutOfRange, place)),
        None => None,
    }
}

// The place of the first word with an operand out of range.
fn first_out_of_range(words: &[Word]) -> Option<usize>
    ensures { result ≡ out_of_range (length words.now) 0 words.now }
{
    for (place, word) in words.iter().enumerate() {
        if !word.is_in_range(Format::Two, words.len()) {
            return Some(place);
        }
    }
    None
}
