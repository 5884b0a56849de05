//! What each code means, in words.
ghost use Rattle.std.specs.Prelude.{◌≤◌, length};

use arrayvec::ArrayString;
use micro_asm::AsmFault;
use micro_claims::Reason;
use micro_word::WordFault;
use nand_geometry::PageFault;
use onfi_cycle::Forbidden;
use placed_bytes::place_text;
use seq_core::JobFault;
use std::fmt::{Display, Write};
use trace_text::TraceFault;

// Words of a code: the longest have 130 bytes.
pub(crate) type Words = ArrayString<256>;

// The words of a fault, where there is one: what its Display writes.
pub(crate) fn shown<T: Display + Copy>(fault: Option<T>) -> Words {
    let mut words = Words::new();
    if let Some(fault) = fault {
        // The room is twice that of the longest.
        let _ = write!(words, "{fault}");
    }
    words
}

// Words that hang on no number.
pub(crate) fn spelt(text: &str) -> Words {
    let mut words = Words::new();
    let _ = words.try_push_str(text);
    words
}

// The words of an answer that has no number.
pub(crate) fn words_alone(letter: u8) -> &'static str {
    match letter {
        b'B' => "the buffer is too short",
        b'C' => "the outputs don't give so many bytes",
        b'H' => "another LUN has the bus",
        b'I' => "the numbers are no item",
        b'L' => "the word opens a fifth loop",
        b'N' => "the file has no such word",
        b'O' => "out of memory",
        b'R' => "the row of the address isn't there",
        b'T' => "the targets aren't 1 to 4",
        b'U' => "the text isn't UTF-8",
        b'W' => "the poll says busy, and the wait comes again",
        b'Y' => "the word is done, and the bus is let go",
        _ => "",
    }
}

// The words of a record that isn't taken.
pub(crate) fn words_of_record(number: u32) -> &'static str {
    match number {
        0 => "the record isn't one that a call left",
        1 => "the record has another size or version than the library",
        _ => "",
    }
}

// The fault of a trace's text with this number.
fn fault_of_number(number: u32) -> Option<TraceFault> {
    match number {
        1 => Some(TraceFault::BadShape),
        2 => Some(TraceFault::BadNumber),
        _ => None,
    }
}

// The words of an answer with this letter and number.
fn words_of(letter: u8, number: u32) -> Words {
    match letter {
        b'A' => shown(AsmFault::of_number(number)),
        b'D' => spelt(words_of_record(number)),
        b'E' if number <= 255 => spelt("the job has ended with this code"),
        b'F' => shown(Forbidden::of_number(number)),
        b'M' => shown(WordFault::of_number(number)),
        b'P' => shown(PageFault::of_number(number)),
        b'S' => shown(JobFault::of_number(number)),
        b'V' => shown(Reason::of_number(number)),
        b'X' => shown(fault_of_number(number)),
        _ if number == 0 => spelt(words_alone(letter)),
        _ => Words::new(),
    }
}

/// What a code means, its letter in the high byte and its number in the low one, in English: its words are written into the text, as many of their bytes as fit with a 0 behind them. The answer
/// counts the bytes of all the words, as `snprintf` does; it is 0 where no answer has this code.
#[unsafe(no_mangle)]
pub extern "C" fn onfiseq_words(code: u32, text: &mut [u8]) -> usize
    ensures { result ≤ 256 }
{
    let words = match u8::try_from(code / 256) {
        Ok(letter) => words_of(letter, code % 256),
        Err(_) => Words::new(),
    };
    place_text(words.as_bytes(), text);
    words.len()
}
