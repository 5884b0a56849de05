//! Microprograms and their files: what a word is, what a text is, and the bytes of a word file.
//!
//! A text is a list of at most 1,024 words with a header of three numbers. Each word is one of 17
//! kinds, and its operands are in range. A word file comes in two formats: `NMP1`, whose numbers have
//! 16 bits, and `NMP2`, in which `get`, `put` and `seek` carry 24 bits. Both are read, and format 2 is
//! written. The words and the two formats are this project's own.
#![tactic(auto)]

mod code;
mod format;
mod header;
pub mod laws;
mod reading;
mod refusal;
mod text;
mod word;
mod writing;

pub use format::{Format, HEADER_BYTES, MAX_ROWS, MAX_WORDS, WORD_BYTES};
pub use header::Header;
pub use reading::read;
pub use refusal::{WordFault, WordRefusal};
pub use text::{Text, WordsRefused};
pub use word::Word;
pub use writing::{formats_differ_in_one_byte, write};
