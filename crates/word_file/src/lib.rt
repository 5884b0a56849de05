//! A word file read in place: one word or another, in time that hangs on no other word. It takes no memory.
//!
//! What is read of a file that [`micro_word::read`] reads are the words of that text; a file that isn't whole is read as far as it can be.
#![tactic(auto)]

pub mod laws;
mod word;

pub use word::{WordMissing, continues_cache_read, word_in};
