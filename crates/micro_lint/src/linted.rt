//! A text with what is known before its words.

use crate::facts::{Facts, facts_at};
use micro_word::Word;

/// The words of a text with what is known before them.
#[derive(Clone, Copy)]
pub(crate) struct Linted<'a> {
    pub words: &'a [Word],
    pub facts: &'a [Option<Facts>],
    /// The target has several LUNs.
    pub several_luns: bool,
}

impl Linted<'_> {
    /// What is known before the word at a place, where some way leads to it.
    pub(crate) fn facts_at(&self, at: usize) -> Option<Facts> {
        facts_at(self.facts, at)
    }
}
