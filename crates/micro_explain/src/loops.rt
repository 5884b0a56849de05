//! The loops of a text.

use micro_word::Word;

/// A turn of a loop: from the word after its `loop` to its `next`.
#[derive(Clone, Copy)]
pub struct Turn {
    /// The place of the first word in the loop.
    pub head: usize,
    /// The place of its `next`.
    pub next: usize,
}

/// The place of the `loop` of the innermost loop around a word.
pub fn loop_around(words: &[Word], at: usize) -> Option<usize> {
    let mut depth = 0usize;
    for place in (0..at.min(words.len())).rev() {
        match words.get(place) {
            Some(Word::Next) => depth = depth.saturating_add(1),
            Some(Word::Loop { .. }) if depth == 0 => return Some(place),
            Some(Word::Loop { .. }) => depth = depth.saturating_sub(1),
            _ => {}
        }
    }
    None
}

/// The place of the `next` of the innermost loop around a word.
pub fn next_around(words: &[Word], at: usize) -> Option<usize> {
    let mut depth = 0usize;
    for place in at..words.len() {
        match words[place] {
            Word::Loop { .. } => depth = depth.saturating_add(1),
            Word::Next if depth == 0 => return Some(place),
            Word::Next => depth = depth.saturating_sub(1),
            _ => {}
        }
    }
    None
}

/// The turn of the innermost loop around a word.
pub fn turn_around(words: &[Word], at: usize) -> Option<Turn> {
    Some(Turn {
        head: loop_around(words, at)?.saturating_add(1),
        next: next_around(words, at)?,
    })
}
