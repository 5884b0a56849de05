//! The lines of a text.

use crate::fields::Fields;

/// A line of a text, counted from 1, without its line feed; empty if there is none.
pub fn line_at(text: &str, line: usize) -> &str {
    let mut left = line;
    for piece in text.split('\n') {
        if left <= 1 {
            return piece;
        }
        left -= 1;
    }
    ""
}

/// How many lines with fields stand before this line of a text, counted from 1.
pub fn lines_before(text: &str, line: usize) -> usize {
    let mut count: usize = 0;
    let mut left = line;
    for piece in text.split('\n') {
        if left <= 1 {
            return count;
        }
        left -= 1;
        if Fields::of(piece).get(0).is_some() {
            count = count.saturating_add(1);
        }
    }
    count
}
