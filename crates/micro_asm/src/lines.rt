//! The lines of a text.

ghost use Rattle.std.specs.Prelude.{◌≡◌, ◌<◌, [], ◌∷◌, IfSome, IfNone, length};
ghost use Rattle.micro_asm.specs.Reading.{lines, last_word};

use crate::line::begins_word;
use memchr::memchr;

/// The first line, and what stands after it.
pub fn next_line(text: &[u8]) -> Option<(&[u8], &[u8])>
    ensures some { IfSome result (λ x. lines text.entry.now ≡ x.0.now ∷ lines x.1.now) }
    ensures shorter { IfSome result (λ x. length x.1.now < length text.entry.now) }
    ensures none { IfNone result (lines text.entry.now ≡ []) }
{
    match memchr(b'\n', text) {
        Some(at) => {
            let (_, after) = text.split_at(at + 1);
            Some((&text[..at], after))
        }
        None if text.is_empty() => None,
        None => Some((text, &[])),
    }
}

// The number of the last line that begins with a word's name, or 0.
pub(crate) fn last_word(text: &[u8]) -> usize
    ensures { result ≡ last_word 0 1 (lines text.now) }
{
    let mut found = 0;
    let mut line = 1;
    let mut rest = text;
    'lines: while let Some((front, after)) = next_line(rest) {
        if begins_word(front) {
            found = line;
        }
        line += 1;
        rest = after;
    }
    found
}
