//! The fields of a line: what stands between spaces and tabs.

ghost use Rattle.std.specs.Prelude.{◌≡◌, ◌<◌, [], ◌∷◌, IfSome, IfNone, length, Some, None};
ghost use Rattle.std.specs.List.{slice_split};
ghost use Rattle.std.specs.Option.{option_copied};
ghost use Rattle.memchr.specs.Find.{is_byte, is_byte2};
ghost use Rattle.micro_asm.specs.Line.{before_comment, fields, is_blank, one, two};

use memchr::{memchr, memchr2};

// What stands before the first blank, and after it.
fn cut_at_blank(text: &[u8]) -> Option<(&[u8], &[u8])>
    ensures some { IfSome result (λ x. slice_split is_blank text.entry.now ≡ x.0.now ∷ slice_split is_blank x.1.now) }
    ensures shorter { IfSome result (λ x. length x.1.now < length text.entry.now) }
    ensures none { IfNone result (slice_split is_blank text.entry.now ≡ text.entry.now ∷ []) }
{
    let at = memchr2(b' ', b'\t', text)?;
    let (_, after) = text.split_at(at + 1);
    Some((&text[..at], after))
}

/// The line without its comment.
pub fn before_comment(line: &[u8]) -> &[u8]
    ensures { result.now ≡ before_comment line.entry.now }
{
    match memchr(b';', line) {
        Some(at) => &line[..at],
        None => line,
    }
}

/// The first field, and what stands after it.
pub fn next_field(text: &[u8]) -> Option<(&[u8], &[u8])>
    ensures some { IfSome result (λ x. fields text.entry.now ≡ x.0.now ∷ fields x.1.now) }
    ensures none { IfNone result (fields text.entry.now ≡ []) }
{
    let mut rest = text;
    'blanks: while let Some((front, after)) = cut_at_blank(rest) {
        if !front.is_empty() {
            return Some((front, after));
        }
        rest = after;
    }
    if rest.is_empty() {
        None
    } else {
        Some((rest, &[]))
    }
}

/// The only field.
pub fn one_field(text: &[u8]) -> Option<&[u8]>
    ensures { option_copied result ≡ one (fields text.entry.now) }
{
    let (field, after) = next_field(text)?;
    match next_field(after) {
        Some(_) => None,
        None => Some(field),
    }
}

// The two fields, if there are just two.
pub(crate) fn two_fields(text: &[u8]) -> Option<(&[u8], &[u8])>
    ensures some { IfSome result (λ x. two (fields text.entry.now) ≡ Some (x.0.now, x.1.now)) }
    ensures none { IfNone result (two (fields text.entry.now) ≡ None) }
{
    let (field, after) = next_field(text)?;
    let second = one_field(after)?;
    Some((field, second))
}
