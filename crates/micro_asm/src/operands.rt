//! The forms of operands: numbers, bytes and labels.

ghost use Rattle.std.specs.Prelude.{◌≡◌, ◌<◌, ◌≤◌, IfSome, true, length};
ghost use Rattle.std.specs.List.{list_all};
ghost use Rattle.std.specs.Option.{option_copied};
ghost use Rattle.std.specs.Str.{all_ascii_digits};
ghost use Rattle.std.specs.Str.Parse.{digits_value};
ghost use Rattle.micro_asm.specs.Line.{number_of, hex_value, byte_of, is_letter, is_name_byte, is_label, label_of};

use std::str::from_utf8;

fn is_decimal(field: &[u8]) -> bool
    ensures { result ≡ all_ascii_digits field.now }
{
    for byte in field {
        if !byte.is_ascii_digit() {
            return false;
        }
    }
    true
}

// The most digits of a number.
const MAX_DIGITS: usize = 10;

// The number of at most ten digits.
fn value_of(field: &[u8]) -> u64
    requires decimal { all_ascii_digits field.now ≡ true }
    requires some { 0 < length field.now }
    requires short { length field.now ≤ 10 }
    ensures { result ≡ digits_value 10 field.now }
{
    let text = from_utf8(field).unwrap();
    text.parse::<u64>().unwrap()
}

/// A decimal number of one to ten digits.
#[tactic(auto, unfolding(crate::specs::Line::number_of))]
pub fn number_of(field: &[u8]) -> Option<u64>
    ensures { result ≡ number_of field.now }
{
    if !field.is_empty() && field.len() <= MAX_DIGITS && is_decimal(field) {
        Some(value_of(field))
    } else {
        None
    }
}

// The number of a hexadecimal digit of either case.
fn hex_value(digit: u8) -> Option<u8>
    ensures value { result ≡ hex_value digit }
    ensures below { IfSome result (λ n. n < 16) }
{
    match digit {
        b'0'..=b'9' => Some(digit - b'0'),
        b'A'..=b'F' => Some(digit - b'A' + 10),
        b'a'..=b'f' => Some(digit - b'a' + 10),
        _ => None,
    }
}

// A byte of two hexadecimal digits.
#[tactic(auto, unfolding(crate::specs::Line::byte_of))]
pub(crate) fn byte_of(field: &[u8]) -> Option<u8>
    ensures { result ≡ byte_of field.now }
{
    match field {
        [high, low] => Some(16 * hex_value(*high)? + hex_value(*low)?),
        _ => None,
    }
}

fn is_letter(byte: u8) -> bool
    ensures { result ≡ is_letter byte }
{
    matches!(byte, b'A'..=b'Z' | b'a'..=b'z')
}

// A letter, a digit or _.
fn is_name_byte(byte: u8) -> bool
    ensures { result ≡ is_name_byte byte }
{
    is_letter(byte) || matches!(byte, b'0'..=b'9' | b'_')
}

fn is_name(field: &[u8]) -> bool
    ensures { result ≡ list_all is_name_byte field.now }
{
    field.iter().all(|byte| is_name_byte(*byte))
}

// The most characters of a label's name.
const MAX_LABEL: usize = 32;

// The name of a label: a letter, then letters, digits or _, 32 characters at most.
#[tactic(auto, unfolding(crate::specs::Line::is_label))]
pub(crate) fn is_label(field: &[u8]) -> bool
    ensures { result ≡ is_label field.now }
{
    match field {
        [first, ..] => field.len() <= MAX_LABEL && is_letter(*first) && is_name(field),
        [] => false,
    }
}

// The name of the label in front of a colon.
#[tactic(auto, unfolding(crate::specs::Line::label_of))]
pub(crate) fn label_of(field: &[u8]) -> Option<&[u8]>
    ensures { option_copied result ≡ label_of field.entry.now }
{
    match field {
        [name @ .., b':'] if is_label(name) => Some(name),
        _ => None,
    }
}
