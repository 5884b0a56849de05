//! The time in front of an item of a recorded text.

ghost use Rattle.std.specs.Prelude.{◌≡◌};
ghost use Rattle.std.specs.Option.{option_copied};
ghost use Rattle.trace_text.specs.Recorded.{with_digit, number, time_text};

// A decimal number after one digit more.
fn with_digit(number: u64, digit: u8) -> Option<u64>
    ensures { result ≡ with_digit number digit }
{
    match digit {
        b'0'..=b'9' => number.checked_mul(10)?.checked_add(u64::from(digit - b'0')),
        _ => None,
    }
}

// The decimal number that a text is.
pub(crate) fn number(text: &[u8]) -> Option<u64>
    ensures { result ≡ number text.now }
{
    if text.is_empty() {
        return None;
    }
    let mut number = 0;
    for byte in text {
        number = with_digit(number, *byte)?;
    }
    Some(number)
}

// What stands behind the `@` of a word that is to be a time.
pub(crate) fn time_text(word: &[u8]) -> Option<&[u8]>
    ensures { option_copied result ≡ time_text word.entry.now }
{
    match word {
        [b'@', digits @ ..] => Some(digits),
        _ => None,
    }
}
