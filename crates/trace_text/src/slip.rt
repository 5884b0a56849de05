//! What is wrong with the form of a number.

use std::fmt;

// What is wrong with the form of a number.
#[derive(Clone, Copy)]
pub(crate) enum Slip {
    Sign,
    LeadingZero,
    TooLarge,
    UpperCase,
    OneDigit,
    Marked,
    NoNumber,
}

impl Slip {
    // Of a field that is to be one decimal digit.
    pub(crate) fn in_digit(field: &str) -> Slip {
        if field.starts_with(['+', '-']) {
            return Slip::Sign;
        }
        if field.is_empty() || !field.bytes().all(|byte| byte.is_ascii_digit()) {
            return Slip::NoNumber;
        }
        if field.len() > 1 && field.starts_with('0') {
            Slip::LeadingZero
        } else {
            Slip::TooLarge
        }
    }

    // Of a field that is to be two hexadecimal digits in lower case.
    pub(crate) fn in_byte(field: &str) -> Slip {
        if field.starts_with(['+', '-']) {
            return Slip::Sign;
        }
        if field.starts_with("0x") || field.starts_with("0X") || field.ends_with(['h', 'H']) {
            return Slip::Marked;
        }
        if field.is_empty() || !field.bytes().all(|byte| byte.is_ascii_hexdigit()) {
            return Slip::NoNumber;
        }
        match field.len() {
            1 => Slip::OneDigit,
            2 => Slip::UpperCase,
            _ => Slip::TooLarge,
        }
    }
}

impl fmt::Display for Slip {
    fn fmt<W: fmt::Write>(&self, f: &mut fmt::Formatter<W>) -> fmt::Result {
        f.write_str(match self {
            Slip::Sign => "has a sign",
            Slip::LeadingZero => "has a leading zero",
            Slip::TooLarge => "is too large",
            Slip::UpperCase => "is in upper case",
            Slip::OneDigit => "is one digit",
            Slip::Marked => "has more than its digits",
            Slip::NoNumber => "is no number",
        })
    }
}
