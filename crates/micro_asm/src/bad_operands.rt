//! Operands that a word doesn't take.

use crate::names::{Name, name_of};
use crate::operands::{byte_of, number_of};
use crate::takes::{count_operands, takes};
use shown_text::{Fields, Shown};
use std::fmt;

// What is wrong with the operands of a line.
#[derive(Clone, Copy)]
pub(crate) enum BadOperands<'a> {
    // The line begins with no word.
    NoWord,
    // There are too few.
    Missing {
        name: Name,
    },
    // This one is more than the word takes.
    Extra {
        name: Name,
        operand: &'a str,
    },
    // This one isn't decimal.
    NotDecimal {
        name: Name,
        operand: &'a str,
    },
    // This one isn't a byte.
    NotByte {
        name: Name,
        operand: &'a str,
    },
    // The byte has more about it than its digits.
    MarkedByte {
        word: &'a str,
        digits: &'a str,
        label: &'a str,
    },
    // The byte has one digit.
    OneDigit {
        word: &'a str,
        digit: &'a str,
        label: &'a str,
    },
    // One is out of range.
    OutOfRange {
        name: Name,
    },
}

impl<'a> BadOperands<'a> {
    // What is wrong with the form of this line's operands.
    pub(crate) fn in_form(line: &'a str) -> BadOperands<'a> {
        let fields = Fields::of(line);
        let Some(name) = name_in(fields) else {
            return BadOperands::NoWord;
        };
        let wanted = count_operands(name);
        if fields.count() <= wanted {
            return BadOperands::Missing { name };
        }
        match fields.get(wanted.saturating_add(1)) {
            Some(operand) => BadOperands::Extra { name, operand },
            None => malformed(fields, name),
        }
    }

    // Which name's range this line's operands are out of.
    pub(crate) fn in_range(line: &'a str) -> BadOperands<'a> {
        match name_in(Fields::of(line)) {
            Some(name) => BadOperands::OutOfRange { name },
            None => BadOperands::NoWord,
        }
    }
}

// The name with which a line begins.
fn name_in(fields: Fields<'_>) -> Option<Name> {
    name_of(true, fields.get(0)?.as_bytes())
}

// The operand without its form, of as many as the name takes.
fn malformed(fields: Fields<'_>, name: Name) -> BadOperands<'_> {
    let first = fields.get(1).unwrap_or("");
    match name {
        Name::Address if number_of(first.as_bytes()).is_some() => BadOperands::NotDecimal {
            name,
            operand: fields.get(2).unwrap_or(""),
        },
        Name::Address | Name::Number(_) | Name::Bare(_) | Name::Jump => BadOperands::NotDecimal {
            name,
            operand: first,
        },
        Name::Command | Name::Branch => bad_byte(fields, name, first),
    }
}

// A byte without its form.
fn bad_byte<'a>(fields: Fields<'a>, name: Name, operand: &'a str) -> BadOperands<'a> {
    let word = fields.get(0).unwrap_or("");
    let label = fields.get(2).unwrap_or("");
    let digits = digits_of(operand);
    if byte_of(digits.as_bytes()).is_some() {
        return BadOperands::MarkedByte {
            word,
            digits,
            label,
        };
    }
    if is_digit(digits) {
        return BadOperands::OneDigit {
            word,
            digit: digits,
            label,
        };
    }
    BadOperands::NotByte { name, operand }
}

// The digits of a hexadecimal number as other languages write it: `0x60`, `60h` or `$60`.
fn digits_of(operand: &str) -> &str {
    let front = strip_mark(operand);
    match front.strip_suffix(['h', 'H']) {
        Some(digits) => digits,
        None => front,
    }
}

// What stands after the mark in front of a hexadecimal number.
fn strip_mark(operand: &str) -> &str {
    for mark in ["0x", "0X", "$"] {
        if let Some(digits) = operand.strip_prefix(mark) {
            return digits;
        }
    }
    operand
}

fn is_digit(digits: &str) -> bool {
    match digits.as_bytes() {
        [digit] => digit.is_ascii_hexdigit(),
        _ => false,
    }
}

// Writes a branch or command as it is to be.
fn write_mended<W: fmt::Write>(
    f: &mut fmt::Formatter<W>,
    word: &str,
    zero: &str,
    digits: &str,
    label: &str,
) -> fmt::Result {
    let blank = if label.is_empty() { "" } else { " " };
    write!(f, ": write `{word} {zero}{digits}{blank}{label}`")
}

impl fmt::Display for BadOperands<'_> {
    fn fmt<W: fmt::Write>(&self, f: &mut fmt::Formatter<W>) -> fmt::Result {
        match self {
            BadOperands::NoWord => f.write_str("no word"),
            BadOperands::Missing { name } => {
                write!(f, "an operand is missing: {}", takes(*name))
            }
            BadOperands::Extra { name, operand } => {
                write!(
                    f,
                    "`{}` is one operand too many: {}",
                    Shown::line(operand),
                    takes(*name)
                )
            }
            BadOperands::NotDecimal { name, operand } => {
                write!(
                    f,
                    "`{}` is no decimal number of 1 to 10 digits: {}",
                    Shown::line(operand),
                    takes(*name)
                )
            }
            BadOperands::NotByte { name, operand } => {
                write!(f, "`{}` is no byte: {}", Shown::line(operand), takes(*name))
            }
            BadOperands::MarkedByte {
                word,
                digits,
                label,
            } => {
                f.write_str("a byte is its two hexadecimal digits alone")?;
                write_mended(f, word, "", digits, label)
            }
            BadOperands::OneDigit { word, digit, label } => {
                f.write_str("a byte is two hexadecimal digits")?;
                write_mended(f, word, "0", digit, label)
            }
            BadOperands::OutOfRange { name } => f.write_str(takes(*name)),
        }
    }
}
