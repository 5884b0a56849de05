//! The words in a box.

use std::fmt;

/// A word of the label of a box.
#[derive(Clone, Copy, Debug, PartialEq, Eq)]
pub enum Word {
    /// What is done.
    Name(&'static str),
    /// A LUN: `L1`.
    Lun(u32),
    /// A block: `b12`.
    Block(u32),
    /// A page: `p3`.
    Page(u32),
    /// So many inputs: `+40`.
    Inputs(usize),
    /// A number alone.
    Count(usize),
}

/// How many digits a number has; a number above a thousand million counts as 20 digits.
pub(crate) fn digits(number: u64) -> usize {
    match number {
        0..=9 => 1,
        10..=99 => 2,
        100..=999 => 3,
        1_000..=9_999 => 4,
        10_000..=99_999 => 5,
        100_000..=999_999 => 6,
        1_000_000..=9_999_999 => 7,
        10_000_000..=99_999_999 => 8,
        100_000_000..=999_999_999 => 9,
        _ => 20,
    }
}

impl Word {
    /// How many characters it has.
    pub(crate) fn width(self) -> usize {
        match self {
            Word::Name(name) => name.len(),
            Word::Lun(number) | Word::Block(number) | Word::Page(number) => {
                digits(u64::from(number)).saturating_add(1)
            }
            Word::Inputs(count) => digits(count as u64).saturating_add(1),
            Word::Count(count) => digits(count as u64),
        }
    }
}

impl fmt::Display for Word {
    fn fmt<W: fmt::Write>(&self, f: &mut fmt::Formatter<W>) -> fmt::Result {
        match *self {
            Word::Name(name) => f.write_str(name),
            Word::Lun(number) => write!(f, "L{number}"),
            Word::Block(number) => write!(f, "b{number}"),
            Word::Page(number) => write!(f, "p{number}"),
            Word::Inputs(count) => write!(f, "+{count}"),
            Word::Count(count) => write!(f, "{count}"),
        }
    }
}
