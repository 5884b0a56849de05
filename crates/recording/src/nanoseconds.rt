//! Times as people read them.

use std::fmt;

// Femtoseconds in a nanosecond, and in a microsecond.
const NANOSECOND: u64 = 1_000_000;

const MICROSECOND: u64 = 1_000_000_000;

/// A time of so many femtoseconds, in nanoseconds: decimal, without zeros at the end.
#[derive(Clone, Copy)]
pub struct Nanoseconds(pub u64);

/// The same in microseconds.
#[derive(Clone, Copy)]
pub(crate) struct Microseconds(pub(crate) u64);

/// A time in nanoseconds as a number of JSON, with one place behind the point at the least.
#[derive(Clone, Copy)]
pub struct JsonNanoseconds(pub u64);

// The places behind the point, as parts of a microsecond; those of a nanosecond begin with the fourth.
const PLACES: [u64; 9] = [
    100_000_000,
    10_000_000,
    1_000_000,
    100_000,
    10_000,
    1_000,
    100,
    10,
    1,
];

// Writes the places behind the point, without zeros at the end.
fn write_places<W: fmt::Write>(
    f: &mut fmt::Formatter<W>,
    part: u64,
    places: &[u64],
) -> fmt::Result {
    let mut left = part;
    for place in places {
        if left == 0 {
            return Ok(());
        }
        write!(f, "{}", left.checked_div(*place).unwrap_or(0))?;
        left = left.checked_rem(*place).unwrap_or(0);
    }
    Ok(())
}

impl fmt::Display for Nanoseconds {
    fn fmt<W: fmt::Write>(&self, f: &mut fmt::Formatter<W>) -> fmt::Result {
        let part = self.0 % NANOSECOND;
        write!(f, "{}", self.0 / NANOSECOND)?;
        if 0 < part {
            f.write_str(".")?;
            write_places(f, part, &PLACES[3..])?;
        }
        Ok(())
    }
}

impl fmt::Display for Microseconds {
    fn fmt<W: fmt::Write>(&self, f: &mut fmt::Formatter<W>) -> fmt::Result {
        let part = self.0 % MICROSECOND;
        write!(f, "{}", self.0 / MICROSECOND)?;
        if 0 < part {
            f.write_str(".")?;
            write_places(f, part, &PLACES)?;
        }
        Ok(())
    }
}

impl fmt::Display for JsonNanoseconds {
    fn fmt<W: fmt::Write>(&self, f: &mut fmt::Formatter<W>) -> fmt::Result {
        write!(f, "{}", Nanoseconds(self.0))?;
        if self.0 % NANOSECOND == 0 {
            f.write_str(".0")?;
        }
        Ok(())
    }
}
