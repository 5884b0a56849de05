//! What 1 of a time of a CSV is.
ghost use Rattle.std.specs.Prelude.{◌≡◌, ◌+◌, ◌<◌, ◌^◌, length};

use crate::fields::{Fields, separator_of};
use crate::rows::{Row, Rows};
use crate::table::{Columns, columns_of, find_names};
use crate::times::{is_in_seconds, is_text};

// Femtoseconds.
const PICOSECOND: u64 = 1_000;

const NANOSECOND: u64 = 1_000_000;

const MICROSECOND: u64 = 1_000_000_000;

const MILLISECOND: u64 = 1_000_000_000_000;

const SECOND: u64 = 1_000_000_000_000_000;

// The unit that stands in brackets at the end of a name, as in `Time [ns]`.
fn unit_marked(name: &[u8]) -> Option<u64> {
    let (_, end) = name.split_at(name.len().saturating_sub(4));
    match end {
        [b'(' | b'[', letter, b's', b')' | b']'] => match *letter {
            b'p' => Some(PICOSECOND),
            b'n' => Some(NANOSECOND),
            b'u' => Some(MICROSECOND),
            b'm' => Some(MILLISECOND),
            _ => None,
        },
        _ => None,
    }
}

// The unit that the name of a column of times says.
fn unit_named(name: &[u8]) -> Option<u64> {
    if is_text(name, "nanoseconds") {
        return Some(NANOSECOND);
    }
    if is_text(name, "microseconds") {
        return Some(MICROSECOND);
    }
    if is_text(name, "milliseconds") {
        return Some(MILLISECOND);
    }
    if is_text(name, "seconds") {
        return Some(SECOND);
    }
    unit_marked(name)
}

// The first field of a row.
fn first_field(row: Row<'_>, separator: u8) -> &[u8] {
    Fields::of(row.text)
        .next_field(separator)
        .unwrap_or_default()
}

// The time of the first row, or of the second where the first has a plain 0.
fn first_time<'a>(rows: &mut Rows<'a>, separator: u8) -> Option<&'a [u8]>
    requires room { rows.old.line + length rows.old.rest.now < 2 ^ 64 }
{
    let first = first_field(rows.next_values()?, separator);
    if is_text(first, "0") {
        let second = first_field(rows.next_values()?, separator);
        return Some(second);
    }
    Some(first)
}

/// How many femtoseconds 1 of a time of this CSV is, as [`Body::next_event`](crate::Body::next_event) tells it, if the CSV says it. Times in seconds and those of samples of a known
/// rate are told in picoseconds; other times are told as they stand, in the unit that the name of their column says.
pub fn find_unit(text: &[u8]) -> Option<u64> {
    let mut rows = Rows::of(text);
    let headed = find_names(&mut rows)?;
    let separator = separator_of(headed.text);
    let Columns { form, .. } = columns_of(headed.heading(), separator, headed.text);
    if !form.has_times {
        return if form.rate > 0 {
            Some(PICOSECOND)
        } else {
            None
        };
    }
    let is_told_in_seconds = match first_time(&mut rows, separator) {
        Some(time) => is_in_seconds(form.in_seconds, time),
        None => form.in_seconds,
    };
    if is_told_in_seconds {
        return Some(PICOSECOND);
    }
    let name = Fields::of(headed.text).next_field(separator)?;
    unit_named(name)
}
