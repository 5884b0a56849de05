//! Numbers of a CSV: the time of a row, and a sample rate.
ghost use Rattle.std.specs.Prelude.{◌≡◌, ◌+◌, ◌*◌, ◌-◌, ◌/◌, ◌<◌, ◌≤◌, ◌^◌, true, length, IfSome};
ghost use Rattle.std.specs.List.{position_or_len};
ghost use Rattle.std.specs.Str.{bytes_eq};
ghost use Rattle.std.specs.Option.{option_map};
ghost use Rattle.vcd_text.specs.Tokens.{is_digit};
ghost use Rattle.csv_text.specs.Times.{is_point, is_exponent, fraction_from, scaled, number_of, smaller_unit, unit_of, with_exponent, is_in_seconds, size_of, before_origin, from_origin, moment_of, hertz_in, rate_of, below_limit, sample_time};

use crate::fields::{from_place, place_of_either, trim};
use vcd_text::decimal;

// Picoseconds in a second.
const SECOND: u64 = 1_000_000_000_000;

// More than this isn't counted.
const MOST: u64 = 18_446_743_000_000_000_000;

/// A time: how long before a trigger, or how long after the beginning or a trigger.
#[derive(Clone, Copy, Debug, PartialEq, Eq)]
pub struct Moment {
    pub is_negative: bool,
    pub size: u64,
}

// Where the point is, or how many bytes there are.
fn point_at(text: &[u8]) -> usize
    ensures value { result ≡ position_or_len is_point text.now }
    ensures within { result ≤ length text.now }
{
    place_of_either(b'.', b',', text)
}

// Where the letter of an exponent is, or how many bytes there are.
fn exponent_at(text: &[u8]) -> usize
    ensures value { result ≡ position_or_len is_exponent text.now }
    ensures within { result ≤ length text.now }
{
    place_of_either(b'e', b'E', text)
}

fn is_digit(byte: u8) -> bool
    ensures { result ≡ is_digit byte }
{
    byte >= b'0' && byte <= b'9'
}

// A number with one digit more that counts so much.
fn with_digit(so_far: u64, weight: u64, digit: u8) -> u64
    requires digit { is_digit digit ≡ true }
    requires room { so_far + 10 * weight < 2 ^ 64 }
    ensures value { result ≡ so_far + weight * (digit - 48) }
    ensures room { result + 10 * (weight / 10) ≤ so_far + 10 * weight }
{
    so_far + weight * u64::from(digit - b'0')
}

// A number with the digits behind its point, of which the first counts so much.
fn with_fraction(whole: u64, unit: u64, digits: &[u8]) -> Option<u64>
    requires whole { whole ≤ 18446743000000000000 }
    requires unit { unit ≤ 1000000000000 }
    ensures { result ≡ fraction_from whole (unit / 10) digits.now }
{
    let mut so_far = whole;
    let mut weight = unit / 10;
    for byte in digits {
        if !is_digit(*byte) {
            return None;
        }
        so_far = with_digit(so_far, weight, *byte);
        weight /= 10;
    }
    Some(so_far)
}

// Whole ones that count so much each, and the digits behind their point.
fn scaled(unit: u64, whole: u64, digits: &[u8]) -> Option<u64>
    requires unit { unit ≤ 1000000000000 }
    ensures { result ≡ scaled unit whole digits.now }
{
    match unit.checked_mul(whole) {
        Some(whole) if whole <= MOST => with_fraction(whole, unit, digits),
        _ => None,
    }
}

// A number with a point or without, whose ones count so much.
fn number_of(unit: u64, text: &[u8]) -> Option<u64>
    requires unit { unit ≤ 1000000000000 }
    ensures { result ≡ number_of unit text.now }
{
    let at = point_at(text);
    let (whole, _) = text.split_at(at);
    match decimal(whole) {
        None => None,
        Some(whole) => scaled(unit, whole, from_place(text, at)),
    }
}

// Picoseconds that a power of ten of seconds below one is.
fn smaller_unit(exponent: u64) -> Option<u64>
    ensures value { result ≡ smaller_unit exponent }
    ensures below { IfSome result (λ unit. unit ≤ 1000000000000) }
{
    match exponent {
        0 => Some(1_000_000_000_000),
        1 => Some(100_000_000_000),
        2 => Some(10_000_000_000),
        3 => Some(1_000_000_000),
        4 => Some(100_000_000),
        5 => Some(10_000_000),
        6 => Some(1_000_000),
        7 => Some(100_000),
        8 => Some(10_000),
        9 => Some(1_000),
        10 => Some(100),
        11 => Some(10),
        12 => Some(1),
        _ => None,
    }
}

// The same of the text of an exponent.
fn unit_of(text: &[u8]) -> Option<u64>
    ensures value { result ≡ unit_of text.now }
    ensures below { IfSome result (λ unit. unit ≤ 1000000000000) }
{
    match text {
        [b'-', digits @ ..] => match decimal(digits) {
            None => None,
            Some(exponent) => smaller_unit(exponent),
        },
        _ => None,
    }
}

// Seconds with an exponent at this place, as picoseconds.
fn with_exponent(text: &[u8], at: usize) -> Option<u64>
    requires at { at ≡ position_or_len is_exponent text.now }
    requires within { at ≤ length text.now }
    ensures { result ≡ with_exponent text.now }
{
    let (front, _) = text.split_at(at);
    match unit_of(from_place(text, at)) {
        None => None,
        Some(unit) => number_of(unit, front),
    }
}

/// Whether a time is in seconds: as all of its column are, or because it has a point or an exponent.
pub(crate) fn is_in_seconds(in_seconds: bool, text: &[u8]) -> bool
    ensures { result ≡ is_in_seconds in_seconds text.now }
{
    in_seconds || point_at(text) < text.len() || exponent_at(text) < text.len()
}

// A time without a sign.
fn size_of(in_seconds: bool, text: &[u8]) -> Option<u64>
    ensures { result ≡ size_of in_seconds text.now }
{
    let at = exponent_at(text);
    if at < text.len() {
        return with_exponent(text, at);
    }
    if in_seconds || point_at(text) < text.len() {
        number_of(SECOND, text)
    } else {
        decimal(text)
    }
}

fn before_origin(size: Option<u64>) -> Option<Moment>
    ensures { result ≡ option_map before_origin size }
{
    match size {
        None => None,
        Some(size) => Some(Moment {
            is_negative: true,
            size,
        }),
    }
}

fn from_origin(size: Option<u64>) -> Option<Moment>
    ensures { result ≡ option_map from_origin size }
{
    match size {
        None => None,
        Some(size) => Some(Moment {
            is_negative: false,
            size,
        }),
    }
}

/// The time that a field is. With a point or an exponent (`1.5e-06`), and in a column of seconds, it is seconds below 18,446,744, as picoseconds, of which
/// what is less than one is cut; else a whole number of at most 19 digits, of a unit of its own. With a minus in front it is before a trigger.
pub fn moment_of(in_seconds: bool, text: &[u8]) -> Option<Moment>
    ensures { result ≡ moment_of in_seconds text.now }
{
    match text {
        [] => None,
        [b'-', after @ ..] => before_origin(size_of(in_seconds, after)),
        _ => from_origin(size_of(in_seconds, text)),
    }
}

/// The text is this word.
pub(crate) fn is_text(text: &[u8], word: &str) -> bool
    ensures { result ≡ bytes_eq text.now word.now }
{
    text == word.as_bytes()
}

// How many hertz a unit is.
fn hertz_in(unit: &[u8]) -> Option<u64>
    ensures value { result ≡ hertz_in unit.now }
    ensures below { IfSome result (λ unit. unit ≤ 1000000000000) }
{
    if is_text(unit, "") || is_text(unit, "Hz") {
        return Some(1);
    }
    if is_text(unit, "kHz") {
        return Some(1_000);
    }
    if is_text(unit, "MHz") {
        return Some(1_000_000);
    }
    if is_text(unit, "GHz") {
        return Some(1_000_000_000);
    }
    None
}

/// A sample rate: a number and its unit, as in `24 MHz`.
pub(crate) fn rate_of(text: &[u8]) -> Option<u64>
    ensures { result ≡ rate_of text.now }
{
    let at = place_of_either(b' ', b'\t', text);
    let (number, _) = text.split_at(at);
    match hertz_in(trim(from_place(text, at))) {
        None => None,
        Some(unit) => number_of(unit, number),
    }
}

/// A time that can be told.
pub(crate) fn below_limit(time: u128) -> Option<u64>
    ensures { result ≡ below_limit time }
{
    if time < 18_446_744_073_709_551_616 {
        Some(time as u64)
    } else {
        None
    }
}

/// The time of the sample of this number, by how many there are in a second.
pub(crate) fn sample_time(rate: u64, count: u64) -> Option<u64>
    ensures { result ≡ sample_time rate count }
{
    if rate == 0 {
        return Some(count);
    }
    below_limit(u128::from(count) * u128::from(SECOND) / u128::from(rate))
}
