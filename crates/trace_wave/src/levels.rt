//! The level of a line as its character.
ghost use Rattle.std.specs.Prelude.{◌≡◌, ◌≤◌};
ghost use Rattle.trace_wave.specs.Levels.{bit, shown, is_at, bit_of, dq_bit, dq_bits, rule_bits};

/// 1 for a line that is high, 0 for one that is low.
#[inline(always)]
pub(crate) fn bit(high: bool) -> u8
    ensures { result ≡ bit high }
{
    if high { b'1' } else { b'0' }
}

/// The same, or x where it isn't known.
#[inline(always)]
pub(crate) fn shown(known: bool, high: bool) -> u8
    ensures { result ≡ shown known high }
{
    if known { bit(high) } else { b'x' }
}

/// The chip enable of this number is the one that is low.
#[inline(always)]
pub(crate) fn is_at(enabled: Option<u8>, n: u8) -> bool
    ensures { result ≡ is_at enabled n }
{
    match enabled {
        None => false,
        Some(ce) => ce == n,
    }
}

// The bit of this weight of a number.
#[inline(always)]
fn bit_of(number: u8, weight: u8) -> u8
    requires { 1 ≤ weight }
    ensures { result ≡ bit_of number weight }
{
    b'0' + number / weight % 2
}

// The level of the line of DQ that has this weight.
#[inline(always)]
fn dq_bit(dq: Option<u8>, weight: u8) -> u8
    requires { 1 ≤ weight }
    ensures { result ≡ dq_bit dq weight }
{
    match dq {
        None => b'z',
        Some(byte) => bit_of(byte, weight),
    }
}

/// The levels of DQ, the highest bit first.
pub(crate) fn dq_bits(dq: Option<u8>) -> [u8; 8]
    ensures { result ≡ dq_bits dq }
{
    [
        dq_bit(dq, 128),
        dq_bit(dq, 64),
        dq_bit(dq, 32),
        dq_bit(dq, 16),
        dq_bit(dq, 8),
        dq_bit(dq, 4),
        dq_bit(dq, 2),
        dq_bit(dq, 1),
    ]
}

/// The levels of the number of a rule, the highest bit first.
pub(crate) fn rule_bits(rule: u8) -> [u8; 5]
    ensures { result ≡ rule_bits rule }
{
    [
        bit_of(rule, 16),
        bit_of(rule, 8),
        bit_of(rule, 4),
        bit_of(rule, 2),
        bit_of(rule, 1),
    ]
}
