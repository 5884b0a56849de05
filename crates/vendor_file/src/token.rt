//! The words of a line.
ghost use Rattle.std.specs.Prelude.{◌≡◌, ◌<◌, ◌≤◌, IfSome};
ghost use Rattle.vendor_file.specs.Tokens.{digit_of, byte_with, byte_of, within, count_of, some_of, address_is, address_token, data_token, ready_token, command_token, token_of};

use crate::step::Step;
use micro_asm::number_of;

/// What a word stands for: a step, and how often it comes.
#[derive(Clone, Copy)]
pub(crate) struct Token {
    pub(crate) step: Step,
    pub(crate) count: usize,
}

// A hexadecimal digit in lower case.
fn digit_of(byte: u8) -> Option<u8>
    ensures value { result ≡ digit_of byte }
    ensures below { IfSome result (λ n. n < 16) }
{
    match byte {
        b'0'..=b'9' => Some(byte - b'0'),
        b'a'..=b'f' => Some(byte - b'a' + 10),
        _ => None,
    }
}

fn byte_with(high: u8, low: Option<u8>) -> Option<u8>
    requires high { high < 16 }
    requires low { IfSome low (λ n. n < 16) }
    ensures { result ≡ byte_with high low }
{
    match low {
        None => None,
        Some(low) => Some(16 * high + low),
    }
}

/// Two of them.
pub(crate) fn byte_of(text: &[u8]) -> Option<u8>
    ensures { result ≡ byte_of text.now }
{
    match text {
        [first, second] => match digit_of(*first) {
            None => None,
            Some(high) => byte_with(high, digit_of(*second)),
        },
        _ => None,
    }
}

fn within(most: u64, number: Option<u64>) -> Option<u64>
    ensures value { result ≡ within most number }
    ensures most { IfSome result (λ n. n ≤ most) }
{
    match number {
        Some(number) if 1 <= number && number <= most => Some(number),
        _ => None,
    }
}

// A number from 1 to this; none is 1.
fn count_of(most: u64, text: &[u8]) -> Option<u64>
    ensures { result ≡ count_of most text.now }
{
    match text {
        [] => Some(1),
        [_, ..] => within(most, number_of(text)),
    }
}

fn some_of(step: Step, count: Option<u64>) -> Option<Token>
    ensures { result ≡ some_of step count }
{
    match count {
        None => None,
        Some(count) => Some(Token {
            step,
            count: count as usize,
        }),
    }
}

fn once(step: Step) -> Option<Token>
    ensures { result ≡ some_of step (Some 1) }
{
    Some(Token { step, count: 1 })
}

fn address_is(byte: Option<u8>) -> Option<Token>
    ensures { result ≡ address_is byte }
{
    match byte {
        None => None,
        Some(byte) => once(Step::Address(byte)),
    }
}

// What stands behind an `A`.
fn address_token(text: &[u8]) -> Option<Token>
    ensures { result ≡ address_token text.now }
{
    match text {
        [] => once(Step::AnyAddress),
        [b'=', byte @ ..] => address_is(byte_of(byte)),
        [_, ..] => some_of(Step::AnyAddress, count_of(9, text)),
    }
}

// What stands behind an `I` or an `O`.
fn data_token(one: Step, many: Step, text: &[u8]) -> Option<Token>
    ensures { result ≡ data_token one many text.now }
{
    match text {
        [] => once(one),
        [b'*'] => once(many),
        [_, ..] => some_of(one, count_of(9_999, text)),
    }
}

// What stands behind an `R`.
fn ready_token(text: &[u8]) -> Option<Token>
    ensures { result ≡ ready_token text.now }
{
    match text {
        [] => once(Step::Ready),
        [_, ..] => None,
    }
}

fn command_token(byte: Option<u8>) -> Option<Token>
    ensures { result ≡ command_token byte }
{
    match byte {
        None => None,
        Some(byte) => once(Step::Command(byte)),
    }
}

/// What a word stands for.
pub(crate) fn token_of(field: &[u8]) -> Option<Token>
    ensures { result ≡ token_of field.now }
{
    match field {
        [] => None,
        [b'A', text @ ..] => address_token(text),
        [b'I', text @ ..] => data_token(Step::Input, Step::Inputs, text),
        [b'O', text @ ..] => data_token(Step::Output, Step::Outputs, text),
        [b'R', text @ ..] => ready_token(text),
        [_, ..] => command_token(byte_of(field)),
    }
}
