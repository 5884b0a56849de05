//! Times.
ghost use Rattle.std.specs.Prelude.{◌≡◌, ◌≤◌, Some, length, take, IfSome};
ghost use Rattle.vcd_text.specs.Tokens.{decimal_from};
ghost use Rattle.vcd_text.specs.Timed.{IsNumber, IsTimed};

use crate::tokens::is_digit;
use crate::words::is_blank;

/// A time, and what comes after it.
#[derive(Clone, Copy)]
pub(crate) struct Timed<'a> {
    pub(crate) time: u64,
    pub(crate) digits: &'a [u8],
    pub(crate) rest: &'a [u8],
}

impl<'a> Timed<'a> {
    // The number whose digits stand at the front of this text.
    #[inline(always)]
    fn of(text: &'a [u8]) -> Option<Timed<'a>>
        ensures { IfSome result (λ t. IsNumber text.entry.now t) }
    {
        let mut time = 0u64;
        let mut count = 0;
        'digits: while count < text.len() && is_digit(text[count]) {
            if time >= 1_000_000_000_000_000_000 {
                return None;
            }
            time = 10 * time + u64::from(text[count] - b'0');
            count += 1;
        }
        if count == 0 {
            return None;
        }
        let (digits, rest) = text.split_at(count);
        Some(Timed { time, digits, rest })
    }

    /// That in the line which begins behind this text's first byte, a line feed.
    #[inline(always)]
    pub(crate) fn in_line(text: &'a [u8]) -> Option<Timed<'a>>
        ensures { IfSome result (λ t. IsTimed text.entry.now t) }
    {
        let [feed, mark, ..] = text else {
            return None;
        };
        if *feed != b'\n' || *mark != b'#' {
            return None;
        }
        let (_, number) = text.split_at(2);
        let timed = Timed::of(number)?;
        let [blank, ..] = timed.rest else {
            return None;
        };
        if is_blank(*blank) { Some(timed) } else { None }
    }
}
