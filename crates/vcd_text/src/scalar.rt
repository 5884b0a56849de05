//! Changes of one bit.
ghost use Rattle.std.specs.Prelude.{IfSome};
ghost use Rattle.vcd_text.specs.Scalars.{IsScalar};

use crate::tokens::is_bit;
use crate::words::is_blank;

/// A bit in front of its code, which has one character.
#[derive(Clone, Copy)]
pub(crate) struct Scalar<'a> {
    pub(crate) bits: &'a [u8],
    pub(crate) code: u8,
    /// What comes after them.
    pub(crate) rest: &'a [u8],
}

impl<'a> Scalar<'a> {
    /// That in the line which begins behind this text's first byte, a line feed.
    #[inline(always)]
    pub(crate) fn in_line(text: &'a [u8]) -> Option<Scalar<'a>>
        ensures { IfSome result (λ s. IsScalar text.entry.now s) }
    {
        let [feed, bit, code, blank, ..] = text else {
            return None;
        };
        if *feed != b'\n' || !is_bit(*bit) || is_blank(*code) || !is_blank(*blank) {
            return None;
        }
        let (_, line) = text.split_at(1);
        let (bits, behind) = line.split_at(1);
        let (_, rest) = behind.split_at(1);
        Some(Scalar {
            bits,
            code: *code,
            rest,
        })
    }
}
