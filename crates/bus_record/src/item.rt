//! An item of a trace as numbers.
ghost use Rattle.std.specs.Prelude.{◌≡◌, IfSome};
ghost use Rattle.onfi_cycle.specs.Sequence.{target_of};
ghost use Rattle.bus_record.specs.Item.{failures_of, item_of, kind_of};

use onfi_cycle::{Cycle, Failures, Item, Kind};

/// An item of a trace, as a line of its text has it: `kind` is the letter C, A, I, O, R or Y, and `byte` the byte of a cycle or the LUN that becomes ready.
/// `fail` is 1 for a ready after work that failed, else 0. In the profile onfi a ready has 2 more where the page before failed, and the array ready of a cache
/// program that failed has 1.
#[repr(C)]
#[derive(Clone, Copy, Default)]
pub struct OnfiseqItem {
    pub ce: u8,
    pub kind: u8,
    pub byte: u8,
    pub fail: u8,
}

/// The kind of cycle of a letter, C, A, I or O.
pub fn kind_of(letter: u8) -> Option<Kind>
    ensures { result ≡ kind_of letter }
{
    match letter {
        b'C' => Some(Kind::Cmd),
        b'A' => Some(Kind::Adr),
        b'I' => Some(Kind::Din),
        b'O' => Some(Kind::Dout),
        _ => None,
    }
}

// The failures of a ready.
fn failures_of(number: u8) -> Failures
    ensures { result ≡ failures_of number }
{
    Failures {
        last: number == 1 || number == 3,
        before: number >= 2,
    }
}

impl OnfiseqItem {
    /// The item that the numbers stand for in the wider profile or the base one, if they are one.
    #[inline(always)]
    pub fn item(&self, wide: bool) -> Option<Item>
        ensures value { result ≡ item_of wide self.now }
        ensures target { IfSome result (λ i. target_of i ≡ self.now.ce) }
    {
        match self.kind {
            b'R' if self.fail <= (if wide { 3 } else { 1 }) => Some(Item::Rdy {
                ce: self.ce,
                lun: self.byte,
                fail: failures_of(self.fail),
            }),
            b'Y' if self.fail <= u8::from(wide) => Some(Item::Ard {
                ce: self.ce,
                lun: self.byte,
                fail: self.fail == 1,
            }),
            letter if self.fail == 0 => match kind_of(letter) {
                Some(kind) => Some(Item::Cyc(Cycle {
                    ce: self.ce,
                    kind,
                    byte: self.byte,
                })),
                None => None,
            },
            _ => None,
        }
    }
}
