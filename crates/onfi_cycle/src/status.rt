//! The status byte of a LUN (ONFI 4.x, Status Field Definition).
ghost use Rattle.std.specs.Prelude.{⊤, ◌≡◌, ◌==◌, [], ◌∷◌, codes};
ghost use Rattle.std.specs.Int.RustNames.{bit_and};
ghost use Rattle.onfi_cycle.specs.Content.{status_byte};

use crate::Failures;
use bitflags::{Flag, Flags, bitflag_items};

/// The status byte of a LUN.
#[derive(Clone, Copy, PartialEq, Eq, Debug)]
pub struct Status(pub u8);

bitflag_items! {
    impl Status: u8 {
        const FAIL = 1;
        const FAILC = 2;
        const ARDY = 32;
        const RDY = 64;
        const WP_N = 128;
    }
}

impl Flags for Status {
    type Bits = u8;

    ghost exact = { ⊤ };

    ghost table = { (codes "FAIL", 1) ∷ (codes "FAILC", 2) ∷ (codes "ARDY", 32) ∷ (codes "RDY", 64) ∷ (codes "WP_N", 128) ∷ [] };

    ghost set_of = { λ s. s.0 };

    fn flags<'a>() -> &'a [Flag<Status>] {
        Status::FLAGS
    }

    fn bits(&self) -> u8 {
        self.0
    }

    fn from_bits_retain(bits: u8) -> Status {
        Status(bits)
    }
}

impl Status {
    /// The status of a LUN that is busy: WP_N alone.
    pub const BUSY: Status = Status(128);
    /// RDY too: the array alone is busy, after a cache read or a cache program.
    pub const ARRAY_BUSY: Status = Status(192);
    /// ARDY too.
    pub const READY: Status = Status(224);
    /// FAIL too: the last work failed.
    pub const FAILED: Status = Status(225);

    /// The status of a LUN that is busy or whose array is, or neither, and that tells of these failures.
    pub fn of(busy: bool, array_busy: bool, fail: Failures) -> Status
        ensures { result.0 ≡ status_byte busy array_busy fail.last fail.before }
    {
        let told = if fail.before { Status::FAILC.0 } else { 0 };
        if busy {
            Status::BUSY
        } else if array_busy {
            Status(Status::ARRAY_BUSY.0 + told)
        } else if fail.last {
            Status(Status::FAILED.0 + told)
        } else {
            Status(Status::READY.0 + told)
        }
    }

    /// What it tells of failures (FAIL and FAILC).
    pub fn failures(self) -> Failures
        ensures { result ≡ record { last = bit_and self.0 1 == 1; before = bit_and self.0 2 == 2 } }
    {
        Failures {
            last: self.contains(Status::FAIL),
            before: self.contains(Status::FAILC),
        }
    }

    /// The LUN is ready for another command (RDY).
    pub fn is_ready(self) -> bool
        ensures { result ≡ (bit_and self.0 64 == 64) }
    {
        self.contains(Status::RDY)
    }

    /// The array of the LUN is ready too (ARDY).
    pub fn is_array_ready(self) -> bool
        ensures { result ≡ (bit_and self.0 32 == 32) }
    {
        self.contains(Status::ARDY)
    }

    /// The last work of the LUN failed (FAIL).
    pub fn has_failed(self) -> bool
        ensures { result ≡ (bit_and self.0 1 == 1) }
    {
        self.contains(Status::FAIL)
    }
}
