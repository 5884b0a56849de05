//! What the last closer of the LUN may be.
ghost use Rattle.std.specs.Prelude.{⊤, ◌≡◌, [], ◌∷◌, codes};
ghost use Rattle.micro_claims.specs.Joins.{joined_closer};
ghost use Rattle.micro_claims.specs.State.{may_be_30, may_be_31, may_be_other};

use bitflags::{Flag, Flags, bitflag_items};

/// What the last closer of the LUN may be: 30h, 31h, or another or none.
#[derive(Clone, Copy)]
pub struct LastCloser(pub u8);

bitflag_items! {
    impl LastCloser: u8 {
        const READ = 1;
        const CACHE = 2;
        const OTHER = 4;
    }
}

impl Flags for LastCloser {
    type Bits = u8;

    ghost exact = { ⊤ };

    ghost table = { (codes "READ", 1) ∷ (codes "CACHE", 2) ∷ (codes "OTHER", 4) ∷ [] };

    ghost set_of = { λ c. c.0 };

    fn flags<'a>() -> &'a [Flag<LastCloser>] {
        LastCloser::FLAGS
    }

    fn bits(&self) -> u8 {
        self.0
    }

    fn from_bits_retain(bits: u8) -> LastCloser {
        LastCloser(bits)
    }
}

impl LastCloser {
    /// 30h, or another or none, but not 31h.
    pub(crate) const ANY_BUT_CACHE: LastCloser = LastCloser(5);

    pub(crate) const ANY: LastCloser = LastCloser(7);

    /// It may be 30h.
    pub fn may_be_30(self) -> bool
        ensures { result ≡ may_be_30 self }
    {
        self.contains(LastCloser::READ)
    }

    /// It may be 31h.
    pub fn may_be_31(self) -> bool
        ensures { result ≡ may_be_31 self }
    {
        self.contains(LastCloser::CACHE)
    }

    /// It may be another, or none.
    pub fn may_be_other(self) -> bool
        ensures { result ≡ may_be_other self }
    {
        self.contains(LastCloser::OTHER)
    }

    pub(crate) fn join(self, other: LastCloser) -> LastCloser
        ensures { result ≡ joined_closer self other }
    {
        self.union(other)
    }
}
