//! What the LUN may show.
ghost use Rattle.std.specs.Prelude.{⊤, ◌≡◌, [], ◌∷◌, codes};
ghost use Rattle.micro_claims.specs.Joins.{both_know, joined_shown};
ghost use Rattle.micro_claims.specs.Order.{is_shows_within};
ghost use Rattle.micro_claims.specs.State.{shows_status, shows_register};

use bitflags::{Flag, Flags, bitflag_items};

/// What the LUN may show, being the one driver of its target.
#[derive(Clone, Copy)]
pub struct Shown(pub u8);

bitflag_items! {
    impl Shown: u8 {
        const STATUS = 1;
        const REGISTER = 2;
    }
}

impl Flags for Shown {
    type Bits = u8;

    ghost exact = { ⊤ };

    ghost table = { (codes "STATUS", 1) ∷ (codes "REGISTER", 2) ∷ [] };

    ghost set_of = { λ w. w.0 };

    fn flags<'a>() -> &'a [Flag<Shown>] {
        Shown::FLAGS
    }

    fn bits(&self) -> u8 {
        self.0
    }

    fn from_bits_retain(bits: u8) -> Shown {
        Shown(bits)
    }
}

// Others may have the bus, and drive.
pub(crate) const ANY_DRIVER: Option<Shown> = None;

pub(crate) const STATUS_SHOWN: Option<Shown> = Some(Shown::STATUS);

pub(crate) const DATA_SHOWN: Option<Shown> = Some(Shown::REGISTER);

impl Shown {
    /// It may show its status.
    pub fn shows_status(self) -> bool
        ensures { result ≡ shows_status self }
    {
        self.contains(Shown::STATUS)
    }

    /// It may show its register.
    pub fn shows_register(self) -> bool
        ensures { result ≡ shows_register self }
    {
        self.contains(Shown::REGISTER)
    }

    pub(crate) fn join(self, other: Shown) -> Shown
        ensures { result ≡ joined_shown self other }
    {
        self.union(other)
    }
}

pub(crate) fn is_shows_within(one: Option<Shown>, other: Option<Shown>) -> bool
    ensures { result ≡ is_shows_within one other }
{
    match (one, other) {
        (_, None) => true,
        (None, Some(_)) => false,
        (Some(one), Some(other)) => other.contains(one),
    }
}

pub(crate) fn joined_shows(one: Option<Shown>, other: Option<Shown>) -> Option<Shown>
    ensures { result ≡ both_know joined_shown one other }
{
    match (one, other) {
        (Some(one), Some(other)) => Some(one.join(other)),
        _ => None,
    }
}
