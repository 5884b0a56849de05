//! Sets of planes.
ghost use Rattle.std.specs.Prelude.{⊤, ◌≡◌, ◌==◌, ◌&&◌, not, [], ◌∷◌, codes};
ghost use Rattle.micro_claims.specs.Planes.{greatest_plane, no_planes, just_plane, either_plane, common_planes, other_planes, is_one_plane, sure_plane, are_planes_within, share_a_plane, are_below};

use bitflags::{Flag, Flags, bitflag_items};

/// Some of the four numbers that a plane may have: the bit of each is its plane's.
#[derive(Clone, Copy)]
pub struct Planes(pub u8);

bitflag_items! {
    impl Planes: u8 {
        const ZERO = 1;
        const ONE = 2;
        const TWO = 4;
        const THREE = 8;
    }
}

impl Flags for Planes {
    type Bits = u8;

    ghost exact = { ⊤ };

    ghost table = { (codes "ZERO", 1) ∷ (codes "ONE", 2) ∷ (codes "TWO", 4) ∷ (codes "THREE", 8) ∷ [] };

    ghost set_of = { λ p. p.0 };

    fn flags<'a>() -> &'a [Flag<Planes>] {
        Planes::FLAGS
    }

    fn bits(&self) -> u8 {
        self.0
    }

    fn from_bits_retain(bits: u8) -> Planes {
        Planes(bits)
    }
}

impl Planes {
    /// Each plane that there may be.
    pub(crate) const ANY: Planes = Planes(15);

    /// No plane.
    pub fn none() -> Planes
        ensures { result ≡ no_planes }
    {
        Planes(0)
    }

    /// The plane of this number alone.
    pub fn just(plane: u8) -> Planes
        ensures { result ≡ just_plane plane }
    {
        if plane < 4 {
            Planes(1 << plane)
        } else {
            Planes(0)
        }
    }

    /// The planes of both.
    pub fn or(self, other: Planes) -> Planes
        ensures { result ≡ either_plane self other }
    {
        self.union(other)
    }

    /// The planes that are in both.
    pub fn and(self, other: Planes) -> Planes
        ensures { result ≡ common_planes self other }
    {
        self.intersection(other)
    }

    /// Those of the second that aren't in these.
    pub fn others(self, other: Planes) -> Planes
        ensures { result ≡ other_planes self other }
    {
        Planes(other.0 & 15u8.saturating_sub(self.0))
    }

    /// It is one plane.
    pub fn is_one(self) -> bool
        ensures { result ≡ is_one_plane self }
    {
        self.0 == 1 || self.0 == 2 || self.0 == 4 || self.0 == 8
    }

    // The plane of which it is sure that it is meant, where one of these is.
    pub(crate) fn sure(self) -> Planes
        ensures { result ≡ sure_plane self }
    {
        if self.is_one() { self } else { Planes::none() }
    }

    /// There are several.
    pub fn are_several(self) -> bool
        ensures { result ≡ (not (self.0 == 0) && not (is_one_plane self)) }
    {
        self.0 != 0 && !self.is_one()
    }

    /// The greatest of them; 0 where none is greater.
    pub fn greatest(self) -> u8
        ensures { result ≡ greatest_plane self }
    {
        if self.contains(Planes::THREE) {
            3
        } else if self.contains(Planes::TWO) {
            2
        } else if self.contains(Planes::ONE) {
            1
        } else {
            0
        }
    }

    /// Some plane is in both.
    pub fn meet(self, other: Planes) -> bool
        ensures { result ≡ share_a_plane self other }
    {
        self.intersects(other)
    }

    /// Each of them is one of the first so many.
    pub fn are_below(self, count: u32) -> bool
        ensures { result ≡ are_below count self }
    {
        count >= 8 || self.0 >> count == 0
    }

    /// Each of them is one of the others.
    pub fn are_within(self, other: Planes) -> bool
        ensures { result ≡ are_planes_within self other }
    {
        other.contains(self)
    }
}
