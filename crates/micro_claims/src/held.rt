//! What the register of the LUN may hold.
ghost use Rattle.std.specs.Prelude.{⊤, ◌≡◌, [], ◌∷◌, codes, if◌then◌else◌, None};
ghost use Rattle.micro_claims.specs.Against.{holds_short, long_length_of, length_of};
ghost use Rattle.micro_claims.specs.Joins.{both_know, joined_held};
ghost use Rattle.micro_claims.specs.Leaves.{may_be_reads, page_register};
ghost use Rattle.micro_claims.specs.Order.{is_register_within};
ghost use Rattle.micro_claims.specs.State.{holds_page, holds_parameters, holds_identifier, holds_identity, holds_jedec, holds_unique_id, holds_feature};

use crate::queued_rows::QueuedRows;
use bitflags::{Flag, Flags, bitflag_items};
use nand_geometry::Geometry;
use onfi_cycle::{
    FEATURE_BYTES, IDENTIFIER_BYTES, IDENTITY_BYTES, JEDEC_BYTES, PARAMETER_BYTES, UNIQUE_ID_BYTES,
};

/// What the register of the LUN may hold.
#[derive(Clone, Copy)]
pub struct Held(pub u8);

bitflag_items! {
    impl Held: u8 {
        const PAGE = 1;
        const PARAMETERS = 2;
        const IDENTIFIER = 4;
        const IDENTITY = 8;
        const JEDEC = 16;
        const UNIQUE_ID = 32;
        const FEATURE = 64;
    }
}

impl Flags for Held {
    type Bits = u8;

    ghost exact = { ⊤ };

    ghost table = { (codes "PAGE", 1) ∷ (codes "PARAMETERS", 2) ∷ (codes "IDENTIFIER", 4) ∷ (codes "IDENTITY", 8) ∷ (codes "JEDEC", 16) ∷ (codes "UNIQUE_ID", 32) ∷ (codes "FEATURE", 64) ∷ [] };

    ghost set_of = { λ r. r.0 };

    fn flags<'a>() -> &'a [Flag<Held>] {
        Held::FLAGS
    }

    fn bits(&self) -> u8 {
        self.0
    }

    fn from_bits_retain(bits: u8) -> Held {
        Held(bits)
    }
}

pub(crate) const PAGE_HELD: Option<Held> = Some(Held::PAGE);

impl Held {
    /// It may hold a page.
    pub fn holds_page(self) -> bool
        ensures { result ≡ holds_page self }
    {
        self.contains(Held::PAGE)
    }

    /// It may hold the parameter page.
    pub fn holds_parameters(self) -> bool
        ensures { result ≡ holds_parameters self }
    {
        self.contains(Held::PARAMETERS)
    }

    /// It may hold the identifier.
    pub fn holds_identifier(self) -> bool
        ensures { result ≡ holds_identifier self }
    {
        self.contains(Held::IDENTIFIER)
    }

    /// It may hold the identity that 90h reads at the address 00h.
    pub fn holds_identity(self) -> bool
        ensures { result ≡ holds_identity self }
    {
        self.contains(Held::IDENTITY)
    }

    /// It may hold the identity that 90h reads at the address 40h.
    pub fn holds_jedec(self) -> bool
        ensures { result ≡ holds_jedec self }
    {
        self.contains(Held::JEDEC)
    }

    /// It may hold the unique identifier.
    pub fn holds_unique_id(self) -> bool
        ensures { result ≡ holds_unique_id self }
    {
        self.contains(Held::UNIQUE_ID)
    }

    /// It may hold a feature.
    pub fn holds_feature(self) -> bool
        ensures { result ≡ holds_feature self }
    {
        self.contains(Held::FEATURE)
    }

    /// It may hold what 05h doesn't read: neither a page nor the parameter page nor the unique identifier.
    pub fn holds_short(self) -> bool
        ensures { result ≡ holds_short self }
    {
        self.holds_identifier()
            || self.holds_identity()
            || self.holds_jedec()
            || self.holds_feature()
    }

    // The least length of a page or the parameter page, in bytes.
    fn long_length(self, geometry: &Geometry) -> u32
        ensures { result ≡ long_length_of geometry.now self }
    {
        if !self.holds_page() {
            PARAMETER_BYTES
        } else if self.holds_parameters() {
            geometry.page_len().min(PARAMETER_BYTES)
        } else {
            geometry.page_len()
        }
    }

    /// The least length that the register may have, in bytes.
    pub fn least_length(self, geometry: &Geometry) -> u32
        ensures { result ≡ length_of geometry.now self }
    {
        if self.holds_identifier() {
            IDENTIFIER_BYTES
        } else if self.holds_feature() {
            FEATURE_BYTES as u32
        } else if self.holds_jedec() {
            JEDEC_BYTES
        } else if self.holds_identity() {
            IDENTITY_BYTES
        } else if self.holds_unique_id() {
            UNIQUE_ID_BYTES
        } else {
            self.long_length(geometry)
        }
    }

    pub(crate) fn join(self, other: Held) -> Held
        ensures { result ≡ joined_held self other }
    {
        self.union(other)
    }
}

pub(crate) fn is_register_within(one: Option<Held>, other: Option<Held>) -> bool
    ensures { result ≡ is_register_within one other }
{
    match (one, other) {
        (_, None) => true,
        (None, Some(_)) => false,
        (Some(one), Some(other)) => other.contains(one),
    }
}

pub(crate) fn joined_registered(one: Option<Held>, other: Option<Held>) -> Option<Held>
    ensures { result ≡ both_know joined_held one other }
{
    match (one, other) {
        (Some(one), Some(other)) => Some(one.join(other)),
        _ => None,
    }
}

// The register behind a read, with these rows queued before it: where reads were, no page is selected.
pub(crate) fn register_read(queue: QueuedRows) -> Option<Held>
    ensures { result ≡ if may_be_reads queue then None else page_register }
{
    if queue.may_be_reads() {
        None
    } else {
        PAGE_HELD
    }
}
