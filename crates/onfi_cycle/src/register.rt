//! What a LUN's register holds.
ghost use Rattle.std.specs.Prelude.{◌≡◌};
ghost use Rattle.onfi_cycle.specs.Rules.{register_len, is_empty, is_page_or_parameters};

use crate::PageAddress;
use nand_geometry::Geometry;

/// The bytes of the register after a Read Parameter Page: three copies of the page.
pub const PARAMETER_BYTES: u32 = 768;

/// The bytes of the register after a Read ID.
pub const IDENTIFIER_BYTES: u32 = 4;

/// The bytes of the register after a Read ID with the address 00h.
pub const IDENTITY_BYTES: u32 = 8;

/// The bytes of the register after a Read ID with the address 40h.
pub const JEDEC_BYTES: u32 = 6;

/// The bytes of the register after a Read Unique ID: sixteen times the identifier and its complement.
pub const UNIQUE_ID_BYTES: u32 = 512;

/// The bytes of a feature.
const FEATURES_BYTES: u32 = 4;

/// What a LUN's register holds.
#[derive(Clone, Copy, Debug, PartialEq, Eq)]
pub enum Register {
    Empty,
    /// A page of the array.
    Page(PageAddress),
    /// Three copies of the parameter page.
    ParameterPage,
    /// The identifier, 4F 4E 46 49.
    Identifier,
    /// The manufacturer and the device.
    Identity,
    /// `JEDEC`, and a zero.
    JedecIdentity,
    /// Sixteen times the unique identifier and its complement.
    UniqueId,
    /// The four bytes of the feature of this address.
    Features(u8),
}

impl Register {
    /// How many bytes it has.
    pub fn len(self, geometry: &Geometry) -> u32
        ensures { result ≡ register_len geometry.now self }
    {
        match self {
            Register::Empty => 0,
            Register::Page(_) => geometry.page_len(),
            Register::ParameterPage => PARAMETER_BYTES,
            Register::Identifier => IDENTIFIER_BYTES,
            Register::Identity => IDENTITY_BYTES,
            Register::JedecIdentity => JEDEC_BYTES,
            Register::UniqueId => UNIQUE_ID_BYTES,
            Register::Features(_) => FEATURES_BYTES,
        }
    }

    /// It holds nothing.
    pub fn is_empty(self) -> bool
        ensures { result ≡ is_empty self }
    {
        matches!(self, Register::Empty)
    }

    /// A Change Read Column may choose a byte of it.
    pub fn has_columns(self) -> bool
        ensures { result ≡ is_page_or_parameters self }
    {
        matches!(
            self,
            Register::Page(_) | Register::ParameterPage | Register::UniqueId
        )
    }
}
