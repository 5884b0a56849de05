//! What a copy of a parameter page declares (ONFI 4.x, Parameter Page Data Structure Definition).

ghost use Rattle.std.specs.Prelude.{◌≡◌, ◌+◌, ◌≤◌, ◌<◌, length};
ghost use Rattle.nand_geometry.specs.Reading.{has_bit, u16_at, u32_at, is_signed, is_sound, has_double_rate, optional_by, declared_by, declared_as, has_wide_bus, has_address_cycles, has_lun_operations};

use crate::checksum::checksum;
use crate::writing::flag;
use crate::{Optional, Parts, Profile};
use byteorder::{ByteOrder, LittleEndian};

/// How many bytes a copy of the parameter page has.
pub const COPY_LEN: usize = 256;

/// Where the checksum stands, after the bytes that it is of.
pub const CHECKSUM_PLACE: usize = 254;

/// The bit is set, counted from the least significant.
#[tactic(auto, using(std::proofs::lemmas::Nat::Bits::shr_and_one))]
fn has_bit(byte: u8, bit: u32) -> bool
    requires { bit < 8 }
    ensures { result ≡ has_bit byte bit }
{
    byte >> bit & 1 == 1
}

fn u16_at(copy: &[u8], place: usize) -> u16
    requires { place + 2 ≤ length copy.now }
    ensures { result ≡ u16_at copy.now place }
{
    LittleEndian::read_u16(&copy[place..])
}

fn u32_at(copy: &[u8], place: usize) -> u32
    requires { place + 4 ≤ length copy.now }
    ensures { result ≡ u32_at copy.now place }
{
    LittleEndian::read_u32(&copy[place..])
}

/// The copy begins with the signature `ONFI`.
#[tactic(auto, unfolding(crate::specs::Reading::is_signed))]
pub fn is_signed(copy: &[u8]) -> bool
    requires { length copy.now ≡ COPY_LEN }
    ensures { result ≡ is_signed copy.now }
{
    copy.starts_with(b"ONFI")
}

/// The copy ends with the checksum of its other bytes.
#[tactic(auto, unfolding(crate::specs::Reading::is_sound))]
pub fn is_sound(copy: &[u8]) -> bool
    requires { length copy.now ≡ COPY_LEN }
    ensures { result ≡ is_sound copy.now }
{
    let (covered, _) = copy.split_at(CHECKSUM_PLACE);
    u16_at(copy, CHECKSUM_PLACE) == checksum(covered)
}

/// A bus of 16 bits is declared.
pub fn has_wide_bus(copy: &[u8]) -> bool
    requires { length copy.now ≡ COPY_LEN }
    ensures { result ≡ has_wide_bus copy.now }
{
    has_bit(copy[6], 0)
}

/// Two address bytes of the column and three of the row are declared.
pub fn has_address_cycles(copy: &[u8]) -> bool
    requires { length copy.now ≡ COPY_LEN }
    ensures { result ≡ has_address_cycles copy.now }
{
    copy[101] == 0x23
}

/// Operations of several LUNs are declared.
pub fn has_lun_operations(copy: &[u8]) -> bool
    requires { length copy.now ≡ COPY_LEN }
    ensures { result ≡ has_lun_operations copy.now }
{
    has_bit(copy[6], 1)
}

/// An interface of double data rate is declared: NV-DDR, NV-DDR2 or NV-DDR3.
fn has_double_rate(copy: &[u8]) -> bool
    requires { length copy.now ≡ COPY_LEN }
    ensures { result ≡ has_double_rate copy.now }
{
    has_bit(copy[6], 5) || has_bit(copy[7], 2) || has_bit(copy[7], 5)
}

/// What the copy declares beyond the base profile.
#[tactic(auto, unfolding(crate::specs::Reading::optional_by))]
fn optional_by(copy: &[u8]) -> Optional
    requires { length copy.now ≡ COPY_LEN }
    ensures { result ≡ optional_by copy.now }
{
    Optional(
        Optional::WIDE.0
            + flag(0, has_bit(copy[8], 0))
            + flag(2, has_bit(copy[8], 2))
            + flag(4, has_bit(copy[8], 4))
            + flag(5, has_bit(copy[8], 5))
            + flag(6, has_bit(copy[8], 6))
            + flag(9, has_bit(copy[9], 1))
            + flag(10, has_bit(copy[6], 6))
            + flag(11, has_double_rate(copy))
            + flag(12, has_bit(copy[114], 1))
            + flag(13, has_bit(copy[6], 4))
            + flag(14, has_bit(copy[114], 2)),
    )
}

/// The numbers that the copy declares, in the base profile.
#[tactic(auto, unfolding(crate::specs::Reading::declared_by))]
fn declared_by(copy: &[u8]) -> Parts
    requires { length copy.now ≡ COPY_LEN }
    ensures { result ≡ declared_by copy.now }
{
    Parts {
        page_bytes: u32_at(copy, 80),
        spare_bytes: u32::from(u16_at(copy, 84)),
        pages: u32_at(copy, 92),
        blocks: u32_at(copy, 96),
        luns: copy[100],
        plane_bits: copy[113] % 16,
        enhanced: has_bit(copy[8], 3),
        multi_plane: has_bit(copy[6], 3),
        cache: has_bit(copy[8], 1),
        optional: Optional::NONE,
    }
}

/// The numbers that the copy declares, in a profile.
pub fn declared_as(profile: Profile, copy: &[u8]) -> Parts
    requires { length copy.now ≡ COPY_LEN }
    ensures { result ≡ declared_as profile copy.now }
{
    let declared = declared_by(copy);
    match profile {
        Profile::Base => declared,
        Profile::Onfi => Parts {
            optional: optional_by(copy),
            ..declared
        },
    }
}
