//! The times that a parameter page declares (ONFI 4.x, Parameter Page Data Structure Definition).
ghost use Rattle.std.specs.Prelude.{◌≡◌, ◌≤◌, ◌+◌, length};
ghost use Rattle.nand_geometry.specs.Reading.{u16_at, is_signed, is_sound, is_good};
ghost use Rattle.trace_timing.specs.PageTimes.{times_at, times_in};

use byteorder::{ByteOrder, LittleEndian};
use nand_geometry::checksum::checksum;

// How many bytes a copy of the page has.
const COPY_LEN: usize = 256;

// Where its checksum stands.
const CHECKSUM_PLACE: usize = 254;

/// The times that a parameter page declares; 0 for what it doesn't say.
#[derive(Clone, Copy, Debug, PartialEq, Eq)]
pub struct PageTimes {
    /// Bit N is set where timing mode N is there (bytes 129 and 130).
    pub modes: u16,
    /// tPROG, in microseconds (133, 134).
    pub program_us: u16,
    /// tBERS, in microseconds (135, 136).
    pub erase_us: u16,
    /// tR, in microseconds (137, 138).
    pub read_us: u16,
    /// tCCS, in nanoseconds (139, 140).
    pub column_ns: u16,
}

// A number of two bytes.
fn number_at(copy: &[u8], place: usize) -> u16
    requires { place + 2 ≤ length copy.now }
    ensures { result ≡ u16_at copy.now place }
{
    LittleEndian::read_u16(&copy[place..])
}

// The copy begins with the signature `ONFI`.
#[tactic(auto, unfolding(nand_geometry::specs::Reading::is_signed))]
fn is_signed(copy: &[u8]) -> bool
    ensures { result ≡ is_signed copy.now }
{
    copy.starts_with(b"ONFI")
}

// It ends with the checksum of its other bytes.
#[tactic(auto, unfolding(nand_geometry::specs::Reading::is_sound))]
fn is_sound(copy: &[u8]) -> bool
    requires { length copy.now ≡ COPY_LEN }
    ensures { result ≡ is_sound copy.now }
{
    let (covered, _) = copy.split_at(CHECKSUM_PLACE);
    number_at(copy, CHECKSUM_PLACE) == checksum(covered)
}

// It can be used.
fn is_good(copy: &[u8]) -> bool
    requires { length copy.now ≡ COPY_LEN }
    ensures { result ≡ is_good copy.now }
{
    is_signed(copy) && is_sound(copy)
}

impl PageTimes {
    /// A page that says none.
    pub const NONE: PageTimes = PageTimes {
        modes: 0,
        program_us: 0,
        erase_us: 0,
        read_us: 0,
        column_ns: 0,
    };

    // Those of a copy.
    fn of_copy(copy: &[u8]) -> PageTimes
        requires { length copy.now ≡ COPY_LEN }
        ensures { result ≡ times_at copy.now }
    {
        PageTimes {
            modes: number_at(copy, 129),
            program_us: number_at(copy, 133),
            erase_us: number_at(copy, 135),
            read_us: number_at(copy, 137),
            column_ns: number_at(copy, 139),
        }
    }

    /// Those of a page: of the copy that [`nand_geometry::Geometry::read`] reads, the first whose signature and checksum are right.
    pub fn read(page: &[u8]) -> PageTimes
        ensures { result ≡ times_in page.now }
    {
        let mut rest = page;
        'copies: while COPY_LEN <= rest.len() {
            let (copy, behind) = rest.split_at(COPY_LEN);
            if is_good(copy) {
                return PageTimes::of_copy(copy);
            }
            rest = behind;
        }
        PageTimes::NONE
    }
}
