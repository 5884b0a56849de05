//! Parameter pages written and read, and pages of a fixed generator against a slow look at the rules.

ghost use Rattle.std.specs.Prelude.{◌<◌, ◌≤◌, ◌+◌, length};

use crate::geometry_tests::{LARGEST, ONE_LUN, TWO_LUNS};
use nand_geometry::checksum::checksum;
use nand_geometry::{Geometry, PageFault, Parts};
use std::process::Abort;
use std::test::Fail;

/// The checksum, bit by bit.
fn slow_checksum(bytes: &[u8]) -> u16 {
    let mut register: u16 = 0x4f4e;
    for byte in bytes {
        for mask in [0x80, 0x40, 0x20, 0x10, 0x08, 0x04, 0x02, 0x01] {
            let comes_in = *byte & mask != 0;
            let falls_out = register & 0x8000 != 0;
            register <<= 1;
            if comes_in != falls_out {
                register ^= 0x8005;
            }
        }
    }
    register
}

/// The copy with the checksum of its other bytes.
fn sealed(mut copy: [u8; 256]) -> [u8; 256] {
    let (covered, _) = copy.split_at(254);
    let sum = slow_checksum(covered);
    copy[254] = (sum % 256) as u8;
    copy[255] = (sum / 256) as u8;
    copy
}

fn with_byte(mut copy: [u8; 256], place: u8, byte: u8) -> [u8; 256] {
    copy[usize::from(place)] = byte;
    copy
}

/// The page of two LUNs of 8 blocks of 4 pages of 512 + 16 bytes in two planes, with 78h and multi-plane.
fn two_luns_by_hand() -> [u8; 256] {
    let mut copy = [0; 256];
    copy[..10].copy_from_slice(&[0x4f, 0x4e, 0x46, 0x49, 0, 0, 0x0a, 0, 0x08, 0]);
    copy[80..86].copy_from_slice(&[0x00, 0x02, 0x00, 0x00, 0x10, 0x00]);
    copy[92..102].copy_from_slice(&[4, 0, 0, 0, 8, 0, 0, 0, 2, 0x23]);
    copy[113] = 1;
    sealed(copy)
}

const CHECKSUMS: &[(&str, u16)] = &[("", 0x4f4e), ("ON", 0x0000), ("ONFI", 0x15b3)];

fn read_parts(bytes: &[u8]) -> Result<Parts, PageFault> {
    let geometry = Geometry::read(bytes)?;
    Ok(geometry.parts())
}

#[test]
fn checksums_known_by_hand(rt: HostRuntime) {
    for (text, sum) in CHECKSUMS {
        assert_eq!(rt; checksum(text.as_bytes()), *sum, "{text}");
    }
}

const CACHED: Parts = Parts {
    cache: true,
    ..LARGEST
};

// Single bytes of written pages, by their places.
const WRITTEN: &[(Parts, u8, u8)] = &[
    // One LUN declares no operations of several LUNs, and this one no other feature.
    (ONE_LUN, 6, 0),
    (ONE_LUN, 7, 0),
    (ONE_LUN, 8, 0),
    (ONE_LUN, 9, 0),
    (CACHED, 6, 0x0a),
    (CACHED, 8, 0x0a),
    // The number of blocks.
    (CACHED, 96, 0),
    (CACHED, 97, 0),
    (CACHED, 98, 1),
    (CACHED, 99, 0),
];

fn has_byte(rt: &impl Abort, (parts, place, byte): (Parts, u8, u8)) -> Result<(), Fail> {
    let page = Geometry::of(parts)?.page();
    assert_eq!(rt; page[usize::from(place)], byte, "byte {place}");
    Ok(())
}

#[test]
fn pages_are_written(rt: HostRuntime) -> Result<(), Fail> {
    let page = Geometry::of(TWO_LUNS)?.page();
    assert_eq!(rt; page.as_slice(), two_luns_by_hand().as_slice());
    for row in WRITTEN {
        has_byte(&rt, *row)?;
    }
    Ok(())
}

#[test]
fn pages_read_back(rt: HostRuntime) -> Result<(), Fail> {
    for parts in [ONE_LUN, TWO_LUNS, LARGEST] {
        let page = Geometry::of(parts)?.page();
        assert_eq!(rt; read_parts(&page), Ok(parts));
    }
    Ok(())
}

#[test]
fn each_changed_byte_is_seen(rt: HostRuntime) {
    let good = two_luns_by_hand();
    for place in 0..=255 {
        let fault = if place < 4 {
            PageFault::NoSignature
        } else {
            PageFault::WrongChecksum
        };
        for change in [0x01, 0x80, 0xff] {
            let changed = with_byte(good, place, good[usize::from(place)] ^ change);
            assert_eq!(rt; read_parts(&changed), Err(fault), "byte {place}");
        }
    }
}

/// How many bits the numbers below a count need.
fn slow_width(count: u64) -> u32
    ensures { result ≤ 64 }
{
    for width in 0..64 {
        if count <= 1 << width {
            return width;
        }
    }
    64
}

/// So many bytes of a copy from a place, the last of them first.
fn slow_number(copy: &[u8; 256], place: usize, count: usize) -> u64
    requires { place + count ≤ 256 }
{
    let mut number: u64 = 0;
    for index in 0..count {
        number = number << 8 | u64::from(copy[place + count - 1 - index]);
    }
    number
}

/// The first fault of what a good copy declares.
fn slow_fault(copy: &[u8; 256]) -> Option<PageFault> {
    let pages = slow_number(copy, 92, 4);
    let blocks = slow_number(copy, 96, 4);
    let luns = slow_number(copy, 100, 1);
    let plane_bits = slow_number(copy, 113, 1) & 0x0f;
    if slow_number(copy, 6, 2) & 1 != 0 {
        return Some(PageFault::WideBus);
    }
    if copy[101] != 0x23 {
        return Some(PageFault::AddressCycles);
    }
    let page_bytes = slow_number(copy, 80, 4);
    let fits_page = (512..=16384).contains(&page_bytes) && slow_number(copy, 84, 2) <= 4096;
    if !fits_page || !(1..=4096).contains(&pages) || !(1..=65536).contains(&blocks) {
        return Some(PageFault::SizeOutOfRange);
    }
    let row_bits = slow_width(luns) + slow_width(blocks) + slow_width(pages);
    if !(1..=4).contains(&luns) || row_bits > 24 {
        return Some(PageFault::LunsOutOfRange);
    }
    if plane_bits > 2 || blocks < 1 << plane_bits {
        return Some(PageFault::PlanesOutOfRange);
    }
    let declares_both = slow_number(copy, 8, 2) & 8 != 0 && slow_number(copy, 6, 2) & 2 != 0;
    if luns > 1 && !declares_both {
        return Some(PageFault::LunCommandsMissing);
    }
    None
}

/// The copy that is used, by the rules one after another.
fn slow_read(bytes: &[u8]) -> Result<[u8; 256], PageFault> {
    if bytes.len() < 256 {
        return Err(PageFault::TooShort);
    }
    let mut fault = PageFault::NoSignature;
    for index in 0..bytes.len() / 256 {
        let mut copy = [0; 256];
        copy.copy_from_slice(&bytes[256 * index..256 * index + 256]);
        if copy.starts_with(&[0x4f, 0x4e, 0x46, 0x49]) {
            if sealed(copy) == copy {
                return match slow_fault(&copy) {
                    Some(fault) => Err(fault),
                    None => Ok(copy),
                };
            }
            fault = PageFault::WrongChecksum;
        }
    }
    Err(fault)
}

/// The numbers are those that stand in the copy.
fn are_of(parts: Parts, copy: &[u8; 256]) -> bool {
    let features = slow_number(copy, 6, 2);
    let commands = slow_number(copy, 8, 2);
    u64::from(parts.page_bytes) == slow_number(copy, 80, 4)
        && u64::from(parts.spare_bytes) == slow_number(copy, 84, 2)
        && u64::from(parts.pages) == slow_number(copy, 92, 4)
        && u64::from(parts.blocks) == slow_number(copy, 96, 4)
        && parts.luns == copy[100]
        && parts.plane_bits == copy[113] & 0x0f
        && parts.multi_plane == (features & 8 != 0)
        && parts.cache == (commands & 2 != 0)
        && parts.enhanced == (commands & 8 != 0)
}

/// A fixed generator (xorshift, 64 bits).
#[derive(Drop)]
struct Random {
    state: u64,
}

impl Random {
    fn next(&mut self) -> u64 {
        let mut state = self.state;
        state ^= state << 13;
        state ^= state >> 7;
        state ^= state << 17;
        self.state = state;
        state
    }

    fn below(&mut self, count: usize) -> usize
        requires { 0 < count }
        ensures { result < count }
    {
        (self.next() >> 8) as usize % count
    }

    fn pick(&mut self, choices: &[u32]) -> u32
        requires { 0 < length choices.now }
    {
        choices[self.below(choices.len())]
    }

    fn byte(&mut self, choices: &[u8]) -> u8
        requires { 0 < length choices.now }
    {
        choices[self.below(choices.len())]
    }
}

fn set_number(copy: &mut [u8; 256], place: usize, number: u32)
    requires { place + 4 ≤ 256 }
{
    copy[place..place + 4].copy_from_slice(&number.to_le_bytes());
}

fn set_features(random: &mut Random, copy: &mut [u8; 256]) {
    copy[4] = random.byte(&[0x00, 0x1e, 0xff]);
    copy[6] = random.byte(&[0x0a, 0x02, 0x0a, 0x0a, 0xfa, 0x02, 0x08, 0x0b]);
    copy[8] = random.byte(&[0x08, 0x0a, 0x08, 0xff, 0x0a, 0x02]);
    copy[101] = random.byte(&[0x23, 0x23, 0x23, 0x23, 0x23, 0x23, 0x22]);
}

fn set_sizes(random: &mut Random, copy: &mut [u8; 256]) {
    let page_bytes = random.pick(&[512, 2048, 4096, 8192, 16384, 2048, 511, 16385]);
    set_number(copy, 80, page_bytes);
    copy[84] = random.byte(&[0, 16, 64, 255]);
    copy[85] = random.byte(&[0, 0, 1, 4, 15, 16]);
}

fn set_counts(random: &mut Random, copy: &mut [u8; 256]) {
    let pages = random.pick(&[4, 64, 64, 128, 256, 4, 3, 4096, 4097, 0]);
    set_number(copy, 92, pages);
    let blocks = random.pick(&[8, 1024, 4096, 65536, 2, 5, 7, 65537, 0x0100_0008]);
    set_number(copy, 96, blocks);
    copy[100] = random.byte(&[1, 1, 2, 4, 3, 1, 5, 0]);
    copy[113] = random.byte(&[0, 1, 2, 0x10, 0xf1, 3]);
}

/// A copy whose fields are mostly inside the limits, with some other byte set and the right checksum.
fn whole_copy(random: &mut Random) -> [u8; 256] {
    let mut copy = [0; 256];
    copy[..4].copy_from_slice(b"ONFI");
    set_features(random, &mut copy);
    set_sizes(random, &mut copy);
    set_counts(random, &mut copy);
    copy[114 + random.below(140)] = 0x55;
    sealed(copy)
}

/// Such a copy, of which one bit in four times is changed.
fn random_copy(random: &mut Random) -> [u8; 256] {
    let copy = whole_copy(random);
    let place = (random.next() % 256) as u8;
    let early = place % 4;
    let change = random.byte(&[0x01, 0x10, 0x80]);
    match random.below(8) {
        0 => with_byte(copy, place, copy[usize::from(place)] ^ change),
        1 => with_byte(copy, early, copy[usize::from(early)] ^ change),
        _ => copy,
    }
}

/// Which fault it is, or 0 for none.
fn code(fault: Option<PageFault>) -> usize
    ensures { result < 10 }
{
    match fault {
        None => 0,
        Some(PageFault::TooShort) => 1,
        Some(PageFault::NoSignature) => 2,
        Some(PageFault::WrongChecksum) => 3,
        Some(PageFault::WideBus) => 4,
        Some(PageFault::AddressCycles) => 5,
        Some(PageFault::SizeOutOfRange) => 6,
        Some(PageFault::LunsOutOfRange) => 7,
        Some(PageFault::PlanesOutOfRange) => 8,
        Some(PageFault::LunCommandsMissing) => 9,
    }
}

/// One to three copies into the bytes, and how many of them are given: often a part of a copy more.
fn fill(random: &mut Random, bytes: &mut [u8; 1024]) -> usize
    ensures { result ≤ 1024 }
{
    let copies = 1 + random.below(3);
    for index in 0..copies {
        let copy = random_copy(random);
        bytes[256 * index..256 * index + 256].copy_from_slice(&copy);
    }
    let rest = random.below(256);
    match random.below(32) {
        0 => rest,
        1..=16 => 256 * copies,
        _ => 256 * copies + rest,
    }
}

#[test]
fn pages_of_a_generator(rt: HostRuntime) {
    let mut random = Random {
        state: 0x0123_4567_89ab_cdef,
    };
    let mut bytes = [0; 1024];
    let mut seen = [0u64; 10];
    for round in 0..10_000 {
        let given = fill(&mut random, &mut bytes);
        let read = read_parts(&bytes[..given]);
        let slow = slow_read(&bytes[..given]);
        assert_eq!(rt; read.err(), slow.err(), "page {round}");
        if let (Ok(parts), Ok(copy)) = (read, slow) {
            assert!(rt; are_of(parts, &copy), "page {round}");
        }
        let kind = code(read.err());
        seen[kind] = seen[kind].saturating_add(1);
    }
    for (kind, count) in seen.iter().enumerate() {
        assert!(rt; *count >= 100, "P{kind}: {count}");
    }
}
