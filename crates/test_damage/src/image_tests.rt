//! Damaged images, against a slow reader of images.

use crate::random::{Random, set_byte};
use die_model::{ImageFault, ImageRefusal, LunDie};
use nand_geometry::{Geometry, Parts, SMALL_CHIP};
use std::alloc::{AllocError, Global};
use std::process::Abort;
use std::test::Fail;

// A die whose blocks have three pages: a row has two bits of page, and three bits of block above them.
const ODD: Parts = Parts {
    pages: 3,
    blocks: 6,
    ..SMALL_CHIP
};

// The bytes of a header, and of an entry: a row and a page of 512 + 16 bytes.
const HEADER: usize = 24;

const ENTRY: usize = 532;

// What an image of the die begins with, before the count of its entries.
const START: [u8; 20] = [
    b'N', b'D', b'I', b'1', 0, 2, 0, 0, 16, 0, 0, 0, 3, 0, 0, 0, 6, 0, 0, 0,
];

// An erased page.
const BLANK: [u8; 528] = [0xff; 528];

// ---- the slow reader

// The number of the four bytes from a place on.
fn slow_number(bytes: &[u8], place: usize) -> Option<u64> {
    match bytes.get(place..place.saturating_add(4)) {
        Some([a, b, c, d]) => Some(
            u64::from(*a)
                + 256 * u64::from(*b)
                + 65_536 * u64::from(*c)
                + 16_777_216 * u64::from(*d),
        ),
        _ => None,
    }
}

// What is wrong with the header of an image, or with its length.
fn slow_header_fault(image: &[u8]) -> Option<ImageFault> {
    let Some(count) = slow_number(image, 20) else {
        return Some(ImageFault::Length);
    };
    if !image.starts_with(b"NDI1") {
        Some(ImageFault::Magic)
    } else if !image.starts_with(&START) {
        Some(ImageFault::Numbers)
    } else if image.len() as u64 != 532u64.wrapping_mul(count).wrapping_add(24) {
        Some(ImageFault::Length)
    } else {
        None
    }
}

// The entries behind a header.
fn entries_of(image: &[u8]) -> &[u8] {
    image.get(HEADER..).unwrap_or(&[])
}

// What is wrong with the rows of the entries.
fn slow_row_fault(entries: &[u8]) -> Option<ImageFault> {
    let mut least = 0;
    for entry in entries.chunks_exact(ENTRY) {
        let row = slow_number(entry, 0).unwrap_or(0);
        if row % 4 >= 3 || row / 4 >= 6 {
            return Some(ImageFault::Row);
        }
        if row < least {
            return Some(ImageFault::Order);
        }
        least = row.saturating_add(1);
    }
    None
}

// All bytes of an entry's page are FF.
fn is_blank(entry: &[u8]) -> bool {
    entry.ends_with(&BLANK)
}

// The image that a die writes which has taken these entries: those that aren't blank.
fn slow_image(alloc: Global, entries: &[u8]) -> Result<Vec<u8>, AllocError> {
    let mut image = Vec::from_slice(alloc, &START)?;
    image.extend_from_slice(&[0; 4])?;
    let mut count = 0u8;
    for entry in entries.chunks_exact(ENTRY) {
        if !is_blank(entry) {
            image.extend_from_slice(entry)?;
            count = count.saturating_add(1);
        }
    }
    set_byte(&mut image, 20, count);
    Ok(image)
}

// The fault of an image, by the rules one after another.
fn slow_fault(image: &[u8]) -> Option<ImageFault> {
    match slow_header_fault(image) {
        Some(fault) => Some(fault),
        None => slow_row_fault(entries_of(image)),
    }
}

// ---- images and their damage

// Adds the entry of a row, one byte of which is some other: at times it is FF too.
fn push_entry(random: &mut Random, image: &mut Vec<u8>, row: u8) -> Result<(), AllocError> {
    let place = image.len().saturating_add(4);
    image.extend_from_slice(&[row, 0, 0, 0])?;
    image.extend_from_slice(&BLANK)?;
    if !random.once_in(4) {
        set_byte(
            image,
            place.saturating_add(random.below(528)),
            random.byte(),
        );
    }
    Ok(())
}

// An image without fault, of three entries or so.
fn make_image(alloc: Global, random: &mut Random) -> Result<Vec<u8>, AllocError> {
    let mut image = Vec::from_slice(alloc, &START)?;
    image.extend_from_slice(&[0; 4])?;
    let mut count = 0u8;
    for row in 0..24u8 {
        if row % 4 != 3 && random.once_in(6) {
            push_entry(random, &mut image, row)?;
            count = count.saturating_add(1);
        }
    }
    set_byte(&mut image, 20, count);
    Ok(image)
}

// The place of some byte in the row of one of the first four entries, most often its first.
fn some_row(random: &mut Random) -> usize {
    let entry = ENTRY.saturating_mul(random.below(4));
    let byte = random.below(8).saturating_sub(4);
    HEADER.saturating_add(entry).saturating_add(byte)
}

// So many bytes more.
fn lengthen(random: &mut Random, image: &mut Vec<u8>, count: usize) -> Result<(), AllocError> {
    for _ in 0..count {
        image.push(random.byte())?;
    }
    Ok(())
}

// One change: it is cut or longer, or one byte is another one, in the header, in the count, in a row or anywhere.
fn damage_once(random: &mut Random, image: &mut Vec<u8>) -> Result<(), AllocError> {
    match random.below(16) {
        0 => image.truncate(random.below(image.len())),
        1 => {
            let count = random.below(600);
            lengthen(random, image, count)?;
        }
        2 => set_byte(image, random.below(4), random.byte()),
        3 => set_byte(image, random.below(20), random.byte()),
        4 => set_byte(image, 20, random.byte() % 8),
        5 => set_byte(image, some_row(random), random.byte()),
        6 | 7 => set_byte(image, some_row(random), random.byte() % 24),
        _ => set_byte(image, random.below(image.len()), random.byte()),
    }
    Ok(())
}

// An image with one change to four.
fn make_damaged(alloc: Global, random: &mut Random) -> Result<Vec<u8>, AllocError> {
    let mut image = make_image(alloc, random)?;
    let changes = random.below(4).saturating_add(1);
    for _ in 0..changes {
        damage_once(random, &mut image)?;
    }
    Ok(image)
}

// ---- what a die makes of them

// The die writes these bytes as its image.
fn writes(die: &LunDie, bytes: &[u8]) -> Result<bool, AllocError> {
    let image = die.image()?;
    Ok(image.as_slice() == bytes)
}

// Loads an image into a new die.
fn load(die: &mut LunDie, image: &[u8]) -> Result<Result<(), ImageRefusal>, Fail> {
    if !die.is_new() {
        return Err("the die is new".into());
    }
    Ok(die.load_image(image))
}

// Which fault an image has, 0 for none.
fn number_of(fault: Option<ImageFault>) -> usize {
    match fault {
        None => 0,
        Some(ImageFault::Length) => 1,
        Some(ImageFault::Magic) => 2,
        Some(ImageFault::Numbers) => 3,
        Some(ImageFault::Order) => 4,
        Some(ImageFault::Row) => 5,
    }
}

// A die with these pages loads an image, and then holds what that says; or refuses it for its first fault, and is as it was.
fn comes_as_it_must(
    alloc: Global,
    die: &mut LunDie,
    before: &[u8],
    image: &[u8],
) -> Result<bool, Fail> {
    if load(die, before)? != Ok(()) {
        return Ok(false);
    }
    let status = die.status();
    let told = load(die, image)?;
    let wanted = match slow_fault(image) {
        None => {
            let after = slow_image(alloc, entries_of(image))?;
            told == Ok(()) && writes(die, after.as_slice())?
        }
        Some(fault) => told == Err(ImageRefusal::Fault(fault)) && writes(die, before)?,
    };
    Ok(wanted && die.is_new() && die.status() == status)
}

#[test]
fn damaged_images_of_a_generator(rt: HostRuntime) -> Result<(), Fail> {
    let alloc = rt.alloc();
    let mut random = Random::new(0x0bad_1a6e_0bad_1a6e);
    let mut die = LunDie::new(alloc, Geometry::of(ODD)?)?;
    let mut seen = [0u64; 6];
    for round in 0..10_000u32 {
        let before = make_image(alloc, &mut random)?;
        let held = slow_image(alloc, entries_of(before.as_slice()))?;
        let image = make_damaged(alloc, &mut random)?;
        assert!(rt;
            comes_as_it_must(alloc, &mut die, held.as_slice(), image.as_slice())?,
            "image {round}"
        );
        let kind = number_of(slow_fault(image.as_slice()));
        if let Some(count) = seen.get_mut(kind) {
            *count = count.saturating_add(1);
        }
    }
    for (kind, count) in seen.iter().enumerate() {
        assert!(rt; *count >= 200, "I{kind}: {count}");
    }
    Ok(())
}
