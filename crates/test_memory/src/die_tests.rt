//! Dies, their images, and the bus before them.

use crate::turns::{Call, Memory, refuse_in_turn};
use die_model::{ImageRefusal, LunDie};
use nand_geometry::{Geometry, SMALL_CHIP};
use std::alloc::Global;
use std::process::Abort;
use std::test::Fail;
use target_bus::{Bus, BusFault, DiesRefused};
use test_heap::Refusal;

// What an image of one LUN of 8 blocks of 4 pages of 512 + 16 bytes begins with, before the count of its entries.
const START: [u8; 20] = [
    b'N', b'D', b'I', b'1', 0, 2, 0, 0, 16, 0, 0, 0, 4, 0, 0, 0, 8, 0, 0, 0,
];

// The bytes of a page.
const LEN: usize = 528;

// The calls on dies.
#[derive(Clone, Copy)]
enum DieCall {
    New,
    Image,
    Pages,
    LoadImage,
    NewBus,
}

// An image of pages with these rows and first bytes, FF behind them.
fn image_of<'h>(heap: Memory<'h>, pages: &[(u8, u8)]) -> Result<Vec<u8, Memory<'h>>, Fail> {
    let mut image = Vec::from_slice(heap, &START)?;
    image.extend_from_slice(&[pages.len().min(255) as u8, 0, 0, 0])?;
    for (row, byte) in pages {
        image.extend_from_slice(&[*row, 0, 0, 0, *byte])?;
        let end = image.len().saturating_add(LEN - 1);
        image.resize(end, 0xff)?;
    }
    Ok(image)
}

fn new_die<'h>(heap: Memory<'h>) -> Result<LunDie<Memory<'h>>, Fail> {
    Ok(LunDie::new(heap, Geometry::of(SMALL_CHIP)?)?)
}

// Loads an image into a die, which must be new.
fn load(die: &mut LunDie<Memory<'_>>, image: &[u8]) -> Result<Result<(), ImageRefusal>, Fail> {
    if !die.is_new() {
        return Err("the die is new".into());
    }
    Ok(die.load_image(image))
}

// A die that holds the pages of an image.
fn loaded<'h>(heap: Memory<'h>, image: &[u8]) -> Result<LunDie<Memory<'h>>, Fail> {
    let mut die = new_die(heap)?;
    match load(&mut die, image)? {
        Ok(()) => Ok(die),
        Err(_) => Err("the image is taken".into()),
    }
}

// The image of a die is this.
fn has_image(die: &LunDie<Memory<'_>>, image: &[u8]) -> Result<bool, Fail> {
    let written = die.image()?;
    Ok(written.as_slice() == image)
}

// That memory sufficed, where the answer is the expected one.
fn expect(is_expected: bool) -> Result<bool, Fail> {
    if is_expected {
        Ok(false)
    } else {
        Err("the answer is that of ample memory".into())
    }
}

fn make_new(heap: Memory<'_>, refusal: Refusal) -> Result<bool, Fail> {
    let geometry = Geometry::of(SMALL_CHIP)?;
    heap.refuse(refusal);
    match LunDie::new(heap, geometry) {
        Ok(die) => expect(die.is_new()),
        Err(_) => Ok(true),
    }
}

fn make_image(heap: Memory<'_>, refusal: Refusal) -> Result<bool, Fail> {
    let image = image_of(heap, &[(0, 0x12), (4, 0x34)])?;
    let die = loaded(heap, image.as_slice())?;
    heap.refuse(refusal);
    match die.image() {
        Ok(written) => expect(written.as_slice() == image.as_slice()),
        Err(_) => Ok(true),
    }
}

fn make_pages(heap: Memory<'_>, refusal: Refusal) -> Result<bool, Fail> {
    let image = image_of(heap, &[(0, 0x12), (4, 0x34)])?;
    let die = loaded(heap, image.as_slice())?;
    heap.refuse(refusal);
    let copy = die.pages();
    heap.refuse(Refusal::Never);
    match copy {
        Ok(pages) => {
            let written = pages.image(&die.geometry())?;
            expect(written.as_slice() == image.as_slice())
        }
        Err(_) => Ok(true),
    }
}

// A die has the image that it had, and takes the new one.
fn takes_again(die: &mut LunDie<Memory<'_>>, before: &[u8], image: &[u8]) -> Result<bool, Fail> {
    let is_as_before = has_image(die, before)?;
    let again = load(die, image)?;
    Ok(is_as_before && again.is_ok() && has_image(die, image)?)
}

// Loads an image, which replaces the one before. After a refusal the die has the image that it had, and takes the new one.
fn replace_image(
    heap: Memory<'_>,
    refusal: Refusal,
    before: &[u8],
    image: &[u8],
) -> Result<bool, Fail> {
    let mut die = loaded(heap, before)?;
    heap.refuse(refusal);
    let loaded = load(&mut die, image)?;
    heap.refuse(Refusal::Never);
    match loaded {
        Ok(()) => expect(has_image(&die, image)?),
        Err(ImageRefusal::OutOfMemory) => takes_again(&mut die, before, image),
        Err(_) => Err("the image has no fault".into()),
    }
}

fn make_load_image(heap: Memory<'_>, refusal: Refusal) -> Result<bool, Fail> {
    let before = image_of(heap, &[(31, 0x56)])?;
    let image = image_of(heap, &[(0, 0x12), (4, 0x34)])?;
    replace_image(heap, refusal, before.as_slice(), image.as_slice())
}

// The dies come back as they were.
fn are_as_before(dies: &[LunDie<Memory<'_>>], image: &[u8]) -> Result<bool, Fail> {
    match dies {
        [die] => has_image(die, image),
        _ => Ok(false),
    }
}

// One die of this image.
fn one_die<'h>(
    heap: Memory<'h>,
    image: &[u8],
) -> Result<Vec<LunDie<Memory<'h>>, Memory<'h>>, Fail> {
    let die = loaded(heap, image)?;
    let mut dies = Vec::new(heap);
    dies.push(die)?;
    Ok(dies)
}

// After a refusal the dies come back as they were, and the bus is made of them.
fn make_bus_of(heap: Memory<'_>, refusal: Refusal, image: &[u8]) -> Result<bool, Fail> {
    let geometry = Geometry::of(SMALL_CHIP)?;
    let dies = one_die(heap, image)?;
    heap.refuse(refusal);
    let DiesRefused { fault, dies } = match Bus::new(heap, geometry, dies) {
        Ok(bus) => return expect(bus.is_fresh()),
        Err(refused) => refused,
    };
    let is_as_before = are_as_before(dies.as_slice(), image)?;
    let is_made = Bus::new(heap, geometry, dies).is_ok();
    Ok(fault == BusFault::OutOfMemory && is_as_before && is_made)
}

fn make_bus(heap: Memory<'_>, refusal: Refusal) -> Result<bool, Fail> {
    let image = image_of(heap, &[(0, 0x12)])?;
    make_bus_of(heap, refusal, image.as_slice())
}

impl Call for DieCall {
    fn spares(&self) -> u64 {
        0
    }

    fn make(&self, heap: Memory<'_>, refusal: Refusal) -> Result<bool, Fail> {
        match *self {
            DieCall::New => make_new(heap, refusal),
            DieCall::Image => make_image(heap, refusal),
            DieCall::Pages => make_pages(heap, refusal),
            DieCall::LoadImage => make_load_image(heap, refusal),
            DieCall::NewBus => make_bus(heap, refusal),
        }
    }
}

const DIE_CALLS: &[DieCall] = &[
    DieCall::New,
    DieCall::Image,
    DieCall::Pages,
    DieCall::LoadImage,
    DieCall::NewBus,
];

// The place of the first call that never answers out of memory.
fn first_never_short(alloc: Global) -> Result<Option<usize>, Fail> {
    for (place, call) in DIE_CALLS.iter().enumerate() {
        if refuse_in_turn(alloc, call)? == 0 {
            return Ok(Some(place));
        }
    }
    Ok(None)
}

#[test]
fn dies(rt: HostRuntime) -> Result<(), Fail> {
    assert_eq!(rt; first_never_short(rt.alloc())?, None);
    Ok(())
}
