//! The parameter page of the small chip with each of its bytes changed in each way.

use crate::random::set_byte;
use nand_geometry::{Geometry, PageFault, Parts, SMALL_CHIP};
use std::alloc::{AllocError, Global};
use std::process::Abort;
use std::test::Fail;

// Another chip, of 16 blocks in place of 8.
const OTHER_CHIP: Parts = Parts {
    blocks: 16,
    ..SMALL_CHIP
};

// Its bytes that aren't 00, with their places, and those of the small chip.
const OTHER_PAGE: [(usize, u8); 12] = [
    (0, b'O'),
    (1, b'N'),
    (2, b'F'),
    (3, b'I'),
    (81, 0x02),
    (84, 16),
    (92, 4),
    (96, 16),
    (100, 1),
    (101, 0x23),
    (254, 0x0f),
    (255, 0x66),
];

const SMALL_PAGE: [(usize, u8); 12] = [
    (0, b'O'),
    (1, b'N'),
    (2, b'F'),
    (3, b'I'),
    (81, 0x02),
    (84, 16),
    (92, 4),
    (96, 8),
    (100, 1),
    (101, 0x23),
    (254, 0x11),
    (255, 0x56),
];

// One of the two pages.
type Page = &'static [(usize, u8)];

// Copies behind one another.
fn make_copies(alloc: Global, pages: &[Page]) -> Result<Vec<u8>, AllocError> {
    let mut copies = Vec::new(alloc);
    for page in pages {
        let mut copy = vec![in alloc; 0x00; 256]?;
        for (place, byte) in *page {
            set_byte(&mut copy, *place, *byte);
        }
        copies.extend_from_slice(copy.as_slice())?;
    }
    Ok(copies)
}

fn read_parts(copies: &[u8]) -> Result<Parts, PageFault> {
    let geometry = Geometry::read(copies)?;
    Ok(geometry.parts())
}

// What copies are read as, in which a byte is another one.
type Wanted = Result<Parts, PageFault>;

// Changes the byte of a place in each way. Whether the copies are read so each time.
fn each_change_reads(copies: &mut Vec<u8>, place: usize, wanted: Wanted) -> bool {
    let old = copies.get(place).copied().unwrap_or(0);
    for change in 1..=255u8 {
        set_byte(copies, place, old ^ change);
        if read_parts(copies.as_slice()) != wanted {
            return false;
        }
    }
    set_byte(copies, place, old);
    true
}

// The first bytes of a copy are its signature, and the checksum is over all others: no change of one byte keeps it.
fn fault_of(place: usize) -> PageFault {
    if place < 4 {
        PageFault::NoSignature
    } else {
        PageFault::WrongChecksum
    }
}

#[test]
fn each_change_of_a_lone_copy(rt: HostRuntime) -> Result<(), Fail> {
    let mut copy = make_copies(rt.alloc(), &[&SMALL_PAGE])?;
    assert_eq!(rt; read_parts(copy.as_slice()), Ok(SMALL_CHIP));
    for place in 0..256usize {
        let fault = fault_of(place);
        assert!(rt;
            each_change_reads(&mut copy, place, Err(fault)),
            "byte {place}"
        );
    }
    Ok(())
}

// Three copies, where the changed one begins, and the chip that is read then: that of the first copy which isn't changed.
const THREE: [([Page; 3], usize, Parts); 4] = [
    ([&SMALL_PAGE, &SMALL_PAGE, &SMALL_PAGE], 0, SMALL_CHIP),
    ([&SMALL_PAGE, &OTHER_PAGE, &SMALL_PAGE], 0, OTHER_CHIP),
    ([&SMALL_PAGE, &OTHER_PAGE, &OTHER_PAGE], 256, SMALL_CHIP),
    ([&SMALL_PAGE, &OTHER_PAGE, &OTHER_PAGE], 512, SMALL_CHIP),
];

#[test]
fn each_change_beside_two_whole_copies(rt: HostRuntime) -> Result<(), Fail> {
    for (pages, from, chip) in THREE {
        let mut copies = make_copies(rt.alloc(), &pages)?;
        for place in from..from.saturating_add(256) {
            assert!(rt;
                each_change_reads(&mut copies, place, Ok(chip)),
                "byte {place}"
            );
        }
    }
    Ok(())
}
