//! Runs of inputs: put on the bus at once as one by one, or the first rule that one of them breaks.

use crate::bus_tests::{HEAP, ONE_LUN, TWO_LUNS, TWO_PLANES, comes, steps_of, take_but};
use crate::output_tests::bus_after;
use linked_list_allocator::LocalHeap;
use nand_geometry::Parts;
use onfi_cycle::{Cycle, Forbidden, Kind};
use std::alloc::{AllocError, Global};
use std::process::Abort;
use std::test::Fail;
use target_bus::{Bus, BusRefusal};

// The bytes of a page of these geometries.
const PAGE: usize = 528;

// So many bytes, of which neighbours differ.
fn made_bytes(alloc: Global, len: usize) -> Result<Vec<u8>, AllocError> {
    let mut bytes = Vec::new(alloc);
    for place in 0..len {
        bytes.push((place % 251) as u8)?;
    }
    Ok(bytes)
}

// Puts inputs one by one. The first refusal, if there is one.
fn put_each(bus: &mut Bus, bytes: &[u8]) -> Result<(), BusRefusal> {
    for byte in bytes {
        bus.put(Cycle {
            ce: 0,
            kind: Kind::Din,
            byte: *byte,
        })?;
    }
    Ok(())
}

// The whole page that these steps read.
fn page_after(alloc: Global, bus: &mut Bus, closing: &str) -> Result<Vec<u8>, Fail> {
    for step in &steps_of(alloc, closing)? {
        if !comes(bus, *step) {
            return Err("the step comes".into());
        }
    }
    let mut page = Vec::from_elem(alloc, 0u8, PAGE)?;
    match bus.take_all(0, page.as_mut_slice()) {
        Ok(()) => Ok(page),
        Err(_) => Err("the page is read".into()),
    }
}

// A page of FF with these bytes from a column on.
fn page_with(alloc: Global, column: usize, bytes: &[u8]) -> Result<Vec<u8>, AllocError> {
    let mut page = Vec::from_elem(alloc, 0xffu8, PAGE)?;
    for (place, byte) in bytes.iter().enumerate() {
        if let Some(kept) = page.get_mut(column.saturating_add(place)) {
            *kept = *byte;
        }
    }
    Ok(page)
}

// A program up to its inputs, the column of the first of them, and what closes the program and reads its page.
type Program = (Parts, &'static str, usize, &'static str);

// A run of so many inputs is what as many inputs one by one are, and the page has them from the column on; a refused one leaves the
// trace as it was. Whether it is so.
fn is_one_by_one(alloc: Global, program: &Program, len: usize) -> Result<bool, Fail> {
    let (parts, opening, column, closing) = *program;
    let mut at_once = bus_after(alloc, alloc, parts, opening)?;
    let mut each = bus_after(alloc, alloc, parts, opening)?;
    let bytes = made_bytes(alloc, len)?;
    let before = at_once.trace().to_vec(alloc)?;
    let told = at_once.put_all(0, &bytes);
    if told != put_each(&mut each, &bytes) {
        return Ok(false);
    }
    if told.is_err() {
        return Ok(at_once.trace() == before.as_slice());
    }
    let same = at_once.trace() == each.trace();
    let page = page_after(alloc, &mut at_once, closing)?;
    let wanted = page_with(alloc, column, &bytes)?;
    let alike = page_after(alloc, &mut each, closing)?.as_slice() == wanted.as_slice();
    Ok(same && alike && page.as_slice() == wanted.as_slice())
}

// Closes a program of row 0 and reads its page.
const CLOSING: &str = "C10 R0 C00 A00x5 C30 R0 C00";

// Programs, and how many inputs are put behind each.
const RUNS: &[(Program, [usize; 5])] = &[
    ((ONE_LUN, "C80 A00x5", 0, CLOSING), [0, 1, 527, 528, 529]),
    // From column 0203h on.
    (
        (ONE_LUN, "C80 A03 A02 A00x3", 515, CLOSING),
        [0, 12, 13, 14, 600],
    ),
    // From another column of the same program.
    (
        (ONE_LUN, "C80 A00x5 C85 A04 A00", 4, CLOSING),
        [1, 2, 523, 524, 525],
    ),
    // The second plane.
    (
        (
            TWO_PLANES,
            "C80 A00x2 A04 A00x2",
            0,
            "C10 R0 C00 A00x2 A04 A00x2 C30 R0 C00",
        ),
        [0, 1, 527, 528, 529],
    ),
    // The second LUN.
    (
        (
            TWO_LUNS,
            "C80 A00x2 A20 A00x2",
            0,
            "C10 R1 C00 A00x2 A20 A00x2 C30 R1 C78 A20 A00x2 C00",
        ),
        [0, 1, 527, 528, 529],
    ),
    // Where a program doesn't take data, each is refused.
    ((ONE_LUN, "C60 A00x3", 0, CLOSING), [1, 2, 3, 4, 5]),
];

#[test]
fn runs_are_inputs_one_by_one(rt: HostRuntime) -> Result<(), Fail> {
    for (program, lens) in RUNS {
        for len in lens {
            assert!(rt;
                is_one_by_one(rt.alloc(), program, *len)?,
                "{len} after {}",
                program.1
            );
        }
    }
    Ok(())
}

#[test]
fn a_run_past_the_page_tells_its_rule(rt: HostRuntime) -> Result<(), Fail> {
    let mut bus = bus_after(rt.alloc(), rt.alloc(), ONE_LUN, "C80 A00x5")?;
    let bytes = [0x5au8; PAGE + 1];
    assert!(rt; bus.put_all(0, &bytes) == Err(BusRefusal::Forbidden(Forbidden::ColumnOutside)));
    assert!(rt; bus.put_all(1, &bytes) == Err(BusRefusal::Forbidden(Forbidden::NotThere)));
    assert!(rt; bus.put_all(0, &bytes[1..]).is_ok());
    let page = page_after(rt.alloc(), &mut bus, CLOSING)?;
    assert!(rt; page.as_slice() == &bytes[1..]);
    Ok(())
}

#[test]
fn a_run_of_inputs_asks_for_memory_first(rt: HostRuntime) -> Result<(), Fail> {
    let heap = LocalHeap::new(rt.alloc(), HEAP)?;
    let mut bus = bus_after(rt.alloc(), &heap, ONE_LUN, "C80 A00x5")?;
    let items = bus.trace().len();
    let bytes = [0x5au8; PAGE + 1];
    let taken = take_but(&heap, 0)?;
    assert_eq!(rt; bus.put_all(0, &bytes[1..]), Err(BusRefusal::OutOfMemory));
    assert_eq!(rt; bus.trace().len(), items);
    // What is forbidden is told first.
    assert_eq!(rt;
        bus.put_all(0, &bytes),
        Err(BusRefusal::Forbidden(Forbidden::ColumnOutside))
    );
    drop(taken);
    assert_eq!(rt; bus.put_all(0, &bytes[1..]), Ok(()));
    assert_eq!(rt; bus.trace().len(), items.saturating_add(PAGE));
    Ok(())
}
