//! Runs of outputs: as many bytes at once as the bus gives one by one, or the first rule that one of them breaks.

use crate::bus_tests::{CACHED, HEAP, ONE_LUN, channel, comes, steps_of, take_but};
use linked_list_allocator::LocalHeap;
use nand_geometry::Parts;
use onfi_cycle::Forbidden;
use std::alloc::{Allocator, Global};
use std::process::Abort;
use std::test::Fail;
use target_bus::{Bus, BusRefusal};

// A bus on which these steps have come.
pub(crate) fn bus_after<A: Allocator + Copy>(
    alloc: Global,
    dies: A,
    parts: Parts,
    text: &str,
) -> Result<Bus<A>, Fail> {
    let mut bus = channel(dies, parts, parts.luns)?;
    for step in &steps_of(alloc, text)? {
        if !comes(&mut bus, *step) {
            return Err("the step comes".into());
        }
    }
    Ok(bus)
}

// Takes so many bytes one by one. The first refusal, if there is one.
fn take_each(bus: &mut Bus, into: &mut [u8]) -> Result<(), BusRefusal> {
    for byte in into {
        *byte = bus.take(0)?;
    }
    Ok(())
}

// A run of this length after these steps is what as many outputs one by one are; a refused one leaves trace and bytes as they were.
fn is_one_by_one(alloc: Global, parts: Parts, text: &str, len: usize) -> Result<bool, Fail> {
    let mut at_once = bus_after(alloc, alloc, parts, text)?;
    let mut each = bus_after(alloc, alloc, parts, text)?;
    let mut run = Vec::from_elem(alloc, 0x3cu8, len)?;
    let mut bytes = Vec::from_elem(alloc, 0x3cu8, len)?;
    let before = at_once.trace().to_vec(alloc)?;
    let told = at_once.take_all(0, run.as_mut_slice());
    if told != take_each(&mut each, bytes.as_mut_slice()) {
        return Ok(false);
    }
    if told.is_err() {
        let same = at_once.trace() == before.as_slice();
        return Ok(same && run.as_slice().iter().all(|byte| *byte == 0x3c));
    }
    // A byte more is judged alike on both.
    let alike = at_once.take(0) == each.take(0);
    Ok(alike && run.as_slice() == bytes.as_slice() && at_once.trace() == each.trace())
}

// What comes before, and how many outputs are taken behind it.
const RUNS: &[(Parts, &str, [usize; 5])] = &[
    (ONE_LUN, "C00 A00x5 C30 R0 C00", [0, 1, 527, 528, 529]),
    // From column 0203h on.
    (
        ONE_LUN,
        "C00 A03 A02 A00x3 C30 R0 C00",
        [0, 12, 13, 14, 600],
    ),
    (
        ONE_LUN,
        "C80 A00x5 Ia5 I0f C10 R0 C00 A00x5 C30 R0 C00 Oa5",
        [1, 2, 526, 527, 528],
    ),
    (ONE_LUN, "Cec A00 R0", [1, 256, 767, 768, 769]),
    (ONE_LUN, "C90 A20", [0, 3, 4, 5, 6]),
    // A status has no end; where nothing drives, and where a command is open, none is given.
    (ONE_LUN, "C60 A00x3 Cd0 C70", [0, 1, 2, 3, 100]),
    (ONE_LUN, "C00", [0, 1, 2, 3, 4]),
    (CACHED, "C00 A00x5 C30 R0 C31 R0", [1, 2, 527, 528, 529]),
];

#[test]
fn runs_are_outputs_one_by_one(rt: HostRuntime) -> Result<(), Fail> {
    for (parts, text, lens) in RUNS {
        for len in lens {
            assert!(rt;
                is_one_by_one(rt.alloc(), *parts, text, *len)?,
                "{len} after {text}"
            );
        }
    }
    Ok(())
}

#[test]
fn a_run_past_the_register_tells_its_rule(rt: HostRuntime) -> Result<(), Fail> {
    let mut bus = bus_after(rt.alloc(), rt.alloc(), ONE_LUN, "C00 A00x5 C30 R0 C00")?;
    let mut bytes = [0u8; 529];
    assert_eq!(rt;
        bus.take_all(0, &mut bytes),
        Err(BusRefusal::Forbidden(Forbidden::ColumnOutside))
    );
    assert_eq!(rt;
        bus.take_all(1, &mut bytes),
        Err(BusRefusal::Forbidden(Forbidden::NotThere))
    );
    assert!(rt; bytes.iter().all(|byte| *byte == 0));
    assert_eq!(rt; bus.take_all(0, &mut bytes[1..]), Ok(()));
    assert!(rt; bytes[1..].iter().all(|byte| *byte == 0xff));
    Ok(())
}

#[test]
fn a_run_asks_for_memory_first(rt: HostRuntime) -> Result<(), Fail> {
    let heap = LocalHeap::new(rt.alloc(), HEAP)?;
    let mut bus = bus_after(rt.alloc(), &heap, ONE_LUN, "C00 A00x5 C30 R0 C00")?;
    let items = bus.trace().len();
    let mut bytes = [0x3cu8; 528];
    let taken = take_but(&heap, 0)?;
    assert_eq!(rt; bus.take_all(0, &mut bytes), Err(BusRefusal::OutOfMemory));
    assert!(rt; bus.trace().len() == items && bytes.iter().all(|byte| *byte == 0x3c));
    // What is forbidden is told first.
    let mut more = [0x3cu8; 529];
    assert_eq!(rt;
        bus.take_all(0, &mut more),
        Err(BusRefusal::Forbidden(Forbidden::ColumnOutside))
    );
    drop(taken);
    assert_eq!(rt; bus.take_all(0, &mut bytes), Ok(()));
    assert!(rt; bytes.iter().all(|byte| *byte == 0xff));
    Ok(())
}
