//! No part of a legal trace has a fault, wherever its recording began.
use crate::made_trace_tests::{made_trace, parts_of};
use crate::unshown_tests::{cycles_of, text_of};
use crate::worked_trace_tests::worked_trace;
use nand_geometry::Geometry;
use onfi_cycle::Item;
use std::alloc::Global;
use std::process::Abort;
use std::test::Fail;
use trace_faults::{Readies, find_faults_from_middle};

// How much of items, whose recording began in the middle, was taken for granted. They have no fault.
fn count_granted(
    rt: &impl Abort,
    alloc: Global,
    geometry: &Geometry,
    targets: u8,
    items: &[Item],
    readies: Readies,
) -> Result<usize, Fail> {
    if targets > 4 {
        return Err(Fail::from("more than 4 targets"));
    }
    let found = find_faults_from_middle(alloc, geometry, targets, items, readies)?;
    if !found.faults.is_empty() {
        let text = text_of(alloc, items)?;
        assert_eq!(rt; text.as_str(), "a part of a legal trace");
    }
    Ok(found.granted.len())
}

// How much of the parts of a legal trace was taken for granted, from each third item on.
fn count_in_parts(
    rt: &impl Abort,
    alloc: Global,
    geometry: &Geometry,
    targets: u8,
    items: &[Item],
    readies: Readies,
) -> Result<usize, Fail> {
    let mut granted = 0usize;
    for place in 0..items.len() {
        if place % 3 == 0 {
            let (_, part) = items.split_at(place);
            let count = count_granted(rt, alloc, geometry, targets, part, readies)?;
            granted = granted.saturating_add(count);
        }
    }
    Ok(granted)
}

// How much of the parts of a legal trace was taken for granted, with its readies and without them.
fn count_in_both(
    rt: &impl Abort,
    alloc: Global,
    geometry: &Geometry,
    targets: u8,
    items: &[Item],
) -> Result<usize, Fail> {
    let written = count_in_parts(rt, alloc, geometry, targets, items, Readies::Written)?;
    let cycles = cycles_of(alloc, items)?;
    let cycles = cycles.as_slice();
    let shown = count_in_parts(rt, alloc, geometry, targets, cycles, Readies::Shown)?;
    Ok(written.saturating_add(shown))
}

// How much of the parts of the legal trace with this number was taken for granted; each fourth trace is one of whole sequences.
fn count_in_made(
    rt: &impl Abort,
    alloc: Global,
    seed: &mut u32,
    targets: u8,
    luns: u8,
    number: u32,
) -> Result<usize, Fail> {
    let geometry = Geometry::of(parts_of(luns, number / 4))?;
    let items = if number % 4 == 0 {
        worked_trace(alloc, seed, geometry, targets, 30 + number % 41)?
    } else {
        made_trace(alloc, seed, geometry, targets, 60 + number % 61)?
    };
    count_in_both(rt, alloc, &geometry, targets, items.as_slice())
}

// So many traces on targets of so many LUNs have no part with a fault.
fn no_part_is_refused(
    rt: &impl Abort,
    alloc: Global,
    targets: u8,
    luns: u8,
    traces: u32,
) -> Result<(), Fail> {
    let mut seed = 0x6a09_e667;
    let mut granted = 0usize;
    for number in 0..traces {
        let count = count_in_made(rt, alloc, &mut seed, targets, luns, number)?;
        granted = granted.saturating_add(count);
    }
    assert!(rt; granted > 5, "{granted} taken for granted");
    Ok(())
}

#[test]
fn on_one_target(rt: HostRuntime) -> Result<(), Fail> {
    no_part_is_refused(&rt, rt.alloc(), 1, 1, 30)?;
    no_part_is_refused(&rt, rt.alloc(), 1, 2, 30)?;
    no_part_is_refused(&rt, rt.alloc(), 1, 3, 30)?;
    no_part_is_refused(&rt, rt.alloc(), 1, 4, 30)
}

#[test]
fn on_two_targets(rt: HostRuntime) -> Result<(), Fail> {
    no_part_is_refused(&rt, rt.alloc(), 2, 1, 30)?;
    no_part_is_refused(&rt, rt.alloc(), 2, 2, 30)?;
    no_part_is_refused(&rt, rt.alloc(), 2, 3, 30)?;
    no_part_is_refused(&rt, rt.alloc(), 2, 4, 30)
}

#[test]
fn on_three_targets(rt: HostRuntime) -> Result<(), Fail> {
    no_part_is_refused(&rt, rt.alloc(), 3, 1, 30)?;
    no_part_is_refused(&rt, rt.alloc(), 3, 2, 30)?;
    no_part_is_refused(&rt, rt.alloc(), 3, 3, 30)?;
    no_part_is_refused(&rt, rt.alloc(), 3, 4, 30)
}

#[test]
fn on_four_targets(rt: HostRuntime) -> Result<(), Fail> {
    no_part_is_refused(&rt, rt.alloc(), 4, 1, 30)?;
    no_part_is_refused(&rt, rt.alloc(), 4, 2, 30)?;
    no_part_is_refused(&rt, rt.alloc(), 4, 3, 30)?;
    no_part_is_refused(&rt, rt.alloc(), 4, 4, 30)
}
