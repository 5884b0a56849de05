//! Legal traces without their readies have no fault where readies are shown by the status: what nothing showed ready is taken for that.
use crate::made_trace_tests::{made_trace, parts_of};
use nand_geometry::Geometry;
use onfi_cycle::{Cycle, Item, Kind};
use std::alloc::Global;
use std::process::Abort;
use std::test::Fail;
use trace_faults::{Readies, complete, find_faults, find_not_shown};
use trace_text::{is_printable, print};

// A cycle whose byte, where it is an output, shows RDY: a status that doesn't would deny that its LUN is ready by the next cycle that needs it.
fn showing_ready(cycle: Cycle) -> Item {
    match cycle.kind {
        Kind::Cmd | Kind::Adr | Kind::Din => Item::Cyc(cycle),
        Kind::Dout => Item::Cyc(Cycle {
            byte: cycle.byte | 0x40,
            ..cycle
        }),
    }
}

/// The cycles of a trace, whose outputs show RDY.
pub(crate) fn cycles_of(alloc: Global, items: &[Item]) -> Result<Vec<Item>, Fail> {
    let mut cycles = Vec::new(alloc);
    for item in items {
        match *item {
            Item::Cyc(cycle) => cycles.push(showing_ready(cycle))?,
            Item::Rdy { .. } | Item::Ard { .. } => {}
        }
    }
    Ok(cycles)
}

/// Some items as a text.
pub(crate) fn text_of(alloc: Global, items: &[Item]) -> Result<String, Fail> {
    if !is_printable(items) {
        return Err(Fail::from("an item that can't be printed"));
    }
    Ok(print(alloc, items)?)
}

// A trace has no fault.
fn expect_none(
    rt: &impl Abort,
    alloc: Global,
    geometry: &Geometry,
    targets: u8,
    items: &[Item],
    readies: Readies,
) -> Result<(), Fail> {
    if targets > 4 {
        return Err(Fail::from("more than 4 targets"));
    }
    let faults = find_faults(alloc, geometry, targets, items, readies)?;
    if !faults.is_empty() {
        let text = text_of(alloc, items)?;
        assert_eq!(rt; text.as_str(), "a legal trace");
    }
    Ok(())
}

// How many cycles of the legal trace with this number want a ready that nothing showed. Without its readies the trace has no fault, and nor has it once it is
// completed.
fn count_not_shown(
    rt: &impl Abort,
    alloc: Global,
    seed: &mut u32,
    targets: u8,
    luns: u8,
    number: u32,
) -> Result<usize, Fail> {
    if targets > 4 {
        return Err(Fail::from("more than 4 targets"));
    }
    let geometry = Geometry::of(parts_of(luns, number))?;
    let items = made_trace(alloc, seed, geometry, targets, 40 + number % 161)?;
    let cycles = cycles_of(alloc, items.as_slice())?;
    let cycles = cycles.as_slice();
    expect_none(rt, alloc, &geometry, targets, cycles, Readies::Shown)?;
    let whole = complete(alloc, &geometry, targets, cycles)?;
    expect_none(
        rt,
        alloc,
        &geometry,
        targets,
        whole.as_slice(),
        Readies::Written,
    )?;
    let told = find_not_shown(alloc, &geometry, targets, cycles, Readies::Shown)?;
    Ok(told.len())
}

// So many traces on targets of so many LUNs have no fault without their readies.
fn none_is_refused(
    rt: &impl Abort,
    alloc: Global,
    targets: u8,
    luns: u8,
    traces: u32,
) -> Result<(), Fail> {
    let mut seed = 0x9e37_79b9;
    let mut told = 0usize;
    for number in 0..traces {
        let count = count_not_shown(rt, alloc, &mut seed, targets, luns, number)?;
        told = told.saturating_add(count);
    }
    assert!(rt; told > 5, "{told} not shown");
    Ok(())
}

#[test]
fn on_one_target(rt: HostRuntime) -> Result<(), Fail> {
    none_is_refused(&rt, rt.alloc(), 1, 1, 100)?;
    none_is_refused(&rt, rt.alloc(), 1, 2, 100)?;
    none_is_refused(&rt, rt.alloc(), 1, 3, 100)?;
    none_is_refused(&rt, rt.alloc(), 1, 4, 100)
}

#[test]
fn on_two_targets(rt: HostRuntime) -> Result<(), Fail> {
    none_is_refused(&rt, rt.alloc(), 2, 1, 100)?;
    none_is_refused(&rt, rt.alloc(), 2, 2, 100)?;
    none_is_refused(&rt, rt.alloc(), 2, 3, 100)?;
    none_is_refused(&rt, rt.alloc(), 2, 4, 100)
}

#[test]
fn on_three_targets(rt: HostRuntime) -> Result<(), Fail> {
    none_is_refused(&rt, rt.alloc(), 3, 1, 100)?;
    none_is_refused(&rt, rt.alloc(), 3, 2, 100)?;
    none_is_refused(&rt, rt.alloc(), 3, 3, 100)?;
    none_is_refused(&rt, rt.alloc(), 3, 4, 100)
}

#[test]
fn on_four_targets(rt: HostRuntime) -> Result<(), Fail> {
    none_is_refused(&rt, rt.alloc(), 4, 1, 100)?;
    none_is_refused(&rt, rt.alloc(), 4, 2, 100)?;
    none_is_refused(&rt, rt.alloc(), 4, 3, 100)?;
    none_is_refused(&rt, rt.alloc(), 4, 4, 100)
}
