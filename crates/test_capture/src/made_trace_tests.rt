//! Traces that are made at random come back from their dumps.
use crate::reading::items_of;
use bus_capture::{CaptureForm, CaptureRefusal, Setup, read_capture};
use nand_geometry::{Geometry, Parts, SMALL_CHIP};
use onfi_cycle::{BusState, Cycle, Failures, Item, Kind};
use std::alloc::Global;
use std::process::Abort;
use std::test::Fail;
use trace_text::{is_printable, print};
use trace_wave::write_dump;

// All commands of the profile.
const COMMANDS: [u8; 18] = [
    0x00, 0x30, 0x05, 0xe0, 0x60, 0xd0, 0xd1, 0x70, 0x78, 0x80, 0x85, 0x10, 0x11, 0x90, 0xec, 0xff,
    0x31, 0x3f,
];

// Addresses that aren't 0: of columns, pages and blocks, and of the other LUNs.
const ADDRESSES: [u8; 10] = [0x01, 0x02, 0x04, 0x08, 0x10, 0x20, 0x24, 0x40, 0x60, 0x64];

/// The next number of a fixed generator.
pub(crate) fn next(seed: &mut u32) -> u32 {
    let mut x = *seed;
    x ^= x << 13;
    x ^= x >> 17;
    x ^= x << 5;
    *seed = x;
    x
}

// Any item of a channel of so many targets of so many LUNs.
fn any_item(seed: &mut u32, targets: u8, luns: u8) -> Item {
    let ce = (next(seed) % u32::from(targets.max(1))) as u8;
    let lun = (next(seed) % u32::from(luns.max(1))) as u8;
    let kind = next(seed) % 16;
    let number = next(seed) >> 8;
    match kind {
        0..6 => cycle(ce, Kind::Cmd, COMMANDS[(number % 18) as usize]),
        6..9 => cycle(ce, Kind::Adr, address_of(number)),
        9 | 10 => cycle(ce, Kind::Din, (number % 256) as u8),
        11 | 12 => cycle(ce, Kind::Dout, (number % 256) as u8),
        13 | 14 => Item::Rdy {
            ce,
            lun,
            fail: Failures {
                last: number % 4 == 0,
                before: false,
            },
        },
        _ => Item::Ard {
            ce,
            lun,
            fail: false,
        },
    }
}

// One address of ten isn't 0: a row whose high bytes aren't is nowhere, and after it nothing is permitted any more.
fn address_of(number: u32) -> u8 {
    if number % 10 == 0 {
        ADDRESSES[(number / 10 % 10) as usize]
    } else {
        0
    }
}

fn cycle(ce: u8, kind: Kind, byte: u8) -> Item {
    Item::Cyc(Cycle { ce, kind, byte })
}

/// The next item of a trace: one that the model permits, of the first thousand that are drawn.
pub(crate) fn permitted_item(
    seed: &mut u32,
    state: &BusState,
    targets: u8,
    luns: u8,
) -> Option<Item> {
    for _ in 0..1_000 {
        let item = any_item(seed, targets, luns);
        if state.judge(item).is_none() {
            return Some(item);
        }
    }
    None
}

/// A legal trace of so many items, or of fewer where none more was found.
pub(crate) fn made_trace(
    alloc: Global,
    seed: &mut u32,
    geometry: Geometry,
    targets: u8,
    most: u32,
) -> Result<Vec<Item>, Fail> {
    let mut items = Vec::new(alloc);
    if targets > 4 {
        return Err(Fail::from("more than 4 targets"));
    }
    let mut state = BusState::new(geometry, targets);
    for _ in 0..most {
        match permitted_item(seed, &state, targets, geometry.parts().luns) {
            Some(item) if state.judge(item).is_none() => {
                state.apply(item);
                items.push(item)?;
            }
            Some(_) | None => return Ok(items),
        }
    }
    Ok(items)
}

/// Chips of so many LUNs, of 1 to 4 planes and with the optional commands or without, by the number of the trace.
pub(crate) fn parts_of(luns: u8, number: u32) -> Parts {
    Parts {
        luns,
        plane_bits: (number % 3) as u8,
        enhanced: luns > 1 || number / 3 % 2 == 0,
        multi_plane: number / 6 % 2 == 0,
        cache: number / 12 % 2 == 0,
        ..SMALL_CHIP
    }
}

// The items that a dump of these shows.
fn shown_of(
    alloc: Global,
    geometry: &Geometry,
    targets: u8,
    items: &[Item],
) -> Result<Vec<Item>, Fail> {
    if targets > 4 {
        return Err(Fail::from("more than 4 targets"));
    }
    let dump = write_dump(alloc, geometry, targets, items)?;
    let setup = Setup {
        form: CaptureForm::Dump,
        geometry: *geometry,
        targets,
        mappings: &[],
        glitch: 0,
        late: None,
    };
    match read_capture(alloc, &setup, dump.as_slice()) {
        Ok(capture) => Ok(items_of(alloc, capture.stamped.as_slice())?),
        Err(CaptureRefusal::Fault(_)) => Err(Fail::from("a dump that isn't a capture")),
        Err(CaptureRefusal::OutOfMemory) => Err(Fail::from("out of memory")),
    }
}

// Some items as a text.
fn text_of(alloc: Global, items: &[Item]) -> Result<String, Fail> {
    if !is_printable(items) {
        return Err(Fail::from("an item that can't be printed"));
    }
    Ok(print(alloc, items)?)
}

// How many items the trace with this number has, where it comes back.
fn comes_back(
    rt: &impl Abort,
    alloc: Global,
    seed: &mut u32,
    targets: u8,
    luns: u8,
    number: u32,
) -> Result<usize, Fail> {
    let geometry = Geometry::of(parts_of(luns, number))?;
    let items = made_trace(alloc, seed, geometry, targets, 20 + number % 41)?;
    let shown = shown_of(alloc, &geometry, targets, &items)?;
    if shown.as_slice() != items.as_slice() {
        let given = text_of(alloc, &items)?;
        let back = text_of(alloc, &shown)?;
        assert_eq!(rt; back.as_str(), given.as_str(), "trace {number}");
    }
    Ok(items.len())
}

// As many traces come back, of so many targets of so many LUNs. With all kinds of channels below they are 10,000.
fn all_come_back(rt: &impl Abort, alloc: Global, targets: u8, luns: u8) -> Result<(), Fail> {
    let mut seed = 0x2545_f491;
    let mut count = 0usize;
    for number in 0..625 {
        let len = comes_back(rt, alloc, &mut seed, targets, luns, number)?;
        count = count.saturating_add(len);
    }
    assert!(rt; count > 15_000, "{count} items");
    Ok(())
}

// The same on one to four targets.
fn each_comes_back(rt: &impl Abort, alloc: Global, luns: u8) -> Result<(), Fail> {
    for targets in 1..5 {
        all_come_back(rt, alloc, targets, luns)?;
    }
    Ok(())
}

#[test]
fn one_lun_a_target(rt: HostRuntime) -> Result<(), Fail> {
    each_comes_back(&rt, rt.alloc(), 1)
}

#[test]
fn two_luns_a_target(rt: HostRuntime) -> Result<(), Fail> {
    each_comes_back(&rt, rt.alloc(), 2)
}

#[test]
fn three_luns_a_target(rt: HostRuntime) -> Result<(), Fail> {
    each_comes_back(&rt, rt.alloc(), 3)
}

#[test]
fn four_luns_a_target(rt: HostRuntime) -> Result<(), Fail> {
    each_comes_back(&rt, rt.alloc(), 4)
}
