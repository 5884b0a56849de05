//! How fast a trace is checked, printed and read.
//!
//! It makes a trace of erases with their status polls, or of page reads, so many items long, and checks it, or prints it and reads what was
//! printed. What came of it goes to standard output; how long it took, to standard error.

use anyhow::bail;
use nand_geometry::{Geometry, Parts, SMALL_CHIP};
use onfi_cycle::{Cycle, Failures, Item, Kind};
use std::alloc::{AllocError, Global};
use std::time::{Duration, Instant};
use trace_text::{check, is_printable, parse, print};

// One LUN of 8 blocks of 4 pages.
const ONE_LUN: Parts = SMALL_CHIP;

const READY: Item = Item::Rdy {
    ce: 0,
    lun: 0,
    fail: Failures {
        last: false,
        before: false,
    },
};

fn cycle(kind: Kind, byte: u8) -> Item {
    Item::Cyc(Cycle { ce: 0, kind, byte })
}

// The item at this place of a trace of erases, one block after another, each asked for its status until it is ready.
fn item_at(place: usize) -> Item {
    match place % 10 {
        0 => cycle(Kind::Cmd, 0x60),
        1 => cycle(Kind::Adr, (place / 10 % 8 * 4) as u8),
        2 | 3 => cycle(Kind::Adr, 0x00),
        4 => cycle(Kind::Cmd, 0xd0),
        5 | 8 => cycle(Kind::Cmd, 0x70),
        6 => cycle(Kind::Dout, 0x80),
        7 => READY,
        _ => cycle(Kind::Dout, 0xe0),
    }
}

// The item at this place of a trace of page reads: nine items up to the data, and the 528 bytes of an erased page.
fn read_item_at(place: usize) -> Item {
    match place % 537 {
        0 | 8 => cycle(Kind::Cmd, 0x00),
        1..=5 => cycle(Kind::Adr, 0x00),
        6 => cycle(Kind::Cmd, 0x30),
        7 => READY,
        _ => cycle(Kind::Dout, 0xff),
    }
}

/// What a trace is of.
#[derive(Clone, Copy)]
pub enum Made {
    Erases,
    Reads,
}

fn made_trace(alloc: Global, made: Made, count: usize) -> Result<Vec<Item>, AllocError> {
    let mut items = Vec::with_capacity(alloc, count)?;
    for place in 0..count {
        items.push(match made {
            Made::Erases => item_at(place),
            Made::Reads => read_item_at(place),
        })?;
    }
    Ok(items)
}

// Tells how fast something was done to so many items.
fn tell_rate(rt: &HostRuntime, what: &str, count: usize, time: Duration) -> anyhow::Result<()> {
    let micros = time.as_micros().max(1);
    let rate = count as u128 * 1_000_000 / micros;
    eprintln!(rt; "{what}: {micros} us, {rate} items per second")?;
    Ok(())
}

/// Measures the check of a trace of so many items.
pub fn measure_check(rt: &HostRuntime, made: Made, count: usize) -> anyhow::Result<()> {
    let geometry = Geometry::of(ONE_LUN)?;
    let items = made_trace(rt.alloc(), made, count)?;
    let start = Instant::now(rt)?;
    let verdict = check(&geometry, 1, &items);
    let time = start.elapsed(rt)?;
    match verdict {
        Ok(()) => println!(rt; "{count} items, each permitted")?,
        Err(refusal) => println!(rt; "{refusal}")?,
    }
    tell_rate(rt, "check", count, time)
}

/// Measures how so many items of page reads are printed, and read again.
pub fn measure_text(rt: &HostRuntime, count: usize) -> anyhow::Result<()> {
    let items = made_trace(rt.alloc(), Made::Reads, count)?;
    if !is_printable(&items) {
        bail!("an item is of no chip enable");
    }
    let start = Instant::now(rt)?;
    let text = print(rt.alloc(), &items)?;
    let printed = start.elapsed(rt)?;
    let start = Instant::now(rt)?;
    let read = parse(rt.alloc(), &text)?;
    let parsed = start.elapsed(rt)?;
    if read.as_slice() != items.as_slice() {
        bail!("the text is read as another trace");
    }
    println!(rt; "{count} items, read as they were printed")?;
    tell_rate(rt, "print", count, printed)?;
    tell_rate(rt, "parse", count, parsed)
}
