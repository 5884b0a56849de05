//! How fast a bus is.
//!
//! It programs so many pages of a modelled die, reads them again whole, byte by byte, and erases their blocks, with status polls. It
//! compares each byte with the one that was programmed. What came of it goes to standard output; how long it took, to standard error.

ghost use Rattle.std.specs.Prelude.{◌≡◌, false};
ghost use Rattle.target_bus.specs.Bus.{is_output};

use die_model::LunDie;
use nand_geometry::{Geometry, Optional, Parts};
use onfi_cycle::{Cycle, Failures, Kind, Lun};
use std::alloc::Global;
use std::time::Instant;
use target_bus::{Bus, BusRefusal};

// One LUN of 64 blocks of 64 pages.
const ONE_LUN: Parts = Parts {
    page_bytes: 4096,
    spare_bytes: 256,
    pages: 64,
    blocks: 64,
    luns: 1,
    plane_bits: 0,
    enhanced: false,
    multi_plane: false,
    cache: false,
    optional: Optional::NONE,
};

const PAGE_LEN: u32 = 4352;

const LUN: Lun = Lun { ce: 0, lun: 0 };

// The byte that is programmed at a column of a row.
fn byte_at(row: u32, column: u32) -> u8 {
    let (of_row, of_column) = (row.to_le_bytes(), column.to_le_bytes());
    of_row[0].wrapping_add(of_column[0])
}

fn put(bus: &mut Bus, kind: Kind, byte: u8) -> Result<(), BusRefusal>
    requires { is_output kind ≡ false }
{
    bus.put(Cycle { ce: 0, kind, byte })
}

fn row_address(bus: &mut Bus, row: u32) -> Result<(), BusRefusal> {
    let bytes = row.to_le_bytes();
    put(bus, Kind::Adr, bytes[0])?;
    put(bus, Kind::Adr, bytes[1])?;
    put(bus, Kind::Adr, bytes[2])
}

fn address(bus: &mut Bus, row: u32) -> Result<(), BusRefusal> {
    put(bus, Kind::Adr, 0)?;
    put(bus, Kind::Adr, 0)?;
    row_address(bus, row)
}

fn status(bus: &mut Bus) -> Result<u8, BusRefusal> {
    put(bus, Kind::Cmd, 0x70)?;
    bus.take(0)
}

// Whether the LUN says busy, becomes ready, and says ready.
fn wait(bus: &mut Bus) -> Result<bool, BusRefusal> {
    Ok(status(bus)? == 0x80 && bus.ready(LUN, Failures::default()) && status(bus)? == 0xe0)
}

fn program(bus: &mut Bus, row: u32) -> Result<bool, BusRefusal> {
    put(bus, Kind::Cmd, 0x80)?;
    address(bus, row)?;
    for column in 0..PAGE_LEN {
        put(bus, Kind::Din, byte_at(row, column))?;
    }
    put(bus, Kind::Cmd, 0x10)?;
    wait(bus)
}

// Whether the bytes of a row come as they were programmed.
fn are_taken(bus: &mut Bus, row: u32) -> Result<bool, BusRefusal> {
    let mut right = true;
    for column in 0..PAGE_LEN {
        right &= bus.take(0)? == byte_at(row, column);
    }
    Ok(right)
}

fn read(bus: &mut Bus, row: u32) -> Result<bool, BusRefusal> {
    put(bus, Kind::Cmd, 0x00)?;
    address(bus, row)?;
    put(bus, Kind::Cmd, 0x30)?;
    let waited = wait(bus)?;
    put(bus, Kind::Cmd, 0x00)?;
    Ok(are_taken(bus, row)? && waited)
}

fn erase(bus: &mut Bus, row: u32) -> Result<bool, BusRefusal> {
    put(bus, Kind::Cmd, 0x60)?;
    row_address(bus, row)?;
    put(bus, Kind::Cmd, 0xd0)?;
    wait(bus)
}

fn programs(bus: &mut Bus, pages: u32) -> Result<bool, BusRefusal> {
    let mut right = true;
    for row in 0..pages {
        right &= program(bus, row)?;
    }
    Ok(right)
}

fn reads(bus: &mut Bus, pages: u32) -> Result<bool, BusRefusal> {
    let mut right = true;
    for row in 0..pages {
        right &= read(bus, row)?;
    }
    Ok(right)
}

fn erases(bus: &mut Bus, pages: u32) -> Result<bool, BusRefusal> {
    let mut right = true;
    for row in 0..pages {
        if row % 64 == 0 {
            right &= erase(bus, row)?;
        }
    }
    Ok(right)
}

// Says how long some items took.
fn tell(rt: &HostRuntime, what: &str, items: usize, micros: u128) -> anyhow::Result<()> {
    let rate = items as u128 * 1_000_000 / micros.max(1);
    eprintln!(rt; "{what}: {items} items, {micros} us, {rate} items per second")?;
    Ok(())
}

fn one_die(alloc: Global) -> anyhow::Result<Bus> {
    let geometry = Geometry::of(ONE_LUN)?;
    let mut dies = Vec::with_capacity(alloc, 1)?;
    dies.push(LunDie::new(alloc, geometry)?)?;
    match Bus::new(alloc, geometry, dies) {
        Ok(bus) => Ok(bus),
        Err(refused) => Err(refused.fault.into()),
    }
}

/// Measures a bus over so many pages.
pub fn measure_bus(rt: &HostRuntime, pages: u32) -> anyhow::Result<()> {
    let mut bus = one_die(rt.alloc())?;
    let start = Instant::now(rt)?;
    let programmed = programs(&mut bus, pages)?;
    let (end, first) = (Instant::now(rt)?, bus.trace().len());
    let read = reads(&mut bus, pages)?;
    let (last, second) = (Instant::now(rt)?, bus.trace().len());
    let erased = erases(&mut bus, pages)?;
    let micros = last.elapsed(rt)?.as_micros();
    let all = bus.trace().len();
    tell(rt, "programs", first, end.duration_since(start).as_micros())?;
    tell(
        rt,
        "reads",
        second.saturating_sub(first),
        last.duration_since(end).as_micros(),
    )?;
    tell(rt, "erases", all.saturating_sub(second), micros)?;
    if programmed && read && erased {
        println!(rt; "{all} items, each byte as it was programmed")?;
    } else {
        println!(rt; "a byte was wrong")?;
    }
    Ok(())
}
