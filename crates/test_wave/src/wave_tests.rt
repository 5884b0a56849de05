use crate::dumps::{BROKEN_DUMP, CACHED_DUMP, EMPTY_DUMP, ERASE_DUMP, FAILED_DUMP};
use nand_geometry::{Geometry, Parts, SMALL_CHIP};
use onfi_cycle::Item;
use std::alloc::Global;
use std::test::Fail;
use trace_text::parse;
use trace_wave::{Dump, write_dump};

// One LUN of 8 blocks of 4 pages of 512 + 16 bytes, in one plane, with cache reads.
const ONE_LUN: Parts = Parts {
    cache: true,
    ..SMALL_CHIP
};

// Two such LUNs, each in two planes.
const TWO_LUNS: Parts = Parts {
    luns: 2,
    plane_bits: 1,
    enhanced: true,
    multi_plane: true,
    ..SMALL_CHIP
};

// The erase of a block, asked for its status before and after it is ready.
const ERASE: &str =
    "0 C 60\n0 A 04\n0 A 00\n0 A 00\n0 C d0\n0 C 70\n0 O 80\n0 R 0 0\n0 C 70\n0 O e0\n";

// An erase that fails on LUN 1 of target 1, while target 0 is asked for its status.
const FAILED: &str =
    "1 C 60\n1 A 20\n1 A 00\n1 A 00\n1 C d0\n1 R 1 1\n0 C 78\n0 A 00\n0 A 00\n0 A 00\n0 O e0\n";

// A program's closer after an erase, at item 5, which breaks F6; a ready and a command after it.
const BROKEN: &str = "0 C 60\n0 A 00\n0 A 00\n0 A 00\n0 C d0\n0 C 10\n0 R 0 0\n1 C 70\n";

// A read, a cache read after it with two of its bytes, and the ready of the array.
const CACHED: &str =
    "0 C 00\n0 A 00\n0 A 00\n0 A 00\n0 A 00\n0 A 00\n0 C 30\n0 R 0 0\n0 C 31\n0 R 0 0\n0 O a5\n0 O 5a\n0 Y 0\n";

// The dump of the trace of this text, on so many targets.
fn dump_of(alloc: Global, parts: Parts, targets: u8, text: &str) -> Result<Vec<u8>, Fail> {
    if targets > 4 {
        return Err(Fail::from("more than 4 targets"));
    }
    let geometry = Geometry::of(parts)?;
    let items = parse(alloc, text)?;
    Ok(write_dump(alloc, &geometry, targets, &items)?)
}

// Adds the frames of an item, and hands them on.
fn draw_piece(
    whole: &mut Vec<u8>,
    piece: &mut Vec<u8>,
    dump: &mut Dump,
    item: Item,
) -> Result<(), Fail> {
    dump.draw(piece, item)?;
    whole.append(piece)?;
    Ok(())
}

// The same dump, item by item, each taken out of the Vec as it comes.
fn dump_in_pieces(alloc: Global, parts: Parts, targets: u8, text: &str) -> Result<Vec<u8>, Fail> {
    if targets > 4 {
        return Err(Fail::from("more than 4 targets"));
    }
    let geometry = Geometry::of(parts)?;
    let items = parse(alloc, text)?;
    let (mut whole, mut piece) = (Vec::new(alloc), Vec::new(alloc));
    let mut dump = Dump::begin(&geometry, targets, &mut whole)?;
    for item in &items {
        draw_piece(&mut whole, &mut piece, &mut dump, *item)?;
    }
    dump.end(&mut whole)?;
    Ok(whole)
}

#[test]
fn an_erase(rt: HostRuntime) -> Result<(), Fail> {
    assert_eq!(rt;
        dump_of(rt.alloc(), ONE_LUN, 1, ERASE)?.as_slice(),
        ERASE_DUMP.as_bytes()
    );
    Ok(())
}

// The last time stands even where nothing changes at it.
#[test]
fn no_item(rt: HostRuntime) -> Result<(), Fail> {
    assert_eq!(rt;
        dump_of(rt.alloc(), ONE_LUN, 0, "")?.as_slice(),
        EMPTY_DUMP.as_bytes()
    );
    Ok(())
}

// `fail` is high from the ready to the next item.
#[test]
fn a_failure(rt: HostRuntime) -> Result<(), Fail> {
    assert_eq!(rt;
        dump_of(rt.alloc(), TWO_LUNS, 2, FAILED)?.as_slice(),
        FAILED_DUMP.as_bytes()
    );
    Ok(())
}

// The lines of the model are x from the item on that breaks a rule, and the bus goes on.
#[test]
fn a_broken_rule(rt: HostRuntime) -> Result<(), Fail> {
    assert_eq!(rt;
        dump_of(rt.alloc(), TWO_LUNS, 2, BROKEN)?.as_slice(),
        BROKEN_DUMP.as_bytes()
    );
    Ok(())
}

#[test]
fn a_cache_read(rt: HostRuntime) -> Result<(), Fail> {
    assert_eq!(rt;
        dump_of(rt.alloc(), ONE_LUN, 1, CACHED)?.as_slice(),
        CACHED_DUMP.as_bytes()
    );
    Ok(())
}

#[test]
fn pieces(rt: HostRuntime) -> Result<(), Fail> {
    assert_eq!(rt;
        dump_in_pieces(rt.alloc(), TWO_LUNS, 2, FAILED)?.as_slice(),
        FAILED_DUMP.as_bytes()
    );
    Ok(())
}
