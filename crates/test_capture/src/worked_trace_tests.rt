//! Legal traces of whole sequences, drawn at random: they work on each LUN, which traces of single items seldom do.
use crate::made_trace_tests::{next, permitted_item};
use nand_geometry::Geometry;
use onfi_cycle::{BusState, Cycle, Failures, Item, Kind};
use std::alloc::Global;
use std::test::Fail;

// The first byte of a row, in a sequence.
const ROW: u8 = 0xaa;

// The cycles of each sequence.
const SEQUENCES: [&[(Kind, u8)]; 15] = [
    &[
        (Kind::Cmd, 0x00),
        (Kind::Adr, 0x00),
        (Kind::Adr, 0x00),
        (Kind::Adr, ROW),
        (Kind::Adr, 0x00),
        (Kind::Adr, 0x00),
        (Kind::Cmd, 0x30),
    ],
    &[(Kind::Cmd, 0x31)],
    &[(Kind::Cmd, 0x3f)],
    &[
        (Kind::Cmd, 0x60),
        (Kind::Adr, ROW),
        (Kind::Adr, 0x00),
        (Kind::Adr, 0x00),
        (Kind::Cmd, 0xd0),
    ],
    &[
        (Kind::Cmd, 0x60),
        (Kind::Adr, ROW),
        (Kind::Adr, 0x00),
        (Kind::Adr, 0x00),
        (Kind::Cmd, 0xd1),
    ],
    &[
        (Kind::Cmd, 0x80),
        (Kind::Adr, 0x00),
        (Kind::Adr, 0x00),
        (Kind::Adr, ROW),
        (Kind::Adr, 0x00),
        (Kind::Adr, 0x00),
        (Kind::Din, 0x12),
        (Kind::Cmd, 0x10),
    ],
    &[
        (Kind::Cmd, 0x80),
        (Kind::Adr, 0x00),
        (Kind::Adr, 0x00),
        (Kind::Adr, ROW),
        (Kind::Adr, 0x00),
        (Kind::Adr, 0x00),
        (Kind::Cmd, 0x11),
    ],
    &[
        (Kind::Cmd, 0x78),
        (Kind::Adr, ROW),
        (Kind::Adr, 0x00),
        (Kind::Adr, 0x00),
        (Kind::Dout, 0xe0),
    ],
    &[(Kind::Cmd, 0x70), (Kind::Dout, 0xe0)],
    &[(Kind::Dout, 0x01), (Kind::Dout, 0x41)],
    &[
        (Kind::Cmd, 0x05),
        (Kind::Adr, 0x02),
        (Kind::Adr, 0x00),
        (Kind::Cmd, 0xe0),
        (Kind::Dout, 0x55),
    ],
    &[(Kind::Cmd, 0x00), (Kind::Dout, 0x55)],
    &[(Kind::Cmd, 0xff)],
    &[(Kind::Cmd, 0x90), (Kind::Adr, 0x20), (Kind::Dout, 0x4f)],
    &[(Kind::Cmd, 0xec), (Kind::Adr, 0x00)],
];

// Goes on by an item, where it is permitted.
fn go_on(items: &mut Vec<Item>, state: &mut BusState, item: Item) -> Result<(), Fail> {
    if state.judge(item).is_none() {
        state.apply(item);
        items.push(item)?;
    }
    Ok(())
}

// Goes on by the readies that come by then.
fn become_ready(
    seed: &mut u32,
    items: &mut Vec<Item>,
    state: &mut BusState,
    ce: u8,
) -> Result<(), Fail> {
    for lun in 0..4u8 {
        let number = next(seed);
        if number % 3 > 0 {
            let fail = Failures {
                last: number / 3 % 4 == 0,
                before: false,
            };
            go_on(items, state, Item::Rdy { ce, lun, fail })?;
        }
        if number / 12 % 3 == 0 {
            go_on(
                items,
                state,
                Item::Ard {
                    ce,
                    lun,
                    fail: false,
                },
            )?;
        }
    }
    Ok(())
}

// A channel of so many targets of so many LUNs.
#[derive(Clone, Copy)]
struct Channel {
    targets: u8,
    luns: u8,
}

// Goes on by a sequence on a row; in place of a cycle that isn't permitted comes an item that is.
fn play(
    seed: &mut u32,
    items: &mut Vec<Item>,
    state: &mut BusState,
    channel: Channel,
    ce: u8,
    row: u8,
    sequence: &[(Kind, u8)],
) -> Result<(), Fail> {
    for (kind, byte) in sequence {
        let byte = if *byte == ROW { row } else { *byte };
        let kind = *kind;
        let wanted = Item::Cyc(Cycle { ce, kind, byte });
        if state.judge(wanted).is_none() {
            go_on(items, state, wanted)?;
        } else if let Some(other) = permitted_item(seed, state, channel.targets, channel.luns) {
            go_on(items, state, other)?;
        }
    }
    Ok(())
}

/// A legal trace of so many sequences.
pub(crate) fn worked_trace(
    alloc: Global,
    seed: &mut u32,
    geometry: Geometry,
    targets: u8,
    most: u32,
) -> Result<Vec<Item>, Fail> {
    let mut items = Vec::new(alloc);
    if targets > 4 {
        return Err(Fail::from("more than 4 targets"));
    }
    let luns = geometry.parts().luns;
    let channel = Channel { targets, luns };
    let mut state = BusState::new(geometry, targets);
    for _ in 0..most {
        let ce = (next(seed) % u32::from(targets.max(1))) as u8;
        let row = (next(seed) % (32 * u32::from(luns.max(1))) % 256) as u8;
        let sequence = SEQUENCES[(next(seed) % 15) as usize];
        play(seed, &mut items, &mut state, channel, ce, row, sequence)?;
        become_ready(seed, &mut items, &mut state, ce)?;
    }
    Ok(items)
}
