//! Made items: operations at a random place, of which some are spoilt.
use onfi_cycle::{Cycle, Failures, Item, Kind};
use std::alloc::{AllocError, Global};

/// A part of an operation.
#[derive(Clone, Copy)]
pub enum Part {
    Command(u8),
    Address(u8),
    // Two bytes of a column.
    Column,
    // Three bytes of a row, and of one in the other plane.
    Row,
    OtherPlane,
    Input,
    Output,
    Ready,
    ArrayReady,
    // A ready that may tell of the page before, and one of the array that may tell of its page.
    ReadyOfTwo,
    ArrayEnd,
    // A ready of the LUN of this number.
    ReadyOf(u8),
}

/// The operations of which a trace is made.
pub type Operations = [&'static [Part]; 16];

use Part::{
    Address, ArrayEnd, ArrayReady, Column, Command, Input, OtherPlane, Output, Ready, ReadyOf,
    ReadyOfTwo, Row,
};

const READ: [Part; 9] = [
    Command(0x00),
    Column,
    Row,
    Command(0x30),
    Output,
    Ready,
    Output,
    Output,
    Output,
];

// A read whose LUN is then made the one driver.
const READ_ALONE: [Part; 10] = [
    Command(0x00),
    Column,
    Row,
    Command(0x30),
    Ready,
    Command(0x78),
    Row,
    Command(0x00),
    Output,
    Output,
];

const START_READ: [Part; 4] = [Command(0x00), Column, Row, Command(0x30)];

const PROGRAM: [Part; 7] = [
    Command(0x80),
    Column,
    Row,
    Input,
    Input,
    Command(0x10),
    Ready,
];

const PROGRAM_AND_READ: [Part; 14] = [
    Command(0x80),
    Column,
    Row,
    Input,
    Input,
    Command(0x10),
    Ready,
    Command(0x00),
    Column,
    Row,
    Command(0x30),
    Ready,
    Output,
    Output,
];

// A program of two columns.
const PROGRAM_TWICE: [Part; 9] = [
    Command(0x80),
    Column,
    Row,
    Input,
    Command(0x85),
    Column,
    Input,
    Command(0x10),
    Ready,
];

const PROGRAM_PLANES: [Part; 12] = [
    Command(0x80),
    Column,
    Row,
    Input,
    Command(0x11),
    Ready,
    Command(0x80),
    Column,
    OtherPlane,
    Input,
    Command(0x10),
    Ready,
];

const QUEUE_PROGRAM: [Part; 6] = [Command(0x80), Column, Row, Input, Command(0x11), Ready];

const ERASE: [Part; 4] = [Command(0x60), Row, Command(0xd0), Ready];

const START_ERASE: [Part; 3] = [Command(0x60), Row, Command(0xd0)];

const ERASE_PLANES: [Part; 8] = [
    Command(0x60),
    Row,
    Command(0xd1),
    Ready,
    Command(0x60),
    OtherPlane,
    Command(0xd0),
    Ready,
];

const CACHE_READ: [Part; 16] = [
    Command(0x00),
    Column,
    Row,
    Command(0x30),
    Ready,
    Command(0x31),
    Ready,
    ArrayReady,
    Output,
    Command(0x31),
    Ready,
    Output,
    ArrayReady,
    Command(0x3f),
    Ready,
    Output,
];

// A cache read that ends, or is reset, while its array works.
const SHORT_CACHE_READ: [Part; 11] = [
    Command(0x00),
    Column,
    Row,
    Command(0x30),
    Ready,
    Command(0x31),
    Ready,
    Output,
    Command(0x3f),
    Ready,
    Output,
];

// One of a LUN that is then made the one driver.
const CACHE_READ_ALONE: [Part; 13] = [
    Command(0x00),
    Column,
    Row,
    Command(0x30),
    Ready,
    Command(0x78),
    Row,
    Command(0x31),
    Ready,
    Output,
    Command(0x3f),
    Ready,
    Output,
];

// In the wider profile: a cache read that goes on at the row of a second 00h, and one behind whatever its LUN did before.
const RANDOM_CACHE_READ: [Part; 15] = [
    Command(0x00),
    Column,
    Row,
    Command(0x30),
    Ready,
    Command(0x00),
    Column,
    OtherPlane,
    Command(0x31),
    Ready,
    Output,
    Command(0x3f),
    Ready,
    Output,
    Output,
];

const GO_ON_ELSEWHERE: [Part; 7] = [
    Command(0x00),
    Column,
    Row,
    Command(0x31),
    Ready,
    ArrayReady,
    Output,
];

// In the wider profile: the column of a page that is read, of one in whatever plane, and of one that a cache read holds.
const READ_AND_SELECT: [Part; 12] = [
    Command(0x00),
    Column,
    Row,
    Command(0x30),
    Ready,
    Command(0x06),
    Column,
    Row,
    Command(0xe0),
    Output,
    Output,
    Output,
];

const SELECT_PLANE: [Part; 6] = [Command(0x06), Column, Row, Command(0xe0), Output, Output];

const SELECT_IN_CACHE_READ: [Part; 14] = [
    Command(0x00),
    Column,
    Row,
    Command(0x30),
    Ready,
    Command(0x31),
    Ready,
    Command(0x06),
    Column,
    Row,
    Command(0xe0),
    Output,
    Command(0x3f),
    Ready,
];

// The plane of another page than the one that is read, and a reset of the sequence that stays open.
const SELECT_OTHER_PLANE: [Part; 13] = [
    Command(0x00),
    Column,
    Row,
    Command(0x30),
    Ready,
    Command(0x06),
    Column,
    OtherPlane,
    Command(0xe0),
    Output,
    Command(0xff),
    ReadyOf(0),
    ReadyOf(1),
];

// Reads of two planes, and the page of each.
const READ_PLANES: [Part; 20] = [
    Command(0x00),
    Column,
    Row,
    Command(0x32),
    Ready,
    Command(0x00),
    Column,
    OtherPlane,
    Command(0x30),
    Ready,
    Command(0x06),
    Column,
    Row,
    Command(0xe0),
    Output,
    Command(0x06),
    Column,
    OtherPlane,
    Command(0xe0),
    Output,
];

// A queued read, and one of whatever page behind it.
const QUEUE_READ: [Part; 5] = [Command(0x00), Column, Row, Command(0x32), Ready];

const READ_BEHIND: [Part; 6] = [
    Command(0x00),
    Column,
    OtherPlane,
    Command(0x30),
    Ready,
    Output,
];

const RESET_CACHE_READ: [Part; 9] = [
    Command(0x00),
    Column,
    Row,
    Command(0x30),
    Ready,
    Command(0x31),
    Ready,
    Command(0xff),
    Ready,
];

const STATUS: [Part; 3] = [Command(0x70), Output, Output];

const STATUS_OF_ROW: [Part; 4] = [Command(0x78), Row, Output, Output];

const DATA_AGAIN: [Part; 3] = [Command(0x00), Output, Output];

const CHANGE_COLUMN: [Part; 5] = [Command(0x05), Column, Command(0xe0), Output, Output];

const IDENTIFIER: [Part; 7] = [
    Command(0x90),
    Address(0x20),
    Output,
    Output,
    Output,
    Output,
    Output,
];

const PARAMETERS: [Part; 6] = [Command(0xec), Address(0x00), Ready, Output, Output, Output];

const RESET: [Part; 2] = [Command(0xff), Ready];

// Works that are reset.
const RESET_PROGRAM: [Part; 7] = [
    Command(0x80),
    Column,
    Row,
    Input,
    Command(0x10),
    Command(0xff),
    Ready,
];

const RESET_ERASE: [Part; 5] = [Command(0x60), Row, Command(0xd0), Command(0xff), Ready];

// Queues that are reset, and a work of the other plane behind them.
const RESET_PROGRAM_QUEUE: [Part; 14] = [
    Command(0x80),
    Column,
    Row,
    Input,
    Command(0x11),
    Ready,
    Command(0xff),
    Ready,
    Command(0x80),
    Column,
    OtherPlane,
    Input,
    Command(0x10),
    Ready,
];

const RESET_ERASE_QUEUE: [Part; 10] = [
    Command(0x60),
    Row,
    Command(0xd1),
    Ready,
    Command(0xff),
    Ready,
    Command(0x60),
    OtherPlane,
    Command(0xd0),
    Ready,
];

const READIES: [Part; 2] = [Ready, ArrayReady];

// In the wider profile: what is done for a whole target, of which the first LUN becomes ready, or of a reset each.
const RESET_ALL: [Part; 3] = [Command(0xff), ReadyOf(0), ReadyOf(1)];

const PARAMETERS_OF_ALL: [Part; 6] = [
    Command(0xec),
    Address(0x00),
    ReadyOf(0),
    Output,
    Output,
    Output,
];

const UNIQUE_ID: [Part; 5] = [Command(0xed), Address(0x00), ReadyOf(0), Output, Output];

const SET_FEATURES: [Part; 9] = [
    Command(0xef),
    Address(0x01),
    Input,
    Input,
    Input,
    Input,
    Command(0x70),
    Output,
    ReadyOf(0),
];

const GET_FEATURES: [Part; 6] = [
    Command(0xee),
    Address(0x01),
    ReadyOf(0),
    Command(0x70),
    Command(0x00),
    Output,
];

const RESET_ONE: [Part; 3] = [Command(0xfa), Row, Ready];

// Work of one LUN, and the status without a row.
const ERASE_AND_STATUS: [Part; 6] = [
    Command(0x60),
    Row,
    Command(0xd0),
    Command(0x70),
    Output,
    Ready,
];

const BOTH_READY: [Part; 2] = [ReadyOf(0), ReadyOf(1)];

// What ends most sequences that a spoilt operation has left open.
const ENDING: [Part; 10] = [
    Address(0x00),
    Address(0x00),
    Address(0x00),
    Address(0x00),
    Command(0xe0),
    Command(0x10),
    Command(0xd0),
    Command(0x30),
    Input,
    Ready,
];

/// Operations of one LUN in one plane.
pub const PLAIN: Operations = [
    &READ,
    &START_READ,
    &PROGRAM,
    &PROGRAM_AND_READ,
    &PROGRAM_AND_READ,
    &PROGRAM_AND_READ,
    &PROGRAM_TWICE,
    &ERASE,
    &STATUS,
    &CHANGE_COLUMN,
    &CHANGE_COLUMN,
    &IDENTIFIER,
    &PARAMETERS,
    &RESET_PROGRAM,
    &READIES,
    &ENDING,
];

/// Those with the cache read.
pub const CACHED: Operations = [
    &PROGRAM,
    &PROGRAM_AND_READ,
    &CACHE_READ,
    &CACHE_READ,
    &CACHE_READ,
    &SHORT_CACHE_READ,
    &SHORT_CACHE_READ,
    &RESET_CACHE_READ,
    &STATUS,
    &STATUS_OF_ROW,
    &CHANGE_COLUMN,
    &DATA_AGAIN,
    &RESET,
    &RESET_ERASE,
    &READIES,
    &ENDING,
];

/// Operations of one LUN in two planes.
pub const PLANED: Operations = [
    &READ,
    &PROGRAM,
    &PROGRAM_AND_READ,
    &PROGRAM_PLANES,
    &PROGRAM_PLANES,
    &RESET_PROGRAM_QUEUE,
    &QUEUE_PROGRAM,
    &ERASE_PLANES,
    &RESET_ERASE_QUEUE,
    &CACHE_READ,
    &STATUS,
    &CHANGE_COLUMN,
    &RESET_PROGRAM_QUEUE,
    &IDENTIFIER,
    &READIES,
    &ENDING,
];

/// Operations of several LUNs.
pub const SHARED: Operations = [
    &READ_ALONE,
    &READ_ALONE,
    &PROGRAM_AND_READ,
    &START_READ,
    &START_ERASE,
    &PROGRAM,
    &PROGRAM_PLANES,
    &QUEUE_PROGRAM,
    &ERASE_PLANES,
    &CACHE_READ_ALONE,
    &STATUS_OF_ROW,
    &STATUS_OF_ROW,
    &CHANGE_COLUMN,
    &STATUS,
    &READIES,
    &ENDING,
];

/// Operations of several LUNs in the wider profile.
pub const WIDE: Operations = [
    &READ,
    &READ_ALONE,
    &PROGRAM_AND_READ,
    &START_READ,
    &START_ERASE,
    &ERASE_AND_STATUS,
    &RESET_ALL,
    &RESET_ONE,
    &SET_FEATURES,
    &GET_FEATURES,
    &IDENTIFIER,
    &PARAMETERS_OF_ALL,
    &UNIQUE_ID,
    &STATUS_OF_ROW,
    &BOTH_READY,
    &ENDING,
];

/// Those with the cache read at a row, of several LUNs in the wider profile.
pub const ELSEWHERE: Operations = [
    &READ,
    &PROGRAM_AND_READ,
    &PROGRAM_AND_READ,
    &START_READ,
    &RANDOM_CACHE_READ,
    &RANDOM_CACHE_READ,
    &RANDOM_CACHE_READ,
    &GO_ON_ELSEWHERE,
    &GO_ON_ELSEWHERE,
    &SHORT_CACHE_READ,
    &CACHE_READ_ALONE,
    &STATUS_OF_ROW,
    &DATA_AGAIN,
    &ERASE_PLANES,
    &READIES,
    &ENDING,
];

/// Those with the column of a LUN that a row names, of several LUNs in the wider profile.
pub const SELECTING: Operations = [
    &READ,
    &PROGRAM_AND_READ,
    &START_READ,
    &READ_AND_SELECT,
    &READ_AND_SELECT,
    &READ_AND_SELECT,
    &SELECT_PLANE,
    &SELECT_PLANE,
    &SELECT_IN_CACHE_READ,
    &SELECT_OTHER_PLANE,
    &SELECT_OTHER_PLANE,
    &CHANGE_COLUMN,
    &STATUS_OF_ROW,
    &DATA_AGAIN,
    &BOTH_READY,
    &ENDING,
];

// A page that is copied to its own place, and read.
const COPY_AND_READ: [Part; 16] = [
    Command(0x00),
    Column,
    Row,
    Command(0x35),
    Ready,
    Command(0x85),
    Column,
    Row,
    Command(0x10),
    Ready,
    Command(0x00),
    Column,
    Row,
    Command(0x30),
    Ready,
    Output,
];

// A page that is read for a copy, and looked at.
const READ_TO_COPY: [Part; 7] = [
    Command(0x00),
    Column,
    Row,
    Command(0x35),
    Ready,
    Output,
    Output,
];

// The copy of a page that was read before it, with a change.
const COPY_CHANGED: [Part; 9] = [
    Command(0x85),
    Column,
    Row,
    Command(0x85),
    Column,
    Input,
    Command(0x10),
    Ready,
    Output,
];

const COPY_PLANES: [Part; 15] = [
    Command(0x00),
    Column,
    OtherPlane,
    Command(0x35),
    Ready,
    Command(0x85),
    Column,
    Row,
    Command(0x11),
    Ready,
    Command(0x85),
    Column,
    OtherPlane,
    Command(0x10),
    Ready,
];

// A queued copy, and one of whatever page behind it.
const QUEUE_COPY: [Part; 5] = [Command(0x85), Column, Row, Command(0x11), Ready];

const COPY_BEHIND: [Part; 5] = [Command(0x85), Column, OtherPlane, Command(0x10), Ready];

const PROGRAM_BEHIND: [Part; 5] = [Command(0x80), Column, OtherPlane, Command(0x10), Ready];

// Two pages of a program that goes on, and what the first one holds then.
const CACHE_PROGRAMS: [Part; 20] = [
    Command(0x80),
    Column,
    Row,
    Input,
    Command(0x15),
    ReadyOfTwo,
    Command(0x80),
    Column,
    OtherPlane,
    Input,
    Command(0x10),
    ReadyOfTwo,
    Command(0x00),
    Column,
    Row,
    Command(0x30),
    Ready,
    Output,
    Output,
    Output,
];

// One page, whose array is waited for.
const CACHE_AND_WAIT: [Part; 17] = [
    Command(0x80),
    Column,
    Row,
    Input,
    Command(0x15),
    ReadyOfTwo,
    Command(0x70),
    Output,
    ArrayEnd,
    Output,
    Command(0x00),
    Column,
    Row,
    Command(0x30),
    Ready,
    Output,
    Output,
];

// One whose array goes on, and the end of such a program.
const CACHE_ONE: [Part; 6] = [Command(0x80), Column, Row, Input, Command(0x15), ReadyOfTwo];

// What may not be asked meanwhile.
const CACHE_AND_ASK: [Part; 10] = [
    Command(0x80),
    Column,
    Row,
    Input,
    Command(0x15),
    ReadyOfTwo,
    Command(0x90),
    Command(0xec),
    Command(0x70),
    Output,
];

const END_OF_CACHE: [Part; 8] = [
    Command(0x80),
    Column,
    Row,
    Input,
    Command(0x10),
    ReadyOfTwo,
    Command(0x70),
    Output,
];

// A page in each of two planes.
const CACHE_PLANES: [Part; 13] = [
    Command(0x80),
    Column,
    Row,
    Input,
    Command(0x11),
    ReadyOfTwo,
    Command(0x80),
    Column,
    OtherPlane,
    Input,
    Command(0x15),
    ReadyOfTwo,
    ArrayEnd,
];

// A reset while the array programs.
const RESET_CACHE: [Part; 8] = [
    Command(0x80),
    Column,
    Row,
    Input,
    Command(0x15),
    ReadyOfTwo,
    Command(0xff),
    Ready,
];

/// Those with programs that go on behind their ready.
pub const CACHING: Operations = [
    &PROGRAM_AND_READ,
    &CACHE_PROGRAMS,
    &CACHE_PROGRAMS,
    &CACHE_PROGRAMS,
    &CACHE_AND_WAIT,
    &CACHE_AND_WAIT,
    &CACHE_ONE,
    &CACHE_AND_ASK,
    &END_OF_CACHE,
    &END_OF_CACHE,
    &CACHE_PLANES,
    &CACHE_PLANES,
    &RESET_CACHE,
    &QUEUE_PROGRAM,
    &COPY_AND_READ,
    &ENDING,
];

/// Those with copies of pages.
pub const COPYING: Operations = [
    &PROGRAM_AND_READ,
    &PROGRAM_AND_READ,
    &COPY_AND_READ,
    &COPY_AND_READ,
    &COPY_AND_READ,
    &READ_TO_COPY,
    &READ_TO_COPY,
    &COPY_CHANGED,
    &COPY_CHANGED,
    &COPY_PLANES,
    &COPY_PLANES,
    &QUEUE_COPY,
    &COPY_BEHIND,
    &PROGRAM_BEHIND,
    &READ_PLANES,
    &ENDING,
];

/// Those with reads of several planes.
pub const READING: Operations = [
    &PROGRAM_AND_READ,
    &PROGRAM_AND_READ,
    &READ_PLANES,
    &READ_PLANES,
    &READ_PLANES,
    &READ_PLANES,
    &QUEUE_READ,
    &QUEUE_READ,
    &READ_BEHIND,
    &READ_BEHIND,
    &READ_AND_SELECT,
    &SELECT_PLANE,
    &SELECT_IN_CACHE_READ,
    &PROGRAM_PLANES,
    &BOTH_READY,
    &ENDING,
];

// The low bytes of the rows: mostly page 0 of block 0, then of block 1, and some others. Row 9 isn't among them.
const ROWS: [u8; 16] = [0, 0, 0, 0, 0, 0, 4, 4, 4, 1, 1, 5, 10, 20, 21, 2];

// The columns: the first ones mostly, the last of a page, and the first behind it.
const COLUMNS: [[u8; 2]; 8] = [
    [0x00, 0x00],
    [0x00, 0x00],
    [0x00, 0x00],
    [0x01, 0x00],
    [0x01, 0x00],
    [0x02, 0x00],
    [0x0f, 0x02],
    [0x10, 0x02],
];

const INPUTS: [u8; 8] = [0xa5, 0x3c, 0x0f, 0xf0, 0x00, 0xff, 0x5a, 0x7e];

// What a spoilt byte becomes: the commands, and some bytes that are none.
const BYTES: [u8; 24] = [
    0x00, 0x05, 0x10, 0x11, 0x15, 0x20, 0x30, 0x31, 0x3f, 0x40, 0x60, 0x70, 0x78, 0x80, 0x85, 0x90,
    0xc0, 0xd0, 0xd1, 0xe0, 0xec, 0xff, 0x03, 0x08,
];

const KINDS: [Kind; 4] = [Kind::Cmd, Kind::Adr, Kind::Din, Kind::Dout];

// Where an operation works: a LUN, the low byte of a row of it, and a column.
#[derive(Clone, Copy)]
struct Place {
    ce: u8,
    lun: u8,
    row: u8,
    column: [u8; 2],
}

// The next number of a fixed generator.
fn next(seed: &mut u32) -> u32 {
    let mut x = *seed;
    x ^= x << 13;
    x ^= x >> 17;
    x ^= x << 5;
    *seed = x;
    x
}

fn cycle(ce: u8, kind: Kind, byte: u8) -> Item {
    Item::Cyc(Cycle { ce, kind, byte })
}

fn push_addresses(items: &mut Vec<Item>, ce: u8, bytes: &[u8]) -> Result<(), AllocError> {
    for byte in bytes {
        items.push(cycle(ce, Kind::Adr, *byte))?;
    }
    Ok(())
}

// The items of a part at a place.
fn push_part(
    items: &mut Vec<Item>,
    seed: &mut u32,
    place: Place,
    part: Part,
) -> Result<(), AllocError> {
    let Place {
        ce,
        lun,
        row,
        column,
    } = place;
    match part {
        Part::Command(byte) => items.push(cycle(ce, Kind::Cmd, byte))?,
        Part::Address(byte) => items.push(cycle(ce, Kind::Adr, byte))?,
        Part::Column => push_addresses(items, ce, &column)?,
        Part::Row => push_addresses(items, ce, &[row, 0, 0])?,
        Part::OtherPlane => push_addresses(items, ce, &[row ^ 4, 0, 0])?,
        Part::Input => items.push(cycle(ce, Kind::Din, INPUTS[(next(seed) % 8) as usize]))?,
        Part::Output => items.push(cycle(ce, Kind::Dout, 0))?,
        Part::Ready => {
            let fail = Failures {
                last: next(seed) % 5 == 0,
                before: false,
            };
            items.push(Item::Rdy { ce, lun, fail })?;
        }
        Part::ArrayReady => items.push(Item::Ard {
            ce,
            lun,
            fail: false,
        })?,
        Part::ReadyOfTwo => {
            let fail = Failures {
                last: next(seed) % 5 == 0,
                before: next(seed) % 3 == 0,
            };
            items.push(Item::Rdy { ce, lun, fail })?;
        }
        Part::ArrayEnd => {
            let fail = next(seed) % 3 == 0;
            items.push(Item::Ard { ce, lun, fail })?;
        }
        Part::ReadyOf(lun) => items.push(Item::Rdy {
            ce,
            lun,
            fail: Failures::default(),
        })?,
    }
    Ok(())
}

// A place on one of so many targets of so many LUNs. A row has two bits of the page and three of the block, and then its LUN.
fn some_place(seed: &mut u32, targets: u8, luns: u8) -> Place {
    let ce = (next(seed) % u32::from(targets.max(1))) as u8;
    let lun = (next(seed) % u32::from(luns.max(1))) as u8;
    let low = ROWS[(next(seed) % 16) as usize];
    Place {
        ce,
        lun,
        row: low | lun << 5,
        column: COLUMNS[(next(seed) % 8) as usize],
    }
}

// Another cycle in place of this one: on another target, of another kind, or with another byte.
fn spoilt_cycle(seed: &mut u32, old: Cycle) -> Cycle {
    match next(seed) % 8 {
        0 => Cycle {
            ce: old.ce ^ 1,
            ..old
        },
        1 => Cycle { ce: 3, ..old },
        2 => Cycle {
            kind: KINDS[(next(seed) % 4) as usize],
            ..old
        },
        _ => Cycle {
            byte: BYTES[(next(seed) % 24) as usize],
            ..old
        },
    }
}

// Another item in place of this one: of a ready, that of another LUN, of another target, or of the array.
fn spoilt(seed: &mut u32, item: Item) -> Item {
    match item {
        Item::Cyc(old) => Item::Cyc(spoilt_cycle(seed, old)),
        Item::Rdy { ce, lun, fail } => match next(seed) % 3 {
            0 => Item::Rdy {
                ce: ce ^ 1,
                lun,
                fail,
            },
            1 => Item::Rdy {
                ce,
                lun: lun ^ 1,
                fail,
            },
            _ => Item::Ard {
                ce,
                lun,
                fail: false,
            },
        },
        Item::Ard { ce, lun, .. } => Item::Rdy {
            ce,
            lun,
            fail: Failures::default(),
        },
    }
}

// Adds an item, or at times none, or another one, or it twice.
fn push_at_times(items: &mut Vec<Item>, seed: &mut u32, item: Item) -> Result<(), AllocError> {
    match next(seed) % 80 {
        0 => {}
        1 | 2 => items.push(spoilt(seed, item))?,
        3 => {
            items.push(item)?;
            items.push(item)?;
        }
        _ => items.push(item)?,
    }
    Ok(())
}

// Adds the items of parts at a place, a few of them spoilt.
fn push_parts(
    items: &mut Vec<Item>,
    seed: &mut u32,
    alloc: Global,
    place: Place,
    parts: &[Part],
) -> Result<(), AllocError> {
    let mut whole = Vec::new(alloc);
    for part in parts {
        push_part(&mut whole, seed, place, *part)?;
    }
    for item in whole.as_slice() {
        push_at_times(items, seed, *item)?;
    }
    Ok(())
}

/// The items of twelve of these operations on a channel of so many targets of so many LUNs.
pub fn made(
    alloc: Global,
    seed: &mut u32,
    operations: Operations,
    targets: u8,
    luns: u8,
) -> Result<Vec<Item>, AllocError> {
    let mut items = Vec::new(alloc);
    for _ in 0..12 {
        let place = some_place(seed, targets, luns);
        let parts = operations[(next(seed) % 16) as usize];
        push_parts(&mut items, seed, alloc, place, parts)?;
    }
    Ok(items)
}
