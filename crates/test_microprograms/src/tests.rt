use crate::channel::{Program, core_of, load, run, run_failing};
use micro_word::Word;
use nand_geometry::{Geometry, Parts, SMALL_CHIP};
use onfi_cycle::Lun;
use seq_core::Core;
use std::alloc::Global;
use std::test::Fail;
use trace_text::check;

// One LUN of 8 blocks of 4 pages of 512 + 16 bytes, in one plane, that reads a cache.
const ONE_LUN: Parts = Parts {
    cache: true,
    ..SMALL_CHIP
};

// Two such LUNs, each in two planes.
const TWO_LUNS: Parts = Parts {
    luns: 2,
    plane_bits: 1,
    enhanced: true,
    multi_plane: true,
    ..ONE_LUN
};

// Four of them.
const FOUR_LUNS: Parts = Parts {
    luns: 4,
    ..TWO_LUNS
};

const READ: Word = Word::Command { byte: 0x00 };

const START_READ: Word = Word::Command { byte: 0x30 };

const ERASE: Word = Word::Command { byte: 0x60 };

const START_ERASE: Word = Word::Command { byte: 0xd0 };

const PROGRAM: Word = Word::Command { byte: 0x80 };

const START_PROGRAM: Word = Word::Command { byte: 0x10 };

const ADDRESS: Word = Word::Address { from: 0, count: 5 };

const COLUMN: Word = Word::Address { from: 0, count: 2 };

const ROW: Word = Word::Address { from: 2, count: 3 };

const FIRST: Word = Word::Address { from: 0, count: 1 };

const END: Word = Word::End { code: 0 };

// What the buffer of a program holds at its end.
#[derive(Clone, Copy)]
enum Wanted<'a> {
    Bytes(&'a [u8]),
    // so often one byte, then so often another
    Two(u8, usize, u8, usize),
    ParameterPage,
}

// A program, the base of its job, and what its buffer holds at its end.
#[derive(Clone, Copy)]
struct Row<'a> {
    program: Program<'a>,
    base: u32,
    wanted: Wanted<'a>,
}

const NONE: Program<'static> = Program {
    rows: 1,
    buffer: 0,
    budget: 0,
    words: &[],
    given: &[],
};

// The pages of each die: of row 0 all 11h, of row 1 all 22h, of row 4 all 33h.
const PAGES: [(u8, u8); 3] = [(0, 0x11), (1, 0x22), (4, 0x33)];

const ERASE_BLOCK: [Word; 5] = [ERASE, ROW, START_ERASE, Word::Wait, END];

const READ_PAGE: [Word; 7] = [
    READ,
    ADDRESS,
    START_READ,
    Word::Wait,
    READ,
    Word::Get { len: 528 },
    END,
];

const HANDING_ON: [Word; 13] = [
    READ,
    COLUMN,
    ROW,
    START_READ,
    Word::Yield,
    Word::Wait,
    Word::Yield,
    Word::ReadStatus,
    READ,
    Word::Get { len: 500 },
    Word::Get { len: 28 },
    Word::Yield,
    END,
];

const OTHER_COLUMN: [Word; 15] = [
    Word::RowAdd { rows: 1 },
    READ,
    ADDRESS,
    START_READ,
    Word::Wait,
    READ,
    Word::Get { len: 1 },
    Word::ReadStatus,
    READ,
    Word::Column { column: 527 },
    Word::Command { byte: 0x05 },
    COLUMN,
    Word::Command { byte: 0xe0 },
    Word::Get { len: 1 },
    END,
];

const PROGRAM_AND_READ: [Word; 13] = [
    PROGRAM,
    ADDRESS,
    Word::Put { len: 2 },
    START_PROGRAM,
    Word::Wait,
    READ,
    ADDRESS,
    START_READ,
    Word::Wait,
    READ,
    Word::Seek { place: 2 },
    Word::Get { len: 2 },
    END,
];

const TWO_PAGES: [Word; 13] = [
    READ,
    ADDRESS,
    START_READ,
    Word::Wait,
    Word::Command { byte: 0x31 },
    Word::Wait,
    READ,
    Word::Get { len: 528 },
    Word::Command { byte: 0x3f },
    Word::Wait,
    READ,
    Word::Get { len: 528 },
    END,
];

const IDENTIFIER: [Word; 5] = [
    Word::Column { column: 32 },
    Word::Command { byte: 0x90 },
    FIRST,
    Word::Get { len: 4 },
    END,
];

const PARAMETERS: [Word; 6] = [
    Word::Command { byte: 0xec },
    FIRST,
    Word::Wait,
    READ,
    Word::Get { len: 256 },
    END,
];

const STATUS_BYTES: [Word; 3] = [Word::ReadStatus, Word::Get { len: 65_536 }, END];

const PLANES: [Word; 12] = [
    PROGRAM,
    ADDRESS,
    Word::Put { len: 1 },
    Word::Command { byte: 0x11 },
    Word::Wait,
    Word::Plane { plane: 1 },
    PROGRAM,
    ADDRESS,
    Word::Put { len: 1 },
    START_PROGRAM,
    Word::Wait,
    END,
];

// Four bytes in each of two turns of a loop.
const GET_TWICE: [Word; 9] = [
    READ,
    ADDRESS,
    START_READ,
    Word::Wait,
    READ,
    Word::Loop { turns: 2 },
    Word::Get { len: 4 },
    Word::Next,
    END,
];

// The first bytes of two pages, turn by turn, and a branch where nothing failed.
const FIRST_BYTES: [Word; 12] = [
    Word::Loop { turns: 2 },
    READ,
    ADDRESS,
    START_READ,
    Word::Wait,
    Word::BranchOnStatus {
        mask: 0x20,
        target: 7,
    },
    Word::Column { column: 0 },
    READ,
    Word::Get { len: 1 },
    Word::RowAdd { rows: 1 },
    Word::Next,
    END,
];

const ERASE_BLOCKS: [Word; 8] = [
    Word::Loop { turns: 2 },
    ERASE,
    ROW,
    START_ERASE,
    Word::Wait,
    Word::RowAdd { rows: 4 },
    Word::Next,
    END,
];

// The erase of block 0 and of block 1, each in its plane.
const ERASE_PLANES: [Word; 11] = [
    ERASE,
    ROW,
    Word::Command { byte: 0xd1 },
    Word::Wait,
    Word::Yield,
    Word::Plane { plane: 1 },
    ERASE,
    ROW,
    START_ERASE,
    Word::Wait,
    END,
];

// Programs for one LUN and for several.
const ROWS: [Row<'static>; 9] = [
    Row {
        program: Program {
            buffer: 8,
            budget: 16,
            words: &GET_TWICE,
            ..NONE
        },
        base: 0,
        wanted: Wanted::Two(0x11, 8, 0, 0),
    },
    Row {
        program: Program {
            rows: 2,
            buffer: 4,
            budget: 18,
            words: &FIRST_BYTES,
            ..NONE
        },
        base: 0,
        wanted: Wanted::Bytes(&[0x11, 0x22, 0, 0]),
    },
    Row {
        program: Program {
            rows: 5,
            budget: 10,
            words: &ERASE_BLOCKS,
            ..NONE
        },
        base: 0,
        wanted: Wanted::Bytes(&[]),
    },
    Row {
        program: Program {
            budget: 5,
            words: &ERASE_BLOCK,
            ..NONE
        },
        base: 0,
        wanted: Wanted::Bytes(&[]),
    },
    Row {
        program: Program {
            buffer: 528,
            budget: 536,
            words: &READ_PAGE,
            ..NONE
        },
        base: 0,
        wanted: Wanted::Two(0x11, 528, 0, 0),
    },
    Row {
        program: Program {
            buffer: 528,
            budget: 541,
            words: &HANDING_ON,
            ..NONE
        },
        base: 0,
        wanted: Wanted::Two(0x11, 528, 0, 0),
    },
    Row {
        program: Program {
            rows: 2,
            buffer: 2,
            budget: 20,
            words: &OTHER_COLUMN,
            ..NONE
        },
        base: 0,
        wanted: Wanted::Bytes(&[0x22, 0x22]),
    },
    Row {
        program: Program {
            buffer: 4,
            budget: 19,
            words: &PROGRAM_AND_READ,
            given: &[0xa5, 0x3c],
            ..NONE
        },
        base: 8,
        wanted: Wanted::Bytes(&[0xa5, 0x3c, 0xa5, 0x3c]),
    },
    Row {
        program: Program {
            rows: 2,
            buffer: 1056,
            budget: 1067,
            words: &TWO_PAGES,
            ..NONE
        },
        base: 0,
        wanted: Wanted::Two(0x11, 528, 0x22, 528),
    },
];

// Programs for one LUN alone.
const ROWS_ALONE: [Row<'static>; 3] = [
    Row {
        program: Program {
            buffer: 4,
            budget: 6,
            words: &IDENTIFIER,
            ..NONE
        },
        base: 0,
        wanted: Wanted::Bytes(b"ONFI"),
    },
    Row {
        program: Program {
            buffer: 256,
            budget: 259,
            words: &PARAMETERS,
            ..NONE
        },
        base: 0,
        wanted: Wanted::ParameterPage,
    },
    Row {
        program: Program {
            buffer: 65_536,
            budget: 65_538,
            words: &STATUS_BYTES,
            ..NONE
        },
        base: 0,
        wanted: Wanted::Two(0xe0, 65_536, 0, 0),
    },
];

// The bytes that are wanted.
fn bytes_of(alloc: Global, parts: Parts, wanted: Wanted<'_>) -> Result<Vec<u8>, Fail> {
    match wanted {
        Wanted::Bytes(bytes) => Ok(Vec::from_slice(alloc, bytes)?),
        Wanted::Two(first, count, second, more) => {
            let mut bytes = vec![in alloc; first; count]?;
            for _ in 0..more {
                bytes.push(second)?;
            }
            Ok(bytes)
        }
        Wanted::ParameterPage => Ok(Vec::from_slice(alloc, &Geometry::of(parts)?.page())?),
    }
}

// Whether a LUN ended with code 0 and these bytes in its buffer.
fn ended_with(core: &mut Core, lun: u8, bytes: &[u8]) -> bool {
    match core.unload(Lun { ce: 0, lun }) {
        Ok(done) => done.code == 0 && done.job.buffer() == bytes,
        Err(_) => false,
    }
}

// Whether the program, on each LUN of a channel at once, leaves what is wanted in each buffer, and a legal trace.
fn goes_well(alloc: Global, parts: Parts, row: Row<'_>) -> Result<bool, Fail> {
    let mut core = core_of(alloc, parts, &PAGES)?;
    for lun in 0..parts.luns {
        load(
            &mut core,
            alloc,
            parts,
            Lun { ce: 0, lun },
            row.base,
            row.program,
        )?;
    }
    run(&mut core, parts.luns)?;
    let bytes = bytes_of(alloc, parts, row.wanted)?;
    let mut well = true;
    for lun in 0..parts.luns {
        well &= ended_with(&mut core, lun, bytes.as_slice());
    }
    Ok(well && check(&Geometry::of(parts)?, 1, core.trace()).is_ok())
}

// The place of the first of some programs that doesn't go well.
fn first_bad(alloc: Global, parts: Parts, rows: &[Row<'_>]) -> Result<Option<usize>, Fail> {
    for (place, row) in rows.iter().enumerate() {
        if !goes_well(alloc, parts, *row)? {
            return Ok(Some(place));
        }
    }
    Ok(None)
}

#[test]
fn programs_alone_and_in_turn(rt: HostRuntime) -> Result<(), Fail> {
    assert_eq!(rt; first_bad(rt.alloc(), ONE_LUN, &ROWS)?, None);
    assert_eq!(rt; first_bad(rt.alloc(), TWO_LUNS, &ROWS)?, None);
    assert_eq!(rt; first_bad(rt.alloc(), FOUR_LUNS, &ROWS)?, None);
    Ok(())
}

#[test]
fn programs_for_one_lun(rt: HostRuntime) -> Result<(), Fail> {
    assert_eq!(rt; first_bad(rt.alloc(), ONE_LUN, &ROWS_ALONE)?, None);
    Ok(())
}

// The images of dies before and after programs on LUN 0 alone, one after another, each at this base.
#[derive(Clone, Copy)]
struct Images<'a> {
    parts: Parts,
    before: &'a [(u8, u8)],
    base: u32,
    programs: &'a [Program<'a>],
    // the ready that says failure, from 0, of each program
    failing: u32,
    // the length of the image, and its bytes at these places
    len: usize,
    bytes: &'a [(usize, u8)],
}

const LUN_0: Lun = Lun { ce: 0, lun: 0 };

const NO_FAILURE: u32 = 1000;

const TWO_BYTES: Program<'static> = Program {
    buffer: 4,
    budget: 19,
    words: &PROGRAM_AND_READ,
    given: &[0xa5, 0x3c],
    ..NONE
};

const OTHER_BYTES: Program<'static> = Program {
    given: &[0x0f, 0x0f],
    ..TWO_BYTES
};

const TWO_PLANES: Program<'static> = Program {
    buffer: 2,
    budget: 16,
    words: &PLANES,
    given: &[0xa5, 0x3c],
    ..NONE
};

const ERASED: Program<'static> = Program {
    budget: 5,
    words: &ERASE_BLOCK,
    ..NONE
};

// Entries begin at byte 24: four bytes of the row, then those of the page.
const ALL_ERASED: Program<'static> = Program {
    rows: 5,
    budget: 10,
    words: &ERASE_BLOCKS,
    ..NONE
};

// Each of the eight blocks, in a loop.
const EIGHT_BLOCKS: [Word; 8] = [
    Word::Loop { turns: 8 },
    ERASE,
    ROW,
    START_ERASE,
    Word::Wait,
    Word::RowAdd { rows: 4 },
    Word::Next,
    END,
];

const EIGHT_ERASED: Program<'static> = Program {
    rows: 29,
    budget: 40,
    words: &EIGHT_BLOCKS,
    ..NONE
};

const PLANES_ERASED: Program<'static> = Program {
    budget: 10,
    words: &ERASE_PLANES,
    ..NONE
};

const IMAGES: [Images<'static>; 10] = [
    Images {
        parts: ONE_LUN,
        before: &PAGES,
        base: 0,
        programs: &[EIGHT_ERASED],
        failing: NO_FAILURE,
        len: 24,
        bytes: &[(20, 0)],
    },
    Images {
        parts: TWO_LUNS,
        before: &PAGES,
        base: 0,
        programs: &[PLANES_ERASED],
        failing: NO_FAILURE,
        len: 24,
        bytes: &[(20, 0)],
    },
    Images {
        parts: TWO_LUNS,
        before: &PAGES,
        base: 0,
        programs: &[PLANES_ERASED],
        failing: 1,
        len: 1620,
        bytes: &[(20, 3), (28, 0x11), (560, 0x22), (1092, 0x33)],
    },
    Images {
        parts: ONE_LUN,
        before: &PAGES,
        base: 0,
        programs: &[ALL_ERASED],
        failing: NO_FAILURE,
        len: 24,
        bytes: &[(20, 0)],
    },
    Images {
        parts: ONE_LUN,
        before: &[],
        base: 0,
        programs: &[TWO_BYTES],
        failing: NO_FAILURE,
        len: 556,
        bytes: &[
            (0, 0x4e),
            (1, 0x44),
            (2, 0x49),
            (3, 0x31),
            (5, 0x02),
            (8, 0x10),
            (12, 0x04),
            (16, 0x08),
            (20, 0x01),
            (24, 0x00),
            (28, 0xa5),
            (29, 0x3c),
            (30, 0xff),
        ],
    },
    Images {
        parts: ONE_LUN,
        before: &[],
        base: 0,
        programs: &[TWO_BYTES, OTHER_BYTES],
        failing: NO_FAILURE,
        len: 556,
        bytes: &[(20, 0x01), (28, 0x05), (29, 0x0c), (30, 0xff)],
    },
    Images {
        parts: TWO_LUNS,
        before: &[],
        base: 0,
        programs: &[TWO_PLANES],
        failing: NO_FAILURE,
        len: 1088,
        bytes: &[
            (20, 0x02),
            (24, 0),
            (28, 0xa5),
            (29, 0xff),
            (556, 4),
            (560, 0x3c),
        ],
    },
    Images {
        parts: TWO_LUNS,
        before: &[],
        base: 0,
        programs: &[TWO_PLANES],
        failing: 1,
        len: 24,
        bytes: &[(20, 0)],
    },
    Images {
        parts: ONE_LUN,
        before: &PAGES,
        base: 4,
        programs: &[ERASED],
        failing: NO_FAILURE,
        len: 1088,
        bytes: &[(20, 0x02), (24, 0), (28, 0x11), (556, 1), (560, 0x22)],
    },
    Images {
        parts: ONE_LUN,
        before: &PAGES,
        base: 4,
        programs: &[ERASED],
        failing: 0,
        len: 1620,
        bytes: &[(20, 0x03), (1088, 4), (1092, 0x33)],
    },
];

// The image of LUN 0 after the programs.
fn image_after(alloc: Global, it: Images<'_>) -> Result<Vec<u8>, Fail> {
    let mut core = core_of(alloc, it.parts, it.before)?;
    for program in it.programs {
        load(&mut core, alloc, it.parts, LUN_0, it.base, *program)?;
        run_failing(&mut core, it.failing)?;
        let _ = core.unload(LUN_0);
    }
    match core.into_bus().into_dies().first() {
        Some(die) => Ok(die.image()?),
        None => Err(Fail::from("there is no die")),
    }
}

#[test]
fn images_of_dies(rt: HostRuntime) -> Result<(), Fail> {
    for (place, it) in IMAGES.iter().enumerate() {
        let image = image_after(rt.alloc(), *it)?;
        assert_eq!(rt; image.len(), it.len, "{place}");
        for (at, byte) in it.bytes {
            assert_eq!(rt; image.get(*at).copied(), Some(*byte), "{place}: byte {at}");
        }
    }
    Ok(())
}
