//! Worked examples: which numbers are a geometry, and what its rows are.

use nand_geometry::{Geometry, PageFault, Parts, RowParts, SMALL_CHIP};
use std::process::Abort;
use std::test::Fail;

/// One LUN of 8 blocks of 4 pages of 512 + 16 bytes, in one plane.
pub(crate) const ONE_LUN: Parts = SMALL_CHIP;

/// Two such LUNs, each in two planes.
pub(crate) const TWO_LUNS: Parts = Parts {
    luns: 2,
    plane_bits: 1,
    enhanced: true,
    multi_plane: true,
    ..ONE_LUN
};

/// 2 bits of LUN, 16 of block and 6 of page: a row takes all its 24 bits.
pub(crate) const LARGEST: Parts = Parts {
    pages: 64,
    blocks: 65536,
    luns: 4,
    plane_bits: 0,
    ..TWO_LUNS
};

// 5 blocks and 3 pages leave numbers in their fields of 3 and 2 bits that name nothing.
const UNEVEN: Parts = Parts {
    pages: 3,
    blocks: 5,
    ..ONE_LUN
};

// 7 blocks in 2 planes are 3 groups, and block 6 is left over.
const ODD: Parts = Parts {
    blocks: 7,
    ..TWO_LUNS
};

#[test]
fn shows_its_numbers(rt: HostRuntime) -> Result<(), Fail> {
    for (parts, page_len, planes, indices) in [
        (ONE_LUN, 528, 1, 32),
        (TWO_LUNS, 528, 2, 16),
        (LARGEST, 528, 1, 4_194_304),
        (ODD, 528, 2, 12),
    ] {
        let geometry = Geometry::of(parts)?;
        assert_eq!(rt; geometry.parts(), parts);
        assert_eq!(rt;
            (geometry.page_len(), geometry.planes(), geometry.indices()),
            (page_len, planes, indices)
        );
        assert_eq!(rt; geometry == Geometry::of(ONE_LUN)?, parts == ONE_LUN);
    }
    Ok(())
}

// The row of a LUN, an index and a plane; None where there is none.
#[derive(Clone, Copy)]
struct IndexRow {
    parts: Parts,
    of: (u8, u32, u8),
    row: Option<[u8; 3]>,
}

const INDEX_ROWS: &[IndexRow] = &[
    IndexRow {
        parts: ONE_LUN,
        of: (0, 4, 0),
        row: Some([0x04, 0x00, 0x00]),
    },
    IndexRow {
        parts: TWO_LUNS,
        of: (0, 15, 0),
        row: Some([0x1b, 0x00, 0x00]),
    },
    IndexRow {
        parts: TWO_LUNS,
        of: (1, 15, 1),
        row: Some([0x3f, 0x00, 0x00]),
    },
    IndexRow {
        parts: TWO_LUNS,
        of: (1, 0, 0),
        row: Some([0x20, 0x00, 0x00]),
    },
    IndexRow {
        parts: TWO_LUNS,
        of: (0, 16, 0),
        row: None,
    },
    IndexRow {
        parts: TWO_LUNS,
        of: (2, 0, 0),
        row: None,
    },
    IndexRow {
        parts: TWO_LUNS,
        of: (0, 0, 2),
        row: None,
    },
    IndexRow {
        parts: TWO_LUNS,
        of: (u8::MAX, u32::MAX, u8::MAX),
        row: None,
    },
    IndexRow {
        parts: LARGEST,
        of: (3, 4_194_303, 0),
        row: Some([0xff, 0xff, 0xff]),
    },
    IndexRow {
        parts: ODD,
        of: (0, 11, 1),
        row: Some([0x17, 0x00, 0x00]),
    },
    IndexRow {
        parts: ODD,
        of: (0, 12, 0),
        row: None,
    },
];

fn has_row(rt: &impl Abort, row: &IndexRow) -> Result<(), Fail> {
    let geometry = Geometry::of(row.parts)?;
    let (lun, index, plane) = row.of;
    assert_eq!(rt;
        geometry.row_bytes(lun, index, plane),
        row.row,
        "index {index}"
    );
    Ok(())
}

#[test]
fn rows_of_an_index(rt: HostRuntime) -> Result<(), Fail> {
    for row in INDEX_ROWS {
        has_row(&rt, row)?;
    }
    Ok(())
}

// What the bytes of a row name, None where that isn't there.
type NamedRow = (Parts, [u8; 3], Option<RowParts>);

const NAMED: &[NamedRow] = &[
    (
        TWO_LUNS,
        [0x3f, 0x00, 0x00],
        Some(RowParts {
            lun: 1,
            block: 7,
            page: 3,
        }),
    ),
    // The LUN has all upper bits: 24 bits give far more LUNs than there are.
    (TWO_LUNS, [0x40, 0x00, 0x00], None),
    (TWO_LUNS, [0xff, 0xff, 0xff], None),
    (
        UNEVEN,
        [0b0_100_10, 0, 0],
        Some(RowParts {
            lun: 0,
            block: 4,
            page: 2,
        }),
    ),
    // Page 3, block 5, LUN 1, and a LUN above 255.
    (UNEVEN, [0b0_100_11, 0, 0], None),
    (UNEVEN, [0b0_101_00, 0, 0], None),
    (UNEVEN, [0b1_000_00, 0, 0], None),
    (UNEVEN, [0, 0, 0x80], None),
    (
        ODD,
        [0x18, 0x00, 0x00],
        Some(RowParts {
            lun: 0,
            block: 6,
            page: 0,
        }),
    ),
    // Block 7.
    (ODD, [0x1c, 0x00, 0x00], None),
];

fn names(rt: &impl Abort, (parts, row, named): NamedRow) -> Result<(), Fail> {
    let geometry = Geometry::of(parts)?;
    assert_eq!(rt; geometry.row_parts(row), named, "{row:?}");
    Ok(())
}

#[test]
fn rows_read_back(rt: HostRuntime) -> Result<(), Fail> {
    for row in NAMED {
        names(&rt, *row)?;
    }
    Ok(())
}

#[test]
fn rows_as_numbers(rt: HostRuntime) -> Result<(), Fail> {
    let two = Geometry::of(TWO_LUNS)?;
    let last = RowParts {
        lun: 1,
        block: 7,
        page: 3,
    };
    assert_eq!(rt; two.parts_of(0x3f), last);
    assert_eq!(rt; two.row_number(last), 0x3f);
    assert!(rt; two.is_inside(last) && two.parts_of(0xff_ffff).lun == 0x7_ffff);
    Ok(())
}

const OUT_OF_SIZE: Option<PageFault> = Some(PageFault::SizeOutOfRange);

const OUT_OF_LUNS: Option<PageFault> = Some(PageFault::LunsOutOfRange);

const OUT_OF_PLANES: Option<PageFault> = Some(PageFault::PlanesOutOfRange);

// Two LUNs without 78h, then with too many planes too, then with too many LUNs, then with no size in its range.
const NO_LUN_COMMANDS: Parts = Parts {
    enhanced: false,
    ..TWO_LUNS
};

const ALSO_PLANES: Parts = Parts {
    plane_bits: u8::MAX,
    ..NO_LUN_COMMANDS
};

const ALSO_LUNS: Parts = Parts {
    luns: 5,
    ..ALSO_PLANES
};

const ALSO_SIZES: Parts = Parts {
    page_bytes: u32::MAX,
    spare_bytes: u32::MAX,
    pages: u32::MAX,
    blocks: u32::MAX,
    luns: u8::MAX,
    ..ALSO_LUNS
};

// Plane bits of which no option of the program tells.
const EIGHT_PLANES: Parts = Parts {
    plane_bits: 3,
    ..TWO_LUNS
};

const MANY_PLANES: Parts = Parts {
    plane_bits: 32,
    blocks: 65536,
    ..TWO_LUNS
};

const MOST_PLANES: Parts = Parts {
    plane_bits: u8::MAX,
    blocks: 65536,
    ..TWO_LUNS
};

const FIRST_FAULTS: &[(Parts, Option<PageFault>)] = &[
    (NO_LUN_COMMANDS, Some(PageFault::LunCommandsMissing)),
    (ALSO_PLANES, OUT_OF_PLANES),
    (ALSO_LUNS, OUT_OF_LUNS),
    (ALSO_SIZES, OUT_OF_SIZE),
    (EIGHT_PLANES, OUT_OF_PLANES),
    (MANY_PLANES, OUT_OF_PLANES),
    (MOST_PLANES, OUT_OF_PLANES),
];

#[test]
fn the_first_fault_is_told(rt: HostRuntime) {
    for (parts, fault) in FIRST_FAULTS {
        assert_eq!(rt; Geometry::of(*parts).err(), *fault);
    }
}
