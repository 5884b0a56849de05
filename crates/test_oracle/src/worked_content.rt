//! Worked contents: what pages hold after works, and the byte that a LUN gives next.
use crate::worked::{CACHED, COPYING, ONE_LUN, TWO_LUNS, past_of};
use nand_geometry::{Geometry, Parts};
use onfi_cycle::{Lun, PageAddress};
use oracle_onfi::WrittenPage;
use oracle_onfi::content::{content, driven_byte, shown, status};
use std::alloc::{AllocError, Global};
use std::process::Abort;
use std::test::Fail;

const LUN_0: Lun = Lun { ce: 0, lun: 0 };

const LUN_1: Lun = Lun { ce: 0, lun: 1 };

/// A page of this byte alone.
fn page_of(alloc: Global, block: u32, page: u64, byte: u8) -> Result<WrittenPage, AllocError> {
    Ok(WrittenPage {
        lun: LUN_0,
        at: PageAddress { block, page },
        bytes: vec![in alloc; byte; 528]?,
    })
}

/// A page begins with these bytes, and all behind them is FF.
fn has_content(bytes: &[u8], start: &[u8]) -> bool {
    bytes.len() == 528
        && bytes.starts_with(start)
        && bytes.iter().skip(start.len()).all(|b| *b == 0xff)
}

/// A page, what comes before it is looked at, and the bytes that it begins with.
type Content = (Parts, &'static str, u32, u64, &'static [u8]);

/// The pages of LUN 0 have these contents.
fn expect_pages(
    rt: &impl Abort,
    alloc: Global,
    opening: &[WrittenPage],
    cases: &[Content],
) -> Result<(), Fail> {
    for (parts, text, block, page, start) in cases {
        let geometry = Geometry::of(*parts)?;
        let past = past_of(rt, alloc, &geometry, text)?;
        let at = PageAddress {
            block: *block,
            page: *page,
        };
        let bytes = content(alloc, &geometry, opening, &past, LUN_0, at)?;
        assert!(rt; has_content(&bytes, start), "{text}: {bytes:?}");
    }
    Ok(())
}

const ONE_COPY: &str = "C80 A00x5 Ia5 I3c C10 R0 C00 A00x5 C35 R0 C85 A00x2 A08 A00x2 C10 R0";

const CHANGED_COPY: &str =
    "C80 A00x5 Ia5 I3c C10 R0 C00 A00x5 C35 R0 C85 A01 A00 A08 A00x2 I0f C85 A03 A00 I77 C10 R0";

const COPY_ONTO: &str =
    "C80 A00x2 A08 A00x2 If0 C10 R0 C80 A00x5 I3c C10 R0 C00 A00x5 C35 R0 C85 A00x2 A08 A00x2 C10 R0";

const TWO_COPIES: &str =
    "C80 A00x5 I11 C10 R0 C80 A00x2 A04 A00x2 I22 C10 R0 C00 A00x5 C32 R0 C00 A00x2 A04 A00x2 C35 R0 C85 A00x2 A08 A00x2 C11 R0 C85 A00x2 A0c A00x2 C10 R0";

/// What is left of pages of an erased LUN.
const PROGRAMS: &[Content] = &[
    // Programs of row 0, and what they leave of its page.
    (ONE_LUN, "", 0, 0, &[]),
    (ONE_LUN, "C80 A00x5 Ia5 I3c C10", 0, 0, &[]),
    (ONE_LUN, "C80 A00x5 Ia5 I3c C10 R0", 0, 0, &[0xa5, 0x3c]),
    (ONE_LUN, "C80 A00x5 Ia5 I3c C10 R0", 0, 1, &[]),
    (ONE_LUN, "C80 A00x5 Ia5 I3c C10 R0", 1, 0, &[]),
    (ONE_LUN, "C80 A00x2 A1f A00x2 Ia5 C10 R0", 7, 3, &[0xa5]),
    (ONE_LUN, "C80 A01 A00x4 Ia5 C10 R0", 0, 0, &[0xff, 0xa5]),
    (
        ONE_LUN,
        "C80 A00x5 Ia5 I3c C85 A00x2 I0f C10 R0",
        0,
        0,
        &[0x0f, 0x3c],
    ),
    (ONE_LUN, "C80 A00x5 Ia5 I3c C10 F0", 0, 0, &[]),
    (ONE_LUN, "C80 A00x5 Ia5 I3c C10 Cff R0", 0, 0, &[]),
    (
        ONE_LUN,
        "C80 A00x5 Ia5 I3c C10 R0 C80 A00x5 I0fx2 C10 R0",
        0,
        0,
        &[0x05, 0x0c],
    ),
    (
        ONE_LUN,
        "C80 A00x5 Ia5 I3c C10 R0 C80 A00x5 I0fx2 C10 F0",
        0,
        0,
        &[0xa5, 0x3c],
    ),
    (ONE_LUN, "C80 A00x5 Ia5 C10 R0 C60 A00x3 Cd0 R0", 0, 0, &[]),
    (
        ONE_LUN,
        "C80 A00x5 Ia5 C10 R0 C60 A00x3 Cd0 R0 C80 A00x5 I3c C10 R0",
        0,
        0,
        &[0x3c],
    ),
    // Copies: the page, with a change, AND-ed into its place, and of two planes.
    (COPYING, ONE_COPY, 2, 0, &[0xa5, 0x3c]),
    (COPYING, CHANGED_COPY, 2, 0, &[0xa5, 0x0f, 0xff, 0x77]),
    (COPYING, COPY_ONTO, 2, 0, &[0x30]),
    (COPYING, TWO_COPIES, 2, 0, &[0x11]),
    (COPYING, TWO_COPIES, 3, 0, &[0x22]),
    // Programs of two planes take effect together, with the ready of the last.
    (TWO_LUNS, "C80 A00x5 Ia5 C11 R0", 0, 0, &[]),
    (
        TWO_LUNS,
        "C80 A00x5 Ia5 C11 R0 C80 A00x2 A04 A00x2 I3c C10",
        0,
        0,
        &[],
    ),
    (
        TWO_LUNS,
        "C80 A00x5 Ia5 C11 R0 C80 A00x2 A04 A00x2 I3c C10 R0",
        0,
        0,
        &[0xa5],
    ),
    (
        TWO_LUNS,
        "C80 A00x5 Ia5 C11 R0 C80 A00x2 A04 A00x2 I3c C10 R0",
        1,
        0,
        &[0x3c],
    ),
    (
        TWO_LUNS,
        "C80 A00x5 Ia5 C11 R0 C80 A00x2 A04 A00x2 I3c C10 F0",
        0,
        0,
        &[],
    ),
    (
        TWO_LUNS,
        "C80 A00x5 Ia5 C11 R0 C80 A00x2 A04 A00x2 I3c C10 F0",
        1,
        0,
        &[],
    ),
];

#[test]
fn programs(rt: HostRuntime) -> Result<(), Fail> {
    expect_pages(&rt, rt.alloc(), &[], PROGRAMS)
}

const ZEROS: [u8; 528] = [0; 528];

/// An erase makes its whole block FF, and leaves others; this LUN opens with pages of 00.
const ERASES: &[Content] = &[
    (ONE_LUN, "", 0, 0, &[]),
    (ONE_LUN, "", 0, 1, &ZEROS),
    (ONE_LUN, "C60 A00x3 Cd0", 0, 1, &ZEROS),
    (ONE_LUN, "C60 A00x3 Cd0 R0", 0, 1, &[]),
    (ONE_LUN, "C60 A00x3 Cd0 R0", 0, 3, &[]),
    (ONE_LUN, "C60 A03 A00x2 Cd0 R0", 0, 1, &[]),
    (ONE_LUN, "C60 A00x3 Cd0 R0", 1, 0, &ZEROS),
    (ONE_LUN, "C60 A00x3 Cd0 F0", 0, 1, &ZEROS),
    (ONE_LUN, "C60 A00x3 Cd0 Cff R0", 0, 1, &ZEROS),
    (TWO_LUNS, "C60 A20 A00x2 Cd0 R1", 0, 1, &ZEROS),
    (TWO_LUNS, "C60 A00x3 Cd1 R0", 0, 1, &ZEROS),
    (TWO_LUNS, "C60 A00x3 Cd1 R0 C60 A04 A00x2 Cd0", 0, 1, &ZEROS),
    (TWO_LUNS, "C60 A00x3 Cd1 R0 C60 A04 A00x2 Cd0 R0", 0, 1, &[]),
    (TWO_LUNS, "C60 A00x3 Cd1 R0 C60 A04 A00x2 Cd0 R0", 1, 0, &[]),
    (
        TWO_LUNS,
        "C60 A00x3 Cd1 R0 C60 A04 A00x2 Cd0 F0",
        0,
        1,
        &ZEROS,
    ),
    (
        TWO_LUNS,
        "C60 A00x3 Cd1 R0 C60 A04 A00x2 Cd0 F0",
        1,
        0,
        &ZEROS,
    ),
    (TWO_LUNS, "C60 A00x3 Cd1 F0 C60 A04 A00x2 Cd0 R0", 0, 1, &[]),
];

#[test]
fn erases(rt: HostRuntime) -> Result<(), Fail> {
    let opening = [
        page_of(rt.alloc(), 0, 1, 0)?,
        page_of(rt.alloc(), 0, 3, 0)?,
        page_of(rt.alloc(), 1, 0, 0)?,
    ];
    expect_pages(&rt, rt.alloc(), &opening, ERASES)
}

/// The status of LUN 0.
const STATUSES: &[(Parts, &str, u8)] = &[
    (ONE_LUN, "", 0xe0),
    (ONE_LUN, "C60 A00x3 Cd0", 0x80),
    (ONE_LUN, "C60 A00x3 Cd0 R0", 0xe0),
    (ONE_LUN, "C60 A00x3 Cd0 F0", 0xe1),
    (ONE_LUN, "C60 A00x3 Cd0 F0 C90 A20", 0xe1),
    (ONE_LUN, "C60 A00x3 Cd0 F0 C00 A00x5 C30", 0x80),
    (ONE_LUN, "C60 A00x3 Cd0 F0 C00 A00x5 C30 R0", 0xe0),
    (ONE_LUN, "C80 A00x5 Ia5 C10 F0", 0xe1),
    (ONE_LUN, "C80 A00x5 Ia5 C10 Cff", 0x80),
    (ONE_LUN, "C80 A00x5 Ia5 C10 Cff R0", 0xe0),
    (ONE_LUN, "C80 A00x5 Ia5 C10 Cff F0", 0xe0),
    (ONE_LUN, "C00 A00x5 C30 F0", 0xe0),
    (TWO_LUNS, "C60 A20 A00x2 Cd0", 0xe0),
    (TWO_LUNS, "C60 A00x3 Cd1 F0", 0xe0),
    (TWO_LUNS, "C60 A00x3 Cd1 R0 C60 A04 A00x2 Cd0 F0", 0xe1),
    (CACHED, "C00 A00x5 C30 R0 C31", 0x80),
    (CACHED, "C00 A00x5 C30 R0 C31 R0", 0xc0),
    (CACHED, "C00 A00x5 C30 R0 C31 F0", 0xc0),
    (CACHED, "C00 A00x5 C30 R0 C31 R0 Y0", 0xe0),
    (CACHED, "C00 A00x5 C30 R0 C31 R0 Cff R0", 0xe0),
];

#[test]
fn statuses(rt: HostRuntime) -> Result<(), Fail> {
    for (parts, text, expected) in STATUSES {
        let geometry = Geometry::of(*parts)?;
        let past = past_of(&rt, rt.alloc(), &geometry, text)?;
        let told = status(rt.alloc(), &geometry, &past, LUN_0)?;
        assert_eq!(rt; told.0, *expected, "{text}");
    }
    Ok(())
}

/// The byte that LUN 0 gives next, which on one LUN is the byte that its target gives. It opens with a page of A5 and one of 3C behind
/// it, and its parameter pages are three bytes.
const SHOWN: &[(Parts, &str, Option<u8>)] = &[
    (ONE_LUN, "", None),
    (ONE_LUN, "C70", Some(0xe0)),
    (ONE_LUN, "C60 A00x3 Cd0 C70", Some(0x80)),
    (ONE_LUN, "C60 A00x3 Cd0 C70 O80 F0", Some(0xe1)),
    (ONE_LUN, "C70 Cff R0", None),
    (ONE_LUN, "C90 A20", Some(0x4f)),
    (ONE_LUN, "C90 A20 O00", Some(0x4e)),
    (ONE_LUN, "C90 A20 O00x2", Some(0x46)),
    (ONE_LUN, "C90 A20 O00x3", Some(0x49)),
    (ONE_LUN, "C90 A20 O00x4", None),
    (ONE_LUN, "C00 A00x5 C30 R0", Some(0xa5)),
    (ONE_LUN, "C00 A00x2 A01 A00x2 C30 R0", Some(0x3c)),
    (ONE_LUN, "C00 A00x2 A02 A00x2 C30 R0", Some(0xff)),
    (ONE_LUN, "C00 A0f A02 A00x3 C30 R0", Some(0xa5)),
    (ONE_LUN, "C00 A0f A02 A00x3 C30 R0 Oa5", None),
    (ONE_LUN, "C00 A00x5 C30 R0 C70", Some(0xe0)),
    (ONE_LUN, "C00 A00x5 C30 R0 C70 C00", Some(0xa5)),
    (ONE_LUN, "C00 A00x5 C30 R0 Oa5 C70 C00", None),
    (
        ONE_LUN,
        "C80 A00x5 Iff I0f C10 R0 C00 A00x5 C30 R0",
        Some(0xa5),
    ),
    (
        ONE_LUN,
        "C80 A00x5 Iff I0f C10 R0 C00 A00x5 C30 R0 Oa5",
        Some(0x05),
    ),
    (
        ONE_LUN,
        "C80 A00x5 Iff I0f C10 R0 C00 A01 A00x4 C30 R0",
        Some(0x05),
    ),
    (
        ONE_LUN,
        "C80 A00x5 Iff I0f C10 R0 C00 A00x5 C30 R0 C05 A01 A00 Ce0",
        Some(0x05),
    ),
    (ONE_LUN, "Cec A00 R0", Some(0x4f)),
    (ONE_LUN, "Cec A00 R0 C05 A02 A00 Ce0", Some(0x46)),
    (ONE_LUN, "Cec A00 R0 C05 A03 A00 Ce0", None),
    (CACHED, "C00 A00x5 C30 R0 C31 R0", Some(0xa5)),
    (CACHED, "C00 A00x5 C30 R0 C31 R0 C31 R0", Some(0x3c)),
    (CACHED, "C00 A00x5 C30 R0 C31 R0 Oa5x3 C3f R0", Some(0x3c)),
    (CACHED, "C00 A00x5 C30 R0 C31 R0 C70", Some(0xc0)),
];

const PARAMETERS: [u8; 3] = [0x4f, 0x4e, 0x46];

/// The byte that LUN 0 gives, and that which its target gives.
fn bytes_of(
    rt: &impl Abort,
    alloc: Global,
    parts: Parts,
    opening: &[WrittenPage],
    text: &str,
) -> Result<(Option<u8>, Option<u8>), Fail> {
    let geometry = Geometry::of(parts)?;
    let past = past_of(rt, alloc, &geometry, text)?;
    Ok((
        shown(alloc, &geometry, &PARAMETERS, opening, &past, LUN_0)?,
        driven_byte(alloc, &geometry, &PARAMETERS, opening, &past, 0)?,
    ))
}

#[test]
fn shown_bytes(rt: HostRuntime) -> Result<(), Fail> {
    let opening = [
        page_of(rt.alloc(), 0, 0, 0xa5)?,
        page_of(rt.alloc(), 0, 1, 0x3c)?,
    ];
    for (parts, text, expected) in SHOWN {
        let told = bytes_of(&rt, rt.alloc(), *parts, &opening, text)?;
        assert_eq!(rt; told, (*expected, *expected), "{text}");
    }
    Ok(())
}

/// Of two LUNs the one whose row a status command names drives alone, and two that drive give no byte: what LUN 0 gives, LUN 1, and their
/// target.
const DRIVEN: &[(&str, Option<u8>, Option<u8>, Option<u8>)] = &[
    ("C78 A20 A00x2", None, Some(0xe0), Some(0xe0)),
    ("C60 A00x3 Cd0 C78 A00x3", Some(0x80), None, Some(0x80)),
    ("C60 A00x3 Cd0 C78 A20 A00x2", None, Some(0xe0), Some(0xe0)),
    (
        "C78 A00x3 C00 A00x2 A20 A00x2 C30 R1",
        None,
        Some(0xff),
        None,
    ),
    ("C60 A00x3 Cd0 C60 A20 A00x2 Cd0", None, None, None),
];

#[test]
fn driven_bytes(rt: HostRuntime) -> Result<(), Fail> {
    let two = Geometry::of(TWO_LUNS)?;
    for (text, first, second, driven) in DRIVEN {
        let past = past_of(&rt, rt.alloc(), &two, text)?;
        let zero = shown(rt.alloc(), &two, &[], &[], &past, LUN_0)?;
        let one = shown(rt.alloc(), &two, &[], &[], &past, LUN_1)?;
        let told = driven_byte(rt.alloc(), &two, &[], &[], &past, 0)?;
        assert_eq!(rt; (zero, one, told), (*first, *second, *driven), "{text}");
    }
    Ok(())
}
