//! Worked traces, with the first rule that each breaks.
use crate::worked::{
    CACHED, COPYING, FREE_COPYING, FREE_READING, ONE_LUN, READING, SELECTING, TWO_CACHED, TWO_LUNS,
    TWO_PLANES, TWO_SELECTING, UNEVEN, first_broken, trace,
};
use nand_geometry::{Geometry, Parts};
use onfi_cycle::{Cycle, Failures, Forbidden, Item, Kind};
use oracle_onfi::{broken, check};
use std::alloc::Global;
use std::process::Abort;
use std::test::Fail;

/// The item at this place of each trace, its last, is the first that isn't permitted, and breaks this rule first.
fn expect_broken(
    rt: &impl Abort,
    alloc: Global,
    rule: Forbidden,
    cases: &[(Parts, &str, usize)],
) -> Result<(), Fail> {
    for (parts, text, place) in cases {
        let geometry = Geometry::of(*parts)?;
        let items = trace(alloc, text)?;
        assert_eq!(rt;
            first_broken(alloc, &geometry, &items)?,
            Some((*place, rule)),
            "{text}"
        );
    }
    Ok(())
}

/// Traces by the rule that their last items break first.
const BROKEN: &[(Forbidden, &[(Parts, &str, usize)])] = &[
    // F1: what becomes ready is a LUN that is busy, or whose array is.
    (
        Forbidden::NotThere,
        &[
            (ONE_LUN, "R0", 0),
            (ONE_LUN, "F0", 0),
            (ONE_LUN, "R1", 0),
            (ONE_LUN, "C60 A00x3 Cd0 R1", 5),
            (TWO_LUNS, "C60 A00x3 Cd0 R1", 5),
            (ONE_LUN, "C60 A00x3 Cd0 R0 R0", 6),
            (ONE_LUN, "C70 R0", 1),
            (ONE_LUN, "Y0", 0),
            (CACHED, "C00 A00x5 C30 Y0", 7),
            (CACHED, "C00 A00x5 C30 R0 Y0", 8),
            (CACHED, "C00 A00x5 C30 R0 C31 Y0", 9),
            (CACHED, "C00 A00x5 C30 R0 C31 R0 Y0 Y0", 11),
            (CACHED, "C00 A00x5 C30 R0 C31 R0 Y1", 10),
        ],
    ),
    // F3: no sequence begins while one is open.
    (
        Forbidden::SequenceOpen,
        &[
            (ONE_LUN, "C60 C60", 1),
            (ONE_LUN, "C60 A00 C70", 2),
            (ONE_LUN, "C60 A00x3 Cff", 4),
            (ONE_LUN, "C00 A00 C60", 2),
            (ONE_LUN, "C00 A00x5 C00", 6),
            (ONE_LUN, "C00 A00x5 C30 R0 C05 C00", 9),
            (ONE_LUN, "C00 A00x5 C30 R0 C05 A00x2 C60", 11),
            (ONE_LUN, "C80 A00x5 Ia5 C70", 7),
            (ONE_LUN, "C80 A00x5 C85 A00 C00", 8),
            (ONE_LUN, "C90 C90", 1),
            (ONE_LUN, "Cec C60", 1),
            (TWO_LUNS, "C78 A20 C78", 2),
        ],
    ),
    // F4: these commands want a target with one LUN.
    (
        Forbidden::SeveralLuns,
        &[
            (TWO_LUNS, "C70", 0),
            (TWO_LUNS, "C90", 0),
            (TWO_LUNS, "Cec", 0),
            (TWO_LUNS, "Cff", 0),
            (TWO_LUNS, "C60 A00x3 Cd0 C70", 5),
        ],
    ),
    // F5: a change of the read column wants one driver that shows data, is ready and has a page or the parameter page.
    (
        Forbidden::NoColumnToChange,
        &[
            (ONE_LUN, "C05", 0),
            (ONE_LUN, "C00 A00x5 C30 R0 C70 C05", 9),
            (ONE_LUN, "C00 A00x5 C30 C05", 7),
            (ONE_LUN, "C90 A20 C05", 2),
            (ONE_LUN, "C00 A00x5 C30 R0 C60 A00x3 Cd0 R0 C05", 14),
            (ONE_LUN, "Cec A00 C05", 2),
            (TWO_LUNS, "C78 A20 A00x2 C00 A00x5 C30 R0 C05", 12),
        ],
    ),
    // F6: no other command comes than the one that the sequence wants.
    (
        Forbidden::CommandMisplaced,
        &[
            (ONE_LUN, "Cd0", 0),
            (ONE_LUN, "C60 A00x2 Cd0", 3),
            (ONE_LUN, "C60 A00x3 C30", 4),
            (ONE_LUN, "C60 A00x3 Cd0 Cd0", 5),
            (ONE_LUN, "C00 A00x5 C10", 6),
            (ONE_LUN, "C00 C30", 1),
            (ONE_LUN, "C80 A00x4 C10", 5),
            (ONE_LUN, "C85", 0),
            (ONE_LUN, "C80 A00x5 C85 A00 C10", 8),
            (ONE_LUN, "C80 A00x5 C85 C85", 7),
            (ONE_LUN, "C00 A00x5 C30 R0 C05 A00 Ce0", 10),
            (ONE_LUN, "Ce0", 0),
        ],
    ),
    // F7: no address comes where none is wanted, and Read ID and Read Parameter Page take one address each.
    (
        Forbidden::AddressMisplaced,
        &[
            (ONE_LUN, "A00", 0),
            (ONE_LUN, "C60 A00x4", 4),
            (ONE_LUN, "C60 A00x3 Cd0 A00", 5),
            (ONE_LUN, "C70 A00", 1),
            (TWO_LUNS, "C78 A00x4", 4),
            (ONE_LUN, "C00 A00x6", 6),
            (ONE_LUN, "C80 A00x6", 6),
            (ONE_LUN, "C80 A00x5 Ia5 A00", 7),
            (ONE_LUN, "C80 A00x5 C85 A00x3", 9),
            (ONE_LUN, "C00 A00x5 C30 R0 C05 A00x3", 11),
            (ONE_LUN, "C90 A00", 1),
            (ONE_LUN, "C90 A21", 1),
            (ONE_LUN, "C90 A20x2", 2),
            (ONE_LUN, "Cec A20", 1),
            (ONE_LUN, "Cec A01", 1),
        ],
    ),
    // F8: a row names a LUN, a block and a page that are there.
    (
        Forbidden::RowOutside,
        &[
            (ONE_LUN, "C60 A20 A00x2", 3),
            (ONE_LUN, "C60 A00x2 A01", 3),
            (ONE_LUN, "C00 A00x2 A20 A00x2", 5),
            (ONE_LUN, "C80 A00x3 A01 A00", 5),
            (TWO_LUNS, "C60 A40 A00x2", 3),
            (TWO_LUNS, "C78 A40 A00x2", 3),
            (SELECTING, "C00 A00x5 C30 R0 C06 A00x2 A40 A00x2", 13),
            (UNEVEN, "C60 A03 A00x2", 3),
            (UNEVEN, "C60 A18 A00x2", 3),
            (UNEVEN, "C60 A40 A00x2", 3),
            (UNEVEN, "C78 A03 A00x2", 3),
            (UNEVEN, "C78 A18 A00x2", 3),
            (UNEVEN, "C00 A00x2 A03 A00x2", 5),
            (UNEVEN, "C80 A00x2 A1c A00x2", 5),
        ],
    ),
    // F9: no work begins where no LUN is ready, and none on a busy LUN.
    (
        Forbidden::LunBusy,
        &[
            (ONE_LUN, "C60 A00x3 Cd0 C60", 5),
            (READING, "C00 A00x5 C32 C06", 7),
            (ONE_LUN, "C60 A00x3 Cd0 C00", 5),
            (ONE_LUN, "C60 A00x3 Cd0 C80", 5),
            (ONE_LUN, "C60 A00x3 Cd0 C90", 5),
            (ONE_LUN, "C60 A00x3 Cd0 Cec", 5),
            (ONE_LUN, "Cff C60", 1),
            (ONE_LUN, "Cec A00 C00", 2),
            (TWO_LUNS, "C60 A00x3 Cd0 C60 A20 A00x2 Cd0 C60", 10),
            (TWO_LUNS, "C60 A00x3 Cd0 C60 A00x3", 8),
            (TWO_LUNS, "C60 A00x3 Cd0 C00 A00x5", 10),
            (TWO_LUNS, "C60 A00x3 Cd0 C80 A00x5", 10),
            (TWO_LUNS, "C60 A20 A00x2 Cd0 C60 A20 A00x2", 8),
            (
                TWO_SELECTING,
                "C00 A00x2 A20 A00x2 C30 C06 A00x2 A20 A00x2",
                12,
            ),
        ],
    ),
    // F10: what is queued goes with another block of the same work, in another plane, with the same page and the same block bits above the plane.
    (
        Forbidden::QueueClash,
        &[
            (TWO_LUNS, "C60 A00x3 Cd1 R0 C00 A00x5", 11),
            (TWO_PLANES, "C60 A00x3 Cd1 R0 C90", 6),
            (TWO_PLANES, "C60 A00x3 Cd1 R0 Cec", 6),
            (TWO_LUNS, "C60 A00x3 Cd1 R0 C60 A00x3", 9),
            (TWO_LUNS, "C60 A00x3 Cd1 R0 C60 A08 A00x2", 9),
            (TWO_LUNS, "C60 A00x3 Cd1 R0 C60 A05 A00x2", 9),
            (TWO_LUNS, "C60 A00x3 Cd1 R0 C60 A0c A00x2", 9),
            (TWO_LUNS, "C80 A00x5 C11 R0 C60 A04 A00x2", 11),
            (TWO_LUNS, "C60 A00x3 Cd1 R0 C80 A00x2 A04 A00x2", 11),
            (TWO_LUNS, "C80 A00x5 C11 R0 C80 A00x5", 13),
            (TWO_LUNS, "C80 A00x5 C11 R0 C80 A00x2 A05 A00x2", 13),
            (TWO_LUNS, "C80 A00x5 C11 R0 C80 A00x2 A0c A00x2", 13),
            (TWO_LUNS, "C80 A00x5 C11 R0 C00 A00x5", 13),
            (READING, "C00 A00x5 C32 R0 C00 A00x5", 13),
            (READING, "C00 A00x5 C32 R0 C00 A00x2 A05 A00x2", 13),
            (READING, "C00 A00x5 C32 R0 C00 A00x2 A0c A00x2", 13),
            (FREE_READING, "C00 A00x5 C32 R0 C00 A00x2 A0d A00x2", 13),
            (READING, "C00 A00x5 C32 R0 C60 A04 A00x2", 11),
            (READING, "C00 A00x5 C32 R0 C80 A00x2 A04 A00x2", 13),
            (READING, "C80 A00x5 C11 R0 C00 A00x2 A04 A00x2", 13),
            (READING, "C00 A00x5 C32 R0 C90", 8),
            // Behind an erase of the same plane.
            (
                TWO_LUNS,
                "C60 A00x3 Cd1 C78 A00x3 O80 R0 C78 A00x3 Oe0 C60 A00x3",
                19,
            ),
        ],
    ),
    // F11: inputs come in the data of a program alone.
    (
        Forbidden::InputMisplaced,
        &[
            (ONE_LUN, "Ia5", 0),
            (ONE_LUN, "C60 A00x3 Ia5", 4),
            (ONE_LUN, "C00 A00x5 Ia5", 6),
            (ONE_LUN, "C80 A00x4 Ia5", 5),
            (ONE_LUN, "C80 A00x5 C85 A00 Ia5", 8),
            (ONE_LUN, "C80 A00x5 Ia5 C10 Ia5", 8),
        ],
    ),
    // F12: outputs come outside sequences, and from one driver.
    (
        Forbidden::NoSoleDriver,
        &[
            (ONE_LUN, "Off", 0),
            (ONE_LUN, "C70 C60 Oe0", 2),
            (ONE_LUN, "C70 C00 A00 Off", 3),
            (ONE_LUN, "Cff R0 Off", 2),
            (TWO_LUNS, "C78 A20 A00 Oe0", 3),
            (SELECTING, "C00 A00x5 C30 R0 C06 A00x5 Off", 14),
            (TWO_LUNS, "C78 A20 A00x2 Oe0 C78 A00 Oe0", 7),
            (TWO_LUNS, "C78 A20 A00x2 Oe0 C00 A00x5 C30 R0 Off", 13),
            (ONE_LUN, "C80 A00x5 Off", 6),
        ],
    ),
    // F13: a LUN that shows data gives a byte only if it is ready, has a register and keeps its column.
    (
        Forbidden::DataNotReady,
        &[
            (
                READING,
                "C00 A00x5 C32 R0 C00 A00x2 A04 A00x2 C30 R0 Off",
                16,
            ),
            (ONE_LUN, "C00 A00x5 C30 Off", 7),
            (ONE_LUN, "C70 C00 Off", 2),
            (ONE_LUN, "C00 A00x5 C30 R0 C60 A00x3 Cd0 R0 Off", 14),
            (ONE_LUN, "C00 A00x5 C30 R0 Off C70 C00 Off", 11),
            (ONE_LUN, "C90 A20 O4f C70 C00 O4e", 5),
            // The read of a page, a status poll between two of its bytes, and the column that this loses.
            (
                ONE_LUN,
                "C00 A00x5 C30 C70 O80 R0 C70 Oe0 C00 Offx4 C70 Oe0 C00 Off",
                20,
            ),
        ],
    ),
    // F14: columns, inputs and outputs stay inside the page or the register.
    (
        Forbidden::ColumnOutside,
        &[
            (ONE_LUN, "C00 A10 A02", 2),
            (ONE_LUN, "C80 A10 A02", 2),
            (ONE_LUN, "C80 A00x5 C85 A10 A02", 8),
            (ONE_LUN, "C00 A00x5 C30 R0 C05 A10 A02", 10),
            (SELECTING, "C00 A00x5 C30 R0 C06 A10 A02", 10),
            (ONE_LUN, "Cec A00 R0 C05 A00 A03", 5),
            (ONE_LUN, "C80 A0f A02 A00x3 Ia5 I3c", 7),
            (ONE_LUN, "C80 A00x5 C85 A0f A02 Ia5 I3c", 10),
            (ONE_LUN, "C00 A0f A02 A00x3 C30 R0 Off Off", 9),
            (ONE_LUN, "C90 A20 O4f O4e O46 O49 O00", 6),
            (ONE_LUN, "Cec A00 R0 C05 Aff A02 Ce0 O00 O00", 8),
        ],
    ),
    // F15: a cache read goes on from a page read, inside its block, and nothing else comes between.
    (
        Forbidden::CacheReadMisplaced,
        &[
            (CACHED, "C31", 0),
            (CACHED, "C3f", 0),
            (CACHED, "C70 C31", 1),
            (CACHED, "C90 A20 C31", 2),
            (CACHED, "C00 A00x5 C30 C31", 7),
            (TWO_CACHED, "C78 A20 A00x2 C00 A00x5 C30 R0 C31", 12),
            (CACHED, "C00 A00x5 C30 R0 C31 R0 C31 R0 C31 R0 C31", 14),
            (CACHED, "C00 A00x2 A03 A00x2 C30 R0 C31", 8),
            (CACHED, "C00 A00x5 C30 R0 C31 R0 Y0 C3f R0 C31", 13),
            (CACHED, "C00 A00x5 C30 R0 C3f", 8),
            (CACHED, "C00 A00x5 C30 R0 C31 C3f", 9),
            (CACHED, "C00 A00x5 C30 R0 C31 R0 C3f R0 C3f", 12),
            (CACHED, "C00 A00x5 C30 R0 C31 R0 C00 A00x5", 15),
            (CACHED, "C00 A00x5 C30 R0 C31 R0 C60 A00x3", 13),
            (CACHED, "C00 A00x5 C30 R0 C31 R0 C80 A00x5", 15),
            (CACHED, "C00 A00x5 C30 R0 C31 R0 C90", 10),
            (CACHED, "C00 A00x5 C30 R0 C31 R0 Cec", 10),
            (READING, "C00 A00x5 C32 R0 C31", 8),
            (
                READING,
                "C00 A00x5 C32 R0 C00 A00x2 A04 A00x2 C30 R0 C31",
                16,
            ),
            (
                READING,
                "C00 A00x5 C30 R0 C31 R0 C00 A00x2 A04 A00x2 C32",
                16,
            ),
        ],
    ),
    // F18: the row of 06 names a LUN that holds a page of its plane.
    (
        Forbidden::PlaneNotHeld,
        &[
            (SELECTING, "C06 A00x5", 5),
            (SELECTING, "C90 A20 C06 A00x5", 7),
            (SELECTING, "C00 A00x5 C30 R0 C06 A00x2 A04 A00x2", 13),
            (
                SELECTING,
                "C00 A00x5 C30 R0 C60 A10 A00x2 Cd0 R0 C06 A00x5",
                19,
            ),
            (TWO_SELECTING, "C00 A00x5 C30 R0 C06 A00x2 A20 A00x2", 13),
            (READING, "C00 A00x5 C32 R0 C06 A00x5", 13),
        ],
    ),
];

#[test]
fn rules_are_broken(rt: HostRuntime) -> Result<(), Fail> {
    for (rule, cases) in BROKEN {
        expect_broken(&rt, rt.alloc(), *rule, cases)?;
    }
    Ok(())
}

/// Traces of copies by the rule that their last items break.
const COPIES_BROKEN: &[(Forbidden, &[(Parts, &str, usize)])] = &[
    (
        Forbidden::CommandMisplaced,
        &[(COPYING, "C00 A00x5 C35 R0 C85 A00x2 C10", 11)],
    ),
    (Forbidden::LunBusy, &[(COPYING, "C00 A00x5 C35 C85", 7)]),
    (
        Forbidden::NoSoleDriver,
        &[(COPYING, "C00 A00x5 C35 R0 C85 A00x2 A08 A00x2 Off", 14)],
    ),
    (
        Forbidden::ColumnOutside,
        &[(COPYING, "C00 A00x5 C35 R0 C85 A10 A02", 10)],
    ),
    (
        Forbidden::CacheReadMisplaced,
        &[(COPYING, "C00 A00x5 C35 R0 C31", 8)],
    ),
    // F17: an 85 copies the page that its LUN holds in the plane of its row, an even one to an even one, and an 80 ends a group of none.
    (
        Forbidden::CopybackMisplaced,
        &[
            (COPYING, "C85 A00x2 A08 A00x2", 5),
            (COPYING, "C00 A00x5 C30 R0 C85 A00x2 A08 A00x2", 13),
            (COPYING, "C00 A00x5 C35 R0 C85 A00x2 A09 A00x2", 13),
            (COPYING, "C00 A00x5 C35 R0 C85 A00x2 A04 A00x2", 13),
            (
                COPYING,
                "C00 A00x5 C35 R0 C85 A00x2 A08 A00x2 C10 R0 C85 A00x2 A0c A00x2",
                21,
            ),
            (
                COPYING,
                "C00 A00x5 C35 R0 C00 A00x2 A04 A00x2 C30 R0 C85 A00x2 A08 A00x2",
                21,
            ),
            (
                COPYING,
                "C00 A00x5 C32 R0 C00 A00x2 A04 A00x2 C35 R0 C85 A00x2 A08 A00x2 C11 R0 C80 A00x2 A0c A00x2",
                29,
            ),
            (
                COPYING,
                "C00 A00x2 A04 A00x2 C35 R0 C80 A00x2 A08 A00x2 C11 R0 C85 A00x2 A0c A00x2",
                21,
            ),
        ],
    ),
];

#[test]
fn copies_are_broken(rt: HostRuntime) -> Result<(), Fail> {
    for (rule, cases) in COPIES_BROKEN {
        expect_broken(&rt, rt.alloc(), *rule, cases)?;
    }
    Ok(())
}

/// Traces that go as far as the rules let them, whatever commands the bus takes.
const PERMITTED: &[(Parts, &str)] = &[
    (ONE_LUN, "C70 C70 C00 C60 A00x3 Cd0 Cff"),
    (ONE_LUN, "C00 A0f A02 A00x3 C30 R0 Off"),
    (ONE_LUN, "Cec A00 R0 C05 Aff A02 Ce0 O00"),
    (ONE_LUN, "C80 A0f A02 A00x3 Ia5 C85 A00x2 I3c I3c C10"),
    (ONE_LUN, "C80 A00x5 C10 C70 O80 R0"),
    (ONE_LUN, "C90 A20 O4f O4e O46 O49"),
    (UNEVEN, "C60 A16 A00x2 Cd0 C78 A2c A00x2 Oe0"),
    (TWO_LUNS, "C60 A00x3 Cd1 R0 C60 A04 A00x2 Cd0 R0 C60 A00x3"),
    (TWO_LUNS, "C80 A00x5 C11 R0 C80 A00x2 A04 A00x2 C10"),
    (TWO_PLANES, "C60 A00x3 Cd1 R0 Cff R0 C90 A20"),
    (CACHED, "C00 A00x5 C30 R0 C31 R0 C31 R0 C31 R0 C3f R0 Off"),
    (SELECTING, "C00 A00x5 C30 R0 C06 A05 A00x4 Ce0 Off"),
    (
        READING,
        "C00 A00x5 C32 R0 C00 A00x2 A04 A00x2 C30 R0 C06 A00x5 Ce0 Off C06 A00x2 A04 A00x2 Ce0 Off",
    ),
    (
        FREE_READING,
        "C00 A00x5 C32 R0 C00 A00x2 A0c A00x2 C30 R0 C06 A00x2 A0c A00x2 Ce0 Off",
    ),
    (READING, "C00 A00x5 C32 R0 Cff R0 C00 A00x5 C30 R0 Off"),
    // A page copied, with a change, and to one of the other kind.
    (
        COPYING,
        "C80 A00x5 Ia5 I3c C10 R0 C00 A00x5 C35 R0 C85 A00x2 A08 A00x2 C10 R0 C00 A00x2 A08 A00x2 C30 R0 Oa5",
    ),
    (
        COPYING,
        "C00 A00x5 C35 R0 Off C05 A01 A00 Ce0 Off C85 A01 A00 A08 A00x2 I0f C85 A03 A00 I77 C10 R0",
    ),
    (FREE_COPYING, "C00 A00x5 C35 R0 C85 A00x2 A09 A00x2 C10 R0"),
    (
        COPYING,
        "C00 A00x5 C35 R0 C70 Oe0 C00 C85 A00x2 A08 A00x2 C10 R0",
    ),
    (COPYING, "C00 A00x5 C35 R0 C85 A00x2 A08 A00x2 I00 Cff R0"),
    // Two pages copied together.
    (
        COPYING,
        "C00 A00x5 C32 R0 C00 A00x2 A04 A00x2 C35 R0 C85 A00x2 A08 A00x2 C11 R0 C85 A00x2 A0c A00x2 C10 R0",
    ),
    (
        COPYING,
        "C00 A00x5 C35 R0 C00 A00x2 A04 A00x2 C35 R0 C85 A00x2 A08 A00x2 C11 R0 C85 A00x2 A0c A00x2 C10 R0",
    ),
    (SELECTING, "C00 A00x5 C30 R0 C06 A00x2 A08 A00x2 Ce0 Off"),
    (
        SELECTING,
        "C00 A00x5 C30 R0 C06 A00x5 Ce0 Off C05 A01 A00 Ce0 Off",
    ),
    (
        TWO_SELECTING,
        "C00 A00x5 C30 C00 A00x2 A20 A00x2 C30 R0 R1 C06 A00x5 Ce0 Off C06 A00x2 A20 A00x2 Ce0 Off",
    ),
    // The read of a page, a status poll between two of its bytes, and its column set again.
    (
        ONE_LUN,
        "C00 A00x5 C30 C70 O80 R0 C70 Oe0 C00 Offx4 C70 Oe0 C00 C05 A04 A00 Ce0 Offx4",
    ),
    // Two pages by a cache read, with the polls of its works.
    (
        CACHED,
        "C00 A00x5 C30 C70 O80 R0 C70 Oe0 C31 C70 O80 R0 C70 Oc0 Y0 C70 Oe0 C00 Offx4 C3f C70 O80 R0 C70 Oe0 C00 Offx4",
    ),
    // Two blocks in two planes, the second of them in the other plane.
    (
        TWO_LUNS,
        "C60 A00x3 Cd1 C78 A00x3 O80 R0 C78 A00x3 Oe0 C60 A04 A00x2 Cd0 C78 A00x3 O80 R0 C78 A00x3 Oe0",
    ),
];

#[test]
fn what_stays_permitted(rt: HostRuntime) -> Result<(), Fail> {
    for (parts, text) in PERMITTED {
        let geometry = Geometry::of(*parts)?;
        let items = trace(rt.alloc(), text)?;
        assert_eq!(rt;
            first_broken(rt.alloc(), &geometry, &items)?,
            None,
            "{text}"
        );
    }
    Ok(())
}

const TWO_BY_TURNS: &str =
    "C60 A00x3 Cd0 C78 A00x3 O80 C60 A20 A00x2 Cd0 C78 A20 A00x2 O80 R0 R1 C78 A00x3 Oe0 C78 A20 A00x2 Oe0";

const TWO_OF_ONE_WORKER: &str =
    "C60 A00x3 Cd0 C78 A00x3 O80 R0 C60 A20 A00x2 Cd0 C78 A20 A00x2 O80 R1 C78 A00x3 Oe0 C78 A20 A00x2 Oe0";

/// Whole traces of erases and status polls; `None` where the trace is legal.
const ERASES: &[(Parts, &str, Option<(usize, Forbidden)>)] = &[
    (ONE_LUN, "", None),
    (ONE_LUN, "C60 A04 A00x2 Cd0 C70 O80 R0 C70 Oe0", None),
    (ONE_LUN, "C60 A04 A00x2 Cd0 C70 O80 F0 C70 Oe1", None),
    (
        TWO_LUNS,
        "C60 A20 A00x2 Cd0 C78 A20 A00x2 O80 R1 C78 A20 A00x2 Oe0",
        None,
    ),
    (TWO_LUNS, TWO_BY_TURNS, None),
    (TWO_LUNS, TWO_OF_ONE_WORKER, None),
    (ONE_LUN, "C60 A00x3 Cd0 C60", Some((5, Forbidden::LunBusy))),
    (TWO_LUNS, "C60 A00x3 Cd0 C60", None),
    (
        TWO_LUNS,
        "C60 A00x3 Cd0 C60 A00x3",
        Some((8, Forbidden::LunBusy)),
    ),
    (
        TWO_LUNS,
        "C60 A00x3 Cd0 C70 C15",
        Some((5, Forbidden::SeveralLuns)),
    ),
    (ONE_LUN, "C15", Some((0, Forbidden::CommandUnknown))),
    (
        ONE_LUN,
        "C60 A00x3 C15",
        Some((4, Forbidden::CommandUnknown)),
    ),
    (ONE_LUN, "C70 Oe0 C78", Some((2, Forbidden::CommandUnknown))),
    (ONE_LUN, "C31", Some((0, Forbidden::CommandUnknown))),
    (
        SELECTING,
        "C00 A00x5 C32",
        Some((6, Forbidden::CommandUnknown)),
    ),
    (
        READING,
        "C00 A00x5 C35",
        Some((6, Forbidden::CommandUnknown)),
    ),
    (READING, "C85", Some((0, Forbidden::CommandMisplaced))),
    (ONE_LUN, "C70 C60 C60", Some((2, Forbidden::SequenceOpen))),
    (ONE_LUN, "C70 R0 C60", Some((1, Forbidden::NotThere))),
];

#[test]
fn traces_of_erases(rt: HostRuntime) -> Result<(), Fail> {
    for (parts, text, expected) in ERASES {
        let geometry = Geometry::of(*parts)?;
        let items = trace(rt.alloc(), text)?;
        assert_eq!(rt;
            check(rt.alloc(), &geometry, 1, &items)?,
            *expected,
            "{text}"
        );
    }
    Ok(())
}

const HERE: Item = Item::Cyc(Cycle {
    ce: 0,
    kind: Kind::Cmd,
    byte: 0x60,
});

const THERE: Item = Item::Cyc(Cycle {
    ce: 1,
    kind: Kind::Cmd,
    byte: 0x60,
});

const BECOMES_READY: Item = Item::Rdy {
    ce: 1,
    lun: 0,
    fail: Failures {
        last: false,
        before: false,
    },
};

/// How many targets there are, and what is told of an item behind a 60h for target 0.
const BEHIND_60: &[(u8, Item, Option<Forbidden>)] = &[
    (2, THERE, None),
    (2, HERE, Some(Forbidden::SequenceOpen)),
    (1, THERE, Some(Forbidden::NotThere)),
    (1, BECOMES_READY, Some(Forbidden::NotThere)),
    (
        1,
        Item::Ard {
            ce: 1,
            lun: 0,
            fail: false,
        },
        Some(Forbidden::NotThere),
    ),
    (2, BECOMES_READY, Some(Forbidden::NotThere)),
];

/// Chip enables are those of the channel's targets, and each target has a sequence of its own.
#[test]
fn targets_stand_apart(rt: HostRuntime) -> Result<(), Fail> {
    let one = Geometry::of(ONE_LUN)?;
    let items = trace(rt.alloc(), "C60")?;
    for (targets, item, expected) in BEHIND_60 {
        let told = broken(rt.alloc(), &one, *targets, &items, *item)?;
        assert_eq!(rt; told, *expected, "{item:?}");
    }
    Ok(())
}
