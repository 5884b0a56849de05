//! Worked rows that were derived by hand, each before it was run.
use crate::worked::{CACHED, ONE_LUN, TWO_CACHED, TWO_LUNS, first_broken, past_of, trace};
use nand_geometry::{Geometry, Parts};
use onfi_cycle::{Cycle, Failures, Forbidden, Item, Kind, Lun, PageAddress};
use oracle_onfi::WrittenPage;
use oracle_onfi::content::{content, driven_byte, shown, status};
use oracle_onfi::past::is_busy;
use std::alloc::{AllocError, Global};
use std::test::Fail;

const LUN_0: Lun = Lun { ce: 0, lun: 0 };

const LUN_1: Lun = Lun { ce: 0, lun: 1 };

const PAGE_1: PageAddress = PageAddress { block: 0, page: 1 };

/// A page of LUN 0 in block 0, of this byte alone.
fn page_of(alloc: Global, page: u64, byte: u8) -> Result<WrittenPage, AllocError> {
    Ok(WrittenPage {
        lun: LUN_0,
        at: PageAddress { block: 0, page },
        bytes: vec![in alloc; byte; 528]?,
    })
}

/// The last item of each trace breaks this rule first, and none before it breaks one; `None` where nothing is broken.
const RULES: &[(Parts, &str, Option<(usize, Forbidden)>)] = &[
    // an output stands between the command and the address
    (
        ONE_LUN,
        "C00 A00x5 C30 R0 C00 Off A00",
        Some((10, Forbidden::AddressMisplaced)),
    ),
    // the status of the other LUN loses the column of this one
    (
        TWO_LUNS,
        "C00 A00x5 C30 R0 Off C78 A20 A00x2 Oe0 C78 A00x3 C00 Off",
        Some((19, Forbidden::DataNotReady)),
    ),
    // without a data output before it, it doesn't
    (
        TWO_LUNS,
        "C00 A00x5 C30 R0 C78 A20 A00x2 Oe0 C78 A00x3 C00 Off C78 A00x3",
        None,
    ),
    // the array is that of the last 31, which isn't ready yet
    (
        CACHED,
        "C00 A00x5 C30 R0 C31 R0 C31 Y0",
        Some((11, Forbidden::NotThere)),
    ),
    // busy, and the same plane is queued: the lower rule is told
    (
        TWO_LUNS,
        "C60 A00x3 Cd1 C60 A00x3",
        Some((8, Forbidden::LunBusy)),
    ),
    // the other LUN may be erased during a cache read, this one may not
    (
        TWO_CACHED,
        "C00 A00x5 C30 R0 C31 R0 C60 A20 A00x2 Cd0 R1 C60 A00x3",
        Some((19, Forbidden::CacheReadMisplaced)),
    ),
    // a cache read goes on from a LUN that shows status, and finds the lost column again
    (CACHED, "C00 A00x5 C30 R0 Off C70 C31 R0 Off", None),
];

#[test]
fn rules_by_hand(rt: HostRuntime) -> Result<(), Fail> {
    for (parts, text, expected) in RULES {
        let geometry = Geometry::of(*parts)?;
        let items = trace(rt.alloc(), text)?;
        let told = first_broken(rt.alloc(), &geometry, &items)?;
        assert_eq!(rt; told, *expected, "{text}");
    }
    Ok(())
}

/// Which works a queue keeps, of a LUN that opens with 00 in page 1: all bytes of that page afterwards.
const QUEUES: &[(&str, u8)] = &[
    // a closer that failed has emptied the queue, so a later one doesn't bring its rows back
    (
        "C60 A00x3 Cd1 R0 C60 A04 A00x2 Cd0 F0 C60 A08 A00x2 Cd0 R0",
        0,
    ),
    // the closer of the other LUN leaves the queue alone
    ("C60 A00x3 Cd1 R0 C80 A00x2 A20 A00x2 Ia5 C10 R1", 0),
    (
        "C60 A00x3 Cd1 R0 C80 A00x2 A20 A00x2 Ia5 C10 R1 C60 A04 A00x2 Cd0 R0",
        0xff,
    ),
];

#[test]
fn queues_by_hand(rt: HostRuntime) -> Result<(), Fail> {
    let two = Geometry::of(TWO_LUNS)?;
    let opening = [page_of(rt.alloc(), 1, 0)?];
    for (text, expected) in QUEUES {
        let past = past_of(&rt, rt.alloc(), &two, text)?;
        let bytes = content(rt.alloc(), &two, &opening, &past, LUN_0, PAGE_1)?;
        assert!(rt;
            bytes.len() == 528 && bytes.iter().all(|b| *b == *expected),
            "{text}"
        );
    }
    Ok(())
}

/// A reset of another target abandons nothing here.
#[test]
fn resets_by_hand(rt: HostRuntime) -> Result<(), Fail> {
    let one = Geometry::of(ONE_LUN)?;
    let opening = [page_of(rt.alloc(), 1, 0)?];
    let mut past = past_of(&rt, rt.alloc(), &one, "C60 A00x3 Cd0")?;
    past.insert(
        0,
        Item::Cyc(Cycle {
            ce: 1,
            kind: Kind::Cmd,
            byte: 0xff,
        }),
    )?;
    past.insert(
        0,
        Item::Rdy {
            ce: 0,
            lun: 0,
            fail: Failures::default(),
        },
    )?;
    let bytes = content(rt.alloc(), &one, &opening, &past, LUN_0, PAGE_1)?;
    assert!(rt; bytes.iter().all(|b| *b == 0xff));
    assert!(rt; !is_busy(rt.alloc(), &one, &past, LUN_0)?);
    assert!(rt; is_busy(rt.alloc(), &one, &past, Lun { ce: 1, lun: 0 })?);
    Ok(())
}

/// The pages of a cache read are counted for each LUN: a read of the other LUN begins no new count here.
#[test]
fn cache_pages_by_hand(rt: HostRuntime) -> Result<(), Fail> {
    let two = Geometry::of(TWO_CACHED)?;
    let opening = [page_of(rt.alloc(), 0, 0xa5)?, page_of(rt.alloc(), 1, 0x3c)?];
    let text = "C00 A00x5 C30 R0 C31 R0 C00 A00x2 A22 A00x2 C30 R1 C78 A00x3 C31 R0";
    let past = past_of(&rt, rt.alloc(), &two, text)?;
    let zero = shown(rt.alloc(), &two, &[], &opening, &past, LUN_0)?;
    let one = shown(rt.alloc(), &two, &[], &opening, &past, LUN_1)?;
    let driven = driven_byte(rt.alloc(), &two, &[], &opening, &past, 0)?;
    assert_eq!(rt; (zero, one, driven), (Some(0x3c), None, Some(0x3c)));
    Ok(())
}

/// A failure stays shown while another LUN works and ends well.
#[test]
fn failures_by_hand(rt: HostRuntime) -> Result<(), Fail> {
    let two = Geometry::of(TWO_LUNS)?;
    let text = "C60 A00x3 Cd0 F0 C60 A20 A00x2 Cd0 R1";
    let past = past_of(&rt, rt.alloc(), &two, text)?;
    let zero = status(rt.alloc(), &two, &past, LUN_0)?;
    let one = status(rt.alloc(), &two, &past, LUN_1)?;
    assert_eq!(rt; (zero.0, one.0), (0xe1, 0xe0));
    Ok(())
}
