//! Worked facts: what each look back at a past tells.
use crate::worked::{CACHED, ONE_LUN, TWO_LUNS, past_of};
use nand_geometry::{Geometry, Parts};
use onfi_cycle::{
    Command, Cycle, Effect, Item, Kind, Latch, Lun, Opening, PageAddress, ReadColumn, Register,
    RowBytes,
};
use oracle_onfi::content::{filled, has_failed, pending_work, queued_work, register_bytes};
use oracle_onfi::past::{drivers, effect_on, is_caching, latch_alone, lun_facts, tail_facts};
use oracle_onfi::{ArrayWork, WorkKind};
use std::alloc::Global;
use std::process::Abort;
use std::test::Fail;

const LUN_0: Lun = Lun { ce: 0, lun: 0 };

const LUN_1: Lun = Lun { ce: 0, lun: 1 };

const PAGE_0: PageAddress = PageAddress { block: 0, page: 0 };

/// What a trace leaves of LUN 0: its latch, whether it and its array are busy, its last closer, its register, its
/// read column (the one given, the outputs since, whether it is lost) and how many rows wait in its queue.
type Left = (
    (Latch, bool, bool),
    Option<Command>,
    Register,
    (Option<u32>, usize, bool),
    usize,
);

const NOTHING: (Option<u32>, usize, bool) = (None, 0, false);

const PAGE: Register = Register::Page(PAGE_0);

const READ: Option<Command> = Some(Command::ReadConfirm);

const ERASED: Option<Command> = Some(Command::BlockEraseConfirm);

const LEFT: &[(Parts, &str, Left)] = &[
    (
        ONE_LUN,
        "",
        (
            (Latch::Off, false, false),
            None,
            Register::Empty,
            NOTHING,
            0,
        ),
    ),
    (
        ONE_LUN,
        "C60 A04 A00x2 Cd0 C70 O80 R0 C70 Oe0",
        (
            (Latch::Status, false, false),
            ERASED,
            Register::Empty,
            NOTHING,
            0,
        ),
    ),
    (
        ONE_LUN,
        "C00 A0e A02 A00x3 C30 R0 C70 Oe0 C00 Offx2",
        (
            (Latch::Data, false, false),
            READ,
            PAGE,
            (Some(526), 2, false),
            0,
        ),
    ),
    (
        ONE_LUN,
        "C00 A00x5 C30 R0 C00 Offx4 C70 Oe0",
        (
            (Latch::Status, false, false),
            READ,
            PAGE,
            (Some(0), 4, true),
            0,
        ),
    ),
    (
        TWO_LUNS,
        "C60 A00x3 Cd1 R0 C60 A20 A00x2 Cd0",
        (
            (Latch::Off, false, false),
            Some(Command::BlockErasePlane),
            Register::Empty,
            NOTHING,
            1,
        ),
    ),
    (
        TWO_LUNS,
        "C60 A00x3 Cd1 R0 C60 A04 A00x2 Cd0",
        (
            (Latch::Off, true, false),
            ERASED,
            Register::Empty,
            NOTHING,
            0,
        ),
    ),
    (
        CACHED,
        "C00 A00x5 C30 R0 C31 R0",
        (
            (Latch::Data, false, true),
            Some(Command::ReadCacheSequential),
            PAGE,
            (Some(0), 0, false),
            0,
        ),
    ),
    (
        ONE_LUN,
        "C90 A20",
        (
            (Latch::Data, false, false),
            Some(Command::ReadId),
            Register::Identifier,
            (Some(0), 0, false),
            0,
        ),
    ),
];

/// What a trace leaves of LUN 0, by the look back.
fn left_of(rt: &impl Abort, alloc: Global, parts: Parts, text: &str) -> Result<Left, Fail> {
    let geometry = Geometry::of(parts)?;
    let past = past_of(rt, alloc, &geometry, text)?;
    let left = lun_facts(alloc, &geometry, &past, LUN_0)?;
    let ReadColumn {
        given,
        outputs,
        lost,
    } = left.column;
    Ok((
        (left.latch, left.busy, left.array_busy),
        left.closer,
        left.register,
        (given, outputs, lost),
        left.queue.len(),
    ))
}

#[test]
fn facts_of_a_lun(rt: HostRuntime) -> Result<(), Fail> {
    for (parts, text, left) in LEFT {
        let told = left_of(&rt, rt.alloc(), *parts, text)?;
        assert_eq!(rt; told, *left, "{text}");
    }
    Ok(())
}

/// The closer of an erase, and what it is to do.
const CLOSER: Item = Item::Cyc(Cycle {
    ce: 0,
    kind: Kind::Cmd,
    byte: 0xd0,
});

const STARTED: Effect = Effect::EraseStarted {
    queued: false,
    row: PageAddress { block: 1, page: 0 },
};

/// The tail of an erase, and what its closer is to do.
#[test]
fn tail_of_an_erase(rt: HostRuntime) -> Result<(), Fail> {
    let one = Geometry::of(ONE_LUN)?;
    let past = past_of(&rt, rt.alloc(), &one, "C60 A04 A00x2")?;
    let t = tail_facts(&past, 0);
    let whole = Opening {
        opener: Command::BlockErase,
        addresses: 3,
    };
    let row = RowBytes {
        r1: 4,
        r2: 0,
        r3: 0,
    };
    let effect = effect_on(rt.alloc(), &one, &past, CLOSER, LUN_0)?;
    assert!(rt; t.opening == Some(whole) && t.row == row);
    assert!(rt; effect == STARTED);
    assert!(rt; tail_facts(&past, 1).is_empty);
    Ok(())
}

/// Traces, the LUNs of the target that drive the bus after each, and what LUN 0 and LUN 1 show if they do so alone.
const DRIVERS: &[(&str, &[u8], Latch, Latch)] = &[
    ("C60 A00x3 Cd0", &[], Latch::Off, Latch::Off),
    ("C78 A20 A00x2", &[1], Latch::Off, Latch::Status),
    (
        "C78 A00x3 C00 A00x2 A20 A00x2 C30",
        &[0, 1],
        Latch::Off,
        Latch::Off,
    ),
];

#[test]
fn drivers_of_a_target(rt: HostRuntime) -> Result<(), Fail> {
    let two = Geometry::of(TWO_LUNS)?;
    for (text, expected, first, second) in DRIVERS {
        let past = past_of(&rt, rt.alloc(), &two, text)?;
        let numbers = drivers(rt.alloc(), &two, &past, 0)?;
        let zero = latch_alone(rt.alloc(), &two, &past, LUN_0)?;
        let one = latch_alone(rt.alloc(), &two, &past, LUN_1)?;
        assert!(rt; numbers.as_slice() == *expected, "{text}");
        assert!(rt; zero == *first && one == *second, "{text}");
    }
    Ok(())
}

const OPEN: &str = "C80 A00x5 Ia5 C11 R0 C80 A01 A00 A04 A00x2 I3c";

const CLOSED: &str = "C80 A00x5 Ia5 C11 R0 C80 A01 A00 A04 A00x2 I3c C10";

/// A work is a program of this page with bytes that begin so.
fn is_program(work: Option<&ArrayWork>, at: PageAddress, start: &[u8]) -> bool {
    match work {
        Some(work) => {
            work.kind == WorkKind::Program && work.at == at && work.bytes.starts_with(start)
        }
        None => false,
    }
}

/// Two programs of one LUN, the first of them queued: while the second is open its bytes are filled in, and the first waits.
#[test]
fn work_of_an_open_plane(rt: HostRuntime) -> Result<(), Fail> {
    let two = Geometry::of(TWO_LUNS)?;
    let open = past_of(&rt, rt.alloc(), &two, OPEN)?;
    let bytes = filled(rt.alloc(), &[0x11, 0x22, 0x33], &open, 0)?;
    assert!(rt; bytes.as_slice() == [0x11, 0x3c, 0x33].as_slice());
    let queued = queued_work(rt.alloc(), &two, &[], &open, LUN_0)?;
    assert!(rt; queued.len() == 1 && is_program(queued.first(), PAGE_0, &[0xa5, 0xff]));
    assert!(rt; pending_work(rt.alloc(), &two, &[], &open, LUN_0)?.is_empty());
    Ok(())
}

/// Once both are closed they are pending, the last of them first.
#[test]
fn works_of_two_planes(rt: HostRuntime) -> Result<(), Fail> {
    let two = Geometry::of(TWO_LUNS)?;
    let closed = past_of(&rt, rt.alloc(), &two, CLOSED)?;
    let pending = pending_work(rt.alloc(), &two, &[], &closed, LUN_0)?;
    let last = PageAddress { block: 1, page: 0 };
    assert!(rt; pending.len() == 2);
    assert!(rt; is_program(pending.first(), last, &[0xff, 0x3c, 0xff]));
    assert!(rt; is_program(pending.last(), PAGE_0, &[]));
    assert!(rt; queued_work(rt.alloc(), &two, &[], &closed, LUN_0)?.is_empty());
    Ok(())
}

/// Whether LUN 0 has failed after a trace, and whether it does a cache read.
fn told_of(rt: &impl Abort, alloc: Global, parts: Parts, text: &str) -> Result<(bool, bool), Fail> {
    let geometry = Geometry::of(parts)?;
    let past = past_of(rt, alloc, &geometry, text)?;
    Ok((
        has_failed(alloc, &geometry, &past, LUN_0)?,
        is_caching(alloc, &geometry, &past, LUN_0)?,
    ))
}

/// A failed erase, a cache read and an identifier.
#[test]
fn failures_caches_and_registers(rt: HostRuntime) -> Result<(), Fail> {
    let failed = told_of(&rt, rt.alloc(), ONE_LUN, "C60 A00x3 Cd0 F0")?;
    let (_, caches) = told_of(&rt, rt.alloc(), CACHED, "C00 A00x5 C30 R0 C31")?;
    assert!(rt; failed == (true, false) && caches);
    let one = Geometry::of(ONE_LUN)?;
    let identified = past_of(&rt, rt.alloc(), &one, "C90 A20")?;
    let register = register_bytes(rt.alloc(), &one, &[], &[], &identified, LUN_0)?;
    assert!(rt; register.as_slice() == [0x4f, 0x4e, 0x46, 0x49].as_slice());
    Ok(())
}
