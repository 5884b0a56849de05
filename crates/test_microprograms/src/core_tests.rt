use crate::channel::told;
use die_model::LunDie;
use micro_program::Verified;
use micro_verify::verify;
use micro_word::{Text, Word};
use nand_geometry::{Geometry, Parts, SMALL_CHIP};
use onfi_cycle::{BusState, Cycle, Failures, Item, Kind, Latch, Lun, LunState, Register};
use seq_core::{
    Core, Event, Job, JobFault, JobRefused, LoadFault, Ran, Reply, Stepped, UnloadFault,
    UnloadedJob, run_events,
};
use std::alloc::{Allocator, Global};
use std::process::Abort;
use std::test::Fail;
use target_bus::Bus;

// One LUN of 8 blocks of 4 pages of 512 + 16 bytes, in one plane.
const ONE_LUN: Parts = SMALL_CHIP;

// Two such LUNs, each in two planes.
const TWO_LUNS: Parts = Parts {
    luns: 2,
    plane_bits: 1,
    enhanced: true,
    multi_plane: true,
    ..ONE_LUN
};

// The erase of a block.
const ERASE: [Word; 5] = [
    Word::Command { byte: 0x60 },
    Word::Address { from: 2, count: 3 },
    Word::Command { byte: 0xd0 },
    Word::Wait,
    Word::End { code: 0 },
];

const ZERO: Lun = Lun { ce: 0, lun: 0 };

const ONE: Lun = Lun { ce: 0, lun: 1 };

// LUN 0 of target 1.
const NEXT: Lun = Lun { ce: 1, lun: 0 };

// The items of erases on target 0: the command that opens one, the bytes of its row, and the command that starts it.
const OPENS: Item = Item::Cyc(Cycle {
    ce: 0,
    kind: Kind::Cmd,
    byte: 0x60,
});

const BLOCK_1: Item = Item::Cyc(Cycle {
    ce: 0,
    kind: Kind::Adr,
    byte: 0x04,
});

const IN_LUN_1: Item = Item::Cyc(Cycle {
    ce: 0,
    kind: Kind::Adr,
    byte: 0x20,
});

const ZEROS: Item = Item::Cyc(Cycle {
    ce: 0,
    kind: Kind::Adr,
    byte: 0x00,
});

const STARTS: Item = Item::Cyc(Cycle {
    ce: 0,
    kind: Kind::Cmd,
    byte: 0xd0,
});

// The two polls, and the bytes that they show.
const ASKS: Item = Item::Cyc(Cycle {
    ce: 0,
    kind: Kind::Cmd,
    byte: 0x70,
});

const ASKS_BY_ROW: Item = Item::Cyc(Cycle {
    ce: 0,
    kind: Kind::Cmd,
    byte: 0x78,
});

const IS_BUSY: Item = Item::Cyc(Cycle {
    ce: 0,
    kind: Kind::Dout,
    byte: 0x80,
});

const IS_READY: Item = Item::Cyc(Cycle {
    ce: 0,
    kind: Kind::Dout,
    byte: 0xe0,
});

const HAS_FAILED: Item = Item::Cyc(Cycle {
    ce: 0,
    kind: Kind::Dout,
    byte: 0xe1,
});

// What an erase of block 1 of the one LUN of target 0 puts onto the bus.
const ERASE_OF_BLOCK_1: [Item; 10] = [
    OPENS,
    BLOCK_1,
    ZEROS,
    ZEROS,
    STARTS,
    ASKS,
    IS_BUSY,
    Item::Rdy {
        ce: 0,
        lun: 0,
        fail: NO_FAILURES,
    },
    ASKS,
    IS_READY,
];

// What readies tell: of no failure, and of the work's.
const NO_FAILURES: Failures = Failures {
    last: false,
    before: false,
};

const FAILED: Failures = Failures {
    last: true,
    before: false,
};

// Its items up to the first poll.
const BEGINNING: [Item; 7] = [OPENS, BLOCK_1, ZEROS, ZEROS, STARTS, ASKS, IS_BUSY];

// What comes last of it if it fails.
const FAILURE: [Item; 3] = [
    Item::Rdy {
        ce: 0,
        lun: 0,
        fail: FAILED,
    },
    ASKS,
    HAS_FAILED,
];

// What an erase of a block of LUN 1 of two LUNs puts onto the bus.
const ERASE_OF_LUN_1: [Item; 16] = [
    OPENS,
    IN_LUN_1,
    ZEROS,
    ZEROS,
    STARTS,
    ASKS_BY_ROW,
    IN_LUN_1,
    ZEROS,
    ZEROS,
    IS_BUSY,
    Item::Rdy {
        ce: 0,
        lun: 1,
        fail: NO_FAILURES,
    },
    ASKS_BY_ROW,
    IN_LUN_1,
    ZEROS,
    ZEROS,
    IS_READY,
];

// The steps of an erase alone up to its first poll, with their answers, and those that remain once the LUN is ready.
const BEGIN: [(Lun, Stepped); 4] = [
    (ZERO, Stepped::Went),
    (ZERO, Stepped::Went),
    (ZERO, Stepped::Went),
    (ZERO, Stepped::NotReady),
];

const END: [(Lun, Stepped); 3] = [
    (ZERO, Stepped::Went),
    (ZERO, Stepped::Ended),
    (ZERO, Stepped::Ended),
];

// The same on LUN 1.
const BEGIN_ONE: [(Lun, Stepped); 4] = [
    (ONE, Stepped::Went),
    (ONE, Stepped::Went),
    (ONE, Stepped::Went),
    (ONE, Stepped::NotReady),
];

const END_ONE: [(Lun, Stepped); 3] = [
    (ONE, Stepped::Went),
    (ONE, Stepped::Ended),
    (ONE, Stepped::Ended),
];

// The steps of two erases in turn, up to the first poll of the second, and those that remain once both are ready.
const BEGIN_LUNS: [(Lun, Stepped); 14] = [
    (ZERO, Stepped::Went),
    (ONE, Stepped::Held),
    (ZERO, Stepped::Went),
    (ONE, Stepped::Held),
    (ZERO, Stepped::Went),
    (ONE, Stepped::Held),
    (ZERO, Stepped::NotReady),
    (ONE, Stepped::Went),
    (ZERO, Stepped::Held),
    (ONE, Stepped::Went),
    (ZERO, Stepped::Held),
    (ONE, Stepped::Went),
    (ZERO, Stepped::Held),
    (ONE, Stepped::NotReady),
];

const END_LUNS: [(Lun, Stepped); 6] = [
    (ZERO, Stepped::Went),
    (ONE, Stepped::Held),
    (ZERO, Stepped::Ended),
    (ONE, Stepped::Went),
    (ZERO, Stepped::Ended),
    (ONE, Stepped::Ended),
];

// The same on two targets.
const BEGIN_TARGETS: [(Lun, Stepped); 14] = [
    (ZERO, Stepped::Went),
    (NEXT, Stepped::Held),
    (ZERO, Stepped::Went),
    (NEXT, Stepped::Held),
    (ZERO, Stepped::Went),
    (NEXT, Stepped::Held),
    (ZERO, Stepped::NotReady),
    (NEXT, Stepped::Went),
    (ZERO, Stepped::Held),
    (NEXT, Stepped::Went),
    (ZERO, Stepped::Held),
    (NEXT, Stepped::Went),
    (ZERO, Stepped::Held),
    (NEXT, Stepped::NotReady),
];

const END_TARGETS: [(Lun, Stepped); 6] = [
    (ZERO, Stepped::Went),
    (NEXT, Stepped::Held),
    (ZERO, Stepped::Ended),
    (NEXT, Stepped::Went),
    (ZERO, Stepped::Ended),
    (NEXT, Stepped::Ended),
];

// A sequencer on so many new dies.
fn core_of<A: Allocator + Copy>(alloc: A, parts: Parts, count: u8) -> Result<Core<A>, Fail> {
    let geometry = Geometry::of(parts)?;
    let mut dies = Vec::with_capacity(alloc, usize::from(count))?;
    for _ in 0..count {
        dies.push(LunDie::new(alloc, geometry)?)?;
    }
    match Bus::new(alloc, geometry, dies) {
        Ok(bus) => Ok(Core::new(bus)),
        Err(refused) => Err(refused.fault.into()),
    }
}

// The erase as a text of one row and no buffer, verified.
fn verified<A: Allocator + Copy>(alloc: A, parts: Parts) -> Result<Verified<A>, Fail> {
    let text = Text::of(1, 0, 5, ERASE.to_vec(alloc)?)
        .ok()
        .ok_or("the words are no text")?;
    match verify(text, Geometry::of(parts)?) {
        Ok(verified) => Ok(verified),
        Err(_) => Err(Fail::from("the erase is refused")),
    }
}

// The erase of the block of an index, for a channel of four targets.
fn job_of<A: Allocator + Copy>(
    alloc: A,
    parts: Parts,
    lun: Lun,
    base: u32,
) -> Result<Job<A>, Fail> {
    let verified = verified(alloc, parts)?;
    match Job::new(
        Geometry::of(parts)?,
        4,
        lun,
        base,
        verified,
        Vec::new(alloc),
    ) {
        Ok(job) => Ok(job),
        Err(_) => Err(Fail::from("the job is refused")),
    }
}

// The load of a job of the LUN `at` is refused so, with the job handed back.
fn is_refused<A: Allocator + Copy>(
    core: &mut Core<A>,
    onto: Lun,
    job: Job<A>,
    at: Lun,
    fault: LoadFault,
) -> bool {
    match core.load(onto, job) {
        Ok(()) => false,
        Err(refused) => refused.fault == fault && refused.job.lun() == at,
    }
}

// What would be answered to the load of an erase for `parts` and the LUN `at` onto another LUN.
fn admitted<A: Allocator + Copy>(
    alloc: A,
    core: &Core<A>,
    onto: Lun,
    parts: Parts,
    at: Lun,
) -> Result<Result<(), LoadFault>, Fail> {
    let job = job_of(alloc, parts, at, 0)?;
    Ok(core.admits(onto, &job))
}

// It is the erase on this LUN with no buffer.
fn is_erase<A: Allocator>(done: &UnloadedJob<A>, lun: Lun) -> bool {
    done.job.text().words() == ERASE.as_slice()
        && done.job.lun() == lun
        && done.job.buffer().is_empty()
}

// An unload is answered so: with the code of the erase on this LUN, or a fault.
fn is_unloaded<A: Allocator + Copy>(
    core: &mut Core<A>,
    lun: Lun,
    answer: Result<u8, UnloadFault>,
) -> bool {
    match core.unload(lun) {
        Ok(done) => answer == Ok(done.code) && is_erase(&done, lun),
        Err(fault) => answer == Err(fault),
    }
}

// Steps of LUNs, one after another, are answered so.
fn are_answered<A: Allocator + Copy>(
    core: &mut Core<A>,
    answers: &[(Lun, Stepped)],
) -> Result<bool, Fail> {
    for (l, answer) in answers {
        if core.step(*l)? != *answer {
            return Ok(false);
        }
    }
    Ok(true)
}

// Whether each item is permitted after those before it.
fn is_legal(parts: Parts, targets: u8, items: &[Item]) -> Result<bool, Fail> {
    if targets > 4 {
        return Err(Fail::from("more than 4 targets"));
    }
    let mut state = BusState::new(Geometry::of(parts)?, targets);
    for item in items {
        if state.judge(*item).is_some() {
            return Ok(false);
        }
        state.apply(*item);
    }
    Ok(true)
}

// No array becomes ready.
fn no_array_works<A: Allocator + Copy>(core: &mut Core<A>) -> bool {
    for lun in [ZERO, ONE, NEXT] {
        if core.array_ready(lun, false) {
            return false;
        }
    }
    true
}

// What is tried of a sequencer, with what must come of it.
#[derive(Clone, Copy)]
enum Try<'a> {
    // an erase for this geometry is loaded onto its LUN, its block that of an index
    Load(Parts, Lun, u32),
    // the load of an erase for this geometry and the second LUN onto the first is refused, and `admits` says so
    Refused(Lun, Parts, Lun, LoadFault),
    // an erase for this geometry would be loaded onto its LUN
    Admitted(Parts, Lun),
    // steps of LUNs, one after another, are answered so
    Steps(&'a [(Lun, Stepped)]),
    // a ready without failure or with it comes or not
    Ready(Lun, bool, bool),
    NoArray,
    Unload(Lun, Result<u8, UnloadFault>),
    HasBus(Lun, bool),
    Fresh(bool),
    // the numbers of LUN 0 of targets 0 and 1
    Numbers(Option<u32>, Option<u32>),
    // the items of the trace from a place on
    Trace(usize, &'a [Item]),
    // how many items there are
    Items(usize),
    // the trace is legal on such a channel
    Legal(Parts, u8),
}

// What is seen of a sequencer besides its trace: which LUN has the bus, whether nothing has happened, and the numbers of LUN 0 of
// targets 0 and 1.
#[derive(Clone, Copy)]
struct Seen {
    holder: Option<Lun>,
    fresh: bool,
    numbers: (Option<u32>, Option<u32>),
}

// What is seen of it now.
fn seen_of<A: Allocator + Copy>(core: &Core<A>) -> Seen {
    Seen {
        holder: core.holder(),
        fresh: core.is_fresh(),
        numbers: (core.number(ZERO), core.number(NEXT)),
    }
}

// Whether what is seen is as it must be.
fn is_seen(seen: Seen, trace: &[Item], wanted: Try) -> bool {
    match wanted {
        Try::HasBus(l, has) => (seen.holder == Some(l)) == has,
        Try::Fresh(fresh) => seen.fresh == fresh,
        Try::Numbers(first, second) => seen.numbers == (first, second),
        Try::Trace(from, items) => trace.get(from..) == Some(items),
        Try::Items(count) => trace.len() == count,
        _ => false,
    }
}

// An erase for `parts` is loaded onto its LUN.
fn is_loaded<A: Allocator + Copy>(
    alloc: A,
    core: &mut Core<A>,
    parts: Parts,
    lun: Lun,
    base: u32,
) -> Result<bool, Fail> {
    let job = job_of(alloc, parts, lun, base)?;
    Ok(core.load(lun, job).is_ok())
}

// The load of an erase for `parts` and the LUN `at` onto another LUN is refused so, and `admits` says it before.
fn is_refused_twice<A: Allocator + Copy>(
    alloc: A,
    core: &mut Core<A>,
    onto: Lun,
    (parts, at): (Parts, Lun),
    fault: LoadFault,
) -> Result<bool, Fail> {
    let asked = admitted(alloc, core, onto, parts, at)?;
    let job = job_of(alloc, parts, at, 0)?;
    Ok(is_refused(core, onto, job, at, fault) && asked == Err(fault))
}

// Whether what is tried comes as it must.
fn comes<A: Allocator + Copy>(alloc: A, core: &mut Core<A>, wanted: Try) -> Result<bool, Fail> {
    match wanted {
        Try::Load(parts, lun, base) => is_loaded(alloc, core, parts, lun, base),
        Try::Refused(onto, parts, at, fault) => is_refused_twice(
            alloc,
            core,
            onto,
            (parts, at),
            fault,
        ),
        Try::Admitted(parts, lun) => Ok(admitted(alloc, core, lun, parts, lun)?.is_ok()),
        Try::Steps(answers) => are_answered(core, answers),
        Try::Ready(lun, fail, came) => Ok(core.ready(lun, told(fail)) == came),
        Try::NoArray => Ok(no_array_works(core)),
        Try::Unload(lun, answer) => Ok(is_unloaded(core, lun, answer)),
        Try::Legal(parts, targets) => is_legal(parts, targets, core.trace()),
        _ => Ok(is_seen(seen_of(core), core.trace(), wanted)),
    }
}

// Tries one thing after another. The place of one that doesn't come as it must is told.
fn try_all<A: Allocator + Copy>(
    rt: &impl Abort,
    alloc: A,
    core: &mut Core<A>,
    name: &str,
    tries: &[Try],
) -> Result<(), Fail> {
    for (place, wanted) in tries.iter().enumerate() {
        assert!(rt; comes(alloc, core, *wanted)?, "{name}, at {place}");
    }
    Ok(())
}

// A channel of so many targets, and what is tried on it.
#[derive(Clone, Copy)]
struct Scene {
    name: &'static str,
    parts: Parts,
    targets: u8,
    tries: &'static [Try<'static>],
}

const SCENES: &[Scene] = &[
    Scene {
        name: "one block is erased",
        parts: ONE_LUN,
        targets: 1,
        tries: &[
            Try::Load(ONE_LUN, ZERO, 4),
            Try::Steps(&BEGIN),
            Try::HasBus(ZERO, false),
            Try::Ready(ZERO, false, true),
            Try::Steps(&END),
            Try::Trace(0, &ERASE_OF_BLOCK_1),
            Try::Unload(ZERO, Ok(0)),
            Try::Steps(&[(ZERO, Stepped::Empty)]),
        ],
    },
    Scene {
        name: "a block of lun 1 is erased",
        parts: TWO_LUNS,
        targets: 2,
        tries: &[
            Try::Load(TWO_LUNS, ONE, 0),
            Try::Steps(&BEGIN_ONE),
            Try::Ready(ONE, false, true),
            Try::Steps(&END_ONE),
            Try::Trace(0, &ERASE_OF_LUN_1),
            Try::Unload(ONE, Ok(0)),
        ],
    },
    Scene {
        name: "two luns in turn",
        parts: TWO_LUNS,
        targets: 2,
        tries: &[
            Try::Load(TWO_LUNS, ZERO, 0),
            Try::Load(TWO_LUNS, ONE, 0),
            Try::Steps(&BEGIN_LUNS),
            Try::Ready(ZERO, false, true),
            Try::Ready(ONE, false, true),
            Try::Steps(&END_LUNS),
            Try::Items(32),
            Try::Legal(TWO_LUNS, 1),
            Try::Unload(ONE, Ok(0)),
            Try::Unload(ZERO, Ok(0)),
        ],
    },
    Scene {
        name: "two targets in turn",
        parts: ONE_LUN,
        targets: 2,
        tries: &[
            Try::Numbers(Some(0), Some(1)),
            Try::Load(ONE_LUN, ZERO, 4),
            Try::Load(ONE_LUN, NEXT, 8),
            Try::Steps(&BEGIN_TARGETS),
            Try::Ready(ZERO, false, true),
            Try::Ready(NEXT, false, true),
            Try::Steps(&END_TARGETS),
            Try::Items(20),
            Try::Legal(ONE_LUN, 2),
            Try::Unload(ZERO, Ok(0)),
            Try::Unload(NEXT, Ok(0)),
        ],
    },
    Scene {
        name: "a failure is shown",
        parts: ONE_LUN,
        targets: 1,
        tries: &[
            Try::Load(ONE_LUN, ZERO, 4),
            Try::Steps(&BEGIN),
            Try::Ready(ZERO, true, true),
            Try::Steps(&END),
            Try::Items(10),
            Try::Trace(7, &FAILURE),
            Try::Unload(ZERO, Ok(0)),
        ],
    },
    // Of another LUN, for one that isn't there, of another geometry; then onto a LUN whose job goes on.
    Scene {
        name: "loads that are refused",
        parts: ONE_LUN,
        targets: 1,
        tries: &[
            Try::Refused(ZERO, ONE_LUN, NEXT, LoadFault::OtherLun),
            Try::Refused(NEXT, ONE_LUN, NEXT, LoadFault::OtherLun),
            Try::Refused(ZERO, TWO_LUNS, ONE, LoadFault::OtherLun),
            Try::Refused(ZERO, TWO_LUNS, ZERO, LoadFault::OtherGeometry),
            Try::Steps(&[(ZERO, Stepped::Empty)]),
            Try::Admitted(ONE_LUN, ZERO),
            Try::Fresh(true),
            Try::Load(ONE_LUN, ZERO, 4),
            Try::Refused(ZERO, ONE_LUN, ZERO, LoadFault::SlotTaken),
            Try::Refused(ZERO, ONE_LUN, NEXT, LoadFault::SlotTaken),
            Try::Refused(ZERO, TWO_LUNS, ZERO, LoadFault::SlotTaken),
            Try::Steps(&BEGIN),
            Try::Trace(0, &BEGINNING),
        ],
    },
    Scene {
        name: "what is not there",
        parts: ONE_LUN,
        targets: 1,
        tries: &[
            Try::Steps(&[(ZERO, Stepped::Empty)]),
            Try::Unload(ZERO, Err(UnloadFault::NoJob)),
            Try::Ready(ZERO, false, false),
            Try::Steps(&[(ONE, Stepped::Empty)]),
            Try::Unload(ONE, Err(UnloadFault::NoJob)),
            Try::Ready(ONE, false, false),
            Try::Steps(&[(NEXT, Stepped::Empty)]),
            Try::Unload(NEXT, Err(UnloadFault::NoJob)),
            Try::Ready(NEXT, false, false),
            Try::Numbers(Some(0), None),
        ],
    },
    Scene {
        name: "what has not ended",
        parts: ONE_LUN,
        targets: 1,
        tries: &[
            Try::Load(ONE_LUN, ZERO, 4),
            Try::Unload(ZERO, Err(UnloadFault::StillRunning)),
            Try::Steps(&BEGIN),
            Try::Unload(ZERO, Err(UnloadFault::StillRunning)),
            Try::Ready(ZERO, false, true),
            Try::Ready(ZERO, false, false),
            Try::Steps(&[(ZERO, Stepped::Went)]),
            Try::HasBus(ZERO, true),
            Try::Unload(ZERO, Err(UnloadFault::StillRunning)),
        ],
    },
    Scene {
        name: "is fresh until something happens",
        parts: TWO_LUNS,
        targets: 2,
        tries: &[
            Try::Fresh(true),
            Try::Steps(&[(ONE, Stepped::Empty)]),
            Try::Fresh(true),
            Try::Load(TWO_LUNS, ONE, 0),
            Try::Fresh(false),
            Try::Items(0),
            Try::Steps(&BEGIN_ONE),
            Try::Fresh(false),
            Try::Ready(ONE, false, true),
            Try::Steps(&END_ONE),
            Try::Unload(ONE, Ok(0)),
            Try::Fresh(false),
            Try::Items(16),
        ],
    },
    Scene {
        name: "no array becomes ready",
        parts: ONE_LUN,
        targets: 1,
        tries: &[
            Try::NoArray,
            Try::Items(0),
            Try::Load(ONE_LUN, ZERO, 4),
            Try::NoArray,
            Try::Items(0),
            Try::Steps(&BEGIN),
            Try::NoArray,
            Try::Items(7),
            Try::Ready(ZERO, false, true),
            Try::NoArray,
            Try::Items(8),
            Try::Steps(&END),
            Try::NoArray,
            Try::Trace(0, &ERASE_OF_BLOCK_1),
        ],
    },
];

// Plays a scene on a new channel.
fn play_scene(rt: &impl Abort, alloc: Global, scene: &Scene) -> Result<(), Fail> {
    let mut core = core_of(alloc, scene.parts, scene.targets)?;
    try_all(rt, alloc, &mut core, scene.name, scene.tries)
}

#[test]
fn scenes_come_as_they_must(rt: HostRuntime) -> Result<(), Fail> {
    for scene in SCENES {
        play_scene(&rt, rt.alloc(), scene)?;
    }
    Ok(())
}

// A job of one target of one LUN, of a text for `parts` and a buffer of these bytes, is refused so, with text and buffer handed
// back, or made.
fn is_made<A: Allocator + Copy>(
    alloc: A,
    parts: Parts,
    lun: Lun,
    base: u32,
    bytes: &[u8],
    refused: Option<JobFault>,
) -> Result<bool, Fail> {
    let verified = verified(alloc, parts)?;
    let buffer = bytes.to_vec(alloc)?;
    match Job::new(Geometry::of(ONE_LUN)?, 1, lun, base, verified, buffer) {
        Ok(_) => Ok(refused.is_none()),
        Err(
            JobRefused {
                fault,
                verified,
                buffer,
            },
        ) => Ok(
            refused == Some(fault)
                && verified.text().words() == ERASE.as_slice()
                && verified.geometry().parts() == parts
                && buffer.as_slice() == bytes,
        ),
    }
}

// A text's geometry, a job's LUN, base and buffer, and why the job isn't made.
const JOBS: &[(Parts, Lun, u32, &[u8], Option<JobFault>)] = &[
    (ONE_LUN, NEXT, 0, &[], Some(JobFault::NoSuchLun)),
    (ONE_LUN, ONE, 0, &[], Some(JobFault::NoSuchLun)),
    (ONE_LUN, ZERO, 31, &[], None),
    (ONE_LUN, ZERO, 32, &[], Some(JobFault::RowsOutside)),
    (ONE_LUN, ZERO, u32::MAX, &[], Some(JobFault::RowsOutside)),
    (ONE_LUN, ZERO, 31, &[7], Some(JobFault::BufferLength)),
    (TWO_LUNS, ZERO, 31, &[], Some(JobFault::OtherGeometry)),
    // the first fault of several
    (TWO_LUNS, ONE, 32, &[7], Some(JobFault::NoSuchLun)),
    (TWO_LUNS, ZERO, 32, &[7], Some(JobFault::RowsOutside)),
    (TWO_LUNS, ZERO, 31, &[7], Some(JobFault::BufferLength)),
];

#[test]
fn jobs_that_are_refused(rt: HostRuntime) -> Result<(), Fail> {
    for (place, (parts, lun, base, bytes, refused)) in JOBS.iter().enumerate() {
        let same = is_made(rt.alloc(), *parts, *lun, *base, bytes, *refused)?;
        assert!(rt; same, "at {place}");
    }
    Ok(())
}

const ONE_ERASE: [Try<'static>; 4] = [
    Try::Load(ONE_LUN, ZERO, 4),
    Try::Steps(&BEGIN),
    Try::Ready(ZERO, false, true),
    Try::Steps(&END),
];

// Idle, and it shows its status, since 70 came last.
const IDLE: LunState = LunState {
    busy: false,
    latch: Latch::Status,
    register: Register::Empty,
    column: None,
    queued: 0,
    caching: false,
    programming: false,
    array_busy: false,
};

#[test]
fn the_bus_is_handed_back(rt: HostRuntime) -> Result<(), Fail> {
    let mut core = core_of(rt.alloc(), ONE_LUN, 1)?;
    try_all(&rt, rt.alloc(), &mut core, "one erase", &ONE_ERASE)?;
    let bus = core.into_bus();
    assert!(rt; bus.trace() == ERASE_OF_BLOCK_1.as_slice());
    assert!(rt; bus.lun_state(ZERO) == Some(IDLE) && bus.lun_state(ONE).is_none());
    Ok(())
}

// An erase of block 1 of the one LUN, from its load to its unload.
fn events_of_one<A: Allocator + Copy>(alloc: A) -> Result<Vec<Event<A>, A>, Fail> {
    let mut events = Vec::with_capacity(alloc, 9)?;
    events.push(Event::Load(ZERO, job_of(alloc, ONE_LUN, ZERO, 4)?))?;
    for _ in 0..4 {
        events.push(Event::Step(ZERO))?;
    }
    events.push(Event::Ready(ZERO, NO_FAILURES))?;
    events.push(Event::Step(ZERO))?;
    events.push(Event::Step(ZERO))?;
    events.push(Event::Unload(ZERO))?;
    Ok(events)
}

fn ran(core: &mut Core, alloc: Global, events: Vec<Event>) -> Ran<Global> {
    run_events(core, alloc, events)
}

// The replies to the middle of an erase: its steps, and the ready after the first poll.
fn are_of_steps(replies: &[Reply]) -> bool {
    matches!(
        replies,
        [
            Reply::Step(Stepped::Went),
            Reply::Step(Stepped::Went),
            Reply::Step(Stepped::Went),
            Reply::Step(Stepped::NotReady),
            Reply::Ready(true),
            Reply::Step(Stepped::Went),
            Reply::Step(Stepped::Ended),
        ]
    )
}

// The reply to the unload of an erase on LUN 0 that has ended with code 0.
fn is_of_unload(reply: &Reply) -> bool {
    match reply {
        Reply::Unload(Ok(done)) => is_erase(done, ZERO) && done.code == 0,
        _ => false,
    }
}

// The replies to such an erase.
fn are_of_one(replies: &[Reply]) -> bool {
    match replies {
        [Reply::Load(Ok(())), steps @ .., unload] => are_of_steps(steps) && is_of_unload(unload),
        _ => false,
    }
}

const AFTER_EVENTS: [Try<'static>; 2] = [
    Try::Trace(0, &ERASE_OF_BLOCK_1),
    Try::Steps(&[(ZERO, Stepped::Empty)]),
];

#[test]
fn a_list_of_events_is_done(rt: HostRuntime) -> Result<(), Fail> {
    let mut core = core_of(rt.alloc(), ONE_LUN, 1)?;
    let told = ran(&mut core, rt.alloc(), events_of_one(rt.alloc())?);
    assert!(rt; told.rest.is_empty() && told.shortage.is_none());
    assert!(rt; are_of_one(told.replies.as_slice()));
    try_all(
        &rt,
        rt.alloc(),
        &mut core,
        "a list of events",
        &AFTER_EVENTS,
    )
}

const LOAD_FAULTS: &[(LoadFault, &str)] = &[
    (LoadFault::SlotTaken, "the LUN has a job already"),
    (
        LoadFault::OtherLun,
        "the LUN isn't there, or isn't the job's",
    ),
    (
        LoadFault::OtherGeometry,
        "the program was verified for another die",
    ),
];

const JOB_FAULTS: &[(JobFault, &str)] = &[
    (JobFault::NoSuchLun, "there is no such LUN"),
    (
        JobFault::RowsOutside,
        "the rows are outside the die: the base and the rows in the header come to more than the rows of a plane",
    ),
    (
        JobFault::BufferLength,
        "the buffer isn't as long as the header says",
    ),
    (
        JobFault::OtherGeometry,
        "the program was verified for another die",
    ),
    (
        JobFault::NotAtBlock,
        "the program continues a cache read, and its base isn't the first row of a block",
    ),
];

const UNLOAD_FAULTS: &[(UnloadFault, &str)] = &[
    (UnloadFault::NoJob, "the LUN has no job"),
    (UnloadFault::StillRunning, "the job hasn't ended"),
];

const ANSWERS: &[(Stepped, &str)] = &[
    (Stepped::Empty, "empty"),
    (Stepped::Ended, "ended"),
    (Stepped::Held, "held"),
    (Stepped::HandedOver, "handed over"),
    (Stepped::NotReady, "not ready"),
    (Stepped::Went, "went"),
];

#[test]
fn faults_of_loads_are_shown(rt: HostRuntime) -> Result<(), Fail> {
    for (fault, text) in LOAD_FAULTS {
        assert_eq!(rt; fault.to_string(rt.alloc())?.as_str(), *text);
    }
    for (fault, text) in JOB_FAULTS {
        assert_eq!(rt; fault.to_string(rt.alloc())?.as_str(), *text);
    }
    Ok(())
}

#[test]
fn answers_are_shown(rt: HostRuntime) -> Result<(), Fail> {
    for (fault, text) in UNLOAD_FAULTS {
        assert_eq!(rt; fault.to_string(rt.alloc())?.as_str(), *text);
    }
    for (answer, text) in ANSWERS {
        assert_eq!(rt; answer.to_string(rt.alloc())?.as_str(), *text);
    }
    Ok(())
}
