use crate::state_agrees::lun_agrees;
use die_model::LunDie;
use micro_verify::verify;
use micro_word::{Text, Word};
use nand_geometry::{Geometry, Parts, SMALL_CHIP};
use onfi_cycle::{Failures, Lun};
use seq_core::{Core, Event, Job, run_events};
use std::alloc::Global;
use std::process::Abort;
use std::test::Fail;
use target_bus::Bus;

// One LUN of 8 blocks of 4 pages of 512 + 16 bytes, in one plane.
const ONE_LUN: Parts = SMALL_CHIP;

// Two such LUNs, each in two planes.
const TWO_LUNS: Parts = Parts {
    luns: 2,
    plane_bits: 1,
    enhanced: true,
    multi_plane: true,
    ..ONE_LUN
};

// The erase of a block.
const ERASE: [Word; 5] = [
    Word::Command { byte: 0x60 },
    Word::Address { from: 2, count: 3 },
    Word::Command { byte: 0xd0 },
    Word::Wait,
    Word::End { code: 0 },
];

const ZERO: Lun = Lun { ce: 0, lun: 0 };

const ONE: Lun = Lun { ce: 0, lun: 1 };

// LUN 0 of target 1.
const NEXT: Lun = Lun { ce: 1, lun: 0 };

// A sequencer on two new dies.
fn core_of(alloc: Global, parts: Parts) -> Result<Core, Fail> {
    let geometry = Geometry::of(parts)?;
    let mut dies = Vec::with_capacity(alloc, 2)?;
    dies.push(LunDie::new(alloc, geometry)?)?;
    dies.push(LunDie::new(alloc, geometry)?)?;
    match Bus::new(alloc, geometry, dies) {
        Ok(bus) => Ok(Core::new(bus)),
        Err(refused) => Err(refused.fault.into()),
    }
}

// The erase of block 1, for a channel of four targets.
fn erase_on(alloc: Global, parts: Parts, lun: Lun) -> Result<Job, Fail> {
    let geometry = Geometry::of(parts)?;
    let text = Text::of(1, 0, 5, ERASE.to_vec(alloc)?)
        .ok()
        .ok_or("the words are no text")?;
    let verified = verify(text, geometry).ok().ok_or("the erase is refused")?;
    Ok(
        Job::new(geometry, 4, lun, 4, verified, Vec::new(alloc))
            .ok()
            .ok_or("the job is refused")?,
    )
}

// Two LUNs are loaded with an erase of block 1 each, stepped in turn with both ready after their first polls, and unloaded.
fn events_in_turn(alloc: Global, parts: Parts, one: Lun, other: Lun) -> Result<Vec<Event>, Fail> {
    let mut events = Vec::new(alloc);
    events.push(Event::Load(one, erase_on(alloc, parts, one)?))?;
    events.push(Event::Load(other, erase_on(alloc, parts, other)?))?;
    for _ in 0..7 {
        events.push(Event::Step(one))?;
        events.push(Event::Step(other))?;
    }
    events.push(Event::Ready(one, Failures::default()))?;
    events.push(Event::Ready(other, Failures::default()))?;
    for _ in 0..3 {
        events.push(Event::Step(one))?;
        events.push(Event::Step(other))?;
    }
    events.push(Event::Unload(one))?;
    events.push(Event::Unload(other))?;
    Ok(events)
}

// Does the first so many events of two LUNs, and looks at both. How many items they leave.
fn agrees_after(
    rt: &impl Abort,
    alloc: Global,
    parts: Parts,
    other: Lun,
    count: usize,
) -> Result<usize, Fail> {
    let mut core = core_of(alloc, parts)?;
    let mut events = events_in_turn(alloc, parts, ZERO, other)?;
    events.truncate(count);
    let told = run_events(&mut core, alloc, events);
    assert!(rt; told.rest.is_empty() && told.replies.len() == count);
    let bus = core.into_bus();
    let mut past = bus.trace().to_vec(alloc)?;
    past.reverse();
    for lun in [ZERO, other] {
        let told = bus.lun_state(lun).ok_or("a LUN is missing")?;
        assert!(rt;
            lun_agrees(alloc, &bus.geometry(), &past, lun, told)?,
            "{lun:?} {told:?}"
        );
    }
    Ok(past.len())
}

// The geometry, the other LUN, and how many items all events leave.
const CHANNELS: &[(Parts, Lun, usize)] = &[(TWO_LUNS, ONE, 32), (ONE_LUN, NEXT, 20)];

#[test]
fn the_state_agrees_with_a_look_back(rt: HostRuntime) -> Result<(), Fail> {
    for (parts, other, items) in CHANNELS {
        let mut last = 0;
        for count in 0..=26 {
            last = agrees_after(&rt, rt.alloc(), *parts, *other, count)?;
        }
        assert_eq!(rt; last, *items);
    }
    Ok(())
}
