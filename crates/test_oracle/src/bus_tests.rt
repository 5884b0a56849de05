use crate::made::{
    CACHED, CACHING, COPYING, ELSEWHERE, Operations, PLAIN, PLANED, READING, SELECTING, SHARED,
    WIDE, made,
};
use die_model::LunDie;
use nand_geometry::{Geometry, Optional, Parts, SMALL_CHIP};
use onfi_cycle::{
    Cycle, Forbidden, Item, Kind, Lun, LunFacts, LunState, PageAddress, Queued, WorkQueue,
    is_cache_program, is_cache_read, judge, keeps_array_busy,
};
use oracle_onfi::WrittenPage;
use oracle_onfi::content::{content, driven_byte};
use oracle_onfi::past::{luns_of, tail_facts};
use std::alloc::Global;
use std::process::Abort;
use std::test::Fail;
use target_bus::{Bus, BusRefusal};

// One LUN of 8 blocks of 4 pages of 512 + 16 bytes, in one plane.
const ONE_LUN: Parts = SMALL_CHIP;

// One LUN with Read Status Enhanced and the cache read.
const CACHED_LUN: Parts = Parts {
    enhanced: true,
    cache: true,
    ..ONE_LUN
};

// One LUN in two planes, with the cache read.
const TWO_PLANES: Parts = Parts {
    plane_bits: 1,
    multi_plane: true,
    cache: true,
    ..ONE_LUN
};

// Two LUNs in two planes.
const TWO_LUNS: Parts = Parts {
    luns: 2,
    plane_bits: 1,
    enhanced: true,
    multi_plane: true,
    ..ONE_LUN
};

// Two LUNs of 6 blocks of 3 pages, in one plane: fields of 3 and 2 bits have room for more.
const UNEVEN: Parts = Parts {
    pages: 3,
    blocks: 6,
    luns: 2,
    enhanced: true,
    cache: true,
    ..ONE_LUN
};

// Four LUNs in two planes, with the cache read.
const FOUR_LUNS: Parts = Parts {
    luns: 4,
    cache: true,
    ..TWO_LUNS
};

// Two LUNs in the wider profile, with all that it has beside the base.
const WIDE_LUNS: Parts = Parts {
    optional: Optional(0x8a64),
    ..TWO_LUNS
};

// The same with read cache.
const WIDE_CACHED: Parts = Parts {
    cache: true,
    ..WIDE_LUNS
};

// The same with reads of several planes.
const WIDE_READING: Parts = Parts {
    optional: Optional(0x8e64),
    ..WIDE_CACHED
};

// One LUN in two planes, with copyback.
const COPYING_LUN: Parts = Parts {
    optional: Optional(0x8450),
    ..TWO_PLANES
};

// The same with program cache.
const CACHING_LUN: Parts = Parts {
    optional: Optional(0xc051),
    ..TWO_PLANES
};

// Two LUNs of it, where several planes aren't programmed so.
const CACHING_LUNS: Parts = Parts {
    optional: Optional(0x8001),
    ..TWO_LUNS
};

// A kind of traces: a channel of so many targets, the operations on it, and how many items a trace has at most.
type Traces = (Parts, u8, Operations, usize);

const TRACES: [Traces; 13] = [
    (ONE_LUN, 1, PLAIN, 26),
    (CACHED_LUN, 1, CACHED, 26),
    (TWO_PLANES, 1, PLANED, 26),
    (ONE_LUN, 2, PLAIN, 24),
    (TWO_LUNS, 1, SHARED, 24),
    (UNEVEN, 1, SHARED, 24),
    (TWO_LUNS, 2, SHARED, 20),
    (FOUR_LUNS, 1, SHARED, 20),
    (WIDE_LUNS, 1, WIDE, 24),
    (WIDE_CACHED, 1, ELSEWHERE, 26),
    (WIDE_CACHED, 1, SELECTING, 26),
    (WIDE_READING, 1, READING, 26),
    (COPYING_LUN, 1, COPYING, 26),
];

const CACHING_TRACES: [Traces; 2] = [
    (CACHING_LUN, 1, CACHING, 26),
    (CACHING_LUNS, 1, CACHING, 24),
];

// The facts of the LUNs of each target, by the look back.
type Looks = Vec<Vec<LunFacts<Vec<Queued>>>>;

// A channel, what its dies hold at the opening, and the bytes of its parameter pages.
#[derive(Drop)]
struct Channel {
    geometry: Geometry,
    targets: u8,
    opening: Vec<WrittenPage>,
    image: Vec<u8>,
    parameters: Vec<u8>,
}

// What a channel answers to an item: the rule that it breaks, or how it stands in the trace.
#[derive(Clone, Copy, Debug, PartialEq, Eq)]
enum Told {
    Broken(Forbidden),
    Came(Item),
}

// What has been played: items, those that were permitted, bytes that are no status and not FF, pages that were changed, and
// how often each rule was broken.
#[derive(Clone, Copy, Debug)]
struct Counts {
    items: u32,
    permitted: u32,
    bytes: u32,
    changed: u32,
    rules: [u32; 18],
}

// The item is an output of a byte that is no status and not FF.
fn gives_data(item: Item) -> bool {
    match item {
        Item::Cyc(cycle) => {
            cycle.kind == Kind::Dout && !matches!(cycle.byte, 0x80 | 0xc0 | 0xe0 | 0xe1 | 0xff)
        }
        _ => false,
    }
}

// ---- the channel

// Pages 0 and 5 of LUN 0 of target 0, each of one byte.
fn opening(alloc: Global) -> Result<Vec<WrittenPage>, Fail> {
    let mut pages = Vec::new(alloc);
    for (block, page, byte) in [(0, 0, 0x3f), (1, 1, 0xfc)] {
        pages.push(WrittenPage {
            lun: Lun { ce: 0, lun: 0 },
            at: PageAddress { block, page },
            bytes: vec![in alloc; byte; 528]?,
        })?;
    }
    Ok(pages)
}

// The image of a die that holds these two pages.
fn image(alloc: Global, parts: Parts) -> Result<Vec<u8>, Fail> {
    let mut image = Vec::from_slice(alloc, b"NDI1")?;
    for number in [512, 16, parts.pages, parts.blocks, 2] {
        image.extend_from_slice(&number.to_le_bytes())?;
    }
    for (row, byte) in [(0, 0x3f), (5, 0xfc)] {
        image.extend_from_slice(&[row, 0, 0, 0])?;
        for _ in 0..528 {
            image.push(byte)?;
        }
    }
    Ok(image)
}

fn channel_of(alloc: Global, parts: Parts, targets: u8) -> Result<Channel, Fail> {
    let geometry = Geometry::of(parts)?;
    let mut parameters = Vec::new(alloc);
    for _ in 0..3 {
        parameters.extend_from_slice(&geometry.page())?;
    }
    Ok(Channel {
        geometry,
        targets,
        opening: opening(alloc)?,
        image: image(alloc, parts)?,
        parameters,
    })
}

// A die that holds the image.
fn filled_die(alloc: Global, channel: &Channel) -> Result<LunDie, Fail> {
    let mut die = LunDie::new(alloc, channel.geometry)?;
    if !die.is_new() {
        return Err("the die is new".into());
    }
    die.load_image(&channel.image)?;
    Ok(die)
}

fn bus_of(alloc: Global, channel: &Channel) -> Result<Bus, Fail> {
    let count = channel
        .targets
        .saturating_mul(channel.geometry.parts().luns);
    let mut dies = Vec::with_capacity(alloc, 16)?;
    dies.push(filled_die(alloc, channel)?)?;
    for _ in 1..count {
        dies.push(LunDie::new(alloc, channel.geometry)?)?;
    }
    match Bus::new(alloc, channel.geometry, dies) {
        Ok(bus) => Ok(bus),
        Err(refused) => Err(refused.fault.into()),
    }
}

// ---- what the bus answers

fn refused(refusal: BusRefusal) -> Result<Told, Fail> {
    match refusal {
        BusRefusal::Forbidden(rule) => Ok(Told::Broken(rule)),
        BusRefusal::OutOfMemory => Err("there is memory".into()),
    }
}

fn answer_to_cycle(bus: &mut Bus, cycle: Cycle) -> Result<Told, Fail> {
    if cycle.kind == Kind::Dout {
        return match bus.take(cycle.ce) {
            Ok(byte) => Ok(Told::Came(Item::Cyc(Cycle { byte, ..cycle }))),
            Err(refusal) => refused(refusal),
        };
    }
    match bus.put(cycle) {
        Ok(()) => Ok(Told::Came(Item::Cyc(cycle))),
        Err(refusal) => refused(refusal),
    }
}

fn answer(bus: &mut Bus, item: Item) -> Result<Told, Fail> {
    let came = match item {
        Item::Cyc(cycle) => return answer_to_cycle(bus, cycle),
        Item::Rdy { ce, lun, fail } => bus.ready(Lun { ce, lun }, fail),
        Item::Ard { ce, lun, fail } => bus.array_ready(Lun { ce, lun }, fail),
    };
    if came {
        Ok(Told::Came(item))
    } else {
        Ok(Told::Broken(Forbidden::NotThere))
    }
}

// ---- what the look back answers

fn looks(alloc: Global, channel: &Channel, past: &[Item]) -> Result<Looks, Fail> {
    let mut looks = Vec::new(alloc);
    for ce in 0..channel.targets {
        looks.push(luns_of(alloc, &channel.geometry, past, ce)?)?;
    }
    Ok(looks)
}

// The rule that an item breaks after a past of which these are the looks.
fn broken(channel: &Channel, looks: &Looks, past: &[Item], item: Item) -> Option<Forbidden> {
    let ce = item.target();
    let t = tail_facts(past, ce);
    match looks.get(usize::from(ce)) {
        Some(luns) => judge(&channel.geometry, channel.targets, &t, luns, item),
        None => {
            let none: [LunFacts<Vec<Queued>>; 0] = [];
            judge(&channel.geometry, channel.targets, &t, &none, item)
        }
    }
}

// The byte that an output gives after a past, 0 for any other item.
fn byte_of(alloc: Global, channel: &Channel, past: &[Item], cycle: Cycle) -> Result<u8, Fail> {
    if cycle.kind != Kind::Dout {
        return Ok(cycle.byte);
    }
    let driven = driven_byte(
        alloc,
        &channel.geometry,
        &channel.parameters,
        &channel.opening,
        past,
        cycle.ce,
    )?;
    Ok(driven.ok_or("a permitted output has a byte")?)
}

// What comes of an item after a past of which these are the looks.
fn wanted(
    alloc: Global,
    channel: &Channel,
    looks: &Looks,
    past: &[Item],
    item: Item,
) -> Result<Told, Fail> {
    if let Some(rule) = broken(channel, looks, past, item) {
        return Ok(Told::Broken(rule));
    }
    match item {
        Item::Cyc(cycle) => {
            let byte = byte_of(alloc, channel, past, cycle)?;
            Ok(Told::Came(Item::Cyc(Cycle { byte, ..cycle })))
        }
        _ => Ok(Told::Came(item)),
    }
}

// ---- both beside one another

// The LUN programs behind a Page Cache Program, or its array does.
fn is_programming(facts: &LunFacts<Vec<Queued>>) -> bool {
    facts.busy && is_cache_program(facts.closer)
        || facts.array_busy && keeps_array_busy(facts.closer)
}

// The running state of a LUN is what the look back tells of it.
fn lun_agrees(told: LunState, facts: &LunFacts<Vec<Queued>>) -> bool {
    told.busy == facts.busy
        && told.latch == facts.latch
        && told.register == facts.register
        && told.column.map(u64::from) == facts.column.output_column()
        && told.queued == facts.queue.works().len()
        && told.caching == is_cache_read(facts.closer)
        && told.programming == is_programming(facts)
        && told.array_busy == facts.array_busy
}

// The running state of each LUN of a target is what the look back tells of it.
fn target_agrees(bus: &Bus, ce: u8, luns: &[LunFacts<Vec<Queued>>]) -> bool {
    for lun in 0..bus.geometry().parts().luns {
        match (bus.lun_state(Lun { ce, lun }), luns.get(usize::from(lun))) {
            (Some(told), Some(facts)) if lun_agrees(told, facts) => {}
            _ => return false,
        }
    }
    true
}

// The running state of each LUN is what the look back tells of it.
fn luns_agree(bus: &Bus, looks: &Looks) -> bool {
    for ce in 0..bus.targets() {
        match looks.get(usize::from(ce)) {
            Some(luns) if target_agrees(bus, ce, luns) => {}
            _ => return false,
        }
    }
    true
}

// The page of a row in an image, if it has one.
fn page_in(image: &[u8], row: u8) -> Option<&[u8]> {
    let entries = image.get(24..)?;
    for entry in entries.chunks_exact(532) {
        if entry.starts_with(&[row, 0, 0, 0]) {
            return entry.get(4..);
        }
    }
    None
}

// An image has this page, where a byte of it isn't FF.
fn has_page(image: &[u8], row: u8, bytes: &[u8]) -> bool {
    let is_blank = bytes.iter().all(|byte| *byte == 0xff);
    match page_in(image, row) {
        None => is_blank,
        Some(page) => !is_blank && page == bytes,
    }
}

// The pages of a die after a past: rows that are often worked on, some that seldom are, and one that is never programmed. How
// many of them aren't as they were at the opening.
fn pages_agree(
    rt: &impl Abort,
    alloc: Global,
    channel: &Channel,
    past: &[Item],
    lun: Lun,
    die: &LunDie,
) -> Result<u32, Fail> {
    let image = die.image()?;
    let mut changed = 0u32;
    for (row, block, page) in [(0, 0, 0), (4, 1, 0), (1, 0, 1), (5, 1, 1), (9, 2, 1)] {
        let at = PageAddress { block, page };
        let bytes = content(alloc, &channel.geometry, &channel.opening, past, lun, at)?;
        assert!(rt; has_page(&image, row, &bytes), "{lun:?} {at:?} {past:?}");
        let before = content(alloc, &channel.geometry, &channel.opening, &[], lun, at)?;
        if bytes.as_slice() != before.as_slice() {
            changed = changed.saturating_add(1);
        }
    }
    Ok(changed)
}

// The pages of the dies of a target.
fn target_pages_agree(
    rt: &impl Abort,
    alloc: Global,
    channel: &Channel,
    past: &[Item],
    ce: u8,
    dies: &[LunDie],
) -> Result<u32, Fail> {
    let luns = channel.geometry.parts().luns;
    let mut changed = 0u32;
    for lun in 0..luns {
        let here = Lun { ce, lun };
        let die = dies.get(here.place(luns)).ok_or("a die is missing")?;
        changed = changed.saturating_add(pages_agree(rt, alloc, channel, past, here, die)?);
    }
    Ok(changed)
}

// The pages of all dies.
fn dies_agree(
    rt: &impl Abort,
    alloc: Global,
    channel: &Channel,
    past: &[Item],
    dies: &[LunDie],
) -> Result<u32, Fail> {
    let mut changed = 0u32;
    for ce in 0..channel.targets {
        let more = target_pages_agree(rt, alloc, channel, past, ce, dies)?;
        changed = changed.saturating_add(more);
    }
    Ok(changed)
}

impl Counts {
    // Nothing was played.
    fn new() -> Counts {
        Counts {
            items: 0,
            permitted: 0,
            bytes: 0,
            changed: 0,
            rules: [0; 18],
        }
    }

    // One item more, with what came of it.
    fn add(&mut self, told: Told) {
        self.items = self.items.saturating_add(1);
        match told {
            Told::Broken(rule) => {
                let place = rule as usize;
                self.rules[place] = self.rules[place].saturating_add(1);
            }
            Told::Came(item) => {
                self.permitted = self.permitted.saturating_add(1);
                if gives_data(item) {
                    self.bytes = self.bytes.saturating_add(1);
                }
            }
        }
    }
}

// Plays items until the trace has so many, or nothing was permitted for long.
fn play(
    rt: &impl Abort,
    alloc: Global,
    channel: &Channel,
    bus: &mut Bus,
    items: &[Item],
    most: usize,
    counts: &mut Counts,
) -> Result<Vec<Item>, Fail> {
    let mut past: Vec<Item> = Vec::new(alloc);
    let mut seen = looks(alloc, channel, &past)?;
    let mut refused = 0usize;
    for item in items {
        if past.len() >= most || refused >= 24 {
            break;
        }
        let wanted = wanted(alloc, channel, &seen, &past, *item)?;
        let told = answer(bus, *item)?;
        assert_eq!(rt; told, wanted, "{item:?} after {past:?}");
        counts.add(told);
        refused = refused.saturating_add(1);
        if let Told::Came(came) = told {
            past.insert(0, came)?;
            seen = looks(alloc, channel, &past)?;
            refused = 0;
        }
        assert!(rt; luns_agree(bus, &seen), "{item:?} after {past:?}");
    }
    Ok(past)
}

// One made trace, from the opening to the dies.
fn play_one(
    rt: &impl Abort,
    alloc: Global,
    channel: &Channel,
    seed: &mut u32,
    operations: Operations,
    most: usize,
    counts: &mut Counts,
) -> Result<(), Fail> {
    let luns = channel.geometry.parts().luns;
    let items = made(alloc, seed, operations, channel.targets, luns)?;
    let mut bus = bus_of(alloc, channel)?;
    let past = play(rt, alloc, channel, &mut bus, &items, most, counts)?;
    assert!(rt; bus.trace().iter().eq(past.iter().rev()));
    let dies = bus.into_dies();
    let changed = dies_agree(rt, alloc, channel, &past, &dies)?;
    counts.changed = counts.changed.saturating_add(changed);
    Ok(())
}

// Sixty-four made traces of a kind.
fn play_all(
    rt: &impl Abort,
    alloc: Global,
    traces: &Traces,
    seed: &mut u32,
    counts: &mut Counts,
) -> Result<(), Fail> {
    let (parts, targets, operations, most) = *traces;
    let channel = channel_of(alloc, parts, targets)?;
    for _ in 0..64 {
        play_one(rt, alloc, &channel, seed, operations, most, counts)?;
    }
    Ok(())
}

// Each rule was broken, but that of cache programs.
fn breaks_rules(counts: &Counts) -> bool {
    for (place, count) in counts.rules.iter().enumerate() {
        if place != Forbidden::CacheProgramMisplaced as usize && *count < 40 {
            return false;
        }
    }
    true
}

// Enough of each was played: items, a third of them permitted, bytes, pages that were changed, and each rule broken.
fn are_enough(counts: &Counts) -> bool {
    counts.items >= 20_000
        && counts.permitted >= counts.items / 3
        && counts.bytes >= 250
        && counts.changed >= 120
        && breaks_rules(counts)
}

#[test]
fn the_bus_agrees_with_a_look_back(rt: HostRuntime) -> Result<(), Fail> {
    let mut seed = 0x2545_f491;
    let mut counts = Counts::new();
    for traces in &TRACES {
        play_all(&rt, rt.alloc(), traces, &mut seed, &mut counts)?;
    }
    assert!(rt; are_enough(&counts), "{counts:?}");
    Ok(())
}

// Enough was played where programs go on behind their ready: items, a third of them permitted, pages that were changed, and its rule broken.
fn are_enough_of_caching(counts: &Counts) -> bool {
    let broken = counts.rules[Forbidden::CacheProgramMisplaced as usize];
    counts.items >= 4_000
        && counts.permitted >= counts.items / 3
        && counts.changed >= 30
        && broken >= 20
}

#[test]
fn cache_programs_agree_with_a_look_back(rt: HostRuntime) -> Result<(), Fail> {
    let mut seed = 0x2545_f491;
    let mut counts = Counts::new();
    for traces in &CACHING_TRACES {
        play_all(&rt, rt.alloc(), traces, &mut seed, &mut counts)?;
    }
    assert!(rt; are_enough_of_caching(&counts), "{counts:?}");
    Ok(())
}
