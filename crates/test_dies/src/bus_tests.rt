ghost use Rattle.std.specs.Prelude.{◌<◌, IfOk};

use die_model::LunDie;
use linked_list_allocator::LocalHeap;
use nand_geometry::{Geometry, Parts, SMALL_CHIP};
use onfi_cycle::{
    Cycle, Failures, Forbidden, Item, Kind, Latch, Lun, LunState, PageAddress, Register,
};
use std::alloc::{AllocError, Allocator, Global};
use std::process::Abort;
use std::test::Fail;
use target_bus::{Bus, BusFault, BusRefusal};

// One LUN of 8 blocks of 4 pages of 512 + 16 bytes, in one plane.
pub(crate) const ONE_LUN: Parts = SMALL_CHIP;

// One such LUN with the cache read.
pub(crate) const CACHED: Parts = Parts {
    cache: true,
    ..ONE_LUN
};

// One such LUN in two planes.
pub(crate) const TWO_PLANES: Parts = Parts {
    plane_bits: 1,
    multi_plane: true,
    ..ONE_LUN
};

// Two LUNs, each in two planes.
pub(crate) const TWO_LUNS: Parts = Parts {
    luns: 2,
    enhanced: true,
    ..TWO_PLANES
};

const ZERO: Lun = Lun { ce: 0, lun: 0 };

const ONE: Lun = Lun { ce: 0, lun: 1 };

// LUN 0 of target 1.
const NEXT: Lun = Lun { ce: 1, lun: 0 };

fn geometry(parts: Parts) -> Result<Geometry, Fail> {
    Ok(Geometry::of(parts).ok().ok_or("the parts are a geometry")?)
}

fn dies<A: Allocator + Copy>(alloc: A, parts: Parts, count: u8) -> Result<Vec<LunDie<A>, A>, Fail> {
    let geometry = geometry(parts)?;
    let mut dies = Vec::with_capacity(alloc, usize::from(count))?;
    for _ in 0..count {
        dies.push(LunDie::new(alloc, geometry)?)?;
    }
    Ok(dies)
}

pub(crate) fn channel<A: Allocator + Copy>(
    alloc: A,
    parts: Parts,
    count: u8,
) -> Result<Bus<A>, Fail> {
    let dies = dies(alloc, parts, count)?;
    match Bus::new(alloc, geometry(parts)?, dies) {
        Ok(bus) => Ok(bus),
        Err(refused) => Err(refused.fault.into()),
    }
}

// ---- steps, written as text

// An item that is tried, and the rule that it breaks.
#[derive(Clone, Copy)]
pub(crate) struct Step {
    item: Item,
    rule: Option<Forbidden>,
}

const RULES: [Forbidden; 16] = [
    Forbidden::NotThere,
    Forbidden::NotThere,
    Forbidden::CommandUnknown,
    Forbidden::SequenceOpen,
    Forbidden::SeveralLuns,
    Forbidden::NoColumnToChange,
    Forbidden::CommandMisplaced,
    Forbidden::AddressMisplaced,
    Forbidden::RowOutside,
    Forbidden::LunBusy,
    Forbidden::QueueClash,
    Forbidden::InputMisplaced,
    Forbidden::NoSoleDriver,
    Forbidden::DataNotReady,
    Forbidden::ColumnOutside,
    Forbidden::CacheReadMisplaced,
];

fn digit(letter: u8) -> Result<u8, Fail>
    ensures { IfOk result (λ digit. digit < 16) }
{
    match letter {
        b'0'..=b'9' => Ok(letter - b'0'),
        b'a'..=b'f' => Ok(letter - b'a' + 10),
        _ => Err(Fail::from("no hexadecimal digit")),
    }
}

fn cycle(ce: u8, kind: Kind, high: u8, low: u8) -> Result<Item, Fail> {
    let high = digit(high)?;
    let low = digit(low)?;
    Ok(Item::Cyc(Cycle {
        ce,
        kind,
        byte: high * 16 + low,
    }))
}

fn ready(ce: u8, lun: u8, fail: bool) -> Result<Item, Fail> {
    let lun = digit(lun)?;
    let fail = Failures {
        last: fail,
        before: false,
    };
    Ok(Item::Rdy { ce, lun, fail })
}

fn array_ready(ce: u8, lun: u8) -> Result<Item, Fail> {
    let lun = digit(lun)?;
    let fail = false;
    Ok(Item::Ard { ce, lun, fail })
}

// `C60` is a command, `A04` an address, `Ia5` an input, `Oe0` an output, `R0` a ready of LUN 0, `F0` one with failure, and `Y0`
// one of its array.
fn item(ce: u8, word: &[u8]) -> Result<Item, Fail> {
    match word {
        [b'C', high, low] => cycle(ce, Kind::Cmd, *high, *low),
        [b'A', high, low] => cycle(ce, Kind::Adr, *high, *low),
        [b'I', high, low] => cycle(ce, Kind::Din, *high, *low),
        [b'O', high, low] => cycle(ce, Kind::Dout, *high, *low),
        [b'R', lun] => ready(ce, *lun, false),
        [b'F', lun] => ready(ce, *lun, true),
        [b'Y', lun] => array_ready(ce, *lun),
        _ => Err(Fail::from("no item")),
    }
}

// `O00!d` breaks F13.
fn step_of(ce: u8, word: &[u8]) -> Result<Step, Fail> {
    match word {
        [once @ .., b'!', number] => {
            let number = digit(*number)?;
            Ok(Step {
                item: item(ce, once)?,
                rule: Some(RULES[usize::from(number)]),
            })
        }
        _ => Ok(Step {
            item: item(ce, word)?,
            rule: None,
        }),
    }
}

// `A00x5` is five times `A00`, and `Offx528` so many outputs.
fn counted(word: &[u8]) -> Result<(&[u8], u32), Fail> {
    match word {
        [once @ .., b'x', units] => Ok((once, u32::from(digit(*units)?))),
        [once @ .., b'x', hundreds, tens, units] => {
            let hundreds = u32::from(digit(*hundreds)?);
            let tens = u32::from(digit(*tens)?);
            let units = u32::from(digit(*units)?);
            Ok((once, hundreds * 100 + tens * 10 + units))
        }
        _ => Ok((word, 1)),
    }
}

fn push_times(steps: &mut Vec<Step>, step: Step, times: u32) -> Result<(), AllocError> {
    for _ in 0..times {
        steps.push(step)?;
    }
    Ok(())
}

// The steps of a text. Behind `@1` they are of target 1.
pub(crate) fn steps_of(alloc: Global, text: &str) -> Result<Vec<Step>, Fail> {
    let mut steps = Vec::new(alloc);
    let mut ce = 0u8;
    for word in text.split_whitespace() {
        match word.as_bytes() {
            [b'@', number] => ce = digit(*number)?,
            bytes => {
                let (once, times) = counted(bytes)?;
                push_times(&mut steps, step_of(ce, once)?, times)?;
            }
        }
    }
    Ok(steps)
}

// ---- steps, played

// What a bus answers to an item: how it stands in the trace, or why it doesn't.
#[derive(Clone, Copy, Debug, PartialEq, Eq)]
enum Told {
    Came(Item),
    Refused(BusRefusal),
}

fn answer_to_cycle<A: Allocator + Copy>(bus: &mut Bus<A>, cycle: Cycle) -> Told {
    if cycle.kind == Kind::Dout {
        return match bus.take(cycle.ce) {
            Ok(byte) => Told::Came(Item::Cyc(Cycle { byte, ..cycle })),
            Err(refusal) => Told::Refused(refusal),
        };
    }
    match bus.put(cycle) {
        Ok(()) => Told::Came(Item::Cyc(cycle)),
        Err(refusal) => Told::Refused(refusal),
    }
}

fn answer<A: Allocator + Copy>(bus: &mut Bus<A>, item: Item) -> Told {
    let came = match item {
        Item::Cyc(cycle) => return answer_to_cycle(bus, cycle),
        Item::Rdy { ce, lun, fail } => bus.ready(Lun { ce, lun }, fail),
        Item::Ard { ce, lun, fail } => bus.array_ready(Lun { ce, lun }, fail),
    };
    if came {
        Told::Came(item)
    } else {
        Told::Refused(BusRefusal::Forbidden(Forbidden::NotThere))
    }
}

// What is seen of a bus: how many items have come, and three LUNs.
type Seen = (usize, Option<LunState>, Option<LunState>, Option<LunState>);

fn seen_of<A: Allocator + Copy>(bus: &Bus<A>) -> Seen {
    (
        bus.trace().len(),
        bus.lun_state(ZERO),
        bus.lun_state(ONE),
        bus.lun_state(NEXT),
    )
}

// A step comes as it must. One that is refused changes nothing.
pub(crate) fn comes<A: Allocator + Copy>(bus: &mut Bus<A>, step: Step) -> bool {
    let before = seen_of(bus);
    match (answer(bus, step.item), step.rule) {
        (Told::Came(item), None) => item == step.item,
        (Told::Refused(refusal), Some(rule)) => {
            refusal == BusRefusal::Forbidden(rule) && seen_of(bus) == before
        }
        _ => false,
    }
}

// Tries one step after another. The place of one that doesn't come as it must is told.
fn play<A: Allocator + Copy>(
    rt: &impl Abort,
    bus: &mut Bus<A>,
    steps: &[Step],
    text: &str,
) -> Result<(), Fail> {
    for (place, step) in steps.iter().enumerate() {
        assert!(rt; comes(bus, *step), "step {place} of {text}");
    }
    Ok(())
}

// The trace is that of the steps that break no rule.
fn has_come(trace: &[Item], steps: &[Step]) -> bool {
    let mut items = trace.iter();
    for step in steps {
        if step.rule.is_none() && items.next() != Some(&step.item) {
            return false;
        }
    }
    items.next().is_none()
}

// ---- images

// Pages that dies hold: the number of the die, a row below 256, and the bytes with which the page begins. What is behind them is FF.
type Held = &'static [(usize, u8, &'static [u8])];

fn push_page(image: &mut Vec<u8>, row: u8, start: &[u8]) -> Result<(), AllocError> {
    image.extend_from_slice(&[row, 0, 0, 0])?;
    image.extend_from_slice(start)?;
    for _ in start.len()..528 {
        image.push(0xff)?;
    }
    Ok(())
}

// The image of the die of a number of one of the geometries above.
fn image_of(alloc: Global, pages: Held, number: usize) -> Result<Vec<u8>, AllocError> {
    let mut entries = Vec::new(alloc);
    let mut count = 0u32;
    for (die, row, start) in pages {
        if *die == number {
            push_page(&mut entries, *row, start)?;
            count = count.saturating_add(1);
        }
    }
    let mut image = Vec::from_slice(alloc, b"NDI1")?;
    for field in [512, 16, 4, 8, count] {
        image.extend_from_slice(&field.to_le_bytes())?;
    }
    image.extend_from_slice(entries.as_slice())?;
    Ok(image)
}

// Each die holds these pages, and no others.
fn dies_hold<A: Allocator + Copy>(
    alloc: Global,
    dies: &[LunDie<A>],
    pages: Held,
) -> Result<bool, Fail> {
    for (number, die) in dies.iter().enumerate() {
        let image = die.image()?;
        if image.as_slice() != image_of(alloc, pages, number)?.as_slice() {
            return Ok(false);
        }
    }
    Ok(true)
}

// ---- rows

// A channel of so many dies, what is tried on it, and what its dies hold then.
type Row = (Parts, u8, &'static str, Held);

fn play_row(rt: &impl Abort, alloc: Global, row: &Row) -> Result<(), Fail> {
    let (parts, count, text, pages) = *row;
    let mut bus = channel(alloc, parts, count)?;
    let steps = steps_of(alloc, text)?;
    play(rt, &mut bus, steps.as_slice(), text)?;
    assert!(rt; has_come(bus.trace(), steps.as_slice()), "{text}");
    let dies = bus.into_dies();
    assert!(rt; dies_hold(alloc, dies.as_slice(), pages)?, "{text}");
    Ok(())
}

fn play_rows(rt: &impl Abort, alloc: Global, rows: &[Row]) -> Result<(), Fail> {
    for row in rows {
        play_row(rt, alloc, row)?;
    }
    Ok(())
}

const PROGRAMS_AND_ERASES: &[Row] = &[
    (
        ONE_LUN,
        1,
        "C80 A00x5 Ia5 I3c C10 C70 O80 R0 C70 Oe0 C00 A00x5 C30 C70 O80 R0 C70 Oe0 C00 Oa5 O3c",
        &[(0, 0, &[0xa5, 0x3c])],
    ),
    // 1010 0101 and 0000 1111; 0011 1100 and 0000 1111.
    (
        ONE_LUN,
        1,
        "C80 A00x5 Ia5 I3c C10 R0 C80 A00x5 I0fx2 C10 R0 C00 A00x5 C30 R0 O05 O0c",
        &[(0, 0, &[0x05, 0x0c])],
    ),
    (
        ONE_LUN,
        1,
        "C80 A03 A00 A05 A00x2 Ia5 I3c C10 R0 C00 A03 A00 A05 A00x2 C30 R0 Oa5 O3c Off",
        &[(0, 5, &[0xff, 0xff, 0xff, 0xa5, 0x3c])],
    ),
    (
        ONE_LUN,
        1,
        "C80 A03 A00 A05 A00x2 Ia5 I3c C10 F0 C70 Oe1 C00 A03 A00 A05 A00x2 C30 R0 Offx3",
        &[],
    ),
    (
        ONE_LUN,
        1,
        "C80 A00x5 Ia5 I3c C85 A00x2 I0f C10 R0",
        &[(0, 0, &[0x0f, 0x3c])],
    ),
    // No input, and inputs up to the end of the page.
    (ONE_LUN, 1, "C80 A00x5 C10 R0", &[]),
    (
        ONE_LUN,
        1,
        "C80 A0f A02 A1f A00x2 Iff Ia5!e C85 A10 A02!e A00 Ia5 C10 R0",
        &[(
            0,
            31,
            &[
                0xff, 0xff, 0xff, 0xff, 0xff, 0xff, 0xff, 0xff, 0xff, 0xff, 0xff, 0xff, 0xff, 0xff,
                0xff, 0xff, 0xa5,
            ],
        )],
    ),
    (
        ONE_LUN,
        1,
        "C80 A00x5 Ia5 C10 R0 C80 A00x2 A04 A00x2 I3c C10 R0 C60 A07 A00x2 Cd0 C70 O80 R0 C70 Oe0",
        &[(0, 0, &[0xa5])],
    ),
    (
        ONE_LUN,
        1,
        "C80 A00x2 A04 A00x2 I3c C10 R0 C60 A04 A00x2 Cd0 C70 O80 F0 C70 Oe1",
        &[(0, 4, &[0x3c])],
    ),
    (
        ONE_LUN,
        1,
        "C60 A04 A00x2 Cd0 C70 O80 R0 C70 Oe0 C60 A08 A00x2 Cd0 F0 C70 Oe1",
        &[],
    ),
    (
        TWO_LUNS,
        2,
        "C80 A00x2 A20 A00x2 Ia5 C10 R1 C00 A00x2 A20 A00x2 C30 R1 Oa5 Off",
        &[(1, 0, &[0xa5])],
    ),
    (
        ONE_LUN,
        2,
        "@1 C80 A00x5 Ia5 C10 @0 C80 A00x5 I3c C10 R0 @1 R0 C00 A00x5 C30 R0 Oa5 @0 O00!c",
        &[(0, 0, &[0x3c]), (1, 0, &[0xa5])],
    ),
];

const TOGETHER: &[Row] = &[
    (
        TWO_LUNS,
        2,
        "C80 A00x5 Ia5 C11 C78 A00x3 O80 R0 C78 A00x3 Oe0 C80 A00x2 A04 A00x2 I3c C10 C78 A00x3 O80 R0 C78 \
         A00x3 Oe0",
        &[(0, 0, &[0xa5]), (0, 4, &[0x3c])],
    ),
    (
        TWO_LUNS,
        2,
        "C80 A00x5 Ia5 C11 C78 A00x3 O80 R0 C78 A00x3 Oe0 C80 A00x2 A04 A00x2 I3c C10 C78 A00x3 O80 F0 C78 \
         A00x3 Oe1",
        &[],
    ),
    (
        TWO_PLANES,
        1,
        "C80 A00x5 Ia5 C11 R0 C80 A00x2 A04 A00x2 I3c C10 R0 C60 A00x3 Cd1 R0 C60 A04 A00x2 Cd0 R0 C70 Oe0",
        &[],
    ),
    (
        TWO_PLANES,
        1,
        "C80 A00x5 Ia5 C11 R0 C80 A00x2 A04 A00x2 I3c C10 R0 C60 A00x3 Cd1 R0 C60 A04 A00x2 Cd0 F0 C70 Oe1",
        &[(0, 0, &[0xa5]), (0, 4, &[0x3c])],
    ),
    // What doesn't go together with a queue: the identifier, the parameter page, a row of the same plane, one of another page,
    // an erase, a read, and a block with other bits above the plane.
    (
        TWO_PLANES,
        1,
        "C80 A00x5 Ia5 C11 R0 C90!a Cec!a C80 A00x4 A00!a",
        &[],
    ),
    (
        TWO_PLANES,
        1,
        "C80 A00x5 Ia5 C11 R0 C80 A00x2 A05 A00 A00!a",
        &[],
    ),
    (TWO_PLANES, 1, "C80 A00x5 Ia5 C11 R0 C60 A04 A00 A00!a", &[]),
    (
        TWO_PLANES,
        1,
        "C80 A00x5 Ia5 C11 R0 C00 A00x2 A08 A00 A00!a",
        &[],
    ),
    (TWO_PLANES, 1, "C60 A00x3 Cd1 R0 C60 A0c A00 A00!a", &[]),
];

const SHOWN: &[Row] = &[
    (
        ONE_LUN,
        1,
        "C00 A00x5 C30 C70 O80 R0 C70 Oe0 C00 Offx528 O00!e",
        &[],
    ),
    // A status behind outputs loses the column, and a change of column gives one.
    (
        ONE_LUN,
        1,
        "C00 A03 A00 A05 A00x2 C30 R0 Off C70 Oe0 C00 O00!d",
        &[],
    ),
    (
        ONE_LUN,
        1,
        "C00 A00x5 C30 R0 C00 Offx4 C70 Oe0 C00 O00!d",
        &[],
    ),
    (
        ONE_LUN,
        1,
        "C00 A00x5 C30 R0 C00 Offx4 C70 Oe0 C00 C05 A04 A00 Ce0 Offx4",
        &[],
    ),
    (ONE_LUN, 1, "C90 A21!7 A20 O4f O4e O46 O49 O00!e", &[]),
    (
        ONE_LUN,
        1,
        "Cec A01!7 A00 O00!d C70 O80 R0 C70 Oe0 C00 O4f O4e O46 O49",
        &[],
    ),
];

const REFUSED: &[Row] = &[
    (ONE_LUN, 1, "C60 A00x3 Cd0 C60!9", &[]),
    (TWO_LUNS, 2, "C60 A00x3 Cd0 C60 A00x2 A00!9", &[]),
    (
        ONE_LUN,
        1,
        "C60 A04 A00x2 Cd0 C60!9 C15!2 C00!9 C80!9 C90!9 Cec!9 C05!5 @1 C60!1 @0 Cd0!6 A00!7 I00!b O00!c R1!1 \
         Y0!1",
        &[],
    ),
    (
        ONE_LUN,
        1,
        "O00!c I00!b C60 C60!3 Cff!3 O00!c A20 A00 A00!8",
        &[],
    ),
    (ONE_LUN, 1, "C78!2 Cd1!2 C11!2 C31!2 C3f!2", &[]),
    (TWO_LUNS, 2, "C70!4 C90!4 Cec!4 Cff!4", &[]),
    (
        TWO_LUNS,
        2,
        "C78 A00x3 C00 A00x2 A20 A00x2 C30 R1 O00!c",
        &[],
    ),
    (ONE_LUN, 2, "C60 @1 C60 C60!3 @0 C60!3", &[]),
    (
        TWO_LUNS,
        4,
        "@1 C60 A04 A00x2 Cd0 @0 R0!1 F1!1 @1 F1!1 R2!1 @2 R0!1 @1 Y0!1 R0 R0!1",
        &[],
    ),
];

const IN_TURN: &[Row] = &[
    // Rows: one bit of the LUN, three of the block, two of the page.
    (
        TWO_LUNS,
        2,
        "C60 A28 A00x2 Cd0 C70!4 C78 A28 A00x2 O80 C78 A04 A00x2 Oe0 C60 A04 A00x2 Cd0 F1 C78 A20 A00x2 Oe1 \
         C78 A00x3 O80 R0 C78 A00x3 Oe0 C78 A20 A00x2 Oe1",
        &[],
    ),
    (
        TWO_LUNS,
        2,
        "C60 A00x3 Cd0 C78 A00x3 O80 R0 C60 A20 A00x2 Cd0 C78 A20 A00x2 O80 R1 C78 A00x3 Oe0 C78 A20 A00x2 \
         Oe0",
        &[],
    ),
    (
        ONE_LUN,
        2,
        "C60 @1 C60 @0 A04 A00x2 Cd0 @1 A08 A00x2 Cd0 C70 O80 @0 C70 O80 R0 Oe0 @1 O80 F0 Oe1 @0 Oe0",
        &[],
    ),
];

const CACHE_READS: &[Row] = &[
    (
        CACHED,
        1,
        "C80 A00x5 Ia5 C10 R0 C80 A00x2 A01 A00x2 I3c C10 R0 C00 A00x5 C30 R0 C31 C70 O80 R0 C70 Oc0 C00 Oa5 \
         Off Y0 C70 Oe0 C00 O00!d C3f C70 O80 R0 C70 Oe0 C00 O3c Off",
        &[(0, 0, &[0xa5]), (0, 1, &[0x3c])],
    ),
    (
        CACHED,
        1,
        "C80 A00x5 Ia5 C10 R0 C80 A00x2 A01 A00x2 I3c C10 R0 C80 A00x2 A02 A00x2 I7e C10 R0 C00 A00x5 C30 R0 \
         C31 R0 Oa5 C31 R0 O3c Y0 C3f R0 O7e Y0!1",
        &[(0, 0, &[0xa5]), (0, 1, &[0x3c]), (0, 2, &[0x7e])],
    ),
    // It stays in its block, and comes behind a read alone.
    (
        CACHED,
        1,
        "C00 A00x5 C30 R0 C31 R0 C31 R0 C31 R0 C31!f C3f R0 Off",
        &[],
    ),
    (
        CACHED,
        1,
        "C31!f C3f!f C00 A00x5 C30 C31!f R0 C3f!f Off",
        &[],
    ),
    (
        CACHED,
        1,
        "C00 A00x5 C30 R0 C31 R0 C90!f Cec!f C00 A00x4 A00!f",
        &[],
    ),
    (
        CACHED,
        1,
        "C00 A00x5 C30 R0 C31 O00!d F0 C70 Oc0 Y0 Y0!1 C70 Oe0",
        &[],
    ),
];

const RESETS: &[Row] = &[
    (
        ONE_LUN,
        1,
        "C80 A00x5 Ia5 C10 R0 C00 A00x5 C30 Cff O00!c R0 R0!1 O00!c C70 Oe0 C00 O00!d",
        &[(0, 0, &[0xa5])],
    ),
    (
        ONE_LUN,
        1,
        "C80 A00x5 Ia5 I3c C10 Cff C70 O80 R0 R0!1 C70 Oe0",
        &[],
    ),
    (ONE_LUN, 1, "C80 A00x5 Ia5 C10 Cff F0 C70 Oe0", &[]),
    (
        ONE_LUN,
        1,
        "C80 A00x5 Ia5 C10 R0 C60 A00x3 Cd0 Cff R0 C70 Oe0",
        &[(0, 0, &[0xa5])],
    ),
    (
        TWO_PLANES,
        1,
        "C80 A00x5 Ia5 C11 R0 Cff R0 C80 A00x2 A04 A00x2 I3c C10 R0 C70 Oe0",
        &[(0, 4, &[0x3c])],
    ),
    (
        TWO_PLANES,
        1,
        "C80 A00x5 Ia5 C11 Cff R0 C80 A00x2 A04 A00x2 I3c C10 R0",
        &[(0, 4, &[0x3c])],
    ),
    (
        TWO_PLANES,
        1,
        "C80 A00x5 Ia5 C10 R0 C60 A00x3 Cd1 R0 Cff R0 C60 A04 A00x2 Cd0 R0",
        &[(0, 0, &[0xa5])],
    ),
    (
        CACHED,
        1,
        "C80 A00x5 Ia5 C10 R0 C00 A00x5 C30 R0 C31 R0 Cff Y0!1 R0 Y0!1 C70 Oe0 C31!f C3f!f",
        &[(0, 0, &[0xa5])],
    ),
];

// Each kind of work, abandoned by a reset: a read, a program, an erase, a queued program while it is worked and behind it, a queued
// erase, and a cache read.

#[test]
fn dies_that_are_no_channel(rt: HostRuntime) -> Result<(), Fail> {
    let two = geometry(TWO_LUNS)?;
    for count in [0, 1, 3, 5, 7, 9, 10] {
        let given = dies(rt.alloc(), TWO_LUNS, count)?;
        let told = Bus::new(rt.alloc(), two, given).err();
        assert!(rt;
            told.is_some_and(|refused| refused.fault == BusFault::DiesMissing
                && refused.dies.len() == usize::from(count))
        );
    }
    for (parts, count) in [(ONE_LUN, 0), (ONE_LUN, 5)] {
        let given = dies(rt.alloc(), parts, count)?;
        let told = Bus::new(rt.alloc(), geometry(parts)?, given).err();
        assert!(rt; told.is_some_and(|refused| refused.fault == BusFault::DiesMissing));
    }
    let mut mixed = dies(rt.alloc(), TWO_LUNS, 1)?;
    mixed.push(LunDie::new(rt.alloc(), geometry(ONE_LUN)?)?)?;
    let told = Bus::new(rt.alloc(), two, mixed).err();
    assert!(rt;
        told.is_some_and(|refused| refused.fault == BusFault::DieUnfit && refused.dies.len() == 2)
    );
    // Both faults: the first is told.
    let other = dies(rt.alloc(), ONE_LUN, 3)?;
    let told = Bus::new(rt.alloc(), two, other).err();
    assert!(rt; told.is_some_and(|refused| refused.fault == BusFault::DiesMissing));
    let mut worked = channel(rt.alloc(), ONE_LUN, 1)?;
    let steps = steps_of(rt.alloc(), "C60 A04 A00x2 Cd0")?;
    play(&rt, &mut worked, steps.as_slice(), "an erase")?;
    let told = Bus::new(rt.alloc(), geometry(ONE_LUN)?, worked.into_dies()).err();
    assert!(rt; told.is_some_and(|refused| refused.fault == BusFault::DieUnfit));
    Ok(())
}

// A LUN to which nothing has happened.
const RESTING: LunState = LunState {
    busy: false,
    latch: Latch::Off,
    register: Register::Empty,
    column: None,
    queued: 0,
    caching: false,
    programming: false,
    array_busy: false,
};

const PAGE_0: Register = Register::Page(PageAddress { block: 0, page: 0 });

// The running state of LUN 0: while it erases and then, after a read of a whole page, after a status behind a part of one, with a
// row in its queue, and while its array goes on with a cache read.
const STATES: [(Parts, &str, LunState); 7] = [
    (ONE_LUN, "", RESTING),
    (
        ONE_LUN,
        "C60 A04 A00x2 Cd0",
        LunState {
            busy: true,
            ..RESTING
        },
    ),
    (
        ONE_LUN,
        "C60 A04 A00x2 Cd0 C70 O80 R0 C70 Oe0",
        LunState {
            latch: Latch::Status,
            ..RESTING
        },
    ),
    (
        ONE_LUN,
        "C00 A00x5 C30 C70 O80 R0 C70 Oe0 C00 Offx528",
        LunState {
            latch: Latch::Data,
            register: PAGE_0,
            column: Some(528),
            ..RESTING
        },
    ),
    (
        ONE_LUN,
        "C00 A00x5 C30 C70 O80 R0 C70 Oe0 C00 Offx4 C70 Oe0",
        LunState {
            latch: Latch::Status,
            register: PAGE_0,
            ..RESTING
        },
    ),
    (
        TWO_PLANES,
        "C60 A00x3 Cd1 R0",
        LunState {
            queued: 1,
            ..RESTING
        },
    ),
    (
        CACHED,
        "C00 A00x5 C30 R0 C31 R0",
        LunState {
            latch: Latch::Data,
            register: PAGE_0,
            column: Some(0),
            caching: true,
            array_busy: true,
            ..RESTING
        },
    ),
];

#[test]
fn running_states(rt: HostRuntime) -> Result<(), Fail> {
    for (parts, text, wanted) in &STATES {
        let mut bus = channel(rt.alloc(), *parts, 1)?;
        let steps = steps_of(rt.alloc(), text)?;
        play(&rt, &mut bus, steps.as_slice(), text)?;
        assert!(rt; bus.lun_state(ZERO) == Some(*wanted), "{text}");
    }
    Ok(())
}

// These bytes are taken from target 0, one after another.
fn gives(bus: &mut Bus, bytes: &[u8]) -> bool {
    for byte in bytes {
        if bus.take(0) != Ok(*byte) {
            return false;
        }
    }
    true
}

// Behind EC stand three copies of the page, and nothing behind them.
#[test]
fn the_parameter_page_is_read_whole(rt: HostRuntime) -> Result<(), Fail> {
    let mut bus = channel(rt.alloc(), ONE_LUN, 1)?;
    let steps = steps_of(rt.alloc(), "Cec A00 R0")?;
    play(&rt, &mut bus, steps.as_slice(), "a parameter page")?;
    let page = geometry(ONE_LUN)?.page();
    for _ in 0..3 {
        assert!(rt; gives(&mut bus, &page));
    }
    assert_eq!(rt;
        bus.take(0),
        Err(BusRefusal::Forbidden(Forbidden::ColumnOutside))
    );
    Ok(())
}

#[test]
fn what_a_bus_tells(rt: HostRuntime) -> Result<(), Fail> {
    let mut bus = channel(rt.alloc(), TWO_LUNS, 4)?;
    assert!(rt; bus.is_fresh());
    let steps = steps_of(rt.alloc(), "C60 A20 A00x2 Cd0 F1")?;
    play(&rt, &mut bus, steps.as_slice(), "a failed erase")?;
    assert!(rt; !bus.is_fresh() && bus.lun_state(Lun { ce: 2, lun: 0 }).is_none());
    assert_eq!(rt; (bus.targets(), bus.geometry()), (2, geometry(TWO_LUNS)?));
    assert_eq!(rt; bus.state().targets(), 2);
    let failed = bus
        .into_dies()
        .iter()
        .map(|die| die.failures().last)
        .collect::<Vec<bool>>(rt.alloc())?;
    assert_eq!(rt; failed.as_slice(), [false, true, false, false].as_slice());
    Ok(())
}

// ---- out of memory

pub(crate) const HEAP: usize = 16_384;

// The greatest block that a heap has left, to 16 bytes.
fn largest(heap: &LocalHeap) -> usize {
    for k in 0..HEAP / 16 {
        let size = HEAP - 16 * k;
        let block: Result<Vec<u8, &LocalHeap>, AllocError> = Vec::with_capacity(heap, size);
        if block.is_ok() {
            return size;
        }
    }
    0
}

// Takes all of a heap but so many bytes.
pub(crate) fn take_but<'a>(
    heap: &'a LocalHeap,
    left: usize,
) -> Result<Vec<u8, &'a LocalHeap>, Fail> {
    Ok(Vec::with_capacity(heap, largest(heap).saturating_sub(left))?)
}

// What is done under want of memory: programs of two pages, an erase, a program of the first page again, and a read of it; then a
// two-plane program.
const WORKS: [Row; 2] = [
    (
        ONE_LUN,
        1,
        "C80 A00x5 Ia5 C10 R0 C80 A00x2 A05 A00x2 I3c C10 R0 C60 A08 A00x2 Cd0 R0 \
         C80 A00x5 I0f C10 R0 C00 A00x5 C30 R0 O05 C70 Oe0",
        &[(0, 0, &[0x05]), (0, 5, &[0x3c])],
    ),
    (
        TWO_PLANES,
        1,
        "C80 A00x5 Ia5 C11 R0 C80 A00x2 A04 A00x2 I3c C10 R0 C70 Oe0",
        &[(0, 0, &[0xa5]), (0, 4, &[0x3c])],
    ),
];

// A step that was refused for want of memory has changed nothing, and comes once there is memory. What is forbidden is told first.
fn is_made_good<'a>(
    bus: &mut Bus<&'a LocalHeap>,
    taken: &mut Option<Vec<u8, &'a LocalHeap>>,
    before: Seen,
    items: &[Item],
    step: Step,
) -> bool {
    let unknown = Step {
        item: Item::Cyc(Cycle {
            ce: 0,
            kind: Kind::Cmd,
            byte: 0x15,
        }),
        rule: Some(Forbidden::CommandUnknown),
    };
    let same = bus.trace() == items && seen_of(bus) == before && comes(bus, unknown);
    *taken = None;
    same && comes(bus, step)
}

// Does a step that may be refused for want of memory. Whether it was.
fn is_refused<'a>(
    alloc: Global,
    bus: &mut Bus<&'a LocalHeap>,
    taken: &mut Option<Vec<u8, &'a LocalHeap>>,
    step: Step,
) -> Result<bool, Fail> {
    let items = bus.trace().to_vec(alloc)?;
    let before = seen_of(bus);
    match answer(bus, step.item) {
        Told::Came(item) if item == step.item => Ok(false),
        Told::Refused(BusRefusal::OutOfMemory) => {
            if is_made_good(bus, taken, before, items.as_slice(), step) {
                Ok(true)
            } else {
                Err("all is as it was, and the step comes then".into())
            }
        }
        _ => Err("the step comes".into()),
    }
}

// Does all steps where so many bytes of the heap are left. The place of the last that was refused, if one was.
fn all_done_with<'a>(
    alloc: Global,
    heap: &'a LocalHeap,
    bus: &mut Bus<&'a LocalHeap>,
    steps: &[Step],
    left: usize,
) -> Result<Option<usize>, Fail> {
    let mut taken = Some(take_but(heap, left)?);
    let mut refused = None;
    for (place, step) in steps.iter().enumerate() {
        if is_refused(alloc, bus, &mut taken, *step)? {
            refused = Some(place);
        }
    }
    Ok(refused)
}

// The same on a new bus, whose trace and die are then as if nothing had been refused.
fn refused_at(
    alloc: Global,
    row: &Row,
    steps: &[Step],
    left: usize,
) -> Result<Option<usize>, Fail> {
    let (parts, count, _, held) = *row;
    let heap = LocalHeap::new(alloc, HEAP)?;
    let mut bus = channel(&heap, parts, count)?;
    let refused = all_done_with(alloc, &heap, &mut bus, steps, left)?;
    let whole = has_come(bus.trace(), steps);
    let dies = bus.into_dies();
    if whole && dies_hold(alloc, dies.as_slice(), held)? {
        Ok(refused)
    } else {
        Err("the trace and the pages are those of all steps".into())
    }
}

// What the die holds after these steps, with enough memory.
fn image_after(alloc: Global, parts: Parts, steps: &[Step]) -> Result<Vec<u8>, Fail> {
    let mut bus = channel(alloc, parts, 1)?;
    for step in steps {
        if !comes(&mut bus, *step) {
            return Err("the step comes".into());
        }
    }
    let dies = bus.into_dies();
    let die = dies.first().ok_or("there is a die")?;
    Ok(die.image()?)
}

// Does steps where so many bytes of a heap are left, up to the first that is refused, if one is.
fn done_until_refused<'a>(
    heap: &'a LocalHeap,
    bus: &mut Bus<&'a LocalHeap>,
    steps: &[Step],
    left: usize,
) -> Result<Option<usize>, Fail> {
    let _taken = take_but(heap, left)?;
    for (place, step) in steps.iter().enumerate() {
        if answer(bus, step.item) == Told::Refused(BusRefusal::OutOfMemory) {
            return Ok(Some(place));
        }
    }
    Ok(None)
}

// Where a step is refused, the die holds what the steps before it have left.
fn holds_what_came(alloc: Global, parts: Parts, steps: &[Step], left: usize) -> Result<bool, Fail> {
    let heap = LocalHeap::new(alloc, HEAP)?;
    let mut bus = channel(&heap, parts, 1)?;
    let place = done_until_refused(&heap, &mut bus, steps, left)?;
    let came = steps
        .get(..place.unwrap_or(steps.len()))
        .ok_or("the step is one of them")?;
    let dies = bus.into_dies();
    let die = dies.first().ok_or("there is a die")?;
    Ok(die.image()?.as_slice() == image_after(alloc, parts, came)?.as_slice())
}

// With rising memory each cycle that needs some is refused: those for which the trace grows, the first among them, and those that
// begin a program.
fn is_refused_in_turn(alloc: Global, row: &Row) -> Result<bool, Fail> {
    let steps = steps_of(alloc, row.2)?;
    let mut refused = Vec::new(alloc);
    let mut sufficed = false;
    for left in (0..240usize).map(|place| place.saturating_mul(16)) {
        match refused_at(alloc, row, steps.as_slice(), left)? {
            None => sufficed = true,
            Some(place) => refused.push(place)?,
        }
        if !holds_what_came(alloc, row.0, steps.as_slice(), left)? {
            return Ok(false);
        }
    }
    Ok(sufficed && [0, 7, 16].iter().all(|place| refused.contains(place)))
}

#[test]
fn refused_memory(rt: HostRuntime) -> Result<(), Fail> {
    for row in &WORKS {
        assert!(rt; is_refused_in_turn(rt.alloc(), row)?, "{}", row.2);
    }
    Ok(())
}

#[test]
fn kept_places(rt: HostRuntime) -> Result<(), Fail> {
    let heap = LocalHeap::new(rt.alloc(), 4_096)?;
    let mut bus = channel(&heap, ONE_LUN, 1)?;
    assert!(rt; bus.reserve(usize::MAX).is_err());
    assert!(rt; bus.reserve(10_000).is_err());
    bus.reserve(9)?;
    let taken = heap.used();
    let steps = steps_of(rt.alloc(), "C70 Oe0 C70 Oe0 C70 Oe0 C70 Oe0 C60")?;
    play(&rt, &mut bus, steps.as_slice(), "four polls and an opener")?;
    assert_eq!(rt; heap.used(), taken);
    assert_eq!(rt; bus.trace().len(), 9);
    Ok(())
}

// What the seven tables above say: pages are programmed and erased, planes work together, registers are shown, what is forbidden changes nothing, luns and targets in turn, cache reads, resets abandon.
const TABLES: [&[Row]; 7] = [
    PROGRAMS_AND_ERASES,
    TOGETHER,
    SHOWN,
    REFUSED,
    IN_TURN,
    CACHE_READS,
    RESETS,
];

#[test]
fn each_table_comes_so(rt: HostRuntime) -> Result<(), Fail> {
    for rows in TABLES {
        play_rows(&rt, rt.alloc(), rows)?;
    }
    Ok(())
}
