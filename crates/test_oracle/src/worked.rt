//! What the worked traces share: geometries, a short way to write traces, and a walk that judges them.
ghost use Rattle.std.specs.Prelude.{◌<◌, IfOk};

use nand_geometry::{Geometry, Optional, Parts, SMALL_CHIP};
use onfi_cycle::{Cycle, Failures, Forbidden, Item, Kind, TargetCycle, judge, judge_known_cycle};
use oracle_onfi::past::{luns_of, tail_facts};
use std::alloc::{AllocError, Global};
use std::process::Abort;
use std::test::Fail;

/// One LUN of 8 blocks of 4 pages of 512 + 16 bytes, in one plane.
pub const ONE_LUN: Parts = SMALL_CHIP;

/// Two such LUNs, each in two planes.
pub const TWO_LUNS: Parts = Parts {
    luns: 2,
    plane_bits: 1,
    enhanced: true,
    multi_plane: true,
    ..ONE_LUN
};

/// One such LUN with the cache read.
pub const CACHED: Parts = Parts {
    cache: true,
    ..ONE_LUN
};

/// Two LUNs with the cache read.
pub const TWO_CACHED: Parts = Parts {
    cache: true,
    ..TWO_LUNS
};

/// One LUN in two planes.
pub const TWO_PLANES: Parts = Parts {
    luns: 1,
    ..TWO_LUNS
};

/// One LUN in two planes, in the wider profile with Change Read Column Enhanced.
pub const SELECTING: Parts = Parts {
    optional: Optional(0x8040),
    ..TWO_PLANES
};

/// One that reads several planes besides, and caches.
pub const READING: Parts = Parts {
    optional: Optional(0x8440),
    cache: true,
    ..TWO_PLANES
};

/// One whose blocks are free of each other in a queue.
pub const FREE_READING: Parts = Parts {
    optional: Optional(0x9440),
    ..READING
};

/// One that copies pages besides, of both kinds to the other where blocks are free.
pub const COPYING: Parts = Parts {
    optional: Optional(0x8450),
    ..READING
};

pub const FREE_COPYING: Parts = Parts {
    optional: Optional(0xb450),
    ..READING
};

/// Two LUNs in two planes, with Change Read Column Enhanced.
pub const TWO_SELECTING: Parts = Parts {
    luns: 2,
    ..SELECTING
};

/// Two LUNs of 6 blocks of 3 pages: fields of 3 and 2 bits have room for more.
pub const UNEVEN: Parts = Parts {
    pages: 3,
    blocks: 6,
    plane_bits: 0,
    ..TWO_LUNS
};

fn digit(letter: u8) -> Result<u8, Fail>
    ensures { IfOk result (λ digit. digit < 16) }
{
    match letter {
        b'0'..=b'9' => Ok(letter - b'0'),
        b'a'..=b'f' => Ok(letter - b'a' + 10),
        _ => Err(Fail::from("no hexadecimal digit")),
    }
}

fn cycle(kind: Kind, high: u8, low: u8) -> Result<Item, Fail> {
    let high = digit(high)?;
    let low = digit(low)?;
    Ok(Item::Cyc(Cycle {
        ce: 0,
        kind,
        byte: high * 16 + low,
    }))
}

fn ready(lun: u8, fail: bool) -> Result<Item, Fail> {
    let lun = digit(lun)?;
    let fail = Failures {
        last: fail,
        before: false,
    };
    Ok(Item::Rdy { ce: 0, lun, fail })
}

fn array_ready(lun: u8) -> Result<Item, Fail> {
    let lun = digit(lun)?;
    let fail = false;
    Ok(Item::Ard { ce: 0, lun, fail })
}

/// `C60` is a command, `A04` an address, `Ia5` an input, `Oe0` an output, `R0` a ready of LUN 0, `F0` one with
/// failure, and `Y0` one of its array. There are no other words.
fn item(word: &[u8]) -> Result<Item, Fail> {
    match word {
        [b'C', high, low] => cycle(Kind::Cmd, *high, *low),
        [b'A', high, low] => cycle(Kind::Adr, *high, *low),
        [b'I', high, low] => cycle(Kind::Din, *high, *low),
        [b'O', high, low] => cycle(Kind::Dout, *high, *low),
        [b'R', lun] => ready(*lun, false),
        [b'F', lun] => ready(*lun, true),
        [b'Y', lun] => array_ready(*lun),
        _ => Err(Fail::from("no item")),
    }
}

/// A word and how often it stands: `A00x5` is five times `A00`.
fn counted(word: &[u8]) -> Result<(&[u8], u8), Fail> {
    match word {
        [once @ .., b'x', times] => {
            let times = digit(*times)?;
            Ok((once, times))
        }
        _ => Ok((word, 1)),
    }
}

/// The items of a text, in the order of time.
pub fn trace(alloc: Global, text: &str) -> Result<Vec<Item>, Fail> {
    let mut items = Vec::new(alloc);
    for word in text.split_whitespace() {
        let (once, times) = counted(word.as_bytes())?;
        let item = item(once)?;
        for _ in 0..times {
            items.push(item)?;
        }
    }
    Ok(items)
}

/// The first rule that an item breaks after a past, the newest item first; of a cycle the first of F3 to F15.
fn known_broken(
    alloc: Global,
    geometry: &Geometry,
    past: &[Item],
    item: Item,
) -> Result<Option<Forbidden>, AllocError> {
    let ce = item.target();
    let t = tail_facts(past, ce);
    let luns = luns_of(alloc, geometry, past, ce)?;
    Ok(match item {
        Item::Cyc(c) => judge_known_cycle(geometry, &t, &luns, TargetCycle::of(c.kind, c.byte)),
        _ => judge(geometry, 1, &t, &luns, item),
    })
}

/// The first item of a trace that breaks a rule, whatever commands the bus takes, and its place.
pub fn first_broken(
    alloc: Global,
    geometry: &Geometry,
    items: &[Item],
) -> Result<Option<(usize, Forbidden)>, AllocError> {
    let mut past: Vec<Item> = Vec::new(alloc);
    for (i, item) in items.iter().enumerate() {
        if let Some(rule) = known_broken(alloc, geometry, &past, *item)? {
            return Ok(Some((i, rule)));
        }
        past.insert(0, *item)?;
    }
    Ok(None)
}

/// The items of a permitted trace, the newest first.
pub fn past_of(
    rt: &impl Abort,
    alloc: Global,
    geometry: &Geometry,
    text: &str,
) -> Result<Vec<Item>, Fail> {
    let mut items = trace(alloc, text)?;
    assert_eq!(rt; first_broken(alloc, geometry, &items)?, None, "{text}");
    items.reverse();
    Ok(items)
}
