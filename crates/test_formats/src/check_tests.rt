use nand_geometry::{Geometry, Parts, SMALL_CHIP};
use onfi_cycle::{Cycle, Forbidden, Item, Kind};
use std::alloc::Global;
use std::process::Abort;
use std::test::Fail;
use trace_text::{CheckProgress, CheckRefusal, check, check_watched, first_broken, parse};

// One LUN of 8 blocks of 4 pages of 512 + 16 bytes, in one plane.
const ONE_LUN: Parts = SMALL_CHIP;

// The erase of a block, asked for its status until it is ready.
const ERASE: &str =
    "0 C 60\n0 A 00\n0 A 00\n0 A 00\n0 C d0\n0 C 70\n0 O 80\n0 R 0 0\n0 C 70\n0 O e0\n";

// No target is there to be named. The program takes 1 to 4.
#[test]
fn no_targets(rt: HostRuntime) -> Result<(), Fail> {
    let erase = parse(rt.alloc(), ERASE)?;
    let told = check(&Geometry::of(ONE_LUN)?, 0, &erase).err();
    assert_eq!(rt; told, Some(CheckRefusal::At(0, Forbidden::NotThere)));
    Ok(())
}

const MESSAGES: &[(CheckRefusal, &str)] = &[
    (
        CheckRefusal::At(5, Forbidden::LunBusy),
        "F9 at item 5: the LUN is busy",
    ),
    (CheckRefusal::OutOfMemory, "out of memory"),
];

#[test]
fn refusals_are_told(rt: HostRuntime) -> Result<(), Fail> {
    for (refusal, message) in MESSAGES {
        assert_eq!(rt; format!(in rt.alloc(); "{refusal}")?.as_str(), *message);
    }
    Ok(())
}

// Keeps what it is told.
#[derive(Drop)]
struct Kept {
    told: Vec<usize>,
}

impl CheckProgress for Kept {
    fn checked(&mut self, items: usize) {
        let _ = self.told.push(items);
    }
}

// How far a check of the items tells that it has come, each time that it passes so many; None where it finds a fault.
fn told_every(alloc: Global, items: &[Item], every: usize) -> Result<Option<Vec<usize>>, Fail> {
    let geometry = Geometry::of(ONE_LUN)?;
    let mut kept = Kept {
        told: Vec::new(alloc),
    };
    match first_broken(&geometry, 1, items, &mut kept, every.max(1)) {
        None => Ok(Some(kept.told)),
        Some(_) => Ok(None),
    }
}

// How often, and what is told of the ten items of an erase.
const PROGRESS: &[(usize, &[usize])] = &[(4, &[4, 8]), (5, &[5]), (10, &[])];

#[test]
fn how_far_it_has_come_is_told(rt: HostRuntime) -> Result<(), Fail> {
    let erase = parse(rt.alloc(), ERASE)?;
    for (every, told) in PROGRESS {
        let found = told_every(rt.alloc(), &erase, *every)?.ok_or("a legal trace")?;
        assert_eq!(rt; found.as_slice(), *told);
    }
    Ok(())
}

#[test]
fn nothing_is_told_of_few_items(rt: HostRuntime) -> Result<(), Fail> {
    let geometry = Geometry::of(ONE_LUN)?;
    let erase = parse(rt.alloc(), ERASE)?;
    let mut kept = Kept {
        told: Vec::new(rt.alloc()),
    };
    // Nothing is told of fewer than a million.
    let is_legal = check_watched(&geometry, 1, &erase, &mut kept).is_ok();
    assert!(rt; is_legal && kept.told.is_empty());
    Ok(())
}

// A page of 528 bytes read up to its outputs, and a program up to its inputs.
const READ: &str = "0 C 00\n0 A 00\n0 A 00\n0 A 00\n0 A 00\n0 A 00\n0 C 30\n0 R 0 0\n0 C 00\n";

const PROGRAM: &str = "0 C 80\n0 A 00\n0 A 00\n0 A 00\n0 A 00\n0 A 00\n";

// The items of a text, and so many cycles of this kind after them.
fn with_data(alloc: Global, text: &str, kind: Kind, count: usize) -> Result<Vec<Item>, Fail> {
    let mut items = parse(alloc, text)?;
    for _ in 0..count {
        items.push(Item::Cyc(Cycle {
            ce: 0,
            kind,
            byte: 0xff,
        }))?;
    }
    Ok(items)
}

// A check of these items tells this, however often it tells how far it has come: each time that it passes so many items.
fn tells(
    rt: &impl Abort,
    alloc: Global,
    items: &[Item],
    wanted: Option<(usize, Forbidden)>,
) -> Result<(), Fail> {
    let geometry = Geometry::of(ONE_LUN)?;
    let last = match wanted {
        Some((place, _)) => place,
        None => items.len().saturating_sub(1),
    };
    for every in [1usize, 7, 100, 1_000_000] {
        let mut kept = Kept {
            told: Vec::new(alloc),
        };
        let found = first_broken(&geometry, 1, items, &mut kept, every);
        assert_eq!(rt; (found, kept.told.len()), (wanted, last / every));
    }
    Ok(())
}

// The cycles in front, the kind of so many cycles of data behind them, and the first fault.
type Run = (&'static str, Kind, usize, Option<(usize, Forbidden)>);

// The first item behind a page.
const BEHIND_READ: Option<(usize, Forbidden)> = Some((9 + 528, Forbidden::ColumnOutside));

const BEHIND_PROGRAM: Option<(usize, Forbidden)> = Some((6 + 528, Forbidden::ColumnOutside));

const RUNS: &[Run] = &[
    (READ, Kind::Dout, 0, None),
    (READ, Kind::Dout, 1, None),
    (READ, Kind::Dout, 2, None),
    (READ, Kind::Dout, 527, None),
    (READ, Kind::Dout, 528, None),
    (READ, Kind::Dout, 529, BEHIND_READ),
    (READ, Kind::Dout, 530, BEHIND_READ),
    (READ, Kind::Dout, 1_056, BEHIND_READ),
    (READ, Kind::Dout, 2_000, BEHIND_READ),
    (PROGRAM, Kind::Din, 0, None),
    (PROGRAM, Kind::Din, 1, None),
    (PROGRAM, Kind::Din, 2, None),
    (PROGRAM, Kind::Din, 527, None),
    (PROGRAM, Kind::Din, 528, None),
    (PROGRAM, Kind::Din, 529, BEHIND_PROGRAM),
    (PROGRAM, Kind::Din, 530, BEHIND_PROGRAM),
    (PROGRAM, Kind::Din, 1_056, BEHIND_PROGRAM),
    (PROGRAM, Kind::Din, 2_000, BEHIND_PROGRAM),
    // Data that comes where none may.
    (
        "0 C 60\n",
        Kind::Din,
        9,
        Some((1, Forbidden::InputMisplaced)),
    ),
    (
        "0 C 60\n",
        Kind::Dout,
        9,
        Some((1, Forbidden::NoSoleDriver)),
    ),
];

#[test]
fn runs_of_data_are_checked(rt: HostRuntime) -> Result<(), Fail> {
    for (text, kind, count, wanted) in RUNS {
        let items = with_data(rt.alloc(), text, *kind, *count)?;
        tells(&rt, rt.alloc(), items.as_slice(), *wanted)?;
    }
    Ok(())
}
