use crate::channel::{Program, core_of, job_of, told};
use crate::programs::{made, made_with_ways, next};
use nand_geometry::{Geometry, Parts, SMALL_CHIP};
use onfi_cycle::Lun;
use seq_core::{Core, Stepped};
use std::alloc::Global;
use std::process::Abort;
use std::test::Fail;
use trace_text::check;

// One LUN of 8 blocks of 4 pages of 512 + 16 bytes, in one plane.
const ONE_LUN: Parts = SMALL_CHIP;

// The channels: one LUN, with and without planes and the cache read; two, three and four of them.
const CHANNELS: [Parts; 6] = [
    ONE_LUN,
    Parts {
        plane_bits: 1,
        multi_plane: true,
        cache: true,
        ..ONE_LUN
    },
    Parts {
        luns: 2,
        enhanced: true,
        cache: true,
        ..ONE_LUN
    },
    Parts {
        luns: 2,
        plane_bits: 1,
        enhanced: true,
        multi_plane: true,
        ..ONE_LUN
    },
    Parts {
        luns: 3,
        plane_bits: 2,
        enhanced: true,
        multi_plane: true,
        cache: true,
        ..ONE_LUN
    },
    Parts {
        luns: 4,
        plane_bits: 1,
        enhanced: true,
        multi_plane: true,
        cache: true,
        ..ONE_LUN
    },
];

// Which programs are made: straight ones, or most with branches and loops.
#[derive(Clone, Copy)]
enum Sort {
    Straight,
    WithWays,
}

// How many texts were made, how many of them were accepted, and how many cycles were put onto the bus.
#[derive(Clone, Copy)]
struct Counts {
    made: usize,
    accepted: usize,
    items: usize,
}

// Loads a program of the generator onto a LUN, if it is accepted.
fn load_made(
    core: &mut Core,
    alloc: Global,
    seed: &mut u32,
    parts: Parts,
    lun: Lun,
    sort: Sort,
) -> Result<bool, Fail> {
    let words = match sort {
        Sort::Straight => made(alloc, seed)?,
        Sort::WithWays => made_with_ways(alloc, seed)?,
    };
    let program = Program {
        rows: 4,
        buffer: 8,
        budget: 90,
        words: words.as_slice(),
        given: &[0x5a, 0xc3, 0x0f],
    };
    let base = next(seed) % 2 * 4;
    match job_of(alloc, parts, lun, base, program)? {
        None => Ok(false),
        Some(job) => match core.load(lun, job) {
            Ok(()) => Ok(true),
            Err(_) => Err(Fail::from("the load is refused")),
        },
    }
}

// Makes programs for a LUN until one is accepted.
fn fill(
    core: &mut Core,
    alloc: Global,
    seed: &mut u32,
    parts: Parts,
    lun: Lun,
    sort: Sort,
    counts: &mut Counts,
) -> Result<(), Fail> {
    for _ in 0..1000 {
        counts.made = counts.made.saturating_add(1);
        if load_made(core, alloc, seed, parts, lun, sort)? {
            counts.accepted = counts.accepted.saturating_add(1);
            return Ok(());
        }
    }
    Err(Fail::from("no program is accepted"))
}

// Whether the program of each LUN has ended.
fn have_ended(core: &mut Core, luns: u8) -> Result<bool, Fail> {
    for lun in 0..luns {
        if core.step(Lun { ce: 0, lun })? != Stepped::Ended {
            return Ok(false);
        }
    }
    Ok(true)
}

// Steps LUNs in a random order until all programs have ended; at times a ready comes, or one with failure, or none.
fn run_at_random(core: &mut Core, seed: &mut u32, luns: u8) -> Result<(), Fail> {
    for _ in 0..1024 {
        for _ in 0..16 {
            let lun = Lun {
                ce: 0,
                lun: (next(seed) % u32::from(luns.max(1))) as u8,
            };
            match next(seed) % 4 {
                0 => {
                    core.ready(lun, told(next(seed) % 4 == 0));
                }
                1 => {
                    core.array_ready(lun, false);
                }
                _ => {
                    core.step(lun)?;
                }
            }
        }
        if have_ended(core, luns)? {
            return Ok(());
        }
    }
    Err(Fail::from("a program does not end"))
}

// Fills each LUN of a channel with a program, runs them, and checks the trace.
fn try_channel(
    alloc: Global,
    seed: &mut u32,
    parts: Parts,
    sort: Sort,
    counts: &mut Counts,
) -> Result<bool, Fail> {
    let mut core = core_of(alloc, parts, &[(0, 0x11), (5, 0x22)])?;
    for lun in 0..parts.luns {
        fill(
            &mut core,
            alloc,
            seed,
            parts,
            Lun { ce: 0, lun },
            sort,
            counts,
        )?;
    }
    run_at_random(&mut core, seed, parts.luns)?;
    counts.items = counts.items.saturating_add(core.trace().len());
    Ok(check(&Geometry::of(parts)?, 1, core.trace()).is_ok())
}

// Channels in turn until 20,000 texts have been made. Whether each trace was legal.
fn try_all(alloc: Global, sort: Sort, counts: &mut Counts) -> Result<bool, Fail> {
    let mut seed = 20_261_123;
    for _ in 0..20_000 {
        for parts in CHANNELS {
            if !try_channel(alloc, &mut seed, parts, sort, counts)? {
                return Ok(false);
            }
        }
        if counts.made >= 20_000 {
            return Ok(true);
        }
    }
    Err(Fail::from("too few texts were made"))
}

// Makes 20,000 texts: at least one in twenty is accepted, and what is accepted runs among others with a legal trace.
fn expect_legal(rt: &(impl Abort + AllocGlobal), sort: Sort) -> Result<(), Fail> {
    let mut counts = Counts {
        made: 0,
        accepted: 0,
        items: 0,
    };
    assert!(rt; try_all(rt.alloc(), sort, &mut counts)?);
    assert!(rt; counts.made >= 20_000);
    assert!(rt; counts.accepted >= 1000, "{} accepted", counts.accepted);
    assert!(rt; counts.items >= 10_000, "{} items", counts.items);
    Ok(())
}

#[test]
fn random_programs(rt: HostRuntime) -> Result<(), Fail> {
    expect_legal(&rt, Sort::Straight)
}

#[test]
fn random_branches_and_loops(rt: HostRuntime) -> Result<(), Fail> {
    expect_legal(&rt, Sort::WithWays)
}
