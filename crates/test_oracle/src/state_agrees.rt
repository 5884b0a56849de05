//! The running state beside the look-back twin, item by item, on made traces of the commands that the bus takes.
use crate::worked::{ONE_LUN, TWO_LUNS, trace};
use nand_geometry::Geometry;
use onfi_cycle::{BusState, Item, Lun, LunState, WorkQueue};
use oracle_onfi::past::{is_caching, lun_facts};
use oracle_onfi::trace::broken;
use std::alloc::Global;
use std::process::Abort;
use std::test::Fail;

const TARGETS: u8 = 2;

// What the made traces are of: erases, polls and readies, whole or in parts. 20 names LUN 1 of two, 40 a LUN that isn't
// there.
const PARTS: [&str; 16] = [
    "C60 A00x3 Cd0",
    "C60 A04 A00x2 Cd0",
    "C60 A20 A00x2 Cd0",
    "C60 A24 A00x2 Cd0",
    "C60 A00x3 Cd0 R0",
    "C60 A20 A00x2 Cd0 R1",
    "C70 Oe0x2",
    "C78 A00x3 Oe0",
    "C78 A20 A00x2 Oe0x2",
    "C78 A40 A00x2 Oe0",
    "C60 A00",
    "R0",
    "F1",
    "Oe0 C00 Y0",
    "Cd0 A00",
    "Ia5 Cff C60",
];

// The next number of a fixed generator.
fn next(seed: &mut u32) -> u32 {
    let mut x = *seed;
    x ^= x << 13;
    x ^= x >> 17;
    x ^= x << 5;
    *seed = x;
    x
}

// The same item on another target.
fn on_target(item: Item, ce: u8) -> Item {
    match item {
        Item::Cyc(mut cycle) => {
            cycle.ce = ce;
            Item::Cyc(cycle)
        }
        Item::Rdy { lun, fail, .. } => Item::Rdy { ce, lun, fail },
        Item::Ard { lun, fail, .. } => Item::Ard { ce, lun, fail },
    }
}

// The items of some parts, each on a target: mostly on the first, at times on the second, seldom on one that isn't there.
fn made(alloc: Global, seed: &mut u32) -> Result<Vec<Item>, Fail> {
    let mut items = Vec::new(alloc);
    for _ in 0..2 {
        let part = PARTS[(next(seed) % 16) as usize];
        let ce = match next(seed) % 16 {
            0..12 => 0,
            12..15 => 1,
            _ => 2,
        };
        for item in trace(alloc, part)? {
            items.push(on_target(item, ce))?;
        }
    }
    Ok(items)
}

/// What is told of a LUN is what the look-back tells of it.
pub(crate) fn lun_agrees(
    alloc: Global,
    geometry: &Geometry,
    past: &[Item],
    lun: Lun,
    told: LunState,
) -> Result<bool, Fail> {
    let caching = is_caching(alloc, geometry, past, lun)?;
    let facts = lun_facts(alloc, geometry, past, lun)?;
    Ok(
        told.busy == facts.busy
            && told.latch == facts.latch
            && told.register == facts.register
            && told.column.map(u64::from) == facts.column.output_column()
            && told.queued == facts.queue.works().len()
            && told.caching == caching
            && told.array_busy == facts.array_busy,
    )
}

// The state of each LUN is what the look-back tells of it.
pub(crate) fn luns_agree(
    rt: &impl Abort,
    alloc: Global,
    geometry: &Geometry,
    past: &[Item],
    state: &BusState,
) -> Result<(), Fail> {
    for ce in 0..TARGETS {
        for lun in 0..geometry.parts().luns {
            let lun = Lun { ce, lun };
            let told = state.lun_state(lun).ok_or("a LUN is missing")?;
            assert!(rt;
                lun_agrees(alloc, geometry, past, lun, told)?,
                "{lun:?} {told:?}"
            );
        }
    }
    Ok(())
}

/// Two thousand traces of two parts: each item is judged by both, and those that are permitted go on with the trace.
#[test]
fn state_agrees(rt: HostRuntime) -> Result<(), Fail> {
    let mut seed = 0x2545_f491;
    let mut permitted: u32 = 0;
    let mut told = [0u32; 18];
    for number in 0..2_000 {
        let geometry = Geometry::of(if number % 4 == 0 { ONE_LUN } else { TWO_LUNS })?;
        let mut state = BusState::new(geometry, TARGETS);
        let mut items: Vec<Item> = Vec::new(rt.alloc());
        for item in made(rt.alloc(), &mut seed)? {
            let rule = broken(rt.alloc(), &geometry, TARGETS, &items, item)?;
            assert_eq!(rt; state.judge(item), rule, "{items:?} {item:?}");
            match rule {
                Some(rule) => told[rule as usize] = told[rule as usize].saturating_add(1),
                None => {
                    state.apply(item);
                    items.push(item)?;
                    permitted = permitted.saturating_add(1);
                }
            }
        }
        items.reverse();
        if number % 20 == 19 {
            luns_agree(&rt, rt.alloc(), &geometry, &items, &state)?;
        }
    }
    assert!(rt; permitted > 9_000, "{permitted} permitted, {told:?}");
    Ok(())
}
