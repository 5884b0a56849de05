//! Runs of data cycles: judged and applied at once, beside the look-back at each of them.
use crate::state_agrees::luns_agree;
use crate::worked::{CACHED, ONE_LUN, TWO_LUNS, trace};
use nand_geometry::{Geometry, Parts};
use onfi_cycle::{BusState, Cycle, Forbidden, Item, Kind};
use oracle_onfi::trace::broken;
use std::alloc::Global;
use std::process::Abort;
use std::test::Fail;

const TARGETS: u8 = 2;

// What stands before outputs: nothing, an open command, a status, and registers with four bytes left or with as many as they have.
const OUTPUT_PASTS: [(Parts, &str); 13] = [
    (ONE_LUN, ""),
    (ONE_LUN, "C60"),
    (ONE_LUN, "C60 A00x3 Cd0 C70"),
    (ONE_LUN, "C90 A20"),
    (ONE_LUN, "C90 A20 O4f"),
    (ONE_LUN, "C00 A0c A02 A00x3 C30"),
    (ONE_LUN, "C00 A0c A02 A00x3 C30 R0"),
    (ONE_LUN, "C00 A0c A02 A00x3 C30 R0 C00"),
    (ONE_LUN, "C00 A0c A02 A00x3 C30 R0 C00 Offx2 C70 Oe0 C00"),
    (ONE_LUN, "Cec A00 R0 C05 Afc A02 Ce0"),
    (TWO_LUNS, "C60 A00x3 Cd0 C78 A00x3"),
    (TWO_LUNS, "C00 A0c A02 A00x3 C30 R0 C78 A00x3 Oe0 C00"),
    (CACHED, "C00 A0c A02 A00x3 C30 R0 C31 R0"),
];

// What stands before inputs: nothing, an erase, addresses that aren't whole, and programs with four bytes left, three, or as many as a
// page has.
const INPUT_PASTS: [(Parts, &str); 8] = [
    (ONE_LUN, ""),
    (ONE_LUN, "C60 A00x3"),
    (ONE_LUN, "C80 A0c A02 A00x2"),
    (ONE_LUN, "C80 A0c A02 A00x3"),
    (ONE_LUN, "C80 A0c A02 A00x3 Ia5"),
    (ONE_LUN, "C80 A00x5 C85 A0c A02"),
    (ONE_LUN, "C80 A00x5"),
    (TWO_LUNS, "C80 A0c A02 A00x3 C11 R0 C80 A0c A02 A04 A00x2"),
];

// A cycle that may come next.
fn next_cycle(ce: u8, kind: Kind, byte: u8) -> Item {
    Item::Cyc(Cycle { ce, kind, byte })
}

// Goes on by so many cycles of a kind, each of which the look-back permits; else the rule of the first that it doesn't.
fn look_back(
    alloc: Global,
    geometry: &Geometry,
    items: &mut Vec<Item>,
    (ce, kind): (u8, Kind),
    count: usize,
) -> Result<Option<Forbidden>, Fail> {
    for _ in 0..count {
        let item = next_cycle(ce, kind, 0x3c);
        if let Some(rule) = broken(alloc, geometry, TARGETS, items, item)? {
            return Ok(Some(rule));
        }
        items.push(item)?;
    }
    Ok(None)
}

// The state after these items, each of which is permitted.
fn state_after(geometry: Geometry, items: &[Item]) -> Result<BusState, Fail> {
    let mut state = BusState::new(geometry, TARGETS);
    for item in items {
        match state.judge(*item) {
            Some(_) => return Err(Fail::from("an item isn't permitted")),
            None => state.apply(*item),
        }
    }
    Ok(state)
}

// Judges a run by its length, and goes on by it where it is permitted. The rule that is told of it.
fn go_on(state: &mut BusState, (ce, kind): (u8, Kind), count: usize) -> Option<Forbidden> {
    if kind == Kind::Din {
        let told = state.judge_inputs(ce, count);
        if told.is_none() {
            state.apply_inputs(ce, count);
        }
        return told;
    }
    let told = state.judge_outputs(ce, count);
    if told.is_none() {
        state.apply_outputs(ce, count);
    }
    told
}

// What may come after a run is judged alike: one cycle of the run more, and what closes a program.
fn judged_alike(
    alloc: Global,
    geometry: &Geometry,
    items: &Vec<Item>,
    state: &BusState,
    (ce, kind): (u8, Kind),
) -> Result<bool, Fail> {
    for next in &[next_cycle(ce, kind, 0x3c), next_cycle(ce, Kind::Cmd, 0x10)] {
        if state.judge(*next) != broken(alloc, geometry, TARGETS, items, *next)? {
            return Ok(false);
        }
    }
    Ok(true)
}

// A run of this length after a past: both judge it alike, and where it is permitted the state after it is what the look-back tells.
// Whether it is.
fn run_agrees(
    rt: &impl Abort,
    alloc: Global,
    past: &(Parts, &str),
    run: (u8, Kind),
    count: usize,
) -> Result<bool, Fail> {
    let geometry = Geometry::of(past.0)?;
    let mut items = trace(alloc, past.1)?;
    let mut state = state_after(geometry, &items)?;
    let rule = look_back(alloc, &geometry, &mut items, run, count)?;
    let told = go_on(&mut state, run, count);
    assert_eq!(rt; told, rule, "{count} of {run:?} after {}", past.1);
    if told.is_some() {
        return Ok(false);
    }
    assert!(rt;
        judged_alike(alloc, &geometry, &items, &state, run)?,
        "after {count} of {run:?} after {}",
        past.1
    );
    items.reverse();
    luns_agree(rt, alloc, &geometry, &items, &state)?;
    Ok(true)
}

// How many runs are permitted after a past: of every length from none to past the end of its register, on both targets and on one that
// isn't there.
fn count_permitted(
    rt: &impl Abort,
    alloc: Global,
    past: &(Parts, &str),
    kind: Kind,
) -> Result<u32, Fail> {
    let mut permitted: u32 = 0;
    for place in 0..21u8 {
        let (ce, count) = (place / 7, usize::from(place % 7));
        if run_agrees(rt, alloc, past, (ce, kind), count)? {
            permitted = permitted.saturating_add(1);
        }
    }
    Ok(permitted)
}

#[test]
fn runs_of_outputs_agree(rt: HostRuntime) -> Result<(), Fail> {
    let mut permitted: u32 = 0;
    for past in &OUTPUT_PASTS {
        let more = count_permitted(&rt, rt.alloc(), past, Kind::Dout)?;
        permitted = permitted.saturating_add(more);
    }
    // Each of the 39 permits the empty run; both statuses permit all, and six of the registers four outputs or fewer.
    assert!(rt; permitted > 60, "{permitted} permitted");
    Ok(())
}

#[test]
fn runs_of_inputs_agree(rt: HostRuntime) -> Result<(), Fail> {
    let mut permitted: u32 = 0;
    for past in &INPUT_PASTS {
        let more = count_permitted(&rt, rt.alloc(), past, Kind::Din)?;
        permitted = permitted.saturating_add(more);
    }
    // Each of the 24 permits the empty run; of the others three permit four inputs or fewer, one three, and one all six.
    assert_eq!(rt; permitted, 24 + 3 * 4 + 3 + 6);
    Ok(())
}
