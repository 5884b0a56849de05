use micro_asm::assemble;
use micro_claims::{Fault, Reason};
use micro_walk::examine;
use nand_geometry::{Geometry, SMALL_CHIP};
use onfi_cycle::{Forbidden, Item};
use refused_run::{Run, find_run};
use std::alloc::Global;
use std::process::Abort;
use std::test::Fail;
use trace_text::{CheckRefusal, check};

// An erase, and another one at once. The verifier shows its run itself, so no command shows what a search finds; `tools/cases` has the other runs that are found.
const TEXT: &str = "rows 1\nbuffer 8\nbudget 1000\ncmd 60\naddr 2 3\ncmd d0\ncmd 60\nend 0\n";

// Why it is refused.
const FAULT: Fault = Fault {
    word: 3,
    reason: Reason::CycleForbidden,
};

// How many steps a search may take.
const MOST: u64 = 100_000;

// A run ends where the program is refused, and the item behind its five breaks F9.
fn shows_the_fault(alloc: Global, geometry: &Geometry, run: &Run<Global>) -> Result<bool, Fail> {
    let mut items: Vec<Item, Global> = run.items.iter().copied().collect(alloc)?;
    if let Some(item) = run.end.item {
        items.push(item)?;
    }
    let verdict = check(geometry, 1, items.as_slice());
    Ok(
        run.end.word == FAULT.word
            && run.end.reason == FAULT.reason
            && run.choices.is_empty()
            && run.items.len() == 5
            && matches!(verdict, Err(CheckRefusal::At(5, Forbidden::LunBusy))),
    )
}

// Such a run is found.
fn is_found(alloc: Global) -> Result<bool, Fail> {
    let text = assemble(alloc, TEXT)?;
    let geometry = Geometry::of(SMALL_CHIP)?;
    if examine(&text, &geometry).err() != Some(FAULT) {
        return Ok(false);
    }
    let found = find_run(&text, &geometry, FAULT, MOST)?;
    match &found.run {
        None => Ok(false),
        Some(run) => shows_the_fault(alloc, &geometry, run),
    }
}

#[test]
fn the_run_of_a_straight_program(rt: HostRuntime) -> Result<(), Fail> {
    let is_right = is_found(rt.alloc())?;
    assert!(rt; is_right);
    Ok(())
}
