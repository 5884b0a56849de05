use crate::channel::{core_of, run, run_failing};
use micro_verify::{PlainOp, plain};
use nand_geometry::{Geometry, Parts, SMALL_CHIP};
use onfi_cycle::Lun;
use seq_core::{Core, Job, UnloadedJob};
use std::alloc::Global;
use std::test::Fail;

// One LUN of 8 blocks of 4 pages of 512 + 16 bytes, in one plane.
const ONE_LUN: Parts = SMALL_CHIP;

const LUN_0: Lun = Lun { ce: 0, lun: 0 };

// Two bytes are programmed, and then read again.
const PROGRAM_THEN_READ: [PlainOp; 2] = [
    PlainOp::Program {
        row: 0,
        plane: 0,
        column: 0,
        place: 0,
        len: 2,
    },
    PlainOp::Read {
        row: 0,
        plane: 0,
        column: 0,
        place: 2,
        len: 2,
    },
];

fn load(core: &mut Core, alloc: Global, given: &[u8]) -> Result<(), Fail> {
    let geometry = Geometry::of(ONE_LUN)?;
    let verified = plain(alloc, &PROGRAM_THEN_READ, geometry)?;
    let buffer = Vec::from_slice(alloc, given)?;
    let Ok(job) = Job::new(geometry, 1, LUN_0, 0, verified, buffer) else {
        return Err(Fail::from("the job is refused"));
    };
    match core.load(LUN_0, job) {
        Ok(()) => Ok(()),
        Err(_) => Err(Fail::from("the load is refused")),
    }
}

fn unload(core: &mut Core) -> Result<UnloadedJob, Fail> {
    match core.unload(LUN_0) {
        Ok(done) => Ok(done),
        Err(_) => Err(Fail::from("the unload is refused")),
    }
}

fn image_of(core: Core) -> Result<Vec<u8>, Fail> {
    match core.into_bus().into_dies().first() {
        Some(die) => Ok(die.image()?),
        None => Err(Fail::from("there is no die")),
    }
}

// The code of the job that has ended, and what its buffer has.
fn end_of(core: &mut Core) -> Result<(u8, [u8; 4]), Fail> {
    let done = unload(core)?;
    match done.job.buffer() {
        [first, second, third, fourth] => Ok((done.code, [*first, *second, *third, *fourth])),
        _ => Err(Fail::from("the buffer has another length")),
    }
}

// Loads the job with a buffer of these bytes and runs it.
fn runs_with(core: &mut Core, alloc: Global, given: [u8; 4]) -> Result<(u8, [u8; 4]), Fail> {
    load(core, alloc, &given)?;
    run(core, 1)?;
    end_of(core)
}

// The buffer of a job, and what is left in it.
const BUFFERS: &[([u8; 4], [u8; 4])] = &[
    ([0xa5, 0x3c, 0, 0], [0xa5, 0x3c, 0xa5, 0x3c]),
    ([0x0f, 0x0f, 0, 0], [0x0f, 0x0f, 0x05, 0x0c]),
];

// Twice on one page: the second time the bits that are 0 already stay so.
#[test]
fn programs_and_reads(rt: HostRuntime) -> Result<(), Fail> {
    let mut core = core_of(rt.alloc(), ONE_LUN, &[])?;
    for (given, left) in BUFFERS {
        let end = runs_with(&mut core, rt.alloc(), *given)?;
        assert_eq!(rt; end, (0, *left));
    }
    assert_eq!(rt; image_of(core)?.len(), 556);
    Ok(())
}

// Where the program of the page fails, the text ends with code 1 and reads nothing.
#[test]
fn a_program_that_fails(rt: HostRuntime) -> Result<(), Fail> {
    let mut core = core_of(rt.alloc(), ONE_LUN, &[])?;
    load(&mut core, rt.alloc(), &[0xa5, 0x3c, 0, 0])?;
    run_failing(&mut core, 0)?;
    let end = end_of(&mut core)?;
    assert_eq!(rt; end, (1, [0xa5, 0x3c, 0, 0]));
    assert_eq!(rt; image_of(core)?.len(), 24);
    Ok(())
}
