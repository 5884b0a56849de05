//! Channels on which programs are played.

use die_model::LunDie;
use micro_verify::verify;
use micro_word::{Text, Word};
use nand_geometry::{Geometry, Parts};
use onfi_cycle::{Failures, Lun};
use seq_core::{Core, Job, Stepped};
use std::alloc::Global;
use std::test::Fail;
use target_bus::Bus;

/// A program, and the bytes of its buffer at first, all others being 00.
#[derive(Clone, Copy)]
pub(crate) struct Program<'a> {
    pub rows: u16,
    pub buffer: u32,
    pub budget: u32,
    pub words: &'a [Word],
    pub given: &'a [u8],
}

// An image whose pages are of one byte each, in rising rows.
fn image(alloc: Global, parts: Parts, pages: &[(u8, u8)]) -> Result<Vec<u8>, Fail> {
    let mut image = Vec::from_slice(alloc, b"NDI1")?;
    let count = u32::try_from(pages.len()).unwrap_or(0);
    for number in [
        parts.page_bytes,
        parts.spare_bytes,
        parts.pages,
        parts.blocks,
        count,
    ] {
        image.extend_from_slice(&number.to_le_bytes())?;
    }
    for (row, byte) in pages {
        image.extend_from_slice(&[*row, 0, 0, 0])?;
        for _ in 0..528 {
            image.push(*byte)?;
        }
    }
    Ok(image)
}

// A die that holds these pages.
fn die(alloc: Global, parts: Parts, pages: &[(u8, u8)]) -> Result<LunDie, Fail> {
    let mut die = LunDie::new(alloc, Geometry::of(parts)?)?;
    let image = image(alloc, parts, pages)?;
    match die.load_image(image.as_slice()) {
        Ok(()) => Ok(die),
        Err(_) => Err(Fail::from("the image is refused")),
    }
}

/// A sequencer on one target, each of whose dies holds these pages.
pub(crate) fn core_of(alloc: Global, parts: Parts, pages: &[(u8, u8)]) -> Result<Core, Fail> {
    let mut dies = Vec::new(alloc);
    for _ in 0..parts.luns {
        dies.push(die(alloc, parts, pages)?)?;
    }
    match Bus::new(alloc, Geometry::of(parts)?, dies) {
        Ok(bus) => Ok(Core::new(bus)),
        Err(_) => Err(Fail::from("the dies are refused")),
    }
}

// The buffer of a program at first.
fn buffer_of(alloc: Global, program: Program<'_>) -> Result<Vec<u8>, Fail> {
    let mut buffer = Vec::from_slice(alloc, program.given)?;
    buffer.resize(program.buffer as usize, 0)?;
    Ok(buffer)
}

/// The program as a job of a LUN, or None where it is refused.
pub(crate) fn job_of(
    alloc: Global,
    parts: Parts,
    lun: Lun,
    base: u32,
    program: Program<'_>,
) -> Result<Option<Job>, Fail> {
    let geometry = Geometry::of(parts)?;
    let words = program.words.to_vec(alloc)?;
    let Ok(text) = Text::of(program.rows, program.buffer, program.budget, words) else {
        return Err(Fail::from("the words are no text"));
    };
    let Ok(verified) = verify(text, geometry) else {
        return Ok(None);
    };
    let buffer = buffer_of(alloc, program)?;
    match Job::new(geometry, 1, lun, base, verified, buffer) {
        Ok(job) => Ok(Some(job)),
        Err(_) => Err(Fail::from("the job is refused")),
    }
}

/// Loads the program onto a LUN.
pub(crate) fn load(
    core: &mut Core,
    alloc: Global,
    parts: Parts,
    lun: Lun,
    base: u32,
    program: Program<'_>,
) -> Result<(), Fail> {
    let job = job_of(alloc, parts, lun, base, program)?.ok_or("the text is refused")?;
    match core.load(lun, job) {
        Ok(()) => Ok(()),
        Err(_) => Err(Fail::from("the load is refused")),
    }
}

/// What a ready tells: that the work failed, or nothing.
pub(crate) const fn told(fail: bool) -> Failures {
    Failures {
        last: fail,
        before: false,
    }
}

/// One step of a LUN, which becomes ready after a poll that says busy, with its array.
pub(crate) fn turn(core: &mut Core, lun: Lun, fail: bool) -> Result<Stepped, Fail> {
    let stepped = core.step(lun)?;
    if stepped == Stepped::NotReady {
        core.ready(lun, told(fail));
        core.array_ready(lun, false);
    }
    Ok(stepped)
}

/// Steps the first so many LUNs in turn until the program of each has ended.
pub(crate) fn run(core: &mut Core, luns: u8) -> Result<(), Fail> {
    for _ in 0..4096 {
        let mut ended = true;
        for lun in 0..luns {
            ended &= turn(core, Lun { ce: 0, lun }, false)? == Stepped::Ended;
        }
        if ended {
            return Ok(());
        }
    }
    Err(Fail::from("a program does not end"))
}

/// Runs the program of LUN 0 alone to its end; its ready of this number, from 0, says failure.
pub(crate) fn run_failing(core: &mut Core, failing: u32) -> Result<(), Fail> {
    let mut readies = 0u32;
    for _ in 0..64 {
        match turn(core, Lun { ce: 0, lun: 0 }, readies == failing)? {
            Stepped::Ended => return Ok(()),
            Stepped::NotReady => readies = readies.saturating_add(1),
            _ => {}
        }
    }
    Err(Fail::from("the program does not end"))
}
