//! How fast a sequencer on pins is, beside one on a modelled die.
//!
//! One program reads a whole page so many times in a loop, each time with two polls on the modelled die, and one on pins whose chip is always ready. What came
//! of it goes to standard output; how long it took, to standard error.

use anyhow::{anyhow, bail};
use die_model::LunDie;
use micro_verify::verify;
use micro_word::{Text, Word};
use nand_geometry::{Geometry, Optional, Parts};
use onfi_cycle::{Failures, Kind, Lun};
use seq_core::{Core, Job, Stepped};
use seq_live::{Live, Pins, step_on};
use std::alloc::Global;
use std::mem::size_of;
use std::time::Instant;
use target_bus::Bus;

// One LUN of 64 blocks of 64 pages.
const ONE_LUN: Parts = Parts {
    page_bytes: 4096,
    spare_bytes: 256,
    pages: 64,
    blocks: 64,
    luns: 1,
    plane_bits: 0,
    enhanced: false,
    multi_plane: false,
    cache: false,
    optional: Optional::NONE,
};

const PAGE_LEN: usize = 4352;

const LUN: Lun = Lun { ce: 0, lun: 0 };

// Steps of one turn of the loop, at most.
const MOST_STEPS: u32 = 16;

// A chip that is always ready, and how many cycles there were.
#[derive(Drop)]
struct Ready {
    cycles: u64,
}

impl Pins for Ready {
    fn give(&mut self, _ce: u8, _kind: Kind, bytes: &[u8]) {
        self.cycles = self.cycles.saturating_add(bytes.len() as u64);
    }

    fn take(&mut self, _ce: u8, bytes: &mut [u8]) {
        bytes.fill(0xe0);
        self.cycles = self.cycles.saturating_add(bytes.len() as u64);
    }
}

// A page that is read so many times.
fn make_words(alloc: Global, turns: u16) -> anyhow::Result<Vec<Word>> {
    let words = [
        Word::Loop { turns },
        Word::Seek { place: 0 },
        Word::Command { byte: 0x00 },
        Word::Address { from: 0, count: 5 },
        Word::Command { byte: 0x30 },
        Word::Wait,
        Word::Command { byte: 0x00 },
        Word::Get { len: 4352 },
        Word::Next,
        Word::End { code: 0 },
    ];
    Ok(words.as_slice().to_vec(alloc)?)
}

// The job that does it.
fn make_job(alloc: Global, turns: u16) -> anyhow::Result<Job> {
    let geometry = Geometry::of(ONE_LUN)?;
    let budget = u32::from(turns).saturating_mul(4400);
    let Ok(text) = Text::of(1, 4352, budget, make_words(alloc, turns)?) else {
        bail!("the words are no text");
    };
    let Ok(verified) = verify(text, geometry) else {
        bail!("the text is refused");
    };
    let buffer = vec![in alloc; 0u8; PAGE_LEN]?;
    match Job::new(geometry, 1, LUN, 0, verified, buffer) {
        Ok(job) => Ok(job),
        Err(_) => bail!("the job is refused"),
    }
}

// Steps a program on pins to its end; whether it ended.
fn run_on_pins(live: &mut Live, pins: &mut Ready, turns: u16) -> anyhow::Result<bool> {
    let mut taken = [0u8; PAGE_LEN];
    for _ in 0..u32::from(turns)
        .saturating_add(1)
        .saturating_mul(MOST_STEPS)
    {
        match step_on(live, pins, LUN, taken.as_mut_slice()) {
            Ok(Stepped::Ended) => return Ok(true),
            Ok(_) => {}
            Err(_) => bail!("a step is refused"),
        }
    }
    Ok(false)
}

// The same on a modelled die, whose LUN becomes ready after a poll that says busy.
fn run_on_die(core: &mut Core, turns: u16) -> anyhow::Result<bool> {
    for _ in 0..u32::from(turns)
        .saturating_add(1)
        .saturating_mul(MOST_STEPS)
    {
        match core.step(LUN)? {
            Stepped::Ended => return Ok(true),
            Stepped::NotReady => {
                core.ready(LUN, Failures::default());
            }
            Stepped::Went | Stepped::Held | Stepped::HandedOver | Stepped::Empty => {}
        }
    }
    Ok(false)
}

fn one_die(alloc: Global) -> anyhow::Result<Core> {
    let geometry = Geometry::of(ONE_LUN)?;
    let mut dies = Vec::with_capacity(alloc, 1)?;
    dies.push(LunDie::new(alloc, geometry)?)?;
    match Bus::new(alloc, geometry, dies) {
        Ok(bus) => Ok(Core::new(bus)),
        Err(refused) => Err(refused.fault.into()),
    }
}

fn measure_pins(rt: &HostRuntime, turns: u16) -> anyhow::Result<()> {
    let geometry = Geometry::of(ONE_LUN)?;
    let mut live = Live::new(geometry, 1).ok_or(anyhow!("there are too many targets"))?;
    if live.load(LUN, make_job(rt.alloc(), turns)?).is_err() {
        bail!("the load is refused");
    }
    let mut pins = Ready { cycles: 0 };
    let start = Instant::now(rt)?;
    let ended = run_on_pins(&mut live, &mut pins, turns)?;
    let micros = start.elapsed(rt)?.as_micros();
    println!(rt;
        "on pins: {turns} pages, {} cycles, ended: {ended}",
        pins.cycles
    )?;
    eprintln!(rt;
        "on pins: {micros} us, a sequencer of {} bytes",
        size_of::<Live>()
    )?;
    Ok(())
}

fn measure_die(rt: &HostRuntime, turns: u16) -> anyhow::Result<()> {
    let mut core = one_die(rt.alloc())?;
    if core.load(LUN, make_job(rt.alloc(), turns)?).is_err() {
        bail!("the load is refused");
    }
    let start = Instant::now(rt)?;
    let ended = run_on_die(&mut core, turns)?;
    let micros = start.elapsed(rt)?.as_micros();
    println!(rt; "on a die: {turns} pages, ended: {ended}")?;
    eprintln!(rt; "on a die: {micros} us")?;
    Ok(())
}

/// Measures a program that reads so many pages on pins, and on a modelled die.
pub fn measure_live(rt: &HostRuntime, turns: u16, on_die: bool) -> anyhow::Result<()> {
    if on_die {
        measure_die(rt, turns)
    } else {
        measure_pins(rt, turns)
    }
}
