//! How fast a bus is, how fast a trace is checked, how fast a sequencer on pins is and one on a modelled die, and how long the verifier takes.
//!
//! `bench bus [PAGES]`, `bench trace [ITEMS]`, `bench reads [ITEMS]`, `bench text [ITEMS]`, `bench live [PAGES]`, `bench core [PAGES]` and `bench verify` measure
//! one of them, `bench` alone each of them with the numbers that stand where none is given: 10 pages, and 1000 items.
#![tactic(auto)]

mod bus;
mod live;
mod trace;
mod verify;

use crate::bus::measure_bus;
use crate::live::measure_live;
use crate::trace::{Made, measure_check, measure_text};
use crate::verify::measure_verify;
use anyhow::bail;
use std::env;

const PAGES: u32 = 10;

const ITEMS: usize = 1000;

const TURNS: u16 = 10;

// What is measured.
#[derive(Clone, Copy)]
enum Measure {
    Bus { pages: u32 },
    Check { made: Made, items: usize },
    Text { items: usize },
    Live { turns: u16, on_die: bool },
    Verify,
}

impl Measure {
    fn run(self, rt: &HostRuntime) -> anyhow::Result<()> {
        match self {
            Measure::Bus { pages } => measure_bus(rt, pages),
            Measure::Check { made, items } => measure_check(rt, made, items),
            Measure::Text { items } => measure_text(rt, items),
            Measure::Live { turns, on_die } => measure_live(rt, turns, on_die),
            Measure::Verify => measure_verify(rt),
        }
    }
}

// How many items a word asks for.
fn count_items(word: Option<&String>) -> anyhow::Result<usize> {
    match word {
        None => Ok(ITEMS),
        Some(items) => Ok(items.parse::<usize>()?),
    }
}

// How many turns of a loop a word asks for.
fn count_turns(word: Option<&String>) -> anyhow::Result<u16> {
    match word {
        None => Ok(TURNS),
        Some(turns) => Ok(turns.parse::<u16>()?),
    }
}

// What the words of the command line ask for, after the name of the program; None for all.
fn read_measure(words: &[String]) -> anyhow::Result<Option<Measure>> {
    let number = words.get(2);
    let measure = match words.get(1).map(String::as_str) {
        None => return Ok(None),
        Some("bus") => Measure::Bus {
            pages: match number {
                None => PAGES,
                Some(pages) => pages.parse::<u32>()?,
            },
        },
        Some("trace") => Measure::Check {
            made: Made::Erases,
            items: count_items(number)?,
        },
        Some("reads") => Measure::Check {
            made: Made::Reads,
            items: count_items(number)?,
        },
        Some("text") => Measure::Text {
            items: count_items(number)?,
        },
        Some("live") => Measure::Live {
            turns: count_turns(number)?,
            on_die: false,
        },
        Some("core") => Measure::Live {
            turns: count_turns(number)?,
            on_die: true,
        },
        Some("verify") => Measure::Verify,
        Some(other) => bail!(
            "{other}: there are `bus [PAGES]`, `trace [ITEMS]`, `reads [ITEMS]`, `text [ITEMS]`, `live [PAGES]`, `core [PAGES]` and `verify`"
        ),
    };
    Ok(Some(measure))
}

fn main(rt: HostRuntime) -> anyhow::Result<()> {
    let words = env::args(&rt)?.collect::<Vec<String>>(rt.alloc())?;
    match read_measure(words.as_slice())? {
        Some(measure) => measure.run(&rt),
        None => {
            measure_bus(&rt, PAGES)?;
            measure_check(&rt, Made::Erases, ITEMS)?;
            measure_check(&rt, Made::Reads, ITEMS)?;
            measure_text(&rt, ITEMS)?;
            measure_live(&rt, TURNS, false)?;
            measure_live(&rt, TURNS, true)?;
            measure_verify(&rt)
        }
    }
}
