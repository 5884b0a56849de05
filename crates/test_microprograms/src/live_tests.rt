use crate::channel::{Program, core_of, job_of, told, turn};
use crate::programs::{made, made_with_ways, next};
use nand_geometry::{Geometry, Parts, SMALL_CHIP};
use onfi_cycle::{BusState, Cycle, Item, Kind, Lun, Status};
use seq_core::{Core, Stepped};
use seq_live::{Begun, Live, OutOfTurn, Pins, step_on};
use std::alloc::Global;
use std::process::Abort;
use std::test::Fail;
use target_bus::Bus;

// One LUN of 8 blocks of 4 pages of 512 + 16 bytes, in one plane.
const ONE_LUN: Parts = SMALL_CHIP;

// One LUN, one that reads a cache, two of them in two planes, and four.
const CHANNELS: [Parts; 4] = [
    ONE_LUN,
    Parts {
        plane_bits: 1,
        multi_plane: true,
        cache: true,
        ..ONE_LUN
    },
    Parts {
        luns: 2,
        plane_bits: 1,
        enhanced: true,
        multi_plane: true,
        cache: true,
        ..ONE_LUN
    },
    Parts {
        luns: 4,
        plane_bits: 1,
        enhanced: true,
        multi_plane: true,
        ..ONE_LUN
    },
];

// The pages of each die: of row 0 all 11h, of row 5 all 22h.
const PAGES: [(u8, u8); 2] = [(0, 0x11), (5, 0x22)];

// Modelled dies behind the pins, and how many cycles their rules were against.
#[derive(Drop)]
pub(crate) struct Dies {
    pub bus: Bus,
    pub refused: usize,
}

impl Dies {
    fn put(&mut self, ce: u8, kind: Kind, byte: u8) {
        let is_put = match kind {
            Kind::Cmd | Kind::Adr | Kind::Din => self.bus.put(Cycle { ce, kind, byte }).is_ok(),
            Kind::Dout => false,
        };
        if !is_put {
            self.refused = self.refused.saturating_add(1);
        }
    }
}

impl Pins for Dies {
    fn give(&mut self, ce: u8, kind: Kind, bytes: &[u8]) {
        for byte in bytes {
            self.put(ce, kind, *byte);
        }
    }

    fn take(&mut self, ce: u8, bytes: &mut [u8]) {
        if self.bus.take_all(ce, bytes).is_err() {
            self.refused = self.refused.saturating_add(1);
        }
    }
}

// Chips that answer whatever a generator gives: data, statuses with any bits, readies at any poll. What the sequencer does to them is judged by the rules, with the
// readies that their statuses show.
#[derive(Drop)]
struct WildChips {
    state: BusState,
    step: Vec<Item>,
    is_poll: bool,
    answer: u8,
    seed: u32,
    wrong: usize,
}

impl WildChips {
    fn new(alloc: Global, geometry: Geometry, seed: u32) -> WildChips {
        WildChips {
            state: BusState::new(geometry, 1),
            step: Vec::new(alloc),
            is_poll: false,
            answer: 0,
            seed,
            wrong: 0,
        }
    }

    // Notes a cycle of the step that goes on.
    fn note(&mut self, ce: u8, kind: Kind, byte: u8) {
        if self.step.push(Item::Cyc(Cycle { ce, kind, byte })).is_err() {
            self.wrong = self.wrong.saturating_add(1);
        }
    }

    // Goes on by an item where it is permitted; whether it is.
    fn go_on(&mut self, item: Item) -> bool {
        let is_permitted = self.state.judge(item).is_none();
        if is_permitted {
            self.state.apply(item);
        }
        is_permitted
    }

    // The step of a LUN is over: the readies that its status shows, and then its cycles, none of which may break a rule.
    fn settle(&mut self, lun: Lun) {
        if self.is_poll && self.answer & 0x40 != 0 {
            let fail = Status(self.answer).failures();
            self.go_on(Item::Rdy {
                ce: lun.ce,
                lun: lun.lun,
                fail,
            });
            if self.answer & 0x20 != 0 {
                self.go_on(Item::Ard {
                    ce: lun.ce,
                    lun: lun.lun,
                    fail: false,
                });
            }
        }
        for place in 0..self.step.len() {
            let Some(item) = self.step.as_slice().get(place).copied() else {
                return;
            };
            if !self.go_on(item) {
                self.wrong = self.wrong.saturating_add(1);
            }
        }
        self.step.clear();
        self.is_poll = false;
    }
}

impl Pins for WildChips {
    fn give(&mut self, ce: u8, kind: Kind, bytes: &[u8]) {
        for byte in bytes {
            if matches!(kind, Kind::Cmd) && (*byte == 0x70 || *byte == 0x78) {
                self.is_poll = true;
            }
            self.note(ce, kind, *byte);
        }
    }

    fn take(&mut self, ce: u8, bytes: &mut [u8]) {
        for byte in bytes {
            let given = (next(&mut self.seed) % 256) as u8;
            *byte = given;
            self.answer = given;
            self.note(ce, Kind::Dout, given);
        }
    }
}

// A program of the generator as a job of a LUN, until one is accepted.
fn make_words(
    alloc: Global,
    seed: &mut u32,
    with_ways: bool,
) -> Result<Vec<micro_word::Word>, Fail> {
    if with_ways {
        Ok(made_with_ways(alloc, seed)?)
    } else {
        Ok(made(alloc, seed)?)
    }
}

// The same words as a job for a sequencer on dies and one on pins, loaded onto a LUN of both.
fn load_both(
    alloc: Global,
    core: &mut Core,
    live: &mut Live,
    seed: &mut u32,
    parts: Parts,
    lun: Lun,
) -> Result<(), Fail> {
    for number in 0..1000u32 {
        let words = make_words(alloc, seed, number % 2 == 0)?;
        let program = Program {
            rows: 4,
            buffer: 8,
            budget: 90,
            words: words.as_slice(),
            given: &[0x5a, 0xc3, 0x0f],
        };
        let Some(job) = job_of(alloc, parts, lun, 0, program)? else {
            continue;
        };
        let same = job_of(alloc, parts, lun, 0, program)?.ok_or("the text is refused")?;
        if core.load(lun, job).is_err() || live.load(lun, same).is_err() {
            return Err(Fail::from("a load is refused"));
        }
        return Ok(());
    }
    Err(Fail::from("no program is accepted"))
}

// A step on pins, whose LUN becomes ready after a poll that says busy, with its array.
fn live_turn(live: &mut Live, dies: &mut Dies, lun: Lun) -> Result<Stepped, Fail> {
    let mut taken = [0u8; 8];
    let stepped = step_on(live, dies, lun, taken.as_mut_slice())?;
    if stepped == Stepped::NotReady {
        dies.bus.ready(lun, told(false));
        dies.bus.array_ready(lun, false);
    }
    Ok(stepped)
}

// Steps each LUN in turn on both until all have ended; whether each step was answered alike.
fn run_both(core: &mut Core, live: &mut Live, dies: &mut Dies, luns: u8) -> Result<bool, Fail> {
    for _ in 0..4096 {
        let mut ended = true;
        for lun in 0..luns {
            let lun = Lun { ce: 0, lun };
            let stepped = turn(core, lun, false)?;
            if live_turn(live, dies, lun)? != stepped {
                return Ok(false);
            }
            ended &= stepped == Stepped::Ended;
        }
        if ended {
            return Ok(true);
        }
    }
    Err(Fail::from("a program does not end"))
}

// What each program has left is the same: its code and its buffer.
fn left_alike(core: &mut Core, live: &mut Live, luns: u8) -> bool {
    for lun in 0..luns {
        let lun = Lun { ce: 0, lun };
        let (Ok(one), Ok(other)) = (core.unload(lun), live.unload(lun)) else {
            return false;
        };
        if one.code != other.code || one.job.buffer() != other.job.buffer() {
            return false;
        }
    }
    true
}

// Programs on dies and on pins with the same dies behind them.
fn are_alike(alloc: Global, seed: &mut u32, parts: Parts) -> Result<bool, Fail> {
    let geometry = Geometry::of(parts)?;
    let mut core = core_of(alloc, parts, &PAGES)?;
    let mut live = Live::new(geometry, 1).ok_or("there are too many targets")?;
    let mut dies = Dies {
        bus: core_of(alloc, parts, &PAGES)?.into_bus(),
        refused: 0,
    };
    for lun in 0..parts.luns {
        load_both(alloc, &mut core, &mut live, seed, parts, Lun { ce: 0, lun })?;
    }
    let answered = run_both(&mut core, &mut live, &mut dies, parts.luns)?;
    let traced = core.trace() == dies.bus.trace();
    Ok(answered && traced && dies.refused == 0 && left_alike(&mut core, &mut live, parts.luns))
}

#[test]
fn pins_with_dies_behind_them(rt: HostRuntime) -> Result<(), Fail> {
    let mut seed = 20_261_126;
    for _ in 0..150 {
        for parts in CHANNELS {
            assert!(&rt; are_alike(rt.alloc(), &mut seed, parts)?);
        }
    }
    Ok(())
}

// Loads a program onto a LUN.
fn load_wild(
    alloc: Global,
    live: &mut Live,
    seed: &mut u32,
    parts: Parts,
    lun: Lun,
) -> Result<(), Fail> {
    for number in 0..1000u32 {
        let words = make_words(alloc, seed, number % 2 == 0)?;
        let program = Program {
            rows: 4,
            buffer: 8,
            budget: 90,
            words: words.as_slice(),
            given: &[0x5a, 0xc3, 0x0f],
        };
        if let Some(job) = job_of(alloc, parts, lun, 0, program)? {
            return match live.load(lun, job) {
                Ok(()) => Ok(()),
                Err(_) => Err(Fail::from("a load is refused")),
            };
        }
    }
    Err(Fail::from("no program is accepted"))
}

// Steps LUNs in a random order; whether all programs have ended.
fn step_wild(
    live: &mut Live,
    chips: &mut WildChips,
    seed: &mut u32,
    luns: u8,
) -> Result<bool, Fail> {
    let mut taken = [0u8; 8];
    for _ in 0..64 {
        let lun = Lun {
            ce: 0,
            lun: (next(seed) % u32::from(luns.max(1))) as u8,
        };
        step_on(live, chips, lun, taken.as_mut_slice())?;
        chips.settle(lun);
    }
    for lun in 0..luns {
        let lun = Lun { ce: 0, lun };
        let stepped = step_on(live, chips, lun, taken.as_mut_slice())?;
        chips.settle(lun);
        if stepped != Stepped::Ended {
            return Ok(false);
        }
    }
    Ok(true)
}

// Programs on chips that answer whatever they do: none of their cycles breaks a rule.
fn is_lawful(alloc: Global, seed: &mut u32, parts: Parts) -> Result<bool, Fail> {
    let geometry = Geometry::of(parts)?;
    let mut live = Live::new(geometry, 1).ok_or("there are too many targets")?;
    let mut chips = WildChips::new(alloc, geometry, next(seed));
    for lun in 0..parts.luns {
        load_wild(alloc, &mut live, seed, parts, Lun { ce: 0, lun })?;
    }
    for _ in 0..256 {
        if step_wild(&mut live, &mut chips, seed, parts.luns)? {
            return Ok(chips.wrong == 0);
        }
    }
    Err(Fail::from("a program does not end"))
}

#[test]
fn chips_that_answer_anything(rt: HostRuntime) -> Result<(), Fail> {
    let mut seed = 20_261_127;
    for _ in 0..250 {
        for parts in CHANNELS {
            assert!(&rt; is_lawful(rt.alloc(), &mut seed, parts)?);
        }
    }
    Ok(())
}

// The erase of block 0, whose poll says ready at once.
const ERASE: [micro_word::Word; 5] = [
    micro_word::Word::Command { byte: 0x60 },
    micro_word::Word::Address { from: 2, count: 3 },
    micro_word::Word::Command { byte: 0xd0 },
    micro_word::Word::Wait,
    micro_word::Word::End { code: 0 },
];

const ZERO: Lun = Lun { ce: 0, lun: 0 };

// Does up to so many bursts.
fn do_bursts(live: &mut Live, most: usize) -> Result<(), OutOfTurn> {
    for _ in 0..most {
        if live.next().is_none() {
            return Ok(());
        }
        live.gave()?;
    }
    Ok(())
}

const ONE: Lun = Lun { ce: 0, lun: 1 };

const WITH_TWO_LUNS: Parts = Parts {
    luns: 2,
    enhanced: true,
    ..ONE_LUN
};

// A call, and what it must answer.
#[derive(Clone, Copy, Debug)]
enum Call {
    // No burst is left.
    NoNext,
    Begin(Lun, Result<Begun, OutOfTurn>),
    Gave(Result<(), OutOfTurn>),
    Finish(&'static [u8], Result<Stepped, OutOfTurn>),
    // So many bursts are done at most.
    Bursts(usize),
}

// The calls on two loaded LUNs, in and out of turn.
const CALLS: &[Call] = &[
    Call::Finish(&[], Err(OutOfTurn::NoStep)),
    Call::Gave(Err(OutOfTurn::NoStep)),
    Call::NoNext,
    Call::Begin(ZERO, Ok(Begun::Going)),
    Call::Begin(ONE, Err(OutOfTurn::StepGoesOn)),
    Call::Finish(&[], Err(OutOfTurn::BurstsLeft)),
    Call::Gave(Ok(())),
    Call::Gave(Err(OutOfTurn::NoBurst)),
    Call::Finish(&[0], Err(OutOfTurn::WrongCount)),
    Call::Finish(&[], Ok(Stepped::Went)),
    // LUN 0 has the bus within its sequence.
    Call::Begin(ONE, Ok(Begun::Answered(Stepped::Held))),
    Call::Begin(ZERO, Ok(Begun::Going)),
    Call::Bursts(3),
    Call::Finish(&[], Ok(Stepped::Went)),
    Call::Begin(ZERO, Ok(Begun::Going)),
    Call::Bursts(3),
    Call::Finish(&[], Ok(Stepped::Went)),
    // Its poll is by 78h: a command, three addresses and an output.
    Call::Begin(ZERO, Ok(Begun::Going)),
    Call::Bursts(2),
    Call::Finish(&[0xe0], Err(OutOfTurn::BurstsLeft)),
    Call::Bursts(1),
    Call::Finish(&[], Err(OutOfTurn::WrongCount)),
    Call::Finish(&[0x80], Ok(Stepped::NotReady)),
    Call::Begin(ONE, Ok(Begun::Going)),
];

// Makes a call. Whether it answers what it must.
fn answers(live: &mut Live, call: Call) -> Result<bool, OutOfTurn> {
    match call {
        Call::NoNext => Ok(live.next().is_none()),
        Call::Begin(lun, answer) => Ok(live.begin(lun) == answer),
        Call::Gave(answer) => Ok(live.gave() == answer),
        Call::Finish(taken, answer) => Ok(live.finish(taken) == answer),
        Call::Bursts(most) => {
            do_bursts(live, most)?;
            Ok(true)
        }
    }
}

// Loads the erase onto a LUN. Whether it was taken.
fn load_erase(alloc: Global, live: &mut Live, lun: Lun) -> Result<bool, Fail> {
    let program = Program {
        rows: 1,
        buffer: 0,
        budget: 5,
        words: &ERASE,
        given: &[],
    };
    let job = job_of(alloc, WITH_TWO_LUNS, lun, 0, program)?.ok_or("the text is refused")?;
    Ok(live.load(lun, job).is_ok())
}

#[test]
fn calls_out_of_turn(rt: HostRuntime) -> Result<(), Fail> {
    let geometry = Geometry::of(WITH_TWO_LUNS)?;
    let mut live: Live = Live::new(geometry, 1).ok_or("there are too many targets")?;
    for lun in [ZERO, ONE] {
        assert!(&rt; load_erase(rt.alloc(), &mut live, lun)?);
    }
    for (place, call) in CALLS.iter().enumerate() {
        assert!(&rt; answers(&mut live, *call)?, "call {place}: {call:?}");
    }
    Ok(())
}
