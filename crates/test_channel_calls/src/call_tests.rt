//! One worker's calls on a channel, call by call, and what each answers. A call to which memory is refused is made again, but one that is
//! refused for another reason never answers out of memory.
ghost use Rattle.std.specs.Prelude.{◌≡◌, None};

use crate::tests::TWO_ERASES;
use channel_work::{ChannelState, Finished, Gathered, Readied, Started, Turn, Turns, WorkerPass};
use lun_lease::{Lease, Loaded};
use onfi_cycle::{Cycle, Failures, Item, Kind, Lun};
use std::marker::Brand;
use std::sync::Wait;
use std::sync::ledger::Blank;
use std::test::*;
use test_channel_scenes::{
    ON_ONE, ON_ZERO, ONE, TWO_LUNS, Told, ZERO, gather, make_erasing, read_trace, tell_done,
};

// A call of a worker, on the lease that it holds where the call takes one.
#[derive(Clone, Copy)]
enum Call {
    Start,
    Turn,
    Ready { lun: Lun, fail: bool },
    ArrayReady { lun: Lun },
    Park,
    Unpark,
    Finish,
}

// What a call answers.
#[derive(Clone, Copy, PartialEq, Eq)]
enum Answer {
    // A lease of the LUN of this number is held now.
    Holds(u32),
    // No job was started.
    NoJob { took: bool },
    // No lease is parked, or none is held.
    NoLease,
    Turned(Turn),
    Became(Readied),
    Parked,
    NoRoom,
    // The job is unloaded, and its seat is back.
    Done,
    NotEnded,
    OutOfMemory,
}

type Held = Option<Lease<Loaded>>;

// Holds a lease, and tells its LUN.
fn hold(held: &mut Held, lease: Lease<Loaded>) -> Answer {
    let lun = lease.lun();
    *held = Some(lease);
    Answer::Holds(lun)
}

fn start<L: Turns, R: Wait>(rt: &R, state: &mut ChannelState<L>, held: &mut Held) -> Answer {
    match state.start(rt) {
        Started::Loaded(lease) => hold(held, lease),
        Started::Nothing { took } => Answer::NoJob { took },
        Started::OutOfMemory => Answer::OutOfMemory,
    }
}

fn turn<L: Turns>(
    state: &mut ChannelState<L>,
    pass: &mut WorkerPass<L>,
    held: &mut Held,
) -> Answer {
    let Some(mut lease) = held.take() else {
        return Answer::NoLease;
    };
    let turn = state.turn(pass, &mut lease);
    *held = Some(lease);
    match turn {
        Turn::OutOfMemory => Answer::OutOfMemory,
        other => Answer::Turned(other),
    }
}

fn tell_readied(readied: Readied) -> Answer {
    match readied {
        Readied::OutOfMemory => Answer::OutOfMemory,
        other => Answer::Became(other),
    }
}

fn park<L: Turns>(state: &mut ChannelState<L>, held: &mut Held) -> Answer {
    let Some(lease) = held.take() else {
        return Answer::NoLease;
    };
    match state.park(lease) {
        Ok(()) => Answer::Parked,
        Err(back) => {
            *held = Some(back);
            Answer::NoRoom
        }
    }
}

fn unpark<L: Turns>(state: &mut ChannelState<L>, held: &mut Held) -> Answer {
    match state.unpark() {
        Some(lease) => hold(held, lease),
        None => Answer::NoLease,
    }
}

fn finish<L: Turns>(state: &mut ChannelState<L>, held: &mut Held) -> Answer {
    let Some(lease) = held.take() else {
        return Answer::NoLease;
    };
    match state.finish(lease) {
        Finished::NotEnded(back) => {
            *held = Some(back);
            Answer::NotEnded
        }
        Finished::OutOfMemory(back) => {
            *held = Some(back);
            Answer::OutOfMemory
        }
        Finished::Done(lease) => match state.seat_back(lease.release()) {
            None => Answer::Done,
            Some(_) => Answer::NoRoom,
        },
    }
}

fn make_call<L: Turns, R: Wait>(
    rt: &R,
    state: &mut ChannelState<L>,
    pass: &mut WorkerPass<L>,
    held: &mut Held,
    call: Call,
) -> Answer {
    match call {
        Call::Start => start(rt, state, held),
        Call::Turn => turn(state, pass, held),
        Call::Ready { lun, fail } => tell_readied(state.ready(
            lun,
            Failures {
                last: fail,
                before: false,
            },
        )),
        Call::ArrayReady { lun } => tell_readied(state.array_ready(lun, false)),
        Call::Park => park(state, held),
        Call::Unpark => unpark(state, held),
        Call::Finish => finish(state, held),
    }
}

// A call and what it must answer.
type Line = (Call, Answer);

// A call that must answer so may answer out of memory first: out of memory comes last.
fn may_want_memory(answer: Answer) -> bool {
    !matches!(answer, Answer::NotEnded | Answer::Became(Readied::NotBusy))
}

// An item as a number.
fn number_of(item: Item) -> u32 {
    let [first, second, third] = match item {
        Item::Cyc(Cycle { ce, kind, byte }) => match kind {
            Kind::Cmd => [ce, 0, byte],
            Kind::Adr => [ce, 1, byte],
            Kind::Din => [ce, 2, byte],
            Kind::Dout => [ce, 3, byte],
        },
        Item::Rdy { ce, lun, fail } => [ce, 4, 2 * (lun % 4) + u8::from(fail.last)],
        Item::Ard { ce, lun, .. } => [ce, 5, lun],
    };
    u32::from_be_bytes([0, first, second, third])
}

// The first so many items of a trace as one number, for which no memory is taken.
fn sum_up(items: &[Item], count: usize) -> u64 {
    let mut sum: u64 = 0;
    for item in items.iter().take(count) {
        sum = sum
            .wrapping_mul(1_000_003)
            .wrapping_add(u64::from(number_of(*item)));
    }
    sum
}

// After a call that was out of memory the trace is the one before it, which was so long and had this sum; after a turn it begins with
// that one, as the steps that were done stand.
fn is_kept(trace: &[Item], call: Call, (count, sum): (usize, u64)) -> bool {
    match call {
        Call::Turn => trace.len() >= count && sum_up(trace, count) == sum,
        Call::Start
        | Call::Ready { .. }
        | Call::ArrayReady { .. }
        | Call::Park
        | Call::Unpark
        | Call::Finish => trace.len() == count && sum_up(trace, count) == sum,
    }
}

// How many calls answered out of memory, by what they were.
#[derive(Clone, Copy)]
struct Shortages {
    starts: u64,
    turns: u64,
    readies: u64,
    finishes: u64,
}

impl Shortages {
    fn none() -> Shortages {
        Shortages {
            starts: 0,
            turns: 0,
            readies: 0,
            finishes: 0,
        }
    }

    // One more. To park a lease and to take one out asks for no memory.
    fn count(&mut self, call: Call) {
        let counted = match call {
            Call::Start => &mut self.starts,
            Call::Turn => &mut self.turns,
            Call::Ready { .. } | Call::ArrayReady { .. } => &mut self.readies,
            Call::Finish => &mut self.finishes,
            Call::Park | Call::Unpark => return,
        };
        *counted = counted.saturating_add(1);
    }
}

// Makes the calls of a script, and tells which there were that answered out of memory, and then what they must; or the place of the
// first that didn't, that answered out of memory in place of another refusal, or after whose refusal something had changed.
fn play<L: Turns, R: Wait>(
    rt: &R,
    state: &mut ChannelState<L>,
    pass: &mut WorkerPass<L>,
    script: &[Line],
) -> Result<Shortages, usize> {
    let mut held = None;
    let mut short = Shortages::none();
    for k in 0..script.len() {
        let (call, answer) = script[k];
        let trace = state.trace();
        let before = (trace.len(), sum_up(trace, trace.len()));
        let mut told = make_call(rt, state, pass, &mut held, call);
        if told == Answer::OutOfMemory && may_want_memory(answer) {
            if !is_kept(state.trace(), call, before) {
                return Err(k);
            }
            short.count(call);
            told = make_call(rt, state, pass, &mut held, call);
        }
        if told != answer {
            return Err(k);
        }
    }
    Ok(short)
}

// Plays a script on a channel of one target, for which erases of LUN 0 and LUN 1 are stored. The parts of the channel, and which
// calls answered out of memory.
fn act<L: Turns, R: Wait + AllocGlobal>(
    rt: &R,
    blank: Blank,
    script: &[Line],
) -> Result<(Gathered, Shortages), Fail>
    requires name { blank.name ≡ L.name }
    requires parts { (blank.parts ≡ L.parts) × (L.all ≡ L.parts) × (L.parts ≡ 9) × (L.origin ≡ None) }
{
    let mut passes = Vec::new(rt.alloc());
    passes.reserve(1)?;
    let mut state = make_erasing::<L, R>(rt, blank, TWO_LUNS, 1, &[ON_ZERO, ON_ONE])?;
    let mut pass = state.worker().ok_or("a pass")?;
    match play(rt, &mut state, &mut pass, script) {
        Err(k) => Err(Fail::new(format_args!("call {k} answers something else"))),
        Ok(short) => {
            passes.push(pass)?;
            Ok((gather(state, passes)?, short))
        }
    }
}

// Calls, and what must have come of them in the end.
struct Script {
    lines: &'static [Line],
    // What stands on the bus.
    trace: &'static str,
    // The jobs that are done, in their order.
    done: [Told; 2],
    // How many turns there are, and one more for each that answered out of memory.
    turns: u64,
}

// What came of a script is what must: both jobs are done and all is given back.
fn has_ended_as(
    gathered: &Gathered,
    script: &Script,
    trace: &[Item],
    short: Shortages,
) -> Result<(), Fail> {
    let done = gathered.done.as_slice();
    let [first, second] = script.done;
    if gathered.core.trace() != trace {
        return Err(Fail::from("the trace is another one"));
    }
    if tell_done(done, 0) != Some(first) || tell_done(done, 1) != Some(second) {
        return Err(Fail::from("other jobs are done"));
    }
    if is_whole(gathered, script.turns, short) {
        Ok(())
    } else {
        Err(Fail::from("something isn't given back"))
    }
}

// Plays a script, and looks at what came of it: which calls answered out of memory.
fn play_script<L: Turns, R: Wait + AllocGlobal>(
    rt: &R,
    blank: Blank,
    script: &Script,
) -> Result<Shortages, Fail>
    requires name { blank.name ≡ L.name }
    requires parts { (blank.parts ≡ L.parts) × (L.all ≡ L.parts) × (L.parts ≡ 9) × (L.origin ≡ None) }
{
    let trace = read_trace(rt.alloc(), script.trace)?;
    let (gathered, short) = act::<L, R>(rt, blank, script.lines)?;
    has_ended_as(&gathered, script, trace.as_slice(), short)?;
    Ok(short)
}

// `tools/fail_allocs.py` looks for what is printed.
fn tell_short(rt: &HostRuntime, short: Shortages) -> Result<(), Fail> {
    let Shortages {
        starts,
        turns,
        readies,
        finishes,
    } = short;
    println!(rt;
        "out of memory: start {starts}, turn {turns}, ready {readies}, finish {finishes}"
    )?;
    Ok(())
}

const READY_ZERO: Call = Call::Ready {
    lun: ZERO,
    fail: false,
};

const READY_ONE: Call = Call::Ready {
    lun: ONE,
    fail: false,
};

const FAIL_ONE: Call = Call::Ready {
    lun: ONE,
    fail: true,
};

const ARRAY_READY_ZERO: Call = Call::ArrayReady { lun: ZERO };

const FIRST_POLL: Answer = Answer::Turned(Turn::NotReady { polls: 1, works: 0 });

const SECOND_POLL: Answer = Answer::Turned(Turn::NotReady { polls: 2, works: 0 });

const THIRD_POLL: Answer = Answer::Turned(Turn::NotReady { polls: 3, works: 0 });

const FOURTH_POLL: Answer = Answer::Turned(Turn::NotReady { polls: 4, works: 0 });

const ENDED: Answer = Answer::Turned(Turn::Ended);

const YES: Answer = Answer::Became(Readied::Yes);

const NOT_BUSY: Answer = Answer::Became(Readied::NotBusy);

const NONE_LEFT: Answer = Answer::NoJob { took: false };

// What a worker does whose gate gives every turn and lets a LUN be ready after one poll.
const WORKED: [Line; 18] = [
    (Call::Start, Answer::Holds(0)),
    (Call::Turn, FIRST_POLL),
    (READY_ZERO, YES),
    (Call::Park, Answer::Parked),
    (Call::Start, Answer::Holds(1)),
    (Call::Turn, FIRST_POLL),
    (READY_ONE, YES),
    (Call::Park, Answer::Parked),
    (Call::Start, NONE_LEFT),
    (Call::Unpark, Answer::Holds(0)),
    (Call::Turn, ENDED),
    (Call::Finish, Answer::Done),
    (Call::Start, NONE_LEFT),
    (Call::Unpark, Answer::Holds(1)),
    (Call::Turn, ENDED),
    (Call::Finish, Answer::Done),
    (Call::Start, NONE_LEFT),
    (Call::Unpark, Answer::NoLease),
];

// Calls that come too early or too often; LUN 0 is polled three times, so that its ready is the fifth event and asks for memory; LUN 1
// fails, overtakes it and still ends with 0.
const UNTIMELY: [Line; 21] = [
    (Call::Turn, Answer::NoLease),
    (Call::Start, Answer::Holds(0)),
    (Call::Finish, Answer::NotEnded),
    (READY_ZERO, NOT_BUSY),
    (Call::Turn, FIRST_POLL),
    (Call::Turn, SECOND_POLL),
    (Call::Finish, Answer::NotEnded),
    (Call::Turn, THIRD_POLL),
    (READY_ZERO, YES),
    (READY_ZERO, NOT_BUSY),
    (Call::Park, Answer::Parked),
    (Call::Start, Answer::Holds(1)),
    (Call::Turn, FIRST_POLL),
    (FAIL_ONE, YES),
    (Call::Turn, ENDED),
    (Call::Finish, Answer::Done),
    (Call::Unpark, Answer::Holds(0)),
    (Call::Turn, ENDED),
    (Call::Turn, ENDED),
    (Call::Finish, Answer::Done),
    (Call::Unpark, Answer::NoLease),
];

// What the untimely calls put onto the bus.
const UNTIMELY_TRACE: &str = "0 C 60\n0 A 00\n0 A 00\n0 A 00\n0 C d0\n\
    0 C 78\n0 A 00\n0 A 00\n0 A 00\n0 O 80\n\
    0 C 78\n0 A 00\n0 A 00\n0 A 00\n0 O 80\n\
    0 C 78\n0 A 00\n0 A 00\n0 A 00\n0 O 80\n0 R 0 0\n\
    0 C 60\n0 A 20\n0 A 00\n0 A 00\n0 C d0\n\
    0 C 78\n0 A 20\n0 A 00\n0 A 00\n0 O 80\n0 R 1 1\n\
    0 C 78\n0 A 20\n0 A 00\n0 A 00\n0 O e1\n\
    0 C 78\n0 A 00\n0 A 00\n0 A 00\n0 O e0\n";

// Calls that are refused where each of them would ask for memory: the first ready comes before there is room for an event, the first end
// before there is room for a job that is done, the array ready would be the fifth event and the next refused end the ninth, and rooms
// double.
const REFUSED: [Line; 24] = [
    (READY_ZERO, NOT_BUSY),
    (Call::Start, Answer::Holds(0)),
    (Call::Finish, Answer::NotEnded),
    (Call::Turn, FIRST_POLL),
    (Call::Turn, SECOND_POLL),
    (Call::Turn, THIRD_POLL),
    (ARRAY_READY_ZERO, NOT_BUSY),
    (Call::Turn, FOURTH_POLL),
    (READY_ZERO, YES),
    (Call::Park, Answer::Parked),
    (Call::Start, Answer::Holds(1)),
    (Call::Turn, FIRST_POLL),
    (Call::Finish, Answer::NotEnded),
    (Call::Turn, SECOND_POLL),
    (Call::Turn, THIRD_POLL),
    (READY_ONE, YES),
    (READY_ONE, NOT_BUSY),
    (Call::Turn, ENDED),
    (Call::Finish, Answer::Done),
    (Call::Unpark, Answer::Holds(0)),
    (Call::Turn, ENDED),
    (Call::Finish, Answer::Done),
    (ARRAY_READY_ZERO, NOT_BUSY),
    (Call::Unpark, Answer::NoLease),
];

// What the refused calls and those between them put onto the bus.
const REFUSED_TRACE: &str = "0 C 60\n0 A 00\n0 A 00\n0 A 00\n0 C d0\n\
    0 C 78\n0 A 00\n0 A 00\n0 A 00\n0 O 80\n\
    0 C 78\n0 A 00\n0 A 00\n0 A 00\n0 O 80\n\
    0 C 78\n0 A 00\n0 A 00\n0 A 00\n0 O 80\n\
    0 C 78\n0 A 00\n0 A 00\n0 A 00\n0 O 80\n0 R 0 0\n\
    0 C 60\n0 A 20\n0 A 00\n0 A 00\n0 C d0\n\
    0 C 78\n0 A 20\n0 A 00\n0 A 00\n0 O 80\n\
    0 C 78\n0 A 20\n0 A 00\n0 A 00\n0 O 80\n\
    0 C 78\n0 A 20\n0 A 00\n0 A 00\n0 O 80\n0 R 1 0\n\
    0 C 78\n0 A 20\n0 A 00\n0 A 00\n0 O e0\n\
    0 C 78\n0 A 00\n0 A 00\n0 A 00\n0 O e0\n";

// All is done and given back, with so many turns, or one more for each that answered out of memory.
fn is_whole(gathered: &Gathered, turns: u64, short: Shortages) -> bool {
    gathered.done.len() == 2
        && gathered.backlog.is_empty()
        && gathered.seats.len() == 16
        && gathered.parked.len() == 0
        && turns <= gathered.turns
        && gathered.turns <= turns.saturating_add(short.turns)
}

const WORKED_SCRIPT: Script = Script {
    lines: &WORKED,
    trace: TWO_ERASES,
    done: [(0, 0, ZERO, 0), (0, 1, ONE, 0)],
    turns: 4,
};

const UNTIMELY_SCRIPT: Script = Script {
    lines: &UNTIMELY,
    trace: UNTIMELY_TRACE,
    done: [(0, 1, ONE, 0), (0, 0, ZERO, 0)],
    turns: 7,
};

const REFUSED_SCRIPT: Script = Script {
    lines: &REFUSED,
    trace: REFUSED_TRACE,
    done: [(0, 1, ONE, 0), (0, 0, ZERO, 0)],
    turns: 9,
};

#[test]
fn two_jobs_call_by_call(rt: HostRuntime) -> Result<(), Fail> {
    let short = play_script::<Brand, _>(&rt, Blank::new(9), &WORKED_SCRIPT)?;
    tell_short(&rt, short)
}

#[test]
fn untimely_calls(rt: HostRuntime) -> Result<(), Fail> {
    let short = play_script::<Brand, _>(&rt, Blank::new(9), &UNTIMELY_SCRIPT)?;
    tell_short(&rt, short)
}

#[test]
fn refusals_come_before_memory(rt: HostRuntime) -> Result<(), Fail> {
    let short = play_script::<Brand, _>(&rt, Blank::new(9), &REFUSED_SCRIPT)?;
    tell_short(&rt, short)
}
