//! A page that is programmed and read, twice, by a sequencer.

use crate::turns::{Call, Memory, refuse_in_turn};
use die_model::LunDie;
use micro_verify::{PlainOp, plain};
use nand_geometry::{Geometry, SMALL_CHIP};
use onfi_cycle::{Failures, Item, Lun};
use seq_core::{Core, Event, Job, Ran, Reply, Shortage, Stepped, run_events};
use std::alloc::Global;
use std::process::Abort;
use std::test::Fail;
use target_bus::Bus;
use test_heap::{Refusal, TestHeap};
use trace_text::parse;

const LUN_0: Lun = Lun { ce: 0, lun: 0 };

// Two bytes are programmed, and then read again.
const OPERATIONS: [PlainOp; 2] = [
    PlainOp::Program {
        row: 0,
        plane: 0,
        column: 0,
        place: 0,
        len: 2,
    },
    PlainOp::Read {
        row: 0,
        plane: 0,
        column: 0,
        place: 2,
        len: 2,
    },
];

// What goes into the two jobs, and what they end with: the second time the bits that are 0 stay so.
const GIVEN: [[u8; 4]; 2] = [[0xa5, 0x3c, 0, 0], [0x0f, 0x0f, 0, 0]];

const LEFT: [[u8; 4]; 2] = [[0xa5, 0x3c, 0xa5, 0x3c], [0x0f, 0x0f, 0x05, 0x0c]];

// The page is programmed and polled twice, and then it is read; the LUN is busy at each first poll.
const TRACE: &str = "0 C 80\n0 A 00\n0 A 00\n0 A 00\n0 A 00\n0 A 00\n0 I a5\n0 I 3c\n0 C 10\n\
    0 C 70\n0 O 80\n0 R 0 0\n0 C 70\n0 O e0\n\
    0 C 00\n0 A 00\n0 A 00\n0 A 00\n0 A 00\n0 A 00\n0 C 30\n0 C 70\n0 O 80\n0 R 0 0\n0 C 70\n0 O e0\n\
    0 C 00\n0 O a5\n0 O 3c\n\
    0 C 80\n0 A 00\n0 A 00\n0 A 00\n0 A 00\n0 A 00\n0 I 0f\n0 I 0f\n0 C 10\n\
    0 C 70\n0 O 80\n0 R 0 0\n0 C 70\n0 O e0\n\
    0 C 00\n0 A 00\n0 A 00\n0 A 00\n0 A 00\n0 A 00\n0 C 30\n0 C 70\n0 O 80\n0 R 0 0\n0 C 70\n0 O e0\n\
    0 C 00\n0 O 05\n0 O 0c\n";

// The image of the die then: row 0 holds 05 0c and FF behind them.
const IMAGE_START: [u8; 31] = [
    b'N', b'D', b'I', b'1', 0, 2, 0, 0, 16, 0, 0, 0, 4, 0, 0, 0, 8, 0, 0, 0, 1, 0, 0, 0, 0, 0, 0,
    0, 0x05, 0x0c, 0xff,
];

// A sequencer on one new die.
fn new_core<'h>(heap: Memory<'h>) -> Result<Core<Memory<'h>>, Fail> {
    let geometry = Geometry::of(SMALL_CHIP)?;
    let mut dies = Vec::new(heap);
    dies.push(LunDie::new(heap, geometry)?)?;
    match Bus::new(heap, geometry, dies) {
        Ok(bus) => Ok(Core::new(bus)),
        Err(_) => Err("the die is refused".into()),
    }
}

// A job of the two operations.
fn new_job<'h>(heap: Memory<'h>, given: &[u8]) -> Result<Job<Memory<'h>>, Fail> {
    let geometry = Geometry::of(SMALL_CHIP)?;
    let verified = plain(heap, &OPERATIONS, geometry)?;
    let buffer = Vec::from_slice(heap, given)?;
    match Job::new(geometry, 1, LUN_0, 0, verified, buffer) {
        Ok(job) => Ok(job),
        Err(_) => Err("the job is refused".into()),
    }
}

// What is seen of a sequencer from outside.
#[derive(Drop)]
struct Seen {
    trace: Vec<Item>,
    holder: Option<Lun>,
    unload: Option<u8>,
}

fn look(alloc: Global, core: &Core<Memory<'_>>) -> Result<Seen, Fail> {
    Ok(Seen {
        trace: core.trace().to_vec(alloc)?,
        holder: core.holder(),
        unload: core.admits_unload(LUN_0).ok(),
    })
}

// The sequencer shows what it showed before.
fn is_as_before(core: &Core<Memory<'_>>, before: &Seen) -> bool {
    core.trace() == before.trace.as_slice()
        && core.holder() == before.holder
        && core.admits_unload(LUN_0).ok() == before.unload
}

// A step; where it is out of memory, the sequencer is as before, and the step is made again. Whether it was.
fn step(alloc: Global, core: &mut Core<Memory<'_>>) -> Result<(Stepped, bool), Fail> {
    let before = look(alloc, core)?;
    match core.step(LUN_0) {
        Ok(answer) => Ok((answer, false)),
        Err(_) if is_as_before(core, &before) => Ok((core.step(LUN_0)?, true)),
        Err(_) => Err("a refused step changes nothing".into()),
    }
}

// Steps a program to its end; its LUN becomes ready after each poll that says busy. Whether a step was out of memory.
fn run_to_end(alloc: Global, core: &mut Core<Memory<'_>>) -> Result<bool, Fail> {
    let mut is_short = false;
    for _ in 0..64 {
        let (answer, was_short) = step(alloc, core)?;
        is_short |= was_short;
        match answer {
            Stepped::Ended => return Ok(is_short),
            Stepped::NotReady => {
                if !core.ready(LUN_0, Failures::default()) {
                    return Err("a LUN that is busy becomes ready".into());
                }
            }
            _ => {}
        }
    }
    Err("the program ends".into())
}

// Whether a job that has ended is taken away with this buffer.
fn gives_back(core: &mut Core<Memory<'_>>, left: &[u8]) -> bool {
    match core.unload(LUN_0) {
        Ok(done) => done.code == 0 && done.job.buffer() == left,
        Err(_) => false,
    }
}

// Loads a job, runs it, and takes it away again. Whether a step was out of memory.
fn run_job<'h>(
    alloc: Global,
    core: &mut Core<Memory<'h>>,
    job: Job<Memory<'h>>,
    left: &[u8],
) -> Result<bool, Fail> {
    if core.load(LUN_0, job).is_err() {
        return Err("the load is refused".into());
    }
    let is_short = run_to_end(alloc, core)?;
    if gives_back(core, left) {
        Ok(is_short)
    } else {
        Err("the job ends with its code and its buffer".into())
    }
}

// The image of the one die of a sequencer.
fn image_of(alloc: Global, core: Core<Memory<'_>>) -> Result<Vec<u8>, Fail> {
    let dies = core.into_bus().into_dies();
    match dies.as_slice() {
        [die] => Ok(die.image()?.as_slice().to_vec(alloc)?),
        _ => Err("one die".into()),
    }
}

// An image is what the two jobs have left.
fn is_of_both(image: &[u8]) -> bool {
    let (start, rest) = image.split_at(IMAGE_START.len().min(image.len()));
    start == IMAGE_START.as_slice() && rest.len() == 525 && rest.iter().all(|byte| *byte == 0xff)
}

// The die of a sequencer holds what the two jobs have left in it.
fn holds_both(alloc: Global, core: Core<Memory<'_>>) -> Result<bool, Fail> {
    let image = image_of(alloc, core)?;
    Ok(is_of_both(image.as_slice()))
}

// The trace of a sequencer is this.
fn has_trace(alloc: Global, core: &Core<Memory<'_>>, text: &str) -> Result<bool, Fail> {
    let items = parse(alloc, text)?;
    Ok(core.trace() == items.as_slice())
}

// The trace of a sequencer and its die are those of ample memory.
fn expect_both(alloc: Global, core: Core<Memory<'_>>) -> Result<(), Fail> {
    let is_traced = has_trace(alloc, &core, TRACE)?;
    if holds_both(alloc, core)? && is_traced {
        Ok(())
    } else {
        Err("the trace and the image are those of ample memory".into())
    }
}

// Runs the two jobs. Whether a step was out of memory.
fn run_both<'h>(
    alloc: Global,
    core: &mut Core<Memory<'h>>,
    first: Job<Memory<'h>>,
    second: Job<Memory<'h>>,
) -> Result<bool, Fail> {
    let first_short = run_job(alloc, core, first, &LEFT[0])?;
    let second_short = run_job(alloc, core, second, &LEFT[1])?;
    Ok(first_short || second_short)
}

// The two jobs.
fn new_jobs<'h>(heap: Memory<'h>) -> Result<(Job<Memory<'h>>, Job<Memory<'h>>), Fail> {
    let first = new_job(heap, &GIVEN[0])?;
    let second = new_job(heap, &GIVEN[1])?;
    Ok((first, second))
}

// The two jobs, step by step.
#[derive(Clone, Copy)]
struct TwoJobs {
    alloc: Global,
}

impl Call for TwoJobs {
    fn spares(&self) -> u64 {
        0
    }

    fn make(&self, heap: Memory<'_>, refusal: Refusal) -> Result<bool, Fail> {
        let (first, second) = new_jobs(heap)?;
        let mut core = new_core(heap)?;
        heap.refuse(refusal);
        let is_short = run_both(self.alloc, &mut core, first, second)?;
        heap.refuse(Refusal::Never);
        expect_both(self.alloc, core)?;
        Ok(is_short)
    }
}

#[test]
fn two_jobs_step_by_step(rt: HostRuntime) -> Result<(), Fail> {
    let call = TwoJobs { alloc: rt.alloc() };
    assert!(rt; refuse_in_turn(rt.alloc(), &call)? > 0);
    Ok(())
}

// How many steps stand before each ready of the job's LUN, and at its end.
const STEPS: [usize; 3] = [9, 10, 4];

// Adds what a job does from its load on.
fn push_events<'h>(
    events: &mut Vec<Event<Memory<'h>>, Memory<'h>>,
    job: Job<Memory<'h>>,
) -> Result<(), Fail> {
    events.reserve(28)?;
    events.push(Event::Load(LUN_0, job))?;
    for (place, steps) in STEPS.iter().enumerate() {
        if place > 0 {
            events.push(Event::Ready(LUN_0, Failures::default()))?;
        }
        for _ in 0..*steps {
            events.push(Event::Step(LUN_0))?;
        }
    }
    events.push(Event::Unload(LUN_0))?;
    Ok(())
}

// What was told of so many events: they are done or left, in order, and without memory for the replies none was done.
fn is_told(core: &Core<Memory<'_>>, ran: &Ran<Memory<'_>>, count: usize) -> bool {
    let is_whole = ran.replies.len().saturating_add(ran.rest.len()) == count;
    let is_first = match (ran.shortage, ran.rest.first()) {
        (None, None) => true,
        (Some(Shortage::ForReplies), Some(Event::Load(_, _))) => {
            ran.replies.is_empty() && core.trace().is_empty()
        }
        (Some(Shortage::ForStep), Some(Event::Step(_))) => !ran.replies.is_empty(),
        _ => false,
    };
    is_whole && is_first
}

// The last of the replies gives the second job back.
fn is_given_back(replies: &[Reply<Memory<'_>>]) -> bool {
    match replies.last() {
        Some(Reply::Unload(Ok(done))) => done.code == 0 && done.job.buffer() == LEFT[1].as_slice(),
        _ => false,
    }
}

// Does what is left of a list of events. Whether there were some.
fn do_rest<'h>(
    core: &mut Core<Memory<'h>>,
    heap: Memory<'h>,
    rest: Vec<Event<Memory<'h>>, Memory<'h>>,
) -> Result<bool, Fail> {
    if rest.is_empty() {
        return Ok(false);
    }
    let again = run_events(core, heap, rest);
    if again.rest.is_empty() && is_given_back(again.replies.as_slice()) {
        Ok(true)
    } else {
        Err("the rest is done, and gives the second job back".into())
    }
}

// The events of the two jobs.
fn new_events<'h>(heap: Memory<'h>) -> Result<Vec<Event<Memory<'h>>, Memory<'h>>, Fail> {
    let (first, second) = new_jobs(heap)?;
    let mut events = Vec::new(heap);
    push_events(&mut events, first)?;
    push_events(&mut events, second)?;
    Ok(events)
}

// Does these events with requests refused so, and then what is left of them. Whether some were left.
fn do_all<'h>(
    core: &mut Core<Memory<'h>>,
    heap: Memory<'h>,
    events: Vec<Event<Memory<'h>>, Memory<'h>>,
    refusal: Refusal,
) -> Result<bool, Fail> {
    let count = events.len();
    heap.refuse(refusal);
    let ran = run_events(core, heap, events);
    heap.refuse(Refusal::Never);
    if is_told(core, &ran, count) {
        do_rest(core, heap, ran.rest)
    } else {
        Err("each event is done or left".into())
    }
}

// The two jobs, as one list of events.
#[derive(Clone, Copy)]
struct TwoJobsAtOnce {
    alloc: Global,
}

impl Call for TwoJobsAtOnce {
    fn spares(&self) -> u64 {
        0
    }

    fn make(&self, heap: Memory<'_>, refusal: Refusal) -> Result<bool, Fail> {
        let events = new_events(heap)?;
        let mut core = new_core(heap)?;
        let is_short = do_all(&mut core, heap, events, refusal)?;
        expect_both(self.alloc, core)?;
        Ok(is_short)
    }
}

#[test]
fn two_jobs_as_events(rt: HostRuntime) -> Result<(), Fail> {
    let call = TwoJobsAtOnce { alloc: rt.alloc() };
    assert!(rt; refuse_in_turn(rt.alloc(), &call)? > 0);
    Ok(())
}

// A sequencer whose die holds the page of the first job, with the second job loaded.
fn loaded_core<'h>(alloc: Global, heap: Memory<'h>) -> Result<Core<Memory<'h>>, Fail> {
    let (first, second) = new_jobs(heap)?;
    let mut core = new_core(heap)?;
    run_job(alloc, &mut core, first, &LEFT[0])?;
    match core.load(LUN_0, second) {
        Ok(()) => Ok(core),
        Err(_) => Err("a load is refused".into()),
    }
}

// Steps a sequencer until a step is out of memory, 32 times at most. How many were done.
fn step_until_short(core: &mut Core<Memory<'_>>) -> u32 {
    for done in 0..32u32 {
        if core.step(LUN_0).is_err() {
            return done;
        }
        core.ready(LUN_0, Failures::default());
    }
    32
}

// Steps a sequencer so often.
fn step_so_often(core: &mut Core<Memory<'_>>, count: u32) -> Result<(), Fail> {
    for _ in 0..count {
        core.step(LUN_0)?;
        core.ready(LUN_0, Failures::default());
    }
    Ok(())
}

// A sequencer that has stopped: its steps, whether a request was refused, and the image of its die.
#[derive(Drop)]
struct Stopped {
    steps: u32,
    was_refused: bool,
    image: Vec<u8>,
}

// One that stops at the first step of the second job which is out of memory.
fn stop_short(alloc: Global, after: u64) -> Result<Stopped, Fail> {
    let heap = TestHeap::new(alloc);
    let mut core = loaded_core(alloc, &heap)?;
    heap.refuse(Refusal::Once { after });
    let steps = step_until_short(&mut core);
    let was_refused = heap.refused() > 0;
    heap.refuse(Refusal::Never);
    let image = image_of(alloc, core)?;
    Ok(Stopped {
        steps,
        was_refused,
        image,
    })
}

// The image of the die of one that does as many steps with ample memory.
fn step_amply(alloc: Global, steps: u32) -> Result<Vec<u8>, Fail> {
    let heap = TestHeap::new(alloc);
    let mut core = loaded_core(alloc, &heap)?;
    step_so_often(&mut core, steps)?;
    image_of(alloc, core)
}

// Both dies have one image. Whether a request was refused.
fn stops_alike(alloc: Global, after: u64) -> Result<bool, Fail> {
    let stopped = stop_short(alloc, after)?;
    let image = step_amply(alloc, stopped.steps)?;
    if stopped.image.as_slice() == image.as_slice() {
        Ok(stopped.was_refused)
    } else {
        Err("a refused step leaves the die as it was".into())
    }
}

// After how many requests none is refused any more.
fn count_refused(alloc: Global) -> Result<u64, Fail> {
    for after in 0..1_000u64 {
        if !stops_alike(alloc, after)? {
            return Ok(after);
        }
    }
    Err("a step without an end".into())
}

#[test]
fn a_refused_step_leaves_the_die(rt: HostRuntime) -> Result<(), Fail> {
    assert!(rt; count_refused(rt.alloc())? > 0);
    Ok(())
}
