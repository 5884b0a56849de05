//! Lists of events: a sequencer does them one after another.
ghost use Rattle.std.specs.Prelude.{◌≡◌, ◌+◌, ◌≤◌, [], IfOk, IfErr, reverse};
ghost use Rattle.std.specs.Vec.{vec_len, vec_capacity};
ghost use Rattle.seq_core.specs.Calls.{IsEvent};
ghost use Rattle.seq_core.specs.EventList.{event_of, reply_of, WantsMemory, StopsAt, LeftFor, DidEvents, shortage_of};

use crate::job::Job;
use crate::sequencer::{Core, LoadRefused, UnloadedJob};
use crate::stepped::Stepped;
use crate::unload_fault::UnloadFault;
use onfi_cycle::{Failures, Lun};
use std::alloc::{Allocator, Global};

/// What happens on a channel.
#[derive(Drop)]
pub enum Event<A: Allocator = Global> {
    /// A job comes to a LUN.
    Load(Lun, Job<A>),
    /// The next word of a LUN's program is stepped.
    Step(Lun),
    /// A LUN becomes ready, with failures or without.
    Ready(Lun, Failures),
    /// The array of a LUN becomes ready after a cache read, or after a cache program, which failed or not.
    ArrayReady(Lun, bool),
    /// The job of a LUN is taken away.
    Unload(Lun),
}

/// How an event was answered.
#[derive(Drop)]
pub enum Reply<A: Allocator = Global> {
    /// As [`Core::load`] answers.
    Load(Result<(), LoadRefused<A>>),
    /// As [`Core::step`] answers.
    Step(Stepped),
    /// As [`Core::ready`] answers.
    Ready(bool),
    /// As [`Core::array_ready`] answers.
    ArrayReady(bool),
    /// As [`Core::unload`] answers.
    Unload(Result<UnloadedJob<A>, UnloadFault>),
}

/// What there was no memory for, where a list of events wasn't done to its end.
#[derive(Clone, Copy, Debug, PartialEq, Eq)]
pub enum Shortage {
    /// The replies: no event was done.
    ForReplies,
    /// The step that comes first among the events that are left.
    ForStep,
}

/// What came of a list of events.
#[derive(Drop)]
pub struct Ran<A: Allocator> {
    /// The reply of each event that was done.
    pub replies: Vec<Reply<A>, A>,
    /// The events that weren't done, for want of memory, in order.
    pub rest: Vec<Event<A>, A>,
    /// What memory was wanted for, None where all were done.
    pub shortage: Option<Shortage>,
}

/// Does an event. Without memory for it the event is handed back, and all stays as it was: it is the step of a LUN whose program
/// goes on, while no other LUN has the bus.
pub fn do_event<A: Allocator + Copy>(
    core: &mut Core<A>,
    event: Event<A>,
) -> Result<Reply<A>, Event<A>>
    ensures ok { IfOk result (λ reply. IsEvent core.old (event_of event) (reply_of reply) core.new) }
    ensures err { IfErr result (λ undone. (undone ≡ event) × (core.new ≡ core.old)) }
    ensures memory { IfErr result (λ undone. WantsMemory core.old undone) }
{
    match event {
        Event::Load(lun, job) => Ok(Reply::Load(core.load(lun, job))),
        Event::Step(lun) => match core.step(lun) {
            Ok(answer) => Ok(Reply::Step(answer)),
            Err(_) => Err(Event::Step(lun)),
        },
        Event::Ready(lun, fail) => Ok(Reply::Ready(core.ready(lun, fail))),
        Event::ArrayReady(lun, fail) => Ok(Reply::ArrayReady(core.array_ready(lun, fail))),
        Event::Unload(lun) => Ok(Reply::Unload(core.unload(lun))),
    }
}

// Does the events of a vector, the last first, until one wants memory.
fn do_from_end<A: Allocator + Copy>(
    core: &mut Core<A>,
    replies: &mut Vec<Reply<A>, A>,
    todo: &mut Vec<Event<A>, A>,
)
    requires none { replies.old.items ≡ [] }
    requires room { vec_len replies.old + vec_len todo.old ≤ vec_capacity replies.old }
    ensures did { DidEvents core.old (reverse todo.old.items) replies.new.items (reverse todo.new.items) core.new }
    ensures stops { StopsAt core.new (reverse todo.new.items) }
{
    while let Some(event) = todo.pop() {
        match do_event(core, event) {
            Ok(reply) => replies.push_reserved(reply),
            Err(undone) => {
                todo.push_reserved(undone);
                return;
            }
        }
    }
}

// Does the events of a vector in order, until one wants memory; those that aren't done stay.
fn do_in_order<A: Allocator + Copy>(
    core: &mut Core<A>,
    replies: &mut Vec<Reply<A>, A>,
    todo: &mut Vec<Event<A>, A>,
)
    requires none { replies.old.items ≡ [] }
    requires room { vec_len replies.old + vec_len todo.old ≤ vec_capacity replies.old }
    ensures did { DidEvents core.old todo.old.items replies.new.items todo.new.items core.new }
    ensures stops { StopsAt core.new todo.new.items }
{
    todo.reverse();
    do_from_end(core, replies, todo);
    todo.reverse();
}

// What there was no memory for, if the first of these events wanted some.
fn shortage_of<A: Allocator>(rest: &[Event<A>]) -> Option<Shortage>
    ensures { result ≡ shortage_of rest.now }
{
    match rest {
        [] => None,
        _ => Some(Shortage::ForStep),
    }
}

/// Does events one after another. Where a step wants memory that isn't there, it and those after it are handed back as
/// `rest`; without memory for the replies all are, and nothing was done. `shortage` tells which. Those that were done are a run
/// (`DidEvents`).
pub fn run_events<A: Allocator + Copy>(
    core: &mut Core<A>,
    alloc: A,
    events: Vec<Event<A>, A>,
) -> Ran<A>
    ensures did { DidEvents core.old events.items result.replies.items result.rest.items core.new }
    ensures left { LeftFor core.old core.new events.items result.replies.items result.rest.items result.shortage }
{
    let mut replies = Vec::new(alloc);
    let mut rest = events;
    match replies.reserve(rest.len()) {
        Ok(()) => {
            do_in_order(core, &mut replies, &mut rest);
            let shortage = shortage_of(rest.as_slice());
            Ran {
                replies,
                rest,
                shortage,
            }
        }
        Err(_) => Ran {
            replies,
            rest,
            shortage: Some(Shortage::ForReplies),
        },
    }
}
