//! Channels of new dies, their passes, and their parts once all passes are back.
ghost use Rattle.std.specs.Prelude.{◌≡◌, ◌+◌, [], IfOk, length, None};
ghost use Rattle.seq_core.specs.World.{fresh};
ghost use Rattle.seq_core.specs.Shows.{IsAt, channel_in};
ghost use Rattle.channel_work.specs.Starting.{HasStarted};
ghost use Rattle.channel_work.specs.State.{turns_of};

use crate::erases::Erase;
use crate::queues::{make_queue, submit_erases};
use channel_work::{ChannelState, Gathered, Seats, Started, Turns, WorkerPass};
use die_model::LunDie;
use job_queue::Taker;
use lun_lease::{Lease, LeaseTable, Loaded};
use nand_geometry::{Geometry, Parts};
use seq_core::{Core, Job};
use std::alloc::Global;
use std::sync::Wait;
use std::sync::ledger::Blank;
use std::test::Fail;
use target_bus::Bus;

// A sequencer on so many targets of new dies.
fn make_core(alloc: Global, parts: Parts, targets: u8) -> Result<Core, Fail>
    ensures { IfOk result (λ core. IsAt core (fresh (channel_in core))) }
{
    let geometry = Geometry::of(parts)?;
    let mut dies = Vec::new(alloc);
    for _ in 0..targets {
        for _ in 0..parts.luns {
            dies.push(LunDie::new(alloc, geometry)?)?;
        }
    }
    match Bus::new(alloc, geometry, dies) {
        Ok(bus) => Ok(Core::new(bus)),
        Err(refused) => Err(refused.fault.into()),
    }
}

/// A channel of so many targets, on which nothing has happened.
pub fn make_state<L: Turns>(
    alloc: Global,
    blank: Blank,
    parts: Parts,
    targets: u8,
    taker: Taker<Job>,
) -> Result<ChannelState<L>, Fail>
    requires name { blank.name ≡ L.name }
    requires parts { (blank.parts ≡ L.parts) × (L.all ≡ L.parts) × (L.parts ≡ 9) × (L.origin ≡ None) }
    requires taker { taker.taken ≡ [] }
    ensures taker { IfOk result (λ state. state.history.taker ≡ taker) }
    ensures none { IfOk result (λ state. (state.parked ≡ []) × (state.passes ≡ 0)) }
{
    let core = make_core(alloc, parts, targets)?;
    let seats = Seats::of(LeaseTable::new(alloc)?);
    Ok(ChannelState::new(alloc, blank, core, taker, seats))
}

/// A channel of so many targets, for which a host has stored erases, nine at most.
pub fn make_erasing<L: Turns, R: Wait + AllocGlobal>(
    rt: &R,
    blank: Blank,
    parts: Parts,
    targets: u8,
    erases: &[Erase],
) -> Result<ChannelState<L>, Fail>
    requires name { blank.name ≡ L.name }
    requires parts { (blank.parts ≡ L.parts) × (L.all ≡ L.parts) × (L.parts ≡ 9) × (L.origin ≡ None) }
    ensures { IfOk result (λ state. (state.parked ≡ []) × (state.passes ≡ 0)) }
{
    let (queue, host, _other, taker) = make_queue(rt.alloc(), 9)?;
    let _host = submit_erases(rt, &queue, host, erases)?;
    make_state(rt.alloc(), blank, parts, targets, taker)
}

/// Two passes.
pub fn make_two_passes<L: Turns>(
    state: &mut ChannelState<L>,
) -> Result<(WorkerPass<L>, WorkerPass<L>), Fail>
    requires { L.all ≡ 9 }
    ensures new { IfOk result (λ passes. (passes.0.turns ≡ 0) × (passes.1.turns ≡ 0)
        × (passes.0.number ≡ state.old.passes) × (passes.1.number ≡ state.old.passes + 1)) }
    ensures state { IfOk result (λ _. state.new ≡ record state.old { passes = state.old.passes + 2 }) }
{
    let first = state.worker().ok_or("a pass")?;
    let second = state.worker().ok_or("a pass")?;
    Ok((first, second))
}

/// Starts a job, of which one must be there.
pub fn start<L: Turns, R: Wait>(rt: &R, state: &mut ChannelState<L>) -> Result<Lease<Loaded>, Fail>
    ensures started { IfOk result (λ lease. HasStarted state.old.history state.old.seats lease state.new.history state.new.seats) }
    ensures same { state.new ≡ record state.old { history = state.new.history; seats = state.new.seats } }
{
    match state.start(rt) {
        Started::Loaded(lease) => Ok(lease),
        Started::Nothing { .. } => Err(Fail::from("no job was started")),
        Started::OutOfMemory => Err(Fail::from("out of memory")),
    }
}

/// The parts of a channel whose passes these are.
pub fn gather<L: Turns>(
    state: ChannelState<L>,
    passes: Vec<WorkerPass<L>>,
) -> Result<Gathered, Fail>
    requires { L.all ≡ L.parts }
    ensures { IfOk result (λ parts. (parts.turns ≡ turns_of passes.items) × (length passes.items ≡ state.passes)) }
{
    match state.gather(passes) {
        Ok(gathered) => Ok(gathered),
        Err(_) => Err(Fail::from("a pass is missing")),
    }
}
