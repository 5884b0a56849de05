//! Workers that run a channel, alone and in threads, and their passes once they have ended.
ghost use Rattle.std.specs.Prelude.{◌≡◌, ◌∷◌, [], None, IfOk};
ghost use Rattle.channel_work.specs.declared.worker.Cause.TheVariants.{Quiet};

use crate::states::gather;
use channel_work::{
    Cause, Channel, ChannelState, Gate, Gathered, Turns, WorkEnd, WorkerPass, work,
};
use std::alloc::Global;
use std::sync::Wait;
use std::test::Fail;
use std::thread;
use std::thread::Threads;

/// The pass of a worker that has ended quietly, with no lease.
pub fn ended<L: Turns>(end: WorkEnd<L>) -> Result<WorkerPass<L>, Fail>
    ensures { IfOk result (λ pass. (pass ≡ end.pass) × (end.lease ≡ None) × (end.cause ≡ Quiet)) }
{
    let WorkEnd { pass, lease, cause } = end;
    if lease.is_some() {
        return Err(Fail::from("a lease couldn't be parked"));
    }
    match cause {
        Cause::Quiet => Ok(pass),
        Cause::OutOfMemory => Err(Fail::from("out of memory")),
    }
}

/// One worker runs a channel to its end.
pub fn run_alone<L: Turns, G: Gate, R: Wait + AllocGlobal>(
    rt: &R,
    state: ChannelState<L>,
    gate: &G,
) -> Result<Gathered, Fail>
    requires { (L.all ≡ L.parts) × (L.parts ≡ 9) }
{
    let mut state = state;
    let pass = state.worker().ok_or("a pass")?;
    let channel = Channel::new(state);
    let end = work(rt, &channel, gate, pass);
    let passes = vec![in rt.alloc(); ended(end)?]?;
    gather(channel.into_state(), passes)
}

/// Two workers run a channel side by side.
pub fn work_by_two<L: Turns + Sync, G: Gate + Sync, R: Threads + Wait + Sync>(
    rt: &R,
    channel: &Channel<L>,
    gate: &G,
    passes: (WorkerPass<L>, WorkerPass<L>),
) -> (WorkEnd<L>, WorkEnd<L>) {
    let (first, second) = passes;
    thread::join(
        rt,
        move || work(rt, channel, gate, first),
        move || work(rt, channel, gate, second),
    )
}

/// The passes of two workers, once both have ended quietly.
pub fn end_two<L: Turns>(
    alloc: Global,
    ends: (WorkEnd<L>, WorkEnd<L>),
) -> Result<Vec<WorkerPass<L>>, Fail>
    ensures { IfOk result (λ passes. passes.items ≡ ends.0.pass ∷ (ends.1.pass ∷ [])) }
{
    let (one, two) = ends;
    let first = ended(one)?;
    let second = ended(two)?;
    Ok(vec![in alloc; first, second]?)
}
