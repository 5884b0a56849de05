//! The workers of a run, in threads of their own beside the hosts.

use crate::gate::RunGate;
use crate::hosts::{Host, StoredAll, run_hosts};
use crate::run_name::RunName;
use channel_work::{Cause, Channel, Turns, WorkerPass, work};
use std::alloc::Global;
use std::sync::Wait;
use std::thread;
use std::thread::Threads;

// A worker, which gives its pass back. Where memory was refused, the run stops.
fn run_worker<L: Turns, R: Wait>(
    rt: &R,
    channel: &Channel<L>,
    gate: &RunGate,
    pass: WorkerPass<L>,
) -> WorkerPass<L> {
    let end = work(rt, channel, gate, pass);
    if end.cause == Cause::OutOfMemory {
        gate.stop();
    }
    end.pass
}

/// Adds a value; where memory is refused, the run stops.
pub(crate) fn keep<T: Drop>(values: &mut Vec<T>, value: T, gate: &RunGate) {
    if values.push(value).is_err() {
        gate.stop();
    }
}

/// The passes that came back: those of the workers, and those of the hosts that have stored all their jobs.
#[derive(Drop)]
pub(crate) struct Back<L: RunName> {
    pub workers: Vec<WorkerPass<L>>,
    pub hosts: Vec<StoredAll<L>>,
}

/// Runs workers and hosts beside one another, closes the gate once the hosts have ended, and gives their passes back. Where a thread can't be started or
/// memory is refused, the run stops.
pub(crate) fn run_beside<L: RunName + Send + Sync, R: Threads + Wait + Sync>(
    rt: &R,
    alloc: Global,
    channel: &Channel<L>,
    gate: &RunGate,
    hosts: Vec<Host<'_, L>>,
    passes: Vec<WorkerPass<L>>,
) -> Back<L> {
    thread::scope(thread::scope_env(), rt, move |scope| {
        let mut workers = Vec::new(alloc);
        for pass in passes {
            match scope.spawn(move || run_worker(rt, channel, gate, pass)) {
                Ok(worker) => keep(&mut workers, worker, gate),
                Err(_) => gate.stop(),
            }
        }
        let hosts = run_hosts(rt, alloc, hosts, gate);
        gate.close();
        let mut back = Vec::new(alloc);
        for worker in workers {
            keep(&mut back, worker.join(rt), gate);
        }
        Back {
            workers: back,
            hosts,
        }
    })
}
