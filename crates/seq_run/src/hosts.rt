//! The hosts of a run: each stores the jobs of its target in a thread of its own, and gives its pass back.
ghost use Rattle.std.specs.Prelude.{◌≡◌, [], ◌∷◌, ◌++◌, IfSome, slice_index_or};
ghost use Rattle.job_queue.specs.Passes.{owns};
ghost use Rattle.seq_run.specs.Hosted.{HasStored, StoredTheirs};

use crate::gate::RunGate;
use crate::run_name::RunName;
use crate::workers::keep;
use job_queue::{HostPass, JobQueue, Submitted};
use seq_core::Job;
use std::alloc::Global;
use std::marker::PhantomData;
use std::sync::Wait;
use std::thread;
use std::thread::Threads;

/// A host with its jobs, of which it has stored none.
#[derive(Drop)]
pub(crate) struct Host<'q, L: RunName> {
    queue: &'q JobQueue<Job>,
    pass: HostPass<Job>,
    jobs: Vec<Job>,
    of: PhantomData<L>,
    ghost owned: { owns queue.now pass },
    ghost of_queue: { pass.table ≡ L.table },
    ghost none: { pass.stored ≡ [] },
    ghost its_jobs: { jobs.items ≡ slice_index_or L.jobs pass.host [] },
}

/// The pass of a host that has stored all its jobs.
#[derive(Drop)]
pub(crate) struct StoredAll<L: RunName> {
    pass: HostPass<Job>,
    of: PhantomData<L>,
    ghost of_queue: { pass.table ≡ L.table },
    ghost all: { pass.stored ≡ slice_index_or L.jobs pass.host [] },
}

// Stores a job once there is room; None where the run has stopped.
fn store<R: Wait>(
    rt: &R,
    queue: &JobQueue<Job>,
    pass: HostPass<Job>,
    job: Job,
    gate: &RunGate,
) -> Option<HostPass<Job>>
    requires { owns queue.now pass }
    ensures { IfSome result (HasStored pass (job ∷ [])) }
{
    let mut pass = pass;
    let mut job = job;
    for _ in rt.forever() {
        match queue.submit(rt, pass, job) {
            Submitted::Stored(stored) => return Some(stored),
            Submitted::Full(back, again) => {
                if gate.is_stopped() {
                    return None;
                }
                pass = back;
                job = again;
                thread::yield_now();
            }
        }
    }
    unreachable!()
}

// Stores jobs in their order; None where the run has stopped.
#[tactic(auto, using(crate::proofs::Hosting::none_stored, crate::proofs::Hosting::one_stored))]
fn store_all<R: Wait>(
    rt: &R,
    queue: &JobQueue<Job>,
    pass: HostPass<Job>,
    jobs: Vec<Job>,
    gate: &RunGate,
) -> Option<HostPass<Job>>
    requires { owns queue.now pass }
    ensures { IfSome result (HasStored pass jobs.items) }
{
    let mut pass = pass;
    for job in jobs {
        match store(rt, queue, pass, job, gate) {
            Some(stored) => pass = stored,
            None => return None,
        }
    }
    Some(pass)
}

impl<L: RunName> StoredAll<L> {
    /// A host that has no jobs.
    pub(crate) fn nothing(pass: HostPass<Job>) -> StoredAll<L>
        requires table { pass.table ≡ L.table }
        requires none { pass.stored ≡ [] }
        requires its_jobs { slice_index_or L.jobs pass.host [] ≡ [] }
    {
        StoredAll {
            pass,
            of: PhantomData,
        }
    }

    /// Its pass.
    pub(crate) fn into_pass(self) -> HostPass<Job>
        ensures { StoredTheirs L.table L.jobs result }
    {
        let StoredAll { pass, of: _ } = self;
        pass
    }
}

impl<'q, L: RunName> Host<'q, L> {
    /// A host of a queue with its pass and its jobs.
    pub(crate) fn new(queue: &'q JobQueue<Job>, pass: HostPass<Job>, jobs: Vec<Job>) -> Host<'q, L>
        requires owned { owns queue.now pass }
        requires table { pass.table ≡ L.table }
        requires none { pass.stored ≡ [] }
        requires its_jobs { jobs.items ≡ slice_index_or L.jobs pass.host [] }
    {
        Host {
            queue,
            pass,
            jobs,
            of: PhantomData,
        }
    }

    // Stores its jobs; None where the run has stopped.
    fn run<R: Wait>(self, rt: &R, gate: &RunGate) -> Option<StoredAll<L>> {
        let Host {
            queue,
            pass,
            jobs,
            of,
        } = self;
        let pass = store_all(rt, queue, pass, jobs, gate)?;
        Some(StoredAll { pass, of })
    }
}

/// Runs each host in a thread of its own, until all have stored their jobs, and gives their passes back. Where a thread can't be started or memory is
/// refused, the run stops, and the pass is missing.
pub(crate) fn run_hosts<L: RunName + Send + Sync, R: Threads + Wait + Sync>(
    rt: &R,
    alloc: Global,
    hosts: Vec<Host<'_, L>>,
    gate: &RunGate,
) -> Vec<StoredAll<L>> {
    thread::scope(thread::scope_env(), rt, move |scope| {
        let mut threads = Vec::new(alloc);
        for host in hosts {
            match scope.spawn(move || host.run(rt, gate)) {
                Ok(thread) => keep(&mut threads, thread, gate),
                Err(_) => gate.stop(),
            }
        }
        let mut back = Vec::new(alloc);
        for thread in threads {
            if let Some(stored) = thread.join(rt) {
                keep(&mut back, stored, gate);
            }
        }
        back
    })
}
