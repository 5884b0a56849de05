//! More jobs than twice the places that a queue may have. A pass may be full whenever it likes, by its contract: one that stores no more from
//! some number on fails here.
ghost use Rattle.std.specs.Prelude.{◌≡◌};
ghost use Rattle.job_queue.specs.Passes.{owns};

use job_queue::{HostPass, JobQueue, QueuedJob, Submitted, Taker};
use std::process::Abort;
use std::sync::Wait;
use std::test::*;

// What stands for a job.
type Job = u64;

// Stores a job, where the queue must have room.
fn store<R: Wait + Abort>(
    rt: &R,
    queue: &JobQueue<Job>,
    pass: HostPass<Job>,
    job: Job,
) -> HostPass<Job>
    requires { owns queue.now pass }
    ensures { result.table ≡ pass.table }
{
    match queue.submit(rt, pass, job) {
        Submitted::Stored(pass) => pass,
        Submitted::Full(_, _) => panic!(rt; "there was room for {job}"),
    }
}

// The host, the number and the job of the oldest that is queued.
fn take<R: Wait>(rt: &R, taker: &mut Taker<Job>) -> Option<(u32, u64, Job)> {
    let QueuedJob { host, number, job } = taker.take(rt)?;
    Some((host, number, job))
}

// Stores so many jobs of host 0, each of which is taken before the next is stored.
fn store_and_take<R: Wait + Abort>(
    rt: &R,
    queue: &JobQueue<Job>,
    mut pass: HostPass<Job>,
    taker: &mut Taker<Job>,
    count: u64,
)
    requires { owns queue.now pass }
{
    for job in 0..count {
        pass = store(rt, queue, pass, job);
        assert_eq!(rt; take(rt, taker), Some((0, job, job)));
    }
}

#[test]
fn a_pass_stores_many_jobs(rt: HostRuntime) -> Result<(), Fail> {
    let (queue, mut passes, mut taker) = JobQueue::<Job>::new(rt.alloc(), 4, 1)?;
    let pass = passes.pop().ok_or("the host's pass")?;
    store_and_take(&rt, &queue, pass, &mut taker, 200_000);
    Ok(())
}
