//! Queues with their passes, and hosts that store jobs.
ghost use Rattle.std.specs.Prelude.{◌≡◌, ◌<◌, ◌≤◌, [], IfOk, IfSome};
ghost use Rattle.job_queue.specs.Passes.{owns, OwnsAll};

use crate::erases::{Erase, make_erase};
use job_queue::{HostPass, JobQueue, Submitted, Taker};
use seq_core::Job;
use std::alloc::{AllocError, Global};
use std::sync::Wait;
use std::test::Fail;
use std::thread;

/// A queue of two hosts: the passes of host 0 and host 1, and the taker.
pub fn make_queue(
    alloc: Global,
    capacity: usize,
) -> Result<(JobQueue<Job>, HostPass<Job>, HostPass<Job>, Taker<Job>), Fail>
    requires { (0 < capacity) × (capacity ≤ 65536) }
    ensures hosts { IfOk result (λ r. owns r.0 r.1 × owns r.0 r.2) }
    ensures taker { IfOk result (λ r. r.3.taken ≡ []) }
{
    let (queue, mut passes, taker) = JobQueue::<Job>::new(alloc, capacity, 2)?;
    let second = passes.pop().ok_or("host 1's pass")?;
    let first = passes.pop().ok_or("host 0's pass")?;
    Ok((queue, first, second, taker))
}

/// Stores a job, once there is room.
pub fn submit<R: Wait>(
    rt: &R,
    queue: &JobQueue<Job>,
    pass: HostPass<Job>,
    job: Job,
) -> HostPass<Job>
    requires { owns queue.now pass }
    ensures { result.table ≡ pass.table }
{
    let mut pass = pass;
    let mut job = job;
    for _ in rt.forever() {
        match queue.submit(rt, pass, job) {
            Submitted::Stored(stored) => return stored,
            Submitted::Full(back, again) => {
                pass = back;
                job = again;
                thread::yield_now();
            }
        }
    }
    unreachable!()
}

/// Stores erases.
pub fn submit_erases<R: Wait + AllocGlobal>(
    rt: &R,
    queue: &JobQueue<Job>,
    pass: HostPass<Job>,
    erases: &[Erase],
) -> Result<HostPass<Job>, Fail>
    requires { owns queue.now pass }
    ensures { IfOk result (λ p. p.table ≡ pass.table) }
{
    let mut pass = pass;
    for erase in erases {
        let job = make_erase(rt.alloc(), *erase).ok_or("out of memory")?;
        pass = submit(rt, queue, pass, job);
    }
    Ok(pass)
}

/// The passes of two hosts.
pub type TwoHosts = (HostPass<Job>, HostPass<Job>);

// A queue of four hosts with its passes.
#[tactic(auto, using(crate::proofs::Hosting::new_owned))]
fn open_queue(
    alloc: Global,
    capacity: usize,
) -> Result<(JobQueue<Job>, Vec<HostPass<Job>>, Taker<Job>), AllocError>
    requires { (0 < capacity) × (capacity ≤ 65536) }
    ensures passes { IfOk result (λ r. OwnsAll r.0 r.1.items) }
    ensures taker { IfOk result (λ r. r.2.taken ≡ []) }
{
    JobQueue::<Job>::new(alloc, capacity, 4)
}

// Takes the last of a queue's passes.
#[tactic(auto, using(crate::proofs::Hosting::rest_owned))]
fn take_pass(queue: &JobQueue<Job>, passes: &mut Vec<HostPass<Job>>) -> Option<HostPass<Job>>
    requires { OwnsAll queue.now passes.old.items }
    ensures { IfSome result (λ pass. OwnsAll queue.now passes.new.items × owns queue.now pass) }
{
    passes.pop()
}

// Takes the last two of a queue's passes.
fn take_two(queue: &JobQueue<Job>, passes: &mut Vec<HostPass<Job>>) -> Option<TwoHosts>
    requires { OwnsAll queue.now passes.old.items }
    ensures rest { IfSome result (λ _. OwnsAll queue.now passes.new.items) }
    ensures two { IfSome result (λ hosts. owns queue.now hosts.0 × owns queue.now hosts.1) }
{
    let second = take_pass(queue, passes)?;
    let first = take_pass(queue, passes)?;
    Some((first, second))
}

/// A queue of four hosts: the passes of hosts 0 and 1, those of hosts 2 and 3, and the taker.
pub fn make_wide_queue(
    alloc: Global,
    capacity: usize,
) -> Result<(JobQueue<Job>, TwoHosts, TwoHosts, Taker<Job>), Fail>
    requires { (0 < capacity) × (capacity ≤ 65536) }
    ensures first { IfOk result (λ r. owns r.0 r.1.0 × owns r.0 r.1.1) }
    ensures second { IfOk result (λ r. owns r.0 r.2.0 × owns r.0 r.2.1) }
    ensures taker { IfOk result (λ r. r.3.taken ≡ []) }
{
    let (queue, mut passes, taker) = open_queue(alloc, capacity)?;
    let second = take_two(&queue, &mut passes).ok_or("the passes of hosts 2 and 3")?;
    let first = take_two(&queue, &mut passes).ok_or("the passes of hosts 0 and 1")?;
    Ok((queue, first, second, taker))
}
