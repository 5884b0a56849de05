ghost use Rattle.std.specs.Prelude.{◌≡◌, ◌<◌, ◌≤◌, IfOk};
ghost use Rattle.std.specs.List.{All};
ghost use Rattle.job_queue.specs.Passes.{owns, owns_taker};

use job_queue::{CloseRefused, HostPass, JobQueue, QueuedJob, Submitted, Taker};
use linked_list_allocator::LocalHeap;
use std::alloc::Global;
use std::process::Abort;
use std::sync::Wait;
use std::test::*;
use std::thread;

// What stands for a job.
type Job = u64;

// A queue of two hosts: the passes of host 0 and host 1, and the taker.
fn two_hosts(
    alloc: Global,
    capacity: usize,
) -> Result<(JobQueue<Job>, HostPass<Job>, HostPass<Job>, Taker<Job>), Fail>
    requires { (0 < capacity) × (capacity ≤ 65536) }
    ensures { IfOk result (λ r. owns r.0 r.1 × owns r.0 r.2 × owns_taker r.0 r.3) }
{
    let (queue, mut passes, taker) = JobQueue::<Job>::new(alloc, capacity, 2)?;
    let second = passes.pop().ok_or("host 1's pass")?;
    let first = passes.pop().ok_or("host 0's pass")?;
    Ok((queue, first, second, taker))
}

// Stores a job, where the queue must have room.
fn store<R: Wait + Abort>(
    rt: &R,
    queue: &JobQueue<Job>,
    pass: HostPass<Job>,
    job: Job,
) -> HostPass<Job>
    requires { owns queue.now pass }
    ensures { result.table ≡ pass.table }
{
    match queue.submit(rt, pass, job) {
        Submitted::Stored(pass) => pass,
        Submitted::Full(_, _) => panic!(rt; "there was room for {job}"),
    }
}

// Stores a job, where the queue must have no room, and the job must come back.
fn store_too_much<R: Wait + Abort>(
    rt: &R,
    queue: &JobQueue<Job>,
    pass: HostPass<Job>,
    job: Job,
) -> HostPass<Job>
    requires { owns queue.now pass }
    ensures { result.table ≡ pass.table }
{
    match queue.submit(rt, pass, job) {
        Submitted::Stored(_) => panic!(rt; "there was no room for {job}"),
        Submitted::Full(pass, back) => {
            assert!(rt; back == job);
            pass
        }
    }
}

// The host, the number and the job of the oldest that is queued.
fn next<R: Wait>(rt: &R, taker: &mut Taker<Job>) -> Option<(u32, u64, Job)>
    ensures { (taker.new.table ≡ taker.old.table) × (taker.new.hosts ≡ taker.old.hosts) }
{
    let QueuedJob { host, number, job } = taker.take(rt)?;
    Some((host, number, job))
}

// A queue is closed with these passes, and tells so many jobs of each host that were put and that were taken.
fn is_closed(
    queue: JobQueue<Job>,
    passes: Vec<HostPass<Job>>,
    taker: Taker<Job>,
    put: [u64; 2],
    taken: [u64; 2],
) -> bool
    requires passes { All (λ p. owns queue p) passes.items }
    requires taker { owns_taker queue taker }
{
    match queue.close(passes, taker) {
        Ok(tally) => {
            tally.put.as_slice() == put.as_slice() && tally.taken.as_slice() == taken.as_slice()
        }
        Err(_) => false,
    }
}

// The next three jobs that are queued.
fn next_three<R: Wait>(rt: &R, taker: &mut Taker<Job>) -> [Option<(u32, u64, Job)>; 3]
    ensures { (taker.new.table ≡ taker.old.table) × (taker.new.hosts ≡ taker.old.hosts) }
{
    let first = next(rt, taker);
    let second = next(rt, taker);
    let third = next(rt, taker);
    [first, second, third]
}

#[test]
fn two_hosts_share_two_places(rt: HostRuntime) -> Result<(), Fail> {
    let (queue, first, second, mut taker) = two_hosts(rt.alloc(), 2)?;
    let first = store(&rt, &queue, first, 10);
    let first = store(&rt, &queue, first, 11);
    let second = store_too_much(&rt, &queue, second, 20);
    let oldest = next(&rt, &mut taker);
    let second = store(&rt, &queue, second, 20);
    let others = next_three(&rt, &mut taker);
    let passes = vec![in rt.alloc(); second, first]?;
    assert!(rt; is_closed(queue, passes, taker, [2, 1], [2, 1]));
    assert!(rt; oldest == Some((0, 0, 10)));
    assert!(rt; others == [Some((0, 1, 11)), Some((1, 0, 20)), None]);
    Ok(())
}

#[test]
fn a_full_queue_gives_the_job_back(rt: HostRuntime) -> Result<(), Fail> {
    let (queue, first, second, mut taker) = two_hosts(rt.alloc(), 1)?;
    let first = store(&rt, &queue, first, 10);
    let first = store_too_much(&rt, &queue, first, 11);
    let before = taker.is_fresh();
    let oldest = next(&rt, &mut taker);
    let is_fresh = [before, taker.is_fresh()];
    let other = next(&rt, &mut taker);
    let passes = vec![in rt.alloc(); first, second]?;
    assert!(rt; is_closed(queue, passes, taker, [1, 0], [1, 0]));
    assert!(rt; is_fresh == [true, false] && (oldest, other) == (Some((0, 0, 10)), None));
    Ok(())
}

#[test]
fn a_queue_stays_open_while_a_pass_is_missing(rt: HostRuntime) -> Result<(), Fail> {
    let (queue, first, second, taker) = two_hosts(rt.alloc(), 4)?;
    let first = store(&rt, &queue, first, 10);
    let Err(refused) = queue.close(vec![in rt.alloc(); first]?, taker) else {
        return Err("a pass is missing".into());
    };
    let CloseRefused {
        queue,
        mut passes,
        mut taker,
    } = refused;
    let count = passes.len();
    let second = store(&rt, &queue, second, 20);
    passes.push(second)?;
    let oldest = next(&rt, &mut taker);
    assert!(rt; is_closed(queue, passes, taker, [1, 1], [1, 0]));
    assert!(rt; count == 1 && oldest == Some((0, 0, 10)));
    Ok(())
}

// Stores so many jobs, the numbers from 0.
fn store_many<R: Wait + Abort>(
    rt: &R,
    queue: &JobQueue<Job>,
    mut pass: HostPass<Job>,
    count: u64,
) -> HostPass<Job>
    requires { owns queue.now pass }
    ensures { result.table ≡ pass.table }
{
    for job in 0..count {
        pass = store(rt, queue, pass, job);
    }
    pass
}

// Takes what is queued, which must be the jobs from 0 of each host, and counts them.
fn take_many<R: Wait + Abort>(rt: &R, taker: &mut Taker<Job>) -> [u64; 2]
    ensures { (taker.new.table ≡ taker.old.table) × (taker.new.hosts ≡ taker.old.hosts) }
{
    let mut taken = [0u64; 2];
    for _ in 0..1001 {
        let Some((host, number, job)) = next(rt, taker) else {
            break;
        };
        assert!(rt; host < 2);
        let expected = taken[host as usize];
        assert!(rt; number == expected && job == expected);
        taken[host as usize] = expected.saturating_add(1);
    }
    taken
}

// A queue of this capacity stores so many jobs and no more; once one is taken it stores one more, and no more.
fn expect_capacity<R: Wait + Abort + AllocGlobal>(rt: &R, capacity: usize) -> Result<(), Fail>
    requires { (0 < capacity) × (capacity ≤ 65536) }
{
    let most = capacity as u64;
    let (queue, first, second, mut taker) = two_hosts(rt.alloc(), capacity)?;
    let first = store_many(rt, &queue, first, most);
    let second = store_too_much(rt, &queue, second, 0);
    assert!(rt; next(rt, &mut taker) == Some((0, 0, 0)));
    let _second = store(rt, &queue, second, 0);
    let _first = store_too_much(rt, &queue, first, most);
    Ok(())
}

#[test]
fn as_many_places_as_the_capacity(rt: HostRuntime) -> Result<(), Fail> {
    expect_capacity(&rt, 1)?;
    expect_capacity(&rt, 2)?;
    expect_capacity(&rt, 3)?;
    expect_capacity(&rt, 4)?;
    expect_capacity(&rt, 1_000)?;
    expect_capacity(&rt, 65_536)
}

// Stores so many jobs of host 0, each of which is taken before the next is stored.
fn store_and_take<R: Wait + Abort>(
    rt: &R,
    queue: &JobQueue<Job>,
    mut pass: HostPass<Job>,
    taker: &mut Taker<Job>,
    count: u64,
)
    requires { owns queue.now pass }
{
    for job in 0..count {
        pass = store(rt, queue, pass, job);
        assert!(rt; next(rt, taker) == Some((0, job, job)));
    }
}

#[test]
fn a_host_stores_more_jobs_than_a_queue_has_places(rt: HostRuntime) -> Result<(), Fail> {
    let (queue, first, _second, mut taker) = two_hosts(rt.alloc(), 4)?;
    store_and_take(&rt, &queue, first, &mut taker, 70_000);
    Ok(())
}

#[test]
fn two_threads_store_in_order(rt: HostRuntime) -> Result<(), Fail> {
    let (queue, first, second, mut taker) = two_hosts(rt.alloc(), 1000)?;
    let (first, second) = thread::join(
        &rt,
        || -> HostPass<Job>
            requires { owns queue first }
            ensures { result.table ≡ first.table }
        { store_many(&rt, &queue, first, 500) },
        || -> HostPass<Job>
            requires { owns queue second }
            ensures { result.table ≡ second.table }
        { store_many(&rt, &queue, second, 500) },
    );
    let taken = take_many(&rt, &mut taker);
    let passes = vec![in rt.alloc(); second, first]?;
    assert!(rt; is_closed(queue, passes, taker, [500, 500], [500, 500]));
    assert!(rt; taken == [500, 500]);
    Ok(())
}

// Whether a queue of two hosts is made in so many bytes; it must work then.
fn is_made<R: Wait + AllocGlobal>(rt: &R, size: usize) -> Result<bool, Fail> {
    let heap = LocalHeap::new(rt.alloc(), size)?;
    let Ok((queue, mut passes, mut taker)) = JobQueue::<Job, &LocalHeap>::new(&heap, 2, 2) else {
        return Ok(false);
    };
    let second = passes.pop().ok_or("host 1's pass")?;
    if !matches!(queue.submit(rt, second, 20), Submitted::Stored(_)) {
        return Err("there is room".into());
    }
    let QueuedJob { host, number, job } = taker.take(rt).ok_or("a job")?;
    if (host, number, job) == (1, 0, 20) {
        Ok(true)
    } else {
        Err("another job".into())
    }
}

#[test]
fn refused_memory(rt: HostRuntime) -> Result<(), Fail> {
    let mut refused: usize = 0;
    let mut made: usize = 0;
    for size in 0..64usize {
        if is_made(&rt, 16 * size)? {
            made = size + 1;
        } else {
            refused = size + 1;
        }
    }
    // Small heaps refuse, and the larger ones don't.
    assert!(rt; 0 < refused && refused < made);
    Ok(())
}
