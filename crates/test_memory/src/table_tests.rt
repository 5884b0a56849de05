//! Tables of leases and queues of jobs.
ghost use Rattle.std.specs.Prelude.{◌≡◌, IfOk};
ghost use Rattle.job_queue.specs.Passes.{owns};

use crate::turns::{Call, Memory, refuse_in_turn};
use job_queue::{HostPass, JobQueue, Submitted, Taker};
use lun_lease::{Claimed, Lease, LeaseSeat, LeaseTable, Loaded};
use std::process::Abort;
use std::sync::Wait;
use std::test::Fail;
use test_heap::{Refusal, TestHeap};

// A new table of leases.
#[derive(Clone, Copy)]
struct NewTable;

impl Call for NewTable {
    fn spares(&self) -> u64 {
        0
    }

    fn make(&self, heap: Memory<'_>, refusal: Refusal) -> Result<bool, Fail> {
        heap.refuse(refusal);
        match LeaseTable::new(heap) {
            Ok(seats) => if seats.len() == 16 {
                Ok(false)
            } else {
                Err("sixteen seats".into())
            },
            Err(_) => Ok(true),
        }
    }
}

// A new queue of two hosts.
#[derive(Clone, Copy)]
struct NewQueue;

impl Call for NewQueue {
    fn spares(&self) -> u64 {
        0
    }

    fn make(&self, heap: Memory<'_>, refusal: Refusal) -> Result<bool, Fail> {
        heap.refuse(refusal);
        match JobQueue::<u64, Memory<'_>>::new(heap, 2, 2) {
            Ok((_queue, passes, _taker)) => {
                if passes.len() == 2 {
                    Ok(false)
                } else {
                    Err("two passes".into())
                }
            }
            Err(_) => Ok(true),
        }
    }
}

#[test]
fn tables(rt: HostRuntime) -> Result<(), Fail> {
    assert!(rt; refuse_in_turn(rt.alloc(), &NewTable)? > 0);
    assert!(rt; refuse_in_turn(rt.alloc(), &NewQueue)? > 0);
    Ok(())
}

// A seat of a table on a heap.
type Seat<'h> = LeaseSeat<Memory<'h>>;

// Two seats of a new table.
fn two_seats<'h>(heap: Memory<'h>) -> Result<(Seat<'h>, Seat<'h>), Fail> {
    let mut seats = LeaseTable::new(heap)?;
    match (seats.pop(), seats.pop()) {
        (Some(Some(first)), Some(Some(second))) => Ok((first, second)),
        _ => Err("two seats".into()),
    }
}

// A LUN that is held is refused to the second seat, and is free once it is released.
fn frees(lease: Lease<Loaded, Memory<'_>>, second: Seat<'_>) -> bool {
    let is_third = lease.lun() == 3;
    match second.claim(3) {
        Claimed::Got(_) => false,
        Claimed::Held(second) => {
            let _first = lease.idle().release();
            is_third && matches!(second.claim(3), Claimed::Got(_))
        }
    }
}

// The first seat claims LUN 3, and releases it.
fn claims_and_frees(first: Seat<'_>, second: Seat<'_>) -> bool {
    match first.claim(3) {
        Claimed::Got(lease) => frees(lease.loaded(), second),
        Claimed::Held(_) => false,
    }
}

// With all requests refused a LUN is claimed and released as with ample memory, and none is made.
#[test]
fn claims_take_no_memory(rt: HostRuntime) -> Result<(), Fail> {
    let heap = TestHeap::new(rt.alloc());
    let (first, second) = two_seats(&heap)?;
    heap.refuse(Refusal::Always);
    let is_freed = claims_and_frees(first, second);
    assert!(rt; is_freed && heap.refused() == 0);
    Ok(())
}

// A queue of two hosts on a heap, with the pass of host 1 and the taker.
type Opened<'h> = (
    JobQueue<u64, Memory<'h>>,
    HostPass<u64>,
    Taker<u64, Memory<'h>>,
);

fn open_queue<'h>(heap: Memory<'h>) -> Result<Opened<'h>, Fail>
    ensures { IfOk result (λ r. owns r.0 r.1) }
{
    let (queue, mut passes, taker) = JobQueue::<u64, Memory<'h>>::new(heap, 2, 2)?;
    match passes.pop() {
        Some(pass) => Ok((queue, pass, taker)),
        None => Err("host 1's pass".into()),
    }
}

// Two jobs are stored, and a third comes back.
fn stores_two<R: Wait>(rt: &R, queue: &JobQueue<u64, Memory<'_>>, pass: HostPass<u64>) -> bool
    requires { owns queue.now pass }
{
    let Submitted::Stored(pass) = queue.submit(rt, pass, 20) else {
        return false;
    };
    let Submitted::Stored(pass) = queue.submit(rt, pass, 21) else {
        return false;
    };
    matches!(queue.submit(rt, pass, 22), Submitted::Full(_, 22))
}

// The job that is taken next: its host, its number and itself.
fn take_next<R: Wait>(rt: &R, taker: &mut Taker<u64, Memory<'_>>) -> Option<(u32, u64, u64)> {
    match taker.take(rt) {
        Some(job) => Some((job.host, job.number, job.job)),
        None => None,
    }
}

// The two jobs are taken, and no third.
fn takes_two<R: Wait>(rt: &R, taker: &mut Taker<u64, Memory<'_>>) -> bool {
    let first = take_next(rt, taker);
    let second = take_next(rt, taker);
    let third = take_next(rt, taker);
    first == Some((1, 0, 20)) && second == Some((1, 1, 21)) && third.is_none()
}

// With all requests refused jobs are stored and taken as with ample memory, and none is made.
#[test]
fn jobs_take_no_memory(rt: HostRuntime) -> Result<(), Fail> {
    let heap = TestHeap::new(rt.alloc());
    let (queue, pass, mut taker) = open_queue(&heap)?;
    heap.refuse(Refusal::Always);
    let stores = stores_two(&rt, &queue, pass);
    let takes = takes_two(&rt, &mut taker);
    assert!(rt; stores && takes && heap.refused() == 0);
    Ok(())
}
