// The queue, the hosts' passes and the taker.
ghost use Rattle.std.specs.Prelude.{◌≡◌, ◌↔◌, ◌<◌, ◌≤◌, ◌==◌, [], ◌∷◌, ◌++◌, IfOk, OnOk, IfSome, IfNone, ◌^◌, ◌-◌, ◌+◌, true};
ghost use Rattle.std.specs.List.{list_all};
ghost use Rattle.job_queue.specs.Passes.{owns, AreNew};
ghost use Rattle.job_queue.specs.Rule.{TakesNext};

use crate::rule::{Hosts, QueueRule, QueuedJob, Stores, Takes, View};
use crossbeam_queue::{Pass, RuledArrayQueue};
use std::alloc::{AllocError, Allocator, Global};
use std::marker::Model;
use std::sync::{Arc, Wait};

mod close;

pub use close::CloseRefused;

type Ring<J, A> = RuledArrayQueue<QueuedJob<J>, View<J>, QueueRule, A>;

// A pass that has stored so many jobs stores no more.
const MOST_STORED: u64 = 1 << 62;

/// A queue of jobs.
#[derive(Drop)]
pub struct JobQueue<J, A: Allocator = Global> {
    ring: Arc<Ring<J, A>, A>,
    hosts: u32,
}

impl<J, A: Allocator> Model for JobQueue<J, A> {
    ghost use Rattle.job_queue.specs.Passes.{Queue};

    ghost Value = { Queue };

    ghost view = { λ q. record { table = q.ring.value.table.shared.table_id; hosts = q.hosts } };
}

/// A host's right to store jobs.
#[derive(Drop)]
pub struct HostPass<J> {
    pass: Pass<QueuedJob<J>, View<J>>,
    host: u32,
    next: u64,
}

impl<J> Model for HostPass<J> {
    ghost use Rattle.job_queue.specs.Passes.{Storing};
    ghost use Rattle.job_queue.specs.Holding.{IsHostPass, stored_of};

    ghost Value = { Storing J };

    ghost view = { λ p. record { table = p.pass.table_id; host = p.host; stored = stored_of p.pass } };

    ghost invariant = { λ p. IsHostPass p.pass p.host p.next };
}

/// How many jobs each host stored, and how many of them were taken: a number for each host, from host 0.
#[derive(Drop)]
pub struct Tally<A: Allocator = Global> {
    pub put: Vec<u64, A>,
    pub taken: Vec<u64, A>,
}

/// The right to take jobs, which shares the queue.
#[derive(Drop)]
pub struct Taker<J, A: Allocator = Global> {
    ring: Arc<Ring<J, A>, A>,
    pass: Pass<QueuedJob<J>, View<J>>,
    hosts: u32,
    // What was taken stands in it from the first job on, what was put once the queue is closed.
    tally: Tally<A>,
}

impl<J, A: Allocator> Model for Taker<J, A> {
    ghost use Rattle.std.specs.Prelude.{◌≡◌};
    ghost use Rattle.job_queue.specs.Passes.{Taking};
    ghost use Rattle.job_queue.specs.Holding.{IsTakerPass, taken_of};

    ghost Value = { Taking J };

    ghost view = { λ t. record { table = t.pass.table_id; hosts = t.hosts; taken = taken_of t.pass } };

    ghost invariant = { λ t. (t.pass.table_id ≡ t.ring.value.table.shared.table_id) × IsTakerPass t.pass t.hosts t.tally.put.items t.tally.taken.items };
}

/// What storing a job answers: the pass, which has stored it, or the pass and the job again.
#[derive(Drop)]
pub enum Submitted<J> {
    Stored(HostPass<J>),
    Full(HostPass<J>, J),
}

impl<J, A: Allocator> JobQueue<J, A> {
    ghost use Rattle.job_queue.specs.Submitted.{IsAnswer};

    /// Stores a job after the others, under its host's next number, the first of which is 0. A full queue gives it
    /// back and uses no number; so does a pass that has stored 2^62 jobs.
    pub fn submit<R: Wait>(&self, rt: &R, pass: HostPass<J>, job: J) -> Submitted<J>
        requires { owns self.now pass }
        ensures { IsAnswer pass job result }
    {
        let HostPass {
            mut pass,
            host,
            next,
        } = pass;
        if next >= MOST_STORED {
            return Submitted::Full(HostPass { pass, host, next }, job);
        }
        let queued = QueuedJob {
            host,
            number: next,
            job,
        };
        match self.ring.push_as::<Stores, R>(rt, &mut pass, queued) {
            Ok(()) => Submitted::Stored(HostPass {
                pass,
                host,
                next: next + 1,
            }),
            Err(back) => Submitted::Full(HostPass { pass, host, next }, back.job),
        }
    }
}

impl<J: Drop, A: Allocator + Clone> JobQueue<J, A> {
    /// A queue for so many jobs, with a pass for each host, the first of which is host 0, and its taker; or
    /// `AllocError` where memory is refused.
    pub fn new(
        alloc: A,
        capacity: usize,
        hosts: u32,
    ) -> Result<(JobQueue<J, A>, Vec<HostPass<J>, A>, Taker<J, A>), AllocError>
        requires capacity { (0 < capacity) × (capacity ≤ 65536) }
        requires hosts { (0 < hosts) × (hosts ≤ 16) }
        ensures queue { IfOk result (λ r. r.0.hosts ≡ hosts) }
        ensures passes { IfOk result (λ r. AreNew r.0 r.1.items hosts) }
        ensures taker { IfOk result (λ r. r.2 ≡ record { table = r.0.table; hosts = hosts; taken = [] }) }
    {
        let (queue, mut taker) = JobQueue::opened(alloc.clone()?, capacity, hosts)?;
        let mut passes = Vec::new(alloc);
        for _ in 0..hosts {
            passes.push(taker.next_host()?)?;
        }
        Ok((queue, passes, taker))
    }

    // A queue, and a taker that has made no host yet.
    fn opened(
        alloc: A,
        capacity: usize,
        hosts: u32,
    ) -> Result<(JobQueue<J, A>, Taker<J, A>), AllocError>
        requires capacity { 0 < capacity }
        ensures queue { IfOk result (λ r. r.0.hosts ≡ hosts) }
        ensures taker { IfOk result (λ r. r.1 ≡ record { table = r.0.table; hosts = 0; taken = [] }) }
    {
        let (ring, pass) = Ring::ruled(alloc.clone()?, capacity)?;
        let ring = Arc::new(alloc.clone()?, ring)?;
        let taker = Taker {
            ring: Arc::try_clone(&ring)?,
            pass,
            hosts: 0,
            tally: Tally {
                put: Vec::new(alloc.clone()?),
                taken: Vec::new(alloc),
            },
        };
        Ok((JobQueue { ring, hosts }, taker))
    }
}

// Each number is 0.
fn all_are_zero(numbers: &[u64]) -> bool
    ensures { result ≡ list_all (λ n. n == 0) numbers.now }
{
    numbers.iter().all(|number| *number == 0)
}

impl<J, A: Allocator> Taker<J, A> {
    // The pass of the next host.
    fn next_host(&mut self) -> Result<HostPass<J>, AllocError>
        requires { self.old.hosts < 2 ^ 32 - 1 }
        ensures ok { IfOk result (λ p. p ≡ record { table = self.old.table; host = self.old.hosts; stored = [] }) }
        ensures made { OnOk result (self.new ≡ record self.old { hosts = self.old.hosts + 1 }) }
    {
        self.tally.put.reserve(1)?;
        self.tally.taken.push(0)?;
        self.tally.put.push_reserved(0);
        let pass = self.ring.another::<Hosts>(&mut self.pass);
        let host = self.hosts;
        self.hosts += 1;
        Ok(HostPass {
            pass,
            host,
            next: 0,
        })
    }

    /// No job was taken.
    pub fn is_fresh(&self) -> bool
        ensures { result ≡ true ↔ self.now.taken ≡ [] }
    {
        all_are_zero(self.tally.taken.as_slice())
    }

    /// Takes the oldest job that is queued, if there is one.
    pub fn take<R: Wait>(&mut self, rt: &R) -> Option<QueuedJob<J>>
        ensures some { IfSome result (λ x. self.new ≡ record self.old { taken = self.old.taken ++ x ∷ [] }) }
        ensures none { IfNone result (self.new ≡ self.old) }
        ensures next { IfSome result (λ x. TakesNext self.old.taken x self.old.hosts) }
    {
        let queued = self.ring.pop_as::<Takes, R>(rt, &mut self.pass)?;
        self.tally.taken[queued.host as usize] = queued.number + 1;
        Some(queued)
    }
}
