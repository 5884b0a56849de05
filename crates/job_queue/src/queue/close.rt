// The end of a queue: each host's pass is taken in, and compared with what was taken.
ghost use Rattle.std.specs.Prelude.{◌≡◌, ◌<◌, ◌==◌, IfOk, IfErr, IsTrue, IsFalse};
ghost use Rattle.std.specs.List.{All, list_any};
ghost use Rattle.job_queue.specs.Passes.{owns, owns_taker};
ghost use Rattle.job_queue.specs.Closed.{HasEachPass, MissesPass, IsTally};
ghost use Rattle.job_queue.specs.Holding.{IsTaking, jobs_of, hosts_of, IsBeginning};
ghost use Rattle.crossbeam_queue.specs.Passes.{IsPassOf, view};

use super::{HostPass, JobQueue, Ring, Taker, Tally};
use crate::rule::{Hosts, QueuedJob, Settles, View};
use crossbeam_queue::Pass;
use std::alloc::{Allocator, Global};

/// A queue that isn't ended, since some host's pass is missing: all that was handed over, as it was.
#[derive(Drop)]
pub struct CloseRefused<J, A: Allocator = Global> {
    pub queue: JobQueue<J, A>,
    pub passes: Vec<HostPass<J>, A>,
    pub taker: Taker<J, A>,
}

impl<J: Drop, A: Allocator> JobQueue<J, A> {
    /// Ends the queue, once every host's pass has come back, and tells how many jobs each host stored and how many
    /// of them were taken. Of each host these are its first ones. Jobs that are left are dropped. It takes no memory.
    ///
    /// # Errors
    ///
    /// Fault Q1, some host's pass is missing: all comes back as it was.
    pub fn close(
        self,
        mut passes: Vec<HostPass<J>, A>,
        taker: Taker<J, A>,
    ) -> Result<Tally<A>, CloseRefused<J, A>>
        requires passes { All (λ p. owns self p) passes.items }
        requires taker { owns_taker self taker }
        ensures ok { IfOk result (λ t. HasEachPass passes.items self.hosts
            × IsTally t.put.items t.taken.items passes.items taker.taken self.hosts) }
        ensures err { IfErr result (λ r. MissesPass passes.items self.hosts × (r.queue ≡ self)
            × (r.passes.items ≡ passes.items) × (r.taker ≡ taker)) }
    {
        if !has_each_pass(passes.as_slice(), self.hosts) {
            return Err(CloseRefused {
                queue: self,
                passes,
                taker,
            });
        }
        let Taker {
            ring,
            mut pass,
            hosts: _,
            mut tally,
        } = taker;
        while let Some(host_pass) = passes.pop() {
            let host = host_pass.host as usize;
            let stored = host_pass.next;
            take_in(&ring, &mut pass, host_pass);
            tally.put[host] = stored;
        }
        Ok(tally)
    }
}

// Whether each host has a pass among these.
fn has_each_pass<J>(passes: &[HostPass<J>], hosts: u32) -> bool
    ensures yes { IsTrue result → HasEachPass passes.now hosts }
    ensures no { IsFalse result → MissesPass passes.now hosts }
{
    for host in 0..hosts {
        if !has_pass(passes, host) {
            return false;
        }
    }
    true
}

// Whether a host has a pass among these.
fn has_pass<J>(passes: &[HostPass<J>], host: u32) -> bool
    ensures { result ≡ list_any (λ p. p.host == host) passes.now }
{
    passes.iter().any(|pass| pass.host == host)
}

// The taker takes a host's pass in, and learns what was taken of it.
fn take_in<J, A: Allocator>(
    ring: &Ring<J, A>,
    taker: &mut Pass<QueuedJob<J>, View<J>>,
    host_pass: HostPass<J>,
)
    requires taker { IsPassOf ring.now taker.old × IsTaking (view taker.old) }
    requires pass { host_pass.table ≡ ring.now.table.shared.table_id }
    ensures taker { IsPassOf ring.now taker.new × IsTaking (view taker.new) }
    ensures same { (jobs_of (view taker.new) ≡ jobs_of (view taker.old)) × (hosts_of (view taker.new) ≡ hosts_of (view taker.old)) }
    ensures host { host_pass.host < hosts_of (view taker.old) }
    ensures begins { IsBeginning host_pass.host host_pass.stored (jobs_of (view taker.old)) }
{
    let HostPass {
        pass,
        host: _,
        next: _,
    } = host_pass;
    ring.absorb::<Hosts>(taker, pass);
    ring.learn_as::<Settles>(taker);
}
