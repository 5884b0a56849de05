//! How a job is picked: the oldest of each LUN are tried in order with one seat.
ghost use Rattle.std.specs.Prelude.{◌≡◌, ◌<◌, length, get_or, Some, None};
ghost use Rattle.micro_program.specs.Program.{Job as JobValue};
ghost use Rattle.job_queue.specs.declared.rule.QueuedJob.{QueuedJob};
ghost use Rattle.channel_work.specs.Backlog.{IsBacklog};
ghost use Rattle.channel_work.specs.Starting.{IsTried, IsTriedJob, AreTried};

use crate::backlog::{Front, find_oldest};
use job_queue::QueuedJob;
use lun_lease::{Claimed, Lease, LeaseSeat, Loaded};
use seq_core::{Core, Job};

/// What trying one job answers.
#[derive(Drop)]
pub(crate) enum TriedOnce {
    Given(Lease<Loaded>),
    Passed(LeaseSeat),
}

/// The place of the job that may be started, with the lease of its LUN; or the seat again.
#[derive(Drop)]
pub(crate) enum Tried {
    GivenAt(usize, Lease<Loaded>),
    NoneGiven(LeaseSeat),
}

/// The job that may be started, taken out of the backlog, with the lease of its LUN; or the seat again.
#[derive(Drop)]
pub(crate) enum Picked {
    Picks(QueuedJob<Job>, Lease<Loaded>),
    PicksNone(LeaseSeat),
}

// Tries to claim the LUN of a job, if that is admitted.
fn try_one(core: &Core, job: &QueuedJob<Job>, number: u32, seat: LeaseSeat) -> TriedOnce
    requires { number < 16 }
    ensures { IsTried core.now job.now number seat result }
{
    match core.admits(job.job.lun(), &job.job) {
        Err(_) => TriedOnce::Passed(seat),
        Ok(()) => match seat.claim(number) {
            Claimed::Got(lease) => TriedOnce::Given(lease.loaded()),
            Claimed::Held(seat) => TriedOnce::Passed(seat),
        },
    }
}

// Tries the job of a place, if there is one and its LUN is there.
fn try_at(
    core: &Core,
    places: &[Option<QueuedJob<Job>>],
    place: usize,
    seat: LeaseSeat,
) -> TriedOnce
    requires { place < length places.now }
    ensures { (x : QueuedJob JobValue) → get_or places.now place None ≡ Some x → IsTriedJob core.now x seat result }
{
    match &places[place] {
        None => TriedOnce::Passed(seat),
        Some(job) => match core.number(job.job.lun()) {
            None => TriedOnce::Passed(seat),
            Some(number) => try_one(core, job, number, seat),
        },
    }
}

/// Goes through the oldest jobs of the LUNs in order, until one is admitted and its LUN is given to the seat.
pub(crate) fn try_oldest(
    core: &Core,
    places: &[Option<QueuedJob<Job>>],
    fronts: &mut [Front],
    seat: LeaseSeat,
) -> Tried
    requires { IsBacklog places.now fronts.old }
    ensures backlog { IsBacklog places.now fronts.new }
    ensures tried { AreTried core.now places.now seat result }
{
    let mut back = seat;
    let mut from = 0;
    while let Some(place) = find_oldest(places, fronts, from) {
        match try_at(core, places, place, back) {
            TriedOnce::Given(lease) => return Tried::GivenAt(place, lease),
            TriedOnce::Passed(again) => back = again,
        }
        from = place + 1;
    }
    Tried::NoneGiven(back)
}
