//! How a job is started: taken from the queue, picked from the backlog and loaded.
ghost use Rattle.std.specs.Prelude.{◌≡◌, ◌+◌, ◌<◌, ◌++◌, ◌∷◌, [], None, Some, reverse, IsTrue, IsFalse, length, slice_get};
ghost use Rattle.std.specs.Vec.{vec_len, vec_capacity};
ghost use Rattle.seq_core.specs.Shows.{channel_in};
ghost use Rattle.seq_core.specs.World.{number};
ghost use Rattle.seq_core.specs.Calls.{load_fault_at};
ghost use Rattle.job_queue.specs.Rule.{IsInOrder};
ghost use Rattle.job_queue.specs.declared.rule.QueuedJob.{QueuedJob};
ghost use Rattle.micro_program.specs.Program.{Job as JobValue};
ghost use Rattle.channel_work.specs.Starting.{Took, HasLoaded};

use crate::backlog::Backlog;
use crate::events::EventLog;
use crate::stored::{Name, Stored};
use job_queue::{QueuedJob, Taker};
use lun_lease::{Lease, Loaded};
use onfi_cycle::Lun;
use seq_core::{Core, Job};
use std::sync::Wait;

/// What starting a job answers: a lease of its LUN; that none could be started, and whether one was taken; or out of memory.
#[derive(Drop)]
pub enum Started {
    Loaded(Lease<Loaded>),
    Nothing { took: bool },
    OutOfMemory,
}

/// Takes the oldest job that is queued to the end of the backlog, and tells whether there was one.
pub(crate) fn take_one<R: Wait>(
    rt: &R,
    taker: &mut Taker<Job>,
    taken: &mut Vec<Name>,
    backlog: &mut Backlog,
) -> bool
    requires taken { vec_len taken.old < vec_capacity taken.old }
    requires backlog { 0 < backlog.old.room }
    ensures yes { IsTrue result → (t : Took taker.old taker.new taken.old.items taken.new.items backlog.old.items backlog.new.items)
        × IsInOrder (taker.old.taken ++ t.job ∷ []) taker.old.hosts }
    ensures no { IsFalse result → (taker.new ≡ taker.old) × (taken.new.items ≡ taken.old.items) × (backlog.new.items ≡ backlog.old.items) }
{
    match taker.take(rt) {
        None => false,
        Some(queued) => {
            taken.push_reserved(Name {
                host: queued.host,
                number: queued.number,
            });
            backlog.push_reserved(queued);
            true
        }
    }
}

/// Makes room for one event, one started name, one taken name and one more job in the backlog, and tells whether there was memory.
pub(crate) fn make_room(
    events: &mut EventLog,
    started: &mut Vec<Name>,
    taken: &mut Vec<Name>,
    backlog: &mut Backlog,
) -> bool
    ensures same { (events.new.items ≡ events.old.items) × (started.new.items ≡ started.old.items) × (taken.new.items ≡ taken.old.items)
        × (backlog.new.items ≡ backlog.old.items) }
    ensures room { IsTrue result → (0 < events.new.room) × (vec_len started.new < vec_capacity started.new)
        × (vec_len taken.new < vec_capacity taken.new) × (0 < backlog.new.room) }
{
    events.reserve().is_ok()
        && started.reserve(1).is_ok()
        && taken.reserve(1).is_ok()
        && backlog.reserve()
}

/// Loads a job that is admitted.
pub(crate) fn load_one(
    core: &mut Core,
    events: &mut EventLog,
    started: &mut Vec<Name>,
    queued: QueuedJob<Job>,
)
    requires events { 0 < events.old.room }
    requires started { vec_len started.old < vec_capacity started.old }
    requires may { load_fault_at core.old queued.job.lun queued.job ≡ None }
    ensures { HasLoaded core.old core.new events.old.items events.new.items started.old.items started.new.items queued }
{
    let QueuedJob { host, number, job } = queued;
    let lun = job.lun();
    let name = Name { host, number };
    match core.load(lun, job) {
        Err(_) => unreachable!(),
        Ok(()) => {
            events.push_reserved(Stored::Load(lun, name));
            started.push_reserved(name);
        }
    }
}
