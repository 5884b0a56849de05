//! Running what was planned: the queue of jobs, the channel, its hosts and its workers.
ghost use Rattle.std.specs.Prelude.{◌≡◌, ◌≤◌, ◌-◌, min, max, [], Some, IfOk, OnOk, length, slice_index_or};
ghost use Rattle.std.specs.List.{All};
ghost use Rattle.seq_core.specs.World.{fresh};
ghost use Rattle.seq_core.specs.Shows.{IsAt, channel_in};
ghost use Rattle.job_queue.specs.Passes.{owns, owns_taker, AreNew};
ghost use Rattle.channel_work.specs.Origin.{IsFrom};
ghost use Rattle.run_plan.specs.Planned.{planned_outputs, jobs_of};
ghost use Rattle.seq_run.specs.Written.{ended_outputs};
ghost use Rattle.seq_run.specs.Hosted.{IsOpen, origin_of, StoredTheirs, TookBelow};
ghost use Rattle.seq_run.specs.Happened.{IsBusOf, HasWorked, HasRun};
ghost use Rattle.seq_run.specs.Runs.{HappenedAsPlanned};

use crate::gate::RunGate;
use crate::hosts::{Host, StoredAll, run_hosts};
use crate::job_ends::{EndedJob, end_jobs};
use crate::run_name::RunName;
use crate::workers::{Back, run_beside};
use channel_work::{Channel, ChannelState, Gathered, NamedJob, Seats, Turns, WorkerPass};
use job_queue::{HostPass, JobQueue, Taker, Tally};
use lun_lease::LeaseTable;
use nand_geometry::Geometry;
use run_plan::{PlannedImage, PlannedJobs, RunPlan, TargetJobs};
use seq_core::{Core, Job};
use std::alloc::{AllocError, Global};
use std::marker::Brand;
use std::sync::Wait;
use std::sync::ledger::Blank;
use std::thread::Threads;
use target_bus::Bus;

// The places of a queue beside several workers.
const PLACES: usize = 4;

// The most places of a queue.
const MOST_PLACES: usize = 65_536;

/// What became of a run: the bus, and each job after its end.
#[derive(Drop)]
pub(crate) struct Ran<'a> {
    pub bus: Bus,
    pub images: Vec<PlannedImage<'a>>,
    pub jobs: Vec<EndedJob<'a>>,
}

// A queue of jobs with its passes and its taker.
#[derive(Drop)]
struct OpenQueue {
    queue: JobQueue<Job>,
    passes: Vec<HostPass<Job>>,
    taker: Taker<Job>,
}

// What workers have left of a channel, once all jobs are done.
#[derive(Drop)]
struct Worked {
    core: Core,
    done: Vec<NamedJob>,
}

// How many jobs the hosts have.
fn count_jobs(by_target: &[TargetJobs]) -> usize {
    let mut count: usize = 0;
    for target in by_target {
        count = count.saturating_add(target.jobs.len());
    }
    count
}

// How many places the queue has: one for each job where a worker alone comes after the hosts, and one at least.
fn count_places(by_target: &[TargetJobs], is_alone: bool) -> usize
    ensures { (1 ≤ result) × (result ≤ 65536) }
{
    if is_alone {
        count_jobs(by_target).clamp(1, MOST_PLACES)
    } else {
        PLACES
    }
}

// A queue with so many places and a pass for each host.
fn open_queue(alloc: Global, places: usize, hosts: u32) -> Result<OpenQueue, AllocError>
    requires places { (1 ≤ places) × (places ≤ 65536) }
    requires hosts { (1 ≤ hosts) × (hosts ≤ 16) }
    ensures { IfOk result IsOpen }
{
    let (queue, passes, taker) = JobQueue::<Job>::new(alloc, places, hosts)?;
    Ok(OpenQueue {
        queue,
        passes,
        taker,
    })
}

// The hosts of a run: those that have jobs, and the passes of those that have none.
#[derive(Drop)]
struct Hosts<'q, L: RunName> {
    busy: Vec<Host<'q, L>>,
    idle: Vec<StoredAll<L>>,
}

// Adds the host of this pass.
fn add_host<'q, L: RunName>(
    hosts: &mut Hosts<'q, L>,
    queue: &'q JobQueue<Job>,
    pass: HostPass<Job>,
    jobs: Vec<Job>,
) -> Result<(), AllocError>
    requires owned { owns queue.now pass }
    requires table { pass.table ≡ L.table }
    requires none { pass.stored ≡ [] }
    requires its_jobs { jobs.items ≡ slice_index_or L.jobs pass.host [] }
{
    if jobs.is_empty() {
        hosts.idle.push(StoredAll::nothing(pass))?;
    } else {
        hosts.busy.push(Host::new(queue, pass, jobs))?;
    }
    Ok(())
}

// The hosts of a queue, one for each target, with their passes and their jobs.
fn make_hosts<'q, L: RunName>(
    alloc: Global,
    queue: &'q JobQueue<Job>,
    passes: Vec<HostPass<Job>>,
    by_target: Vec<TargetJobs>,
) -> Result<Hosts<'q, L>, AllocError>
    requires passes { AreNew queue.now passes.items queue.now.hosts }
    requires table { L.table ≡ queue.now.table }
    requires jobs { L.jobs ≡ jobs_of by_target.items }
    ensures { OnOk result (length L.jobs ≡ queue.now.hosts) }
{
    if passes.len() != by_target.len() {
        return Err(AllocError);
    }
    let mut passes = passes;
    let mut by_target = by_target;
    let mut hosts = Hosts {
        busy: Vec::new(alloc),
        idle: Vec::new(alloc),
    };
    while let Some(target) = by_target.pop() {
        let Some(pass) = passes.pop() else {
            return Err(AllocError);
        };
        add_host(&mut hosts, queue, pass, target.jobs)?;
    }
    Ok(hosts)
}

// A pass for each of so many workers, one at least, as far as the channel has them.
fn make_passes<L: Turns>(
    alloc: Global,
    state: &mut ChannelState<L>,
    workers: u8,
) -> Result<Vec<WorkerPass<L>>, AllocError>
    requires { L.all ≡ 9 }
    ensures { IfOk result (λ passes. length passes.items ≡ min (max workers 1) (8 - state.old.passes)) }
{
    let wanted = usize::from(workers.max(1));
    let mut passes = Vec::new(alloc);
    'passes: while passes.len() < wanted {
        let Some(pass) = state.worker() else {
            return Ok(passes);
        };
        passes.push(pass)?;
    }
    Ok(passes)
}

// Runs hosts and workers on a channel. One worker alone begins once the hosts have stored all their jobs.
fn run_threads<L: RunName + Send + Sync, R: Threads + Wait + Sync>(
    rt: &R,
    alloc: Global,
    channel: &Channel<L>,
    gate: &RunGate,
    hosts: Vec<Host<'_, L>>,
    passes: Vec<WorkerPass<L>>,
) -> Back<L> {
    if passes.len() > 1 {
        return run_beside(rt, alloc, channel, gate, hosts, passes);
    }
    let hosts = run_hosts(rt, alloc, hosts, gate);
    let alone = run_beside(rt, alloc, channel, gate, Vec::new(alloc), passes);
    Back {
        workers: alone.workers,
        hosts,
    }
}

// A channel on which nothing has happened.
fn open_channel<L: Turns>(
    alloc: Global,
    blank: Blank,
    core: Core,
    taker: Taker<Job>,
) -> Result<ChannelState<L>, AllocError>
    requires name { blank.name ≡ L.name }
    requires parts { (blank.parts ≡ L.parts) × (L.all ≡ L.parts) × (L.parts ≡ 9) }
    requires core { IsAt core (fresh (channel_in core)) }
    requires taker { taker.taken ≡ [] }
    requires from { IsFrom L.origin core taker }
    ensures { IfOk result (λ state. state.passes ≡ 0) }
{
    let seats = Seats::of(LeaseTable::new(alloc)?);
    Ok(ChannelState::new(alloc, blank, core, taker, seats))
}

// What is left of a channel whose workers have ended, once each pass is back.
#[tactic(auto, using(crate::proofs::Happening::has_worked))]
fn gather_all<L: Turns>(
    state: ChannelState<L>,
    passes: Vec<WorkerPass<L>>,
) -> Result<Gathered, AllocError>
    requires { L.all ≡ L.parts }
    ensures worked { IfOk result HasWorked }
    ensures from { IfOk result (λ left. IsFrom L.origin left.core left.taker) }
{
    // Its contract says that the history is lawful, which what is gathered keeps.
    let _lawful = state.trace();
    match state.gather(passes) {
        Ok(gathered) => Ok(gathered),
        Err(_) => Err(AllocError),
    }
}

// Adds the passes of hosts that have stored all their jobs.
#[tactic(auto, using(crate::proofs::Hosting::all_more))]
fn add_passes<L: RunName>(
    passes: &mut Vec<HostPass<Job>>,
    hosts: Vec<StoredAll<L>>,
) -> Result<(), AllocError>
    requires { All (StoredTheirs L.table L.jobs) passes.old.items }
    ensures { OnOk result (All (StoredTheirs L.table L.jobs) passes.new.items) }
{
    for host in hosts {
        passes.push(host.into_pass())?;
    }
    Ok(())
}

// Ends a queue whose hosts have stored all their jobs, where each of them was taken.
fn close_queue<L: RunName>(
    alloc: Global,
    queue: JobQueue<Job>,
    hosts: Vec<StoredAll<L>>,
    idle: Vec<StoredAll<L>>,
    taker: Taker<Job>,
) -> Result<(), AllocError>
    requires table { L.table ≡ queue.table }
    requires taker { owns_taker queue taker }
    ensures { OnOk result (TookBelow queue.hosts taker.taken L.jobs) }
{
    let mut passes = Vec::new(alloc);
    add_passes(&mut passes, hosts)?;
    add_passes(&mut passes, idle)?;
    match queue.close(passes, taker) {
        Err(_) => Err(AllocError),
        Ok(Tally { put, taken }) => {
            if put.as_slice() == taken.as_slice() {
                Ok(())
            } else {
                Err(AllocError)
            }
        }
    }
}

// Runs the jobs of hosts on a channel, until all of them are done.
fn run_channel<L: RunName + Send + Sync, R: Threads + Wait + Sync>(
    rt: &R,
    alloc: Global,
    blank: Blank,
    core: Core,
    gate: &RunGate,
    queue: OpenQueue,
    by_target: Vec<TargetJobs>,
    workers: u8,
) -> Result<Worked, AllocError>
    requires name { blank.name ≡ L.name }
    requires parts { (blank.parts ≡ L.parts) × (L.all ≡ L.parts) × (L.parts ≡ 9) }
    requires core { IsAt core (fresh (channel_in core)) }
    requires queue { IsOpen queue }
    requires origin { L.origin ≡ Some (origin_of core queue.queue) }
    requires table { L.table ≡ queue.queue.table }
    requires jobs { L.jobs ≡ jobs_of by_target.items }
    ensures { IfOk result (HasRun (channel_in core) (jobs_of by_target.items)) }
{
    let OpenQueue {
        queue,
        passes,
        taker,
    } = queue;
    let Hosts { busy, idle } = make_hosts::<L>(alloc, &queue, passes, by_target)?;
    let mut state = open_channel::<L>(alloc, blank, core, taker)?;
    let passes = make_passes(alloc, &mut state, workers)?;
    let channel = Channel::new(state);
    let Back { workers, hosts } = run_threads(rt, alloc, &channel, gate, busy, passes);
    let Gathered {
        core,
        taker,
        done,
        ..
    } = gather_all(channel.into_state(), workers)?;
    close_queue(alloc, queue, hosts, idle, taker)?;
    Ok(Worked { core, done })
}

// The bus of a sequencer that has lain under a lock, where it is of this channel; it always is.
fn take_bus(core: Core, geometry: Geometry, targets: u8) -> Result<Bus, AllocError>
    ensures channel { IfOk result (λ bus. (bus.geometry ≡ geometry) × (bus.targets ≡ targets)) }
    ensures bus { IfOk result (λ bus. IsBusOf core bus) }
{
    let bus = core.into_bus();
    if bus.geometry() == geometry && bus.targets() == targets {
        Ok(bus)
    } else {
        Err(AllocError)
    }
}

/// Runs what was planned. Where memory is refused or a thread can't be started, nothing comes of it.
pub(crate) fn run_as_planned<'a, R: Threads + Wait + Sync>(
    rt: &R,
    alloc: Global,
    plan: RunPlan<'a>,
    workers: u8,
) -> Result<Ran<'a>, AllocError>
    ensures channel { IfOk result (λ ran. (ran.bus.geometry ≡ plan.entry.dies.geometry) × (ran.bus.targets ≡ plan.entry.dies.targets)) }
    ensures jobs { IfOk result (λ ran. ended_outputs ran.jobs.items ≡ planned_outputs plan.entry.jobs.all.items) }
    ensures images { IfOk result (λ ran. ran.images ≡ plan.entry.images) }
    ensures happened { IfOk result (λ ran. HappenedAsPlanned plan.entry ran.bus ran.jobs.items) }
{
    let RunPlan {
        dies,
        images,
        jobs,
        polls,
        times: _,
        fails,
    } = plan;
    let PlannedJobs {
        by_target,
        places,
        all,
        ..
    } = jobs;
    let (geometry, targets) = (dies.geometry(), dies.targets());
    let gate = RunGate::new(polls, fails);
    let core = dies.into_core(alloc)?;
    let queue_places = count_places(by_target.as_slice(), workers <= 1);
    let queue = open_queue(alloc, queue_places, u32::from(targets))?;
    let Worked { core, done } = run_channel::<Brand, R>(
        rt,
        alloc,
        Blank::new(9),
        core,
        &gate,
        queue,
        by_target,
        workers,
    )?;
    if gate.is_stopped() {
        return Err(AllocError);
    }
    let bus = take_bus(core, geometry, targets)?;
    let jobs = end_jobs(alloc, all.as_slice(), places.as_slice(), done)?;
    Ok(Ran { bus, images, jobs })
}
