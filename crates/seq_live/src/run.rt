//! A list of jobs on pins.
ghost use Rattle.std.specs.Prelude.{◌≡◌, ℕ, ◌⊎◌, true, List, Option, Some, None, IfOk, IfErr, length};
ghost use Rattle.onfi_cycle.specs.declared.item.Item.{Item as ItemValue};
ghost use Rattle.std.specs.List.{list_all};
ghost use Rattle.seq_live.specs.Kept.{LiveView};
ghost use Rattle.seq_live.specs.Driven.{HasStepped};
ghost use Rattle.seq_live.specs.Jobs.{is_back, lun_of, place_on, Told, one_more, polls, Goes, StaysOn, HasTurned, NoneHad, HasNoTurn, HaveTurned, HaveStopped, IsRunFault, RunsJobs};

use crate::live::Live;
use crate::live_job::{LiveJob, OnLun};
use crate::out_of_turn::OutOfTurn;
use crate::pins::{Pins, step_on};
use onfi_cycle::{Lun, MAX_CHANNEL_LUNS};
use seq_core::{Job, Stepped};
use std::alloc::Allocator;
use std::mem;

/// How long a run on pins goes on.
#[derive(Clone, Copy, Debug, PartialEq, Eq)]
pub struct RunLimits {
    /// How many polls of one `wait` may say busy one after another. After the last of them its job is abandoned.
    pub busy_polls: u64,
    /// How many rounds are made. In each, every LUN with a job has one step.
    pub rounds: u64,
}

/// How a run on pins ended.
#[derive(Clone, Copy, Debug, PartialEq, Eq)]
pub enum RunEnd {
    /// Each job is back.
    AllBack,
    /// So many rounds were made as were allowed, and jobs still wait or run. Another run goes on with them.
    SomeLeft,
}

// The LUNs that have had their turn in a round, by their numbers.
#[derive(Clone, Copy)]
struct Turns {
    had: [bool; MAX_CHANNEL_LUNS],
}

impl Turns {
    // None has had its turn.
    fn new() -> Turns
        ensures { NoneHad result.had }
    {
        Turns {
            had: [false; MAX_CHANNEL_LUNS],
        }
    }

    // Takes the turn of a LUN, and tells whether it hadn't had it. A LUN that isn't there has no number, and always has a turn: what it does is to refuse.
    fn take(&mut self, number: Option<usize>) -> bool
        ensures { NoneHad self.old.had → result ≡ true }
    {
        match number {
            None => true,
            Some(number) => match self.had.as_mut_slice().get_mut(number) {
                None => true,
                Some(had) => !mem::replace(had, true),
            },
        }
    }
}

// Loads a job that waits, or hands it back.
fn start_job<A: Allocator>(live: &mut Live<A>, waiting: Job<A>) -> LiveJob<A>
    ensures { (most : ℕ) (pins : Option (List ItemValue)) → HasTurned most live.old live.new (LiveJob.Waiting waiting) result pins pins }
{
    let lun = waiting.lun();
    match live.load(lun, waiting) {
        Ok(()) => LiveJob::Running(OnLun { lun, busy_polls: 0 }),
        Err(refused) => LiveJob::Refused(refused),
    }
}

// Starts a job that waits.
fn start<A: Allocator>(live: &mut Live<A>, job: &mut LiveJob<A>, lun: Lun)
    requires waits { place_on job.old ≡ None }
    requires lun { lun_of job.old ≡ Some lun }
    ensures { (most : ℕ) (pins : Option (List ItemValue)) → HasTurned most live.old live.new job.old job.new pins pins }
{
    let on = OnLun { lun, busy_polls: 0 };
    match mem::replace(job, LiveJob::Running(on)) {
        LiveJob::Waiting(waiting) => *job = start_job(live, waiting),
        other => *job = other,
    }
}

// A job whose LUN has said busy once more.
fn wait_on<A: Allocator>(on: OnLun, most: u64) -> LiveJob<A>
    ensures goes { (log : List Told) → polls on.lun on.busy_polls log ≡ one_more on.busy_polls → Goes most (LiveJob.Running on) result log }
    ensures stays { StaysOn on result }
{
    let on = OnLun {
        lun: on.lun,
        busy_polls: on.busy_polls.saturating_add(1),
    };
    if on.busy_polls >= most {
        LiveJob::Abandoned(on)
    } else {
        LiveJob::Running(on)
    }
}

// Takes a job that has ended from its LUN.
fn end_job<A: Allocator>(live: &mut Live<A>, on: OnLun) -> LiveJob<A>
    ensures { (most : ℕ) (pins : Option (List ItemValue)) → HasTurned most live.old live.new (LiveJob.Running on) result pins pins }
{
    match live.unload(on.lun) {
        Ok(done) => LiveJob::Done(done),
        Err(_) => LiveJob::Running(on),
    }
}

// What becomes of a job that runs, whose step was answered so.
fn go_on<A: Allocator>(live: &mut Live<A>, on: OnLun, answer: Stepped, most: u64) -> LiveJob<A>
    ensures { (v : LiveView) (taken : List ℕ) (before after : Option (List ItemValue)) → HasStepped v on.lun taken answer live.old before after
        → HasTurned most v live.new (LiveJob.Running on) result before after }
{
    match answer {
        Stepped::Ended => end_job(live, on),
        Stepped::NotReady => wait_on(on, most),
        Stepped::Went | Stepped::HandedOver => LiveJob::Running(OnLun {
            lun: on.lun,
            busy_polls: 0,
        }),
        Stepped::Held | Stepped::Empty => LiveJob::Running(on),
    }
}

// One step of a job that runs.
fn step_job<A: Allocator, P: Pins>(
    live: &mut Live<A>,
    pins: &mut P,
    job: &mut LiveJob<A>,
    on: OnLun,
    taken: &mut [u8],
    most: u64,
) -> Result<(), OutOfTurn>
    requires { place_on job.old ≡ Some on }
    ensures ok { IfOk result (λ _. HasTurned most live.old live.new job.old job.new (P.driven pins.old) (P.driven pins.new)) }
    ensures err { IfErr result (λ e. IsRunFault live.new (length taken.old) e × (live.new ≡ live.old) × (job.new ≡ job.old) × (P.driven pins.new ≡ P.driven pins.old)) }
{
    match step_on(live, pins, on.lun, taken) {
        Err(fault) => Err(fault),
        Ok(answer) => {
            *job = go_on(live, on, answer, most);
            Ok(())
        }
    }
}

// The turn of a job that isn't back: it is started, or has one step.
fn turn_job<A: Allocator, P: Pins>(
    live: &mut Live<A>,
    pins: &mut P,
    job: &mut LiveJob<A>,
    lun: Lun,
    taken: &mut [u8],
    most: u64,
) -> Result<(), OutOfTurn>
    requires { lun_of job.old ≡ Some lun }
    ensures ok { IfOk result (λ _. HasTurned most live.old live.new job.old job.new (P.driven pins.old) (P.driven pins.new)) }
    ensures err { IfErr result (λ e. IsRunFault live.new (length taken.old) e × (live.new ≡ live.old) × (job.new ≡ job.old) × (P.driven pins.new ≡ P.driven pins.old)) }
{
    match job.place() {
        Some(on) => step_job(live, pins, job, on, taken, most),
        None => {
            start(live, job, lun);
            Ok(())
        }
    }
}

// The turn of a job whose LUN hasn't had it yet in this round.
fn turn_in_round<A: Allocator, P: Pins>(
    live: &mut Live<A>,
    pins: &mut P,
    job: &mut LiveJob<A>,
    turns: &mut Turns,
    taken: &mut [u8],
    most: u64,
) -> Result<(), OutOfTurn>
    ensures ok { IfOk result (λ _. HasTurned most live.old live.new job.old job.new (P.driven pins.old) (P.driven pins.new)
        ⊎ HasNoTurn live.old live.new job.old job.new turns.old.had turns.new.had (P.driven pins.old) (P.driven pins.new)) }
    ensures err { IfErr result (λ e. IsRunFault live.new (length taken.old) e × (live.new ≡ live.old) × (job.new ≡ job.old) × (P.driven pins.new ≡ P.driven pins.old)) }
{
    match job.lun() {
        None => Ok(()),
        Some(lun) => {
            if turns.take(live.place(lun)) {
                turn_job(live, pins, job, lun, taken, most)
            } else {
                Ok(())
            }
        }
    }
}

// A round: from the first job on, each LUN has one turn, by the first of its jobs that isn't back.
fn do_round<A: Allocator, P: Pins>(
    live: &mut Live<A>,
    pins: &mut P,
    jobs: &mut [LiveJob<A>],
    taken: &mut [u8],
    most: u64,
) -> Result<(), OutOfTurn>
    ensures ok { IfOk result (λ _. HaveTurned most live.old live.new jobs.old jobs.new (P.driven pins.old) (P.driven pins.new)) }
    ensures err { IfErr result (λ e. HaveStopped most live.old live.new jobs.old jobs.new (length taken.old) e (P.driven pins.old) (P.driven pins.new)) }
{
    let mut turns = Turns::new();
    for place in 0..jobs.len() {
        match turn_in_round(live, pins, &mut jobs[place], &mut turns, taken, most) {
            Ok(()) => {}
            Err(fault) => return Err(fault),
        }
    }
    Ok(())
}

// Each job is back.
fn are_all_back<A: Allocator>(jobs: &[LiveJob<A>]) -> bool
    ensures { result ≡ list_all is_back jobs.now }
{
    jobs.iter().all(|job| job.is_back())
}

/// Runs these jobs on pins, in rounds. In a round each LUN has one turn, by the first of its jobs that isn't back: a job that waits is loaded, or comes back as
/// `Refused`; one that runs has one step, none while another LUN has the bus, and comes back as `Done` once it has ended, or as `Abandoned` once as many polls of its `wait`
/// as are allowed have said busy one after another. Then its LUN is out of service: jobs that wait for it come back as `Refused`, and the other LUNs go on.
///
/// `taken` is where the bytes go that the chips give, as long as the longest `get` and 1 at least. Takes no memory. Errors, with the jobs as far as they are: `StepGoesOn` where a
/// step was begun and isn't finished; `NoRoom` where `taken` is too short for a LUN's next word.
pub fn run_live<A: Allocator, P: Pins>(
    live: &mut Live<A>,
    pins: &mut P,
    jobs: &mut [LiveJob<A>],
    taken: &mut [u8],
    limits: RunLimits,
) -> Result<RunEnd, OutOfTurn>
    ensures { RunsJobs limits live.old live.new jobs.old jobs.new (length taken.old) result (P.driven pins.old) (P.driven pins.new) }
{
    if live.going().is_some() {
        return Err(OutOfTurn::StepGoesOn);
    }
    for _ in 0..limits.rounds {
        if are_all_back(jobs) {
            return Ok(RunEnd::AllBack);
        }
        match do_round(live, pins, jobs, taken, limits.busy_polls) {
            Ok(()) => {}
            Err(fault) => return Err(fault),
        }
    }
    if are_all_back(jobs) {
        Ok(RunEnd::AllBack)
    } else {
        Ok(RunEnd::SomeLeft)
    }
}
