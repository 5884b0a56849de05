//! What a run file comes to: the dies of the channel, the jobs of each target, and what is told of readies.

ghost use Rattle.std.specs.Prelude.{◌≡◌, ◌+◌, ◌≤◌, [], ◌∷◌, ◌++◌, IfOk, OnOk};
ghost use Rattle.std.specs.Option.{option_copied};
ghost use Rattle.run_plan.specs.Planned.{planned_outputs, planned_names, jobs_of};
ghost use Rattle.run_plan.specs.Setup.{erased, ArePlanned, PlansMore, HaveNoJobs, IsJobPushed};
ghost use Rattle.run_plan.specs.Plans.{HasSetUp};
ghost use Rattle.run_plan.specs.Steps.{capped, steps_of};

use crate::dies::ChannelDies;
use crate::failing::Failing;
use crate::polls::Polls;
use crate::steps::count_steps;
use channel_work::Name;
use nand_geometry::Geometry;
use seq_core::Job;
use seq_inputs::CountedHeader;
use std::alloc::{AllocError, Global};
use trace_timing::PageTimes;

/// The image of a die, which is written after the run.
#[derive(Clone, Copy, Debug)]
pub struct PlannedImage<'a> {
    /// The number of the die among those of the channel.
    pub number: usize,
    pub path: &'a str,
}

/// The jobs of a target in the order of the file.
#[derive(Drop)]
pub struct TargetJobs {
    pub jobs: Vec<Job>,
}

/// A job by its place among all jobs: the name under which it is stored, by the host of its target, and where its buffer goes after the end.
#[derive(Clone, Copy, Debug)]
pub struct PlannedJob<'a> {
    pub name: Name,
    pub output: Option<&'a str>,
    /// The line of the run file that names it.
    pub line: usize,
    /// How many words it and the jobs before it step at most, all together.
    pub steps: u64,
    /// The header that was counted for its program, if one was.
    pub counted: Option<CountedHeader<'a>>,
}

/// The jobs of a run.
#[derive(Drop)]
pub struct PlannedJobs<'a> {
    /// Those of each target.
    pub by_target: Vec<TargetJobs>,
    /// The places of each target's jobs among all of them.
    pub places: Vec<Vec<usize>>,
    /// All of them.
    pub all: Vec<PlannedJob<'a>>,
    /// How many bytes their buffers have.
    pub buffer_bytes: u64,
    /// How many words they step at most, all together.
    pub steps: u64,
}

/// What a run file comes to.
#[derive(Drop)]
pub struct RunPlan<'a> {
    pub dies: ChannelDies,
    pub images: Vec<PlannedImage<'a>>,
    pub jobs: PlannedJobs<'a>,
    pub polls: Polls,
    /// The times that the parameter page declares.
    pub times: PageTimes,
    pub fails: Vec<Failing>,
}

// So many targets without jobs.
#[tactic(auto, using(crate::proofs::JobPlans::none_more))]
fn make_targets(alloc: Global, targets: u8) -> Result<Vec<TargetJobs>, AllocError>
    ensures { IfOk result (λ made. HaveNoJobs (jobs_of made.items)) }
{
    let mut made = Vec::new(alloc);
    for _ in 0..targets {
        made.push(TargetJobs {
            jobs: Vec::new(alloc),
        })?;
    }
    Ok(made)
}

// So many targets without places.
fn make_places(alloc: Global, targets: u8) -> Result<Vec<Vec<usize>>, AllocError> {
    let mut made = Vec::new(alloc);
    for _ in 0..targets {
        made.push(Vec::new(alloc))?;
    }
    Ok(made)
}

// Adds a job to those of a target, and tells how many that has before it.
fn push_to_target(
    by_target: &mut Vec<TargetJobs>,
    target: usize,
    job: Job,
) -> Result<u64, AllocError>
    ensures { IfOk result (IsJobPushed target job (jobs_of by_target.old.items) (jobs_of by_target.new.items)) }
{
    if target >= by_target.len() {
        return Err(AllocError);
    }
    let number = by_target[target].jobs.len() as u64;
    by_target[target].jobs.push(job)?;
    Ok(number)
}

// Adds the place of a job to those of a target.
fn push_place(places: &mut Vec<Vec<usize>>, target: usize, place: usize) -> Result<(), AllocError> {
    if target < places.len() {
        places[target].push(place)?;
    }
    Ok(())
}

impl<'a> PlannedJobs<'a> {
    /// No jobs yet, of so many targets.
    #[tactic(auto, using(crate::proofs::JobPlans::none_planned))]
    fn new(alloc: Global, targets: u8) -> Result<PlannedJobs<'a>, AllocError>
        ensures outputs { IfOk result (λ jobs. (jobs.all.items ≡ []) × (jobs.steps ≡ 0)) }
        ensures planned { IfOk result (λ jobs. ArePlanned [] (jobs_of jobs.by_target.items) (planned_names jobs.all.items)) }
    {
        Ok(PlannedJobs {
            by_target: make_targets(alloc, targets)?,
            places: make_places(alloc, targets)?,
            all: Vec::new(alloc),
            buffer_bytes: 0,
            steps: 0,
        })
    }

    /// How many bytes the buffers have with that of one job more.
    pub(crate) fn count_buffer_bytes(&self, job: &Job) -> u64 {
        let bytes = job.buffer().len() as u64;
        self.buffer_bytes.saturating_add(bytes)
    }

    /// Adds the job of a line after the others. Its target is one of the channel's.
    #[tactic(auto, using(crate::proofs::JobPlans::plan_more))]
    pub(crate) fn push(
        &mut self,
        alloc: Global,
        line: usize,
        job: Job,
        output: Option<&'a str>,
        counted: Option<CountedHeader<'a>>,
    ) -> Result<(), AllocError>
        ensures outputs { OnOk result (planned_outputs self.new.all.items ≡ planned_outputs self.old.all.items
            ++ (option_copied output.entry ∷ [])) }
        ensures planned { OnOk result (PlansMore job (jobs_of self.old.by_target.items) (planned_names self.old.all.items)
            (jobs_of self.new.by_target.items) (planned_names self.new.all.items)) }
        ensures steps { OnOk result (self.new.steps ≡ capped (self.old.steps + capped (steps_of job))) }
    {
        let place = self.all.len();
        self.buffer_bytes = self.count_buffer_bytes(&job);
        let steps = count_steps(alloc, job.text().words())?;
        self.steps = self.steps.saturating_add(steps);
        let target = job.lun().ce;
        let number = push_to_target(&mut self.by_target, usize::from(target), job)?;
        push_place(&mut self.places, usize::from(target), place)?;
        let name = Name {
            host: u32::from(target),
            number,
        };
        self.all.push(PlannedJob {
            name,
            output,
            line,
            steps: self.steps,
            counted,
        })?;
        Ok(())
    }
}

impl<'a> RunPlan<'a> {
    /// A run without jobs on a channel whose dies are erased.
    pub(crate) fn new(
        alloc: Global,
        geometry: Geometry,
        targets: u8,
        times: PageTimes,
    ) -> Result<RunPlan<'a>, AllocError>
        requires { (1 ≤ targets) × (targets ≤ 4) }
        ensures channel { IfOk result (λ plan. (plan.dies.geometry ≡ geometry) × (plan.dies.targets ≡ targets)) }
        ensures empty { IfOk result (λ plan. (plan.jobs.all.items ≡ []) × (plan.images.items ≡ []) × (plan.fails.items ≡ [])) }
        ensures setup { IfOk result (λ plan. HasSetUp plan (erased geometry targets)) }
    {
        Ok(RunPlan {
            dies: ChannelDies::new(alloc, geometry, targets)?,
            images: Vec::new(alloc),
            jobs: PlannedJobs::new(alloc, targets)?,
            polls: Polls::ONE,
            times,
            fails: Vec::new(alloc),
        })
    }
}
