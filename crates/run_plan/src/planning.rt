//! Judging a run file: each statement in turn, with the files that it names, before the first cycle.
ghost use Rattle.std.specs.Prelude.{◌≡◌, ◌≤◌, ◌+◌, ◌*◌, ◌∷◌, [], ◌++◌, true, IfOk, IfErr, OnOk, drop, filter_map};
ghost use Rattle.std.specs.Option.{option_copied, option_map};
ghost use Rattle.run_file.specs.Line.{Image as ImageLine};
ghost use Rattle.run_file.specs.Shown.{shown_statement, shown_numbered, shown_all, shown_text};
ghost use Rattle.run_plan.specs.Planned.{output_in, outputs_of, image_in, images_in, failing_in, failing_of, planned_outputs, planned_images};
ghost use Rattle.run_plan.specs.Setup.{IsJobOf};
ghost use Rattle.run_plan.specs.Plans.{PlansOne, PlansJob, PlansAll, IsSetUpFrom};
ghost use Rattle.seq_inputs.specs.Stops.{IsRefusal, Says, SaysAt};
ghost use Rattle.seq_inputs.specs.declared.fault.Fault.TheVariants.{Statement as StatementFault};
ghost use Rattle.run_file.specs.declared.refusal.RunFault.TheVariants.{NoSuchLun, UnknownLine};
ghost use Rattle.run_plan.specs.Plans.{line_refused};
ghost use Rattle.run_plan.specs.Judged.{has_lun, lun_at, LunIsRefused, PollsPass, PollsAreRefused, may_tell, FailPasses, FailIsRefused, JobPasses, JobLineIsRefused, Passes, IsRefused, IsRefusedAt, RestPasses, RestIsRefused, EndIsRefused, page_of, targets_of, PlanPasses, PlanIsRefused};

use crate::failing::Failing;
use crate::plan::{PlannedImage, RunPlan};
use crate::reading::{ReadPage, read_buffer, read_die, read_page};
use nand_geometry::{Geometry, Profile};
use onfi_cycle::Lun;
use run_file::{Numbered, Polled, RunFault, RunRefusal, RunText, Statement};
use seq_core::Job;
use seq_files::Files;
use seq_inputs::{
    CountedHeader, Fault, MOST_BUFFER_BYTES, Refusal, Stop, VerifiedProgram, Words, verified_at,
    words_of_job,
};
use std::alloc::Global;
use trace_timing::PageTimes;

// A line doesn't stand where it is.
fn refuse_statement<'a>(fault: RunFault) -> Stop<'a>
    ensures { IsRefusal (StatementFault fault) result }
{
    Stop::refused(Fault::Statement { fault }, None)
}

// The channel hasn't this LUN.
fn refuse_lun<'a>(
    alloc: Global,
    geometry: &Geometry,
    targets: u8,
    target: u32,
    lun: u32,
) -> Stop<'a>
    ensures { IsRefusal (StatementFault NoSuchLun) result }
{
    let fault = RunFault::NoSuchLun;
    let luns = geometry.parts().luns;
    let words = format!(in alloc;
        "{fault}: target {target}, LUN {lun}, where targets go from 0 to {}, and LUNs from 0 to {} ({})",
        targets.saturating_sub(1),
        luns.saturating_sub(1),
        fault.code()
    );
    Stop::refused(Fault::Statement { fault }, Words::of(words))
}

// No ready of a chip without Page Cache Program tells of the page before.
fn refuse_before<'a>(alloc: Global) -> Stop<'a>
    ensures { IsRefusal (StatementFault UnknownLine) result }
{
    let fault = RunFault::UnknownLine;
    let words = format!(in alloc;
        "{fault}: `before` is of chips with Page Cache Program, with `--profile onfi` ({})",
        fault.code()
    );
    Stop::refused(Fault::Statement { fault }, Words::of(words))
}

// A ready of this geometry may tell of the page before.
fn may_tell(geometry: &Geometry, before: bool) -> bool
    ensures { result ≡ may_tell geometry.now before }
{
    !before || geometry.parts().optional.has_program_cache()
}

// The LUN of a channel that has these numbers.
fn find_lun<'a>(
    alloc: Global,
    geometry: &Geometry,
    targets: u8,
    target: u32,
    lun: u32,
) -> Result<Lun, Stop<'a>>
    ensures ok { IfOk result (λ found. (has_lun geometry.now targets target lun ≡ true) × (found ≡ lun_at target lun)) }
    ensures err { IfErr result (Says (LunIsRefused geometry.now targets target lun)) }
{
    if target >= u32::from(targets) || lun >= u32::from(geometry.parts().luns) {
        return Err(refuse_lun(alloc, geometry, targets, target, lun));
    }
    Ok(Lun {
        ce: target as u8,
        lun: lun as u8,
    })
}

// The LUN of a ready that is with failure, which may tell of the page before.
#[tactic(auto, using(crate::proofs::Refusing::before_said, crate::proofs::Refusing::failing_said))]
fn find_failing<'a>(
    alloc: Global,
    geometry: &Geometry,
    targets: u8,
    target: u32,
    lun: u32,
    before: bool,
) -> Result<Lun, Stop<'a>>
    ensures ok { OnOk result (FailPasses geometry.now targets target lun before) }
    ensures found { IfOk result (λ found. found ≡ lun_at target lun) }
    ensures err { IfErr result (Says (FailIsRefused geometry.now targets target lun before)) }
{
    if !may_tell(geometry, before) {
        return Err(refuse_before(alloc));
    }
    find_lun(alloc, geometry, targets, target, lun)
}

// A job, and the header that was counted for its program, if one was.
#[derive(Drop)]
struct ReadJob<'a> {
    job: Job,
    counted: Option<CountedHeader<'a>>,
}

// The job of a word file, with its buffer.
#[tactic(auto, using(crate::proofs::JobLines::job_refused, crate::proofs::JobLines::job_passes, crate::proofs::JobLines::is_job))]
fn read_job<'a, F: Files>(
    alloc: Global,
    files: &mut F,
    geometry: Geometry,
    targets: u8,
    lun: Lun,
    base: u32,
    text: &'a str,
    input: Option<&'a str>,
) -> Result<ReadJob<'a>, Stop<'a>>
    ensures ok { OnOk result (JobPasses (F.store files.old) geometry targets lun base text.now (option_copied input.entry)) }
    ensures job { IfOk result (λ read. IsJobOf (F.store files.old) geometry lun base text.now (option_copied input.entry) read.job) }
    ensures err { IfErr result (Says (JobLineIsRefused (F.store files.old) geometry targets lun base text.now
        (option_copied input.entry))) }
    ensures stays { F.store files.new ≡ F.store files.old }
{
    let VerifiedProgram { verified, counted } = verified_at(alloc, files, text, geometry)?;
    let length = verified.text().buffer() as usize;
    let buffer = read_buffer(alloc, files, input, length)?;
    match Job::new(geometry, targets, lun, base, verified, buffer) {
        Ok(job) => Ok(ReadJob { job, counted }),
        Err(refused) => {
            let fault = refused.fault;
            let rows = refused.verified.text().rows();
            let words = words_of_job(alloc, text, fault, &geometry, base, rows);
            Err(Stop::refused(Fault::Job { fault }, words))
        }
    }
}

impl<'a> RunPlan<'a> {
    // Adds the statement of a line after the page and the targets.
    #[tactic(auto, using(crate::proofs::Settings::job_set, crate::proofs::Settings::polls_set, crate::proofs::Settings::fail_set))]
    fn add<F: Files>(
        &mut self,
        alloc: Global,
        files: &mut F,
        line: usize,
        statement: Statement<'a>,
    ) -> Result<(), Stop<'a>>
        ensures ok { OnOk result (Passes (F.store files.old) self.old.dies.geometry self.old.dies.targets
            (shown_statement statement.entry)) }
        ensures err { IfErr result (Says (IsRefused (F.store files.old) self.old.dies.geometry self.old.dies.targets
            (shown_statement statement.entry))) }
        ensures channel { (self.new.dies.geometry ≡ self.old.dies.geometry) × (self.new.dies.targets ≡ self.old.dies.targets) }
        ensures jobs { OnOk result (planned_outputs self.new.jobs.all.items ≡ planned_outputs self.old.jobs.all.items
            ++ filter_map output_in (shown_statement statement.entry ∷ [])) }
        ensures images { OnOk result (planned_images self.new.images.items ≡ planned_images self.old.images.items
            ++ filter_map (image_in self.old.dies.geometry) (shown_statement statement.entry ∷ [])) }
        ensures fails { OnOk result (self.new.fails.items ≡ self.old.fails.items ++ filter_map failing_in (shown_statement statement.entry ∷ [])) }
        ensures setup { OnOk result (PlansOne (F.store files.old) self.old.dies.geometry (shown_statement statement.entry) self.old self.new) }
        ensures stays { F.store files.new ≡ F.store files.old }
    {
        match statement {
            Statement::Page { .. } | Statement::Targets { .. } => {
                Err(refuse_statement(RunFault::OutOfOrder))
            }
            Statement::Image { target, lun, path } => {
                self.add_image(alloc, files, target, lun, path)
            }
            Statement::Job {
                target,
                lun,
                base,
                text,
                input,
                output,
            } => {
                let lun = find_lun(alloc, &self.dies.geometry, self.dies.targets, target, lun)?;
                self.add_job(alloc, files, line, lun, base, text, input, output)
            }
            Statement::Polls { of, count } => self.set_polls(alloc, of, count),
            Statement::Fail {
                target,
                lun,
                ready,
                before,
            } => self.add_failing(alloc, target, lun, ready, before),
        }
    }

    // Adds the image of a die.
    #[tactic(auto, using(crate::proofs::Settings::image_set))]
    fn add_image<F: Files>(
        &mut self,
        alloc: Global,
        files: &mut F,
        target: u32,
        lun: u32,
        path: &'a str,
    ) -> Result<(), Stop<'a>>
        ensures ok { OnOk result (Passes (F.store files.old) self.old.dies.geometry self.old.dies.targets (ImageLine target lun path.now)) }
        ensures err { IfErr result (Says (IsRefused (F.store files.old) self.old.dies.geometry self.old.dies.targets
            (ImageLine target lun path.now))) }
        ensures channel { (self.new.dies.geometry ≡ self.old.dies.geometry) × (self.new.dies.targets ≡ self.old.dies.targets) }
        ensures jobs { self.new.jobs ≡ self.old.jobs }
        ensures images { OnOk result (planned_images self.new.images.items ≡ planned_images self.old.images.items
            ++ ((target * self.old.dies.geometry.luns + lun, path.now) ∷ [])) }
        ensures fails { self.new.fails ≡ self.old.fails }
        ensures setup { OnOk result (PlansOne (F.store files.old) self.old.dies.geometry (ImageLine target lun path.now) self.old self.new) }
        ensures stays { F.store files.new ≡ F.store files.old }
    {
        let lun = find_lun(alloc, &self.dies.geometry, self.dies.targets, target, lun)?;
        let die = read_die(alloc, files, self.dies.geometry, path)?;
        let number = self.dies.number(lun);
        self.dies.put(number, die);
        self.images.push(PlannedImage { number, path })?;
        Ok(())
    }

    // Adds the job of a line on a LUN of the channel.
    #[tactic(auto, using(crate::proofs::Settings::job_planned))]
    fn add_job<F: Files>(
        &mut self,
        alloc: Global,
        files: &mut F,
        line: usize,
        lun: Lun,
        base: u32,
        text: &'a str,
        input: Option<&'a str>,
        output: Option<&'a str>,
    ) -> Result<(), Stop<'a>>
        ensures ok { OnOk result (JobPasses (F.store files.old) self.old.dies.geometry self.old.dies.targets lun base text.now
            (option_copied input.entry)) }
        ensures err { IfErr result (Says (JobLineIsRefused (F.store files.old) self.old.dies.geometry self.old.dies.targets lun base
            text.now (option_copied input.entry))) }
        ensures channel { (self.new.dies.geometry ≡ self.old.dies.geometry) × (self.new.dies.targets ≡ self.old.dies.targets) }
        ensures jobs { OnOk result (planned_outputs self.new.jobs.all.items ≡ planned_outputs self.old.jobs.all.items
            ++ (option_copied output.entry ∷ [])) }
        ensures images { self.new.images ≡ self.old.images }
        ensures fails { self.new.fails ≡ self.old.fails }
        ensures setup { OnOk result (PlansJob (F.store files.old) self.old.dies.geometry lun base text.now (option_copied input.entry) self.old self.new) }
        ensures stays { F.store files.new ≡ F.store files.old }
    {
        let (geometry, targets) = (self.dies.geometry, self.dies.targets);
        let ReadJob { job, counted } = read_job(
            alloc, files, geometry, targets, lun, base, text, input,
        )?;
        let bytes = self.jobs.count_buffer_bytes(&job);
        if bytes > MOST_BUFFER_BYTES {
            return Err(Stop::BuffersTooLarge { bytes, line: None });
        }
        self.jobs.push(alloc, line, job, output, counted)?;
        Ok(())
    }

    // Tells after how many polls this work is over.
    fn set_polls(&mut self, alloc: Global, of: Polled, count: u32) -> Result<(), Stop<'a>>
        ensures ok { OnOk result (PollsPass self.old.dies.geometry self.old.dies.targets of) }
        ensures err { IfErr result (Says (PollsAreRefused self.old.dies.geometry self.old.dies.targets of)) }
        ensures channel { (self.new.dies.geometry ≡ self.old.dies.geometry) × (self.new.dies.targets ≡ self.old.dies.targets) }
        ensures dies { self.new.dies ≡ self.old.dies }
        ensures jobs { self.new.jobs ≡ self.old.jobs }
        ensures images { self.new.images ≡ self.old.images }
        ensures fails { self.new.fails ≡ self.old.fails }
    {
        let count = u64::from(count);
        match of {
            Polled::Each => self.polls.each = count,
            Polled::Reads => self.polls.read = Some(count),
            Polled::Programs => self.polls.program = Some(count),
            Polled::Erases => self.polls.erase = Some(count),
            Polled::Lun { target, lun } => {
                let lun = find_lun(alloc, &self.dies.geometry, self.dies.targets, target, lun)?;
                self.polls.set_lun(lun, count);
            }
        }
        Ok(())
    }

    // Adds a ready that is with failure.
    fn add_failing(
        &mut self,
        alloc: Global,
        target: u32,
        lun: u32,
        ready: u32,
        before: bool,
    ) -> Result<(), Stop<'a>>
        ensures ok { OnOk result (FailPasses self.old.dies.geometry self.old.dies.targets target lun before) }
        ensures err { IfErr result (Says (FailIsRefused self.old.dies.geometry self.old.dies.targets target lun before)) }
        ensures channel { (self.new.dies.geometry ≡ self.old.dies.geometry) × (self.new.dies.targets ≡ self.old.dies.targets) }
        ensures dies { self.new.dies ≡ self.old.dies }
        ensures jobs { self.new.jobs ≡ self.old.jobs }
        ensures images { self.new.images ≡ self.old.images }
        ensures fails { OnOk result (self.new.fails.items ≡ self.old.fails.items
            ++ (record { target = target; lun = lun; ready = ready; before = before } ∷ [])) }
    {
        let (geometry, targets) = (self.dies.geometry, self.dies.targets);
        let lun = find_failing(alloc, &geometry, targets, target, lun, before)?;
        self.fails.push(Failing {
            target: lun.ce,
            lun: lun.lun,
            ready: u64::from(ready),
            before,
        })?;
        Ok(())
    }

    // Adds the statement of a line.
    #[tactic(auto, using(crate::proofs::Resting::refused_there))]
    fn add_numbered<F: Files>(
        &mut self,
        alloc: Global,
        files: &mut F,
        numbered: Numbered<'a>,
    ) -> Result<(), Stop<'a>>
        ensures ok { OnOk result (Passes (F.store files.old) self.old.dies.geometry self.old.dies.targets
            (shown_statement numbered.entry.statement)) }
        ensures err { IfErr result (SaysAt (IsRefusedAt (F.store files.old) self.old.dies.geometry self.old.dies.targets
            (shown_numbered numbered.entry))) }
        ensures channel { (self.new.dies.geometry ≡ self.old.dies.geometry) × (self.new.dies.targets ≡ self.old.dies.targets) }
        ensures jobs { OnOk result (planned_outputs self.new.jobs.all.items ≡ planned_outputs self.old.jobs.all.items
            ++ outputs_of (shown_numbered numbered.entry ∷ [])) }
        ensures images { OnOk result (planned_images self.new.images.items ≡ planned_images self.old.images.items
            ++ images_in self.old.dies.geometry (shown_numbered numbered.entry ∷ [])) }
        ensures fails { OnOk result (self.new.fails.items ≡ self.old.fails.items ++ failing_of (shown_numbered numbered.entry ∷ [])) }
        ensures setup { OnOk result (PlansOne (F.store files.old) self.old.dies.geometry (shown_statement numbered.entry.statement)
            self.old self.new) }
        ensures stays { F.store files.new ≡ F.store files.old }
    {
        let Numbered { line, statement } = numbered;
        match self.add(alloc, files, line, statement) {
            Ok(()) => Ok(()),
            Err(stop) => Err(stop.at(line)),
        }
    }

    // Adds the statements after the page and the targets, in their order, and comes to the fault of the text last.
    #[tactic(auto, using(crate::proofs::Resting::begins, crate::proofs::Resting::all_planned))]
    fn add_all<F: Files>(
        &mut self,
        alloc: Global,
        files: &mut F,
        rest: &[Numbered<'a>],
        last: Option<RunRefusal>,
    ) -> Result<(), Stop<'a>>
        ensures ok { OnOk result (RestPasses (F.store files.old) self.old.dies.geometry self.old.dies.targets (shown_all rest.now) last) }
        ensures err { IfErr result (SaysAt (RestIsRefused (F.store files.old) self.old.dies.geometry self.old.dies.targets
            (shown_all rest.now) last)) }
        ensures channel { (self.new.dies.geometry ≡ self.old.dies.geometry) × (self.new.dies.targets ≡ self.old.dies.targets) }
        ensures jobs { OnOk result (planned_outputs self.new.jobs.all.items ≡ planned_outputs self.old.jobs.all.items
            ++ outputs_of (shown_all rest.now)) }
        ensures images { OnOk result (planned_images self.new.images.items ≡ planned_images self.old.images.items
            ++ images_in self.old.dies.geometry (shown_all rest.now)) }
        ensures fails { OnOk result (self.new.fails.items ≡ self.old.fails.items ++ failing_of (shown_all rest.now)) }
        ensures setup { OnOk result (PlansAll (F.store files.old) self.old.dies.geometry (shown_all rest.now) self.old self.new) }
        ensures stays { F.store files.new ≡ F.store files.old }
    {
        for &numbered in rest {
            if let Err(stop) = self.add_numbered(alloc, files, numbered) {
                return Err(stop);
            }
        }
        match last {
            Some(RunRefusal { fault, line }) => Err(refuse_line(fault, line)),
            None => Ok(()),
        }
    }
}

// A line is refused.
fn refuse_line<'a>(fault: RunFault, line: usize) -> Stop<'a>
    ensures { result ≡ line_refused fault line }
{
    Stop::Refused {
        refusal: Refusal {
            fault: Fault::Statement { fault },
            line: Some(line),
        },
        words: None,
    }
}

// A text ends before its page or its targets.
fn refuse_end<'a>(last: Option<RunRefusal>) -> Stop<'a>
    ensures { SaysAt (EndIsRefused last) result }
{
    match last {
        Some(RunRefusal { fault, line }) => refuse_line(fault, line),
        None => refuse_line(RunFault::OutOfOrder, 1),
    }
}

// The page of a run file and its line, if it begins with it.
fn find_page<'a>(statements: &[Numbered<'a>]) -> Option<(usize, &'a str)>
    ensures { page_of (shown_all statements.now) ≡ option_map (λ page. (page.0, page.1.now)) result }
{
    match statements {
        [] => None,
        [first, ..] => match first.statement {
            Statement::Page { path } => Some((first.line, path)),
            _ => None,
        },
    }
}

// The number of targets, if the second statement is that.
fn find_targets(statements: &[Numbered<'_>]) -> Option<u8>
    ensures { result ≡ targets_of (shown_all statements.now) }
{
    match statements {
        [_, second, ..] => match second.statement {
            Statement::Targets { count } if 1 <= count && count <= 4 => Some(count),
            _ => None,
        },
        _ => None,
    }
}

// The plan of the statements after the page and the targets, and then of the fault of the text.
#[tactic(auto, using(crate::proofs::Settings::all_set))]
fn plan_rest<'a, F: Files>(
    alloc: Global,
    files: &mut F,
    geometry: Geometry,
    targets: u8,
    times: PageTimes,
    rest: &[Numbered<'a>],
    last: Option<RunRefusal>,
) -> Result<RunPlan<'a>, Stop<'a>>
    requires { (1 ≤ targets) × (targets ≤ 4) }
    ensures channel { IfOk result (λ plan. (plan.dies.geometry ≡ geometry) × (plan.dies.targets ≡ targets)) }
    ensures ok { OnOk result (RestPasses (F.store files.old) geometry targets (shown_all rest.now) last) }
    ensures jobs { IfOk result (λ plan. planned_outputs plan.jobs.all.items ≡ outputs_of (shown_all rest.now)) }
    ensures images { IfOk result (λ plan. planned_images plan.images.items ≡ images_in geometry (shown_all rest.now)) }
    ensures fails { IfOk result (λ plan. plan.fails.items ≡ failing_of (shown_all rest.now)) }
    ensures setup { IfOk result (IsSetUpFrom (F.store files.old) geometry targets (shown_all rest.now)) }
    ensures err { IfErr result (SaysAt (RestIsRefused (F.store files.old) geometry targets (shown_all rest.now) last)) }
    ensures stays { F.store files.new ≡ F.store files.old }
{
    let mut plan = RunPlan::new(alloc, geometry, targets, times)?;
    match plan.add_all(alloc, files, rest, last) {
        Ok(()) => Ok(plan),
        Err(stop) => Err(stop),
    }
}

/// Judges the statements of a run file in the order of their lines, each with the files that it names before the next, and then the fault of
/// its text. Its page is read for this profile.
#[tactic(auto, using(crate::proofs::Resting::plan_passes_at, crate::proofs::Resting::plan_refused, crate::proofs::Resting::rest_shown))]
pub fn plan_run<'a, F: Files>(
    alloc: Global,
    files: &mut F,
    profile: Profile,
    text: &RunText<'a, Global>,
) -> Result<RunPlan<'a>, Stop<'a>>
    ensures ok { IfOk result (λ plan. PlanPasses (F.store files.old) profile (shown_text text.now) plan.dies.geometry plan.dies.targets) }
    ensures jobs { IfOk result (λ plan. planned_outputs plan.jobs.all.items ≡ outputs_of (drop 2 (shown_text text.now).statements)) }
    ensures images { IfOk result (λ plan. planned_images plan.images.items
        ≡ images_in plan.dies.geometry (drop 2 (shown_text text.now).statements)) }
    ensures fails { IfOk result (λ plan. plan.fails.items ≡ failing_of (drop 2 (shown_text text.now).statements)) }
    ensures setup { IfOk result (λ plan. IsSetUpFrom (F.store files.old) plan.dies.geometry plan.dies.targets
        (drop 2 (shown_text text.now).statements) plan) }
    ensures err { IfErr result (SaysAt (PlanIsRefused (F.store files.old) profile (shown_text text.now))) }
    ensures stays { F.store files.new ≡ F.store files.old }
{
    let statements = text.statements.as_slice();
    let Some((line, path)) = find_page(statements) else {
        return Err(refuse_end(text.fault));
    };
    let page = match read_page(alloc, files, profile, path) {
        Ok(page) => page,
        Err(stop) => return Err(stop.at(line)),
    };
    let Some(targets) = find_targets(statements) else {
        return Err(refuse_end(text.fault));
    };
    let rest = statements.split_at(2).1;
    let ReadPage { geometry, times } = page;
    match plan_rest(alloc, files, geometry, targets, times, rest, text.fault) {
        Ok(plan) => Ok(plan),
        Err(stop) => Err(stop),
    }
}
