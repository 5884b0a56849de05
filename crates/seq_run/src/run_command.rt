//! The command that runs a channel.
ghost use Rattle.std.specs.Prelude.{◌≡◌, ◌<◌, ◌≤◌, ◌⊎◌, List, ℕ, drop, IfOk, IfErr, OnOk, OnErr, IsTrue, IsFalse};
ghost use Rattle.std.specs.Io.KnownBytes.{Appends};
ghost use Rattle.run_file.specs.Told.{told};
ghost use Rattle.seq_files.specs.Store.{Holds, with_all};
ghost use Rattle.seq_inputs.specs.declared.refusal.Refusal.{Refusal};
ghost use Rattle.seq_inputs.specs.Stops.{SaysAt, RefusesNothing, refusal_in};
ghost use Rattle.seq_inputs.specs.Refusals.{line_of};
ghost use Rattle.run_plan.specs.Judged.{PlanPasses, PlanIsRefused};
ghost use Rattle.run_plan.specs.Planned.{outputs_of, images_in, planned_outputs, planned_images};
ghost use Rattle.seq_run.specs.Runs.{Outcome, IsOutcomeOf, writes_of, lines_of, IsRunDone, RunIsRefused, RunMayLeave};
ghost use Rattle.run_plan.specs.Plans.{IsSetUpFrom};

use crate::counted_headers::say_counted_headers;
use crate::phases::{NoClock, Phase, RunProgress, Times};
use crate::request::RunRequest;
use crate::running::run_as_planned;
use crate::summary::{Stats, Summary};
use crate::unmet_fails::say_unmet_fails;
use crate::used_files::admit_files;
use crate::writing::write_run;
use nand_geometry::Profile;
use run_file::{RunMessage, RunRefusal, parse_run};
use run_plan::{PlannedJob, PlannedJobs, RunPlan, plan_run};
use seq_files::Files;
use seq_inputs::{Console, Exit, Fault, Refusal, Stop, Words, fail, read_file, text_of};
use shown_text::Shown;
use std::alloc::Global;
use std::io::{self, Write};
use std::sync::Wait;
use std::thread::Threads;
use std::time::Clock;
use trace_timing::PageTimes;

// Reads the text of a run file, and judges it with the files that it names.
fn plan_text<'a, F: Files>(
    alloc: Global,
    files: &mut F,
    profile: Profile,
    text: &'a str,
) -> Result<RunPlan<'a>, Stop<'a>>
    ensures ok { IfOk result (λ plan. PlanPasses (F.store files.old) profile (told text.entry.now) plan.dies.geometry plan.dies.targets) }
    ensures jobs { IfOk result (λ plan. planned_outputs plan.jobs.all.items ≡ outputs_of (drop 2 (told text.entry.now).statements)) }
    ensures images { IfOk result (λ plan. planned_images plan.images.items
        ≡ images_in plan.dies.geometry (drop 2 (told text.entry.now).statements)) }
    ensures setup { IfOk result (λ plan. IsSetUpFrom (F.store files.old) plan.dies.geometry plan.dies.targets
        (drop 2 (told text.entry.now).statements) plan) }
    ensures err { IfErr result (SaysAt (PlanIsRefused (F.store files.old) profile (told text.entry.now))) }
    ensures stays { F.store files.new ≡ F.store files.old }
{
    let text = parse_run(text, alloc)?;
    plan_run(alloc, files, profile, &text)
}

// Runs what was planned, and writes what came of it.
fn carry_out<'a, R: Threads + Wait + Sync, C: Clock, F: Files, W: Write, E: Write, P: RunProgress>(
    rt: &R,
    alloc: Global,
    files: &mut F,
    console: &mut Console<W, E, P>,
    times: &mut Times<'_, C>,
    request: RunRequest<'a>,
    plan: RunPlan<'a>,
) -> Result<Summary, Stop<'a>>
    ensures ok { OnOk result ((o : Outcome) × IsOutcomeOf request.entry plan.entry o
        × (F.store files.new ≡ with_all (writes_of request.entry o) (F.store files.old))
        × Appends (W.contents console.old.output) (W.contents console.new.output) (lines_of request.entry o)) }
    ensures err { OnErr result ((F.store files.new ≡ F.store files.old) ⊎ ((o : Outcome) × IsOutcomeOf request.entry plan.entry o
        × (F.store files.new ≡ with_all (writes_of request.entry o) (F.store files.old)))) }
    ensures nothing { IfErr result RefusesNothing }
{
    let jobs = plan.jobs.all.len();
    let page = plan.times;
    console.progress.begin(Phase::Running { jobs });
    times.begin();
    let ran = run_as_planned(rt, alloc, plan, request.workers)?;
    times.end();
    console.progress.begin(Phase::Writing);
    write_run(alloc, files, &mut console.output, request, page, ran)
}

// Tells what there was in a run that is done.
fn tell_stats<C: Clock, E: Write>(errors: &mut E, summary: Summary, times: &Times<'_, C>) {
    let stats = Stats {
        summary,
        time: times.between(),
    };
    let _ = writeln!(errors, "{stats}");
}

// What is wrong with a line of a run file, as far as the file alone tells it.
fn words_of_line<'a>(alloc: Global, text: &str, refusal: Refusal) -> Option<Words<'a, Global>> {
    let Fault::Statement { fault } = refusal.fault else {
        return None;
    };
    let line = refusal.line?;
    let message = RunMessage::new(RunRefusal { fault, line }, text);
    Words::of(format!(in alloc; "{message}"))
}

// Says of a line of a run file that is refused what stands there.
fn explain_line<'a>(alloc: Global, text: &str, stop: Stop<'a>) -> Stop<'a>
    ensures { refusal_in result ≡ refusal_in stop.entry }
{
    match stop {
        Stop::Refused {
            refusal,
            words: None,
        } => Stop::Refused {
            refusal,
            words: words_of_line(alloc, text, refusal),
        },
        Stop::Refused { .. }
        | Stop::FileFault { .. }
        | Stop::ReaderGone
        | Stop::BuffersTooLarge { .. }
        | Stop::OutOfMemory => stop,
    }
}

// The line of the first job with which the jobs step more words than these at most.
fn find_line(jobs: &[PlannedJob<'_>], most: u64) -> Option<usize> {
    for job in jobs {
        if job.steps > most {
            return Some(job.line);
        }
    }
    None
}

// Says which job steps more words than the run may, and how the run can be had all the same.
fn say_too_long<E: Write>(
    errors: &mut E,
    request: RunRequest<'_>,
    jobs: &PlannedJobs<'_>,
) -> io::Result<()> {
    let most = request.max_steps;
    if let Some(line) = find_line(jobs.all.as_slice(), most) {
        write!(errors, "{}:{line}: ", Shown::path(request.path))?;
    }
    let steps = jobs.steps;
    writeln!(
        errors,
        "with this job the programs may take more than {most} steps"
    )?;
    writeln!(
        errors,
        "all jobs together may take {steps}, and `--max-steps {steps}` runs them"
    )?;
    errors.flush()
}

// Whether the jobs may run: their programs step no more words than the run may. If not, that is said.
fn admit_steps<E: Write>(errors: &mut E, request: RunRequest<'_>, jobs: &PlannedJobs<'_>) -> bool
    ensures admitted { IsTrue result → jobs.now.steps ≤ request.entry.max_steps }
    ensures refused { IsFalse result → request.entry.max_steps < jobs.now.steps }
{
    let admitted = jobs.steps <= request.max_steps;
    if !admitted {
        // Where standard error takes nothing, the status alone says it.
        let _ = say_too_long(errors, request, jobs);
    }
    admitted
}

// Says that a run has nothing to do, where its run file has no job.
fn say_no_job<E: Write>(errors: &mut E, request: RunRequest<'_>, jobs: &PlannedJobs<'_>) {
    if jobs.all.is_empty() {
        let path = Shown::path(request.path);
        let _ = writeln!(errors, "{path}: no line `job` stands there: nothing is run");
        let _ = errors.flush();
    }
}

// Says which times of work the parameter page of a run doesn't say, where its trace is to have times.
fn say_undeclared_times<E: Write>(errors: &mut E, request: RunRequest<'_>, page: PageTimes) {
    if request.times.is_none() {
        return;
    }
    let path = Shown::path(request.path);
    let times = [
        (page.read_us, "tR"),
        (page.program_us, "tPROG"),
        (page.erase_us, "tBERS"),
    ];
    for (time, name) in times {
        if time == 0 {
            let _ = writeln!(
                errors,
                "{path}: the parameter page says no {name}: such work takes tWB alone"
            );
        }
    }
    let _ = errors.flush();
}

// Runs the text of the run file.
fn run_text<R: Threads + Wait + Sync, C: Clock, F: Files, W: Write, E: Write, P: RunProgress>(
    rt: &R,
    alloc: Global,
    files: &mut F,
    console: &mut Console<W, E, P>,
    times: &mut Times<'_, C>,
    request: RunRequest<'_>,
    text: &str,
) -> Exit
    requires { Holds (F.store files.old) request.path.now text.now }
    ensures done { result ≡ Exit.Done → (printed : List ℕ) × IsRunDone (F.store files.old) (F.store files.new) request.entry printed
        × Appends (W.contents console.old.output) (W.contents console.new.output) printed }
    ensures refused { (refusal : Refusal) → result ≡ Exit.Refused refusal → RunIsRefused (F.store files.old) request.entry refusal
        × (F.store files.new ≡ F.store files.old) × Appends (W.contents console.old.output) (W.contents console.new.output) (line_of refusal) }
    ensures leaves { RunMayLeave (F.store files.old) (F.store files.new) request.entry }
{
    let run = Some(request.path);
    let plan = match plan_text(alloc, files, request.profile, text) {
        Ok(plan) => plan,
        Err(stop) => {
            let stop = explain_line(alloc, text, stop);
            return fail(alloc, console, run, stop);
        }
    };
    if !admit_steps(&mut console.errors, request, &plan.jobs) {
        return Exit::TooManySteps;
    }
    say_no_job(&mut console.errors, request, &plan.jobs);
    say_counted_headers(alloc, &mut console.errors, &plan.jobs);
    say_undeclared_times(&mut console.errors, request, plan.times);
    match admit_files(alloc, files, &mut console.errors, request, text) {
        Ok(true) => {}
        Ok(false) => return Exit::Usage,
        Err(stop) => return fail(alloc, console, run, stop),
    }
    match carry_out(rt, alloc, files, console, times, request, plan) {
        Ok(summary) => {
            say_unmet_fails(alloc, &mut console.errors, request.path, text, summary);
            if request.has_stats {
                tell_stats(&mut console.errors, summary, times);
            }
            Exit::Done
        }
        Err(stop) => fail(alloc, console, run, stop),
    }
}

/// Runs a channel as a run file says. What is refused is also said in words on the console's errors. Where the clock tells the time, what there was is
/// told with the seconds that the jobs took, and the console's progress is told what the run does.
pub fn run_watched<
    R: Threads + Wait + Sync,
    C: Clock,
    F: Files,
    W: Write,
    E: Write,
    P: RunProgress,
>(
    rt: &R,
    clock: &C,
    alloc: Global,
    files: &mut F,
    console: &mut Console<W, E, P>,
    request: RunRequest<'_>,
) -> Exit
    // What the run file says passes; its jobs ran on dies with its images; and what is printed and written is of one legal trace, and of those jobs.
    ensures done { result ≡ Exit.Done → (printed : List ℕ) × IsRunDone (F.store files.old) (F.store files.new) request.entry printed
        × Appends (W.contents console.old.output) (W.contents console.new.output) printed }
    ensures refused { (refusal : Refusal) → result ≡ Exit.Refused refusal → RunIsRefused (F.store files.old) request.entry refusal
        × (F.store files.new ≡ F.store files.old) × Appends (W.contents console.old.output) (W.contents console.new.output) (line_of refusal) }
    ensures leaves { RunMayLeave (F.store files.old) (F.store files.new) request.entry }
{
    let mut times = Times::new(clock);
    console.progress.begin(Phase::Reading);
    let bytes = match read_file(alloc, files, request.path) {
        Ok(bytes) => bytes,
        Err(stop) => return fail(alloc, console, None, stop),
    };
    match text_of(request.path, bytes.as_slice()) {
        Ok(text) => run_text(rt, alloc, files, console, &mut times, request, text),
        Err(stop) => fail::<Global, W, E, P>(alloc, console, None, stop),
    }
}

/// The same without a clock.
pub fn run_on<R: Threads + Wait + Sync, F: Files, W: Write, E: Write, P: RunProgress>(
    rt: &R,
    alloc: Global,
    files: &mut F,
    console: &mut Console<W, E, P>,
    request: RunRequest<'_>,
) -> Exit
    // What the run file says passes; its jobs ran on dies with its images; and what is printed and written is of one legal trace, and of those jobs.
    ensures done { result ≡ Exit.Done → (printed : List ℕ) × IsRunDone (F.store files.old) (F.store files.new) request.entry printed
        × Appends (W.contents console.old.output) (W.contents console.new.output) printed }
    ensures refused { (refusal : Refusal) → result ≡ Exit.Refused refusal → RunIsRefused (F.store files.old) request.entry refusal
        × (F.store files.new ≡ F.store files.old) × Appends (W.contents console.old.output) (W.contents console.new.output) (line_of refusal) }
    ensures leaves { RunMayLeave (F.store files.old) (F.store files.new) request.entry }
{
    run_watched(rt, &NoClock, alloc, files, console, request)
}
