//! The jobs of a run after their end, in the order of the run file.
ghost use Rattle.std.specs.Prelude.{◌≡◌, ◌++◌, IfOk, OnOk, map};
ghost use Rattle.std.specs.String.{string_bytes};
ghost use Rattle.channel_work.specs.Done.{ended_of};
ghost use Rattle.seq_run.specs.Lines.{job_line, job_lines};
ghost use Rattle.seq_run.specs.Written.{codes_of};
ghost use Rattle.run_plan.specs.Planned.{planned_outputs, planned_names};
ghost use Rattle.seq_run.specs.Written.{ended_outputs};
ghost use Rattle.seq_run.specs.Happened.{WereGivenBack, ended_names};
ghost use Rattle.seq_run.specs.Endings.{opened, given_of, told_of, ending_outputs, ending_names, PutsGiven, PutsAllGiven};

use channel_work::{Name, NamedJob};
use run_plan::PlannedJob;
use seq_core::UnloadedJob;
use std::alloc::{AllocError, Global};

/// A job that has ended, under its name, and where its buffer goes.
#[derive(Drop)]
pub(crate) struct EndedJob<'a> {
    pub name: Name,
    pub output: Option<&'a str>,
    pub done: UnloadedJob,
}

// The name of a job of a run, where its buffer goes, and what was given back, once something was.
#[derive(Drop)]
struct Ending<'a> {
    name: Name,
    output: Option<&'a str>,
    ended: Option<NamedJob>,
}

// The place of a job among all, where each host's jobs have these places.
fn find_place(places: &[Vec<usize>], name: Name) -> Option<usize> {
    let of_host = places.get(name.host as usize)?;
    of_host
        .as_slice()
        .get(usize::try_from(name.number).ok()?)
        .copied()
}

// The jobs that were planned, none of which has ended.
fn open_endings<'a>(
    alloc: Global,
    planned: &[PlannedJob<'a>],
) -> Result<Vec<Ending<'a>>, AllocError>
    ensures { IfOk result (λ endings. endings.items ≡ map opened planned.now) }
{
    planned
        .iter()
        .map(|job| Ending {
            name: job.name,
            output: job.output,
            ended: None,
        })
        .collect(alloc)
}

// Puts what was given back to the job in this place, if there is one.
#[tactic(auto, using(crate::proofs::Endings::outputs_stay, crate::proofs::Endings::names_stay, crate::proofs::Endings::one_given))]
fn put_ending(endings: &mut Vec<Ending<'_>>, place: usize, named: NamedJob)
    ensures outputs { ending_outputs endings.new.items ≡ ending_outputs endings.old.items }
    ensures names { ending_names endings.new.items ≡ ending_names endings.old.items }
    ensures given { PutsGiven (ended_of named) endings.old.items endings.new.items }
{
    if place < endings.len() {
        let name = endings[place].name;
        let output = endings[place].output;
        endings[place] = Ending {
            name,
            output,
            ended: Some(named),
        };
    }
}

// Puts what was given back to the job in the place of its name.
fn put_named(endings: &mut Vec<Ending<'_>>, places: &[Vec<usize>], named: NamedJob)
    ensures outputs { ending_outputs endings.new.items ≡ ending_outputs endings.old.items }
    ensures names { ending_names endings.new.items ≡ ending_names endings.old.items }
    ensures given { PutsGiven (ended_of named) endings.old.items endings.new.items }
{
    if let Some(place) = find_place(places, named.name) {
        put_ending(endings, place, named);
    }
}

// Puts what was given back to the jobs.
#[tactic(auto, using(crate::proofs::Endings::all_given, crate::proofs::Endings::puts_first))]
fn put_all(endings: &mut Vec<Ending<'_>>, places: &[Vec<usize>], done: Vec<NamedJob>)
    ensures outputs { ending_outputs endings.new.items ≡ ending_outputs endings.old.items }
    ensures names { ending_names endings.new.items ≡ ending_names endings.old.items }
    ensures given { PutsAllGiven (map ended_of done.items) endings.old.items endings.new.items }
{
    let mut done = done;
    while let Some(named) = done.pop() {
        put_named(endings, places, named);
    }
}

// The job after its end, where something was given back under its name.
fn close_ending(ending: Ending<'_>) -> Result<EndedJob<'_>, AllocError>
    ensures output { IfOk result (λ job. job.output ≡ ending.entry.output) }
    ensures name { IfOk result (λ job. job.name ≡ ending.entry.name) }
    ensures given { IfOk result (λ job. told_of job ≡ given_of ending.entry) }
{
    let Ending {
        name,
        output,
        ended,
    } = ending;
    let Some(NamedJob { name: told, done }) = ended else {
        return Err(AllocError);
    };
    if told.host != name.host || told.number != name.number {
        return Err(AllocError);
    }
    Ok(EndedJob { name, output, done })
}

// The jobs after their ends, where each has ended.
fn close_endings<'a>(
    alloc: Global,
    endings: Vec<Ending<'a>>,
) -> Result<Vec<EndedJob<'a>>, AllocError>
    ensures outputs { IfOk result (λ ended. ended_outputs ended.items ≡ ending_outputs endings.entry.items) }
    ensures names { IfOk result (λ ended. ended_names ended.items ≡ ending_names endings.entry.items) }
    ensures given { IfOk result (λ ended. map told_of ended.items ≡ map given_of endings.entry.items) }
{
    let mut ended = Vec::with_capacity(alloc, endings.len())?;
    for ending in endings {
        ended.push(close_ending(ending)?)?;
    }
    Ok(ended)
}

/// The jobs that were planned, each with what was given back under its name, where the jobs of each host have these places; none where a job hasn't
/// ended.
pub(crate) fn end_jobs<'a>(
    alloc: Global,
    planned: &[PlannedJob<'a>],
    places: &[Vec<usize>],
    done: Vec<NamedJob>,
) -> Result<Vec<EndedJob<'a>>, AllocError>
    ensures outputs { IfOk result (λ ended. ended_outputs ended.items ≡ planned_outputs planned.now) }
    ensures names { IfOk result (λ ended. ended_names ended.items ≡ planned_names planned.now) }
    ensures given { IfOk result (λ ended. WereGivenBack (map ended_of done.items) ended.items) }
{
    let mut endings = open_endings(alloc, planned)?;
    put_all(&mut endings, places, done);
    match close_endings(alloc, endings) {
        Ok(ended) => Ok(ended),
        Err(error) => Err(error),
    }
}

// Adds the line of a job.
fn push_job_line(text: &mut String, number: usize, code: u8) -> Result<(), AllocError>
    ensures { OnOk result (string_bytes text.new ≡ string_bytes text.old ++ job_line number code) }
{
    writeln!(text, "job {number} end {code}")
}

/// Adds a line `job K end CODE` for each job, K counted from 1.
pub(crate) fn push_job_lines(text: &mut String, jobs: &[EndedJob<'_>]) -> Result<(), AllocError>
    ensures { OnOk result (string_bytes text.new ≡ string_bytes text.old ++ job_lines 1 (codes_of jobs.now)) }
{
    for k in 0..jobs.len() {
        push_job_line(text, k + 1, jobs[k].done.code)?;
    }
    Ok(())
}
