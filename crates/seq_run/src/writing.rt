//! Writing what came of a run: the buffers of jobs, the images of dies, and the trace with the jobs' codes.
ghost use Rattle.std.specs.Prelude.{◌≡◌, ◌++◌, [], ◌⊎◌, List, ℕ, IfOk, IfErr, OnOk, OnErr, reverse, map};
ghost use Rattle.std.specs.Io.KnownBytes.{Appends};
ghost use Rattle.std.specs.List.{All, cons_option};
ghost use Rattle.std.specs.Option.{option_copied};
ghost use Rattle.std.specs.String.{string_bytes};
ghost use Rattle.seq_files.specs.Store.{with_all, written_of, made_of};
ghost use Rattle.die_model.specs.Image.{image_of};
ghost use Rattle.trace_files.specs.Files.{files_of};
ghost use Rattle.trace_text.specs.Line.{IsPrintable};
ghost use Rattle.trace_text.specs.Recorded.{timed_text};
ghost use Rattle.seq_run.specs.Timed.{IsTimed, HasTimes, text_of, timed_text_at, untold, files_with};
ghost use Rattle.seq_run.specs.Lines.{job_lines};
ghost use Rattle.seq_inputs.specs.Stops.{RefusesNothing};
ghost use Rattle.seq_run.specs.Written.{buffer_of, buffers_of, image_at, images_of, printed_trace, codes_of};
ghost use Rattle.seq_run.specs.Runs.{Outcome, ShowsAll, writes_of, lines_of};

use crate::job_ends::{EndedJob, push_job_lines};
use crate::request::RunRequest;
use crate::running::Ran;
use crate::summary::Summary;
use crate::timed_trace::time_trace;
use die_model::LunDie;
use run_plan::PlannedImage;
use seq_files::{Files, MadeFile, NewFile, list_made, write_text};
use seq_inputs::{Stop, write_files};
use std::alloc::{AllocError, Global};
use std::io::Write;
use target_bus::Bus;
use trace_files::{TraceOutputs, make_files};
use trace_text::{TimedItem, print, print_recorded};
use trace_timing::{PageTimes, TimingMode};

// The image of a die, for this path.
fn make_image<'a>(path: &'a str, die: &LunDie) -> Result<MadeFile<'a>, AllocError>
    ensures { IfOk result (λ file. made_of file ≡ (path.now, image_of die.now)) }
{
    Ok(MadeFile {
        path,
        bytes: die.image()?,
    })
}

// Adds the image of a die to the files that are to be written.
#[tactic(auto, using(crate::proofs::FilesMade::pushed, crate::proofs::FilesMade::not_pushed))]
fn push_image<'a>(
    made: &mut Vec<MadeFile<'a>>,
    dies: &[LunDie],
    image: &PlannedImage<'a>,
) -> Result<(), AllocError>
    ensures { OnOk result (map made_of made.new.items ≡ map made_of made.old.items ++ cons_option (image_at dies.now image.now) []) }
{
    match dies.get(image.number) {
        Some(die) => {
            let file = make_image(image.path, die)?;
            made.push(file)?;
            Ok(())
        }
        None => Ok(()),
    }
}

// The images of dies that are to be written.
#[tactic(auto, using(crate::proofs::FilesMade::image_more))]
fn make_images<'a>(
    alloc: Global,
    dies: &[LunDie],
    images: &[PlannedImage<'a>],
) -> Result<Vec<MadeFile<'a>>, AllocError>
    ensures { IfOk result (λ made. map made_of made.items ≡ images_of dies.now images.now) }
{
    let mut made = Vec::new(alloc);
    for image in images {
        push_image(&mut made, dies, image)?;
    }
    Ok(made)
}

// The text of the trace of a bus with these times.
#[tactic(auto, using(crate::proofs::Printing::legal_is_printable, crate::proofs::Timing::timed_is_printable))]
fn print_timed(alloc: Global, bus: &Bus, timed: &[TimedItem]) -> Result<String, AllocError>
    requires { IsTimed (reverse bus.now.past) timed.now }
    ensures { IfOk result (λ lines. string_bytes lines ≡ timed_text timed.now) }
{
    // Their contracts say that the trace is legal and that they are few, so that it can be printed.
    let _legal = bus.trace();
    let _few = bus.targets();
    print_recorded(alloc, timed)
}

// The text of the trace of a bus, which has these times if a timing mode is asked for.
#[tactic(auto, using(crate::proofs::Printing::legal_is_printable))]
fn print_trace(
    alloc: Global,
    mode: Option<TimingMode>,
    bus: &Bus,
    timed: &[TimedItem],
) -> Result<String, AllocError>
    requires { HasTimes mode (reverse bus.now.past) timed.now }
    ensures { IfOk result (λ lines. string_bytes lines ≡ text_of mode (reverse bus.now.past) timed.now) }
{
    // Its contract says that they are few, so that the trace can be printed.
    let _few = bus.targets();
    match mode {
        Some(_) => print_timed(alloc, bus, timed),
        None => print(alloc, bus.trace()),
    }
}

// What is printed of the trace of a bus: its text, unless it is kept quiet.
fn print_unless_quiet(
    alloc: Global,
    is_quiet: bool,
    mode: Option<TimingMode>,
    bus: &Bus,
    timed: &[TimedItem],
) -> Result<String, AllocError>
    requires { HasTimes mode (reverse bus.now.past) timed.now }
    ensures { IfOk result (λ lines. string_bytes lines ≡ printed_trace is_quiet (text_of mode (reverse bus.now.past) timed.now)) }
{
    if is_quiet {
        Ok(String::new(alloc))
    } else {
        print_trace(alloc, mode, bus, timed)
    }
}

// What is printed: the trace, unless it is kept quiet, and the codes of the jobs.
fn make_lines(
    alloc: Global,
    request: RunRequest<'_>,
    bus: &Bus,
    timed: &[TimedItem],
    jobs: &[EndedJob<'_>],
) -> Result<String, AllocError>
    requires { HasTimes request.times (reverse bus.now.past) timed.now }
    ensures { IfOk result (λ lines. string_bytes lines ≡ printed_trace request.entry.is_quiet (text_of request.entry.times (reverse bus.now.past) timed.now)
        ++ job_lines 1 (codes_of jobs.now)) }
{
    let RunRequest {
        is_quiet,
        times,
        ..
    } = request;
    let mut lines = print_unless_quiet(alloc, is_quiet, times, bus, timed)?;
    push_job_lines(&mut lines, jobs)?;
    Ok(lines)
}

// The files of the trace of a bus, whose text has no times.
#[tactic(auto, using(crate::proofs::Printing::legal_is_printable))]
fn make_untimed<'a>(
    alloc: Global,
    outputs: TraceOutputs<'a>,
    bus: &Bus,
) -> Result<Vec<MadeFile<'a>>, AllocError>
    ensures { IfOk result (λ made. (drawn : List ℕ)
        × (map made_of made.items ≡ files_of outputs.entry bus.now.geometry bus.now.targets (reverse bus.now.past) drawn)) }
{
    make_files(alloc, &bus.geometry(), bus.targets(), bus.trace(), outputs)
}

// The text of a trace with times, if a path is given for it.
fn make_timed_text<'a>(
    alloc: Global,
    path: Option<&'a str>,
    timed: &[TimedItem],
) -> Result<Vec<MadeFile<'a>>, AllocError>
    requires { All (λ t. IsPrintable t.item) timed.now }
    ensures { IfOk result (λ made. map made_of made.items ≡ timed_text_at (option_copied path.entry) timed.now) }
{
    let mut made = Vec::new(alloc);
    if let Some(path) = path {
        let bytes = print_recorded(alloc, timed)?.into_bytes();
        made.push(MadeFile { path, bytes })?;
    }
    Ok(made)
}

// The files of the trace of a bus, whose text has these times.
#[tactic(auto, using(crate::proofs::Printing::legal_is_printable, crate::proofs::Timing::timed_is_printable))]
fn make_timed<'a>(
    alloc: Global,
    outputs: TraceOutputs<'a>,
    bus: &Bus,
    timed: &[TimedItem],
) -> Result<Vec<MadeFile<'a>>, AllocError>
    requires { IsTimed (reverse bus.now.past) timed.now }
    ensures { IfOk result (λ made. (drawn : List ℕ) × (map made_of made.items ≡ timed_text_at (option_copied outputs.entry.text) timed.now
        ++ files_of (untold outputs.entry) bus.now.geometry bus.now.targets (reverse bus.now.past) drawn)) }
{
    // Their contracts say that the trace is legal and that they are few, so that it can be printed.
    let _legal = bus.trace();
    let _few = bus.targets();
    let mut made = make_timed_text(alloc, outputs.text, timed)?;
    let others = TraceOutputs {
        text: None,
        ..outputs
    };
    let mut more = make_untimed(alloc, others, bus)?;
    made.append(&mut more)?;
    Ok(made)
}

// The files of the trace of a bus, whose text has these times if a timing mode is asked for.
fn make_trace<'a>(
    alloc: Global,
    mode: Option<TimingMode>,
    outputs: TraceOutputs<'a>,
    bus: &Bus,
    timed: &[TimedItem],
) -> Result<Vec<MadeFile<'a>>, AllocError>
    requires { HasTimes mode (reverse bus.now.past) timed.now }
    ensures { IfOk result (λ made. (drawn : List ℕ)
        × (map made_of made.items ≡ files_with mode outputs.entry bus.now.geometry bus.now.targets (reverse bus.now.past) timed.now drawn)) }
{
    match mode {
        Some(_) => make_timed(alloc, outputs, bus, timed),
        None => make_untimed(alloc, outputs, bus),
    }
}

// Adds the buffer of a job, if it has an output, to the files that are to be written.
#[tactic(auto, using(seq_files::proofs::Made::listed_more))]
fn list_buffer<'p, 'b>(
    files: &mut Vec<NewFile<'p, 'b>>,
    job: &'b EndedJob<'p>,
) -> Result<(), AllocError>
    ensures { OnOk result (map written_of files.new.items ≡ map written_of files.old.items ++ cons_option (buffer_of job.entry.now) []) }
{
    if let Some(path) = job.output {
        let bytes = job.done.job.buffer();
        files.push(NewFile { path, bytes })?;
    }
    Ok(())
}

// Adds the buffers of the jobs that have an output, in the order of the jobs.
#[tactic(auto, using(crate::proofs::FilesMade::buffer_more))]
fn list_buffers<'p, 'b>(
    files: &mut Vec<NewFile<'p, 'b>>,
    jobs: &'b [EndedJob<'p>],
) -> Result<(), AllocError>
    ensures { OnOk result (map written_of files.new.items ≡ map written_of files.old.items ++ buffers_of jobs.entry.now) }
{
    for job in jobs {
        list_buffer(files, job)?;
    }
    Ok(())
}

// The files that are to be written: the buffers, the images, and those of the trace.
fn list_files<'p, 'b>(
    alloc: Global,
    jobs: &'b [EndedJob<'p>],
    images: &'b [MadeFile<'p>],
    trace: &'b [MadeFile<'p>],
) -> Result<Vec<NewFile<'p, 'b>>, AllocError>
    ensures { IfOk result (λ files. map written_of files.items ≡ buffers_of jobs.entry.now ++ (map made_of images.entry.now ++ map made_of trace.entry.now)) }
{
    let mut files = Vec::new(alloc);
    list_buffers(&mut files, jobs)?;
    list_made(&mut files, images)?;
    list_made(&mut files, trace)?;
    Ok(files)
}

// Prints a text.
fn print_lines<'a, W: Write>(output: &mut W, text: &str) -> Result<(), Stop<'a>>
    ensures ok { OnOk result (Appends (W.contents output.old) (W.contents output.new) text.now) }
    ensures nothing { IfErr result RefusesNothing }
{
    match write_text(output, text) {
        Ok(()) => Ok(()),
        Err(error) => Err(Stop::of_file("-", error)),
    }
}

// Writes the files, and then prints.
fn write_outcome<'p, F: Files, W: Write>(
    files: &mut F,
    output: &mut W,
    made: &[NewFile<'p, '_>],
    lines: &str,
) -> Result<(), Stop<'p>>
    ensures files { OnOk result (F.store files.new ≡ with_all (map written_of made.now) (F.store files.old)) }
    ensures printed { OnOk result (Appends (W.contents output.old) (W.contents output.new) lines.now) }
    ensures err { OnErr result ((F.store files.new ≡ F.store files.old) ⊎ (F.store files.new ≡ with_all (map written_of made.now) (F.store files.old))) }
    ensures nothing { IfErr result RefusesNothing }
{
    match write_files(files, made) {
        Ok(()) => print_lines(output, lines),
        Err(stop) => Err(stop),
    }
}

/// Writes the buffers in the order of the jobs, the images in the order of their lines, those of the trace, all or none, and then prints. It tells what there was. What takes memory comes before the first file is written.
pub(crate) fn write_run<'a, F: Files, W: Write>(
    alloc: Global,
    files: &mut F,
    output: &mut W,
    request: RunRequest<'a>,
    page: PageTimes,
    ran: Ran<'a>,
) -> Result<Summary, Stop<'a>>
    ensures ok { OnOk result ((o : Outcome) × ShowsAll request.entry ran.entry o
        × (F.store files.new ≡ with_all (writes_of request.entry o) (F.store files.old))
        × Appends (W.contents output.old) (W.contents output.new) (lines_of request.entry o)) }
    ensures err { OnErr result ((F.store files.new ≡ F.store files.old)
        ⊎ ((o : Outcome) × ShowsAll request.entry ran.entry o × (F.store files.new ≡ with_all (writes_of request.entry o) (F.store files.old)))) }
    ensures nothing { IfErr result RefusesNothing }
{
    let Ran { bus, images, jobs } = ran;
    let timed = time_trace(alloc, request.times, page, &bus)?;
    let times = timed.as_slice();
    let lines = make_lines(alloc, request, &bus, times, jobs.as_slice())?;
    let trace = make_trace(alloc, request.times, request.trace, &bus, times)?;
    let summary = Summary::of(jobs.len(), bus.trace());
    let dies = bus.into_dies();
    let images = make_images(alloc, dies.as_slice(), images.as_slice())?;
    let made = list_files(alloc, jobs.as_slice(), images.as_slice(), trace.as_slice())?;
    match write_outcome(files, output, made.as_slice(), lines.as_str()) {
        Ok(()) => Ok(summary),
        Err(stop) => Err(stop),
    }
}
