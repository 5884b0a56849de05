//! The command that writes what a die holds after a trace.
ghost use Rattle.std.specs.Prelude.{◌≡◌, ◌⊎◌, ◌++◌, ◌*◌, ℕ, List, [], true, false, Some, IfOk, IfErr, OnOk, OnErr, length, slice_get};
ghost use Rattle.std.specs.String.{string_bytes};
ghost use Rattle.std.specs.Io.KnownBytes.{Appends};
ghost use Rattle.die_model.specs.Die.{Die};
ghost use Rattle.target_bus.specs.Bus.{number_of};
ghost use Rattle.seq_files.specs.Store.{with_file};
ghost use Rattle.seq_inputs.specs.declared.refusal.Refusal.{Refusal};
ghost use Rattle.seq_inputs.specs.Refusals.{line_of};
ghost use Rattle.seq_inputs.specs.Stops.{IsRefusal, Says, Tells};
ghost use Rattle.trace_faults.specs.declared.unshown.NotShown.{NotShown};
ghost use Rattle.recording.specs.declared.recording_fault.RecordingFault.{RecordingFault};
ghost use Rattle.recording.specs.declared.recording_fault.RecordingFault.TheVariants.{Item as ItemAt};
ghost use Rattle.recording.specs.Checks.{RecordingIsRefused};
ghost use Rattle.trace_commands.specs.Reports.{fault_lines};
ghost use Rattle.recording.specs.Endings.{SaysOf};
ghost use Rattle.recording.specs.Targets.{count_of};
ghost use Rattle.recording.specs.Opened.{has_lun};
ghost use Rattle.trace_commands.specs.Images.{check_of, images_of, reads_for, IsImage, IsLeft, LacksLun, IsDieWritten, done_text, IsWrittenAt, RefusesAt, ImageRefuses, ImageTells};

use crate::check_report::{fault_of, lines_of, push_assumed};
use crate::fault_words::say_faults;
use crate::image_request::ImageRequest;
use crate::remark_words::say_remarks;
use die_model::LunDie;
use nand_geometry::Geometry;
use recording::{
    CheckRequest, CheckedTrace, DataRequest, Ending, GivenImage, RecordingStop, end_stopped,
    judge_trace,
};
use seq_core::JobFault;
use seq_files::Files;
use seq_inputs::{
    Console, Exit, Fault, Stop, Style, end_without_memory, finish, try_file, words_of, write_file,
};
use std::alloc::{AllocError, Global};
use std::io::Write;
use trace_data::{PageRead, fill_pages, find_page_reads};
use trace_faults::{Beginning, BrokenRule, NotShown};
use trace_text::CheckProgress;

// How the trace is judged of which an image is made.
fn check_of<'p>(request: ImageRequest<'p>) -> CheckRequest<'p>
    ensures { result ≡ check_of request.entry }
{
    CheckRequest {
        trace: request.trace,
        tells_all: false,
        readies: request.readies,
        assumes_ready: true,
        beginning: Beginning::Start,
        judges_bytes: false,
        has_notes: false,
        times: None,
        dies: None,
        style: Style::Plain,
        copy: None,
    }
}

// The channel has no such LUN.
fn refuse_lun<'p>(alloc: Global, path: &'p str) -> Stop<'p>
    ensures { IsRefusal (Fault.Job JobFault.NoSuchLun) result }
{
    let fault = Fault::Job {
        fault: JobFault::NoSuchLun,
    };
    Stop::refused(fault, words_of(alloc, path, fault))
}

// Whether a channel has the LUN.
fn has_lun(request: ImageRequest<'_>, trace: &CheckedTrace) -> bool
    ensures { result ≡ has_lun trace.now.geometry (count_of request.entry.trace.targets) request.entry.lun }
{
    request.lun.ce < request.trace.targets.count() && request.lun.lun < trace.geometry.parts().luns
}

// The pages that a request fills.
fn reads_for(
    alloc: Global,
    request: ImageRequest<'_>,
    trace: &CheckedTrace,
) -> Result<Vec<PageRead>, AllocError>
    requires { has_lun trace.now.geometry (count_of request.trace.targets) request.lun ≡ true }
    ensures { IfOk result (λ reads. reads.items ≡ reads_for request.entry trace.now.geometry trace.now.whole.items) }
{
    if request.fills_reads {
        let whole = trace.whole.as_slice();
        let targets = request.trace.targets.count();
        find_page_reads(alloc, &trace.geometry, targets, request.lun, whole)
    } else {
        Ok(Vec::new(alloc))
    }
}

// The image of a die with pages that were read.
fn image_with(geometry: &Geometry, die: &LunDie, reads: &[PageRead]) -> Result<Vec<u8>, AllocError>
    requires { die.now.geometry ≡ geometry.now }
    ensures { IfOk result (λ image. IsImage die.now reads.now image.items) }
{
    let mut pages = die.pages()?;
    fill_pages(&mut pages, reads)?;
    pages.image(geometry)
}

// Writes the image of a die after a trace that has no fault.
#[tactic(auto, using(crate::proofs::Places::place_inside))]
fn write_die<'p, F: Files>(
    alloc: Global,
    files: &mut F,
    request: ImageRequest<'p>,
    trace: &CheckedTrace,
) -> Result<(), Stop<'p>>
    requires { length trace.now.dies.items ≡ count_of request.trace.targets * trace.now.geometry.luns }
    ensures has { OnOk result (has_lun trace.now.geometry (count_of request.entry.trace.targets) request.entry.lun ≡ true) }
    ensures ok { OnOk result ((die : Die) × (slice_get trace.now.dies.items (number_of trace.now.geometry request.entry.lun) ≡ Some die)
        × (image : List ℕ) × IsImage die (reads_for request.entry trace.now.geometry trace.now.whole.items) image
        × (F.store files.new ≡ with_file (F.store files.old) request.entry.output.now image)) }
    ensures err { IfErr result (Says (LacksLun request.entry trace.now.geometry)) }
    ensures stays { OnErr result (F.store files.new ≡ F.store files.old) }
{
    if !has_lun(request, trace) {
        return Err(refuse_lun(alloc, request.trace.page));
    }
    let die = &trace.dies[request.lun.place(trace.geometry.parts().luns)];
    let reads = reads_for(alloc, request, trace)?;
    let image = image_with(&die.geometry(), die, reads.as_slice())?;
    write_file(files, request.output, image.as_slice())
}

// Writes the image of a die after a trace, unless that has a fault.
fn write_left<'p, F: Files>(
    alloc: Global,
    files: &mut F,
    request: ImageRequest<'p>,
    trace: &CheckedTrace,
) -> Result<(), Stop<'p>>
    requires { length trace.now.dies.items ≡ count_of request.trace.targets * trace.now.geometry.luns }
    ensures ok { OnOk result (IsLeft (F.store files.old) (F.store files.new) request.entry trace.now.geometry trace.now.told.items trace.now.dies.items trace.now.whole.items) }
    ensures err { IfErr result (Says (LacksLun request.entry trace.now.geometry)) }
    ensures stays { OnErr result (F.store files.new ≡ F.store files.old) }
{
    match trace.told.as_slice() {
        [] => write_die(alloc, files, request, trace),
        [_, ..] => Ok(()),
    }
}

// Reads what an image is made of, and writes the image, unless the trace has a fault.
#[tactic(auto, using(crate::proofs::Written::dies_count, crate::proofs::Written::uncopied, crate::proofs::Written::written_at))]
fn write_at<'p, F: Files, P: CheckProgress>(
    alloc: Global,
    files: &mut F,
    progress: &mut P,
    request: ImageRequest<'p>,
    images: &[GivenImage<'p>],
) -> Result<CheckedTrace, RecordingStop<'p>>
    ensures ok { IfOk result (λ t. IsWrittenAt (F.store files.old) (F.store files.new) request.entry images.now t.geometry
        t.told.items t.assumed.items t.dies.items t.whole.items) }
    ensures err { IfErr result (SaysOf (RefusesAt (F.store files.old) request.entry images.now)
        (RecordingIsRefused (F.store files.old) (check_of request.entry))) }
    ensures stays { OnErr result (F.store files.new ≡ F.store files.old) }
{
    try_file(files, request.output)?;
    let given = DataRequest {
        images,
        are_erased: true,
    };
    let trace = match judge_trace(alloc, files, progress, check_of(request), Some(given)) {
        Ok(trace) => trace,
        Err(stop) => return Err(stop),
    };
    write_left(alloc, files, request, &trace)?;
    Ok(trace)
}

// The same on the image that is given.
fn write_on<'p, F: Files, P: CheckProgress>(
    alloc: Global,
    files: &mut F,
    progress: &mut P,
    request: ImageRequest<'p>,
) -> Result<CheckedTrace, RecordingStop<'p>>
    ensures ok { IfOk result (λ t. IsWrittenAt (F.store files.old) (F.store files.new) request.entry (images_of request.entry) t.geometry
        t.told.items t.assumed.items t.dies.items t.whole.items) }
    ensures err { IfErr result (SaysOf (ImageRefuses (F.store files.old) request.entry)
        (RecordingIsRefused (F.store files.old) (check_of request.entry))) }
    ensures stays { OnErr result (F.store files.new ≡ F.store files.old) }
{
    match request.on {
        None => write_at(alloc, files, progress, request, &[]),
        Some(path) => {
            let lun = request.lun;
            write_at(alloc, files, progress, request, &[GivenImage { lun, path }])
        }
    }
}

// What is printed of a trace whose image was written.
fn done_text(alloc: Global, assumed: &[NotShown]) -> Result<String, AllocError>
    ensures { IfOk result (λ text. string_bytes text ≡ done_text assumed.now) }
{
    let mut text = String::new(alloc);
    text.push_str("ok\n")?;
    push_assumed(&mut text, assumed)?;
    Ok(text)
}

// Ends the command whose image was written.
fn tell_done<W: Write, E: Write, P>(
    alloc: Global,
    console: &mut Console<W, E, P>,
    assumed: &[NotShown],
) -> Ending
    ensures done { result ≡ Ending.Exit Exit.Done → Appends (W.contents console.old.output) (W.contents console.new.output) (done_text assumed.now) }
    ensures flagged { result ≡ Ending.Flagged → ⊥ }
    ensures refused { (refusal : Refusal) → result ≡ Ending.Exit (Exit.Refused refusal) → ⊥ }
    ensures faulty { (fault : RecordingFault) → result ≡ Ending.Faulty fault → ⊥ }
{
    match done_text(alloc, assumed) {
        Ok(text) => Ending::Exit(finish(console, text.as_str())),
        Err(_) => Ending::Exit(end_without_memory(console)),
    }
}

// Says what is wrong with the trace, unless there is no memory for that.
fn say_found<E: Write>(
    alloc: Global,
    errors: &mut E,
    request: ImageRequest<'_>,
    trace: &CheckedTrace,
) {
    if let Ok(text) = str::from_utf8(trace.text.as_slice()) {
        let check = check_of(request);
        say_faults(alloc, errors, check, text, trace);
        say_remarks(alloc, errors, check, text, trace);
    }
}

// Ends the command whose trace has faults, of which this is the first.
fn tell_fault<W: Write, E: Write, P>(
    alloc: Global,
    console: &mut Console<W, E, P>,
    request: ImageRequest<'_>,
    trace: &CheckedTrace,
    first: BrokenRule,
) -> Ending
    ensures done { result ≡ Ending.Exit Exit.Done → ⊥ }
    ensures flagged { result ≡ Ending.Flagged → ⊥ }
    ensures refused { (refusal : Refusal) → result ≡ Ending.Exit (Exit.Refused refusal) → ⊥ }
    ensures faulty { (fault : RecordingFault) → result ≡ Ending.Faulty fault → (fault ≡ ItemAt first.rule first.item)
        × Appends (W.contents console.old.output) (W.contents console.new.output) (fault_lines trace.now.told.items) }
{
    let Ok(lines) = lines_of(alloc, trace.told.as_slice()) else {
        return Ending::Exit(end_without_memory(console));
    };
    match finish(console, lines.as_str()) {
        Exit::Done => {
            say_found(alloc, &mut console.errors, request, trace);
            Ending::Faulty(fault_of(first))
        }
        exit => Ending::Exit(exit),
    }
}

/// Writes the image of what the die of a LUN holds after a trace, on a channel of so many targets of the geometry of a parameter page: what it held at the
/// beginning, with each program and each erase that ended without failure. The other dies were erased. Where it is asked for, a page that it doesn't keep and that
/// no work of the trace has left otherwise is filled with its first whole read.
///
/// `Done`: it is written, and `ok` is printed, and a line `assumed ready at N` for each item before which a LUN is assumed ready. `Refused`: the line
/// `refused NAME at N` is printed, a P fault of the page, an I fault of the image that is given, or S2 where the channel has no such LUN. `Faulty`: so is it, an X
/// fault of the text or the first fault of the trace. `FileFault`: a file couldn't be read or written, or the text isn't UTF-8. However it ends, files are as they
/// were, or that one file is written whole.
pub fn write_image<F: Files, W: Write, E: Write, P: CheckProgress>(
    alloc: Global,
    files: &mut F,
    console: &mut Console<W, E, P>,
    request: ImageRequest<'_>,
) -> Ending
    ensures done { result ≡ Ending.Exit Exit.Done → (assumed : List NotShown) × IsDieWritten (F.store files.old) (F.store files.new) request.entry assumed
        × Appends (W.contents console.old.output) (W.contents console.new.output) (done_text assumed) }
    ensures flagged { result ≡ Ending.Flagged → ⊥ }
    ensures refused { (refusal : Refusal) → result ≡ Ending.Exit (Exit.Refused refusal) → Tells (ImageRefuses (F.store files.old) request.entry) refusal
        × (F.store files.new ≡ F.store files.old) × Appends (W.contents console.old.output) (W.contents console.new.output) (line_of refusal) }
    ensures faulty { (fault : RecordingFault) → result ≡ Ending.Faulty fault → (printed : List ℕ)
        × ImageTells (F.store files.old) (F.store files.new) request.entry fault printed
        × (F.store files.new ≡ F.store files.old) × Appends (W.contents console.old.output) (W.contents console.new.output) printed }
    ensures files { (F.store files.new ≡ F.store files.old) ⊎ ((assumed : List NotShown) × IsDieWritten (F.store files.old) (F.store files.new) request.entry assumed) }
{
    match write_on(alloc, files, &mut console.progress, request) {
        Ok(trace) => match trace.told.as_slice() {
            [] => tell_done(alloc, console, trace.assumed.as_slice()),
            [first, ..] => tell_fault(alloc, console, request, &trace, *first),
        },
        Err(stop) => end_stopped(alloc, console, Style::Plain, stop),
    }
}
