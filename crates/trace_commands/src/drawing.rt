//! The commands that draw a trace.
ghost use Rattle.std.specs.Prelude.{◌≡◌, ◌⊎◌, false, IfOk, IfErr, OnOk, OnErr, codes};
ghost use Rattle.std.specs.Io.KnownBytes.{Appends};
ghost use Rattle.seq_inputs.specs.declared.refusal.Refusal.{Refusal};
ghost use Rattle.seq_inputs.specs.Inputs.{PageIsRefused};
ghost use Rattle.seq_inputs.specs.Stops.{Tells};
ghost use Rattle.seq_inputs.specs.Refusals.{line_of};
ghost use Rattle.recording.specs.declared.recording_fault.RecordingFault.{RecordingFault};
ghost use Rattle.recording.specs.Endings.{SaysOf};
ghost use Rattle.recording.specs.Recordings.{fault_line};
ghost use Rattle.recording.specs.Traces.{TraceIsRefused};
ghost use Rattle.trace_commands.specs.Draws.{view_of, IsDrawn};

use crate::draw_request::DrawRequest;
use nand_geometry::Geometry;
use recording::{
    Ending, KeptTrace, RecordingStop, TraceRequest, TraceView, end_stopped, keep_items, read_items,
    steps_at,
};
use seq_files::Files;
use seq_inputs::{
    Console, Exit, Style, finish, geometry_as, read_file, text_of, try_file, write_file,
};
use std::alloc::{AllocError, Global};
use std::io::Write;
use trace_faults::{Beginning, Readies};
use trace_files::make_drawing;
use trace_text::{RecordedItem, TraceForm, TraceRefusal, parse_timed};

// How the trace is looked at.
fn view_of(request: DrawRequest<'_>, geometry: Geometry) -> TraceView
    ensures { result ≡ view_of request.entry geometry }
{
    TraceView {
        geometry,
        targets: request.trace.targets,
        readies: Readies::Written,
        beginning: Beginning::Start,
    }
}

// The time of the item that stands there, where it has one.
fn time_at(items: &[RecordedItem], place: usize) -> Option<u64> {
    match items.get(place) {
        Some(found) => found.time,
        None => None,
    }
}

// The times of what is kept of a text that has been read, where it is a recorded one.
fn times_of(
    alloc: Global,
    trace: TraceRequest<'_>,
    text: &str,
    kept: &KeptTrace,
) -> Result<Vec<Option<u64>>, AllocError> {
    if trace.form != TraceForm::Recorded {
        return Ok(Vec::new(alloc));
    }
    match parse_timed(alloc, text, trace.profile) {
        Ok(items) => {
            let mut times = Vec::new(alloc);
            for place in 0..kept.items().len() {
                times.push(time_at(items.as_slice(), kept.place_of(place)))?;
            }
            Ok(times)
        }
        Err(TraceRefusal::Fault { .. }) => Ok(Vec::new(alloc)),
        Err(TraceRefusal::OutOfMemory) => Err(AllocError),
    }
}

// Reads a page, a vendor file and the text of a trace, and writes the drawing of that without the vendor's sequences: what is drawn.
fn draw_at<'p, F: Files>(
    alloc: Global,
    files: &mut F,
    request: DrawRequest<'p>,
) -> Result<KeptTrace, RecordingStop<'p>>
    ensures ok { OnOk result (IsDrawn (F.store files.old) (F.store files.new) request.entry) }
    ensures err { IfErr result (SaysOf (PageIsRefused (F.store files.old) request.entry.trace.page.now) (TraceIsRefused (F.store files.old) false request.entry.trace)) }
    ensures stays { OnErr result (F.store files.new ≡ F.store files.old) }
{
    let trace = request.trace;
    let geometry = geometry_as(alloc, files, trace.profile, trace.page)?;
    let steps = match steps_at(alloc, files, trace.profile, trace.vendor) {
        Ok(steps) => steps,
        Err(stop) => return Err(stop),
    };
    let bytes = read_file(alloc, files, trace.input)?;
    let text = text_of(trace.input, bytes.as_slice())?;
    let items = match read_items(alloc, trace.input, text, trace.form, trace.profile) {
        Ok(items) => items,
        Err(stop) => return Err(stop),
    };
    try_file(files, request.target)?;
    let kept = keep_items(alloc, steps.as_slice(), &view_of(request, geometry), items)?;
    let times = times_of(alloc, trace, text, &kept)?;
    let drawing = make_drawing(
        alloc,
        request.form,
        &geometry,
        trace.targets.count(),
        kept.items(),
        times.as_slice(),
    )?;
    write_file(files, request.target, drawing.as_slice())?;
    Ok(kept)
}

// Says how much a drawing leaves out, where a vendor file is given.
fn say_kept<E: Write>(errors: &mut E, request: DrawRequest<'_>, kept: &KeptTrace) {
    if request.trace.vendor.is_none() {
        return;
    }
    let _ = writeln!(errors, "{}", kept.amount());
    if kept.broken() != 0 {
        let _ = writeln!(
            errors,
            "cycles among them that aren't next in a sequence: {}",
            kept.broken()
        );
    }
    let _ = errors.flush();
}

/// Draws the trace of a text on a channel of so many targets of the geometry of a parameter page, as a waveform, as a picture or as a page, with its times if it is a recorded trace, without what belongs to a
/// vendor's sequences, where a vendor file is given ([`vendor_file`]). A trace needn't be legal.
///
/// `Done`: the drawing is written, and `ok` is printed; a waveform is exactly the dump of the trace (`trace_wave`). `Refused`: the line
/// `refused NAME at N` is printed, a P fault of the page, and no file is written. `Faulty`: so is it, an N fault of the vendor file or an X fault of the text, with its
/// line. `FileFault`: a file couldn't be read or written, the text isn't UTF-8, or the output couldn't be written. However it ends, files are as they were, or that
/// one file is written whole. On the console's errors stands in the end how much is left out.
pub fn draw_trace<F: Files, W: Write, E: Write, P>(
    alloc: Global,
    files: &mut F,
    console: &mut Console<W, E, P>,
    request: DrawRequest<'_>,
) -> Ending
    ensures done { result ≡ Ending.Exit Exit.Done → IsDrawn (F.store files.old) (F.store files.new) request.entry
        × Appends (W.contents console.old.output) (W.contents console.new.output) (codes "ok\n") }
    ensures flagged { result ≡ Ending.Flagged → ⊥ }
    ensures refused { (refusal : Refusal) → result ≡ Ending.Exit (Exit.Refused refusal)
        → Tells (PageIsRefused (F.store files.old) request.entry.trace.page.now) refusal
        × (F.store files.new ≡ F.store files.old) × Appends (W.contents console.old.output) (W.contents console.new.output) (line_of refusal) }
    ensures faulty { (fault : RecordingFault) → result ≡ Ending.Faulty fault → TraceIsRefused (F.store files.old) false request.entry.trace fault
        × (F.store files.new ≡ F.store files.old) × Appends (W.contents console.old.output) (W.contents console.new.output) (fault_line fault) }
    ensures files { (F.store files.new ≡ F.store files.old) ⊎ IsDrawn (F.store files.old) (F.store files.new) request.entry }
{
    match draw_at(alloc, files, request) {
        Ok(kept) => {
            let exit = finish(console, "ok\n");
            if matches!(exit, Exit::Done) {
                say_kept(&mut console.errors, request, &kept);
            }
            Ending::Exit(exit)
        }
        Err(stop) => end_stopped(alloc, console, Style::Plain, stop),
    }
}
