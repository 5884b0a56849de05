//! The command that takes a parameter page of a trace or a capture.
ghost use Rattle.std.specs.Prelude.{◌≡◌, ◌⊎◌, Ok, codes, IfOk, IfErr, IfSome, OnOk, OnErr};
ghost use Rattle.std.specs.Io.KnownBytes.{Appends};
ghost use Rattle.nand_geometry.specs.declared.parts.Parts.{Parts};
ghost use Rattle.nand_geometry.specs.Reading.{read_of};
ghost use Rattle.seq_inputs.specs.declared.refusal.Refusal.{Refusal};
ghost use Rattle.seq_inputs.specs.Refusals.{line_of};
ghost use Rattle.recording.specs.declared.recording_fault.RecordingFault.{RecordingFault};
ghost use Rattle.recording.specs.Recordings.{fault_line};
ghost use Rattle.trace_commands.specs.TakenPages.{IsPageTaken};

use crate::page_outputs::{COPY_LEN, PageOutputs};
use crate::page_request::{PageRequest, PageSource};
use bus_capture::{CaptureForm, Setup};
use nand_geometry::{Geometry, PageFault, Profile, SMALL_CHIP};
use onfi_cycle::Item;
use recording::{
    Ending, RecordingStop, Targets, TraceView, end_stopped, items_seen, keep_items, mappings_of,
    read_items, see_capture, steps_at,
};
use seq_files::Files;
use seq_inputs::{
    Console, Exit, Fault, Stop, Style, Words, end_without_memory, finish, read_file, text_of,
    write_file,
};
use std::alloc::{AllocError, Global};
use std::io::Write;
use trace_faults::{Beginning, Readies};
use trace_text::TraceForm;

// The most targets of a channel.
const TARGETS: u8 = 4;

// The geometry by which a capture is read here: it says when LUNs are ready, which the outputs of a page don't depend on.
fn any_geometry<'p>() -> Result<Geometry, RecordingStop<'p>> {
    match Geometry::of(SMALL_CHIP) {
        Ok(geometry) => Ok(geometry),
        Err(fault) => Err(RecordingStop::Stop(Stop::refused(Fault::Page { fault }, None))),
    }
}

// The first whole copy that a page can be read of.
fn find_copy(bytes: &[u8]) -> Option<&[u8]>
    ensures { IfSome result (λ copy. (g : Parts) × (read_of copy.now ≡ Ok g)) }
{
    for copy in bytes.chunks_exact(COPY_LEN) {
        if Geometry::read(copy).is_ok() {
            return Some(copy);
        }
    }
    None
}

// The items of a capture of one target.
fn items_of_capture<'p>(
    alloc: Global,
    path: &'p str,
    bytes: &[u8],
    form: CaptureForm,
    mappings: Option<&str>,
) -> Result<Vec<Item>, RecordingStop<'p>> {
    let mappings = mappings_of(alloc, mappings)?;
    let setup = Setup {
        form,
        geometry: any_geometry()?,
        targets: 1,
        mappings: mappings.as_slice(),
        glitch: 0,
        late: None,
    };
    let seen = match see_capture(alloc, path, &setup, bytes) {
        Ok(seen) => seen,
        Err(stop) => return Err(stop),
    };
    Ok(items_seen(alloc, seen.stamped.as_slice())?)
}

// The items of what a page is taken of.
fn items_at<'p>(
    alloc: Global,
    request: PageRequest<'p>,
    bytes: &[u8],
) -> Result<Vec<Item>, RecordingStop<'p>> {
    let path = request.input;
    match request.source {
        PageSource::Trace => {
            let text = text_of(path, bytes)?;
            read_items(alloc, path, text, TraceForm::Recorded, Profile::Base)
        }
        PageSource::Capture { form, mappings } => {
            items_of_capture(alloc, path, bytes, form, mappings)
        }
    }
}

// The same without the items of a vendor's sequences.
fn kept_at<'p, F: Files>(
    alloc: Global,
    files: &mut F,
    request: PageRequest<'p>,
    bytes: &[u8],
) -> Result<Vec<Item>, RecordingStop<'p>>
    ensures stays { F.store files.new ≡ F.store files.old }
{
    let items = items_at(alloc, request, bytes)?;
    if request.vendor.is_none() {
        return Ok(items);
    }
    let steps = steps_at(alloc, files, Profile::Base, request.vendor)?;
    let view = TraceView {
        geometry: any_geometry()?,
        targets: Targets::Four,
        readies: Readies::Written,
        beginning: Beginning::Start,
    };
    let kept = keep_items(alloc, steps.as_slice(), &view, items)?;
    let mut left = Vec::new(alloc);
    left.extend_from_slice(kept.items())?;
    Ok(left)
}

// What is wrong with the bytes that a page has on the bus.
fn fault_of(bytes: &[u8]) -> PageFault {
    match Geometry::read(bytes) {
        Ok(_) => PageFault::TooShort,
        Err(fault) => fault,
    }
}

// Why no page is taken, where these are the bytes of its reads.
fn refuse_outputs<'p>(alloc: Global, path: &'p str, bytes: &[u8]) -> RecordingStop<'p> {
    let fault = fault_of(bytes);
    let code = fault.code();
    let words = match bytes.len() {
        0 => format!(in alloc;
            "no parameter page is read: no output comes after ECh and address 00h ({code})"
        ),
        1..COPY_LEN => format!(in alloc;
            "the parameter page isn't read whole: {} outputs come after ECh and address 00h, and a copy has 256 ({code})",
            bytes.len()
        ),
        len => format!(in alloc;
            "of {} copies of the parameter page none is right: {fault} ({code})",
            len / COPY_LEN
        ),
    };
    let words = Words::at(path, None, words);
    RecordingStop::Stop(Stop::refused(Fault::Page { fault }, words))
}

// The outputs of the page reads of the first target that has one from which a page can be read; or else of the first that has some.
fn outputs_of(alloc: Global, items: &[Item]) -> Result<Vec<u8>, AllocError> {
    let mut first = Vec::new(alloc);
    for target in 0..TARGETS {
        let PageOutputs { bytes, .. } = PageOutputs::of(alloc, items, target)?;
        if find_copy(bytes.as_slice()).is_some() {
            return Ok(bytes);
        }
        if first.is_empty() {
            first = bytes;
        }
    }
    Ok(first)
}

// Reads a trace or a capture, and writes the parameter page that is read in it.
fn take_at<'p, F: Files>(
    alloc: Global,
    files: &mut F,
    request: PageRequest<'p>,
) -> Result<(), RecordingStop<'p>>
    ensures ok { OnOk result (IsPageTaken (F.store files.old) (F.store files.new) request.entry.target.now) }
    ensures stays { OnErr result (F.store files.new ≡ F.store files.old) }
{
    let bytes = read_file(alloc, files, request.input)?;
    let items = kept_at(alloc, files, request, bytes.as_slice())?;
    let outputs = outputs_of(alloc, items.as_slice())?;
    match find_copy(outputs.as_slice()) {
        Some(copy) => {
            write_file(files, request.target, copy)?;
            Ok(())
        }
        None => Err(refuse_outputs(alloc, request.input, outputs.as_slice())),
    }
}

/// Takes the parameter page of a chip of a trace or a capture of its bus: the outputs after ECh and address 00h, a status that is read between left out. The trace may
/// have faults, and sequences outside of the profile. A capture is read as one of one target.
///
/// `Done`: the first whole copy of the page that is right is written, and `ok` is printed. `Refused`: the line `refused NAME at 0` is printed, a P fault of
/// these outputs. `Faulty`: so is a fault of the trace or the capture, with its line or its time. `FileFault`: a file couldn't be read or written, or the output couldn't be
/// written. However it ends, files are as they were, or that one file is written whole.
pub fn take_page<F: Files, W: Write, E: Write, P>(
    alloc: Global,
    files: &mut F,
    console: &mut Console<W, E, P>,
    request: PageRequest<'_>,
) -> Ending
    ensures done { result ≡ Ending.Exit Exit.Done → IsPageTaken (F.store files.old) (F.store files.new) request.entry.target.now
        × Appends (W.contents console.old.output) (W.contents console.new.output) (codes "ok\n") }
    ensures flagged { result ≡ Ending.Flagged → ⊥ }
    ensures refused { (refusal : Refusal) → result ≡ Ending.Exit (Exit.Refused refusal)
        → (F.store files.new ≡ F.store files.old) × Appends (W.contents console.old.output) (W.contents console.new.output) (line_of refusal) }
    ensures faulty { (fault : RecordingFault) → result ≡ Ending.Faulty fault
        → (F.store files.new ≡ F.store files.old) × Appends (W.contents console.old.output) (W.contents console.new.output) (fault_line fault) }
    ensures files { (F.store files.new ≡ F.store files.old) ⊎ IsPageTaken (F.store files.old) (F.store files.new) request.entry.target.now }
{
    match take_at(alloc, files, request) {
        Ok(()) => Ending::Exit(finish(console, "ok\n")),
        Err(stop) => end_stopped(alloc, console, Style::Plain, stop),
    }
}
