//! The command that lists the operations of a trace.
ghost use Rattle.std.specs.Prelude.{◌≡◌, ℕ, true, List, IfOk, IfErr};
ghost use Rattle.std.specs.Io.KnownBytes.{Appends};
ghost use Rattle.seq_inputs.specs.declared.refusal.Refusal.{Refusal};
ghost use Rattle.seq_inputs.specs.Inputs.{PageIsRefused};
ghost use Rattle.seq_inputs.specs.Refusals.{line_of};
ghost use Rattle.seq_inputs.specs.Stops.{Tells};
ghost use Rattle.recording.specs.declared.recording_fault.RecordingFault.{RecordingFault};
ghost use Rattle.recording.specs.Endings.{SaysOf};
ghost use Rattle.recording.specs.Recordings.{fault_line};
ghost use Rattle.recording.specs.Traces.{TraceIsRefused};
ghost use Rattle.operation_commands.specs.Ops.{CanBeListed};

use crate::busy::Busy;
use crate::data_lines::{Data, push_data};
use crate::fault_lines::push_beneath;
use crate::faults_found::FaultsFound;
use crate::filter::is_printed;
use crate::item_groups::ItemGroups;
use crate::listed_trace::ListedTrace;
use crate::op_line::push_line;
use crate::op_row::{NAMES, push_csv, push_json};
use crate::ops_request::{OpsForm, OpsRequest, OpsText};
use crate::overlap::Overlap;
use crate::summary::Summary;
use nand_geometry::Geometry;
use recording::{
    Ending, KeptTrace, RecordingStop, TraceView, end_stopped, keep_timed, read_timed, steps_at,
};
use seq_files::Files;
use seq_inputs::{Console, Exit, Style, finish, geometry_as, read_file, text_of};
use std::alloc::{AllocError, Global};
use std::io::Write;
use trace_faults::Readies;
use trace_ops::{Operation, Operations, find_operations};

// The operations of a trace, and what is said of them.
fn list_items(alloc: Global, view: TraceView, kept: KeptTrace) -> Result<ListedTrace, AllocError> {
    let Operations {
        operations,
        marks,
        verdicts,
    } = find_operations(
        alloc,
        &view.geometry,
        view.targets.count(),
        kept.items(),
        view.readies,
        view.beginning,
    )?;
    let groups = ItemGroups::of(alloc, marks.as_slice(), operations.len())?;
    let FaultsFound {
        faults,
        granted,
        not_shown,
    } = FaultsFound::of(alloc, verdicts.as_slice())?;
    Ok(ListedTrace {
        geometry: view.geometry,
        kept,
        operations,
        groups,
        faults,
        granted,
        not_shown,
    })
}

// Adds an operation in lines for people.
fn push_text(
    text: &mut String,
    alloc: Global,
    form: OpsText,
    trace: &ListedTrace,
    number: usize,
    operation: Operation,
) -> Result<(), AllocError> {
    push_line(text, alloc, trace, operation)?;
    push_beneath(text, alloc, trace, number)?;
    if form.has_bytes {
        let data = Data::of(alloc, trace, number, operation)?;
        push_data(text, &data)?;
    }
    Ok(())
}

// Adds an operation.
fn push_operation(
    text: &mut String,
    alloc: Global,
    form: OpsForm,
    trace: &ListedTrace,
    number: usize,
    operation: Operation,
) -> Result<(), AllocError> {
    match form {
        OpsForm::Text(form) => push_text(text, alloc, form, trace, number, operation),
        OpsForm::Csv => push_csv(text, alloc, trace, number, operation),
        OpsForm::Json { has_bytes } => {
            push_json(text, alloc, trace, number, operation, has_bytes)
        }
    }
}

// What is printed in front of the first operation.
fn head_of(form: OpsForm) -> &'static str {
    match form {
        OpsForm::Csv => NAMES,
        OpsForm::Text(_) | OpsForm::Json { .. } => "",
    }
}

// Adds how many there are, where that is asked for.
fn push_summary(
    text: &mut String,
    alloc: Global,
    form: OpsForm,
    trace: &ListedTrace,
    summary: &Summary,
) -> Result<(), AllocError> {
    let OpsForm::Text(
        OpsText {
            has_summary: true,
            ..
        },
    ) = form
    else {
        return Ok(());
    };
    summary.push_lines(text, trace)?;
    if let Some(overlap) = Overlap::of(alloc, trace)? {
        writeln!(text, "{overlap}")?;
    }
    Ok(())
}

// What is printed of a trace.
fn text_of_trace(
    alloc: Global,
    request: OpsRequest<'_>,
    trace: &ListedTrace,
) -> Result<String, AllocError> {
    let mut text = String::new(alloc);
    text.push_str(head_of(request.form))?;
    let mut summary = Summary::nothing(alloc);
    for (number, operation) in trace.operations.iter().enumerate() {
        if is_printed(alloc, request, trace, *operation)? {
            push_operation(&mut text, alloc, request.form, trace, number, *operation)?;
            summary.take(*operation, Busy::of(trace, *operation))?;
        }
    }
    push_summary(&mut text, alloc, request.form, trace, &summary)?;
    Ok(text)
}

// How the trace is looked at.
fn view_of(request: OpsRequest<'_>, geometry: Geometry) -> TraceView {
    TraceView {
        geometry,
        targets: request.trace.targets,
        readies: Readies::Shown,
        beginning: request.beginning,
    }
}

// Reads a page, a vendor file and the text of a trace: what is printed of its operations.
fn list_at<'p, F: Files>(
    alloc: Global,
    files: &mut F,
    request: OpsRequest<'p>,
) -> Result<String, RecordingStop<'p>>
    ensures ok { IfOk result (λ _. CanBeListed (F.store files.old) request.entry) }
    ensures err { IfErr result (SaysOf (PageIsRefused (F.store files.old) request.entry.trace.page.now) (TraceIsRefused (F.store files.old) true request.entry.trace)) }
    ensures stays { F.store files.new ≡ F.store files.old }
{
    let trace = request.trace;
    let geometry = geometry_as(alloc, files, trace.profile, trace.page)?;
    let steps = match steps_at(alloc, files, trace.profile, trace.vendor) {
        Ok(steps) => steps,
        Err(stop) => return Err(stop),
    };
    let bytes = read_file(alloc, files, trace.input)?;
    let text = text_of(trace.input, bytes.as_slice())?;
    let timed = match read_timed(alloc, trace.input, text, trace.profile) {
        Ok(timed) => timed,
        Err(stop) => return Err(stop),
    };
    let view = view_of(request, geometry);
    let kept = keep_timed(alloc, steps.as_slice(), &view, timed)?;
    let listed = list_items(alloc, view, kept)?;
    Ok(text_of_trace(alloc, request, &listed)?)
}

/// Lists the operations of a trace on a channel of so many targets of the geometry of a parameter page ([`find_operations`]): a line for each, and beneath it its
/// faults, but for what belongs to a vendor's sequences, where a vendor file is given. The trace is read in the recorded form, with the readies that are written, that
/// status outputs show and that cycles need. It needn't be legal.
///
/// `Done`: they are printed. `Refused`: the line `refused NAME at N` is printed, a P fault of the page. `Faulty`: so is it, an N fault of the vendor file or
/// an X fault of the text, with its line.
/// `FileFault`: a file couldn't be read, the text isn't UTF-8, or the output couldn't be written. No file changes.
pub fn list_operations<F: Files, W: Write, E: Write, P>(
    alloc: Global,
    files: &mut F,
    console: &mut Console<W, E, P>,
    request: OpsRequest<'_>,
) -> Ending
    ensures done { result ≡ Ending.Exit Exit.Done → (printed : List ℕ) × CanBeListed (F.store files.old) request.entry
        × Appends (W.contents console.old.output) (W.contents console.new.output) printed }
    ensures flagged { result ≡ Ending.Flagged → ⊥ }
    ensures refused { (refusal : Refusal) → result ≡ Ending.Exit (Exit.Refused refusal)
        → Tells (PageIsRefused (F.store files.old) request.entry.trace.page.now) refusal
        × Appends (W.contents console.old.output) (W.contents console.new.output) (line_of refusal) }
    ensures faulty { (fault : RecordingFault) → result ≡ Ending.Faulty fault
        → TraceIsRefused (F.store files.old) true request.entry.trace fault
        × Appends (W.contents console.old.output) (W.contents console.new.output) (fault_line fault) }
    ensures stays { F.store files.new ≡ F.store files.old }
{
    match list_at(alloc, files, request) {
        Ok(text) => Ending::Exit(finish(console, text.as_str())),
        Err(stop) => end_stopped(alloc, console, Style::Plain, stop),
    }
}
