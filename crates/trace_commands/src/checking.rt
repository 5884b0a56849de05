//! The command that checks a trace.
ghost use Rattle.std.specs.Prelude.{◌≡◌, ◌⊎◌, ℕ, List, true, false, None, Some, IfOk, OnErr};
ghost use Rattle.std.specs.Io.KnownBytes.{Appends};
ghost use Rattle.seq_inputs.specs.declared.refusal.Refusal.{Refusal};
ghost use Rattle.seq_inputs.specs.Refusals.{line_of};
ghost use Rattle.seq_inputs.specs.Stops.{Tells};
ghost use Rattle.recording.specs.declared.recording_fault.RecordingFault.{RecordingFault};
ghost use Rattle.recording.specs.Checks.{InputIsRefused, RecordingIsRefused, IsJudged};
ghost use Rattle.trace_commands.specs.Reports.{first_of, report_text, may_pass};
ghost use Rattle.trace_commands.specs.Checks.{IsPassed, CheckRefuses, CheckLeaves};

use crate::check_report::{first_fault, report_text, say_report};
use crate::check_verdict::say_unjudged;
use recording::{CheckRequest, CheckedTrace, Ending, end_stopped, judge_trace};
use seq_files::Files;
use seq_inputs::{Console, Exit, end_without_memory, finish};
use std::alloc::Global;
use std::io::Write;
use trace_faults::NotShown;
use trace_text::CheckProgress;

// Nothing is taken for granted, or it may be.
fn may_pass(request: CheckRequest<'_>, assumed: &[NotShown]) -> bool
    ensures { result ≡ may_pass request.entry assumed.now }
{
    match assumed {
        [] => true,
        [_, ..] => request.assumes_ready,
    }
}

// Ends a check that has found this.
fn tell_found<W: Write, E: Write, P>(
    alloc: Global,
    console: &mut Console<W, E, P>,
    request: CheckRequest<'_>,
    trace: &CheckedTrace,
) -> Ending
    ensures done { result ≡ Ending.Exit Exit.Done → (first_of trace.now.told.items trace.now.late.items trace.now.differences.items ≡ None)
        × (may_pass request.entry trace.now.assumed.items ≡ true)
        × Appends (W.contents console.old.output) (W.contents console.new.output)
        (report_text trace.now.told.items trace.now.late.items trace.now.differences.items trace.now.assumed.items) }
    ensures flagged { result ≡ Ending.Flagged → (first_of trace.now.told.items trace.now.late.items trace.now.differences.items ≡ None)
        × (may_pass request.entry trace.now.assumed.items ≡ false)
        × Appends (W.contents console.old.output) (W.contents console.new.output)
        (report_text trace.now.told.items trace.now.late.items trace.now.differences.items trace.now.assumed.items) }
    ensures refused { (refusal : Refusal) → result ≡ Ending.Exit (Exit.Refused refusal) → ⊥ }
    ensures faulty { (fault : RecordingFault) → result ≡ Ending.Faulty fault → (first_of trace.now.told.items trace.now.late.items trace.now.differences.items ≡ Some fault)
        × Appends (W.contents console.old.output) (W.contents console.new.output)
        (report_text trace.now.told.items trace.now.late.items trace.now.differences.items trace.now.assumed.items) }
{
    let first = first_fault(trace);
    let Ok(lines) = report_text(alloc, trace) else {
        return Ending::Exit(end_without_memory(console));
    };
    match finish(console, lines.as_str()) {
        Exit::Done => {
            say_report(alloc, &mut console.errors, request, trace);
            match first {
                Some(fault) => Ending::Faulty(fault),
                None => {
                    if may_pass(request, trace.assumed.as_slice()) {
                        Ending::Exit(Exit::Done)
                    } else {
                        Ending::Flagged
                    }
                }
            }
        }
        exit => Ending::Exit(exit),
    }
}

/// Checks whether the trace of a text is legal on a channel of so many targets of the geometry of a parameter page; where it is asked for, whether its times keep those
/// of a timing mode or of a timing file, and whether its outputs of known pages give what their dies hold. What belongs to a vendor's sequences is passed over, where a
/// vendor file is given ([`vendor_file`]): the verdict is that of the trace without it, at its places.
///
/// `Done`: it is, and `legal` is printed, and a line `assumed ready at N` for each item before which a LUN is assumed ready, where that is
/// asked for. `Flagged`: so are they, where it isn't. `Refused`: the line `refused NAME at N` is printed: a P fault of the page, an I fault of an image, or S2 of one
/// whose LUN isn't there. `Faulty`: so is it: an N fault of the vendor file, a fault of the timing file or an X fault of the text, with its line; or the first item that
/// is forbidden, with the first rule that it breaks, that comes too soon or shows that work takes too long, or whose output differs. Where all faults are asked for, the
/// line of each other one stands after it, and behind these those of the LUNs that are assumed ready. The data are judged up to the first forbidden item.
///
/// The page is read first, then the vendor file, the timing file, the images and the text. `FileFault`: a file couldn't be read or written, the text isn't UTF-8, or
/// the output couldn't be written. Where a path is given for it, the trace that is judged is written there before anything is printed, and no other file is. The
/// console's progress is told at each million of items that are permitted, where the first fault ends the check of a trace that has its readies. On its errors stands
/// each fault in words, and what is asked for besides.
pub fn check_trace<F: Files, W: Write, E: Write, P: CheckProgress>(
    alloc: Global,
    files: &mut F,
    console: &mut Console<W, E, P>,
    request: CheckRequest<'_>,
) -> Ending
    ensures done { result ≡ Ending.Exit Exit.Done → (printed : List ℕ)
        × IsPassed (F.store files.old) (F.store files.new) request.entry true printed
        × Appends (W.contents console.old.output) (W.contents console.new.output) printed }
    ensures flagged { result ≡ Ending.Flagged → (printed : List ℕ)
        × IsPassed (F.store files.old) (F.store files.new) request.entry false printed
        × Appends (W.contents console.old.output) (W.contents console.new.output) printed }
    ensures refused { (refusal : Refusal) → result ≡ Ending.Exit (Exit.Refused refusal)
        → Tells (InputIsRefused (F.store files.old) request.entry request.entry.dies) refusal
        × (F.store files.new ≡ F.store files.old) × Appends (W.contents console.old.output) (W.contents console.new.output) (line_of refusal) }
    ensures faulty { (fault : RecordingFault) → result ≡ Ending.Faulty fault → (printed : List ℕ)
        × CheckRefuses (F.store files.old) (F.store files.new) request.entry fault printed
        × Appends (W.contents console.old.output) (W.contents console.new.output) printed }
    ensures files { CheckLeaves (F.store files.old) (F.store files.new) request.entry }
{
    match judge_trace(alloc, files, &mut console.progress, request, request.dies) {
        Ok(trace) => tell_found(alloc, console, request, &trace),
        Err(stop) => {
            let ending = end_stopped(alloc, console, request.style, stop);
            say_unjudged(&mut console.errors, request, ending);
            ending
        }
    }
}
