//! The command that judges the edges of a capture.
ghost use Rattle.std.specs.Prelude.{◌≡◌, ◌≤◌, ◌∷◌, List, ℕ, IfOk, IfErr, codes};
ghost use Rattle.std.specs.Io.KnownBytes.{Appends};
ghost use Rattle.seq_inputs.specs.declared.refusal.Refusal.{Refusal};
ghost use Rattle.seq_inputs.specs.Inputs.{PageIsRefused};
ghost use Rattle.seq_inputs.specs.Stops.{Tells};
ghost use Rattle.seq_inputs.specs.Refusals.{line_of};
ghost use Rattle.recording.specs.declared.recording_fault.RecordingFault.{RecordingFault};
ghost use Rattle.recording.specs.Endings.{SaysOf};
ghost use Rattle.edge_timing.specs.Times.{AreEdgeBounded};
ghost use Rattle.edge_timing.specs.Judged.{MayJudge};
ghost use Rattle.edge_commands.specs.Edges.{fault_of, late_lines, AreEdgesJudged, AreJudgedIn, EdgesRefuse, EdgesTell, IsNotJudged, IsNotJudgedIn, MayNotBeJudged};

use crate::edge_reading::{TimeScale, edge_times_at};
use crate::edge_request::EdgeRequest;
use crate::edge_telling::{fault_of, late_text, say_edges};
use bus_capture::{CaptureRefusal, Setup};
use edge_timing::{
    EdgeFault, EdgeJudge, EdgeRuler, EdgeTimes, EdgeViolation, Recorded, judge_edges,
};
use nand_geometry::Geometry;
use recording::{
    Ending, RecordingFault, RecordingStop, TimeUnit, end_stopped, mappings_of, see_capture,
};
use seq_files::Files;
use seq_inputs::{
    Console, Exit, Stop, Style, Words, end_without_memory, finish, geometry_in, read_file,
};
use shown_text::Shown;
use std::alloc::Global;
use std::io::Write;
use trace_timing::{PageTimes, TimingFault};

// The edges of a capture, judged, and the timing modes that the page declares.
#[derive(Drop)]
struct JudgedEdges {
    judge: EdgeJudge<Global>,
    modes: u16,
}

// What comes of a capture that shows a trace.
#[derive(Drop)]
enum ReadEdges {
    Judged(JudgedEdges),
    // It says that 1 of its times is so many femtoseconds, and the caller says another.
    OtherUnit(u64),
}

// Why no edges of a capture are judged, for this reason.
fn not_judged<'p>(alloc: Global, path: &'p str, why: &str) -> RecordingStop<'p>
    ensures { IsNotJudged result }
{
    let fault = EdgeFault::Pause(TimingFault::NoTimes);
    RecordingStop::Faulty {
        fault: RecordingFault::Edge { fault, time: 0 },
        words: Words::at(path, None, format!(in alloc; "{why} ({})", fault.code())),
    }
}

const NO_UNIT: &str = "the capture doesn't say what 1 of a time is: --unit says it, as in 1ns";

const OF_MODEL: &str =
    "the dump is one of `onfiseq wave`, whose times are numbers of items: nothing of it is judged";

const NO_EDGES: &str = "no two edges of the capture can be compared";

// Judges the edges of a capture that shows a trace.
fn judge_capture<'p>(
    alloc: Global,
    path: &'p str,
    ruler: EdgeRuler,
    setup: &Setup<'_>,
    capture: &[u8],
) -> Result<EdgeJudge<Global>, RecordingStop<'p>>
    requires judging { MayJudge setup.now.targets ruler }
    ensures err { IfErr result MayNotBeJudged }
{
    let mut judge = EdgeJudge::new(alloc, ruler);
    match judge_edges(alloc, &mut judge, setup, capture) {
        Ok(Recorded::Bus) if judge.has_judged => Ok(judge),
        Ok(Recorded::Bus) => Err(not_judged(alloc, path, NO_EDGES)),
        Ok(Recorded::Model) => Err(not_judged(alloc, path, OF_MODEL)),
        // A capture that shows a trace has no fault.
        Err(CaptureRefusal::Fault(_) | CaptureRefusal::OutOfMemory) => {
            Err(RecordingStop::Stop(Stop::OutOfMemory))
        }
    }
}

// All edges that come too soon, or the first of them.
fn cut_told(mut judge: EdgeJudge<Global>, tells_all: bool) -> EdgeJudge<Global> {
    if !tells_all {
        judge.told.truncate(1);
    }
    judge
}

// Reads a capture, and judges its edges by these times.
fn judge_file<'p, F: Files>(
    alloc: Global,
    files: &mut F,
    request: EdgeRequest<'p>,
    geometry: Geometry,
    times: EdgeTimes,
    modes: u16,
) -> Result<ReadEdges, RecordingStop<'p>>
    requires bounded { AreEdgeBounded times }
    ensures ok { IfOk result (λ _. AreJudgedIn (F.store files.old) request.entry geometry) }
    ensures err { IfErr result (SaysOf (λ _. ⊥) (IsNotJudgedIn (F.store files.old) request.entry geometry)) }
    ensures stays { F.store files.new ≡ F.store files.old }
{
    let capture = read_file(alloc, files, request.input)?;
    let mappings = mappings_of(alloc, request.mappings)?;
    let setup = Setup {
        form: request.form,
        geometry,
        targets: request.targets.count(),
        mappings: mappings.as_slice(),
        glitch: 0,
        late: None,
    };
    let _ = see_capture(alloc, request.input, &setup, capture.as_slice())?;
    let unit = match TimeScale::of(request.unit, request.form, capture.as_slice()) {
        TimeScale::Told(unit) => unit,
        TimeScale::Untold => return Err(not_judged(alloc, request.input, NO_UNIT)),
        TimeScale::Contradicted(unit) => return Ok(ReadEdges::OtherUnit(unit)),
    };
    let ruler = EdgeRuler {
        times,
        unit,
        slack: request.slack.saturating_mul(unit),
        one_lun: geometry.parts().luns == 1,
    };
    match judge_capture(alloc, request.input, ruler, &setup, capture.as_slice()) {
        Ok(judge) => Ok(ReadEdges::Judged(JudgedEdges {
            judge: cut_told(judge, request.tells_all),
            modes,
        })),
        Err(stop) => Err(stop),
    }
}

// Reads a page, a timing file and a capture, and judges its edges.
fn judge_at<'p, F: Files>(
    alloc: Global,
    files: &mut F,
    request: EdgeRequest<'p>,
) -> Result<ReadEdges, RecordingStop<'p>>
    ensures ok { IfOk result (λ _. AreEdgesJudged (F.store files.old) request.entry) }
    ensures err { IfErr result (SaysOf (PageIsRefused (F.store files.old) request.entry.page.now) (EdgesRefuse (F.store files.old) request.entry)) }
    ensures stays { F.store files.new ≡ F.store files.old }
{
    let page = read_file(alloc, files, request.page)?;
    let geometry = geometry_in(alloc, request.profile, request.page, page.as_slice())?;
    let page_times = PageTimes::read(page.as_slice());
    let times = edge_times_at(alloc, files, page_times, request.source)?;
    match judge_file(alloc, files, request, geometry, times, page_times.modes) {
        Ok(edges) => Ok(edges),
        Err(stop) => Err(stop),
    }
}

// Says that the capture knows its unit.
fn say_other_unit<W: Write, E: Write, P>(
    console: &mut Console<W, E, P>,
    path: &str,
    unit: u64,
) -> Exit
    ensures { result ≡ Exit.Usage }
{
    let _ = writeln!(
        &mut console.errors,
        "error: {} says that 1 of its times is {}: leave `--unit` out",
        Shown::path(path),
        TimeUnit(unit)
    );
    let _ = console.errors.flush();
    Exit::Usage
}

// Tells what is found.
fn tell_edges<W: Write, E: Write, P>(
    alloc: Global,
    console: &mut Console<W, E, P>,
    request: EdgeRequest<'_>,
    edges: &JudgedEdges,
) -> Ending
    ensures done { result ≡ Ending.Exit Exit.Done → Appends (W.contents console.old.output) (W.contents console.new.output) (codes "kept\n") }
    ensures flagged { result ≡ Ending.Flagged → ⊥ }
    ensures refused { (refusal : Refusal) → result ≡ Ending.Exit (Exit.Refused refusal) → ⊥ }
    ensures faulty { (fault : RecordingFault) → result ≡ Ending.Faulty fault → (first : EdgeViolation) × (late : List EdgeViolation) × (fault ≡ fault_of first)
        × Appends (W.contents console.old.output) (W.contents console.new.output) (late_lines (first ∷ late)) }
{
    match edges.judge.told.as_slice() {
        [] => tell_kept(alloc, console, request, edges),
        [first, ..] => tell_late(alloc, console, request, edges, *first),
    }
}

// Prints the lines of edges that come too soon, of which this is the first, and says each in words.
fn tell_late<W: Write, E: Write, P>(
    alloc: Global,
    console: &mut Console<W, E, P>,
    request: EdgeRequest<'_>,
    edges: &JudgedEdges,
    first: EdgeViolation,
) -> Ending
    ensures done { result ≡ Ending.Exit Exit.Done → ⊥ }
    ensures flagged { result ≡ Ending.Flagged → ⊥ }
    ensures refused { (refusal : Refusal) → result ≡ Ending.Exit (Exit.Refused refusal) → ⊥ }
    ensures faulty { (fault : RecordingFault) → result ≡ Ending.Faulty fault → (fault ≡ fault_of first)
        × Appends (W.contents console.old.output) (W.contents console.new.output) (late_lines edges.now.judge.told.items) }
{
    let late = edges.judge.told.as_slice();
    let Ok(lines) = late_text(alloc, late) else {
        return Ending::Exit(end_without_memory(console));
    };
    match finish(console, lines.as_str()) {
        Exit::Done => {
            say_edges(
                alloc,
                &mut console.errors,
                request,
                &edges.judge,
                edges.modes,
            );
            Ending::Faulty(fault_of(first))
        }
        exit => Ending::Exit(exit),
    }
}

// Prints that the times are kept.
fn tell_kept<W: Write, E: Write, P>(
    alloc: Global,
    console: &mut Console<W, E, P>,
    request: EdgeRequest<'_>,
    edges: &JudgedEdges,
) -> Ending
    ensures done { result ≡ Ending.Exit Exit.Done → Appends (W.contents console.old.output) (W.contents console.new.output) (codes "kept\n") }
    ensures flagged { result ≡ Ending.Flagged → ⊥ }
    ensures refused { (refusal : Refusal) → result ≡ Ending.Exit (Exit.Refused refusal) → ⊥ }
    ensures faulty { (fault : RecordingFault) → result ≡ Ending.Faulty fault → ⊥ }
{
    let exit = finish(console, "kept\n");
    if matches!(exit, Exit::Done) {
        say_edges(
            alloc,
            &mut console.errors,
            request,
            &edges.judge,
            edges.modes,
        );
    }
    Ending::Exit(exit)
}

/// Judges the edges of a capture of the bus of a channel: whether pulses, setups, holds and pauses keep the times of a timing mode or of a timing file. No file changes.
///
/// `Done`: `kept` is printed, and nothing comes too soon. `Faulty`: a line `refused NAME at N` is printed for the first edge that comes too soon, or for each of them, NAME being
/// the code of its [`EdgeTiming`](edge_timing::EdgeTiming) and N its time in the unit of the capture; or T0, where no two edges can be compared; or a G fault of the
/// capture, or a fault of the timing file. `Refused`: a P fault of the page. The page is read first, then the timing file, then the capture. On the console's errors stands
/// each in words, and where all are told how near the capture comes to each time.
pub fn time_capture<F: Files, W: Write, E: Write, P>(
    alloc: Global,
    files: &mut F,
    console: &mut Console<W, E, P>,
    request: EdgeRequest<'_>,
) -> Ending
    ensures done { result ≡ Ending.Exit Exit.Done → AreEdgesJudged (F.store files.old) request.entry
        × Appends (W.contents console.old.output) (W.contents console.new.output) (codes "kept\n") }
    ensures flagged { result ≡ Ending.Flagged → ⊥ }
    ensures refused { (refusal : Refusal) → result ≡ Ending.Exit (Exit.Refused refusal)
        → Tells (PageIsRefused (F.store files.old) request.entry.page.now) refusal
        × Appends (W.contents console.old.output) (W.contents console.new.output) (line_of refusal) }
    ensures faulty { (fault : RecordingFault) → result ≡ Ending.Faulty fault → (printed : List ℕ)
        × EdgesTell (F.store files.old) request.entry fault printed
        × Appends (W.contents console.old.output) (W.contents console.new.output) printed }
    ensures stays { F.store files.new ≡ F.store files.old }
{
    match judge_at(alloc, files, request) {
        Ok(ReadEdges::Judged(edges)) => tell_edges(alloc, console, request, &edges),
        Ok(ReadEdges::OtherUnit(unit)) => {
            Ending::Exit(say_other_unit(console, request.input, unit))
        }
        Err(stop) => end_stopped(alloc, console, Style::Plain, stop),
    }
}
