//! Reading a trace with what stands beside it, and judging it.
ghost use Rattle.std.specs.Prelude.{◌≡◌, ◌⊎◌, true, false, Ok, List, if◌then◌else◌, IfOk, IfErr, OnOk, OnErr};
ghost use Rattle.std.specs.List.{All};
ghost use Rattle.std.specs.Option.{option_map};
ghost use Rattle.seq_files.specs.Store.{with_file, Holds};
ghost use Rattle.nand_geometry.specs.Reading.{read_as};
ghost use Rattle.onfi_cycle.specs.declared.item.Item.{Item};
ghost use Rattle.trace_text.specs.Line.{IsPrintable, text};
ghost use Rattle.trace_faults.specs.declared.broken_rule.BrokenRule.{BrokenRule};
ghost use Rattle.trace_timing.specs.declared.violation.Violation.{Violation};
ghost use Rattle.trace_data.specs.declared.difference.Difference.{Difference};
ghost use Rattle.seq_inputs.specs.Inputs.{PageIsRefused};
ghost use Rattle.seq_inputs.specs.Stops.{RefusesNothing};
ghost use Rattle.recording.specs.Checks.{view_of, is_asked, copied_to, with_copy, AreInputs, IsRead, IsJudged, InputIsRefused, RecordingIsRefused};
ghost use Rattle.recording.specs.Endings.{SaysOf};
ghost use Rattle.recording.specs.Kept.{faults_from, readies_from, late_from, differences_from, IsKept};
ghost use Rattle.recording.specs.Opened.{AreOf, AreOpenedIf, AreReplayed, ImagesAreRefused};
ghost use Rattle.recording.specs.Rules.{told_of, faults_in, not_shown_in, judged_in};
ghost use Rattle.recording.specs.Targets.{count_of};
ghost use Rattle.recording.specs.Times.{AreLate, AreUsable, late_told};
ghost use Rattle.recording.specs.Traces.{form_of, TextIsRefused};

use crate::check_request::CheckRequest;
use crate::data_judging::{DataFindings, judge_data};
use crate::data_request::DataRequest;
use crate::kept_trace::{KeptTrace, keep};
use crate::late_judging::judge_times;
use crate::late_words::LateItem;
use crate::opening::open_if;
use crate::recording_stop::RecordingStop;
use crate::remarks::{Remarks, RuleRemarks, explain_late};
use crate::rules_judging::{RuleFindings, judge_by_rules};
use crate::time_rulers::TimeRulers;
use crate::timing_reading::rulers_at;
use crate::trace_reading::{ReadTrace, read_trace};
use crate::trace_view::TraceView;
use crate::vendor_sequences::steps_at;
use die_model::LunDie;
use nand_geometry::Geometry;
use onfi_cycle::Item;
use seq_files::Files;
use seq_inputs::{Stop, geometry_in, read_file, text_of, write_file};
use std::alloc::{AllocError, Global};
use trace_data::{Difference, OpenedDies};
use trace_faults::{BrokenRule, NotShown, Readies, complete};
use trace_text::{CheckProgress, print};
use trace_timing::{PageTimes, Violation};
use vendor_file::Step;

/// A trace that is judged.
#[derive(Drop)]
pub struct CheckedTrace {
    /// The geometry that its page declares, and the timing modes.
    pub geometry: Geometry,
    pub modes: u16,
    /// Its text.
    pub text: Vec<u8>,
    /// The faults that are told.
    pub told: Vec<BrokenRule>,
    /// What comes too soon or takes too long, and is told.
    pub late: Vec<Violation>,
    /// The outputs of known pages that differ from their dies.
    pub differences: Vec<Difference>,
    /// What is permitted with a ready that nothing showed.
    pub assumed: Vec<NotShown>,
    /// The dies as the trace leaves them, and the items with their readies, where its data are judged.
    pub dies: Vec<LunDie>,
    pub whole: Vec<Item>,
    /// What is said besides.
    pub remarks: Remarks,
}

// What is read of a page and of the files beside a trace.
#[derive(Drop)]
struct Inputs {
    geometry: Geometry,
    modes: u16,
    steps: Vec<Step>,
    rulers: Option<TimeRulers>,
    dies: Option<OpenedDies>,
}

// Reads a page, a vendor file, a timing file and images, as far as they are given.
fn read_inputs<'p, F: Files>(
    alloc: Global,
    files: &mut F,
    request: CheckRequest<'p>,
    given: Option<DataRequest<'p, '_>>,
) -> Result<Inputs, RecordingStop<'p>>
    ensures ok { IfOk result (λ i. AreInputs (F.store files.old) request.entry i.geometry i.steps.items i.rulers) }
    ensures usable { IfOk result (λ i. AreUsable i.rulers) }
    ensures opened { IfOk result (λ i. AreOpenedIf (F.store files.old) i.geometry (count_of request.entry.trace.targets) given.entry i.dies) }
    ensures err { IfErr result (SaysOf (InputIsRefused (F.store files.old) request.entry given.entry) (RecordingIsRefused (F.store files.old) request.entry)) }
    ensures stays { F.store files.new ≡ F.store files.old }
{
    let trace = request.trace;
    let page = read_file(alloc, files, trace.page)?;
    let geometry = geometry_in(alloc, trace.profile, trace.page, page.as_slice())?;
    let steps = match steps_at(alloc, files, trace.profile, trace.vendor) {
        Ok(steps) => steps,
        Err(stop) => return Err(stop),
    };
    let rulers = match rulers_at(alloc, files, request.times, page.as_slice(), geometry) {
        Ok(rulers) => rulers,
        Err(stop) => return Err(stop),
    };
    let dies = match open_if(alloc, files, geometry, trace.targets, given) {
        Ok(dies) => dies,
        Err(stop) => return Err(RecordingStop::Stop(stop)),
    };
    Ok(Inputs {
        geometry,
        modes: PageTimes::read(page.as_slice()).modes,
        steps,
        rulers,
        dies,
    })
}

// The text of a trace, and what is read of it.
#[derive(Drop)]
struct TraceText {
    text: Vec<u8>,
    trace: ReadTrace,
}

// Reads the text of a trace.
fn read_text<'p, F: Files>(
    alloc: Global,
    files: &mut F,
    request: CheckRequest<'p>,
) -> Result<TraceText, RecordingStop<'p>>
    ensures ok { IfOk result (λ t. IsRead (F.store files.old) request.entry t.trace.items.items t.trace.timed.items) }
    ensures printable { IfOk result (λ t. All IsPrintable t.trace.items.items) }
    ensures err { IfErr result (SaysOf (λ _. ⊥) (TextIsRefused (F.store files.old) (form_of (is_asked request.entry.times) request.entry.trace.form)
        request.entry.trace.profile request.entry.trace.input.now)) }
    ensures stays { F.store files.new ≡ F.store files.old }
{
    let input = request.trace.input;
    let bytes = read_file(alloc, files, input)?;
    let text = text_of(input, bytes.as_slice())?;
    let (form, profile) = (request.trace.form, request.trace.profile);
    let has_times = is_asked(request);
    match read_trace(alloc, input, text, form, profile, has_times) {
        Ok(trace) => Ok(TraceText { text: bytes, trace }),
        Err(stop) => Err(stop),
    }
}

// Whether the times of a trace are judged.
fn is_asked(request: CheckRequest<'_>) -> bool
    ensures { result ≡ is_asked request.entry.times }
{
    match request.times {
        None => false,
        Some(_) => true,
    }
}

// Whether all faults of what is kept are asked for: where another may come before the first of them, they are.
fn needs_all(tells_all: bool, is_whole: bool) -> bool
    ensures { result ≡ (if is_whole then tells_all else true) }
{
    if is_whole { tells_all } else { true }
}

// The faults that are told: all, or the first.
fn cut_told(mut told: Vec<BrokenRule>, tells_all: bool) -> Vec<BrokenRule>
    ensures { result.items ≡ told_of tells_all told.items }
{
    if !tells_all {
        told.truncate(1);
    }
    told
}

// What is told by the rules of what is kept, at its places.
#[tactic(auto, using(crate::proofs::Judged::cut_once))]
fn judge_rules<P: CheckProgress>(
    alloc: Global,
    progress: &mut P,
    view: &TraceView,
    tells_all: bool,
    kept: &KeptTrace,
) -> Result<RuleFindings, AllocError>
    ensures told { IfOk result (λ f. f.faults.items ≡ told_of tells_all (faults_from kept.now.is_whole kept.now.places.items kept.now.broken.items (faults_in view.now kept.now.items.items))) }
    ensures assumed { IfOk result (λ f. f.not_shown.items ≡ readies_from kept.now.is_whole kept.now.places.items (not_shown_in view.now kept.now.items.items)) }
{
    let all = needs_all(tells_all, kept.is_whole);
    let items = kept.items.as_slice();
    let RuleFindings {
        faults,
        not_shown,
        explanations,
        unknown,
    } = judge_by_rules(alloc, progress, view, all, kept.places(), items)?;
    let told = kept.carry_faults(alloc, faults)?;
    Ok(RuleFindings {
        faults: cut_told(told, tells_all),
        not_shown: kept.carry_readies(alloc, not_shown)?,
        explanations,
        unknown,
    })
}

// What comes too soon or takes too long of what is kept, as far as it is told, and the first of it as it is said.
#[derive(Drop)]
struct LateFindings {
    late: Vec<Violation>,
    explained: Vec<LateItem>,
}

// What is told of it beside these faults.
fn cut_late(mut late: Vec<Violation>, tells_all: bool, told: &[BrokenRule]) -> Vec<Violation>
    ensures { result.items ≡ late_told tells_all told.now late.items }
{
    match (tells_all, told) {
        (true, _) => {}
        (false, []) => late.truncate(1),
        (false, [_, ..]) => late.truncate(0),
    }
    late
}

// What comes too soon or takes too long of what is kept, at its places.
fn judge_late(
    alloc: Global,
    rulers: Option<TimeRulers>,
    view: &TraceView,
    tells_all: bool,
    kept: &KeptTrace,
    told: &[BrokenRule],
) -> Result<LateFindings, AllocError>
    requires { AreUsable rulers }
    ensures { IfOk result (λ f. (all : List Violation) × AreLate rulers view.now kept.now.timed.items all
        × (f.late.items ≡ late_told tells_all told.now (late_from kept.now.is_whole kept.now.places.items all))) }
{
    let late = judge_times(alloc, rulers, view, kept.timed.as_slice())?;
    let explained = explain_late(alloc, rulers, kept, late.as_slice())?;
    let carried = kept.carry_late(alloc, late)?;
    Ok(LateFindings {
        late: cut_late(carried, tells_all, told),
        explained,
    })
}

// What comes of what is kept on its dies, at its places.
fn judge_dies(
    alloc: Global,
    view: &TraceView,
    dies: Option<OpenedDies>,
    kept: &KeptTrace,
) -> Result<DataFindings, AllocError>
    requires { AreOf view.now.geometry (count_of view.now.targets) dies }
    ensures { IfOk result (λ f. (told : List Difference) × AreReplayed view.now.readies dies kept.now.items.items told f.dies.items f.whole.items
        × (f.differences.items ≡ differences_from kept.now.is_whole kept.now.places.items told)) }
{
    let DataFindings {
        differences,
        dies,
        whole,
    } = judge_data(alloc, view, dies, kept.items.as_slice())?;
    Ok(DataFindings {
        differences: kept.carry_differences(alloc, differences)?,
        dies,
        whole,
    })
}

// Writes items as the text of a trace.
fn put_items<'p, F: Files>(
    alloc: Global,
    files: &mut F,
    path: &'p str,
    items: &[Item],
) -> Result<(), Stop<'p>>
    requires { All IsPrintable items.now }
    ensures ok { OnOk result (F.store files.new ≡ with_file (F.store files.old) path.now (text items.now)) }
    ensures nothing { IfErr result (λ e. RefusesNothing e) }
    ensures stays { OnErr result (F.store files.new ≡ F.store files.old) }
{
    let text = print(alloc, items)?;
    write_file(files, path, text.as_str().as_bytes())
}

// Where the trace that is judged is written.
fn copied_to(request: CheckRequest<'_>, breaks_off: bool) -> Option<&str>
    ensures { option_map (λ path. path.now) result ≡ copied_to request.entry breaks_off }
{
    if breaks_off { None } else { request.copy }
}

// Writes the trace that is judged, where a path is given for it.
fn copy_trace<'p, F: Files>(
    alloc: Global,
    files: &mut F,
    copy: Option<&'p str>,
    view: &TraceView,
    items: &[Item],
) -> Result<(), Stop<'p>>
    requires { All IsPrintable items.now }
    ensures ok { OnOk result (F.store files.new ≡ with_copy (option_map (λ path. path.now) copy.entry) (judged_in view.now items.now) (F.store files.old)) }
    ensures nothing { IfErr result (λ e. RefusesNothing e) }
    ensures stays { OnErr result (F.store files.new ≡ F.store files.old) }
{
    let Some(path) = copy else {
        return Ok(());
    };
    match view.readies {
        Readies::Written => put_items(alloc, files, path, items),
        Readies::Shown => {
            let whole = complete(alloc, &view.geometry, view.targets.count(), items)?;
            put_items(alloc, files, path, whole.as_slice())
        }
    }
}

/// Reads the trace of a request and what stands beside it, the page first, then a vendor file, a timing file, the images and the text; judges it, on
/// these dies if they are given; and writes it where a path is given for it.
pub fn judge_trace<'p, F: Files, P: CheckProgress>(
    alloc: Global,
    files: &mut F,
    progress: &mut P,
    request: CheckRequest<'p>,
    given: Option<DataRequest<'p, '_>>,
) -> Result<CheckedTrace, RecordingStop<'p>>
    ensures ok { IfOk result (λ t. IsJudged (F.store files.old) (F.store files.new) request.entry given.entry t.geometry
        t.told.items t.late.items t.differences.items t.dies.items t.whole.items t.assumed.items) }
    ensures err { IfErr result (SaysOf (InputIsRefused (F.store files.old) request.entry given.entry) (RecordingIsRefused (F.store files.old) request.entry)) }
    ensures stays { OnErr result (F.store files.new ≡ F.store files.old) }
{
    let Inputs {
        geometry,
        modes,
        steps,
        rulers,
        dies,
    } = match read_inputs(alloc, files, request, given) {
        Ok(inputs) => inputs,
        Err(stop) => return Err(stop),
    };
    let TraceText { text, trace } = match read_text(alloc, files, request) {
        Ok(read) => read,
        Err(stop) => return Err(stop),
    };
    let view = TraceView {
        geometry,
        targets: request.trace.targets,
        readies: request.readies,
        beginning: request.beginning,
    };
    let tells_all = request.tells_all;
    let kept = keep(alloc, steps.as_slice(), &view, trace)?;
    let RuleFindings {
        faults: told,
        not_shown: assumed,
        explanations,
        unknown,
    } = judge_rules(alloc, progress, &view, tells_all, &kept)?;
    let LateFindings { late, explained } = judge_late(
        alloc,
        rulers,
        &view,
        tells_all,
        &kept,
        told.as_slice(),
    )?;
    let DataFindings {
        differences,
        dies,
        whole,
    } = judge_dies(alloc, &view, dies, &kept)?;
    let rules = RuleRemarks {
        explanations,
        unknown,
    };
    let remarks = Remarks::find(alloc, request, &view, rulers, &kept, explained, rules)?;
    let copy = copied_to(request, kept.breaks_off());
    copy_trace(alloc, files, copy, &view, kept.items.as_slice())?;
    Ok(CheckedTrace {
        geometry,
        modes,
        text,
        told,
        late,
        differences,
        assumed,
        dies,
        whole,
        remarks,
    })
}
