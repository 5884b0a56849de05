//! Judging a trace by the rules.
ghost use Rattle.std.specs.Prelude.{◌≡◌, [], true, false, take, IfOk};
ghost use Rattle.trace_faults.specs.Faults.{faults_of, not_shown_of};
ghost use Rattle.trace_faults.specs.declared.beginning.Beginning.TheVariants.{Middle};
ghost use Rattle.trace_faults.specs.declared.readies.Readies.TheVariants.{Written};
ghost use Rattle.recording.specs.Rules.{told_of, faults_as, not_shown_as, faults_in, not_shown_in};
ghost use Rattle.recording.specs.Targets.{count_of};

use crate::explained_fault::Explanations;
use crate::past_watcher::PastWatcher;
use crate::places::Places;
use crate::trace_view::TraceView;
use onfi_cycle::Item;
use std::alloc::{AllocError, Global};
use trace_faults::{
    Beginning, BrokenRule, JudgedTrace, MiddleFaults, NotShown, OutsideSequence, Readies,
    find_faults_from_middle, find_not_shown, judge_trace,
};
use trace_text::{CheckProgress, CheckRefusal, check_watched};

/// What nobody knows of a trace whose recording begins in the middle.
#[derive(Drop)]
pub struct Unknown {
    /// What was taken for granted.
    pub granted: Vec<BrokenRule>,
    /// How many cycles weren't judged.
    pub passed_over: usize,
}

/// What is found in a trace by the rules: the faults that are told, the readies that nothing showed, why the first faults come about, and what was taken
/// for granted.
#[derive(Drop)]
pub(crate) struct RuleFindings {
    pub(crate) faults: Vec<BrokenRule>,
    pub(crate) not_shown: Vec<NotShown>,
    pub(crate) explanations: Explanations,
    pub(crate) unknown: Unknown,
}

// What is found in a trace from its start.
#[derive(Drop)]
struct FromStart {
    faults: Vec<BrokenRule>,
    explanations: Explanations,
}

// The first fault of a trace, alone; none where it is legal.
fn find_first<P: CheckProgress>(
    alloc: Global,
    progress: &mut P,
    view: &TraceView,
    items: &[Item],
) -> Result<Vec<BrokenRule>, AllocError>
    ensures { IfOk result (λ told. told.items ≡ take 1 (faults_of Readies.Written view.now.geometry (count_of view.now.targets) items.now)) }
{
    match check_watched(&view.geometry, view.targets.count(), items, progress) {
        Ok(()) => Ok(Vec::new(alloc)),
        Err(CheckRefusal::At(item, rule)) => {
            let mut told = Vec::new(alloc);
            told.push(BrokenRule { item, rule })?;
            Ok(told)
        }
        Err(CheckRefusal::OutOfMemory) => Err(AllocError),
    }
}

// Sequences outside of the profile, at their places.
fn carry_outside(
    alloc: Global,
    places: Places<'_>,
    outside: Vec<OutsideSequence>,
) -> Result<Vec<OutsideSequence>, AllocError> {
    let mut carried = Vec::new(alloc);
    for sequence in outside.iter() {
        carried.push(OutsideSequence {
            item: places.of(sequence.item),
            cycles: sequence.cycles,
        })?;
    }
    Ok(carried)
}

// Judges a trace from its start: all of its faults, and why the first of them come about.
fn judge_from_start(
    alloc: Global,
    view: &TraceView,
    places: Places<'_>,
    items: &[Item],
) -> Result<FromStart, AllocError>
    ensures { IfOk result (λ found. found.faults.items ≡ faults_of view.now.readies view.now.geometry (count_of view.now.targets) items.now) }
{
    let mut past = PastWatcher::new(alloc, view.geometry, places);
    let targets = view.targets.count();
    let JudgedTrace { faults, outside } = judge_trace(
        alloc,
        &mut past,
        &view.geometry,
        targets,
        items,
        view.readies,
    )?;
    Ok(FromStart {
        faults,
        explanations: Explanations {
            explained: past.explained,
            outside: carry_outside(alloc, places, outside)?,
        },
    })
}

// The same with the first of its faults alone.
fn judge_to_first(
    alloc: Global,
    view: &TraceView,
    places: Places<'_>,
    items: &[Item],
) -> Result<FromStart, AllocError>
    ensures { IfOk result (λ found. found.faults.items ≡ take 1 (faults_of view.now.readies view.now.geometry (count_of view.now.targets) items.now)) }
{
    let mut found = judge_from_start(alloc, view, places, items)?;
    found.faults.truncate(1);
    Ok(found)
}

// The first fault of a trace that has its readies in it, and why it comes about; none where it is legal.
fn judge_first<P: CheckProgress>(
    alloc: Global,
    progress: &mut P,
    view: &TraceView,
    places: Places<'_>,
    items: &[Item],
) -> Result<FromStart, AllocError>
    requires { view.now.readies ≡ Written }
    ensures { IfOk result (λ found. found.faults.items ≡ take 1 (faults_of view.now.readies view.now.geometry (count_of view.now.targets) items.now)) }
{
    let first = find_first(alloc, progress, view, items)?;
    match first.as_slice() {
        [] => Ok(FromStart {
            faults: Vec::new(alloc),
            explanations: Explanations::nothing(alloc),
        }),
        [_, ..] => judge_to_first(alloc, view, places, items),
    }
}

// The faults of a trace from its start, all or the first.
fn find_from_start<P: CheckProgress>(
    alloc: Global,
    progress: &mut P,
    view: &TraceView,
    tells_all: bool,
    places: Places<'_>,
    items: &[Item],
) -> Result<FromStart, AllocError>
    ensures { IfOk result (λ found. found.faults.items ≡ told_of tells_all (faults_of view.now.readies view.now.geometry (count_of view.now.targets) items.now)) }
{
    match (tells_all, view.readies) {
        (false, Readies::Written) => judge_first(alloc, progress, view, places, items),
        (false, Readies::Shown) => judge_to_first(alloc, view, places, items),
        (true, _) => judge_from_start(alloc, view, places, items),
    }
}

// The items of a trace from its start that are permitted with a ready that nothing showed.
fn find_not_shown_from_start(
    alloc: Global,
    view: &TraceView,
    items: &[Item],
) -> Result<Vec<NotShown>, AllocError>
    ensures { IfOk result (λ told. told.items ≡ not_shown_of view.now.readies view.now.geometry (count_of view.now.targets) items.now) }
{
    match view.readies {
        Readies::Written => Ok(Vec::new(alloc)),
        Readies::Shown => {
            let targets = view.targets.count();
            find_not_shown(alloc, &view.geometry, targets, items, Readies::Shown)
        }
    }
}

// What was taken for granted, at its places.
fn carry_granted(
    alloc: Global,
    places: Places<'_>,
    granted: Vec<BrokenRule>,
) -> Result<Vec<BrokenRule>, AllocError> {
    let mut carried = Vec::new(alloc);
    for taken in granted.iter() {
        carried.push(BrokenRule {
            item: places.of(taken.item),
            rule: taken.rule,
        })?;
    }
    Ok(carried)
}

// What is found in a trace whose recording begins in the middle.
fn find_from_middle(
    alloc: Global,
    view: &TraceView,
    tells_all: bool,
    places: Places<'_>,
    items: &[Item],
) -> Result<RuleFindings, AllocError>
    ensures faults { IfOk result (λ found. found.faults.items ≡ told_of tells_all (faults_as Middle view.now.readies view.now.geometry (count_of view.now.targets) items.now)) }
    ensures not_shown { IfOk result (λ found. found.not_shown.items ≡ not_shown_as Middle view.now.readies view.now.geometry (count_of view.now.targets) items.now) }
{
    let targets = view.targets.count();
    let MiddleFaults {
        mut faults,
        granted,
        not_shown,
        passed_over,
    } = find_faults_from_middle(alloc, &view.geometry, targets, items, view.readies)?;
    if !tells_all {
        faults.truncate(1);
    }
    let granted = carry_granted(alloc, places, granted)?;
    Ok(RuleFindings {
        faults,
        not_shown,
        explanations: Explanations::nothing(alloc),
        unknown: Unknown {
            granted,
            passed_over,
        },
    })
}

/// What is found by the rules in a trace whose items have these places: all of its faults or the first, and the readies that nothing showed.
pub(crate) fn judge_by_rules<P: CheckProgress>(
    alloc: Global,
    progress: &mut P,
    view: &TraceView,
    tells_all: bool,
    places: Places<'_>,
    items: &[Item],
) -> Result<RuleFindings, AllocError>
    ensures faults { IfOk result (λ found. found.faults.items ≡ told_of tells_all (faults_in view.now items.now)) }
    ensures not_shown { IfOk result (λ found. found.not_shown.items ≡ not_shown_in view.now items.now) }
{
    match view.beginning {
        Beginning::Start => {
            let FromStart {
                faults,
                explanations,
            } = find_from_start(alloc, progress, view, tells_all, places, items)?;
            Ok(RuleFindings {
                faults,
                not_shown: find_not_shown_from_start(alloc, view, items)?,
                explanations,
                unknown: Unknown {
                    granted: Vec::new(alloc),
                    passed_over: 0,
                },
            })
        }
        Beginning::Middle => find_from_middle(alloc, view, tells_all, places, items),
    }
}
