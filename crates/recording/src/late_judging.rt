//! Judging the times of a trace.
ghost use Rattle.std.specs.Prelude.{◌≡◌, ◌++◌, map, IfOk};
ghost use Rattle.trace_timing.specs.Wanted.{AreBounded};
ghost use Rattle.trace_timing.specs.Watch.{violations_of};
ghost use Rattle.busy_times.specs.Order.{IsInOrder};
ghost use Rattle.busy_times.specs.Overruns.{AreJudgeable};
ghost use Rattle.recording.specs.Traces.{item_of};
ghost use Rattle.recording.specs.Times.{long_of, AreLateBy, AreLate, AreUsable};

use crate::time_rulers::TimeRulers;
use crate::trace_reading::items_of;
use crate::trace_view::TraceView;
use busy_times::{BusyRuler, find_overruns, put_in_order};
use std::alloc::{AllocError, Global};
use trace_ops::{Operations, find_operations};
use trace_timing::{TimedItem, Violation, find_violations};

// The work of a trace that takes too long.
#[tactic(auto, using(crate::proofs::Late::long_is))]
fn find_long(
    alloc: Global,
    view: &TraceView,
    ruler: BusyRuler,
    timed: &[TimedItem],
) -> Result<Vec<Violation>, AllocError>
    requires { AreJudgeable ruler }
    ensures { IfOk result (λ long. long.items ≡ long_of view.now ruler timed.now) }
{
    let items = items_of(alloc, timed)?;
    let Operations {
        operations,
        marks,
        ..
    } = find_operations(
        alloc,
        &view.geometry,
        view.targets.count(),
        items.as_slice(),
        view.readies,
        view.beginning,
    )?;
    find_overruns(alloc, ruler, operations.as_slice(), marks.as_slice(), timed)
}

// What comes too soon and what takes too long, in the order of items.
#[tactic(auto, using(crate::proofs::Late::ordered_is))]
fn find_late(
    alloc: Global,
    rulers: TimeRulers,
    view: &TraceView,
    timed: &[TimedItem],
) -> Result<Vec<Violation>, AllocError>
    requires least { AreBounded rulers.least.timings }
    requires most { AreJudgeable rulers.most }
    ensures { IfOk result (λ late. AreLateBy rulers view.now timed.now late.items) }
{
    let mut late = find_violations(alloc, rulers.least, timed)?;
    let mut long = find_long(alloc, view, rulers.most, timed)?;
    late.append(&mut long)?;
    put_in_order(&mut late)?;
    Ok(late)
}

/// What comes too soon or takes too long in a trace by these rulers, if there are some.
pub(crate) fn judge_times(
    alloc: Global,
    rulers: Option<TimeRulers>,
    view: &TraceView,
    timed: &[TimedItem],
) -> Result<Vec<Violation>, AllocError>
    requires { AreUsable rulers }
    ensures { IfOk result (λ late. AreLate rulers view.now timed.now late.items) }
{
    match rulers {
        None => Ok(Vec::new(alloc)),
        Some(rulers) => find_late(alloc, rulers, view, timed),
    }
}
