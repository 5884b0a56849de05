//! Judging the data of a trace on modelled dies.
ghost use Rattle.std.specs.Prelude.{◌≡◌, ◌≤◌, map, Some, IfOk};
ghost use Rattle.target_bus.specs.Bus.{channel_on};
ghost use Rattle.trace_data.specs.Data.{pages_in};
ghost use Rattle.trace_data.specs.Numbers.{numbered_by};
ghost use Rattle.trace_faults.specs.declared.readies.Readies.TheVariants.{Written, Shown};
ghost use Rattle.trace_faults.specs.Faults.{completed};
ghost use Rattle.recording.specs.Opened.{IsReplayed, AreOf, AreReplayed};
ghost use Rattle.recording.specs.Targets.{count_of};

use crate::trace_view::TraceView;
use die_model::LunDie;
use onfi_cycle::Item;
use std::alloc::{AllocError, Global};
use trace_data::{DataJudged, Difference, OpenedDies, number_items};
use trace_faults::{Readies, complete};

/// What has come of a trace on modelled dies.
#[derive(Drop)]
pub(crate) struct DataFindings {
    /// The outputs of known pages that differ from their dies.
    pub(crate) differences: Vec<Difference>,
    /// The dies as the trace leaves them, up to its first fault.
    pub(crate) dies: Vec<LunDie>,
    /// The items with their readies.
    pub(crate) whole: Vec<Item>,
}

// Differences with the numbers of their items by these.
fn renumber(
    alloc: Global,
    differences: &[Difference],
    numbers: &[usize],
) -> Result<Vec<Difference>, AllocError>
    ensures { IfOk result (λ told. told.items ≡ map (numbered_by numbers.now) differences.now) }
{
    differences
        .iter()
        .map(|found| found.numbered_by(numbers))
        .collect(alloc)
}

// What comes of a trace on modelled dies that has its readies.
fn judge_written(
    alloc: Global,
    dies: OpenedDies,
    items: &[Item],
) -> Result<DataFindings, AllocError>
    ensures { IfOk result (λ r. AreReplayed Written (Some dies) items.now r.differences.items r.dies.items r.whole.items) }
{
    let mut whole = Vec::new(alloc);
    whole.extend_from_slice(items)?;
    let DataJudged {
        differences,
        stopped: _,
        dies,
    } = dies.judge(alloc, items)?;
    Ok(DataFindings {
        differences,
        dies,
        whole,
    })
}

// What comes of a trace on modelled dies, with the readies that its status outputs show and those that are taken for granted.
fn judge_completed(
    alloc: Global,
    view: &TraceView,
    dies: OpenedDies,
    items: &[Item],
) -> Result<DataFindings, AllocError>
    requires geometry { dies.geometry ≡ view.now.geometry }
    requires targets { dies.targets ≡ count_of view.now.targets }
    ensures { IfOk result (λ r. AreReplayed Shown (Some dies) items.now r.differences.items r.dies.items r.whole.items) }
{
    let whole = complete(alloc, &view.geometry, view.targets.count(), items)?;
    let DataJudged {
        differences,
        stopped: _,
        dies,
    } = dies.judge(alloc, whole.as_slice())?;
    let numbers = number_items(alloc, items, whole.as_slice())?;
    let differences = renumber(alloc, differences.as_slice(), numbers.as_slice())?;
    Ok(DataFindings {
        differences,
        dies,
        whole,
    })
}

/// What comes of a trace on modelled dies, where they are given.
pub(crate) fn judge_data(
    alloc: Global,
    view: &TraceView,
    dies: Option<OpenedDies>,
    items: &[Item],
) -> Result<DataFindings, AllocError>
    requires { AreOf view.now.geometry (count_of view.now.targets) dies }
    ensures { IfOk result (λ r. AreReplayed view.now.readies dies items.now r.differences.items r.dies.items r.whole.items) }
{
    let Some(dies) = dies else {
        return Ok(DataFindings {
            differences: Vec::new(alloc),
            dies: Vec::new(alloc),
            whole: Vec::new(alloc),
        });
    };
    match view.readies {
        Readies::Written => judge_written(alloc, dies, items),
        Readies::Shown => judge_completed(alloc, view, dies, items),
    }
}
