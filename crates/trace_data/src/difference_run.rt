//! Differences of neighbouring outputs.
ghost use Rattle.std.specs.Prelude.{◌≡◌, ◌++◌, ◌∷◌, List, IfOk, OnOk};
ghost use Rattle.trace_data.specs.declared.difference.Difference.{Difference as DifferenceOf};
ghost use Rattle.trace_data.specs.Runs.{follows_on, run_of, grown, runs_from, runs_of};

use crate::difference::Difference;
use std::alloc::{AllocError, Global};

/// Differences of neighbouring outputs of one page.
#[derive(Clone, Copy, Debug, PartialEq, Eq)]
pub struct DifferenceRun {
    pub first: Difference,
    pub last: Difference,
    /// How many there are.
    pub count: usize,
}

// The second is of the output behind the first, and of the column behind it.
fn follows_on(first: Difference, second: Difference) -> bool
    ensures { result ≡ follows_on first second }
{
    first.item.checked_add(1) == Some(second.item)
        && first.shown.column.checked_add(1) == Some(second.shown.column)
        && second.shown.lun == first.shown.lun
        && second.shown.page == first.shown.page
}

impl DifferenceRun {
    // One difference alone.
    fn of(difference: Difference) -> DifferenceRun
        ensures { result ≡ run_of difference }
    {
        DifferenceRun {
            first: difference,
            last: difference,
            count: 1,
        }
    }

    // One difference more.
    fn grown(self, next: Difference) -> DifferenceRun
        ensures { result ≡ grown self next }
    {
        DifferenceRun {
            first: self.first,
            last: next,
            count: self.count.saturating_add(1),
        }
    }
}

// A difference comes to the run, or begins another.
fn take(
    runs: &mut Vec<DifferenceRun>,
    run: &mut DifferenceRun,
    next: Difference,
) -> Result<(), AllocError>
    ensures { OnOk result ((rest : List DifferenceOf) → runs.new.items ++ runs_from run.new rest ≡ runs.old.items ++ runs_from run.old (next ∷ rest)) }
{
    if follows_on(run.last, next) {
        *run = run.grown(next);
    } else {
        runs.push(*run)?;
        *run = DifferenceRun::of(next);
    }
    Ok(())
}

// Adds the runs of a difference and those that come after it.
fn push_runs(
    runs: &mut Vec<DifferenceRun>,
    first: Difference,
    rest: &[Difference],
) -> Result<(), AllocError>
    ensures { OnOk result (runs.new.items ≡ runs.old.items ++ runs_from (run_of first) rest.now) }
{
    let mut run = DifferenceRun::of(first);
    for next in rest {
        take(runs, &mut run, *next)?;
    }
    runs.push(run)?;
    Ok(())
}

/// Differences, those of neighbouring outputs together.
pub fn group_differences(
    alloc: Global,
    differences: &[Difference],
) -> Result<Vec<DifferenceRun>, AllocError>
    ensures { IfOk result (λ runs. runs.items ≡ runs_of differences.now) }
{
    let mut runs = Vec::new(alloc);
    if let Some((first, rest)) = differences.split_first() {
        push_runs(&mut runs, *first, rest)?;
    }
    Ok(runs)
}
