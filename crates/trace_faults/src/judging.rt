//! Judging a trace in one pass: its faults, and its sequences outside of the profile.
ghost use Rattle.std.specs.Prelude.{◌≡◌, ◌≤◌, ◌++◌, ◌∷◌, [], IfOk, OnOk};
ghost use Rattle.onfi_cycle.specs.Sequence.{target_of};
ghost use Rattle.trace_faults.specs.Faults.{faults_of, fault_at};
ghost use Rattle.trace_faults.specs.OutsideSequences.{outside_of, marks_of, sequences_from};

use crate::broken_rule::BrokenRule;
use crate::outside_sequences::{Marked, OutsideSequence, sequences_of};
use crate::readies::Readies;
use crate::recovery::Judgement;
use crate::trace_state::TraceState;
use crate::watching::{NoWatcher, TraceWatcher};
use nand_geometry::Geometry;
use onfi_cycle::Item;
use std::alloc::{AllocError, Allocator};

/// What a trace is found to be.
#[derive(Drop)]
pub struct JudgedTrace<A: Allocator> {
    /// Each fault, in the order of time.
    pub faults: Vec<BrokenRule, A>,
    /// The sequences outside of the profile, in the order of time.
    pub outside: Vec<OutsideSequence, A>,
}

// What is kept of the items that were judged.
#[derive(Drop)]
struct JudgedItems<A: Allocator> {
    faults: Vec<BrokenRule, A>,
    marks: Vec<Marked, A>,
}

// Adds an item that was judged so.
fn push_judged<A: Allocator>(
    judged: &mut JudgedItems<A>,
    place: usize,
    item: Item,
    judgement: Judgement,
) -> Result<(), AllocError>
    ensures faults { OnOk result (judged.new.faults.items ≡ judged.old.faults.items ++ fault_at place judgement.rule) }
    ensures marks { OnOk result (judged.new.marks.items ≡ judged.old.marks.items ++ (record { target = target_of item; mark = judgement.mark } ∷ [])) }
{
    if let Some(rule) = judgement.rule {
        judged.faults.push(BrokenRule { item: place, rule })?;
    }
    judged.marks.push(Marked {
        target: item.target(),
        mark: judgement.mark,
    })?;
    Ok(())
}

// Judges each item of a trace.
fn judge_items<A: Allocator + Clone, W: TraceWatcher>(
    alloc: A,
    watcher: &mut W,
    geometry: &Geometry,
    targets: u8,
    items: &[Item],
    readies: Readies,
) -> Result<JudgedItems<A>, AllocError>
    requires { targets ≤ 4 }
    ensures faults { IfOk result (λ judged. judged.faults.items ≡ faults_of readies geometry.now targets items.now) }
    ensures marks { IfOk result (λ judged. judged.marks.items ≡ marks_of readies geometry.now targets items.now) }
{
    let mut state = TraceState::before(geometry, targets, items);
    let mut judged = JudgedItems {
        faults: Vec::new(alloc.clone()?),
        marks: Vec::new(alloc),
    };
    let mut place = 0;
    let mut rest = items;
    'rest: while let Some((first, later)) = rest.split_first() {
        let item = *first;
        let _ = readies.go_on_to(&mut state, item, later);
        let judgement = state.go_on_watched(watcher, place, item);
        push_judged(&mut judged, place, item, judgement)?;
        place += 1;
        rest = later;
    }
    Ok(judged)
}

/// The faults of a trace and its sequences outside of the profile, on a channel of so many targets of this geometry, 4 at most. An item is judged on what
/// those before it leave, permitted or not ([`TraceState::go_on`]); where readies aren't written, on those that it shows, and the one that it needs besides and
/// that is taken for granted ([`find_not_shown`](crate::find_not_shown)). The byte of an output that shows no status isn't judged. A sequence outside begins
/// with a command that isn't in the profile, or with an address that the profile hasn't of 90 or EC. Its cycles are passed over, up to the next command of
/// its target that begins a sequence; where that asks for the status, the target's other outputs are passed over too. The watcher sees each item before it
/// is gone on by. It takes 2 bytes an item while it works.
pub fn judge_trace<A: Allocator + Clone, W: TraceWatcher>(
    alloc: A,
    watcher: &mut W,
    geometry: &Geometry,
    targets: u8,
    items: &[Item],
    readies: Readies,
) -> Result<JudgedTrace<A>, AllocError>
    requires { targets ≤ 4 }
    ensures faults { IfOk result (λ found. found.faults.items ≡ faults_of readies geometry.now targets items.now) }
    ensures outside { IfOk result (λ found. found.outside.items ≡ outside_of readies geometry.now targets items.now) }
{
    let JudgedItems { faults, marks } = judge_items(
        alloc.clone()?,
        watcher,
        geometry,
        targets,
        items,
        readies,
    )?;
    let outside = sequences_of(alloc, marks.as_slice())?;
    Ok(JudgedTrace { faults, outside })
}

/// The sequences outside of the profile alone.
pub fn find_outside<A: Allocator + Clone>(
    alloc: A,
    geometry: &Geometry,
    targets: u8,
    items: &[Item],
    readies: Readies,
) -> Result<Vec<OutsideSequence, A>, AllocError>
    requires { targets ≤ 4 }
    ensures { IfOk result (λ sequences. sequences.items ≡ outside_of readies geometry.now targets items.now) }
{
    let found = judge_trace(alloc, &mut NoWatcher, geometry, targets, items, readies)?;
    Ok(found.outside)
}
