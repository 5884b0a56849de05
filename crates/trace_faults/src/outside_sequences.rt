//! The sequences outside of the profile that a trace has.
ghost use Rattle.std.specs.Prelude.{◌≡◌, ◌++◌, IfOk, OnOk};
ghost use Rattle.trace_faults.specs.OutsideSequences.{mark_inside, passed_after, begun_by, sequences_from};

use crate::outside::leaves_profile;
use onfi_cycle::{BusState, Forbidden, Item};
use std::alloc::{AllocError, Allocator};

/// A sequence outside of the profile: the item that begins it, counted from 0, and how many cycles of its target are passed over after that.
#[derive(Clone, Copy, Debug, PartialEq, Eq)]
pub struct OutsideSequence {
    pub item: usize,
    pub cycles: usize,
}

/// What an item is to a sequence outside of the profile.
#[derive(Clone, Copy)]
pub(crate) enum Mark {
    Within,
    Begins,
    PassedOver,
}

/// The same with the item's target.
#[derive(Clone, Copy)]
pub(crate) struct Marked {
    pub(crate) target: u8,
    pub(crate) mark: Mark,
}

/// What an item is that isn't passed over, and breaks this rule first on this channel.
pub(crate) fn mark_inside(rule: Option<Forbidden>, bus: &BusState, item: Item) -> Mark
    ensures { result ≡ mark_inside rule bus.now item }
{
    if leaves_profile(rule, bus, item.target()) {
        Mark::Begins
    } else {
        Mark::Within
    }
}

// How many cycles of a target are passed over before the next sequence outside of it begins.
fn count_passed(target: u8, marks: &[Marked]) -> usize
    ensures { result ≡ passed_after target marks.now }
{
    let mut count = 0;
    let mut rest = marks;
    'rest: while let Some((first, later)) = rest.split_first() {
        if first.target == target {
            match first.mark {
                Mark::Within => {}
                Mark::Begins => return count,
                Mark::PassedOver => count += 1,
            }
        }
        rest = later;
    }
    count
}

// Adds the sequence that an item begins, if it begins one.
fn push_begun<A: Allocator>(
    sequences: &mut Vec<OutsideSequence, A>,
    item: usize,
    marked: Marked,
    later: &[Marked],
) -> Result<(), AllocError>
    ensures { OnOk result (sequences.new.items ≡ sequences.old.items ++ begun_by marked.mark item marked.target later.now) }
{
    match marked.mark {
        Mark::Begins => sequences.push(OutsideSequence {
            item,
            cycles: count_passed(marked.target, later),
        })?,
        Mark::Within | Mark::PassedOver => {}
    }
    Ok(())
}

/// The sequences that marked items begin.
pub(crate) fn sequences_of<A: Allocator>(
    alloc: A,
    marks: &[Marked],
) -> Result<Vec<OutsideSequence, A>, AllocError>
    ensures { IfOk result (λ sequences. sequences.items ≡ sequences_from 0 marks.now) }
{
    let mut sequences = Vec::new(alloc);
    let mut place = 0;
    let mut rest = marks;
    'rest: while let Some((first, later)) = rest.split_first() {
        push_begun(&mut sequences, place, *first, later)?;
        place += 1;
        rest = later;
    }
    Ok(sequences)
}
