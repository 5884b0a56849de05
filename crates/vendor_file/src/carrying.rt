//! What is found in a trace without what is passed over, carried back to it.
ghost use Rattle.std.specs.Prelude.{◌≡◌, ◌++◌, ◌∷◌, get_or, IfOk, OnOk};
ghost use Rattle.vendor_file.specs.Carried.{carried_fault, carried_faults, carried_ready, carried_readies, up_to, beyond, merged};

use std::alloc::{AllocError, Allocator};
use trace_faults::{BrokenRule, NotShown};

// The place of an item that was kept.
fn place_at(places: &[usize], item: usize) -> usize
    ensures { result ≡ get_or places.now item 0 }
{
    match places.get(item) {
        Some(place) => *place,
        None => 0,
    }
}

/// Faults of the items that are kept, at their places in the trace.
pub fn carry_faults<A: Allocator>(
    alloc: A,
    places: &[usize],
    faults: &[BrokenRule],
) -> Result<Vec<BrokenRule, A>, AllocError>
    ensures { IfOk result (λ carried. carried.items ≡ carried_faults places.now faults.now) }
{
    let mut carried = Vec::new(alloc);
    for fault in faults {
        carried.push(BrokenRule {
            item: place_at(places, fault.item),
            rule: fault.rule,
        })?;
    }
    Ok(carried)
}

/// Readies that nothing showed before items that are kept, at the places of these in the trace.
pub fn carry_readies<A: Allocator>(
    alloc: A,
    places: &[usize],
    told: &[NotShown],
) -> Result<Vec<NotShown, A>, AllocError>
    ensures { IfOk result (λ carried. carried.items ≡ carried_readies places.now told.now) }
{
    let mut carried = Vec::new(alloc);
    for one in told {
        carried.push(NotShown {
            item: place_at(places, one.item),
            ready: one.ready,
        })?;
    }
    Ok(carried)
}

// Adds the faults up to this item, and answers those beyond.
fn push_up_to<'b, A: Allocator>(
    all: &mut Vec<BrokenRule, A>,
    item: usize,
    broken: &'b [BrokenRule],
) -> Result<&'b [BrokenRule], AllocError>
    ensures pushed { OnOk result (all.new.items ≡ all.old.items ++ up_to item broken.entry.now) }
    ensures left { IfOk result (λ left. left.now ≡ beyond item broken.entry.now) }
{
    let mut rest = broken;
    'rest: while let [first, after @ ..] = rest {
        if first.item > item {
            return Ok(rest);
        }
        all.push(*first)?;
        rest = after;
    }
    Ok(rest)
}

/// Two lists of faults as one, each in the order of their items; of two of one item that of the second list comes first.
pub fn merge_faults<A: Allocator>(
    alloc: A,
    faults: &[BrokenRule],
    broken: &[BrokenRule],
) -> Result<Vec<BrokenRule, A>, AllocError>
    ensures { IfOk result (λ all. all.items ≡ merged faults.now broken.now) }
{
    let mut all = Vec::new(alloc);
    let mut left = broken;
    let mut rest = faults;
    'rest: while let [first, after @ ..] = rest {
        left = push_up_to(&mut all, first.item, left)?;
        all.push(*first)?;
        rest = after;
    }
    all.extend_from_slice(left)?;
    Ok(all)
}
