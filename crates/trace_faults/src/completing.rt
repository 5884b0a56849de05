//! Completing a trace by the readies that its status outputs show.
ghost use Rattle.std.specs.Prelude.{◌≡◌, ◌≤◌, ◌++◌, IfOk, OnOk};
ghost use Rattle.trace_faults.specs.ShownReadies.{listed, shown_readies, with_readies};
ghost use Rattle.trace_faults.specs.Unshown.{unshown, ready_taken};
ghost use Rattle.trace_faults.specs.Faults.{completed, before_item, readies_before, taken_readies, further_ready, further_readies, with_unshown, with_further, with_each, with_taken};
ghost use Rattle.trace_faults.specs.declared.readies.Readies.TheVariants.{Shown};

use crate::readies::{go_on_by_further, go_on_by_unshown};
use crate::shown_readies::go_on_by_readies;
use crate::trace_state::TraceState;
use crate::unshown::ready_taken;
use nand_geometry::Geometry;
use onfi_cycle::Item;
use std::alloc::{AllocError, Allocator};

// Adds an item, if there is one.
fn push_some<A: Allocator>(items: &mut Vec<Item, A>, item: Option<Item>) -> Result<(), AllocError>
    ensures { OnOk result (items.new.items ≡ items.old.items ++ listed item) }
{
    if let Some(item) = item {
        items.push(item)?;
    }
    Ok(())
}

// Goes on by the ready of a further LUN that an item needs, and adds it.
fn push_further<A: Allocator>(
    items: &mut Vec<Item, A>,
    state: &mut TraceState,
    item: Item,
    later: &[Item],
) -> Result<(), AllocError>
    ensures items { OnOk result (items.new.items ≡ items.old.items ++ further_ready state.old item later.now) }
    ensures state { state.new ≡ with_further state.old item later.now }
{
    let ready = go_on_by_further(state, item, later);
    push_some(items, ready)
}

// Goes on by the readies of all further LUNs that an item needs, and adds them.
fn push_each<A: Allocator>(
    items: &mut Vec<Item, A>,
    state: &mut TraceState,
    item: Item,
    later: &[Item],
) -> Result<(), AllocError>
    ensures items { OnOk result (items.new.items ≡ items.old.items ++ further_readies state.old item later.now) }
    ensures state { OnOk result (state.new ≡ with_each state.old item later.now) }
{
    push_further(items, state, item, later)?;
    push_further(items, state, item, later)?;
    push_further(items, state, item, later)
}

// Goes on by the readies that an item needs, and that nothing showed, and adds them.
fn push_taken<A: Allocator>(
    items: &mut Vec<Item, A>,
    state: &mut TraceState,
    item: Item,
    later: &[Item],
) -> Result<(), AllocError>
    ensures items { OnOk result (items.new.items ≡ items.old.items ++ taken_readies state.old item later.now) }
    ensures state { OnOk result (state.new ≡ with_taken Shown state.old item later.now) }
{
    let taken = go_on_by_unshown(state, item, later);
    push_some(items, ready_taken(taken))?;
    push_each(items, state, item, later)
}

// Goes on to where an item is judged, and adds the readies before it.
fn push_readies<A: Allocator>(
    items: &mut Vec<Item, A>,
    state: &mut TraceState,
    item: Item,
    later: &[Item],
) -> Result<(), AllocError>
    ensures items { OnOk result (items.new.items ≡ items.old.items ++ readies_before state.old item later.now) }
    ensures state { OnOk result (state.new ≡ before_item Shown state.old item later.now) }
{
    let (ready, array_ready) = go_on_by_readies(state, item);
    push_some(items, ready)?;
    push_some(items, array_ready)?;
    push_taken(items, state, item, later)
}

/// A trace with the readies that its status outputs show, each before the output that shows it, and with those that are taken for granted, each before
/// the item that needs it; what it has already, it keeps. It takes the memory of the trace that comes of it.
pub fn complete<A: Allocator>(
    alloc: A,
    geometry: &Geometry,
    targets: u8,
    items: &[Item],
) -> Result<Vec<Item, A>, AllocError>
    requires { targets ≤ 4 }
    ensures { IfOk result (λ whole. whole.items ≡ completed geometry.now targets items.now) }
{
    let mut state = TraceState::before(geometry, targets, items);
    let mut whole = Vec::new(alloc);
    let mut rest = items;
    'rest: while let Some((first, later)) = rest.split_first() {
        let item = *first;
        push_readies(&mut whole, &mut state, item, later)?;
        whole.push(item)?;
        let _ = state.go_on(item);
        rest = later;
    }
    Ok(whole)
}
