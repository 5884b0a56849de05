//! Finding each fault of a trace, and each item that is permitted with a ready that nothing showed.
ghost use Rattle.std.specs.Prelude.{◌≡◌, ◌≤◌, ◌++◌, IfOk, OnOk};
ghost use Rattle.trace_faults.specs.Faults.{faults_of, not_shown_of, not_shown_by};

use crate::broken_rule::BrokenRule;
use crate::readies::Readies;
use crate::trace_state::TraceState;
use crate::unshown::{NotShown, UnshownReady};
use nand_geometry::Geometry;
use onfi_cycle::{Forbidden, Item};
use std::alloc::{AllocError, Allocator};

/// Each fault of a trace on a channel of so many targets of this geometry, 4 at most, in the order of time. An item is judged on what those before it
/// leave, permitted or not; where readies aren't written, on those that it shows, and the one that it needs besides and that is taken for granted
/// ([`find_not_shown`]). The byte of an output that shows no status isn't judged.
pub fn find_faults<A: Allocator>(
    alloc: A,
    geometry: &Geometry,
    targets: u8,
    items: &[Item],
    readies: Readies,
) -> Result<Vec<BrokenRule, A>, AllocError>
    requires { targets ≤ 4 }
    ensures { IfOk result (λ faults. faults.items ≡ faults_of readies geometry.now targets items.now) }
{
    let mut state = TraceState::before(geometry, targets, items);
    let mut faults = Vec::new(alloc);
    let mut place = 0;
    let mut rest = items;
    'rest: while let Some((first, later)) = rest.split_first() {
        let item = *first;
        let _ = readies.go_on_to(&mut state, item, later);
        if let Some(rule) = state.go_on(item) {
            faults.push(BrokenRule { item: place, rule })?;
        }
        place += 1;
        rest = later;
    }
    Ok(faults)
}

// Adds an item that breaks this rule or none, where a LUN was taken for ready before it and it is permitted.
fn push_not_shown<A: Allocator>(
    told: &mut Vec<NotShown, A>,
    item: usize,
    ready: Option<UnshownReady>,
    rule: Option<Forbidden>,
) -> Result<(), AllocError>
    ensures { OnOk result (told.new.items ≡ told.old.items ++ not_shown_by item ready rule) }
{
    match (ready, rule) {
        (Some(ready), None) => told.push(NotShown { item, ready })?,
        (None, _) | (Some(_), Some(_)) => {}
    }
    Ok(())
}

/// Each item of a trace on a channel of so many targets of this geometry, 4 at most, that is permitted with a ready that nothing showed: a LUN of its
/// target is taken for ready before it, as the work of that was done when its host gave it more or read from it. Where readies are written there is none.
pub fn find_not_shown<A: Allocator>(
    alloc: A,
    geometry: &Geometry,
    targets: u8,
    items: &[Item],
    readies: Readies,
) -> Result<Vec<NotShown, A>, AllocError>
    requires { targets ≤ 4 }
    ensures { IfOk result (λ told. told.items ≡ not_shown_of readies geometry.now targets items.now) }
{
    let mut state = TraceState::before(geometry, targets, items);
    let mut told = Vec::new(alloc);
    let mut place = 0;
    let mut rest = items;
    'rest: while let Some((first, later)) = rest.split_first() {
        let item = *first;
        let ready = readies.go_on_to(&mut state, item, later);
        let rule = state.go_on(item);
        push_not_shown(&mut told, place, ready, rule)?;
        place += 1;
        rest = later;
    }
    Ok(told)
}
