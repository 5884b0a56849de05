//! Runs of data cycles in a trace, which a check judges at once.

ghost use Rattle.std.specs.Prelude.{◌≡◌, ℕ, ◌≤◌, ◌++◌, List, Some, IsTrue, IfOk, IfErr, length, take, reverse, slice_get};
ghost use Rattle.nand_geometry.specs.declared.parts.Parts.{Parts};
ghost use Rattle.onfi_cycle.specs.declared.item.Item.{Item};
ghost use Rattle.onfi_cycle.specs.Permitted.{broken};
ghost use Rattle.onfi_cycle.specs.State.{Follows};
ghost use Rattle.onfi_cycle.specs.Outputs.{with_outputs};
ghost use Rattle.onfi_cycle.specs.Inputs.{with_inputs};
ghost use Rattle.trace_text.specs.Checking.{IsCycleOf, AreCyclesOf};

use onfi_cycle::{BusState, Forbidden, Item, Kind};

// The item is a data cycle of this kind on this target.
fn is_data_of(item: Item, ce: u8, kind: Kind) -> bool
    ensures { IsTrue result → IsCycleOf kind ce item }
{
    match item {
        Item::Cyc(cycle) if cycle.ce == ce => matches!(
            (cycle.kind, kind),
            (Kind::Din, Kind::Din) | (Kind::Dout, Kind::Dout)
        ),
        Item::Cyc(_) | Item::Rdy { .. } | Item::Ard { .. } => false,
    }
}

// How many of the first items are data cycles of this kind on this target, up to so many.
fn count_cycles(items: &[Item], ce: u8, kind: Kind, most: usize) -> usize
    ensures cycles { AreCyclesOf kind ce (take result items.now) }
    ensures inside { result ≤ length items.now }
{
    let mut count = 0;
    while count < most && count < items.len() && is_data_of(items[count], ce, kind) {
        count += 1;
    }
    count
}

// Goes on by so many outputs on a target, or by as many of them as are found to be permitted. How many these are.
fn go_on_by_outputs(state: &mut BusState, ce: u8, most: usize) -> usize
    ensures most { result ≤ most }
    ensures past { (g : Parts) (n : ℕ) (past : List Item) (bytes : List ℕ) → Follows g n state.old past → length bytes ≡ result
        → Follows g n state.new (with_outputs ce bytes past) }
{
    let mut count = most;
    while state.judge_outputs(ce, count).is_some() {
        count /= 2;
    }
    state.apply_outputs(ce, count);
    count
}

// The same for inputs.
fn go_on_by_inputs(state: &mut BusState, ce: u8, most: usize) -> usize
    ensures most { result ≤ most }
    ensures past { (g : Parts) (n : ℕ) (past : List Item) (bytes : List ℕ) → Follows g n state.old past → length bytes ≡ result
        → Follows g n state.new (with_inputs ce bytes past) }
{
    let mut count = most;
    while state.judge_inputs(ce, count).is_some() {
        count /= 2;
    }
    state.apply_inputs(ce, count);
    count
}

// Goes on by the inputs or outputs of one target that come first, at most so many, as far as they are found to be permitted. How many
// these are; 0 where another item comes first.
fn go_on_by_run(state: &mut BusState, items: &[Item], most: usize) -> usize
    ensures inside { result ≤ length items.now }
    ensures past { (g : Parts) (n : ℕ) (past : List Item) → Follows g n state.old past
        → Follows g n state.new (reverse (take result items.now) ++ past) }
{
    let [Item::Cyc(first), ..] = items else {
        return 0;
    };
    let ce = first.ce;
    match first.kind {
        Kind::Cmd | Kind::Adr => 0,
        Kind::Din => go_on_by_inputs(state, ce, count_cycles(items, ce, Kind::Din, most)),
        Kind::Dout => go_on_by_outputs(state, ce, count_cycles(items, ce, Kind::Dout, most)),
    }
}

/// Goes on by the items that come first, of which there is one: by a run of data cycles of at most so many, or by one item. How many
/// these are; or the rule that the first one breaks.
pub(crate) fn go_on(state: &mut BusState, items: &[Item], most: usize) -> Result<usize, Forbidden>
    requires { 1 ≤ length items.now }
    ensures some { IfOk result (λ k. (1 ≤ k) × (k ≤ length items.now)) }
    ensures past { IfOk result (λ k. (g : Parts) (n : ℕ) (past : List Item) → Follows g n state.old past
        → Follows g n state.new (reverse (take k items.now) ++ past)) }
    ensures err { IfErr result (λ rule. (g : Parts) (n : ℕ) (past : List Item) (item : Item) → Follows g n state.old past
        → slice_get items.now 0 ≡ Some item → broken g n past item ≡ Some rule) }
{
    let run = go_on_by_run(state, items, most);
    if run > 0 {
        return Ok(run);
    }
    let item = items[0];
    match state.judge(item) {
        Some(rule) => Err(rule),
        None => {
            state.apply(item);
            Ok(1)
        }
    }
}
