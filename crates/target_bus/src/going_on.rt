//! What the running state says of an item, how it goes on by one, and how many readies are to come.
ghost use Rattle.std.specs.Prelude.{◌≡◌, ℕ, ◌+◌, ◌<◌, ◌≤◌, ◌^◌, true, false, ◌&&◌, not, List, ◌∷◌, ◌++◌, None, length, map};
ghost use Rattle.std.specs.Vec.{vec_len, vec_capacity};
ghost use Rattle.nand_geometry.specs.declared.parts.Parts.{Parts};
ghost use Rattle.onfi_cycle.specs.declared.item.Item.{Item};
ghost use Rattle.onfi_cycle.specs.declared.item.Item.TheVariants.{Cyc};
ghost use Rattle.onfi_cycle.specs.declared.item.Kind.TheVariants.{Dout};
ghost use Rattle.onfi_cycle.specs.Permitted.{broken};
ghost use Rattle.onfi_cycle.specs.Channel.{is_cycle, cycle};
ghost use Rattle.onfi_cycle.specs.State.{Follows, judged};
ghost use Rattle.onfi_cycle.specs.Readies.{starts_work, bus_due};
ghost use Rattle.onfi_cycle.specs.Outputs.{with_outputs, judged_outputs, after_outputs};
ghost use Rattle.onfi_cycle.specs.Inputs.{with_inputs, judged_inputs, after_inputs};
ghost use Rattle.target_bus.specs.Bus.{starting};

use onfi_cycle::{BusState, Cycle, Forbidden, Item, Kind, readies_are_due, starts_work};
use std::alloc::Allocator;

// The item may start work: a command alone can, and none other need be looked at.
fn starts(item: Item) -> bool
    ensures { result ≡ starts_work item }
{
    match item {
        Item::Cyc(cycle) => cycle.kind == Kind::Cmd && starts_work(item),
        _ => false,
    }
}

/// How many works an item may start.
pub fn starting(item: Item) -> usize
    ensures value { result ≡ starting item }
    ensures most { result ≤ 1 }
{
    if starts(item) { 1 } else { 0 }
}

/// The first rule that a cycle breaks.
#[inline(always)]
pub fn judge_cycle(state: &BusState, cycle: Cycle) -> Option<Forbidden>
    ensures state { result ≡ judged state.now (Cyc cycle) }
    ensures past { (g : Parts) (n : ℕ) (past : List Item) → Follows g n state.now past → result ≡ broken g n past (Cyc cycle) }
{
    state.judge(Item::Cyc(cycle))
}

/// The output of a byte.
pub fn output(ce: u8, byte: u8) -> Cycle
    ensures { Cyc result ≡ cycle ce Dout byte }
{
    Cycle {
        ce,
        kind: Kind::Dout,
        byte,
    }
}

/// The first rule that an output on a target breaks, whatever its byte.
#[inline(always)]
pub fn judge_output(state: &BusState, ce: u8) -> Option<Forbidden>
    ensures state { (byte : ℕ) → result ≡ judged state.now (cycle ce Dout byte) }
    ensures past { (g : Parts) (n : ℕ) (past : List Item) (byte : ℕ) → Follows g n state.now past
        → result ≡ broken g n past (cycle ce Dout byte) }
{
    state.judge(Item::Cyc(output(ce, 0)))
}

// Goes on by a permitted cycle that starts no work, which brings no ready.
#[inline(always)]
fn go_on_idly(state: &mut BusState, item: Item)
    requires permitted { judged state.old item ≡ None }
    requires cycle { is_cycle item ≡ true }
    requires idle { starts_work item ≡ false }
    ensures past { (g : Parts) (n : ℕ) (past : List Item) → Follows g n state.old past → Follows g n state.new (item ∷ past) }
    ensures due { bus_due state.new ≤ bus_due state.old }
{
    // Laws: what an item leaves of the readies that are due, and that the facts of the state fit.
    readies_are_due();
    state.facts_fit();
    state.apply(item);
}

// The item is a cycle that starts no work.
#[inline(always)]
fn is_idle(item: Item) -> bool
    ensures { result ≡ (is_cycle item && not (starts_work item)) }
{
    matches!(item, Item::Cyc(_)) && !starts(item)
}

/// Goes on by a permitted item, and tells how many readies are to come after it at most.
#[inline(always)]
pub fn go_on(state: &mut BusState, item: Item, due: usize) -> usize
    requires permitted { judged state.old item ≡ None }
    requires due { bus_due state.old ≤ due }
    requires small { due < 2 ^ 62 }
    ensures past { (g : Parts) (n : ℕ) (past : List Item) → Follows g n state.old past → Follows g n state.new (item ∷ past) }
    ensures due { bus_due state.new ≤ result }
    ensures idle { is_cycle item ≡ true → starts_work item ≡ false → result ≤ due }
    ensures ready { is_cycle item ≡ false → result + 1 ≤ due }
    ensures most { result ≤ due + 16 }
{
    if is_idle(item) {
        go_on_idly(state, item);
        due
    } else {
        go_on_counted(state, item, due)
    }
}

// Goes on by a permitted item, and counts the readies that are to come on its target before and after.
fn go_on_counted(state: &mut BusState, item: Item, due: usize) -> usize
    requires permitted { judged state.old item ≡ None }
    requires due { bus_due state.old ≤ due }
    requires small { due < 2 ^ 62 }
    ensures past { (g : Parts) (n : ℕ) (past : List Item) → Follows g n state.old past → Follows g n state.new (item ∷ past) }
    ensures due { bus_due state.new ≤ result }
    ensures idle { is_cycle item ≡ true → starts_work item ≡ false → result ≤ due }
    ensures ready { is_cycle item ≡ false → result + 1 ≤ due }
    ensures most { result ≤ due + 16 }
{
    let ce = item.target();
    let before = state.due(ce);
    // Laws: what an item leaves of the readies that are due, and that the facts of the state fit.
    readies_are_due();
    state.facts_fit();
    state.apply(item);
    due - before + state.due(ce)
}

/// Goes on by a run of permitted outputs, which bring no ready.
pub fn go_on_by_outputs(state: &mut BusState, ce: u8, count: usize)
    requires { judged_outputs ce count state.old ≡ None }
    ensures state { state.new ≡ after_outputs ce count state.old }
    ensures past { (g : Parts) (n : ℕ) (past : List Item) (bytes : List ℕ) → Follows g n state.old past → length bytes ≡ count
        → Follows g n state.new (with_outputs ce bytes past) }
    ensures due { bus_due state.new ≤ bus_due state.old }
{
    // Laws: what an item leaves of the readies that are due, and that the facts of the state fit.
    readies_are_due();
    state.facts_fit();
    state.apply_outputs(ce, count);
}

/// Goes on by a run of permitted inputs, which bring no ready.
pub fn go_on_by_inputs(state: &mut BusState, ce: u8, count: usize)
    requires { judged_inputs ce count state.old ≡ None }
    ensures state { state.new ≡ after_inputs ce count state.old }
    ensures past { (g : Parts) (n : ℕ) (past : List Item) (bytes : List ℕ) → Follows g n state.old past → length bytes ≡ count
        → Follows g n state.new (with_inputs ce bytes past) }
    ensures due { bus_due state.new ≤ bus_due state.old }
{
    // Laws: what an item leaves of the readies that are due, and that the facts of the state fit.
    readies_are_due();
    state.facts_fit();
    state.apply_inputs(ce, count);
}

/// Adds the data cycles of these bytes to a trace that has places for them.
pub fn push_run<A: Allocator>(trace: &mut Vec<Item, A>, ce: u8, kind: Kind, bytes: &[u8])
    requires places { vec_len trace.old + length bytes.now ≤ vec_capacity trace.old }
    ensures items { trace.new.items ≡ trace.old.items ++ map (λ byte. cycle ce kind byte) bytes.now }
    ensures len { vec_len trace.new ≡ vec_len trace.old + length bytes.now }
    ensures capacity { vec_capacity trace.new ≡ vec_capacity trace.old }
{
    for byte in bytes {
        trace.push_reserved(Item::Cyc(Cycle {
            ce,
            kind,
            byte: *byte,
        }));
    }
}
