//! What an item does to the dies of a channel.
ghost use Rattle.std.specs.Prelude.{◌≡◌, ℕ, ◌+◌, ◌%◌, ◌<◌, ◌≤◌, true, false, List, Some, None, IsOk, IfOk, IfSome, OnErr, length, slice_get, slice_set};
ghost use Rattle.nand_geometry.specs.declared.parts.Parts.{Parts};
ghost use Rattle.nand_geometry.specs.Limits.{page_len, planes};
ghost use Rattle.onfi_cycle.specs.declared.item.Kind.TheVariants.{Din};
ghost use Rattle.onfi_cycle.specs.declared.item.Item.{Item};
ghost use Rattle.onfi_cycle.specs.declared.item.Item.TheVariants.{Cyc};
ghost use Rattle.onfi_cycle.specs.Sequence.{facts_of, tail, takes_data};
ghost use Rattle.onfi_cycle.specs.Lun.{held};
ghost use Rattle.onfi_cycle.specs.Filling.{filling};
ghost use Rattle.onfi_cycle.specs.Channel.{is_cycle, cycle};
ghost use Rattle.onfi_cycle.specs.State.{Follows};
ghost use Rattle.onfi_cycle.specs.Working.{fills, begins, resets_several};
ghost use Rattle.onfi_cycle.specs.Readies.{starts_work};
ghost use Rattle.onfi_cycle.specs.declared.effect.Effect.TheVariants.{BecameReady, ArrayBecameReady, FeaturesSet, TargetResetStarted};
ghost use Rattle.onfi_cycle.specs.declared.filling.Filling.TheVariants.{Leaves};
ghost use Rattle.die_model.specs.Die.{Die, IsAfter, is_program, filled_with};
ghost use Rattle.die_model.specs.Standing.{CanWork, WorkedBy};
ghost use Rattle.target_bus.specs.Bus.{FindsWork, FindsFilled, Permits, PermitsInputs, StandOn, StandOnByInputs, feature_set, is_input, may_fill};

use die_model::LunDie;
use onfi_cycle::{
    BusState, Cycle, Effect, FEATURE_BYTES, Failures, Filling, Item, Kind, Lun, PageAddress,
    TailFacts, TargetCycle, is_shared,
};
use std::alloc::{AllocError, Allocator};

// A page register changes.
fn fills(filling: Filling) -> bool
    ensures { result ≡ fills filling }
{
    matches!(
        filling,
        Filling::Clears(_) | Filling::Copies(..) | Filling::Fills(..)
    )
}

// Work begins, or another page comes into the register.
fn begins(effect: Effect) -> bool
    ensures { result ≡ begins effect }
{
    matches!(
        effect,
        Effect::ReadStarted { .. }
            | Effect::ReadQueued { .. }
            | Effect::CopybackReadStarted { .. }
            | Effect::PlaneSelected { .. }
            | Effect::EraseStarted { .. }
            | Effect::ProgramStarted { .. }
            | Effect::CacheProgramStarted { .. }
            | Effect::IdRead
            | Effect::IdentityRead { .. }
            | Effect::UniqueIdReadStarted
            | Effect::FeaturesReadStarted { .. }
            | Effect::FeaturesSet { .. }
            | Effect::ParameterPageReadStarted
            | Effect::CacheReadContinued { .. }
            | Effect::CacheReadEnded
            | Effect::ResetStarted
            | Effect::TargetResetStarted { .. }
    )
}

// A cycle of this kind may change a page register.
fn may_fill(kind: Kind) -> bool
    ensures { result ≡ may_fill kind }
{
    kind == Kind::Adr || kind == Kind::Din
}

// What a cycle does to the page registers of a LUN that is there.
fn filling_by(state: &BusState, cycle: Cycle, lun: Lun) -> Filling
    ensures { (g : Parts) (n : ℕ) (past : List Item) → Follows g n state.now past → lun.ce < n → lun.lun < g.luns
        → result ≡ filling g (facts_of (tail past lun.ce)) (Cyc cycle) lun (held g past lun) }
{
    if may_fill(cycle.kind) {
        state.filling(Item::Cyc(cycle), lun)
    } else {
        Filling::Leaves
    }
}

// A cycle of this kind is an input.
fn is_input(kind: Kind) -> bool
    ensures { result ≡ is_input kind }
{
    kind == Kind::Din
}

// A target is in the data of a Page Program, so that an input fills a page register and does nothing else.
fn takes_data(state: &BusState, ce: u8) -> bool
    ensures { (g : Parts) (n : ℕ) (past : List Item) → Follows g n state.now past → ce < n
        → result ≡ takes_data (facts_of (tail past ce)).phase }
{
    match state.tail(ce) {
        None => false,
        Some(tail) => tail.phase.takes_data(),
    }
}

// The feature whose last byte comes with so many inputs more, if it comes with them.
fn feature_set(tail: TailFacts, count: usize) -> Option<u8>
    ensures { result ≡ feature_set tail count }
{
    if tail.phase.takes_features()
        && tail.inputs < FEATURE_BYTES
        && count == FEATURE_BYTES - tail.inputs
    {
        Some((tail.column % 256) as u8)
    } else {
        None
    }
}

// The same of a target.
fn feature_of(state: &BusState, ce: u8, count: usize) -> Option<u8>
    ensures { (g : Parts) (n : ℕ) (past : List Item) → Follows g n state.now past → ce < n
        → result ≡ feature_set (facts_of (tail past ce)) count }
{
    match state.tail(ce) {
        None => None,
        Some(tail) => feature_set(tail, count),
    }
}

/// The LUN of a target that a cycle works on, and how.
#[derive(Clone, Copy, Debug, PartialEq, Eq)]
pub struct Worked {
    pub lun: u8,
    pub filling: Filling,
    pub effect: Effect,
}

// Of the LUNs of its target from this number on, the one that a cycle works on.
fn find_work(state: &BusState, cycle: Cycle, luns: u8, lun: u8) -> Option<Worked>
    requires { lun ≤ luns }
    ensures there { IfSome result (λ w. w.lun < luns) }
    ensures past { (g : Parts) (targets : ℕ) (past : List Item) → Follows g targets state.now past → cycle.ce < targets → g.luns ≡ luns
        → FindsWork g past (Cyc cycle) cycle.ce lun result }
{
    if lun == luns {
        return None;
    }
    let here = Lun { ce: cycle.ce, lun };
    let filling = filling_by(state, cycle, here);
    let effect = state.effect(Item::Cyc(cycle), here);
    if fills(filling) || begins(effect) {
        return Some(Worked {
            lun,
            filling,
            effect,
        });
    }
    find_work(state, cycle, luns, lun + 1)
}

// Works the die of a number.
#[inline(always)]
fn work_in<A: Allocator + Copy>(
    dies: &mut [LunDie<A>],
    place: usize,
    filling: Filling,
    effect: Effect,
) -> Result<(), AllocError>
    requires inside { place < length dies.old }
    requires can { (d : Die) → slice_get dies.old place ≡ Some d → CanWork filling effect d }
    ensures ok { IfOk result (λ _. (old : Die) × (new : Die) × (slice_get dies.old place ≡ Some old)
        × WorkedBy old.geometry filling effect old new × (dies.new ≡ slice_set dies.old place new)) }
    ensures err { OnErr result (dies.new ≡ dies.old) }
    ensures memory { is_program effect ≡ false → IsOk result }
{
    dies[place].work(filling, effect)
}

// Ends the work of the die of a number.
fn finish_in<A: Allocator + Copy>(dies: &mut [LunDie<A>], place: usize, fail: Failures)
    requires inside { place < length dies.old }
    ensures { (old : Die) × (new : Die) × (slice_get dies.old place ≡ Some old) × IsAfter (BecameReady fail) old new
        × (dies.new ≡ slice_set dies.old place new) }
{
    dies[place].finish(fail);
}

// Ends the work of the array of the die of a number.
fn finish_array_in<A: Allocator + Copy>(dies: &mut [LunDie<A>], place: usize, fail: bool)
    requires inside { place < length dies.old }
    ensures { (old : Die) × (new : Die) × (slice_get dies.old place ≡ Some old) × IsAfter (ArrayBecameReady fail) old new
        × (dies.new ≡ slice_set dies.old place new) }
{
    dies[place].finish_array(fail);
}

// Works a permitted input of a Page Program on the dies: it changes a page register of one of them.
fn work_input<A: Allocator + Copy>(
    state: &BusState,
    dies: &mut [LunDie<A>],
    cycle: Cycle,
) -> Result<(), AllocError>
    requires few { length dies.old ≤ 16 }
    requires permitted { Permits state.now dies.old (Cyc cycle) }
    requires input { is_input cycle.kind ≡ true }
    requires in_data { (g : Parts) (n : ℕ) (past : List Item) → Follows g n state.now past → cycle.ce < n
        → takes_data (facts_of (tail past cycle.ce)).phase ≡ true }
    ensures ok { IfOk result (λ _. StandOn state.now dies.old dies.new (Cyc cycle)) }
    ensures err { OnErr result (dies.new ≡ dies.old) }
    ensures memory { starts_work (Cyc cycle) ≡ false → IsOk result }
{
    // Its contract says that the rows which are named fit.
    state.facts_fit();
    let luns = state.geometry().parts().luns;
    for lun in 0..luns {
        let here = Lun { ce: cycle.ce, lun };
        let filling = state.filling(Item::Cyc(cycle), here);
        if fills(filling) {
            return work_in(dies, here.place(luns), filling, Effect::Unaffected);
        }
    }
    Ok(())
}

// The cycle resets all LUNs of a target that has several.
fn resets_several(state: &BusState, cycle: Cycle) -> bool
    ensures { result ≡ resets_several state.now.geometry (Cyc cycle) }
{
    is_shared(&state.geometry())
        && match TargetCycle::of(cycle.kind, cycle.byte) {
            TargetCycle::CommandCycle(command) => command.is_reset(),
            TargetCycle::AddressCycle(_) | TargetCycle::InputCycle(_) | TargetCycle::OutputCycle =>
                false,
        }
}

// Resets the die of a number, as one of its target.
fn reset_in<A: Allocator + Copy>(dies: &mut [LunDie<A>], place: usize, first: bool)
    requires inside { place < length dies.old }
    requires can { (d : Die) → slice_get dies.old place ≡ Some d → CanWork Leaves (TargetResetStarted first) d }
    ensures { (old : Die) × (new : Die) × (slice_get dies.old place ≡ Some old)
        × IsAfter (TargetResetStarted first) old new × (dies.new ≡ slice_set dies.old place new) }
{
    match work_in(
        dies,
        place,
        Filling::Leaves,
        Effect::TargetResetStarted { first },
    ) {
        Ok(()) => {}
        Err(_) => unreachable!(),
    }
}

// Works a permitted reset of several LUNs on the dies of its target, which takes no memory.
fn work_reset<A: Allocator + Copy>(state: &BusState, dies: &mut [LunDie<A>], cycle: Cycle)
    requires few { length dies.old ≤ 16 }
    requires permitted { Permits state.now dies.old (Cyc cycle) }
    requires several { resets_several state.now.geometry (Cyc cycle) ≡ true }
    ensures { StandOn state.now dies.old dies.new (Cyc cycle) }
{
    // Its contract says that the dies can be reset.
    state.facts_fit();
    let luns = state.geometry().parts().luns;
    for lun in 0..luns {
        let here = Lun { ce: cycle.ce, lun };
        reset_in(dies, here.place(luns), lun == 0);
    }
}

// Works a permitted cycle on the dies that works on one of them at most.
fn work_found<A: Allocator + Copy>(
    state: &BusState,
    dies: &mut [LunDie<A>],
    cycle: Cycle,
) -> Result<(), AllocError>
    requires few { length dies.old ≤ 16 }
    requires permitted { Permits state.now dies.old (Cyc cycle) }
    requires one { resets_several state.now.geometry (Cyc cycle) ≡ false }
    ensures ok { IfOk result (λ _. StandOn state.now dies.old dies.new (Cyc cycle)) }
    ensures err { OnErr result (dies.new ≡ dies.old) }
    ensures memory { starts_work (Cyc cycle) ≡ false → IsOk result }
{
    // Its contract says that the rows which are named fit.
    state.facts_fit();
    let luns = state.geometry().parts().luns;
    match find_work(state, cycle, luns, 0) {
        None => Ok(()),
        Some(worked) => {
            let here = Lun {
                ce: cycle.ce,
                lun: worked.lun,
            };
            work_in(dies, here.place(luns), worked.filling, worked.effect)
        }
    }
}

/// Works a permitted cycle on the dies: on one of them at most, or it resets those of its target. Without memory for that all stays as it was.
pub fn work<A: Allocator + Copy>(
    state: &BusState,
    dies: &mut [LunDie<A>],
    cycle: Cycle,
) -> Result<(), AllocError>
    requires few { length dies.old ≤ 16 }
    requires permitted { Permits state.now dies.old (Cyc cycle) }
    ensures ok { IfOk result (λ _. StandOn state.now dies.old dies.new (Cyc cycle)) }
    ensures err { OnErr result (dies.new ≡ dies.old) }
    ensures memory { starts_work (Cyc cycle) ≡ false → IsOk result }
{
    if is_input(cycle.kind) && takes_data(state, cycle.ce) {
        work_input(state, dies, cycle)
    } else if resets_several(state, cycle) {
        work_reset(state, dies, cycle);
        Ok(())
    } else {
        work_found(state, dies, cycle)
    }
}

/// The LUN of a target whose page register inputs fill: the page whose plane it is, and the column of the next input.
#[derive(Clone, Copy, Debug, PartialEq, Eq)]
pub struct FilledLun {
    pub lun: u8,
    pub page: PageAddress,
    pub column: usize,
}

// An input; which byte it is doesn't matter for where it goes.
fn input(ce: u8) -> Item
    ensures { result ≡ cycle ce Din 0 }
{
    Item::Cyc(Cycle {
        ce,
        kind: Kind::Din,
        byte: 0,
    })
}

// Of the LUNs of a target from this number on, the one whose page register inputs fill.
fn find_filled(state: &BusState, ce: u8, luns: u8, lun: u8) -> Option<FilledLun>
    requires { lun ≤ luns }
    ensures there { IfSome result (λ f. f.lun < luns) }
    ensures past { (g : Parts) (n : ℕ) (past : List Item) → Follows g n state.now past → ce < n → g.luns ≡ luns
        → FindsFilled g (facts_of (tail past ce)) lun result }
{
    if lun == luns {
        return None;
    }
    match state.filling(input(ce), Lun { ce, lun }) {
        Filling::Fills(page, column, _) => Some(FilledLun { lun, page, column }),
        Filling::Leaves | Filling::Clears(_) | Filling::Copies(..) => {
            find_filled(state, ce, luns, lun + 1)
        }
    }
}

// Fills the register of a page's plane from a column on, in the die of a number.
fn fill_in<A: Allocator + Copy>(
    dies: &mut [LunDie<A>],
    place: usize,
    filled: FilledLun,
    bytes: &[u8],
)
    requires inside { place < length dies.old }
    requires columns { (d : Die) → slice_get dies.old place ≡ Some d → filled.column + length bytes.now ≤ page_len d.geometry }
    ensures { (old : Die) × (slice_get dies.old place ≡ Some old)
        × (dies.new ≡ slice_set dies.old place (filled_with (filled.page.block % planes old.geometry) filled.column bytes.now old)) }
{
    dies[place].fill_from(filled.page, filled.column, bytes);
}

// Works a run of permitted inputs of a Page Program on the dies, one at least: they change a page register of one of them.
fn work_data<A: Allocator + Copy>(state: &BusState, dies: &mut [LunDie<A>], ce: u8, bytes: &[u8])
    requires few { length dies.old ≤ 16 }
    requires some { 0 < length bytes.now }
    requires permitted { PermitsInputs state.now dies.old ce (length bytes.now) }
    requires in_data { (g : Parts) (n : ℕ) (past : List Item) → Follows g n state.now past → ce < n
        → takes_data (facts_of (tail past ce)).phase ≡ true }
    ensures { StandOnByInputs state.now dies.old dies.new ce bytes.now }
{
    // Its contract says that what is kept fits.
    state.facts_fit();
    let luns = state.geometry().parts().luns;
    match find_filled(state, ce, luns, 0) {
        None => {}
        Some(filled) => {
            let here = Lun {
                ce,
                lun: filled.lun,
            };
            fill_in(dies, here.place(luns), filled, bytes);
        }
    }
}

// Sets a feature of the die of a number, which takes no memory.
fn set_in<A: Allocator + Copy>(dies: &mut [LunDie<A>], place: usize, address: u8)
    requires inside { place < length dies.old }
    requires can { (d : Die) → slice_get dies.old place ≡ Some d → CanWork Leaves (FeaturesSet address) d }
    ensures { (old : Die) × (new : Die) × (slice_get dies.old place ≡ Some old)
        × WorkedBy old.geometry Leaves (FeaturesSet address) old new × (dies.new ≡ slice_set dies.old place new) }
{
    match work_in(
        dies,
        place,
        Filling::Leaves,
        Effect::FeaturesSet { address },
    ) {
        Ok(()) => {}
        Err(_) => unreachable!(),
    }
}

// Works a run of permitted inputs of a Set Features on the dies, one at least: the last of its bytes sets the feature.
fn work_feature_bytes<A: Allocator + Copy>(
    state: &BusState,
    dies: &mut [LunDie<A>],
    ce: u8,
    count: usize,
)
    requires few { length dies.old ≤ 16 }
    requires some { 0 < count }
    requires permitted { PermitsInputs state.now dies.old ce count }
    requires no_data { (g : Parts) (n : ℕ) (past : List Item) → Follows g n state.now past → ce < n
        → takes_data (facts_of (tail past ce)).phase ≡ false }
    ensures { (bytes : List ℕ) → length bytes ≡ count → StandOnByInputs state.now dies.old dies.new ce bytes }
{
    // Its contract says that what is kept fits.
    state.facts_fit();
    let luns = state.geometry().parts().luns;
    match feature_of(state, ce, count) {
        None => {}
        Some(address) => set_in(dies, Lun { ce, lun: 0 }.place(luns), address),
    }
}

/// Works a run of permitted inputs on the dies: on one of them at most.
pub fn work_inputs<A: Allocator + Copy>(
    state: &BusState,
    dies: &mut [LunDie<A>],
    ce: u8,
    bytes: &[u8],
)
    requires few { length dies.old ≤ 16 }
    requires permitted { PermitsInputs state.now dies.old ce (length bytes.now) }
    ensures { StandOnByInputs state.now dies.old dies.new ce bytes.now }
{
    if bytes.is_empty() {
        return;
    }
    if takes_data(state, ce) {
        work_data(state, dies, ce, bytes);
    } else {
        work_feature_bytes(state, dies, ce, bytes.len());
    }
}

/// Ends the work of the LUN that a permitted ready names, or that of its array, on its die.
pub fn end_work<A: Allocator + Copy>(state: &BusState, dies: &mut [LunDie<A>], ready: Item)
    requires few { length dies.old ≤ 16 }
    requires ready { is_cycle ready ≡ false }
    requires permitted { Permits state.now dies.old ready }
    ensures { StandOn state.now dies.old dies.new ready }
{
    // Its contract says that the rows which are named fit.
    state.facts_fit();
    let luns = state.geometry().parts().luns;
    match ready {
        Item::Cyc(_) => unreachable!(),
        Item::Rdy { ce, lun, fail } => finish_in(dies, Lun { ce, lun }.place(luns), fail),
        Item::Ard { ce, lun, fail } => finish_array_in(dies, Lun { ce, lun }.place(luns), fail),
    }
}
