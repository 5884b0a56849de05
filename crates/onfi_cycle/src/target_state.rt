//! What a running channel keeps of a target: the facts of its tail, and those of each of its LUNs.
ghost use Rattle.std.specs.Prelude.{◌≡◌, ℕ, ◌+◌, ◌^◌, ◌<◌, ◌≤◌, [], Some, length, map, slice_get};
ghost use Rattle.std.specs.Option.{option_copied};
ghost use Rattle.std.specs.List.{list_any};
ghost use Rattle.nand_geometry.specs.declared.parts.Parts.{Parts};
ghost use Rattle.nand_geometry.specs.Limits.{InLimits};
ghost use Rattle.onfi_cycle.specs.LunView.{LunView};
ghost use Rattle.onfi_cycle.specs.Effect.{is_data};
ghost use Rattle.onfi_cycle.specs.Applied.{luns_after_cycle, asks_driver, one_after, needs_no_row, acts_by_address, may_act};
ghost use Rattle.onfi_cycle.specs.Sequence.{facts_after, takes_data, takes_features};
ghost use Rattle.onfi_cycle.specs.Filling.{filling, held_by};
ghost use Rattle.onfi_cycle.specs.Readies.{target_due};
ghost use Rattle.onfi_cycle.specs.State.{TargetView, target_view, effect_alone, has_driver, target_after, without_sequence};
ghost use Rattle.onfi_cycle.specs.Look.{look_at_some};
ghost use Rattle.onfi_cycle.specs.Rules.{lun_is, works_for_target};
ghost use Rattle.onfi_cycle.specs.Bounds.{LunsFit, TargetFits};
ghost use Rattle.onfi_cycle.specs.Outputs.{AreFew, given_on, given_target, against_rest};
ghost use Rattle.onfi_cycle.specs.Inputs.{fed_target, against_inputs};

use crate::item_effects::ends_features;
use crate::readies::due_of;
use crate::rules::some_works_for_target;
use crate::{
    Command, Effect, Failures, Filling, Forbidden, Item, Latch, Lun, LunFacts, LunState, RowQueue,
    TailFacts, TargetCycle, driver, item_effect,
};
use arrayvec::ArrayVec;
use nand_geometry::{Geometry, MAX_LUNS};
use std::marker::Model;

/// What is kept of a target.
#[derive(Drop)]
pub struct TargetState {
    /// The facts of its tail.
    pub tail: TailFacts,
    /// Those of each of its LUNs, by their numbers.
    pub luns: ArrayVec<LunFacts<RowQueue>, MAX_LUNS>,
}

impl Model for TargetState {
    ghost Value = { TargetView };

    ghost view = { λ s. record { tail = s.tail; luns = s.luns.items } };
}

impl Default for TargetState {
    fn default() -> TargetState {
        TargetState {
            tail: TailFacts::none(),
            luns: ArrayVec::new(),
        }
    }
}

// The effect of the cycle hangs on whether its target has one driver.
fn asks_driver(cycle: TargetCycle) -> bool
    ensures { result ≡ asks_driver cycle }
{
    matches!(
        cycle,
        TargetCycle::OutputCycle
            | TargetCycle::CommandCycle(
                Command::ReadCacheSequential
                    | Command::ReadCacheEnd
                    | Command::ChangeReadColumnConfirm
            )
    )
}

// Some LUN shows data.
fn some_shows_data(luns: &[LunFacts<RowQueue>]) -> bool
    ensures { result ≡ list_any (λ v. is_data v.latch) luns.now }
{
    luns.iter().any(|lun| lun.latch.is_data())
}

// The command may do something to a LUN without a row that names it.
fn needs_no_row(command: Command) -> bool
    ensures { result ≡ needs_no_row command }
{
    matches!(
        command,
        Command::Read
            | Command::ReadStatus
            | Command::ReadStatusEnhanced
            | Command::Reset
            | Command::SynchronousReset
            | Command::ReadCacheSequential
            | Command::ReadCacheEnd
            | Command::ChangeReadColumnConfirm
    )
}

// An address after the opener may do something to a LUN, whichever it is.
fn acts_by_address(opener: Command) -> bool
    ensures { result ≡ acts_by_address opener }
{
    matches!(
        opener,
        Command::ReadStatusEnhanced
            | Command::ReadId
            | Command::ReadParameterPage
            | Command::ReadUniqueId
            | Command::GetFeatures
            | Command::ResetLun
    )
}

// The cycle may do something to a LUN of its target.
fn may_act(tail: &TailFacts, luns: &[LunFacts<RowQueue>], cycle: TargetCycle) -> bool
    ensures { result ≡ may_act tail.now luns.now cycle }
{
    match cycle {
        TargetCycle::CommandCycle(command) => {
            needs_no_row(command) || tail.wants_command(command)
        }
        TargetCycle::AddressCycle(_) => match tail.opening {
            None => false,
            Some(opening) => { acts_by_address(opening.opener) || opening.ends_program_row() }
        },
        TargetCycle::InputCycle(_) => ends_features(tail),
        TargetCycle::OutputCycle => some_shows_data(luns),
    }
}

// What a cycle leaves of the LUNs of its target, from this number on.
fn apply_from(
    luns: &mut [LunFacts<RowQueue>],
    geometry: &Geometry,
    tail: &TailFacts,
    has_driver: bool,
    cycle: TargetCycle,
    number: u8,
)
    requires count { number + length luns.old ≤ 4 }
    requires luns { LunsFit geometry.now tail.now number luns.old }
    ensures { luns.new ≡ luns_after_cycle geometry.now tail.now has_driver cycle number luns.old }
{
    if luns.is_empty() {
        return;
    }
    let (first, rest) = luns.split_at_mut(1);
    first[0].apply_cycle(geometry, tail, has_driver, cycle, number);
    apply_from(rest, geometry, tail, has_driver, cycle, number + 1);
}

// What a cycle leaves of the LUNs of its target.
fn apply_to_luns(
    luns: &mut [LunFacts<RowQueue>],
    geometry: &Geometry,
    tail: &TailFacts,
    cycle: TargetCycle,
)
    requires count { length luns.old ≤ 4 }
    requires luns { LunsFit geometry.now tail.now 0 luns.old }
    ensures { luns.new ≡ luns_after_cycle geometry.now tail.now (has_driver luns.old) cycle 0 luns.old }
{
    if may_act(tail, luns, cycle) {
        let has_driver = asks_driver(cycle) && driver(luns).is_some();
        apply_from(luns, geometry, tail, has_driver, cycle, 0);
    }
}

// The LUNs of a target give so many bytes more, where they show data.
fn give_from(luns: &mut [LunFacts<RowQueue>], count: usize)
    requires { AreFew (map (given_on count) luns.old) }
    ensures { luns.new ≡ map (given_on count) luns.old }
{
    if luns.is_empty() {
        return;
    }
    let (first, rest) = luns.split_at_mut(1);
    first[0].give(count);
    give_from(rest, count);
}

// The LUN of this number becomes ready, if it is there.
fn end_work(luns: &mut [LunFacts<RowQueue>], number: u8, fail: Failures)
    ensures { luns.new ≡ one_after (Effect.BecameReady fail) number luns.old }
{
    let place = usize::from(number);
    if place < luns.len() {
        luns[place].become_ready(fail);
    }
}

// The array of the LUN of this number becomes ready, if it is there.
fn end_array_work(luns: &mut [LunFacts<RowQueue>], number: u8, fail: bool)
    ensures { luns.new ≡ one_after (Effect.ArrayBecameReady fail) number luns.old }
{
    let place = usize::from(number);
    if place < luns.len() {
        luns[place].become_array_ready(fail);
    }
}

// The LUN of this number, if it is there.
fn lun_at(luns: &[LunFacts<RowQueue>], number: u8) -> Option<&LunFacts<RowQueue>>
    ensures { option_copied result ≡ slice_get luns.now number }
{
    luns.get(usize::from(number))
}

impl TargetState {
    /// A target with so many LUNs to which nothing has happened.
    pub fn new(count: u8) -> TargetState
        requires { count ≤ 4 }
        ensures { (g : Parts) (ce : ℕ) → g.luns ≡ count → result ≡ target_view g [] ce }
    {
        let mut luns: ArrayVec<LunFacts<RowQueue>, MAX_LUNS> = ArrayVec::new();
        for number in 0..count {
            luns.push(LunFacts::fresh(number));
        }
        TargetState {
            tail: TailFacts::none(),
            luns,
        }
    }

    /// The facts of its tail.
    pub(crate) fn tail(&self) -> TailFacts
        ensures { result ≡ self.now.tail }
    {
        self.tail
    }

    // What a cycle leaves of its target.
    fn apply_cycle(&mut self, geometry: &Geometry, cycle: TargetCycle)
        requires limits { InLimits geometry.now }
        requires fits { TargetFits geometry.now self.old }
        ensures tail { self.new.tail ≡ facts_after cycle self.old.tail }
        ensures luns { self.new.luns ≡ luns_after_cycle geometry.now self.old.tail (has_driver self.old.luns) cycle 0 self.old.luns }
        ensures column { self.new.tail.column < 2 ^ 16 }
    {
        apply_to_luns(self.luns.as_mut_slice(), geometry, &self.tail, cycle);
        self.tail.extend(cycle);
    }

    /// What an item leaves of its target.
    #[inline(always)]
    pub fn apply(&mut self, geometry: &Geometry, item: Item)
        requires limits { InLimits geometry.now }
        requires fits { TargetFits geometry.now self.old }
        ensures value { self.new ≡ target_after geometry.now item self.old }
        ensures column { self.new.tail.column < 2 ^ 16 }
    {
        match item {
            Item::Cyc(cycle) => self.apply_cycle(geometry, TargetCycle::of(cycle.kind, cycle.byte)),
            Item::Rdy { lun, fail, .. } => end_work(self.luns.as_mut_slice(), lun, fail),
            Item::Ard { lun, fail, .. } => end_array_work(self.luns.as_mut_slice(), lun, fail),
        }
    }

    /// Drops the sequence that it is in, as if the cycles of that hadn't been.
    pub fn drop_sequence(&mut self)
        ensures { self.new ≡ without_sequence self.old }
    {
        self.tail = TailFacts::none();
    }

    /// Its one driver gives so many bytes more, one at least.
    pub(crate) fn give(&mut self, geometry: &Geometry, count: usize)
        requires limits { InLimits geometry.now }
        requires fits { TargetFits geometry.now self.old }
        requires few { AreFew (map (given_on count) self.old.luns) }
        ensures { self.new ≡ given_target count self.old }
    {
        give_from(self.luns.as_mut_slice(), count);
        self.tail.extend(TargetCycle::OutputCycle);
    }

    /// What is against so many outputs, one at least, whose first is permitted.
    pub(crate) fn against_rest(&self, geometry: &Geometry, count: usize) -> Option<Forbidden>
        ensures { result ≡ against_rest geometry.now count self.now.luns }
    {
        match driver(self.luns.as_slice()) {
            Some(lun) if lun.has_fewer(geometry, count) => Some(Forbidden::ColumnOutside),
            _ => None,
        }
    }

    /// A Set Features waits for more of its bytes.
    pub(crate) fn takes_features(&self) -> bool
        ensures { result ≡ takes_features self.now.tail.phase }
    {
        self.tail.phase.takes_features()
    }

    /// It takes so many inputs of a program more, one at least.
    pub(crate) fn feed(&mut self, count: usize)
        requires few { self.old.tail.inputs + count < 2 ^ 63 }
        ensures { self.new ≡ fed_target count self.old }
    {
        self.tail.extend_by_inputs(count);
    }

    /// What is against so many inputs, one at least, whose first is permitted.
    pub(crate) fn against_inputs(&self, geometry: &Geometry, count: usize) -> Option<Forbidden>
        requires limits { InLimits geometry.now }
        requires fits { TargetFits geometry.now self.now }
        ensures { result ≡ against_inputs geometry.now count self.now.tail }
    {
        if self.tail.phase.takes_features() {
            if self.tail.takes_fewer_features(count) {
                Some(Forbidden::InputMisplaced)
            } else {
                None
            }
        } else if self.tail.has_no_room(geometry, count) {
            Some(Forbidden::ColumnOutside)
        } else {
            None
        }
    }

    /// What an item of this target does to the LUN of this number, if that is there.
    pub(crate) fn effect(&self, geometry: &Geometry, item: Item, number: u8) -> Effect
        ensures { (v : LunView) → slice_get self.now.luns number ≡ Some v
            → result ≡ effect_alone geometry.now self.now.tail (has_driver self.now.luns) item number v }
    {
        let luns = self.luns.as_slice();
        let latch_alone = match lun_at(luns, number) {
            Some(found) if driver(luns).is_some() => found.latch,
            _ => Latch::Off,
        };
        let lun = Lun {
            ce: item.target(),
            lun: number,
        };
        item_effect(geometry, &self.tail, latch_alone, item, lun)
    }

    /// What an item does to the page registers of a LUN of this target.
    pub(crate) fn filling(&self, geometry: &Geometry, item: Item, lun: Lun) -> Filling
        requires limits { InLimits geometry.now }
        requires fits { TargetFits geometry.now self.now }
        ensures { result ≡ filling geometry.now self.now.tail item lun (held_by (slice_get self.now.luns lun.lun)) }
    {
        match lun_at(self.luns.as_slice(), lun.lun) {
            None => Filling::of_item(geometry, self.tail, item, lun, &[]),
            Some(facts) => Filling::of_item(geometry, self.tail, item, lun, facts.held.as_slice()),
        }
    }

    /// How many readies are still to come.
    pub(crate) fn due(&self, geometry: &Geometry) -> usize
        requires limits { InLimits geometry.now }
        requires fits { TargetFits geometry.now self.now }
        ensures value { result ≡ target_due self.now }
        ensures most { result ≤ 16 }
    {
        due_of(&self.tail, self.luns.as_slice())
    }

    /// A look at the LUN of this number, if it is there.
    pub(crate) fn look(&self, geometry: &Geometry, number: u8) -> Option<LunState>
        requires { TargetFits geometry.now self.now }
        ensures { result ≡ look_at_some (slice_get self.now.luns number) }
    {
        match lun_at(self.luns.as_slice(), number) {
            None => None,
            Some(found) => Some(LunState::of(found)),
        }
    }

    /// The LUN of this number is there, and is the selected one.
    pub(crate) fn is_selected(&self, number: u8) -> bool
        ensures { result ≡ lun_is (λ v. v.selected) self.now.luns number }
    {
        match lun_at(self.luns.as_slice(), number) {
            None => false,
            Some(found) => found.selected,
        }
    }

    /// Work of the whole target goes on.
    pub(crate) fn works_for_target(&self) -> bool
        ensures { result ≡ list_any works_for_target self.now.luns }
    {
        some_works_for_target(self.luns.as_slice())
    }
}
