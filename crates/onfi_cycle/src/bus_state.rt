//! The running state of a channel: the facts that the rules see, kept item by item.
ghost use Rattle.std.specs.Prelude.{◌≡◌, ℕ, ◌<◌, ◌≤◌, ◌∷◌, List, [], Some, None, length, slice_get};
ghost use Rattle.std.specs.Option.{option_copied};
ghost use Rattle.nand_geometry.specs.declared.parts.Parts.{Parts};
ghost use Rattle.onfi_cycle.specs.declared.item.Item.{Item};
ghost use Rattle.onfi_cycle.specs.Sequence.{facts_of, tail};
ghost use Rattle.onfi_cycle.specs.Filling.{filling};
ghost use Rattle.onfi_cycle.specs.Working.{FactsFit};
ghost use Rattle.onfi_cycle.specs.Readies.{due_there};
ghost use Rattle.onfi_cycle.specs.Lun.{effect_on, held};
ghost use Rattle.onfi_cycle.specs.Permitted.{broken};
ghost use Rattle.onfi_cycle.specs.State.{BusView, Follows, judged, bus_after, bus, changed_at, without_sequence, bus_without};
ghost use Rattle.onfi_cycle.specs.Look.{looked, look_after, is_selected_in, target_works};
ghost use Rattle.onfi_cycle.specs.Bounds.{BusFits};
ghost use Rattle.onfi_cycle.specs.Channel.{cycle};
ghost use Rattle.onfi_cycle.specs.declared.item.Kind.TheVariants.{Din, Dout};
ghost use Rattle.onfi_cycle.specs.Outputs.{with_outputs, broken_outputs, judged_outputs, after_outputs};
ghost use Rattle.onfi_cycle.specs.Inputs.{with_inputs, broken_inputs, judged_inputs, after_inputs};

use crate::target_state::TargetState;
use crate::{
    Cycle, Effect, Filling, Forbidden, Item, Kind, Lun, LunState, MAX_TARGETS, TailFacts, judge,
};
use arrayvec::ArrayVec;
use nand_geometry::Geometry;
use std::marker::Model;

/// What a running channel keeps of its past: for each target the facts of its tail, for each LUN its facts. It keeps
/// no item, and takes no memory. An answer costs the same after every past.
///
/// It stands for every legal past that it [`apply`](BusState::apply)s, item by item, from the empty one on.
#[derive(Drop)]
pub struct BusState {
    geometry: Geometry,
    targets: ArrayVec<TargetState, MAX_TARGETS>,
}

impl Model for BusState {
    ghost Value = { BusView };

    ghost view = { λ b. record { geometry = b.geometry; targets = b.targets.items } };

    ghost invariant = { λ b. BusFits (record { geometry = b.geometry; targets = b.targets.items }) };
}

// The target of this number, if it is there.
fn target_at(targets: &[TargetState], ce: u8) -> Option<&TargetState>
    ensures { option_copied result ≡ slice_get targets.now ce }
{
    targets.get(usize::from(ce))
}

// The first rule that an item breaks on these targets.
#[inline(always)]
fn judge_on(geometry: &Geometry, targets: &[TargetState], item: Item) -> Option<Forbidden>
    requires { BusFits (bus geometry.now targets.now) }
    ensures { result ≡ judged (bus geometry.now targets.now) item }
{
    match target_at(targets, item.target()) {
        None => Some(Forbidden::NotThere),
        Some(target) => judge(
            geometry,
            targets.len() as u8,
            &target.tail,
            target.luns.as_slice(),
            item,
        ),
    }
}

// Goes on by an item that is permitted on these targets.
#[inline(always)]
fn apply_on(geometry: &Geometry, targets: &mut [TargetState], item: Item)
    requires fits { BusFits (bus geometry.now targets.old) }
    requires permitted { judged (bus geometry.now targets.old) item ≡ None }
    ensures value { bus geometry.now targets.new ≡ bus_after item (bus geometry.now targets.old) }
    ensures fits { BusFits (bus geometry.now targets.new) }
{
    let target = &mut targets[usize::from(item.target())];
    target.apply(geometry, item);
}

// Drops the sequence that a target of this number is in, if it is there.
fn drop_on(targets: &mut [TargetState], ce: u8)
    ensures { targets.new ≡ changed_at without_sequence ce targets.old }
{
    let place = usize::from(ce);
    if place < targets.len() {
        targets[place].drop_sequence();
    }
}

// A data cycle on a target; which byte it is isn't judged.
#[inline(always)]
fn data_cycle(ce: u8, kind: Kind) -> Item
    ensures { result ≡ cycle ce kind 0 }
{
    Item::Cyc(Cycle { ce, kind, byte: 0 })
}

// The first rule that the first forbidden one of so many outputs on these targets breaks, one at least.
fn judge_outputs_on(
    geometry: &Geometry,
    targets: &[TargetState],
    ce: u8,
    count: usize,
) -> Option<Forbidden>
    requires fits { BusFits (bus geometry.now targets.now) }
    requires some { 0 < count }
    ensures { result ≡ judged_outputs ce count (bus geometry.now targets.now) }
{
    if let Some(rule) = judge_on(geometry, targets, data_cycle(ce, Kind::Dout)) {
        return Some(rule);
    }
    match target_at(targets, ce) {
        None => None,
        Some(target) => target.against_rest(geometry, count),
    }
}

// Goes on by so many outputs, one at least, which are permitted on these targets.
fn apply_outputs_on(geometry: &Geometry, targets: &mut [TargetState], ce: u8, count: usize)
    requires fits { BusFits (bus geometry.now targets.old) }
    requires some { 0 < count }
    requires permitted { judged_outputs ce count (bus geometry.now targets.old) ≡ None }
    ensures value { bus geometry.now targets.new ≡ after_outputs ce count (bus geometry.now targets.old) }
    ensures fits { BusFits (bus geometry.now targets.new) }
{
    let target = &mut targets[usize::from(ce)];
    target.give(geometry, count);
}

// The first rule that the first forbidden one of so many inputs on these targets breaks, one at least.
fn judge_inputs_on(
    geometry: &Geometry,
    targets: &[TargetState],
    ce: u8,
    count: usize,
) -> Option<Forbidden>
    requires fits { BusFits (bus geometry.now targets.now) }
    requires some { 0 < count }
    ensures { result ≡ judged_inputs ce count (bus geometry.now targets.now) }
{
    if let Some(rule) = judge_on(geometry, targets, data_cycle(ce, Kind::Din)) {
        return Some(rule);
    }
    match target_at(targets, ce) {
        None => None,
        Some(target) => target.against_inputs(geometry, count),
    }
}

// Goes on by so many inputs, which are permitted on these targets, one by one.
fn apply_each_input_on(geometry: &Geometry, targets: &mut [TargetState], ce: u8, count: usize)
    requires fits { BusFits (bus geometry.now targets.old) }
    requires permitted { judged_inputs ce count (bus geometry.now targets.old) ≡ None }
    ensures value { bus geometry.now targets.new ≡ after_inputs ce count (bus geometry.now targets.old) }
    ensures fits { BusFits (bus geometry.now targets.new) }
{
    let mut left = count;
    while left > 0 {
        apply_on(geometry, targets, data_cycle(ce, Kind::Din));
        left -= 1;
    }
}

// Goes on by so many inputs, one at least, which are permitted on these targets.
fn apply_inputs_on(geometry: &Geometry, targets: &mut [TargetState], ce: u8, count: usize)
    requires fits { BusFits (bus geometry.now targets.old) }
    requires some { 0 < count }
    requires permitted { judged_inputs ce count (bus geometry.now targets.old) ≡ None }
    ensures value { bus geometry.now targets.new ≡ after_inputs ce count (bus geometry.now targets.old) }
    ensures fits { BusFits (bus geometry.now targets.new) }
{
    let target = &mut targets[usize::from(ce)];
    if target.takes_features() {
        apply_each_input_on(geometry, targets, ce, count);
    } else {
        target.feed(count);
    }
}

impl BusState {
    /// A channel to which nothing has happened: so many targets of this geometry, 4 at most.
    pub fn new(geometry: Geometry, targets: u8) -> BusState
        requires { targets ≤ 4 }
        ensures { Follows geometry targets result [] }
    {
        let luns = geometry.parts().luns;
        let mut all: ArrayVec<TargetState, MAX_TARGETS> = ArrayVec::new();
        for _ in 0..targets {
            all.push(TargetState::new(luns));
        }
        BusState {
            geometry,
            targets: all,
        }
    }

    /// The geometry of its targets.
    pub fn geometry(&self) -> Geometry
        ensures { result ≡ self.now.geometry }
    {
        self.geometry
    }

    /// How many targets it has.
    pub fn targets(&self) -> u8
        ensures value { result ≡ length self.now.targets }
        ensures most { result ≤ 4 }
    {
        self.targets.len() as u8
    }

    /// The first rule that an item breaks, None where it is permitted: what the definition says of it after the past
    /// that this state follows (docs/model/MODEL.md, "Rules").
    #[inline(always)]
    pub fn judge(&self, item: Item) -> Option<Forbidden>
        ensures state { result ≡ judged self.now item }
        ensures past { (g : Parts) (n : ℕ) (past : List Item) → Follows g n self.now past → result ≡ broken g n past item }
    {
        judge_on(&self.geometry, self.targets.as_slice(), item)
    }

    /// Goes on by an item that [`judge`](BusState::judge) permits. The state then follows the past with that item.
    #[inline(always)]
    pub fn apply(&mut self, item: Item)
        requires { judged self.old item ≡ None }
        ensures state { self.new ≡ bus_after item self.old }
        ensures past { (g : Parts) (n : ℕ) (past : List Item) → Follows g n self.old past → Follows g n self.new (item ∷ past) }
    {
        apply_on(&self.geometry, self.targets.as_mut_slice(), item);
    }

    /// Drops the sequence that a target is in, as if the cycles of that hadn't been: the next opener is none too early then. The LUNs stay
    /// as they are. It is for who goes on after an item that isn't permitted; a target that isn't there is no fault.
    pub fn drop_sequence(&mut self, ce: u8)
        ensures { self.new ≡ bus_without ce self.old }
    {
        // The field is read once before the other is lent, so that the proof knows how both stand to the value.
        let _ = &self.geometry;
        drop_on(self.targets.as_mut_slice(), ce);
    }

    /// The first rule that the first forbidden one of so many outputs in a row on a target breaks, None where all are permitted.
    /// It costs the same for any number of them.
    pub fn judge_outputs(&self, ce: u8, count: usize) -> Option<Forbidden>
        ensures state { result ≡ judged_outputs ce count self.now }
        ensures past { (g : Parts) (n : ℕ) (past : List Item) (bytes : List ℕ) → Follows g n self.now past → length bytes ≡ count
            → result ≡ broken_outputs g n ce bytes past }
    {
        if count == 0 {
            return None;
        }
        judge_outputs_on(&self.geometry, self.targets.as_slice(), ce, count)
    }

    /// Goes on by so many outputs in a row that [`judge_outputs`](BusState::judge_outputs) permits. It costs the same for any
    /// number of them.
    pub fn apply_outputs(&mut self, ce: u8, count: usize)
        requires { judged_outputs ce count self.old ≡ None }
        ensures state { self.new ≡ after_outputs ce count self.old }
        ensures past { (g : Parts) (n : ℕ) (past : List Item) (bytes : List ℕ) → Follows g n self.old past → length bytes ≡ count
            → Follows g n self.new (with_outputs ce bytes past) }
    {
        if count > 0 {
            apply_outputs_on(&self.geometry, self.targets.as_mut_slice(), ce, count);
        }
    }

    /// The first rule that the first forbidden one of so many inputs in a row on a target breaks, None where all are permitted.
    /// It costs the same for any number of them.
    pub fn judge_inputs(&self, ce: u8, count: usize) -> Option<Forbidden>
        ensures state { result ≡ judged_inputs ce count self.now }
        ensures past { (g : Parts) (n : ℕ) (past : List Item) (bytes : List ℕ) → Follows g n self.now past → length bytes ≡ count
            → result ≡ broken_inputs g n ce bytes past }
    {
        if count == 0 {
            return None;
        }
        judge_inputs_on(&self.geometry, self.targets.as_slice(), ce, count)
    }

    /// Goes on by so many inputs in a row that [`judge_inputs`](BusState::judge_inputs) permits. It costs the same for any
    /// number of them.
    pub fn apply_inputs(&mut self, ce: u8, count: usize)
        requires { judged_inputs ce count self.old ≡ None }
        ensures state { self.new ≡ after_inputs ce count self.old }
        ensures past { (g : Parts) (n : ℕ) (past : List Item) (bytes : List ℕ) → Follows g n self.old past → length bytes ≡ count
            → Follows g n self.new (with_inputs ce bytes past) }
    {
        if count > 0 {
            apply_inputs_on(&self.geometry, self.targets.as_mut_slice(), ce, count);
        }
    }

    /// What an item does to a LUN that is there.
    pub fn effect(&self, item: Item, lun: Lun) -> Effect
        ensures past { (g : Parts) (n : ℕ) (past : List Item) → Follows g n self.now past → lun.ce < n → lun.lun < g.luns
            → result ≡ effect_on g past item lun }
    {
        if item.target() != lun.ce {
            return Effect::Unaffected;
        }
        match target_at(self.targets.as_slice(), lun.ce) {
            None => Effect::Unaffected,
            Some(target) => target.effect(&self.geometry, item, lun.lun),
        }
    }

    /// What an item does to the page registers of a LUN that is there.
    #[inline(always)]
    pub fn filling(&self, item: Item, lun: Lun) -> Filling
        ensures past { (g : Parts) (n : ℕ) (past : List Item) → Follows g n self.now past → lun.ce < n → lun.lun < g.luns
            → result ≡ filling g (facts_of (tail past lun.ce)) item lun (held g past lun) }
    {
        match target_at(self.targets.as_slice(), lun.ce) {
            None => Filling::Leaves,
            Some(target) => target.filling(&self.geometry, item, lun),
        }
    }

    /// The facts of the tail of a target, None where it isn't there.
    pub fn tail(&self, ce: u8) -> Option<TailFacts>
        ensures past { (g : Parts) (n : ℕ) (past : List Item) → Follows g n self.now past → ce < n
            → result ≡ Some (facts_of (tail past ce)) }
    {
        // The fields are read once before one is lent, so that the proof knows how both stand to the value.
        let _ = &self.geometry;
        match target_at(self.targets.as_slice(), ce) {
            None => None,
            Some(target) => Some(target.tail()),
        }
    }

    /// How many readies are still to come on a target: those of its LUNs and of their arrays, and that of a parameter page whose
    /// address is still to come.
    pub fn due(&self, ce: u8) -> usize
        ensures value { result ≡ due_there (slice_get self.now.targets ce) }
        ensures most { result ≤ 16 }
    {
        match target_at(self.targets.as_slice(), ce) {
            None => 0,
            Some(target) => target.due(&self.geometry),
        }
    }

    /// A law: the facts that it keeps fit, a permitted item comes where its effect can, and works on one LUN at most.
    pub fn facts_fit(&self)
        ensures state { BusFits self.now }
        ensures past { (g : Parts) (n : ℕ) (past : List Item) → Follows g n self.now past → FactsFit g n past }
    {
        // What is kept of the targets fits: the type's invariant, which the read hands out.
        let _ = &self.targets;
    }

    /// A look at one LUN, None where it isn't there.
    pub fn lun_state(&self, lun: Lun) -> Option<LunState>
        ensures state { result ≡ looked self.now lun }
        ensures past { (g : Parts) (n : ℕ) (past : List Item) → Follows g n self.now past → result ≡ look_after g n past lun }
    {
        match target_at(self.targets.as_slice(), lun.ce) {
            None => None,
            Some(target) => target.look(&self.geometry, lun.lun),
        }
    }

    /// Whether a LUN is the selected one of its target: where that has several, 70h shows its status.
    pub fn is_selected(&self, lun: Lun) -> bool
        ensures { result ≡ is_selected_in self.now lun }
    {
        match target_at(self.targets.as_slice(), lun.ce) {
            None => false,
            Some(target) => target.is_selected(lun.lun),
        }
    }

    /// Whether work of a whole target goes on.
    pub fn target_works(&self, ce: u8) -> bool
        ensures { result ≡ target_works self.now ce }
    {
        match target_at(self.targets.as_slice(), ce) {
            None => false,
            Some(target) => target.works_for_target(),
        }
    }
}
