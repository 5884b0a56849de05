//! What a cycle or a ready leaves of the records of the LUNs of a target, which are the first so many of its array.
ghost use Rattle.std.specs.Prelude.{◌≡◌, true, if◌then◌else◌, ℕ, ◌+◌, ◌^◌, ◌<◌, ◌≤◌, length, map, take};
ghost use Rattle.std.specs.List.{All};
ghost use Rattle.nand_geometry.specs.declared.parts.Parts.{Parts};
ghost use Rattle.onfi_cycle.specs.declared.effect.Effect.{Effect as EffectValue};
ghost use Rattle.onfi_cycle.specs.declared.tail_facts.TailFacts.{TailFacts as TailValue};
ghost use Rattle.onfi_cycle.specs.declared.target_cycle.TargetCycle.{TargetCycle as TargetCycleValue};
ghost use Rattle.onfi_cycle.specs.Applied.{luns_after_cycle, one_after};
ghost use Rattle.onfi_cycle.specs.Effect.{cycle_effect};
ghost use Rattle.onfi_cycle.specs.Lun.{view_after};
ghost use Rattle.bus_record.specs.Changing.{AreLittle, HaveRoom, apart_from, driven, luns_left};
ghost use Rattle.bus_record.specs.declared.target_effect.TargetEffect.{TargetEffect as TargetEffectValue};
ghost use Rattle.target_record.specs.Record.{HasRoom, IsRecord, lun_of, luns_of};

use crate::target_effect::TargetEffect;
use onfi_cycle::{Effect, Failures, Latch};
use target_record::{
    OnfiseqLun, become_array_ready, become_ready, change, driver, flag, is_set, latch_code,
    latch_of,
};

// A LUN goes on by an effect, if it drives the bus.
fn change_driving(kept: &mut OnfiseqLun, effect: Effect)
    requires numbers { IsRecord kept.old }
    requires outputs { kept.old.outputs ≤ 2 ^ 16 }
    requires array_page { kept.old.array_page < 2 ^ 32 }
    requires room { HasRoom (driven effect (lun_of kept.old)) }
    ensures value { lun_of kept.new ≡ driven effect (lun_of kept.old) }
    ensures numbers { IsRecord kept.new }
{
    if !latch_of(kept.latch).is_off() {
        change(kept, effect);
    }
}

// Each goes on by an effect.
fn change_each(luns: &mut [OnfiseqLun], effect: Effect)
    requires numbers { All IsRecord luns.old }
    requires small { AreLittle luns.old }
    requires room { HaveRoom (map (view_after effect) (luns_of luns.old)) }
    ensures value { luns_of luns.new ≡ map (view_after effect) (luns_of luns.old) }
    ensures numbers { All IsRecord luns.new }
{
    if luns.is_empty() {
        return;
    }
    let (first, rest) = luns.split_at_mut(1);
    change(&mut first[0], effect);
    change_each(rest, effect);
}

// Each that drives the bus goes on by an effect.
fn change_drivers(luns: &mut [OnfiseqLun], effect: Effect)
    requires numbers { All IsRecord luns.old }
    requires small { AreLittle luns.old }
    requires room { HaveRoom (map (driven effect) (luns_of luns.old)) }
    ensures value { luns_of luns.new ≡ map (driven effect) (luns_of luns.old) }
    ensures numbers { All IsRecord luns.new }
{
    if luns.is_empty() {
        return;
    }
    let (first, rest) = luns.split_at_mut(1);
    change_driving(&mut first[0], effect);
    change_drivers(rest, effect);
}

// The one that alone drives the bus goes on by an effect, if one does.
fn change_driver(luns: &mut [OnfiseqLun], effect: Effect)
    requires numbers { All IsRecord luns.old }
    requires small { AreLittle luns.old }
    requires room { HaveRoom (luns_left (TargetEffectValue.OnDriver effect) (luns_of luns.old)) }
    ensures value { luns_of luns.new ≡ luns_left (TargetEffectValue.OnDriver effect) (luns_of luns.old) }
    ensures numbers { All IsRecord luns.new }
{
    let has_driver = driver(luns).is_some();
    if has_driver {
        change_drivers(luns, effect);
    }
}

// From this number on each goes on by one of two effects: the one of a number by the first.
fn change_apart(luns: &mut [OnfiseqLun], from: u32, number: u32, effect: Effect, others: Effect)
    requires few { from + length luns.old ≤ 4 }
    requires numbers { All IsRecord luns.old }
    requires small { AreLittle luns.old }
    requires room { HaveRoom (apart_from from number effect others (luns_of luns.old)) }
    ensures value { luns_of luns.new ≡ apart_from from number effect others (luns_of luns.old) }
    ensures numbers { All IsRecord luns.new }
{
    if luns.is_empty() {
        return;
    }
    let (first, rest) = luns.split_at_mut(1);
    change(&mut first[0], if from == number { effect } else { others });
    change_apart(rest, from + 1, number, effect, others);
}

// The one of this number goes on by an effect, if it is there.
fn change_one(luns: &mut [OnfiseqLun], number: u32, effect: Effect)
    requires numbers { All IsRecord luns.old }
    requires small { AreLittle luns.old }
    requires room { HaveRoom (one_after effect number (luns_of luns.old)) }
    ensures value { luns_of luns.new ≡ one_after effect number (luns_of luns.old) }
    ensures numbers { All IsRecord luns.new }
{
    let place = number as usize;
    if place < luns.len() {
        change(&mut luns[place], effect);
    }
}

// A LUN shows nothing, and is neither selected nor overlapped.
fn deselect(kept: &mut OnfiseqLun)
    requires { IsRecord kept.old }
    ensures value { lun_of kept.new ≡ view_after EffectValue.Deselected (lun_of kept.old) }
    ensures numbers { IsRecord kept.new }
{
    kept.latch = latch_code(Latch::Off);
    kept.selected = 0;
    kept.overlapped = 0;
}

// Each shows nothing.
fn deselect_each(luns: &mut [OnfiseqLun])
    requires { All IsRecord luns.old }
    ensures value { luns_of luns.new ≡ map (view_after EffectValue.Deselected) (luns_of luns.old) }
    ensures numbers { All IsRecord luns.new }
{
    if luns.is_empty() {
        return;
    }
    let (first, rest) = luns.split_at_mut(1);
    deselect(&mut first[0]);
    deselect_each(rest);
}

// A LUN shows its status, is selected, and isn't overlapped.
fn select(kept: &mut OnfiseqLun)
    requires { IsRecord kept.old }
    ensures value { lun_of kept.new ≡ view_after EffectValue.SelectedForStatus (lun_of kept.old) }
    ensures numbers { IsRecord kept.new }
{
    kept.latch = latch_code(Latch::Status);
    kept.selected = 1;
    kept.overlapped = 0;
}

// A LUN shows its status, and has lost its column where it gave bytes.
#[inline(always)]
fn show_status(kept: &mut OnfiseqLun)
    requires { IsRecord kept.old }
    ensures value { lun_of kept.new ≡ view_after EffectValue.StatusSelected (lun_of kept.old) }
    ensures numbers { IsRecord kept.new }
{
    kept.lost = flag(is_set(kept.lost) || 0 < kept.outputs);
    kept.latch = latch_code(Latch::Status);
}

// Each does.
fn show_status_of_each(luns: &mut [OnfiseqLun])
    requires { All IsRecord luns.old }
    ensures value { luns_of luns.new ≡ map (view_after EffectValue.StatusSelected) (luns_of luns.old) }
    ensures numbers { All IsRecord luns.new }
{
    if luns.is_empty() {
        return;
    }
    let (first, rest) = luns.split_at_mut(1);
    show_status(&mut first[0]);
    show_status_of_each(rest);
}

// The one of this number shows its status, if it is there.
fn select_one(luns: &mut [OnfiseqLun], number: u32)
    requires { All IsRecord luns.old }
    ensures value { luns_of luns.new ≡ one_after EffectValue.SelectedForStatus number (luns_of luns.old) }
    ensures numbers { All IsRecord luns.new }
{
    let place = number as usize;
    if place < luns.len() {
        select(&mut luns[place]);
    }
}

// They are left so by what a command or an address does. The command that polls comes most often, so it has a way of its own.
#[inline(always)]
fn change_luns(luns: &mut [OnfiseqLun], effect: TargetEffect)
    requires few { length luns.old ≤ 4 }
    requires numbers { All IsRecord luns.old }
    requires small { AreLittle luns.old }
    requires room { HaveRoom (luns_left effect (luns_of luns.old)) }
    ensures value { luns_of luns.new ≡ luns_left effect (luns_of luns.old) }
    ensures numbers { All IsRecord luns.new }
{
    match effect {
        TargetEffect::Nothing => {}
        TargetEffect::OnEach(Effect::StatusSelected) => show_status_of_each(luns),
        TargetEffect::OnEach(effect) => change_each(luns, effect),
        TargetEffect::OnDriver(effect) => change_driver(luns, effect),
        TargetEffect::OnOne { lun, effect } => change_one(luns, lun, effect),
        TargetEffect::Apart {
            lun,
            effect,
            others,
        } => change_apart(luns, 0, lun, effect, others),
        TargetEffect::Selection { lun } => {
            deselect_each(luns);
            select_one(luns, lun);
        }
    }
}

// The LUN of this number becomes ready, if it is there.
fn end_work(luns: &mut [OnfiseqLun], number: u8, fail: Failures)
    requires { All IsRecord luns.old }
    ensures value { luns_of luns.new ≡ one_after (EffectValue.BecameReady fail) number (luns_of luns.old) }
    ensures numbers { All IsRecord luns.new }
{
    let place = usize::from(number);
    if place < luns.len() {
        become_ready(&mut luns[place], fail);
    }
}

// The array of the LUN of this number becomes ready, if it is there.
fn end_array_work(luns: &mut [OnfiseqLun], number: u8, fail: bool)
    requires { All IsRecord luns.old }
    ensures value { luns_of luns.new ≡ one_after (EffectValue.ArrayBecameReady fail) number (luns_of luns.old) }
    ensures numbers { All IsRecord luns.new }
{
    let place = usize::from(number);
    if place < luns.len() {
        become_array_ready(&mut luns[place], fail);
    }
}

// A LUN gives a byte, where it shows data.
fn give(kept: &mut OnfiseqLun)
    requires numbers { IsRecord kept.old }
    requires outputs { kept.old.outputs ≤ 2 ^ 16 }
    ensures value { (g : Parts) (t : TailValue) (n : ℕ) → lun_of kept.new ≡ view_after (cycle_effect g t (lun_of kept.old).latch TargetCycleValue.OutputCycle n) (lun_of kept.old) }
    ensures numbers { IsRecord kept.new }
{
    if latch_of(kept.latch).is_data() {
        kept.outputs += 1;
    }
}

// What an output leaves of LUNs of which one alone drives the bus.
fn give_each(luns: &mut [OnfiseqLun])
    requires numbers { All IsRecord luns.old }
    requires small { AreLittle luns.old }
    ensures value { (g : Parts) (t : TailValue) (n : ℕ) → luns_of luns.new ≡ luns_after_cycle g t true TargetCycleValue.OutputCycle n (luns_of luns.old) }
    ensures numbers { All IsRecord luns.new }
{
    if luns.is_empty() {
        return;
    }
    let (first, rest) = luns.split_at_mut(1);
    give(&mut first[0]);
    give_each(rest);
}

// ---- a target, whose LUNs are the first so many of its array

/// They are left so by what a command or an address does.
#[inline(always)]
pub(crate) fn change_first(luns: &mut [OnfiseqLun; 4], count: usize, effect: TargetEffect)
    requires count { count ≤ 4 }
    requires numbers { All IsRecord luns.old }
    requires small { AreLittle (take count luns.old) }
    requires room { HaveRoom (luns_left effect (luns_of (take count luns.old))) }
    ensures value { luns_of (take count luns.new) ≡ luns_left effect (luns_of (take count luns.old)) }
    ensures numbers { All IsRecord luns.new }
{
    let (first, _rest) = luns.split_at_mut(count);
    change_luns(first, effect);
}

/// What an output leaves of them, if one alone drives the bus.
pub(crate) fn give_first(luns: &mut [OnfiseqLun; 4], count: usize)
    requires count { count ≤ 4 }
    requires numbers { All IsRecord luns.old }
    requires small { AreLittle (take count luns.old) }
    ensures value { (g : Parts) (t : TailValue) (n : ℕ) → luns_of (take count luns.new) ≡ luns_after_cycle g t true TargetCycleValue.OutputCycle n (luns_of (take count luns.old)) }
    ensures numbers { All IsRecord luns.new }
{
    let (first, _rest) = luns.split_at_mut(count);
    give_each(first);
}

/// One of them becomes ready, if it is there.
pub(crate) fn end_work_of(luns: &mut [OnfiseqLun; 4], count: usize, number: u8, fail: Failures)
    requires count { count ≤ 4 }
    requires numbers { All IsRecord luns.old }
    ensures value { luns_of (take count luns.new) ≡ one_after (EffectValue.BecameReady fail) number (luns_of (take count luns.old)) }
    ensures numbers { All IsRecord luns.new }
{
    let (first, _rest) = luns.split_at_mut(count);
    end_work(first, number, fail);
}

/// The array of one of them becomes ready, if it is there.
pub(crate) fn end_array_work_of(luns: &mut [OnfiseqLun; 4], count: usize, number: u8, fail: bool)
    requires count { count ≤ 4 }
    requires numbers { All IsRecord luns.old }
    ensures value { luns_of (take count luns.new) ≡ one_after (EffectValue.ArrayBecameReady fail) number (luns_of (take count luns.old)) }
    ensures numbers { All IsRecord luns.new }
{
    let (first, _rest) = luns.split_at_mut(count);
    end_array_work(first, number, fail);
}
