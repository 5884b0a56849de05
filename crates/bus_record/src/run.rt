//! Runs of data cycles on one target, at the cost of one cycle.
ghost use Rattle.std.specs.Prelude.{◌≡◌, ◌+◌, ◌^◌, ◌<◌, ◌≤◌, true, None, length, map, take};
ghost use Rattle.std.specs.List.{All};
ghost use Rattle.nand_geometry.specs.Limits.{InLimits};
ghost use Rattle.onfi_cycle.specs.Bounds.{TargetFits};
ghost use Rattle.onfi_cycle.specs.Channel.{cycle};
ghost use Rattle.onfi_cycle.specs.declared.item.Item.{Item as ItemValue};
ghost use Rattle.onfi_cycle.specs.Sequence.{takes_features};
ghost use Rattle.onfi_cycle.specs.Inputs.{against_inputs, has_no_room, fed_target, judged_inputs, after_inputs};
ghost use Rattle.onfi_cycle.specs.Outputs.{has_fewer, against_rest, given_on, given_target, judged_outputs, after_outputs, AreFew};
ghost use Rattle.bus_record.specs.Bus.{IsSound, bus_view};
ghost use Rattle.target_record.specs.Record.{IsTarget};
ghost use Rattle.bus_record.specs.Channel.{IsSameChannel};
ghost use Rattle.target_record.specs.Geometry.{parts_of};
ghost use Rattle.target_record.specs.Record.{IsRecord, lun_of, luns_of, tail_of, target_of};
ghost use Rattle.bus_record.specs.Rule.{by_option};
ghost use Rattle.bus_record.specs.Runs.{each_taken, inputs_taken, inputs_rule, inputs_pushed, outputs_rule, outputs_pushed};

use crate::bus::OnfiseqBus;
use crate::tail_change::note_output;
use crate::target_change::apply_input;
use onfi_cycle::{Cycle, FEATURE_BYTES, Forbidden, Kind};
use target_record::{
    OnfiseqGeometry, OnfiseqLun, OnfiseqTarget, driver, judge_input_of, judge_output_of,
    output_column, register_len, shows_data, tail_of,
};

// A data cycle on a target; which byte it is isn't judged.
fn data_cycle(ce: u8, kind: Kind) -> Cycle
    ensures value { ItemValue.Cyc result ≡ cycle ce kind 0 }
    ensures kind { result.kind ≡ kind }
{
    Cycle { ce, kind, byte: 0 }
}

// The page has no place for so many inputs more.
fn has_no_room(geometry: &OnfiseqGeometry, kept: &OnfiseqTarget, count: usize) -> bool
    requires { (kept.now.column < 2 ^ 16) × (kept.now.inputs < 2 ^ 63) }
    ensures { result ≡ has_no_room (parts_of geometry.now) count (tail_of kept.now) }
{
    let len = geometry.page_len();
    let column = u64::from(kept.column) + kept.inputs as u64;
    len < column || len - column < count as u64
}

// A target after so many inputs more.
fn fed(kept: &OnfiseqTarget, count: usize) -> OnfiseqTarget
    requires few { kept.now.inputs + count < 2 ^ 63 }
    requires numbers { IsTarget kept.now }
    ensures value { target_of result ≡ fed_target count (target_of kept.now) }
    ensures numbers { IsTarget result }
{
    OnfiseqTarget {
        is_open: 0,
        inputs: kept.inputs + count,
        is_empty: 0,
        ..*kept
    }
}

// The LUN shows data, and has fewer bytes left than these.
fn has_fewer(geometry: &OnfiseqGeometry, lun: &OnfiseqLun, count: usize) -> bool
    requires { IsRecord lun.now }
    ensures { result ≡ has_fewer (parts_of geometry.now) count (lun_of lun.now) }
{
    let len = register_len(geometry, lun);
    let is_over = match output_column(lun) {
        None => false,
        Some(column) => len < column || len - column < count as u64,
    };
    shows_data(lun) && is_over
}

// What is against so many outputs, whose first is permitted.
fn against_rest(geometry: &OnfiseqGeometry, luns: &[OnfiseqLun], count: usize) -> Option<Forbidden>
    requires { All IsRecord luns.now }
    ensures { result ≡ against_rest (parts_of geometry.now) count (luns_of luns.now) }
{
    match driver(luns) {
        Some(lun) if has_fewer(geometry, lun, count) => Some(Forbidden::ColumnOutside),
        _ => None,
    }
}

// A LUN gives so many bytes more, where it shows data.
fn give(lun: &mut OnfiseqLun, count: usize)
    requires few { (given_on count (lun_of lun.old)).column.outputs ≤ 2 ^ 16 }
    requires numbers { IsRecord lun.old }
    ensures value { lun_of lun.new ≡ given_on count (lun_of lun.old) }
    ensures numbers { IsRecord lun.new }
{
    if shows_data(lun) {
        lun.outputs += count;
    }
}

// The LUNs of a target give so many bytes more, where they show data.
fn give_from(luns: &mut [OnfiseqLun], count: usize)
    requires few { AreFew (map (given_on count) (luns_of luns.old)) }
    requires numbers { All IsRecord luns.old }
    ensures value { luns_of luns.new ≡ map (given_on count) (luns_of luns.old) }
    ensures numbers { All IsRecord luns.new }
{
    if luns.is_empty() {
        return;
    }
    let (first, rest) = luns.split_at_mut(1);
    give(&mut first[0], count);
    give_from(rest, count);
}

// The first so many of an array do.
fn give_run(luns: &mut [OnfiseqLun; 4], there: usize, count: usize)
    requires there { there ≤ 4 }
    requires few { AreFew (map (given_on count) (luns_of (take there luns.old))) }
    requires numbers { All IsRecord luns.old }
    ensures value { luns_of (take there luns.new) ≡ map (given_on count) (luns_of (take there luns.old)) }
    ensures numbers { All IsRecord luns.new }
{
    let (first, _rest) = luns.split_at_mut(there);
    give_from(first, count);
}

// The target waits for bytes of a Set Features.
#[inline(always)]
fn takes_features(kept: &OnfiseqTarget) -> bool
    ensures { result ≡ takes_features (tail_of kept.now).phase }
{
    tail_of(kept).phase.takes_features()
}

// So many bytes of a Set Features that a target takes, one by one.
fn apply_each(geometry: &OnfiseqGeometry, kept: &mut OnfiseqTarget, ce: u8, count: usize)
    requires limits { InLimits (parts_of geometry.now) }
    requires numbers { IsTarget kept.old }
    requires fits { TargetFits (parts_of geometry.now) (target_of kept.old) }
    requires takes { takes_features (tail_of kept.old).phase ≡ true }
    requires few { kept.old.inputs + count ≤ 4 }
    ensures value { target_of kept.new ≡ each_taken (parts_of geometry.now) ce count (target_of kept.old) }
    ensures numbers { IsTarget kept.new }
{
    let mut left = count;
    while left > 0 {
        apply_input(geometry, kept, data_cycle(ce, Kind::Din));
        left -= 1;
    }
}

// So many bytes of a Set Features on their target, whose first is permitted, if it takes as many.
#[inline(never)]
fn push_feature_bytes(
    geometry: &OnfiseqGeometry,
    kept: &mut OnfiseqTarget,
    ce: u8,
    count: usize,
) -> Option<Forbidden>
    requires limits { InLimits (parts_of geometry.now) }
    requires numbers { IsTarget kept.old }
    requires fits { TargetFits (parts_of geometry.now) (target_of kept.old) }
    requires takes { takes_features (tail_of kept.old).phase ≡ true }
    ensures rule { result ≡ against_inputs (parts_of geometry.now) count (tail_of kept.old) }
    ensures state { target_of kept.new ≡ by_option result (inputs_taken (parts_of geometry.now) ce count (target_of kept.old)) (λ rule. target_of kept.old) }
    ensures numbers { IsTarget kept.new }
{
    let left = FEATURE_BYTES - kept.inputs;
    if left < count {
        return Some(Forbidden::InputMisplaced);
    }
    apply_each(geometry, kept, ce, count);
    None
}

// So many inputs on their target, if they break no rule.
pub(crate) fn push_inputs_there(
    geometry: &OnfiseqGeometry,
    targets: u8,
    kept: &mut OnfiseqTarget,
    ce: u8,
    count: usize,
) -> Option<Forbidden>
    requires limits { InLimits (parts_of geometry.now) }
    requires numbers { IsTarget kept.old }
    requires fits { TargetFits (parts_of geometry.now) (target_of kept.old) }
    ensures rule { result ≡ inputs_rule (parts_of geometry.now) targets ce count (target_of kept.old) }
    ensures state { target_of kept.new ≡ inputs_pushed (parts_of geometry.now) targets ce count (target_of kept.old) }
    ensures numbers { IsTarget kept.new }
{
    if let Some(rule) = judge_input_of(geometry, targets, kept, data_cycle(ce, Kind::Din)) {
        return Some(rule);
    }
    if takes_features(kept) {
        return push_feature_bytes(geometry, kept, ce, count);
    }
    if has_no_room(geometry, kept, count) {
        return Some(Forbidden::ColumnOutside);
    }
    *kept = fed(kept, count);
    None
}

// So many outputs on their target, if they break no rule.
pub(crate) fn push_outputs_there(
    geometry: &OnfiseqGeometry,
    targets: u8,
    kept: &mut OnfiseqTarget,
    ce: u8,
    count: usize,
) -> Option<Forbidden>
    requires limits { InLimits (parts_of geometry.now) }
    requires numbers { IsTarget kept.old }
    requires fits { TargetFits (parts_of geometry.now) (target_of kept.old) }
    requires few { outputs_rule (parts_of geometry.now) targets ce count (target_of kept.old) ≡ None → AreFew (map (given_on count) (target_of kept.old).luns) }
    ensures rule { result ≡ outputs_rule (parts_of geometry.now) targets ce count (target_of kept.old) }
    ensures state { target_of kept.new ≡ outputs_pushed (parts_of geometry.now) targets ce count (target_of kept.old) }
    ensures numbers { IsTarget kept.new }
{
    if let Some(rule) = judge_output_of(geometry, targets, kept, data_cycle(ce, Kind::Dout)) {
        return Some(rule);
    }
    if let Some(rule) = against_rest(geometry, &kept.luns[..kept.count], count) {
        return Some(rule);
    }
    give_run(&mut kept.luns, kept.count, count);
    note_output(kept);
    None
}

/// The channel goes on by so many inputs in a row on a target, if each of them is permitted. Else the answer is the first rule that the first forbidden one
/// breaks, and nothing changes. It costs the same for any number of them.
pub fn push_inputs(bus: &mut OnfiseqBus, ce: u8, count: usize) -> Option<Forbidden>
    requires { IsSound bus.old }
    ensures rule { result ≡ judged_inputs ce count (bus_view bus.old) }
    ensures state { result ≡ None → bus_view bus.new ≡ after_inputs ce count (bus_view bus.old) }
    ensures sound { IsSound bus.new }
    ensures same { IsSameChannel (bus_view bus.old) (bus_view bus.new) }
    ensures count { bus.new.count ≡ bus.old.count }
    ensures magic { bus.new.magic ≡ bus.old.magic }
{
    let place = usize::from(ce);
    if count == 0 {
        return None;
    }
    if bus.count <= place {
        return Some(Forbidden::NotThere);
    }
    let targets = bus.count as u8;
    let rule = push_inputs_there(&bus.geometry, targets, &mut bus.targets[place], ce, count);
    rule
}

/// The channel goes on by so many outputs in a row on a target, as [`push_inputs`] does by inputs.
pub fn push_outputs(bus: &mut OnfiseqBus, ce: u8, count: usize) -> Option<Forbidden>
    requires { IsSound bus.old }
    ensures rule { result ≡ judged_outputs ce count (bus_view bus.old) }
    ensures state { result ≡ None → bus_view bus.new ≡ after_outputs ce count (bus_view bus.old) }
    ensures sound { IsSound bus.new }
    ensures same { IsSameChannel (bus_view bus.old) (bus_view bus.new) }
    ensures count { bus.new.count ≡ bus.old.count }
    ensures magic { bus.new.magic ≡ bus.old.magic }
{
    let place = usize::from(ce);
    if count == 0 {
        return None;
    }
    if bus.count <= place {
        return Some(Forbidden::NotThere);
    }
    let targets = bus.count as u8;
    let rule = push_outputs_there(&bus.geometry, targets, &mut bus.targets[place], ce, count);
    rule
}
