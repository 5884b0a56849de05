//! A target that is taken out of its channel, so that items can be tried on it: the channel stays as it was, and only the one record is copied.
ghost use Rattle.std.specs.Prelude.{◌≡◌, ◌<◌, ◌≤◌, ◌^◌, Some, None};
ghost use Rattle.onfi_cycle.specs.Inputs.{judged_inputs, after_inputs};
ghost use Rattle.onfi_cycle.specs.Outputs.{judged_outputs, after_outputs};
ghost use Rattle.onfi_cycle.specs.State.{bus_after, judged};
ghost use Rattle.onfi_cycle.specs.Channel.{cycle};
ghost use Rattle.onfi_cycle.specs.declared.item.Kind.{Kind as KindValue};
ghost use Rattle.onfi_cycle.specs.Sequence.{target_of as target_of_item};
ghost use Rattle.target_record.specs.Geometry.{parts_of};
ghost use Rattle.bus_record.specs.Bus.{IsSound, bus_pushed, bus_view};
ghost use Rattle.bus_record.specs.Channel.{IsSameChannel};
ghost use Rattle.bus_record.specs.Trial.{IsTried, after_poll, judged_poll, tried_view};

use crate::bus::{OnfiseqBus, judge_read_status, step_read_status, step_target};
use crate::run::{push_inputs_there, push_outputs_there};
use onfi_cycle::{Cycle, Forbidden, Item, Kind};
use target_record::OnfiseqTarget;

/// The record of a target of a channel.
#[inline(always)]
pub fn target_at(bus: &OnfiseqBus, ce: u8) -> OnfiseqTarget
    requires sound { IsSound bus.now }
    requires there { ce < bus.now.count }
    ensures tried { IsTried bus.now ce result }
    ensures state { tried_view bus.now ce result ≡ bus_view bus.now }
{
    bus.targets[usize::from(ce)]
}

/// The channel goes on with this record of its target.
#[inline(always)]
pub fn put_target(bus: &mut OnfiseqBus, ce: u8, kept: &OnfiseqTarget)
    requires { IsTried bus.old ce kept.now }
    ensures state { bus_view bus.new ≡ tried_view bus.old ce kept.now }
    ensures same { IsSameChannel (bus_view bus.old) (bus_view bus.new) }
    ensures count { bus.new.count ≡ bus.old.count }
    ensures magic { bus.new.magic ≡ bus.old.magic }
    ensures sound { IsSound bus.new }
{
    bus.targets[usize::from(ce)] = *kept;
}

/// A target goes on by an item that is permitted. Else the answer is the first rule that it breaks, and nothing changes.
#[inline(always)]
pub fn try_item(bus: &OnfiseqBus, kept: &mut OnfiseqTarget, item: Item) -> Option<Forbidden>
    requires { IsTried bus.now (target_of_item item) kept.old }
    ensures rule { result ≡ judged (tried_view bus.now (target_of_item item) kept.old) item }
    ensures state { tried_view bus.now (target_of_item item) kept.new ≡ bus_pushed (tried_view bus.now (target_of_item item) kept.old) (Some item) }
    ensures after { result ≡ None → tried_view bus.now (target_of_item item) kept.new ≡ bus_after item (tried_view bus.now (target_of_item item) kept.old) }
    ensures tried { IsTried bus.now (target_of_item item) kept.new }
{
    step_target(&bus.geometry, bus.count as u8, kept, item)
}

// A target goes on by 70h, if that is permitted.
#[inline(always)]
fn try_read_status(bus: &OnfiseqBus, kept: &mut OnfiseqTarget, ce: u8) -> Option<Forbidden>
    requires { IsTried bus.now ce kept.old }
    ensures rule { result ≡ judged (tried_view bus.now ce kept.old) (cycle ce KindValue.Cmd 0x70) }
    ensures after { result ≡ None → tried_view bus.now ce kept.new ≡ bus_after (cycle ce KindValue.Cmd 0x70) (tried_view bus.now ce kept.old) }
    ensures tried { IsTried bus.now ce kept.new }
{
    step_read_status(&bus.geometry, bus.count as u8, kept, ce)
}

// A target goes on by an output, if that is permitted.
#[inline(always)]
fn try_output(bus: &OnfiseqBus, kept: &mut OnfiseqTarget, ce: u8) -> Option<Forbidden>
    requires { IsTried bus.now ce kept.old }
    ensures rule { result ≡ judged (tried_view bus.now ce kept.old) (cycle ce KindValue.Dout 0) }
    ensures after { result ≡ None → tried_view bus.now ce kept.new ≡ bus_after (cycle ce KindValue.Dout 0) (tried_view bus.now ce kept.old) }
    ensures tried { IsTried bus.now ce kept.new }
{
    let kind = Kind::Dout;
    try_item(bus, kept, Item::Cyc(Cycle { ce, kind, byte: 0 }))
}

/// A target goes on by a status poll of its one LUN, 70h and an output, up to the first cycle that breaks a rule.
#[inline(always)]
pub fn try_poll(bus: &OnfiseqBus, kept: &mut OnfiseqTarget, ce: u8) -> Option<Forbidden>
    requires { IsTried bus.now ce kept.old }
    ensures rule { result ≡ judged_poll ce (tried_view bus.now ce kept.old) }
    ensures state { result ≡ None → tried_view bus.now ce kept.new ≡ after_poll ce (tried_view bus.now ce kept.old) }
    ensures tried { IsTried bus.now ce kept.new }
{
    match try_read_status(bus, kept, ce) {
        Some(rule) => Some(rule),
        None => try_output(bus, kept, ce),
    }
}

/// The first rule that a status poll of the one LUN of a target breaks, 70h and an output; nothing changes. Where the 70h is permitted, the output is too.
#[inline(always)]
pub fn ask_poll(bus: &OnfiseqBus, ce: u8) -> Option<Forbidden>
    requires sound { IsSound bus.now }
    requires there { ce < bus.now.count }
    requires one { (parts_of bus.now.geometry).luns ≡ 1 }
    ensures { result ≡ judged_poll ce (bus_view bus.now) }
{
    judge_read_status(
        &bus.geometry,
        bus.count as u8,
        &bus.targets[usize::from(ce)],
        ce,
    )
}

/// A target goes on by so many inputs in a row, if each of them is permitted. Else the answer is the first rule that the first forbidden one breaks, and nothing
/// changes.
pub fn try_inputs(
    bus: &OnfiseqBus,
    kept: &mut OnfiseqTarget,
    ce: u8,
    count: usize,
) -> Option<Forbidden>
    requires { IsTried bus.now ce kept.old }
    ensures rule { result ≡ judged_inputs ce count (tried_view bus.now ce kept.old) }
    ensures state { result ≡ None → tried_view bus.now ce kept.new ≡ after_inputs ce count (tried_view bus.now ce kept.old) }
    ensures tried { IsTried bus.now ce kept.new }
{
    if count == 0 {
        return None;
    }
    push_inputs_there(&bus.geometry, bus.count as u8, kept, ce, count)
}

/// A target goes on by so many outputs in a row, as [`try_inputs`] does by inputs.
pub fn try_outputs(
    bus: &OnfiseqBus,
    kept: &mut OnfiseqTarget,
    ce: u8,
    count: usize,
) -> Option<Forbidden>
    requires { IsTried bus.now ce kept.old }
    ensures rule { result ≡ judged_outputs ce count (tried_view bus.now ce kept.old) }
    ensures state { result ≡ None → tried_view bus.now ce kept.new ≡ after_outputs ce count (tried_view bus.now ce kept.old) }
    ensures tried { IsTried bus.now ce kept.new }
{
    if count == 0 {
        return None;
    }
    push_outputs_there(&bus.geometry, bus.count as u8, kept, ce, count)
}
