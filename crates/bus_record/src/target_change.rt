//! What a permitted item leaves of the record of its target, written where it stands.
ghost use Rattle.std.specs.Prelude.{◌≡◌, ◌^◌, ◌<◌, None};
ghost use Rattle.nand_geometry.specs.Limits.{InLimits};
ghost use Rattle.onfi_cycle.specs.declared.item.Item.{Item as ItemValue};
ghost use Rattle.onfi_cycle.specs.declared.item.Kind.{Kind as KindValue};
ghost use Rattle.onfi_cycle.specs.Bounds.{TargetFits};
ghost use Rattle.onfi_cycle.specs.Command.{command};
ghost use Rattle.onfi_cycle.specs.Permitted.{judge};
ghost use Rattle.onfi_cycle.specs.State.{target_after};
ghost use Rattle.target_record.specs.Record.{IsTarget};
ghost use Rattle.target_record.specs.Geometry.{parts_of};
ghost use Rattle.target_record.specs.Record.{target_of};

use crate::luns_change::{change_first, give_first};
use crate::tail_change::{note_address, note_command, note_input, note_output};
use crate::target_effect::{effect_of_address, effect_of_command, effect_of_input};
use onfi_cycle::{Command, Cycle};
use target_record::{OnfiseqGeometry, OnfiseqTarget};

/// What a permitted output leaves of its target.
#[inline(always)]
pub(crate) fn apply_output(
    geometry: &OnfiseqGeometry,
    targets: u8,
    kept: &mut OnfiseqTarget,
    cycle: Cycle,
)
    requires output { cycle.kind ≡ KindValue.Dout }
    requires limits { InLimits (parts_of geometry.now) }
    requires numbers { IsTarget kept.old }
    requires fits { TargetFits (parts_of geometry.now) (target_of kept.old) }
    requires permitted { judge (parts_of geometry.now) targets (target_of kept.old).tail (target_of kept.old).luns (ItemValue.Cyc cycle) ≡ None }
    ensures value { target_of kept.new ≡ target_after (parts_of geometry.now) (ItemValue.Cyc cycle) (target_of kept.old) }
    ensures numbers { IsTarget kept.new }
    ensures column { kept.new.column < 2 ^ 16 }
{
    let _geometry = *geometry;
    let _targets = targets;
    let _cycle = cycle;
    give_first(&mut kept.luns, kept.count);
    note_output(kept);
}

/// What a permitted input leaves of its target.
#[inline(always)]
pub(crate) fn apply_input(geometry: &OnfiseqGeometry, kept: &mut OnfiseqTarget, cycle: Cycle)
    requires input { cycle.kind ≡ KindValue.Din }
    requires limits { InLimits (parts_of geometry.now) }
    requires numbers { IsTarget kept.old }
    requires fits { TargetFits (parts_of geometry.now) (target_of kept.old) }
    ensures value { target_of kept.new ≡ target_after (parts_of geometry.now) (ItemValue.Cyc cycle) (target_of kept.old) }
    ensures numbers { IsTarget kept.new }
    ensures column { kept.new.column < 2 ^ 16 }
{
    let _cycle = cycle;
    let effect = effect_of_input(geometry, kept);
    note_input(kept);
    change_first(&mut kept.luns, kept.count, effect);
}

/// What a permitted command leaves of its target.
#[inline(always)]
pub(crate) fn apply_command(
    geometry: &OnfiseqGeometry,
    targets: u8,
    kept: &mut OnfiseqTarget,
    cycle: Cycle,
    named: Command,
)
    requires kind { cycle.kind ≡ KindValue.Cmd }
    requires named { named ≡ command cycle.byte }
    requires limits { InLimits (parts_of geometry.now) }
    requires numbers { IsTarget kept.old }
    requires fits { TargetFits (parts_of geometry.now) (target_of kept.old) }
    requires permitted { judge (parts_of geometry.now) targets (target_of kept.old).tail (target_of kept.old).luns (ItemValue.Cyc cycle) ≡ None }
    ensures value { target_of kept.new ≡ target_after (parts_of geometry.now) (ItemValue.Cyc cycle) (target_of kept.old) }
    ensures numbers { IsTarget kept.new }
    ensures column { kept.new.column < 2 ^ 16 }
{
    let _targets = targets;
    let effect = effect_of_command(geometry, kept, named);
    note_command(kept, cycle.byte, named);
    change_first(&mut kept.luns, kept.count, effect);
}

/// What a permitted address leaves of its target.
#[inline(always)]
pub(crate) fn apply_address(
    geometry: &OnfiseqGeometry,
    targets: u8,
    kept: &mut OnfiseqTarget,
    cycle: Cycle,
)
    requires kind { cycle.kind ≡ KindValue.Adr }
    requires limits { InLimits (parts_of geometry.now) }
    requires numbers { IsTarget kept.old }
    requires fits { TargetFits (parts_of geometry.now) (target_of kept.old) }
    requires permitted { judge (parts_of geometry.now) targets (target_of kept.old).tail (target_of kept.old).luns (ItemValue.Cyc cycle) ≡ None }
    ensures value { target_of kept.new ≡ target_after (parts_of geometry.now) (ItemValue.Cyc cycle) (target_of kept.old) }
    ensures numbers { IsTarget kept.new }
    ensures column { kept.new.column < 2 ^ 16 }
{
    let _targets = targets;
    let effect = effect_of_address(geometry, kept, cycle.byte);
    note_address(kept, cycle.byte);
    change_first(&mut kept.luns, kept.count, effect);
}
