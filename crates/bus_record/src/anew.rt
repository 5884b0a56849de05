//! A target that begins anew, or forgets its open sequence, whatever it was doing. The other targets stay as they are.
ghost use Rattle.std.specs.Prelude.{◌≡◌, ℕ, ◌<◌, ◌≤◌, List, nat_lt, if◌then◌else◌};
ghost use Rattle.nand_geometry.specs.declared.parts.Parts.{Parts};
ghost use Rattle.onfi_cycle.specs.declared.item.Item.{Item as ItemValue};
ghost use Rattle.onfi_cycle.specs.State.{Follows, bus_without, without_sequence};
ghost use Rattle.target_record.specs.Record.{IsTarget, target_of};
ghost use Rattle.bus_record.specs.Anew.{KeepsOthers, bus_begun, elsewhere};
ghost use Rattle.bus_record.specs.Bus.{IsSound, bus_view};

use crate::bus::{OnfiseqBus, code_of, fresh_target};
use onfi_cycle::Forbidden;
use target_record::{NO_TARGET, OnfiseqTarget};

// A target without its open sequence; its LUNs are as they were.
fn without_sequence(kept: &OnfiseqTarget) -> OnfiseqTarget
    requires { IsTarget kept.now }
    ensures state { target_of result ≡ without_sequence (target_of kept.now) }
    ensures numbers { IsTarget result }
{
    OnfiseqTarget {
        count: kept.count,
        luns: kept.luns,
        ..NO_TARGET
    }
}

/// A target is as at the start, whatever it was doing: its chip was reset on the pins, or lost its power. 0; or 4601h, the code of F1, where the channel has no
/// such target, and nothing changes. A state that follows a past follows what has happened elsewhere.
pub fn begin_target(bus: &mut OnfiseqBus, ce: u8) -> u32
    requires { IsSound bus.old }
    ensures answer { result ≡ (if nat_lt ce bus.old.count then 0 else 0x4601) }
    ensures state { bus_view bus.new ≡ bus_begun ce (bus_view bus.old) }
    ensures others { KeepsOthers ce bus.old bus.new }
    ensures sound { IsSound bus.new }
    ensures refused { bus.old.count ≤ ce → bus.new ≡ bus.old }
    ensures past { (g : Parts) (n : ℕ) (past : List ItemValue) → ce < n → Follows g n (bus_view bus.old) past
        → Follows g n (bus_view bus.new) (elsewhere ce past) }
{
    let place = usize::from(ce);
    if bus.count <= place {
        return code_of(Forbidden::NotThere);
    }
    bus.targets[place] = fresh_target(bus.geometry.luns);
    0
}

/// The open sequence of a target is forgotten, and its LUNs stay as its cycles left them: for whoever goes on after a cycle that isn't permitted. 0; or 4601h, the code
/// of F1, where the channel has no such target, and nothing changes.
pub fn drop_sequence(bus: &mut OnfiseqBus, ce: u8) -> u32
    requires { IsSound bus.old }
    ensures answer { result ≡ (if nat_lt ce bus.old.count then 0 else 0x4601) }
    ensures state { bus_view bus.new ≡ bus_without ce (bus_view bus.old) }
    ensures others { KeepsOthers ce bus.old bus.new }
    ensures sound { IsSound bus.new }
    ensures refused { bus.old.count ≤ ce → bus.new ≡ bus.old }
{
    let place = usize::from(ce);
    if bus.count <= place {
        return code_of(Forbidden::NotThere);
    }
    bus.targets[place] = without_sequence(&bus.targets[place]);
    0
}
