//! A target of a channel that begins anew, or forgets its open sequence.
ghost use Rattle.std.specs.Prelude.{◌≡◌, ℕ, ◌<◌, List, nat_lt, true, if◌then◌else◌};
ghost use Rattle.nand_geometry.specs.declared.parts.Parts.{Parts};
ghost use Rattle.onfi_cycle.specs.declared.item.Item.{Item as ItemValue};
ghost use Rattle.onfi_cycle.specs.State.{Follows, bus_without};
ghost use Rattle.bus_record.specs.Anew.{KeepsOthers, bus_begun, elsewhere};
ghost use Rattle.bus_record.specs.Bus.{IsSound, bus_view, is_sound_bus};

use bus_record::{DAMAGED, OnfiseqBus, begin_target, drop_sequence, is_sound_bus};

/// A target of the channel is as at the start, whatever it was doing: for a chip that was reset on the pins or lost its power. The other targets stay as they
/// are. 0; or 4601h, the code of F1, where the channel has no such target, or 4400h where its record is none, and nothing changes.
#[unsafe(no_mangle)]
pub extern "C" fn onfiseq_begin_target(bus: &mut OnfiseqBus, ce: u8) -> u32
    ensures answer { result ≡ (if is_sound_bus bus.old then (if nat_lt ce bus.old.count then 0 else 0x4601) else 0x4400) }
    ensures state { bus_view bus.new ≡ (if is_sound_bus bus.old then bus_begun ce (bus_view bus.old) else bus_view bus.old) }
    ensures others { KeepsOthers ce bus.old bus.new }
    ensures sound { IsSound bus.old → IsSound bus.new }
    ensures refused { (result ≡ 0 → ⊥) → bus.new ≡ bus.old }
    ensures past { (g : Parts) (n : ℕ) (past : List ItemValue) → is_sound_bus bus.old ≡ true → ce < n → Follows g n (bus_view bus.old) past
        → Follows g n (bus_view bus.new) (elsewhere ce past) }
{
    if !is_sound_bus(bus) {
        return DAMAGED;
    }
    begin_target(bus, ce)
}

/// The open sequence of a target is forgotten, and its LUNs stay as its cycles left them: for whoever goes on after a cycle that isn't permitted. The other
/// targets stay as they are. The answers are those of `onfiseq_begin_target`.
#[unsafe(no_mangle)]
pub extern "C" fn onfiseq_drop(bus: &mut OnfiseqBus, ce: u8) -> u32
    ensures answer { result ≡ (if is_sound_bus bus.old then (if nat_lt ce bus.old.count then 0 else 0x4601) else 0x4400) }
    ensures state { bus_view bus.new ≡ (if is_sound_bus bus.old then bus_without ce (bus_view bus.old) else bus_view bus.old) }
    ensures others { KeepsOthers ce bus.old bus.new }
    ensures sound { IsSound bus.old → IsSound bus.new }
    ensures refused { (result ≡ 0 → ⊥) → bus.new ≡ bus.old }
{
    if !is_sound_bus(bus) {
        return DAMAGED;
    }
    drop_sequence(bus, ce)
}
