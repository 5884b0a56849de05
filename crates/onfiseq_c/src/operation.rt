//! A whole operation on a target in one call.
ghost use Rattle.std.specs.Prelude.{◌≡◌, ◌<◌, true, if◌then◌else◌};
ghost use Rattle.bus_record.specs.Bus.{IsSound, bus_view, is_sound_bus};
ghost use Rattle.bus_record.specs.Operation.{IsSpot, op_code, op_gone, parts_after};

use bus_record::{DAMAGED, OnfiseqBus, OnfiseqPart, OnfiseqSpot, ask_op, is_sound_bus, push_op};

/// The channel goes on by a whole operation on a target, all of it or none: 0 where each of its cycles is permitted where it comes. Else the answer is the code of
/// the first rule that is broken, or 4900h where the numbers are no part, or 4400h where the record of the channel is none, and the record is as it was.
/// `spot` says how many parts went, and how many cycles of the next.
#[unsafe(no_mangle)]
pub extern "C" fn onfiseq_push_op(
    bus: &mut OnfiseqBus,
    ce: u8,
    parts: &[OnfiseqPart],
    spot: &mut OnfiseqSpot,
) -> u32
    ensures code { result ≡ (if is_sound_bus bus.old then op_code ce parts.now (bus_view bus.old) else 0x4400) }
    ensures part { is_sound_bus bus.old ≡ true → spot.new.part ≡ op_gone ce parts.now (bus_view bus.old) }
    ensures spot { is_sound_bus bus.old ≡ true → (result ≡ 0 → ⊥) → ce < bus.old.count → IsSpot ce parts.now (bus_view bus.old) spot.new.part spot.new.cycle }
    ensures state { result ≡ 0 → bus_view bus.new ≡ parts_after ce parts.now (bus_view bus.old) }
    ensures refused { (result ≡ 0 → ⊥) → bus.new ≡ bus.old }
    ensures magic { bus.new.magic ≡ bus.old.magic }
    ensures sound { IsSound bus.old → IsSound bus.new }
{
    if !is_sound_bus(bus) {
        *spot = OnfiseqSpot { part: 0, cycle: 0 };
        return DAMAGED;
    }
    push_op(bus, ce, parts, spot)
}

/// What `onfiseq_push_op` would answer; nothing changes.
#[unsafe(no_mangle)]
pub extern "C" fn onfiseq_ask_op(
    bus: &OnfiseqBus,
    ce: u8,
    parts: &[OnfiseqPart],
    spot: &mut OnfiseqSpot,
) -> u32
    ensures code { result ≡ (if is_sound_bus bus.now then op_code ce parts.now (bus_view bus.now) else 0x4400) }
    ensures part { is_sound_bus bus.now ≡ true → spot.new.part ≡ op_gone ce parts.now (bus_view bus.now) }
    ensures spot { is_sound_bus bus.now ≡ true → (result ≡ 0 → ⊥) → ce < bus.now.count → IsSpot ce parts.now (bus_view bus.now) spot.new.part spot.new.cycle }
{
    if !is_sound_bus(bus) {
        *spot = OnfiseqSpot { part: 0, cycle: 0 };
        return DAMAGED;
    }
    ask_op(bus, ce, parts, spot)
}
