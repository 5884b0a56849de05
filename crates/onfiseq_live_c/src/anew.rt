//! A target on whose pins jobs run begins anew.
ghost use Rattle.std.specs.Prelude.{◌≡◌, ℕ, ◌<◌, List, nat_lt, true, if◌then◌else◌};
ghost use Rattle.nand_geometry.specs.declared.parts.Parts.{Parts};
ghost use Rattle.onfi_cycle.specs.declared.item.Item.{Item as ItemValue};
ghost use Rattle.onfi_cycle.specs.State.{Follows};
ghost use Rattle.bus_record.specs.Anew.{KeepsOthers, bus_begun, elsewhere};
ghost use Rattle.onfiseq_live_c.specs.Live.{state_of, holder_of, held_elsewhere, is_live};

use crate::live::OnfiseqLive;
use bus_record::{DAMAGED, begin_target};
use onfi_cycle::Lun;

// The LUN that has the bus, unless it is on this target.
fn held_elsewhere(ce: u8, holder: Option<Lun>) -> Option<Lun>
    ensures { result ≡ held_elsewhere ce holder }
{
    match holder {
        Some(lun) if lun.ce == ce => None,
        Some(lun) => Some(lun),
        None => None,
    }
}

/// A target of the channel is as at the start, whatever it was doing: for a chip that was reset on the pins or lost its power. Where a LUN of it had the bus,
/// none has it now. The other targets, and the jobs on them, stay as they are. The jobs of this target are over: each may begin again by
/// `onfiseq_job_begin`. 0; or 4601h, the code of F1, where the channel has no such target, or 4400h where its record is none, and nothing changes.
#[unsafe(no_mangle)]
pub extern "C" fn onfiseq_live_begin_target(live: &mut OnfiseqLive, ce: u8) -> u32
    ensures answer { result ≡ (if is_live live.old then (if nat_lt ce live.old.bus.count then 0 else 0x4601) else 0x4400) }
    ensures state { state_of live.new ≡ (if is_live live.old then bus_begun ce (state_of live.old) else state_of live.old) }
    ensures holder { result ≡ 0 → holder_of live.new ≡ held_elsewhere ce (holder_of live.old) }
    ensures others { KeepsOthers ce live.old.bus live.new.bus }
    ensures magic { live.new.magic ≡ live.old.magic }
    ensures live { is_live live.new ≡ is_live live.old }
    ensures refused { (result ≡ 0 → ⊥) → live.new ≡ live.old }
    ensures past { (g : Parts) (n : ℕ) (past : List ItemValue) → is_live live.old ≡ true → ce < n → Follows g n (state_of live.old) past
        → Follows g n (state_of live.new) (elsewhere ce past) }
{
    if !live.is_live() {
        return DAMAGED;
    }
    let answer = begin_target(&mut live.bus, ce);
    if answer == 0 {
        live.hand_over(held_elsewhere(ce, live.holder()));
    }
    answer
}
