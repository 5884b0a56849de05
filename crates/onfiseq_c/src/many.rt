//! Many items at once: the state is taken out of its record once, and put back once.
ghost use Rattle.std.specs.Prelude.{◌≡◌, ℕ, List, if◌then◌else◌};
ghost use Rattle.nand_geometry.specs.declared.parts.Parts.{Parts};
ghost use Rattle.onfi_cycle.specs.declared.item.Item.{Item as ItemValue};
ghost use Rattle.onfi_cycle.specs.State.{Follows};
ghost use Rattle.nand_geometry.specs.Optional.{is_wide};
ghost use Rattle.bus_record.specs.Bus.{IsSound, bus_view, is_sound_bus};
ghost use Rattle.bus_record.specs.Many.{all_pushed, went, with_items};

use bus_record::{DAMAGED, OnfiseqBus, OnfiseqItem, is_sound_bus, push_all};

/// Pushes items one by one, as `onfiseq_push` does, up to the first that is refused: the answer is its, or 0, and `done` says how many went. Many items
/// cost much less in one call than in calls of their own. A state that follows a past follows it then with the first `done` of them. Where none went, the record is as it was.
#[unsafe(no_mangle)]
pub extern "C" fn onfiseq_push_all(
    bus: &mut OnfiseqBus,
    items: &[OnfiseqItem],
    done: &mut usize,
) -> u32
    ensures went { went result done.new (bus_view bus.new) ≡ (if is_sound_bus bus.old then all_pushed (is_wide (bus_view bus.old).geometry.optional) (bus_view bus.old) items.now 0 else went 0x4400 0 (bus_view bus.old)) }
    ensures past { (g : Parts) (n : ℕ) (past : List ItemValue) → Follows g n (bus_view bus.old) past
        → Follows g n (bus_view bus.new) (with_items (is_wide (bus_view bus.old).geometry.optional) done.new items.now past) }
    ensures sound { IsSound bus.old → IsSound bus.new }
    ensures magic { bus.new.magic ≡ bus.old.magic }
    ensures still { done.new ≡ 0 → bus.new ≡ bus.old }
{
    if !is_sound_bus(bus) {
        *done = 0;
        return DAMAGED;
    }
    push_all(bus, items, done)
}
