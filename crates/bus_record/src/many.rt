//! Many items at once, each pushed where the state stands.
ghost use Rattle.std.specs.Prelude.{◌≡◌, ℕ, List};
ghost use Rattle.nand_geometry.specs.declared.parts.Parts.{Parts};
ghost use Rattle.onfi_cycle.specs.declared.item.Item.{Item as ItemValue};
ghost use Rattle.onfi_cycle.specs.State.{Follows};
ghost use Rattle.nand_geometry.specs.Optional.{is_wide};
ghost use Rattle.bus_record.specs.Bus.{IsSound, bus_view};
ghost use Rattle.bus_record.specs.Many.{all_pushed, went, with_items};

use crate::bus::{OnfiseqBus, is_wide, push_numbers};
use crate::item::OnfiseqItem;

// Pushes items one by one, up to the first that is refused.
fn push_each(bus: &mut OnfiseqBus, items: &[OnfiseqItem], wide: bool, done: &mut usize) -> u32
    requires { IsSound bus.old }
    ensures went { went result done.new (bus_view bus.new) ≡ all_pushed wide (bus_view bus.old) items.now 0 }
    ensures sound { IsSound bus.new }
    ensures magic { bus.new.magic ≡ bus.old.magic }
    ensures still { done.new ≡ 0 → bus.new ≡ bus.old }
{
    let mut rest = items;
    let mut at = 0;
    'items: while let Some((first, behind)) = rest.split_first() {
        let answer = push_numbers(bus, first, wide);
        if answer != 0 {
            *done = at;
            return answer;
        }
        rest = behind;
        at += 1;
    }
    *done = at;
    0
}

/// Pushes items one by one, up to the first that is refused: the answer is its, or 0, and `done` says how many went. A state that follows a past follows it
/// then with the first `done` of them. Where none went, no number of the record has changed.
pub fn push_all(bus: &mut OnfiseqBus, items: &[OnfiseqItem], done: &mut usize) -> u32
    requires { IsSound bus.old }
    ensures went { went result done.new (bus_view bus.new) ≡ all_pushed (is_wide (bus_view bus.old).geometry.optional) (bus_view bus.old) items.now 0 }
    ensures past { (g : Parts) (n : ℕ) (past : List ItemValue) → Follows g n (bus_view bus.old) past
        → Follows g n (bus_view bus.new) (with_items (is_wide (bus_view bus.old).geometry.optional) done.new items.now past) }
    ensures sound { IsSound bus.new }
    ensures magic { bus.new.magic ≡ bus.old.magic }
    ensures still { done.new ≡ 0 → bus.new ≡ bus.old }
{
    let wide = is_wide(bus);
    push_each(bus, items, wide, done)
}
