//! The check of a trace item by item, its state in the caller's memory.
ghost use Rattle.std.specs.Prelude.{◌≡◌, ◌==◌, ◌&&◌, ℕ, List, [], Some, true, if◌then◌else◌};
ghost use Rattle.nand_geometry.specs.declared.parts.Parts.{Parts};
ghost use Rattle.nand_geometry.specs.Optional.{is_wide};
ghost use Rattle.onfi_cycle.specs.declared.item.Item.{Item as ItemValue};
ghost use Rattle.onfi_cycle.specs.State.{Follows};
ghost use Rattle.target_record.specs.Geometry.{parts_of};
ghost use Rattle.bus_record.specs.Bus.{GoesOn, IsSound, begin_code, bus_pushed, bus_view, is_bus, is_bus_at, pushed};
ghost use Rattle.bus_record.specs.Item.{item_of};

use bus_record::{
    DAMAGED, OTHER_VERSION, OnfiseqBus, OnfiseqGeometry, OnfiseqItem, begin, is_bus_at, is_wide,
    push_numbers,
};

// How many bytes the record of a channel has, and the version of the calls and records.
const BUS_BYTES: usize = 3272;

pub(crate) const VERSION: u32 = 3;

/// Begins a channel of so many targets of this geometry, to which nothing has happened: 0, and its record is written. Else the record stays as it was, and the
/// answer is 4401h where it has another size or version than those of this library, 5400h where the targets aren't 1 to 4, and 5000h and n for the fault Pn
/// of the geometry. Whatever stood in the record before is no matter.
#[unsafe(no_mangle)]
pub extern "C" fn onfiseq_begin_sized(
    bus: &mut OnfiseqBus,
    size: usize,
    version: u32,
    geometry: &OnfiseqGeometry,
    targets: u8,
) -> u32
    ensures answer { result ≡ (if size == 3272 && version == 3 then begin_code (parts_of geometry.now) targets else 0x4401) }
    ensures begins { result ≡ 0 → Follows (parts_of geometry.now) targets (bus_view bus.new) [] }
    ensures sound { result ≡ 0 → IsSound bus.new }
    ensures magic { result ≡ 0 → is_bus bus.new ≡ true }
    ensures refused { (result ≡ 0 → ⊥) → bus.new ≡ bus.old }
{
    if size != BUS_BYTES || version != VERSION {
        return OTHER_VERSION;
    }
    begin(bus, geometry, targets)
}

/// The channel goes on by an item: 0 where it is permitted after those before. Else nothing changes, and the answer is the code of the first rule that it
/// breaks, or 4900h where the numbers are no item, or 4400h where the record is none that a call left: whatever bytes stand in it, what
/// stands first and the target of the item are judged before anything is done.
#[unsafe(no_mangle)]
pub extern "C" fn onfiseq_push(bus: &mut OnfiseqBus, item: &OnfiseqItem) -> u32
    ensures answer { result ≡ (if is_bus_at item.now.ce bus.old then pushed (bus_view bus.old) (item_of (is_wide (bus_view bus.old).geometry.optional) item.now) else 0x4400) }
    ensures state { bus_view bus.new ≡ (if is_bus_at item.now.ce bus.old then bus_pushed (bus_view bus.old) (item_of (is_wide (bus_view bus.old).geometry.optional) item.now) else bus_view bus.old) }
    ensures refused { (result ≡ 0 → ⊥) → bus.new ≡ bus.old }
    ensures magic { bus.new.magic ≡ bus.old.magic }
    ensures sound { IsSound bus.old → IsSound bus.new }
    ensures past { (g : Parts) (n : ℕ) (past : List ItemValue) (i : ItemValue) → is_bus_at item.now.ce bus.old ≡ true → item_of (is_wide (bus_view bus.old).geometry.optional) item.now ≡ Some i
        → Follows g n (bus_view bus.old) past
        → GoesOn g n past i result (bus_view bus.new) }
{
    if !is_bus_at(bus, item.ce) {
        return DAMAGED;
    }
    let wide = is_wide(bus);
    push_numbers(bus, item, wide)
}
