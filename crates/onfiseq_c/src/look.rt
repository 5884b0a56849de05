//! A look at a LUN, and whether an item would be permitted: questions that change nothing.
ghost use Rattle.std.specs.Prelude.{◌≡◌, None, if◌then◌else◌};
ghost use Rattle.nand_geometry.specs.Optional.{is_wide};
ghost use Rattle.onfi_cycle.specs.Look.{looked};
ghost use Rattle.bus_record.specs.Bus.{bus_view, is_bus_at, pushed};
ghost use Rattle.bus_record.specs.Look.{look_of};
ghost use Rattle.bus_record.specs.Item.{item_of};

use bus_record::{
    DAMAGED, NO_ITEM, OnfiseqBus, OnfiseqItem, OnfiseqLook, ask, is_bus_at, is_wide, look_at_lun,
    no_look,
};

/// A look at a LUN; `is_there` is false, and all is zero, where no such LUN is there, or the record of the channel is none.
#[unsafe(no_mangle)]
pub extern "C" fn onfiseq_look_at(bus: &OnfiseqBus, ce: u8, lun: u8) -> OnfiseqLook
    ensures { look_of result ≡ (if is_bus_at ce bus.now then looked (bus_view bus.now) (record { ce = ce; lun = lun }) else None) }
{
    if !is_bus_at(bus, ce) {
        return no_look();
    }
    look_at_lun(bus, ce, lun)
}

/// What `onfiseq_push` would answer to this item; nothing changes.
#[unsafe(no_mangle)]
pub extern "C" fn onfiseq_ask(bus: &OnfiseqBus, item: &OnfiseqItem) -> u32
    ensures { result ≡ (if is_bus_at item.now.ce bus.now then pushed (bus_view bus.now) (item_of (is_wide (bus_view bus.now).geometry.optional) item.now) else 0x4400) }
{
    if !is_bus_at(bus, item.ce) {
        return DAMAGED;
    }
    let wide = is_wide(bus);
    match item.item(wide) {
        Some(item) => ask(bus, item),
        None => NO_ITEM,
    }
}
