//! The readies that a status output shows, on a bus whose R/B# isn't seen.
ghost use Rattle.std.specs.Prelude.{◌≡◌, ◌≤◌, IfSome, length, if◌then◌else◌};
ghost use Rattle.bus_record.specs.Bus.{FitsAt, IsSound, bus_view, is_sound_bus};
ghost use Rattle.bus_record.specs.Look.{look_of};
ghost use Rattle.bus_record.specs.Many.{all_pushed, went};
ghost use Rattle.onfiseq_c.specs.Status.{array_becomes_ready, array_item, becomes_ready, completed, drives, driving_lun, lun_drives, readies_at, readies_of, ready_fail, ready_item, shows_bit};
ghost use Rattle.nand_geometry.specs.Optional.{is_wide};

use arrayvec::ArrayVec;
use bus_record::{
    DAMAGED, OnfiseqBus, OnfiseqItem, OnfiseqLook, caches_programs, is_sound_bus, look_at_lun,
    push_all,
};

// A ready, that of an array, and the item itself.
type Completed = ArrayVec<OnfiseqItem, 3>;

// Whether the LUN drives the bus when its target is read.
fn drives(look: OnfiseqLook) -> bool
    ensures { result ≡ drives (look_of look) }
{
    look.is_there && look.latch != 0
}

fn lun_drives(bus: &OnfiseqBus, ce: u8, lun: u8) -> bool
    requires { FitsAt bus.now ce }
    ensures { result ≡ lun_drives (bus_view bus.now) ce lun }
{
    drives(look_at_lun(bus, ce, lun))
}

// The one LUN of a target that drives the bus.
fn driving_lun(bus: &OnfiseqBus, ce: u8) -> Option<u8>
    requires { FitsAt bus.now ce }
    ensures { result ≡ driving_lun (bus_view bus.now) ce }
{
    let zeroth = lun_drives(bus, ce, 0);
    let first = lun_drives(bus, ce, 1);
    let second = lun_drives(bus, ce, 2);
    let third = lun_drives(bus, ce, 3);
    match (zeroth, first, second, third) {
        (true, false, false, false) => Some(0),
        (false, true, false, false) => Some(1),
        (false, false, true, false) => Some(2),
        (false, false, false, true) => Some(3),
        _ => None,
    }
}

// Whether the item is an output whose byte has this bit.
fn shows_bit(item: &OnfiseqItem, bit: u8) -> bool
    ensures { result ≡ shows_bit item.now bit }
{
    item.kind == b'O' && item.fail == 0 && item.byte & bit == bit
}

// The failures that a status byte tells of a LUN that is ready.
fn ready_fail(caches: bool, look: OnfiseqLook, byte: u8) -> u8
    ensures { IfSome (look_of look) (λ l. result ≡ ready_fail caches l byte) }
{
    let last = if look.programming { 0 } else { byte & 1 };
    let before = if caches { byte & 2 } else { 0 };
    last + before
}

fn ready_item(caches: bool, item: &OnfiseqItem, lun: u8, look: OnfiseqLook) -> OnfiseqItem
    ensures { IfSome (look_of look) (λ l. result ≡ ready_item caches item.now lun l) }
{
    OnfiseqItem {
        ce: item.ce,
        kind: b'R',
        byte: lun,
        fail: ready_fail(caches, look, item.byte),
    }
}

fn array_item(item: &OnfiseqItem, lun: u8, look: OnfiseqLook) -> OnfiseqItem
    ensures { IfSome (look_of look) (λ l. result ≡ array_item item.now lun l) }
{
    OnfiseqItem {
        ce: item.ce,
        kind: b'Y',
        byte: lun,
        fail: if look.programming { item.byte & 1 } else { 0 },
    }
}

// Whether the LUN shows that it is ready.
fn becomes_ready(item: &OnfiseqItem, look: OnfiseqLook) -> bool
    ensures { result ≡ becomes_ready item.now (look_of look) }
{
    look.is_there && look.latch == 1 && look.busy && shows_bit(item, 0x40)
}

// Whether the LUN shows that its array is ready.
fn array_becomes_ready(item: &OnfiseqItem, look: OnfiseqLook) -> bool
    ensures { result ≡ array_becomes_ready item.now (look_of look) }
{
    let works = look.array_busy || (look.busy && (look.caching || look.programming));
    look.is_there && look.latch == 1 && works && shows_bit(item, 0x40) && shows_bit(item, 0x20)
}

// The readies that an item shows of a LUN.
fn readies_of(caches: bool, item: &OnfiseqItem, lun: u8, look: OnfiseqLook) -> Completed
    ensures value { result.items ≡ readies_of caches item.now lun (look_of look) }
    ensures few { length result.items ≤ 2 }
{
    let mut items: Completed = ArrayVec::new();
    if becomes_ready(item, look) {
        items.push(ready_item(caches, item, lun, look));
    }
    if array_becomes_ready(item, look) {
        items.push(array_item(item, lun, look));
    }
    items
}

// The readies that an item shows.
fn readies(bus: &OnfiseqBus, item: &OnfiseqItem) -> Completed
    requires { FitsAt bus.now item.now.ce }
    ensures value { result.items ≡ readies_at (bus_view bus.now) item.now (driving_lun (bus_view bus.now) item.now.ce) }
    ensures few { length result.items ≤ 2 }
{
    match driving_lun(bus, item.ce) {
        None => ArrayVec::new(),
        Some(lun) => {
            let look = look_at_lun(bus, item.ce, lun);
            readies_of(caches_programs(bus), item, lun, look)
        }
    }
}

/// Pushes an item of a bus whose R/B# isn't seen: where it is a status output, of the one LUN that drives the bus, which shows that LUN ready that was busy (bit 6,
/// with bit 0 for work that failed, and bit 1 for the page before), or its array (bit 5 besides), those readies are pushed in front of it. The answer is that of the first that is refused,
/// or 0, and `done` says how many went.
#[unsafe(no_mangle)]
pub extern "C" fn onfiseq_push_status(
    bus: &mut OnfiseqBus,
    item: &OnfiseqItem,
    done: &mut usize,
) -> u32
    ensures went { went result done.new (bus_view bus.new) ≡ (if is_sound_bus bus.old then all_pushed (is_wide (bus_view bus.old).geometry.optional) (bus_view bus.old) (completed (bus_view bus.old) item.now) 0
        else went 0x4400 0 (bus_view bus.old)) }
    ensures sound { IsSound bus.old → IsSound bus.new }
    ensures magic { bus.new.magic ≡ bus.old.magic }
    ensures still { done.new ≡ 0 → bus.new ≡ bus.old }
{
    if !is_sound_bus(bus) {
        *done = 0;
        return DAMAGED;
    }
    let mut items = readies(bus, item);
    items.push(*item);
    push_all(bus, items.as_slice(), done)
}
