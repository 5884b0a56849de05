//! Readies that a recording denies.
ghost use Rattle.std.specs.Prelude.{◌≡◌, false, get_or, slice_set};
ghost use Rattle.onfi_cycle.specs.Look.{looked};
ghost use Rattle.trace_faults.specs.Denied.{drives, lun_drives, driving_lun, place_of, says_busy, busy_at, none_shown, reset_shown, busy_by, shown_busy_after, works_unseen, is_silent, silenced, is_address, after_addresses, asks_by, asks_after, waits_after, is_output, tells_by, tells_from, tells_readies, told_in, is_denied};

use crate::outside::is_status;
use crate::trace_state::TraceState;
use nand_geometry::Geometry;
use onfi_cycle::{
    BusState, Command, Cycle, Item, Kind, Lun, LunState, Status, TargetCycle, is_shared,
    is_undeclared,
};

// Whether the LUN of this number drives the bus when its target is read.
fn lun_drives(bus: &BusState, ce: u8, number: u8) -> bool
    ensures { result ≡ lun_drives bus.now ce number }
{
    match bus.lun_state(Lun { ce, lun: number }) {
        None => false,
        Some(lun) => !lun.latch.is_off(),
    }
}

/// The number of the one LUN of a target that drives the bus.
pub(crate) fn find_driver(bus: &BusState, ce: u8) -> Option<u8>
    ensures { result ≡ driving_lun bus.now ce }
{
    let zeroth = lun_drives(bus, ce, 0);
    let first = lun_drives(bus, ce, 1);
    let second = lun_drives(bus, ce, 2);
    let third = lun_drives(bus, ce, 3);
    match (zeroth, first, second, third) {
        (true, false, false, false) => Some(0),
        (false, true, false, false) => Some(1),
        (false, false, true, false) => Some(2),
        (false, false, false, true) => Some(3),
        _ => None,
    }
}

// The place of a LUN among the 16 of a channel.
fn place_of(ce: u8, lun: u8) -> usize
    ensures { result ≡ place_of ce lun }
{
    4 * usize::from(ce) + usize::from(lun)
}

// Whether a LUN works, and shows a status without RDY.
fn says_busy(lun: Option<LunState>, byte: u8) -> bool
    ensures { result ≡ says_busy lun byte }
{
    match lun {
        None => false,
        Some(lun) => is_status(lun.latch) && lun.busy && !Status(byte).is_ready(),
    }
}

// Writes down at the place of a LUN whether its status says that it works.
fn note(shown: &mut [bool; 16], place: usize, busy: bool)
    ensures { shown.new ≡ slice_set shown.old place busy }
{
    if place < 16 {
        shown[place] = busy;
    }
}

// Goes on by an output of a target.
fn note_output(shown: &mut [bool; 16], bus: &BusState, ce: u8, byte: u8)
    ensures { shown.new ≡ busy_at bus.now ce (driving_lun bus.now ce) byte shown.old }
{
    if let Some(number) = find_driver(bus, ce) {
        if says_busy(bus.lun_state(Lun { ce, lun: number }), byte) {
            note(shown, place_of(ce, number), true);
        }
    }
}

// Goes on by a reset of several LUNs.
fn note_resets(shown: &mut [bool; 16], ce: u8)
    ensures { shown.new ≡ none_shown ce shown.old }
{
    note(shown, place_of(ce, 0), false);
    note(shown, place_of(ce, 1), false);
    note(shown, place_of(ce, 2), false);
    note(shown, place_of(ce, 3), false);
}

// Goes on by a reset of a target.
fn note_reset(shown: &mut [bool; 16], geometry: &Geometry, ce: u8)
    ensures { shown.new ≡ reset_shown geometry.now ce shown.old }
{
    if is_shared(geometry) {
        note_resets(shown, ce);
    } else {
        note(shown, place_of(ce, 0), false);
    }
}

// Goes on by a cycle.
fn note_cycle(shown: &mut [bool; 16], bus: &BusState, cycle: Cycle)
    ensures { shown.new ≡ shown_busy_after bus.now (Item.Cyc cycle) shown.old }
{
    match TargetCycle::of(cycle.kind, cycle.byte) {
        TargetCycle::CommandCycle(Command::Reset) => note_reset(shown, &bus.geometry(), cycle.ce),
        TargetCycle::CommandCycle(Command::SynchronousReset) => {
            if !is_undeclared(&bus.geometry(), Command::SynchronousReset) {
                note_reset(shown, &bus.geometry(), cycle.ce);
            }
        }
        TargetCycle::OutputCycle => note_output(shown, bus, cycle.ce, cycle.byte),
        TargetCycle::CommandCycle(_) | TargetCycle::AddressCycle(_) | TargetCycle::InputCycle(_) =>
            {}
    }
}

/// Goes on by an item on this channel: of which LUNs the last status since they began their work says that they work. [`note_addresses`] sees to the LUN that
/// a Reset LUN resets.
pub(crate) fn note_busy(shown: &mut [bool; 16], bus: &BusState, item: Item)
    ensures { shown.new ≡ shown_busy_after bus.now item shown.old }
{
    match item {
        Item::Cyc(cycle) => note_cycle(shown, bus, cycle),
        Item::Rdy { ce, lun, .. } => note(shown, place_of(ce, lun), false),
        Item::Ard { .. } => {}
    }
}

// Whether a LUN works, and shows nothing.
fn works_unseen(lun: Option<LunState>) -> bool
    ensures { result ≡ works_unseen lun }
{
    match lun {
        None => false,
        Some(lun) => lun.busy && lun.latch.is_off(),
    }
}

// Whether a LUN works, is the selected one of its target, and shows nothing: its work began anew, and no status of it was shown since.
fn is_silent(bus: &BusState, lun: Lun) -> bool
    ensures { result ≡ is_silent bus.now lun }
{
    works_unseen(bus.lun_state(lun)) && bus.is_selected(lun)
}

// Clears what was shown of a LUN whose work began anew.
fn note_silent(shown: &mut [bool; 16], bus: &BusState, ce: u8, number: u8)
    ensures { shown.new ≡ silenced bus.now ce number shown.old }
{
    if is_silent(bus, Lun { ce, lun: number }) {
        note(shown, place_of(ce, number), false);
    }
}

fn is_address(kind: Kind) -> bool
    ensures { result ≡ is_address kind }
{
    kind == Kind::Adr
}

/// Goes on by an item that has left this channel: the last address of a Reset LUN begins the work of its LUN anew.
pub(crate) fn note_addresses(shown: &mut [bool; 16], bus: &BusState, item: Item)
    ensures { shown.new ≡ after_addresses bus.now item shown.old }
{
    let Item::Cyc(cycle) = item else {
        return;
    };
    if is_address(cycle.kind) {
        note_silent(shown, bus, cycle.ce, 0);
        note_silent(shown, bus, cycle.ce, 1);
        note_silent(shown, bus, cycle.ce, 2);
        note_silent(shown, bus, cycle.ce, 3);
    }
}

// Whether the last command of a target asks for a status.
fn asks_by(kind: Kind, byte: u8, asks: bool) -> bool
    ensures { result ≡ asks_by kind byte asks }
{
    match kind {
        Kind::Cmd => byte == 0x70 || byte == 0x78,
        Kind::Adr | Kind::Din | Kind::Dout => asks,
    }
}

fn asks_after(ce: u8, asks: bool, item: Item) -> bool
    ensures { result ≡ asks_after ce asks item }
{
    match item {
        Item::Cyc(cycle) if cycle.ce == ce => asks_by(cycle.kind, cycle.byte, asks),
        Item::Cyc(_) | Item::Rdy { .. } | Item::Ard { .. } => asks,
    }
}

// Whether a ready of the target is written, and no cycle of it stands behind that yet.
fn waits_after(ce: u8, waits: bool, item: Item) -> bool
    ensures { result ≡ waits_after ce waits item }
{
    match item {
        Item::Cyc(cycle) => waits && cycle.ce != ce,
        Item::Rdy { ce: other, .. } => waits || other == ce,
        Item::Ard { .. } => waits,
    }
}

fn is_output(kind: Kind) -> bool
    ensures { result ≡ is_output kind }
{
    match kind {
        Kind::Cmd | Kind::Adr | Kind::Din => false,
        Kind::Dout => true,
    }
}

// Whether the first cycle behind a ready shows that a line of the bus tells it, and no status.
fn tells_by(ce: u8, asks: bool, waits: bool, item: Item) -> bool
    ensures { result ≡ tells_by ce asks waits item }
{
    match item {
        Item::Cyc(cycle) => waits && (cycle.ce == ce && !(asks && is_output(cycle.kind))),
        Item::Rdy { .. } | Item::Ard { .. } => false,
    }
}

// Whether items tell when a LUN of this target becomes ready.
fn tells_readies(ce: u8, items: &[Item]) -> bool
    ensures { result ≡ tells_readies ce items.now }
{
    let mut asks = false;
    let mut waits = false;
    for item in items {
        if tells_by(ce, asks, waits, *item) {
            return true;
        }
        asks = asks_after(ce, asks, *item);
        waits = waits_after(ce, waits, *item);
    }
    waits
}

/// The targets whose readies items tell.
pub(crate) fn told_in(items: &[Item]) -> [bool; 4]
    ensures { result ≡ told_in items.now }
{
    [
        tells_readies(0, items),
        tells_readies(1, items),
        tells_readies(2, items),
        tells_readies(3, items),
    ]
}

// What stands at a place; false where nothing does.
fn is_set(flags: &[bool], place: usize) -> bool
    ensures { result ≡ get_or flags.now place false }
{
    match flags.get(place) {
        Some(flag) => *flag,
        None => false,
    }
}

/// Whether a LUN can't be taken for ready.
pub(crate) fn is_denied(state: &TraceState, ce: u8, lun: u8) -> bool
    ensures { result ≡ is_denied state.now ce lun }
{
    is_set(&state.told, usize::from(ce)) || is_set(&state.shown_busy, place_of(ce, lun))
}
