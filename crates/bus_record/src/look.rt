//! A look at a LUN, and whether an item would be permitted: questions that change nothing.
ghost use Rattle.std.specs.Prelude.{◌≡◌, ◌≤◌, ◌<◌, true, Some, None, IfSome, IfNone};
ghost use Rattle.nand_geometry.specs.Limits.{InLimits};
ghost use Rattle.onfi_cycle.specs.Bounds.{TargetFits};
ghost use Rattle.onfi_cycle.specs.Look.{look_at, look_on, looked};
ghost use Rattle.bus_record.specs.Bus.{FitsAt, IsSound, answered_there, bus_view, pushed};
ghost use Rattle.onfi_cycle.specs.Sequence.{target_of as target_of_item};
ghost use Rattle.target_record.specs.Record.{IsTarget};
ghost use Rattle.bus_record.specs.Channel.{is_on};
ghost use Rattle.target_record.specs.Geometry.{parts_of};
ghost use Rattle.bus_record.specs.Look.{look_of};
ghost use Rattle.target_record.specs.Record.{IsRecord, lun_of, target_of};

use crate::bus::{OnfiseqBus, code_of};
use nand_geometry::Geometry;
use onfi_cycle::{Forbidden, Item, Lun, is_cache_read};
use target_record::{
    OnfiseqGeometry, OnfiseqLun, OnfiseqTarget, closer_of, is_programming, is_set, judge_there,
    output_column, queue_len,
};

/// A look at a LUN. `latch`: what it drives the bus with, 0 nothing, 1 its status, 2 data. `register`: what its register holds, 0 nothing, 1 the page of `block`
/// and `page`, 2 the parameter page, 3 the identifier. `column`, where `has_column`: the place that the next output gives. `queued`: the rows of its queue.
/// `programming`: it programs behind a 15h, or its array does.
#[repr(C)]
#[derive(Clone, Copy)]
pub struct OnfiseqLook {
    pub is_there: bool,
    pub latch: u8,
    pub busy: bool,
    pub array_busy: bool,
    pub caching: bool,
    pub register: u8,
    pub has_column: bool,
    pub programming: bool,
    pub block: u32,
    pub page: u64,
    pub column: u64,
    pub queued: usize,
}

// What is told where no LUN is there.
const NO_LOOK: OnfiseqLook = OnfiseqLook {
    is_there: false,
    latch: 0,
    busy: false,
    array_busy: false,
    caching: false,
    register: 0,
    has_column: false,
    programming: false,
    block: 0,
    page: 0,
    column: 0,
    queued: 0,
};

/// What is told where no LUN is there.
pub fn no_look() -> OnfiseqLook
    ensures { look_of result ≡ None }
{
    NO_LOOK
}

// A look at the LUN of a record.
fn look_at(kept: &OnfiseqLun) -> OnfiseqLook
    requires { IsRecord kept.now }
    ensures { look_of result ≡ Some (look_at (lun_of kept.now)) }
{
    let column = output_column(kept);
    OnfiseqLook {
        is_there: true,
        latch: kept.latch,
        busy: is_set(kept.busy),
        array_busy: is_set(kept.array_busy),
        caching: is_cache_read(closer_of(is_set(kept.has_closer), kept.closer)),
        register: kept.register,
        has_column: column.is_some(),
        programming: is_programming(kept),
        block: kept.register_block,
        page: kept.register_page,
        column: column.unwrap_or(0),
        queued: queue_len(kept),
    }
}

// A look at a LUN of a target.
fn look_on(kept: &OnfiseqTarget, lun: u8) -> OnfiseqLook
    requires { IsTarget kept.now }
    ensures { look_of result ≡ look_on (Some (target_of kept.now)) lun }
{
    let lun = usize::from(lun);
    if kept.count <= lun {
        return NO_LOOK;
    }
    look_at(&kept.luns[lun])
}

/// A look at a LUN; `is_there` is false, and all is zero, where no such LUN is there.
pub fn look_at_lun(bus: &OnfiseqBus, ce: u8, lun: u8) -> OnfiseqLook
    requires { FitsAt bus.now ce }
    ensures { look_of result ≡ looked (bus_view bus.now) (record { ce = ce; lun = lun }) }
{
    let ce = usize::from(ce);
    if bus.count <= ce {
        return NO_LOOK;
    }
    look_on(&bus.targets[ce], lun)
}

// What would be answered to an item on its target.
#[inline(always)]
fn ask_target(geometry: &OnfiseqGeometry, targets: u8, kept: &OnfiseqTarget, item: Item) -> u32
    requires limits { InLimits (parts_of geometry.now) }
    requires numbers { IsTarget kept.now }
    requires fits { TargetFits (parts_of geometry.now) (target_of kept.now) }
    ensures { result ≡ answered_there (parts_of geometry.now) targets (target_of kept.now) item }
{
    match judge_there(geometry, targets, kept, item) {
        Some(rule) => code_of(rule),
        None => 0,
    }
}

/// What [`push`](crate::push) would answer to an item; nothing changes.
pub fn ask(bus: &OnfiseqBus, item: Item) -> u32
    requires { FitsAt bus.now (target_of_item item) }
    ensures { result ≡ pushed (bus_view bus.now) (Some item) }
{
    let ce = usize::from(item.target());
    if bus.count <= ce {
        return code_of(Forbidden::NotThere);
    }
    ask_target(&bus.geometry, bus.count as u8, &bus.targets[ce], item)
}

/// The geometry of the targets of a channel; None where none was begun.
pub fn geometry_of(bus: &OnfiseqBus) -> Option<Geometry>
    requires { IsSound bus.now }
    ensures some { IfSome result (λ g. g ≡ (bus_view bus.now).geometry) }
    ensures none { IfNone result (bus.now.count ≡ 0) }
{
    if bus.count == 0 {
        return None;
    }
    Some(Geometry::of(bus.geometry.parts()).unwrap())
}

/// Whether a LUN is there.
pub fn has_lun(bus: &OnfiseqBus, lun: Lun) -> bool
    requires { IsSound bus.now }
    ensures value { result ≡ is_on (bus_view bus.now) lun }
    ensures there { result ≡ true → lun.ce < bus.now.count }
{
    usize::from(lun.ce) < bus.count && lun.lun < bus.geometry.luns
}
