//! The state of a channel in the caller's memory, and how it goes on item by item.
ghost use Rattle.std.specs.Prelude.{◌≡◌, ℕ, ◌≤◌, [], Some, None, IfSome, true};
ghost use Rattle.nand_geometry.specs.declared.parts.Parts.{Parts};
ghost use Rattle.onfi_cycle.specs.declared.item.Item.{Item as ItemValue};
ghost use Rattle.onfi_cycle.specs.declared.item.Kind.{Kind as KindValue};
ghost use Rattle.onfi_cycle.specs.Channel.{cycle};
ghost use Rattle.onfi_cycle.specs.Command.{command};
ghost use Rattle.onfi_cycle.specs.State.{Follows, bus_after, judged, target_view};
ghost use Rattle.onfi_cycle.specs.Permitted.{judge};
ghost use Rattle.target_record.specs.Geometry.{parts_of};
ghost use Rattle.bus_record.specs.Bus.{CanBegin, FitsAt, IsSound, IsStep, SoundAreTaken, are_sound, begin_code, bus_pushed, bus_view, fault_code, fits_at, is_bus, is_bus_at, is_sound_bus, pushed, rule_code, target_pushed};
ghost use Rattle.onfi_cycle.specs.Sequence.{target_of as target_of_item};
ghost use Rattle.std.specs.List.{All, list_all};
ghost use Rattle.target_record.specs.Whole.{IsWhole, are_numbers, is_whole};
ghost use Rattle.target_record.specs.Record.{IsTarget};
ghost use Rattle.bus_record.specs.Item.{item_of};
ghost use Rattle.bus_record.specs.Channel.{IsSameChannel};
ghost use Rattle.target_record.specs.Record.{target_of};
ghost use Rattle.onfi_cycle.specs.Bounds.{TargetFits};
ghost use Rattle.nand_geometry.specs.Limits.{InLimits};
ghost use Rattle.nand_geometry.specs.Optional.{is_wide, has_program_cache};

use crate::item::OnfiseqItem;
use crate::luns_change::{end_array_work_of, end_work_of};
use crate::target_change::{apply_address, apply_command, apply_input, apply_output};
use nand_geometry::{Geometry, Optional, PageFault};
use onfi_cycle::{Command, Cycle, Failures, Forbidden, Item, Kind, READ_STATUS};
use target_record::{
    NO_TARGET, OnfiseqGeometry, OnfiseqTarget, are_numbers, is_whole, judge_address_of,
    judge_command_of, judge_input_of, judge_output_of, judge_there,
};

// What stands first in a record that a call left: `OBUS`.
const MAGIC: u32 = 0x5355_424f;

/// The answer of a call to which a record was given that no call left.
pub const DAMAGED: u32 = 0x4400;

/// The answer where numbers are no item.
pub const NO_ITEM: u32 = 0x4900;

/// The code of a rule: the letter F, and its number.
#[inline(always)]
pub fn code_of(rule: Forbidden) -> u32
    ensures { result ≡ rule_code rule }
{
    0x4600 + rule.number()
}

/// The state of a channel. The caller keeps it, and may copy it, but only a call of this library changes it.
#[repr(C)]
#[derive(Drop)]
pub struct OnfiseqBus {
    pub magic: u32,
    pub geometry: OnfiseqGeometry,
    /// How many targets it has; 0 where no channel was begun.
    pub count: usize,
    pub targets: [OnfiseqTarget; 4],
}

/// The record of a target to which nothing has happened: its first LUN is selected.
pub(crate) fn fresh_target(luns: u8) -> OnfiseqTarget
    requires { luns ≤ 4 }
    ensures value { (g : Parts) (ce : ℕ) → g.luns ≡ luns → target_of result ≡ target_view g [] ce }
    ensures numbers { IsTarget result }
{
    let mut kept = NO_TARGET;
    kept.count = usize::from(luns);
    kept.luns[0].selected = 1;
    kept
}

/// The record becomes that of a channel of so many targets, to which nothing has happened.
pub fn renew(bus: &mut OnfiseqBus, geometry: &OnfiseqGeometry, targets: u8)
    requires limits { InLimits (parts_of geometry.now) }
    requires few { targets ≤ 4 }
    ensures follows { Follows (parts_of geometry.now) targets (bus_view bus.new) [] }
    ensures count { bus.new.count ≡ targets }
    ensures magic { is_bus bus.new ≡ true }
    ensures sound { IsSound bus.new }
{
    bus.magic = MAGIC;
    bus.geometry = *geometry;
    bus.count = usize::from(targets);
    bus.targets = [fresh_target(geometry.luns); 4];
}

/// The caller's record has another size or version.
pub const OTHER_VERSION: u32 = 0x4401;

// The targets aren't 1 to 4.
const WRONG_TARGETS: u32 = 0x5400;

// The code of a fault of the geometry.
fn fault_code(fault: PageFault) -> u32
    ensures { result ≡ fault_code (Some fault) }
{
    0x5000 + fault.number()
}

// Whether a channel can begin: 0, or the code of what is against it.
fn begin_code(geometry: &OnfiseqGeometry, targets: u8) -> u32
    ensures code { result ≡ begin_code (parts_of geometry.now) targets }
    ensures can { result ≡ 0 → CanBegin (parts_of geometry.now) targets }
{
    if targets < 1 || targets > 4 {
        return WRONG_TARGETS;
    }
    match Geometry::of(geometry.parts()) {
        Err(fault) => fault_code(fault),
        Ok(_) => 0,
    }
}

/// Begins a channel of so many targets of this geometry, to which nothing has happened: 0, and the record is its record. Else the answer is the code of what is
/// against it, and the record stays as it was.
pub fn begin(bus: &mut OnfiseqBus, geometry: &OnfiseqGeometry, targets: u8) -> u32
    ensures code { result ≡ begin_code (parts_of geometry.now) targets }
    ensures begins { result ≡ 0 → Follows (parts_of geometry.now) targets (bus_view bus.new) [] }
    ensures some { result ≡ 0 → 1 ≤ bus.new.count }
    ensures magic { result ≡ 0 → is_bus bus.new ≡ true }
    ensures sound { result ≡ 0 → IsSound bus.new }
    ensures refused { (result ≡ 0 → ⊥) → bus.new ≡ bus.old }
{
    let code = begin_code(geometry, targets);
    if code == 0 {
        renew(bus, geometry, targets);
    }
    code
}

// Whether what stands first in a record is what a call left.
#[inline(always)]
fn is_bus(bus: &OnfiseqBus) -> bool
    ensures { result ≡ is_bus bus.now }
{
    bus.magic == MAGIC
}

// Whether the record of this target is one that a target can have, if the channel has it.
#[inline(always)]
fn fits_at(bus: &OnfiseqBus, ce: u8) -> bool
    ensures value { result ≡ fits_at ce bus.now }
    ensures fits { result ≡ true → FitsAt bus.now ce }
{
    if bus.count > 4 {
        return false;
    }
    let place = usize::from(ce);
    if bus.count <= place {
        return true;
    }
    is_whole(&bus.geometry, &bus.targets[place])
}

/// Whether a record is one that a call left, for a call about this target. Any numbers may be handed in.
#[inline(always)]
pub fn is_bus_at(bus: &OnfiseqBus, ce: u8) -> bool
    ensures value { result ≡ is_bus_at ce bus.now }
    ensures fits { result ≡ true → FitsAt bus.now ce }
{
    is_bus(bus) && fits_at(bus, ce)
}

fn are_numbers_of(targets: &[OnfiseqTarget]) -> bool
    ensures value { result ≡ list_all are_numbers targets.now }
    ensures numbers { result ≡ true → All IsTarget targets.now }
{
    match targets {
        [] => true,
        [first, rest @ ..] => are_numbers(first) && are_numbers_of(rest),
    }
}

fn are_whole(geometry: &OnfiseqGeometry, targets: &[OnfiseqTarget]) -> bool
    ensures value { result ≡ list_all (is_whole geometry.now) targets.now }
    ensures whole { result ≡ true → All (IsWhole geometry.now) targets.now }
{
    match targets {
        [] => true,
        [first, rest @ ..] => is_whole(geometry, first) && are_whole(geometry, rest),
    }
}

/// Whether the record of each target is one that a target can have. Any numbers may be handed in.
pub fn are_sound(bus: &OnfiseqBus) -> bool
    ensures value { result ≡ are_sound bus.now }
    ensures sound { result ≡ true → IsSound bus.now }
{
    if bus.count > 4 {
        return false;
    }
    are_numbers_of(&bus.targets) && are_whole(&bus.geometry, &bus.targets[..bus.count])
}

/// Whether a record is one that a call left, for a call about all its targets. Any numbers may be handed in.
pub fn is_sound_bus(bus: &OnfiseqBus) -> bool
    ensures value { result ≡ is_sound_bus bus.now }
    ensures sound { result ≡ true → IsSound bus.now }
{
    is_bus(bus) && are_sound(bus)
}

/// The record of each channel that permitted items have led there is taken.
pub fn sound_channels_are_taken()
    ensures { SoundAreTaken }
{}

// A target goes on by an output, if that is permitted.
#[inline(always)]
fn step_output(
    geometry: &OnfiseqGeometry,
    targets: u8,
    kept: &mut OnfiseqTarget,
    cycle: Cycle,
) -> Option<Forbidden>
    requires output { cycle.kind ≡ KindValue.Dout }
    requires limits { InLimits (parts_of geometry.now) }
    requires numbers { IsTarget kept.old }
    requires fits { TargetFits (parts_of geometry.now) (target_of kept.old) }
    ensures { IsStep (parts_of geometry.now) targets kept.old kept.new (ItemValue.Cyc cycle) result }
{
    if let Some(rule) = judge_output_of(geometry, targets, kept, cycle) {
        return Some(rule);
    }
    apply_output(geometry, targets, kept, cycle);
    None
}

// A target goes on by an input, if that is permitted.
#[inline(always)]
fn step_input(
    geometry: &OnfiseqGeometry,
    targets: u8,
    kept: &mut OnfiseqTarget,
    cycle: Cycle,
) -> Option<Forbidden>
    requires input { cycle.kind ≡ KindValue.Din }
    requires limits { InLimits (parts_of geometry.now) }
    requires numbers { IsTarget kept.old }
    requires fits { TargetFits (parts_of geometry.now) (target_of kept.old) }
    ensures { IsStep (parts_of geometry.now) targets kept.old kept.new (ItemValue.Cyc cycle) result }
{
    if let Some(rule) = judge_input_of(geometry, targets, kept, cycle) {
        return Some(rule);
    }
    apply_input(geometry, kept, cycle);
    None
}

// A target goes on by a command that is known, if that is permitted.
#[inline(always)]
fn step_named(
    geometry: &OnfiseqGeometry,
    targets: u8,
    kept: &mut OnfiseqTarget,
    cycle: Cycle,
    named: Command,
) -> Option<Forbidden>
    requires command { cycle.kind ≡ KindValue.Cmd }
    requires named { named ≡ command cycle.byte }
    requires limits { InLimits (parts_of geometry.now) }
    requires numbers { IsTarget kept.old }
    requires fits { TargetFits (parts_of geometry.now) (target_of kept.old) }
    ensures { IsStep (parts_of geometry.now) targets kept.old kept.new (ItemValue.Cyc cycle) result }
{
    if let Some(rule) = judge_command_of(geometry, targets, kept, cycle, named) {
        return Some(rule);
    }
    apply_command(geometry, targets, kept, cycle, named);
    None
}

// A target goes on by a command, if that is permitted.
#[inline(never)]
fn step_command(
    geometry: &OnfiseqGeometry,
    targets: u8,
    kept: &mut OnfiseqTarget,
    cycle: Cycle,
) -> Option<Forbidden>
    requires command { cycle.kind ≡ KindValue.Cmd }
    requires limits { InLimits (parts_of geometry.now) }
    requires numbers { IsTarget kept.old }
    requires fits { TargetFits (parts_of geometry.now) (target_of kept.old) }
    ensures { IsStep (parts_of geometry.now) targets kept.old kept.new (ItemValue.Cyc cycle) result }
{
    step_named(geometry, targets, kept, cycle, Command::of(cycle.byte))
}

/// The first rule that 70h breaks on a target.
#[inline(always)]
#[tactic(auto, unfolding(onfi_cycle::specs::Command::command))]
pub(crate) fn judge_read_status(
    geometry: &OnfiseqGeometry,
    targets: u8,
    kept: &OnfiseqTarget,
    ce: u8,
) -> Option<Forbidden>
    requires limits { InLimits (parts_of geometry.now) }
    requires numbers { IsTarget kept.now }
    requires fits { TargetFits (parts_of geometry.now) (target_of kept.now) }
    ensures { result ≡ judge (parts_of geometry.now) targets (target_of kept.now).tail (target_of kept.now).luns (cycle ce KindValue.Cmd 0x70) }
{
    let cycle = Cycle {
        ce,
        kind: Kind::Cmd,
        byte: READ_STATUS,
    };
    judge_command_of(geometry, targets, kept, cycle, Command::ReadStatus)
}

/// A target goes on by 70h, if that is permitted. It comes with each poll, so it has a way of its own.
#[inline(always)]
#[tactic(auto, unfolding(onfi_cycle::specs::Command::command))]
pub(crate) fn step_read_status(
    geometry: &OnfiseqGeometry,
    targets: u8,
    kept: &mut OnfiseqTarget,
    ce: u8,
) -> Option<Forbidden>
    requires limits { InLimits (parts_of geometry.now) }
    requires numbers { IsTarget kept.old }
    requires fits { TargetFits (parts_of geometry.now) (target_of kept.old) }
    ensures { IsStep (parts_of geometry.now) targets kept.old kept.new (cycle ce KindValue.Cmd 0x70) result }
{
    let cycle = Cycle {
        ce,
        kind: Kind::Cmd,
        byte: READ_STATUS,
    };
    step_named(geometry, targets, kept, cycle, Command::ReadStatus)
}

// A target goes on by an address, if that is permitted.
#[inline(never)]
fn step_address(
    geometry: &OnfiseqGeometry,
    targets: u8,
    kept: &mut OnfiseqTarget,
    cycle: Cycle,
) -> Option<Forbidden>
    requires address { cycle.kind ≡ KindValue.Adr }
    requires limits { InLimits (parts_of geometry.now) }
    requires numbers { IsTarget kept.old }
    requires fits { TargetFits (parts_of geometry.now) (target_of kept.old) }
    ensures { IsStep (parts_of geometry.now) targets kept.old kept.new (ItemValue.Cyc cycle) result }
{
    if let Some(rule) = judge_address_of(geometry, targets, kept, cycle) {
        return Some(rule);
    }
    apply_address(geometry, targets, kept, cycle);
    None
}

// A target goes on by a ready, if that is permitted.
#[inline(never)]
fn step_ready(
    geometry: &OnfiseqGeometry,
    targets: u8,
    kept: &mut OnfiseqTarget,
    ce: u8,
    lun: u8,
    fail: Failures,
) -> Option<Forbidden>
    requires limits { InLimits (parts_of geometry.now) }
    requires numbers { IsTarget kept.old }
    requires fits { TargetFits (parts_of geometry.now) (target_of kept.old) }
    ensures { IsStep (parts_of geometry.now) targets kept.old kept.new (ItemValue.Rdy ce lun fail) result }
{
    if let Some(rule) = judge_there(geometry, targets, kept, Item::Rdy { ce, lun, fail }) {
        return Some(rule);
    }
    end_work_of(&mut kept.luns, kept.count, lun, fail);
    None
}

// A target goes on by an array ready, if that is permitted.
#[inline(never)]
fn step_array_ready(
    geometry: &OnfiseqGeometry,
    targets: u8,
    kept: &mut OnfiseqTarget,
    ce: u8,
    lun: u8,
    fail: bool,
) -> Option<Forbidden>
    requires limits { InLimits (parts_of geometry.now) }
    requires numbers { IsTarget kept.old }
    requires fits { TargetFits (parts_of geometry.now) (target_of kept.old) }
    ensures { IsStep (parts_of geometry.now) targets kept.old kept.new (ItemValue.Ard ce lun fail) result }
{
    if let Some(rule) = judge_there(geometry, targets, kept, Item::Ard { ce, lun, fail }) {
        return Some(rule);
    }
    end_array_work_of(&mut kept.luns, kept.count, lun, fail);
    None
}

// A target goes on by an item that is permitted. Else the answer is the first rule that it breaks, and nothing changes.
#[inline(always)]
pub(crate) fn step_target(
    geometry: &OnfiseqGeometry,
    targets: u8,
    kept: &mut OnfiseqTarget,
    item: Item,
) -> Option<Forbidden>
    requires limits { InLimits (parts_of geometry.now) }
    requires numbers { IsTarget kept.old }
    requires fits { TargetFits (parts_of geometry.now) (target_of kept.old) }
    ensures { IsStep (parts_of geometry.now) targets kept.old kept.new (item) result }
{
    match item {
        Item::Cyc(cycle) => match cycle.kind {
            Kind::Dout => step_output(geometry, targets, kept, cycle),
            Kind::Din => step_input(geometry, targets, kept, cycle),
            Kind::Cmd => step_command(geometry, targets, kept, cycle),
            Kind::Adr => step_address(geometry, targets, kept, cycle),
        },
        Item::Rdy { ce, lun, fail } => step_ready(geometry, targets, kept, ce, lun, fail),
        Item::Ard { ce, lun, fail } => step_array_ready(geometry, targets, kept, ce, lun, fail),
    }
}

// As [`push_item`], for each of its callers by itself.
#[inline(always)]
fn push_here(bus: &mut OnfiseqBus, item: Item) -> Option<Forbidden>
    requires { FitsAt bus.old (target_of_item item) }
    ensures rule { result ≡ judged (bus_view bus.old) item }
    ensures state { bus_view bus.new ≡ bus_pushed (bus_view bus.old) (Some item) }
    ensures after { result ≡ None → bus_view bus.new ≡ bus_after item (bus_view bus.old) }
    ensures refused { IfSome result (λ rule. bus.new ≡ bus.old) }
    ensures same { IsSameChannel (bus_view bus.old) (bus_view bus.new) }
    ensures count { bus.new.count ≡ bus.old.count }
    ensures magic { bus.new.magic ≡ bus.old.magic }
    ensures sound { IsSound bus.old → IsSound bus.new }
{
    let ce = usize::from(item.target());
    if bus.count <= ce {
        return Some(Forbidden::NotThere);
    }
    let count = bus.count as u8;
    let rule = step_target(&bus.geometry, count, &mut bus.targets[ce], item);
    rule
}

/// The channel goes on by an item that is permitted. Else the answer is the first rule that it breaks, and nothing changes.
pub fn push_item(bus: &mut OnfiseqBus, item: Item) -> Option<Forbidden>
    requires { FitsAt bus.old (target_of_item item) }
    ensures rule { result ≡ judged (bus_view bus.old) item }
    ensures state { bus_view bus.new ≡ bus_pushed (bus_view bus.old) (Some item) }
    ensures after { result ≡ None → bus_view bus.new ≡ bus_after item (bus_view bus.old) }
    ensures refused { IfSome result (λ rule. bus.new ≡ bus.old) }
    ensures same { IsSameChannel (bus_view bus.old) (bus_view bus.new) }
    ensures count { bus.new.count ≡ bus.old.count }
    ensures magic { bus.new.magic ≡ bus.old.magic }
    ensures sound { IsSound bus.old → IsSound bus.new }
{
    push_here(bus, item)
}

/// The channel goes on by an item: 0 where it is permitted, else the code of the first rule that it breaks, and nothing changes.
pub fn push(bus: &mut OnfiseqBus, item: Item) -> u32
    requires { FitsAt bus.old (target_of_item item) }
    ensures answer { result ≡ pushed (bus_view bus.old) (Some item) }
    ensures state { bus_view bus.new ≡ bus_pushed (bus_view bus.old) (Some item) }
    ensures refused { (result ≡ 0 → ⊥) → bus.new ≡ bus.old }
    ensures count { bus.new.count ≡ bus.old.count }
    ensures magic { bus.new.magic ≡ bus.old.magic }
    ensures sound { IsSound bus.old → IsSound bus.new }
{
    match push_item(bus, item) {
        Some(rule) => code_of(rule),
        None => 0,
    }
}

// The channel goes on by a cycle.
#[inline(always)]
fn push_cycle(bus: &mut OnfiseqBus, ce: u8, kind: Kind, byte: u8) -> u32
    requires { FitsAt bus.old ce }
    ensures answer { result ≡ pushed (bus_view bus.old) (Some (ItemValue.Cyc (record { ce = ce; kind = kind; byte = byte }))) }
    ensures state { bus_view bus.new ≡ bus_pushed (bus_view bus.old) (Some (ItemValue.Cyc (record { ce = ce; kind = kind; byte = byte }))) }
    ensures refused { (result ≡ 0 → ⊥) → bus.new ≡ bus.old }
    ensures count { bus.new.count ≡ bus.old.count }
    ensures magic { bus.new.magic ≡ bus.old.magic }
    ensures sound { IsSound bus.old → IsSound bus.new }
{
    match push_here(bus, Item::Cyc(Cycle { ce, kind, byte })) {
        Some(rule) => code_of(rule),
        None => 0,
    }
}

/// The chips of the channel are of the wider profile.
#[inline(always)]
pub fn is_wide(bus: &OnfiseqBus) -> bool
    ensures { result ≡ is_wide (bus_view bus.now).geometry.optional }
{
    Optional(bus.geometry.optional).is_wide()
}

/// The chips of the channel program caches.
#[inline(always)]
pub fn caches_programs(bus: &OnfiseqBus) -> bool
    ensures { result ≡ has_program_cache (bus_view bus.now).geometry.optional }
{
    Optional(bus.geometry.optional).has_program_cache()
}

/// The channel goes on by the item that numbers stand for in the wider profile or the base one, as [`push`] does; [`NO_ITEM`] where they are none.
#[inline(always)]
pub fn push_numbers(bus: &mut OnfiseqBus, item: &OnfiseqItem, wide: bool) -> u32
    requires { FitsAt bus.old item.now.ce }
    ensures answer { result ≡ pushed (bus_view bus.old) (item_of wide item.now) }
    ensures state { bus_view bus.new ≡ bus_pushed (bus_view bus.old) (item_of wide item.now) }
    ensures refused { (result ≡ 0 → ⊥) → bus.new ≡ bus.old }
    ensures count { bus.new.count ≡ bus.old.count }
    ensures magic { bus.new.magic ≡ bus.old.magic }
    ensures sound { IsSound bus.old → IsSound bus.new }
{
    match item.kind {
        b'O' if item.fail == 0 => push_cycle(bus, item.ce, Kind::Dout, item.byte),
        b'I' if item.fail == 0 => push_cycle(bus, item.ce, Kind::Din, item.byte),
        b'C' if item.fail == 0 => push_cycle(bus, item.ce, Kind::Cmd, item.byte),
        b'A' if item.fail == 0 => push_cycle(bus, item.ce, Kind::Adr, item.byte),
        _ => match item.item(wide) {
            Some(item) => push(bus, item),
            None => NO_ITEM,
        },
    }
}
