//! What is told of the model: R/B#, busy, array and fail of the LUNs, and the rule.
ghost use Rattle.std.specs.Prelude.{◌≡◌, ℕ, ◌+◌, ◌*◌, ◌<◌, ◌≤◌, List, ◌∷◌, [], ◌++◌, None, length, take};
ghost use Rattle.nand_geometry.specs.declared.parts.Parts.{Parts};
ghost use Rattle.onfi_cycle.specs.declared.item.Item.{Item as ItemValue};
ghost use Rattle.onfi_cycle.specs.State.{judged};
ghost use Rattle.trace_wave.specs.Keeping.{Stands, Keeps};
ghost use Rattle.trace_wave.specs.Levels.{is_busy, has_busy_array, tells_failure, some_busy, readies, target_levels, targets_levels, model_levels, shown};
ghost use Rattle.trace_wave.specs.Changes.{changes};
ghost use Rattle.trace_wave.specs.Wave.{rule_number, rule_next, past_next};

use crate::channel::Channel;
use crate::levels::{rule_bits, shown};
use crate::room::{Room, write_changes};
use crate::told::{Told, renew_all};
use arrayvec::ArrayVec;
use onfi_cycle::{Forbidden, Item};

/// How many lines tell of the model at most: R/B# of four targets, three lines of sixteen LUNs, and five bits of a rule.
pub(crate) const MOST_LINES: usize = 57;

// The number in the code of a rule.
fn rule_number(rule: Forbidden) -> u8
    ensures value { result ≡ rule_number rule }
    ensures some { 1 ≤ result }
{
    match rule {
        Forbidden::NotThere => 1,
        Forbidden::CommandUnknown => 2,
        Forbidden::SequenceOpen => 3,
        Forbidden::SeveralLuns => 4,
        Forbidden::NoColumnToChange => 5,
        Forbidden::CommandMisplaced => 6,
        Forbidden::AddressMisplaced => 7,
        Forbidden::RowOutside => 8,
        Forbidden::LunBusy => 9,
        Forbidden::QueueClash => 10,
        Forbidden::InputMisplaced => 11,
        Forbidden::NoSoleDriver => 12,
        Forbidden::DataNotReady => 13,
        Forbidden::ColumnOutside => 14,
        Forbidden::CacheReadMisplaced => 15,
        Forbidden::CacheProgramMisplaced => 16,
        Forbidden::CopybackMisplaced => 17,
        Forbidden::PlaneNotHeld => 18,
    }
}

/// Some LUN of a target is busy, of so many from number n on.
pub(crate) fn some_busy(channel: &Channel, ce: u8, count: u8, n: u8) -> bool
    requires { (ce < 4) × (count + n ≤ 4) }
    ensures { (g : Parts) (targets : ℕ) (past : List ItemValue) → Stands g targets past channel.now → ce < targets → count + n ≤ g.luns
        → result ≡ some_busy g past ce count n }
{
    if count == 0 {
        return false;
    }
    channel.is_busy(ce, n) || some_busy(channel, ce, count - 1, n + 1)
}

// Adds R/B# of so many targets, from number n on.
fn push_readies(
    levels: &mut ArrayVec<u8, MOST_LINES>,
    channel: &Channel,
    known: bool,
    count: u8,
    n: u8,
)
    requires few { count + n ≤ 4 }
    requires places { length levels.old.items + count ≤ 57 }
    ensures value { (g : Parts) (targets : ℕ) (past : List ItemValue) → Stands g targets past channel.now → count + n ≤ targets
        → levels.new.items ≡ levels.old.items ++ readies known g past count n }
    ensures len { length levels.new.items ≡ length levels.old.items + count }
{
    if count == 0 {
        return;
    }
    levels.push(shown(known, !some_busy(channel, n, channel.luns(), 0)));
    push_readies(levels, channel, known, count - 1, n + 1);
}

// Adds the three lines of a LUN.
fn push_lun(levels: &mut ArrayVec<u8, MOST_LINES>, channel: &Channel, known: bool, ce: u8, lun: u8)
    requires places { length levels.old.items + 3 ≤ 57 }
    ensures value { (g : Parts) (targets : ℕ) (past : List ItemValue) → Stands g targets past channel.now → ce < targets → lun < g.luns
        → levels.new.items ≡ levels.old.items ++ (shown known (is_busy g past ce lun) ∷ shown known (has_busy_array g past ce lun) ∷ shown known (tells_failure past ce lun) ∷ []) }
    ensures len { length levels.new.items ≡ length levels.old.items + 3 }
{
    levels.push(shown(known, channel.is_busy(ce, lun)));
    levels.push(shown(known, channel.has_busy_array(ce, lun)));
    levels.push(shown(known, channel.tells_failure(ce, lun)));
}

// Adds those of so many LUNs of a target, from number n on.
fn push_target(
    levels: &mut ArrayVec<u8, MOST_LINES>,
    channel: &Channel,
    known: bool,
    ce: u8,
    count: u8,
    n: u8,
)
    requires few { count + n ≤ 4 }
    requires places { length levels.old.items + 3 * count ≤ 57 }
    ensures value { (g : Parts) (targets : ℕ) (past : List ItemValue) → Stands g targets past channel.now → ce < targets → count + n ≤ g.luns
        → levels.new.items ≡ levels.old.items ++ target_levels known g past ce count n }
    ensures len { length levels.new.items ≡ length levels.old.items + 3 * count }
{
    if count == 0 {
        return;
    }
    push_lun(levels, channel, known, ce, n);
    push_target(levels, channel, known, ce, count - 1, n + 1);
}

// Adds those of so many targets, from number n on.
fn push_targets(
    levels: &mut ArrayVec<u8, MOST_LINES>,
    channel: &Channel,
    known: bool,
    count: u8,
    n: u8,
)
    requires few { count + n ≤ 4 }
    requires places { length levels.old.items + 12 * count ≤ 57 }
    ensures value { (g : Parts) (targets : ℕ) (past : List ItemValue) → Stands g targets past channel.now → count + n ≤ targets
        → levels.new.items ≡ levels.old.items ++ targets_levels known g past count n }
    ensures len { length levels.new.items ≤ length levels.old.items + 12 * count }
{
    if count == 0 {
        return;
    }
    push_target(levels, channel, known, n, channel.luns(), 0);
    push_targets(levels, channel, known, count - 1, n + 1);
}

/// The levels of all lines of the model; known while no rule is broken.
pub(crate) fn model_levels(channel: &Channel, rule: u8) -> ArrayVec<u8, MOST_LINES>
    ensures value { (g : Parts) (targets : ℕ) (past : List ItemValue) → Stands g targets past channel.now
        → result.items ≡ model_levels g targets past rule }
    ensures len { length result.items ≤ 57 }
{
    let mut levels = ArrayVec::new();
    push_readies(&mut levels, channel, rule == 0, channel.targets(), 0);
    push_targets(&mut levels, channel, rule == 0, channel.targets(), 0);
    let _ = levels.try_extend_from_slice(&rule_bits(rule));
    levels
}

// Writes what an item that breaks no rule changes, line by line, and goes on by it.
#[inline(never)]
fn write_new_levels(
    room: &mut Room,
    place: usize,
    channel: &mut Channel,
    kept: &mut Told,
    item: Item,
) -> usize
    requires permitted { judged channel.old.state item ≡ None }
    requires places { place + 171 ≤ 1024 }
    ensures value { (g : Parts) (targets : ℕ) (past : List ItemValue) → Stands g targets past channel.old → Keeps g targets past kept.old
        → take result room.new ≡ take place room.old ++ changes (45 + targets) (model_levels g targets past 0) (model_levels g targets (item ∷ past) 0) }
    ensures stands { (g : Parts) (targets : ℕ) (past : List ItemValue) → Stands g targets past channel.old → Stands g targets (item ∷ past) channel.new }
    ensures kept { (g : Parts) (targets : ℕ) (past : List ItemValue) → Stands g targets past channel.old → Keeps g targets (item ∷ past) kept.new }
    ensures len { (place ≤ result) × (result ≤ place + 171) }
{
    channel.go_on(item);
    renew_all(room, place, kept, channel)
}

// Writes what an item that breaks no rule changes, and goes on by it.
#[inline(always)]
fn write_effect(
    room: &mut Room,
    place: usize,
    channel: &mut Channel,
    kept: &mut Told,
    item: Item,
) -> usize
    requires permitted { judged channel.old.state item ≡ None }
    requires places { place + 171 ≤ 1024 }
    ensures value { (g : Parts) (targets : ℕ) (past : List ItemValue) → Stands g targets past channel.old → Keeps g targets past kept.old
        → take result room.new ≡ take place room.old ++ changes (45 + targets) (model_levels g targets past 0) (model_levels g targets (item ∷ past) 0) }
    ensures stands { (g : Parts) (targets : ℕ) (past : List ItemValue) → Stands g targets past channel.old → Stands g targets (item ∷ past) channel.new }
    ensures kept { (g : Parts) (targets : ℕ) (past : List ItemValue) → Stands g targets past channel.old → Keeps g targets past kept.old → Keeps g targets (item ∷ past) kept.new }
    ensures len { (place ≤ result) × (result ≤ place + 171) }
{
    if !channel.keeps_levels(item) {
        return write_new_levels(room, place, channel, kept, item);
    }
    channel.go_on(item);
    place
}

// Writes that a rule of this number is broken.
#[inline(never)]
fn write_broken(room: &mut Room, place: usize, channel: &Channel, number: u8) -> usize
    requires places { place + 171 ≤ 1024 }
    ensures value { (g : Parts) (targets : ℕ) (past : List ItemValue) → Stands g targets past channel.now
        → take result room.new ≡ take place room.old ++ changes (45 + targets) (model_levels g targets past 0) (model_levels g targets past number) }
    ensures len { (place ≤ result) × (result ≤ place + 171) }
{
    let before = model_levels(channel, 0);
    let after = model_levels(channel, number);
    write_changes(room, place, 45 + channel.targets(), &before, &after)
}

/// Writes what an item changes after a legal past and this rule, and goes on by it. After a first broken rule nothing is judged any more.
#[inline(always)]
pub(crate) fn write_model(
    room: &mut Room,
    place: usize,
    channel: &mut Channel,
    kept: &mut Told,
    rule: &mut u8,
    item: Item,
) -> usize
    requires places { place + 171 ≤ 1024 }
    ensures value { (g : Parts) (targets : ℕ) (past : List ItemValue) → Stands g targets past channel.old → Keeps g targets past kept.old
        → take result room.new ≡ take place room.old ++ changes (45 + targets) (model_levels g targets past rule.old) (model_levels g targets (past_next past rule.new item) rule.new) }
    ensures rule { (g : Parts) (targets : ℕ) (past : List ItemValue) → Stands g targets past channel.old → rule.new ≡ rule_next g targets past rule.old item }
    ensures stands { (g : Parts) (targets : ℕ) (past : List ItemValue) → Stands g targets past channel.old
        → Stands g targets (past_next past rule.new item) channel.new }
    ensures kept { (g : Parts) (targets : ℕ) (past : List ItemValue) → Stands g targets past channel.old → Keeps g targets past kept.old
        → Keeps g targets (past_next past rule.new item) kept.new }
    ensures len { (place ≤ result) × (result ≤ place + 171) }
{
    if *rule != 0 {
        return place;
    }
    match channel.judge(item) {
        None => write_effect(room, place, channel, kept, item),
        Some(broken) => {
            *rule = rule_number(broken);
            write_broken(room, place, channel, *rule)
        }
    }
}
