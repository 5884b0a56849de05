//! The levels of R/B# and of the lines of the LUNs, kept from one item to the next, so that each is looked up once.
ghost use Rattle.std.specs.Prelude.{◌≡◌, ℕ, ◌+◌, ◌*◌, ◌<◌, ◌≤◌, List, [], ◌∷◌, ◌++◌, true, length, take};
ghost use Rattle.nand_geometry.specs.declared.parts.Parts.{Parts};
ghost use Rattle.onfi_cycle.specs.declared.item.Item.{Item as ItemValue};
ghost use Rattle.trace_wave.specs.Keeping.{Stands, Keeps};
ghost use Rattle.trace_wave.specs.Levels.{bit, is_busy, has_busy_array, tells_failure, some_busy, readies, target_levels, targets_levels, told_levels, told_lines};
ghost use Rattle.trace_wave.specs.Changes.{change, changes};

use crate::channel::Channel;
use crate::levels::bit;
use crate::model::some_busy;
use crate::room::{ROOM, Room, write_change};

/// How many lines there are at most: R/B# of four targets, and three lines of sixteen LUNs.
pub(crate) const MOST_TOLD: usize = 52;

/// The levels that were told last, with others behind them.
pub type Told = [u8; MOST_TOLD];

// How many lines are told of so many targets of so many LUNs.
fn told_lines(targets: u8, luns: u8) -> usize
    requires { (targets ≤ 4) × (luns ≤ 4) }
    ensures value { result ≡ told_lines targets luns }
    ensures most { result ≤ 52 }
{
    usize::from(targets) + 3 * (usize::from(targets) * usize::from(luns))
}

// Writes the change of a line, if its level isn't the one that is kept, and keeps that.
#[inline(always)]
fn renew_line(room: &mut Room, place: usize, code: u8, kept: &mut u8, level: u8) -> usize
    requires { place + 3 ≤ 1024 }
    ensures value { take result room.new ≡ take place room.old ++ change code kept.old kept.new }
    ensures kept { kept.new ≡ level }
    ensures len { (place ≤ result) × (result ≤ place + 3) }
{
    let before = *kept;
    *kept = level;
    write_change(room, place, code, before, level)
}

// The same of R/B# of so many targets, from number n on.
fn renew_readies(
    room: &mut Room,
    place: usize,
    code: u8,
    kept: &mut [u8],
    channel: &Channel,
    count: u8,
    n: u8,
) -> usize
    requires few { count + n ≤ 4 }
    requires kept { length kept.old ≡ count }
    requires codes { code + count ≤ 200 }
    requires places { place + 3 * count ≤ 1024 }
    ensures value { take result room.new ≡ take place room.old ++ changes code kept.old kept.new }
    ensures kept { (g : Parts) (targets : ℕ) (past : List ItemValue) → Stands g targets past channel.now → count + n ≤ targets
        → kept.new ≡ readies true g past count n }
    ensures len { (place ≤ result) × (result ≤ place + 3 * count) }
{
    if count == 0 {
        return place;
    }
    let (first, rest) = kept.split_at_mut(1);
    let level = bit(!some_busy(channel, n, channel.luns(), 0));
    let place = renew_line(room, place, code, &mut first[0], level);
    renew_readies(room, place, code + 1, rest, channel, count - 1, n + 1)
}

// The same of the three lines of a LUN.
fn renew_lun(
    room: &mut Room,
    place: usize,
    code: u8,
    kept: &mut [u8],
    channel: &Channel,
    ce: u8,
    lun: u8,
) -> usize
    requires kept { length kept.old ≡ 3 }
    requires codes { code ≤ 200 }
    requires places { place + 9 ≤ 1024 }
    ensures value { take result room.new ≡ take place room.old ++ changes code kept.old kept.new }
    ensures kept { (g : Parts) (targets : ℕ) (past : List ItemValue) → Stands g targets past channel.now → ce < targets → lun < g.luns
        → kept.new ≡ bit (is_busy g past ce lun) ∷ bit (has_busy_array g past ce lun) ∷ bit (tells_failure past ce lun) ∷ [] }
    ensures len { (place ≤ result) × (result ≤ place + 9) }
{
    let place = renew_line(
        room,
        place,
        code,
        &mut kept[0],
        bit(channel.is_busy(ce, lun)),
    );
    let array = bit(channel.has_busy_array(ce, lun));
    let place = renew_line(room, place, code + 1, &mut kept[1], array);
    let failure = bit(channel.tells_failure(ce, lun));
    renew_line(room, place, code + 2, &mut kept[2], failure)
}

// The same of so many LUNs of a target, from number n on.
fn renew_target(
    room: &mut Room,
    place: usize,
    code: u8,
    kept: &mut [u8],
    channel: &Channel,
    ce: u8,
    count: u8,
    n: u8,
) -> usize
    requires few { count + n ≤ 4 }
    requires kept { length kept.old ≡ 3 * count }
    requires codes { code + 3 * count ≤ 200 }
    requires places { place + 9 * count ≤ 1024 }
    ensures value { take result room.new ≡ take place room.old ++ changes code kept.old kept.new }
    ensures kept { (g : Parts) (targets : ℕ) (past : List ItemValue) → Stands g targets past channel.now → ce < targets → count + n ≤ g.luns
        → kept.new ≡ target_levels true g past ce count n }
    ensures len { (place ≤ result) × (result ≤ place + 9 * count) }
{
    if count == 0 {
        return place;
    }
    let (lun, rest) = kept.split_at_mut(3);
    let place = renew_lun(room, place, code, lun, channel, ce, n);
    renew_target(room, place, code + 3, rest, channel, ce, count - 1, n + 1)
}

// The same of so many targets of so many LUNs, from number n on.
fn renew_targets(
    room: &mut Room,
    place: usize,
    code: u8,
    kept: &mut [u8],
    channel: &Channel,
    luns: u8,
    count: u8,
    n: u8,
) -> usize
    requires few { (count + n ≤ 4) × (luns ≤ 4) }
    requires kept { length kept.old ≡ 3 * (count * luns) }
    requires codes { code + 3 * (count * luns) ≤ 200 }
    requires places { place + 9 * (count * luns) ≤ 1024 }
    ensures value { take result room.new ≡ take place room.old ++ changes code kept.old kept.new }
    ensures kept { (g : Parts) (targets : ℕ) (past : List ItemValue) → Stands g targets past channel.now → luns ≡ g.luns → count + n ≤ targets
        → kept.new ≡ targets_levels true g past count n }
    ensures len { (place ≤ result) × (result ≤ place + 9 * (count * luns)) }
{
    if count == 0 {
        return place;
    }
    let lines = 3 * luns;
    let (target, rest) = kept.split_at_mut(usize::from(lines));
    let place = renew_target(room, place, code, target, channel, n, luns, 0);
    renew_targets(
        room,
        place,
        code + lines,
        rest,
        channel,
        luns,
        count - 1,
        n + 1,
    )
}

// Writes the changes of all lines that are told of so many targets of so many LUNs, from a code on, by the levels that are kept, and keeps those that
// are told now.
fn renew(
    room: &mut Room,
    place: usize,
    code: u8,
    kept: &mut [u8],
    channel: &Channel,
    targets: u8,
    luns: u8,
) -> usize
    requires few { (targets ≤ 4) × (luns ≤ 4) }
    requires kept { length kept.old ≡ told_lines targets luns }
    requires codes { code ≤ 49 }
    requires places { place + 168 ≤ 1024 }
    ensures value { take result room.new ≡ take place room.old ++ changes code kept.old kept.new }
    ensures kept { (g : Parts) (past : List ItemValue) → Stands g targets past channel.now → luns ≡ g.luns → kept.new ≡ told_levels g targets past }
    ensures len { (place ≤ result) × (result ≤ place + 168) }
{
    let (readies, lines) = kept.split_at_mut(usize::from(targets));
    let place = renew_readies(room, place, code, readies, channel, targets, 0);
    let code = code + targets;
    renew_targets(room, place, code, lines, channel, luns, targets, 0)
}

/// Writes the changes of all lines that are told, by the levels that are kept, and keeps those that are told now.
pub(crate) fn renew_all(room: &mut Room, place: usize, kept: &mut Told, channel: &Channel) -> usize
    requires { place + 168 ≤ 1024 }
    ensures value { (g : Parts) (targets : ℕ) (past before : List ItemValue) → Stands g targets past channel.now → Keeps g targets before kept.old
        → take result room.new ≡ take place room.old ++ changes (45 + targets) (told_levels g targets before) (told_levels g targets past) }
    ensures kept { (g : Parts) (targets : ℕ) (past : List ItemValue) → Stands g targets past channel.now → Keeps g targets past kept.new }
    ensures len { (place ≤ result) × (result ≤ place + 168) }
{
    let targets = channel.targets();
    let luns = channel.luns();
    let count = told_lines(targets, luns);
    renew(
        room,
        place,
        45 + targets,
        &mut kept[..count],
        channel,
        targets,
        luns,
    )
}

/// The levels of a channel to which this past has happened.
pub(crate) fn first_told(channel: &Channel) -> Told
    ensures { (g : Parts) (targets : ℕ) (past : List ItemValue) → Stands g targets past channel.now → Keeps g targets past result }
{
    let mut kept = [0; MOST_TOLD];
    renew_all(&mut [0; ROOM], 0, &mut kept, channel);
    kept
}
