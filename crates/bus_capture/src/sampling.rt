//! What is sampled where the levels of a bus change.
ghost use Rattle.std.specs.Prelude.{◌≡◌, ◌+◌, ◌*◌, ◌/◌, ◌%◌, ◌<◌, ◌≤◌, IfOk, None, true, false};
ghost use Rattle.bus_capture.specs.Sampling.{level, with_enable, enabled_from, written_kind, read_kind, kind_of, line_of, other_line, weighed, byte_of, apart, cycle_of, cycle_if, rises, is_lost, lost_if, cycle_taken, seen_if, seen_of, same_level, moved_from, is_moved, is_edge, is_short, glitch_if, steady, falls, is_high, is_low, strobe_rises, array_is_done, ready_of};

use crate::fault::BusFault;
use crate::levels::Levels;
use bus_signals::Role;
use onfi_cycle::{Cycle, Failures, Item, Kind};
use vcd_text::Level;

/// The strobes of a bus: WE#, and RE#.
#[derive(Clone, Copy, Debug, PartialEq, Eq)]
pub enum Strobe {
    Write,
    Read,
}

/// What is seen of a strobe.
#[derive(Clone, Copy, Debug, PartialEq, Eq)]
pub enum Seen {
    Nothing,
    /// It rises, and no chip is enabled.
    Unselected,
    Sampled(Cycle),
}

impl Strobe {
    #[inline(always)]
    pub(crate) fn line(self) -> Role
        ensures { result ≡ line_of self }
    {
        match self {
            Strobe::Write => Role::We,
            Strobe::Read => Role::Re,
        }
    }

    #[inline(always)]
    fn other_line(self) -> Role
        ensures { result ≡ other_line self }
    {
        match self {
            Strobe::Write => Role::Re,
            Strobe::Read => Role::We,
        }
    }
}

// Whether one more chip is enabled, after some.
#[inline(always)]
fn with_enable(level: Level, number: u8, enabled: Option<u8>) -> Result<Option<u8>, BusFault>
    ensures { result ≡ with_enable level number enabled }
{
    match level {
        Level::Unknown => Err(BusFault::UnknownEnable),
        Level::High => Ok(enabled),
        Level::Low => match enabled {
            None => Ok(Some(number)),
            Some(_) => Err(BusFault::SeveralEnabled),
        },
    }
}

// The one chip that is enabled, of so many.
#[tactic(auto, using(crate::proofs::Strobes::enabled_next))]
fn enabled_of(levels: &Levels, targets: u8) -> Result<Option<u8>, BusFault>
    requires few { targets ≤ 4 }
    ensures { result ≡ enabled_from levels.now.of targets 0 None }
{
    let mut enabled = None;
    let mut number = 0;
    'numbers: while number < targets {
        match with_enable(levels.level(Role::Enable(number)), number, enabled) {
            Ok(now) => enabled = now,
            Err(fault) => return Err(fault),
        }
        number += 1;
    }
    Ok(enabled)
}

#[inline(always)]
fn written_kind(cle: Level, ale: Level) -> Result<Kind, BusFault>
    ensures { result ≡ written_kind cle ale }
{
    match (cle, ale) {
        (Level::Unknown, _) | (Level::Low | Level::High, Level::Unknown) => {
            Err(BusFault::UnknownLatch)
        }
        (Level::High, Level::High) => Err(BusFault::BothLatches),
        (Level::High, Level::Low) => Ok(Kind::Cmd),
        (Level::Low, Level::High) => Ok(Kind::Adr),
        (Level::Low, Level::Low) => Ok(Kind::Din),
    }
}

#[inline(always)]
fn read_kind(cle: Level, ale: Level) -> Result<Kind, BusFault>
    ensures { result ≡ read_kind cle ale }
{
    match (cle, ale) {
        (Level::Unknown, _) | (Level::Low | Level::High, Level::Unknown) => {
            Err(BusFault::UnknownLatch)
        }
        (Level::High, Level::High | Level::Low) | (Level::Low, Level::High) => {
            Err(BusFault::LatchAtOutput)
        }
        (Level::Low, Level::Low) => Ok(Kind::Dout),
    }
}

#[inline(always)]
fn kind_of(strobe: Strobe, levels: &Levels) -> Result<Kind, BusFault>
    ensures { result ≡ kind_of strobe levels.now.of }
{
    let cle = levels.level(Role::Cle);
    let ale = levels.level(Role::Ale);
    match strobe {
        Strobe::Write => written_kind(cle, ale),
        Strobe::Read => read_kind(cle, ale),
    }
}

// A bit of DQ, by its weight.
#[inline(always)]
fn weighed(level: Level, weight: u8) -> Result<u8, BusFault>
    ensures value { result ≡ weighed level weight }
    ensures most { IfOk result (λ n. n ≤ weight) }
{
    match level {
        Level::Low => Ok(0),
        Level::High => Ok(weight),
        Level::Unknown => Err(BusFault::UnknownData),
    }
}

#[inline(always)]
fn byte_of(levels: &Levels) -> Result<u8, BusFault>
    ensures { result ≡ byte_of levels.now.of }
{
    let seven = weighed(levels.level(Role::Dq(7)), 128)?;
    let six = weighed(levels.level(Role::Dq(6)), 64)?;
    let five = weighed(levels.level(Role::Dq(5)), 32)?;
    let four = weighed(levels.level(Role::Dq(4)), 16)?;
    let three = weighed(levels.level(Role::Dq(3)), 8)?;
    let two = weighed(levels.level(Role::Dq(2)), 4)?;
    let one = weighed(levels.level(Role::Dq(1)), 2)?;
    let zeroth = weighed(levels.level(Role::Dq(0)), 1)?;
    Ok(seven + six + five + four + three + two + one + zeroth)
}

// The other strobe is high.
#[inline(always)]
fn apart(level: Level) -> Result<bool, BusFault>
    ensures { result ≡ apart level }
{
    match level {
        Level::High => Ok(true),
        Level::Low => Err(BusFault::StrobesTogether),
        Level::Unknown => Err(BusFault::UnknownStrobe),
    }
}

// The cycle of a strobe, by the levels before it rises.
#[inline(always)]
fn cycle_of(strobe: Strobe, ce: u8, levels: &Levels) -> Result<Seen, BusFault>
    ensures { result ≡ cycle_of strobe ce levels.now.of }
{
    let _apart = apart(levels.level(strobe.other_line()))?;
    let kind = kind_of(strobe, levels)?;
    let byte = byte_of(levels)?;
    Ok(Seen::Sampled(Cycle { ce, kind, byte }))
}

#[inline(always)]
fn cycle_if(strobe: Strobe, enabled: Option<u8>, levels: &Levels) -> Result<Seen, BusFault>
    ensures { result ≡ cycle_if strobe enabled levels.now.of }
{
    match enabled {
        None => Ok(Seen::Unselected),
        Some(ce) => cycle_of(strobe, ce, levels),
    }
}

/// The line goes from low to high.
#[inline(always)]
pub(crate) fn rises(before: Level, after: Level) -> bool
    ensures { result ≡ rises before after }
{
    match (before, after) {
        (Level::Low, Level::High) => true,
        (Level::Low, Level::Low | Level::Unknown) | (Level::High | Level::Unknown, _) => false,
    }
}

// It becomes unknown, or was so after somebody had driven it.
#[inline(always)]
fn is_lost(driven: bool, before: Level, after: Level) -> bool
    ensures { result ≡ is_lost driven before after }
{
    match (before, after) {
        (Level::Low, Level::Unknown) => true,
        (Level::Unknown, Level::High) => driven,
        (Level::Low, Level::Low | Level::High)
        | (Level::High, _)
        | (Level::Unknown, Level::Low | Level::Unknown) => false,
    }
}

fn lost_if(enabled: Option<u8>) -> Result<Seen, BusFault>
    ensures { result ≡ lost_if enabled }
{
    match enabled {
        None => Ok(Seen::Nothing),
        Some(_) => Err(BusFault::UnknownStrobe),
    }
}

/// The cycle of a strobe that is taken by these levels, on a bus of so many targets.
#[inline(always)]
pub(crate) fn take_cycle(targets: u8, strobe: Strobe, levels: &Levels) -> Result<Seen, BusFault>
    requires few { targets ≤ 4 }
    ensures { result ≡ cycle_taken targets strobe levels.now.of }
{
    let enabled = enabled_of(levels, targets)?;
    cycle_if(strobe, enabled, levels)
}

/// What is seen of a strobe whose cycle is taken by the levels before, or not, where these become those after, on a bus of so many targets; somebody may have driven
/// it before.
#[inline(always)]
pub(crate) fn seen_if(
    taken: bool,
    targets: u8,
    strobe: Strobe,
    driven: bool,
    before: &Levels,
    after: &Levels,
) -> Result<Seen, BusFault>
    requires few { targets ≤ 4 }
    ensures { result ≡ seen_if taken targets strobe driven before.now.of after.now.of }
{
    if taken {
        return take_cycle(targets, strobe, before);
    }
    if is_lost(
        driven,
        before.level(strobe.line()),
        after.level(strobe.line()),
    ) {
        let enabled = enabled_of(before, targets)?;
        return lost_if(enabled);
    }
    Ok(Seen::Nothing)
}

/// What is seen of a strobe whose cycle is taken as it rises.
#[inline(always)]
pub fn seen_of(
    targets: u8,
    strobe: Strobe,
    driven: bool,
    before: &Levels,
    after: &Levels,
) -> Result<Seen, BusFault>
    requires few { targets ≤ 4 }
    ensures { result ≡ seen_of targets strobe driven before.now.of after.now.of }
{
    let taken = rises(before.level(strobe.line()), after.level(strobe.line()));
    seen_if(taken, targets, strobe, driven, before, after)
}

/// Two levels are the same.
#[inline(always)]
pub(crate) fn same_level(first: Level, second: Level) -> bool
    ensures value { result ≡ same_level first second }
    ensures same { result ≡ true → first ≡ second }
{
    match (first, second) {
        (Level::Low, Level::Low) | (Level::High, Level::High) | (Level::Unknown, Level::Unknown) =>
            true,
        (Level::Low, Level::High | Level::Unknown)
        | (Level::High, Level::Low | Level::Unknown)
        | (Level::Unknown, Level::Low | Level::High) => false,
    }
}

// One of so many lines changes, from this number on.
fn moved_from(before: &Levels, after: &Levels, count: u8, number: u8) -> bool
    requires few { count + number ≤ 68 }
    ensures { result ≡ moved_from before.now.of after.now.of count number }
{
    if count == 0 {
        return false;
    }
    let place = number as usize;
    !same_level(before.level_at(place), after.level_at(place))
        || moved_from(before, after, count - 1, number + 1)
}

/// A line changes that is none of DQ.
pub(crate) fn is_moved(before: &Levels, after: &Levels) -> bool
    ensures { result ≡ is_moved before.now.of after.now.of }
{
    moved_from(before, after, 8, 0) || moved_from(before, after, 52, 16)
}

// The strobe goes from low to high or back.
#[inline(always)]
pub(crate) fn is_edge(before: Level, after: Level) -> bool
    ensures { result ≡ is_edge before after }
{
    match (before, after) {
        (Level::Low, Level::High) | (Level::High, Level::Low) => true,
        (Level::Low, Level::Low | Level::Unknown)
        | (Level::High, Level::High | Level::Unknown)
        | (Level::Unknown, _) => false,
    }
}

// Less time than that of a glitch has gone since the strobe went from low to high or back, if it ever did.
#[inline(always)]
pub(crate) fn is_short(glitch: u64, time: u64, since: Option<u64>) -> bool
    ensures { result ≡ is_short glitch time since }
{
    match since {
        None => false,
        Some(since) => time.saturating_sub(since) < glitch,
    }
}

fn glitch_if(enabled: Option<u8>) -> Result<bool, BusFault>
    ensures { result ≡ glitch_if enabled }
{
    match enabled {
        None => Ok(false),
        Some(_) => Err(BusFault::Glitch),
    }
}

// A strobe doesn't change too early, as far as a chip is enabled.
#[inline(always)]
pub(crate) fn steady(
    targets: u8,
    strobe: Strobe,
    short: bool,
    before: &Levels,
    after: &Levels,
) -> Result<bool, BusFault>
    requires few { targets ≤ 4 }
    ensures { result ≡ steady targets strobe short before.now.of after.now.of }
{
    if short && is_edge(before.level(strobe.line()), after.level(strobe.line())) {
        let enabled = enabled_of(before, targets)?;
        return glitch_if(enabled);
    }
    Ok(false)
}

#[inline(always)]
fn falls(before: Level, after: Level) -> bool
    ensures { result ≡ falls before after }
{
    match (before, after) {
        (Level::High, Level::Low) => true,
        (Level::High, Level::High | Level::Unknown) | (Level::Low | Level::Unknown, _) => false,
    }
}

#[inline(always)]
fn is_high(level: Level) -> bool
    ensures { result ≡ is_high level }
{
    matches!(level, Level::High)
}

#[inline(always)]
fn is_low(level: Level) -> bool
    ensures { result ≡ is_low level }
{
    matches!(level, Level::Low)
}

// A strobe rises.
#[inline(always)]
fn strobe_rises(before: &Levels, after: &Levels) -> bool
    ensures { result ≡ strobe_rises before.now.of after.now.of }
{
    rises(before.level(Role::We), after.level(Role::We))
        || rises(before.level(Role::Re), after.level(Role::Re))
}

// The line of a LUN's array tells that it is done, and no cycle has ended what it did.
#[inline(always)]
fn array_is_done(caches: bool, before: &Levels, after: &Levels, ce: u8, lun: u8) -> bool
    ensures { result ≡ array_is_done caches before.now.of after.now.of ce lun }
{
    (caches || is_low(before.level(Role::Busy { ce, lun })))
        && falls(
            before.level(Role::ArrayBusy { ce, lun }),
            after.level(Role::ArrayBusy { ce, lun }),
        )
        && !strobe_rises(before, after)
}

/// The ready that lines of a model tell of a LUN, whose chip programs caches or not.
#[inline(always)]
pub fn ready_of(caches: bool, before: &Levels, after: &Levels, ce: u8, lun: u8) -> Option<Item>
    ensures { result ≡ ready_of caches before.now.of after.now.of ce lun }
{
    let was_busy = before.level(Role::Busy { ce, lun });
    if falls(was_busy, after.level(Role::Busy { ce, lun })) {
        return Some(Item::Rdy {
            ce,
            lun,
            fail: Failures {
                last: is_high(after.level(Role::Failed { ce, lun })),
                before: false,
            },
        });
    }
    if array_is_done(caches, before, after, ce, lun) {
        let fail = is_high(after.level(Role::Failed { ce, lun }));
        return Some(Item::Ard { ce, lun, fail });
    }
    None
}
