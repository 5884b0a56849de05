//! A whole operation on a target, all of it or none: its parts one after another, as Linux's `nand_op_instr` has them.
ghost use Rattle.std.specs.Prelude.{◌≡◌, ◌≤◌, ◌<◌, ◌+◌, None, Some, length, slice_get, take};
ghost use Rattle.onfi_cycle.specs.Channel.{cycle};
ghost use Rattle.bus_record.specs.Bus.{IsSound, bus_pushed, bus_view};
ghost use Rattle.bus_record.specs.Operation.{IsCycle, IsSpot, after_cycles, after_wait, code_or_none, given_code, judged_cycles, op_code, op_gone, part_after, part_code, parts_after, parts_code, parts_gone, readied, with_count};
ghost use Rattle.bus_record.specs.declared.operation.OnfiseqPart.{OnfiseqPart as PartValue};
ghost use Rattle.bus_record.specs.Trial.{IsTried, tried_view};

use crate::bus::{NO_ITEM, OnfiseqBus, code_of};
use crate::trial::{put_target, target_at, try_inputs, try_item, try_outputs};
use onfi_cycle::{Cycle, Failures, Forbidden, Item, Kind};
use target_record::OnfiseqTarget;

/// A part of an operation. `kind` is a letter: C and A give the first `count` of the bytes as commands or addresses, seven at most; I gives so many bytes to the
/// die and O takes so many from it, whatever they are; W waits until R/B# of the target has risen, so that each of its LUNs is ready.
#[repr(C)]
#[derive(Clone, Copy)]
pub struct OnfiseqPart {
    pub count: u32,
    pub kind: u8,
    pub bytes: [u8; 7],
}

/// What came of parts: 0, or the code of the first that is refused, and how many went before it.
#[derive(Clone, Copy)]
struct Gone {
    code: u32,
    parts: usize,
}

// Goes on by cycles of a kind, up to the first that breaks a rule.
fn try_cycles(
    bus: &OnfiseqBus,
    kept: &mut OnfiseqTarget,
    ce: u8,
    kind: Kind,
    bytes: &[u8],
) -> Option<Forbidden>
    requires { IsTried bus.now ce kept.old }
    ensures rule { result ≡ judged_cycles kind ce bytes.now (tried_view bus.now ce kept.old) }
    ensures state { result ≡ None → tried_view bus.now ce kept.new ≡ after_cycles kind ce bytes.now (tried_view bus.now ce kept.old) }
    ensures tried { IsTried bus.now ce kept.new }
{
    match bytes {
        [] => None,
        [first, rest @ ..] => {
            let byte = *first;
            match try_item(bus, kept, Item::Cyc(Cycle { ce, kind, byte })) {
                Some(rule) => Some(rule),
                None => try_cycles(bus, kept, ce, kind, rest),
            }
        }
    }
}

// Goes on by commands or addresses.
fn try_given(
    bus: &OnfiseqBus,
    kept: &mut OnfiseqTarget,
    ce: u8,
    kind: Kind,
    part: &OnfiseqPart,
) -> u32
    requires { IsTried bus.now ce kept.old }
    ensures code { result ≡ given_code kind ce part.now (tried_view bus.now ce kept.old) }
    ensures state { result ≡ 0 → tried_view bus.now ce kept.new ≡ after_cycles kind ce (take part.now.count part.now.bytes) (tried_view bus.now ce kept.old) }
    ensures tried { IsTried bus.now ce kept.new }
{
    if part.count > 7 {
        return NO_ITEM;
    }
    match try_cycles(bus, kept, ce, kind, &part.bytes[..part.count as usize]) {
        Some(rule) => code_of(rule),
        None => 0,
    }
}

// A LUN becomes ready, if it is there and busy.
fn try_ready(bus: &OnfiseqBus, kept: &mut OnfiseqTarget, ce: u8, lun: u8)
    requires { IsTried bus.now ce kept.old }
    ensures state { tried_view bus.now ce kept.new ≡ readied ce lun (tried_view bus.now ce kept.old) }
    ensures tried { IsTried bus.now ce kept.new }
{
    let fail = Failures::default();
    // A ready that isn't due changes nothing.
    let _ = try_item(bus, kept, Item::Rdy { ce, lun, fail });
}

// R/B# of the target has risen.
fn try_wait(bus: &OnfiseqBus, kept: &mut OnfiseqTarget, ce: u8)
    requires { IsTried bus.now ce kept.old }
    ensures state { tried_view bus.now ce kept.new ≡ after_wait ce (tried_view bus.now ce kept.old) }
    ensures tried { IsTried bus.now ce kept.new }
{
    try_ready(bus, kept, ce, 0);
    try_ready(bus, kept, ce, 1);
    try_ready(bus, kept, ce, 2);
    try_ready(bus, kept, ce, 3);
}

// 0, or the code of a rule.
fn code_or_none(rule: Option<Forbidden>) -> u32
    ensures code { result ≡ code_or_none rule }
    ensures none { result ≡ 0 → rule ≡ None }
{
    match rule {
        Some(rule) => code_of(rule),
        None => 0,
    }
}

// Goes on by a part.
fn try_part(bus: &OnfiseqBus, kept: &mut OnfiseqTarget, ce: u8, part: &OnfiseqPart) -> u32
    requires { IsTried bus.now ce kept.old }
    ensures code { result ≡ part_code ce part.now (tried_view bus.now ce kept.old) }
    ensures state { result ≡ 0 → tried_view bus.now ce kept.new ≡ part_after ce part.now (tried_view bus.now ce kept.old) }
    ensures tried { IsTried bus.now ce kept.new }
{
    match part.kind {
        b'C' => try_given(bus, kept, ce, Kind::Cmd, part),
        b'A' => try_given(bus, kept, ce, Kind::Adr, part),
        b'I' => code_or_none(try_inputs(bus, kept, ce, part.count as usize)),
        b'O' => code_or_none(try_outputs(bus, kept, ce, part.count as usize)),
        b'W' => {
            try_wait(bus, kept, ce);
            0
        }
        _ => NO_ITEM,
    }
}

// Goes on by a part, or stays as it is where that is refused. The copy stands in a frame of its own, and so once on the stack.
#[inline(never)]
fn try_whole(bus: &OnfiseqBus, kept: &mut OnfiseqTarget, ce: u8, part: &OnfiseqPart) -> u32
    requires { IsTried bus.now ce kept.old }
    ensures code { result ≡ part_code ce part.now (tried_view bus.now ce kept.old) }
    ensures state { result ≡ 0 → tried_view bus.now ce kept.new ≡ part_after ce part.now (tried_view bus.now ce kept.old) }
    ensures refused { (result ≡ 0 → ⊥) → kept.new ≡ kept.old }
    ensures tried { IsTried bus.now ce kept.new }
{
    let before = *kept;
    let code = try_part(bus, kept, ce, part);
    if code != 0 {
        *kept = before;
    }
    code
}

// Goes on by parts, up to the first that is refused.
fn try_parts(bus: &OnfiseqBus, kept: &mut OnfiseqTarget, ce: u8, parts: &[OnfiseqPart]) -> Gone
    requires { IsTried bus.now ce kept.old }
    ensures code { result.code ≡ parts_code ce parts.now (tried_view bus.now ce kept.old) }
    ensures gone { result.parts ≡ parts_gone ce parts.now (tried_view bus.now ce kept.old) }
    ensures few { result.parts ≤ length parts.now }
    ensures state { result.code ≡ 0 → tried_view bus.now ce kept.new ≡ parts_after ce parts.now (tried_view bus.now ce kept.old) }
    ensures there { tried_view bus.now ce kept.new ≡ parts_after ce (take result.parts parts.now) (tried_view bus.now ce kept.old) }
    ensures refused { (result.code ≡ 0 → ⊥) → (p : PartValue) → slice_get parts.now result.parts ≡ Some p → part_code ce p (tried_view bus.now ce kept.new) ≡ 0 → ⊥ }
    ensures tried { IsTried bus.now ce kept.new }
{
    match parts {
        [] => Gone { code: 0, parts: 0 },
        [first, rest @ ..] => {
            let code = try_whole(bus, kept, ce, first);
            if code != 0 {
                return Gone { code, parts: 0 };
            }
            let gone = try_parts(bus, kept, ce, rest);
            Gone {
                code: gone.code,
                parts: gone.parts + 1,
            }
        }
    }
}

// What is answered to so many cycles of a part. The copy stands in a frame of its own.
#[inline(never)]
fn ask_part(bus: &OnfiseqBus, kept: &OnfiseqTarget, ce: u8, part: &OnfiseqPart, count: u32) -> u32
    requires { IsTried bus.now ce kept.now }
    ensures { result ≡ part_code ce (with_count part.now count) (tried_view bus.now ce kept.now) }
{
    let mut copy = *kept;
    let shorter = OnfiseqPart {
        count,
        kind: part.kind,
        bytes: part.bytes,
    };
    try_part(bus, &mut copy, ce, &shorter)
}

// How many cycles of a part go, of which so many go, and so many don't.
fn find_between(
    bus: &OnfiseqBus,
    kept: &OnfiseqTarget,
    ce: u8,
    part: &OnfiseqPart,
    low: u32,
    high: u32,
) -> u32
    requires tried { IsTried bus.now ce kept.now }
    requires goes { part_code ce (with_count part.now low) (tried_view bus.now ce kept.now) ≡ 0 }
    requires refused { part_code ce (with_count part.now high) (tried_view bus.now ce kept.now) ≡ 0 → ⊥ }
    requires less { low < high }
    ensures goes { part_code ce (with_count part.now result) (tried_view bus.now ce kept.now) ≡ 0 }
    ensures refused { part_code ce (with_count part.now (result + 1)) (tried_view bus.now ce kept.now) ≡ 0 → ⊥ }
    ensures less { result < high }
{
    if high - low == 1 {
        return low;
    }
    let middle = low + (high - low) / 2;
    if ask_part(bus, kept, ce, part, middle) == 0 {
        find_between(bus, kept, ce, part, middle, high)
    } else {
        find_between(bus, kept, ce, part, low, middle)
    }
}

// How many cycles of a part that is refused go; 0 where it is none.
fn find_cycle(bus: &OnfiseqBus, kept: &OnfiseqTarget, ce: u8, part: &OnfiseqPart) -> u32
    requires tried { IsTried bus.now ce kept.now }
    requires refused { part_code ce part.now (tried_view bus.now ce kept.now) ≡ 0 → ⊥ }
    ensures { part_code ce (with_count part.now 0) (tried_view bus.now ce kept.now) ≡ 0 → IsCycle ce part.now (tried_view bus.now ce kept.now) result }
{
    if ask_part(bus, kept, ce, part, 0) != 0 {
        return 0;
    }
    find_between(bus, kept, ce, part, 0, part.count)
}

/// Where an operation is refused: the number of its part, and of the part's cycle.
#[repr(C)]
#[derive(Clone, Copy)]
pub struct OnfiseqSpot {
    pub part: u64,
    pub cycle: u64,
}

// Where parts are refused that went so far.
fn spot_of(
    bus: &OnfiseqBus,
    kept: &OnfiseqTarget,
    ce: u8,
    parts: &[OnfiseqPart],
    gone: Gone,
) -> OnfiseqSpot
    requires tried { IsTried bus.now ce kept.now }
    requires refused { (gone.code ≡ 0 → ⊥) → (p : PartValue) → slice_get parts.now gone.parts ≡ Some p → part_code ce p (tried_view bus.now ce kept.now) ≡ 0 → ⊥ }
    ensures part { result.part ≡ gone.parts }
    ensures cycle { (gone.code ≡ 0 → ⊥) → (p : PartValue) → slice_get parts.now gone.parts ≡ Some p → part_code ce (with_count p 0) (tried_view bus.now ce kept.now) ≡ 0
        → IsCycle ce p (tried_view bus.now ce kept.now) result.cycle }
{
    let part = gone.parts as u64;
    if gone.code == 0 {
        return OnfiseqSpot { part, cycle: 0 };
    }
    let cycle = match parts.get(gone.parts) {
        None => 0,
        Some(refused) => u64::from(find_cycle(bus, kept, ce, refused)),
    };
    OnfiseqSpot { part, cycle }
}

/// The channel goes on by a whole operation on a target, if each of its cycles is permitted where it comes: 0. Else the answer is the code of the first rule that
/// is broken, or [`NO_ITEM`] where the numbers are no part, and nothing changes. `spot` says how many parts went, and how many cycles of the next. A run
/// of data costs the same for any number of its bytes.
pub fn push_op(bus: &mut OnfiseqBus, ce: u8, parts: &[OnfiseqPart], spot: &mut OnfiseqSpot) -> u32
    requires { IsSound bus.old }
    ensures code { result ≡ op_code ce parts.now (bus_view bus.old) }
    ensures part { spot.new.part ≡ op_gone ce parts.now (bus_view bus.old) }
    ensures spot { (result ≡ 0 → ⊥) → ce < bus.old.count → IsSpot ce parts.now (bus_view bus.old) spot.new.part spot.new.cycle }
    ensures state { result ≡ 0 → bus_view bus.new ≡ parts_after ce parts.now (bus_view bus.old) }
    ensures refused { (result ≡ 0 → ⊥) → bus.new ≡ bus.old }
    ensures magic { bus.new.magic ≡ bus.old.magic }
    ensures sound { IsSound bus.new }
{
    if bus.count <= usize::from(ce) {
        *spot = OnfiseqSpot { part: 0, cycle: 0 };
        return code_of(Forbidden::NotThere);
    }
    let mut kept = target_at(bus, ce);
    let gone = try_parts(bus, &mut kept, ce, parts);
    *spot = spot_of(bus, &kept, ce, parts, gone);
    if gone.code == 0 {
        put_target(bus, ce, &kept);
    }
    gone.code
}

/// What [`push_op`] would answer; nothing changes.
pub fn ask_op(bus: &OnfiseqBus, ce: u8, parts: &[OnfiseqPart], spot: &mut OnfiseqSpot) -> u32
    requires { IsSound bus.now }
    ensures code { result ≡ op_code ce parts.now (bus_view bus.now) }
    ensures part { spot.new.part ≡ op_gone ce parts.now (bus_view bus.now) }
    ensures spot { (result ≡ 0 → ⊥) → ce < bus.now.count → IsSpot ce parts.now (bus_view bus.now) spot.new.part spot.new.cycle }
{
    if bus.count <= usize::from(ce) {
        *spot = OnfiseqSpot { part: 0, cycle: 0 };
        return code_of(Forbidden::NotThere);
    }
    let mut kept = target_at(bus, ce);
    let gone = try_parts(bus, &mut kept, ce, parts);
    *spot = spot_of(bus, &kept, ce, parts, gone);
    gone.code
}
