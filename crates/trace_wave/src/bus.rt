//! What changes on the lines of the bus.
ghost use Rattle.std.specs.Prelude.{◌≡◌, ◌+◌, ◌*◌, ◌^◌, ◌<◌, ◌≤◌, [], ◌∷◌, ◌++◌, length, take, IsTrue, Some, if◌then◌else◌};
ghost use Rattle.trace_wave.specs.Levels.{bit, bit_of, enables, dq_bit, dq_bits, bus_levels};
ghost use Rattle.trace_wave.specs.Changes.{change, changes, time_line, at_time};
ghost use Rattle.trace_wave.specs.Keeping.{AreHigh};
ghost use Rattle.trace_wave.specs.Wave.{strobe_code};
ghost use Rattle.bus_lines.specs.Lines.{is_cmd, is_adr, is_output, set_up, struck};

use crate::item_count::ItemCount;
use crate::levels::{bit, dq_bits, is_at};
use crate::room::{Room, write_change, write_level};
use arrayvec::ArrayVec;
use bus_lines::Lines;
use onfi_cycle::{Cycle, Kind};

/// How many lines the bus has at most: four chip enables, four lines that control it and DQ.
pub(crate) const MOST_LINES: usize = 16;

// Adds the levels of so many chip enables, from number n on.
fn put_enables(levels: &mut ArrayVec<u8, MOST_LINES>, enabled: Option<u8>, count: u8, n: u8)
    requires few { count + n ≤ 4 }
    requires places { length levels.old.items + count ≤ 16 }
    ensures value { levels.new.items ≡ levels.old.items ++ enables enabled count n }
    ensures len { length levels.new.items ≡ length levels.old.items + count }
{
    if count == 0 {
        return;
    }
    levels.push(bit(!is_at(enabled, n)));
    put_enables(levels, enabled, count - 1, n + 1);
}

// Adds those of CLE, ALE, WE# and RE#.
fn put_controls(levels: &mut ArrayVec<u8, MOST_LINES>, lines: Lines)
    requires places { length levels.old.items + 4 ≤ 16 }
    ensures value { levels.new.items ≡ levels.old.items ++ bit lines.cle ∷ bit lines.ale ∷ bit lines.we ∷ bit lines.re ∷ [] }
    ensures len { length levels.new.items ≡ length levels.old.items + 4 }
{
    levels.push(bit(lines.cle));
    levels.push(bit(lines.ale));
    levels.push(bit(lines.we));
    levels.push(bit(lines.re));
}

/// The levels of all lines of the bus of so many targets.
pub(crate) fn bus_levels(targets: u8, lines: Lines) -> ArrayVec<u8, MOST_LINES>
    requires { targets ≤ 4 }
    ensures value { result.items ≡ bus_levels targets lines }
    ensures len { length result.items ≡ targets + 12 }
{
    let mut levels = ArrayVec::new();
    put_enables(&mut levels, lines.enabled, targets, 0);
    put_controls(&mut levels, lines);
    let _ = levels.try_extend_from_slice(&dq_bits(lines.dq));
    levels
}

// Both are the same.
#[inline(always)]
fn is_same(before: Option<u8>, after: Option<u8>) -> bool
    ensures { IsTrue result → before ≡ after }
{
    before == after
}

// The cycle is a command.
#[inline(always)]
fn is_cmd(kind: Kind) -> bool
    ensures { result ≡ is_cmd kind }
{
    matches!(kind, Kind::Cmd)
}

// The cycle is an address.
#[inline(always)]
fn is_adr(kind: Kind) -> bool
    ensures { result ≡ is_adr kind }
{
    matches!(kind, Kind::Adr)
}

// The die drives the bus in this cycle.
#[inline(always)]
fn is_output(cycle: Cycle) -> bool
    ensures { result ≡ is_output cycle }
{
    matches!(cycle.kind, Kind::Dout)
}

// The code of the strobe of a cycle on a bus of so many targets.
#[inline(always)]
fn strobe_code(targets: u8, cycle: Cycle) -> u8
    requires { targets ≤ 4 }
    ensures { result ≡ strobe_code targets cycle }
{
    if is_output(cycle) {
        36 + targets
    } else {
        35 + targets
    }
}

// Writes the change of a line.
#[inline(always)]
fn write_line(room: &mut Room, place: usize, code: u8, before: bool, after: bool) -> usize
    requires { place + 3 ≤ 1024 }
    ensures value { take result room.new ≡ take place room.old ++ change code (bit before) (bit after) }
    ensures len { (place ≤ result) × (result ≤ place + 3) }
{
    if before == after {
        return place;
    }
    write_level(room, place, code, bit(after))
}

// Writes the changes of so many chip enables, from number n on.
fn write_enables(
    room: &mut Room,
    place: usize,
    before: Option<u8>,
    after: Option<u8>,
    count: u8,
    n: u8,
) -> usize
    requires few { count + n ≤ 4 }
    requires places { place + 3 * count ≤ 1024 }
    ensures value { take result room.new ≡ take place room.old ++ changes (33 + n) (enables before count n) (enables after count n) }
    ensures len { (place ≤ result) × (result ≤ place + 3 * count) }
{
    if count == 0 {
        return place;
    }
    let place = write_line(room, place, 33 + n, !is_at(before, n), !is_at(after, n));
    write_enables(room, place, before, after, count - 1, n + 1)
}

/// Writes the changes of the chip enables of so many targets, where another one is low.
#[inline(always)]
pub(crate) fn write_enables_if_changed(
    room: &mut Room,
    place: usize,
    before: Option<u8>,
    after: Option<u8>,
    targets: u8,
) -> usize
    requires few { targets ≤ 4 }
    requires places { place + 3 * targets ≤ 1024 }
    ensures value { take result room.new ≡ take place room.old ++ changes 33 (enables before targets 0) (enables after targets 0) }
    ensures len { (place ≤ result) × (result ≤ place + 3 * targets) }
{
    if is_same(before, after) {
        return place;
    }
    write_enables(room, place, before, after, targets, 0)
}

// Writes the change of bit i where a byte follows a byte.
#[inline(always)]
fn write_bit(room: &mut Room, place: usize, code: u8, before: u8, after: u8, i: u32) -> usize
    requires bit { i ≤ 7 }
    requires places { place + 3 ≤ 1024 }
    ensures value { take result room.new ≡ take place room.old ++ change code (bit_of before (2 ^ i)) (bit_of after (2 ^ i)) }
    ensures len { (place ≤ result) × (result ≤ place + 3) }
{
    if ((before ^ after) >> i) % 2 == 0 {
        return place;
    }
    write_level(room, place, code, b'0' + (after >> i) % 2)
}

// Writes the change of the line of DQ that has bit i.
#[inline(always)]
fn write_dq_line(
    room: &mut Room,
    place: usize,
    code: u8,
    before: Option<u8>,
    after: u8,
    i: u32,
) -> usize
    requires bit { i ≤ 7 }
    requires places { place + 3 ≤ 1024 }
    ensures value { take result room.new ≡ take place room.old ++ change code (dq_bit before (2 ^ i)) (dq_bit (Some after) (2 ^ i)) }
    ensures len { (place ≤ result) × (result ≤ place + 3) }
{
    match before {
        None => write_change(room, place, code, b'z', b'0' + (after >> i) % 2),
        Some(before) => write_bit(room, place, code, before, after, i),
    }
}

// Writes the changes of DQ, whose highest bit has this code. It is inlined for a byte before, and for none.
#[inline(always)]
fn write_dq_lines(room: &mut Room, place: usize, code: u8, before: Option<u8>, after: u8) -> usize
    requires codes { code ≤ 200 }
    requires places { place + 24 ≤ 1024 }
    ensures value { take result room.new ≡ take place room.old ++ changes code (dq_bits before) (dq_bits (Some after)) }
    ensures len { (place ≤ result) × (result ≤ place + 24) }
{
    let place = write_dq_line(room, place, code, before, after, 7);
    let place = write_dq_line(room, place, code + 1, before, after, 6);
    let place = write_dq_line(room, place, code + 2, before, after, 5);
    let place = write_dq_line(room, place, code + 3, before, after, 4);
    let place = write_dq_line(room, place, code + 4, before, after, 3);
    let place = write_dq_line(room, place, code + 5, before, after, 2);
    let place = write_dq_line(room, place, code + 6, before, after, 1);
    write_dq_line(room, place, code + 7, before, after, 0)
}

// The same after a byte.
fn write_byte(room: &mut Room, place: usize, code: u8, before: u8, after: u8) -> usize
    requires codes { code ≤ 200 }
    requires places { place + 24 ≤ 1024 }
    ensures value { take result room.new ≡ take place room.old ++ changes code (dq_bits (Some before)) (dq_bits (Some after)) }
    ensures len { (place ≤ result) × (result ≤ place + 24) }
{
    write_dq_lines(room, place, code, Some(before), after)
}

// The same where nobody has driven DQ.
fn write_first_byte(room: &mut Room, place: usize, code: u8, after: u8) -> usize
    requires codes { code ≤ 200 }
    requires places { place + 24 ≤ 1024 }
    ensures value { take result room.new ≡ take place room.old ++ changes code (dq_bits None) (dq_bits (Some after)) }
    ensures len { (place ≤ result) × (result ≤ place + 24) }
{
    write_dq_lines(room, place, code, None, after)
}

// Writes the changes of DQ, whose highest bit has this code, where a byte is driven.
#[inline(always)]
fn write_dq(room: &mut Room, place: usize, code: u8, before: Option<u8>, after: u8) -> usize
    requires codes { code ≤ 200 }
    requires places { place + 24 ≤ 1024 }
    ensures value { take result room.new ≡ take place room.old ++ changes code (dq_bits before) (dq_bits (Some after)) }
    ensures len { (place ≤ result) × (result ≤ place + 24) }
{
    match before {
        None => write_first_byte(room, place, code, after),
        Some(before) => {
            if before == after {
                place
            } else {
                write_byte(room, place, code, before, after)
            }
        }
    }
}

// Writes the changes of DQ, whose highest bit has this code, where a cycle is set up: what comes from the die isn't driven yet.
#[inline(always)]
fn write_host_dq(room: &mut Room, place: usize, code: u8, before: Option<u8>, cycle: Cycle) -> usize
    requires codes { code ≤ 200 }
    requires places { place + 24 ≤ 1024 }
    ensures value { take result room.new ≡ take place room.old ++ changes code (dq_bits before) (dq_bits (if is_output cycle then before else Some cycle.byte)) }
    ensures len { (place ≤ result) × (result ≤ place + 24) }
{
    if is_output(cycle) {
        return place;
    }
    write_dq(room, place, code, before, cycle.byte)
}

// Writes what changes on a bus of so many targets where a cycle is set up.
#[inline(always)]
fn write_set_up_lines(
    room: &mut Room,
    place: usize,
    targets: u8,
    lines: Lines,
    cycle: Cycle,
) -> usize
    requires few { targets ≤ 4 }
    requires places { place + 42 ≤ 1024 }
    ensures value { take result room.new ≡ take place room.old ++ changes 33 (bus_levels targets lines) (bus_levels targets (set_up lines cycle)) }
    ensures len { (place ≤ result) × (result ≤ place + 42) }
{
    let place = write_enables_if_changed(room, place, lines.enabled, Some(cycle.ce), targets);
    let place = write_line(room, place, 33 + targets, lines.cle, is_cmd(cycle.kind));
    let place = write_line(room, place, 34 + targets, lines.ale, is_adr(cycle.kind));
    write_host_dq(room, place, 37 + targets, lines.dq, cycle)
}

/// Writes the frame in which a cycle is set up, on a bus of so many targets.
#[inline(always)]
pub(crate) fn write_set_up(
    room: &mut Room,
    place: usize,
    items: &ItemCount,
    targets: u8,
    lines: Lines,
    cycle: Cycle,
) -> usize
    requires few { targets ≤ 4 }
    requires places { place + 70 ≤ 1024 }
    ensures value { take result room.new ≡ take place room.old ++ at_time (10 * items.now) (changes 33 (bus_levels targets lines) (bus_levels targets (set_up lines cycle))) }
    ensures len { (place ≤ result) × (result ≤ place + 64) }
{
    let start = items.write_time(room, place, 0);
    let end = write_set_up_lines(room, start, targets, lines, cycle);
    if end == start {
        return place;
    }
    end
}

/// Writes the frame in which the strobe of a cycle falls, after lines on which it is set up and no strobe is low.
#[inline(always)]
pub(crate) fn write_struck(
    room: &mut Room,
    place: usize,
    items: &ItemCount,
    targets: u8,
    lines: Lines,
    cycle: Cycle,
) -> usize
    requires few { targets ≤ 4 }
    requires places { place + 70 ≤ 1024 }
    ensures value { AreHigh lines → take result room.new ≡ take place room.old ++ at_time (10 * items.now + 2) (changes 33 (bus_levels targets lines) (bus_levels targets (struck lines cycle))) }
    ensures len { (place ≤ result) × (result ≤ place + 49) }
{
    let place = items.write_time(room, place, 2);
    let place = write_level(room, place, strobe_code(targets, cycle), b'0');
    if !is_output(cycle) {
        return place;
    }
    write_dq(room, place, 37 + targets, lines.dq, cycle.byte)
}

/// Writes the beginning of the frame in which the strobe of a cycle rises: its time and the strobe.
#[inline(always)]
pub(crate) fn write_rise(
    room: &mut Room,
    place: usize,
    items: &ItemCount,
    targets: u8,
    cycle: Cycle,
) -> usize
    requires few { targets ≤ 4 }
    requires places { place + 70 ≤ 1024 }
    ensures value { take result room.new ≡ take place room.old ++ (time_line (10 * items.now + 6) ++ 49 ∷ strobe_code targets cycle ∷ 10 ∷ []) }
    ensures len { (place ≤ result) × (result ≤ place + 25) }
{
    let place = items.write_time(room, place, 6);
    write_level(room, place, strobe_code(targets, cycle), b'1')
}
