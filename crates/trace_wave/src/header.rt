//! The header: the lines with their codes and names, and their levels at first. All functions here write to a `Vec` that has places for what they add.
ghost use Rattle.std.specs.Prelude.{◌≡◌, ℕ, ◌+◌, ◌*◌, ◌<◌, ◌≤◌, List, [], ◌++◌, length, codes};
ghost use Rattle.std.specs.Vec.{vec_len, vec_capacity};
ghost use Rattle.nand_geometry.specs.declared.parts.Parts.{Parts};
ghost use Rattle.bus_lines.specs.Lines.{idle};
ghost use Rattle.trace_wave.specs.Keeping.{Stands};
ghost use Rattle.trace_wave.specs.Levels.{levels};
ghost use Rattle.trace_wave.specs.Header.{digit, variable, target_lines, bit_lines, lun_lines, all_lun_lines, channel_lines, bus_lines, model_lines, settings, header};

use crate::bus::bus_levels;
use crate::channel::Channel;
use crate::model::model_levels;
use crate::text::push_bytes;
use bus_lines::Lines;
use std::alloc::Allocator;

/// How many bytes it has at most.
pub(crate) const LONGEST_HEADER: usize = 4096;

// The digit of a number below ten.
fn digit(n: u8) -> u8
    requires { n ≤ 9 }
    ensures { result ≡ digit n }
{
    b'0' + n
}

// Adds a line, whose name stands in two parts.
fn push_variable<A: Allocator>(out: &mut Vec<u8, A>, code: u8, name: &[u8], rest: &[u8])
    requires short { length name.now + length rest.now ≤ 12 }
    requires places { vec_len out.old + 32 ≤ vec_capacity out.old }
    ensures value { out.new.items ≡ out.old.items ++ variable code (name.now ++ rest.now) }
    ensures len { vec_len out.new ≤ vec_len out.old + 32 }
    ensures capacity { vec_capacity out.old ≤ vec_capacity out.new }
{
    push_bytes(out, b"$var wire 1 ");
    push_bytes(out, &[code, b' ']);
    push_bytes(out, name);
    push_bytes(out, rest);
    push_bytes(out, b" $end\n");
}

// Adds a line of so many targets, from number n on, with the code of the first.
fn push_target_lines<A: Allocator>(out: &mut Vec<u8, A>, code: u8, name: &[u8], count: u8, n: u8)
    requires few { count + n ≤ 4 }
    requires short { length name.now ≤ 9 }
    requires codes { code + count ≤ 200 }
    requires places { vec_len out.old + 32 * count ≤ vec_capacity out.old }
    ensures value { out.new.items ≡ out.old.items ++ target_lines code name.now count n }
    ensures len { vec_len out.new ≤ vec_len out.old + 32 * count }
    ensures capacity { vec_capacity out.old ≤ vec_capacity out.new }
{
    if count == 0 {
        return;
    }
    push_variable(out, code, name, &[digit(n), b'_', b'n']);
    push_target_lines(out, code + 1, name, count - 1, n + 1);
}

// Adds a line for each bit of a number of so many, the highest first, with the code of the first.
fn push_bit_lines<A: Allocator>(out: &mut Vec<u8, A>, code: u8, name: &[u8], count: u8)
    requires few { count ≤ 8 }
    requires short { length name.now ≤ 9 }
    requires codes { code + count ≤ 200 }
    requires places { vec_len out.old + 32 * count ≤ vec_capacity out.old }
    ensures value { out.new.items ≡ out.old.items ++ bit_lines code name.now count }
    ensures len { vec_len out.new ≤ vec_len out.old + 32 * count }
    ensures capacity { vec_capacity out.old ≤ vec_capacity out.new }
{
    if count == 0 {
        return;
    }
    push_variable(out, code, name, &[b'[', digit(count - 1), b']']);
    push_bit_lines(out, code + 1, name, count - 1);
}

// Adds the three lines of a LUN.
fn push_lun_lines<A: Allocator>(out: &mut Vec<u8, A>, code: u8, ce: u8, lun: u8)
    requires few { (ce ≤ 9) × (lun ≤ 9) }
    requires codes { code ≤ 200 }
    requires places { vec_len out.old + 96 ≤ vec_capacity out.old }
    ensures value { out.new.items ≡ out.old.items ++ lun_lines code ce lun }
    ensures len { vec_len out.new ≤ vec_len out.old + 96 }
    ensures capacity { vec_capacity out.old ≤ vec_capacity out.new }
{
    let lun = [digit(ce), b'_', digit(lun)];
    push_variable(out, code, b"busy", &lun);
    push_variable(out, code + 1, b"array", &lun);
    push_variable(out, code + 2, b"fail", &lun);
}

// Adds those of so many LUNs of a target, from number n on.
fn push_all_lun_lines<A: Allocator>(out: &mut Vec<u8, A>, code: u8, ce: u8, count: u8, n: u8)
    requires few { (ce ≤ 9) × (count + n ≤ 4) }
    requires codes { code + 3 * count ≤ 200 }
    requires places { vec_len out.old + 96 * count ≤ vec_capacity out.old }
    ensures value { out.new.items ≡ out.old.items ++ all_lun_lines code ce count n }
    ensures len { vec_len out.new ≤ vec_len out.old + 96 * count }
    ensures capacity { vec_capacity out.old ≤ vec_capacity out.new }
{
    if count == 0 {
        return;
    }
    push_lun_lines(out, code, ce, n);
    push_all_lun_lines(out, code + 3, ce, count - 1, n + 1);
}

// Adds those of so many targets of so many LUNs, from number n on.
fn push_channel_lines<A: Allocator>(out: &mut Vec<u8, A>, code: u8, luns: u8, count: u8, n: u8)
    requires few { (luns ≤ 4) × (count + n ≤ 4) }
    requires codes { code + 12 * count ≤ 200 }
    requires places { vec_len out.old + 384 * count ≤ vec_capacity out.old }
    ensures value { out.new.items ≡ out.old.items ++ channel_lines code luns count n }
    ensures len { vec_len out.new ≤ vec_len out.old + 384 * count }
    ensures capacity { vec_capacity out.old ≤ vec_capacity out.new }
{
    if count == 0 {
        return;
    }
    push_all_lun_lines(out, code, n, luns, 0);
    push_channel_lines(out, code + 3 * luns, luns, count - 1, n + 1);
}

// Adds the lines of a bus of so many targets.
fn push_bus_lines<A: Allocator>(out: &mut Vec<u8, A>, targets: u8)
    requires few { targets ≤ 4 }
    requires places { vec_len out.old + 512 ≤ vec_capacity out.old }
    ensures value { out.new.items ≡ out.old.items ++ bus_lines targets }
    ensures len { vec_len out.new ≤ vec_len out.old + 512 }
    ensures capacity { vec_capacity out.old ≤ vec_capacity out.new }
{
    push_target_lines(out, 33, b"CE", targets, 0);
    push_variable(out, 33 + targets, b"CLE", b"");
    push_variable(out, 34 + targets, b"ALE", b"");
    push_variable(out, 35 + targets, b"WE_n", b"");
    push_variable(out, 36 + targets, b"RE_n", b"");
    push_bit_lines(out, 37 + targets, b"DQ", 8);
}

// Adds the lines of the model, of so many targets and LUNs, with the code of the first.
fn push_model_lines<A: Allocator>(out: &mut Vec<u8, A>, code: u8, targets: u8, luns: u8)
    requires few { (targets ≤ 4) × (luns ≤ 4) }
    requires codes { code ≤ 50 }
    requires places { vec_len out.old + 1824 ≤ vec_capacity out.old }
    ensures value { out.new.items ≡ out.old.items ++ model_lines code targets luns }
    ensures len { vec_len out.new ≤ vec_len out.old + 1824 }
    ensures capacity { vec_capacity out.old ≤ vec_capacity out.new }
{
    push_target_lines(out, code, b"RB", targets, 0);
    push_channel_lines(out, code + targets, luns, targets, 0);
    push_bit_lines(out, code + targets + 3 * (targets * luns), b"rule", 5);
}

// Adds the levels of the lines with the codes from here on.
fn push_settings<A: Allocator>(out: &mut Vec<u8, A>, code: u8, levels: &[u8])
    requires codes { code + length levels.now ≤ 255 }
    requires places { vec_len out.old + 3 * length levels.now ≤ vec_capacity out.old }
    ensures value { out.new.items ≡ out.old.items ++ settings code levels.now }
    ensures len { vec_len out.new ≤ vec_len out.old + 3 * length levels.now }
    ensures capacity { vec_capacity out.old ≤ vec_capacity out.new }
{
    let Some((level, levels)) = levels.split_first() else {
        return;
    };
    out.push_reserved(*level);
    out.push_reserved(code);
    out.push_reserved(b'\n');
    push_settings(out, code + 1, levels);
}

// Adds the levels of all lines of a channel to which nothing has happened.
fn push_first_levels<A: Allocator>(out: &mut Vec<u8, A>, channel: &Channel)
    requires places { vec_len out.old + 219 ≤ vec_capacity out.old }
    ensures value { (g : Parts) (targets : ℕ) → Stands g targets [] channel.now → out.new.items ≡ out.old.items ++ settings 33 (levels g targets [] 0 idle) }
    ensures len { vec_len out.new ≤ vec_len out.old + 219 }
    ensures capacity { vec_capacity out.old ≤ vec_capacity out.new }
{
    let targets = channel.targets();
    let bus = bus_levels(targets, Lines::idle());
    let model = model_levels(channel, 0);
    push_settings(out, 33, &bus);
    push_settings(out, 45 + targets, &model);
}

/// Adds the header of a channel to which nothing has happened.
pub(crate) fn push_header<A: Allocator>(out: &mut Vec<u8, A>, channel: &Channel)
    requires places { vec_len out.old + 4096 ≤ vec_capacity out.old }
    ensures value { (g : Parts) (targets : ℕ) → Stands g targets [] channel.now → out.new.items ≡ out.old.items ++ header g targets }
{
    let (targets, luns) = (channel.targets(), channel.luns());
    push_bytes(
        out,
        b"$version onfiseq $end\n$timescale 1 ns $end\n$scope module channel $end\n",
    );
    push_bus_lines(out, targets);
    push_model_lines(out, 45 + targets, targets, luns);
    push_bytes(out, b"$upscope $end\n$enddefinitions $end\n#0\n$dumpvars\n");
    push_first_levels(out, channel);
    push_bytes(out, b"$end\n");
}
