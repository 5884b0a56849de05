//! The facts of a target's tail after a cycle, written where they stand.
ghost use Rattle.std.specs.Prelude.{◌≡◌, ◌==◌, ◌&&◌, true, false, IfSome, ℕ, ◌^◌, ◌<◌, ◌≤◌};
ghost use Rattle.onfi_cycle.specs.declared.target_cycle.TargetCycle.{TargetCycle as TargetCycleValue};
ghost use Rattle.onfi_cycle.specs.Command.{command, begins_data, is_set_features};
ghost use Rattle.onfi_cycle.specs.Sequence.{begins_anew, column_after_address, facts_after, next_column_place, opened, phase_after_address, phase_after_input};
ghost use Rattle.target_record.specs.Record.{is_set, phase_of, tail_of};

use onfi_cycle::{Command, FEATURE_BYTES};
use target_record::{OnfiseqTarget, is_set, opening_of, wants_command};

// A tail begins anew with this command: with an opener, but neither with a 31h that it wants nor with an 85h in the data of a program.
fn begins_anew(kept: &OnfiseqTarget, named: Command) -> bool
    ensures { result ≡ begins_anew (tail_of kept.now) (TargetCycleValue.CommandCycle named) }
{
    let goes_on = match named {
        Command::ReadCacheSequential | Command::ChangeWriteColumn => wants_command(kept, named),
        _ => false,
    };
    named.is_opener() && !goes_on
}

/// The facts of its tail after the command of a byte.
#[inline(always)]
pub(crate) fn note_command(kept: &mut OnfiseqTarget, byte: u8, named: Command)
    requires column { kept.old.column < 2 ^ 16 }
    requires named { named ≡ command byte }
    ensures tail { tail_of kept.new ≡ facts_after (TargetCycleValue.CommandCycle named) (tail_of kept.old) }
    ensures column { kept.new.column < 2 ^ 16 }
    ensures luns { kept.new.luns ≡ kept.old.luns }
    ensures count { kept.new.count ≡ kept.old.count }
{
    if begins_anew(kept, named) {
        kept.is_open = 1;
        kept.opener = byte;
        kept.phase = 0;
        kept.r1 = 0;
        kept.r2 = 0;
        kept.r3 = 0;
        kept.is_empty = 0;
        kept.column = 0;
        kept.addresses = 0;
        kept.inputs = 0;
    } else if !is_set(kept.is_empty) {
        kept.phase = if named == Command::ChangeWriteColumn && kept.phase == 1 {
            2
        } else {
            0
        };
        kept.is_open = 0;
        kept.opener = 0;
        kept.addresses = 0;
        kept.inputs = 0;
    }
}

// The column after an address byte that stands in this place after the last command.
fn column_after_address(place: usize, byte: u8, column: u32) -> u32
    requires { column < 2 ^ 16 }
    ensures value { result ≡ column_after_address place byte column }
    ensures small { result < 2 ^ 16 }
{
    match place {
        0 => u32::from(byte),
        1 => column % 256 + 256 * u32::from(byte),
        _ => column,
    }
}

// The next address is the last of a Page Program, or of a Copyback Program.
fn begins_data(kept: &OnfiseqTarget) -> bool
    ensures { result ≡ opened (λ c n. begins_data c && n == 4) (tail_of kept.now).opening }
{
    match opening_of(is_set(kept.is_open), kept.opener, kept.addresses) {
        None => false,
        Some(opening) => matches!(
            opening.opener,
            Command::PageProgram | Command::ChangeWriteColumn
        ) && opening.addresses == 4,
    }
}

// The next address is that of a Set Features.
fn names_feature(kept: &OnfiseqTarget) -> bool
    ensures { result ≡ opened (λ c n. is_set_features c && n == 0) (tail_of kept.now).opening }
{
    match opening_of(is_set(kept.is_open), kept.opener, kept.addresses) {
        None => false,
        Some(opening) => opening.opener == Command::SetFeatures && opening.addresses == 0,
    }
}

// Its phase after an input that follows so many others.
fn phase_after_input(kept: &OnfiseqTarget) -> u8
    ensures { phase_of result ≡ phase_after_input kept.now.inputs (phase_of kept.now.phase) }
{
    match kept.phase {
        0 | 2 | 3 => 0,
        1 => 1,
        _ if kept.inputs < FEATURE_BYTES - 1 => 4,
        _ => 0,
    }
}

// Its phase after an address.
fn phase_after_address(kept: &OnfiseqTarget) -> u8
    ensures { phase_of result ≡ phase_after_address (tail_of kept.now).opening (tail_of kept.now).phase }
{
    match kept.phase {
        0 if begins_data(kept) => 1,
        0 if names_feature(kept) => 4,
        0 => 0,
        1 => 0,
        2 => 3,
        3 => 1,
        _ => 0,
    }
}

// Which address byte of its column comes next, where it isn't at its opener.
fn column_place(phase: u8) -> usize
    ensures { result ≡ next_column_place (phase_of phase) }
{
    match phase {
        0 => 2,
        1 => 2,
        2 => 0,
        3 => 1,
        _ => 2,
    }
}

// The facts of its tail after an address behind the opener.
fn note_opener_address(kept: &mut OnfiseqTarget, byte: u8)
    requires column { kept.old.column < 2 ^ 16 }
    requires opening { is_set kept.old.is_open ≡ true }
    requires few { kept.old.addresses ≤ 5 }
    ensures tail { tail_of kept.new ≡ facts_after (TargetCycleValue.AddressCycle byte) (tail_of kept.old) }
    ensures column { kept.new.column < 2 ^ 16 }
    ensures luns { kept.new.luns ≡ kept.old.luns }
    ensures count { kept.new.count ≡ kept.old.count }
{
    if !is_set(kept.is_empty) {
        let phase = phase_after_address(kept);
        kept.column = column_after_address(kept.addresses, byte, kept.column);
        kept.phase = phase;
        kept.r1 = kept.r2;
        kept.r2 = kept.r3;
        kept.r3 = byte;
        kept.addresses += 1;
        kept.inputs = 0;
    }
}

// The facts of its tail after an address elsewhere.
fn note_column_address(kept: &mut OnfiseqTarget, byte: u8)
    requires column { kept.old.column < 2 ^ 16 }
    requires closed { is_set kept.old.is_open ≡ false }
    ensures tail { tail_of kept.new ≡ facts_after (TargetCycleValue.AddressCycle byte) (tail_of kept.old) }
    ensures column { kept.new.column < 2 ^ 16 }
    ensures luns { kept.new.luns ≡ kept.old.luns }
    ensures count { kept.new.count ≡ kept.old.count }
{
    if !is_set(kept.is_empty) {
        let phase = phase_after_address(kept);
        kept.column = column_after_address(column_place(kept.phase), byte, kept.column);
        kept.phase = phase;
        kept.inputs = 0;
    }
}

/// The facts of its tail after an address.
#[inline(always)]
pub(crate) fn note_address(kept: &mut OnfiseqTarget, byte: u8)
    requires column { kept.old.column < 2 ^ 16 }
    requires few { IfSome (tail_of kept.old).opening (λ o. o.addresses ≤ 5) }
    ensures tail { tail_of kept.new ≡ facts_after (TargetCycleValue.AddressCycle byte) (tail_of kept.old) }
    ensures column { kept.new.column < 2 ^ 16 }
    ensures luns { kept.new.luns ≡ kept.old.luns }
    ensures count { kept.new.count ≡ kept.old.count }
{
    if is_set(kept.is_open) {
        note_opener_address(kept, byte);
    } else {
        note_column_address(kept, byte);
    }
}

/// The facts of its tail after an output.
pub(crate) fn note_output(kept: &mut OnfiseqTarget)
    ensures tail { tail_of kept.new ≡ facts_after TargetCycleValue.OutputCycle (tail_of kept.old) }
    ensures column { kept.new.column ≡ kept.old.column }
    ensures luns { kept.new.luns ≡ kept.old.luns }
    ensures count { kept.new.count ≡ kept.old.count }
{
    if !is_set(kept.is_empty) {
        kept.is_open = 0;
        kept.opener = 0;
        kept.phase = 0;
        kept.addresses = 0;
        kept.inputs = 0;
    }
}

/// The facts of its tail after an input.
pub(crate) fn note_input(kept: &mut OnfiseqTarget)
    requires { kept.old.inputs < 2 ^ 63 }
    ensures tail { (byte : ℕ) → tail_of kept.new ≡ facts_after (TargetCycleValue.InputCycle byte) (tail_of kept.old) }
    ensures column { kept.new.column ≡ kept.old.column }
    ensures luns { kept.new.luns ≡ kept.old.luns }
    ensures count { kept.new.count ≡ kept.old.count }
{
    if !is_set(kept.is_empty) {
        kept.is_open = 0;
        kept.opener = 0;
        kept.phase = phase_after_input(kept);
        kept.addresses = 0;
        kept.inputs += 1;
    }
}
