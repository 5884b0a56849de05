//! Playing words on the bus of a channel of one LUN, up to a cycle that isn't permitted.
ghost use Rattle.std.specs.Prelude.{◌≡◌, ℕ, ◌<◌, ◌≤◌, ◌^◌, List, [], map, length, slice_set, IfOk, IfSome};
ghost use Rattle.std.specs.List.{All};
ghost use Rattle.micro_word.specs.declared.format.Format.TheVariants.{Two};
ghost use Rattle.micro_word.specs.Word.{IsInRange};
ghost use Rattle.micro_program.specs.Moves.{Take};
ghost use Rattle.onfi_cycle.specs.Content.{written};
ghost use Rattle.micro_verify.specs.Lazy.{awaited};
ghost use Rattle.micro_verify.specs.Playing.{meant, IsGiven, IsOfFive, HasGone, HasPlayed, HasPerformed, stored, IsSmall, HasRunFrom};
ghost use Rattle.target_bus.specs.Bus.{channel_of};

use crate::moves::{Move, moves_of};
use crate::registers::Registers;
use micro_word::Word;
use onfi_cycle::{Cycle, Failures, Lun};
use std::alloc::{AllocError, Allocator};
use target_bus::{Bus, BusRefusal};

// The one LUN.
const THE_LUN: Lun = Lun { ce: 0, lun: 0 };

/// What has come of a word.
#[derive(Clone, Copy, Debug, PartialEq, Eq)]
pub(crate) enum Outcome {
    /// Its cycles have come.
    Done,
    /// This cycle of it isn't permitted.
    Stopped(Cycle),
    /// The row that its address names isn't there, or the buffer hasn't its bytes.
    Missing,
}

// Takes a byte and keeps it; false where no byte may be taken.
fn take_one<A: Allocator + Copy>(
    bus: &mut Bus<A>,
    bytes: &mut Vec<u8, A>,
) -> Result<bool, AllocError>
    ensures { IfOk result (λ went. HasGone bus.old bus.new Take bytes.old.items bytes.new.items went) }
{
    bytes.reserve(1)?;
    match bus.take(0) {
        Ok(byte) => {
            bytes.push_reserved(byte);
            Ok(true)
        }
        Err(BusRefusal::Forbidden(_)) => Ok(false),
        Err(BusRefusal::OutOfMemory) => Err(AllocError),
    }
}

// Gives a byte; false where it isn't permitted.
fn give_one<A: Allocator + Copy>(bus: &mut Bus<A>, step: Move) -> Result<bool, AllocError>
    requires { IsGiven step }
    ensures { (bytes : List ℕ) → IfOk result (λ went. HasGone bus.old bus.new (meant step) bytes bytes went) }
{
    match bus.put(step.cycle()) {
        Ok(()) => Ok(true),
        Err(BusRefusal::Forbidden(_)) => Ok(false),
        Err(BusRefusal::OutOfMemory) => Err(AllocError),
    }
}

// Plays a cycle and keeps the byte that it brings; false where it isn't permitted.
fn play_one<A: Allocator + Copy>(
    bus: &mut Bus<A>,
    step: Move,
    bytes: &mut Vec<u8, A>,
) -> Result<bool, AllocError>
    ensures { IfOk result (λ went. HasGone bus.old bus.new (meant step) bytes.old.items bytes.new.items went) }
{
    match step {
        Move::Output => take_one(bus, bytes),
        Move::Command(_) | Move::Address(_) | Move::Input(_) => give_one(bus, step),
    }
}

// Plays cycles one after another, up to one that isn't permitted, and keeps the bytes that they bring.
fn play<A: Allocator + Copy>(
    bus: &mut Bus<A>,
    moves: &[Move],
    bytes: &mut Vec<u8, A>,
) -> Result<Option<Cycle>, AllocError>
    requires { bytes.old.items ≡ [] }
    ensures { IfOk result (λ stop. HasPlayed bus.old bus.new (map meant moves.now) bytes.new.items stop) }
{
    for step in moves {
        if !play_one(bus, *step, bytes)? {
            return Ok(Some(step.cycle()));
        }
    }
    Ok(None)
}

// Writes a byte to a place of a buffer, if it is there.
fn put_at(buffer: &mut [u8], at: u64, byte: u8)
    ensures { buffer.new ≡ slice_set buffer.old at byte }
{
    if at < buffer.len() as u64 {
        buffer[at as usize] = byte;
    }
}

// Writes bytes into a buffer from a place on; what would come after its end is dropped.
fn store(buffer: &mut [u8], place: u64, bytes: &[u8])
    requires few { place < 2 ^ 36 }
    ensures { buffer.new ≡ written bytes.now place buffer.old }
{
    for (k, byte) in bytes.iter().enumerate() {
        put_at(buffer, place + k as u64, *byte);
    }
}

// Keeps the bytes that a word brought, where it keeps any.
fn keep(buffer: &mut [u8], place: u64, word: Word, bytes: &[u8])
    requires few { place < 2 ^ 36 }
    ensures { buffer.new ≡ stored word place bytes.now buffer.old }
{
    if let Word::Get { .. } = word {
        store(buffer, place, bytes);
    }
}

// The ready that a `wait` comes after, if the LUN is busy.
fn await_ready<A: Allocator + Copy>(bus: &mut Bus<A>, word: Word)
    requires one { bus.old.geometry.luns ≡ 1 }
    requires target { bus.old.targets ≡ 1 }
    ensures same { channel_of bus.new ≡ channel_of bus.old }
    ensures past { bus.new.past ≡ awaited bus.old.geometry bus.old.past word }
{
    if let Word::Wait = word {
        bus.ready(
            THE_LUN,
            Failures {
                last: false,
                before: false,
            },
        );
    }
}

/// Performs a word after those that have set these registers: its cycles on the bus, and what they bring to the buffer.
pub(crate) fn perform<A: Allocator + Copy>(
    alloc: A,
    bus: &mut Bus<A>,
    registers: Registers,
    buffer: &mut [u8],
    word: Word,
) -> Result<Outcome, AllocError>
    requires few_rows { registers.index < 2 ^ 32 }
    requires few_bytes { registers.place < 2 ^ 36 }
    requires inside { IsOfFive word }
    requires one { bus.old.geometry.luns ≡ 1 }
    requires target { bus.old.targets ≡ 1 }
    ensures same { IfOk result (λ _. channel_of bus.new ≡ channel_of bus.old) }
    ensures value { IfOk result (λ outcome. HasPerformed bus.old bus.new registers buffer.old buffer.new word outcome) }
{
    let Some(moves) = moves_of(alloc, &bus.geometry(), registers, buffer, word)? else {
        return Ok(Outcome::Missing);
    };
    await_ready(bus, word);
    let mut bytes = Vec::new(alloc);
    if let Some(stop) = play(bus, moves.as_slice(), &mut bytes)? {
        return Ok(Outcome::Stopped(stop));
    }
    keep(buffer, registers.place, word, bytes.as_slice());
    Ok(Outcome::Done)
}

/// Performs words one after another, from a bus to which nothing has happened: what they have set, None where one stopped.
pub(crate) fn perform_all<A: Allocator + Copy>(
    alloc: A,
    bus: &mut Bus<A>,
    buffer: &mut [u8],
    words: &[Word],
) -> Result<Option<Registers>, AllocError>
    requires few { length words.now ≤ 1024 }
    requires range { (n : ℕ) × All (IsInRange Two n) words.now }
    requires one { bus.old.geometry.luns ≡ 1 }
    requires target { bus.old.targets ≡ 1 }
    ensures same { IfOk result (λ _. channel_of bus.new ≡ channel_of bus.old) }
    ensures small { IfOk result (λ o. IfSome o (λ r. IsSmall r (length words.now))) }
    ensures run { IfOk result (λ o. HasRunFrom bus.old bus.new buffer.old buffer.new words.now o) }
{
    let mut registers = Registers::fresh();
    for word in words {
        match perform(alloc, bus, registers, buffer, *word)? {
            Outcome::Done => registers = registers.after(*word),
            _ => return Ok(None),
        }
    }
    Ok(Some(registers))
}
