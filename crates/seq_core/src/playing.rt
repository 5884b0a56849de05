//! Playing a word on the bus: its cycles, one by one. Each is permitted where it comes, so none is refused but for want of
//! memory, and that comes before the first.
ghost use Rattle.std.specs.Prelude.{◌≡◌, ℕ, ◌+◌, ◌<◌, ◌≤◌, List, [], ◌∷◌, ◌++◌, Some, None, IfOk, OnErr, length, replicate, false};
ghost use Rattle.onfi_cycle.specs.declared.item.Kind.TheVariants.{Cmd, Adr, Din, Dout};
ghost use Rattle.onfi_cycle.specs.Channel.{IsOwn, cycle, bus_byte};
ghost use Rattle.micro_program.specs.Moves.{Move, Give, Take, gives, part};
ghost use Rattle.onfi_cycle.specs.Content.{written};
ghost use Rattle.micro_program.specs.Safe.{MovesAreOwn};
ghost use Rattle.target_bus.specs.Bus.{Traced, channel_of};
ghost use Rattle.seq_core.specs.Progress.{poll_at};
ghost use Rattle.seq_core.specs.Calls.{CanPlay, DidPlay, Plays};
ghost use Rattle.seq_core.specs.Playing.{EndsWithFive, IsQuiet, KeepsQuiet, IsSame, HasPlayed, IsUntouched, CanPoll, HasPolled, CanAddress, HasAddressed};

use crate::registers::Registers;
use micro_word::Word;
use onfi_cycle::{Cycle, Kind, Lun, READ_STATUS, READ_STATUS_ENHANCED};
use std::alloc::{AllocError, Allocator};
use target_bus::{Bus, BusRefusal};

// Gives one byte, by a cycle that starts no work and has its place.
fn give<A: Allocator + Copy>(bus: &mut Bus<A>, lun: Lun, kind: Kind, byte: u8)
    requires quiet { IsQuiet lun.ce kind byte }
    requires room { 0 < bus.old.room }
    requires own { IsOwn (channel_of bus.old) lun bus.old.past (cycle lun.ce kind byte) }
    ensures { HasPlayed bus.old bus.new lun.ce (Give kind byte ∷ []) [] 1 }
{
    let cycle = Cycle {
        ce: lun.ce,
        kind,
        byte,
    };
    match bus.put(cycle) {
        Ok(()) => {}
        Err(_) => unreachable!(),
    }
}

// Gives a command, which may start work.
fn command<A: Allocator + Copy>(bus: &mut Bus<A>, lun: Lun, byte: u8) -> Result<(), AllocError>
    requires own { IsOwn (channel_of bus.old) lun bus.old.past (cycle lun.ce Cmd byte) }
    ensures ok { IfOk result (λ _. HasPlayed bus.old bus.new lun.ce (Give Cmd byte ∷ []) [] bus.old.room) }
    ensures err { OnErr result (IsUntouched bus.old bus.new) }
{
    let cycle = Cycle {
        ce: lun.ce,
        kind: Kind::Cmd,
        byte,
    };
    match bus.put(cycle) {
        Ok(()) => Ok(()),
        Err(BusRefusal::OutOfMemory) => Err(AllocError),
        Err(BusRefusal::Forbidden(_)) => unreachable!(),
    }
}

// Gives bytes, by cycles that start no work and have their places.
fn give_all<A: Allocator + Copy>(bus: &mut Bus<A>, lun: Lun, kind: Kind, bytes: &[u8])
    requires quiet { KeepsQuiet lun.ce kind }
    requires room { length bytes.now ≤ bus.old.room }
    requires own { MovesAreOwn (channel_of bus.old) lun (gives kind bytes.now) bus.old.past }
    ensures { HasPlayed bus.old bus.new lun.ce (gives kind bytes.now) [] (length bytes.now) }
{
    for byte in bytes {
        give(bus, lun, kind, *byte);
    }
}

// Gives inputs, which have their places.
fn put_all<A: Allocator + Copy>(bus: &mut Bus<A>, lun: Lun, bytes: &[u8])
    requires room { length bytes.now ≤ bus.old.room }
    requires own { MovesAreOwn (channel_of bus.old) lun (gives Din bytes.now) bus.old.past }
    ensures { HasPlayed bus.old bus.new lun.ce (gives Din bytes.now) [] (length bytes.now) }
{
    match bus.put_all(lun.ce, bytes) {
        Ok(()) => {}
        Err(_) => unreachable!(),
    }
}

// Takes one byte, which has its place.
fn take<A: Allocator + Copy>(bus: &mut Bus<A>, lun: Lun) -> u8
    requires room { 0 < bus.old.room }
    requires own { MovesAreOwn (channel_of bus.old) lun (Take ∷ []) bus.old.past }
    ensures { HasPlayed bus.old bus.new lun.ce (Take ∷ []) (result ∷ []) 1 }
{
    match bus.take(lun.ce) {
        Ok(byte) => byte,
        Err(_) => unreachable!(),
    }
}

// Takes bytes into a buffer, from a place on.
fn take_all<A: Allocator + Copy>(
    bus: &mut Bus<A>,
    lun: Lun,
    buffer: &mut [u8],
    place: usize,
    len: usize,
)
    requires inside { place + len ≤ length buffer.old }
    requires room { len ≤ bus.old.room }
    requires own { MovesAreOwn (channel_of bus.old) lun (replicate len Take) bus.old.past }
    ensures { (bytes : List ℕ) × HasPlayed bus.old bus.new lun.ce (replicate len Take) bytes len
        × (buffer.new ≡ written bytes place buffer.old) }
{
    let (_, rest) = buffer.split_at_mut(place);
    let (part, _) = rest.split_at_mut(len);
    match bus.take_all(lun.ce, part) {
        Ok(()) => {}
        Err(_) => unreachable!(),
    }
}

// Asks the one LUN of a target for its status.
fn poll_one<A: Allocator + Copy>(bus: &mut Bus<A>, lun: Lun) -> Result<u8, AllocError>
    requires own { MovesAreOwn (channel_of bus.old) lun (Give Cmd READ_STATUS ∷ (Take ∷ [])) bus.old.past }
    ensures ok { IfOk result (λ status. HasPolled bus.old bus.new lun.ce (Give Cmd READ_STATUS ∷ (Take ∷ [])) status) }
    ensures err { OnErr result (IsUntouched bus.old bus.new) }
{
    bus.reserve(2)?;
    give(bus, lun, Kind::Cmd, READ_STATUS);
    Ok(take(bus, lun))
}

// Asks a LUN for its status by a row of it.
fn poll_row<A: Allocator + Copy>(bus: &mut Bus<A>, lun: Lun, row: [u8; 3]) -> Result<u8, AllocError>
    requires own { MovesAreOwn (channel_of bus.old) lun (Give Cmd READ_STATUS_ENHANCED ∷ (gives Adr row ++ (Take ∷ []))) bus.old.past }
    ensures ok { IfOk result (λ status. HasPolled bus.old bus.new lun.ce
        (Give Cmd READ_STATUS_ENHANCED ∷ (gives Adr row ++ (Take ∷ []))) status) }
    ensures err { OnErr result (IsUntouched bus.old bus.new) }
{
    bus.reserve(5)?;
    give(bus, lun, Kind::Cmd, READ_STATUS_ENHANCED);
    give_all(bus, lun, Kind::Adr, &row);
    Ok(take(bus, lun))
}

// Asks a LUN for its status.
fn poll<A: Allocator + Copy>(bus: &mut Bus<A>, lun: Lun) -> Result<u8, AllocError>
    requires { CanPoll bus.old lun }
    ensures ok { IfOk result (λ status. (moved : List Move) × (poll_at bus.old.geometry lun.lun ≡ Some moved)
        × HasPolled bus.old bus.new lun.ce moved status) }
    ensures err { OnErr result (IsUntouched bus.old bus.new) }
{
    let geometry = bus.geometry();
    if geometry.parts().luns > 1 {
        match geometry.row_bytes(lun.lun, 0, 0) {
            Some(row) => poll_row(bus, lun, row),
            None => unreachable!(),
        }
    } else {
        poll_one(bus, lun)
    }
}

// Gives a part of the address that the registers hold.
fn address<A: Allocator + Copy>(
    bus: &mut Bus<A>,
    lun: Lun,
    registers: Registers,
    from: u8,
    count: u8,
) -> Result<(), AllocError>
    requires inside { from + count ≤ 5 }
    requires can { CanAddress bus.old lun registers from count }
    ensures ok { IfOk result (λ _. HasAddressed bus.old bus.new lun registers from count) }
    ensures err { OnErr result (IsUntouched bus.old bus.new) }
{
    let last = from + count;
    match registers.five_bytes(&bus.geometry(), lun.lun, last) {
        Some(bytes) => {
            bus.reserve(usize::from(count))?;
            give_all(
                bus,
                lun,
                Kind::Adr,
                &bytes[usize::from(from)..usize::from(last)],
            );
            Ok(())
        }
        None => unreachable!(),
    }
}

// Gives bytes of a buffer, from a place on.
fn put<A: Allocator + Copy>(
    bus: &mut Bus<A>,
    lun: Lun,
    buffer: &[u8],
    place: usize,
    len: usize,
) -> Result<(), AllocError>
    requires inside { place + len ≤ length buffer.now }
    requires own { MovesAreOwn (channel_of bus.old) lun (gives Din (part place len buffer.now)) bus.old.past }
    ensures ok { IfOk result (λ _. IsSame bus.old bus.new × Plays (channel_of bus.old) lun.ce
        (gives Din (part place len buffer.now)) bus.old.past bus.new.past []) }
    ensures err { OnErr result (IsUntouched bus.old bus.new) }
{
    bus.reserve(len)?;
    put_all(bus, lun, &buffer[place..place + len]);
    Ok(())
}

// Takes bytes into a buffer, from a place on.
fn get<A: Allocator + Copy>(
    bus: &mut Bus<A>,
    lun: Lun,
    buffer: &mut [u8],
    place: usize,
    len: usize,
) -> Result<(), AllocError>
    requires inside { place + len ≤ length buffer.old }
    requires own { MovesAreOwn (channel_of bus.old) lun (replicate len Take) bus.old.past }
    ensures ok { IfOk result (λ _. (bytes : List ℕ) × IsSame bus.old bus.new
        × Plays (channel_of bus.old) lun.ce (replicate len Take) bus.old.past bus.new.past bytes
        × (buffer.new ≡ written bytes place buffer.old)) }
    ensures err { OnErr result (IsUntouched bus.old bus.new × (buffer.new ≡ buffer.old)) }
{
    bus.reserve(len)?;
    take_all(bus, lun, buffer, place, len);
    Ok(())
}

/// Plays a word: its cycles on the bus, and what they bring to the buffer. The answer is the status that a poll brought, 0
/// for other words. Without memory all stays as it was.
pub(crate) fn play<A: Allocator + Copy>(
    bus: &mut Bus<A>,
    lun: Lun,
    registers: Registers,
    buffer: &mut [u8],
    word: Word,
) -> Result<u8, AllocError>
    requires can { CanPlay (channel_of bus.old) bus.old.past lun buffer.old registers word }
    requires range { EndsWithFive word }
    ensures same { IsSame bus.old bus.new }
    ensures ok { IfOk result (λ status. DidPlay (channel_of bus.old) bus.old.past lun buffer.old registers word
        bus.new.past buffer.new status) }
    ensures err { OnErr result (IsUntouched bus.old bus.new × (buffer.new ≡ buffer.old)) }
{
    let place = registers.place as usize;
    match word {
        Word::Command { byte } => command(bus, lun, byte)?,
        Word::Address { from, count } => address(bus, lun, registers, from, count)?,
        Word::Get { len } => get(bus, lun, buffer, place, len as usize)?,
        Word::Put { len } => put(bus, lun, buffer, place, len as usize)?,
        Word::Wait | Word::ReadStatus => return poll(bus, lun),
        _ => {}
    }
    Ok(0)
}
