//! The cycles of a word on a target of one LUN.
ghost use Rattle.std.specs.Prelude.{◌≡◌, ◌≤◌, ◌<◌, ◌+◌, ◌^◌, ◌∷◌, [], Some, map, length, not, nat_le, is_none, IfOk, IfSome};
ghost use Rattle.onfi_cycle.specs.declared.item.Item.TheVariants.{Cyc};
ghost use Rattle.micro_program.specs.Moves.{part};
ghost use Rattle.micro_verify.specs.declared.moves.Move.TheVariants.{Command as Commands, Address as Addresses, Input, Output};
ghost use Rattle.micro_verify.specs.Lazy.{item_of};
ghost use Rattle.micro_verify.specs.Playing.{meant, five_told, moves_told, IsOfFive};

use crate::registers::Registers;
use micro_word::Word;
use nand_geometry::Geometry;
use onfi_cycle::{Cycle, Kind};
use std::alloc::{AllocError, Allocator};

/// One cycle: a byte to the die, or one from it.
#[derive(Clone, Copy, Debug, PartialEq, Eq)]
pub(crate) enum Move {
    Command(u8),
    Address(u8),
    Input(u8),
    Output,
}

impl Move {
    /// The cycle on target 0; an output is shown with byte 00.
    pub(crate) fn cycle(self) -> Cycle
        ensures { Cyc result ≡ item_of (meant self) }
    {
        let (kind, byte) = match self {
            Move::Command(byte) => (Kind::Cmd, byte),
            Move::Address(byte) => (Kind::Adr, byte),
            Move::Input(byte) => (Kind::Din, byte),
            Move::Output => (Kind::Dout, 0),
        };
        Cycle { ce: 0, kind, byte }
    }
}

// The five address bytes, None where the row isn't there. Where only column bytes are wanted, the row's are 0.
fn five_bytes(geometry: &Geometry, registers: Registers, last: u8) -> Option<[u8; 5]>
    requires few { registers.index < 2 ^ 32 }
    ensures { result ≡ five_told geometry.now registers last }
{
    let c1 = (registers.column % 256) as u8;
    let c2 = (registers.column / 256) as u8;
    if last <= 2 {
        return Some([c1, c2, 0, 0, 0]);
    }
    let row = geometry.row_bytes(0, registers.index as u32, registers.plane)?;
    Some([c1, c2, row[0], row[1], row[2]])
}

// Each of these bytes as an address cycle.
fn addresses<A: Allocator>(alloc: A, bytes: &[u8]) -> Result<Vec<Move, A>, AllocError>
    ensures { IfOk result (λ v. v.items ≡ map Addresses bytes.now) }
{
    bytes.iter().map(|byte| Move::Address(*byte)).collect(alloc)
}

// Each of these bytes as an input cycle.
fn inputs<A: Allocator>(alloc: A, bytes: &[u8]) -> Result<Vec<Move, A>, AllocError>
    ensures { IfOk result (λ v. v.items ≡ map Input bytes.now) }
{
    bytes.iter().map(|byte| Move::Input(*byte)).collect(alloc)
}

// So many inputs from a place of the buffer on, None where it hasn't so many.
fn buffer_inputs<A: Allocator>(
    alloc: A,
    buffer: &[u8],
    place: u64,
    len: u32,
) -> Result<Option<Vec<Move, A>>, AllocError>
    requires few { place < 2 ^ 36 }
    ensures none { IfOk result (λ o. is_none o ≡ not (nat_le (place + len) (length buffer.now))) }
    ensures some { IfOk result (λ o. IfSome o (λ v. v.items ≡ map Input (part place len buffer.now))) }
{
    let end = place + u64::from(len);
    if end > buffer.len() as u64 {
        return Ok(None);
    }
    Ok(Some(inputs(alloc, &buffer[place as usize..end as usize])?))
}

// 70h, Read Status.
const READ_STATUS: u8 = 0x70;

// A poll of the one LUN of a target.
fn poll<A: Allocator>(alloc: A) -> Result<Vec<Move, A>, AllocError>
    ensures { IfOk result (λ v. v.items ≡ Commands 0x70 ∷ (Output ∷ [])) }
{
    let mut moves = Vec::with_capacity(alloc, 2)?;
    moves.push(Move::Command(READ_STATUS))?;
    moves.push(Move::Output)?;
    Ok(moves)
}

// One command.
fn one_command<A: Allocator>(alloc: A, byte: u8) -> Result<Vec<Move, A>, AllocError>
    ensures { IfOk result (λ v. v.items ≡ Commands byte ∷ []) }
{
    let mut moves = Vec::with_capacity(alloc, 1)?;
    moves.push(Move::Command(byte))?;
    Ok(moves)
}

/// What a word moves, by what the words before it have set; None where its row isn't there, or its bytes aren't.
pub(crate) fn moves_of<A: Allocator>(
    alloc: A,
    geometry: &Geometry,
    registers: Registers,
    buffer: &[u8],
    word: Word,
) -> Result<Option<Vec<Move, A>>, AllocError>
    requires few_rows { registers.index < 2 ^ 32 }
    requires few_bytes { registers.place < 2 ^ 36 }
    requires inside { IsOfFive word }
    ensures none { IfOk result (λ o. is_none o ≡ is_none (moves_told geometry.now registers buffer.now word)) }
    ensures some { IfOk result (λ o. IfSome o (λ v. moves_told geometry.now registers buffer.now word ≡ Some v.items)) }
{
    match word {
        Word::Command { byte } => Ok(Some(one_command(alloc, byte)?)),
        Word::Address { from, count } => match five_bytes(geometry, registers, from + count) {
            None => Ok(None),
            Some(five) => Ok(Some(addresses(
                alloc,
                &five[usize::from(from)..usize::from(from + count)],
            )?)),
        },
        Word::Get { len } => Ok(Some(vec![in alloc; Move::Output; len as usize]?)),
        Word::Put { len } => buffer_inputs(alloc, buffer, registers.place, len),
        Word::Wait | Word::ReadStatus => Ok(Some(poll(alloc)?)),
        _ => Ok(Some(Vec::new(alloc))),
    }
}
