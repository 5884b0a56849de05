ghost use Rattle.std.specs.Prelude.{◌≡◌, ◌↔◌, IsTrue};
ghost use Rattle.micro_word.specs.Word.{is_in_range, IsInRange, uses_a, uses_b, has_stray, four, carrying, spelling, word_of};

use crate::code;
use crate::format::{Format, MAX_ROWS, WORD_BYTES};
use byteorder::{ByteOrder, LittleEndian};

// The address bytes: two of the column and three of the row.
const ADDRESS_BYTES: u8 = 5;

// The greatest plane that a word can choose.
const GREATEST_PLANE: u8 = 3;

// The most turns of a loop.
const MAX_TURNS: u16 = 4_096;

/// One word of a microprogram. In a file it takes four bytes: a code, a field `a` of one byte and a
/// field `b` of two, the lower byte first. Codes and mnemonics are our own choice; `cmd`, `addr`, `get`,
/// `put` and `wait` are shaped after the NAND instructions of Linux's `include/linux/mtd/rawnand.h`.
///
/// A job begins with its row index at its base, and with column, plane and place at 0.
#[derive(Clone, Copy, Debug, PartialEq, Eq)]
pub enum Word {
    /// `end` (code 00): stops the program, which reports `code`.
    End { code: u8 },
    /// `cmd` (01): puts `byte` on the bus as a command.
    Command { byte: u8 },
    /// `addr` (02): puts `count` of the five address bytes on the bus, beginning with number `from`.
    /// The five are two of the column and three of the row, each lowest first. `from` is at most 4,
    /// `count` at least 1, and the last byte sent is still one of the five.
    Address { from: u8, count: u8 },
    /// `get` (03): takes `len` bytes, at least 1, from the die and stores them in the buffer, from the
    /// current place on; the place ends after them.
    Get { len: u32 },
    /// `put` (04): the other direction: sends `len` bytes of the buffer, at least 1, to the die, and
    /// moves the place alike.
    Put { len: u32 },
    /// `seek` (05): sets the place, an offset in bytes from the front of the buffer.
    Seek { place: u32 },
    /// `col` (06): sets the column register, an offset in bytes from the front of a page.
    Column { column: u16 },
    /// `rowadd` (07): moves the row index on by `rows`, at least 1.
    RowAdd { rows: u16 },
    /// `row` (08): sets the row index to `row` rows after the job's base; below 4,096.
    Row { row: u16 },
    /// `plane` (09): chooses the plane of the addresses that follow, 0 to 3.
    Plane { plane: u8 },
    /// `wait` (0A): asks for the status byte; the program stays at this word, and others may have the
    /// bus, until the answer says ready.
    Wait,
    /// `yield` (0B): gives up the bus, so that another program can go on.
    Yield,
    /// `stat` (0C): asks for the status byte and goes on, whatever it says.
    ReadStatus,
    /// `brs` (0D): goes on at word `target` if the last status byte and `mask` have a bit in common.
    /// `mask` has at least one bit, and the text has a word `target`.
    BranchOnStatus { mask: u8, target: u16 },
    /// `loop` (0E): opens a loop of `turns` turns, 1 to 4,096; its last word is a `next`.
    Loop { turns: u16 },
    /// `next` (0F): closes the innermost loop: back to its first word, or on after the last turn.
    Next,
    /// `jmp` (10): goes on at word `target`, which the text has.
    Jump { target: u16 },
}

impl Word {
    /// Whether each operand is in the range that a format gives it, in a text of so many words.
    pub fn is_in_range(self, format: Format, words: usize) -> bool
        ensures value { result ≡ is_in_range format words self }
        ensures meaning { IsTrue result ↔ IsInRange format words self }
    {
        match self {
            Word::Address { from, count } => {
                from < ADDRESS_BYTES && 1 <= count && count <= ADDRESS_BYTES - from
            },
            Word::Get { len } | Word::Put { len } => 1 <= len && len <= format.limit(),
            Word::Seek { place } => place <= format.limit(),
            Word::RowAdd { rows } => 1 <= rows,
            Word::Row { row } => row < MAX_ROWS,
            Word::Plane { plane } => plane <= GREATEST_PLANE,
            Word::BranchOnStatus { mask, target } => 1 <= mask && usize::from(target) < words,
            Word::Loop { turns } => 1 <= turns && turns <= MAX_TURNS,
            Word::Jump { target } => usize::from(target) < words,
            Word::End { .. }
            | Word::Command { .. }
            | Word::Column { .. }
            | Word::Wait
            | Word::Yield
            | Word::ReadStatus
            | Word::Next => true,
        }
    }

    // Whether a field that the word does not use is not 0.
    pub(crate) fn has_stray(self, format: Format, field_a: u8, field_b: u16) -> bool
        ensures { result ≡ has_stray format self field_a field_b }
    {
        (!self.uses_a(format) && field_a != 0) || (!self.uses_b() && field_b != 0)
    }

    // Whether the word uses the field a.
    pub(crate) fn uses_a(self, format: Format) -> bool
        ensures { result ≡ uses_a format self }
    {
        match self {
            Word::End { .. }
            | Word::Command { .. }
            | Word::Address { .. }
            | Word::Plane { .. }
            | Word::BranchOnStatus { .. } => true,
            Word::Get { .. } | Word::Put { .. } | Word::Seek { .. } => match format {
                Format::One => false,
                Format::Two => true,
            },
            _ => false,
        }
    }

    // Whether the word uses the field b.
    pub(crate) fn uses_b(self) -> bool
        ensures { result ≡ uses_b self }
    {
        match self {
            Word::End { .. }
            | Word::Command { .. }
            | Word::Plane { .. }
            | Word::Wait
            | Word::Yield
            | Word::ReadStatus
            | Word::Next => false,
            _ => true,
        }
    }

    // The word of a code and its fields, whatever the ranges; none for an unknown code.
    #[tactic(auto, unfolding(crate::specs::Word::word_of))]
    pub(crate) fn of(format: Format, code: u8, field_a: u8, field_b: u16) -> Option<Word>
        ensures { result ≡ word_of format code field_a field_b }
    {
        let number = match format {
            Format::One => u32::from(field_b),
            Format::Two => u32::from(field_a) * 65_536 + u32::from(field_b),
        };
        match code {
            code::END => Some(Word::End { code: field_a }),
            code::COMMAND => Some(Word::Command { byte: field_a }),
            code::ADDRESS => Some(Word::Address {
                from: field_a,
                count: field_b.min(255) as u8,
            }),
            code::GET => Some(Word::Get { len: number }),
            code::PUT => Some(Word::Put { len: number }),
            code::SEEK => Some(Word::Seek { place: number }),
            code::COLUMN => Some(Word::Column { column: field_b }),
            code::ROW_ADD => Some(Word::RowAdd { rows: field_b }),
            code::ROW => Some(Word::Row { row: field_b }),
            code::PLANE => Some(Word::Plane { plane: field_a }),
            code::WAIT => Some(Word::Wait),
            code::YIELD => Some(Word::Yield),
            code::READ_STATUS => Some(Word::ReadStatus),
            code::BRANCH_ON_STATUS => Some(Word::BranchOnStatus {
                mask: field_a,
                target: field_b,
            }),
            code::LOOP => Some(Word::Loop { turns: field_b }),
            code::NEXT => Some(Word::Next),
            code::JUMP => Some(Word::Jump { target: field_b }),
            _ => None,
        }
    }

    // The word's four bytes.
    pub(crate) fn to_bytes(self) -> [u8; WORD_BYTES]
        ensures { result ≡ spelling self }
    {
        match self {
            Word::End { code } => four(code::END, code, 0),
            Word::Command { byte } => four(code::COMMAND, byte, 0),
            Word::Address { from, count } => four(code::ADDRESS, from, u16::from(count)),
            Word::Get { len } => carrying(code::GET, len),
            Word::Put { len } => carrying(code::PUT, len),
            Word::Seek { place } => carrying(code::SEEK, place),
            Word::Column { column } => four(code::COLUMN, 0, column),
            Word::RowAdd { rows } => four(code::ROW_ADD, 0, rows),
            Word::Row { row } => four(code::ROW, 0, row),
            Word::Plane { plane } => four(code::PLANE, plane, 0),
            Word::Wait => four(code::WAIT, 0, 0),
            Word::Yield => four(code::YIELD, 0, 0),
            Word::ReadStatus => four(code::READ_STATUS, 0, 0),
            Word::BranchOnStatus { mask, target } => four(code::BRANCH_ON_STATUS, mask, target),
            Word::Loop { turns } => four(code::LOOP, 0, turns),
            Word::Next => four(code::NEXT, 0, 0),
            Word::Jump { target } => four(code::JUMP, 0, target),
        }
    }
}

// A word's code and its fields as bytes.
fn four(code: u8, field_a: u8, field_b: u16) -> [u8; WORD_BYTES]
    ensures { result ≡ four code field_a field_b }
{
    let mut bytes = [code, field_a, 0, 0];
    LittleEndian::write_u16(&mut bytes[2..], field_b);
    bytes
}

// A word that carries a number in both its fields.
fn carrying(code: u8, number: u32) -> [u8; WORD_BYTES]
    ensures { result ≡ carrying code number }
{
    four(
        code,
        (number / 65_536 % 256) as u8,
        (number % 65_536) as u16,
    )
}
