//! Plain operations: their operands, and the words of each.
ghost use Rattle.std.specs.Prelude.{◌≡◌, ℕ, ◌++◌, ◌≤◌, OnOk};
ghost use Rattle.micro_word.specs.declared.word.Word.TheVariants.{BranchOnStatus};
ghost use Rattle.micro_verify.specs.declared.plain_op.PlainOp.TheVariants.{Read, Program, Erase};
ghost use Rattle.micro_verify.specs.Plain.{operation_words, operation_len, row_of, buffer_end, operation_cost, is_row_outside, are_bytes_outside, is_outside};

use micro_program::command_word;
use micro_word::{Format, MAX_ROWS, Word};
use nand_geometry::Geometry;
use onfi_cycle::{Command, Status};
use std::alloc::{AllocError, Allocator};

/// One operation on a page or a block of a LUN.
#[derive(Clone, Copy, Debug, PartialEq, Eq)]
pub enum PlainOp {
    /// Reads `len` bytes from `column` of a page into the buffer, from `place` on. The page is that of `plane`, `row` rows after the
    /// base of the job.
    Read {
        row: u16,
        plane: u8,
        column: u16,
        place: u32,
        len: u32,
    },
    /// Programs `len` bytes of the buffer, from `place` on, into the page from `column` on. Where the LUN says failure, the program ends
    /// with code 1.
    Program {
        row: u16,
        plane: u8,
        column: u16,
        place: u32,
        len: u32,
    },
    /// Erases the block of the page. Where the LUN says failure, the program ends with code 1.
    Erase {
        row: u16,
        plane: u8,
    },
}

// The geometry has no such plane or row, or the row can't be told in a word.
fn is_row_outside(geometry: &Geometry, row: u16, plane: u8) -> bool
    ensures { result ≡ is_row_outside geometry.now row plane }
{
    u32::from(plane) >= geometry.planes() || row >= MAX_ROWS || u32::from(row) >= geometry.indices()
}

// There are no bytes, or they don't lie in the page or not in the greatest buffer.
fn are_bytes_outside(geometry: &Geometry, column: u16, place: u32, len: u32) -> bool
    ensures { result ≡ are_bytes_outside geometry.now column place len }
{
    len == 0
        || u64::from(column) + u64::from(len) > u64::from(geometry.page_len())
        || u64::from(place) + u64::from(len) > u64::from(Format::Two.limit())
}

// The words of a read.
fn read_words(row: u16, plane: u8, column: u16, place: u32, len: u32) -> [Word; 10]
    ensures { (failure : ℕ) → result ≡ operation_words failure (Read row plane column place len) }
{
    [
        Word::Row { row },
        Word::Plane { plane },
        Word::Column { column },
        Word::Seek { place },
        command_word(Command::Read),
        Word::Address { from: 0, count: 5 },
        command_word(Command::ReadConfirm),
        Word::Wait,
        command_word(Command::Read),
        Word::Get { len },
    ]
}

// The branch to the failure, where the last status says so (FAIL).
fn on_failure(target: u16) -> Word
    ensures { result ≡ BranchOnStatus 0x01 target }
{
    Word::BranchOnStatus {
        mask: Status::FAIL.0,
        target,
    }
}

// The words of a program.
fn program_words(row: u16, plane: u8, column: u16, place: u32, len: u32, failure: u16) -> [Word; 10]
    ensures { result ≡ operation_words failure (Program row plane column place len) }
{
    [
        Word::Row { row },
        Word::Plane { plane },
        Word::Column { column },
        Word::Seek { place },
        command_word(Command::PageProgram),
        Word::Address { from: 0, count: 5 },
        Word::Put { len },
        command_word(Command::ProgramConfirm),
        Word::Wait,
        on_failure(failure),
    ]
}

// The words of an erase.
fn erase_words(row: u16, plane: u8, failure: u16) -> [Word; 7]
    ensures { result ≡ operation_words failure (Erase row plane) }
{
    [
        Word::Row { row },
        Word::Plane { plane },
        command_word(Command::BlockErase),
        Word::Address { from: 2, count: 3 },
        command_word(Command::BlockEraseConfirm),
        Word::Wait,
        on_failure(failure),
    ]
}

impl PlainOp {
    // How many words it takes.
    pub(crate) fn word_count(self) -> usize
        ensures value { result ≡ operation_len self }
        ensures few { result ≤ 10 }
    {
        match self {
            PlainOp::Read { .. } | PlainOp::Program { .. } => 10,
            PlainOp::Erase { .. } => 7,
        }
    }

    // Its row, counted from the base of the job.
    pub(crate) fn row(self) -> u16
        ensures { result ≡ row_of self }
    {
        match self {
            PlainOp::Read { row, .. } | PlainOp::Program { row, .. } | PlainOp::Erase { row, .. } =>
                row,
        }
    }

    // Where the part of the buffer ends that it uses.
    pub(crate) fn buffer_end(self) -> u64
        ensures { result ≡ buffer_end self }
    {
        match self {
            PlainOp::Read { place, len, .. } | PlainOp::Program { place, len, .. } => u64::from(
                place,
            ) + u64::from(len),
            PlainOp::Erase { .. } => 0,
        }
    }

    // Its cost in bus cycles.
    pub(crate) fn cost(self) -> u64
        ensures { result ≡ operation_cost self }
    {
        match self {
            PlainOp::Read { len, .. } => 8 + u64::from(len),
            PlainOp::Program { len, .. } => 7 + u64::from(len),
            PlainOp::Erase { .. } => 5,
        }
    }

    // An operand is outside the geometry or the limits.
    pub(crate) fn is_outside(self, geometry: &Geometry) -> bool
        ensures { result ≡ is_outside geometry.now self }
    {
        match self {
            PlainOp::Read {
                row,
                plane,
                column,
                place,
                len,
            }
            | PlainOp::Program {
                row,
                plane,
                column,
                place,
                len,
            } => {
                is_row_outside(geometry, row, plane)
                    || are_bytes_outside(geometry, column, place, len)
            }
            PlainOp::Erase { row, plane } => is_row_outside(geometry, row, plane),
        }
    }

    // Adds its words, a failure leading to the word `failure`.
    pub(crate) fn push_words<A: Allocator>(
        self,
        words: &mut Vec<Word, A>,
        failure: u16,
    ) -> Result<(), AllocError>
        ensures { OnOk result (words.new.items ≡ words.old.items ++ operation_words failure self) }
    {
        match self {
            PlainOp::Read {
                row,
                plane,
                column,
                place,
                len,
            } => { words.extend_from_slice(&read_words(row, plane, column, place, len)) }
            PlainOp::Program {
                row,
                plane,
                column,
                place,
                len,
            } => {
                words.extend_from_slice(&program_words(row, plane, column, place, len, failure))
            }
            PlainOp::Erase { row, plane } => words.extend_from_slice(&erase_words(
                row, plane, failure,
            )),
        }
    }
}
