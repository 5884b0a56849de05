//! Making the text.
ghost use Rattle.std.specs.Prelude.{◌≡◌, ◌+◌, ◌^◌, ◌≤◌, ◌<◌, None, nat_lt, length, IfOk, IfErr};
ghost use Rattle.micro_word.specs.declared.format.Format.TheVariants.{Two};
ghost use Rattle.micro_word.specs.Text.{FitsFormat};
ghost use Rattle.micro_verify.specs.Plain.{operations_len, words_from, plain_words, rows_of, buffer_of, budget_of, plain_text, first_outside, plain_fault, Tells};

use crate::plain_op::PlainOp;
use crate::plain_refusal::{PlainFault, PlainRefusal};
use micro_program::Verified;
use micro_walk::faultless;
use micro_word::{MAX_WORDS, Text, Word};
use nand_geometry::Geometry;
use std::alloc::{AllocError, Allocator};

// The operations leave no room for two words more.
fn fill_a_text(ops: &[PlainOp]) -> bool
    ensures { result ≡ nat_lt 1024 (operations_len ops.now + 2) }
{
    let mut left = MAX_WORDS - 2;
    for op in ops {
        if op.word_count() > left {
            return true;
        }
        left -= op.word_count();
    }
    false
}

// Together with the two ends the operations take more words than a text may have.
#[tactic(auto, using(crate::proofs::PlainShapes::words_long))]
fn are_too_many(ops: &[PlainOp]) -> bool
    ensures { result ≡ nat_lt 1024 (length (plain_words ops.now)) }
{
    fill_a_text(ops)
}

// The first operation with an operand outside.
fn first_outside(geometry: &Geometry, ops: &[PlainOp]) -> Option<usize>
    ensures { result ≡ first_outside geometry.now 0 ops.now }
{
    for (place, op) in ops.iter().enumerate() {
        if op.is_outside(geometry) {
            return Some(place);
        }
    }
    None
}

// The first fault.
fn first_fault(geometry: &Geometry, ops: &[PlainOp]) -> Option<PlainFault>
    ensures { result ≡ plain_fault geometry.now ops.now }
{
    if ops.is_empty() {
        return Some(PlainFault::NoOperations);
    }
    if are_too_many(ops) {
        return Some(PlainFault::TooManyWords);
    }
    match first_outside(geometry, ops) {
        Some(operation) => Some(PlainFault::OperandOutside { operation }),
        None => None,
    }
}

// The greatest row plus 1.
fn rows_of(ops: &[PlainOp]) -> u32
    ensures { result ≡ rows_of ops.now }
{
    let mut rows = 0;
    for op in ops {
        rows = rows.max(u32::from(op.row()) + 1);
    }
    rows
}

// Where the part of the buffer ends that the operations use.
fn buffer_of(ops: &[PlainOp]) -> u64
    ensures { result ≡ buffer_of ops.now }
{
    let mut end = 0;
    for op in ops {
        end = end.max(op.buffer_end());
    }
    end
}

// The sum of the costs.
fn budget_of(ops: &[PlainOp]) -> u64
    requires { budget_of ops.now < 2 ^ 32 }
    ensures { result ≡ budget_of ops.now }
{
    let mut cost = 0;
    for op in ops {
        cost += op.cost();
    }
    cost
}

// How many words the operations take.
fn words_len(ops: &[PlainOp]) -> usize
    requires { operations_len ops.now ≤ 1022 }
    ensures { result ≡ operations_len ops.now }
{
    let mut len = 0;
    for op in ops {
        len += op.word_count();
    }
    len
}

// The words of the operations and the two ends, of which the second is the word `failure`.
fn words_of<A: Allocator>(
    alloc: A,
    ops: &[PlainOp],
    failure: u16,
) -> Result<Vec<Word, A>, AllocError>
    ensures { IfOk result (λ words. words.items ≡ words_from failure ops.now) }
{
    let mut words = Vec::with_capacity(alloc, usize::from(failure) + 1)?;
    for op in ops {
        op.push_words(&mut words, failure)?;
    }
    words.extend_from_slice(&[Word::End { code: 0 }, Word::End { code: 1 }])?;
    Ok(words)
}

// The text of operations whose numbers fit.
fn text_of<A: Allocator>(alloc: A, ops: &[PlainOp]) -> Result<Text<A>, AllocError>
    requires { FitsFormat Two (plain_text ops.now) }
    ensures { IfOk result (λ text. text ≡ plain_text ops.now) }
{
    let failure = (words_len(ops) + 1) as u16;
    let words = words_of(alloc, ops, failure)?;
    let rows = rows_of(ops) as u16;
    let buffer = buffer_of(ops) as u32;
    let budget = budget_of(ops) as u32;
    Ok(Text::of(rows, buffer, budget, words).unwrap())
}

/// The text of operations, one after the other, verified for a geometry. After the last one it ends with code 0; after a program or
/// an erase that failed with code 1. It has as many rows as the operations reach, a buffer that holds all their bytes, and the sum
/// of their costs as its budget.
///
/// A refusal tells the first fault: no operations (L1), more than 1,024 words (L2), or the first operation with an operand outside (L3).
/// Memory is taken once there is no fault, and `OutOfMemory` is answered only where it was refused.
pub fn plain<A: Allocator>(
    alloc: A,
    ops: &[PlainOp],
    geometry: Geometry,
) -> Result<Verified<A>, PlainRefusal>
    // Only operations without a fault become a text, and it is theirs.
    ensures made { IfOk result (λ v. (plain_fault geometry ops.now ≡ None) × (v.text ≡ plain_text ops.now) × (v.geometry ≡ geometry)) }
    // A refusal tells their fault, or that there was no memory though they have none.
    ensures refused { IfErr result (λ refusal. Tells refusal (plain_fault geometry ops.now)) }
{
    // The call hands out what the proof needs: that the geometry is within its limits.
    let _ = geometry.parts();
    if let Some(fault) = first_fault(&geometry, ops) {
        return Err(PlainRefusal::Fault(fault));
    }
    let text = text_of(alloc, ops)?;
    Ok(faultless(text, geometry))
}
