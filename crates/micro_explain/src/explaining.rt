//! From a fault to its cause.

use crate::address_cause::AddressCause;
use crate::alignment_cause::AlignmentCause;
use crate::barred_cause::BarredCause;
use crate::cause::Cause;
use crate::column_cause::ColumnCause;
use crate::command_cause::CommandCause;
use crate::header_number::HeaderNumber;
use crate::history::History;
use crate::need::Need;
use crate::output_cause::OutputCause;
use crate::refused::Refused;
use crate::rows_cause::RowsCause;
use crate::shape_cause::ShapeCause;
use crate::unready_cause::UnreadyCause;
use micro_claims::{Bounds, Fault, Reason, State, bound_plus, cost};
use micro_program::continues_cache_read;
use micro_walk::known_before;
use micro_word::{Text, Word};
use nand_geometry::Geometry;
use onfi_cycle::Command;
use std::alloc::Allocator;

/// What stands behind a fault that `micro_walk::examine` tells of this text for this geometry; None where there is no more to say. It takes
/// no memory: it walks the text once more, and keeps what is known before each word on the stack.
pub fn explain<A: Allocator>(text: &Text<A>, geometry: &Geometry, fault: Fault) -> Option<Cause> {
    let (words, at) = (text.words(), fault.word);
    match fault.reason {
        Reason::NoWords | Reason::LastWordNotEnd => None,
        Reason::LoopUnpaired => Some(Cause::Shape(ShapeCause::of_unpaired(words, at))),
        Reason::LoopsTooDeep => Some(Cause::Shape(ShapeCause::of_nested(words, at)?)),
        Reason::BranchMisplaced => Some(Cause::Shape(ShapeCause::of_branch(words, at)?)),
        Reason::CycleForbidden
        | Reason::AddressUnaligned
        | Reason::HandoverInSequence
        | Reason::BufferPassed
        | Reason::RowOrPlaneOutside
        | Reason::ColumnTooLarge
        | Reason::NoStatus
        | Reason::EndsTooSoon
        | Reason::OverBudget
        | Reason::CommandNotAllowed => explain_word(text, geometry, fault),
    }
}

// What stands behind a fault of a word. Where what is known isn't against it, the verifier has given it up.
fn explain_word<A: Allocator>(text: &Text<A>, geometry: &Geometry, fault: Fault) -> Option<Cause> {
    let bounds = bounds_of(text);
    let words = text.words();
    let word = *words.get(fault.word)?;
    let state = match known_before(text, geometry, fault.word) {
        Some(state) if state.reason_against(geometry, bounds, word) == Some(fault.reason) => state,
        _ => State::unknown(),
    };
    let history = History::before(words, fault.word, geometry.parts().luns > 1);
    let refused = Refused {
        words,
        at: fault.word,
        word,
        geometry,
        bounds,
        state: &state,
        history,
        turned: history.turned(words, fault.word),
    };
    cause_of(&refused, fault.reason)
}

// What the header says, and whether a cache read goes on.
fn bounds_of<A: Allocator>(text: &Text<A>) -> Bounds {
    Bounds {
        rows: u32::from(text.rows()),
        buffer: text.buffer(),
        budget: text.budget(),
        continues_cache_read: continues_cache_read(text.words()),
    }
}

// What stands behind a reason against a word.
fn cause_of(refused: &Refused<'_>, reason: Reason) -> Option<Cause> {
    match reason {
        Reason::CycleForbidden => forbidden(refused),
        Reason::AddressUnaligned => Some(Cause::Alignment(unaligned(refused))),
        Reason::HandoverInSequence => Some(Cause::Handover(refused.open())),
        Reason::BufferPassed => Some(Cause::Buffer(buffer_need(refused)?)),
        Reason::RowOrPlaneOutside => Some(Cause::Rows(rows_cause(refused)?)),
        Reason::ColumnTooLarge => Some(Cause::Column(column_cause(refused)?)),
        Reason::NoStatus => Some(Cause::NoPoll),
        Reason::EndsTooSoon => Some(Cause::Unready(UnreadyCause::of(refused)?)),
        Reason::OverBudget => Some(Cause::Budget(budget_need(refused))),
        Reason::CommandNotAllowed => Some(Cause::Barred(barred(refused)?)),
        Reason::NoWords
        | Reason::LoopUnpaired
        | Reason::LoopsTooDeep
        | Reason::BranchMisplaced
        | Reason::LastWordNotEnd => None,
    }
}

// Why a cycle of the word isn't permitted.
fn forbidden(refused: &Refused<'_>) -> Option<Cause> {
    match refused.word {
        Word::Command { byte } => {
            Some(Cause::Command(CommandCause::of(refused, Command::of(byte))?))
        }
        Word::Address { count, .. } => Some(Cause::Address(AddressCause::of(refused, count)?)),
        Word::Get { .. } => Some(Cause::Output(OutputCause::of(refused)?)),
        Word::Put { .. } => Some(Cause::Input(refused.open())),
        Word::ReadStatus => Some(Cause::Poll(refused.open())),
        Word::End { .. }
        | Word::Seek { .. }
        | Word::Column { .. }
        | Word::RowAdd { .. }
        | Word::Row { .. }
        | Word::Plane { .. }
        | Word::Wait
        | Word::Yield
        | Word::BranchOnStatus { .. }
        | Word::Loop { .. }
        | Word::Next
        | Word::Jump { .. } => None,
    }
}

// What is wrong with how an address is given.
fn unaligned(refused: &Refused<'_>) -> AlignmentCause {
    if matches!(refused.word, Word::Address { .. }) {
        AlignmentCause::Begins(refused.open())
    } else {
        AlignmentCause::Changes(refused.open())
    }
}

// How long the buffer would have to be.
fn buffer_need(refused: &Refused<'_>) -> Option<Need> {
    let (Word::Get { len } | Word::Put { len }) = refused.word else {
        return None;
    };
    Some(Need {
        number: HeaderNumber::Buffer,
        needed: bound_plus(refused.state.registers.place.hi(), u64::from(len)),
        given: refused.bounds.buffer,
    })
}

// How many cycles the words up to this one may cost.
fn budget_need(refused: &Refused<'_>) -> Need {
    let cost = cost(refused.geometry, refused.word);
    Need {
        number: HeaderNumber::Budget,
        needed: bound_plus(refused.state.registers.cost.hi(), cost),
        given: refused.bounds.budget,
    }
}

// Which row or plane may be outside.
fn rows_cause(refused: &Refused<'_>) -> Option<RowsCause> {
    match refused.word {
        Word::Command { byte } => RowsCause::of_command(refused, Command::of(byte)),
        Word::Address { .. } => RowsCause::of_address(refused),
        Word::Plane { plane } => Some(RowsCause::NoPlane { plane }),
        _ => None,
    }
}

// Which column may be too large.
fn column_cause(refused: &Refused<'_>) -> Option<ColumnCause> {
    match refused.word {
        Word::Address { .. } => Some(ColumnCause::of_address(refused)),
        Word::Get { len } => Some(ColumnCause::of_outputs(refused, len)),
        Word::Put { len } => Some(ColumnCause::of_inputs(refused, len)),
        _ => None,
    }
}

// Why programs may not use the command.
fn barred(refused: &Refused<'_>) -> Option<BarredCause> {
    match refused.word {
        Word::Command { byte } => BarredCause::of(refused, byte),
        _ => None,
    }
}
