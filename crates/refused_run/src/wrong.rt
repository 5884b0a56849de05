//! What is against a word where no cycle of it is looked at.
ghost use Rattle.std.specs.Prelude.{◌≡◌, ◌<◌, ◌^◌, true};
ghost use Rattle.seq_core.specs.Progress.{reaches};
ghost use Rattle.refused_run.specs.Course.{place_of_phase, place_wanted, is_identity, begins_elsewhere, is_amid, is_misplaced, hands_over, is_outside, is_working, is_end, is_branch, costs_too_much, asks_status, is_kept_back, is_wrong, fits_in};

use crate::stand::Stand;
use micro_claims::{Bounds, Reason, cost, first_address};
use micro_word::Word;
use nand_geometry::Geometry;
use onfi_cycle::{Command, DataPhase, LunState, TailFacts};
use seq_core::Registers;

// Which of the two column bytes a change of the write column wants.
fn place_of_phase(phase: DataPhase) -> Option<usize>
    ensures { result ≡ place_of_phase phase }
{
    match phase {
        DataPhase::FirstColumn => Some(0),
        DataPhase::SecondColumn => Some(1),
        _ => None,
    }
}

// Which of the five address bytes a tail wants next.
fn place_wanted(tail: TailFacts) -> Option<usize>
    ensures { result ≡ place_wanted tail.opening tail.phase }
{
    match tail.opening {
        Some(opening) if opening.addresses < opening.opener.address_cycles() => {
            Some(first_address(opening.opener) + opening.addresses)
        }
        Some(_) | None => place_of_phase(tail.phase),
    }
}

// The one address of 90h or ECh is wanted, which may begin at any byte.
fn is_identity(tail: TailFacts) -> bool
    ensures { result ≡ is_identity tail.opening }
{
    match tail.opening {
        None => false,
        Some(opening) => opening.opener.reads_identity() && opening.addresses == 0,
    }
}

// An address begins at another byte than is wanted.
fn begins_elsewhere(tail: TailFacts, from: u8) -> bool
    ensures { result ≡ begins_elsewhere tail from }
{
    match place_wanted(tail) {
        None => false,
        Some(place) => place != usize::from(from) && !is_identity(tail),
    }
}

// An address is begun and not yet whole.
fn is_amid(tail: TailFacts) -> bool
    ensures { result ≡ is_amid tail }
{
    let is_begun = match tail.opening {
        None => false,
        Some(opening) => {
            0 < opening.addresses && opening.addresses < opening.opener.address_cycles()
        }
    };
    is_begun || matches!(tail.phase, DataPhase::SecondColumn)
}

// V8.
fn is_misplaced(tail: TailFacts, word: Word) -> bool
    ensures { result ≡ is_misplaced tail word }
{
    match word {
        Word::Address { from, .. } => begins_elsewhere(tail, from),
        Word::Column { .. } | Word::RowAdd { .. } | Word::Row { .. } | Word::Plane { .. } => {
            is_amid(tail)
        }
        _ => false,
    }
}

// The word hands the bus on.
fn hands_over(word: Word) -> bool
    ensures { result ≡ hands_over word }
{
    matches!(word, Word::Wait | Word::Yield)
}

// How many bytes the buffer has.
fn buffer_of(bounds: &Bounds) -> u32
    ensures { result ≡ bounds.now.buffer }
{
    bounds.buffer
}

/// What a word takes or gives is inside the buffer.
pub(crate) fn fits_in(bounds: &Bounds, registers: Registers, word: Word) -> bool
    ensures value { result ≡ fits_in bounds.now registers word }
    ensures little { result ≡ true → reaches registers.place word < 2 ^ 32 }
{
    match word {
        Word::Get { len } | Word::Put { len } => {
            u64::from(registers.place) + u64::from(len) <= u64::from(buffer_of(bounds))
        }
        _ => true,
    }
}

// V11.
fn is_outside(geometry: &Geometry, bounds: &Bounds, registers: Registers, word: Word) -> bool
    ensures { result ≡ is_outside geometry.now bounds.now registers word }
{
    match word {
        Word::Address { from, count } => {
            2 < u16::from(from) + u16::from(count)
                && (bounds.rows <= registers.index
                    || geometry.planes() <= u32::from(registers.plane))
        }
        _ => false,
    }
}

// The LUN is busy, has a row queued, reads a cache, or programs one.
fn is_working(look: Option<LunState>) -> bool
    ensures { result ≡ is_working look }
{
    match look {
        None => false,
        Some(look) => look.busy || 0 < look.queued || look.caching || look.programming,
    }
}

/// The program ends.
pub(crate) fn is_end(word: Word) -> bool
    ensures { result ≡ is_end word }
{
    matches!(word, Word::End { .. })
}

// V15.
fn costs_too_much(geometry: &Geometry, bounds: &Bounds, spent: u64, word: Word) -> bool
    requires { spent < 2 ^ 63 }
    ensures { result ≡ costs_too_much geometry.now bounds.now spent word }
{
    let more = cost(geometry, word);
    0 < more && u64::from(bounds.budget) < spent + more
}

// The command asks for the status.
fn asks_status(command: Command) -> bool
    ensures { result ≡ asks_status command }
{
    matches!(command, Command::ReadStatus | Command::ReadStatusEnhanced)
}

// A command that programs may not give, whatever the bus says of it.
fn is_kept_back(word: Word) -> bool
    ensures { result ≡ is_kept_back word }
{
    match word {
        Word::Command { byte } => asks_status(Command::of(byte)),
        _ => false,
    }
}

// The word branches on a status.
fn is_branch(word: Word) -> bool
    ensures { result ≡ is_branch word }
{
    matches!(word, Word::BranchOnStatus { .. })
}

/// Whether a reason that needs no cycle stands against a word, by where the program stands, the tail of its target and a look at its LUN.
pub(crate) fn is_wrong(
    geometry: &Geometry,
    bounds: &Bounds,
    stand: &Stand,
    tail: TailFacts,
    look: Option<LunState>,
    word: Word,
    reason: Reason,
) -> bool
    requires { stand.now.spent < 2 ^ 63 }
    ensures { result ≡ is_wrong geometry.now bounds.now stand.now tail look word reason }
{
    match reason {
        Reason::AddressUnaligned => is_misplaced(tail, word),
        Reason::HandoverInSequence => hands_over(word) && tail.is_open(),
        Reason::BufferPassed => !fits_in(bounds, stand.registers, word),
        Reason::RowOrPlaneOutside => is_outside(geometry, bounds, stand.registers, word),
        Reason::NoStatus => is_branch(word) && !stand.polled,
        Reason::EndsTooSoon => is_end(word) && (tail.is_open() || is_working(look)),
        Reason::OverBudget => costs_too_much(geometry, bounds, stand.spent, word),
        Reason::CommandNotAllowed => is_kept_back(word),
        Reason::CycleForbidden
        | Reason::NoWords
        | Reason::LoopUnpaired
        | Reason::LoopsTooDeep
        | Reason::BranchMisplaced
        | Reason::LastWordNotEnd
        | Reason::ColumnTooLarge => false,
    }
}
