//! The next word of the slot of a number: what it is, its bursts, and stepping it.
ghost use Rattle.std.specs.Prelude.{◌≡◌, ◌<◌, Some, None, IfSome, IfNone, length, get_or, set};
ghost use Rattle.micro_program.specs.Step.{first_byte};
ghost use Rattle.seq_core.specs.Progress.{Progress};
ghost use Rattle.seq_core.specs.Playing.{EndsWithFive};
ghost use Rattle.seq_live.specs.Calls.{CanAnswer, AnsweredSteps, HasBuffer, HasNextWord, HasNextMoves, NextBurstsAre, NextWordIs, is_poll};

use crate::burst::{Bursts, bursts_of};
use crate::playing::play_next;
use micro_word::Word;
use nand_geometry::Geometry;
use onfi_cycle::BusState;
use seq_core::{Slot, Stepped};
use std::alloc::Allocator;

/// The word polls the status of its LUN.
pub fn is_poll(word: Word) -> bool
    ensures { result ≡ is_poll word }
{
    matches!(word, Word::Wait | Word::ReadStatus)
}

/// The status that a poll took: its one byte.
pub(crate) fn status_of(taken: &[u8]) -> u8
    ensures { result ≡ first_byte taken.now }
{
    match taken.first() {
        Some(status) => *status,
        None => 0,
    }
}

/// The buffer of the slot of a number, if it has a job.
pub(crate) fn buffer_in<A: Allocator>(slots: &[Option<Slot<A>>], place: usize) -> Option<&[u8]>
    requires { place < length slots.now }
    ensures some { IfSome result (λ buffer. HasBuffer (get_or slots.now place None) buffer.now) }
    ensures none { IfNone result (get_or slots.now place None ≡ None) }
{
    match &slots[place] {
        None => None,
        Some(slot) => Some(slot.buffer()),
    }
}

/// The next word of the slot of a number.
pub(crate) fn word_in<A: Allocator>(slots: &[Option<Slot<A>>], place: usize) -> Word
    requires inside { place < length slots.now }
    requires next { HasNextWord (get_or slots.now place None) }
    ensures next { NextWordIs (get_or slots.now place None) result }
    ensures range { EndsWithFive result }
{
    match &slots[place] {
        Some(slot) => slot.next_word(),
        None => unreachable!(),
    }
}

/// The next word of a slot, and its bursts.
#[derive(Drop)]
pub(crate) struct Due {
    /// The number of its slot.
    pub(crate) place: usize,
    pub(crate) word: Word,
    pub(crate) bursts: Bursts,
}

/// The next word of the slot of a number, and its bursts.
#[inline(always)]
pub(crate) fn due_in<A: Allocator>(
    geometry: &Geometry,
    slots: &[Option<Slot<A>>],
    place: usize,
) -> Due
    requires inside { place < length slots.now }
    requires next { HasNextMoves geometry.now (get_or slots.now place None) }
    ensures place { result.place ≡ place }
    ensures word { NextWordIs (get_or slots.now place None) result.word }
    ensures range { EndsWithFive result.word }
    ensures bursts { NextBurstsAre geometry.now (get_or slots.now place None) result.bursts.items }
{
    match &slots[place] {
        Some(slot) => {
            let word = slot.next_word();
            match bursts_of(geometry, slot.lun(), slot.registers(), word) {
                Some(bursts) => Due {
                    place,
                    word,
                    bursts,
                },
                None => unreachable!(),
            }
        }
        None => unreachable!(),
    }
}

/// Steps the next word of the slot of a number, whose bursts are these, and whose outputs gave these bytes.
#[inline(always)]
pub(crate) fn step_in<A: Allocator>(
    state: &mut BusState,
    geometry: &Geometry,
    slots: &mut [Option<Slot<A>>],
    place: usize,
    due: &Due,
    taken: &[u8],
) -> Stepped
    requires inside { place < length slots.old }
    requires can { (v : Progress) × (get_or slots.old place None ≡ Some v) × CanAnswer geometry.now state.old v (length taken.now) }
    requires bursts { NextBurstsAre geometry.now (get_or slots.old place None) due.now.bursts.items }
    ensures { (v : Progress) × (u : Progress) × (get_or slots.old place None ≡ Some v)
        × AnsweredSteps geometry.now state.old state.new v taken.now result u × (slots.new ≡ set slots.old place (Some u)) }
{
    match &mut slots[place] {
        Some(slot) => play_next(state, geometry, slot, due.bursts.as_slice(), taken),
        None => unreachable!(),
    }
}
