//! Stepping the next word of a slot by what its outputs gave.
ghost use Rattle.std.specs.Prelude.{◌≡◌, ℕ, List, Some, length, slice_get};
ghost use Rattle.micro_word.specs.declared.word.Word.{Word as WordValue};
ghost use Rattle.seq_core.specs.Progress.{status_of};
ghost use Rattle.seq_core.specs.Playing.{EndsWithFive};
ghost use Rattle.seq_live.specs.Burst.{bursts_at, taken_by};
ghost use Rattle.seq_live.specs.Calls.{CanMoveBy, HasMovedBy, CanAnswer, AnsweredSteps};

use crate::burst::Burst;
use crate::moving::apply_all;
use micro_word::Word;
use nand_geometry::Geometry;
use onfi_cycle::{BusState, Lun};
use seq_core::{Slot, Stepped};
use std::alloc::Allocator;

/// The status that a word brought, 0 for a word without a poll.
pub fn status_of(word: Word, taken: &[u8]) -> u8
    ensures { result ≡ status_of word taken.now }
{
    match word {
        Word::Wait | Word::ReadStatus => match taken.first() {
            Some(status) => *status,
            None => 0,
        },
        _ => 0,
    }
}

// Goes on with the state by the bursts of the next word of a slot.
fn move_on<A: Allocator>(
    state: &mut BusState,
    geometry: &Geometry,
    slot: &Slot<A>,
    word: Word,
    bursts: &[Burst],
)
    requires can { CanMoveBy geometry.now state.old slot.now.job.lun slot.now.job.buffer slot.now.registers word }
    requires range { EndsWithFive word }
    requires bursts { bursts_at geometry.now slot.now.job.lun slot.now.registers word ≡ Some bursts.now }
    ensures { (bytes : List ℕ) → length bytes ≡ taken_by word
        → HasMovedBy geometry.now state.old state.new slot.now.job.lun slot.now.job.buffer slot.now.registers word bytes }
{
    let _geometry = geometry;
    let _word = word;
    apply_all(state, slot.lun(), slot.buffer(), bursts);
}

/// Steps the next word of a slot, whose bursts are these and whose outputs gave these bytes.
pub(crate) fn play_next<A: Allocator>(
    state: &mut BusState,
    geometry: &Geometry,
    slot: &mut Slot<A>,
    bursts: &[Burst],
    taken: &[u8],
) -> Stepped
    requires can { CanAnswer geometry.now state.old slot.old (length taken.now) }
    requires bursts { (word : WordValue) → slice_get slot.old.job.text.words slot.old.at ≡ Some word → bursts_at geometry.now slot.old.job.lun slot.old.registers word ≡ Some bursts.now }
    ensures { AnsweredSteps geometry.now state.old state.new slot.old taken.now result slot.new }
{
    let word = slot.next_word();
    move_on(state, geometry, slot, word, bursts);
    if let Word::Get { .. } = word {
        let place = slot.registers().place as usize;
        slot.put_taken(place, taken);
    }
    slot.go_on(word, status_of(word, taken))
}
