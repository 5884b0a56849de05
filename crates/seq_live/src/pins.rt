//! A step on pins: whoever drives them gives and takes bytes.
ghost use Rattle.std.specs.Prelude.{◌≡◌, ℕ, ◌+◌, ◌≤◌, List, [], Option, None, IfOk, IfErr, length};
ghost use Rattle.onfi_cycle.specs.declared.item.Item.{Item as ItemValue};
ghost use Rattle.onfi_cycle.specs.declared.item.Kind.TheVariants.{Dout};
ghost use Rattle.micro_program.specs.Moves.{part};
ghost use Rattle.seq_live.specs.Burst.{BurstFits, AllFit};
ghost use Rattle.seq_live.specs.Calls.{HasBuffer, IsStepFault, MayStep, live_slot};
ghost use Rattle.seq_live.specs.Driven.{Grows, HasStepped, with_bytes, with_burst, with_bursts, with_word};

use crate::burst::{Burst, taken_by};
use crate::live::Live;
use crate::out_of_turn::OutOfTurn;
use onfi_cycle::{Kind, Lun};
use seq_core::Stepped;
use std::alloc::Allocator;

/// The pins of a channel. Nothing is asked of the bytes that the chips give.
pub trait Pins {
    /// The cycles that have come on the pins, the newest first, where that is known: a driver of real pins knows nothing, one that keeps its trace knows it until it lacks room.
    ghost driven: { Self → Option (List ItemValue) } = { λ _. None };

    /// Gives these bytes to a target, by cycles of one kind: one command, addresses or data inputs.
    fn give(&mut self, ce: u8, kind: Kind, bytes: &[u8])
        ensures { Grows (with_bytes ce kind bytes.now) (driven self.old) (driven self.new) };

    /// Takes bytes from a target by data outputs, as many as there is room.
    fn take(&mut self, ce: u8, bytes: &mut [u8])
        ensures { Grows (with_bytes ce Dout bytes.new) (driven self.old) (driven self.new) };
}

// So many bytes from a place on, or none where there aren't so many.
fn part_of(bytes: &[u8], from: usize, count: usize) -> &[u8]
    ensures { from + count ≤ length bytes.now → result.now ≡ part from count bytes.now }
{
    match bytes.get(from..) {
        None => &[],
        Some(rest) => match rest.get(..count) {
            None => &[],
            Some(part) => part,
        },
    }
}

// Gives the bytes of a burst of a LUN's job. An output gives none: what it takes comes last.
fn give_burst<A: Allocator, P: Pins>(live: &Live<A>, pins: &mut P, lun: Lun, burst: Burst)
    ensures { (buffer : List ℕ) → HasBuffer (live_slot live.now lun) buffer → BurstFits (length buffer) burst
        → Grows (with_burst buffer burst) (P.driven pins.old) (P.driven pins.new) }
{
    match burst {
        Burst::Command { ce, byte } => pins.give(ce, Kind::Cmd, &[byte]),
        Burst::Address {
            ce,
            five,
            from,
            count,
        } => {
            let bytes = part_of(five.as_slice(), usize::from(from), usize::from(count));
            pins.give(ce, Kind::Adr, bytes);
        }
        Burst::Input { ce, place, len } => {
            if let Some(buffer) = live.buffer(lun) {
                pins.give(ce, Kind::Din, part_of(buffer, place, len));
            }
        }
        Burst::Output { .. } => {}
    }
}

// Gives the bytes of these bursts of a LUN's job, one after another.
fn give_bursts<A: Allocator, P: Pins>(live: &Live<A>, pins: &mut P, lun: Lun, bursts: &[Burst])
    ensures { (buffer : List ℕ) → HasBuffer (live_slot live.now lun) buffer → AllFit (length buffer) bursts.now
        → Grows (with_bursts buffer bursts.now) (P.driven pins.old) (P.driven pins.new) }
{
    let mut rest = bursts;
    'rest: while let Some((burst, behind)) = rest.split_first() {
        give_burst(live, pins, lun, *burst);
        rest = behind;
    }
}

// Takes these bytes from a target, if there are any to take.
fn take_bytes<P: Pins>(pins: &mut P, ce: u8, taken: &mut [u8])
    ensures { Grows (with_bytes ce Dout taken.new) (P.driven pins.old) (P.driven pins.new) }
{
    if !taken.is_empty() {
        pins.take(ce, taken);
    }
}

// Does these bursts of a LUN on the pins, one after another: the output comes last.
fn do_bursts<A: Allocator, P: Pins>(
    live: &Live<A>,
    pins: &mut P,
    lun: Lun,
    bursts: &[Burst],
    taken: &mut [u8],
)
    ensures { (buffer : List ℕ) → HasBuffer (live_slot live.now lun) buffer → AllFit (length buffer) bursts.now
        → Grows (with_word lun.ce buffer bursts.now taken.new) (P.driven pins.old) (P.driven pins.new) }
{
    give_bursts(live, pins, lun, bursts);
    take_bytes(pins, lun.ce, taken);
}

// Steps the next word of a LUN on the pins.
fn step_due<A: Allocator, P: Pins>(
    live: &mut Live<A>,
    pins: &mut P,
    lun: Lun,
    taken: &mut [u8],
) -> Result<Stepped, OutOfTurn>
    requires { MayStep live.old lun }
    ensures ok { IfOk result (λ answer. HasStepped live.old lun taken.new answer live.new (P.driven pins.old) (P.driven pins.new)) }
    ensures err { IfErr result (λ e. IsStepFault live.old lun (length taken.old) e × (live.new ≡ live.old) × (P.driven pins.new ≡ P.driven pins.old)) }
{
    let due = live.due_at(lun);
    let count = taken_by(due.word);
    if count > taken.len() {
        return Err(OutOfTurn::NoRoom);
    }
    if live.going().is_some() {
        return Err(OutOfTurn::StepGoesOn);
    }
    let (taken, _) = taken.split_at_mut(count);
    do_bursts(live, pins, lun, due.bursts.as_slice(), taken);
    Ok(live.step_word(lun, &due, taken))
}

/// Steps a LUN on the pins: the bursts of its next word, one after another, and then what the chip answered. `taken` is where the bytes that it gives go, as
/// long as the longest `get` of its program and 1 at least. What comes on the pins are the cycles of this word and no others.
///
/// The answers are those of [`Live::begin`] and [`Live::finish`]. Errors, with all as it was and nothing done on the pins: `StepGoesOn`; `NoRoom` where `taken` is
/// too short for the next word.
pub fn step_on<A: Allocator, P: Pins>(
    live: &mut Live<A>,
    pins: &mut P,
    lun: Lun,
    taken: &mut [u8],
) -> Result<Stepped, OutOfTurn>
    ensures ok { IfOk result (λ answer. HasStepped live.old lun taken.new answer live.new (P.driven pins.old) (P.driven pins.new)) }
    ensures err { IfErr result (λ e. IsStepFault live.old lun (length taken.old) e × (live.new ≡ live.old) × (P.driven pins.new ≡ P.driven pins.old)) }
{
    match live.answer_at_rest(lun) {
        None => step_due(live, pins, lun, taken),
        Some(_) if live.going().is_some() => Err(OutOfTurn::StepGoesOn),
        Some(answer) => Ok(answer),
    }
}
