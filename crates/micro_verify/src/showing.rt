//! The counter of a refused text: its run, up to the cycle that isn't permitted.
ghost use Rattle.std.specs.Prelude.{◌≡◌, ◌<◌, ◌≤◌, ◌^◌, true, [], replicate, length, IfOk, IfErr, Some};
ghost use Rattle.nand_geometry.specs.Limits.{indices};
ghost use Rattle.onfi_cycle.specs.Sequence.{tail, facts_of};
ghost use Rattle.target_bus.specs.Bus.{channel_of};
ghost use Rattle.micro_program.specs.Lines.{all_lead_on};
ghost use Rattle.nand_geometry.specs.Page.{parameter_bytes};
ghost use Rattle.micro_verify.specs.Lazy.{lone_channel};
ghost use Rattle.micro_verify.specs.Calm.{may_show, counter_before, counter_of};
ghost use Rattle.micro_verify.specs.Playing.{IsOfFive, IsNewBus, Shown, ShownAfter};

use crate::lacking::lacks_bytes;
use crate::playing::{Outcome, perform, perform_all};
use crate::registers::Registers;
use die_model::LunDie;
use micro_claims::{Fault, Reason};
use micro_program::all_lead_on;
use micro_word::{Text, Word};
use nand_geometry::Geometry;
use onfi_cycle::{Cycle, Item, TailFacts};
use std::alloc::{AllocError, Allocator, Global};
use target_bus::{Bus, BusFault};

/// A run that ends at a cycle which isn't permitted: the words before a refused one and its first cycles, on a channel of one LUN whose
/// pages are all FF, with a buffer all 00 and a LUN that becomes ready only where a `wait` finds it busy.
#[derive(Drop)]
pub struct Counter<A: Allocator = Global> {
    /// The page index from which the text runs: 0.
    pub base: u32,
    /// What has happened, in the order of time: a legal trace.
    pub items: Vec<Item, A>,
    /// The cycle that isn't permitted after it; an output is shown with byte 00.
    pub cycle: Cycle,
}

// A bus of one new die.
fn lone_bus<A: Allocator + Copy>(alloc: A, geometry: Geometry) -> Result<Bus<A>, AllocError>
    requires { geometry.luns ≡ 1 }
    ensures { IfOk result (λ b. IsNewBus b geometry) }
{
    let mut dies = Vec::with_capacity(alloc, 1)?;
    dies.push(LunDie::new(alloc, geometry)?)?;
    match Bus::new(alloc, geometry, dies) {
        Ok(bus) => Ok(bus),
        Err(refused) => match refused.fault {
            BusFault::OutOfMemory => Err(AllocError),
            BusFault::DiesMissing => unreachable!(),
            BusFault::DieUnfit => unreachable!(),
        },
    }
}

// The facts of the tail of the one target.
fn tail_of<A: Allocator + Copy>(bus: &Bus<A>) -> TailFacts
    requires { bus.now.targets ≡ 1 }
    ensures { result ≡ facts_of (tail bus.now.past 0) }
{
    match bus.state().tail(0) {
        Some(tail) => tail,
        None => unreachable!(),
    }
}

// A copy of items.
fn copied<A: Allocator>(alloc: A, items: &[Item]) -> Result<Vec<Item, A>, AllocError>
    ensures { IfOk result (λ v. v.items ≡ items.now) }
{
    items.iter().copied().collect(alloc)
}

// The counter of a word, where those before it have come.
fn counter_after<'a, A: Allocator + Clone>(
    alloc: &'a A,
    bus: &mut Bus<&'a A>,
    buffer: &mut [u8],
    text: &Text<A>,
    registers: Registers,
    word: Word,
) -> Result<Option<Counter<A>>, AllocError>
    requires few_rows { registers.index < 2 ^ 32 }
    requires few_bytes { registers.place < 2 ^ 36 }
    requires inside { IsOfFive word }
    requires one { bus.old.geometry.luns ≡ 1 }
    requires target { bus.old.targets ≡ 1 }
    ensures { IfOk result (λ o. ShownAfter bus.old registers buffer.old text.now.rows text.now.buffer word o) }
{
    let rows = u32::from(text.rows());
    if lacks_bytes(
        &bus.geometry(),
        rows,
        text.buffer(),
        tail_of(bus),
        registers,
        word,
    ) {
        return Ok(None);
    }
    match perform(alloc, bus, registers, buffer, word)? {
        Outcome::Stopped(cycle) => Ok(Some(Counter {
            base: 0,
            items: copied(alloc.clone()?, bus.trace())?,
            cycle,
        })),
        _ => Ok(None),
    }
}

// The counter of a word, from a new bus on.
fn counter_from<'a, A: Allocator + Clone>(
    alloc: &'a A,
    bus: &mut Bus<&'a A>,
    buffer: &mut [u8],
    text: &Text<A>,
    at: usize,
) -> Result<Option<Counter<A>>, AllocError>
    requires one { bus.old.geometry.luns ≡ 1 }
    requires target { bus.old.targets ≡ 1 }
    requires buffer { buffer.old ≡ replicate text.now.buffer 0 }
    requires new { bus.old.past ≡ [] }
    ensures { IfOk result (λ o. Shown o (counter_before (channel_of bus.old) text.now at)) }
{
    let words = text.words();
    if at >= words.len() {
        return Ok(None);
    }
    match perform_all(alloc, bus, buffer, &words[..at])? {
        None => Ok(None),
        Some(registers) => {
            let counter = counter_after(alloc, bus, buffer, text, registers, words[at])?;
            Ok(counter)
        }
    }
}

// The counter of a text at a word, on a new bus.
fn counter_before<'a, A: Allocator + Clone>(
    alloc: &'a A,
    text: &Text<A>,
    geometry: Geometry,
    at: usize,
) -> Result<Option<Counter<A>>, AllocError>
    requires { geometry.luns ≡ 1 }
    ensures { IfOk result (λ o. Shown o (counter_before (lone_channel geometry (parameter_bytes geometry)) text.now at)) }
{
    let mut bus = lone_bus(alloc, geometry)?;
    let mut buffer = vec![in alloc; 0; text.buffer() as usize]?;
    counter_from(alloc, &mut bus, buffer.as_mut_slice(), text, at)
}

// The fault is one that may carry a counter.
fn may_show<A: Allocator>(text: &Text<A>, geometry: &Geometry, fault: Fault) -> bool
    ensures { result ≡ may_show geometry.now text.now fault }
{
    fault.reason == Reason::CycleForbidden
        && geometry.parts().luns == 1
        && all_lead_on(text.words())
        && u32::from(text.rows()) <= geometry.indices()
}

/// The counter of a text with a fault: for V7 of a text without branches and loops, for a geometry of one LUN with as many rows as
/// the text has, where the bytes of the word are there; else none. Takes memory for such a V7 alone.
pub fn counter_of<A: Allocator + Clone>(
    text: &Text<A>,
    geometry: &Geometry,
    fault: Fault,
) -> Result<Option<Counter<A>>, AllocError>
    ensures value { IfOk result (λ o. Shown o (counter_of geometry.now text.now fault)) }
    ensures memory { IfErr result (λ _. may_show geometry.now text.now fault ≡ true) }
{
    if may_show(text, geometry, fault) {
        counter_before(text.allocator(), text, *geometry, fault.word)
    } else {
        Ok(None)
    }
}
