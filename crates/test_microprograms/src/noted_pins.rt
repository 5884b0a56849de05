//! Pins that keep what was driven, in front of modelled dies.
ghost use Rattle.std.specs.Prelude.{◌∷◌};
ghost use Rattle.onfi_cycle.specs.declared.item.Item.TheVariants.{Cyc};
ghost use Rattle.seq_live.specs.Driven.{Grows, with_bytes};
ghost use Rattle.test_microprograms.specs.Noted.{noted};

use crate::live_run_tests::Chips;
use onfi_cycle::{Cycle, Item, Kind};
use seq_live::Pins;

/// Chips, and the cycles that came on their pins, all of them as long as memory lasts.
#[derive(Drop)]
pub(crate) struct NotedChips {
    pub chips: Chips,
    pub cycles: Vec<Cycle>,
    pub has_all: bool,
}

// Keeps a cycle. Whether all are kept then.
fn note(cycles: &mut Vec<Cycle>, has_all: bool, cycle: Cycle) -> bool
    ensures { Grows (λ past. Cyc cycle ∷ past) (noted has_all cycles.old.items) (noted result cycles.new.items) }
{
    match cycles.push(cycle) {
        Ok(()) => has_all,
        Err(_) => false,
    }
}

// Keeps these bytes as cycles of one kind. Whether all are kept then.
fn note_all(cycles: &mut Vec<Cycle>, has_all: bool, ce: u8, kind: Kind, bytes: &[u8]) -> bool
    ensures { Grows (with_bytes ce kind bytes.now) (noted has_all cycles.old.items) (noted result cycles.new.items) }
{
    let mut whole = has_all;
    let mut rest = bytes;
    'rest: while let Some((byte, behind)) = rest.split_first() {
        let byte = *byte;
        whole = note(cycles, whole, Cycle { ce, kind, byte });
        rest = behind;
    }
    whole
}

impl Pins for NotedChips {
    ghost use Rattle.test_microprograms.specs.Noted.{noted};

    ghost driven = { λ p. noted p.has_all p.cycles.items };

    fn give(&mut self, ce: u8, kind: Kind, bytes: &[u8]) {
        self.chips.give(ce, kind, bytes);
        self.has_all = note_all(&mut self.cycles, self.has_all, ce, kind, bytes);
    }

    fn take(&mut self, ce: u8, bytes: &mut [u8]) {
        self.chips.take(ce, bytes);
        self.has_all = note_all(&mut self.cycles, self.has_all, ce, Kind::Dout, bytes);
    }
}

/// Whether these cycles are those of a trace, without its readies.
pub(crate) fn are_cycles_of(cycles: &[Cycle], trace: &[Item]) -> bool {
    let mut rest = cycles;
    for item in trace {
        if let Item::Cyc(cycle) = item {
            match rest.split_first() {
                Some((first, behind)) if *first == *cycle => rest = behind,
                _ => return false,
            }
        }
    }
    rest.is_empty()
}
