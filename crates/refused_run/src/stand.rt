//! Where a program stands in a run.
ghost use Rattle.std.specs.Prelude.{◌≡◌, ◌<◌, ◌^◌};
ghost use Rattle.refused_run.specs.Stand.{is_poll, keeps_bus, done, stand_after};
ghost use Rattle.seq_core.specs.Progress.{reaches};

use crate::loops::{LoopTurn, Loops};
use micro_claims::cost;
use micro_word::Word;
use nand_geometry::Geometry;
use seq_core::outcome::outcome_of;
use seq_core::{Registers, Stepped};

/// Where a program stands: the place of its next word, the loops around that, what its words have set, how many cycles they cost, whether one has
/// polled the status, and whether it has the bus.
#[derive(Clone, Copy, Debug, PartialEq, Eq)]
pub struct Stand {
    pub at: usize,
    pub loops: Loops,
    pub registers: Registers,
    pub spent: u64,
    pub polled: bool,
    pub holds: bool,
}

// The word asks for the status.
fn is_poll(word: Word) -> bool
    ensures { result ≡ is_poll word }
{
    matches!(word, Word::Wait | Word::ReadStatus)
}

impl Stand {
    /// Before the first word.
    pub(crate) const FIRST: Stand = Stand {
        at: 0,
        loops: Loops::NONE,
        registers: Registers {
            column: 0,
            index: 0,
            plane: 0,
            place: 0,
            status: 0,
        },
        spent: 0,
        polled: false,
        holds: false,
    };

    // Behind a word that is done; a poll has brought this status.
    fn done(self, geometry: &Geometry, word: Word, status: u8) -> Stand
        requires inside { self.at < 2 ^ 16 }
        requires place { reaches self.registers.place word < 2 ^ 32 }
        requires spent { self.spent < 2 ^ 63 }
        ensures { result ≡ done geometry.now self word status }
    {
        let next = Stand {
            at: self.at + 1,
            registers: self.registers.after(0, word, status),
            spent: self.spent + cost(geometry, word),
            polled: self.polled || is_poll(word),
            holds: !matches!(word, Word::Yield),
            ..self
        };
        match word {
            Word::Loop { turns } => Stand {
                loops: self.loops.enter(LoopTurn {
                    start: self.at + 1,
                    left: turns.saturating_sub(1),
                }),
                ..next
            },
            Word::Next => Stand {
                at: self.loops.next_place(self.at),
                loops: self.loops.after_turn(),
                ..next
            },
            Word::Jump { target } => Stand {
                at: usize::from(target),
                ..next
            },
            Word::BranchOnStatus { mask, target } if self.registers.status & mask != 0 => Stand {
                at: usize::from(target),
                ..next
            },
            _ => next,
        }
    }

    /// Behind a word whose cycles have come; a poll has brought this status. A `wait` that it tells busy comes again, and the bus is free.
    pub(crate) fn after(self, geometry: &Geometry, word: Word, status: u8) -> Stand
        requires inside { self.at < 2 ^ 16 }
        requires place { reaches self.registers.place word < 2 ^ 32 }
        requires spent { self.spent < 2 ^ 63 }
        ensures { result ≡ stand_after geometry.now self word status }
    {
        match outcome_of(word, status) {
            Stepped::NotReady => Stand {
                holds: false,
                ..self
            },
            _ => self.done(geometry, word, status),
        }
    }
}
