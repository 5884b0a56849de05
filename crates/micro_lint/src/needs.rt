//! How much of each number of the header words need.

use micro_claims::{State, bound_plus, cost};
use micro_word::Word;
use nand_geometry::Geometry;
use onfi_cycle::Command;

/// How much of each number of the header words need; None where there is no bound.
#[derive(Clone, Copy)]
pub(crate) struct Needs {
    pub rows: Option<u32>,
    pub buffer: Option<u32>,
    pub budget: Option<u32>,
}

// A 31h goes on to the next row: one that the tail wants goes on at the row of its address.
fn goes_to_next_row(state: &State, command: Command) -> bool {
    command == Command::ReadCacheSequential && !state.target.tail.wants(command)
}

// How many rows a word needs: those up to the one that an address names, or to which a cache read goes on.
fn rows_needed(state: &State, word: Word) -> Option<u32> {
    match word {
        Word::Address { from, count } if u32::from(from) + u32::from(count) > 2 => {
            bound_plus(state.registers.index.hi(), 1)
        }
        Word::Command { byte } if goes_to_next_row(state, Command::of(byte)) => {
            bound_plus(state.lun.cached.index.hi(), 2)
        }
        _ => Some(1),
    }
}

// How many bytes of the buffer a word needs.
fn buffer_needed(state: &State, word: Word) -> Option<u32> {
    match word {
        Word::Get { len } | Word::Put { len } => {
            bound_plus(state.registers.place.hi(), u64::from(len))
        }
        _ => Some(0),
    }
}

// How many cycles the words up to this one may cost; nothing is needed for a word without a cost.
fn budget_needed(geometry: &Geometry, state: &State, word: Word) -> Option<u32> {
    match cost(geometry, word) {
        0 => Some(0),
        cost => bound_plus(state.registers.cost.hi(), cost),
    }
}

// The greater of two needs.
fn greater(one: Option<u32>, other: Option<u32>) -> Option<u32> {
    Some(one?.max(other?))
}

impl Needs {
    /// The least that a header gives.
    pub(crate) fn least() -> Needs {
        Needs {
            rows: Some(1),
            buffer: Some(0),
            budget: Some(0),
        }
    }

    /// What a word needs.
    pub(crate) fn of(geometry: &Geometry, state: &State, word: Word) -> Needs {
        Needs {
            rows: rows_needed(state, word),
            buffer: buffer_needed(state, word),
            budget: budget_needed(geometry, state, word),
        }
    }

    /// What both need.
    pub(crate) fn and(self, other: Needs) -> Needs {
        Needs {
            rows: greater(self.rows, other.rows),
            buffer: greater(self.buffer, other.buffer),
            budget: greater(self.budget, other.budget),
        }
    }
}
