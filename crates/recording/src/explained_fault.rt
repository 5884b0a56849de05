//! A fault of a trace, and what was seen of it where it stands.

use std::alloc::Global;
use trace_causes::{Cause, CommandAt};
use trace_faults::OutsideSequence;

/// A fault of a trace, and what was seen of it where it stands.
#[derive(Clone, Copy)]
pub(crate) struct ExplainedFault {
    /// Its item, from 0 on.
    pub(crate) item: usize,
    /// Why it isn't permitted, where that has one cause that can be named.
    pub(crate) cause: Option<Cause>,
    /// The opener whose address it is, if it is an address.
    pub(crate) opener: Option<CommandAt>,
}

// How many cycles are passed over of the sequence outside of the profile that an item begins.
fn cycles_outside(outside: &[OutsideSequence], item: usize) -> Option<usize> {
    for sequence in outside {
        if item <= sequence.item {
            return (sequence.item == item).then_some(sequence.cycles);
        }
    }
    None
}

impl ExplainedFault {
    /// Why it isn't permitted in a trace with these sequences outside of the profile, which stand in the order of time.
    pub(crate) fn cause_within(self, outside: &[OutsideSequence]) -> Option<Cause> {
        match (cycles_outside(outside, self.item), self.opener) {
            (None, _) => self.cause,
            (Some(cycles), None) => Some(Cause::Outside { cycles }),
            (Some(cycles), Some(opener)) => Some(Cause::OtherAddress { opener, cycles }),
        }
    }
}

/// Why the first faults of a trace come about.
#[derive(Drop)]
pub struct Explanations {
    pub(crate) explained: Vec<ExplainedFault>,
    /// The sequences outside of the profile, in the order of time.
    pub(crate) outside: Vec<OutsideSequence>,
}

impl Explanations {
    /// Nothing is explained.
    pub(crate) fn nothing(alloc: Global) -> Explanations {
        Explanations {
            explained: Vec::new(alloc),
            outside: Vec::new(alloc),
        }
    }

    /// Why an item isn't permitted, where that has one cause that can be named.
    pub fn cause_of(&self, item: usize) -> Option<Cause> {
        for explained in self.explained.iter() {
            if explained.item == item {
                return explained.cause_within(self.outside.as_slice());
            }
        }
        None
    }
}
