//! What is known before each word, as far as notes speak of it.

use crate::needs::Needs;
use micro_claims::{Shown, State};
use micro_walk::fill_known;
use micro_word::{Text, Word};
use nand_geometry::Geometry;
use std::alloc::{AllocError, Allocator};

/// What is known before a word, on every way that leads to it.
#[derive(Clone, Copy)]
pub(crate) struct Facts {
    /// The LUN is ready.
    pub is_ready: bool,
    /// What the LUN may show; None where it may not drive the bus alone.
    pub shows: Option<Shown>,
    /// The register of the LUN holds something.
    pub holds_data: bool,
    /// What the word needs of the header.
    pub needs: Needs,
}

impl Facts {
    // What is known before a word.
    fn of(geometry: &Geometry, state: &State, word: Word) -> Facts {
        Facts {
            is_ready: !state.lun.busy,
            shows: state.target.shows,
            holds_data: state.lun.register.is_some(),
            needs: Needs::of(geometry, state, word),
        }
    }

    /// The LUN shows its status and nothing else.
    pub(crate) fn shows_status_alone(self) -> bool {
        match self.shows {
            None => false,
            Some(shown) => shown.shows_status() && !shown.shows_register(),
        }
    }

    /// A `get` may read the status.
    pub(crate) fn may_show_status(self) -> bool {
        match self.shows {
            None => true,
            Some(shown) => shown.shows_status(),
        }
    }
}

/// What is known before the word at a place, where some way leads to it.
pub(crate) fn facts_at(facts: &[Option<Facts>], at: usize) -> Option<Facts> {
    match facts.get(at) {
        None => None,
        Some(facts) => *facts,
    }
}

// A table with a place for each of so many words: nothing is known yet before any of them.
fn nothing_known<B: Allocator>(
    alloc: B,
    count: usize,
) -> Result<Vec<Option<State>, B>, AllocError> {
    let mut known = Vec::new(alloc);
    for _word in 0..count {
        known.push(None)?;
    }
    Ok(known)
}

/// What is known before each word of a text; None before those to which no way leads.
pub(crate) fn facts_of<A: Allocator, B: Allocator + Clone>(
    alloc: B,
    text: &Text<A>,
    geometry: &Geometry,
) -> Result<Vec<Option<Facts>, B>, AllocError> {
    let words = text.words();
    let mut known = nothing_known(alloc.clone()?, words.len())?;
    fill_known(text, geometry, known.as_mut_slice());
    let mut facts = Vec::new(alloc);
    for (state, word) in known.iter().zip(words.iter()) {
        facts.push(match state {
            None => None,
            Some(state) => Some(Facts::of(geometry, state, *word)),
        })?;
    }
    Ok(facts)
}

/// What all words need of the header to which a way leads.
pub(crate) fn needs_of(facts: &[Option<Facts>]) -> Needs {
    let mut needs = Needs::least();
    for facts in facts {
        if let Some(facts) = facts {
            needs = needs.and(facts.needs);
        }
    }
    needs
}
