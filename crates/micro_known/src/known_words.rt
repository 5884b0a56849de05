//! What is known before each word of a text.

use crate::aspect::Aspect;
use micro_claims::State;
use micro_walk::fill_known;
use micro_word::{Text, Word};
use nand_geometry::Geometry;
use onfi_cycle::{Command, is_undeclared};
use std::alloc::{AllocError, Allocator};

/// What is known before each word of a text: the states of the verifier's search.
#[derive(Drop)]
pub struct KnownWords<A: Allocator> {
    geometry: Geometry,
    states: Vec<Option<State>, A>,
}

impl<A: Allocator> KnownWords<A> {
    /// Searches for what is known before each word of a text on chips of this geometry.
    pub fn find(alloc: A, text: &Text<A>, geometry: Geometry) -> Result<KnownWords<A>, AllocError> {
        let mut states = Vec::new(alloc);
        for _ in text.words() {
            states.push(None)?;
        }
        fill_known(text, &geometry, states.as_mut_slice());
        Ok(KnownWords { geometry, states })
    }

    /// What is told before each word: which planes hold a page of a chip alone whose programs may select or copy one.
    pub fn aspects(&self) -> &'static [Aspect] {
        if !is_undeclared(&self.geometry, Command::CopybackRead) {
            Aspect::ALL
        } else if !is_undeclared(&self.geometry, Command::ChangeReadColumnEnhanced) {
            Aspect::WITH_HELD
        } else {
            Aspect::BASE
        }
    }

    /// What is known before the word of this number; None where no way leads to it, or the search stops before it.
    pub fn before(&self, word: usize) -> Option<&State> {
        match self.states.as_slice().get(word) {
            Some(Some(state)) => Some(state),
            Some(None) | None => None,
        }
    }

    /// What is known behind this word, where it stands at this number.
    pub fn behind(&self, number: usize, word: Word) -> Option<State> {
        let state = self.before(number)?;
        Some(state.after(&self.geometry, word))
    }
}
