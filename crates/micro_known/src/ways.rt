//! The ways that lead to a word, and what each of them brings.

use crate::aspect::{Aspect, InWords};
use crate::known_words::KnownWords;
use micro_claims::State;
use micro_word::Word;
use std::alloc::{AllocError, Allocator};

/// A word, and the words before it that lead there.
#[derive(Drop)]
pub struct Ways<A: Allocator> {
    pub word: usize,
    /// The words that lead there; they rise.
    pub from: Vec<usize, A>,
}

// Whether the word at a place leads to another place.
fn leads(word: Word, at: usize, to: usize) -> bool {
    let is_next = at.saturating_add(1) == to;
    match word {
        Word::End { .. } => false,
        Word::Jump { target } => usize::from(target) == to,
        Word::BranchOnStatus { target, .. } => is_next || usize::from(target) == to,
        Word::Command { .. }
        | Word::Address { .. }
        | Word::Get { .. }
        | Word::Put { .. }
        | Word::Seek { .. }
        | Word::Column { .. }
        | Word::RowAdd { .. }
        | Word::Row { .. }
        | Word::Plane { .. }
        | Word::Wait
        | Word::Yield
        | Word::ReadStatus
        | Word::Loop { .. }
        | Word::Next => is_next,
    }
}

impl<A: Allocator> Ways<A> {
    /// The ways that lead to a word of these.
    pub fn to(alloc: A, words: &[Word], word: usize) -> Result<Ways<A>, AllocError> {
        let mut from = Vec::new(alloc);
        for (place, before) in words.iter().enumerate() {
            if place < word && leads(*before, place, word) {
                from.push(place)?;
            }
        }
        Ok(Ways { word, from })
    }

    /// Where ways meet last, up to this word; None where none meet.
    pub fn met_before(alloc: A, words: &[Word], at: usize) -> Result<Option<Ways<A>>, AllocError>
    where
        A: Clone,
    {
        for word in (0..=at).rev() {
            let ways = Ways::to(alloc.clone()?, words, word)?;
            if ways.meet() {
                return Ok(Some(ways));
            }
        }
        Ok(None)
    }

    /// Whether several ways meet there.
    pub fn meet(&self) -> bool {
        1 < self.from.len()
    }
}

// Adds what a way brings of these aspects that isn't known where the ways have met.
fn push_way<A: Allocator + Clone>(
    lines: &mut String<A>,
    alloc: A,
    aspects: &[Aspect],
    brought: &State,
    met: &State,
) -> Result<bool, AllocError> {
    let mut is_said = false;
    for aspect in aspects.iter() {
        let aspect = *aspect;
        let one = format!(in alloc.clone()?;
            "{}",
            InWords {
                aspect,
                state: brought
            }
        )?;
        let other = format!(in alloc.clone()?; "{}", InWords { aspect, state: met })?;
        if one.as_str() != other.as_str() {
            lines.push_str(if is_said { ", " } else { " brings: " })?;
            lines.push_str(one.as_str())?;
            is_said = true;
        }
    }
    Ok(is_said)
}

/// Adds what each way to a word brings that isn't known there, since another way doesn't: `word 4 brings: the LUN is ready; word 9 brings: row 3`. False where
/// nothing is forgotten, and nothing is added then.
pub fn push_brought<A: Allocator + Clone>(
    lines: &mut String<A>,
    alloc: A,
    known: &KnownWords<A>,
    words: &[Word],
    ways: &Ways<A>,
) -> Result<bool, AllocError> {
    let Some(met) = known.before(ways.word) else {
        return Ok(false);
    };
    let mut is_said = false;
    for place in ways.from.iter() {
        let Some(word) = words.get(*place) else {
            continue;
        };
        if let Some(brought) = known.behind(*place, *word) {
            let mut way = String::new(alloc.clone()?);
            if push_way(&mut way, alloc.clone()?, known.aspects(), &brought, met)? {
                let between = if is_said { "; " } else { "" };
                write!(lines, "{between}word {place}{way}")?;
                is_said = true;
            }
        }
    }
    Ok(is_said)
}
