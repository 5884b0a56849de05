//! Which words of a text may lead to a word.

use micro_word::Word;
use std::alloc::{AllocError, Allocator};

// The place of the `loop` of the `next` at a place; the place itself where it has none.
fn loop_of(words: &[Word], at: usize) -> usize {
    let mut open = 0usize;
    for place in (0..at.min(words.len())).rev() {
        match words[place] {
            Word::Next => open = open.saturating_add(1),
            Word::Loop { .. } if open == 0 => return place,
            Word::Loop { .. } => open -= 1,
            _ => {}
        }
    }
    at
}

// Whether the place is marked.
fn is_marked(leads: &[bool], at: usize) -> bool {
    at < leads.len() && leads[at]
}

// Whether the word at a place leads on to one that is marked.
fn leads_on(words: &[Word], leads: &[bool], at: usize) -> bool {
    let next = at.saturating_add(1);
    let Some(word) = words.get(at).copied() else {
        return false;
    };
    match word {
        Word::End { .. } => false,
        Word::Jump { target } => is_marked(leads, usize::from(target)),
        Word::BranchOnStatus { target, .. } => {
            is_marked(leads, next) || is_marked(leads, usize::from(target))
        }
        Word::Next => is_marked(leads, next) || is_marked(leads, loop_of(words, at)),
        _ => is_marked(leads, next),
    }
}

// One pass from the last word to the first. Whether it has marked a word.
fn mark_once(words: &[Word], leads: &mut [bool]) -> bool {
    let mut has_marked = false;
    for at in (0..words.len()).rev() {
        if at < leads.len() && !leads[at] && leads_on(words, leads, at) {
            leads[at] = true;
            has_marked = true;
        }
    }
    has_marked
}

// How many passes are made at most: loops are nested four deep.
const MOST_PASSES: usize = 8;

/// For each word whether it may lead to the word at a place.
pub(crate) fn find_leading<A: Allocator>(
    alloc: A,
    words: &[Word],
    to: usize,
) -> Result<Vec<bool, A>, AllocError> {
    let mut leads = vec![in alloc; false; words.len()]?;
    if to < leads.len() {
        leads[to] = true;
    }
    for _ in 0..MOST_PASSES {
        if !mark_once(words, leads.as_mut_slice()) {
            return Ok(leads);
        }
    }
    Ok(leads)
}

/// Whether each loop around a place that a run stands in is in its first, second or last turn.
pub(crate) fn is_notable(words: &[Word], start: usize, left: u16) -> bool {
    match start.checked_sub(1) {
        Some(head) if head < words.len() => match words[head] {
            Word::Loop { turns } => left == 0 || turns.saturating_sub(left) <= 2,
            _ => true,
        },
        Some(_) | None => true,
    }
}

// How many words are looked at from a poll on.
const MOST_LOOKED_AT: usize = 64;

// Where a word leads that is no poll and ends no turn, by a status.
fn next_of(word: Word, at: usize, status: u8) -> Option<usize> {
    match word {
        Word::BranchOnStatus { mask, target } if status & mask != 0 => Some(usize::from(target)),
        Word::Jump { target } => Some(usize::from(target)),
        Word::Wait | Word::ReadStatus | Word::Loop { .. } | Word::Next | Word::End { .. } => None,
        Word::Command { .. }
        | Word::Address { .. }
        | Word::Get { .. }
        | Word::Put { .. }
        | Word::Seek { .. }
        | Word::Column { .. }
        | Word::RowAdd { .. }
        | Word::Row { .. }
        | Word::Plane { .. }
        | Word::Yield
        | Word::BranchOnStatus { .. } => Some(at.saturating_add(1)),
    }
}

/// Whether a status leads, from a place up to the next poll, to a word from which no way leads to the word that is looked for, at another place.
pub(crate) fn leads_astray(
    words: &[Word],
    leads: &[bool],
    from: usize,
    to: usize,
    status: u8,
) -> bool {
    let mut at = from;
    for _ in 0..MOST_LOOKED_AT {
        if at == to {
            return false;
        }
        if !is_marked(leads, at) {
            return true;
        }
        let Some(word) = words.get(at).copied() else {
            return true;
        };
        match next_of(word, at, status) {
            None => return false,
            Some(next) => at = next,
        }
    }
    false
}
