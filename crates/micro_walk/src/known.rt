//! What is known before one word of a text, in every way that leads to it.
ghost use Rattle.std.specs.Prelude.{◌≡◌, ◌≤◌, length};

use crate::certifying::MOST_WALKED;
use crate::check::claim;
use crate::claim_table::{FEW_WORDS, nothing_known};
use crate::examining::bounds_of;
use crate::search::find;
use micro_claims::State;
use micro_program::all_lead_on;
use micro_word::{MAX_WORDS, Text, Word};
use nand_geometry::Geometry;
use std::alloc::Allocator;

// What is known after the first so many words, where none is a branch or a loop.
fn known_straight(geometry: &Geometry, words: &[Word], count: usize) -> State {
    let mut state = State::first();
    for word in words.iter().take(count) {
        state = state.after(geometry, *word);
    }
    state
}

// What the search claims before a word, with room for its claims.
fn known_among<A: Allocator>(
    text: &Text<A>,
    geometry: &Geometry,
    word: usize,
    claims: &mut [Option<State>],
) -> Option<State> {
    // How far the search came and where it stopped says nothing of the claims.
    let _ = find(geometry, bounds_of(text), text.words(), claims, MOST_WALKED);
    claim(claims, word).copied()
}

// The same of a text of few words, with a small table.
#[inline(never)]
fn known_of_few<A: Allocator>(text: &Text<A>, geometry: &Geometry, word: usize) -> Option<State>
    requires few { length text.now.words ≤ 64 }
{
    let mut claims = nothing_known::<FEW_WORDS>(text.words().len());
    known_among(text, geometry, word, claims.as_mut_slice())
}

// The same of a text of any number of words, with a large table.
#[inline(never)]
fn known_of_many<A: Allocator>(text: &Text<A>, geometry: &Geometry, word: usize) -> Option<State> {
    let mut claims = nothing_known::<MAX_WORDS>(text.words().len());
    known_among(text, geometry, word, claims.as_mut_slice())
}

/// What is known before the word at a place, so that a refusal of it can be explained; nothing where no way leads to it, or the search for
/// claims stops before it. Nothing is promised of it. It takes no memory, and as much of the stack as [`examine`](crate::examine).
pub fn known_before<A: Allocator>(
    text: &Text<A>,
    geometry: &Geometry,
    word: usize,
) -> Option<State> {
    let words = text.words();
    if all_lead_on(words) {
        Some(known_straight(geometry, words, word))
    } else if words.len() <= FEW_WORDS {
        known_of_few(text, geometry, word)
    } else {
        known_of_many(text, geometry, word)
    }
}

/// Fills a table with what is known before each word of a text: nothing where no way leads to the word, or the search for claims stops before
/// it. The table has a place for each word. Nothing is promised of what stands there. It takes no memory and little of the stack.
pub fn fill_known<A: Allocator>(text: &Text<A>, geometry: &Geometry, known: &mut [Option<State>])
    ensures { length known.new ≡ length known.old }
{
    // How far the search came and where it stopped says nothing of the claims.
    let _ = find(geometry, bounds_of(text), text.words(), known, MOST_WALKED);
}
