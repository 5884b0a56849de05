//! The check of a certificate: what is claimed before each word leads to what is claimed where the word leads.
ghost use Rattle.std.specs.Prelude.{◌≡◌, ◌+◌, ◌<◌, ◌≤◌, Some, length};
ghost use Rattle.std.specs.Option.{option_copied};
ghost use Rattle.micro_claims.specs.Certificate.{claim, if_there, loop_holds, word_holds, is_certified};
ghost use Rattle.micro_claims.specs.Order.{is_state_within, machine, state_step};

use crate::shape::closer;
use micro_claims::{Bounds, State};
use micro_word::Word;
use nand_geometry::Geometry;

// What is known after a word, where nothing is against it.
#[tactic(auto, unfolding(micro_claims::specs::Order::state_step))]
fn step(geometry: &Geometry, bounds: Bounds, state: &State, word: Word) -> Option<State>
    ensures { result ≡ state_step geometry.now bounds state.now word }
{
    match state.reason_against(geometry, bounds, word) {
        Some(_) => None,
        None => Some(state.after(geometry, word)),
    }
}

// What is claimed before the word at a place.
pub(crate) fn claim(claims: &[Option<State>], at: usize) -> Option<&State>
    ensures { option_copied result ≡ claim claims.now at }
{
    if at < claims.len() {
        claims[at].as_ref()
    } else {
        None
    }
}

// The state claims at least what is claimed at a place.
fn reaches(claims: &[Option<State>], state: &State, at: usize) -> bool
    ensures { result ≡ if_there (claim claims.now at) (is_state_within state.now) }
{
    match claim(claims, at) {
        None => false,
        Some(claimed) => state.is_within(claimed),
    }
}

// A loop whose first word and whose `next` are at these places.
fn loop_holds(
    geometry: &Geometry,
    bounds: Bounds,
    claims: &[Option<State>],
    state: &State,
    turns: u16,
    head: usize,
    next: usize,
) -> bool
    requires { next + 1 ≤ length claims.now }
    ensures { result ≡ loop_holds (machine geometry.now bounds) claims.now state.now turns head (Some next) }
{
    if !reaches(claims, &state.at_head(), head) {
        return false;
    }
    match claim(claims, next) {
        None => true,
        Some(end) => {
            (turns <= 1 || reaches(claims, &state.at_heads(end, turns), head))
                && reaches(claims, &state.after_turns(end, turns), next + 1)
        }
    }
}

// What is claimed before a word leads to what is claimed where the word leads.
pub(crate) fn word_holds(
    geometry: &Geometry,
    bounds: Bounds,
    words: &[Word],
    claims: &[Option<State>],
    at: usize,
    state: &State,
    word: Word,
) -> bool
    requires inside { at < length words.now }
    requires same { length words.now ≡ length claims.now }
    ensures { result ≡ word_holds (machine geometry.now bounds) words.now claims.now at state.now word }
{
    match word {
        Word::End { .. } => step(geometry, bounds, state, word).is_some(),
        Word::BranchOnStatus { target, .. } => {
            state.registers.polled
                && reaches(claims, state, at + 1)
                && reaches(claims, state, usize::from(target))
        }
        Word::Jump { target } => reaches(claims, state, usize::from(target)),
        Word::Loop { turns } => match closer(words, at + 1) {
            None => false,
            Some(next) => loop_holds(geometry, bounds, claims, state, turns, at + 1, next),
        },
        Word::Next => true,
        _ => match step(geometry, bounds, state, word) {
            None => false,
            Some(after) => reaches(claims, &after, at + 1),
        },
    }
}

/// Whether the claims are a certificate of the words.
pub(crate) fn is_certified(
    geometry: &Geometry,
    bounds: Bounds,
    words: &[Word],
    claims: &[Option<State>],
) -> bool
    ensures { result ≡ is_certified (machine geometry.now bounds) words.now claims.now }
{
    if words.len() != claims.len() || !reaches(claims, &State::first(), 0) {
        return false;
    }
    for (at, word) in words.iter().enumerate() {
        if let Some(state) = &claims[at] {
            if !word_holds(geometry, bounds, words, claims, at, state, *word) {
                return false;
            }
        }
    }
    true
}
