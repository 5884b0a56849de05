//! Texts with branches and without loops: what all ways claim that lead to a word, and the lowest word with a reason against it.
ghost use Rattle.std.specs.Prelude.{◌≡◌, ◌<◌, length, replicate, Option, Some, None};
ghost use Rattle.nand_geometry.specs.declared.parts.Parts.{Parts};
ghost use Rattle.micro_claims.specs.declared.state.State.{State};
ghost use Rattle.micro_claims.specs.Accepts.{state_after};
ghost use Rattle.micro_claims.specs.Certificate.{claim};
ghost use Rattle.micro_walk.specs.Faults.{met, reached, led, led_from, known_first, reason_at, followed};

use micro_claims::{Bounds, Fault, Reason, State};
use micro_word::Word;
use nand_geometry::Geometry;

// What is claimed of a place to which one more way leads.
fn met(before: &Option<State>, state: &State) -> Option<State>
    ensures { result ≡ Some (met before.now state.now) }
{
    match before {
        None => Some(*state),
        Some(before) => Some(before.join(state)),
    }
}

/// A way leads to a place with a state.
pub(crate) fn reach(known: &mut [Option<State>], at: usize, state: &State)
    ensures value { known.new ≡ reached known.old at state.now }
    ensures length { length known.new ≡ length known.old }
{
    if at < known.len() {
        known[at] = met(&known[at], state);
    }
}

// A word that leaves this leads to each place where it may lead.
fn lead(known: &mut [Option<State>], at: usize, after: &State, word: Word)
    requires { at < length known.old }
    ensures value { (g : Parts) (s : State) → after.now ≡ state_after g s word → known.new ≡ led g known.old at s word }
    ensures length { length known.new ≡ length known.old }
{
    match word {
        Word::End { .. } => {}
        Word::BranchOnStatus { target, .. } => {
            reach(known, at + 1, after);
            reach(known, usize::from(target), after);
        }
        Word::Jump { target } => reach(known, usize::from(target), after),
        _ => reach(known, at + 1, after),
    }
}

// The word at a place leads from what is known there to each place where it may lead; nowhere, where no way leads to it.
fn lead_from(geometry: &Geometry, known: &mut [Option<State>], at: usize, word: Word)
    requires { at < length known.old }
    ensures value { known.new ≡ led_from geometry.now known.old at (claim known.old at) word }
    ensures length { length known.new ≡ length known.old }
{
    match &known[at] {
        None => {}
        Some(state) => {
            let after = state.after(geometry, word);
            lead(known, at, &after, word);
        }
    }
}

/// The lowest reason against a word; none where no way leads.
pub(crate) fn reason_at(
    geometry: &Geometry,
    bounds: Bounds,
    known: &Option<State>,
    word: Word,
) -> Option<Reason>
    ensures { result ≡ reason_at geometry.now bounds known.now word }
{
    match known {
        None => None,
        Some(state) => state.reason_against(geometry, bounds, word),
    }
}

// The lowest word with a reason against it, by what is known.
fn first_fault(
    geometry: &Geometry,
    bounds: Bounds,
    words: &[Word],
    known: &mut [Option<State>],
) -> Option<Fault>
    requires { length known.old ≡ length words.now }
    ensures { result ≡ followed geometry.now bounds known.old 0 words.now }
{
    for (at, word) in words.iter().enumerate() {
        if let Some(reason) = reason_at(geometry, bounds, &known[at], *word) {
            return Some(Fault { word: at, reason });
        }
        lead_from(geometry, known, at, *word);
    }
    None
}

/// The lowest word with a reason against it, in all ways from the first word on. Nothing is known at first.
pub(crate) fn follow(
    geometry: &Geometry,
    bounds: Bounds,
    words: &[Word],
    known: &mut [Option<State>],
) -> Option<Fault>
    requires { known.old ≡ replicate (length words.now) None }
    ensures { result ≡ followed geometry.now bounds (known_first words.now) 0 words.now }
{
    if !known.is_empty() {
        known[0] = Some(State::first());
    }
    first_fault(geometry, bounds, words, known)
}
