//! Texts with loops: a certificate that is searched for, and checked.
ghost use Rattle.std.specs.Prelude.{◌≡◌, ◌≤◌, ◌<◌, ◌+◌, ◌*◌, true, length, IsOk, IfOk, IfErr};
ghost use Rattle.micro_claims.specs.declared.refusal.Fault.{Fault};
ghost use Rattle.micro_claims.specs.Certificate.{is_certified};
ghost use Rattle.micro_claims.specs.Order.{machine};
ghost use Rattle.micro_program.specs.Verified.{IsFewWalked};
ghost use Rattle.micro_walk.specs.Searched.{is_found};
ghost use Rattle.micro_walk.specs.Shape.{ends};
ghost use Rattle.micro_walk.specs.Verdicts.{IsOfWord};

use crate::check::{is_certified, word_holds};
use crate::following::reason_at;
use crate::search::{Found, find};
use crate::shape::nests_two_deep;
use micro_claims::{Bounds, Fault, Reason, State};
use micro_word::Word;
use nand_geometry::Geometry;

// How often a word is walked at most: 16 times for each loop around it.
const TWO_DEEP: u32 = 256;

const FOUR_DEEP: u32 = 65_536;

// How many words are walked at most.
fn most_walked(words: &[Word]) -> u32
    requires { length words.now ≤ 1024 }
    ensures few { IsFewWalked words.now result }
    ensures enough { 256 * length words.now ≤ result }
{
    let each = if nests_two_deep(words) {
        TWO_DEEP
    } else {
        FOUR_DEEP
    };
    each * words.len() as u32
}

// The last word, an `end`: it comes too soon where the LUN may be busy.
fn busy_at_end(geometry: &Geometry, bounds: Bounds, words: &[Word]) -> Fault
    requires ends { ends words.now ≡ true }
    ensures of_word { IsOfWord geometry.now bounds words.now result }
    ensures last { length words.now ≡ result.word + 1 }
{
    Fault {
        word: words.len() - 1,
        reason: Reason::EndsTooSoon,
    }
}

// The first word from a place on with a reason against it where nothing is known; the last one has one.
fn first_against_unknown(geometry: &Geometry, bounds: Bounds, words: &[Word], from: usize) -> Fault
    requires ends { ends words.now ≡ true }
    requires inside { from < length words.now }
    ensures of_word { IsOfWord geometry.now bounds words.now result }
    ensures behind { from ≤ result.word }
{
    let unknown = Some(State::unknown());
    for at in from..words.len() {
        if let Some(reason) = reason_at(geometry, bounds, &unknown, words[at]) {
            return Fault { word: at, reason };
        }
    }
    busy_at_end(geometry, bounds, words)
}

// The lowest reason against the word at a place, by what is claimed there. Where there is none, the claims are given up from there on.
fn fault_there(
    geometry: &Geometry,
    bounds: Bounds,
    words: &[Word],
    claims: &[Option<State>],
    at: usize,
) -> Fault
    requires inside { at < length words.now }
    requires same { length words.now ≡ length claims.now }
    requires ends { ends words.now ≡ true }
    ensures of_word { IsOfWord geometry.now bounds words.now result }
    ensures behind { at ≤ result.word }
{
    match reason_at(geometry, bounds, &claims[at], words[at]) {
        Some(reason) => Fault { word: at, reason },
        None => first_against_unknown(geometry, bounds, words, at),
    }
}

// The first place whose claim doesn't lead to what is claimed where its word leads; the first place of all, if there is none.
fn first_unheld(
    geometry: &Geometry,
    bounds: Bounds,
    words: &[Word],
    claims: &[Option<State>],
) -> usize
    requires some { 0 < length words.now }
    requires same { length words.now ≡ length claims.now }
    ensures { result < length words.now }
{
    for at in 0..words.len() {
        if let Some(state) = &claims[at] {
            if !word_holds(geometry, bounds, words, claims, at, state, words[at]) {
                return at;
            }
        }
    }
    0
}

/// Looks for a certificate of words and checks it: how many words were walked, or a word that couldn't be shown to be safe, which is the one
/// of number `first` or one behind it.
pub(crate) fn find_certificate(
    geometry: &Geometry,
    bounds: Bounds,
    words: &[Word],
    claims: &mut [Option<State>],
    first: usize,
) -> Result<u64, Fault>
    requires first { first < length words.now }
    requires ends { ends words.now ≡ true }
    requires few { length words.now ≤ 1024 }
    requires same { length words.now ≡ length claims.old }
    ensures certified { IfOk result (λ walked. is_certified (machine geometry.now bounds) words.now claims.new ≡ true) }
    ensures walked { IfOk result (λ walked. IsFewWalked words.now walked) }
    ensures refused { IfErr result (IsOfWord geometry.now bounds words.now) }
    ensures behind { IfErr result (λ fault. first ≤ fault.word) }
    // No words are refused of which the search finds a certificate.
    ensures found { is_found geometry.now bounds words.now ≡ true → IsOk result }
{
    let Found { walked, stopped } = find(geometry, bounds, words, claims, most_walked(words));
    let at = match stopped {
        Some(at) if at < words.len() => at,
        _ if is_certified(geometry, bounds, words, claims) => return Ok(u64::from(walked)),
        _ => first_unheld(geometry, bounds, words, claims),
    };
    Err(fault_there(geometry, bounds, words, claims, at.max(first)))
}
