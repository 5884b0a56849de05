//! Examining a text: its shape first, and then, from its first word on, what is known before each word and whether anything is against it.
ghost use Rattle.std.specs.Prelude.{◌≡◌, ◌≤◌, ◌<◌, true, false, length, replicate, Option, Some, None, IsOk, IfOk, IfErr};
ghost use Rattle.micro_claims.specs.declared.refusal.Fault.{Fault};
ghost use Rattle.micro_program.specs.Lines.{all_lead_on};
ghost use Rattle.micro_claims.specs.declared.state.State.{State};
ghost use Rattle.micro_claims.specs.State.{first_state, bounds_of};
ghost use Rattle.micro_walk.specs.Shape.{shape_fault};
ghost use Rattle.micro_walk.specs.Faults.{onward, walked, is_loop, has_loop, before_loops, front_fault};
ghost use Rattle.micro_walk.specs.Searched.{finds_certificate};
ghost use Rattle.micro_walk.specs.Verdicts.{MayBe, IsVerified};

use crate::claim_table::{FEW_WORDS, nothing_known};
use crate::following::{follow, reason_at};
use crate::looping::find_certificate;
use crate::shape::shape_fault;
use micro_claims::{Bounds, Fault, State};
use micro_program::{all_lead_on, continues_cache_read};
use micro_word::{MAX_WORDS, Text, Word};
use nand_geometry::Geometry;
use std::alloc::Allocator;

// What is read off a text before its first word.
pub(crate) fn bounds_of<A: Allocator>(text: &Text<A>) -> Bounds
    ensures { result ≡ bounds_of text.now }
{
    Bounds {
        rows: u32::from(text.rows()),
        buffer: text.buffer(),
        budget: text.budget(),
        continues_cache_read: continues_cache_read(text.words()),
    }
}

// Some word is a loop.
fn has_loop(words: &[Word]) -> bool
    ensures { result ≡ has_loop words.now }
{
    words.iter().any(|word| matches!(word, Word::Loop { .. }))
}

// What is known after a word: nothing after an `end`.
fn onward(geometry: &Geometry, known: Option<State>, word: Word) -> Option<State>
    ensures { result ≡ onward geometry.now known word }
{
    match (known, word) {
        (None, _) | (_, Word::End { .. }) => None,
        (Some(state), _) => Some(state.after(geometry, word)),
    }
}

// The lowest word with a reason against it, of words without branches and loops.
fn first_fault(geometry: &Geometry, bounds: Bounds, words: &[Word]) -> Option<Fault>
    ensures { result ≡ walked geometry.now bounds 0 (Some first_state) words.now }
{
    let mut known = Some(State::first());
    for (place, word) in words.iter().enumerate() {
        if let Some(reason) = reason_at(geometry, bounds, &known, *word) {
            return Some(Fault {
                word: place,
                reason,
            });
        }
        known = onward(geometry, known, *word);
    }
    None
}

/// A text without branches and loops: how many words were walked, or why it is refused.
pub(crate) fn examine_straight<A: Allocator>(
    text: &Text<A>,
    geometry: &Geometry,
) -> Result<u64, Fault>
    requires shape { shape_fault text.now.words ≡ None }
    requires straight { all_lead_on text.now.words ≡ true }
    ensures verified { IfOk result (λ walked. IsVerified text.now geometry.now walked) }
    ensures refused { IfErr result (λ fault. MayBe geometry.now text.now fault) }
{
    let words = text.words();
    match first_fault(geometry, bounds_of(text), words) {
        None => Ok(words.len() as u64),
        Some(fault) => Err(fault),
    }
}

// A text with branches and without loops, with room for what is known before each word.
fn examine_branches<A: Allocator>(
    text: &Text<A>,
    geometry: &Geometry,
    known: &mut [Option<State>],
) -> Result<u64, Fault>
    requires shape { shape_fault text.now.words ≡ None }
    requires no_loops { has_loop text.now.words ≡ false }
    requires room { known.old ≡ replicate (length text.now.words) None }
    ensures verified { IfOk result (λ walked. IsVerified text.now geometry.now walked) }
    ensures refused { IfErr result (λ fault. MayBe geometry.now text.now fault) }
{
    // The call hands out what the proof needs: that the geometry is within its limits.
    let _ = geometry.parts();
    let words = text.words();
    match follow(geometry, bounds_of(text), words, known) {
        None => Ok(words.len() as u64),
        Some(fault) => Err(fault),
    }
}

// How many words stand before the first loop.
fn count_before_loops(words: &[Word]) -> usize
    ensures value { result ≡ before_loops words.now }
    ensures inside { result ≤ length words.now }
    ensures loops { has_loop words.now ≡ true → result < length words.now }
{
    for (place, word) in words.iter().enumerate() {
        if matches!(word, Word::Loop { .. }) {
            return place;
        }
    }
    words.len()
}

// The lowest word before the first loop with a reason against it.
fn front_fault(
    geometry: &Geometry,
    bounds: Bounds,
    words: &[Word],
    known: &mut [Option<State>],
) -> Option<Fault>
    requires { known.old ≡ replicate (length words.now) None }
    ensures value { result ≡ front_fault geometry.now bounds words.now }
    ensures length { length known.new ≡ length known.old }
{
    let count = count_before_loops(words);
    let (front, _) = known.split_at_mut(count);
    follow(geometry, bounds, &words[..count], front)
}

// A text with loops, with room for its certificate. What stands before the first loop is judged first, as in a text without loops.
fn examine_loops<A: Allocator>(
    text: &Text<A>,
    geometry: &Geometry,
    claims: &mut [Option<State>],
) -> Result<u64, Fault>
    requires shape { shape_fault text.now.words ≡ None }
    requires loops { has_loop text.now.words ≡ true }
    requires room { claims.old ≡ replicate (length text.now.words) None }
    ensures verified { IfOk result (λ walked. IsVerified text.now geometry.now walked) }
    ensures refused { IfErr result (λ fault. MayBe geometry.now text.now fault) }
    ensures found { finds_certificate geometry.now text.now ≡ true → IsOk result }
{
    // The call hands out what the proof needs: that the geometry is within its limits.
    let _ = geometry.parts();
    let words = text.words();
    let bounds = bounds_of(text);
    if let Some(fault) = front_fault(geometry, bounds, words, claims) {
        return Err(fault);
    }
    match find_certificate(geometry, bounds, words, claims, count_before_loops(words)) {
        Ok(walked) => Ok(walked),
        Err(fault) => Err(fault),
    }
}

/// A text with branches or loops, with room for what is known before each word.
pub(crate) fn examine_ways<A: Allocator>(
    text: &Text<A>,
    geometry: &Geometry,
    known: &mut [Option<State>],
) -> Result<u64, Fault>
    requires shape { shape_fault text.now.words ≡ None }
    requires room { known.old ≡ replicate (length text.now.words) None }
    ensures verified { IfOk result (λ walked. IsVerified text.now geometry.now walked) }
    ensures refused { IfErr result (λ fault. MayBe geometry.now text.now fault) }
    ensures found { finds_certificate geometry.now text.now ≡ true → IsOk result }
{
    if has_loop(text.words()) {
        examine_loops(text, geometry, known)
    } else {
        examine_branches(text, geometry, known)
    }
}

// A text of few words with branches or loops, with a small table.
#[inline(never)]
fn examine_few<A: Allocator>(text: &Text<A>, geometry: &Geometry) -> Result<u64, Fault>
    requires shape { shape_fault text.now.words ≡ None }
    requires few { length text.now.words ≤ 64 }
    ensures verified { IfOk result (λ walked. IsVerified text.now geometry.now walked) }
    ensures refused { IfErr result (λ fault. MayBe geometry.now text.now fault) }
    ensures found { finds_certificate geometry.now text.now ≡ true → IsOk result }
{
    let mut known = nothing_known::<FEW_WORDS>(text.words().len());
    examine_ways(text, geometry, known.as_mut_slice())
}

// A text of any number of words with branches or loops, with a large table.
#[inline(never)]
fn examine_many<A: Allocator>(text: &Text<A>, geometry: &Geometry) -> Result<u64, Fault>
    requires shape { shape_fault text.now.words ≡ None }
    ensures verified { IfOk result (λ walked. IsVerified text.now geometry.now walked) }
    ensures refused { IfErr result (λ fault. MayBe geometry.now text.now fault) }
    ensures found { finds_certificate geometry.now text.now ≡ true → IsOk result }
{
    let mut known = nothing_known::<MAX_WORDS>(text.words().len());
    examine_ways(text, geometry, known.as_mut_slice())
}

/// Examines a text for a geometry: how many words were walked to find that it is safe, or what is against it.
///
/// First comes the shape of the text: V1 for a text without words, V2 at the lowest `loop` or `next` without its partner, V3 at the lowest `loop` that
/// is nested five deep, V4 at the lowest branch that doesn't lead forward in its own loop, V5 for a last word that isn't `end`. Then, of
/// a text without loops, the lowest word with something against it, in any way that leads to it, and its lowest reason; of a text with
/// loops the same of the words before its first loop, and then a word from there on at which a fault can't be ruled out. Words that no
/// way reaches are looked at for their shape alone.
///
/// It takes no memory: of a text with branches or loops it keeps what is known before each word on the stack (docs/use/SPEED.md says how much
/// that is).
pub fn examine<A: Allocator>(text: &Text<A>, geometry: &Geometry) -> Result<u64, Fault>
    ensures verified { IfOk result (λ walked. IsVerified text.now geometry.now walked) }
    ensures refused { IfErr result (λ fault. MayBe geometry.now text.now fault) }
    // No text with loops is refused of which the search finds a certificate.
    ensures found { finds_certificate geometry.now text.now ≡ true → IsOk result }
{
    let words = text.words();
    if let Some(fault) = shape_fault(words) {
        return Err(fault);
    }
    if all_lead_on(words) {
        return examine_straight(text, geometry);
    }
    if words.len() <= FEW_WORDS {
        examine_few(text, geometry)
    } else {
        examine_many(text, geometry)
    }
}
