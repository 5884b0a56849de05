//! The shape of a text: which loops its places stand in, and where its branches lead.
ghost use Rattle.std.specs.Prelude.{◌≡◌, ◌+◌, ◌<◌, ◌≤◌, true, length, IfSome};
ghost use Rattle.micro_claims.specs.declared.refusal.Reason.TheVariants.{LastWordNotEnd};
ghost use Rattle.micro_program.specs.Nested.{closer, is_same, leads_forward};
ghost use Rattle.micro_walk.specs.Shape.{first_where, fault_at, ends, unended, misshapen, shape_fault, is_misshapen, around, TellsFrom};
ghost use Rattle.micro_program.specs.Verified.{NestsTwoDeep};

use micro_claims::{Fault, Reason};
use micro_word::{MAX_WORDS, Word};

// The place of the `next` of the innermost loop around a place.
pub(crate) fn closer(words: &[Word], at: usize) -> Option<usize>
    ensures value { result ≡ closer words.now at }
    ensures there { IfSome result (λ next. next < length words.now) }
{
    let mut depth: usize = 0;
    for place in at..words.len() {
        match words[place] {
            Word::Next => {
                if depth == 0 {
                    return Some(place);
                }
                depth -= 1;
            }
            Word::Loop { .. } => depth += 1,
            _ => {}
        }
    }
    None
}

// Both are the same place, or both are none.
fn is_same(first: Option<u16>, second: Option<u16>) -> bool
    ensures { result ≡ is_same first second }
{
    match (first, second) {
        (None, None) => true,
        (Some(first), Some(second)) => first == second,
        _ => false,
    }
}

/// How deep loops are nested at most.
pub(crate) const MAX_DEPTH: usize = 4;

// The places of the longest text, with the one after its last word.
const PLACES: usize = MAX_WORDS + 1;

// The place of the `next` of the innermost loop around a place, and how many loops are around it: six bytes, since a table of them stands on the stack.
#[derive(Clone, Copy)]
struct Around {
    next: Option<u16>,
    depth: u16,
}

impl Around {
    const NO_LOOP: Around = Around {
        next: None,
        depth: 0,
    };
}

// What is around a word, by what is around the places after it: around a `loop`, what is around the place after its `next`.
fn around_word(words: &[Word], at: usize, table: &[Around; PLACES]) -> Around
    requires inside { at < length words.now }
    requires few { length words.now ≤ 1024 }
    requires told { TellsFrom words.now (at + 1) table.now }
    ensures { result ≡ around words.now at }
{
    let after = table[at + 1];
    match (words[at], after.next) {
        (Word::Next, _) => Around {
            next: Some(at as u16),
            depth: after.depth + 1,
        },
        (Word::Loop { .. }, Some(next)) => table[usize::from(next) + 1],
        _ => after,
    }
}

// Writes into the table what is around each word of a text; it tells already that nothing is around the places after it. It goes from the right,
// since a `next` stands after the words of its loop.
fn tell_around(words: &[Word], table: &mut [Around; PLACES])
    requires few { length words.now ≤ 1024 }
    requires after { TellsFrom words.now (length words.now) table.old }
    ensures { TellsFrom words.now 0 table.new }
{
    let mut at = words.len();
    while at > 0 {
        at -= 1;
        table[at] = around_word(words, at, table);
    }
}

// A branch leads forward, to a word in the same turn of the same loop.
fn leads_forward(words: &[Word], at: usize, target: usize, table: &[Around; PLACES]) -> bool
    requires inside { at < length words.now }
    requires few { length words.now ≤ 1024 }
    requires told { TellsFrom words.now 0 table.now }
    ensures { result ≡ leads_forward words.now at target }
{
    at < target && target < words.len() && is_same(table[at + 1].next, table[target].next)
}

// Whether one of V2, V3 and V4 is true of a word.
fn is_misshapen(
    reason: Reason,
    words: &[Word],
    at: usize,
    word: Word,
    table: &[Around; PLACES],
) -> bool
    requires inside { at < length words.now }
    requires few { length words.now ≤ 1024 }
    requires told { TellsFrom words.now 0 table.now }
    ensures { result ≡ is_misshapen reason words.now at word }
{
    match reason {
        Reason::LoopUnpaired => match word {
            Word::Loop { .. } => table[at + 1].depth == 0,
            Word::Next => is_same(table[0].next, Some(at as u16)),
            _ => false,
        },
        Reason::LoopsTooDeep => match word {
            Word::Loop { .. } => usize::from(table[at + 1].depth) > MAX_DEPTH,
            _ => false,
        },
        Reason::BranchMisplaced => match word {
            Word::BranchOnStatus { target, .. } | Word::Jump { target } => !leads_forward(
                words,
                at,
                usize::from(target),
                table,
            ),
            _ => false,
        },
        _ => false,
    }
}

// The first word of which one of V2, V3 and V4 is true.
fn first_misshapen(reason: Reason, words: &[Word], table: &[Around; PLACES]) -> Option<Fault>
    requires few { length words.now ≤ 1024 }
    requires told { TellsFrom words.now 0 table.now }
    ensures { result ≡ fault_at reason (first_where (is_misshapen reason words.now) 0 words.now) }
{
    for (at, word) in words.iter().enumerate() {
        if is_misshapen(reason, words, at, *word, table) {
            return Some(Fault { word: at, reason });
        }
    }
    None
}

// The last word is an `end`.
fn ends(words: &[Word]) -> bool
    ensures { result ≡ ends words.now }
{
    matches!(words.last(), Some(Word::End { .. }))
}

// The last word, where it is no `end`.
fn unended(words: &[Word]) -> Option<Fault>
    requires { 0 < length words.now }
    ensures { result ≡ fault_at LastWordNotEnd (unended words.now) }
{
    if ends(words) {
        return None;
    }
    Some(Fault {
        word: words.len() - 1,
        reason: Reason::LastWordNotEnd,
    })
}

// The lowest of V2 to V5 that is true, at the first word of which it is.
fn misshapen(words: &[Word]) -> Option<Fault>
    requires some { 0 < length words.now }
    requires few { length words.now ≤ 1024 }
    ensures { result ≡ misshapen words.now }
{
    let mut table = [Around::NO_LOOP; PLACES];
    tell_around(words, &mut table);
    first_misshapen(Reason::LoopUnpaired, words, &table)
        .or_else(|| first_misshapen(Reason::LoopsTooDeep, words, &table))
        .or_else(|| first_misshapen(Reason::BranchMisplaced, words, &table))
        .or_else(|| unended(words))
}

/// The lowest reason of the shape, V1 to V5, that is true of a text, at the first word of which it is.
pub(crate) fn shape_fault(words: &[Word]) -> Option<Fault>
    requires { length words.now ≤ 1024 }
    ensures { result ≡ shape_fault words.now }
{
    if words.is_empty() {
        return Some(Fault {
            word: 0,
            reason: Reason::NoWords,
        });
    }
    misshapen(words)
}

/// Whether at most two loops are around each word.
pub(crate) fn nests_two_deep(words: &[Word]) -> bool
    requires { length words.now ≤ 1024 }
    ensures { NestsTwoDeep words.now → result ≡ true }
{
    let mut table = [Around::NO_LOOP; PLACES];
    tell_around(words, &mut table);
    for at in 0..words.len() {
        if table[at].depth > 2 {
            return false;
        }
    }
    true
}
