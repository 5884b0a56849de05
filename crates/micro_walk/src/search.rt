//! The search for a certificate. That a text is safe rests on the check alone; that some texts are accepted rests on what is told here of the search
//! (`specs/Searched`).
ghost use Rattle.std.specs.Prelude.{◌≡◌, ◌-◌, ◌<◌, ◌≤◌, true, false, None, length, IfSome};
ghost use Rattle.micro_claims.specs.Certificate.{claim};
ghost use Rattle.micro_claims.specs.Joins.{joined};
ghost use Rattle.micro_walk.specs.Searched.{Search, forgotten, led_by, is_walked, turn_at, entered, turned, stepped, searched, search_first};

use crate::following::reach;
use crate::shape::MAX_DEPTH;
use micro_claims::{Bounds, State};
use micro_word::Word;
use nand_geometry::Geometry;

// A loop in which the walk is: its first place, the state that enters it, its turns, and how often it has been walked again.
#[derive(Clone, Copy)]
struct Walked {
    head: usize,
    entry: Option<State>,
    turns: u16,
    again: u8,
}

const NOT_WALKED: Walked = Walked {
    head: 0,
    entry: None,
    turns: 1,
    again: 0,
};

// Nothing is claimed from one place to another.
fn forget(claims: &mut [Option<State>], from: usize, to: usize)
    ensures value { claims.new ≡ forgotten from (to - from) claims.old }
    ensures length { length claims.new ≡ length claims.old }
{
    for at in from..to {
        if at < claims.len() {
            claims[at] = None;
        }
    }
}

// The places to which the word at a place leads are reached, where something is claimed there. Whether nothing is against the word.
fn lead(
    geometry: &Geometry,
    bounds: Bounds,
    claims: &mut [Option<State>],
    at: usize,
    word: Word,
) -> bool
    requires { at < length claims.old }
    ensures led { IfSome (led_by geometry.now bounds claims.old at (claim claims.old at) word) (λ led. (result ≡ true) × (claims.new ≡ led)) }
    ensures length { length claims.new ≡ length claims.old }
{
    let Some(state) = &claims[at] else {
        return true;
    };
    match word {
        Word::BranchOnStatus { target, .. } => {
            let state = *state;
            reach(claims, at.saturating_add(1), &state);
            reach(claims, usize::from(target), &state);
            state.registers.polled
        }
        Word::Jump { target } => {
            let state = *state;
            reach(claims, usize::from(target), &state);
            true
        }
        _ if state.reason_against(geometry, bounds, word).is_some() => false,
        Word::End { .. } => true,
        _ => {
            let after = state.after(geometry, word);
            reach(claims, at.saturating_add(1), &after);
            true
        }
    }
}

// How often a loop is walked again at most.
const MOST_AGAIN: u8 = 13;

// What a later turn may begin with, once more: from the eighth walk on numbers that still grow have no bound, and from the
// twelfth nothing is known.
fn wider(head: &State, heads: &State, again: u8) -> State
    ensures { again < 7 → result ≡ joined head.now heads.now }
{
    match again {
        0..=6 => head.join(heads),
        7..=10 => head.widen(heads),
        _ => State::unknown().at_head(),
    }
}

// A loop is walked no more: it has one turn, it was walked again often enough, or a later turn begins with no less than is claimed at its head.
fn is_walked(walked: &Walked, heads: &State, head: &State) -> bool
    ensures value { result ≡ is_walked walked.now heads.now head.now }
    ensures few { result ≡ false → walked.now.again < 13 }
{
    walked.turns <= 1 || walked.again >= MOST_AGAIN || heads.is_within(head)
}

// At the `next` of a loop: the loop once more, where a later turn may begin with more than is claimed at its head.
fn once_more(claims: &mut [Option<State>], at: usize, walked: &Walked) -> Option<Walked>
    ensures turn { IfSome (turn_at claims.old at walked.now) (λ turn. (result ≡ turn.again) × (claims.new ≡ turn.claims)) }
    ensures length { length claims.new ≡ length claims.old }
{
    if at >= claims.len() || walked.head >= claims.len() {
        return None;
    }
    let (Some(entry), Some(head), Some(end)) = (walked.entry, claims[walked.head], claims[at])
    else {
        return None;
    };
    let heads = entry.at_heads(&end, walked.turns);
    if is_walked(walked, &heads, &head) {
        let after = entry.after_turns(&end, walked.turns);
        reach(claims, at.saturating_add(1), &after);
        return None;
    }
    forget(claims, walked.head, at.saturating_add(1));
    reach(claims, walked.head, &wider(&head, &heads, walked.again));
    Some(Walked {
        again: walked.again + 1,
        ..*walked
    })
}

/// What a search comes to: how many words it walked, and the place where it found something against a word.
#[derive(Drop)]
pub(crate) struct Found {
    pub walked: u32,
    pub stopped: Option<usize>,
}

// The walk is at a place, in so many loops.
#[derive(Drop)]
struct Walk {
    at: usize,
    depth: usize,
    loops: [Walked; MAX_DEPTH],
}

impl Walk {
    // A loop is entered, where there is room for it.
    fn enter(&mut self, claims: &mut [Option<State>], turns: u16) -> bool
        ensures entered { IfSome (entered (record { walk = self.old; claims = claims.old }) turns) (λ s. (result ≡ true) × (self.new ≡ s.walk) × (claims.new ≡ s.claims)) }
        ensures length { length claims.new ≡ length claims.old }
    {
        if self.depth >= MAX_DEPTH || self.at >= claims.len() {
            return false;
        }
        let entry = claims[self.at];
        self.at += 1;
        self.loops[self.depth] = Walked {
            head: self.at,
            entry,
            turns,
            again: 0,
        };
        self.depth += 1;
        if let Some(state) = &entry {
            reach(claims, self.at, &state.at_head());
        }
        true
    }

    // At a `next`: back to its loop, or on.
    fn turn(&mut self, claims: &mut [Option<State>]) -> bool
        ensures turned { IfSome (turned (record { walk = self.old; claims = claims.old })) (λ s. (result ≡ true) × (self.new ≡ s.walk) × (claims.new ≡ s.claims)) }
        ensures length { length claims.new ≡ length claims.old }
    {
        if self.depth == 0 || self.depth > MAX_DEPTH {
            return false;
        }
        match once_more(claims, self.at, &self.loops[self.depth - 1]) {
            Some(again) => {
                self.at = again.head;
                self.loops[self.depth - 1] = again;
            }
            None => {
                self.depth -= 1;
                self.at = self.at.saturating_add(1);
            }
        }
        true
    }

    // One word on. Whether nothing is against it.
    fn step(
        &mut self,
        geometry: &Geometry,
        bounds: Bounds,
        claims: &mut [Option<State>],
        word: Word,
    ) -> bool
        ensures stepped { IfSome (stepped geometry.now bounds word (record { walk = self.old; claims = claims.old })) (λ s. (result ≡ true) × (self.new ≡ s.walk) × (claims.new ≡ s.claims)) }
        ensures length { length claims.new ≡ length claims.old }
    {
        match word {
            Word::Loop { turns } => self.enter(claims, turns),
            Word::Next => self.turn(claims),
            _ => {
                let at = self.at;
                self.at = at.saturating_add(1);
                at >= claims.len() || lead(geometry, bounds, claims, at, word)
            }
        }
    }
}

/// Fills in what is claimed before each word, by walking at most so many words. Where the walk finds something against a word it
/// stops there.
pub(crate) fn find(
    geometry: &Geometry,
    bounds: Bounds,
    words: &[Word],
    claims: &mut [Option<State>],
    most: u32,
) -> Found
    ensures few { result.walked ≤ most }
    // Where it walks through all words, it has claimed what is told of it.
    ensures through { IfSome (searched geometry.now bounds words.now most (search_first (length claims.old))) (λ found. (result.stopped ≡ None) × (claims.new ≡ found)) }
    ensures length { length claims.new ≡ length claims.old }
{
    let all = claims.len();
    forget(claims, 0, all);
    reach(claims, 0, &State::first());
    let mut walk = Walk {
        at: 0,
        depth: 0,
        loops: [NOT_WALKED; MAX_DEPTH],
    };
    for walked in 0..most {
        let at = walk.at;
        if at >= words.len() {
            return Found {
                walked,
                stopped: None,
            };
        }
        if !walk.step(geometry, bounds, claims, words[at]) {
            return Found {
                walked,
                stopped: Some(at),
            };
        }
    }
    Found {
        walked: most,
        stopped: None,
    }
}
