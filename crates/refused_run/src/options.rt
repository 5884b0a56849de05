//! What dies may do at a word.

use crate::choice::Act;
use crate::other_work::OtherWork;
use arrayvec::ArrayVec;
use micro_word::Word;
use onfi_cycle::{LunState, Status};

/// The most things that dies may do at a word.
pub(crate) const MOST_OPTIONS: usize = 64;

/// What dies may do at a word, what they mostly do first.
pub(crate) type Options = ArrayVec<Act, MOST_OPTIONS>;

// How many masks are looked at.
const MOST_MASKS: usize = 8;

/// The masks of the branches of a text.
pub(crate) type Masks = ArrayVec<u8, MOST_MASKS>;

/// The masks of the branches of some words.
pub(crate) fn masks_of(words: &[Word]) -> Masks {
    let mut masks = Masks::new();
    for word in words {
        add_mask(&mut masks, *word);
    }
    masks
}

// The mask of a branch, if it is a new one.
fn add_mask(masks: &mut Masks, word: Word) {
    if let Word::BranchOnStatus { mask, .. } = word {
        if masks.len() < MOST_MASKS && !masks.iter().any(|other| *other == mask) {
            masks.push(mask);
        }
    }
}

// One thing more, if it is a new one.
fn add(options: &mut Options, act: Act) {
    if options.len() < MOST_OPTIONS && !options.iter().any(|other| *other == act) {
        options.push(act);
    }
}

// A poll that brings this status, after a ready or without.
fn come(ready: Option<bool>, status: u8) -> Act {
    Act::Come { ready, status }
}

// The status of a LUN as it is.
fn status_of(look: &LunState, has_failed: bool) -> u8 {
    let Status(bits) = if look.busy {
        Status::BUSY
    } else if look.array_busy {
        Status::ARRAY_BUSY
    } else if has_failed {
        Status::FAILED
    } else {
        Status::READY
    };
    bits
}

// How many masks are set and cleared together.
const MOST_TOGETHER: usize = 5;

// A status with the bits of some masks, and without those of the others: of mask number k where bit k of the choice is set.
fn chosen(status: u8, masks: &Masks, choice: u8) -> u8 {
    let mut status = status;
    let mut left = choice;
    for mask in masks.iter().take(MOST_TOGETHER) {
        status = if left & 1 == 1 {
            status | *mask
        } else {
            status & !*mask
        };
        left /= 2;
    }
    status
}

// Other bytes that a poll may bring: with the bits of each mask and without them, and then of several masks together. A `wait` that ends says ready.
fn add_masked(options: &mut Options, masks: &Masks, act: Act, is_wait: bool) {
    let Act::Come { ready, status } = act else {
        return;
    };
    let kept = if is_wait { status & 0x40 } else { 0 };
    for mask in masks.iter() {
        add(options, come(ready, status | *mask));
        add(options, come(ready, (status & !*mask) | kept));
    }
    if masks.len() > 1 {
        for choice in 0..1u8 << MOST_TOGETHER {
            add(options, come(ready, chosen(status, masks, choice) | kept));
        }
    }
}

// What may be at a `wait`.
fn add_waits(options: &mut Options, masks: &Masks, look: &LunState, has_failed: bool) {
    if look.busy {
        add(options, come(Some(false), Status::READY.0));
        add(options, come(Some(true), Status::FAILED.0));
        add_masked(options, masks, come(Some(false), Status::READY.0), true);
    } else {
        let status = status_of(look, has_failed);
        add(options, come(None, status));
        add_masked(options, masks, come(None, status), true);
    }
}

// What may be at a `stat`.
fn add_polls(options: &mut Options, masks: &Masks, look: &LunState, has_failed: bool) {
    let status = status_of(look, has_failed);
    add(options, come(None, status));
    if look.busy {
        add(options, come(Some(false), Status::READY.0));
        add(options, come(Some(true), Status::FAILED.0));
    }
    add_masked(options, masks, come(None, status), false);
}

/// What the LUN of a program may do at a word.
pub(crate) fn options_at(word: Word, masks: &Masks, look: &LunState, has_failed: bool) -> Options {
    let mut options = Options::new();
    match word {
        Word::Wait => add_waits(&mut options, masks, look, has_failed),
        Word::ReadStatus => add_polls(&mut options, masks, look, has_failed),
        _ => add(&mut options, come(None, 0)),
    }
    options
}

/// What besides may be on a target of several LUNs: the poll of a `wait` that says busy, and others, where the bus is free.
pub(crate) fn add_others(options: &mut Options, word: Word, look: &LunState, is_free: bool) {
    if is_free {
        for work in OtherWork::ALL {
            add(options, Act::Other(work));
        }
    }
    if matches!(word, Word::Wait) && look.busy {
        add(options, come(None, Status::BUSY.0));
    }
}
