use crate::programs::made;
use micro_claims::Reason;
use micro_verify::{Counter, TextRefused, VerifyRefusal, verify};
use micro_word::{Text, Word};
use nand_geometry::{Geometry, Parts, SMALL_CHIP};
use onfi_cycle::Item;
use std::alloc::Global;
use std::test::Fail;
use trace_text::{CheckRefusal, check};

// One LUN of 8 blocks of 4 pages of 512 + 16 bytes, in two planes, with a cache read.
const ONE_LUN: Parts = Parts {
    plane_bits: 1,
    multi_plane: true,
    cache: true,
    ..SMALL_CHIP
};

// The counter of a text that is refused by V7, None for another text and where there is none.
fn counter_of(words: Vec<Word>) -> Result<Option<Counter>, Fail> {
    let Ok(text) = Text::of(4, 8, 90, words) else {
        return Err(Fail::from("the words are no text"));
    };
    match verify(text, Geometry::of(ONE_LUN)?) {
        Ok(_) => Ok(None),
        Err(TextRefused { refusal, .. }) => match refusal {
            VerifyRefusal::OutOfMemory => Err(Fail::from("out of memory")),
            VerifyRefusal::Refusal {
                reason,
                counter,
                ..
            } => {
                if reason != Reason::CycleForbidden && counter.is_some() {
                    return Err(Fail::from("a counter of another reason"));
                }
                Ok(counter)
            }
        },
    }
}

// Whether a check of the items and the cycle refuses the last of them, and no item before.
fn ends_wrong(counter: Counter) -> Result<bool, Fail> {
    let Counter {
        mut items,
        cycle,
        ..
    } = counter;
    let last = items.len();
    items.push(Item::Cyc(cycle))?;
    match check(&Geometry::of(ONE_LUN)?, 1, items.as_slice()) {
        Err(CheckRefusal::At(at, _)) => Ok(at == last),
        _ => Ok(false),
    }
}

// How many of so many texts of the generator are refused with a counter; an error where one doesn't end wrong.
fn count_shown(alloc: Global, texts: u32) -> Result<u32, Fail> {
    let mut seed = 20_261_123;
    let mut shown = 0u32;
    for _ in 0..texts {
        if let Some(counter) = counter_of(made(alloc, &mut seed)?)? {
            shown = shown.saturating_add(1);
            if !ends_wrong(counter)? {
                return Err(Fail::from("a counter isn't refused at its end"));
            }
        }
    }
    Ok(shown)
}

#[test]
fn counters_end_wrong(rt: HostRuntime) -> Result<(), Fail> {
    assert!(rt; count_shown(rt.alloc(), 20_000)? >= 1_000);
    Ok(())
}
