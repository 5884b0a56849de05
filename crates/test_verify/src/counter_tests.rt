use linked_list_allocator::LocalHeap;
use micro_claims::Reason;
use micro_verify::{Counter, TextRefused, VerifyRefusal, verify};
use micro_word::{Text, Word};
use nand_geometry::{Geometry, Parts, SMALL_CHIP};
use onfi_cycle::{Cycle, Item, Kind};
use std::alloc::{Allocator, Global};
use std::test::Fail;

// One LUN of 8 blocks of 4 pages of 512 + 16 bytes.
const ONE_LUN: Parts = SMALL_CHIP;

const TWO_LUNS: Parts = Parts {
    luns: 2,
    enhanced: true,
    ..ONE_LUN
};

// An erase, and another one while the LUN is busy.
const ERASE_TWICE: [Word; 8] = [
    Word::Command { byte: 0x60 },
    Word::Address { from: 2, count: 3 },
    Word::Command { byte: 0xd0 },
    Word::Command { byte: 0x60 },
    Word::Address { from: 2, count: 3 },
    Word::Command { byte: 0xd0 },
    Word::Wait,
    Word::End { code: 0 },
];

// The first of them alone.
const CUT_ERASE: [Word; 3] = [
    Word::Command { byte: 0x60 },
    Word::Address { from: 2, count: 3 },
    Word::Command { byte: 0xd0 },
];

// The bus is let go before the output.
const HANDOVER: [Word; 8] = [
    Word::Command { byte: 0x00 },
    Word::Address { from: 0, count: 5 },
    Word::Command { byte: 0x30 },
    Word::Wait,
    Word::Command { byte: 0x00 },
    Word::Yield,
    Word::Get { len: 4 },
    Word::End { code: 0 },
];

// An identifier with an address that begins with the row.
const IDENTIFIER_OF_ROW: [Word; 3] = [
    Word::Command { byte: 0x90 },
    Word::Address { from: 2, count: 3 },
    Word::End { code: 0 },
];

// Items of a run: the commands that open and start an erase, and an address byte.
const OPENS: Item = Item::Cyc(Cycle {
    ce: 0,
    kind: Kind::Cmd,
    byte: 0x60,
});

const ZEROS: Item = Item::Cyc(Cycle {
    ce: 0,
    kind: Kind::Adr,
    byte: 0x00,
});

const STARTS: Item = Item::Cyc(Cycle {
    ce: 0,
    kind: Kind::Cmd,
    byte: 0xd0,
});

const ERASE_ITEMS: [Item; 5] = [OPENS, ZEROS, ZEROS, ZEROS, STARTS];

// What a refusal tells: its word, its reason, and its counter.
fn refusal<A: Allocator + Copy>(
    alloc: A,
    parts: Parts,
    buffer: u32,
    words: &[Word],
) -> Result<Option<(usize, Reason, Option<Counter<A>>)>, Fail> {
    let Ok(copy) = words.to_vec(alloc) else {
        return Ok(None);
    };
    let Ok(text) = Text::of(1, buffer, 40, copy) else {
        return Err(Fail::from("the words are no text"));
    };
    match verify(text, Geometry::of(parts)?) {
        Ok(_) => Err(Fail::from("the text is accepted")),
        Err(TextRefused { refusal, .. }) => match refusal {
            VerifyRefusal::OutOfMemory => Ok(None),
            VerifyRefusal::Refusal {
                word,
                reason,
                counter,
            } => Ok(Some((word, reason, counter))),
        },
    }
}

#[test]
fn an_erase_goes_wrong_from_the_first_row_on(rt: HostRuntime) -> Result<(), Fail> {
    match refusal(rt.alloc(), ONE_LUN, 0, &ERASE_TWICE)? {
        Some((_, Reason::CycleForbidden, Some(counter))) => {
            let base = counter.base;
            assert!(rt; base == 0);
            Ok(())
        }
        _ => Err(Fail::from("no V7 with a counter")),
    }
}

// Texts that have no counter, each with its word and its reason: of several LUNs, of another reason, and with an address that begins with the
// row, whose bytes may not be there.
const WITHOUT: &[(Parts, u32, &[Word], usize, Reason)] = &[
    (TWO_LUNS, 4, &HANDOVER, 6, Reason::CycleForbidden),
    (ONE_LUN, 0, &CUT_ERASE, 2, Reason::LastWordNotEnd),
    (ONE_LUN, 0, &IDENTIFIER_OF_ROW, 1, Reason::CycleForbidden),
];

// The word and the reason of a text that is refused with no counter.
fn refused_bare(
    alloc: Global,
    parts: Parts,
    buffer: u32,
    words: &[Word],
) -> Result<Option<(usize, Reason)>, Fail> {
    match refusal(alloc, parts, buffer, words)? {
        Some((word, reason, None)) => Ok(Some((word, reason))),
        _ => Ok(None),
    }
}

// The place of the first of those that has one, or another word or reason.
fn first_with_counter(alloc: Global) -> Result<Option<usize>, Fail> {
    for (place, (parts, buffer, words, word, reason)) in WITHOUT.iter().enumerate() {
        if refused_bare(alloc, *parts, *buffer, words)? != Some((*word, *reason)) {
            return Ok(Some(place));
        }
    }
    Ok(None)
}

#[test]
fn no_counter_where_there_are_others(rt: HostRuntime) -> Result<(), Fail> {
    assert_eq!(rt; first_with_counter(rt.alloc())?, None);
    Ok(())
}

// Whether the counter is whole on a heap of so many bytes; otherwise memory was wanted.
fn is_whole(alloc: Global, size: usize) -> Result<bool, Fail> {
    let heap = LocalHeap::new(alloc, size)?;
    match refusal(&heap, ONE_LUN, 0, &ERASE_TWICE)? {
        None => Ok(false),
        Some((3, Reason::CycleForbidden, Some(counter))) => {
            if counter.items.as_slice() == ERASE_ITEMS.as_slice() {
                Ok(true)
            } else {
                Err(Fail::from("another counter"))
            }
        }
        Some(_) => Err(Fail::from("another refusal")),
    }
}

// Whatever memory there is: the counter is whole, or memory was wanted.
#[test]
fn want_of_memory(rt: HostRuntime) -> Result<(), Fail> {
    let mut wanted = false;
    let mut whole = false;
    for size in 1..80usize {
        if is_whole(rt.alloc(), 128 * size)? {
            whole = true;
        } else {
            wanted = true;
        }
    }
    assert!(rt; wanted && whole);
    Ok(())
}
