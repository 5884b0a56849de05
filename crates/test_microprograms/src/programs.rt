//! Programs of a generator that gives the same ones at each run: fragments that belong together, with a stray word here and there,
//! and loops and branches around them.

use micro_word::Word;
use std::alloc::{AllocError, Global};

const WAIT: Word = Word::Wait;

const ADDRESS: Word = Word::Address { from: 0, count: 5 };

const COLUMN: Word = Word::Address { from: 0, count: 2 };

const ROW: Word = Word::Address { from: 2, count: 3 };

const FIRST: Word = Word::Address { from: 0, count: 1 };

const READ: Word = Word::Command { byte: 0x00 };

const START_READ: Word = Word::Command { byte: 0x30 };

const ERASE: Word = Word::Command { byte: 0x60 };

const PROGRAM: Word = Word::Command { byte: 0x80 };

const GET: Word = Word::Get { len: 4 };

const PUT: Word = Word::Put { len: 2 };

// What belongs together.
const FRAGMENTS: [&[Word]; 32] = [
    &[READ, ADDRESS, START_READ, WAIT],
    &[READ, ADDRESS, START_READ, WAIT, READ, GET],
    &[READ, COLUMN, ROW, START_READ, Word::Yield, WAIT, READ, GET],
    &[READ, GET],
    &[READ, GET, GET],
    &[GET],
    &[
        READ,
        Word::Command { byte: 0x05 },
        COLUMN,
        Word::Command { byte: 0xe0 },
        GET,
    ],
    &[Word::Command { byte: 0x31 }, WAIT],
    &[Word::Command { byte: 0x31 }, WAIT, READ, GET],
    &[Word::Command { byte: 0x3f }, WAIT, READ, GET],
    &[PROGRAM, ADDRESS, PUT, Word::Command { byte: 0x10 }, WAIT],
    &[PROGRAM, ADDRESS, PUT, Word::Command { byte: 0x10 }],
    &[PROGRAM, ADDRESS, PUT, Word::Command { byte: 0x11 }, WAIT],
    &[
        PROGRAM,
        ADDRESS,
        PUT,
        Word::Command { byte: 0x85 },
        COLUMN,
        PUT,
        Word::Command { byte: 0x10 },
        WAIT,
    ],
    &[ERASE, ROW, Word::Command { byte: 0xd0 }, WAIT],
    &[ERASE, ROW, Word::Command { byte: 0xd0 }],
    &[ERASE, ROW, Word::Command { byte: 0xd1 }, WAIT],
    &[Word::Plane { plane: 0 }],
    &[Word::Plane { plane: 1 }],
    &[Word::RowAdd { rows: 1 }],
    &[Word::RowAdd { rows: 2 }],
    &[Word::Row { row: 0 }],
    &[Word::Row { row: 3 }],
    &[Word::Column { column: 0 }],
    &[
        Word::Column { column: 32 },
        Word::Command { byte: 0x90 },
        FIRST,
        GET,
    ],
    &[
        Word::Column { column: 0 },
        Word::Command { byte: 0xec },
        FIRST,
        WAIT,
        READ,
        GET,
    ],
    &[Word::Command { byte: 0xff }, WAIT],
    &[Word::Seek { place: 0 }],
    &[Word::ReadStatus],
    &[Word::Yield],
    &[WAIT],
    &[WAIT, Word::ReadStatus, READ],
];

// Words that may stand anywhere.
const STRAYS: [Word; 16] = [
    READ,
    START_READ,
    ERASE,
    ADDRESS,
    ROW,
    FIRST,
    GET,
    PUT,
    WAIT,
    Word::Yield,
    Word::ReadStatus,
    Word::Column { column: 526 },
    Word::RowAdd { rows: 3 },
    Word::Plane { plane: 1 },
    Word::Command { byte: 0x70 },
    Word::End { code: 1 },
];

/// The next number of a fixed generator.
pub(crate) fn next(seed: &mut u32) -> u32 {
    let mut x = *seed;
    x ^= x << 13;
    x ^= x >> 17;
    x ^= x << 5;
    *seed = x;
    x
}

// Adds a fragment; at times a word of it is left out, or another one stands for it.
fn push_fragment(
    words: &mut Vec<Word>,
    seed: &mut u32,
    fragment: &[Word],
) -> Result<(), AllocError> {
    for word in fragment {
        match next(seed) % 64 {
            0 => {}
            1 => words.push(STRAYS[(next(seed) % 16) as usize])?,
            _ => words.push(*word)?,
        }
    }
    Ok(())
}

// Adds some fragment.
fn push_some(words: &mut Vec<Word>, seed: &mut u32) -> Result<(), AllocError> {
    let fragment = FRAGMENTS[(next(seed) % 32) as usize];
    push_fragment(words, seed, fragment)
}

// Adds one or two fragments in a loop of up to four turns.
fn push_loop(words: &mut Vec<Word>, seed: &mut u32) -> Result<(), AllocError> {
    let turns = (1 + next(seed) % 4) as u16;
    words.push(Word::Loop { turns })?;
    push_some(words, seed)?;
    if next(seed) % 2 == 0 {
        push_some(words, seed)?;
    }
    words.push(Word::Next)?;
    Ok(())
}

// Adds a fragment that a branch on the status may leave out.
fn push_branch(words: &mut Vec<Word>, seed: &mut u32) -> Result<(), AllocError> {
    words.push(Word::ReadStatus)?;
    let at = words.len();
    words.push(WAIT)?;
    push_some(words, seed)?;
    let target = u16::try_from(words.len()).unwrap_or(0);
    let mask = 1 << (next(seed) % 8);
    if let Some(word) = words.get_mut(at) {
        *word = Word::BranchOnStatus { mask, target };
    }
    Ok(())
}

/// The words of a program of one to three parts, most of them loops and branches, that ends.
pub(crate) fn made_with_ways(alloc: Global, seed: &mut u32) -> Result<Vec<Word>, AllocError> {
    let mut words = Vec::new(alloc);
    let count = 1 + next(seed) % 3;
    for _ in 0..count {
        match next(seed) % 4 {
            0 => push_some(&mut words, seed)?,
            1 => push_branch(&mut words, seed)?,
            _ => push_loop(&mut words, seed)?,
        }
    }
    words.push(Word::End { code: 0 })?;
    Ok(words)
}

/// The words of a program of one to four fragments, that ends.
pub(crate) fn made(alloc: Global, seed: &mut u32) -> Result<Vec<Word>, AllocError> {
    let mut words = Vec::new(alloc);
    let count = 1 + next(seed) % 4;
    for _ in 0..count {
        let fragment = FRAGMENTS[(next(seed) % 32) as usize];
        push_fragment(&mut words, seed, fragment)?;
    }
    words.push(Word::End { code: 0 })?;
    Ok(words)
}
