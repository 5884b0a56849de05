use micro_program::Verified;
use micro_verify::{TextRefused, VerifyRefusal, verify};
use micro_word::{Text, Word};
use nand_geometry::{Geometry, Parts, SMALL_CHIP};
use std::alloc::{AllocError, Global};
use std::test::Fail;

// One LUN of 8 blocks of 4 pages of 512 + 16 bytes, in one plane.
const ONE_LUN: Parts = SMALL_CHIP;

// Two of them, in two planes each.
const TWO_LUNS: Parts = Parts {
    luns: 2,
    plane_bits: 1,
    enhanced: true,
    multi_plane: true,
    ..ONE_LUN
};

// The next number of a fixed generator.
fn next(seed: &mut u32) -> u32 {
    let mut x = *seed;
    x ^= x << 13;
    x ^= x >> 17;
    x ^= x << 5;
    *seed = x;
    x
}

// A page of a die, and some bytes of it at a place of the buffer.
#[derive(Clone, Copy)]
struct Place {
    row: u16,
    plane: u8,
    column: u16,
    place: u16,
    len: u16,
}

fn some_place(seed: &mut u32, rows: u32, planes: u32) -> Place {
    let column = next(seed) % 528;
    Place {
        row: u16::try_from(next(seed) % rows.max(1)).unwrap_or(0),
        plane: u8::try_from(next(seed) % planes.max(1)).unwrap_or(0),
        column: column as u16,
        place: (next(seed) % 1000) as u16,
        len: (1 + next(seed) % (528 - column)) as u16,
    }
}

fn at(it: Place) -> [Word; 4] {
    [
        Word::Row { row: it.row },
        Word::Plane { plane: it.plane },
        Word::Column { column: it.column },
        Word::Seek {
            place: u32::from(it.place),
        },
    ]
}

const ADDRESS: Word = Word::Address { from: 0, count: 5 };

fn command(byte: u8) -> Word {
    Word::Command { byte }
}

// The words of a read, of a program or of an erase; the cost of all.
fn push_operation(words: &mut Vec<Word>, seed: &mut u32, it: Place) -> Result<u32, AllocError> {
    let len = u32::from(it.len);
    words.extend_from_slice(&at(it))?;
    match next(seed) % 3 {
        0 => {
            words.extend_from_slice(&[
                command(0x00),
                ADDRESS,
                command(0x30),
                Word::Wait,
                command(0x00),
                Word::Get { len },
            ])?;
            Ok(8 + len)
        }
        1 => {
            words.extend_from_slice(&[
                command(0x80),
                ADDRESS,
                Word::Put { len },
                command(0x10),
                Word::Wait,
            ])?;
            Ok(7 + len)
        }
        _ => {
            words.extend_from_slice(&[
                command(0x60),
                Word::Address { from: 2, count: 3 },
                command(0xd0),
                Word::Wait,
            ])?;
            Ok(5)
        }
    }
}

// One to eight operations, with the bus handed on after each, in a loop of 1 to 16 turns.
fn made(alloc: Global, seed: &mut u32, rows: u32, planes: u32) -> Result<Text, Fail> {
    let turns = 1 + next(seed) % 16;
    let count = 1 + next(seed) % 8;
    let mut words = Vec::new(alloc);
    // Its rows, its buffer and its budget.
    let mut header: [u32; 3] = [0; 3];
    words.push(Word::Loop {
        turns: turns as u16,
    })?;
    for _ in 0..count {
        let it = some_place(seed, rows, planes);
        let cost = push_operation(&mut words, seed, it)?;
        words.push(Word::Yield)?;
        header[0] = header[0].max(u32::from(it.row).saturating_add(1));
        header[1] = header[1].max(u32::from(it.place).saturating_add(u32::from(it.len)));
        header[2] = header[2].saturating_add(turns.saturating_mul(cost));
    }
    words.push(Word::Next)?;
    words.push(Word::End { code: 0 })?;
    match Text::of(u16::try_from(header[0])?, header[1], header[2], words) {
        Ok(text) => Ok(text),
        Err(_) => Err(Fail::from("the words are no text")),
    }
}

fn accepted(text: Text, parts: Parts) -> Result<Verified, Fail> {
    match verify(text, Geometry::of(parts)?) {
        Ok(verified) => Ok(verified),
        Err(TextRefused { refusal, .. }) => match refusal {
            VerifyRefusal::Refusal { .. } => Err(Fail::from("refused")),
            VerifyRefusal::OutOfMemory => Err(Fail::from("out of memory")),
        },
    }
}

// Whether a text of operations is accepted with few words walked.
fn is_accepted(
    alloc: Global,
    seed: &mut u32,
    rows: u32,
    planes: u32,
    parts: Parts,
) -> Result<bool, Fail> {
    let text = made(alloc, seed, rows, planes)?;
    let len = text.words().len() as u64;
    let verified = accepted(text, parts)?;
    Ok(verified.walked() <= 16 * len)
}

// 1,000 texts are accepted: on a die of 32 rows in one plane, and on two of 16 rows in each of two planes.
#[test]
fn operations_in_loops(rt: HostRuntime) -> Result<(), Fail> {
    let mut seed = 20_261_123;
    let mut is_walked = true;
    for _ in 0..500 {
        is_walked &= is_accepted(rt.alloc(), &mut seed, 32, 1, ONE_LUN)?;
        is_walked &= is_accepted(rt.alloc(), &mut seed, 16, 2, TWO_LUNS)?;
    }
    assert!(rt; is_walked);
    Ok(())
}
