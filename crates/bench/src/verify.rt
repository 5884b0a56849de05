//! How long the verifier takes.
//!
//! It verifies texts of 1,024 words: straight, full of branches, and with loops that are nested four deep. What came of each goes to standard
//! output; how many words were walked and how long it took, to standard error.

use micro_verify::verify;
use micro_word::{Text, Word};
use nand_geometry::{Geometry, Parts, SMALL_CHIP};
use std::alloc::{AllocError, Global};
use std::time::Instant;

// Two LUNs of 8 blocks of 4 pages of 512 + 16 bytes, in two planes each.
const TWO_LUNS: Parts = Parts {
    luns: 2,
    plane_bits: 1,
    enhanced: true,
    multi_plane: true,
    ..SMALL_CHIP
};

// A read of which others may have the bus before its data is taken; nine words.
const READ: [Word; 9] = [
    Word::Command { byte: 0x00 },
    Word::Address { from: 0, count: 5 },
    Word::Command { byte: 0x30 },
    Word::Wait,
    Word::Command { byte: 0x00 },
    Word::Get { len: 1 },
    Word::RowAdd { rows: 1 },
    Word::ReadStatus,
    Word::Yield,
];

// Polls of the status up to 1,023 words, and then `end 0`.
fn straight(alloc: Global) -> Result<Vec<Word>, AllocError> {
    let mut words = vec![in alloc; Word::ReadStatus; 1023]?;
    words.push(Word::End { code: 0 })?;
    Ok(words)
}

// A poll, 1,022 branches, each over the next one, and `end 0`.
fn branches(alloc: Global) -> Result<Vec<Word>, AllocError> {
    let mut words = vec![in alloc; Word::ReadStatus; 1]?;
    for target in 3_u16..1025 {
        words.push(Word::BranchOnStatus {
            mask: 1,
            target: target.min(1023),
        })?;
    }
    words.push(Word::End { code: 0 })?;
    Ok(words)
}

fn push_reads(words: &mut Vec<Word>, count: usize) -> Result<(), AllocError> {
    for _ in 0..count {
        words.extend_from_slice(&READ)?;
    }
    Ok(())
}

// Four loops of two turns, with reads before each of them, in the innermost, and after each.
fn loops(alloc: Global) -> Result<Vec<Word>, AllocError> {
    let mut words = Vec::new(alloc);
    for _ in 0..4 {
        push_reads(&mut words, 12)?;
        words.push(Word::Loop { turns: 2 })?;
    }
    push_reads(&mut words, 12)?;
    for _ in 0..4 {
        words.push(Word::Next)?;
        push_reads(&mut words, 12)?;
    }
    words.push(Word::End { code: 0 })?;
    Ok(words)
}

// The same with a branch in each loop, so that two ways meet at its `next`.
fn ways(alloc: Global) -> Result<Vec<Word>, AllocError> {
    let mut words = Vec::new(alloc);
    for _ in 0..4 {
        words.push(Word::Loop { turns: 2 })?;
        push_reads(&mut words, 20)?;
    }
    for _ in 0..4 {
        let target = u16::try_from(words.len()).unwrap_or(0).saturating_add(4);
        words.push(Word::ReadStatus)?;
        words.push(Word::BranchOnStatus { mask: 1, target })?;
        words.push(Word::Plane { plane: 1 })?;
        words.push(Word::Column { column: 9 })?;
        words.push(Word::Next)?;
    }
    words.push(Word::End { code: 0 })?;
    Ok(words)
}

// What came of a text, and how many words were walked.
fn outcome(alloc: Global, words: Vec<Word>, geometry: Geometry) -> anyhow::Result<(String, u64)> {
    let Ok(text) = Text::of(4096, 16_777_215, 4_294_967_295, words) else {
        return Ok((String::from_str(alloc, "the words are no text")?, 0));
    };
    match verify(text, geometry) {
        Ok(verified) => Ok((String::from_str(alloc, "accepted")?, verified.walked())),
        Err(refused) => {
            let refusal = refused.refusal;
            Ok((format!(in alloc; "{refusal}")?, 0))
        }
    }
}

// Verifies a text, and says what came of it and how long it took.
fn tell(rt: &HostRuntime, name: &str, words: Vec<Word>) -> anyhow::Result<()> {
    let geometry = Geometry::of(TWO_LUNS)?;
    let start = Instant::now(rt)?;
    let (outcome, walked) = outcome(rt.alloc(), words, geometry)?;
    let micros = start.elapsed(rt)?.as_micros();
    println!(rt; "{name}: {outcome}")?;
    eprintln!(rt; "{name}: {walked} words walked, {micros} us")?;
    Ok(())
}

/// Measures the verifier over four texts.
pub fn measure_verify(rt: &HostRuntime) -> anyhow::Result<()> {
    tell(rt, "straight", straight(rt.alloc())?)?;
    tell(rt, "branches", branches(rt.alloc())?)?;
    tell(rt, "loops", loops(rt.alloc())?)?;
    tell(rt, "ways", ways(rt.alloc())?)?;
    Ok(())
}
