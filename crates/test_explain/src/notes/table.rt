//! A table of programs that are accepted, each with its notes.

use micro_asm::assemble;
use micro_lint::{Header, Note, least_header, lint};
use micro_walk::examine;
use micro_word::{Text, Word};
use nand_geometry::{Geometry, Parts, SMALL_CHIP};
use std::alloc::Global;
use std::test::Fail;

/// One LUN of 8 blocks of 4 pages of 512 + 16 bytes, in one plane.
pub(crate) const ONE_LUN: Parts = SMALL_CHIP;

/// The same, in two planes, with a cache read.
pub(crate) const TWO_PLANES: Parts = Parts {
    plane_bits: 1,
    multi_plane: true,
    cache: true,
    ..ONE_LUN
};

/// Two such LUNs.
pub(crate) const TWO_LUNS: Parts = Parts {
    luns: 2,
    enhanced: true,
    ..TWO_PLANES
};

/// A header with enough for each program here.
pub(crate) const AMPLE: Header = Header {
    rows: 4_096,
    buffer: 100_000,
    budget: 1_000_000,
};

/// The words of a program in assembly text.
pub(crate) fn words_of(alloc: Global, words: &str) -> Result<Vec<Word>, Fail> {
    let written = format!(in alloc; "rows 1\nbuffer 0\nbudget 0\n{words}\n")?;
    Ok(assemble(alloc, written.as_str())?.into_words())
}

/// A text of these words with a header.
pub(crate) fn text_of(header: Header, words: Vec<Word>) -> Result<Text, Fail> {
    let rows = u16::try_from(header.rows).unwrap_or(0);
    match Text::of(rows, header.buffer, header.budget, words) {
        Ok(text) => Ok(text),
        Err(_refused) => Err(Fail::from("the words are no text")),
    }
}

// A text of these words with an ample header, where they are one.
fn ample_text(words: Vec<Word>) -> Option<Text> {
    let rows = u16::try_from(AMPLE.rows).unwrap_or(0);
    match Text::of(rows, AMPLE.buffer, AMPLE.budget, words) {
        Ok(text) => Some(text),
        Err(_refused) => None,
    }
}

/// A text of these words with the least header that is enough; None where they are no text, or the verifier accepts it with no header.
pub(crate) fn least_text(
    alloc: Global,
    geometry: &Geometry,
    words: Vec<Word>,
) -> Result<Option<Text>, Fail> {
    let Some(ample) = ample_text(words) else {
        return Ok(None);
    };
    if examine(&ample, geometry).is_err() {
        return Ok(None);
    }
    let Some(least) = least_header(alloc, &ample, geometry)? else {
        return Err(Fail::from("no header is enough"));
    };
    Ok(Some(text_of(least, ample.into_words())?))
}

/// The notes of a text that is accepted, each on a line.
pub(crate) fn told_of(alloc: Global, geometry: &Geometry, text: &Text) -> Result<String, Fail> {
    let mut told = String::new(alloc);
    if examine(text, geometry).is_err() {
        return Err(Fail::from("the program is refused"));
    }
    for note in lint(alloc, text, geometry)?.as_slice() {
        let line = line_of(alloc, *note)?;
        told.push_str(line.as_str())?;
    }
    Ok(told)
}

// A note as a line.
fn line_of(alloc: Global, note: Note) -> Result<String, Fail> {
    let code = note.code();
    match note.word() {
        None => Ok(format!(in alloc; "header: {note} ({code})\n")?),
        Some(word) => Ok(format!(in alloc; "word {word}: {note} ({code})\n")?),
    }
}
