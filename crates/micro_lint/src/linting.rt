//! From a text to its notes.

use crate::excess::Excess;
use crate::facts::{Facts, facts_of, needs_of};
use crate::header::Header;
use crate::idle_loop::IdleLoop;
use crate::idle_poll::IdlePoll;
use crate::linted::Linted;
use crate::note::Note;
use crate::row_walk::row_notes;
use crate::status_read::StatusRead;
use crate::unchecked::Unchecked;
use crate::unreached::Unreached;
use micro_word::{Text, Word};
use nand_geometry::Geometry;
use std::alloc::{AllocError, Allocator};

// So many kinds of notes a word may have.
const MOST_OF_A_WORD: usize = 6;

// The notes of the header.
fn push_header_notes<B: Allocator>(
    notes: &mut Vec<Note, B>,
    facts: &[Option<Facts>],
    given: Header,
) -> Result<(), AllocError> {
    if let Some(least) = Header::for_needs(needs_of(facts)) {
        for excess in Excess::all(least, given) {
            if let Some(excess) = excess {
                notes.push(Note::Excess(excess))?;
            }
        }
    }
    Ok(())
}

// The note of the rows that a word programs.
fn row_note(rows: &[Note], at: usize) -> Option<Note> {
    for note in rows {
        if note.word() == Some(at) {
            return Some(*note);
        }
    }
    None
}

// The notes of the word at a place, by their codes.
fn notes_of(
    linted: &Linted<'_>,
    rows: &[Note],
    at: usize,
    word: Word,
) -> [Option<Note>; MOST_OF_A_WORD] {
    [
        StatusRead::of(linted, at, word).map(|read| Note::StatusRead(read)),
        row_note(rows, at),
        Unchecked::of(linted, at, word).map(|unchecked| Note::Unchecked(unchecked)),
        Unreached::of(linted, at).map(|unreached| Note::Unreached(unreached)),
        IdleLoop::of(linted, at, word).map(|idle| Note::IdleLoop(idle)),
        IdlePoll::of(linted, at, word).map(|idle| Note::IdlePoll(idle)),
    ]
}

// The notes of the word at a place.
fn push_word_notes<B: Allocator>(
    notes: &mut Vec<Note, B>,
    linted: &Linted<'_>,
    rows: &[Note],
    at: usize,
    word: Word,
) -> Result<(), AllocError> {
    for note in notes_of(linted, rows, at, word) {
        if let Some(note) = note {
            notes.push(note)?;
        }
    }
    Ok(())
}

/// What the author of a text surely didn't mean: the notes of its header, then those of its words in the order of the text, and those of a word by
/// their codes. It is for a text that the verifier accepts for this geometry; of another it may say anything. It takes some 700 bytes for
/// each word while it works.
pub fn lint<A: Allocator, B: Allocator + Clone>(
    alloc: B,
    text: &Text<A>,
    geometry: &Geometry,
) -> Result<Vec<Note, B>, AllocError> {
    let words = text.words();
    let facts = facts_of(alloc.clone()?, text, geometry)?;
    let rows = row_notes(alloc.clone()?, words, geometry)?;
    let linted = Linted {
        words,
        facts: facts.as_slice(),
        several_luns: geometry.parts().luns > 1,
    };
    let mut notes = Vec::new(alloc);
    push_header_notes(&mut notes, linted.facts, Header::of(text))?;
    for (at, word) in words.iter().enumerate() {
        push_word_notes(&mut notes, &linted, rows.as_slice(), at, *word)?;
    }
    Ok(notes)
}
