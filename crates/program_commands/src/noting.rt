//! The lines of the notes to a microprogram.

use crate::header_lines::HeaderLines;
use crate::note_rules::NoteRules;
use micro_asm::disassemble;
use micro_lint::{Header, Note, least_header, lint};
use micro_program::Verified;
use seq_inputs::{Place, Style, Told, Words, say_words, words_of_note};
use std::alloc::{AllocError, Allocator};
use std::io::Write;

// How many notes there are.
fn push_count<A: Allocator>(lines: &mut String<A>, count: usize) -> Result<(), AllocError> {
    match count {
        0 => lines.push_str("no notes\n"),
        1 => lines.push_str("1 note\n"),
        _ => writeln!(lines, "{count} notes"),
    }
}

// Where a note stands.
fn place_of(note: Note) -> Option<Place> {
    match note.word() {
        Some(word) => Some(Place::Word(word)),
        None => None,
    }
}

// The line of a note in this style.
fn push_said<A: Allocator>(
    lines: &mut String<A>,
    style: Style,
    note: Note,
    words: &Words<'_, A>,
) -> Result<(), AllocError> {
    match style {
        Style::Plain => writeln!(lines, "{words}"),
        Style::Json => {
            let told = Told {
                code: Some(note.code()),
                path: words.path,
                line: words.line,
                place: place_of(note),
                time: None,
                message: &words.text,
            };
            writeln!(lines, "{told}")
        }
    }
}

// The line of a note to a microprogram of this path, which was read from these bytes and has this text as assembly.
fn push_note<A: Allocator + Clone>(
    lines: &mut String<A>,
    alloc: A,
    style: Style,
    path: &str,
    bytes: &[u8],
    assembly: &str,
    note: Note,
) -> Result<(), AllocError> {
    let words = words_of_note(alloc, path, bytes, assembly, note.word(), note, note.code());
    match words {
        None => Err(AllocError),
        Some(words) => push_said(lines, style, note, &words),
    }
}

/// What is told of the notes to a microprogram.
#[derive(Drop)]
pub(crate) struct ToldNotes<A: Allocator> {
    /// Their lines.
    pub(crate) lines: String<A>,
    /// One of them isn't to pass.
    pub(crate) is_denied: bool,
    count: usize,
}

/// The notes that are told to a microprogram that was read from these bytes, a line each in this style, and nothing else.
pub(crate) fn tell_notes<A: Allocator + Clone>(
    alloc: A,
    style: Style,
    path: &str,
    bytes: &[u8],
    verified: &Verified<A>,
    rules: NoteRules<'_>,
) -> Result<ToldNotes<A>, AllocError> {
    let notes = lint(alloc.clone()?, verified.text(), verified.geometry())?;
    let assembly = disassemble(alloc.clone()?, verified.text())?;
    let mut told = ToldNotes {
        lines: String::new(alloc.clone()?),
        is_denied: false,
        count: 0,
    };
    for note in notes.as_slice() {
        if rules.tells(note.code()) {
            push_note(
                &mut told.lines,
                alloc.clone()?,
                style,
                path,
                bytes,
                assembly.as_str(),
                *note,
            )?;
            told.is_denied = told.is_denied || rules.denies(note.code());
            told.count = told.count.saturating_add(1);
        }
    }
    Ok(told)
}

/// The lines of the notes to a microprogram that was read from these bytes, and how many they are.
pub(crate) fn lines_of_notes<A: Allocator + Clone>(
    alloc: A,
    path: &str,
    bytes: &[u8],
    verified: &Verified<A>,
    rules: NoteRules<'_>,
) -> Result<ToldNotes<A>, AllocError> {
    let mut told = tell_notes(alloc, Style::Plain, path, bytes, verified, rules)?;
    push_count(&mut told.lines, told.count)?;
    Ok(told)
}

/// The header lines with the least numbers that are enough; without a bound those of the text as it is.
pub(crate) fn lines_of_header<A: Allocator + Clone>(
    alloc: A,
    verified: &Verified<A>,
) -> Result<ToldNotes<A>, AllocError> {
    let text = verified.text();
    let least = least_header(alloc.clone()?, text, verified.geometry())?;
    let header = least.unwrap_or(Header::of(text));
    Ok(ToldNotes {
        lines: format!(in alloc; "{}", HeaderLines(header))?,
        is_denied: false,
        count: 0,
    })
}

/// Says the notes to a microprogram in this style.
pub(crate) fn say_notes<A: Allocator + Clone, E: Write>(
    alloc: A,
    errors: &mut E,
    style: Style,
    path: &str,
    bytes: &[u8],
    verified: &Verified<A>,
) {
    match tell_notes(alloc, style, path, bytes, verified, NoteRules::NONE) {
        Ok(told) => say_words(errors, told.lines.as_str()),
        Err(_) => say_words(errors, "no notes are told: out of memory\n"),
    }
}
