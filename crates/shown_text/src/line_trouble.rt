//! What is wrong with the characters of a line.

use crate::blanks::Blanks;
use crate::characters::{name_of, show_character};
use std::fmt;

/// What keeps a line from being read, whatever it says. Columns are counted in characters, from 1.
#[derive(Clone, Copy, Debug, PartialEq, Eq)]
pub enum LineTrouble {
    /// It begins with a byte order mark.
    ByteOrderMark,
    /// It ends in a carriage return.
    CarriageReturn,
    /// A character isn't ASCII.
    NotAscii { character: char, column: usize },
    /// A tab stands where single spaces are wanted.
    Tab { column: usize },
    /// Another control character.
    Control { character: char, column: usize },
}

impl LineTrouble {
    /// What is wrong with a line that is given without its line feed, and without a comment that may have any character.
    pub fn find(line: &str, blanks: Blanks) -> Option<LineTrouble> {
        if line.starts_with('\u{feff}') {
            return Some(LineTrouble::ByteOrderMark);
        }
        if line.ends_with('\r') {
            return Some(LineTrouble::CarriageReturn);
        }
        find_odd_character(line, blanks)
    }
}

// The first character that may not stand in a line.
fn find_odd_character(line: &str, blanks: Blanks) -> Option<LineTrouble> {
    for (place, character) in line.chars().enumerate() {
        let trouble = judge(character, place.saturating_add(1), blanks);
        if trouble.is_some() {
            return trouble;
        }
    }
    None
}

// What is wrong with a character in this column.
fn judge(character: char, column: usize, blanks: Blanks) -> Option<LineTrouble> {
    if !character.is_ascii() {
        return Some(LineTrouble::NotAscii { character, column });
    }
    match (character, blanks) {
        ('\t', Blanks::SpacesAndTabs) => None,
        ('\t', Blanks::SingleSpaces) => Some(LineTrouble::Tab { column }),
        _ if character.is_control() => Some(LineTrouble::Control { character, column }),
        _ => None,
    }
}

// Writes a character that isn't ASCII by its name, or as it looks, and by its number.
fn write_character<W: fmt::Write>(f: &mut fmt::Formatter<W>, character: char) -> fmt::Result {
    match name_of(character) {
        Some(name) => f.write_str(name)?,
        None => {
            f.write_str("`")?;
            show_character(f, character)?;
            f.write_str("`")?;
        }
    }
    write!(f, " ({})", character.escape_unicode())
}

impl fmt::Display for LineTrouble {
    fn fmt<W: fmt::Write>(&self, f: &mut fmt::Formatter<W>) -> fmt::Result {
        match self {
            LineTrouble::ByteOrderMark => {
                f.write_str(
                    "the line begins with a UTF-8 byte order mark; save the file without it",
                )
            }
            LineTrouble::CarriageReturn => {
                f.write_str("the line ends in CR LF; only LF ends a line")
            }
            LineTrouble::NotAscii { character, column } => {
                write!(f, "column {column} has ")?;
                write_character(f, *character)?;
                f.write_str(", which isn't ASCII")
            }
            LineTrouble::Tab { column } => {
                write!(
                    f,
                    "column {column} has a tab; one space stands between two fields"
                )
            }
            LineTrouble::Control { character, column } => {
                write!(
                    f,
                    "column {column} has the control character {}",
                    character.escape_default()
                )
            }
        }
    }
}
