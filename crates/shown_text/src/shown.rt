//! A text as a message shows it.

use crate::characters::show_character;
use std::fmt;

// How many characters of a line or a word are shown.
const MOST_OF_A_LINE: usize = 120;

// How many characters of a path are shown: as many as the system takes.
const MOST_OF_A_PATH: usize = 4_096;

/// A text as a message shows it. `...` stands for what comes after its first characters, and a character that does something to a terminal, as a
/// control character, is written as Rust does it in a literal (`\t`, `\u{1b}`).
#[derive(Clone, Copy)]
pub struct Shown<'a> {
    text: &'a str,
    most: usize,
}

impl<'a> Shown<'a> {
    /// A line or a word of a file, 120 characters of it.
    pub fn line(line: &'a str) -> Shown<'a> {
        Shown {
            text: line,
            most: MOST_OF_A_LINE,
        }
    }

    /// A path, 4,096 characters of it.
    pub fn path(path: &'a str) -> Shown<'a> {
        Shown {
            text: path,
            most: MOST_OF_A_PATH,
        }
    }
}

impl fmt::Display for Shown<'_> {
    fn fmt<W: fmt::Write>(&self, f: &mut fmt::Formatter<W>) -> fmt::Result {
        for (place, character) in self.text.chars().enumerate() {
            if place == self.most {
                return f.write_str("...");
            }
            show_character(f, character)?;
        }
        Ok(())
    }
}
