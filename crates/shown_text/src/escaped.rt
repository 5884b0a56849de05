//! A value's text as a terminal may have it.

use crate::characters::show_character;
use std::fmt::{self, Write};

/// What a value displays, in which each character that does something to a terminal, but a line feed, is written as [`Shown`](crate::Shown) writes it.
#[derive(Clone, Copy)]
pub struct Escaped<'a, D: fmt::Display>(pub &'a D);

// Writes on with the characters as they are shown.
#[derive(Drop)]
struct Escaping<'a, W: fmt::Write> {
    output: &'a mut W,
}

impl<W: fmt::Write> fmt::Write for Escaping<'_, W> {
    fn write_str(&mut self, text: &str) -> fmt::Result {
        for character in text.chars() {
            if character == '\n' {
                self.output.write_char(character)?;
            } else {
                show_character(self.output, character)?;
            }
        }
        Ok(())
    }
}

impl<D: fmt::Display> fmt::Display for Escaped<'_, D> {
    fn fmt<W: fmt::Write>(&self, f: &mut fmt::Formatter<W>) -> fmt::Result {
        let mut escaping = Escaping { output: f };
        write!(&mut escaping, "{}", self.0)
    }
}
