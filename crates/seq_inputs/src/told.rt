//! What is wrong, as JSON.

use crate::fault::Fault;
use crate::words::Words;
use std::alloc::Allocator;
use std::fmt::{self, Write};

/// What a value displays, as the text of a JSON value: between quotes, with what JSON escapes escaped.
#[derive(Clone, Copy)]
pub struct Quoted<'a, D: fmt::Display>(pub &'a D);

// Writes on with the characters as JSON has them between quotes.
#[derive(Drop)]
struct Quoting<'a, W: fmt::Write> {
    output: &'a mut W,
}

// Writes a character of a text between quotes.
fn write_quoted<W: fmt::Write>(output: &mut W, character: char) -> fmt::Result {
    match character {
        '"' => output.write_str("\\\""),
        '\\' => output.write_str("\\\\"),
        '\n' => output.write_str("\\n"),
        '\0'..='\u{1f}' => write!(output, "\\u{:04x}", u32::from(character)),
        _ => output.write_char(character),
    }
}

impl<W: fmt::Write> fmt::Write for Quoting<'_, W> {
    fn write_str(&mut self, text: &str) -> fmt::Result {
        for character in text.chars() {
            write_quoted(self.output, character)?;
        }
        Ok(())
    }
}

impl<D: fmt::Display> fmt::Display for Quoted<'_, D> {
    fn fmt<W: fmt::Write>(&self, f: &mut fmt::Formatter<W>) -> fmt::Result {
        f.write_char('"')?;
        let mut quoting = Quoting { output: f };
        write!(&mut quoting, "{}", self.0)?;
        f.write_char('"')
    }
}

/// Where in a file something stands, but for its line.
#[derive(Clone, Copy, Debug, PartialEq, Eq)]
pub enum Place {
    /// A word of a microprogram, counted from 0.
    Word(usize),
    /// An item of a trace, counted from 0.
    Item(usize),
    /// A time of a capture, in its unit.
    Time(u64),
}

impl Place {
    /// Where a fault stands.
    pub(crate) fn of(fault: Fault) -> Option<Place> {
        match fault {
            Fault::File { word, .. } | Fault::Text { word, .. } => Some(Place::Word(word)),
            Fault::Page { .. }
            | Fault::Source { .. }
            | Fault::Job { .. }
            | Fault::Image { .. }
            | Fault::Statement { .. } => None,
        }
    }
}

impl fmt::Display for Place {
    fn fmt<W: fmt::Write>(&self, f: &mut fmt::Formatter<W>) -> fmt::Result {
        match self {
            Place::Word(word) => write!(f, "\"word\":{word}"),
            Place::Item(item) => write!(f, "\"item\":{item}"),
            Place::Time(time) => write!(f, "\"time\":{time}"),
        }
    }
}

/// Something that is told to a tool. It displays as one JSON object in a line, without the keys of what isn't known:
/// `{"code":"V13","file":"x.asm","line":6,"word":3,"message":".."}`.
#[derive(Clone, Copy)]
pub struct Told<'a, M: fmt::Display> {
    pub code: Option<&'static str>,
    pub path: Option<&'a str>,
    /// Counted from 1.
    pub line: Option<usize>,
    pub place: Option<Place>,
    /// The time in front of an item of a recording, in its unit.
    pub time: Option<u64>,
    pub message: &'a M,
}

impl<'a, M: fmt::Display> Told<'a, M> {
    /// A message alone.
    pub fn message(message: &'a M) -> Told<'a, M> {
        Told {
            code: None,
            path: None,
            line: None,
            place: None,
            time: None,
            message,
        }
    }
}

impl<'a, A: Allocator> Told<'a, String<A>> {
    /// What these words say of a fault.
    pub fn of(fault: Fault, words: &'a Words<'a, A>) -> Told<'a, String<A>> {
        Told {
            code: Some(fault.code()),
            path: words.path,
            line: words.line,
            place: Place::of(fault),
            time: words.time,
            message: &words.text,
        }
    }
}

impl<M: fmt::Display> fmt::Display for Told<'_, M> {
    fn fmt<W: fmt::Write>(&self, f: &mut fmt::Formatter<W>) -> fmt::Result {
        f.write_str("{")?;
        if let Some(code) = self.code {
            write!(f, "\"code\":{},", Quoted(&code))?;
        }
        if let Some(path) = self.path {
            write!(f, "\"file\":{},", Quoted(&path))?;
        }
        if let Some(line) = self.line {
            write!(f, "\"line\":{line},")?;
        }
        if let Some(place) = self.place {
            write!(f, "{place},")?;
        }
        if let Some(time) = self.time {
            write!(f, "\"time\":{time},")?;
        }
        write!(f, "\"message\":{}}}", Quoted(self.message))
    }
}
