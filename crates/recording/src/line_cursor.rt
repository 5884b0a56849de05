//! The lines of the items of a trace's text, found in one pass.

use std::alloc::{AllocError, Global};
use trace_text::{TraceForm, find_item};

/// The line of an item.
#[derive(Clone, Copy)]
pub struct ItemLine<'t> {
    /// Its number, from 1.
    pub number: usize,
    /// The time in front of the item, if there is one.
    pub time: Option<u64>,
    pub text: &'t str,
}

/// How far one has come in the text of a trace that was read in this form. Items that rise are found in one pass over the text.
#[derive(Clone, Copy)]
pub struct LineCursor<'t> {
    form: TraceForm,
    // The text from some line on, the number of that line, from 1, and how many items stand before it.
    rest: &'t str,
    line: usize,
    items: usize,
}

// The first line of a text, and what is behind it.
fn split_line(text: &str) -> (&str, &str) {
    match text.split_once('\n') {
        Some((line, rest)) => (line, rest),
        None => (text, ""),
    }
}

// A line begins with a time or a chip enable, as nearly all do.
fn begins_with_item(line: &str) -> bool {
    match line.as_bytes() {
        [b'@' | b'0'..=b'3', ..] => true,
        [..] => false,
    }
}

// Whether a line of a text in this form has an item: in a log, where it has anything but blanks and a comment.
fn has_item(form: TraceForm, line: &str) -> bool {
    match form {
        TraceForm::Strict => true,
        TraceForm::Recorded if begins_with_item(line) => true,
        TraceForm::Recorded => {
            let blanks = |byte: &u8| matches!(*byte, b' ' | b'\t' | b'\r');
            let first = line.as_bytes().iter().find(|byte| !blanks(*byte));
            !matches!(first, None | Some(b'#' | b';'))
        }
    }
}

impl<'t> LineCursor<'t> {
    /// The beginning of a text.
    pub fn new(text: &'t str, form: TraceForm) -> LineCursor<'t> {
        LineCursor {
            form,
            rest: text,
            line: 1,
            items: 0,
        }
    }

    // Goes on to the line of the item that comes after so many others.
    fn skip_items(&mut self, count: usize) {
        let mut left = count;
        for _ in 0..self.rest.len() {
            let (line, rest) = split_line(self.rest);
            if has_item(self.form, line) {
                if left == 0 {
                    return;
                }
                left -= 1;
            }
            self.rest = rest;
            self.line = self.line.saturating_add(1);
        }
    }

    // The time in front of the next item, if there is one.
    fn time(&self) -> Option<u64> {
        match self.form {
            TraceForm::Strict => None,
            TraceForm::Recorded => find_item(self.rest, 0)?.time,
        }
    }

    /// The line of an item, counted from 0, which isn't before one that was asked for earlier.
    pub fn find(&mut self, item: usize) -> ItemLine<'t> {
        self.skip_items(item.saturating_sub(self.items));
        self.items = item;
        let (text, _) = split_line(self.rest);
        ItemLine {
            number: self.line,
            time: self.time(),
            text,
        }
    }
}

/// The lines of some items of a text.
#[derive(Drop)]
pub struct ItemLines<'t> {
    lines: Vec<(usize, ItemLine<'t>)>,
}

impl<'t> ItemLines<'t> {
    /// Finds the lines of these items, which rise, in one pass over the text.
    pub fn find(
        alloc: Global,
        text: &'t str,
        form: TraceForm,
        items: &[usize],
    ) -> Result<ItemLines<'t>, AllocError> {
        let mut cursor = LineCursor::new(text, form);
        let mut lines = Vec::new(alloc);
        for item in items {
            lines.push((*item, cursor.find(*item)))?;
        }
        Ok(ItemLines { lines })
    }

    /// The line of an item that was looked for.
    pub fn line_of(&self, item: usize) -> Option<ItemLine<'t>> {
        for (found, line) in self.lines.iter() {
            if *found == item {
                return Some(*line);
            }
        }
        None
    }
}
