//! What a line can be.

use micro_word::Word;

// A header line with its number.
#[derive(Clone, Copy)]
pub(crate) enum Setting {
    Rows(u16),
    Buffer(u32),
    Budget(u32),
}

// A word; a branch names the label to which it leads.
#[derive(Clone, Copy)]
pub(crate) enum Entry<'a> {
    Plain(Word),
    Branch { mask: u8, to: &'a [u8] },
    Jump { to: &'a [u8] },
}

// A line: without fields, a header line, a label, or a word.
#[derive(Clone, Copy)]
pub(crate) enum Statement<'a> {
    Nothing,
    Header(Setting),
    Label(&'a [u8]),
    Entered(Entry<'a>),
}
