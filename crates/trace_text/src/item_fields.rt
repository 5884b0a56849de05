//! The fields of a line that has a fault, for messages.

use shown_text::Fields;

// Where the fields of an item stand.
#[derive(Clone, Copy)]
pub(crate) enum ItemFields<'a> {
    // Between single spaces.
    Strict(&'a str),
    // Between blanks.
    Recorded(&'a str),
}

impl<'a> ItemFields<'a> {
    // The field of this number, counted from 0; empty if there is none.
    pub(crate) fn get(self, number: usize) -> &'a str {
        let field = match self {
            ItemFields::Strict(line) => line.split(' ').nth(number),
            ItemFields::Recorded(text) => Fields::of(text).get(number),
        };
        field.unwrap_or("")
    }

    // How many fields there are.
    pub(crate) fn count(self) -> usize {
        match self {
            ItemFields::Strict(line) => line.split(' ').count(),
            ItemFields::Recorded(text) => Fields::of(text).count(),
        }
    }
}
