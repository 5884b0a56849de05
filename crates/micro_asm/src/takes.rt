//! What the names of words and of header lines take.

use crate::names::{Counted, Name};

// What a name takes after it.
pub(crate) fn takes(name: Name) -> &'static str {
    match name {
        Name::Number(kind) => takes_number(kind),
        Name::Bare(_) => "this word takes no operand",
        Name::Command => "cmd takes two hexadecimal digits",
        Name::Address => "addr takes FROM and COUNT, COUNT from 1, together 5 at most",
        Name::Branch => "brs takes a mask of two hexadecimal digits, 01 to ff, and a label",
        Name::Jump => "jmp takes a label",
    }
}

// The number that a name takes.
fn takes_number(kind: Counted) -> &'static str {
    match kind {
        Counted::Rows => "rows takes a number from 1 to 4096",
        Counted::Buffer => "buffer takes a number from 0 to 16777215",
        Counted::Budget => "budget takes a number from 0 to 4294967295",
        Counted::End => "end takes a number from 0 to 255",
        Counted::Get => "get takes a number from 1 to 16777215",
        Counted::Put => "put takes a number from 1 to 16777215",
        Counted::Seek => "seek takes a number from 0 to 16777215",
        Counted::Column => "col takes a number from 0 to 65535",
        Counted::RowAdd => "rowadd takes a number from 1 to 65535",
        Counted::Row => "row takes a number from 0 to 4095",
        Counted::Plane => "plane takes a number from 0 to 3",
        Counted::Loop => "loop takes a number from 1 to 4096",
    }
}

// How many operands a name takes.
pub(crate) fn count_operands(name: Name) -> usize {
    match name {
        Name::Bare(_) => 0,
        Name::Number(_) | Name::Command | Name::Jump => 1,
        Name::Address | Name::Branch => 2,
    }
}
