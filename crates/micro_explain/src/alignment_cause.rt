//! An address that isn't given in one piece.

use crate::open::Open;
use std::fmt;

/// What is wrong with how an address is given.
#[derive(Clone, Copy)]
pub enum AlignmentCause {
    /// It doesn't begin at the byte that is wanted next.
    Begins(Open),
    /// A register changes inside it.
    Changes(Open),
}

// The name of one of the five address bytes.
fn byte_name(place: usize) -> &'static str {
    match place {
        0 => "C1",
        1 => "C2",
        2 => "R1",
        3 => "R2",
        _ => "R3",
    }
}

impl fmt::Display for AlignmentCause {
    fn fmt<W: fmt::Write>(&self, f: &mut fmt::Formatter<W>) -> fmt::Result {
        match self {
            AlignmentCause::Begins(open) => {
                let name = byte_name(open.place.next_address());
                write!(f, "{name} is the byte wanted next: {open}")
            }
            AlignmentCause::Changes(open) => {
                write!(f, "the address must be whole first: {open}")
            }
        }
    }
}
