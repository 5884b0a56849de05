//! The numbers of a header.

use crate::needs::Needs;
use micro_word::Text;
use std::alloc::Allocator;

/// The three numbers of a header.
#[derive(Clone, Copy, Debug, PartialEq, Eq)]
pub struct Header {
    /// How many rows the program may reach, counted from its base.
    pub rows: u32,
    /// The bytes of its buffer.
    pub buffer: u32,
    /// How many bus cycles it may cost.
    pub budget: u32,
}

impl Header {
    /// The largest numbers that there are.
    pub const LARGEST: Header = Header {
        rows: 4_096,
        buffer: 16_777_215,
        budget: 4_294_967_295,
    };

    /// The header of a text.
    pub fn of<A: Allocator>(text: &Text<A>) -> Header {
        Header {
            rows: u32::from(text.rows()),
            buffer: text.buffer(),
            budget: text.budget(),
        }
    }

    // What is needed, where it has bounds and fits a header.
    pub(crate) fn for_needs(needs: Needs) -> Option<Header> {
        Some(Header {
            rows: u32::try_from(needs.rows?).ok()?,
            buffer: u32::try_from(needs.buffer?).ok()?,
            budget: u32::try_from(needs.budget?).ok()?,
        })
    }
}
