//! An output that gives another byte than the die holds.

use crate::origin::Origin;
use crate::page_shown::PageShown;

/// An output that gives another byte than the die of its LUN holds there.
#[derive(Clone, Copy, Debug, PartialEq, Eq)]
pub struct Difference {
    /// The item, counted from 0.
    pub item: usize,
    /// What was read.
    pub shown: PageShown,
    /// The byte of the output.
    pub seen: u8,
    /// The byte that the die holds.
    pub expected: u8,
    /// Where the page has its bytes from.
    pub origin: Origin,
}
