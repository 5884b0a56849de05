//! Boxes, and the pieces that they are drawn in.

use crate::label::Label;

/// Cycles of one target that belong together: a box.
#[derive(Clone, Copy, Debug, PartialEq, Eq)]
pub struct Sequence {
    /// The chip enable.
    pub ce: u8,
    /// What stands in it.
    pub label: Label,
}

/// Cycles of a box that follow one another: the items from `first` on, before `end`.
#[derive(Clone, Copy, Debug, PartialEq, Eq)]
pub struct Piece {
    /// The place of the box in the list of all.
    pub sequence: usize,
    pub first: usize,
    pub end: usize,
}
