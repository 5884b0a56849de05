//! The time in which a LUN works, and its failures.

/// What works in a [`Span`]: the LUN, or its array.
#[derive(Clone, Copy, Debug, PartialEq, Eq)]
pub enum Worker {
    /// The LUN: it is busy.
    Lun,
    /// Its array, after a cache read or a cache program.
    Array,
}

/// The time in which a LUN or its array works: from behind the item `from` to the item `end`, None where it works on at the end of the trace.
#[derive(Clone, Copy, Debug, PartialEq, Eq)]
pub struct Span {
    pub ce: u8,
    pub lun: u8,
    pub worker: Worker,
    pub from: usize,
    pub end: Option<usize>,
}

/// A failure that a ready told.
#[derive(Clone, Copy, Debug, PartialEq, Eq)]
pub struct Failure {
    pub ce: u8,
    pub lun: u8,
    pub item: usize,
}
