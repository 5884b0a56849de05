//! Items with what stands beside them in a recorded text.

use onfi_cycle::Item;

/// An item of a recorded text.
#[derive(Clone, Copy, Debug, PartialEq, Eq)]
pub struct RecordedItem {
    /// The number of its line in the file, from 1.
    pub line: usize,
    /// The time in front of it, if there is one.
    pub time: Option<u64>,
    pub item: Item,
}

/// An item and its time.
#[derive(Clone, Copy, Debug, PartialEq, Eq)]
pub struct TimedItem {
    pub time: u64,
    pub item: Item,
}
