//! What is told of the times of a trace.

use crate::timing_fault::TimingFault;

/// What is wrong with the time of an item: how long it comes after what is before it, or after the beginning of the work that it shows, and how long it is to or
/// may, in femtoseconds; 0 and 0 for what is no distance.
#[derive(Clone, Copy, Debug, PartialEq, Eq)]
pub struct Violation {
    /// The number of the item, from 0.
    pub item: usize,
    pub fault: TimingFault,
    pub seen: u64,
    pub wanted: u64,
}
