//! A trace whose operations are listed.

use crate::item_groups::ItemGroups;
use nand_geometry::Geometry;
use onfi_cycle::Item;
use recording::KeptTrace;
use trace_faults::{BrokenRule, NotShown};
use trace_ops::Operation;
use trace_timing::TimedItem;

/// A trace whose operations are listed, and what was found of it.
#[derive(Drop)]
pub(crate) struct ListedTrace {
    pub(crate) geometry: Geometry,
    pub(crate) kept: KeptTrace,
    pub(crate) operations: Vec<Operation>,
    /// The items of each operation.
    pub(crate) groups: ItemGroups,
    pub(crate) faults: Vec<BrokenRule>,
    pub(crate) granted: Vec<BrokenRule>,
    pub(crate) not_shown: Vec<NotShown>,
}

impl ListedTrace {
    /// The item of a number.
    pub(crate) fn item(&self, number: usize) -> Option<Item> {
        self.kept.items().get(number).copied()
    }

    /// Where it stands in the whole trace, with the items of a vendor's sequences.
    pub(crate) fn place(&self, number: usize) -> usize {
        self.kept.place_of(number)
    }

    /// The same, if there is one.
    pub(crate) fn place_if(&self, number: Option<usize>) -> Option<usize> {
        Some(self.place(number?))
    }

    /// The items with their times.
    pub(crate) fn timed(&self) -> &[TimedItem] {
        self.kept.timed()
    }

    /// Its time, if it has one.
    pub(crate) fn time(&self, number: usize) -> Option<u64> {
        self.kept.timed().get(number)?.time
    }
}
