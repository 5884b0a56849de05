//! The queue of multi-plane operations of a LUN.
ghost use Rattle.std.specs.Prelude.{◌≡◌, List};

use crate::PageAddress;
use arrayvec::ArrayVec;

/// A row in the queue of a multi-plane operation.
#[derive(Clone, Copy, Debug, PartialEq, Eq)]
pub enum Queued {
    Erase(PageAddress),
    Program(PageAddress),
    Read(PageAddress),
}

impl Default for Queued {
    /// The blank of a list of fixed size.
    fn default() -> Queued {
        Queued::Erase(PageAddress { block: 0, page: 0 })
    }
}

/// The queue of a LUN, however it is kept, the newest member first.
pub trait WorkQueue: Drop {
    ghost use Rattle.onfi_cycle.specs.declared.queued.Queued.{Queued};

    ghost members: { Self → List Queued };

    fn works(&self) -> &[Queued]
        ensures { result.now ≡ members self.now };
}

impl WorkQueue for Vec<Queued> {
    ghost members = { λ v. v.items };

    fn works(&self) -> &[Queued] {
        self.as_slice()
    }
}

/// The rows that are queued on a LUN, in an array of fixed size. A legal trace queues 4 at most.
pub type RowQueue = ArrayVec<Queued, 16>;

impl WorkQueue for RowQueue {
    ghost members = { λ v. v.items };

    fn works(&self) -> &[Queued] {
        self.as_slice()
    }
}
