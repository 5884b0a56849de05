//! Programs and erases of a LUN.
ghost use Rattle.std.specs.Prelude.{◌≡◌};
ghost use Rattle.trace_data.specs.Data.{copied_at, left_of, ended_as};

use crate::origin::Origin;
use onfi_cycle::{PageAddress, Queued};

/// A program or an erase of a LUN that has begun.
#[derive(Clone, Copy, Debug, PartialEq, Eq)]
pub struct BegunWork {
    pub work: Queued,
    /// The item of the command that began it, counted from 0.
    pub item: usize,
    /// It programs a page with the bytes of another.
    pub copies: bool,
}

impl BegunWork {
    /// It is over, with failure or without.
    pub(crate) fn ended(self, failed: bool) -> EndedWork
        ensures { result ≡ ended_as failed self }
    {
        EndedWork {
            work: self.work,
            item: self.item,
            copies: self.copies,
            failed,
        }
    }
}

/// A program or an erase of a LUN that is over.
#[derive(Clone, Copy, Debug, PartialEq, Eq)]
pub struct EndedWork {
    pub work: Queued,
    /// The item of the command that began it, counted from 0.
    pub item: usize,
    /// It has programmed a page with the bytes of another.
    pub copies: bool,
    /// Its ready brought a failure, or a reset broke it off.
    pub failed: bool,
}

impl EndedWork {
    // Where its page has its bytes from after it as a program, where nobody may know what other pages of its LUN hold.
    fn programs(self, doubted: bool, before: Origin) -> Origin
        ensures { result ≡ copied_at self.copies doubted self.item before }
    {
        if self.copies && doubted {
            Origin::Unknown
        } else {
            before.programmed_at(self.item)
        }
    }

    /// Where a page has its bytes from after it, where nobody may know what other pages of its LUN hold.
    pub(crate) fn leaves(self, page: PageAddress, doubted: bool, before: Origin) -> Origin
        ensures { result ≡ left_of doubted self page before }
    {
        let item = self.item;
        let (is_touched, left) = match self.work {
            Queued::Erase(at) => (page.block == at.block, Origin::Erased { item }),
            Queued::Program(at) => (page == at, self.programs(doubted, before)),
            Queued::Read(_) => (false, before),
        };
        match (is_touched, self.failed) {
            (false, _) => before,
            (true, true) => Origin::Unknown,
            (true, false) => left,
        }
    }
}
