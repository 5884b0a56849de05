//! After how many polls that say busy work is over.
ghost use Rattle.std.specs.Prelude.{◌≡◌};
ghost use Rattle.run_plan.specs.Polls.{of_work, polls_of};

use onfi_cycle::{Lun, MAX_CHANNEL_LUNS};
use trace_timing::BusyTime;

// How many LUNs a target has at most.
const MOST_LUNS: u8 = 4;

/// After how many polls that say busy work is over: what is told of the LUN goes first, then what is told of the kind of work, then what is told of each.
#[derive(Clone, Copy, Debug, PartialEq, Eq)]
pub struct Polls {
    pub(crate) each: u64,
    pub(crate) read: Option<u64>,
    pub(crate) program: Option<u64>,
    pub(crate) erase: Option<u64>,
    // By the place of a LUN, where each target has four.
    pub(crate) luns: [Option<u64>; MAX_CHANNEL_LUNS],
}

impl Polls {
    /// One poll, whatever the work.
    pub const ONE: Polls = Polls {
        each: 1,
        read: None,
        program: None,
        erase: None,
        luns: [None; MAX_CHANNEL_LUNS],
    };

    // What is told of this kind of work.
    fn of_work(&self, work: Option<BusyTime>) -> Option<u64>
        ensures { result ≡ of_work self.now work }
    {
        match work {
            Some(BusyTime::Read) => self.read,
            Some(BusyTime::Program) => self.program,
            Some(BusyTime::Erase) => self.erase,
            Some(BusyTime::Reset | BusyTime::Features) | None => None,
        }
    }

    /// The polls of work of this kind on a LUN.
    pub fn count(&self, lun: Lun, work: Option<BusyTime>) -> u64
        ensures { result ≡ polls_of self.now lun work }
    {
        match self.luns.get(lun.place(MOST_LUNS)) {
            Some(Some(count)) => *count,
            Some(None) | None => self.of_work(work).unwrap_or(self.each),
        }
    }

    /// So many are told of a LUN.
    pub(crate) fn set_lun(&mut self, lun: Lun, count: u64) {
        if let Some(kept) = self.luns.get_mut(lun.place(MOST_LUNS)) {
            *kept = Some(count);
        }
    }
}
