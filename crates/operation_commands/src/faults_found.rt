//! What is wrong with the items of a trace.

use std::alloc::{AllocError, Global};
use trace_faults::{BrokenRule, NotShown, Verdict};

/// What is wrong with a trace, and what was taken for granted or for ready.
#[derive(Drop)]
pub(crate) struct FaultsFound {
    pub(crate) faults: Vec<BrokenRule>,
    pub(crate) granted: Vec<BrokenRule>,
    pub(crate) not_shown: Vec<NotShown>,
}

impl FaultsFound {
    // Notes what is said of an item.
    fn note(&mut self, item: usize, said: Verdict) -> Result<(), AllocError> {
        match said {
            Verdict::Broken(rule) => self.faults.push(BrokenRule { item, rule })?,
            Verdict::Granted(rule) => self.granted.push(BrokenRule { item, rule })?,
            Verdict::NotShown(ready) => self.not_shown.push(NotShown { item, ready })?,
            Verdict::Permitted | Verdict::PassedOver => {}
        }
        Ok(())
    }
}

impl FaultsFound {
    /// That of which this is said, item by item.
    pub(crate) fn of(alloc: Global, verdicts: &[Verdict]) -> Result<FaultsFound, AllocError> {
        let mut found = FaultsFound {
            faults: Vec::new(alloc),
            granted: Vec::new(alloc),
            not_shown: Vec::new(alloc),
        };
        for (item, said) in verdicts.iter().enumerate() {
            found.note(item, *said)?;
        }
        Ok(found)
    }
}
