//! Which requests for memory are refused.
use std::cell::Cell;

/// Which requests for memory are refused from now on.
#[derive(Clone, Copy, PartialEq, Eq)]
pub enum Refusal {
    /// None is.
    Never,
    /// The one after so many is, and those after it go through again.
    Once { after: u64 },
    /// Each is.
    Always,
}

/// Refuses requests, and counts those that it refused.
pub(crate) struct Refuser {
    refusal: Cell<Refusal>,
    refused: Cell<u64>,
}

impl Refuser {
    /// One that refuses none.
    pub(crate) fn new() -> Refuser {
        Refuser {
            refusal: Cell::new(Refusal::Never),
            refused: Cell::new(0),
        }
    }

    /// Begins to refuse these.
    pub(crate) fn set(&self, refusal: Refusal) {
        self.refusal.set(refusal);
    }

    /// How many it has refused.
    pub(crate) fn count(&self) -> u64 {
        self.refused.get()
    }

    // The refusal after one more request, and whether it is refused.
    fn next(&self) -> (Refusal, bool) {
        match self.refusal.get() {
            Refusal::Never => (Refusal::Never, false),
            Refusal::Always => (Refusal::Always, true),
            Refusal::Once { after: 0 } => (Refusal::Never, true),
            Refusal::Once { after } => (
                Refusal::Once {
                    after: after.wrapping_sub(1),
                },
                false,
            ),
        }
    }

    /// Whether one more request is refused.
    pub(crate) fn refuses(&self) -> bool {
        let (refusal, is_refused) = self.next();
        self.refusal.set(refusal);
        if is_refused {
            self.refused.set(self.refused.get().wrapping_add(1));
        }
        is_refused
    }
}

impl Drop for Refuser {
    fn drop(self) {
        let Self {
            refusal: _,
            refused: _,
        } = self;
    }
}
