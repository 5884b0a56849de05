//! The loops in which a walk is.

// So many loops are around a word at most.
const MOST_AROUND: usize = 4;

/// A loop in which a walk is. The walk takes two of its turns, and makes up for the others.
#[derive(Clone, Copy)]
pub(crate) struct Turning {
    /// The place of its first word.
    pub head: usize,
    pub turns: u16,
    /// The row index after its first turn, where the walk is in the second.
    pub first_end: Option<u64>,
}

impl Turning {
    /// The row index after all turns, by the one after the last turn that was walked. Each turn moves it alike.
    pub(crate) fn row_after(self, row: u64) -> u64 {
        let left = u64::from(self.turns).saturating_sub(2);
        match self.first_end {
            None => row,
            Some(first) => row.saturating_add(row.saturating_sub(first).saturating_mul(left)),
        }
    }

    /// There are turns that the walk doesn't take.
    pub(crate) fn is_cut(self) -> bool {
        self.turns > 2
    }
}

const NO_LOOP: Turning = Turning {
    head: 0,
    turns: 1,
    first_end: None,
};

/// The loops in which a walk is.
#[derive(Clone, Copy)]
pub(crate) struct Loops {
    loops: [Turning; MOST_AROUND],
    depth: usize,
}

impl Loops {
    pub(crate) fn none() -> Loops {
        Loops {
            loops: [NO_LOOP; MOST_AROUND],
            depth: 0,
        }
    }

    /// A loop is entered. No text that the verifier accepts has too many.
    pub(crate) fn enter(&mut self, head: usize, turns: u16) {
        if self.depth < MOST_AROUND {
            self.loops[self.depth] = Turning {
                head,
                turns,
                first_end: None,
            };
            self.depth += 1;
        }
    }

    /// The innermost loop is left, or there was none.
    pub(crate) fn leave(&mut self) -> Option<Turning> {
        if self.depth == 0 || self.depth > MOST_AROUND {
            return None;
        }
        self.depth -= 1;
        Some(self.loops[self.depth])
    }

    /// The innermost loop turns once more, where it was walked but once: the place of its first word.
    pub(crate) fn turn(&mut self, row: u64) -> Option<usize> {
        if self.depth == 0 || self.depth > MOST_AROUND {
            return None;
        }
        let turning = self.loops[self.depth - 1];
        if turning.turns < 2 || turning.first_end.is_some() {
            return None;
        }
        self.loops[self.depth - 1] = Turning {
            first_end: Some(row),
            ..turning
        };
        Some(turning.head)
    }
}
