//! Which of its options a run takes.

/// How many times a run takes another option than the first at most.
pub(crate) const MOST_TURNS: usize = 4;

/// At a decision of a run, counted from 0, another option than the first.
#[derive(Clone, Copy, Debug, PartialEq, Eq)]
pub(crate) struct Turn {
    pub decision: usize,
    pub option: usize,
}

/// Where a run takes another option than the first, in the order of its decisions.
#[derive(Clone, Copy, Debug, PartialEq, Eq)]
pub(crate) struct Plan {
    turns: [Turn; MOST_TURNS],
    count: usize,
}

impl Plan {
    /// The first option everywhere.
    pub(crate) const FIRST: Plan = Plan {
        turns: [Turn {
            decision: 0,
            option: 0,
        }; MOST_TURNS],
        count: 0,
    };

    /// The option at a decision.
    pub(crate) fn option_at(&self, decision: usize) -> usize {
        for turn in self.turns.iter().take(self.count) {
            if turn.decision == decision {
                return turn.option;
            }
        }
        0
    }

    /// The decision from which on another turn may be added.
    pub(crate) fn next_decision(&self) -> usize {
        match self.count.checked_sub(1) {
            Some(last) if last < MOST_TURNS => self.turns[last].decision.saturating_add(1),
            Some(_) | None => 0,
        }
    }

    /// With a turn more, if there is room.
    pub(crate) fn with(&self, turn: Turn) -> Option<Plan> {
        if self.count >= MOST_TURNS {
            return None;
        }
        let mut turns = self.turns;
        turns[self.count] = turn;
        Some(Plan {
            turns,
            count: self.count + 1,
        })
    }
}
