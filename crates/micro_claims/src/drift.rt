//! How far the index register is from a row, and how it moves.
ghost use Rattle.std.specs.Prelude.{◌≡◌};
ghost use Rattle.micro_claims.specs.Joins.{joined_drift};
ghost use Rattle.micro_claims.specs.Leaves.{drift_of, drift_more, drift_moved, moved_by};
ghost use Rattle.micro_claims.specs.Order.{is_drift_within};

use crate::limits::GREATEST_BOUND;

/// How far the index register is from the index of a row: register + `behind` is index + `ahead`, and one of the two is 0.
#[derive(Clone, Copy, PartialEq, Eq)]
pub struct Drift {
    pub ahead: u32,
    pub behind: u32,
}

// The index register is at the row itself.
pub(crate) const NO_DISTANCE: Drift = Drift {
    ahead: 0,
    behind: 0,
};

/// A move of the index register: on by so many rows, or to a row from where it is, if that is known.
#[derive(Clone, Copy)]
pub enum IndexMove {
    On { rows: u64 },
    To { from: Option<u32>, row: u64 },
}

impl Drift {
    // As far as this, one of the two being 0; or unknown.
    pub(crate) fn of(ahead: u64, behind: u64) -> Option<Drift>
        ensures { result ≡ drift_of ahead behind }
    {
        if ahead <= GREATEST_BOUND && behind <= GREATEST_BOUND {
            let both = ahead.min(behind);
            Some(Drift {
                ahead: (ahead - both) as u32,
                behind: (behind - both) as u32,
            })
        } else {
            None
        }
    }

    // After the register has moved on.
    fn more(self, rows: u64) -> Option<Drift>
        ensures { result ≡ drift_more rows self }
    {
        match u64::from(self.ahead).checked_add(rows) {
            None => None,
            Some(ahead) => Drift::of(ahead, u64::from(self.behind)),
        }
    }

    // After the register has moved from one row to another.
    pub(crate) fn moved(self, from: u64, to: u64) -> Option<Drift>
        ensures { result ≡ drift_moved from to self }
    {
        match (
            u64::from(self.ahead).checked_add(to),
            u64::from(self.behind).checked_add(from),
        ) {
            (Some(ahead), Some(behind)) => Drift::of(ahead, behind),
            _ => None,
        }
    }

    pub(crate) fn after(self, by: IndexMove) -> Option<Drift>
        ensures { result ≡ moved_by by self }
    {
        match by {
            IndexMove::On { rows } => self.more(rows),
            IndexMove::To { from: None, .. } => None,
            IndexMove::To {
                from: Some(from),
                row,
            } => self.moved(u64::from(from), row),
        }
    }
}

pub(crate) fn is_drift_within(one: Option<Drift>, other: Option<Drift>) -> bool
    ensures { result ≡ is_drift_within one other }
{
    match (one, other) {
        (_, None) => true,
        (None, Some(_)) => false,
        (Some(one), Some(other)) => one == other,
    }
}

pub(crate) fn joined_drift(one: Option<Drift>, other: Option<Drift>) -> Option<Drift>
    ensures { result ≡ joined_drift one other }
{
    match (one, other) {
        (Some(one), Some(other)) if one == other => Some(one),
        _ => None,
    }
}
