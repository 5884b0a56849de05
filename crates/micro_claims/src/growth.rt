//! How much a number has grown.
ghost use Rattle.std.specs.Prelude.{◌≡◌, Some};
ghost use Rattle.micro_claims.specs.Joins.{joined_growth};
ghost use Rattle.micro_claims.specs.Order.{is_growth_within};
ghost use Rattle.micro_claims.specs.Spans.{growth_plus};

use crate::limits::{bound_plus, greater_bound, is_bound_within, lesser, lower_plus};

/// How much a number has grown since the turn of a loop began.
#[derive(Clone, Copy)]
pub struct Growth {
    pub lo: u32,
    pub hi: Option<u32>,
}

pub(crate) const NO_GROWTH: Option<Growth> = Some(Growth { lo: 0, hi: Some(0) });

impl Growth {
    pub(crate) fn plus_between(self, least: u64, most: u64) -> Growth
        ensures { Some result ≡ growth_plus least most (Some self) }
    {
        Growth {
            lo: lower_plus(self.lo, least),
            hi: bound_plus(self.hi, most),
        }
    }

    pub(crate) fn is_within(self, other: Growth) -> bool
        ensures { result ≡ is_growth_within (Some self) (Some other) }
    {
        other.lo <= self.lo && is_bound_within(self.hi, other.hi)
    }
}

pub(crate) fn joined_growth(one: Option<Growth>, other: Option<Growth>) -> Option<Growth>
    ensures { result ≡ joined_growth one other }
{
    match (one, other) {
        (Some(one), Some(other)) => Some(Growth {
            lo: lesser(one.lo, other.lo),
            hi: greater_bound(one.hi, other.hi),
        }),
        _ => None,
    }
}
