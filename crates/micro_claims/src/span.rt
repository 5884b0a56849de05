//! Numbers that are known by their bounds, and that may grow in loops.
ghost use Rattle.std.specs.Prelude.{◌≡◌};
ghost use Rattle.micro_claims.specs.State.{any_number};
ghost use Rattle.micro_claims.specs.Joins.{joined_span, both_know};
ghost use Rattle.micro_claims.specs.Order.{is_span_within, span_at_head, span_at_heads, span_after_turns, column_number, is_column_within, span_in_loop, column_by};
ghost use Rattle.micro_claims.specs.Spans.{exactly, plus_between, plus, only, copied};

use crate::grows::Grows;
use crate::growth::{Growth, NO_GROWTH, joined_growth};
use crate::limits::{
    bound_plus, bound_sum, bound_times, greater_bound, is_bound_within, kept, lesser, lower_after,
    lower_plus, saturated,
};
use crate::loop_place::LoopPlace;
use std::marker::Model;

// A number of which nothing is known.
pub(crate) fn any_number() -> Span
    ensures { result ≡ any_number }
{
    Span::of(0, None, None)
}

/// A number from `lo` on, up to `hi` if there is a bound. It takes 20 bytes: which of its numbers are known stands beside them.
#[derive(Clone, Copy)]
pub struct Span {
    lo: u32,
    hi: u32,
    grown_lo: u32,
    grown_hi: u32,
    has_hi: bool,
    grows: Grows,
}

impl Model for Span {
    ghost use Rattle.micro_claims.specs.Spans.{Span};

    ghost Value = { Span };

    ghost use Rattle.std.specs.Prelude.{is_some};
    ghost use Rattle.micro_claims.specs.Packed.{bound_of, growth_of, IsUnused, AreUnused, or_none, grows_by, least_of, most_of, bound_back, known_back, grows_back, least_back, most_back};

    ghost view = { λ s. record { lo = s.lo; hi = bound_of s.has_hi s.hi; grown = growth_of s.grows s.grown_lo s.grown_hi } };

    ghost invariant = { λ s. IsUnused s.has_hi s.hi × AreUnused s.grows s.grown_lo s.grown_hi };

    ghost inverse = { λ v. record { lo = v.lo; hi = or_none v.hi; grown_lo = least_of v.grown; grown_hi = most_of v.grown; has_hi = is_some v.hi; grows = grows_by v.grown } };

    ghost inverse_ok = { λ s h i. record s {
      hi = bound_back s.has_hi s.hi h.0 i;
      grown_lo = least_back s.grows s.grown_lo s.grown_hi h.1 i;
      grown_hi = most_back s.grows s.grown_lo s.grown_hi h.1 i;
      has_hi = known_back s.has_hi s.hi i;
      grows = grows_back s.grows s.grown_lo s.grown_hi i;
    } };
}

impl Span {
    /// From its numbers.
    pub fn of(lo: u32, hi: Option<u32>, grown: Option<Growth>) -> Span
        ensures { result ≡ record { lo = lo; hi = hi; grown = grown } }
    {
        let (has_hi, hi) = match hi {
            None => (false, 0),
            Some(hi) => (true, hi),
        };
        let (grows, grown_lo, grown_hi) = match grown {
            None => (Grows::Not, 0, 0),
            Some(Growth { lo, hi: None }) => (Grows::AtLeast, lo, 0),
            Some(Growth { lo, hi: Some(hi) }) => (Grows::Between, lo, hi),
        };
        Span {
            lo,
            hi,
            grown_lo,
            grown_hi,
            has_hi,
            grows,
        }
    }

    /// The least that it may be.
    pub fn lo(self) -> u32
        ensures { result ≡ self.lo }
    {
        self.lo
    }

    /// The greatest that it may be.
    pub fn hi(self) -> Option<u32>
        ensures { result ≡ self.hi }
    {
        if self.has_hi { Some(self.hi) } else { None }
    }

    /// How much it has grown: None where the number was set, or outside loops.
    pub fn grown(self) -> Option<Growth>
        ensures { result ≡ self.grown }
    {
        match self.grows {
            Grows::Not => None,
            Grows::AtLeast => Some(Growth {
                lo: self.grown_lo,
                hi: None,
            }),
            Grows::Between => Some(Growth {
                lo: self.grown_lo,
                hi: Some(self.grown_hi),
            }),
        }
    }

    /// A number that is known.
    pub fn exactly(number: u64) -> Span
        ensures { result ≡ exactly number }
    {
        Span::of(saturated(number), kept(number), None)
    }

    /// A number that grew by `least` at least, and by `most` at most.
    pub fn plus_between(self, least: u64, most: u64) -> Span
        ensures { result ≡ plus_between self least most }
    {
        let grown = match self.grown() {
            None => None,
            Some(grown) => Some(grown.plus_between(least, most)),
        };
        Span::of(
            lower_plus(self.lo(), least),
            bound_plus(self.hi(), most),
            grown,
        )
    }

    /// A number that grew by so much.
    pub fn plus(self, more: u64) -> Span
        ensures { result ≡ plus self more }
    {
        self.plus_between(more, more)
    }

    /// The only number that it may be.
    pub fn only(self) -> Option<u32>
        ensures { result ≡ only self }
    {
        match self.hi() {
            Some(hi) if self.lo() == hi => Some(hi),
            _ => None,
        }
    }

    /// The number as it is now: how much it grew is said of the part that it came from, and stays there.
    pub fn copied(self) -> Span
        ensures { result ≡ copied self }
    {
        Span::of(self.lo(), self.hi(), None)
    }

    pub(crate) fn is_within(self, other: Span) -> bool
        ensures { result ≡ is_span_within self other }
    {
        let grown = match (self.grown(), other.grown()) {
            (_, None) => true,
            (None, Some(_)) => false,
            (Some(one), Some(other)) => one.is_within(other),
        };
        other.lo() <= self.lo() && is_bound_within(self.hi(), other.hi()) && grown
    }

    // Where a turn begins nothing has grown.
    pub(crate) fn at_head(self) -> Span
        ensures { result ≡ span_at_head self }
    {
        Span::of(self.lo(), self.hi(), NO_GROWTH)
    }

    // Where a turn but the first begins, the first beginning with this, each ending with `end`.
    pub(crate) fn at_heads(self, end: Span, turns: u16) -> Span
        ensures { result ≡ span_at_heads self end turns }
    {
        match end.grown() {
            None => end.at_head(),
            Some(grown) => {
                let later = u64::from(turns).saturating_sub(1);
                Span::of(
                    lower_after(self.lo(), 1, grown.lo),
                    bound_sum(self.hi(), bound_times(later, grown.hi)),
                    NO_GROWTH,
                )
            }
        }
    }

    // After the last turn.
    pub(crate) fn after_turns(self, end: Span, turns: u16) -> Span
        ensures { result ≡ span_after_turns self end turns }
    {
        let turns = u64::from(turns);
        match end.grown() {
            None => end.copied(),
            Some(by) => {
                let grown = match self.grown() {
                    None => None,
                    Some(before) => Some(Growth {
                        lo: lower_after(before.lo, 1, lower_after(0, turns, by.lo)),
                        hi: bound_sum(before.hi, bound_times(turns, by.hi)),
                    }),
                };
                Span::of(
                    lower_after(self.lo(), turns, by.lo),
                    bound_sum(self.hi(), bound_times(turns, by.hi)),
                    grown,
                )
            }
        }
    }

    pub fn join(self, other: Span) -> Span
        ensures { result ≡ joined_span self other }
    {
        Span::of(
            lesser(self.lo(), other.lo()),
            greater_bound(self.hi(), other.hi()),
            joined_growth(self.grown(), other.grown()),
        )
    }

    // With no bound where the other passes it.
    pub(crate) fn widen(self, other: Span) -> Span {
        let joined = self.join(other);
        let lo = if joined.lo() < self.lo() {
            0
        } else {
            self.lo()
        };
        let hi = if joined.hi() == self.hi() {
            self.hi()
        } else {
            None
        };
        Span::of(lo, hi, joined.grown())
    }
}

pub(crate) fn is_column_within(one: Option<Span>, other: Option<Span>) -> bool
    ensures { result ≡ is_column_within one other }
{
    match (one, other) {
        (_, None) => true,
        (None, Some(_)) => false,
        (Some(one), Some(other)) => one.is_within(other),
    }
}

pub(crate) fn joined_columns(one: Option<Span>, other: Option<Span>) -> Option<Span>
    ensures { result ≡ both_know joined_span one other }
{
    match (one, other) {
        (Some(one), Some(other)) => Some(one.join(other)),
        _ => None,
    }
}

pub(crate) fn widened_column(one: Option<Span>, other: Option<Span>) -> Option<Span> {
    Some(one?.widen(other?))
}

// The column of an output that isn't known is any number.
pub(crate) fn column_number(column: Option<Span>) -> Span
    ensures { result ≡ column_number column }
{
    match column {
        None => any_number(),
        Some(column) => column,
    }
}

pub(crate) fn column_in_loop(
    entry: Option<Span>,
    end: Option<Span>,
    place: LoopPlace,
) -> Option<Span>
    ensures { result ≡ column_by (span_in_loop place) entry end }
{
    match end {
        None => None,
        Some(end) => Some(place.number(column_number(entry), end)),
    }
}
