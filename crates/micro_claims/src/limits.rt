//! Bounds of numbers: the least that one may be, and the greatest.
ghost use Rattle.std.specs.Prelude.{◌≡◌, ◌+◌, ◌*◌, min};
ghost use Rattle.micro_claims.specs.Joins.{greater_bound};
ghost use Rattle.micro_claims.specs.Order.{is_bound_within, bound_sum, bound_times};
ghost use Rattle.micro_claims.specs.Spans.{kept, saturated, bound_plus, is_at_most};

/// Bounds are kept up to this number; a higher one is no bound.
pub(crate) const GREATEST_BOUND: u64 = 4_294_967_295;

// A number as an upper bound: none above the greatest.
pub(crate) fn kept(number: u64) -> Option<u32>
    ensures { result ≡ kept number }
{
    if number <= GREATEST_BOUND {
        Some(number as u32)
    } else {
        None
    }
}

// A number as a lower bound: the greatest bound, where it is above.
pub(crate) fn saturated(number: u64) -> u32
    ensures { result ≡ saturated number }
{
    if number <= GREATEST_BOUND {
        number as u32
    } else {
        u32::MAX
    }
}

// A lower bound, moved up.
pub(crate) fn lower_plus(bound: u32, more: u64) -> u32
    ensures { result ≡ saturated (bound + more) }
{
    saturated(u64::from(bound).saturating_add(more))
}

// A lower bound after so many turns that each add this much.
pub(crate) fn lower_after(lo: u32, turns: u64, more: u32) -> u32
    ensures { result ≡ saturated (lo + turns * more) }
{
    saturated(u64::from(lo).saturating_add(turns.saturating_mul(u64::from(more))))
}

pub(crate) fn lesser(one: u32, other: u32) -> u32
    ensures { result ≡ min one other }
{
    if one <= other { one } else { other }
}

/// An upper bound, moved up.
pub fn bound_plus(bound: Option<u32>, more: u64) -> Option<u32>
    ensures { result ≡ bound_plus bound more }
{
    kept(u64::from(bound?).checked_add(more)?)
}

// The sum of two upper bounds.
pub(crate) fn bound_sum(one: Option<u32>, other: Option<u32>) -> Option<u32>
    ensures { result ≡ bound_sum one other }
{
    match other {
        None => None,
        Some(other) => bound_plus(one, u64::from(other)),
    }
}

// An upper bound so many times.
pub(crate) fn bound_times(turns: u64, bound: Option<u32>) -> Option<u32>
    ensures { result ≡ bound_times turns bound }
{
    match turns.checked_mul(u64::from(bound?)) {
        Some(product) if product <= GREATEST_BOUND => Some(product as u32),
        _ => None,
    }
}

pub(crate) fn greater_bound(one: Option<u32>, other: Option<u32>) -> Option<u32>
    ensures { result ≡ greater_bound one other }
{
    match (one, other) {
        (Some(one), Some(other)) => Some(if one <= other { other } else { one }),
        _ => None,
    }
}

/// Surely at most this.
pub fn is_at_most(bound: Option<u32>, limit: u64) -> bool
    ensures { result ≡ is_at_most bound limit }
{
    match bound {
        None => false,
        Some(bound) => u64::from(bound) <= limit,
    }
}

// The second bound claims no more.
pub(crate) fn is_bound_within(one: Option<u32>, other: Option<u32>) -> bool
    ensures { result ≡ is_bound_within one other }
{
    match (one, other) {
        (_, None) => true,
        (None, Some(_)) => false,
        (Some(one), Some(other)) => one <= other,
    }
}
