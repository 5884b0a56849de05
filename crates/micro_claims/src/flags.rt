//! What may be so, in one state and in another.
ghost use Rattle.std.specs.Prelude.{◌≡◌};
ghost use Rattle.micro_claims.specs.Order.{may_within};

// Where the first may be so, so may the second.
pub(crate) fn may_within(one: bool, other: bool) -> bool
    ensures { result ≡ may_within one other }
{
    !one || other
}
