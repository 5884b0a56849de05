//! What is told of a trace, in the order of its items.
ghost use Rattle.std.specs.Prelude.{OnOk};
ghost use Rattle.busy_times.specs.Order.{IsInOrder};

use std::alloc::{AllocError, Allocator};
use trace_timing::Violation;

/// Puts what is told in the order of its items; what is told of one item stays in its order.
pub fn put_in_order<A: Allocator>(told: &mut Vec<Violation, A>) -> Result<(), AllocError>
    ensures { OnOk result (IsInOrder told.old.items told.new.items) }
{
    told.sort_by_key(|violation| violation.item)
}
