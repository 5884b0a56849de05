//! Judging an item, with a look at its target before and after it.
ghost use Rattle.std.specs.Prelude.{◌≡◌};
ghost use Rattle.onfi_cycle.specs.Sequence.{target_of};
ghost use Rattle.trace_faults.specs.Middle.{seen_after};
ghost use Rattle.trace_ops.specs.Listing.{judged_as};

use crate::judged::Judged;
use crate::looks::Looks;
use onfi_cycle::Item;
use trace_faults::{Readies, TraceJudge};

/// Goes on by an item, and tells how it was judged.
pub(crate) fn judge_item(
    judge: &mut TraceJudge,
    readies: Readies,
    one_lun: bool,
    number: usize,
    item: Item,
    later: &[Item],
) -> Judged
    ensures judged { result ≡ judged_as readies one_lun (record { state = judge.old.state; known = judge.old.known }) number (target_of item) item later.now }
    ensures state { judge.new.state ≡ (seen_after readies (record { state = judge.old.state; known = judge.old.known }) item later.now).state }
    ensures known { judge.new.known ≡ (seen_after readies (record { state = judge.old.state; known = judge.old.known }) item later.now).known }
{
    let ce = item.target();
    let before = Looks::of(&judge.state.bus, ce);
    let said = judge.take(readies, item, later);
    Judged {
        number,
        item,
        ce,
        one_lun,
        said,
        before,
        after: Looks::of(&judge.state.bus, ce),
    }
}
