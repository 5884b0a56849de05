//! The items that the caller's numbers stand for.
ghost use Rattle.std.specs.Prelude.{◌≡◌, None, IfOk, IfErr};
ghost use Rattle.onfiseq_show_c.specs.Shown.{no_item, Fails};

use crate::failure::Failure;
use bus_record::OnfiseqItem;
use onfi_cycle::Item;
use std::alloc::Global;

// The items of a trace of the wider profile or the base one; the first numbers that are none, by their place.
pub(crate) fn items_of(
    alloc: Global,
    wide: bool,
    numbers: &[OnfiseqItem],
) -> Result<Vec<Item>, Failure>
    ensures ok { IfOk result (λ v. no_item wide numbers.now 0 ≡ None) }
    ensures err { IfErr result (Fails (no_item wide numbers.now 0)) }
{
    let mut items = Vec::new(alloc);
    let mut rest = numbers;
    let mut at = 0;
    'items: while let Some((first, behind)) = rest.split_first() {
        let Some(item) = first.item(wide) else {
            return Err(Failure::Item(at));
        };
        if items.push(item).is_err() {
            return Err(Failure::OutOfMemory);
        }
        rest = behind;
        at += 1;
    }
    Ok(items)
}
