//! Which item a trace permits next, and the first item of a trace that isn't permitted.
ghost use Rattle.std.specs.Prelude.{◌≡◌, ◌+◌, ◌<◌, ◌∷◌, IfOk, MatchOption, length, reverse, take, true};
ghost use Rattle.onfi_cycle.specs.Permitted.{broken, is_legal, IsFirstBroken};

use crate::past::{luns_of, tail_facts};
use nand_geometry::Geometry;
use onfi_cycle::{Forbidden, Item, judge};
use std::alloc::{AllocError, Global};

/// The first rule that the item breaks after a past, the newest item first.
fn broken_after(
    alloc: Global,
    geometry: &Geometry,
    targets: u8,
    past: &[Item],
    item: Item,
) -> Result<Option<Forbidden>, AllocError>
    ensures { IfOk result (λ f. f ≡ broken geometry.now targets past.now item) }
{
    let ce = item.target();
    let t = tail_facts(past, ce);
    let luns = luns_of(alloc, geometry, past, ce)?;
    Ok(judge(geometry, targets, &t, &luns, item))
}

/// The first rule that an item breaks after these items, which stand in the order of time. None where the item
/// is permitted.
pub fn broken(
    alloc: Global,
    geometry: &Geometry,
    targets: u8,
    items: &[Item],
    item: Item,
) -> Result<Option<Forbidden>, AllocError>
    ensures { IfOk result (λ f. f ≡ broken geometry.now targets (reverse items.now) item) }
{
    let mut past = items.to_vec(alloc)?;
    past.reverse();
    broken_after(alloc, geometry, targets, &past, item)
}

/// The place of the first forbidden item, from 0 on, with the rule that it breaks. The items stand in the order of
/// time.
pub fn check(
    alloc: Global,
    geometry: &Geometry,
    targets: u8,
    items: &[Item],
) -> Result<Option<(usize, Forbidden)>, AllocError>
    ensures { IfOk result (λ r. MatchOption r (is_legal geometry.now targets (reverse items.now) ≡ true)
        (λ p. IsFirstBroken geometry.now targets items.now p.0 p.1)) }
{
    let mut past: Vec<Item> = Vec::new(alloc);
    for (i, item) in items.iter().enumerate() {
        if let Some(rule) = broken_after(alloc, geometry, targets, &past, *item)? {
            return Ok(Some((i, rule)));
        }
        past.insert(0, *item)?;
    }
    Ok(None)
}
