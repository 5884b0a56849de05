//! The numbers of the items of a trace in one that has fewer readies.
ghost use Rattle.std.specs.Prelude.{◌≡◌, ◌++◌, IfOk, OnOk, map};
ghost use Rattle.onfi_cycle.specs.Channel.{is_cycle};
ghost use Rattle.trace_data.specs.Numbers.{cycle_places, numbers_of, number_in, origin_numbered, numbered_by, listed_place};

use crate::difference::Difference;
use crate::origin::Origin;
use onfi_cycle::Item;
use std::alloc::{AllocError, Global};

// The item is a cycle, and no ready.
fn is_cycle(item: Item) -> bool
    ensures { result ≡ is_cycle item }
{
    matches!(item, Item::Cyc(_))
}

// Adds the place of an item, if that is a cycle.
fn push_place(places: &mut Vec<usize>, place: usize, item: Item) -> Result<(), AllocError>
    ensures { OnOk result (places.new.items ≡ places.old.items ++ listed_place place item) }
{
    if is_cycle(item) {
        places.push(place)?;
    }
    Ok(())
}

// The places of the cycles of a trace.
fn cycle_places(alloc: Global, items: &[Item]) -> Result<Vec<usize>, AllocError>
    ensures { IfOk result (λ places. places.items ≡ cycle_places 0 items.now) }
{
    let mut places = Vec::new(alloc);
    let mut place = 0;
    let mut rest = items;
    'rest: while let Some((first, later)) = rest.split_first() {
        push_place(&mut places, place, *first)?;
        place += 1;
        rest = later;
    }
    Ok(places)
}

/// The numbers of the items of a trace in another that has the same cycles and other readies. A ready gets the number of the cycle after it.
pub fn number_items(alloc: Global, other: &[Item], items: &[Item]) -> Result<Vec<usize>, AllocError>
    ensures { IfOk result (λ numbers. numbers.items ≡ numbers_of (cycle_places 0 other.now) items.now) }
{
    let places = cycle_places(alloc, other)?;
    let mut left = places.as_slice();
    let mut numbers = Vec::new(alloc);
    let mut rest = items;
    'rest: while let Some((first, later)) = rest.split_first() {
        numbers.push(left.first().copied().unwrap_or(0))?;
        if is_cycle(*first) {
            left = left.get(1..).unwrap_or(&[]);
        }
        rest = later;
    }
    Ok(numbers)
}

// The number of an item by these; the same where there is none.
fn number_in(numbers: &[usize], item: usize) -> usize
    ensures { result ≡ number_in numbers.now item }
{
    numbers.get(item).copied().unwrap_or(item)
}

impl Origin {
    // The same with the numbers of its items by these.
    fn numbered_by(self, numbers: &[usize]) -> Origin
        ensures { result ≡ origin_numbered numbers.now self }
    {
        match self {
            Origin::Unknown | Origin::Beginning => self,
            Origin::Erased { item } => Origin::Erased {
                item: number_in(numbers, item),
            },
            Origin::Programmed { item } => Origin::Programmed {
                item: number_in(numbers, item),
            },
        }
    }
}

impl Difference {
    /// The same with the numbers of its items by these.
    pub fn numbered_by(self, numbers: &[usize]) -> Difference
        ensures { result ≡ numbered_by numbers.now self }
    {
        Difference {
            item: number_in(numbers, self.item),
            origin: self.origin.numbered_by(numbers),
            ..self
        }
    }
}
