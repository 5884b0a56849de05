//! Where items stand from left to right.

use onfi_cycle::{Item, Kind};
use std::alloc::{AllocError, Allocator};

/// The width of an item, in tenths of a point.
pub(crate) const ITEM: u64 = 170;

// How many inputs or outputs in a row have the whole width of items.
const WHOLE: u64 = 8;

// The width of so many inputs or outputs in a row: 2 items more for each doubling above 8.
fn width(count: u64) -> u64 {
    let eighths = count / WHOLE;
    if eighths == 0 {
        return count.saturating_mul(ITEM);
    }
    let doublings = eighths.ilog2();
    let whole = WHOLE << doublings;
    let above = count.saturating_sub(whole);
    WHOLE * ITEM
        + 2 * ITEM * u64::from(doublings)
        + (above.saturating_mul(2 * ITEM) / whole.max(1)).min(2 * ITEM)
}

// The target and the kind of an input or an output.
fn data_of(item: &Item) -> Option<(u8, Kind)> {
    match item {
        Item::Cyc(cycle) => match cycle.kind {
            Kind::Din | Kind::Dout => Some((cycle.ce, cycle.kind)),
            Kind::Cmd | Kind::Adr => None,
        },
        Item::Rdy { .. } | Item::Ard { .. } => None,
    }
}

// How many items stand together from the first on: data in a row of one kind and target, or one other item.
fn run_length(items: &[Item]) -> usize {
    let Some(first) = items.first() else {
        return 1;
    };
    let data = data_of(first);
    if data.is_none() {
        return 1;
    }
    let mut count = 0usize;
    for item in items {
        if data_of(item) != data {
            break;
        }
        count = count.saturating_add(1);
    }
    count.max(1)
}

// A run of items that stand together: where it begins, and how many they are.
#[derive(Clone, Copy)]
struct Run {
    first: usize,
    length: usize,
    x: u64,
}

impl Run {
    // Where it ends.
    fn end_x(self) -> u64 {
        self.x.saturating_add(width(self.length as u64))
    }

    // Where an item of it begins.
    fn x_of(self, place: usize) -> u64 {
        let length = (self.length as u64).max(1);
        let before = place.saturating_sub(self.first) as u64;
        let all = width(self.length as u64);
        self.x
            .saturating_add((all.saturating_mul(before) / length).min(all))
    }
}

/// Where each item begins, in tenths of a point, and where the last one ends.
pub(crate) fn places<A: Allocator>(alloc: A, items: &[Item]) -> Result<Vec<u64, A>, AllocError> {
    let mut places = Vec::new(alloc);
    let mut run = Run {
        first: 0,
        length: 0,
        x: 0,
    };
    for place in 0..items.len() {
        if place >= run.first.saturating_add(run.length) {
            run = Run {
                first: place,
                length: run_length(&items[place..]),
                x: run.end_x(),
            };
        }
        places.push(run.x_of(place))?;
    }
    places.push(run.end_x())?;
    Ok(places)
}
