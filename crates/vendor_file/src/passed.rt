//! A trace without the items that are passed over.
ghost use Rattle.std.specs.Prelude.{◌≡◌, ◌≤◌, ◌+◌, ◌++◌, ◌^◌, ◌<◌, length, IfOk, OnOk};
ghost use Rattle.vendor_file.specs.Passing.{parts_of};
ghost use Rattle.vendor_file.specs.Carried.{kept_by, places_from, broken_from, kept_items, kept_places, broken_lines};

use crate::part::Part;
use crate::passing::Passing;
use crate::step::Step;
use nand_geometry::Geometry;
use onfi_cycle::Item;
use std::alloc::{AllocError, Allocator};
use trace_faults::{BrokenRule, Readies};

/// A trace without the items that belong to a vendor's sequences.
#[derive(Drop)]
pub struct Passed<A: Allocator> {
    /// The items that are kept, and the place of each in the trace.
    pub items: Vec<Item, A>,
    pub places: Vec<usize, A>,
    /// The cycles that aren't next in a sequence of the file.
    pub broken: Vec<BrokenRule, A>,
    /// How many sequences began, and how many items are passed over.
    pub sequences: usize,
    pub passed_over: usize,
}

// What becomes of each item.
fn parts_of<A: Allocator>(
    alloc: A,
    steps: &[Step],
    readies: Readies,
    geometry: &Geometry,
    targets: u8,
    items: &[Item],
) -> Result<Vec<Part, A>, AllocError>
    requires { targets ≤ 4 }
    ensures { IfOk result (λ parts. parts.items ≡ parts_of steps.now readies geometry.now targets items.now) }
{
    let mut passing = Passing::before(geometry, targets, items);
    let mut parts = Vec::new(alloc);
    let mut rest = items;
    'rest: while let Some((first, later)) = rest.split_first() {
        let part = passing.go_on(steps, readies, *first, later);
        parts.push(part)?;
        rest = later;
    }
    Ok(parts)
}

// The items that are kept.
fn kept_by<A: Allocator>(
    alloc: A,
    parts: &[Part],
    items: &[Item],
) -> Result<Vec<Item, A>, AllocError>
    ensures { IfOk result (λ kept. kept.items ≡ kept_by items.now parts.now) }
{
    let mut kept = Vec::new(alloc);
    let mut left = items;
    let mut rest = parts;
    'items: while let Some((item, later)) = left.split_first() {
        let Some((part, others)) = rest.split_first() else {
            return Ok(kept);
        };
        if part.is_kept {
            kept.push(*item)?;
        }
        left = later;
        rest = others;
    }
    Ok(kept)
}

// Their places.
fn places_of<A: Allocator>(alloc: A, parts: &[Part]) -> Result<Vec<usize, A>, AllocError>
    ensures { IfOk result (λ places. places.items ≡ places_from 0 parts.now) }
{
    let mut places = Vec::new(alloc);
    let mut place = 0;
    let mut rest = parts;
    'rest: while let Some((first, later)) = rest.split_first() {
        if first.is_kept {
            places.push(place)?;
        }
        place += 1;
        rest = later;
    }
    Ok(places)
}

// The cycles that aren't next.
fn broken_of<A: Allocator>(alloc: A, parts: &[Part]) -> Result<Vec<BrokenRule, A>, AllocError>
    ensures { IfOk result (λ broken. broken.items ≡ broken_from 0 parts.now) }
{
    let mut broken = Vec::new(alloc);
    let mut item = 0;
    let mut rest = parts;
    'rest: while let Some((first, later)) = rest.split_first() {
        if let Some(rule) = first.rule {
            broken.push(BrokenRule { item, rule })?;
        }
        item += 1;
        rest = later;
    }
    Ok(broken)
}

// How many sequences begin.
fn count_begun(parts: &[Part]) -> usize {
    let mut count: usize = 0;
    for part in parts {
        if part.begins {
            count = count.saturating_add(1);
        }
    }
    count
}

/// A trace on a channel of so many targets of this geometry, 4 at most, without the items that belong to these sequences ([`read_sequences`](crate::read_sequences)).
///
/// A sequence begins where its command comes while its target is between sequences; one whose command is one of the profile's, where the address that it
/// names comes next. Its cycles change nothing. A cycle that isn't next is told: what begins a sequence ends this one, and all else is as if it hadn't come.
/// Its last ready, if it has one, is that of a LUN of its target that doesn't work by the items that are kept.
pub fn pass_over<A: Allocator + Clone>(
    alloc: A,
    steps: &[Step],
    readies: Readies,
    geometry: &Geometry,
    targets: u8,
    items: &[Item],
) -> Result<Passed<A>, AllocError>
    requires { targets ≤ 4 }
    ensures items { IfOk result (λ p. p.items.items ≡ kept_items steps.now readies geometry.now targets items.now) }
    ensures places { IfOk result (λ p. p.places.items ≡ kept_places steps.now readies geometry.now targets items.now) }
    ensures broken { IfOk result (λ p. p.broken.items ≡ broken_lines steps.now readies geometry.now targets items.now) }
{
    let parts = parts_of(alloc.clone()?, steps, readies, geometry, targets, items)?;
    let kept = kept_by(alloc.clone()?, parts.as_slice(), items)?;
    let places = places_of(alloc.clone()?, parts.as_slice())?;
    let broken = broken_of(alloc, parts.as_slice())?;
    let passed_over = items.len().saturating_sub(kept.len());
    Ok(Passed {
        items: kept,
        places,
        broken,
        sequences: count_begun(parts.as_slice()),
        passed_over,
    })
}
