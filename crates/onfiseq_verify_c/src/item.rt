//! The run of a refusal as items of the caller.
ghost use Rattle.std.specs.Prelude.{◌≡◌, ◌++◌, ◌∷◌, [], Option, map, length, slice_set};
ghost use Rattle.onfi_cycle.specs.declared.item.Item.TheVariants.{Cyc};
ghost use Rattle.micro_verify.specs.Lazy.{Counter as RunValue};
ghost use Rattle.micro_verify.specs.Playing.{Shown};
ghost use Rattle.refused_run.specs.Course.{last_item};
ghost use Rattle.onfiseq_verify_c.specs.Run.{letter_of, fail_number, numbers_of, told, placed};

use micro_verify::Counter;
use onfi_cycle::{Cycle, Item, Kind};

/// An item of a trace, as a line of its text has it: `kind` is the letter C, A, I, O, R or Y, and `byte` the byte of a cycle or the LUN that becomes ready.
/// `fail` is 1 for a ready after work that failed, else 0. In the profile onfi a ready has 2 more where the page before failed, and the array ready of a cache
/// program that failed has 1.
#[repr(C)]
#[derive(Clone, Copy)]
pub struct OnfiseqItem {
    pub ce: u8,
    pub kind: u8,
    pub byte: u8,
    pub fail: u8,
}

// The letter of a kind of cycle.
fn letter_of(kind: Kind) -> u8
    ensures { result ≡ letter_of kind }
{
    match kind {
        Kind::Cmd => b'C',
        Kind::Adr => b'A',
        Kind::Din => b'I',
        Kind::Dout => b'O',
    }
}

// The failures of a ready as a number: FAIL is 1, and FAILC 2.
fn fail_number(last: bool, before: bool) -> u8
    ensures { result ≡ fail_number last before }
{
    match (last, before) {
        (false, false) => 0,
        (true, false) => 1,
        (false, true) => 2,
        (true, true) => 3,
    }
}

impl OnfiseqItem {
    // An item as numbers.
    fn of(item: Item) -> OnfiseqItem
        ensures { result ≡ numbers_of item }
    {
        match item {
            Item::Cyc(Cycle { ce, kind, byte }) => OnfiseqItem {
                ce,
                kind: letter_of(kind),
                byte,
                fail: 0,
            },
            Item::Rdy { ce, lun, fail } => OnfiseqItem {
                ce,
                kind: b'R',
                byte: lun,
                fail: fail_number(fail.last, fail.before),
            },
            Item::Ard { ce, lun, fail } => OnfiseqItem {
                ce,
                kind: b'Y',
                byte: lun,
                fail: u8::from(fail),
            },
        }
    }
}

// Writes an item at its place, if that is there.
fn place_item(items: &mut [OnfiseqItem], place: usize, item: Item)
    ensures { items.new ≡ slice_set items.old place (numbers_of item) }
{
    if place < items.len() {
        items[place] = OnfiseqItem::of(item);
    }
}

// Writes the items of a trace in front of the caller's, as many as fit.
fn place_items(items: &mut [OnfiseqItem], trace: &[Item])
    ensures { items.new ≡ placed (map numbers_of trace.now) items.old }
{
    for (place, item) in trace.iter().enumerate() {
        place_item(items, place, *item);
    }
}

// Writes a run and the cycle that isn't permitted after it in front of the caller's items, as many as fit, and tells how many there are.
pub(crate) fn place_run(items: &mut [OnfiseqItem], run: Option<Counter>) -> usize
    ensures items { (c : Option RunValue) → Shown run c → items.new ≡ placed (told c) items.old }
    ensures count { (c : Option RunValue) → Shown run c → result ≡ length (told c) }
{
    match run {
        None => 0,
        Some(
            Counter {
                base: _,
                items: trace,
                cycle,
            },
        ) => {
            place_items(items, trace.as_slice());
            place_item(items, trace.len(), Item::Cyc(cycle));
            trace.len() + 1
        }
    }
}

/// Writes the items of a run that was found and the one that isn't permitted after them, if it comes to one, in front of the caller's items, as many as fit,
/// and tells how many there are.
pub(crate) fn place_found(items: &mut [OnfiseqItem], trace: &[Item], last: Option<Item>) -> usize
    ensures items { items.new ≡ placed (map numbers_of (trace.now ++ last_item last)) items.old }
    ensures count { result ≡ length (trace.now ++ last_item last) }
{
    place_items(items, trace);
    match last {
        None => trace.len(),
        Some(item) => {
            place_item(items, trace.len(), item);
            trace.len() + 1
        }
    }
}
