//! Reading a recorded text.

ghost use Rattle.std.specs.Prelude.{◌≡◌, ◌++◌, ◌∷◌, [], List, Ok, OnOk, IfOk, IfErr, IfSome, MatchResult};
ghost use Rattle.std.specs.List.{All, slice_get};
ghost use Rattle.std.specs.Option.{option_map};
ghost use Rattle.onfi_cycle.specs.declared.item.Item.{Item};
ghost use Rattle.nand_geometry.specs.declared.optional.Profile.TheVariants.{Base, Onfi};
ghost use Rattle.trace_text.specs.declared.refusal.TraceRefusal.TheVariants.{OutOfMemory};
ghost use Rattle.trace_text.specs.Line.{IsPrintable};
ghost use Rattle.trace_text.specs.Reading.{reading, IsRefusalOf};
ghost use Rattle.trace_text.specs.Recorded.{told, recorded, found_in, first_fault, IsFault};

use crate::recorded_item::RecordedItem;
use crate::recorded_lines::RecordedLines;
use crate::refusal::TraceRefusal;
use nand_geometry::Profile;
use onfi_cycle::Item;
use std::alloc::Allocator;

/// The first fault of a text, if it has one. Takes no memory.
pub(crate) fn first_fault(text: &str, profile: Profile) -> Option<TraceRefusal>
    ensures first { result ≡ first_fault (told profile text.now) }
    ensures fault { IfSome result IsFault }
{
    let mut lines = RecordedLines::of(text, profile);
    'items: loop {
        match lines.next_item() {
            Ok(Some(_)) => {}
            Ok(None) => return None,
            Err(refusal) => return Some(refusal),
        }
    }
}

// Why a text isn't read where memory was refused: its first fault, if it has one.
#[cold]
#[inline(never)]
fn refuse_memory(text: &str, profile: Profile) -> TraceRefusal
    ensures { IsRefusalOf result (recorded profile text.now) }
{
    first_fault(text, profile).unwrap_or(TraceRefusal::OutOfMemory)
}

// The items, or the first fault.
fn items_of<A: Allocator>(
    alloc: A,
    text: &str,
    profile: Profile,
) -> Result<Vec<Item, A>, TraceRefusal>
    ensures ok { IfOk result (λ v. recorded profile text.now ≡ Ok v.items) }
    ensures err { IfErr result (λ e. IsRefusalOf e (recorded profile text.now)) }
{
    let mut items = Vec::new(alloc);
    let mut lines = RecordedLines::of(text, profile);
    'items: while let Some(found) = lines.next_item()? {
        if items.push(found.item).is_err() {
            return Err(refuse_memory(text, profile));
        }
    }
    Ok(items)
}

/// The items of a recorded text of the base profile, as [`parse_recorded_in`] reads them.
pub fn parse_recorded<A: Allocator>(alloc: A, text: &str) -> Result<Vec<Item, A>, TraceRefusal>
    ensures ok { IfOk result (λ v. recorded Base text.now ≡ Ok v.items) }
    ensures err { IfErr result (λ e. IsRefusalOf e (recorded Base text.now)) }
    ensures printable { IfOk result (λ v. All IsPrintable v.items) }
    ensures strict { (items : List Item) → reading Base text.now ≡ Ok items → MatchResult result (λ v. v.items ≡ items) (λ e. e ≡ OutOfMemory) }
{
    match parse_recorded_in(alloc, text, Profile::Base) {
        Ok(items) => Ok(items),
        Err(refusal) => Err(refusal),
    }
}

/// The items of a recorded text of this profile, which may have more than one that [`print`](crate::print) writes: a line may end in a carriage return and a line
/// feed, spaces and tabs may stand around its fields in any number, a line may be empty, a comment may stand at its end, from `#` or `;` on, and a
/// time in front of its item: `@` and a decimal number below 2 to the 64. A text that [`parse_in`](crate::parse_in) reads is read as the same items.
///
/// Of any other text the lowest line with a fault is told, counted from 1 over all lines, and its first fault: X1 and X2 as `parse_in` tells them of the
/// fields that are left, and X1 where a time isn't such a number, where no item stands behind it, or where a line with an item isn't ended by a line
/// feed. `OutOfMemory` is answered only where memory was refused, of a text without a fault.
pub fn parse_recorded_in<A: Allocator>(
    alloc: A,
    text: &str,
    profile: Profile,
) -> Result<Vec<Item, A>, TraceRefusal>
    // Which items, and which fault of which line.
    ensures ok { IfOk result (λ v. recorded profile text.now ≡ Ok v.items) }
    ensures err { IfErr result (λ e. IsRefusalOf e (recorded profile text.now)) }
    // Each chip enable and each LUN is at most 3.
    ensures printable { IfOk result (λ v. All IsPrintable v.items) }
    // What `parse_in` reads is read so.
    ensures strict { (items : List Item) → reading profile text.now ≡ Ok items → MatchResult result (λ v. v.items ≡ items) (λ e. e ≡ OutOfMemory) }
{
    items_of(alloc, text, profile)
}

// The item of this number, counted from 0.
fn item_at(text: &str, number: usize, profile: Profile) -> Option<RecordedItem>
    ensures { result ≡ found_in number (told profile text.now) }
{
    let mut lines = RecordedLines::of(text, profile);
    let mut left = number;
    'items: while let Ok(Some(found)) = lines.next_item() {
        if left == 0 {
            return Some(found);
        }
        left -= 1;
    }
    None
}

/// The item of this number in a recorded text of the profile onfi, counted from 0 as [`parse_recorded`] has it: with its line and its time, for messages. None where the text
/// has fewer items in front of its end or its first fault. It reads the text from its beginning.
pub fn find_item(text: &str, number: usize) -> Option<RecordedItem>
    ensures found { result ≡ found_in number (told Onfi text.now) }
    // It is the item that stands in this place of the items that are read.
    ensures item { (items : List Item) → recorded Onfi text.now ≡ Ok items → option_map (λ f. f.item) result ≡ slice_get items number }
{
    item_at(text, number, Profile::Onfi)
}
