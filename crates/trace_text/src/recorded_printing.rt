//! Writing a recorded text.

ghost use Rattle.std.specs.Prelude.{◌≡◌, ◌+◌, ◌≤◌, [], ◌∷◌, ◌++◌, ◌↔◌, length, map, Ok, IsTrue, IfOk};
ghost use Rattle.std.specs.Fmt.{decimal};
ghost use Rattle.std.specs.String.{string_bytes};
ghost use Rattle.std.specs.Vec.{vec_len, vec_capacity};
ghost use Rattle.std.specs.Str.{IsUtf8};
ghost use Rattle.std.specs.List.{All, list_all};
ghost use Rattle.nand_geometry.specs.declared.optional.Profile.{Profile};
ghost use Rattle.trace_text.specs.Line.{IsPrintable, is_printable_item, IsKnown};
ghost use Rattle.trace_text.specs.Recorded.{TimeFits, timed_line, timed_text, timed, told, recorded};

use crate::printing::{LONGEST_LINE, is_printable_item, push_line};
use crate::recorded_item::TimedItem;
use std::alloc::{AllocError, Allocator};

// How many bytes stand in front of an item at most: `@`, the 20 digits of a time, and a space.
const LONGEST_TIME: usize = 22;

// Adds bytes to a text that has places for them.
fn push_bytes<A: Allocator>(text: &mut Vec<u8, A>, bytes: &[u8])
    requires places { vec_len text.old + length bytes.now ≤ vec_capacity text.old }
    ensures value { text.new.items ≡ text.old.items ++ bytes.now }
    ensures len { vec_len text.new ≡ vec_len text.old + length bytes.now }
    ensures capacity { vec_capacity text.old ≤ vec_capacity text.new }
{
    let _ = text.extend_from_slice(bytes);
}

// Adds a time and the space behind it to a text that has places for them.
fn push_time<A: Allocator>(text: &mut Vec<u8, A>, time: u64)
    requires places { vec_len text.old + 22 ≤ vec_capacity text.old }
    ensures value { text.new.items ≡ text.old.items ++ 64 ∷ (decimal time ++ 32 ∷ []) }
    ensures len { vec_len text.new ≤ vec_len text.old + 22 }
    ensures capacity { vec_capacity text.old ≤ vec_capacity text.new }
{
    let mut digits = itoa::Buffer::new();
    text.push_reserved(b'@');
    push_bytes(text, digits.format(time).as_bytes());
    text.push_reserved(b' ');
}

// Adds the line of an item with its time to a text that has places for it.
fn push_timed<A: Allocator>(text: &mut Vec<u8, A>, timed: TimedItem)
    requires printable { IsPrintable timed.item }
    requires places { vec_len text.old + 30 ≤ vec_capacity text.old }
    ensures value { text.new.items ≡ text.old.items ++ timed_line timed }
    ensures len { vec_len text.new ≤ vec_len text.old + 30 }
    ensures capacity { vec_capacity text.old ≤ vec_capacity text.new }
    // The byte of an item and its time fit their types.
    ensures fits { TimeFits timed }
{
    push_time(text, timed.time);
    push_line(text, timed.item);
}

/// Whether the items can be printed with their times: each chip enable and each LUN is at most 3.
pub fn is_recording_printable(items: &[TimedItem]) -> bool
    ensures { IsTrue result ↔ All (λ t. IsPrintable t.item) items.now }
{
    are_printable(items)
}

// Whether each item is so.
fn are_printable(items: &[TimedItem]) -> bool
    ensures { result ≡ list_all (λ t. is_printable_item t.item) items.now }
{
    items.iter().all(|timed| is_printable_item(timed.item))
}

// The text as bytes.
fn timed_bytes<A: Allocator>(alloc: A, items: &[TimedItem]) -> Result<Vec<u8, A>, AllocError>
    requires { All (λ t. IsPrintable t.item) items.now }
    ensures value { IfOk result (λ v. v.items ≡ timed_text items.now) }
    ensures read_back { (p : Profile) → All (λ t. IsKnown p t.item) items.now → IfOk result (λ v. recorded p v.items ≡ Ok (map (λ t. t.item) items.now)) }
    ensures told { (p : Profile) → All (λ t. IsKnown p t.item) items.now → IfOk result (λ v. told p v.items ≡ timed 1 items.now) }
    ensures utf8 { IfOk result (λ v. IsUtf8 v.items) }
{
    let places = items
        .len()
        .checked_mul(LONGEST_TIME + LONGEST_LINE)
        .ok_or(AllocError)?;
    let mut text = Vec::with_capacity(alloc, places)?;
    for item in items {
        push_timed(&mut text, *item);
    }
    Ok(text)
}

/// The text of items with their times: one line for each item, in order, as `@1200 0 C 60`. Each chip enable and each LUN is at most 3, which
/// [`is_recording_printable`] tests. Memory is asked for once, 30 bytes an item; `AllocError` is answered only where it was refused.
pub fn print_recorded<A: Allocator>(alloc: A, items: &[TimedItem]) -> Result<String<A>, AllocError>
    requires { All (λ t. IsPrintable t.item) items.now }
    ensures value { IfOk result (λ s. string_bytes s ≡ timed_text items.now) }
    // What was printed is read back, in a profile whose texts have lines for all of it: the items, and the line and the time of each.
    ensures read_back { (p : Profile) → All (λ t. IsKnown p t.item) items.now → IfOk result (λ s. recorded p (string_bytes s) ≡ Ok (map (λ t. t.item) items.now)) }
    ensures told { (p : Profile) → All (λ t. IsKnown p t.item) items.now → IfOk result (λ s. told p (string_bytes s) ≡ timed 1 items.now) }
{
    let bytes = timed_bytes(alloc, items)?;
    // Each of them is an ASCII character.
    Ok(unsafe { String::from_utf8_unchecked(bytes) })
}
