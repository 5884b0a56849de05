//! Writing the text of a trace.

ghost use Rattle.std.specs.Prelude.{◌≡◌, ◌+◌, ◌++◌, ◌<◌, ◌≤◌, ◌↔◌, IsTrue, IfOk};
ghost use Rattle.std.specs.String.{string_bytes};
ghost use Rattle.std.specs.Vec.{vec_len, vec_capacity};
ghost use Rattle.std.specs.List.{All, list_all};
ghost use Rattle.nand_geometry.specs.declared.optional.Profile.{Profile};
ghost use Rattle.std.specs.Str.{IsUtf8};
ghost use Rattle.onfi_cycle.specs.declared.item.Item.TheVariants.{Cyc, Rdy, Ard};
ghost use Rattle.trace_text.specs.Line.{hex_digit, kind_letter, fail_number, fail_digit, array_end, line, text, IsPrintable, is_printable_item, HasByte, IsKnown};
ghost use Rattle.trace_text.specs.Reading.{reading};

use onfi_cycle::{Cycle, Failures, Item, Kind};
use std::alloc::{AllocError, Allocator};

// How many bytes the line of an item has at most.
pub(crate) const LONGEST_LINE: usize = 8;

// The letter of a cycle.
fn kind_letter(kind: Kind) -> u8
    ensures { result ≡ kind_letter kind }
{
    match kind {
        Kind::Cmd => b'C',
        Kind::Adr => b'A',
        Kind::Din => b'I',
        Kind::Dout => b'O',
    }
}

// The digit of a number below sixteen.
fn hex_digit(number: u8) -> u8
    requires { number < 16 }
    ensures { result ≡ hex_digit number }
{
    if number < 10 {
        b'0' + number
    } else {
        b'a' - 10 + number
    }
}

// The number of the failures of a ready.
fn fail_number(last: bool, before: bool) -> u8
    ensures value { result ≡ fail_number last before }
    ensures small { result ≤ 3 }
{
    match (last, before) {
        (false, false) => 0,
        (true, false) => 1,
        (false, true) => 2,
        (true, true) => 3,
    }
}

// The digit of the failures of a ready.
fn fail_digit(fail: Failures) -> u8
    ensures { result ≡ fail_digit fail }
{
    b'0' + fail_number(fail.last, fail.before)
}

// Adds the line of a cycle to a text that has places for it; so do the two below with theirs.
fn push_cycle<A: Allocator>(text: &mut Vec<u8, A>, ce: u8, kind: Kind, byte: u8)
    requires ce { ce ≤ 3 }
    requires places { vec_len text.old + 8 ≤ vec_capacity text.old }
    ensures value { text.new.items ≡ text.old.items ++ line (Cyc (record { ce = ce; kind = kind; byte = byte })) }
    ensures len { vec_len text.new ≤ vec_len text.old + 8 }
    ensures capacity { vec_capacity text.new ≡ vec_capacity text.old }
    ensures byte { byte < 256 }
{
    text.push_reserved(b'0' + ce);
    text.push_reserved(b' ');
    text.push_reserved(kind_letter(kind));
    text.push_reserved(b' ');
    text.push_reserved(hex_digit(byte / 16));
    text.push_reserved(hex_digit(byte % 16));
    text.push_reserved(b'\n');
}

// The line of a LUN that becomes ready.
fn push_ready<A: Allocator>(text: &mut Vec<u8, A>, ce: u8, lun: u8, fail: Failures)
    requires ce { ce ≤ 3 }
    requires lun { lun ≤ 3 }
    requires places { vec_len text.old + 8 ≤ vec_capacity text.old }
    ensures value { text.new.items ≡ text.old.items ++ line (Rdy ce lun fail) }
    ensures len { vec_len text.new ≤ vec_len text.old + 8 }
    ensures capacity { vec_capacity text.new ≡ vec_capacity text.old }
{
    text.push_reserved(b'0' + ce);
    text.push_reserved(b' ');
    text.push_reserved(b'R');
    text.push_reserved(b' ');
    text.push_reserved(b'0' + lun);
    text.push_reserved(b' ');
    text.push_reserved(fail_digit(fail));
    text.push_reserved(b'\n');
}

// The end of the line of a LUN whose array becomes ready, with failure or without.
fn push_array_end<A: Allocator>(text: &mut Vec<u8, A>, fail: bool)
    requires places { vec_len text.old + 3 ≤ vec_capacity text.old }
    ensures value { text.new.items ≡ text.old.items ++ array_end fail }
    ensures len { vec_len text.new ≤ vec_len text.old + 3 }
    ensures capacity { vec_capacity text.new ≡ vec_capacity text.old }
{
    if fail {
        text.push_reserved(b' ');
        text.push_reserved(b'1');
        text.push_reserved(b'\n');
    } else {
        text.push_reserved(b'\n');
    }
}

// The line of a LUN whose array becomes ready.
fn push_array_ready<A: Allocator>(text: &mut Vec<u8, A>, ce: u8, lun: u8, fail: bool)
    requires ce { ce ≤ 3 }
    requires lun { lun ≤ 3 }
    requires places { vec_len text.old + 8 ≤ vec_capacity text.old }
    ensures value { text.new.items ≡ text.old.items ++ line (Ard ce lun fail) }
    ensures len { vec_len text.new ≤ vec_len text.old + 8 }
    ensures capacity { vec_capacity text.new ≡ vec_capacity text.old }
{
    text.push_reserved(b'0' + ce);
    text.push_reserved(b' ');
    text.push_reserved(b'Y');
    text.push_reserved(b' ');
    text.push_reserved(b'0' + lun);
    push_array_end(text, fail);
}

// Adds the line of an item to a text that has places for it.
pub(crate) fn push_line<A: Allocator>(text: &mut Vec<u8, A>, item: Item)
    requires printable { IsPrintable item }
    requires places { vec_len text.old + 8 ≤ vec_capacity text.old }
    ensures value { text.new.items ≡ text.old.items ++ line item }
    ensures len { vec_len text.new ≤ vec_len text.old + 8 }
    ensures capacity { vec_capacity text.new ≡ vec_capacity text.old }
    // The byte of an item fits its type.
    ensures byte { HasByte item }
{
    match item {
        Item::Cyc(Cycle { ce, kind, byte }) => push_cycle(text, ce, kind, byte),
        Item::Rdy { ce, lun, fail } => push_ready(text, ce, lun, fail),
        Item::Ard { ce, lun, fail } => push_array_ready(text, ce, lun, fail),
    }
}

// Whether its chip enable and its LUN are at most 3.
pub(crate) fn is_printable_item(item: Item) -> bool
    ensures { result ≡ is_printable_item item }
{
    match item {
        Item::Cyc(Cycle { ce, .. }) => ce <= 3,
        Item::Rdy { ce, lun, .. } | Item::Ard { ce, lun, .. } => ce <= 3 && lun <= 3,
    }
}

/// Whether the items can be printed: each chip enable and each LUN is at most 3.
pub fn is_printable(items: &[Item]) -> bool
    ensures { IsTrue result ↔ All IsPrintable items.now }
{
    are_printable(items)
}

// Whether each item is so.
fn are_printable(items: &[Item]) -> bool
    ensures { result ≡ list_all is_printable_item items.now }
{
    items.iter().all(|item| is_printable_item(*item))
}

/// The text of a trace: one line for each item, in order. Each chip enable and each LUN is at most 3, which
/// [`is_printable`] tests. `AllocError` is answered only where memory was refused.
pub fn print<A: Allocator>(alloc: A, items: &[Item]) -> Result<String<A>, AllocError>
    requires { All IsPrintable items.now }
    ensures value { IfOk result (λ s. string_bytes s ≡ text items.now) }
    // What was printed is read back, in a profile whose texts have lines for all of it, as that of the profile onfi have.
    ensures read_back { (p : Profile) → All (IsKnown p) items.now → IfOk result (λ s. reading p (string_bytes s) ≡ Ok items.now) }
{
    let bytes = print_bytes(alloc, items)?;
    // Each of them is an ASCII character.
    Ok(unsafe { String::from_utf8_unchecked(bytes) })
}

/// The same text as bytes. Memory is asked for once.
pub fn print_bytes<A: Allocator>(alloc: A, items: &[Item]) -> Result<Vec<u8, A>, AllocError>
    requires { All IsPrintable items.now }
    ensures value { IfOk result (λ v. v.items ≡ text items.now) }
    ensures read_back { (p : Profile) → All (IsKnown p) items.now → IfOk result (λ v. reading p v.items ≡ Ok items.now) }
    ensures utf8 { IfOk result (λ v. IsUtf8 v.items) }
{
    let places = items.len().checked_mul(LONGEST_LINE).ok_or(AllocError)?;
    let mut text = Vec::with_capacity(alloc, places)?;
    for item in items {
        push_line(&mut text, *item);
    }
    Ok(text)
}
