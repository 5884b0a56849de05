//! Reading the text of a trace.

ghost use Rattle.std.specs.Prelude.{◌≡◌, [], ◌∷◌, ◌++◌, List, Ok, IsOk, OnOk, IfOk, IfErr, IfSome, MatchOption, MatchResult};
ghost use Rattle.std.specs.Str.{IsUtf8};
ghost use Rattle.onfi_cycle.specs.declared.item.Item.{Item};
ghost use Rattle.nand_geometry.specs.declared.optional.Profile.{Profile as ProfileValue};
ghost use Rattle.nand_geometry.specs.declared.optional.Profile.TheVariants.{Base};
ghost use Rattle.trace_text.specs.declared.refusal.TraceRefusal.TheVariants.{OutOfMemory};
ghost use Rattle.trace_text.specs.Line.{kind_letter};
ghost use Rattle.trace_text.specs.Trace.{IsTextOf};
ghost use Rattle.trace_text.specs.Reading.{line_item, reading, IsRefusalOf, BeginsWith, HasFault};

use crate::line::{hex_value, line_item};
use crate::refusal::{TraceFault, TraceRefusal};
use nand_geometry::Profile;
use onfi_cycle::{Cycle, Item, Kind};
use std::alloc::Allocator;

// How many bytes the line of a cycle has.
const CYCLE_LINE: usize = 7;

// The kind of cycle that a letter stands for.
#[inline(always)]
fn kind_of(letter: u8) -> Option<Kind>
    ensures { IfSome result (λ kind. letter ≡ kind_letter kind) }
{
    match letter {
        b'C' => Some(Kind::Cmd),
        b'A' => Some(Kind::Adr),
        b'I' => Some(Kind::Din),
        b'O' => Some(Kind::Dout),
        _ => None,
    }
}

// The item of a line that has these bytes around its two spaces, where it is that of a cycle.
#[inline(always)]
fn cycle_of(ce: u8, letter: u8, high: u8, low: u8) -> Option<Item>
    ensures { (p : ProfileValue) → IfSome result (λ item. line_item p (ce ∷ 32 ∷ letter ∷ 32 ∷ high ∷ low ∷ []) ≡ Ok item) }
{
    let kind = kind_of(letter)?;
    let byte = 16 * hex_value(high)? + hex_value(low)?;
    match ce {
        b'0'..=b'3' => Some(Item::Cyc(Cycle {
            ce: ce - b'0',
            kind,
            byte,
        })),
        _ => None,
    }
}

// The item of the first line and the text after that line, where the line is that of a cycle. Nearly all lines are, so
// these are known by their seven bytes and aren't cut into fields.
#[inline(always)]
fn first_cycle(text: &str, profile: Profile) -> Option<(Item, &str)>
    ensures some { IfSome result (λ x. BeginsWith profile text.entry.now x.0 x.1.now) }
    ensures utf8 { IfSome result (λ x. IsUtf8 x.1.now) }
{
    let _profile = profile;
    let [ce, before, letter, after, high, low, end, ..] = text.as_bytes() else {
        return None;
    };
    if *before != b' ' || *after != b' ' || *end != b'\n' {
        return None;
    }
    let item = cycle_of(*ce, *letter, *high, *low)?;
    Some((item, &text[7..]))
}

// The item of the first line, of whatever kind, and the text after that line, if the text isn't empty. The line is cut
// into its fields.
#[cold]
#[inline(never)]
fn first_of_fields(text: &str, profile: Profile) -> Result<Option<(Item, &str)>, TraceFault>
    ensures ok { IfOk result (λ o. MatchOption o (text.entry.now ≡ []) (λ x. BeginsWith profile text.entry.now x.0 x.1.now)) }
    ensures utf8 { IfOk result (λ o. IfSome o (λ x. IsUtf8 x.1.now)) }
    ensures err { IfErr result (HasFault profile text.entry.now) }
{
    match text.split_once('\n') {
        Some((line, rest)) => Ok(Some((line_item(line, profile)?, rest))),
        None if text.is_empty() => Ok(None),
        None => Err(TraceFault::BadShape),
    }
}

// How many items the text has, or its first fault. Takes no memory.
fn count_items(text: &str, profile: Profile) -> Result<usize, TraceRefusal>
    ensures ok { OnOk result (IsOk (reading profile text.now)) }
    ensures err { IfErr result (λ e. IsRefusalOf e (reading profile text.now)) }
{
    let mut rest = text;
    let mut count = 0;
    'lines: loop {
        if let Some((_, after)) = first_cycle(rest, profile) {
            rest = after;
            count += 1;
            continue 'lines;
        }
        match first_of_fields(rest, profile) {
            Ok(Some((_, after))) => {
                rest = after;
                count += 1;
            }
            Ok(None) => return Ok(count),
            Err(fault) => {
                return Err(TraceRefusal::Fault {
                    fault,
                    line: count + 1,
                });
            }
        }
    }
}

// Why a text isn't read where memory was refused: its first fault, if it has one.
#[cold]
#[inline(never)]
fn refuse_memory(text: &str, profile: Profile) -> TraceRefusal
    ensures { IsRefusalOf result (reading profile text.now) }
{
    match count_items(text, profile) {
        Ok(_) => TraceRefusal::OutOfMemory,
        Err(refusal) => refusal,
    }
}

// Keeps an item of a text.
#[inline(always)]
fn keep<A: Allocator>(
    items: &mut Vec<Item, A>,
    item: Item,
    text: &str,
    profile: Profile,
) -> Result<(), TraceRefusal>
    ensures ok { IfOk result (λ _. items.new.items ≡ items.old.items ++ item ∷ []) }
    ensures err { IfErr result (λ e. IsRefusalOf e (reading profile text.now)) }
{
    match items.push(item) {
        Ok(()) => Ok(()),
        Err(_) => Err(refuse_memory(text, profile)),
    }
}

// The items, or the first fault. The memory for a text of cycles alone is asked for at once.
fn items_of<A: Allocator>(
    alloc: A,
    text: &str,
    profile: Profile,
) -> Result<Vec<Item, A>, TraceRefusal>
    ensures ok { IfOk result (λ v. reading profile text.now ≡ Ok v.items) }
    ensures err { IfErr result (λ e. IsRefusalOf e (reading profile text.now)) }
{
    let Ok(mut items) = Vec::with_capacity(alloc, text.len() / CYCLE_LINE) else {
        return Err(refuse_memory(text, profile));
    };
    let mut rest = text;
    'lines: loop {
        if let Some((item, after)) = first_cycle(rest, profile) {
            keep(&mut items, item, text, profile)?;
            rest = after;
            continue 'lines;
        }
        match first_of_fields(rest, profile) {
            Ok(Some((item, after))) => {
                keep(&mut items, item, text, profile)?;
                rest = after;
            }
            Ok(None) => return Ok(items),
            Err(fault) => {
                return Err(TraceRefusal::Fault {
                    fault,
                    line: items.len() + 1,
                });
            }
        }
    }
}

/// The items of a text of the base profile, as [`parse_in`] reads them.
pub fn parse<A: Allocator>(alloc: A, text: &str) -> Result<Vec<Item, A>, TraceRefusal>
    ensures found { IfOk result (λ v. IsTextOf Base text.now v.items) }
    ensures only { (items : List Item) → IsTextOf Base text.now items → MatchResult result (λ v. v.items ≡ items) (λ e. e ≡ OutOfMemory) }
    ensures ok { IfOk result (λ v. reading Base text.now ≡ Ok v.items) }
    ensures err { IfErr result (λ e. IsRefusalOf e (reading Base text.now)) }
{
    match parse_in(alloc, text, Profile::Base) {
        Ok(items) => Ok(items),
        Err(refusal) => Err(refusal),
    }
}

/// The items of a text of this profile, which is one that [`print`](crate::print) writes: in the base profile a ready tells of one failure, and an array ready of
/// none. Of any other text the lowest line with a fault is told, counted from 1, and its first fault: X1 if the line isn't ended by a line feed, its second field,
/// of those that stand between its spaces, isn't one of C, A, I, O, R and Y, or the letter wants another number of
/// fields; then X2 if a number field isn't of its form, whatever characters it has. `OutOfMemory` is answered only where
/// memory was refused, of a text without a fault. It asks for four bytes an item at once, and for more where many lines are shorter than
/// that of a cycle.
pub fn parse_in<A: Allocator>(
    alloc: A,
    text: &str,
    profile: Profile,
) -> Result<Vec<Item, A>, TraceRefusal>
    // What is read are items whose text this is, each chip enable and each LUN at most 3.
    ensures found { IfOk result (λ v. IsTextOf profile text.now v.items) }
    // The text of such items is read as these items.
    ensures only { (items : List Item) → IsTextOf profile text.now items → MatchResult result (λ v. v.items ≡ items) (λ e. e ≡ OutOfMemory) }
    // Which items, and which fault of which line.
    ensures ok { IfOk result (λ v. reading profile text.now ≡ Ok v.items) }
    ensures err { IfErr result (λ e. IsRefusalOf e (reading profile text.now)) }
{
    items_of(alloc, text, profile)
}
