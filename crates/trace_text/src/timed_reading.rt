//! Reading a recorded text with its lines and times.

ghost use Rattle.std.specs.Prelude.{◌≡◌, Ok, IfOk, IfErr};
ghost use Rattle.trace_text.specs.Reading.{IsRefusalOf};
ghost use Rattle.trace_text.specs.Recorded.{recorded_items};

use crate::recorded_item::RecordedItem;
use crate::recorded_lines::RecordedLines;
use crate::recorded_reading::first_fault;
use crate::refusal::TraceRefusal;
use nand_geometry::Profile;
use std::alloc::Allocator;

// Why a text isn't read where memory was refused: its first fault, if it has one.
#[cold]
#[inline(never)]
fn refuse_memory(text: &str, profile: Profile) -> TraceRefusal
    ensures { IsRefusalOf result (recorded_items profile text.now) }
{
    first_fault(text, profile).unwrap_or(TraceRefusal::OutOfMemory)
}

/// The items of a recorded text of this profile as [`parse_recorded_in`](crate::parse_recorded_in) reads them, each with its line and with the time in front of it. Of any other
/// text the lowest line with a fault is told, with its first fault; `OutOfMemory` only where memory was refused, of a text without a fault. It takes 40 bytes
/// an item.
pub fn parse_timed<A: Allocator>(
    alloc: A,
    text: &str,
    profile: Profile,
) -> Result<Vec<RecordedItem, A>, TraceRefusal>
    ensures ok { IfOk result (λ v. recorded_items profile text.now ≡ Ok v.items) }
    ensures err { IfErr result (λ e. IsRefusalOf e (recorded_items profile text.now)) }
{
    let mut items = Vec::new(alloc);
    let mut lines = RecordedLines::of(text, profile);
    'items: while let Some(found) = lines.next_item()? {
        if items.push(found).is_err() {
            return Err(refuse_memory(text, profile));
        }
    }
    Ok(items)
}
