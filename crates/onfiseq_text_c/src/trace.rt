//! The text of a trace as items.
ghost use Rattle.std.specs.Prelude.{◌≡◌, IfOk, IfErr, if◌then◌else◌, length, map, nat_lt, slice_set};
ghost use Rattle.trace_text.specs.Forms.{IsTraceText};
ghost use Rattle.onfiseq_text_c.specs.Trace.{FailsTrace, ReadsTrace, fail_number, fault_number, form_of, profile_of, in_front, letter_of, numbers_of, told_count, told_of};

use bus_record::OnfiseqItem;
use nand_geometry::Profile;
use onfi_cycle::{Cycle, Item, Kind};
use placed_bytes::{OnfiseqPlaced, refused};
use std::alloc::Global;
use trace_text::{TraceFault, TraceForm, TraceRefusal, parse_as};

/// Why a text isn't read as a trace.
#[derive(Clone, Copy)]
pub enum TraceFailure {
    /// The fault of the text, at its line.
    Text { fault: TraceFault, line: usize },
    /// The text isn't UTF-8.
    NotText,
    OutOfMemory,
}

// The number of a code, n of Xn.
fn fault_number(fault: TraceFault) -> u32
    ensures { result ≡ fault_number fault }
{
    match fault {
        TraceFault::BadShape => 1,
        TraceFault::BadNumber => 2,
    }
}

impl TraceFailure {
    // What is told of it.
    fn told(self) -> OnfiseqPlaced
        ensures { result ≡ told_of self }
    {
        match self {
            TraceFailure::Text { fault, line } => refused(b'X', fault_number(fault), line),
            TraceFailure::NotText => refused(b'U', 0, 0),
            TraceFailure::OutOfMemory => refused(b'O', 0, 0),
        }
    }
}

// The form that a number names.
fn form_of(recorded: u8) -> TraceForm
    ensures { result ≡ form_of recorded }
{
    if recorded == 0 || recorded == 2 {
        TraceForm::Strict
    } else {
        TraceForm::Recorded
    }
}

// The profile that it names.
fn profile_of(recorded: u8) -> Profile
    ensures { result ≡ profile_of recorded }
{
    if recorded == 2 || recorded == 3 {
        Profile::Onfi
    } else {
        Profile::Base
    }
}

// The items of a text.
fn items_of(
    alloc: Global,
    text: &[u8],
    form: TraceForm,
    profile: Profile,
) -> Result<Vec<Item>, TraceFailure>
    ensures ok { IfOk result (λ v. IsTraceText form profile text.now v.items) }
    ensures err { IfErr result (FailsTrace form profile text.now) }
{
    let Ok(text) = str::from_utf8(text) else {
        return Err(TraceFailure::NotText);
    };
    match parse_as(alloc, text, form, profile) {
        Ok(items) => Ok(items),
        Err(TraceRefusal::Fault { fault, line }) => Err(TraceFailure::Text { fault, line }),
        Err(TraceRefusal::OutOfMemory) => Err(TraceFailure::OutOfMemory),
    }
}

// The letter of a kind of cycle.
fn letter_of(kind: Kind) -> u8
    ensures { result ≡ letter_of kind }
{
    match kind {
        Kind::Cmd => b'C',
        Kind::Adr => b'A',
        Kind::Din => b'I',
        Kind::Dout => b'O',
    }
}

// The number of the failures of a ready.
fn fail_number(last: bool, before: bool) -> u8
    ensures { result ≡ fail_number last before }
{
    match (last, before) {
        (false, false) => 0,
        (true, false) => 1,
        (false, true) => 2,
        (true, true) => 3,
    }
}

// An item as numbers.
fn numbers_of(item: Item) -> OnfiseqItem
    ensures { result ≡ numbers_of item }
{
    match item {
        Item::Cyc(Cycle { ce, kind, byte }) => OnfiseqItem {
            ce,
            kind: letter_of(kind),
            byte,
            fail: 0,
        },
        Item::Rdy { ce, lun, fail } => OnfiseqItem {
            ce,
            kind: b'R',
            byte: lun,
            fail: fail_number(fail.last, fail.before),
        },
        Item::Ard { ce, lun, fail } => OnfiseqItem {
            ce,
            kind: b'Y',
            byte: lun,
            fail: u8::from(fail),
        },
    }
}

// Writes an item at its place, if that is there.
fn place_item(items: &mut [OnfiseqItem], place: usize, item: Item)
    ensures { items.new ≡ slice_set items.old place (numbers_of item) }
{
    if place < items.len() {
        items[place] = numbers_of(item);
    }
}

// Writes items in front of the caller's, as many as fit.
fn place_items(items: &mut [OnfiseqItem], made: &[Item])
    ensures { items.new ≡ in_front (map numbers_of made.now) items.old }
{
    for (place, item) in made.iter().enumerate() {
        place_item(items, place, *item);
    }
}

// Writes items in front of the caller's, if there is room for all of them.
fn place_all(items: &mut [OnfiseqItem], made: &[Item]) -> OnfiseqPlaced
    ensures told { result ≡ told_count (length made.now) (length items.old) }
    ensures left { items.new ≡ (if nat_lt (length items.old) (length made.now) then items.old else in_front (map numbers_of made.now) items.old) }
{
    let length = made.len();
    if items.len() < length {
        return OnfiseqPlaced {
            letter: b'B',
            number: 0,
            at: 0,
            length,
        };
    }
    place_items(items, made);
    OnfiseqPlaced {
        letter: 0,
        number: 0,
        at: 0,
        length,
    }
}

/// Reads the text of a trace, in the strict form for 0, and else in that of recordings; for 2 and 3 it is the strict form and that of recordings of the profile onfi: its items stand in front of the caller's, and `length` counts them. Else the
/// caller's items are as they were: X is a fault of the text at the line `at`, U says that it isn't UTF-8, O that memory was refused, and B that there is no
/// room for so many items.
#[unsafe(no_mangle)]
pub extern "C" fn onfiseq_trace(
    alloc: Global,
    text: &[u8],
    recorded: u8,
    items: &mut [OnfiseqItem],
) -> OnfiseqPlaced
    ensures { ReadsTrace (form_of recorded) (profile_of recorded) text.now items.old items.new result }
{
    match items_of(alloc, text, form_of(recorded), profile_of(recorded)) {
        Ok(made) => place_all(items, made.as_slice()),
        Err(failure) => failure.told(),
    }
}
