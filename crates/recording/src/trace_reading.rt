//! The text of a trace, read.
ghost use Rattle.std.specs.Prelude.{◌≡◌, Ok, map, true, IfOk, IfErr};
ghost use Rattle.std.specs.List.{All};
ghost use Rattle.trace_text.specs.Line.{IsPrintable};
ghost use Rattle.trace_text.specs.Forms.{IsTraceText};
ghost use Rattle.trace_text.specs.Recorded.{recorded, recorded_items};
ghost use Rattle.trace_text.specs.declared.form.TraceForm.TheVariants.{Recorded};
ghost use Rattle.recording.specs.Endings.{SaysOf};
ghost use Rattle.recording.specs.Traces.{timed_of, item_of, HasTimes, HasTimesIf, form_of, RefusesTrace, SaysText};

use crate::explaining::words_of_trace;
use crate::recording_fault::RecordingFault;
use crate::recording_stop::RecordingStop;
use nand_geometry::Profile;
use onfi_cycle::Item;
use seq_inputs::Stop;
use std::alloc::{AllocError, Global};
use trace_text::{RecordedItem, TraceForm, TraceRefusal, parse_as, parse_timed};
use trace_timing::TimedItem;

// Why the text of a trace isn't read.
fn refuse_text<'p>(
    alloc: Global,
    path: &'p str,
    text: &str,
    form: TraceForm,
    profile: Profile,
    refusal: TraceRefusal,
) -> RecordingStop<'p>
    ensures { SaysText refusal result }
{
    match refusal {
        TraceRefusal::Fault { fault, line } => {
            let words = words_of_trace(alloc, path, text, form, profile, fault, line);
            let fault = RecordingFault::Trace { fault, line };
            RecordingStop::Faulty { fault, words }
        }
        TraceRefusal::OutOfMemory => RecordingStop::Stop(Stop::OutOfMemory),
    }
}

/// The items of the text of this path, which is to have this form and to be of this profile.
pub fn read_items<'p>(
    alloc: Global,
    path: &'p str,
    text: &str,
    form: TraceForm,
    profile: Profile,
) -> Result<Vec<Item>, RecordingStop<'p>>
    ensures ok { IfOk result (λ items. IsTraceText form profile text.now items.items) }
    ensures printable { IfOk result (λ items. All IsPrintable items.items) }
    ensures err { IfErr result (SaysOf (λ _. ⊥) (RefusesTrace form profile text.now)) }
{
    match parse_as(alloc, text, form, profile) {
        Ok(items) => Ok(items),
        Err(refusal) => Err(refuse_text(alloc, path, text, form, profile, refusal)),
    }
}

// Items with their times.
fn timed_of(alloc: Global, items: &[RecordedItem]) -> Result<Vec<TimedItem>, AllocError>
    ensures { IfOk result (λ timed. timed.items ≡ map timed_of items.now) }
{
    items
        .iter()
        .map(|found| TimedItem {
            time: found.time,
            item: found.item,
        })
        .collect(alloc)
}

/// The items of a trace without their times.
pub(crate) fn items_of(alloc: Global, timed: &[TimedItem]) -> Result<Vec<Item>, AllocError>
    ensures { IfOk result (λ items. items.items ≡ map item_of timed.now) }
{
    timed.iter().map(|timed| timed.item).collect(alloc)
}

/// The items of the recorded text of this path with their times.
pub fn read_timed<'p>(
    alloc: Global,
    path: &'p str,
    text: &str,
    profile: Profile,
) -> Result<Vec<TimedItem>, RecordingStop<'p>>
    ensures ok { IfOk result (λ timed. HasTimes profile text.now timed.items) }
    ensures items { IfOk result (λ timed. recorded profile text.now ≡ Ok (map item_of timed.items)) }
    ensures err { IfErr result (SaysOf (λ _. ⊥) (RefusesTrace Recorded profile text.now)) }
{
    match parse_timed(alloc, text, profile) {
        Ok(items) => Ok(timed_of(alloc, items.as_slice())?),
        Err(refusal) => {
            let form = TraceForm::Recorded;
            Err(refuse_text(alloc, path, text, form, profile, refusal))
        }
    }
}

/// The items of a trace, and the same with their times where they are asked for.
#[derive(Drop)]
pub(crate) struct ReadTrace {
    pub(crate) items: Vec<Item>,
    pub(crate) timed: Vec<TimedItem>,
}

/// The items of the text of this path, with their times where they are asked for: then it is a recorded text.
pub(crate) fn read_trace<'p>(
    alloc: Global,
    path: &'p str,
    text: &str,
    form: TraceForm,
    profile: Profile,
    has_times: bool,
) -> Result<ReadTrace, RecordingStop<'p>>
    ensures text { IfOk result (λ read. IsTraceText (form_of has_times form) profile text.now read.items.items) }
    ensures times { IfOk result (λ read. HasTimesIf has_times profile text.now read.timed.items) }
    ensures printable { IfOk result (λ read. All IsPrintable read.items.items) }
    ensures err { IfErr result (SaysOf (λ _. ⊥) (RefusesTrace (form_of has_times form) profile text.now)) }
{
    if has_times {
        let timed = read_timed(alloc, path, text, profile)?;
        let items = items_of(alloc, timed.as_slice())?;
        Ok(ReadTrace { items, timed })
    } else {
        let items = read_items(alloc, path, text, form, profile)?;
        let timed = Vec::new(alloc);
        Ok(ReadTrace { items, timed })
    }
}
