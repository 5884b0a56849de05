//! What is found in a trace beside its faults.

ghost use Rattle.trace_timing.specs.Wanted.{AreBounded};
ghost use Rattle.recording.specs.Times.{AreUsable};

use crate::check_request::CheckRequest;
use crate::explained_fault::Explanations;
use crate::kept_trace::KeptTrace;
use crate::late_words::LateItem;
use crate::passed_amount::PassedAmount;
use crate::past_watcher::MOST_SAID;
use crate::places::Places;
use crate::rules_judging::Unknown;
use crate::tally::Tally;
use crate::time_rulers::TimeRulers;
use crate::trace_view::TraceView;
use host_notes::{HostNote, HostNoteAt, find_host_notes};
use onfi_cycle::Item;
use seq_inputs::Style;
use std::alloc::{AllocError, Global};
use trace_causes::Cause;
use trace_faults::{BrokenRule, DoubtedByte, find_status_doubts};
use trace_ops::{Operations, find_operations};
use trace_timing::{Margins, Nearest, Violation};

/// What is passed over of a trace, since it belongs to a vendor's sequences.
#[derive(Drop)]
pub struct PassedOver {
    /// The cycles that aren't next in one.
    pub(crate) broken: Vec<BrokenRule>,
    pub amount: PassedAmount,
}

/// What is found in a trace beside its faults, and what was judged of it.
#[derive(Drop)]
pub struct Remarks {
    pub(crate) explanations: Explanations,
    pub tally: Tally,
    pub unknown: Unknown,
    /// The status bytes that contradict the trace, where they are asked for.
    pub doubts: Vec<DoubtedByte>,
    /// What the host surely didn't mean, where that is asked for.
    pub notes: Vec<HostNoteAt>,
    /// What is passed over, where a vendor file is given.
    pub passed: Option<PassedOver>,
    /// The first of what comes too soon or takes too long, as it is said.
    pub late: Vec<LateItem>,
    /// How near the trace comes to each time, where that is said.
    pub margins: Option<Margins>,
}

impl Remarks {
    /// Why an item breaks a rule, where that is known and has one cause.
    pub fn cause_of(&self, fault: BrokenRule) -> Option<Cause> {
        if let Some(passed) = &self.passed {
            if passed.broken.as_slice().contains(&fault) {
                return None;
            }
        }
        self.explanations.cause_of(fault.item)
    }

    /// A sequence that is passed over breaks off, so that the trace that is judged isn't written.
    pub fn breaks_off(&self) -> bool {
        match &self.passed {
            Some(passed) => !passed.broken.is_empty(),
            None => false,
        }
    }

    /// How many items aren't judged.
    pub fn passed_over(&self) -> usize {
        let passed = self.passed.as_ref().map_or(0, |passed| passed.amount.items);
        passed.saturating_add(self.unknown.passed_over)
    }
}

// The status bytes that contradict a trace, at their places.
fn find_doubts(
    alloc: Global,
    view: &TraceView,
    places: Places<'_>,
    items: &[Item],
) -> Result<Vec<DoubtedByte>, AllocError> {
    let targets = view.targets.count();
    let doubts = find_status_doubts(alloc, &view.geometry, targets, items, view.readies)?;
    let mut carried = Vec::new(alloc);
    for doubted in doubts.iter() {
        carried.push(DoubtedByte {
            item: places.of(doubted.item),
            doubt: doubted.doubt,
        })?;
    }
    Ok(carried)
}

// The same of what a host didn't mean with an item.
fn carry_note(places: Places<'_>, noted: HostNoteAt) -> HostNoteAt {
    let HostNoteAt { item, note } = noted;
    HostNoteAt {
        item: places.of(item),
        note: match note.before() {
            Some(before) => note.with_before(places.of(before)),
            None => note,
        },
    }
}

// What the host of a trace surely didn't mean, at its places.
fn find_notes(
    alloc: Global,
    view: &TraceView,
    places: Places<'_>,
    items: &[Item],
) -> Result<Vec<HostNoteAt>, AllocError> {
    let Operations { operations, .. } = find_operations(
        alloc,
        &view.geometry,
        view.targets.count(),
        items,
        view.readies,
        view.beginning,
    )?;
    let notes = find_host_notes(alloc, &view.geometry, operations.as_slice())?;
    let mut carried = Vec::new(alloc);
    for noted in notes.iter() {
        carried.push(carry_note(places, *noted))?;
    }
    Ok(carried)
}

// The first of what comes too soon or takes too long in what is kept, as it is said.
pub(crate) fn explain_late(
    alloc: Global,
    rulers: Option<TimeRulers>,
    kept: &KeptTrace,
    late: &[Violation],
) -> Result<Vec<LateItem>, AllocError> {
    let mut explained = Vec::new(alloc);
    let Some(rulers) = rulers else {
        return Ok(explained);
    };
    let timed = kept.timed.as_slice();
    for violation in late.iter().take(MOST_SAID) {
        let late = LateItem::of(*violation, timed, rulers.least.timings);
        explained.push(late.at(kept.places()))?;
    }
    Ok(explained)
}

// The same of what comes nearest to a time.
fn carry_nearest(places: Places<'_>, nearest: Nearest) -> Nearest {
    Nearest {
        item: places.of(nearest.item),
        ..nearest
    }
}

// How near a trace comes to each time, where that is said.
fn find_margins(
    request: CheckRequest<'_>,
    rulers: Option<TimeRulers>,
    kept: &KeptTrace,
) -> Option<Margins>
    requires { AreUsable rulers }
{
    let rulers = rulers?;
    if !request.tells_all || request.style != Style::Plain {
        return None;
    }
    let mut margins = Margins::of(rulers.least, kept.timed.as_slice());
    for nearest in margins.nearest.iter_mut() {
        if let Some(found) = nearest {
            *found = carry_nearest(kept.places(), *found);
        }
    }
    Some(margins)
}

/// What is found by the rules beside the faults.
#[derive(Drop)]
pub(crate) struct RuleRemarks {
    pub(crate) explanations: Explanations,
    pub(crate) unknown: Unknown,
}

impl Remarks {
    /// What is found in what is kept of a trace, in which this comes too soon or takes too long.
    pub(crate) fn find(
        alloc: Global,
        request: CheckRequest<'_>,
        view: &TraceView,
        rulers: Option<TimeRulers>,
        kept: &KeptTrace,
        late: Vec<LateItem>,
        rules: RuleRemarks,
    ) -> Result<Remarks, AllocError>
        requires { AreUsable rulers }
    {
        let items = kept.items.as_slice();
        let RuleRemarks {
            explanations,
            unknown,
        } = rules;
        let doubts = if request.judges_bytes {
            find_doubts(alloc, view, kept.places(), items)?
        } else {
            Vec::new(alloc)
        };
        let notes = if request.has_notes {
            find_notes(alloc, view, kept.places(), items)?
        } else {
            Vec::new(alloc)
        };
        Ok(Remarks {
            explanations,
            tally: Tally::of(items),
            unknown,
            doubts,
            notes,
            passed: passed_over(alloc, request, kept)?,
            late,
            margins: find_margins(request, rulers, kept),
        })
    }
}

// What is passed over, where a vendor file is given.
fn passed_over(
    alloc: Global,
    request: CheckRequest<'_>,
    kept: &KeptTrace,
) -> Result<Option<PassedOver>, AllocError> {
    if request.trace.vendor.is_none() {
        return Ok(None);
    }
    let mut broken = Vec::new(alloc);
    broken.extend_from_slice(kept.broken.as_slice())?;
    Ok(Some(PassedOver {
        broken,
        amount: kept.amount,
    }))
}
