//! What is judged of a trace.
ghost use Rattle.std.specs.Prelude.{◌≡◌, get_or, map, true, false, Bool, IfOk};
ghost use Rattle.std.specs.List.{All};
ghost use Rattle.trace_text.specs.Line.{IsPrintable};
ghost use Rattle.trace_data.specs.Numbers.{numbered_by};
ghost use Rattle.vendor_file.specs.Carried.{kept_items, kept_places, broken_lines, carried_faults, carried_readies, merged};
ghost use Rattle.recording.specs.Kept.{kept, kept_timed, places, broken, is_whole, timed_at, timed_at_places, carried_violation, carried_violations, faults_from, readies_from, late_from, differences_from, breaks_off, IsKept};
ghost use Rattle.recording.specs.Targets.{count_of};

use crate::passed_amount::PassedAmount;
use crate::places::Places;
use crate::trace_reading::{ReadTrace, items_of};
use crate::trace_view::TraceView;
use onfi_cycle::{Cycle, Item, Kind};
use std::alloc::{AllocError, Global};
use trace_data::Difference;
use trace_faults::{BrokenRule, NotShown};
use trace_timing::{TimedItem, Violation};
use vendor_file::{Passed, Step, carry_faults, carry_readies, merge_faults, pass_over};

/// What is judged of a trace: all of its items, or those that belong to no sequence of a vendor.
#[derive(Drop)]
pub struct KeptTrace {
    pub(crate) items: Vec<Item>,
    /// The same with their times, where they are asked for.
    pub(crate) timed: Vec<TimedItem>,
    /// The trace is kept whole.
    pub(crate) is_whole: bool,
    /// Where they stand in a trace that isn't kept whole, and its cycles that aren't next in a sequence.
    pub(crate) places: Vec<usize>,
    pub(crate) broken: Vec<BrokenRule>,
    pub(crate) amount: PassedAmount,
}

// An item with its time, at a place.
fn timed_at(timed: &[TimedItem], place: usize) -> TimedItem
    ensures { result ≡ timed_at timed.now place }
{
    match timed.get(place) {
        Some(found) => *found,
        None => TimedItem {
            time: None,
            item: Item::Cyc(Cycle {
                ce: 0,
                kind: Kind::Cmd,
                byte: 0,
            }),
        },
    }
}

// Those at these places.
fn timed_at_places(
    alloc: Global,
    places: &[usize],
    timed: &[TimedItem],
) -> Result<Vec<TimedItem>, AllocError>
    ensures { IfOk result (λ kept. kept.items ≡ timed_at_places places.now timed.now) }
{
    places
        .iter()
        .map(|place| timed_at(timed, *place))
        .collect(alloc)
}

// A trace of which all is kept.
fn keep_whole(alloc: Global, trace: ReadTrace) -> KeptTrace
    ensures items { result.items.items ≡ trace.items.items }
    ensures timed { result.timed.items ≡ trace.timed.items }
    ensures whole { result.is_whole ≡ true }
{
    let ReadTrace { items, timed } = trace;
    KeptTrace {
        items,
        timed,
        is_whole: true,
        places: Vec::new(alloc),
        broken: Vec::new(alloc),
        amount: PassedAmount {
            sequences: 0,
            items: 0,
        },
    }
}

// A trace without the items that belong to these sequences.
fn keep_others(
    alloc: Global,
    steps: &[Step],
    view: &TraceView,
    trace: &ReadTrace,
) -> Result<KeptTrace, AllocError>
    ensures items { IfOk result (λ k. k.items.items ≡ kept_items steps.now view.now.readies view.now.geometry (count_of view.now.targets) trace.now.items.items) }
    ensures timed { IfOk result (λ k. k.timed.items ≡ timed_at_places (places steps.now view.now trace.now.items.items) trace.now.timed.items) }
    ensures whole { IfOk result (λ k. k.is_whole ≡ false) }
    ensures places { IfOk result (λ k. k.places.items ≡ places steps.now view.now trace.now.items.items) }
    ensures broken { IfOk result (λ k. k.broken.items ≡ broken steps.now view.now trace.now.items.items) }
{
    let Passed {
        items,
        places,
        broken,
        sequences,
        passed_over,
    } = pass_over(
        alloc,
        steps,
        view.readies,
        &view.geometry,
        view.targets.count(),
        trace.items.as_slice(),
    )?;
    let timed = timed_at_places(alloc, places.as_slice(), trace.timed.as_slice())?;
    Ok(KeptTrace {
        items,
        timed,
        is_whole: false,
        places,
        broken,
        amount: PassedAmount {
            sequences,
            items: passed_over,
        },
    })
}

/// What is judged of a trace where these steps are passed over.
pub(crate) fn keep(
    alloc: Global,
    steps: &[Step],
    view: &TraceView,
    trace: ReadTrace,
) -> Result<KeptTrace, AllocError>
    ensures { IfOk result (λ k. IsKept steps.now view.now trace.items.items trace.timed.items k) }
{
    match steps {
        [] => Ok(keep_whole(alloc, trace)),
        [_, ..] => keep_others(alloc, steps, view, &trace),
    }
}

/// What is kept of these items where these steps are passed over.
pub fn keep_items(
    alloc: Global,
    steps: &[Step],
    view: &TraceView,
    items: Vec<Item>,
) -> Result<KeptTrace, AllocError>
    ensures { IfOk result (λ k. k.items.items ≡ kept steps.now view.now items.items) }
{
    let timed = Vec::new(alloc);
    keep(alloc, steps, view, ReadTrace { items, timed })
}

/// The same of items with their times.
pub fn keep_timed(
    alloc: Global,
    steps: &[Step],
    view: &TraceView,
    timed: Vec<TimedItem>,
) -> Result<KeptTrace, AllocError> {
    let items = items_of(alloc, timed.as_slice())?;
    keep(alloc, steps, view, ReadTrace { items, timed })
}

// What comes too soon or takes too long, at its place.
fn carry_violation(places: &[usize], violation: Violation) -> Violation
    ensures { result ≡ carried_violation places.now violation }
{
    Violation {
        item: match places.get(violation.item) {
            Some(place) => *place,
            None => 0,
        },
        ..violation
    }
}

// What comes too soon or takes too long, at these places.
fn carry_violations(
    alloc: Global,
    places: &[usize],
    late: &[Violation],
) -> Result<Vec<Violation>, AllocError>
    ensures { IfOk result (λ carried. carried.items ≡ carried_violations places.now late.now) }
{
    late.iter()
        .map(|violation| carry_violation(places, *violation))
        .collect(alloc)
}

// How outputs differ, at these places.
fn carry_differences(
    alloc: Global,
    places: &[usize],
    found: &[Difference],
) -> Result<Vec<Difference>, AllocError>
    ensures { IfOk result (λ carried. carried.items ≡ map (numbered_by places.now) found.now) }
{
    found
        .iter()
        .map(|difference| difference.numbered_by(places))
        .collect(alloc)
}

impl KeptTrace {
    /// What is judged.
    pub fn items(&self) -> &[Item]
        ensures { result.now ≡ self.now.items.items }
    {
        self.items.as_slice()
    }

    /// The same with their times, where they are asked for.
    pub fn timed(&self) -> &[TimedItem] {
        self.timed.as_slice()
    }

    /// Where each of these items stands in the trace.
    pub fn place_of(&self, item: usize) -> usize {
        self.places().of(item)
    }

    /// How much is passed over, and how many cycles of it aren't next in a sequence.
    pub fn amount(&self) -> PassedAmount {
        self.amount
    }

    pub fn broken(&self) -> usize {
        self.broken.len()
    }

    /// A sequence that is passed over breaks off: some cycle isn't next in it.
    pub(crate) fn breaks_off(&self) -> bool
        ensures { result ≡ breaks_off self.now.is_whole self.now.broken.items }
    {
        !self.is_whole && !self.broken.is_empty()
    }

    /// Where its items stand in the trace.
    pub(crate) fn places(&self) -> Places<'_> {
        if self.is_whole {
            Places::All
        } else {
            Places::At(self.places.as_slice())
        }
    }

    /// Its faults at their places, with the cycles that aren't next in a sequence.
    pub(crate) fn carry_faults(
        &self,
        alloc: Global,
        faults: Vec<BrokenRule>,
    ) -> Result<Vec<BrokenRule>, AllocError>
        ensures { IfOk result (λ told. told.items ≡ faults_from self.now.is_whole self.now.places.items self.now.broken.items faults.items) }
    {
        if self.is_whole {
            return Ok(faults);
        }
        let carried = carry_faults(alloc, self.places.as_slice(), faults.as_slice())?;
        merge_faults(alloc, carried.as_slice(), self.broken.as_slice())
    }

    /// The readies that nothing showed, at their places.
    pub(crate) fn carry_readies(
        &self,
        alloc: Global,
        told: Vec<NotShown>,
    ) -> Result<Vec<NotShown>, AllocError>
        ensures { IfOk result (λ carried. carried.items ≡ readies_from self.now.is_whole self.now.places.items told.items) }
    {
        if self.is_whole {
            return Ok(told);
        }
        carry_readies(alloc, self.places.as_slice(), told.as_slice())
    }

    /// What comes too soon or takes too long, at its places.
    pub(crate) fn carry_late(
        &self,
        alloc: Global,
        late: Vec<Violation>,
    ) -> Result<Vec<Violation>, AllocError>
        ensures { IfOk result (λ carried. carried.items ≡ late_from self.now.is_whole self.now.places.items late.items) }
    {
        if self.is_whole {
            return Ok(late);
        }
        carry_violations(alloc, self.places.as_slice(), late.as_slice())
    }

    /// How outputs differ from their dies, at their places.
    pub(crate) fn carry_differences(
        &self,
        alloc: Global,
        found: Vec<Difference>,
    ) -> Result<Vec<Difference>, AllocError>
        ensures { IfOk result (λ carried. carried.items ≡ differences_from self.now.is_whole self.now.places.items found.items) }
    {
        if self.is_whole {
            return Ok(found);
        }
        carry_differences(alloc, self.places.as_slice(), found.as_slice())
    }
}
