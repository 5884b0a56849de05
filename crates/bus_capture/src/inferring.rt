//! The readies that a capture without a model shows.
ghost use Rattle.std.specs.Prelude.{◌≡◌, ◌≤◌, List, [], ◌∷◌, ◌++◌, true, false, not, length, drop, Ok, IfOk, OnOk, IfSome, IfNone};
ghost use Rattle.onfi_cycle.specs.Look.{looked};
ghost use Rattle.trace_faults.specs.ShownReadies.{with_readies};
ghost use Rattle.trace_faults.specs.Recovery.{fresh};
ghost use Rattle.bus_capture.specs.Inferring.{stamps, with_shown, state_after, is_busy, is_waiting, release_of, is_awaited, lun_fails, lun_release_of, rise_of, released, after_rise, rise_stamps};
ghost use Rattle.bus_capture.specs.Inside.{AreInside, IsSeenInside, AreSeenInside};
ghost use Rattle.bus_capture.specs.Telling.{told_by, told_at};
ghost use Rattle.bus_capture.specs.Tracing.{MayFollow, inferred_on};

use crate::ahead::fails_ahead;
use crate::lun_ahead::{Asking, lun_fails_ahead};
use crate::sampler::{Observation, Observed};
use nand_geometry::Geometry;
use onfi_cycle::{Failures, Item, Lun, LunState, is_shared};
use std::alloc::{AllocError, Allocator};
use trace_faults::{TraceState, go_on_by_readies};

/// An item, and the time at which it was seen.
#[derive(Clone, Copy, Debug, PartialEq, Eq)]
pub struct Stamped {
    pub time: u64,
    pub item: Item,
}

// Adds an item, if there is one.
#[inline(always)]
fn push_some<A: Allocator>(
    stamped: &mut Vec<Stamped, A>,
    time: u64,
    item: Option<Item>,
) -> Result<(), AllocError>
    ensures { OnOk result (stamped.new.items ≡ stamped.old.items ++ stamps time item) }
{
    if let Some(item) = item {
        stamped.push(Stamped { time, item })?;
    }
    Ok(())
}

// Adds an item after the readies that it shows, and goes on by them.
fn infer_item<A: Allocator>(
    state: &mut TraceState,
    stamped: &mut Vec<Stamped, A>,
    time: u64,
    item: Item,
) -> Result<(), AllocError>
    ensures items { OnOk result (stamped.new.items ≡ with_shown true state.old time item stamped.old.items) }
    ensures state { state.new ≡ state_after true state.old item }
{
    let (ready, array_ready) = go_on_by_readies(state, item);
    let _ = state.go_on(item);
    push_some(stamped, time, ready)?;
    push_some(stamped, time, array_ready)?;
    push_some(stamped, time, Some(item))
}

// Adds an item, with the readies that it shows unless lines of a model tell them.
fn take_item<A: Allocator>(
    state: &mut TraceState,
    stamped: &mut Vec<Stamped, A>,
    infers: bool,
    time: u64,
    item: Item,
) -> Result<(), AllocError>
    ensures items { OnOk result (stamped.new.items ≡ with_shown infers state.old time item stamped.old.items) }
    ensures state { state.new ≡ state_after infers state.old item }
{
    if infers {
        infer_item(state, stamped, time, item)
    } else {
        push_some(stamped, time, Some(item))
    }
}

fn is_busy(lun: Option<LunState>) -> bool
    ensures { result ≡ is_busy lun }
{
    match lun {
        None => false,
        Some(lun) => lun.busy,
    }
}

// The target has one LUN, which is busy.
fn is_waiting(state: &TraceState, luns: u8, ce: u8) -> bool
    ensures { result ≡ is_waiting state.now luns ce }
{
    luns == 1 && is_busy(state.bus.lun_state(Lun { ce, lun: 0 }))
}

// What failures are told by these bits of a status, of a LUN whose work they tell of.
fn told_by(geometry: &Geometry, lun: Option<LunState>, fail: Failures) -> Failures
    ensures { result ≡ told_by geometry.now lun fail }
{
    match lun {
        None => Failures::default(),
        Some(lun) => Failures {
            last: fail.last && !lun.programming,
            before: geometry.parts().optional.has_program_cache() && fail.before,
        },
    }
}

fn told_at(state: &TraceState, ce: u8, lun: u8, fail: Failures) -> Failures
    ensures { result ≡ told_at state.now ce lun fail }
{
    let of = state.bus.lun_state(Lun { ce, lun });
    told_by(&state.bus.geometry(), of, fail)
}

// The ready that a rise of R/B# shows, by what is seen later; None where that isn't known yet.
fn release_of(
    state: &TraceState,
    luns: u8,
    infers: bool,
    ce: u8,
    later: &[Observed],
    is_last: bool,
) -> Option<Option<Item>>
    ensures known { IfSome result (λ ready. (more : List Observed) → MayFollow is_last more → release_of infers state.now luns ce (later.now ++ more) ≡ ready) }
    ensures open { IfNone result (is_last ≡ false) }
{
    if !infers || !is_waiting(state, luns, ce) {
        return Some(None);
    }
    let shown = match fails_ahead(ce, later) {
        Some(shown) => shown,
        None => {
            if !is_last {
                return None;
            }
            Failures::default()
        }
    };
    let fail = told_at(state, ce, 0, shown);
    Some(Some(Item::Rdy { ce, lun: 0, fail }))
}

// The LUN is one of several of its target, and is busy.
fn is_awaited(state: &TraceState, lun: Lun) -> bool
    ensures { result ≡ is_awaited state.now lun.ce lun.lun }
{
    is_shared(&state.bus.geometry()) && is_busy(state.bus.lun_state(lun))
}

// What failures of its work are told, by what is seen later; None where that isn't known yet.
fn lun_fails(state: &TraceState, lun: Lun, later: &[Observed], is_last: bool) -> Option<Failures>
    ensures known { IfSome result (λ fail. (more : List Observed) → MayFollow is_last more → lun_fails state.now lun.ce lun.lun (later.now ++ more) ≡ fail) }
    ensures open { IfNone result (is_last ≡ false) }
{
    let asking = Asking::first(state.bus.is_selected(lun));
    match lun_fails_ahead(&state.bus.geometry(), lun, asking, later) {
        Some(fail) => Some(fail),
        None => {
            if is_last {
                Some(Failures::default())
            } else {
                None
            }
        }
    }
}

// The ready of it that a rise of R/B# shows, by what is seen later; None where that isn't known yet.
fn lun_release_of(
    state: &TraceState,
    infers: bool,
    lun: Lun,
    later: &[Observed],
    is_last: bool,
) -> Option<Option<Item>>
    ensures known { IfSome result (λ ready. (more : List Observed) → MayFollow is_last more → lun_release_of infers state.now lun.ce lun.lun (later.now ++ more) ≡ ready) }
    ensures open { IfNone result (is_last ≡ false) }
{
    if !infers || !is_awaited(state, lun) {
        return Some(None);
    }
    match lun_fails(state, lun, later, is_last) {
        Some(shown) => Some(Some(Item::Rdy {
            ce: lun.ce,
            lun: lun.lun,
            fail: told_at(state, lun.ce, lun.lun, shown),
        })),
        None => None,
    }
}

/// What a rise of R/B# shows: the ready of the one LUN of its target, or of each of several that was busy.
#[derive(Clone, Copy)]
pub(crate) struct Rise {
    alone: Option<Item>,
    zeroth: Option<Item>,
    first: Option<Item>,
    second: Option<Item>,
    third: Option<Item>,
}

// The readies that a rise of R/B# shows, by what is seen later; None where they aren't known yet.
fn rise_of(
    state: &TraceState,
    luns: u8,
    infers: bool,
    ce: u8,
    later: &[Observed],
    is_last: bool,
) -> Option<Rise>
    ensures known { IfSome result (λ rise. (more : List Observed) → MayFollow is_last more → rise_of infers state.now luns ce (later.now ++ more) ≡ rise) }
    ensures open { IfNone result (is_last ≡ false) }
{
    Some(Rise {
        alone: release_of(state, luns, infers, ce, later, is_last)?,
        zeroth: lun_release_of(state, infers, Lun { ce, lun: 0 }, later, is_last)?,
        first: lun_release_of(state, infers, Lun { ce, lun: 1 }, later, is_last)?,
        second: lun_release_of(state, infers, Lun { ce, lun: 2 }, later, is_last)?,
        third: lun_release_of(state, infers, Lun { ce, lun: 3 }, later, is_last)?,
    })
}

// Goes on by a ready, if there is one.
fn release(state: &mut TraceState, ready: Option<Item>)
    ensures { state.new ≡ released ready state.old }
{
    if let Some(item) = ready {
        let _ = state.go_on(item);
    }
}

// Goes on by the readies that a rise of R/B# shows.
fn go_on_by_rise(state: &mut TraceState, rise: Rise)
    ensures { state.new ≡ after_rise rise state.old }
{
    release(state, rise.alone);
    release(state, rise.zeroth);
    release(state, rise.first);
    release(state, rise.second);
    release(state, rise.third);
}

// Adds the readies that a rise of R/B# shows.
fn push_rise<A: Allocator>(
    stamped: &mut Vec<Stamped, A>,
    time: u64,
    rise: Rise,
) -> Result<(), AllocError>
    ensures { OnOk result (stamped.new.items ≡ stamped.old.items ++ rise_stamps time rise) }
{
    push_some(stamped, time, rise.alone)?;
    push_some(stamped, time, rise.zeroth)?;
    push_some(stamped, time, rise.first)?;
    push_some(stamped, time, rise.second)?;
    push_some(stamped, time, rise.third)
}

/// How far items are made of what is seen on targets of so many LUNs: whether readies are inferred, and the state that a check of all faults goes on with.
#[derive(Drop)]
pub(crate) struct Inferring {
    pub(crate) luns: u8,
    pub(crate) infers: bool,
    pub(crate) state: TraceState,
}

impl Inferring {
    /// Nothing is seen yet. Lines of a model may tell the readies, or what is seen shows them.
    pub(crate) fn begun(geometry: &Geometry, targets: u8, tells_readies: bool) -> Inferring
        requires few { targets ≤ 4 }
        ensures luns { result.luns ≡ geometry.now.luns }
        ensures infers { result.infers ≡ not tells_readies }
        ensures state { result.state ≡ fresh geometry.now targets }
    {
        Inferring {
            luns: geometry.parts().luns,
            infers: !tells_readies,
            state: TraceState::new(geometry, targets),
        }
    }

    // Adds the items of a rise of R/B#; false where they aren't known yet.
    fn infer_release<A: Allocator>(
        &mut self,
        stamped: &mut Vec<Stamped, A>,
        time: u64,
        ce: u8,
        later: &[Observed],
        is_last: bool,
    ) -> Result<bool, AllocError>
        ensures same { self.new.luns ≡ self.old.luns × self.new.infers ≡ self.old.infers }
        ensures taken { result ≡ Ok true → (more : List Observed) → MayFollow is_last more
            → (self.new.state ≡ after_rise (rise_of self.old.infers self.old.state self.old.luns ce (later.now ++ more)) self.old.state)
            × (stamped.new.items ≡ stamped.old.items ++ rise_stamps time (rise_of self.old.infers self.old.state self.old.luns ce (later.now ++ more))) }
        ensures inside { result ≡ Ok true → ce ≤ 3 → AreInside stamped.old.items → AreInside stamped.new.items }
        ensures open { result ≡ Ok false → (is_last ≡ false) × (self.new ≡ self.old) × (stamped.new.items ≡ stamped.old.items) }
    {
        match rise_of(&self.state, self.luns, self.infers, ce, later, is_last) {
            None => Ok(false),
            Some(rise) => {
                go_on_by_rise(&mut self.state, rise);
                push_rise(stamped, time, rise)?;
                Ok(true)
            }
        }
    }

    // Adds the items of the first of what is seen; false where they aren't known yet.
    #[tactic(auto, using(crate::proofs::Captured::shown_inside))]
    fn infer_first<A: Allocator>(
        &mut self,
        stamped: &mut Vec<Stamped, A>,
        first: Observed,
        later: &[Observed],
        is_last: bool,
    ) -> Result<bool, AllocError>
        ensures taken { result ≡ Ok true → (more : List Observed) → MayFollow is_last more
            → inferred_on self.old stamped.old.items (first ∷ (later.now ++ more)) ≡ inferred_on self.new stamped.new.items (later.now ++ more) }
        ensures inside { result ≡ Ok true → IsSeenInside first.observation → AreInside stamped.old.items → AreInside stamped.new.items }
        ensures open { result ≡ Ok false → (is_last ≡ false) × (self.new ≡ self.old) × (stamped.new.items ≡ stamped.old.items) }
    {
        match first.observation {
            Observation::Item(item) => {
                take_item(&mut self.state, stamped, self.infers, first.time, item)?;
                Ok(true)
            }
            Observation::Released(ce) => {
                self.infer_release(stamped, first.time, ce, later, is_last)
            }
        }
    }

    /// Adds the items of what is seen, as far as they don't hang on what is seen later: of how much. Where it is the last, of all.
    pub(crate) fn infer<A: Allocator>(
        &mut self,
        stamped: &mut Vec<Stamped, A>,
        observed: &[Observed],
        is_last: bool,
    ) -> Result<usize, AllocError>
        ensures within { IfOk result (λ count. count ≤ length observed.now) }
        ensures taken { IfOk result (λ count. (more : List Observed) → MayFollow is_last more
            → inferred_on self.old stamped.old.items (observed.now ++ more) ≡ inferred_on self.new stamped.new.items (drop count observed.now ++ more)) }
        ensures inside { OnOk result (AreSeenInside observed.now → AreInside stamped.old.items → AreInside stamped.new.items) }
        ensures all { IfOk result (λ count. is_last ≡ true → count ≡ length observed.now) }
    {
        let mut count = 0;
        let mut rest = observed;
        'rest: while let Some((first, later)) = rest.split_first() {
            if !self.infer_first(stamped, *first, later, is_last)? {
                return Ok(count);
            }
            count += 1;
            rest = later;
        }
        Ok(count)
    }
}
