//! The readies that nothing shows: of the LUNs that a cycle needs, whose host waited by R/B# or by the clock.
ghost use Rattle.std.specs.Prelude.{◌≡◌};
ghost use Rattle.onfi_cycle.specs.Look.{looked};
ghost use Rattle.trace_faults.specs.Recovery.{judged_here};
ghost use Rattle.trace_faults.specs.Unshown.{is_working, may_be_done, first_of, first_done, is_named, named_done, driving_done, to_begin, target_done, row_done, wanted_by, rule_without, unshown_of, unshown, asks_target, needs_each, further, ready_for, ready_taken};

use crate::denied::{find_driver, is_denied};
use crate::outside::is_opening;
use crate::row_ahead::given_row;
use crate::trace_state::TraceState;
use nand_geometry::Geometry;
use onfi_cycle::{Cycle, Failures, Forbidden, Item, Lun, LunState, TargetCycle, is_shared};

/// A LUN that is taken for ready before an item, since that needs it and nothing showed it, and the rule that is broken without that. Where the item needs
/// several it is the first of them.
#[derive(Clone, Copy, Debug, PartialEq, Eq)]
pub struct UnshownReady {
    pub lun: Lun,
    pub rule: Forbidden,
}

/// An item of a trace, counted from 0, before which a LUN is taken for ready that nothing showed, and which is permitted then.
#[derive(Clone, Copy, Debug, PartialEq, Eq)]
pub struct NotShown {
    pub item: usize,
    pub ready: UnshownReady,
}

// Whether a LUN is there and works.
fn is_working(lun: Option<LunState>) -> bool
    ensures { result ≡ is_working lun }
{
    match lun {
        None => false,
        Some(lun) => lun.busy,
    }
}

// Whether the LUN of this number of a target works, and the recording doesn't deny that it is done.
fn may_be_done(state: &TraceState, ce: u8, lun: u8) -> bool
    ensures { result ≡ may_be_done state.now ce lun }
{
    is_working(state.bus.lun_state(Lun { ce, lun })) && !is_denied(state, ce, lun)
}

// The first of four that is meant.
fn first_of(zeroth: bool, first: bool, second: bool, third: bool) -> Option<u8>
    ensures { result ≡ first_of zeroth first second third }
{
    match (zeroth, first, second, third) {
        (true, _, _, _) => Some(0),
        (false, true, _, _) => Some(1),
        (false, false, true, _) => Some(2),
        (false, false, false, true) => Some(3),
        (false, false, false, false) => None,
    }
}

// The first LUN of a target that may be done.
fn first_done(state: &TraceState, ce: u8) -> Option<u8>
    ensures { result ≡ first_done state.now ce }
{
    first_of(
        may_be_done(state, ce, 0),
        may_be_done(state, ce, 1),
        may_be_done(state, ce, 2),
        may_be_done(state, ce, 3),
    )
}

// Whether a row names the LUN of this number of a target, and that may be done.
fn is_named(state: &TraceState, ce: u8, row: u32, number: u8) -> bool
    ensures { result ≡ is_named state.now ce row number }
{
    state.bus.geometry().parts_of(row).lun == u32::from(number) && may_be_done(state, ce, number)
}

// The LUN of a target that a row names, where it may be done.
fn named_done(state: &TraceState, ce: u8, row: Option<u32>) -> Option<u8>
    ensures { result ≡ named_done state.now ce row }
{
    let row = row?;
    first_of(
        is_named(state, ce, row, 0),
        is_named(state, ce, row, 1),
        is_named(state, ce, row, 2),
        is_named(state, ce, row, 3),
    )
}

// The LUN that drives the bus when the target is read, where it may be done.
fn driving_done(state: &TraceState, ce: u8) -> Option<u8>
    ensures { result ≡ driving_done state.now ce }
{
    let number = find_driver(&state.bus, ce)?;
    if may_be_done(state, ce, number) {
        Some(number)
    } else {
        None
    }
}

// The LUN that an opener's row names; where no row comes, and where that LUN isn't there or can't be done, the first that may be.
fn to_begin(state: &TraceState, cycle: Cycle, later: &[Item]) -> Option<u8>
    ensures { result ≡ to_begin state.now cycle later.now }
{
    match named_done(state, cycle.ce, given_row(cycle, later)) {
        Some(number) => Some(number),
        None => first_done(state, cycle.ce),
    }
}

// The LUN that works for the whole target, where a row needs it and it may be done.
fn target_done(state: &TraceState, ce: u8, row: Option<u32>) -> Option<u8>
    ensures { result ≡ target_done state.now ce row }
{
    let _row = row?;
    if is_shared(&state.bus.geometry()) && state.bus.target_works(ce) && may_be_done(state, ce, 0) {
        Some(0)
    } else {
        None
    }
}

// The LUN that a row needs.
fn row_done(state: &TraceState, ce: u8, row: Option<u32>) -> Option<u8>
    ensures { result ≡ row_done state.now ce row }
{
    match named_done(state, ce, row) {
        Some(number) => Some(number),
        None => target_done(state, ce, row),
    }
}

// The LUN whose ready a cycle wants that breaks this rule first, or none.
fn wanted_by(
    rule: Option<Forbidden>,
    state: &TraceState,
    cycle: Cycle,
    later: &[Item],
) -> Option<u8>
    ensures { result ≡ wanted_by rule state.now cycle later.now }
{
    match rule {
        None => row_done(state, cycle.ce, given_row(cycle, later)),
        Some(Forbidden::LunBusy) => {
            if is_opening(&state.bus.geometry(), Item::Cyc(cycle)) {
                to_begin(state, cycle, later)
            } else {
                None
            }
        }
        Some(Forbidden::NoColumnToChange | Forbidden::DataNotReady) => {
            driving_done(state, cycle.ce)
        }
        Some(Forbidden::CacheReadMisplaced) => {
            if is_opening(&state.bus.geometry(), Item::Cyc(cycle)) {
                driving_done(state, cycle.ce)
            } else {
                None
            }
        }
        Some(
            Forbidden::NotThere
            | Forbidden::CommandUnknown
            | Forbidden::SequenceOpen
            | Forbidden::SeveralLuns
            | Forbidden::CommandMisplaced
            | Forbidden::AddressMisplaced
            | Forbidden::RowOutside
            | Forbidden::QueueClash
            | Forbidden::InputMisplaced
            | Forbidden::NoSoleDriver
            | Forbidden::ColumnOutside
            | Forbidden::CacheProgramMisplaced
            | Forbidden::CopybackMisplaced
            | Forbidden::PlaneNotHeld,
        ) => None,
    }
}

// The rule that is broken without that ready: of an opener that breaks none, F9 at its last address.
fn rule_without(rule: Option<Forbidden>) -> Forbidden
    ensures { result ≡ rule_without rule }
{
    match rule {
        None => Forbidden::LunBusy,
        Some(rule) => rule,
    }
}

// The LUN of a target that is taken for ready, if there is one, for this rule.
fn unshown_of(ce: u8, rule: Forbidden, number: Option<u8>) -> Option<UnshownReady>
    ensures { result ≡ unshown_of ce rule number }
{
    let lun = Lun { ce, lun: number? };
    Some(UnshownReady { lun, rule })
}

/// The LUN that is taken for ready before an item.
pub(crate) fn unshown(state: &TraceState, item: Item, later: &[Item]) -> Option<UnshownReady>
    ensures { result ≡ unshown state.now item later.now }
{
    let Item::Cyc(cycle) = item else {
        return None;
    };
    let rule = state.judge(item);
    let number = wanted_by(rule, state, cycle, later);
    unshown_of(cycle.ce, rule_without(rule), number)
}

// Whether it is an opener of what stands beside the array.
fn asks_target(cycle: TargetCycle) -> bool
    ensures { result ≡ asks_target cycle }
{
    match cycle {
        TargetCycle::CommandCycle(command) => command.reads_identity(),
        TargetCycle::AddressCycle(_) | TargetCycle::InputCycle(_) | TargetCycle::OutputCycle =>
            false,
    }
}

// Whether an item needs each LUN of its target: in the wider profile, such an opener where there are several.
fn needs_each(geometry: &Geometry, item: Item) -> bool
    ensures { result ≡ needs_each geometry.now item }
{
    match item {
        Item::Cyc(cycle) => {
            is_shared(geometry) && asks_target(TargetCycle::of(cycle.kind, cycle.byte))
        }
        Item::Rdy { .. } | Item::Ard { .. } => false,
    }
}

/// A further LUN that is taken for ready before an item that needs each, once those before it are.
pub(crate) fn further(state: &TraceState, item: Item, later: &[Item]) -> Option<UnshownReady>
    ensures { result ≡ further state.now item later.now }
{
    if needs_each(&state.bus.geometry(), item) {
        unshown(state, item, later)
    } else {
        None
    }
}

impl UnshownReady {
    /// The ready that is taken for granted: without failure.
    pub fn item(self) -> Item
        ensures { result ≡ ready_for self }
    {
        Item::Rdy {
            ce: self.lun.ce,
            lun: self.lun.lun,
            fail: Failures::default(),
        }
    }
}

/// The ready that is taken for granted, if there is one.
pub(crate) fn ready_taken(ready: Option<UnshownReady>) -> Option<Item>
    ensures { result ≡ ready_taken ready }
{
    Some(ready?.item())
}
