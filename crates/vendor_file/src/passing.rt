//! Which items belong to a vendor's sequences.
ghost use Rattle.std.specs.Prelude.{◌≡◌, ◌≤◌, ◌+◌, slice_set};
ghost use Rattle.onfi_cycle.specs.Sequence.{target_of};
ghost use Rattle.onfi_cycle.specs.State.{judged};
ghost use Rattle.trace_faults.specs.Outside.{begins_alone};
ghost use Rattle.vendor_file.specs.Passing.{step_at, place_after, place_of, is_command, is_address, is_input, is_output, wants, may_end, place_on, is_sequence_open, is_open, address_in, cycle_on, next_address, is_next, begins_with, profile_of, is_begun, first_step, begun_at, kept_in, passed, begun_by, outside, rule_of, opens, broken_by, inside, part_of_cycle, ready_place, ready_on, is_idle, passed_ready, part_of_ready, part_of, state_after, after_part, beginning};

use crate::part::Part;
use crate::reading::is_profile;
use crate::step::Step;
use nand_geometry::{Geometry, Profile};
use onfi_cycle::{BusState, Command, Cycle, Forbidden, Item, Kind, Lun, LunState, TargetCycle};
use trace_faults::{Readies, TraceState};

/// Where a trace is: its channel, after the items that are kept, and where each target is in the file.
#[derive(Drop)]
pub(crate) struct Passing {
    pub(crate) state: TraceState,
    pub(crate) places: [Option<usize>; 4],
}

// What is wanted at a place.
fn step_at(steps: &[Step], place: usize) -> Step
    ensures { result ≡ step_at steps.now place }
{
    match steps.get(place) {
        Some(step) => *step,
        None => Step::Begin(0),
    }
}

fn place_after(steps: &[Step], place: usize) -> usize
    ensures { result ≡ place_after steps.now place }
{
    if place < steps.len() {
        place + 1
    } else {
        place
    }
}

fn place_of(places: &[Option<usize>; 4], ce: u8) -> Option<usize>
    ensures { result ≡ place_of places.now ce }
{
    match places.as_slice().get(usize::from(ce)) {
        Some(place) => *place,
        None => None,
    }
}

fn is_command(kind: Kind) -> bool
    ensures { result ≡ is_command kind }
{
    matches!(kind, Kind::Cmd)
}

fn is_address(kind: Kind) -> bool
    ensures { result ≡ is_address kind }
{
    matches!(kind, Kind::Adr)
}

fn is_input(kind: Kind) -> bool
    ensures { result ≡ is_input kind }
{
    matches!(kind, Kind::Din)
}

fn is_output(kind: Kind) -> bool
    ensures { result ≡ is_output kind }
{
    matches!(kind, Kind::Dout)
}

impl Step {
    // The cycle is this step.
    fn wants(self, cycle: Cycle) -> bool
        ensures { result ≡ wants self cycle }
    {
        match self {
            Step::Begin(_) | Step::Ready => false,
            Step::Command(byte) => is_command(cycle.kind) && cycle.byte == byte,
            Step::AnyAddress => is_address(cycle.kind),
            Step::Address(byte) => is_address(cycle.kind) && cycle.byte == byte,
            Step::Input | Step::Inputs => is_input(cycle.kind),
            Step::Output | Step::Outputs => is_output(cycle.kind),
        }
    }

    // The sequence may be over here.
    fn may_end(self) -> bool
        ensures { result ≡ may_end self }
    {
        matches!(
            self,
            Step::Begin(_) | Step::Inputs | Step::Outputs | Step::Ready
        )
    }
}

// The place after a step that came.
fn place_on(steps: &[Step], place: usize) -> usize
    ensures { result ≡ place_on steps.now place }
{
    if step_at(steps, place).is_any_number() {
        place
    } else {
        place_after(steps, place)
    }
}

fn is_sequence_open(rule: Option<Forbidden>) -> bool
    ensures { result ≡ is_sequence_open rule }
{
    matches!(rule, Some(Forbidden::SequenceOpen))
}

// A sequence is open on a target.
fn is_open(bus: &BusState, ce: u8) -> bool
    ensures { result ≡ is_open bus.now ce }
{
    is_sequence_open(bus.judge(Item::Cyc(Cycle {
        ce,
        kind: Kind::Cmd,
        byte: 0,
    })))
}

fn address_in(cycle: Cycle) -> Option<u8>
    ensures { result ≡ address_in cycle }
{
    if is_address(cycle.kind) {
        Some(cycle.byte)
    } else {
        None
    }
}

// The cycle of an item, if it is one of this target.
fn cycle_on(ce: u8, item: Item) -> Option<Cycle>
    ensures { result ≡ cycle_on ce item }
{
    match item {
        Item::Cyc(cycle) => { if cycle.ce == ce { Some(cycle) } else { None } }
        Item::Rdy { .. } | Item::Ard { .. } => None,
    }
}

// The byte of the next cycle of a target, if that is an address.
fn next_address(ce: u8, later: &[Item]) -> Option<u8>
    ensures { result ≡ next_address ce later.now }
{
    for item in later {
        if let Some(cycle) = cycle_on(ce, *item) {
            return address_in(cycle);
        }
    }
    None
}

fn is_next(next: Option<u8>, byte: u8) -> bool
    ensures { result ≡ is_next next byte }
{
    match next {
        None => false,
        Some(next) => next == byte,
    }
}

fn begins_with(next: Option<u8>, steps: &[Step]) -> bool
    ensures { result ≡ begins_with next steps.now }
{
    match steps {
        [Step::Address(byte), ..] => is_next(next, *byte),
        _ => false,
    }
}

// The profile that the chip of a channel is read for.
fn profile_of(bus: &BusState) -> Profile
    ensures { result ≡ profile_of bus.now.geometry }
{
    if bus.geometry().parts().optional.is_wide() {
        Profile::Onfi
    } else {
        Profile::Base
    }
}

// The sequence at the front of these steps is begun by this command.
fn is_begun(profile: Profile, byte: u8, next: Option<u8>, steps: &[Step]) -> bool
    ensures { result ≡ is_begun profile byte next steps.now }
{
    match steps {
        [Step::Begin(first), others @ ..] => {
            *first == byte && (!is_profile(profile, byte) || begins_with(next, others))
        }
        _ => false,
    }
}

// The place of the first step of the sequence that a command begins.
fn first_step(profile: Profile, byte: u8, next: Option<u8>, steps: &[Step]) -> Option<usize>
    ensures { result ≡ first_step profile 0 byte next steps.now }
{
    let mut place = 0;
    let mut rest = steps;
    'rest: while let [_, after @ ..] = rest {
        if is_begun(profile, byte, next, rest) {
            return Some(place + 1);
        }
        place += 1;
        rest = after;
    }
    None
}

fn begun_at(profile: Profile, steps: &[Step], cycle: Cycle, later: &[Item]) -> Option<usize>
    ensures { result ≡ begun_at profile steps.now cycle later.now }
{
    if is_command(cycle.kind) {
        first_step(profile, cycle.byte, next_address(cycle.ce, later), steps)
    } else {
        None
    }
}

impl Part {
    fn kept(place: Option<usize>) -> Part
        ensures { result ≡ kept_in place }
    {
        Part {
            rule: None,
            is_kept: true,
            begins: false,
            place,
        }
    }

    fn passed(place: usize) -> Part
        ensures { result ≡ passed place }
    {
        Part {
            rule: None,
            is_kept: false,
            begins: false,
            place: Some(place),
        }
    }

    fn begun(place: Option<usize>) -> Part
        ensures { result ≡ begun_by place }
    {
        match place {
            None => Part::kept(None),
            Some(place) => Part {
                rule: None,
                is_kept: false,
                begins: true,
                place: Some(place),
            },
        }
    }
}

// A cycle of a target that is in no sequence.
fn outside(steps: &[Step], bus: &BusState, cycle: Cycle, later: &[Item]) -> Part
    ensures { result ≡ outside steps.now bus.now cycle later.now }
{
    match begun_at(profile_of(bus), steps, cycle, later) {
        None => Part::kept(None),
        Some(place) => {
            if is_open(bus, cycle.ce) {
                Part::kept(None)
            } else {
                Part::begun(Some(place))
            }
        }
    }
}

// The rule that a cycle breaks that isn't next.
fn rule_of(profile: Profile, kind: Kind, byte: u8) -> Forbidden
    ensures { result ≡ rule_of profile kind byte }
{
    match kind {
        Kind::Cmd => {
            if is_profile(profile, byte) {
                Forbidden::CommandMisplaced
            } else {
                Forbidden::CommandUnknown
            }
        }
        Kind::Adr => Forbidden::AddressMisplaced,
        Kind::Din => Forbidden::InputMisplaced,
        Kind::Dout => Forbidden::NoSoleDriver,
    }
}

// The cycle begins a sequence whatever was before: a Change Write Column may go on with the data of a program.
fn begins_alone(cycle: TargetCycle) -> bool
    ensures { result ≡ begins_alone cycle }
{
    match cycle {
        TargetCycle::CommandCycle(Command::ChangeWriteColumn) => false,
        _ => cycle.begins_sequence(),
    }
}

fn opens(cycle: Cycle, begun: Option<usize>) -> bool
    ensures { result ≡ opens cycle begun }
{
    match begun {
        None => begins_alone(TargetCycle::of(cycle.kind, cycle.byte)),
        Some(_) => true,
    }
}

// A cycle that isn't next.
fn broken_by(profile: Profile, cycle: Cycle, place: usize, begun: Option<usize>) -> Part
    ensures { result ≡ broken_by profile cycle place begun }
{
    if opens(cycle, begun) {
        Part {
            rule: Some(Forbidden::SequenceOpen),
            ..Part::begun(begun)
        }
    } else {
        Part {
            rule: Some(rule_of(profile, cycle.kind, cycle.byte)),
            is_kept: false,
            begins: false,
            place: Some(place),
        }
    }
}

// A cycle of a target that is at this place.
fn inside(steps: &[Step], bus: &BusState, place: usize, cycle: Cycle, later: &[Item]) -> Part
    ensures { result ≡ inside steps.now bus.now place cycle later.now }
{
    let step = step_at(steps, place);
    if step.wants(cycle) {
        return Part::passed(place_on(steps, place));
    }
    if step.may_end() {
        return outside(steps, bus, cycle, later);
    }
    let profile = profile_of(bus);
    broken_by(
        profile,
        cycle,
        place,
        begun_at(profile, steps, cycle, later),
    )
}

fn part_of_cycle(
    steps: &[Step],
    bus: &BusState,
    place: Option<usize>,
    cycle: Cycle,
    later: &[Item],
) -> Part
    ensures { result ≡ part_of_cycle steps.now bus.now place cycle later.now }
{
    match place {
        None => outside(steps, bus, cycle, later),
        Some(place) => inside(steps, bus, place, cycle, later),
    }
}

// The place of the ready that may come at a place.
fn ready_place(steps: &[Step], place: usize) -> Option<usize>
    ensures { result ≡ ready_place steps.now place }
{
    let step = step_at(steps, place);
    if step.is_ready() {
        return Some(place);
    }
    let next = place_after(steps, place);
    if step.is_any_number() && step_at(steps, next).is_ready() {
        Some(next)
    } else {
        None
    }
}

fn ready_on(steps: &[Step], place: Option<usize>) -> Option<usize>
    ensures { result ≡ ready_on steps.now place }
{
    match place {
        None => None,
        Some(place) => ready_place(steps, place),
    }
}

// The LUN is there, and doesn't work.
fn is_idle(lun: Option<LunState>) -> bool
    ensures { result ≡ is_idle lun }
{
    match lun {
        None => false,
        Some(lun) => !lun.busy,
    }
}

fn passed_ready(steps: &[Step], place: Option<usize>, ready: Option<usize>, idle: bool) -> Part
    ensures { result ≡ passed_ready steps.now place ready idle }
{
    match ready {
        None => Part::kept(place),
        Some(ready) => {
            if idle {
                Part::passed(place_after(steps, ready))
            } else {
                Part::kept(place)
            }
        }
    }
}

// A ready of a LUN of a target that is at this place, or in no sequence.
fn part_of_ready(steps: &[Step], bus: &BusState, place: Option<usize>, lun: Lun) -> Part
    ensures { result ≡ part_of_ready steps.now bus.now place lun.ce lun.lun }
{
    passed_ready(
        steps,
        place,
        ready_on(steps, place),
        is_idle(bus.lun_state(lun)),
    )
}

impl Passing {
    /// Before the first of these items.
    pub(crate) fn before(geometry: &Geometry, targets: u8, items: &[Item]) -> Passing
        requires { targets ≤ 4 }
        ensures { result ≡ beginning geometry.now targets items.now }
    {
        Passing {
            state: TraceState::before(geometry, targets, items),
            places: [None; 4],
        }
    }

    // What becomes of an item.
    fn part_of(&self, steps: &[Step], item: Item, later: &[Item]) -> Part
        ensures { result ≡ part_of steps.now self.now item later.now }
    {
        let bus = &self.state.bus;
        match item {
            Item::Cyc(cycle) => {
                part_of_cycle(steps, bus, place_of(&self.places, cycle.ce), cycle, later)
            }
            Item::Rdy { ce, lun, .. } => {
                part_of_ready(steps, bus, place_of(&self.places, ce), Lun { ce, lun })
            }
            Item::Ard { ce, .. } => Part::kept(place_of(&self.places, ce)),
        }
    }

    /// Goes on by an item: what becomes of it.
    pub(crate) fn go_on(
        &mut self,
        steps: &[Step],
        readies: Readies,
        item: Item,
        later: &[Item],
    ) -> Part
        ensures part { result ≡ part_of steps.now self.old item later.now }
        ensures after { self.new ≡ after_part readies self.old item later.now result }
    {
        let part = self.part_of(steps, item, later);
        go_on_if(&mut self.state, part.is_kept, readies, item, later);
        set_place(&mut self.places, item.target(), part.place);
        part
    }
}

// Goes on by an item that is kept.
fn go_on_if(state: &mut TraceState, is_kept: bool, readies: Readies, item: Item, later: &[Item])
    ensures { state.new ≡ state_after readies state.old item later.now is_kept }
{
    if is_kept {
        let _ = readies.go_on_to(state, item, later);
        let _ = state.go_on(item);
    }
}

fn set_place(places: &mut [Option<usize>; 4], ce: u8, place: Option<usize>)
    ensures { places.new ≡ slice_set places.old ce place }
{
    let at = usize::from(ce);
    if at < 4 {
        places[at] = place;
    }
}
