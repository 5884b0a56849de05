//! Sequences outside of the profile.
ghost use Rattle.std.specs.Prelude.{◌≡◌};
ghost use Rattle.onfi_cycle.specs.State.{judged};
ghost use Rattle.onfi_cycle.specs.Look.{looked};
ghost use Rattle.trace_faults.specs.Outside.{opens_sequence, is_opening, begins_alone, is_unknown_command, is_misplaced_address, takes_address_of, is_other_address, leaves_profile, standing_of, standing_after, standings_after, is_status, is_output, lun_shows_status, shows_status_at, shows_status, belongs_outside, is_outside};

use crate::standing::Standing;
use crate::trace_state::TraceState;
use nand_geometry::Geometry;
use onfi_cycle::{
    BusState, Command, Cycle, Forbidden, Item, Kind, Latch, Lun, LunState, TargetCycle,
};

// The cycle begins a sequence of the chip: a Change Write Column does where a copyback is declared.
fn opens_sequence(geometry: &Geometry, cycle: TargetCycle) -> bool
    ensures { result ≡ opens_sequence geometry.now cycle }
{
    match cycle {
        TargetCycle::CommandCycle(Command::ChangeWriteColumn) => {
            geometry.parts().optional.has_copyback()
        }
        _ => cycle.begins_sequence(),
    }
}

/// The item begins a sequence of the chip.
pub(crate) fn is_opening(geometry: &Geometry, item: Item) -> bool
    ensures { result ≡ is_opening geometry.now item }
{
    match item {
        Item::Cyc(cycle) => opens_sequence(geometry, TargetCycle::of(cycle.kind, cycle.byte)),
        Item::Rdy { .. } | Item::Ard { .. } => false,
    }
}

// The cycle begins a sequence whatever was before: a Change Write Column may go on with the data of a program.
fn begins_alone(cycle: TargetCycle) -> bool
    ensures { result ≡ begins_alone cycle }
{
    match cycle {
        TargetCycle::CommandCycle(Command::ChangeWriteColumn) => false,
        _ => cycle.begins_sequence(),
    }
}

// The command isn't in the profile.
fn is_unknown_command(rule: Option<Forbidden>) -> bool
    ensures { result ≡ is_unknown_command rule }
{
    matches!(rule, Some(Forbidden::CommandUnknown))
}

fn is_misplaced_address(rule: Option<Forbidden>) -> bool
    ensures { result ≡ is_misplaced_address rule }
{
    matches!(rule, Some(Forbidden::AddressMisplaced))
}

// An address of this byte isn't misplaced on a target.
fn takes_address_of(bus: &BusState, ce: u8, byte: u8) -> bool
    ensures { result ≡ takes_address_of bus.now ce byte }
{
    let address = Item::Cyc(Cycle {
        ce,
        kind: Kind::Adr,
        byte,
    });
    !is_misplaced_address(bus.judge(address))
}

// An address that is misplaced where that of the identifier, or that of the parameter page, isn't.
fn is_other_address(rule: Option<Forbidden>, bus: &BusState, ce: u8) -> bool
    ensures { result ≡ is_other_address rule bus.now ce }
{
    is_misplaced_address(rule)
        && (takes_address_of(bus, ce, 0x20) || takes_address_of(bus, ce, 0x00))
}

/// Whether an item of this target that breaks this rule first begins a sequence outside of the profile.
pub(crate) fn leaves_profile(rule: Option<Forbidden>, bus: &BusState, ce: u8) -> bool
    ensures { result ≡ leaves_profile rule bus.now ce }
{
    is_unknown_command(rule) || is_other_address(rule, bus, ce)
}

// How a target stands to the profile.
fn standing_of(standings: &[Standing; 4], ce: u8) -> Standing
    ensures { result ≡ standing_of standings.now ce }
{
    match standings.as_slice().get(usize::from(ce)) {
        Some(standing) => *standing,
        None => Standing::Inside,
    }
}

// How it stands after a cycle that isn't passed over, and breaks this rule first.
fn standing_after(
    rule: Option<Forbidden>,
    bus: &BusState,
    cycle: Cycle,
    standing: Standing,
) -> Standing
    ensures { result ≡ standing_after rule bus.now cycle standing }
{
    if leaves_profile(rule, bus, cycle.ce) {
        Standing::Outside
    } else {
        standing.after_cycle(TargetCycle::of(cycle.kind, cycle.byte))
    }
}

/// Goes on with how targets stand, by an item that isn't passed over, and breaks this rule first on this channel.
pub(crate) fn note_standing(
    standings: &mut [Standing; 4],
    rule: Option<Forbidden>,
    bus: &BusState,
    item: Item,
)
    ensures { standings.new ≡ standings_after rule bus.now item standings.old }
{
    let Item::Cyc(cycle) = item else {
        return;
    };
    let after = standing_after(rule, bus, cycle, standing_of(standings, cycle.ce));
    let place = usize::from(cycle.ce);
    if place < 4 {
        standings[place] = after;
    }
}

/// The LUN shows its status when its target is read.
pub(crate) fn is_status(latch: Latch) -> bool
    ensures { result ≡ is_status latch }
{
    match latch {
        Latch::Status => true,
        Latch::Off | Latch::Data => false,
    }
}

/// The target gives a byte.
pub(crate) fn is_output(kind: Kind) -> bool
    ensures { result ≡ is_output kind }
{
    match kind {
        Kind::Dout => true,
        Kind::Cmd | Kind::Adr | Kind::Din => false,
    }
}

fn lun_shows_status(lun: Option<LunState>) -> bool
    ensures { result ≡ lun_shows_status lun }
{
    match lun {
        None => false,
        Some(lun) => is_status(lun.latch),
    }
}

fn shows_status_at(bus: &BusState, ce: u8, lun: u8) -> bool
    ensures { result ≡ shows_status_at bus.now ce lun }
{
    lun_shows_status(bus.lun_state(Lun { ce, lun }))
}

// Whether a LUN of a target shows its status.
fn shows_status(bus: &BusState, ce: u8) -> bool
    ensures { result ≡ shows_status bus.now ce }
{
    shows_status_at(bus, ce, 0)
        || shows_status_at(bus, ce, 1)
        || shows_status_at(bus, ce, 2)
        || shows_status_at(bus, ce, 3)
}

// Whether a cycle of a target that stands so belongs to the sequence outside.
fn belongs_outside(standing: Standing, bus: &BusState, cycle: Cycle) -> bool
    ensures { result ≡ belongs_outside standing bus.now cycle }
{
    match standing {
        Standing::Inside => false,
        Standing::Outside => {
            !begins_alone(TargetCycle::of(cycle.kind, cycle.byte))
                && !is_unknown_command(bus.judge(Item::Cyc(cycle)))
        }
        Standing::Interrupted => is_output(cycle.kind) && !shows_status(bus, cycle.ce),
    }
}

impl TraceState {
    /// Whether an item is passed over, since it belongs to a sequence outside of the profile.
    pub fn is_outside(&self, item: Item) -> bool
        ensures { result ≡ is_outside self.now item }
    {
        match item {
            Item::Cyc(cycle) => belongs_outside(
                standing_of(&self.standings, cycle.ce),
                &self.bus,
                cycle,
            ),
            Item::Rdy { .. } | Item::Ard { .. } => false,
        }
    }
}
