//! The slots of a channel's LUNs, one for each, those of target 0 first, and who has the bus: what a sequencer on modelled dies and one on a real bus have in
//! common.
ghost use Rattle.std.specs.Prelude.{◌≡◌, ◌*◌, ◌<◌, ◌≤◌, Some, None, if◌then◌else◌, length, replicate, get_or, set, is_some, not};
ghost use Rattle.onfi_cycle.specs.Channel.{Channel, is_there};
ghost use Rattle.seq_core.specs.World.{number};
ghost use Rattle.seq_core.specs.After.{is_held};
ghost use Rattle.seq_core.specs.Calls.{slot_state, all_are_empty, holder_after, fault_by};

use crate::load_fault::LoadFault;
use crate::slot::Slot;
use crate::slot_state::SlotState;
use crate::stepped::Stepped;
use arrayvec::ArrayVec;
use nand_geometry::Geometry;
use onfi_cycle::{Lun, MAX_CHANNEL_LUNS};
use std::alloc::Allocator;

/// How many LUNs so many targets have.
pub fn lun_count(targets: u8, geometry: &Geometry) -> usize
    requires { targets ≤ 4 }
    ensures value { result ≡ targets * geometry.now.luns }
    ensures most { result ≤ 16 }
{
    usize::from(targets) * usize::from(geometry.parts().luns)
}

/// So many slots without a job.
pub fn empty_slots<A: Allocator>(count: usize) -> ArrayVec<Option<Slot<A>>, MAX_CHANNEL_LUNS>
    requires { count ≤ 16 }
    ensures { result.items ≡ replicate count None }
{
    let mut slots: ArrayVec<Option<Slot<A>>, MAX_CHANNEL_LUNS> = ArrayVec::new();
    for _ in 0..count {
        slots.push(None);
    }
    slots
}

/// The number of a LUN of a channel, if it is there.
pub fn number_of(targets: u8, luns: u8, lun: Lun) -> Option<usize>
    ensures { (s : Channel) → s.targets ≡ targets → s.geometry.luns ≡ luns
        → result ≡ (if is_there s lun then Some (number s lun) else None) }
{
    if lun.ce < targets && lun.lun < luns {
        Some(lun.place(luns))
    } else {
        None
    }
}

/// What a slot holds.
pub fn state_in<A: Allocator>(slots: &[Option<Slot<A>>], place: usize) -> SlotState
    requires { place < length slots.now }
    ensures { result ≡ slot_state (get_or slots.now place None) }
{
    match &slots[place] {
        None => SlotState::Empty,
        Some(slot) => SlotState::of(slot.code()),
    }
}

/// Why a job isn't loaded onto a LUN that has a job or not, and is there or not.
pub fn load_fault(
    has_job: bool,
    there: bool,
    lun: Lun,
    job_lun: Lun,
    geometry: &Geometry,
    job_geometry: &Geometry,
) -> Option<LoadFault>
    ensures { result ≡ fault_by has_job there lun job_lun geometry.now job_geometry.now }
{
    if has_job {
        Some(LoadFault::SlotTaken)
    } else if !there || lun != job_lun {
        Some(LoadFault::OtherLun)
    } else if geometry.parts() != job_geometry.parts() {
        Some(LoadFault::OtherGeometry)
    } else {
        None
    }
}

/// A slot has no job.
pub fn is_empty<A: Allocator>(slot: &Option<Slot<A>>) -> bool
    ensures { result ≡ not (is_some slot.now) }
{
    match slot {
        None => true,
        Some(_) => false,
    }
}

/// No slot has a job.
pub fn all_are_empty<A: Allocator>(slots: &[Option<Slot<A>>]) -> bool
    ensures { result ≡ all_are_empty slots.now }
{
    slots.iter().all(|slot| is_empty(slot))
}

/// Puts another slot at a number.
pub fn put_in<A: Allocator>(slots: &mut [Option<Slot<A>>], place: usize, slot: Option<Slot<A>>)
    requires { place < length slots.old }
    ensures { slots.new ≡ set slots.old place slot }
{
    slots[place] = slot;
}

/// Takes the slot of a number.
pub fn take_in<A: Allocator>(slots: &mut [Option<Slot<A>>], place: usize) -> Option<Slot<A>>
    requires { place < length slots.old }
    ensures value { result ≡ get_or slots.old place None }
    ensures slots { slots.new ≡ set slots.old place None }
{
    slots[place].take()
}

/// Another LUN has the bus.
pub fn is_held(holder: Option<Lun>, lun: Lun) -> bool
    ensures { result ≡ is_held holder lun }
{
    holder.is_some_and(|holder| holder != lun)
}

/// The LUN that has the bus after a step of this one.
pub fn holder_after(answer: Stepped, lun: Lun) -> Option<Lun>
    ensures { result ≡ holder_after answer lun }
{
    match answer {
        Stepped::Went => Some(lun),
        _ => None,
    }
}
