//! A channel on whose pins jobs run, as a record in the caller's memory.
ghost use Rattle.std.specs.Prelude.{◌≡◌, ◌==◌, ◌&&◌, ◌≤◌, ◌<◌, true, false, [], Some, None, IfSome, IfNone, if◌then◌else◌};
ghost use Rattle.onfi_cycle.specs.State.{Follows};
ghost use Rattle.onfi_cycle.specs.declared.item.Item.TheVariants.{Rdy, Ard};
ghost use Rattle.bus_record.specs.Bus.{IsSound, begin_code, bus_pushed, pushed};
ghost use Rattle.target_record.specs.Geometry.{parts_of};
ghost use Rattle.onfiseq_live_c.specs.Live.{state_of, holder_of, is_live, are_whole, KeepsHolder};
ghost use Rattle.seq_live.specs.Calls.{told_by};

use crate::job::OnfiseqJob;
use bus_record::{
    DAMAGED, OTHER_VERSION, OnfiseqBus, OnfiseqGeometry, are_sound, begin, geometry_of, has_lun,
    push,
};
use nand_geometry::Geometry;
use onfi_cycle::{Item, Lun, Status};

// What stands first in a record that a call left: `LIVE`.
const MAGIC: u32 = 0x4556_494c;

/// A channel on whose pins jobs run: its state, and the LUN that has the bus, if one has it.
#[repr(C)]
#[derive(Drop)]
pub struct OnfiseqLive {
    pub magic: u32,
    /// 0 where no LUN has the bus.
    pub has_holder: u8,
    pub ce: u8,
    pub lun: u8,
    pub bus: OnfiseqBus,
}

impl OnfiseqLive {
    /// Whether the record is one that a call left. Any numbers may stand in it.
    pub(crate) fn is_live(&self) -> bool
        ensures value { result ≡ is_live self.now }
        ensures sound { result ≡ true → IsSound self.now.bus }
    {
        self.magic == MAGIC && self.bus.count != 0 && are_sound(&self.bus)
    }

    /// The geometry of its channel, where its record is whole.
    pub(crate) fn geometry(&self) -> Option<Geometry>
        ensures some { IfSome result (λ g. g ≡ (state_of self.now).geometry) }
        ensures live { IfSome result (λ g. is_live self.now ≡ true) }
        ensures sound { IfSome result (λ g. IsSound self.now.bus) }
        ensures none { IfNone result (is_live self.now ≡ false) }
    {
        if !self.is_live() {
            return None;
        }
        geometry_of(&self.bus)
    }

    /// Whether both records are whole.
    #[inline(always)]
    pub(crate) fn has_job(&self, job: &OnfiseqJob) -> bool
        ensures value { result ≡ are_whole self.now job.now }
        ensures few { result ≡ true → job.now.loops.depth ≤ 4 }
        ensures there { result ≡ true → job.now.ce < self.now.bus.count }
        ensures sound { result ≡ true → IsSound self.now.bus }
    {
        self.is_live() && job.is_whole() && has_lun(&self.bus, job.on())
    }

    /// The LUN that has the bus, if one has it.
    pub(crate) fn holder(&self) -> Option<Lun>
        ensures { result ≡ holder_of self.now }
    {
        if self.has_holder == 0 {
            return None;
        }
        Some(Lun {
            ce: self.ce,
            lun: self.lun,
        })
    }

    /// This LUN has the bus now, or none.
    pub(crate) fn hand_over(&mut self, holder: Option<Lun>)
        ensures holder { holder_of self.new ≡ holder }
        ensures bus { self.new.bus ≡ self.old.bus }
        ensures magic { self.new.magic ≡ self.old.magic }
    {
        match holder {
            None => self.has_holder = 0,
            Some(lun) => {
                self.has_holder = 1;
                self.ce = lun.ce;
                self.lun = lun.lun;
            }
        }
    }
}

// How many bytes the record of such a channel has, and the version of the calls and records.
const LIVE_BYTES: usize = 3280;

pub(crate) const VERSION: u32 = 3;

/// Begins a channel of so many targets of this geometry, to which nothing has happened, and on which no job runs: 0, and its record is written. Else the record
/// stays as it was, and the answer is 4401h where it has another size or version than those of this library, 5400h where the targets aren't 1 to 4, and 5000h
/// and n for the fault Pn of the geometry. Whatever stood in the record before is no matter.
#[unsafe(no_mangle)]
pub extern "C" fn onfiseq_live_begin_sized(
    live: &mut OnfiseqLive,
    size: usize,
    version: u32,
    geometry: &OnfiseqGeometry,
    targets: u8,
) -> u32
    ensures answer { result ≡ (if size == 3280 && version == 3 then begin_code (parts_of geometry.now) targets else 0x4401) }
    ensures begins { result ≡ 0 → Follows (parts_of geometry.now) targets (state_of live.new) [] }
    ensures live { result ≡ 0 → is_live live.new ≡ true }
    ensures free { result ≡ 0 → holder_of live.new ≡ None }
    ensures refused { (result ≡ 0 → ⊥) → live.new ≡ live.old }
{
    if size != LIVE_BYTES || version != VERSION {
        return OTHER_VERSION;
    }
    let code = begin(&mut live.bus, geometry, targets);
    if code == 0 {
        live.magic = MAGIC;
        live.hand_over(None);
    }
    code
}

// The channel goes on by a ready.
fn go_on(live: &mut OnfiseqLive, item: Item) -> u32
    ensures answer { result ≡ (if is_live live.old then pushed (state_of live.old) (Some item) else 0x4400) }
    ensures state { state_of live.new ≡ (if is_live live.old then bus_pushed (state_of live.old) (Some item) else state_of live.old) }
    ensures holder { KeepsHolder live.old live.new }
{
    if !live.is_live() {
        return DAMAGED;
    }
    push(&mut live.bus, item)
}

/// A LUN becomes ready, as R/B# tells, with the bits FAIL (1) and FAILC (2) of a status byte, or without failure. 0, or the code of the rule that speaks against it: 4601h where the LUN isn't there or isn't
/// busy. 4400h where the record is none. What a poll shows needs no call.
#[unsafe(no_mangle)]
pub extern "C" fn onfiseq_live_ready(live: &mut OnfiseqLive, ce: u8, lun: u8, failures: u8) -> u32
    ensures answer { result ≡ (if is_live live.old then pushed (state_of live.old) (Some (Rdy ce lun (told_by failures))) else 0x4400) }
    ensures state { state_of live.new ≡ (if is_live live.old then bus_pushed (state_of live.old) (Some (Rdy ce lun (told_by failures))) else state_of live.old) }
    ensures holder { KeepsHolder live.old live.new }
{
    let fail = Status(failures).failures();
    go_on(live, Item::Rdy { ce, lun, fail })
}

/// The array of a LUN becomes ready after a cache read, or after a cache program, which failed or not. The answers are those of `onfiseq_live_ready`.
#[unsafe(no_mangle)]
pub extern "C" fn onfiseq_live_array_ready(
    live: &mut OnfiseqLive,
    ce: u8,
    lun: u8,
    failed: bool,
) -> u32
    ensures answer { result ≡ (if is_live live.old then pushed (state_of live.old) (Some (Ard ce lun failed)) else 0x4400) }
    ensures state { state_of live.new ≡ (if is_live live.old then bus_pushed (state_of live.old) (Some (Ard ce lun failed)) else state_of live.old) }
    ensures holder { KeepsHolder live.old live.new }
{
    let fail = failed;
    go_on(live, Item::Ard { ce, lun, fail })
}
