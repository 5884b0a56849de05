//! The sequencer: LUNs with a program each, and the bus, which goes from LUN to LUN.
ghost use Rattle.std.specs.Prelude.{◌≡◌, ◌↔◌, ℕ, ◌*◌, ◌<◌, ◌≤◌, ◌∷◌, List, [], Some, None, if◌then◌else◌, IfOk, OnErr, IfErr, IfSome, IfNone, length, replicate, reverse, get_or, set, is_some, not, true, false};
ghost use Rattle.onfi_cycle.specs.declared.item.Item.TheVariants.{Rdy, Ard};
ghost use Rattle.onfi_cycle.specs.Permitted.{is_legal};
ghost use Rattle.onfi_cycle.specs.Channel.{Channel, is_there};
ghost use Rattle.micro_program.specs.Program.{Job as JobValue};
ghost use Rattle.target_bus.specs.Bus.{Traced, channel_of};
ghost use Rattle.seq_core.specs.World.{World, fresh, number};
ghost use Rattle.seq_core.specs.Event.{Load, Step, Ready, ArrayReady, Unload, IsVerified};
ghost use Rattle.seq_core.specs.Reply.{ToLoad, ToStep, ToReady, ToArrayReady, ToUnload, Loaded, NotLoaded, Unloaded, NotUnloaded};
ghost use Rattle.seq_core.specs.After.{is_held};
ghost use Rattle.seq_core.specs.Lawful.{LawfulWorld};
ghost use Rattle.seq_core.specs.Progress.{Progress};
ghost use Rattle.seq_core.specs.Shows.{CoreView, IsAt, channel_in};
ghost use Rattle.seq_core.specs.declared.slot_state.SlotState.{SlotState};
ghost use Rattle.seq_core.specs.Calls.{IsCore, IsEvent, CanGoOn, CanStep, Steps, slot_at, slot_state, all_are_empty, holder_after, TellsBus, fault_by, load_fault_at, with_item, WouldAnswer};
ghost use Rattle.seq_core.specs.Playing.{IsSame, IsUntouched};

use crate::job::Job;
use crate::load_fault::LoadFault;
use crate::lun_slots::{
    all_are_empty, empty_slots, holder_after, is_held, load_fault, lun_count, number_of, put_in,
    state_in, take_in,
};
use crate::slot::Slot;
use crate::slot_state::SlotState;
use crate::stepped::Stepped;
use crate::unload_fault::UnloadFault;
use arrayvec::ArrayVec;
use nand_geometry::Geometry;
use onfi_cycle::{Failures, Item, Lun, MAX_CHANNEL_LUNS};
use std::alloc::{AllocError, Allocator, Global};
use std::marker::Model;
use target_bus::Bus;

/// A sequencer on the bus of a channel. Each LUN has a slot for one job; one LUN at a time has the bus.
#[derive(Drop)]
pub struct Core<A: Allocator = Global> {
    bus: Bus<A>,
    slots: ArrayVec<Option<Slot<A>>, MAX_CHANNEL_LUNS>,
    holder: Option<Lun>,
}

impl<A: Allocator> Model for Core<A> {
    ghost use Rattle.seq_core.specs.Shows.{CoreView};
    ghost use Rattle.seq_core.specs.Calls.{IsCore};

    ghost Value = { CoreView };

    ghost view = { λ c. record { geometry = c.bus.geometry; targets = c.bus.targets; opened = c.bus.opened; past = c.bus.past; slots = c.slots.items; holder = c.holder } };

    ghost invariant = { λ c. IsCore (record { geometry = c.bus.geometry; targets = c.bus.targets; opened = c.bus.opened; past = c.bus.past; slots = c.slots.items; holder = c.holder }) };
}

/// A job that isn't loaded: why, and the job again.
#[derive(Drop)]
pub struct LoadRefused<A: Allocator = Global> {
    pub fault: LoadFault,
    pub job: Job<A>,
}

/// A job that has ended and was taken from its LUN, and its code.
#[derive(Drop)]
pub struct UnloadedJob<A: Allocator = Global> {
    pub job: Job<A>,
    pub code: u8,
}

// Steps the slot of a number.
fn step_in<A: Allocator + Copy>(
    bus: &mut Bus<A>,
    slots: &mut [Option<Slot<A>>],
    place: usize,
) -> Result<Stepped, AllocError>
    requires inside { place < length slots.old }
    requires can { (v : Progress) × (get_or slots.old place None ≡ Some v) × CanStep (channel_of bus.old) bus.old.past v }
    ensures same { IsSame bus.old bus.new }
    ensures ok { IfOk result (λ answer. (v : Progress) × (u : Progress) × (get_or slots.old place None ≡ Some v)
        × Steps (channel_of bus.old) bus.old.past v answer bus.new.past u × (slots.new ≡ set slots.old place (Some u))) }
    ensures err { OnErr result (IsUntouched bus.old bus.new × (slots.new ≡ slots.old)) }
{
    match &mut slots[place] {
        Some(slot) => slot.step(bus),
        None => unreachable!(),
    }
}

impl<A: Allocator + Copy> Core<A> {
    /// A sequencer on a bus on which nothing has happened (`Bus::is_fresh` tells): each slot is empty. Takes no memory.
    pub fn new(bus: Bus<A>) -> Core<A>
        requires { bus.past ≡ [] }
        ensures channel { (result.geometry ≡ bus.geometry) × (result.targets ≡ bus.targets) × (result.opened ≡ bus.opened) }
        ensures world { IsAt result (fresh (channel_in result)) }
        ensures lawful { LawfulWorld (channel_in result) (fresh (channel_in result)) }
    {
        let slots = empty_slots(lun_count(bus.targets(), &bus.geometry()));
        // Its contract says that the bus is that of a channel, which the new sequencer keeps.
        let _trace = bus.trace();
        Core {
            bus,
            slots,
            holder: None,
        }
    }

    /// Nothing has happened on the channel, no LUN has a job, and none has the bus.
    pub fn is_fresh(&self) -> bool
        ensures { result ≡ true ↔ IsAt self.now (fresh (channel_in self.now)) }
    {
        self.bus.is_fresh() && self.holder.is_none() && all_are_empty(self.slots.as_slice())
    }

    // The number of a LUN, if it is there.
    fn place(&self, lun: Lun) -> Option<usize>
        ensures value { result ≡ (if is_there (channel_in self.now) lun then Some (number (channel_in self.now) lun) else None) }
        ensures inside { IfSome result (λ k. (k < length self.now.slots) × (k < 16)) }
    {
        number_of(self.bus.targets(), self.bus.geometry().parts().luns, lun)
    }

    /// The number of a LUN, counted from LUN 0 of target 0 on, or None where it isn't there.
    pub fn number(&self, lun: Lun) -> Option<u32>
        ensures value { result ≡ (if is_there (channel_in self.now) lun then Some (number (channel_in self.now) lun) else None) }
        ensures small { IfSome result (λ k. k < 16) }
    {
        match self.place(lun) {
            None => None,
            Some(place) => Some(place as u32),
        }
    }

    // What the slot of a LUN holds.
    fn state_at(&self, lun: Lun) -> SlotState
        ensures value { result ≡ slot_state (slot_at self.now lun) }
        ensures core { IsCore self.now }
    {
        match self.place(lun) {
            None => SlotState::Empty,
            Some(place) => state_in(self.slots.as_slice(), place),
        }
    }

    /// What has happened on the channel, in the order of time. It is a legal trace.
    pub fn trace(&self) -> &[Item]
        ensures value { result.now ≡ reverse self.now.past }
        ensures legal { is_legal self.now.geometry self.now.targets self.now.past ≡ true }
        ensures core { IsCore self.now }
    {
        self.bus.trace()
    }

    /// The geometry of its LUNs.
    pub fn geometry(&self) -> Geometry
        ensures { result ≡ self.now.geometry }
    {
        self.bus.geometry()
    }

    /// The LUN that has the bus, if one has it.
    pub fn holder(&self) -> Option<Lun>
        ensures { result ≡ self.now.holder }
    {
        self.holder
    }

    /// Steps a LUN: the next word of its program, with all its cycles. `Empty`: it has no job, or isn't there. `Ended`: the
    /// word was `end`, or the job had ended before. `Held`: another LUN has the bus. `HandedOver`: the word was `yield`, and
    /// the bus is let go. `NotReady`: the word was `wait` and its poll says busy; it comes again, and the bus is let go.
    /// `Went`: any other word; the LUN has the bus. Without memory for it all stays as it was; that comes after every other
    /// answer, so the program goes on and no other LUN has the bus.
    pub fn step(&mut self, lun: Lun) -> Result<Stepped, AllocError>
        ensures came { IfOk result (λ answer. IsEvent self.old (Step lun) (ToStep answer) self.new) }
        ensures bus { IfOk result (λ answer. TellsBus answer self.new.holder lun) }
        ensures err { OnErr result ((self.new ≡ self.old) × CanGoOn self.old lun) }
    {
        match self.answer_at_rest(lun) {
            Some(answer) => Ok(answer),
            None => self.step_on(lun),
        }
    }

    // The answer of a step that changes nothing: the LUN has no program that goes on, or another LUN has the bus.
    fn answer_at_rest(&self, lun: Lun) -> Option<Stepped>
        ensures came { IfSome result (λ answer. IsEvent self.now (Step lun) (ToStep answer) self.now) }
        ensures bus { IfSome result (λ answer. TellsBus answer self.now.holder lun) }
        ensures running { IfNone result (SlotState.Running ≡ slot_state (slot_at self.now lun)) }
        ensures free { IfNone result (is_held self.now.holder lun ≡ false) }
    {
        match self.state_at(lun) {
            SlotState::Empty => Some(Stepped::Empty),
            SlotState::Ended(_) => Some(Stepped::Ended),
            SlotState::Running if is_held(self.holder, lun) => Some(Stepped::Held),
            SlotState::Running => None,
        }
    }

    // Steps a LUN whose program goes on and may have the bus.
    fn step_on(&mut self, lun: Lun) -> Result<Stepped, AllocError>
        requires running { SlotState.Running ≡ slot_state (slot_at self.old lun) }
        requires free { is_held self.old.holder lun ≡ false }
        ensures came { IfOk result (λ answer. IsEvent self.old (Step lun) (ToStep answer) self.new) }
        ensures bus { IfOk result (λ answer. TellsBus answer self.new.holder lun) }
        ensures err { OnErr result ((self.new ≡ self.old) × CanGoOn self.old lun) }
    {
        match self.place(lun) {
            None => unreachable!(),
            Some(place) => {
                match step_in(&mut self.bus, self.slots.as_mut_slice(), place) {
                    Err(error) => Err(error),
                    Ok(answer) => {
                        self.holder = holder_after(answer, lun);
                        Ok(answer)
                    }
                }
            }
        }
    }

    /// What [`load`](Core::load) would answer.
    pub fn admits(&self, lun: Lun, job: &Job<A>) -> Result<(), LoadFault>
        ensures ok { IfOk result (λ _. load_fault_at self.now lun job.now ≡ None) }
        ensures err { IfErr result (λ fault. load_fault_at self.now lun job.now ≡ Some fault) }
        ensures verified { IsVerified job.now }
        ensures core { IsCore self.now }
    {
        let has_job = self.state_at(lun).has_job();
        let there = self.place(lun).is_some();
        let geometry = self.bus.geometry();
        match load_fault(has_job, there, lun, job.lun(), &geometry, job.geometry()) {
            Some(fault) => Err(fault),
            None => Ok(()),
        }
    }

    /// Loads a job onto its LUN. Errors, the first that stands, with the job handed back and all as it was: `S1` the LUN
    /// has a job; `S2` the LUN isn't there, or isn't the job's; `S5` the job is of another geometry. Takes no memory.
    pub fn load(&mut self, lun: Lun, job: Job<A>) -> Result<(), LoadRefused<A>>
        ensures ok { IfOk result (λ _. IsEvent self.old (Load lun job) (ToLoad Loaded) self.new) }
        ensures err { IfErr result (λ e. (e.job ≡ job) × (self.new ≡ self.old)
            × IsEvent self.old (Load lun job) (ToLoad (NotLoaded e.fault job)) self.new) }
        ensures refused { IfErr result (λ e. load_fault_at self.old lun job ≡ Some e.fault) }
    {
        match self.admits(lun, &job) {
            Err(fault) => Err(LoadRefused { fault, job }),
            Ok(()) => {
                self.fill(lun, job);
                Ok(())
            }
        }
    }

    // Puts a job that is admitted into its slot.
    fn fill(&mut self, lun: Lun, job: Job<A>)
        requires { load_fault_at self.old lun job ≡ None }
        ensures { IsEvent self.old (Load lun job) (ToLoad Loaded) self.new }
    {
        match self.place(lun) {
            None => unreachable!(),
            Some(place) => put_in(self.slots.as_mut_slice(), place, Some(Slot::new(job))),
        }
    }

    /// What [`ready`](Core::ready) would answer.
    pub fn admits_ready(&self, lun: Lun, fail: Failures) -> bool
        ensures { IsEvent self.now (Ready lun fail) (ToReady result) (with_item self.now (Rdy lun.ce lun.lun fail) result) }
    {
        let item = Item::Rdy {
            ce: lun.ce,
            lun: lun.lun,
            fail,
        };
        self.bus.state().judge(item).is_none()
    }

    /// What [`array_ready`](Core::array_ready) would answer.
    pub fn admits_array_ready(&self, lun: Lun, fail: bool) -> bool
        ensures { IsEvent self.now (ArrayReady lun fail) (ToArrayReady result) (with_item self.now (Ard lun.ce lun.lun fail) result) }
    {
        let item = Item::Ard {
            ce: lun.ce,
            lun: lun.lun,
            fail,
        };
        self.bus.state().judge(item).is_none()
    }

    /// What [`unload`](Core::unload) would answer: the code with which the LUN's job has ended, or why no job is taken.
    pub fn admits_unload(&self, lun: Lun) -> Result<u8, UnloadFault>
        ensures ended { IfOk result (λ code. SlotState.Ended code ≡ slot_state (slot_at self.now lun)) }
        ensures ok { IfOk result (λ code. (job : JobValue) × WouldAnswer self.now (Unload lun) (ToUnload (Unloaded job code))) }
        ensures err { IfErr result (λ fault. IsEvent self.now (Unload lun) (ToUnload (NotUnloaded fault)) self.now) }
    {
        match self.state_at(lun) {
            SlotState::Empty => Err(UnloadFault::NoJob),
            SlotState::Running => Err(UnloadFault::StillRunning),
            SlotState::Ended(code) => Ok(code),
        }
    }

    /// A LUN becomes ready, with failures or without; false, with all as it was, where it isn't there or isn't busy. Takes no
    /// memory.
    pub fn ready(&mut self, lun: Lun, fail: Failures) -> bool
        ensures came { IsEvent self.old (Ready lun fail) (ToReady result) self.new }
        ensures no { result ≡ false → self.new ≡ self.old }
    {
        self.bus.ready(lun, fail)
    }

    /// The array of a LUN becomes ready after a cache read; false, with all as it was, where none goes on. Takes no memory.
    pub fn array_ready(&mut self, lun: Lun, fail: bool) -> bool
        ensures came { IsEvent self.old (ArrayReady lun fail) (ToArrayReady result) self.new }
        ensures no { result ≡ false → self.new ≡ self.old }
    {
        self.bus.array_ready(lun, fail)
    }

    /// Takes a job that has ended from its LUN, with its buffer as the program left it. Errors, with all as it was: `U1` the
    /// LUN has no job, or isn't there; `U2` its job hasn't ended. Takes no memory.
    pub fn unload(&mut self, lun: Lun) -> Result<UnloadedJob<A>, UnloadFault>
        ensures ok { IfOk result (λ done. IsEvent self.old (Unload lun) (ToUnload (Unloaded done.job done.code)) self.new) }
        ensures err { IfErr result (λ fault. (self.new ≡ self.old)
            × IsEvent self.old (Unload lun) (ToUnload (NotUnloaded fault)) self.new) }
    {
        match self.admits_unload(lun) {
            Err(fault) => Err(fault),
            Ok(code) => Ok(UnloadedJob {
                job: self.empty(lun, code),
                code,
            }),
        }
    }

    // Takes the job of a LUN that has ended with this code.
    fn empty(&mut self, lun: Lun, code: u8) -> Job<A>
        requires { SlotState.Ended code ≡ slot_state (slot_at self.old lun) }
        ensures { IsEvent self.old (Unload lun) (ToUnload (Unloaded result code)) self.new }
    {
        match self.place(lun) {
            None => unreachable!(),
            Some(place) => match take_in(self.slots.as_mut_slice(), place) {
                None => unreachable!(),
                Some(slot) => slot.into_job(),
            },
        }
    }

    /// The bus, as the trace has left it.
    pub fn into_bus(self) -> Bus<A>
        ensures { (result.geometry ≡ self.geometry) × (result.targets ≡ self.targets) × (result.opened ≡ self.opened)
            × (result.past ≡ self.past) }
    {
        self.bus
    }
}
