//! The sequencer on a real bus: what is to be done on the pins, burst by burst, and what the chips answer.
ghost use Rattle.std.specs.Prelude.{◌≡◌, ◌↔◌, ℕ, ◌<◌, true, List, [], ◌∷◌, ◌++◌, Some, None, if◌then◌else◌, IsOk, IfOk, IfErr, OnErr, IfSome, IfNone, length};
ghost use Rattle.onfi_cycle.specs.Channel.{is_there};
ghost use Rattle.micro_program.specs.Program.{is_ready_status};
ghost use Rattle.seq_core.specs.World.{fresh, number};
ghost use Rattle.seq_core.specs.Event.{IsVerified};
ghost use Rattle.seq_core.specs.Reply.{Reply, ToLoad, ToStep, ToReady, ToArrayReady, ToUnload, Loaded, NotLoaded, Unloaded, NotUnloaded};
ghost use Rattle.seq_core.specs.Calls.{slot_state};
ghost use Rattle.seq_core.specs.Playing.{EndsWithFive};
ghost use Rattle.seq_live.specs.Event.{Load, Step, Ready, ArrayReady, Unload};
ghost use Rattle.seq_live.specs.Burst.{taken_by};
ghost use Rattle.seq_live.specs.Kept.{channel_at, IsLiveAt, IsLive};
ghost use Rattle.seq_live.specs.Calls.{IsLiveRun, IsLiveEvent, live_slot, live_load_fault, MayStep, IsNextWord, AreNextBursts, Begins, IsNextBurst, HasNoBurst, AreFewDone, Takes, IsBurstDone, IsGaveFault, IsFinishFault, HasFinished, HasBuffer, KeepsSlots, IsReadyNow, ends_with, shown, shown_by};

use crate::begun::Begun;
use crate::burst::{Burst, burst_of, taken_by};
use crate::moving::go_on_if;
use crate::out_of_turn::OutOfTurn;
use crate::slot_steps::{Due, buffer_in, due_in, is_poll, status_of, step_in, word_in};
use arrayvec::ArrayVec;
use micro_program::is_ready_status;
use micro_word::Word;
use nand_geometry::Geometry;
use onfi_cycle::{BusState, Failures, Item, Lun, MAX_CHANNEL_LUNS, Status};
use seq_core::lun_slots::{
    empty_slots, holder_after, is_held, load_fault, lun_count, number_of, put_in, state_in, take_in,
};
use seq_core::{Job, LoadFault, LoadRefused, Slot, SlotState, Stepped, UnloadFault, UnloadedJob};
use std::alloc::{Allocator, Global};
use std::marker::Model;

// The bit of a status byte that says that the array is ready (ARDY).
const ARRAY_READY: u8 = 0x20;

/// A step that goes on on the pins: of which LUN, and how many of its bursts are done.
#[derive(Clone, Copy, Debug, PartialEq, Eq)]
pub struct StepGoingOn {
    pub lun: Lun,
    pub done: usize,
}

/// A sequencer on the pins of a channel. Each LUN has a slot for one job; one LUN at a time has the bus. It keeps no trace and takes no memory: what has
/// happened stands in the contracts alone.
#[derive(Drop)]
pub struct Live<A: Allocator = Global> {
    state: BusState,
    slots: ArrayVec<Option<Slot<A>>, MAX_CHANNEL_LUNS>,
    holder: Option<Lun>,
    going: Option<StepGoingOn>,
}

impl<A: Allocator> Model for Live<A> {
    ghost use Rattle.seq_live.specs.Kept.{LiveView, IsLive};

    ghost Value = { LiveView };

    ghost view = { λ c. record { state = c.state; slots = c.slots.items; holder = c.holder; going = c.going } };

    ghost invariant = { λ c. IsLive (record { state = c.state; slots = c.slots.items; holder = c.holder; going = c.going }) };
}

impl<A: Allocator> Live<A> {
    /// A sequencer on the pins of a channel of so many targets of this geometry, 4 at most, None where there are more: each slot is empty. Its chips
    /// are ready and have been reset, and none is selected.
    pub fn new(geometry: Geometry, targets: u8) -> Option<Live<A>>
        ensures some { IfSome result (λ live. (live.state.geometry ≡ geometry) × (length live.state.targets ≡ targets)) }
        ensures world { IfSome result (λ live. IsLiveAt live (fresh (channel_at live))) }
        ensures none { IfNone result (4 < targets) }
    {
        if targets > 4 {
            return None;
        }
        let slots = empty_slots(lun_count(targets, &geometry));
        // Its contract says that the geometry is in the limits.
        let _ = geometry.parts();
        Some(Live {
            state: BusState::new(geometry, targets),
            slots,
            holder: None,
            going: None,
        })
    }

    // The number of a LUN, if it is there.
    pub(crate) fn place(&self, lun: Lun) -> Option<usize>
        ensures value { result ≡ (if is_there (channel_at self.now) lun then Some (number (channel_at self.now) lun) else None) }
        ensures inside { IfSome result (λ k. (k < length self.now.slots) × (k < 16)) }
    {
        number_of(
            self.state.targets(),
            self.state.geometry().parts().luns,
            lun,
        )
    }

    // What the slot of a LUN holds.
    fn state_at(&self, lun: Lun) -> SlotState
        ensures value { result ≡ slot_state (live_slot self.now lun) }
        ensures live { IsLive self.now }
    {
        match self.place(lun) {
            None => SlotState::Empty,
            Some(place) => state_in(self.slots.as_slice(), place),
        }
    }

    /// The geometry of its LUNs.
    pub fn geometry(&self) -> Geometry
        ensures { result ≡ self.now.state.geometry }
    {
        self.state.geometry()
    }

    /// The LUN that has the bus, if one has it.
    pub fn holder(&self) -> Option<Lun>
        ensures { result ≡ self.now.holder }
    {
        self.holder
    }

    /// The buffer of a LUN's job as it is now, where the bytes of an [`Input`](crate::Burst::Input) burst stand; None where it has no job or isn't there.
    pub fn buffer(&self, lun: Lun) -> Option<&[u8]>
        ensures some { IfSome result (λ buffer. HasBuffer (live_slot self.now lun) buffer.now) }
        ensures none { IfNone result (live_slot self.now lun ≡ None) }
    {
        let place = self.place(lun)?;
        buffer_in(self.slots.as_slice(), place)
    }

    /// How many bytes the outputs of a LUN's next word give; 0 where its step would change nothing.
    pub fn takes(&self, lun: Lun) -> usize
        ensures { Takes self.now lun result }
    {
        match self.answer_at_rest(lun) {
            Some(_) => 0,
            None => taken_by(self.word_at(lun)),
        }
    }

    /// The step that goes on on the pins, if one does.
    pub fn going(&self) -> Option<StepGoingOn>
        ensures value { result ≡ self.now.going }
        ensures live { IsLive self.now }
    {
        self.going
    }

    /// The answer of a step that changes nothing: the LUN has no program that goes on, or another LUN has the bus.
    pub(crate) fn answer_at_rest(&self, lun: Lun) -> Option<Stepped>
        ensures came { IfSome result (λ answer. (bytes : List ℕ) → IsLiveEvent self.now (Step lun bytes) (ToStep answer) self.now) }
        ensures rest { IfSome result (λ answer. MayStep self.now lun → ⊥) }
        ensures may { IfNone result (MayStep self.now lun) }
    {
        match self.state_at(lun) {
            SlotState::Empty => Some(Stepped::Empty),
            SlotState::Ended(_) => Some(Stepped::Ended),
            SlotState::Running if is_held(self.holder, lun) => Some(Stepped::Held),
            SlotState::Running => None,
        }
    }

    /// What [`load`](Live::load) would answer.
    pub fn admits(&self, lun: Lun, job: &Job<A>) -> Result<(), LoadFault>
        ensures ok { IfOk result (λ _. live_load_fault self.now lun job.now ≡ None) }
        ensures err { IfErr result (λ fault. live_load_fault self.now lun job.now ≡ Some fault) }
        ensures verified { IsVerified job.now }
        ensures live { IsLive self.now }
    {
        let has_job = self.state_at(lun).has_job();
        let there = self.place(lun).is_some();
        let geometry = self.state.geometry();
        match load_fault(has_job, there, lun, job.lun(), &geometry, job.geometry()) {
            Some(fault) => Err(fault),
            None => Ok(()),
        }
    }

    /// Loads a job onto its LUN. Errors, the first that stands, with the job handed back and all as it was: `S1` the LUN has a job; `S2` the LUN isn't
    /// there, or isn't the job's; `S5` the job is of another geometry. Takes no memory.
    pub fn load(&mut self, lun: Lun, job: Job<A>) -> Result<(), LoadRefused<A>>
        ensures ok { IfOk result (λ _. IsLiveEvent self.old (Load lun job) (ToLoad Loaded) self.new) }
        ensures err { IfErr result (λ e. (e.job ≡ job) × (self.new ≡ self.old)
            × IsLiveEvent self.old (Load lun job) (ToLoad (NotLoaded e.fault job)) self.new) }
        ensures refused { IfErr result (λ e. live_load_fault self.old lun job ≡ Some e.fault) }
    {
        match self.admits(lun, &job) {
            Err(fault) => Err(LoadRefused { fault, job }),
            Ok(()) => {
                self.fill(lun, job);
                Ok(())
            }
        }
    }

    // Puts a job that is admitted into its slot.
    fn fill(&mut self, lun: Lun, job: Job<A>)
        requires { live_load_fault self.old lun job ≡ None }
        ensures { IsLiveEvent self.old (Load lun job) (ToLoad Loaded) self.new }
    {
        match self.place(lun) {
            None => unreachable!(),
            Some(place) => put_in(self.slots.as_mut_slice(), place, Some(Slot::new(job))),
        }
    }

    // What [`unload`](Live::unload) would answer.
    fn admits_unload(&self, lun: Lun) -> Result<u8, UnloadFault>
        ensures ended { IfOk result (λ code. SlotState.Ended code ≡ slot_state (live_slot self.now lun)) }
        ensures err { IfErr result (λ fault. IsLiveEvent self.now (Unload lun) (ToUnload (NotUnloaded fault)) self.now) }
    {
        match self.state_at(lun) {
            SlotState::Empty => Err(UnloadFault::NoJob),
            SlotState::Running => Err(UnloadFault::StillRunning),
            SlotState::Ended(code) => Ok(code),
        }
    }

    /// Takes a job that has ended from its LUN, with its buffer as the program left it. Errors, with all as it was: `U1` the LUN has no job, or isn't
    /// there; `U2` its job hasn't ended. Takes no memory.
    pub fn unload(&mut self, lun: Lun) -> Result<UnloadedJob<A>, UnloadFault>
        ensures ok { IfOk result (λ done. IsLiveEvent self.old (Unload lun) (ToUnload (Unloaded done.job done.code)) self.new) }
        ensures err { IfErr result (λ fault. (self.new ≡ self.old)
            × IsLiveEvent self.old (Unload lun) (ToUnload (NotUnloaded fault)) self.new) }
    {
        match self.admits_unload(lun) {
            Err(fault) => Err(fault),
            Ok(code) => Ok(UnloadedJob {
                job: self.empty(lun, code),
                code,
            }),
        }
    }

    // Takes the job of a LUN that has ended with this code.
    fn empty(&mut self, lun: Lun, code: u8) -> Job<A>
        requires { SlotState.Ended code ≡ slot_state (live_slot self.old lun) }
        ensures { IsLiveEvent self.old (Unload lun) (ToUnload (Unloaded result code)) self.new }
    {
        match self.place(lun) {
            None => unreachable!(),
            Some(place) => match take_in(self.slots.as_mut_slice(), place) {
                None => unreachable!(),
                Some(slot) => slot.into_job(),
            },
        }
    }

    /// A LUN becomes ready, with failures or without, as R/B# may tell; false, with all as it was, where it isn't there or isn't busy. What a poll shows
    /// needs no call: [`finish`](Live::finish) sees it.
    pub fn ready(&mut self, lun: Lun, fail: Failures) -> bool
        ensures came { IsLiveEvent self.old (Ready lun fail) (ToReady result) self.new }
        ensures truth { IsReadyNow self.new.state lun }
        ensures stays { KeepsSlots self.old self.new }
    {
        go_on_if(
            &mut self.state,
            Item::Rdy {
                ce: lun.ce,
                lun: lun.lun,
                fail,
            },
        )
    }

    /// The array of a LUN becomes ready after a cache read, or after a cache program, which failed or not; false, with all as it was, where none
    /// goes on.
    pub fn array_ready(&mut self, lun: Lun, fail: bool) -> bool
        ensures came { IsLiveEvent self.old (ArrayReady lun fail) (ToArrayReady result) self.new }
        ensures truth { IsReadyNow self.old.state lun → IsReadyNow self.new.state lun }
        ensures stays { KeepsSlots self.old self.new }
    {
        go_on_if(
            &mut self.state,
            Item::Ard {
                ce: lun.ce,
                lun: lun.lun,
                fail,
            },
        )
    }

    // The next word of a LUN that may step.
    fn word_at(&self, lun: Lun) -> Word
        requires { MayStep self.now lun }
        ensures next { IsNextWord self.now lun result }
        ensures range { EndsWithFive result }
    {
        match self.place(lun) {
            None => unreachable!(),
            Some(place) => word_in(self.slots.as_slice(), place),
        }
    }

    /// The next word of a LUN that may step, and its bursts.
    pub(crate) fn due_at(&self, lun: Lun) -> Due
        requires { MayStep self.now lun }
        ensures place { Some result.place ≡ (if is_there (channel_at self.now) lun then Some (number (channel_at self.now) lun) else None) }
        ensures inside { result.place < length self.now.slots }
        ensures word { IsNextWord self.now lun result.word }
        ensures range { EndsWithFive result.word }
        ensures bursts { AreNextBursts self.now lun result.bursts.items }
    {
        let geometry = self.state.geometry();
        match self.place(lun) {
            None => unreachable!(),
            Some(place) => due_in(&geometry, self.slots.as_slice(), place),
        }
    }

    /// Begins a step of a LUN. `Going`: its next word's bursts are to be done on the pins, one after another as [`next`](Live::next) tells them, and then
    /// [`finish`](Live::finish). `Answered`: nothing is to be done and all is as it was, since the LUN has no job or isn't there (`Empty`), its job
    /// has ended (`Ended`), or another LUN has the bus (`Held`). Errors: `StepGoesOn`, with all as it was.
    pub fn begin(&mut self, lun: Lun) -> Result<Begun, OutOfTurn>
        ensures ok { IfOk result (λ begun. Begins self.old lun begun self.new) }
        ensures err { IfErr result (λ e. (e ≡ OutOfTurn.StepGoesOn) × (self.new ≡ self.old)) }
        ensures turn { IsOk result ↔ (self.old.going ≡ None) }
    {
        if self.going.is_some() {
            return Err(OutOfTurn::StepGoesOn);
        }
        match self.answer_at_rest(lun) {
            Some(answer) => Ok(Begun::Answered(answer)),
            None => {
                self.going = Some(StepGoingOn { lun, done: 0 });
                Ok(Begun::Going)
            }
        }
    }

    /// What is to be done on the pins now; None where no step goes on, or all of its bursts are done.
    pub fn next(&self) -> Option<Burst>
        ensures some { IfSome result (λ burst. IsNextBurst self.now burst) }
        ensures few { IfSome result (λ burst. AreFewDone self.now) }
        ensures none { IfNone result (HasNoBurst self.now) }
    {
        let step = self.going?;
        match self.answer_at_rest(step.lun) {
            Some(_) => None,
            None => burst_of(&self.due_at(step.lun).bursts, step.done),
        }
    }

    /// The burst that [`next`](Live::next) tells is done on the pins. Errors, with all as it was: `NoStep` no step goes on; `NoBurst` all of its bursts are
    /// done.
    pub fn gave(&mut self) -> Result<(), OutOfTurn>
        ensures ok { IfOk result (λ _. IsBurstDone self.old self.new) }
        ensures err { IfErr result (λ e. IsGaveFault self.old e × (self.new ≡ self.old)) }
    {
        let Some(step) = self.going else {
            return Err(OutOfTurn::NoStep);
        };
        match self.next() {
            None => Err(OutOfTurn::NoBurst),
            Some(_) => {
                self.going = Some(StepGoingOn {
                    lun: step.lun,
                    done: step.done + 1,
                });
                Ok(())
            }
        }
    }

    // The readies that a status of a LUN shows.
    fn show_status(&mut self, lun: Lun, status: u8)
        ensures run { (replies : List Reply) × IsLiveRun self.old (shown_by lun status) replies self.new }
        ensures truth { is_ready_status status ≡ true → IsReadyNow self.new.state lun }
        ensures stays { KeepsSlots self.old self.new }
    {
        if is_ready_status(status) {
            let fail = Status(status).failures();
            self.ready(lun, fail);
            if status & ARRAY_READY == ARRAY_READY {
                self.array_ready(lun, fail.last);
            }
        }
    }

    // The readies that a word of a LUN shows, whose outputs gave these bytes.
    fn show(&mut self, lun: Lun, word: Word, taken: &[u8])
        ensures run { (replies : List Reply) × IsLiveRun self.old (shown lun word taken.now) replies self.new }
        ensures truth { ends_with word taken.now ≡ true → IsReadyNow self.new.state lun }
        ensures stays { KeepsSlots self.old self.new }
    {
        if is_poll(word) {
            self.show_status(lun, status_of(taken));
        }
    }

    // Steps the next word of a LUN, whose outputs gave these bytes.
    fn step_by(&mut self, lun: Lun, due: &Due, taken: &[u8]) -> Stepped
        requires may { MayStep self.old lun }
        requires place { Some due.now.place ≡ (if is_there (channel_at self.old) lun then Some (number (channel_at self.old) lun) else None) }
        requires inside { due.now.place < length self.old.slots }
        requires next { IsNextWord self.old lun due.now.word }
        requires bursts { AreNextBursts self.old lun due.now.bursts.items }
        requires count { length taken.now ≡ taken_by due.now.word }
        requires truth { ends_with due.now.word taken.now ≡ true → IsReadyNow self.old.state lun }
        ensures came { IsLiveEvent self.old (Step lun taken.now) (ToStep result) self.new }
        ensures over { self.new.going ≡ None }
    {
        let geometry = self.state.geometry();
        let slots = self.slots.as_mut_slice();
        let answer = step_in(&mut self.state, &geometry, slots, due.place, due, taken);
        self.holder = holder_after(answer, lun);
        self.going = None;
        answer
    }

    /// Steps the next word of a LUN after the readies that its poll shows.
    pub(crate) fn step_word(&mut self, lun: Lun, due: &Due, taken: &[u8]) -> Stepped
        requires may { MayStep self.old lun }
        requires place { Some due.now.place ≡ (if is_there (channel_at self.old) lun then Some (number (channel_at self.old) lun) else None) }
        requires inside { due.now.place < length self.old.slots }
        requires next { IsNextWord self.old lun due.now.word }
        requires bursts { AreNextBursts self.old lun due.now.bursts.items }
        requires count { length taken.now ≡ taken_by due.now.word }
        ensures run { (replies : List Reply) × IsLiveRun self.old (shown lun due.now.word taken.now ++ (Step lun taken.now ∷ [])) (replies ++ (ToStep result ∷ [])) self.new }
        ensures over { self.new.going ≡ None }
    {
        self.show(lun, due.word, taken);
        self.step_by(lun, due, taken)
    }

    /// Finishes the step that goes on, all of whose bursts are done: these bytes are what its outputs gave, one for a poll, as many as a `get` asks
    /// for, else none. The readies that a poll shows come before it: RDY that the LUN has become ready, with failure where FAIL is shown, ARDY
    /// besides that its array has. The answer is how the step went. Errors, with all as it was: `NoStep` no step goes on; `BurstsLeft`; `WrongCount`.
    pub fn finish(&mut self, taken: &[u8]) -> Result<Stepped, OutOfTurn>
        ensures ok { IfOk result (λ answer. HasFinished self.old taken.now answer self.new) }
        ensures all { IfOk result (λ answer. HasNoBurst self.old) }
        ensures err { IfErr result (λ e. IsFinishFault self.old (length taken.now) e × (self.new ≡ self.old)) }
    {
        let Some(step) = self.going else {
            return Err(OutOfTurn::NoStep);
        };
        if let Some(answer) = self.answer_at_rest(step.lun) {
            self.going = None;
            return Ok(answer);
        }
        let due = self.due_at(step.lun);
        if burst_of(&due.bursts, step.done).is_some() {
            return Err(OutOfTurn::BurstsLeft);
        }
        if taken.len() != taken_by(due.word) {
            return Err(OutOfTurn::WrongCount);
        }
        Ok(self.step_word(step.lun, &due, taken))
    }
}
