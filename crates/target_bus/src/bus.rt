//! The bus of a channel: its dies, their running state, and the trace.
ghost use Rattle.std.specs.Prelude.{◌≡◌, ◌≢◌, ℕ, ◌*◌, ◌<◌, ◌≤◌, ◌↔◌, Bool, true, false, List, [], ◌∷◌, Some, None, IsOk, IfOk, IfErr, IsTrue, length, map, reverse, slice_get};
ghost use Rattle.nand_geometry.specs.Limits.{InLimits};
ghost use Rattle.onfi_cycle.specs.declared.item.Item.TheVariants.{Cyc, Rdy, Ard};
ghost use Rattle.onfi_cycle.specs.declared.item.Kind.TheVariants.{Dout};
ghost use Rattle.onfi_cycle.specs.declared.lun.Lun.{Lun};
ghost use Rattle.onfi_cycle.specs.declared.page_address.PageAddress.{PageAddress};
ghost use Rattle.onfi_cycle.specs.Permitted.{broken, is_permitted, is_legal};
ghost use Rattle.onfi_cycle.specs.Channel.{IsChannel, is_cycle, cycle, bus_byte};
ghost use Rattle.onfi_cycle.specs.State.{Follows};
ghost use Rattle.onfi_cycle.specs.Look.{look_after};
ghost use Rattle.onfi_cycle.specs.Readies.{starts_work};
ghost use Rattle.die_model.specs.Die.{Die, page_of};
ghost use Rattle.target_bus.specs.Bus.{Traced, channel_of, number_of, StandFor, bus_fault, RefusesDies, Refuses, IsNext, AreTaken, ArePut, is_output, IsRunning};
ghost use Rattle.onfi_cycle.specs.Outputs.{broken_outputs};
ghost use Rattle.onfi_cycle.specs.Inputs.{broken_inputs};

use crate::going_on::{
    go_on, go_on_by_inputs, go_on_by_outputs, judge_cycle, judge_output, output, push_run, starting,
};
use crate::opening::{are_new, are_targets, copy_pages, forget_array_pages};
use crate::refusal::{BusFault, BusRefusal, DiesRefused};
use crate::showing::{copy_shown, shown_byte};
use crate::working::{end_work, work, work_inputs};
use die_model::{LunDie, Pages};
use nand_geometry::Geometry;
use onfi_cycle::{BusState, Cycle, Failures, Item, Kind, Lun, LunState, MAX_CHANNEL_LUNS};
use std::alloc::{AllocError, Allocator, Global};
use std::marker::Model;

/// The bus of a channel with its dies and its trace.
#[derive(Drop)]
pub struct Bus<A: Allocator = Global> {
    state: BusState,
    dies: Vec<LunDie<A>, A>,
    /// What the pages of each die were at the opening.
    opened: Vec<Pages<A>, A>,
    trace: Vec<Item, A>,
    /// How many cycles to come need no memory, if they start no work.
    room: usize,
    /// How many readies are to come at most; each has its place in the trace.
    due: usize,
}

impl<A: Allocator> Model for Bus<A> {
    ghost use Rattle.std.specs.Prelude.{length, reverse};
    ghost use Rattle.std.specs.Vec.{vec_len, vec_capacity};
    ghost use Rattle.target_bus.specs.Bus.{Traced, IsRunning};

    ghost Value = { Traced };

    ghost view = { λ b. record { geometry = b.state.geometry; targets = length b.state.targets; opened = b.opened.items; past = reverse b.trace.items; room = b.room } };

    ghost invariant = { λ b. IsRunning b.state b.opened.items b.dies.items b.trace.items (vec_len b.trace) (vec_capacity b.trace) b.room b.due };
}

impl<A: Allocator + Copy> Bus<A> {
    /// The bus of these dies, LUN by LUN and target by target. It keeps what their pages are now, as the opening of its trace.
    ///
    /// Errors, with the dies: `B1` they aren't 1 to 4 targets of whole LUNs; `B2` the geometry of a die is another one, or
    /// the die was used before; and where neither is so, want of memory.
    pub fn new(
        alloc: A,
        geometry: Geometry,
        dies: Vec<LunDie<A>, A>,
    ) -> Result<Bus<A>, DiesRefused<A>>
        ensures ok { IfOk result (λ b. bus_fault geometry dies.items ≡ None) }
        ensures value { IfOk result (λ b. (b.past ≡ []) × (b.geometry ≡ geometry) × (b.targets * geometry.luns ≡ length dies.items)) }
        ensures opened { IfOk result (λ b. b.opened ≡ map (λ (d : Die). d.pages) dies.items) }
        ensures opening { IfOk result (λ b. (l : Lun) (p : PageAddress) (d : Die) → slice_get dies.items (number_of geometry l) ≡ Some d
            → (channel_of b).opening l p ≡ page_of d p) }
        ensures err { IfErr result (λ e. RefusesDies e.fault (bus_fault geometry dies.items) × (e.dies ≡ dies)) }
    {
        let luns = geometry.parts().luns;
        if !are_targets(&geometry, dies.len()) {
            let fault = BusFault::DiesMissing;
            return Err(DiesRefused { fault, dies });
        }
        if !are_new(&geometry, dies.as_slice()) {
            let fault = BusFault::DieUnfit;
            return Err(DiesRefused { fault, dies });
        }
        let targets = (dies.len() / usize::from(luns)) as u8;
        let opened = match copy_pages(alloc, dies.as_slice()) {
            Ok(opened) => opened,
            Err(_) => {
                let fault = BusFault::OutOfMemory;
                return Err(DiesRefused { fault, dies });
            }
        };
        let mut dies = dies;
        forget_array_pages(dies.as_mut_slice());
        Ok(Bus {
            state: BusState::new(geometry, targets),
            dies,
            opened,
            trace: Vec::new(alloc),
            room: 0,
            due: 0,
        })
    }

    /// The geometry of its targets.
    pub fn geometry(&self) -> Geometry
        ensures value { result ≡ self.now.geometry }
    {
        self.state.geometry()
    }

    /// How many targets it has.
    pub fn targets(&self) -> u8
        ensures value { result ≡ self.now.targets }
        ensures least { 1 ≤ result }
        ensures most { result ≤ 4 }
    {
        // A look at a field of the bus brings what it keeps, so how many there can be.
        let _trace = &self.trace;
        self.state.targets()
    }

    /// What has happened, in the order of time. It is a legal trace.
    pub fn trace(&self) -> &[Item]
        ensures value { result.now ≡ reverse self.now.past }
        ensures legal { is_legal self.now.geometry self.now.targets self.now.past ≡ true }
        ensures channel { IsChannel (channel_of self.now) }
    {
        self.trace.as_slice()
    }

    /// Nothing has happened yet.
    pub fn is_fresh(&self) -> bool
        ensures { result ≡ true ↔ self.now.past ≡ [] }
    {
        self.trace.is_empty()
    }

    /// The running state of the channel.
    pub fn state(&self) -> &BusState
        ensures { Follows self.now.geometry self.now.targets result.now self.now.past }
    {
        &self.state
    }

    /// A look at one LUN, None where it isn't there.
    pub fn lun_state(&self, lun: Lun) -> Option<LunState>
        ensures { result ≡ look_after self.now.geometry self.now.targets self.now.past lun }
    {
        self.state.lun_state(lun)
    }

    /// Puts a cycle on the bus: a command, an address or an input.
    ///
    /// Errors, with all as it was: the first rule that the cycle breaks; and where it breaks none, want of memory.
    pub fn put(&mut self, cycle: Cycle) -> Result<(), BusRefusal>
        requires { is_output cycle.kind ≡ false }
        ensures ok { IfOk result (λ _. (broken self.old.geometry self.old.targets self.old.past (Cyc cycle) ≡ None)
            × IsNext self.old self.new (Cyc cycle)) }
        ensures err { IfErr result (λ e. Refuses e (broken self.old.geometry self.old.targets self.old.past (Cyc cycle))
            × (self.new ≡ self.old)) }
        ensures memory { 0 < self.old.room → starts_work (Cyc cycle) ≡ false → IfErr result (λ e. e ≢ BusRefusal.OutOfMemory) }
    {
        let item = Item::Cyc(cycle);
        if let Some(rule) = judge_cycle(&self.state, cycle) {
            return Err(BusRefusal::Forbidden(rule));
        }
        let works = starting(item);
        let left = self.room.saturating_sub(1 - works);
        if self
            .trace
            .reserve(1 + left + self.due + MAX_CHANNEL_LUNS * works)
            .is_err()
        {
            return Err(BusRefusal::OutOfMemory);
        }
        if work(&self.state, self.dies.as_mut_slice(), cycle).is_err() {
            return Err(BusRefusal::OutOfMemory);
        }
        self.due = go_on(&mut self.state, item, self.due);
        self.trace.push_reserved(item);
        self.room = left;
        Ok(())
    }

    /// Puts a run of inputs on the bus, one for each byte of the slice, as [`put`](Bus::put) does one by one. The run is judged once,
    /// and its bytes are copied.
    ///
    /// Errors, with all as it was: the first rule that the first forbidden input breaks; and where none is forbidden, want of memory.
    pub fn put_all(&mut self, ce: u8, bytes: &[u8]) -> Result<(), BusRefusal>
        ensures ok { IfOk result (λ _. (broken_inputs self.old.geometry self.old.targets ce bytes.now self.old.past ≡ None)
            × ArePut self.old self.new ce bytes.now) }
        ensures err { IfErr result (λ e. Refuses e (broken_inputs self.old.geometry self.old.targets ce bytes.now self.old.past)
            × (self.new ≡ self.old)) }
        ensures memory { length bytes.now ≤ self.old.room → IfErr result (λ e. e ≢ BusRefusal.OutOfMemory) }
    {
        let count = bytes.len();
        if let Some(rule) = self.state.judge_inputs(ce, count) {
            return Err(BusRefusal::Forbidden(rule));
        }
        let left = self.room.saturating_sub(count);
        let Some(places) = count.checked_add(left + self.due) else {
            return Err(BusRefusal::OutOfMemory);
        };
        if self.trace.reserve(places).is_err() {
            return Err(BusRefusal::OutOfMemory);
        }
        work_inputs(&self.state, self.dies.as_mut_slice(), ce, bytes);
        go_on_by_inputs(&mut self.state, ce, count);
        push_run(&mut self.trace, ce, Kind::Din, bytes);
        self.room = left;
        Ok(())
    }

    /// Takes the byte that the one driver of a target shows.
    ///
    /// Errors, with all as it was: the first rule that the output breaks; and where it breaks none, want of memory.
    pub fn take(&mut self, ce: u8) -> Result<u8, BusRefusal>
        ensures ok { IfOk result (λ byte. (broken self.old.geometry self.old.targets self.old.past (cycle ce Dout byte) ≡ None)
            × (bus_byte (channel_of self.old) self.old.past ce ≡ Some byte) × IsNext self.old self.new (cycle ce Dout byte)) }
        ensures err { IfErr result (λ e. ((byte : ℕ) → Refuses e
            (broken self.old.geometry self.old.targets self.old.past (cycle ce Dout byte))) × (self.new ≡ self.old)) }
        ensures memory { 0 < self.old.room → IfErr result (λ e. e ≢ BusRefusal.OutOfMemory) }
    {
        if let Some(rule) = judge_output(&self.state, ce) {
            return Err(BusRefusal::Forbidden(rule));
        }
        let left = self.room.saturating_sub(1);
        if self.trace.reserve(1 + left + self.due).is_err() {
            return Err(BusRefusal::OutOfMemory);
        }
        let byte = shown_byte(&self.state, self.dies.as_slice(), ce);
        self.state.facts_fit();
        let item = Item::Cyc(output(ce, byte));
        self.due = go_on(&mut self.state, item, self.due);
        self.trace.push_reserved(item);
        self.room = left;
        Ok(byte)
    }

    /// Takes the bytes that the one driver of a target shows in a run of outputs, as many as the slice has, as [`take`](Bus::take) does
    /// one by one. The run is judged once, and its bytes are copied.
    ///
    /// Errors, with all as it was: the first rule that the first forbidden output breaks; and where none is forbidden, want of memory.
    pub fn take_all(&mut self, ce: u8, into: &mut [u8]) -> Result<(), BusRefusal>
        ensures ok { IfOk result (λ _. AreTaken self.old self.new ce into.new) }
        ensures err { IfErr result (λ e. ((bytes : List ℕ) → length bytes ≡ length into.old → Refuses e
            (broken_outputs self.old.geometry self.old.targets ce bytes self.old.past)) × (self.new ≡ self.old) × (into.new ≡ into.old)) }
        ensures memory { length into.old ≤ self.old.room → IfErr result (λ e. e ≢ BusRefusal.OutOfMemory) }
    {
        let count = into.len();
        if let Some(rule) = self.state.judge_outputs(ce, count) {
            return Err(BusRefusal::Forbidden(rule));
        }
        let left = self.room.saturating_sub(count);
        let Some(places) = count.checked_add(left + self.due) else {
            return Err(BusRefusal::OutOfMemory);
        };
        if self.trace.reserve(places).is_err() {
            return Err(BusRefusal::OutOfMemory);
        }
        copy_shown(&self.state, self.dies.as_slice(), ce, into);
        self.state.facts_fit();
        go_on_by_outputs(&mut self.state, ce, count);
        push_run(&mut self.trace, ce, Kind::Dout, into);
        self.room = left;
        Ok(())
    }

    /// A LUN becomes ready, with failures or without; false where it isn't there or isn't busy. It takes no memory.
    pub fn ready(&mut self, lun: Lun, fail: Failures) -> bool
        ensures came { result ≡ is_permitted self.old.geometry self.old.targets self.old.past (Rdy lun.ce lun.lun fail) }
        ensures yes { IsTrue result → IsNext self.old self.new (Rdy lun.ce lun.lun fail) }
        ensures no { result ≡ false → self.new ≡ self.old }
        ensures room { self.new.room ≡ self.old.room }
    {
        self.take_ready(Item::Rdy {
            ce: lun.ce,
            lun: lun.lun,
            fail,
        })
    }

    /// The array of a LUN becomes ready after a cache read, or after a cache program, which failed or not; false where the LUN isn't
    /// there or its array isn't busy. It takes no memory.
    pub fn array_ready(&mut self, lun: Lun, fail: bool) -> bool
        ensures came { result ≡ is_permitted self.old.geometry self.old.targets self.old.past (Ard lun.ce lun.lun fail) }
        ensures yes { IsTrue result → IsNext self.old self.new (Ard lun.ce lun.lun fail) }
        ensures no { result ≡ false → self.new ≡ self.old }
        ensures room { self.new.room ≡ self.old.room }
    {
        self.take_ready(Item::Ard {
            ce: lun.ce,
            lun: lun.lun,
            fail,
        })
    }

    // A ready comes, of a LUN or of its array; false where it isn't permitted. Its place in the trace is kept.
    fn take_ready(&mut self, ready: Item) -> bool
        requires { is_cycle ready ≡ false }
        ensures came { result ≡ is_permitted self.old.geometry self.old.targets self.old.past ready }
        ensures yes { IsTrue result → IsNext self.old self.new ready }
        ensures no { result ≡ false → self.new ≡ self.old }
        ensures room { self.new.room ≡ self.old.room }
    {
        if self.state.judge(ready).is_some() {
            return false;
        }
        end_work(&self.state, self.dies.as_mut_slice(), ready);
        self.due = go_on(&mut self.state, ready, self.due);
        self.trace.push_reserved(ready);
        true
    }

    /// Keeps places for so many cycles to come: the next `count` that start no work meet no want of memory, whatever cycles that start
    /// work come between. Places that were kept before stay. Without memory for that all stays as it was.
    pub fn reserve(&mut self, count: usize) -> Result<(), AllocError>
        ensures ok { IfOk result (λ _. (channel_of self.new ≡ channel_of self.old) × (self.new.past ≡ self.old.past)
            × (count ≤ self.new.room)
            × (self.old.room ≤ self.new.room)) }
        ensures err { IfErr result (λ _. self.new ≡ self.old) }
    {
        let room = self.room.max(count);
        let Some(places) = room.checked_add(self.due) else {
            return Err(AllocError);
        };
        self.trace.reserve(places)?;
        self.room = room;
        Ok(())
    }

    // What is left of it: its dies.
    fn left(self) -> Vec<LunDie<A>, A>
        ensures count { length result.items ≡ self.targets * self.geometry.luns }
        ensures dies { StandFor (channel_of self) self.past result.items }
    {
        let Bus { dies, .. } = self;
        dies
    }

    /// The dies, as the trace has left them.
    pub fn into_dies(self) -> Vec<LunDie<A>, A>
        ensures count { length result.items ≡ self.targets * self.geometry.luns }
        ensures dies { StandFor (channel_of self) self.past result.items }
    {
        self.left()
    }
}
