//! What happened on a channel, and what it has of it: the sequencer, the events that came to it, and the jobs.
ghost use Rattle.std.specs.Prelude.{◌≡◌, ◌≢◌, ◌+◌, ◌-◌, ◌^◌, ◌<◌, ◌≤◌, ◌++◌, ◌∷◌, [], Some, IfSome, IfNone, length, set, slice_index, reverse, map, true};
ghost use Rattle.seq_core.specs.Event.{Ready, ArrayReady, Step};
ghost use Rattle.seq_core.specs.declared.stepped.Stepped.TheVariants.{Went};
ghost use Rattle.seq_core.specs.Reply.{ToReady, ToArrayReady, ToStep};
ghost use Rattle.seq_core.specs.Calls.{IsEvent, TellsBus};
ghost use Rattle.channel_work.specs.Coming.{IsComing};
ghost use Rattle.channel_work.specs.Counts.{count_of, AreCounts};
ghost use Rattle.channel_work.specs.Turns.{IsInTurn};
ghost use Rattle.channel_work.specs.Starting.{IsStart};
ghost use Rattle.channel_work.specs.Finished.{IsFinish};
ghost use Rattle.target_bus.specs.Bus.{numbered};
ghost use Rattle.seq_core.specs.World.{fresh};
ghost use Rattle.seq_core.specs.Shows.{IsAt, channel_in};
ghost use Rattle.onfi_cycle.specs.Permitted.{is_legal};
ghost use Rattle.channel_work.specs.Lawful.{IsLawful, WentWell};
ghost use Rattle.channel_work.specs.Origin.{IsFrom};
ghost use Rattle.channel_work.specs.Done.{ended_of};
ghost use Rattle.channel_work.specs.Turned.{IsBeside, TookSteps, IsTurn, TellsBusAfterTurn};
ghost use Rattle.channel_work.specs.declared.stored.Stored.TheVariants.{Step as WasStepped, Ready as BecameReady, ArrayReady as ArrayBecameReady};

use crate::backlog::Backlog;
use crate::events::EventLog;
use crate::picks::Picked;
use crate::refusing::{make_room_to_finish, refuse_array_ready, refuse_finish, refuse_ready};
use crate::seats::Seats;
use crate::start::{Started, load_one, make_room, take_one};
use crate::stored::{Name, NamedJob, Stored};
use crate::tally::{LunCount, count_luns, find_lun};
use crate::worker_pass::Turns;
use job_queue::Taker;
use nand_geometry::Geometry;
use onfi_cycle::{Failures, Item, Lun, MAX_CHANNEL_LUNS};
use seq_core::laws::fresh_is_lawful;
use seq_core::{Core, Job, Stepped};
use std::alloc::Global;
use std::marker::Model;
use std::sync::Wait;
use std::sync::ledger::{Book, Share};

/// The sequencer, the events that came to it, and the jobs.
#[derive(Drop)]
pub(crate) struct History<L: Turns> {
    core: Core,
    taker: Taker<Job>,
    events: EventLog,
    taken: Vec<Name>,
    started: Vec<Name>,
    backlog: Backlog,
    done: Vec<NamedJob>,
    counts: [LunCount; MAX_CHANNEL_LUNS],
    turns: u64,
    book: Book<L>,
}

/// The parts of a history that go on after its end.
#[derive(Drop)]
pub(crate) struct HistoryParts {
    pub(crate) core: Core,
    pub(crate) taker: Taker<Job>,
    pub(crate) done: Vec<NamedJob>,
    pub(crate) backlog: Backlog,
}

impl<L: Turns> Model for History<L> {
    ghost use Rattle.std.specs.Prelude.{◌≡◌, map};
    ghost use Rattle.channel_work.specs.Channel.{HistoryView};

    ghost Value = { HistoryView };

    ghost use Rattle.channel_work.specs.Lawful.{IsLawful};
    ghost use Rattle.channel_work.specs.Origin.{IsFrom};
    ghost use Rattle.channel_work.specs.Done.{ended_of};

    ghost view = { λ h. record { core = h.core; taker = h.taker; events = h.events.items; taken = h.taken.items; started = h.started.items; backlog = h.backlog.items; done = map ended_of h.done.items; counts = h.counts; turns = h.turns } };

    ghost invariant = { λ h. IsLawful (record { core = h.core; taker = h.taker; events = h.events.items; taken = h.taken.items; started = h.started.items; backlog = h.backlog.items; done = map ended_of h.done.items; counts = h.counts; turns = h.turns }) × (h.book.total ≡ h.turns) × IsFrom L.origin h.core h.taker };
}

impl<L: Turns> History<L> {
    /// A LUN becomes ready, with failures or without, and is stored so; false, with all as it was, where it isn't there or isn't
    /// busy. None, with all as it was, where it would become ready and there is no memory to store that.
    pub(crate) fn ready(&mut self, lun: Lun, fail: Failures) -> Option<bool>
        ensures { IsComing self.old (Ready lun fail) ToReady (BecameReady lun fail) result self.new }
    {
        match self.events.reserve() {
            Err(_) => refuse_ready(&self.core, lun, fail),
            Ok(()) => {
                let from = self.core.trace().len();
                let came = self.core.ready(lun, fail);
                if came {
                    self.counts = count_luns(self.counts, &self.core, from);
                    self.events.push_reserved(Stored::Ready(lun, fail));
                }
                Some(came)
            }
        }
    }

    /// The array of a LUN becomes ready, and is stored so; false, with all as it was, where it isn't there or isn't busy. None, with
    /// all as it was, where it would become ready and there is no memory to store that.
    pub(crate) fn array_ready(&mut self, lun: Lun, fail: bool) -> Option<bool>
        ensures { IsComing self.old (ArrayReady lun fail) ToArrayReady (ArrayBecameReady lun fail) result self.new }
    {
        match self.events.reserve() {
            Err(_) => refuse_array_ready(&self.core, lun, fail),
            Ok(()) => {
                let from = self.core.trace().len();
                let came = self.core.array_ready(lun, fail);
                if came {
                    self.counts = count_luns(self.counts, &self.core, from);
                    self.events.push_reserved(Stored::ArrayReady(lun, fail));
                }
                Some(came)
            }
        }
    }

    /// The first step of a turn, which counts in the share; None, with all as it was, without memory.
    pub(crate) fn begin_turn(&mut self, share: &mut Share<L>, lun: Lun) -> Option<Stepped>
        requires { 0 < share.old.parts }
        ensures some { IfSome result (λ answer. TookSteps self.old lun (answer ∷ []) self.new × (share.new.amount ≡ share.old.amount + 1)) }
        ensures parts { share.new.parts ≡ share.old.parts }
        ensures none { IfNone result ((self.new ≡ self.old) × (share.new.amount ≡ share.old.amount)) }
        ensures in_turn { IfSome result (λ _. IsInTurn lun self.old.turns (reverse self.new.events)) }
        ensures bus { IfSome result (λ answer. TellsBus answer self.new.core.holder lun) }
    {
        match self.events.reserve() {
            Err(_) => None,
            Ok(()) => {
                let from = self.core.trace().len();
                match self.core.step(lun) {
                    Err(_) => None,
                    Ok(answer) => {
                        self.counts = count_luns(self.counts, &self.core, from);
                        self.events.push_reserved(Stored::Step(lun, self.turns));
                        // Its contract says that they are few, so that the turns are too.
                        let _events = self.events.len();
                        self.turns += 1;
                        self.book.add(share, 1);
                        Some(answer)
                    }
                }
            }
        }
    }

    /// A further step of the turn of this number; None, with all as it was, without memory.
    pub(crate) fn go_on(&mut self, turn: u64, lun: Lun) -> Option<Stepped>
        requires in_turn { IsInTurn lun turn (reverse self.old.events) }
        ensures core { IfSome result (λ answer. IsEvent self.old.core (Step lun) (ToStep answer) self.new.core) }
        ensures events { IfSome result (λ answer. self.new.events ≡ self.old.events ++ WasStepped lun turn ∷ []) }
        ensures turns { self.new.turns ≡ self.old.turns }
        ensures beside { IsBeside self.old self.new }
        ensures none { IfNone result (self.new ≡ self.old) }
        ensures in_turn { IfSome result (λ _. IsInTurn lun turn (reverse self.new.events)) }
        ensures bus { IfSome result (λ answer. TellsBus answer self.new.core.holder lun) }
    {
        match self.events.reserve() {
            Err(_) => None,
            Ok(()) => {
                let from = self.core.trace().len();
                match self.core.step(lun) {
                    Err(_) => None,
                    Ok(answer) => {
                        self.counts = count_luns(self.counts, &self.core, from);
                        self.events.push_reserved(Stored::Step(lun, turn));
                        Some(answer)
                    }
                }
            }
        }
    }

    /// Steps a LUN until the first answer other than `Went`, and tells that; None, with the steps done, without memory.
    pub(crate) fn turn(&mut self, share: &mut Share<L>, lun: Lun) -> Option<Stepped>
        requires { 0 < share.old.parts }
        ensures turn { IsTurn self.old lun result self.new }
        ensures parts { share.new.parts ≡ share.old.parts }
        ensures counted { share.new.amount + self.old.turns ≡ share.old.amount + self.new.turns }
        ensures last { result ≢ Some Went }
        ensures bus { TellsBusAfterTurn self.old.core.holder result self.new.core.holder lun }
    {
        let turn = self.turns;
        match self.begin_turn(share, lun) {
            None => return None,
            Some(Stepped::Went) => {}
            Some(first) => return Some(first),
        }
        for _step in 0..u64::MAX {
            match self.go_on(turn, lun) {
                None => return None,
                Some(Stepped::Went) => {}
                Some(last) => return Some(last),
            }
        }
        None
    }

    /// Starts a job: takes one from the queue, if there is one, and loads the first of the backlog that may be started.
    pub(crate) fn start<R: Wait>(&mut self, rt: &R, seats: &mut Seats) -> Started
        ensures { IsStart self.old seats.old result self.new seats.new }
    {
        if !make_room(
            &mut self.events,
            &mut self.started,
            &mut self.taken,
            &mut self.backlog,
        ) {
            return Started::OutOfMemory;
        }
        let took = take_one(rt, &mut self.taker, &mut self.taken, &mut self.backlog);
        match seats.pop() {
            None => Started::Nothing { took },
            Some(seat) => match self.backlog.pick(&self.core, seat) {
                Picked::PicksNone(back) => {
                    seats.push(back);
                    Started::Nothing { took }
                }
                Picked::Picks(queued, lease) => {
                    load_one(&mut self.core, &mut self.events, &mut self.started, queued);
                    Started::Loaded(lease)
                }
            },
        }
    }

    /// Unloads the job of a LUN, under its name, and tells whether it had ended; false, with all as it was, where it hadn't. None, with
    /// all as it was, where it had and there is no memory to store that.
    pub(crate) fn finish(&mut self, lun: Lun) -> Option<bool>
        ensures { IsFinish self.old lun result self.new }
    {
        if !make_room_to_finish(&mut self.events, &mut self.done) {
            return refuse_finish(&self.core, lun);
        }
        let name = self.events.find_last_started(lun);
        match self.core.unload(lun) {
            Err(_) => Some(false),
            Ok(done) => match name {
                None => unreachable!(),
                Some(name) => {
                    self.events.push_reserved(Stored::Unload(lun));
                    self.done.push_reserved(NamedJob { name, done });
                    Some(true)
                }
            },
        }
    }

    /// The number of turns.
    pub(crate) fn turns(&self) -> u64
        ensures { result ≡ self.now.turns }
    {
        self.turns
    }

    /// How a share stands to the turns: it counts no more than there are, and all of them if it is whole.
    pub(crate) fn audit(&mut self, share: &mut Share<L>)
        ensures same { self.new ≡ self.old }
        ensures amount { share.new.amount ≡ share.old.amount }
        ensures parts { share.new.parts ≡ share.old.parts }
        ensures bound { share.old.amount ≤ self.old.turns }
        ensures whole { share.old.parts ≡ L.parts → share.old.amount ≡ self.old.turns }
    {
        self.book.audit(share);
    }

    /// The geometry of its LUNs.
    pub(crate) fn geometry(&self) -> Geometry
        ensures { result ≡ self.now.core.geometry }
    {
        self.core.geometry()
    }

    /// The LUN of a number.
    pub(crate) fn lun(&self, number: u32) -> Lun
        requires { number < 16 }
        ensures { result ≡ numbered self.now.core.geometry number }
    {
        find_lun(&self.core.geometry(), number)
    }

    /// What is counted of a LUN in the trace: its busy polls since its last ready, and its readies.
    pub(crate) fn count(&self, number: u32) -> LunCount
        requires { number < 16 }
        ensures { result ≡ count_of self.now.core.geometry number self.now.core.past }
    {
        self.counts[number as usize]
    }

    /// What has happened on a channel before anything has: the sequencer is fresh, and no job was taken.
    pub(crate) fn new(alloc: Global, core: Core, taker: Taker<Job>, book: Book<L>) -> History<L>
        requires core { IsAt core (fresh (channel_in core)) }
        requires taker { taker.taken ≡ [] }
        requires book { book.total ≡ 0 }
        requires from { IsFrom L.origin core taker }
        ensures core { result.core ≡ core }
        ensures taker { result.taker ≡ taker }
        ensures none { (result.events ≡ []) × (result.taken ≡ []) × (result.started ≡ []) × (result.backlog ≡ []) × (result.done ≡ [])
            × (result.turns ≡ 0) }
    {
        fresh_is_lawful();
        History {
            core,
            taker,
            events: EventLog::new(alloc),
            taken: Vec::new(alloc),
            started: Vec::new(alloc),
            backlog: Backlog::new(alloc),
            done: Vec::new(alloc),
            counts: [LunCount {
                stands: 0,
                polls: 0,
                works: 0,
            }; MAX_CHANNEL_LUNS],
            turns: 0,
            book,
        }
    }

    /// The parts that go on.
    pub(crate) fn into_parts(self) -> HistoryParts
        ensures parts { (result.core ≡ self.core) × (result.taker ≡ self.taker) × (map ended_of result.done.items ≡ self.done)
            × (result.backlog.items ≡ self.backlog) }
        ensures from { IsFrom L.origin result.core result.taker }
    {
        HistoryParts {
            core: self.core,
            taker: self.taker,
            done: self.done,
            backlog: self.backlog,
        }
    }

    /// What has happened on the channel, in the order of time. The history is lawful, its run goes well, and it is where it began.
    pub(crate) fn trace(&self) -> &[Item]
        ensures lawful { IsLawful self.now }
        ensures well { WentWell self.now }
        ensures from { IsFrom L.origin self.now.core self.now.taker }
        ensures value { result.now ≡ reverse self.now.core.past }
        ensures legal { is_legal self.now.core.geometry self.now.core.targets self.now.core.past ≡ true }
    {
        self.core.trace()
    }
}
