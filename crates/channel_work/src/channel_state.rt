//! What lies under the lock of a channel.
ghost use Rattle.std.specs.Prelude.{◌≡◌, ◌≢◌, ◌+◌, ◌<◌, ◌++◌, ◌∷◌, [], Some, IfSome, IfNone, IfOk, IfErr, OnOk, IsOk, length, reverse, map, true};
ghost use Rattle.channel_work.specs.Counts.{count_of};
ghost use Rattle.channel_work.specs.State.{turns_of, TookTurn, IsFinished, IsReadied, IsArrayReadied};
ghost use Rattle.channel_work.specs.Done.{ended_of};
ghost use Rattle.channel_work.specs.Starting.{IsStart};
ghost use Rattle.onfi_cycle.specs.Permitted.{is_legal};
ghost use Rattle.channel_work.specs.Lawful.{IsLawful, WentWell};
ghost use Rattle.channel_work.specs.Origin.{IsFrom};
ghost use Rattle.target_bus.specs.Bus.{numbered};
ghost use Rattle.seq_core.specs.World.{fresh};
ghost use Rattle.seq_core.specs.Shows.{IsAt, channel_in};

use crate::finished::Finished;
use crate::gathered::{GatherRefused, Gathered};
use crate::history::{History, HistoryParts};
use crate::park::{MAX_PARKED, Park};
use crate::readied::Readied;
use crate::seats::Seats;
use crate::start::Started;
use crate::tally::LunCount;
use crate::turn::Turn;
use crate::worker_pass::{MAX_PASSES, Turns, WorkerPass};
use job_queue::Taker;
use lun_lease::{Lease, LeaseSeat, Loaded, SEATS};
use nand_geometry::Geometry;
use onfi_cycle::{Command, Failures, Item, Lun, MAX_CHANNEL_LUNS, starts_work};
use seq_core::{Core, Job};
use std::alloc::Global;
use std::marker::Model;
use std::sync::Wait;
use std::sync::ledger::{Blank, Share};

/// What lies under the lock of a channel.
#[derive(Drop)]
pub struct ChannelState<L: Turns> {
    history: History<L>,
    seats: Seats,
    parked: Park,
    passes: u32,
    // The command with which each LUN began work last, by its number.
    begun: [Option<Command>; MAX_CHANNEL_LUNS],
    own: Share<L>,
}

// The last command with which work begins among the items of a LUN's turn, and the one before them where none of them does.
fn find_begun(items: &[Item], before: Option<Command>) -> Option<Command> {
    let mut rest = items;
    'items: while let Some((last, front)) = rest.split_last() {
        if let Item::Cyc(cycle) = last {
            if starts_work(*last) {
                return Some(Command::of(cycle.byte));
            }
        }
        rest = front;
    }
    before
}

impl<L: Turns> Model for ChannelState<L> {
    ghost use Rattle.std.specs.Prelude.{◌≡◌, ◌+◌, ◌≤◌};
    ghost use Rattle.channel_work.specs.State.{StateView};

    ghost Value = { StateView };

    ghost view = { λ s. record { history = s.history; seats = s.seats; parked = s.parked; passes = s.passes } };

    ghost invariant = { λ s. (s.own.parts + s.passes ≡ L.all) × (s.own.amount ≡ 0) × (s.passes ≤ 8) };
}

impl<L: Turns> ChannelState<L> {
    /// A channel on which nothing has happened.
    pub fn new(
        alloc: Global,
        blank: Blank,
        core: Core,
        taker: Taker<Job>,
        seats: Seats,
    ) -> ChannelState<L>
        requires name { blank.name ≡ L.name }
        requires parts { (blank.parts ≡ L.parts) × (L.all ≡ L.parts) × (L.parts ≡ 9) }
        requires core { IsAt core (fresh (channel_in core)) }
        requires taker { taker.taken ≡ [] }
        requires from { IsFrom L.origin core taker }
        ensures core { result.history.core ≡ core }
        ensures taker { result.history.taker ≡ taker }
        ensures seats { (result.seats ≡ seats) × (result.parked ≡ []) × (result.passes ≡ 0) }
    {
        let (book, own) = blank.open::<L>();
        ChannelState {
            history: History::new(alloc, core, taker, book),
            seats,
            parked: Park::new(),
            passes: 0,
            begun: [None; MAX_CHANNEL_LUNS],
            own,
        }
    }

    /// What has happened on the channel, in the order of time. Its value is lawful: the trace is legal, and each program that was
    /// started is inside its buffer and its budget. It is of the channel and of the queue that it began with.
    pub fn trace(&self) -> &[Item]
        ensures lawful { IsLawful self.now.history }
        ensures well { WentWell self.now.history }
        ensures from { IsFrom L.origin self.now.history.core self.now.history.taker }
        ensures value { result.now ≡ reverse self.now.history.core.past }
        ensures legal { is_legal self.now.history.core.geometry self.now.history.core.targets self.now.history.core.past ≡ true }
    {
        self.history.trace()
    }

    /// A new pass, at most 8. Its number is how many were handed out before, so no two passes have the same.
    pub fn worker(&mut self) -> Option<WorkerPass<L>>
        requires { L.all ≡ 9 }
        ensures some { IfSome result (λ pass. (pass ≡ record { number = self.old.passes; turns = 0 }) × (self.old.passes < 8)
            × (self.new ≡ record self.old { passes = self.old.passes + 1 })) }
        ensures none { IfNone result ((self.old.passes ≡ 8) × (self.new ≡ self.old)) }
    {
        if self.passes == MAX_PASSES {
            return None;
        }
        let number = self.passes;
        let share = self.own.split_off(1, 0);
        self.passes += 1;
        Some(WorkerPass {
            number,
            turns: 0,
            share,
        })
    }

    /// Starts a job.
    pub fn start<R: Wait>(&mut self, rt: &R) -> Started
        ensures start { IsStart self.old.history self.old.seats result self.new.history self.new.seats }
        ensures same { self.new ≡ record self.old { history = self.new.history; seats = self.new.seats } }
    {
        self.history.start(rt, &mut self.seats)
    }

    /// The geometry of its LUNs.
    pub fn geometry(&self) -> Geometry
        ensures { result ≡ self.now.history.core.geometry }
    {
        self.history.geometry()
    }

    /// The LUN of a number.
    pub fn lun(&self, number: u32) -> Lun
        requires { number < 16 }
        ensures { result ≡ numbered self.now.history.core.geometry number }
    {
        self.history.lun(number)
    }

    /// What is counted of the LUN of a number: its busy polls since its last ready, and its readies.
    pub fn count(&self, number: u32) -> LunCount
        requires { number < 16 }
        ensures { result ≡ count_of self.now.history.core.geometry number self.now.history.core.past }
    {
        self.history.count(number)
    }

    /// The command with which the LUN of a number began work last; None where it never did. An opener stands for the address behind it.
    pub fn begun(&self, number: u32) -> Option<Command>
        requires { number < 16 }
    {
        self.begun[number as usize]
    }

    // Notes with which command the LUN of a number has begun work, in a turn of it that began at this place of the trace.
    fn note_begun(&mut self, number: u32, from: usize)
        requires { number < 16 }
        ensures { self.new ≡ self.old }
    {
        let place = number as usize;
        let trace = self.history.trace();
        let (_, turn) = trace.split_at(from.min(trace.len()));
        let begun = find_begun(turn, self.begun[place]);
        self.begun[place] = begun;
    }

    /// Steps of the lease's LUN until the first answer other than `Went`.
    pub fn turn(&mut self, pass: &mut WorkerPass<L>, lease: &mut Lease<Loaded>) -> Turn
        ensures turn { TookTurn self.old pass.old lease.old.lun result self.new pass.new }
        ensures lease { lease.new ≡ lease.old }
    {
        let number = lease.lun();
        let lun = self.history.lun(number);
        let before = self.history.turns();
        let from = self.history.trace().len();
        let answer = self.history.turn(&mut pass.share, lun);
        self.history.audit(&mut pass.share);
        pass.turns += self.history.turns() - before;
        self.note_begun(number, from);
        Turn::of(answer, self.history.count(number))
    }

    /// Parks a lease, which comes back where 8 are there.
    pub fn park(&mut self, lease: Lease<Loaded>) -> Result<(), Lease<Loaded>>
        ensures ok { OnOk result ((length self.old.parked < 8) × (self.new ≡ record self.old { parked = self.old.parked ++ lease ∷ [] })) }
        ensures err { IfErr result (λ back. (length self.old.parked ≡ 8) × (back ≡ lease) × (self.new ≡ self.old)) }
    {
        if self.parked.len() == MAX_PARKED {
            return Err(lease);
        }
        self.parked.push(lease);
        Ok(())
    }

    /// Takes the lease that was parked first.
    pub fn unpark(&mut self) -> Option<Lease<Loaded>>
        ensures some { IfSome result (λ lease. (self.old.parked ≡ lease ∷ self.new.parked)
            × (self.new ≡ record self.old { parked = self.new.parked })) }
        ensures none { IfNone result ((self.old.parked ≡ []) × (self.new ≡ self.old)) }
    {
        self.parked.take_first()
    }

    /// Gives a seat back, which comes back where 16 are there.
    pub fn seat_back(&mut self, seat: LeaseSeat) -> Option<LeaseSeat>
        ensures none { IfNone result ((length self.old.seats < 16) × (self.new ≡ record self.old { seats = self.old.seats ++ seat ∷ [] })) }
        ensures some { IfSome result (λ back. (length self.old.seats ≡ 16) × (back ≡ seat) × (self.new ≡ self.old)) }
    {
        if self.seats.len() == SEATS {
            return Some(seat);
        }
        self.seats.push(seat);
        None
    }

    /// A LUN becomes ready, with failures or without. `NotBusy`, with all as it was: it isn't there or isn't busy. `OutOfMemory`, with
    /// all as it was: it would become ready, and there is no memory to store that.
    pub fn ready(&mut self, lun: Lun, fail: Failures) -> Readied
        ensures ready { IsReadied self.old.history lun fail result self.new.history }
        ensures same { self.new ≡ record self.old { history = self.new.history } }
    {
        Readied::of(self.history.ready(lun, fail))
    }

    /// The array of a LUN becomes ready after a cache read. `NotBusy`, with all as it was: the LUN isn't there or its array isn't busy.
    /// `OutOfMemory`, with all as it was: it would become ready, and there is no memory to store that.
    pub fn array_ready(&mut self, lun: Lun, fail: bool) -> Readied
        ensures ready { IsArrayReadied self.old.history lun fail result self.new.history }
        ensures same { self.new ≡ record self.old { history = self.new.history } }
    {
        Readied::of(self.history.array_ready(lun, fail))
    }

    /// Unloads the job of a lease's LUN, if it has ended. `NotEnded`, with all as it was: it hasn't. `OutOfMemory`, with all as it was:
    /// it has, and there is no memory to store that.
    pub fn finish(&mut self, lease: Lease<Loaded>) -> Finished
        ensures finished { IsFinished self.old lease result self.new }
        ensures same { self.new ≡ record self.old { history = self.new.history } }
    {
        let lun = self.history.lun(lease.lun());
        match self.history.finish(lun) {
            None => Finished::OutOfMemory(lease),
            Some(true) => Finished::Done(lease.idle()),
            Some(false) => Finished::NotEnded(lease),
        }
    }

    /// Ends the channel, once each pass has come back, and tells how many turns there were. Fault K3, a pass is missing: all comes
    /// back as it was.
    pub fn gather(self, passes: Vec<WorkerPass<L>>) -> Result<Gathered, GatherRefused<L>>
        requires { L.all ≡ L.parts }
        ensures turns { IfOk result (λ r. (length passes.items ≡ self.passes) × (r.turns ≡ self.history.turns)
            × (r.turns ≡ turns_of passes.items)) }
        ensures parts { IfOk result (λ r. (r.core ≡ self.history.core) × (r.taker ≡ self.history.taker)
            × (map ended_of r.done.items ≡ self.history.done) × (r.backlog.items ≡ self.history.backlog) × (r.seats ≡ self.seats)
            × (r.parked ≡ self.parked)) }
        ensures from { IfOk result (λ r. IsFrom L.origin r.core r.taker) }
        ensures err { IfErr result (λ r. (length passes.items ≢ self.passes) × (r.state ≡ self) × (r.passes.items ≡ passes.items)) }
    {
        if passes.len() != self.passes as usize {
            return Err(GatherRefused {
                state: self,
                passes,
            });
        }
        let ChannelState {
            mut history,
            seats,
            parked,
            passes: _,
            begun: _,
            mut own,
        } = self;
        let turns = merge_passes(&mut history, &mut own, passes);
        history.audit(&mut own);
        let HistoryParts {
            core,
            taker,
            done,
            backlog,
        } = history.into_parts();
        Ok(Gathered {
            core,
            taker,
            done,
            backlog,
            seats,
            parked,
            turns,
        })
    }
}

// Takes passes into a share, and adds their turns up.
fn merge_passes<L: Turns>(
    history: &mut History<L>,
    own: &mut Share<L>,
    mut passes: Vec<WorkerPass<L>>,
) -> u64
    requires { own.old.amount ≡ 0 }
    ensures turns { result ≡ turns_of passes.items }
    ensures amount { own.new.amount ≡ turns_of passes.items }
    ensures parts { own.new.parts ≡ own.old.parts + length passes.items }
    ensures same { history.new ≡ history.old }
{
    // Its contract says that a sum of turns fits, whatever it is of.
    let _most = history.turns();
    let mut turns: u64 = 0;
    while let Some(pass) = passes.pop() {
        let WorkerPass {
            number: _,
            turns: more,
            share,
        } = pass;
        own.merge(share);
        history.audit(own);
        turns += more;
    }
    turns
}
