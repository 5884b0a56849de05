//! The channel under its lock, and the loop of a worker.
ghost use Rattle.std.specs.Prelude.{◌≡◌, ◌<◌, ⊤, IsTrue};
ghost use Rattle.channel_work.specs.State.{HasTurnedOn};
ghost use Rattle.channel_work.specs.declared.worker.Cause.TheVariants.{Quiet};

use crate::channel_state::ChannelState;
use crate::finished::Finished;
use crate::readied::Readied;
use crate::start::Started;
use crate::tally::find_lun;
use crate::turn::Turn;
use crate::worker_pass::{Turns, WorkerPass};
use lun_lease::{Lease, Loaded};
use nand_geometry::Geometry;
use onfi_cycle::{Command, Failures, Lun};
use std::sync::{Mutex, Wait};
use std::thread;

/// The state of a channel under its lock.
#[derive(Drop)]
pub struct Channel<L: Turns> {
    geometry: Geometry,
    state: Mutex<ChannelState<L>>,
}

impl<L: Turns> Channel<L> {
    /// Puts a state under a lock.
    pub fn new(state: ChannelState<L>) -> Channel<L> {
        Channel {
            geometry: state.geometry(),
            state: Mutex::new(state),
        }
    }

    /// Gives the state back.
    pub fn into_state(self) -> ChannelState<L> {
        let Channel { geometry: _, state } = self;
        state.into_inner()
    }
}

/// What a worker asks of its surroundings.
pub trait Gate {
    /// Whether this worker may take a turn now.
    fn may_turn(&self, worker: u32) -> bool;

    /// Whether the LUN became ready after so many busy polls since its last ready, and so many readies; if so, with which failures.
    fn ready(&self, lun: Lun, busy_polls: u64, works: u64) -> Option<Failures>;

    /// The same, where it is known with which command the LUN began its work. A gate to which that doesn't matter leaves this as it is.
    fn ready_after(
        &self,
        _begun: Option<Command>,
        lun: Lun,
        busy_polls: u64,
        works: u64,
    ) -> Option<Failures> {
        self.ready(lun, busy_polls, works)
    }

    /// Whether the array of the LUN became ready after so many readies; if so, whether with failure.
    fn array_ready(&self, lun: Lun, works: u64) -> Option<bool>;

    /// No more jobs come.
    ghost has_closed: { Self → Type 0 } = { λ _. ⊤ };

    /// Whether no more jobs come.
    fn closed(&self) -> bool
        ensures { IsTrue result → has_closed self.now };
}

/// Why a worker ended.
#[derive(Clone, Copy, Debug, PartialEq, Eq)]
pub enum Cause {
    /// No more jobs come, and there was nothing to do.
    Quiet,
    OutOfMemory,
}

/// A worker that has ended, with a lease that couldn't be parked.
#[derive(Drop)]
pub struct WorkEnd<L: Turns> {
    pub pass: WorkerPass<L>,
    pub lease: Option<Lease<Loaded>>,
    pub cause: Cause,
}

// What there is to do next.
#[derive(Drop)]
enum Next {
    Go(Lease<Loaded>),
    Nothing { took: bool },
    OutOfMemory,
}

// A job that is started, or else the oldest lease that is parked.
fn find_next<L: Turns, R: Wait>(rt: &R, channel: &Channel<L>) -> Next {
    let started = channel.state.lock(rt).start(rt);
    match started {
        Started::Loaded(lease) => Next::Go(lease),
        Started::OutOfMemory => Next::OutOfMemory,
        Started::Nothing { took } => {
            let parked = channel.state.lock(rt).unpark();
            match parked {
                Some(lease) => Next::Go(lease),
                None => Next::Nothing { took },
            }
        }
    }
}

// Parks a lease, which comes back where there is no room.
fn park<L: Turns, R: Wait>(
    rt: &R,
    channel: &Channel<L>,
    lease: Lease<Loaded>,
) -> Option<Lease<Loaded>> {
    channel.state.lock(rt).park(lease).err()
}

// How a worker went on with a lease: whether memory sufficed, and the lease where it couldn't be parked.
#[derive(Drop)]
struct WentOn {
    enough_memory: bool,
    unparked: Option<Lease<Loaded>>,
}

// Finishes the job of a lease, if it has ended.
fn finish<L: Turns, R: Wait>(rt: &R, channel: &Channel<L>, lease: Lease<Loaded>) -> WentOn {
    let finished = channel.state.lock(rt).finish(lease);
    match finished {
        Finished::NotEnded(lease) => WentOn {
            enough_memory: true,
            unparked: park(rt, channel, lease),
        },
        Finished::OutOfMemory(lease) => WentOn {
            enough_memory: false,
            unparked: park(rt, channel, lease),
        },
        Finished::Done(lease) => {
            let seat = lease.release();
            // A table has no more seats than have room here.
            let _full = channel.state.lock(rt).seat_back(seat);
            WentOn {
                enough_memory: true,
                unparked: None,
            }
        }
    }
}

// Asks the gate whether a LUN became ready, and tells whether memory sufficed.
fn ask_ready<L: Turns, G: Gate, R: Wait>(
    rt: &R,
    channel: &Channel<L>,
    gate: &G,
    number: u32,
    polls: u64,
    works: u64,
) -> bool
    requires { number < 16 }
{
    let lun = find_lun(&channel.geometry, number);
    let begun = channel.state.lock(rt).begun(number);
    match gate.ready_after(begun, lun, polls, works) {
        None => true,
        Some(fail) => channel.state.lock(rt).ready(lun, fail) != Readied::OutOfMemory,
    }
}

// Asks the gate whether the array of a LUN became ready, and tells whether memory sufficed.
fn ask_array_ready<L: Turns, G: Gate, R: Wait>(
    rt: &R,
    channel: &Channel<L>,
    gate: &G,
    number: u32,
) -> bool
    requires { number < 16 }
{
    let lun = find_lun(&channel.geometry, number);
    let works = channel.state.lock(rt).count(number).works;
    match gate.array_ready(lun, works) {
        None => true,
        Some(fail) => channel.state.lock(rt).array_ready(lun, fail) != Readied::OutOfMemory,
    }
}

// Goes on with a lease for one turn, if the gate gives one. The pass counts it.
#[tactic(auto, using(crate::proofs::Turning::turns_rise))]
fn go_on<L: Turns, G: Gate, R: Wait>(
    rt: &R,
    channel: &Channel<L>,
    gate: &G,
    pass: &mut WorkerPass<L>,
    lease: Lease<Loaded>,
) -> WentOn
    ensures { HasTurnedOn pass.old pass.new }
{
    if !gate.may_turn(pass.number()) {
        return WentOn {
            enough_memory: true,
            unparked: park(rt, channel, lease),
        };
    }
    let mut lease = lease;
    let number = lease.lun();
    let turn = channel.state.lock(rt).turn(pass, &mut lease);
    let enough_memory = match turn {
        Turn::Ended => return finish(rt, channel, lease),
        Turn::OutOfMemory => false,
        Turn::HandedOver => ask_array_ready(rt, channel, gate, number),
        Turn::NotReady { polls, works } => {
            ask_ready(rt, channel, gate, number, polls, works)
                && ask_array_ready(rt, channel, gate, number)
        }
        Turn::Held | Turn::Empty => true,
    };
    WentOn {
        enough_memory,
        unparked: park(rt, channel, lease),
    }
}

/// A worker: it starts jobs and goes on with those that are parked, until the gate is closed and nothing is left to do, or memory is
/// refused. Its pass comes back, with its turns.
pub fn work<L: Turns, G: Gate, R: Wait>(
    rt: &R,
    channel: &Channel<L>,
    gate: &G,
    pass: WorkerPass<L>,
) -> WorkEnd<L>
    ensures pass { HasTurnedOn pass result.pass }
    ensures quiet { result.cause ≡ Quiet → G.has_closed gate.now }
{
    let mut pass = pass;
    let mut kept: Option<Lease<Loaded>> = None;
    for _ in rt.forever() {
        let closed = gate.closed();
        let todo = match kept.take() {
            Some(lease) => Next::Go(lease),
            None => find_next(rt, channel),
        };
        match todo {
            Next::OutOfMemory => {
                return WorkEnd {
                    pass,
                    lease: None,
                    cause: Cause::OutOfMemory,
                };
            }
            Next::Nothing { took } => {
                if closed && !took {
                    return WorkEnd {
                        pass,
                        lease: None,
                        cause: Cause::Quiet,
                    };
                }
                thread::yield_now();
            }
            Next::Go(lease) => {
                let WentOn {
                    enough_memory,
                    unparked,
                } = go_on(rt, channel, gate, &mut pass, lease);
                if !enough_memory {
                    return WorkEnd {
                        pass,
                        lease: unparked,
                        cause: Cause::OutOfMemory,
                    };
                }
                kept = unparked;
            }
        }
    }
    unreachable!()
}
