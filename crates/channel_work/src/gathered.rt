//! What the end of a channel hands back.

use crate::backlog::Backlog;
use crate::channel_state::ChannelState;
use crate::park::Park;
use crate::seats::Seats;
use crate::stored::NamedJob;
use crate::worker_pass::{Turns, WorkerPass};
use job_queue::Taker;
use seq_core::{Core, Job};

/// What is left of a channel once each pass is back.
#[derive(Drop)]
pub struct Gathered {
    pub core: Core,
    pub taker: Taker<Job>,
    pub done: Vec<NamedJob>,
    pub backlog: Backlog,
    pub seats: Seats,
    pub parked: Park,
    pub turns: u64,
}

/// A channel that isn't ended, since a pass is missing: all that was handed over, as it was.
#[derive(Drop)]
pub struct GatherRefused<L: Turns> {
    pub state: ChannelState<L>,
    pub passes: Vec<WorkerPass<L>>,
}
