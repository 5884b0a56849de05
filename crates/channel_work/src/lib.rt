//! The channel under its lock, and the workers that run its jobs.
//!
//! What lies under the lock is a [`ChannelState`]: the sequencer, the events that came to it, the jobs that were taken, and what
//! waits. Whenever the lock is taken it is lawful (`specs/Lawful`).
#![tactic(auto)]

mod backlog;
mod channel_state;
mod events;
mod finished;
mod gathered;
mod history;
mod park;
mod picks;
mod readied;
mod refusing;
mod seats;
mod start;
mod stored;
mod tally;
mod turn;
mod worker;
mod worker_pass;

pub use backlog::Backlog;
pub use channel_state::ChannelState;
pub use finished::Finished;
pub use gathered::{GatherRefused, Gathered};
pub use park::Park;
pub use readied::Readied;
pub use seats::Seats;
pub use start::Started;
pub use stored::{Name, NamedJob, Stored};
pub use tally::LunCount;
pub use turn::Turn;
pub use worker::{Cause, Channel, Gate, WorkEnd, work};
pub use worker_pass::{Turns, WorkerPass};
