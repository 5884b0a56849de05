//! A bounded queue of jobs, from several hosts to one taker.
//!
//! Each host stores its jobs under numbers of its own, from 0, by a [`HostPass`]; a [`Taker`] takes them out, the
//! oldest first. However the threads run, of each host the jobs that were taken and then those that are queued are
//! the jobs that it stored, in order. The queue is generic in its job.
//!
//! [`JobQueue::submit`] and [`Taker::take`] may spin behind a thread that has stalled, so they take a handle with
//! `Wait`, and that they return is promised by none of their contracts.
#![tactic(auto)]

mod queue;
mod rule;

pub use queue::{CloseRefused, HostPass, JobQueue, Submitted, Taker, Tally};
pub use rule::QueuedJob;
