//! What happened on a bus: the operations of a trace.
//!
//! [`find_operations`] goes over a trace, judges each item ([`TraceJudge`](trace_faults::TraceJudge)), and puts it to the [`Operation`] that it belongs to: a read
//! with its data and its polls, an erase with the ready that ends it. It reads traces with faults, from the middle, without readies and with sequences outside of
//! the profile. The definition is `specs/Listing`.
#![tactic(auto)]

mod begins;
mod change;
mod ends;
mod judged;
mod judging;
pub mod laws;
mod listing;
mod looks;
mod names;
mod operation;
mod owner;
mod places;
mod role;
mod selects;

pub use listing::{Operations, find_operations};
pub use names::OperationName;
pub use operation::{Beginning, Ending, Operation};
