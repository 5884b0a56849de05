//! The command that judges the edges of a capture: what it does to files, what it prints, and how it ends.
//!
//! [`time_capture`] reads a capture of a bus as `capture_trace` of `trace_commands` does, and tells which edges come too soon after others
//! ([`edge_timing`]).
#![tactic(auto)]

mod edge_reading;
mod edge_request;
mod edge_telling;
mod edge_words;
mod edges_judging;

pub use edge_request::EdgeRequest;
pub use edges_judging::time_capture;
