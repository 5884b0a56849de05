//! The command that lists what happened on a bus: what it reads, what it prints, and how it ends.
//!
//! [`list_operations`] finds the operations of a trace ([`trace_ops`]) and prints a line for each ([`OpsRequest`] says which and how).
#![tactic(auto)]

mod busy;
mod data_lines;
mod fault_lines;
mod faults_found;
mod filter;
mod item_groups;
mod listed_trace;
mod op_line;
mod op_row;
mod operation_listing;
mod ops_request;
mod overlap;
mod place;
mod summary;

pub use operation_listing::list_operations;
pub use ops_request::{OpsFilter, OpsForm, OpsRequest, OpsText};
