//! Leases on the LUNs of one channel, claimed and given back by threads that never wait.
//!
//! A table has one word for each of 16 LUNs, which is 1 while somebody holds that LUN, and 16 seats. A seat claims one
//! LUN at a time, in one atomic step, and becomes a [`Lease`]; no two leases of one table name one LUN. No call
//! here takes a handle: none can block.
#![tactic(auto)]

pub mod laws;
mod lease;
mod rule;

pub use lease::{Claimed, Idle, Lease, LeaseSeat, LeaseTable, Loaded, SEATS};
pub use rule::Call;
