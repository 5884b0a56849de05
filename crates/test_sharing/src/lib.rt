//! Leases of LUNs, and the queue of hosts. Only tests stand here.
#![tactic(auto)]

#[cfg(test)]
mod lease_tests;
#[cfg(test)]
mod queue_tests;
