//! Calls with each of their requests for memory refused in turn, and calls that take no memory with all of them refused. Only tests
//! stand here.
#![tactic(auto)]

#[cfg(test)]
mod core_tests;
#[cfg(test)]
mod die_tests;
#[cfg(test)]
mod format_tests;
#[cfg(test)]
mod still_tests;
#[cfg(test)]
mod table_tests;
#[cfg(test)]
mod turns;
