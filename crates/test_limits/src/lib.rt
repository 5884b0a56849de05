//! Queues and channels that go far: past a whole queue of jobs, with jobs that can't start, and what a gate is asked. A body that gives up before would
//! meet its contract. Only tests stand here.
#![tactic(auto)]

#[cfg(test)]
mod backlog_tests;
#[cfg(test)]
mod gate_tests;
#[cfg(test)]
mod queue_tests;
