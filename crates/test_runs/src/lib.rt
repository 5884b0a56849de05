//! Runs of channels as run files say, with files in memory: calls that fail, a made clock, and what is counted before a run. What a run prints,
//! writes and refuses is in `tools/cases`. Only tests stand here.
#![tactic(auto)]

#[cfg(test)]
mod buffer_tests;
#[cfg(test)]
mod fault_tests;
#[cfg(test)]
mod option_tests;
#[cfg(test)]
mod steps_tests;
#[cfg(test)]
mod tests;
