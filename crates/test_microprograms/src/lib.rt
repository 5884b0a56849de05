//! Programs on a channel: each that the verifier accepts, by hand or of a generator, run by the sequencer on one LUN and among
//! others, with the buffers and images that come of it, and its trace checked. Only tests stand here, and worked examples of the definitions.
#![tactic(auto)]

#[cfg(test)]
mod assembly_tests;
#[cfg(test)]
mod cause_tests;
#[cfg(test)]
mod channel;
#[cfg(test)]
mod core_tests;
#[cfg(test)]
mod counter_tests;
pub mod laws;
#[cfg(test)]
mod live_run_tests;
#[cfg(test)]
mod live_tests;
#[cfg(test)]
mod noted_pins;
#[cfg(test)]
mod pause_tests;
#[cfg(test)]
mod plain_tests;
#[cfg(test)]
mod programs;
#[cfg(test)]
mod random_tests;
#[cfg(test)]
mod tests;
