//! What the verifier tells of a text besides its word and its reason: its counter, the words walked, the text itself; made loops, and plain operations. Only tests stand here.
#![tactic(auto)]

#[cfg(test)]
mod counter_tests;
#[cfg(test)]
mod loop_tests;
#[cfg(test)]
mod plain_tests;
#[cfg(test)]
mod word_tests;
