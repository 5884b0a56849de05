//! Commands on files in memory, each by its own function: files and outputs that fail, noise, and small heaps. What a command does, prints and
//! refuses is in `tools/cases`. Only tests stand here.
#![tactic(auto)]

#[cfg(test)]
mod command;
#[cfg(test)]
mod counter_tests;
#[cfg(test)]
mod fault_tests;
#[cfg(test)]
mod refusal_tests;
#[cfg(test)]
mod tests;
