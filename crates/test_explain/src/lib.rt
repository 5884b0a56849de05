//! What is told of refused microprograms, and what is noted of accepted ones, beside what `tools/cases` shows. Only tests stand here.
#![tactic(auto)]

#[cfg(test)]
mod found_run_tests;
#[cfg(test)]
mod notes;
#[cfg(test)]
mod rule_tests;
#[cfg(test)]
mod table;
