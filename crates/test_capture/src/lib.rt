//! Captures: dumps and CSV in pieces, made traces that come back, and what is found of legal ones. Only tests stand here.
#![tactic(auto)]

#[cfg(test)]
mod csv_text_tests;
#[cfg(test)]
mod made_trace_tests;
#[cfg(test)]
mod middle_tests;
#[cfg(test)]
mod piece_tests;
#[cfg(test)]
mod reading;
#[cfg(test)]
mod unshown_tests;
#[cfg(test)]
mod worked_trace_tests;
