//! What microprograms mean, and what is promised of one that is verified.
//!
//! The definitions stand in `specs/`: the lines of a text with its loops written out (`Lines`), a job and its program in progress
//! (`Program`), the cycles of a word (`Moves`), what they make of a trace (`Played`), one step (`Step`), the promise that a program is safe
//! whatever else its channel does (`Safe`), all actions of a job as one list (`Actions`), and the places of a text with its loops (`Nested`,
//! `Places`). [`Verified`] is a text of which that promise is proved; how that is found is told nowhere here.
#![tactic(auto)]

mod commands;
pub mod laws;
mod lines;
mod status;
mod verified;

pub use commands::command_word;
pub use lines::{all_lead_on, continues_cache_read};
pub use status::is_ready_status;
pub use verified::Verified;
