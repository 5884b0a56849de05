//! The pauses that a datasheet asks for before a cycle on a bus (ONFI 4.x, Timing Parameters), by what came last on its target and whether a ready came since.
//!
//! The definitions stand in `specs/Pauses`. How long a pause is stands in the datasheet, or in the table of a timing mode; nothing is said of it here.
#![tactic(auto)]

mod pause;

pub use pause::{LastCycle, Pause, Pauses, pauses_before};
