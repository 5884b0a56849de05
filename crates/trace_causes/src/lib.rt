//! Why an item of a trace isn't permitted, in words: one cause, with what the state of its target and its past tell.
//!
//! [`FaultyCycle`] has the cycle and its target, [`Cause`] is what it comes to, and [`BrokenInWords`] says it as `check` and the library for C do.
#![tactic(auto)]

mod broken;
mod cause;
mod faulty_cycle;
mod open_sequence;
mod target_look;
mod target_past;

pub use broken::BrokenInWords;
pub use cause::{Cause, CauseInLine, Columns, Half, RowPart, Undriven, Unwanted};
pub use faulty_cycle::FaultyCycle;
pub use open_sequence::{CommandAt, OpenSequence, Wanted, opener_of};
pub use target_look::{MOST_LUNS, TargetLook};
pub use target_past::TargetPast;
