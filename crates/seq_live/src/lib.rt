//! The same sequencer on a real bus, whose chips answer what they answer.
//!
//! [`Live`] tells burst by burst what is to be done on the pins and takes what the chips answer. What it may answer is free, but for one thing: bytes that end a
//! `wait` are of a LUN that is ready. Where a poll says so, the sequencer notes a ready before it, so a chip that shows RDY truly is truthful. The definitions
//! stand in `specs/`: what happens on a real bus and what it leaves (`Event`, `After`), the laws (`Headline`), the bursts of a word (`Burst`), and what a call is
//! (`Kept`, `Calls`).
#![tactic(auto)]

mod begun;
mod burst;
pub mod laws;
mod live;
mod live_job;
mod moving;
mod out_of_turn;
mod pause;
mod pins;
mod playing;
mod run;
mod slot_steps;

pub use begun::Begun;
pub use burst::{Burst, Bursts, MAX_BURSTS, bursts_of, bursts_without_row, taken_by};
pub use live::{Live, StepGoingOn};
pub use live_job::{LiveJob, OnLun};
pub use out_of_turn::OutOfTurn;
pub use pause::LastOnTarget;
pub use pins::{Pins, step_on};
pub use playing::status_of;
pub use run::{RunEnd, RunLimits, run_live};
pub use slot_steps::is_poll;
