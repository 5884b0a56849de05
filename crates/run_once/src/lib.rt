//! The command that runs one program once: [`run_program`] takes a word file or an assembly text, verifies it, and runs it on a channel of one new die
//! until it ends.
#![tactic(auto)]

mod once;

pub use once::{once_on, run_program};
