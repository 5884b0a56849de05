//! Run files (docs/use/RUNFILES.md): what a run of a channel is to do, read line by line.
#![tactic(auto)]

mod advice;
mod bad_field;
mod bad_order;
mod fields;
mod line;
mod message;
mod name;
mod number;
mod operands;
mod order;
mod parsing;
mod polled;
mod refusal;
mod statement;
mod takes;
mod unknown_statement;

pub use message::RunMessage;
pub use parsing::{RunText, parse_run};
pub use polled::Polled;
pub use refusal::{RunFault, RunRefusal};
pub use statement::{Numbered, Statement};
