//! The run of a refusal: what happens on a channel when a text that the verifier refuses is run all the same, up to the cycle that isn't permitted or the word
//! that may not come.
//!
//! The definitions stand in `specs/`: where a program stands (`Stand`), and what a run may come to and how it ends (`Course`). [`find_run`] searches for one; what it
//! finds is a run, and that it finds none promises nothing.
#![tactic(auto)]

mod bench;
mod choice;
mod course;
mod cycles;
mod loops;
mod options;
mod other_work;
mod plan;
mod search;
mod stand;
mod ways;
mod wrong;

pub use bench::Stop;
pub use choice::{Act, Choice};
pub use course::End;
pub use loops::{LoopTurn, Loops};
pub use other_work::OtherWork;
pub use search::{Found, Run, find_run};
pub use stand::Stand;
