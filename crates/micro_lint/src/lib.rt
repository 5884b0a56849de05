//! What the verifier accepts in a program, and its author surely didn't mean.
//!
//! [`lint`] goes through a text that is accepted for a geometry and gives its [`Note`]s, each with the word that it is of, with a code and with what
//! mends it. Nothing is claimed of how many there are. What a note says of the state of the LUN is known on every way that leads to its word, by
//! the claims of the search for a certificate (`facts`, from `micro_walk`); where the ways lead from a word is looked up in the order of the text
//! (`ways`), and which rows are programmed and erased on the one way that takes no branch (`row_walk`). [`least_header`] tells how little a
//! header may give.
#![tactic(auto)]

mod excess;
mod facts;
mod header;
mod idle_loop;
mod idle_poll;
mod least;
mod least_number;
mod linted;
mod linting;
mod misordered;
mod needs;
mod note;
mod programmed;
mod rewritten;
mod row_at;
mod row_walk;
mod status_read;
mod turning;
mod unchecked;
mod unreached;
mod ways;

pub use excess::Excess;
pub use header::Header;
pub use idle_loop::IdleLoop;
pub use idle_poll::IdlePoll;
pub use least::least_header;
pub use linting::lint;
pub use misordered::Misordered;
pub use note::Note;
pub use rewritten::Rewritten;
pub use row_at::RowAt;
pub use status_read::{StatusRead, Times};
pub use unchecked::{ArrayWork, BranchAt, Unchecked};
pub use unreached::{Unreached, WayOff};
