//! Walking a text: whether each way through it is safe, found by what is known before each word.
//!
//! The definitions stand in `specs/`: the shape of a text (`Shape`), its fault (`Faults`), what may be found against it (`Verdicts`), and texts
//! with a certificate (`Certified`). [`examine`] looks at a whole text, [`examine_in`] does with a lent table, [`certify`] goes by claims that somebody else has found, and [`known_before`]
//! tells what is known before one word, [`fill_known`] before each. None takes memory:
//! what is known before each word stands in a table on the stack, with a place for each of the 1,024 words that a text may have, or in the lent one.
#![tactic(auto)]

mod certifying;
mod check;
mod claim_table;
mod examining;
mod following;
mod known;
pub mod laws;
mod lent;
mod looping;
mod proved;
mod search;
mod shape;

pub use certifying::{Claims, certify};
pub use examining::examine;
pub use known::{fill_known, known_before};
pub use lent::{Unexamined, examine_in, places_wanted};
pub use proved::faultless;
