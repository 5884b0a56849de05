//! What a call for C writes into a buffer of its caller, and what it tells of that (include/onfiseq.h).
#![tactic(auto)]

mod placed;

pub use placed::{OnfiseqPlaced, place, place_text, refused};
