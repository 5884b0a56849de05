//! onfiseq for C (include/onfiseq.h): a trace as a picture, and the notes to a microprogram, for people.
//!
//! It takes memory by `malloc`, `realloc` and `free` of the program that it is linked into, or by what stands there in their place, and gives all of it back before
//! it returns. What it writes goes into buffers of the caller.
#![tactic(auto)]

mod failure;
mod notes;
mod picture;
mod trace;

pub use failure::Failure;
pub use notes::onfiseq_notes;
pub use picture::onfiseq_picture;
