//! onfiseq for C (include/onfiseq.h): assembly text to word files and back, what each code means in words, and why an item isn't permitted.
//!
//! It takes memory by `malloc`, `realloc` and `free` of the program that it is linked into, and gives all of it back before it returns. What it writes goes into
//! buffers of the caller.
#![tactic(auto)]

mod assembly;
mod explain;
mod failure;
mod trace;
mod words;

pub use assembly::{onfiseq_assemble, onfiseq_disassemble};
pub use explain::onfiseq_explain;
pub use failure::Failure;
pub use trace::{TraceFailure, onfiseq_trace};
pub use words::onfiseq_words;
