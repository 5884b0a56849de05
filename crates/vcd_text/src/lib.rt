//! Value change dumps (IEEE 1364), read.
#![tactic(auto)]

mod body;
mod fault;
mod header;
mod reading;
mod scalar;
mod section;
mod timed;
mod tokens;
mod widths;
mod words;

pub use body::{Body, Event, Standing};
pub use fault::{DumpFault, HeaderRefusal, LineFault};
pub use header::Header;
pub use reading::{Dump, read_header};
pub use section::Variable;
pub use tokens::{Level, code_of, decimal, level_of};
pub use widths::Widths;
pub use words::{Word, Words, whole_len};
