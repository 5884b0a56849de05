//! What the host of a trace surely didn't mean, though each cycle may be permitted: [`find_host_notes`] finds it in the operations of the trace
//! ([`trace_ops`]).
#![tactic(auto)]

mod array_work;
mod finding;
mod history;
mod note;

pub use finding::find_host_notes;
pub use note::{HostNote, HostNoteAt};
