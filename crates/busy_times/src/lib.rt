//! Work that takes longer than a datasheet or a timing mode allows (ONFI 4.x, Timing Parameters).
//!
//! [`find_overruns`] goes over the operations of a timed trace ([`trace_ops`]) and tells which of them was seen busy for too long, exactly as
//! `specs/Overruns` defines it. [`put_in_order`] puts what is told of a trace in the order of its items.
#![tactic(auto)]

mod bound;
mod order;
mod overrun;
mod shown;

pub use order::put_in_order;
pub use overrun::{BusyRuler, find_overruns};
