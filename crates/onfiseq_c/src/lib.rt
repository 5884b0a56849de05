//! onfiseq for C (include/onfiseq.h): the parameter page of a chip, and the check of a channel's trace, whole or item by item.
//!
//! All that crosses is numbers, records of numbers and slices of them. A call asks nothing of its caller but what the types of its
//! arguments say, takes no memory, and keeps nothing: the state of a channel is a record in the caller's memory.
#![tactic(auto)]

mod abi;
mod bus;
mod check;
mod geometry;
mod look;
mod many;
mod operation;
mod pause;
mod status;
mod target;

pub use abi::{OnfiseqAbi, OnfiseqSample, onfiseq_make_sample, onfiseq_sizes};
pub use bus::{onfiseq_begin_sized, onfiseq_push};
pub use check::{OnfiseqAnswer, onfiseq_check};
pub use geometry::{OnfiseqPage, onfiseq_read_page};
pub use look::{onfiseq_ask, onfiseq_look_at};
pub use many::onfiseq_push_all;
pub use operation::{onfiseq_ask_op, onfiseq_push_op};
pub use pause::{OnfiseqLast, OnfiseqPauses, onfiseq_note, onfiseq_pauses_before};
pub use status::onfiseq_push_status;
pub use target::{onfiseq_begin_target, onfiseq_drop};
