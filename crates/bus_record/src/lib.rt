//! The state of a channel as a record of numbers in the caller's memory, which the libraries for C share (include/onfiseq.h).
//!
//! [`begin`] makes one, [`push`] and [`push_item`] go on by an item, [`push_all`] by many, [`push_inputs`] and [`push_outputs`] by a run of data cycles at the cost of one.
//! [`ask`] and [`look_at_lun`] change
//! nothing.
#![tactic(auto)]

mod anew;
mod bus;
mod item;
mod look;
mod luns_change;
mod many;
mod operation;
mod run;
mod tail_change;
mod target_change;
mod target_effect;
mod trial;

pub use anew::{begin_target, drop_sequence};
pub use bus::{
    DAMAGED, NO_ITEM, OTHER_VERSION, OnfiseqBus, are_sound, begin, caches_programs, code_of,
    is_bus_at, is_sound_bus, is_wide, push, push_item, push_numbers, renew,
    sound_channels_are_taken,
};
pub use item::{OnfiseqItem, kind_of};
pub use look::{OnfiseqLook, ask, geometry_of, has_lun, look_at_lun, no_look};
pub use many::push_all;
pub use operation::{OnfiseqPart, OnfiseqSpot, ask_op, push_op};
pub use run::{push_inputs, push_outputs};
pub use target_record::{OnfiseqGeometry, OnfiseqLun, OnfiseqQueued, OnfiseqTarget};
pub use trial::{ask_poll, put_target, target_at, try_inputs, try_item, try_outputs, try_poll};
