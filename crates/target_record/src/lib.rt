//! The state of a target as a record of numbers in the caller's memory: what the numbers stand for, what the rules say of an item by them, and what an effect leaves of a LUN.
//!
//! The definitions stand in `specs/`: what a record stands for (`Record`, `Geometry`), and the rules for the last address of a row (`Judging`).
#![tactic(auto)]

mod geometry;
mod judging;
mod lun_change;
mod record;
mod whole;

pub use geometry::OnfiseqGeometry;
pub use judging::{
    driver, is_caching, is_programming, is_shared, judge_address_of, judge_command_of,
    judge_input_of, judge_output_of, judge_there, output_column, queue_len, register_len,
    shows_data, wants_command,
};
pub use lun_change::{become_array_ready, become_ready, change};
pub use record::{
    NO_TARGET, OnfiseqHeld, OnfiseqLun, OnfiseqQueued, OnfiseqTarget, closer_of, flag, is_set,
    latch_code, latch_of, opening_of, record_of, register_of, tail_of,
};
pub use whole::{are_numbers, is_whole, whole_records_are_taken};
