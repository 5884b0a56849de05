//! What the tests of a channel share: jobs that erase, queues and hosts, channels of new dies, workers, and what came of them.
#![tactic(auto)]

mod erases;
mod queues;
mod states;
mod telling;
mod workers;

pub use erases::{Erase, FOUR_LUNS, ON_ONE, ON_ZERO, ONE, ONE_LUN, TWO_LUNS, ZERO, make_erase};
pub use queues::{TwoHosts, make_queue, make_wide_queue, submit, submit_erases};
pub use states::{gather, make_erasing, make_state, make_two_passes, start};
pub use telling::{Told, read_trace, tell_done};
pub use workers::{end_two, ended, run_alone, work_by_two};
