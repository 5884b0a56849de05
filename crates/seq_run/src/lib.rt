//! Running a channel as a run file says: the hosts that store its jobs, the workers that run them, and what is written of it.
//!
//! [`run_on`] does a whole run; it reads and writes files by [`Files`](seq_files::Files) alone. First all is planned
//! ([`plan_run`](run_plan::plan_run)), then what was planned is run in threads, and what came of it is written last.
#![tactic(auto)]

mod counted_headers;
mod gate;
mod hosts;
mod job_ends;
mod phases;
mod request;
mod run_command;
mod run_name;
mod running;
mod summary;
mod timed_trace;
mod unmet_fails;
mod used_files;
mod workers;
mod writing;

pub use gate::RunGate;
pub use phases::{NoClock, Phase, RunProgress};
pub use request::{MOST_STEPS, RunRequest};
pub use run_command::{run_on, run_watched};
