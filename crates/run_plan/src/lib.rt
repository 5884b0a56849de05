//! Planning a run: a run file and every file that it names are judged before the first cycle.
//!
//! [`plan_run`] gives the [`RunPlan`]: the dies with their images, the jobs of each host, how many words they step at most, after how many polls
//! work is over, and which readies fail.
#![tactic(auto)]

mod dies;
mod failing;
mod plan;
mod planning;
mod polls;
mod reading;
mod steps;

pub use dies::ChannelDies;
pub use failing::Failing;
pub use plan::{PlannedImage, PlannedJob, PlannedJobs, RunPlan, TargetJobs};
pub use planning::plan_run;
pub use polls::Polls;
