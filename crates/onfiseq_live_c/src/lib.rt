//! onfiseq for C (include/onfiseq.h): the sequencer on a channel's pins.
//!
//! A channel is a record in the caller's memory, and so is each job; the job's word file and the bytes that its outputs gave come in as slices at each call. A
//! call tells only bursts whose every cycle is permitted where it stands, whatever the records, the file and the chips say. It takes no memory and keeps
//! nothing.
#![tactic(auto)]

mod abi;
mod anew;
mod begin;
mod bursts;
mod due;
mod finish;
mod job;
pub mod laws;
mod live;
mod loops;
mod next;
mod stop;

pub use abi::{OnfiseqLiveAbi, OnfiseqLiveSample, onfiseq_live_make_sample, onfiseq_live_sizes};
pub use anew::onfiseq_live_begin_target;
pub use begin::onfiseq_job_begin;
pub use finish::{OnfiseqStep, onfiseq_job_finish};
pub use job::OnfiseqJob;
pub use live::{
    OnfiseqLive, onfiseq_live_array_ready, onfiseq_live_begin_sized, onfiseq_live_ready,
};
pub use loops::{OnfiseqLoop, OnfiseqLoops};
pub use next::{OnfiseqBurst, OnfiseqTurn, onfiseq_job_next};
pub use stop::Stop;
