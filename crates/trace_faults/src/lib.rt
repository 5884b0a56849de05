//! Every fault of a trace, and the readies that a recorded trace doesn't have.
//!
//! A trace that was recorded on a bus has more than one fault, and nobody wrote down when a LUN became ready. [`find_faults`] judges each item on what
//! those before it leave, permitted or not ([`TraceState::go_on`]), and tells each fault, a [`BrokenRule`]; [`find_not_shown`] tells what is permitted with a ready
//! that nothing showed, a [`NotShown`]; [`complete`] puts the readies before the status outputs that show them, and before the items that need them; and [`find_faults_from_middle`] judges what can be judged where the recording began in the middle. [`find_status_doubts`]
//! tells status bytes that contradict the trace. The definitions stand in `specs/`, with their laws ([`laws`]): the first fault is that of `trace_text`'s check, and a trace that
//! is completed is judged as that check would.
#![tactic(auto)]

mod beginning;
mod broken_rule;
mod completing;
mod denied;
mod finding;
mod judging;
mod known;
pub mod laws;
mod looks;
mod lun_known;
mod middle;
mod middle_faults;
mod outside;
mod outside_sequences;
mod readies;
mod recovery;
mod row_ahead;
mod shown_readies;
mod standing;
mod status_doubt;
mod trace_judge;
mod trace_state;
mod unshown;
mod verdict;
mod watching;

pub use beginning::Beginning;
pub use broken_rule::BrokenRule;
pub use completing::complete;
pub use finding::{find_faults, find_not_shown};
pub use judging::{JudgedTrace, find_outside, judge_trace};
pub use known::{AllKnown, Known};
pub use lun_known::LunKnown;
pub use middle_faults::{MiddleFaults, find_faults_from_middle};
pub use outside_sequences::OutsideSequence;
pub use readies::Readies;
pub use shown_readies::go_on_by_readies;
pub use standing::Standing;
pub use status_doubt::{DoubtedByte, StatusDoubt, find_status_doubts};
pub use trace_judge::TraceJudge;
pub use trace_state::TraceState;
pub use unshown::{NotShown, UnshownReady};
pub use verdict::Verdict;
pub use watching::TraceWatcher;
