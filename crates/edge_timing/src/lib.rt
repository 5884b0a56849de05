//! Whether the edges of a captured bus keep the times of a datasheet or of a timing mode (ONFI 4.x, Timing Parameters): pulses, setups, holds and pauses, each from
//! edge to edge.
//!
//! [`judge_edges`] goes over the levels of a capture, and tells what comes too soon ([`EdgeViolation`]), and how near it comes to each time ([`EdgeNearest`]).
//! The pauses between cycles are those of [`trace_timing`], which judges a trace by one time an item; here a strobe has the time of its fall besides.
#![tactic(auto)]

mod capture_edges;
mod capture_unit;
mod distance;
mod dump_unit;
mod edge;
mod edge_fault;
mod edge_times;
mod edge_timing;
mod edge_watch;
mod given;
mod held;
mod judge;
mod line;
mod moment;
mod since;
mod strobed;
mod target_edges;

pub use capture_edges::{Recorded, judge_edges};
pub use capture_unit::find_unit;
pub use distance::Distance;
pub use edge::Edge;
pub use edge_fault::EdgeFault;
pub use edge_times::EdgeTimes;
pub use edge_timing::EdgeTiming;
pub use edge_watch::{EdgeWatch, WatchStop};
pub use given::Given;
pub use held::Held;
pub use judge::{EdgeJudge, EdgeNearest, EdgeRuler, EdgeViolation};
pub use line::Line;
pub use moment::Moment;
pub use since::Since;
pub use strobed::Strobed;
pub use target_edges::TargetEdges;
