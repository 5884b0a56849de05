//! By what the times of a trace are judged.

use busy_times::BusyRuler;
use trace_timing::Ruler;

/// By what the times of a trace are judged.
#[derive(Clone, Copy, Debug, PartialEq, Eq)]
pub struct TimeRulers {
    /// The least times between cycles.
    pub least: Ruler,
    /// The most times of work.
    pub most: BusyRuler,
}
