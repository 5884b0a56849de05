//! A trace whose data are judged.

use crate::difference::Difference;
use die_model::LunDie;
use trace_faults::BrokenRule;

/// What has come of a trace on modelled dies.
#[derive(Drop)]
pub struct DataJudged {
    /// The outputs of known pages that differ from their dies.
    pub differences: Vec<Difference>,
    /// The first item that isn't permitted, if there is one: what comes after it isn't judged.
    pub stopped: Option<BrokenRule>,
    /// The dies, as the trace leaves them up to there.
    pub dies: Vec<LunDie>,
}
