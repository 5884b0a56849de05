//! What a run is asked for.

use nand_geometry::Profile;
use trace_files::TraceOutputs;
use trace_timing::TimingMode;

/// How many words the programs of a run may step at most, all together, where the command line doesn't say: they take about a quarter of an hour.
pub const MOST_STEPS: u64 = 10_000_000_000;

/// What a run is asked for.
#[derive(Clone, Copy, Debug, PartialEq, Eq)]
pub struct RunRequest<'a> {
    /// The run file.
    pub path: &'a str,
    /// The profile for which its parameter page is read.
    pub profile: Profile,
    /// How many words the programs of its jobs may step at most, all together; the greatest number of 64 bits is no limit.
    pub max_steps: u64,
    /// How many workers run the channel, 1 to 8.
    pub workers: u8,
    /// Whether the trace isn't printed.
    pub is_quiet: bool,
    /// The timing mode by which the items of the trace have times, if they have.
    pub times: Option<TimingMode>,
    /// The files of the trace.
    pub trace: TraceOutputs<'a>,
    /// Whether standard error tells what there was.
    pub has_stats: bool,
}
