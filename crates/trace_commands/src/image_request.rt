//! What an image is asked for.

use onfi_cycle::Lun;
use recording::TraceRequest;
use trace_faults::Readies;

/// What an image is asked for.
#[derive(Clone, Copy, Debug, PartialEq, Eq)]
pub struct ImageRequest<'a> {
    pub trace: TraceRequest<'a>,
    pub readies: Readies,
    /// The LUN whose die is asked for.
    pub lun: Lun,
    /// Where the image is written to.
    pub output: &'a str,
    /// The image of what the die held at the beginning; without one it was erased.
    pub on: Option<&'a str>,
    /// Whether a page of which the trace has no program and no erase, and the image that is given nothing, is filled with its first whole read.
    pub fills_reads: bool,
}
