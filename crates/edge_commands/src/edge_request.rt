//! What the edges of a capture are judged for.

use bus_capture::CaptureForm;
use nand_geometry::Profile;
use recording::{Targets, TimingSource};

/// What the edges of a capture are judged for. `-` as a path that is read is standard input.
#[derive(Clone, Copy, Debug, PartialEq, Eq)]
pub struct EdgeRequest<'a> {
    /// The parameter page of each die.
    pub page: &'a str,
    /// What the page is read for.
    pub profile: Profile,
    pub targets: Targets,
    /// The capture.
    pub input: &'a str,
    pub form: CaptureForm,
    /// What signals are, where their names don't tell: `ROLE=NAME`, with commas between several.
    pub mappings: Option<&'a str>,
    pub source: TimingSource<'a>,
    /// How many femtoseconds 1 of a time is, where the capture doesn't say it.
    pub unit: Option<u64>,
    /// By how many units a distance may be short.
    pub slack: u64,
    /// Whether each edge that comes too soon is told, and not the first alone.
    pub tells_all: bool,
}
