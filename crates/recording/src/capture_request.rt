//! What a capture is read for.

use crate::targets::Targets;
use bus_capture::CaptureForm;
use nand_geometry::Profile;

/// What a capture is read for. `-` as a path is standard input.
#[derive(Clone, Copy, Debug, PartialEq, Eq)]
pub struct CaptureRequest<'a> {
    /// The parameter page of each die.
    pub page: &'a str,
    /// What the page is read for.
    pub profile: Profile,
    pub targets: Targets,
    /// The capture.
    pub input: &'a str,
    pub form: CaptureForm,
    /// Where the trace is written to, unless it is printed.
    pub target: Option<&'a str>,
    /// What signals are, where their names don't tell: `ROLE=NAME`, with commas between several, as `WE=P17,RE=P18`.
    pub mappings: Option<&'a str>,
    /// Whether the time of each item stands in front of it.
    pub has_times: bool,
    /// A strobe that changes again before so much time, in the capture's unit, is a fault; 0 where none is.
    pub glitch: u64,
    /// An output is taken so long behind the rise of RE#, in the capture's unit, or before a line changes that is none of DQ; None where it is taken as RE# rises.
    pub late: Option<u64>,
    /// The vendor file whose sequences are left out, if there is one; `linux` is the one that is built in.
    pub vendor: Option<&'a str>,
}
