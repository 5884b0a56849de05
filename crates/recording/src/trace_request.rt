//! Which trace is read.

use crate::targets::Targets;
use nand_geometry::Profile;
use trace_text::TraceForm;

/// Which trace is read, and of which chips. `-` as a path is standard input.
#[derive(Clone, Copy, Debug, PartialEq, Eq)]
pub struct TraceRequest<'a> {
    /// The parameter page of each die.
    pub page: &'a str,
    /// What the page is read for.
    pub profile: Profile,
    pub targets: Targets,
    /// The text of the trace.
    pub input: &'a str,
    /// The form of the text.
    pub form: TraceForm,
    /// The vendor file whose sequences are passed over, if there is one; `linux` is the one that is built in.
    pub vendor: Option<&'a str>,
}
