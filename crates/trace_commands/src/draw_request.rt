//! What a drawing is asked for.

use recording::TraceRequest;
use trace_files::DrawForm;

/// What a drawing is asked for.
#[derive(Clone, Copy, Debug, PartialEq, Eq)]
pub struct DrawRequest<'a> {
    pub form: DrawForm,
    pub trace: TraceRequest<'a>,
    /// Where the drawing is written to.
    pub target: &'a str,
}
