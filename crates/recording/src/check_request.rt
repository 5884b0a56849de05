//! What a check is asked for.

use crate::data_request::DataRequest;
use crate::times_request::TimesRequest;
use crate::trace_request::TraceRequest;
use seq_inputs::Style;
use trace_faults::{Beginning, Readies};
use trace_text::TraceForm;

/// What a check is asked for.
#[derive(Clone, Copy, Debug, PartialEq, Eq)]
pub struct CheckRequest<'a> {
    pub trace: TraceRequest<'a>,
    /// Whether all faults are told, or the first alone.
    pub tells_all: bool,
    pub readies: Readies,
    /// Whether a trace is done that is legal with LUNs taken for ready that nothing showed.
    pub assumes_ready: bool,
    /// Where the recording of the trace begins.
    pub beginning: Beginning,
    /// Whether status bytes that contradict the trace are said on standard error.
    pub judges_bytes: bool,
    /// Whether what the host surely didn't mean is said on standard error.
    pub has_notes: bool,
    /// By which times it is judged, if by any: its text is read in the recorded form then.
    pub times: Option<TimesRequest<'a>>,
    /// On which dies its data are judged, if they are.
    pub dies: Option<DataRequest<'a, 'a>>,
    /// How what is wrong is said on standard error.
    pub style: Style,
    /// Where the trace that is judged is written to.
    pub copy: Option<&'a str>,
}

impl CheckRequest<'_> {
    /// The form in which the text is read.
    pub fn form(self) -> TraceForm {
        match self.times {
            None => self.trace.form,
            Some(_) => TraceForm::Recorded,
        }
    }
}
