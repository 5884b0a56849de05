//! Where a trace is to be written.

use crate::draw_form::DrawForm;

/// A drawing of a trace that is to be written.
#[derive(Clone, Copy, Debug, PartialEq, Eq)]
pub struct Drawing<'a> {
    pub form: DrawForm,
    pub path: &'a str,
}

/// The files that are to be written of a trace.
#[derive(Clone, Copy, Debug, PartialEq, Eq)]
pub struct TraceOutputs<'a> {
    /// For its text.
    pub text: Option<&'a str>,
    /// For its value change dump.
    pub wave: Option<&'a str>,
    pub drawing: Option<Drawing<'a>>,
}

impl TraceOutputs<'_> {
    /// Nothing is to be written.
    pub const NONE: TraceOutputs<'static> = TraceOutputs {
        text: None,
        wave: None,
        drawing: None,
    };
}
