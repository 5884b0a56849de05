//! What a parameter page is taken of.

use bus_capture::CaptureForm;

/// What a parameter page is taken of.
#[derive(Clone, Copy, Debug, PartialEq, Eq)]
pub enum PageSource<'a> {
    /// The text of a trace, with what people and analyzers add to its lines.
    Trace,
    /// A capture in this form, with what is said of its signals.
    Capture {
        form: CaptureForm,
        mappings: Option<&'a str>,
    },
}

/// The taking of a parameter page. `-` as a path is standard input.
#[derive(Clone, Copy, Debug, PartialEq, Eq)]
pub struct PageRequest<'a> {
    pub source: PageSource<'a>,
    /// The trace or the capture.
    pub input: &'a str,
    /// The vendor file whose sequences are left out, if there is one; `linux` is the one that is built in.
    pub vendor: Option<&'a str>,
    /// Where the page is written to.
    pub target: &'a str,
}
