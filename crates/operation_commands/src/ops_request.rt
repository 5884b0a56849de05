//! What a list of operations is asked for.

use recording::TraceRequest;
use trace_faults::Beginning;

/// What a list for people has besides its lines.
#[derive(Clone, Copy, Debug, PartialEq, Eq)]
pub struct OpsText {
    /// Polls and returns to the data have lines of their own.
    pub has_polls: bool,
    /// The data stand beneath each line.
    pub has_bytes: bool,
    /// How many there are, and how long they took, stands behind the last line.
    pub has_summary: bool,
}

/// How operations are printed.
#[derive(Clone, Copy, Debug, PartialEq, Eq)]
pub enum OpsForm {
    Text(OpsText),
    /// A row of names, then a row an operation.
    Csv,
    /// An object a line, with its data or without.
    Json { has_bytes: bool },
}

/// Which operations are printed and counted; what is None lets all pass.
#[derive(Clone, Copy, Debug, PartialEq, Eq)]
pub struct OpsFilter<'a> {
    /// A chip enable and a LUN of it.
    pub lun: Option<(u8, u8)>,
    pub block: Option<u32>,
    /// Names with commas between.
    pub kinds: Option<&'a str>,
    /// The numbers of the first item and of the last.
    pub items: Option<(usize, usize)>,
    /// The least time and the most.
    pub from: Option<u64>,
    pub to: Option<u64>,
}

/// What a list of operations is asked for: of a trace whose text is in the recorded form.
#[derive(Clone, Copy, Debug, PartialEq, Eq)]
pub struct OpsRequest<'a> {
    pub trace: TraceRequest<'a>,
    /// Where the recording of the trace begins.
    pub beginning: Beginning,
    pub form: OpsForm,
    pub filter: OpsFilter<'a>,
}
