//! What a verification is asked for.

use seq_inputs::{PageFile, Style};
use trace_files::TraceOutputs;

/// What a verification is asked for. `-` as a path that is read is standard input.
#[derive(Clone, Copy, Debug, PartialEq, Eq)]
pub struct VerifyRequest<'a> {
    /// The parameter page of the chip.
    pub page: PageFile<'a>,
    /// The microprogram, as a word file or an assembly text.
    pub input: &'a str,
    /// The files that are wanted of the run of a refusal.
    pub counter: TraceOutputs<'a>,
    /// How many steps the search for that run may take.
    pub search: u64,
    /// The notes to a microprogram that is accepted aren't said.
    pub is_quiet: bool,
    /// How the words on the console's errors are written.
    pub style: Style,
}
