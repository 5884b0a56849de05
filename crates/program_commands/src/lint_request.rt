//! What a lint is asked for.

use crate::linting::LintOutput;
use crate::note_rules::NoteRules;
use seq_inputs::PageFile;

/// What a lint is asked for. `-` as a path is standard input.
#[derive(Clone, Copy, Debug, PartialEq, Eq)]
pub struct LintRequest<'a> {
    /// The parameter page of the die.
    pub page: PageFile<'a>,
    /// The microprogram, as a word file or an assembly text.
    pub input: &'a str,
    pub output: LintOutput,
    pub rules: NoteRules<'a>,
}
