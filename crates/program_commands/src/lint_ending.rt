//! How a lint ends.

use seq_inputs::Exit;

/// How a lint ends.
#[derive(Clone, Copy, Debug, PartialEq, Eq)]
pub enum LintEnding {
    /// As each command of the program may.
    Exit(Exit),
    /// The microprogram is accepted, and has a note that isn't to pass.
    Denied,
}
