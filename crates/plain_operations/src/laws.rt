//! The law of plain operations: the contract of a function that does nothing.

ghost use Rattle.plain_operations.specs.Lines.{LinesAreOperations, VerifiedLinesAreOperations};

/// Where a program of plain operations has come to its end alone on a target of one LUN, in a legal trace of the base profile, each operation whose sequence it
/// has sent has one line, in order, behind the lines that the target had: with its commands, its column and its row, and how many bytes it programs. These are
/// the first operations of its list, and after code 0 all of them.
pub fn lines_are_operations()
    ensures { LinesAreOperations }
{}

/// The same of a program that the verifier accepts, on a channel of its geometry: its trace is legal by that.
pub fn verified_lines_are_operations()
    ensures { VerifiedLinesAreOperations }
{}
