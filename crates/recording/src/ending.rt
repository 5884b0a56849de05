//! How a command on a recording ends.
ghost use Rattle.std.specs.Prelude.{◌≡◌};
ghost use Rattle.recording.specs.Endings.{status};

use crate::recording_fault::RecordingFault;
use seq_inputs::Exit;

/// How a command on a trace or a capture ends.
#[derive(Clone, Copy, Debug, PartialEq, Eq)]
pub enum Ending {
    /// As each command of the program may.
    Exit(Exit),
    /// The trace or the capture has this fault, which standard output says by its code, and standard error in words.
    Faulty(RecordingFault),
    /// Done, with what isn't to pass: the trace is legal if the LUNs had become ready that nothing showed so, or a microprogram is accepted with a note that is
    /// denied. Standard output names each.
    Flagged,
}

impl Ending {
    /// The status that the process ends with.
    pub fn status(self) -> u8
        ensures { result ≡ status self }
    {
        match self {
            Ending::Exit(exit) => exit.status(),
            Ending::Faulty(_) => 1,
            Ending::Flagged => 5,
        }
    }
}
