//! How a command ends.
ghost use Rattle.std.specs.Prelude.{◌≡◌};
ghost use Rattle.seq_inputs.specs.Exits.{status};

use crate::refusal::Refusal;

/// How a command ends.
#[derive(Clone, Copy, Debug, PartialEq, Eq)]
pub enum Exit {
    /// It is done.
    Done,
    /// What was read is refused, which standard output says by its code, and standard error in words.
    Refused(Refusal),
    /// A file or a stream couldn't be read or written, which standard error says.
    FileFault,
    /// Nobody reads standard output any more.
    ReaderGone,
    /// The command line couldn't be read, which standard error says.
    Usage,
    /// The programs of a run may step more words than it allows, which standard error says.
    TooManySteps,
    /// Memory was refused, or a thread couldn't be started, which standard error says.
    OutOfMemory,
}

impl Exit {
    /// The status that the process ends with.
    pub fn status(self) -> u8
        ensures { result ≡ status self }
    {
        match self {
            Exit::Done => 0,
            Exit::Refused(_) => 1,
            Exit::FileFault | Exit::ReaderGone => 2,
            Exit::Usage => 3,
            Exit::TooManySteps | Exit::OutOfMemory => 4,
        }
    }
}
