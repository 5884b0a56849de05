//! Why a command isn't done.
ghost use Rattle.std.specs.Prelude.{◌≡◌};
ghost use Rattle.seq_inputs.specs.Exits.{IsUnwritten};
ghost use Rattle.seq_inputs.specs.Stops.{RefusesNothing, IsRefusal, stop_at, refusal_in, exit_of};

use crate::exit::Exit;
use crate::fault::Fault;
use crate::refusal::Refusal;
use crate::words::Words;
use seq_files::{FileError, FileFault};
use std::alloc::{AllocError, AllocFailed, Allocator, Global};

/// How many bytes the buffers of a run have at most, all together.
pub const MOST_BUFFER_BYTES: u64 = 4_294_967_296;

/// Why a command isn't done.
#[derive(Drop)]
pub enum Stop<'a, A: Allocator = Global> {
    /// What was read is refused; the words say it to a person, unless there was no memory for them.
    Refused {
        refusal: Refusal,
        words: Option<Words<'a, A>>,
    },
    /// What has this path can't be read or written, `-` for a stream, and the line of the run file that names it, if one does.
    FileFault {
        path: &'a str,
        fault: FileFault,
        line: Option<usize>,
    },
    /// Nobody reads the output any more.
    ReaderGone,
    /// With the job of this line of a run file the buffers have so many bytes, more than there may be.
    BuffersTooLarge {
        bytes: u64,
        line: Option<usize>,
    },
    /// Memory was refused, or a thread couldn't be started.
    OutOfMemory,
}

impl<'a, A: Allocator> Stop<'a, A> {
    /// What is refused, if something is.
    pub fn refusal(&self) -> Option<Refusal>
        ensures { result ≡ refusal_in self.now }
    {
        match self {
            Stop::Refused { refusal, .. } => Some(*refusal),
            Stop::FileFault { .. }
            | Stop::ReaderGone
            | Stop::BuffersTooLarge { .. }
            | Stop::OutOfMemory => None,
        }
    }

    /// How the command ends.
    pub fn exit(&self) -> Exit
        ensures { result ≡ exit_of self.now }
    {
        match self {
            Stop::Refused { refusal, .. } => Exit::Refused(*refusal),
            Stop::FileFault { .. } => Exit::FileFault,
            Stop::ReaderGone => Exit::ReaderGone,
            Stop::BuffersTooLarge { .. } | Stop::OutOfMemory => Exit::OutOfMemory,
        }
    }

    /// A file has this fault, which these words say.
    pub fn refused(fault: Fault, words: Option<Words<'a, A>>) -> Stop<'a, A>
        ensures { IsRefusal fault result }
    {
        Stop::Refused {
            refusal: Refusal { fault, line: None },
            words,
        }
    }

    /// What the error of a file comes to.
    pub fn of_file(path: &'a str, error: FileError) -> Stop<'a, A>
        ensures nothing { RefusesNothing result }
        ensures exit { IsUnwritten (exit_of result) }
    {
        match error {
            FileError::Fault(fault) => Stop::FileFault {
                path,
                fault,
                line: None,
            },
            FileError::ReaderGone => Stop::ReaderGone,
            FileError::OutOfMemory => Stop::OutOfMemory,
        }
    }

    /// The same where this line of a run file names the file.
    pub fn at(self, line: usize) -> Stop<'a, A>
        ensures { result ≡ stop_at self.entry line }
    {
        let line = Some(line);
        match self {
            Stop::Refused { refusal, words } => Stop::Refused {
                refusal: Refusal {
                    fault: refusal.fault,
                    line,
                },
                words,
            },
            Stop::FileFault { path, fault, .. } => Stop::FileFault { path, fault, line },
            Stop::ReaderGone => Stop::ReaderGone,
            Stop::BuffersTooLarge { bytes, .. } => Stop::BuffersTooLarge { bytes, line },
            Stop::OutOfMemory => Stop::OutOfMemory,
        }
    }
}

impl<'a, A: Allocator> From<AllocError> for Stop<'a, A> {
    ghost use Rattle.std.specs.Prelude.{◌≡◌};
    ghost use Rattle.seq_inputs.specs.declared.stop.Stop.TheVariants.{OutOfMemory};

    ghost from_gives = { λ _ stop. stop ≡ OutOfMemory };

    fn from(_error: AllocError) -> Stop<'a, A> {
        Stop::OutOfMemory
    }
}

impl<'a, A: Allocator, T: Drop> From<AllocFailed<T>> for Stop<'a, A> {
    ghost use Rattle.std.specs.Prelude.{◌≡◌};
    ghost use Rattle.seq_inputs.specs.declared.stop.Stop.TheVariants.{OutOfMemory};

    ghost from_gives = { λ _ stop. stop ≡ OutOfMemory };

    fn from(_error: AllocFailed<T>) -> Stop<'a, A> {
        Stop::OutOfMemory
    }
}
