//! What can go wrong with a file or a stream.
ghost use Rattle.std.specs.Prelude.{◌≡◌};
ghost use Rattle.std.specs.IoError.{error_kind};
ghost use Rattle.seq_files.specs.Errors.{fault_of, error_of};
ghost use Rattle.seq_files.specs.declared.error.FileError.TheVariants.{OutOfMemory};

use std::alloc::{AllocError, AllocFailed};
use std::io::{Error, ErrorKind};
use thiserror::Error as Described;

/// What is wrong with a file or a stream.
#[derive(Clone, Copy, Debug, PartialEq, Eq, Described)]
pub enum FileFault {
    #[error("there is no such file")]
    NotFound,
    /// It is to be written, and its folder isn't there.
    #[error("there is no such folder to write it into")]
    NoFolder,
    #[error("permission denied")]
    PermissionDenied,
    #[error("it is a directory")]
    IsDirectory,
    #[error("a part of its path isn't a directory")]
    NotDirectory,
    #[error("no space left on the device")]
    StorageFull,
    #[error("the file system is read-only")]
    ReadOnly,
    /// Something stands there already that isn't ours to replace.
    #[error("something that has its name already can't be replaced")]
    AlreadyExists,
    /// It has no end, or none after 1,048,576 reads of 512 bytes, which are what is read of a stream.
    #[error("it has no end, or is a stream of more than 512 MiB")]
    NoEnd,
    /// It is to be a text, and the byte at this offset begins none of UTF-8.
    #[error("it isn't UTF-8 text: the byte at offset {at} begins no character")]
    NotText { at: usize },
    /// It is to be a text, and begins as a word file.
    #[error("it is a word file, where a text is wanted (`onfiseq dis` prints one as a text)")]
    WordFile,
    /// The system says no more of it that matters here.
    #[error("it can't be read or written")]
    Unknown,
}

impl FileFault {
    /// What is wrong where a read or a write fails so.
    pub(crate) fn of(kind: ErrorKind) -> FileFault
        ensures { result ≡ fault_of kind }
    {
        match kind {
            ErrorKind::NotFound => FileFault::NotFound,
            ErrorKind::PermissionDenied => FileFault::PermissionDenied,
            ErrorKind::IsADirectory => FileFault::IsDirectory,
            ErrorKind::NotADirectory => FileFault::NotDirectory,
            ErrorKind::StorageFull => FileFault::StorageFull,
            ErrorKind::ReadOnlyFilesystem => FileFault::ReadOnly,
            ErrorKind::AlreadyExists => FileFault::AlreadyExists,
            _ => FileFault::Unknown,
        }
    }
}

/// Why a file or a stream isn't read or written.
#[derive(Clone, Copy, Debug, PartialEq, Eq, Described)]
pub enum FileError {
    /// It can't be opened, a read or a write failed, or it has no end.
    #[error("{0}")]
    Fault(FileFault),
    /// It was written to, and nobody reads it any more.
    #[error("nobody reads it any more")]
    ReaderGone,
    /// Memory was refused.
    #[error("out of memory")]
    OutOfMemory,
}

impl FileError {
    /// What a failed read or write comes to.
    pub fn of(error: &Error) -> FileError
        ensures { result ≡ error_of (error_kind error.now) }
    {
        match error.kind() {
            ErrorKind::OutOfMemory => FileError::OutOfMemory,
            ErrorKind::BrokenPipe => FileError::ReaderGone,
            kind => FileError::Fault(FileFault::of(kind)),
        }
    }
}

impl From<Error> for FileError {
    fn from(error: Error) -> FileError
        ensures { result ≡ error_of (error_kind error) }
    {
        FileError::of(&error)
    }
}

impl From<AllocError> for FileError {
    fn from(_error: AllocError) -> FileError
        ensures { result ≡ FileError.OutOfMemory }
    {
        FileError::OutOfMemory
    }
}

impl<T: Drop> From<AllocFailed<T>> for FileError {
    ghost from_gives = { λ _ e. e ≡ OutOfMemory };

    fn from(_e: AllocFailed<T>) -> FileError {
        FileError::OutOfMemory
    }
}

/// Of several files this one, counted from 0, isn't written.
#[derive(Clone, Copy, Debug, PartialEq, Eq)]
pub struct NotWritten {
    pub file: usize,
    pub error: FileError,
}
