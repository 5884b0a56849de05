//! Reading an input to its end.
ghost use Rattle.std.specs.Prelude.{◌≡◌, ◌++◌, List, ℕ, Ok, true, IfOk, OnOk, IfSome};
ghost use Rattle.std.specs.Io.KnownBytes.{Consumes, IsAtEnd};
ghost use Rattle.std.specs.IoError.{error_kind};
ghost use Rattle.seq_files.specs.Errors.{after_failure};

use crate::error::{FileError, FileFault};
use std::alloc::Allocator;
use std::io::{Error, ErrorKind, Read};

/// After so many reads without an end an input is a file fault.
const MOST_READS: usize = 1_048_576;

/// How many bytes a read asks for: few, so that an input without an end is given up before it has taken much memory.
const PIECE: usize = 512;

// What a failed read comes to: none has bytes, and one that a signal interrupts is tried again.
pub(crate) fn after_failure(error: &Error) -> Result<bool, FileError>
    ensures { result ≡ after_failure (error_kind error.now) }
{
    match error.kind() {
        ErrorKind::Interrupted => Ok(false),
        ErrorKind::OutOfMemory => Err(FileError::OutOfMemory),
        kind => Err(FileError::Fault(FileFault::of(kind))),
    }
}

// One read, whose bytes are added. Whether the input is at its end.
fn read_piece<A: Allocator, R: Read>(
    bytes: &mut Vec<u8, A>,
    input: &mut R,
) -> Result<bool, FileError>
    ensures more { OnOk result ((piece : List ℕ) × (bytes.new.items ≡ bytes.old.items ++ piece)
        × Consumes (R.remaining input.old) (R.remaining input.new) piece) }
    ensures end { result ≡ Ok true → IsAtEnd (R.remaining input.new) }
{
    let mut piece = [0; PIECE];
    match input.read(&mut piece) {
        Ok(n) => {
            bytes.extend_from_slice(&piece[..n])?;
            Ok(n == 0)
        }
        Err(error) => after_failure(&error),
    }
}

/// All bytes of an input. A read that a signal interrupts is tried again.
pub fn read_all<A: Allocator, R: Read>(alloc: A, input: &mut R) -> Result<Vec<u8, A>, FileError>
    ensures { IfOk result (λ bytes. IfSome (R.remaining input.old) (λ all. bytes.items ≡ all)) }
{
    read_sized(alloc, input, 0)
}

/// The same of an input that is known to have so many bytes. Their memory is asked for at once, and the input has as many reads more as they take.
pub fn read_sized<A: Allocator, R: Read>(
    alloc: A,
    input: &mut R,
    length: usize,
) -> Result<Vec<u8, A>, FileError>
    ensures { IfOk result (λ bytes. IfSome (R.remaining input.old) (λ all. bytes.items ≡ all)) }
{
    let mut bytes = Vec::with_capacity(alloc, length)?;
    for _ in 0..MOST_READS + length / PIECE {
        if read_piece(&mut bytes, input)? {
            return Ok(bytes);
        }
    }
    Err(FileError::Fault(FileFault::NoEnd))
}
