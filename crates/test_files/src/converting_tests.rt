ghost use Rattle.std.specs.Prelude.{◌≡◌, ⊤};

use seq_files::{
    Convert, FileError, FileFault, Files, MapFiles, NotConverted, SlowReader, SlowWriter,
    convert_all,
};
use std::alloc::Allocator;
use std::io;
use std::test::Fail;

// Copies an input that has no byte 0, and a full stop behind it.
#[derive(Drop)]
struct Copier;

// Why an input isn't copied.
#[derive(Clone, Copy, Debug, PartialEq, Eq)]
enum NotCopied {
    HasZero,
    OutOfMemory,
}

impl Convert for Copier {
    ghost use Rattle.std.specs.Prelude.{◌≡◌, ⊤, ◌++◌, ◌∷◌, []};

    type Refusal = NotCopied;

    ghost is_ready = { λ _. ⊤ };

    ghost makes = { λ _ rest made. made ≡ rest ++ (46 ∷ []) };

    ghost refuses = { λ _ rest why. ⊤ };

    fn take<A: Allocator>(
        &mut self,
        piece: &[u8],
        output: &mut Vec<u8, A>,
    ) -> Result<(), NotCopied> {
        if piece.contains(&0) {
            return Err(NotCopied::HasZero);
        }
        match output.extend_from_slice(piece) {
            Ok(()) => Ok(()),
            Err(_) => Err(NotCopied::OutOfMemory),
        }
    }

    fn finish<A: Allocator>(&mut self, output: &mut Vec<u8, A>) -> Result<(), NotCopied> {
        match output.push(b'.') {
            Ok(()) => Ok(()),
            Err(_) => Err(NotCopied::OutOfMemory),
        }
    }
}

// It has more bytes than are read at once.
#[test]
fn a_file_of_another(rt: HostRuntime) -> Result<(), Fail> {
    let mut files = MapFiles::new(rt.alloc());
    let long = vec![in rt.alloc(); b'7'; 70_000]?;
    files.put("long", long.as_slice())?;
    let made = files.convert(rt.alloc(), "long", "made", &mut Copier);
    assert_eq!(rt; made, Ok(()));
    let bytes = files.get("made").unwrap_or(b"");
    assert_eq!(rt; bytes.len(), 70_001);
    assert!(rt; bytes.starts_with(long.as_slice()));
    assert!(rt; bytes.ends_with(b"7."));
    Ok(())
}

#[test]
fn what_is_refused_changes_nothing(rt: HostRuntime) -> Result<(), Fail> {
    let mut files = MapFiles::new(rt.alloc());
    files.put("zero", b"a\0")?;
    files.put("made", b"as it was")?;
    let made = files.convert(rt.alloc(), "zero", "made", &mut Copier);
    assert_eq!(rt; made, Err(NotConverted::Refused(NotCopied::HasZero)));
    assert!(rt;
        files
            .get("made")
            .is_some_and(|bytes| bytes == b"as it was".as_slice())
    );
    let missing = FileError::Fault(FileFault::NotFound);
    let made = files.convert(rt.alloc(), "none", "made", &mut Copier);
    assert_eq!(rt; made, Err(NotConverted::Input(missing)));
    assert!(rt;
        files
            .get("made")
            .is_some_and(|bytes| bytes == b"as it was".as_slice())
    );
    Ok(())
}

// A read is a call, and a write is.
#[test]
fn each_call_fails(rt: HostRuntime) -> Result<(), Fail> {
    let full = FileError::Fault(FileFault::StorageFull);
    for (call, want) in [
        (0, Err(NotConverted::Input(full))),
        (1, Err(NotConverted::Output(full))),
        (2, Ok(())),
    ] {
        let mut files = MapFiles::new(rt.alloc());
        files.put("a", b"one")?;
        files.fail_at(call, full);
        let made = files.convert(rt.alloc(), "a", "a", &mut Copier);
        assert_eq!(rt; made, want);
    }
    Ok(())
}

const BYTES: [u8; 36] = [7; 36];

// An input that gives a byte a call, and an output that takes three.
#[test]
fn slow_streams(rt: HostRuntime) {
    let mut input = SlowReader::new(&BYTES, 5, io::ErrorKind::Interrupted);
    let mut output = SlowWriter::new(rt.alloc(), 3, io::ErrorKind::Interrupted);
    let made = convert_all(rt.alloc(), &mut input, &mut output, &mut Copier);
    assert_eq!(rt; made, Ok(()));
    assert_eq!(rt; output.bytes.len(), 37);
    assert_eq!(rt; input.calls(), 38);
}

#[test]
fn streams_that_fail(rt: HostRuntime) {
    let unknown = FileError::Fault(FileFault::Unknown);
    let mut input = SlowReader::new(&BYTES, 36, io::ErrorKind::Other);
    let mut output = SlowWriter::new(rt.alloc(), 1_000, io::ErrorKind::Other);
    let made = convert_all(rt.alloc(), &mut input, &mut output, &mut Copier);
    assert_eq!(rt; made, Err(NotConverted::Input(unknown)));
    let mut input = SlowReader::new(&BYTES, 1_000, io::ErrorKind::Other);
    let mut output = SlowWriter::new(rt.alloc(), 36, io::ErrorKind::BrokenPipe);
    let made = convert_all(rt.alloc(), &mut input, &mut output, &mut Copier);
    assert_eq!(rt; made, Err(NotConverted::Output(FileError::ReaderGone)));
}
