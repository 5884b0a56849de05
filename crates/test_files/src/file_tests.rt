ghost use Rattle.std.specs.Prelude.{◌≤◌, length};

use seq_files::{
    Clash, FileError, FileFault, Files, MapFiles, NewFile, NotWritten, SlowReader, SlowWriter, Use,
    UsedFile, find_clash, read_all, read_sized, write_text,
};
use std::alloc::Global;
use std::io::{self, Read};
use std::process::Abort;
use std::test::Fail;

fn expect(
    rt: &(impl Abort + AllocGlobal),
    files: &mut MapFiles,
    path: &str,
    want: Result<&[u8], FileError>,
) {
    match files.read(rt.alloc(), path) {
        Ok(bytes) => assert_eq!(rt; Ok(bytes.as_slice()), want),
        Err(error) => assert_eq!(rt; Err(error), want),
    }
}

#[test]
fn files_in_memory(rt: HostRuntime) -> Result<(), Fail> {
    let mut files = MapFiles::new(rt.alloc());
    expect(
        &rt,
        &mut files,
        "a",
        Err(FileError::Fault(FileFault::NotFound)),
    );
    files.put("a", b"one")?;
    assert_eq!(rt; files.write("b", b"two"), Ok(()));
    assert_eq!(rt; files.write("a", b"three"), Ok(()));
    expect(&rt, &mut files, "a", Ok(b"three".as_slice()));
    expect(&rt, &mut files, "b", Ok(b"two".as_slice()));
    assert_eq!(rt; files.calls(), 5);
    assert_eq!(rt; files.get("a"), Some(b"three".as_slice()));
    assert_eq!(rt; files.get("c"), None);
    Ok(())
}

// Writes two files at one path by one call: what stands before this place, and then what stands behind it.
fn write_twice(
    files: &mut MapFiles,
    path: &str,
    bytes: &[u8],
    place: usize,
) -> Result<(), NotWritten>
    requires { place ≤ length bytes.now }
{
    let (first, second) = bytes.split_at(place);
    files.write_all(&[
        NewFile { path, bytes: first },
        NewFile {
            path,
            bytes: second,
        },
    ])
}

#[test]
fn several_files_at_once(rt: HostRuntime) -> Result<(), Fail> {
    let mut files = MapFiles::new(rt.alloc());
    files.put("a", b"one")?;
    let error = FileError::Fault(FileFault::StorageFull);
    files.fail_at(1, error);
    let refused = write_twice(&mut files, "a", b"twothree", 3);
    assert_eq!(rt; refused, Err(NotWritten { file: 1, error }));
    expect(&rt, &mut files, "a", Ok(b"one".as_slice()));
    let written = write_twice(&mut files, "a", b"twothree", 3);
    assert_eq!(rt; written, Ok(()));
    assert_eq!(rt; files.calls(), 5);
    expect(&rt, &mut files, "a", Ok(b"three".as_slice()));
    Ok(())
}

#[test]
fn calls_that_fail(rt: HostRuntime) -> Result<(), Fail> {
    let mut files = MapFiles::new(rt.alloc());
    files.put("a", b"one")?;
    files.fail_at(1, FileError::OutOfMemory);
    expect(&rt, &mut files, "a", Ok(b"one".as_slice()));
    assert_eq!(rt; files.write("a", b"two"), Err(FileError::OutOfMemory));
    expect(&rt, &mut files, "a", Ok(b"one".as_slice()));
    files.fail_at(0, FileError::Fault(FileFault::PermissionDenied));
    assert_eq!(rt;
        files.write("b", b"two"),
        Err(FileError::Fault(FileFault::PermissionDenied))
    );
    assert_eq!(rt; files.write("b", b"two"), Ok(()));
    assert_eq!(rt; files.calls(), 2);
    Ok(())
}

#[test]
fn errors_are_told(rt: HostRuntime) -> Result<(), Fail> {
    for (error, words) in [
        (
            FileError::Fault(FileFault::Unknown),
            "it can't be read or written",
        ),
        (
            FileError::Fault(FileFault::NotText { at: 17 }),
            "it isn't UTF-8 text: the byte at offset 17 begins no character",
        ),
        (
            FileError::Fault(FileFault::NoEnd),
            "it has no end, or is a stream of more than 512 MiB",
        ),
        (FileError::ReaderGone, "nobody reads it any more"),
        (FileError::OutOfMemory, "out of memory"),
    ] {
        assert_eq!(rt; format!(in rt.alloc(); "{error}")?.as_str(), words);
    }
    Ok(())
}

const BYTES: [u8; 36] = [7; 36];

#[test]
fn inputs_are_read_whole(rt: HostRuntime) -> Result<(), Fail> {
    let long = vec![in rt.alloc(); 7u8; 10_000]?;
    let mut input = long.as_slice();
    let read = read_all(rt.alloc(), &mut input);
    assert_eq!(rt; read.map(|bytes| bytes.len()), Ok(10_000));
    let mut slow = SlowReader::new(&BYTES, 5, io::ErrorKind::Interrupted);
    let read = read_all(rt.alloc(), &mut slow);
    assert!(rt; read.is_ok_and(|bytes| bytes.as_slice() == BYTES.as_slice()));
    // 36 bytes, the call that was interrupted, and the end.
    assert_eq!(rt; slow.calls(), 38);
    Ok(())
}

#[test]
fn failed_reads(rt: HostRuntime) {
    for bad in 0..37 {
        for (kind, want) in [
            (io::ErrorKind::Other, FileError::Fault(FileFault::Unknown)),
            (
                io::ErrorKind::BrokenPipe,
                FileError::Fault(FileFault::Unknown),
            ),
            (io::ErrorKind::OutOfMemory, FileError::OutOfMemory),
        ] {
            let mut slow = SlowReader::new(&BYTES, bad, kind);
            let read = read_all(rt.alloc(), &mut slow);
            assert_eq!(rt; read.err(), Some(want), "call {bad}");
        }
    }
}

// Never at its end: it gives no bytes at all, and each read is interrupted.
#[derive(Drop)]
struct Endless {
    calls: u32,
}

impl Read for Endless {
    fn read(&mut self, _buf: &mut [u8]) -> io::Result<usize> {
        self.calls = self.calls.saturating_add(1);
        Err(io::Error::from(io::ErrorKind::Interrupted))
    }
}

#[test]
fn an_input_without_an_end(rt: HostRuntime) {
    let mut endless = Endless { calls: 0 };
    let read = read_all(rt.alloc(), &mut endless);
    assert_eq!(rt; read.err(), Some(FileError::Fault(FileFault::NoEnd)));
    assert_eq!(rt; endless.calls, 1_048_576);
    // As many reads more as the bytes take that are said to come.
    let mut endless = Endless { calls: 0 };
    let read = read_sized(rt.alloc(), &mut endless, 51_200);
    assert_eq!(rt; read.err(), Some(FileError::Fault(FileFault::NoEnd)));
    assert_eq!(rt; endless.calls, 1_048_676);
}

// What is said of its length changes nothing of what is read.
#[test]
fn inputs_of_a_length(rt: HostRuntime) {
    for length in [0, 1, 36, 37, 10_000] {
        let mut slow = SlowReader::new(&BYTES, 5, io::ErrorKind::Interrupted);
        let read = read_sized(rt.alloc(), &mut slow, length);
        assert!(rt; read.is_ok_and(|bytes| bytes.as_slice() == BYTES.as_slice()));
        assert_eq!(rt; slow.calls(), 38);
    }
    let mut input = BYTES.as_slice();
    let read = read_sized(rt.alloc(), &mut input, usize::MAX);
    assert_eq!(rt; read.err(), Some(FileError::OutOfMemory));
}

#[test]
fn failed_writes(rt: HostRuntime) {
    // Four writes and the flush.
    for bad in 0..5 {
        for (kind, want) in [
            (io::ErrorKind::Other, FileError::Fault(FileFault::Unknown)),
            (io::ErrorKind::BrokenPipe, FileError::ReaderGone),
            (io::ErrorKind::OutOfMemory, FileError::OutOfMemory),
        ] {
            let mut slow = SlowWriter::new(rt.alloc(), bad, kind);
            assert_eq!(rt;
                write_text(&mut slow, "ten bytes."),
                Err(want),
                "call {bad}"
            );
        }
    }
    let mut slow = SlowWriter::new(rt.alloc(), 2, io::ErrorKind::Interrupted);
    assert_eq!(rt; write_text(&mut slow, "ten bytes."), Ok(()));
    assert_eq!(rt; slow.bytes.as_slice(), b"ten bytes.".as_slice());
}

// A use of a file by its path.
const fn used(path: &str, usage: Use) -> UsedFile<'_> {
    UsedFile {
        path,
        usage,
        line: None,
    }
}

#[test]
fn files_that_would_be_lost(rt: HostRuntime) {
    let files = MapFiles::new(rt.alloc());
    let read = used("a", Use::Read);
    let (a, b) = (used("a", Use::Written), used("b", Use::Written));
    for (outputs, other, want) in [
        ([a, b], used("c", Use::Read), None),
        ([b, a], read, Some((a, read))),
        ([a, a], used("c", Use::Read), Some((a, a))),
    ] {
        let found = find_clash(rt.alloc(), &files, outputs.as_slice(), &[other, other]);
        let want = want.map(|(output, other)| Clash { output, other });
        assert_eq!(rt; found, Ok(want));
    }
    let found = find_clash(rt.alloc(), &files, &[], &[read, read]);
    assert_eq!(rt; found, Ok(None));
}
