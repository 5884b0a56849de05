// Runs of which a call, or a write to an output, fails.
use crate::tests::{
    Played, ask, files_of_run, has_played, is_right, make_image, none_is_wrong, play,
};
use seq_files::{FileError, FileFault, FullWriter, MapFiles};
use seq_inputs::{Console, Exit};
use seq_run::{RunRequest, run_on};
use std::alloc::{AllocError, Global};
use std::io;
use std::sync::Wait;
use std::test::Fail;
use std::thread::Threads;
use trace_files::{DrawForm, Drawing, TraceOutputs};
use trace_text::NoProgress;

// Two erases with a file for the buffer of each, and an image for each LUN.
const RUN: &str = "page two\ntargets 1\npolls 1\nimage 0 0 die0\nimage 0 1 die1\n\
    job 0 0 0 erase - out0\njob 0 1 0 erase - out1\n";

// What is read and then written, call by call, and the place in the run file of what is read.
const CALLS: &[(&str, &str)] = &[
    ("run", ""),
    ("two", "run:1: "),
    ("die0", "run:4: "),
    ("die1", "run:5: "),
    ("erase", "run:6: "),
    ("erase", "run:7: "),
    ("out0", ""),
    ("out1", ""),
    ("die0", ""),
    ("die1", ""),
    ("trace", ""),
    ("wave", ""),
    ("picture", ""),
];

// A file that is written, with its length before the run and after it.
struct Written {
    path: &'static str,
    before: usize,
    after: usize,
}

// In the order in which they are written. Each erase leaves an empty buffer and an empty die.
const WRITTEN: &[Written] = &[
    Written {
        path: "out0",
        before: 3,
        after: 0,
    },
    Written {
        path: "out1",
        before: 3,
        after: 0,
    },
    Written {
        path: "die0",
        before: 556,
        after: 24,
    },
    Written {
        path: "die1",
        before: 556,
        after: 24,
    },
    // 30 cycles and two readies.
    Written {
        path: "trace",
        before: 3,
        after: 226,
    },
];

// The files with the same bytes before a run.
const OLD: &[&str] = &["out0", "out1", "trace", "wave", "picture"];

// The files before the run, each of those that are written with bytes of its own.
fn make_old(alloc: Global) -> Result<MapFiles, Fail> {
    let image = make_image(alloc, 0, &[0xa5])?;
    let mut files = files_of_run(alloc, RUN.as_bytes())?;
    files.put("die0", image.as_slice())?;
    files.put("die1", image.as_slice())?;
    for path in OLD {
        files.put(path, b"old")?;
    }
    Ok(files)
}

// A run by one worker which writes the trace too, its waveform and its picture.
fn ask_trace() -> RunRequest<'static> {
    RunRequest {
        trace: TraceOutputs {
            text: Some("trace"),
            wave: Some("wave"),
            drawing: Some(Drawing {
                form: DrawForm::Picture,
                path: "picture",
            }),
        },
        ..ask(1)
    }
}

// A file is drawn, or is as it was.
fn is_drawn(files: &MapFiles, path: &str, first: &[u8], is_done: bool) -> bool {
    let wanted = if is_done { first } else { b"old".as_slice() };
    files.get(path).unwrap_or(b"").starts_with(wanted)
}

// A file is as long as it should be.
fn has_length(files: &MapFiles, file: &Written, is_done: bool) -> bool {
    let length = if is_done { file.after } else { file.before };
    match files.get(file.path) {
        Some(bytes) => bytes.len() == length,
        None => false,
    }
}

// All files are written, or all are as they were.
fn is_written(files: &MapFiles, is_done: bool) -> bool {
    for file in WRITTEN {
        if !has_length(files, file, is_done) {
            return false;
        }
    }
    is_drawn(files, "wave", b"$", is_done) && is_drawn(files, "picture", b"<svg", is_done)
}

// Whether a run in which this call fails so ends so, and says this; that call is the last, and nothing is printed or written.
fn fails_so<R: Threads + Wait + Sync + AllocGlobal>(
    rt: &R,
    call: usize,
    error: FileError,
    end: Exit,
    said: &str,
) -> Result<bool, Fail> {
    let mut files = make_old(rt.alloc())?;
    files.fail_at(call, error);
    let played = play(rt, &mut files, ask_trace());
    let is_last = files.calls() == call.saturating_add(1);
    Ok(is_last && has_played(&played, end, "", said) && is_written(&files, false))
}

// What is said of a file that can't be read or written.
fn write_fault(alloc: Global, path: &str, line: &str) -> Result<String, AllocError> {
    format!(in alloc; "file fault {path}\n{line}{path}: permission denied\n")
}

// The place of the first call that fails otherwise.
fn first_other_fault<R: Threads + Wait + Sync + AllocGlobal>(
    rt: &R,
) -> Result<Option<usize>, Fail> {
    let denied = FileError::Fault(FileFault::PermissionDenied);
    for (call, (path, line)) in CALLS.iter().enumerate() {
        let said = write_fault(rt.alloc(), path, line)?;
        if !fails_so(rt, call, denied, Exit::FileFault, said.as_str())? {
            return Ok(Some(call));
        }
    }
    Ok(None)
}

#[test]
fn each_call_fails(rt: HostRuntime) -> Result<(), Fail> {
    none_is_wrong(first_other_fault(&rt)?)
}

// The place of the first call that is refused memory otherwise.
fn first_other_shortage<R: Threads + Wait + Sync + AllocGlobal>(
    rt: &R,
) -> Result<Option<usize>, Fail> {
    let error = FileError::OutOfMemory;
    for call in 0..CALLS.len() {
        if !fails_so(rt, call, error, Exit::OutOfMemory, "out of memory\n")? {
            return Ok(Some(call));
        }
    }
    Ok(None)
}

#[test]
fn each_call_is_refused_memory(rt: HostRuntime) -> Result<(), Fail> {
    none_is_wrong(first_other_shortage(&rt)?)
}

#[test]
fn no_call_fails(rt: HostRuntime) -> Result<(), Fail> {
    let mut files = make_old(rt.alloc())?;
    files.fail_at(CALLS.len(), FileError::Fault(FileFault::PermissionDenied));
    let played = play(&rt, &mut files, ask_trace());
    is_right(
        played.end == Exit::Done
            && files.calls() == CALLS.len()
            && is_written(&files, true)
            && played.output.len() == 226 + 24,
    )
}

// How a run ends whose standard output is full, and what standard error says.
fn play_full<R: Threads + Wait + Sync + AllocGlobal>(
    rt: &R,
    files: &mut MapFiles,
    kind: io::ErrorKind,
) -> Played {
    let mut console = Console {
        output: FullWriter { room: 9, kind },
        errors: Vec::new(rt.alloc()),
        progress: NoProgress,
    };
    let end = run_on(rt, rt.alloc(), files, &mut console, ask_trace());
    Played {
        end,
        output: Vec::new(rt.alloc()),
        errors: console.errors,
    }
}

// How an output fails, how a run ends then, and what is said.
type Failure = (io::ErrorKind, Exit, &'static str);

const FAILURES: &[Failure] = &[
    (
        io::ErrorKind::StorageFull,
        Exit::FileFault,
        "file fault -\n-: no space left on the device\n",
    ),
    (io::ErrorKind::BrokenPipe, Exit::ReaderGone, ""),
    (
        io::ErrorKind::OutOfMemory,
        Exit::OutOfMemory,
        "out of memory\n",
    ),
];

// Whether a run ends so, with all files written.
fn is_full<R: Threads + Wait + Sync + AllocGlobal>(
    rt: &R,
    (kind, end, said): Failure,
) -> Result<bool, Fail> {
    let mut files = make_old(rt.alloc())?;
    let played = play_full(rt, &mut files, kind);
    Ok(has_played(&played, end, "", said) && is_written(&files, true))
}

// The place of the first failure with which something else happens.
fn first_other_failure<R: Threads + Wait + Sync + AllocGlobal>(
    rt: &R,
) -> Result<Option<usize>, Fail> {
    for (place, failure) in FAILURES.iter().enumerate() {
        if !is_full(rt, *failure)? {
            return Ok(Some(place));
        }
    }
    Ok(None)
}

// The files are written before anything is printed.
#[test]
fn outputs_that_are_full(rt: HostRuntime) -> Result<(), Fail> {
    none_is_wrong(first_other_failure(&rt)?)
}

// A refusal for whose line there is no room.
#[test]
fn refusals_that_are_not_printed(rt: HostRuntime) -> Result<(), Fail> {
    let mut files = files_of_run(rt.alloc(), b"bad\n")?;
    let full = play_full(&rt, &mut files, io::ErrorKind::Other);
    let gone = play_full(&rt, &mut files, io::ErrorKind::BrokenPipe);
    let words = "file fault -\n-: it can't be read or written\n";
    is_right(
        has_played(&full, Exit::FileFault, "", words)
            && has_played(&gone, Exit::ReaderGone, "", "")
            && gone.end.status() == 2,
    )
}
