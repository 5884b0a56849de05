use crate::once_tests::{ERASE, new_console, none_is_wrong, owned};
use linked_list_allocator::LocalHeap;
use micro_claims::Reason;
use run_once::run_program;
use seq_cli::answer;
use seq_core::JobFault;
use seq_files::{MapFiles, SlowReader, SlowWriter};
use seq_inputs::{Console, Exit, Fault};
use std::alloc::{AllocError, Global};
use std::io::{self, Write};
use std::process::Abort;
use std::sync::Wait;
use std::test::Fail;
use std::thread::Threads;
use trace_text::NoProgress;

// What the program answers: its status, and what it writes on standard output and on standard error.
#[derive(Drop)]
struct Answer {
    status: u8,
    output: Vec<u8>,
    errors: Vec<u8>,
}

fn answer_to<R: Threads + Wait + Sync + AllocGlobal>(
    rt: &R,
    words: io::Result<Vec<String>>,
    file: &[u8],
) -> Answer {
    let alloc = rt.alloc();
    let mut input = file;
    let mut console = new_console(alloc);
    let mut files = MapFiles::new(alloc);
    let exit = answer(rt, alloc, words, &mut files, &mut input, &mut console);
    Answer {
        status: exit.status(),
        output: console.output,
        errors: console.errors,
    }
}

// An answer is this.
fn is_answer(answer: &Answer, status: u8, output: &str, errors: &str) -> bool {
    answer.status == status
        && answer.output.as_slice() == output.as_bytes()
        && answer.errors.as_slice() == errors.as_bytes()
}

// What no file of `once` is refused for in `tools/cases`.
const OTHER_FAULTS: &[(Fault, &str)] = &[
    (
        Fault::Text {
            reason: Reason::LoopsTooDeep,
            word: 7,
        },
        "loops are nested deeper than four",
    ),
    (
        Fault::Text {
            reason: Reason::BufferPassed,
            word: 7,
        },
        "the program may go past the end of its buffer",
    ),
    (
        Fault::Text {
            reason: Reason::ColumnTooLarge,
            word: 7,
        },
        "a column may be past the end of the page or of the register",
    ),
    (
        Fault::Job {
            fault: JobFault::NoSuchLun,
        },
        "there is no such LUN",
    ),
    (
        Fault::Job {
            fault: JobFault::BufferLength,
        },
        "the buffer isn't as long as the header says",
    ),
    (
        Fault::Job {
            fault: JobFault::OtherGeometry,
        },
        "the program was verified for another die",
    ),
    (
        Fault::Job {
            fault: JobFault::NotAtBlock,
        },
        "the program continues a cache read, and its base isn't the first row of a block",
    ),
];

// Whether a fault has these words.
fn has_words(alloc: Global, fault: Fault, words: &str) -> Result<bool, AllocError> {
    let told = format!(in alloc; "{fault}")?;
    Ok(told.as_str() == words)
}

// The place of the first fault with other words.
fn first_other_words(alloc: Global) -> Result<Option<usize>, AllocError> {
    for (place, (fault, words)) in OTHER_FAULTS.iter().enumerate() {
        if !has_words(alloc, *fault, words)? {
            return Ok(Some(place));
        }
    }
    Ok(None)
}

#[test]
fn the_other_refusals(rt: HostRuntime) -> Result<(), Fail> {
    none_is_wrong(first_other_words(rt.alloc())?)
}

// Whether words that fail so are answered with this status and these words on standard error.
fn says_why<R: Threads + Wait + Sync + AllocGlobal>(
    rt: &R,
    kind: io::ErrorKind,
    status: u8,
    said: &str,
) -> bool {
    let answer = answer_to(rt, Err(io::Error::from(kind)), &ERASE);
    is_answer(&answer, status, "", said)
}

#[test]
fn a_command_line_that_memory_is_refused(rt: HostRuntime) {
    assert!(rt; says_why(&rt, io::ErrorKind::OutOfMemory, 4, "out of memory\n"));
}

// What is said where standard output fails so.
const FAILED_WRITES: &[(io::ErrorKind, &str)] = &[
    (
        io::ErrorKind::StorageFull,
        "file fault -\n-: no space left on the device\n",
    ),
    (io::ErrorKind::BrokenPipe, ""),
];

// A console whose output fails so.
fn failing_console(alloc: Global, kind: io::ErrorKind) -> Console<SlowWriter, Vec<u8>, NoProgress> {
    Console {
        output: SlowWriter::new(alloc, 3, kind),
        errors: Vec::new(alloc),
        progress: NoProgress,
    }
}

// The status of words whose output fails so, and what is said.
fn fail_printing<R: Threads + Wait + Sync + AllocGlobal>(
    rt: &R,
    words: Vec<String>,
    kind: io::ErrorKind,
) -> (u8, Vec<u8>) {
    let mut files = MapFiles::new(rt.alloc());
    let mut input = ERASE.as_slice();
    let mut console = failing_console(rt.alloc(), kind);
    let exit = answer(
        rt,
        rt.alloc(),
        Ok(words),
        &mut files,
        &mut input,
        &mut console,
    );
    (exit.status(), console.errors)
}

// The place of the first of the failures with which help says something else.
fn first_other_help<R: Threads + Wait + Sync + AllocGlobal>(
    rt: &R,
) -> Result<Option<usize>, AllocError> {
    for (place, (kind, said)) in FAILED_WRITES.iter().enumerate() {
        let words = owned(rt.alloc(), &["onfiseq", "--help"])?;
        let (status, errors) = fail_printing(rt, words, *kind);
        if status != 2 || errors.as_slice() != said.as_bytes() {
            return Ok(Some(place));
        }
    }
    Ok(None)
}

// Help for which there is no room, and help that nobody reads.
#[test]
fn help_that_is_not_printed(rt: HostRuntime) -> Result<(), Fail> {
    none_is_wrong(first_other_help(&rt)?)
}

// What `once` comes to on this console.
fn run_once<W: Write, E: Write>(
    alloc: Global,
    file: &[u8],
    base: u32,
    console: &mut Console<W, E, NoProgress>,
) -> u8 {
    let mut input = file;
    run_program(&alloc, &mut input, console, base).status()
}

// Whether a file that can't be read is told.
fn tells_failed_read(alloc: Global) -> bool {
    let mut input = SlowReader::new(&ERASE, 5, io::ErrorKind::PermissionDenied);
    let mut console = new_console(alloc);
    let exit = run_program(&alloc, &mut input, &mut console, 4);
    exit == Exit::FileFault
        && console.errors.as_slice() == b"file fault -\n-: permission denied\n".as_slice()
        && console.output.is_empty()
}

// Whether this is said of an output that fails so.
fn tells_failed_write(alloc: Global, kind: io::ErrorKind, said: &str) -> bool {
    let mut console = failing_console(alloc, kind);
    run_once(alloc, &ERASE, 4, &mut console) == 2 && console.errors.as_slice() == said.as_bytes()
}

// The place of the first of the failures of which something else is said.
fn first_other_failure(alloc: Global) -> Option<usize> {
    for (place, (kind, said)) in FAILED_WRITES.iter().enumerate() {
        if !tells_failed_write(alloc, *kind, said) {
            return Some(place);
        }
    }
    None
}

// Whether the status says it still where standard error takes nothing.
fn has_status(alloc: Global, base: u32, status: u8) -> bool {
    let mut console = Console {
        output: Vec::new(alloc),
        errors: SlowWriter::new(alloc, 0, io::ErrorKind::BrokenPipe),
        progress: NoProgress,
    };
    run_once(alloc, &ERASE, base, &mut console) == status
        && console.errors.bytes.is_empty()
        && !console.output.is_empty()
}

#[test]
fn streams_that_fail_are_told(rt: HostRuntime) -> Result<(), Fail> {
    let alloc = rt.alloc();
    // Nothing is said where nobody reads the output any more.
    none_is_wrong(first_other_failure(alloc))?;
    assert!(rt; tells_failed_read(alloc) && has_status(alloc, 4, 0) && has_status(alloc, 32, 1));
    Ok(())
}

// Whether it is told that a heap has no memory.
fn tells_no_memory(heap: &LocalHeap, alloc: Global) -> bool {
    let mut file = ERASE.as_slice();
    let mut console = new_console(alloc);
    let exit = run_program(&heap, &mut file, &mut console, 4);
    exit == Exit::OutOfMemory
        && console.errors.as_slice() == b"out of memory\n".as_slice()
        && console.output.is_empty()
}

#[test]
fn out_of_memory_is_told(rt: HostRuntime) -> Result<(), Fail> {
    let heap = LocalHeap::new(rt.alloc(), 0)?;
    assert!(rt; tells_no_memory(&heap, rt.alloc()));
    Ok(())
}
