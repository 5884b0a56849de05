use clap::error::ErrorKind as UsageKind;
use linked_list_allocator::LocalHeap;
use micro_claims::Reason;
use nand_geometry::Profile;
use program_commands::VerifyRequest;
use recording::{CheckRequest, Targets, TraceRequest};
use run_once::once_on;
use seq_cli::{Command, Mistake, parse};
use seq_files::{SlowReader, SlowWriter};
use seq_inputs::{Console, Exit, Fault, PageFile, Refusal, Style};
use std::alloc::{AllocError, Global};
use std::io::{self, sink};
use std::process::Abort;
use std::test::Fail;
use trace_faults::{Beginning, Readies};
use trace_files::{DrawForm, Drawing, TraceOutputs};
use trace_text::{NoProgress, TraceForm};

// The erase of one block: cmd 60, addr 2 3, cmd d0, wait, end 0; rows 1, budget 5.
pub(crate) const ERASE: [u8; 36] = [
    0x4e, 0x4d, 0x50, 0x31, 0x05, 0x00, 0x01, 0x00, 0x00, 0x00, 0x00, 0x00, 0x05, 0x00, 0x00, 0x00,
    0x01, 0x60, 0x00, 0x00, 0x02, 0x02, 0x03, 0x00, 0x01, 0xd0, 0x00, 0x00, 0x0a, 0x00, 0x00, 0x00,
    0x00, 0x00, 0x00, 0x00,
];

// The same without its `wait`.
const NO_WAIT: [u8; 32] = [
    0x4e, 0x4d, 0x50, 0x31, 0x04, 0x00, 0x01, 0x00, 0x00, 0x00, 0x00, 0x00, 0x05, 0x00, 0x00, 0x00,
    0x01, 0x60, 0x00, 0x00, 0x02, 0x02, 0x03, 0x00, 0x01, 0xd0, 0x00, 0x00, 0x00, 0x00, 0x00, 0x00,
];

// The lines of the run of the erase from page 0 of block 1, and from page 3 of block 7.
pub(crate) const RUN: &str =
    "0 C 60\n0 A 04\n0 A 00\n0 A 00\n0 C d0\n0 C 70\n0 O 80\n0 R 0 0\n0 C 70\n0 O e0\nend 0\n";

// No `wait` before the `end`, and a row that isn't there.
const ENDS_BUSY: Refusal = Refusal {
    fault: Fault::Text {
        reason: Reason::EndsTooSoon,
        word: 3,
    },
    line: None,
};

const EXITS: &[(Exit, u8)] = &[
    (Exit::Done, 0),
    (Exit::Refused(ENDS_BUSY), 1),
    (Exit::FileFault, 2),
    (Exit::ReaderGone, 2),
    (Exit::Usage, 3),
    (Exit::TooManySteps, 4),
    (Exit::OutOfMemory, 4),
];

// The place of the first exit with another status.
fn first_other_status() -> Option<usize> {
    for (place, (exit, status)) in EXITS.iter().enumerate() {
        if exit.status() != *status {
            return Some(place);
        }
    }
    None
}

#[test]
fn exits() -> Result<(), Fail> {
    none_is_wrong(first_other_status())
}

// A console that keeps what is printed.
pub(crate) fn new_console(alloc: Global) -> Console<Vec<u8>, Vec<u8>, NoProgress> {
    Console {
        output: Vec::new(alloc),
        errors: Vec::new(alloc),
        progress: NoProgress,
    }
}

// A file, its base, and what it comes to with the lines that it prints.
struct Run {
    file: &'static [u8],
    base: u32,
    exit: Exit,
    lines: &'static str,
}

const UNREADABLE: &[u8] = b"file fault -\n-: it can't be read or written\n";

// Whether it is told, and nothing printed, that this read of the file fails.
fn tells_failed_read(alloc: Global, bad: usize) -> bool {
    let mut console = new_console(alloc);
    let mut slow = SlowReader::new(&ERASE, bad, io::ErrorKind::Other);
    let exit = once_on(&alloc, &mut slow, &mut console, 4);
    exit == Exit::FileFault && console.output.is_empty() && console.errors.as_slice() == UNREADABLE
}

// The first read of which it isn't.
fn first_untold_read(alloc: Global) -> Option<usize> {
    for bad in 0..37usize {
        if !tells_failed_read(alloc, bad) {
            return Some(bad);
        }
    }
    None
}

#[test]
fn streams_that_fail(rt: HostRuntime) -> Result<(), Fail> {
    none_is_wrong(first_untold_read(rt.alloc()))
}

// What a failed write to standard output comes to. A pipe whose reader is gone is told apart.
const WRITES: &[(io::ErrorKind, Exit)] = &[
    (io::ErrorKind::Other, Exit::FileFault),
    (io::ErrorKind::BrokenPipe, Exit::ReaderGone),
];

// What a file comes to on an output of which this write fails so, and what was written before.
fn fail_write(alloc: Global, file: &[u8], bad: usize, kind: io::ErrorKind) -> (Exit, Vec<u8>) {
    let mut input = file;
    let mut console = Console {
        output: SlowWriter::new(alloc, bad, kind),
        errors: sink(),
        progress: NoProgress,
    };
    let exit = once_on(&alloc, &mut input, &mut console, 4);
    (exit, console.output.bytes)
}

// The first write of the refusal that fails otherwise: `refused V14 at 3` and a line feed are six writes and the flush.
fn first_other_refusal(alloc: Global, kind: io::ErrorKind, exit: Exit) -> Option<usize> {
    for bad in 0..7usize {
        let (told, _written) = fail_write(alloc, &NO_WAIT, bad, kind);
        if told != exit {
            return Some(bad);
        }
    }
    None
}

// The first write of a run that fails otherwise, or with other bytes before it: the 77 bytes of a run are 26 writes and the flush.
fn first_other_write(alloc: Global, kind: io::ErrorKind, exit: Exit) -> Option<usize> {
    for bad in 0..27usize {
        let (told, written) = fail_write(alloc, &ERASE, bad, kind);
        if told != exit || !RUN.as_bytes().starts_with(written.as_slice()) {
            return Some(bad);
        }
    }
    None
}

// The place of the first of the failures of which a write comes to something else.
fn first_other_failure(alloc: Global) -> Option<usize> {
    for (place, (kind, exit)) in WRITES.iter().enumerate() {
        let refusal = first_other_refusal(alloc, *kind, *exit);
        if refusal.is_some() || first_other_write(alloc, *kind, *exit).is_some() {
            return Some(place);
        }
    }
    None
}

#[test]
fn outputs_that_fail(rt: HostRuntime) -> Result<(), Fail> {
    none_is_wrong(first_other_failure(rt.alloc()))
}

// What a file comes to over a heap, with all that it prints.
fn outcome_over(heap: &LocalHeap, alloc: Global, file: &[u8]) -> (Exit, Vec<u8>) {
    let mut input = file;
    let mut console = new_console(alloc);
    let exit = once_on(heap, &mut input, &mut console, 4);
    (exit, console.output)
}

// Whether a file is out of memory over a heap of so many bytes, where it writes nothing; otherwise it has to come to what it should.
fn is_short(alloc: Global, run: &Run, size: usize) -> Result<bool, Fail> {
    let heap = LocalHeap::new(alloc, size)?;
    let (exit, output) = outcome_over(&heap, alloc, run.file);
    if exit == Exit::OutOfMemory && output.is_empty() {
        Ok(true)
    } else if exit == run.exit && output.as_slice() == run.lines.as_bytes() {
        Ok(false)
    } else {
        Err(Fail::new(format_args!("something else over {size} bytes")))
    }
}

// How many heaps a file runs over, each 16 bytes larger than the one before.
const HEAPS: usize = 400;

// Runs a file over heaps of all sizes: it is out of memory first, and in the end comes to what it should. Whether both were seen.
fn over_heaps(alloc: Global, run: &Run) -> Result<bool, Fail> {
    let mut refused_at: usize = 0;
    for size in 0..HEAPS {
        if is_short(alloc, run, 16 * size)? {
            refused_at = size + 1;
        }
    }
    Ok(refused_at > 0 && refused_at < HEAPS)
}

const SHORT_REFUSAL: Run = Run {
    file: &NO_WAIT,
    base: 4,
    exit: Exit::Refused(ENDS_BUSY),
    lines: "refused V14 at 3\n",
};

const SHORT_RUN: Run = Run {
    file: &ERASE,
    base: 4,
    exit: Exit::Done,
    lines: RUN,
};

#[test]
fn refused_memory(rt: HostRuntime) -> Result<(), Fail> {
    let refusal = over_heaps(rt.alloc(), &SHORT_REFUSAL)?;
    let run = over_heaps(rt.alloc(), &SHORT_RUN)?;
    assert!(rt; refusal && run);
    Ok(())
}

// The kind of what the parser says; a number that is none counts as a value that isn't taken.
fn kind_of(mistake: &Mistake<'_>) -> UsageKind {
    match mistake {
        Mistake::Words(error) => error.kind(),
        Mistake::NoCommand => UsageKind::MissingSubcommand,
        Mistake::NoPage => UsageKind::MissingRequiredArgument,
        Mistake::Base(_)
        | Mistake::Steps { .. }
        | Mistake::Glitch(_)
        | Mistake::Outputs(_)
        | Mistake::Declared(_)
        | Mistake::NotMade(_)
        | Mistake::Mapping(_)
        | Mistake::Timing(_)
        | Mistake::Data(_)
        | Mistake::Ops(_)
        | Mistake::NoteCode { .. }
        | Mistake::PageNumber { .. } => UsageKind::ValueValidation,
        Mistake::NoteTwice(_) | Mistake::FromMiddle(_) | Mistake::Paths(_) => {
            UsageKind::ArgumentConflict
        }
    }
}

// No row is wrong.
pub(crate) fn none_is_wrong(wrong: Option<usize>) -> Result<(), Fail> {
    match wrong {
        None => Ok(()),
        Some(place) => Err(Fail::new(format_args!("row {place} comes to something else"))),
    }
}

// No line is wrong.
pub(crate) fn no_line_is_wrong(wrong: Option<&str>) -> Result<(), Fail> {
    match wrong {
        None => Ok(()),
        Some(line) => Err(Fail::new(format_args!("{line} comes to something else"))),
    }
}

// The words of a command line.
pub(crate) fn owned(alloc: Global, words: &[&str]) -> Result<Vec<String>, AllocError> {
    let mut owned = Vec::new(alloc);
    for word in words {
        owned.push(String::from_str(alloc, word)?)?;
    }
    Ok(owned)
}

// Words, and what they ask for, or the kind of their error.
struct Asked {
    words: &'static [&'static str],
    asked: Result<Command<'static>, UsageKind>,
}

// Whether words ask for this, or have an error of this kind.
fn is_asked(
    alloc: Global,
    words: &[&str],
    want: Result<Command<'_>, UsageKind>,
) -> Result<bool, AllocError> {
    let words = owned(alloc, words)?;
    let asked = match parse(alloc, words.as_slice(), &[]) {
        Ok(command) => Ok(command),
        Err(mistake) => Err(kind_of(&mistake)),
    };
    Ok(asked == want)
}

// The place of the first of the words that ask for something else.
fn first_other(alloc: Global, rows: &[Asked]) -> Result<Option<usize>, AllocError> {
    for (place, row) in rows.iter().enumerate() {
        if !is_asked(alloc, row.words, row.asked)? {
            return Ok(Some(place));
        }
    }
    Ok(None)
}

const LINES: &[Asked] = &[
    Asked {
        words: &["onfiseq", "once"],
        asked: Ok(Command::Once { base: 0 }),
    },
    Asked {
        words: &["onfiseq", "once", "--base", "4"],
        asked: Ok(Command::Once { base: 4 }),
    },
    Asked {
        words: &["onfiseq", "once", "--base=4294967295"],
        asked: Ok(Command::Once {
            base: 4_294_967_295,
        }),
    },
    Asked {
        words: &["onfiseq", "once", "--base", "0x1f"],
        asked: Ok(Command::Once { base: 31 }),
    },
    Asked {
        words: &["onfiseq", "once", "--base", "4294967296"],
        asked: Err(UsageKind::ValueValidation),
    },
    Asked {
        words: &["onfiseq", "once", "--base", "0x100000000"],
        asked: Err(UsageKind::ValueValidation),
    },
    Asked {
        words: &["onfiseq", "once", "--base", "0x"],
        asked: Err(UsageKind::ValueValidation),
    },
    Asked {
        words: &["onfiseq", "once", "--base", "x"],
        asked: Err(UsageKind::ValueValidation),
    },
    Asked {
        words: &["onfiseq", "once", "--base", "4h"],
        asked: Err(UsageKind::ValueValidation),
    },
    Asked {
        words: &["onfiseq", "--help"],
        asked: Err(UsageKind::DisplayHelp),
    },
    Asked {
        words: &["onfiseq", "--version"],
        asked: Err(UsageKind::DisplayVersion),
    },
    Asked {
        words: &["onfiseq", "twice"],
        asked: Err(UsageKind::InvalidSubcommand),
    },
    Asked {
        words: &["onfiseq", "once", "file"],
        asked: Err(UsageKind::UnknownArgument),
    },
];

#[test]
fn command_lines(rt: HostRuntime) -> Result<(), Fail> {
    none_is_wrong(first_other(rt.alloc(), LINES)?)
}

// The page `a`, read for the base profile.
const BASE_A: PageFile<'static> = PageFile {
    path: "a",
    profile: Profile::Base,
};

// A check of a trace, strict and until its first fault.
const CHECK: CheckRequest<'static> = CheckRequest {
    trace: TRACE,
    tells_all: false,
    readies: Readies::Written,
    assumes_ready: false,
    beginning: Beginning::Start,
    judges_bytes: false,
    has_notes: false,
    times: None,
    dies: None,
    style: Style::Plain,
    copy: None,
};

const TRACE: TraceRequest<'static> = TraceRequest {
    page: "a",
    profile: Profile::Base,
    targets: Targets::One,
    input: "b",
    form: TraceForm::Strict,
    vendor: None,
};

const FILE_LINES: &[Asked] = &[
    Asked {
        words: &["onfiseq", "asm", "a", "b"],
        asked: Ok(Command::Assemble {
            input: "a",
            target: "b",
        }),
    },
    Asked {
        words: &["onfiseq", "upgrade", "a", "b"],
        asked: Ok(Command::Upgrade {
            input: "a",
            target: "b",
        }),
    },
    Asked {
        words: &["onfiseq", "verify", "a", "b"],
        asked: Ok(Command::Verify(VerifyRequest {
            page: BASE_A,
            input: "b",
            counter: TraceOutputs::NONE,
            search: 100_000,
            is_quiet: false,
            style: Style::Plain,
        })),
    },
    Asked {
        words: &["onfiseq", "verify", "a", "b", "--counter", "c"],
        asked: Ok(Command::Verify(VerifyRequest {
            page: BASE_A,
            input: "b",
            counter: TraceOutputs {
                text: Some("c"),
                ..TraceOutputs::NONE
            },
            search: 100_000,
            is_quiet: false,
            style: Style::Plain,
        })),
    },
    Asked {
        words: &[
            "onfiseq", "verify", "a", "b", "--draw", "d.html", "--wave", "w",
        ],
        asked: Ok(Command::Verify(VerifyRequest {
            page: BASE_A,
            input: "b",
            counter: TraceOutputs {
                text: None,
                wave: Some("w"),
                drawing: Some(Drawing {
                    form: DrawForm::Page,
                    path: "d.html",
                }),
            },
            search: 100_000,
            is_quiet: false,
            style: Style::Plain,
        })),
    },
    Asked {
        words: &["onfiseq", "dis", "a"],
        asked: Ok(Command::Disassemble { input: "a" }),
    },
    Asked {
        words: &["onfiseq", "check", "a", "1", "b"],
        asked: Ok(Command::Check(CHECK)),
    },
    Asked {
        words: &["onfiseq", "check", "a", "2", "b"],
        asked: Ok(Command::Check(CheckRequest {
            trace: TraceRequest {
                targets: Targets::Two,
                ..TRACE
            },
            ..CHECK
        })),
    },
    Asked {
        words: &["onfiseq", "check", "a", "3", "b"],
        asked: Ok(Command::Check(CheckRequest {
            trace: TraceRequest {
                targets: Targets::Three,
                ..TRACE
            },
            ..CHECK
        })),
    },
    Asked {
        words: &["onfiseq", "check", "a", "4", "b"],
        asked: Ok(Command::Check(CheckRequest {
            trace: TraceRequest {
                targets: Targets::Four,
                ..TRACE
            },
            ..CHECK
        })),
    },
    Asked {
        words: &["onfiseq", "check", "a", "5", "b"],
        asked: Err(UsageKind::InvalidValue),
    },
    Asked {
        words: &["onfiseq", "asm", "a"],
        asked: Err(UsageKind::MissingRequiredArgument),
    },
];

#[test]
fn command_lines_of_files(rt: HostRuntime) -> Result<(), Fail> {
    none_is_wrong(first_other(rt.alloc(), FILE_LINES)?)
}
