use crate::command::Command;
use crate::tests::{
    ASSEMBLE, CHECK, DISASSEMBLE, ERASE, ERASE_FILE, ONE_LUN, TRACE, UPGRADE, VERIFY, do_command,
    files_of, is_right, none_is_wrong,
};
use linked_list_allocator::LocalHeap;
use recording::Ending;
use seq_files::{FileError, FileFault, FullWriter, MapFiles};
use seq_inputs::{Console, Exit};
use std::alloc::{AllocError, Global};
use std::io::{self, sink};
use std::process::Abort;
use std::test::Fail;
use trace_text::NoProgress;

// Each command with the text that it reads, none for a word file, and how many files it reads and writes.
type Given = (Command<'static>, &'static str, usize);

const COMMANDS: &[Given] = &[
    (ASSEMBLE, ERASE, 2),
    (DISASSEMBLE, "", 1),
    (UPGRADE, "", 2),
    (VERIFY, "", 2),
    (CHECK, TRACE, 2),
];

// Files with what a command reads.
fn files_with(alloc: Global, text: &str) -> Result<MapFiles, Fail> {
    if text.is_empty() {
        return files_of(alloc, ONE_LUN, &ERASE_FILE);
    }
    files_of(alloc, ONE_LUN, text.as_bytes())
}

// The path of what the call of this number reads or writes.
fn path_of(command: Command<'_>, call: usize) -> &'static str {
    match command {
        Command::Assemble { .. } | Command::Upgrade { .. } if call == 1 => "out",
        Command::Verify(_) | Command::Check(_) if call == 0 => "die.page",
        _ => "in",
    }
}

// Whether a call that fails so is the last one, nothing is printed, this is said, and no file is written.
fn fails_at(
    alloc: Global,
    (command, text, call): Given,
    error: FileError,
    exit: Exit,
    said: &str,
) -> Result<bool, Fail> {
    let mut files = files_with(alloc, text)?;
    files.fail_at(call, error);
    let seen = do_command(alloc, &mut files, command);
    Ok(
        seen.exit == Ending::Exit(exit)
            && seen.output.is_empty()
            && seen.errors.as_slice() == said.as_bytes()
            && files.calls() == call.saturating_add(1)
            && files.get("out").is_none(),
    )
}

// Whether the path is told with the cause, or out of memory, where this call fails.
fn tells_fault(alloc: Global, (command, text, call): Given) -> Result<bool, Fail> {
    let path = path_of(command, call);
    let said = format!(in alloc; "file fault {path}\n{path}: permission denied\n")?;
    let given = (command, text, call);
    let denied = FileError::Fault(FileFault::PermissionDenied);
    let is_told = fails_at(alloc, given, denied, Exit::FileFault, said.as_str())?;
    let memory = FileError::OutOfMemory;
    Ok(is_told && fails_at(alloc, given, memory, Exit::OutOfMemory, "out of memory\n")?)
}

// Whether each of so many calls of a command tells so.
fn tells_each(alloc: Global, (command, text, calls): Given) -> Result<bool, Fail> {
    for call in 0..calls {
        if !tells_fault(alloc, (command, text, call))? {
            return Ok(false);
        }
    }
    Ok(true)
}

// Whether a command makes so many calls and no more.
fn makes_calls(alloc: Global, (command, text, calls): Given) -> Result<bool, Fail> {
    let mut files = files_with(alloc, text)?;
    files.fail_at(calls, FileError::Fault(FileFault::Unknown));
    let seen = do_command(alloc, &mut files, command);
    Ok(seen.exit == Ending::Exit(Exit::Done) && files.calls() == calls)
}

// The place of the first command of which a call doesn't, or with other calls.
fn first_untold(alloc: Global) -> Result<Option<usize>, Fail> {
    for (place, given) in COMMANDS.iter().enumerate() {
        if !tells_each(alloc, *given)? || !makes_calls(alloc, *given)? {
            return Ok(Some(place));
        }
    }
    Ok(None)
}

#[test]
fn each_call_fails(rt: HostRuntime) -> Result<(), Fail> {
    none_is_wrong(first_untold(rt.alloc())?)
}

// How an output fails, what a command comes to then, and what is said.
type Failure = (io::ErrorKind, Exit, &'static [u8]);

const FAILURES: &[Failure] = &[
    (
        io::ErrorKind::StorageFull,
        Exit::FileFault,
        b"file fault -\n-: no space left on the device\n",
    ),
    (io::ErrorKind::BrokenPipe, Exit::ReaderGone, b""),
    (
        io::ErrorKind::OutOfMemory,
        Exit::OutOfMemory,
        b"out of memory\n",
    ),
];

// Whether a command comes to this on an output that fails so.
fn fails_so(
    alloc: Global,
    files: &mut MapFiles,
    command: Command<'_>,
    (kind, exit, said): Failure,
) -> bool {
    let mut console = Console {
        output: FullWriter { room: 2, kind },
        errors: Vec::new(alloc),
        progress: NoProgress,
    };
    let got = command.carry_out(alloc, alloc, files, &mut console);
    got == Ending::Exit(exit) && console.errors.as_slice() == said
}

// Whether each command comes to this; the files are written by then.
fn each_fails_so(alloc: Global, failure: Failure) -> Result<bool, Fail> {
    for (command, text, calls) in COMMANDS {
        let mut files = files_with(alloc, text)?;
        if !fails_so(alloc, &mut files, *command, failure) || files.calls() != *calls {
            return Ok(false);
        }
    }
    Ok(true)
}

// Whether a refusal that can't be written isn't explained.
fn is_not_explained(alloc: Global, failure: Failure) -> Result<bool, Fail> {
    let mut files = files_of(alloc, ONE_LUN, &[])?;
    Ok(fails_so(alloc, &mut files, VERIFY, failure))
}

// The place of the first failure with which something else happens.
fn first_other_failure(alloc: Global) -> Result<Option<usize>, Fail> {
    for (place, failure) in FAILURES.iter().enumerate() {
        if !each_fails_so(alloc, *failure)? || !is_not_explained(alloc, *failure)? {
            return Ok(Some(place));
        }
    }
    Ok(None)
}

// An output that is full: the files are written by then.
#[test]
fn outputs_that_fail(rt: HostRuntime) -> Result<(), Fail> {
    none_is_wrong(first_other_failure(rt.alloc())?)
}

// The status of a refusal where standard error takes nothing, and what is printed.
fn refuse_unheard(alloc: Global, files: &mut MapFiles) -> (u8, Vec<u8>) {
    let mut console = Console {
        output: Vec::new(alloc),
        errors: FullWriter {
            room: 3,
            kind: io::ErrorKind::BrokenPipe,
        },
        progress: NoProgress,
    };
    let exit = VERIFY.carry_out(alloc, alloc, files, &mut console);
    (exit.status(), console.output)
}

// A refusal stands where standard error takes nothing.
#[test]
fn errors_that_fail(rt: HostRuntime) -> Result<(), Fail> {
    let mut files = files_of(rt.alloc(), ONE_LUN, &[])?;
    let (status, output) = refuse_unheard(rt.alloc(), &mut files);
    is_right(status == 1 && output.as_slice() == b"refused M1 at 0\n".as_slice())
}

// What a command comes to on a heap, and how much it prints.
fn carry_out_on(
    heap: &LocalHeap,
    alloc: Global,
    files: &mut MapFiles,
    command: Command<'_>,
) -> (Ending, usize) {
    let mut console = Console {
        output: Vec::new(alloc),
        errors: sink(),
        progress: NoProgress,
    };
    let exit = command.carry_out(heap, alloc, files, &mut console);
    (exit, console.output.len())
}

// Whether a command is done on a heap of this size; nothing may be printed or written where it is out of memory.
fn fits_heap(alloc: Global, size: usize, command: Command<'_>, text: &str) -> Result<bool, Fail> {
    let mut files = files_with(alloc, text)?;
    let heap = LocalHeap::new(alloc, size)?;
    let (exit, printed) = carry_out_on(&heap, alloc, &mut files, command);
    if exit == Ending::Exit(Exit::Done) && printed > 0 {
        Ok(true)
    } else if exit == Ending::Exit(Exit::OutOfMemory)
        && printed == 0
        && files.get("out").is_none()
    {
        Ok(false)
    } else {
        Err(Fail::new(format_args!("something else on {size} bytes")))
    }
}

// Whether a command is out of memory on small heaps, and is done on large ones.
fn is_done_at_last(alloc: Global, command: Command<'_>, text: &str) -> Result<bool, Fail> {
    let mut refused: usize = 0;
    for size in 0..200usize {
        if !fits_heap(alloc, 64 * size, command, text)? {
            refused = size + 1;
        }
    }
    Ok(refused > 0 && refused < 200)
}

// The place of the first command of which that isn't so. Of a check `tools/fail_runs.py` refuses each request for memory.
fn first_not_done(alloc: Global) -> Result<Option<usize>, Fail> {
    for (place, (command, text, _)) in COMMANDS.iter().enumerate() {
        if command.is_of_program() && !is_done_at_last(alloc, *command, text)? {
            return Ok(Some(place));
        }
    }
    Ok(None)
}

#[test]
fn refused_memory(rt: HostRuntime) -> Result<(), Fail> {
    none_is_wrong(first_not_done(rt.alloc())?)
}

// The next number of a fixed generator.
fn next(seed: u64) -> u64 {
    let a = seed ^ (seed << 13);
    let b = a ^ (a >> 7);
    b ^ (b << 17)
}

fn noise(alloc: Global, seed: u64, len: usize) -> Result<Vec<u8>, AllocError> {
    let mut bytes = Vec::new(alloc);
    let mut state = seed;
    for _ in 0..len {
        state = next(state);
        bytes.push((state >> 32 & 0xff) as u8)?;
    }
    Ok(bytes)
}

// Whether a command refuses these files, or reads no text of them.
fn is_refused(alloc: Global, files: &mut MapFiles, command: Command<'_>) -> bool {
    let status = do_command(alloc, files, command).exit.status();
    status == 1 || status == 2
}

// Whether a command refuses noise as its input and as its page too, and writes nothing.
fn refuses_noise(alloc: Global, bytes: &[u8], command: Command<'_>) -> Result<bool, Fail> {
    let mut files = files_of(alloc, ONE_LUN, bytes)?;
    let input = is_refused(alloc, &mut files, command) && files.get("out").is_none();
    files.put("die.page", bytes)?;
    Ok(input && is_refused(alloc, &mut files, command))
}

// Whether each command does.
fn each_refuses(alloc: Global, bytes: &[u8]) -> Result<bool, Fail> {
    for (command, _, _) in COMMANDS {
        if !refuses_noise(alloc, bytes, *command)? {
            return Ok(false);
        }
    }
    Ok(true)
}

// The first seed whose noise isn't refused.
fn first_taken(alloc: Global) -> Result<Option<u64>, Fail> {
    for seed in 1..100u64 {
        let bytes = noise(alloc, seed * 7919, 300)?;
        if !each_refuses(alloc, bytes.as_slice())? {
            return Ok(Some(seed));
        }
    }
    Ok(None)
}

// Noise is refused, or isn't UTF-8; nothing is written.
#[test]
fn binary_noise(rt: HostRuntime) -> Result<(), Fail> {
    assert_eq!(rt; first_taken(rt.alloc())?, None);
    Ok(())
}
