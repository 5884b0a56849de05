// The runs that `verify` leaves of its refusals, where a file of them can't be written.
use crate::command::Command;
use crate::tests::{ASSEMBLE, DIE, ONE_LUN, SEARCHED, do_command, files_of, is_right};
use program_commands::VerifyRequest;
use recording::Ending;
use seq_files::{FileError, FileFault, MapFiles};
use seq_inputs::{Exit, Style};
use std::alloc::Global;
use std::test::Fail;
use trace_files::{DrawForm, Drawing, TraceOutputs};

// To verify, and to leave the text of the run.
const VERIFY: Command<'static> = Command::Verify(VerifyRequest {
    page: DIE,
    input: "out",
    counter: TraceOutputs {
        text: Some("run"),
        wave: None,
        drawing: None,
    },
    search: SEARCHED,
    is_quiet: false,
    style: Style::Plain,
});

// To verify, and to leave the text of the run, its waveform and its picture.
const VERIFY_ALL: Command<'static> = Command::Verify(VerifyRequest {
    page: DIE,
    input: "out",
    counter: TraceOutputs {
        text: Some("run"),
        wave: Some("wave"),
        drawing: Some(Drawing {
            form: DrawForm::Picture,
            path: "drawing",
        }),
    },
    search: SEARCHED,
    is_quiet: false,
    style: Style::Plain,
});

// An erase, and another one while the LUN is busy.
const ERASE_TWICE: &str =
    "rows 1\nbuffer 0\nbudget 10\ncmd 60\naddr 2 3\ncmd d0\ncmd 60\naddr 2 3\ncmd d0\nwait\nend 0\n";

// The files of a small die and of the word file of this text.
fn assemble(alloc: Global, text: &str) -> Result<MapFiles, Fail> {
    let mut files = files_of(alloc, ONE_LUN, text.as_bytes())?;
    if do_command(alloc, &mut files, ASSEMBLE).exit == Ending::Exit(Exit::Done) {
        Ok(files)
    } else {
        Err(Fail::from("the text isn't assembled"))
    }
}

// No file of a run is there.
fn has_none(files: &MapFiles) -> bool {
    files.get("run").is_none() && files.get("wave").is_none() && files.get("drawing").is_none()
}

// Whether nothing is printed or written where this call fails, and this is said.
fn writes_none(alloc: Global, call: usize, said: &[u8]) -> Result<bool, Fail> {
    let mut files = assemble(alloc, ERASE_TWICE)?;
    files.fail_at(call, FileError::Fault(FileFault::StorageFull));
    let seen = do_command(alloc, &mut files, VERIFY_ALL);
    Ok(seen.errors.as_slice() == said && seen.output.is_empty() && has_none(&files))
}

// Where one file of the run can't be written none is, and nothing is printed.
#[test]
fn all_files_of_a_run_or_none(rt: HostRuntime) -> Result<(), Fail> {
    let run = writes_none(
        rt.alloc(),
        2,
        b"file fault run\nrun: no space left on the device\n",
    )?;
    let wave = writes_none(
        rt.alloc(),
        3,
        b"file fault wave\nwave: no space left on the device\n",
    )?;
    let drawing = writes_none(
        rt.alloc(),
        4,
        b"file fault drawing\ndrawing: no space left on the device\n",
    )?;
    is_right(run && wave && drawing)
}

// Whether the run can't be written for this error, and so ends, saying this.
fn ends_unwritten(alloc: Global, error: FileError, exit: Exit, said: &[u8]) -> Result<bool, Fail> {
    let mut files = assemble(alloc, ERASE_TWICE)?;
    files.fail_at(2, error);
    let seen = do_command(alloc, &mut files, VERIFY);
    Ok(
        seen.exit == Ending::Exit(exit)
            && seen.output.is_empty()
            && seen.errors.as_slice() == said
            && files.get("run").is_none(),
    )
}

// Where the run can't be written nothing is printed.
#[test]
fn runs_that_cannot_be_written(rt: HostRuntime) -> Result<(), Fail> {
    let full = ends_unwritten(
        rt.alloc(),
        FileError::Fault(FileFault::StorageFull),
        Exit::FileFault,
        b"file fault run\nrun: no space left on the device\n",
    )?;
    let memory = ends_unwritten(
        rt.alloc(),
        FileError::OutOfMemory,
        Exit::OutOfMemory,
        b"out of memory\n",
    )?;
    is_right(full && memory)
}
