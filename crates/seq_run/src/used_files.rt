//! The files of a run, looked at before its first cycle: it loses none of them, and can write those that it writes.
ghost use Rattle.std.specs.Prelude.{IfErr};
ghost use Rattle.seq_inputs.specs.Stops.{RefusesNothing};

use crate::request::RunRequest;
use run_file::{Numbered, Statement, parse_run};
use seq_files::{Clash, FileError, Files, Use, UsedFile, find_clash};
use seq_inputs::Stop;
use shown_text::Shown;
use std::alloc::{AllocError, Global};
use std::io::{self, Write};
use trace_files::TraceOutputs;

// The files that a run file names, and itself: those that the run reads, and those that it writes.
#[derive(Drop)]
struct RunFiles<'a> {
    read: Vec<UsedFile<'a>>,
    written: Vec<UsedFile<'a>>,
}

// A file that is used so, in this line of the run file or by the command line.
fn used(path: &str, usage: Use, line: Option<usize>) -> UsedFile<'_> {
    UsedFile { path, usage, line }
}

impl<'a> RunFiles<'a> {
    // Adds a file that is read.
    fn read(&mut self, path: &'a str, line: usize) -> Result<(), AllocError> {
        self.read.push(used(path, Use::Read, Some(line)))?;
        Ok(())
    }

    // Adds a file that is written.
    fn write(&mut self, path: &'a str, line: usize) -> Result<(), AllocError> {
        self.written.push(used(path, Use::Written, Some(line)))?;
        Ok(())
    }

    // Adds the files of a job.
    fn add_job(
        &mut self,
        line: usize,
        text: &'a str,
        input: Option<&'a str>,
        output: Option<&'a str>,
    ) -> Result<(), AllocError> {
        self.read(text, line)?;
        if let Some(path) = input {
            self.read(path, line)?;
        }
        match output {
            Some(path) => self.write(path, line),
            None => Ok(()),
        }
    }

    // Adds the files that a line names. The image of a die is read too, by the path by which it is written.
    fn add(&mut self, numbered: Numbered<'a>) -> Result<(), AllocError> {
        let line = numbered.line;
        match numbered.statement {
            Statement::Page { path } => self.read(path, line),
            Statement::Image { path, .. } => self.write(path, line),
            Statement::Job {
                text,
                input,
                output,
                ..
            } => self.add_job(line, text, input, output),
            Statement::Targets { .. } | Statement::Polls { .. } | Statement::Fail { .. } => Ok(()),
        }
    }

    // The files of the run file of this path.
    fn of(alloc: Global, path: &'a str, text: &'a str) -> Result<RunFiles<'a>, AllocError> {
        let mut files = RunFiles {
            read: Vec::new(alloc),
            written: Vec::new(alloc),
        };
        files.read.push(used(path, Use::Read, None))?;
        let parsed = parse_run(text, alloc)?;
        for numbered in parsed.statements.as_slice() {
            files.add(*numbered)?;
        }
        Ok(files)
    }
}

// Adds a file of the trace, if it is written.
fn add_output<'a>(
    outputs: &mut Vec<UsedFile<'a>>,
    path: Option<&'a str>,
) -> Result<(), AllocError> {
    if let Some(path) = path {
        outputs.push(used(path, Use::Written, None))?;
    }
    Ok(())
}

// The files of the trace that are written.
fn list_outputs<'a>(
    alloc: Global,
    trace: TraceOutputs<'a>,
) -> Result<Vec<UsedFile<'a>>, AllocError> {
    let mut outputs = Vec::new(alloc);
    add_output(&mut outputs, trace.text)?;
    add_output(&mut outputs, trace.wave)?;
    add_output(&mut outputs, trace.drawing.map(|drawing| drawing.path))?;
    Ok(outputs)
}

// Tries whether each of these files can be written.
fn try_outputs<'a, F: Files>(files: &F, outputs: &[UsedFile<'a>]) -> Result<(), Stop<'a>>
    ensures { IfErr result RefusesNothing }
{
    for output in outputs {
        if let Err(error) = files.try_output(output.path) {
            return Err(refuse_output(*output, error));
        }
    }
    Ok(())
}

// A file that a run writes can't be written.
fn refuse_output<'a>(output: UsedFile<'a>, error: FileError) -> Stop<'a>
    ensures { RefusesNothing result }
{
    match error {
        FileError::Fault(fault) => Stop::FileFault {
            path: output.path,
            fault,
            line: output.line,
        },
        FileError::ReaderGone => Stop::ReaderGone,
        FileError::OutOfMemory => Stop::OutOfMemory,
    }
}

// Says which file would be lost, and where it is used besides.
fn say_clash<E: Write>(errors: &mut E, run: &str, clash: Clash<'_>) -> io::Result<()> {
    let Clash { output, other } = clash;
    let (lost, verb) = match other.usage {
        Use::Written => ("written twice", "writes"),
        Use::Read => ("written over", "reads"),
    };
    write!(
        errors,
        "error: {} would be {lost}: ",
        Shown::path(output.path)
    )?;
    match other.line {
        Some(line) => write!(errors, "line {line} of {}", Shown::path(run))?,
        None => write!(errors, "this command")?,
    }
    writeln!(errors, " {verb} it as {}", Shown::path(other.path))?;
    errors.flush()
}

// The first file of the trace that is one with another file of the run, if one is.
fn find_lost<'a, F: Files>(
    alloc: Global,
    files: &F,
    outputs: &[UsedFile<'a>],
    named: RunFiles<'a>,
) -> Result<Option<Clash<'a>>, FileError> {
    let RunFiles {
        mut read,
        mut written,
    } = named;
    read.append(&mut written)?;
    find_clash(alloc, files, outputs, read.as_slice())
}

/// Whether the files of the trace may be written as a run asks: none of them is one with another or with a file that the run file names. If not, that is
/// said. An error is of a file that can't be written, of those too that the run file names.
pub(crate) fn admit_files<'a, F: Files, E: Write>(
    alloc: Global,
    files: &F,
    errors: &mut E,
    request: RunRequest<'a>,
    text: &'a str,
) -> Result<bool, Stop<'a>>
    ensures { IfErr result RefusesNothing }
{
    let outputs = list_outputs(alloc, request.trace)?;
    let named = RunFiles::of(alloc, request.path, text)?;
    try_outputs(files, named.written.as_slice())?;
    let clash = match find_lost(alloc, files, outputs.as_slice(), named) {
        Ok(clash) => clash,
        Err(error) => return Err(Stop::of_file(request.path, error)),
    };
    match clash {
        Some(clash) => {
            // Where standard error takes nothing, the status alone says it.
            let _ = say_clash(errors, request.path, clash);
            Ok(false)
        }
        None => match try_outputs(files, outputs.as_slice()) {
            Ok(()) => Ok(true),
            Err(stop) => Err(stop),
        },
    }
}
