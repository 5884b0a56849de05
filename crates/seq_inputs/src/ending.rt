//! How a command ends: what it writes then.
ghost use Rattle.std.specs.Prelude.{◌≡◌, ◌⊎◌, Some, None, OnOk};
ghost use Rattle.std.specs.Io.KnownBytes.{Appends};
ghost use Rattle.seq_inputs.specs.declared.refusal.Refusal.{Refusal};
ghost use Rattle.seq_inputs.specs.Exits.{IsUnwritten};
ghost use Rattle.seq_inputs.specs.Stops.{refusal_in, exit_of};
ghost use Rattle.seq_inputs.specs.Refusals.{line_of};

use crate::console::Console;
use crate::exit::Exit;
use crate::refusal::Refusal;
use crate::stop::{MOST_BUFFER_BYTES, Stop};
use crate::style::Style;
use crate::told::Told;
use crate::words::Words;
use seq_files::{FileError, FileFault, write_text};
use shown_text::Shown;
use std::alloc::{Allocator, Global};
use std::fmt;
use std::io::{self, Write};

// Writes the line of a refusal.
fn refuse<A: Allocator, W: Write>(
    alloc: A,
    output: &mut W,
    refusal: Refusal,
) -> Result<(), FileError>
    ensures { OnOk result (Appends (W.contents output.old) (W.contents output.new) (line_of refusal)) }
{
    let line = refusal.text(alloc)?;
    write_text(output, line.as_str())
}

// Where a file is named: this line of the run file of this path.
#[derive(Clone, Copy)]
struct NamedBy<'a> {
    run: Option<&'a str>,
    line: Option<usize>,
}

impl fmt::Display for NamedBy<'_> {
    fn fmt<W: fmt::Write>(&self, f: &mut fmt::Formatter<W>) -> fmt::Result {
        match (self.run, self.line) {
            (Some(run), Some(line)) => write!(f, "{}:{line}: ", Shown::path(run)),
            (Some(_) | None, None) | (None, Some(_)) => Ok(()),
        }
    }
}

// Says a refusal in words, unless there was no memory for them.
fn say_refusal<A: Allocator, E: Write>(
    errors: &mut E,
    named: NamedBy<'_>,
    words: Option<Words<'_, A>>,
) -> io::Result<()> {
    match words {
        Some(words) => writeln!(errors, "{named}{words}"),
        None => Ok(()),
    }
}

// Whether a path of a run file counts from where one stands, though the run file lies elsewhere.
fn counts_from_elsewhere(named: NamedBy<'_>, path: &str) -> bool {
    match (named.run, named.line) {
        (Some(run), Some(_)) => run.contains('/') && !path.starts_with('/'),
        (Some(_) | None, None) | (None, Some(_)) => false,
    }
}

// Says of a file or a stream that it couldn't be read or written, and why.
fn say_file_fault<E: Write>(
    errors: &mut E,
    named: NamedBy<'_>,
    path: &str,
    fault: FileFault,
) -> io::Result<()> {
    let shown = Shown::path(path);
    writeln!(errors, "file fault {shown}")?;
    write!(errors, "{named}{shown}: {fault}")?;
    if fault == FileFault::NotFound && counts_from_elsewhere(named, path) {
        write!(
            errors,
            ": paths in a run file count from where `onfiseq` is started, and not from the run file"
        )?;
    }
    if path.ends_with('\r') {
        write!(
            errors,
            ": its path ends in a carriage return, as only LF ends a line"
        )?;
    }
    writeln!(errors)
}

// Says that there is no memory for the buffers of a run.
fn say_too_large<E: Write>(errors: &mut E, named: NamedBy<'_>, bytes: u64) -> io::Result<()> {
    writeln!(
        errors,
        "{named}with this job the buffers have {bytes} bytes, more than {MOST_BUFFER_BYTES}"
    )?;
    writeln!(errors, "out of memory")
}

// Says in words why a command isn't done. Where standard error takes nothing, standard output and the status alone say it.
fn say<A: Allocator, E: Write>(
    errors: &mut E,
    run: Option<&str>,
    stop: Stop<'_, A>,
) -> io::Result<()> {
    match stop {
        Stop::Refused { refusal, words } => {
            let line = refusal.line;
            say_refusal(errors, NamedBy { run, line }, words)?;
        }
        Stop::FileFault { path, fault, line } => {
            say_file_fault(errors, NamedBy { run, line }, path, fault)?;
        }
        Stop::ReaderGone => {}
        Stop::BuffersTooLarge { bytes, line } => {
            say_too_large(errors, NamedBy { run, line }, bytes)?;
        }
        Stop::OutOfMemory => writeln!(errors, "out of memory")?,
    }
    errors.flush()
}

// Says a refusal to a tool, unless there was no memory for its words.
fn say_refusal_as_json<A: Allocator, E: Write>(
    errors: &mut E,
    refusal: Refusal,
    words: Option<Words<'_, A>>,
) -> io::Result<()> {
    match words {
        Some(words) => writeln!(errors, "{}", Told::of(refusal.fault, &words)),
        None => Ok(()),
    }
}

// Says of a file or a stream to a tool that it couldn't be read or written.
fn say_file_fault_as_json<E: Write>(
    errors: &mut E,
    path: &str,
    fault: FileFault,
) -> io::Result<()> {
    let told = Told {
        path: Some(path),
        ..Told::message(&fault)
    };
    writeln!(errors, "{told}")
}

// Says to a tool why a command isn't done, as one JSON object in a line.
fn say_as_json<A: Allocator, E: Write>(errors: &mut E, stop: Stop<'_, A>) -> io::Result<()> {
    match stop {
        Stop::Refused { refusal, words } => say_refusal_as_json(errors, refusal, words)?,
        Stop::FileFault { path, fault, .. } => say_file_fault_as_json(errors, path, fault)?,
        Stop::ReaderGone => {}
        Stop::BuffersTooLarge { .. } | Stop::OutOfMemory => {
            writeln!(errors, "{}", Told::message(&"out of memory"))?;
        }
    }
    errors.flush()
}

// How a command tells why it isn't done: in this style, and of this run file where it is a run.
#[derive(Clone, Copy)]
struct Manner<'a> {
    style: Style,
    run: Option<&'a str>,
}

// A manner of words, of no run file.
const PLAIN: Manner<'static> = Manner {
    style: Style::Plain,
    run: None,
};

// Says why a command isn't done, and how it ends.
fn tell<A: Allocator, E: Write>(errors: &mut E, manner: Manner<'_>, stop: Stop<'_, A>) -> Exit
    ensures { result ≡ exit_of stop.entry }
{
    let exit = stop.exit();
    let _ = match manner.style {
        Style::Plain => say(errors, manner.run, stop),
        Style::Json => say_as_json(errors, stop),
    };
    exit
}

// Ends a command that isn't done: the line of what is refused is written to the output, and what there is to say to the errors.
#[tactic(auto, using(crate::proofs::Refusing::told_is, crate::proofs::Refusing::none_told))]
fn fail_in<A: Allocator, W: Write, E: Write, P>(
    alloc: A,
    console: &mut Console<W, E, P>,
    manner: Manner<'_>,
    stop: Stop<'_, A>,
) -> Exit
    ensures done { result ≡ Exit.Done → ⊥ }
    ensures refused { (refusal : Refusal) → result ≡ Exit.Refused refusal → (refusal_in stop.entry ≡ Some refusal)
        × Appends (W.contents console.old.output) (W.contents console.new.output) (line_of refusal) }
    ensures other { refusal_in stop.entry ≡ None → result ≡ exit_of stop.entry }
    ensures unwritten { (refusal : Refusal) → refusal_in stop.entry ≡ Some refusal → (result ≡ Exit.Refused refusal) ⊎ IsUnwritten result }
{
    let Some(refusal) = stop.refusal() else {
        return tell(&mut console.errors, manner, stop);
    };
    match refuse(alloc, &mut console.output, refusal) {
        Ok(()) => tell(&mut console.errors, manner, stop),
        Err(error) => tell(&mut console.errors, manner, Stop::<A>::of_file("-", error)),
    }
}

/// Ends a command that isn't done, of this run file where it is a run: the line of what is refused is written to the output, and what there is to
/// say in words to the errors.
pub fn fail<A: Allocator, W: Write, E: Write, P>(
    alloc: A,
    console: &mut Console<W, E, P>,
    run: Option<&str>,
    stop: Stop<'_, A>,
) -> Exit
    ensures done { result ≡ Exit.Done → ⊥ }
    ensures refused { (refusal : Refusal) → result ≡ Exit.Refused refusal → (refusal_in stop.entry ≡ Some refusal)
        × Appends (W.contents console.old.output) (W.contents console.new.output) (line_of refusal) }
    ensures other { refusal_in stop.entry ≡ None → result ≡ exit_of stop.entry }
    ensures unwritten { (refusal : Refusal) → refusal_in stop.entry ≡ Some refusal → (result ≡ Exit.Refused refusal) ⊎ IsUnwritten result }
{
    let manner = Manner {
        style: Style::Plain,
        run,
    };
    fail_in(alloc, console, manner, stop)
}

/// The same in a style, of a command that is no run.
pub fn fail_as<A: Allocator, W: Write, E: Write, P>(
    alloc: A,
    console: &mut Console<W, E, P>,
    style: Style,
    stop: Stop<'_, A>,
) -> Exit
    ensures done { result ≡ Exit.Done → ⊥ }
    ensures refused { (refusal : Refusal) → result ≡ Exit.Refused refusal → (refusal_in stop.entry ≡ Some refusal)
        × Appends (W.contents console.old.output) (W.contents console.new.output) (line_of refusal) }
    ensures other { refusal_in stop.entry ≡ None → result ≡ exit_of stop.entry }
    ensures unwritten { (refusal : Refusal) → refusal_in stop.entry ≡ Some refusal → (result ≡ Exit.Refused refusal) ⊎ IsUnwritten result }
{
    fail_in(alloc, console, Manner { style, run: None }, stop)
}

/// Ends a command for which memory was refused.
pub fn end_without_memory<W: Write, E: Write, P>(console: &mut Console<W, E, P>) -> Exit
    ensures { result ≡ Exit.OutOfMemory }
{
    tell(&mut console.errors, PLAIN, Stop::<Global>::OutOfMemory)
}

/// Ends a command that is done: it prints what the command has to say.
pub fn finish<W: Write, E: Write, P>(console: &mut Console<W, E, P>, text: &str) -> Exit
    ensures done { result ≡ Exit.Done → Appends (W.contents console.old.output) (W.contents console.new.output) text.now }
    ensures refused { (refusal : Refusal) → result ≡ Exit.Refused refusal → ⊥ }
    ensures unwritten { (result ≡ Exit.Done) ⊎ IsUnwritten result }
{
    match write_text(&mut console.output, text) {
        Ok(()) => Exit::Done,
        Err(error) => tell(
            &mut console.errors,
            PLAIN,
            Stop::<Global>::of_file("-", error),
        ),
    }
}

/// Says something in words. Where standard error takes nothing, nothing is said.
pub fn say_words<E: Write>(errors: &mut E, words: &str) {
    let _ = errors.write_all(words.as_bytes());
    let _ = errors.flush();
}
