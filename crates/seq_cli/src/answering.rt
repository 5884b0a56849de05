//! What the program does with its words, and its status.

use crate::command::{Command, command_on, ending_of};
use crate::command_line;
use crate::lent_progress::LentProgress;
use crate::mistake::{Mistake, PathMistake};
use crate::named_command::NamedCommand;
use crate::named_lines::NamedLines;
use clap::Error;
use clap::error::ErrorKind;
use program_commands::lint_file;
use recording::Ending;
use seq_files::{FileError, Files};
use seq_inputs::{Console, Exit, Stop, end_without_memory, fail};
use seq_run::{NoClock, RunProgress};
use shown_text::Escaped;
use std::alloc::Global;
use std::io::{self, Read, Write};
use std::sync::Wait;
use std::thread::Threads;
use std::time::Clock;
use trace_commands::check_trace;
use trace_text::CheckProgress;

// Shows the parser's text: help on the output, or a mistake on the errors.
fn show<W: Write, E: Write, P>(
    alloc: Global,
    console: &mut Console<W, E, P>,
    error: &Error,
) -> Exit {
    if error.kind() == ErrorKind::OutOfMemory {
        return end_without_memory(console);
    }
    if error.use_stderr() {
        let _ = write!(&mut console.errors, "{}", Escaped(error));
        return Exit::Usage;
    }
    match write!(&mut console.output, "{error}") {
        Ok(()) => Exit::Done,
        Err(fault) => {
            let stop = Stop::<Global>::of_file("-", FileError::of(&fault));
            fail(alloc, console, None, stop)
        }
    }
}

// What comes of words that give no command.
fn say_mistake<W: Write, E: Write, P>(
    alloc: Global,
    console: &mut Console<W, E, P>,
    mistake: Mistake<'_>,
) -> Exit {
    match mistake {
        Mistake::Words(error) => show(alloc, console, &error),
        Mistake::NoCommand
        | Mistake::Base(_)
        | Mistake::Steps { .. }
        | Mistake::Glitch(_)
        | Mistake::Outputs(_)
        | Mistake::Declared(_)
        | Mistake::NotMade(_)
        | Mistake::Mapping(_)
        | Mistake::NoteCode { .. }
        | Mistake::NoteTwice(_)
        | Mistake::NoPage
        | Mistake::PageNumber { .. }
        | Mistake::FromMiddle(_)
        | Mistake::Timing(_)
        | Mistake::Data(_)
        | Mistake::Ops(_)
        | Mistake::Paths(_) => {
            let _ = write!(&mut console.errors, "{}", Escaped(&mistake));
            Exit::Usage
        }
    }
}

// What comes of words that aren't UTF-8, or for which memory is refused.
fn end_without_words<W: Write, E: Write, P>(
    console: &mut Console<W, E, P>,
    error: &io::Error,
) -> Exit {
    if error.kind() == io::ErrorKind::OutOfMemory {
        return end_without_memory(console);
    }
    let _ = writeln!(&mut console.errors, "error: the command line isn't UTF-8");
    Exit::Usage
}

// How grave an ending is beside others: one that another run may change most, then what is refused, what isn't to pass, and what is done.
fn gravity_of(ending: Ending) -> u8 {
    match ending {
        Ending::Exit(Exit::Done) => 0,
        Ending::Flagged => 1,
        Ending::Exit(Exit::Refused(_)) | Ending::Faulty(_) => 2,
        Ending::Exit(Exit::FileFault | Exit::ReaderGone) => 3,
        Ending::Exit(Exit::Usage) => 4,
        Ending::Exit(Exit::TooManySteps | Exit::OutOfMemory) => 5,
    }
}

// How two commands end, one after the other: as the graver ending says.
fn end_of_both(first: Ending, second: Ending) -> Ending {
    if gravity_of(second) > gravity_of(first) {
        second
    } else {
        first
    }
}

// Works on a file; where a file of it can't be read, that is printed too.
fn do_to_file<F: Files, W: Write, E: Write, P: CheckProgress>(
    alloc: Global,
    files: &mut F,
    console: &mut Console<W, E, P>,
    command: NamedCommand<'_>,
) -> Ending {
    let ending = match command {
        NamedCommand::Check(request) => check_trace(alloc, files, console, request),
        NamedCommand::Lint(request) => ending_of(lint_file(alloc, files, console, request)),
    };
    if matches!(ending, Ending::Exit(Exit::FileFault)) {
        let _ = writeln!(&mut console.output, "unreadable");
    }
    ending
}

// Works on one of several files: each line that is printed names it.
fn do_to_named<F: Files, W: Write, E: Write, P: CheckProgress>(
    alloc: Global,
    files: &mut F,
    console: &mut Console<W, E, P>,
    command: NamedCommand<'_>,
) -> Ending {
    let Console {
        output,
        errors,
        progress,
    } = console;
    let mut named = Console {
        output: NamedLines::new(output, command.path()),
        errors,
        progress: LentProgress(progress),
    };
    do_to_file(alloc, files, &mut named, command)
}

// Does a command, unless it would lose a file that it names.
fn do_one<
    T: Threads + Wait + Sync,
    C: Clock,
    F: Files,
    R: Read,
    W: Write,
    E: Write,
    P: CheckProgress + RunProgress,
>(
    rt: &T,
    clock: &C,
    alloc: Global,
    files: &mut F,
    input: &mut R,
    console: &mut Console<W, E, P>,
    command: Command<'_>,
) -> Ending {
    match PathMistake::among_files(alloc, files, command) {
        Ok(None) => command_on(rt, clock, alloc, files, input, console, command),
        Ok(Some(mistake)) => Ending::Exit(say_mistake(alloc, console, Mistake::Paths(mistake))),
        Err(_) => Ending::Exit(end_without_memory(console)),
    }
}

// Does commands one after the other.
fn do_all<
    T: Threads + Wait + Sync,
    C: Clock,
    F: Files,
    R: Read,
    W: Write,
    E: Write,
    P: CheckProgress + RunProgress,
>(
    rt: &T,
    clock: &C,
    alloc: Global,
    files: &mut F,
    input: &mut R,
    console: &mut Console<W, E, P>,
    commands: &[Command<'_>],
) -> Ending {
    let mut ending = Ending::Exit(Exit::Done);
    for command in commands {
        let next = match NamedCommand::among(commands, *command) {
            Some(named) => do_to_named(alloc, files, console, named),
            None => do_one(rt, clock, alloc, files, input, console, *command),
        };
        ending = end_of_both(ending, next);
    }
    ending
}

/// Does what the words ask for, the first of which is the name of the program. A run starts threads by the handle and takes the time by the clock.
pub fn answer_watched<
    T: Threads + Wait + Sync,
    C: Clock,
    F: Files,
    R: Read,
    W: Write,
    E: Write,
    P: CheckProgress + RunProgress,
>(
    rt: &T,
    clock: &C,
    alloc: Global,
    words: io::Result<Vec<String>>,
    files: &mut F,
    input: &mut R,
    console: &mut Console<W, E, P>,
) -> Ending {
    let words = match words {
        Ok(words) => words,
        Err(error) => return Ending::Exit(end_without_words(console, &error)),
    };
    let images = match command_line::read_images(alloc, words.as_slice()) {
        Ok(images) => images,
        Err(mistake) => return Ending::Exit(say_mistake(alloc, console, mistake)),
    };
    match command_line::parse_all(alloc, words.as_slice(), images.as_slice()) {
        Ok(commands) => do_all(rt, clock, alloc, files, input, console, commands.as_slice()),
        Err(mistake) => Ending::Exit(say_mistake(alloc, console, mistake)),
    }
}

/// The same without a clock.
pub fn answer<
    T: Threads + Wait + Sync,
    F: Files,
    R: Read,
    W: Write,
    E: Write,
    P: CheckProgress + RunProgress,
>(
    rt: &T,
    alloc: Global,
    words: io::Result<Vec<String>>,
    files: &mut F,
    input: &mut R,
    console: &mut Console<W, E, P>,
) -> Ending {
    answer_watched(rt, &NoClock, alloc, words, files, input, console)
}
