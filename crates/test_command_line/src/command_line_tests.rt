// What the words of the command line ask for: each option of a run, and each command that the help lists. And an input of `once` without an
// end.
use crate::once_tests::{new_console, no_line_is_wrong};
use bus_capture::CaptureForm;
use clap::error::ErrorKind as UsageKind;
use nand_geometry::Profile;
use recording::{CaptureRequest, Targets};
use run_once::once_on;
use seq_cli::{Command, Mistake, parse};
use seq_inputs::Exit;
use seq_run::{MOST_STEPS, RunRequest};
use std::alloc::{AllocError, Global};
use std::io::{self, Read};
use std::process::Abort;
use std::test::Fail;
use trace_commands::DrawRequest;
use trace_files::{DrawForm, Drawing, TraceOutputs};
use trace_timing::TimingMode;

// The words of a command line, behind the name of the program.
fn words_of(alloc: Global, line: &str) -> Result<Vec<String>, AllocError> {
    let mut words = Vec::new(alloc);
    words.push(String::from_str(alloc, "onfiseq")?)?;
    for word in line.split(' ') {
        words.push(String::from_str(alloc, word)?)?;
    }
    Ok(words)
}

// ---- the options of a run

const RUN: RunRequest<'static> = RunRequest {
    path: "f",
    profile: Profile::Base,
    max_steps: MOST_STEPS,
    workers: 1,
    is_quiet: false,
    times: None,
    trace: TraceOutputs::NONE,
    has_stats: false,
};

// Words, and what they ask for.
const REQUESTS: &[(&str, RunRequest<'static>)] = &[
    ("run f", RUN),
    (
        "run f --quiet",
        RunRequest {
            is_quiet: true,
            ..RUN
        },
    ),
    (
        "run f --times 3",
        RunRequest {
            times: Some(TimingMode::Three),
            ..RUN
        },
    ),
    (
        "run f --trace out",
        RunRequest {
            trace: TraceOutputs {
                text: Some("out"),
                ..TraceOutputs::NONE
            },
            ..RUN
        },
    ),
    (
        "run f --wave out",
        RunRequest {
            trace: TraceOutputs {
                wave: Some("out"),
                ..TraceOutputs::NONE
            },
            ..RUN
        },
    ),
    (
        "run f --draw out.svg",
        RunRequest {
            trace: TraceOutputs {
                drawing: Some(Drawing {
                    form: DrawForm::Picture,
                    path: "out.svg",
                }),
                ..TraceOutputs::NONE
            },
            ..RUN
        },
    ),
    (
        "run --draw out.html f --trace out",
        RunRequest {
            trace: TraceOutputs {
                text: Some("out"),
                drawing: Some(Drawing {
                    form: DrawForm::Page,
                    path: "out.html",
                }),
                ..TraceOutputs::NONE
            },
            ..RUN
        },
    ),
    (
        "run f --stats",
        RunRequest {
            has_stats: true,
            ..RUN
        },
    ),
    ("run --workers=8 f", RunRequest { workers: 8, ..RUN }),
    (
        "run f --max-steps 18446744073709551615",
        RunRequest {
            max_steps: u64::MAX,
            ..RUN
        },
    ),
    (
        "run --stats --trace out f --max-steps 7 --workers 6 --quiet",
        RunRequest {
            path: "f",
            profile: Profile::Base,
            max_steps: 7,
            workers: 6,
            is_quiet: true,
            times: None,
            trace: TraceOutputs {
                text: Some("out"),
                ..TraceOutputs::NONE
            },
            has_stats: true,
        },
    ),
];

// These words ask for this command.
fn asks_for(alloc: Global, line: &str, command: Command<'_>) -> Result<bool, AllocError> {
    let words = words_of(alloc, line)?;
    Ok(match parse(alloc, words.as_slice(), &[]) {
        Ok(asked) => asked == command,
        Err(_) => false,
    })
}

// The first of the lines that asks for another run.
fn first_other_run(alloc: Global) -> Result<Option<&'static str>, AllocError> {
    for (line, request) in REQUESTS {
        if !asks_for(alloc, line, Command::Run(*request))? {
            return Ok(Some(line));
        }
    }
    Ok(None)
}

// Whether a run with so many workers is asked for.
fn takes_workers(alloc: Global, workers: u8) -> Result<bool, AllocError> {
    let line = format!(in alloc; "run f --workers {workers}")?;
    let request = RunRequest { workers, ..RUN };
    asks_for(alloc, line.as_str(), Command::Run(request))
}

// The first number of workers that isn't taken.
fn first_refused_workers(alloc: Global) -> Result<Option<u8>, AllocError> {
    for workers in 1..=8u8 {
        if !takes_workers(alloc, workers)? {
            return Ok(Some(workers));
        }
    }
    Ok(None)
}

// The number of workers is refused as a value.
fn is_no_value(alloc: Global, line: &str) -> Result<bool, AllocError> {
    let words = words_of(alloc, line)?;
    match parse(alloc, words.as_slice(), &[]) {
        Err(Mistake::Words(error)) => Ok(error.kind() == UsageKind::InvalidValue),
        Ok(_) | Err(_) => Ok(false),
    }
}

#[test]
fn options_of_a_run(rt: HostRuntime) -> Result<(), Fail> {
    no_line_is_wrong(first_other_run(rt.alloc())?)?;
    assert_eq!(rt; first_refused_workers(rt.alloc())?, None);
    let none = is_no_value(rt.alloc(), "run f --workers 0")?;
    let too_many = is_no_value(rt.alloc(), "run f --workers 9")?;
    assert!(rt; none && too_many);
    Ok(())
}

// ---- what signals are

const CAPTURE: CaptureRequest<'static> = CaptureRequest {
    page: "p",
    profile: Profile::Base,
    targets: Targets::Two,
    input: "x",
    form: CaptureForm::Dump,
    target: Some("t"),
    mappings: None,
    has_times: false,
    glitch: 0,
    late: None,
    vendor: None,
};

// Words, and the capture that they ask for.
const CAPTURES: &[(&str, CaptureRequest<'static>)] = &[
    ("capture p 2 x t", CAPTURE),
    (
        "capture p 2 x t --map WE=P17",
        CaptureRequest {
            mappings: Some("WE=P17"),
            ..CAPTURE
        },
    ),
    (
        "capture p 2 --map ce#=CS,R/B#=P3,dq=D x t",
        CaptureRequest {
            mappings: Some("ce#=CS,R/B#=P3,dq=D"),
            ..CAPTURE
        },
    ),
    // How long a glitch is.
    (
        "capture p 2 x t --glitch 10",
        CaptureRequest {
            glitch: 10,
            ..CAPTURE
        },
    ),
    // How far behind the rise of RE# an output is taken.
    (
        "capture p 2 x t --outputs +12",
        CaptureRequest {
            late: Some(12),
            ..CAPTURE
        },
    ),
];

// The first of the lines that asks for another capture.
fn first_other_capture(alloc: Global) -> Result<Option<&'static str>, AllocError> {
    for (line, request) in CAPTURES {
        if !asks_for(alloc, line, Command::Capture(*request))? {
            return Ok(Some(line));
        }
    }
    Ok(None)
}

#[test]
fn what_signals_and_glitches_are(rt: HostRuntime) -> Result<(), Fail> {
    no_line_is_wrong(first_other_capture(rt.alloc())?)
}

// ---- each command that is declared

// The text that these words show: that of the help.
fn show(alloc: Global, line: &str) -> Result<String, Fail> {
    let words = words_of(alloc, line)?;
    match parse(alloc, words.as_slice(), &[]) {
        Ok(_) => Err(Fail::from("the words ask for help")),
        Err(error) => Ok(error.to_string(alloc)?),
    }
}

// The name in a line of the help's list of commands.
fn first_word(line: &str) -> &str {
    line.split_whitespace().next().unwrap_or("")
}

// Adds a word for each argument that a line of usage wants; the target and the LUN are numbers.
fn push_arguments(call: &mut String, usage: &str) -> Result<(), Fail> {
    let mut count: u32 = 0;
    for word in usage.split(' ') {
        if word == "<CE>" || word == "<LUN>" {
            call.push_str(" 0")?;
        } else if word.starts_with('<') {
            count = count.saturating_add(1);
            write!(call, " {count}")?;
        }
    }
    Ok(())
}

// The line of usage in a help.
fn find_usage(help: &str) -> &str {
    for line in help.lines() {
        if line.starts_with("Usage:") {
            return line;
        }
    }
    ""
}

// The name of a command and a word for each argument that it has to be given.
fn make_call(alloc: Global, name: &str) -> Result<String, Fail> {
    let words = format!(in alloc; "help {name}")?;
    let help = show(alloc, words.as_str())?;
    let mut call = String::from_str(alloc, name)?;
    push_arguments(&mut call, find_usage(help.as_str()))?;
    // What `page` and `timing` want is an option.
    match name {
        "page" => call.push_str(" --show 1")?,
        "timing" => call.push_str(" --timing 1")?,
        _ => {}
    }
    Ok(call)
}

// The name of the command that is asked for.
fn name_of(asked: Command<'_>) -> &'static str {
    match asked {
        Command::Once { .. } => "once",
        Command::Run(_) => "run",
        Command::Assemble { .. } => "asm",
        Command::Disassemble { .. } => "dis",
        Command::MakePage { .. } | Command::TakePage(_) | Command::ShowPage(_) => "page",
        Command::Upgrade { .. } => "upgrade",
        Command::AssembleFor { .. } => "asm --auto",
        Command::Verify(_) => "verify",
        Command::Lint(_) => "lint",
        Command::Explain { .. } => "explain",
        Command::Capture(_) => "capture",
        Command::Check(_) => "check",
        Command::Timing(_) => "timing",
        Command::WriteImage(_) => "image",
        Command::ListOperations(_) => "ops",
        Command::Draw(DrawRequest { form, .. }) => match form {
            DrawForm::Waveform => "wave",
            DrawForm::Picture | DrawForm::Page => "draw",
        },
    }
}

// The words of a command ask for that command and for no other.
fn is_told_apart(alloc: Global, name: &str) -> Result<bool, Fail> {
    let call = make_call(alloc, name)?;
    let words = words_of(alloc, call.as_str())?;
    Ok(match parse(alloc, words.as_slice(), &[]) {
        Ok(asked) => name_of(asked) == name,
        Err(_) => false,
    })
}

// How many commands a help lists, whose words each have to ask for that command.
fn count_commands(alloc: Global, help: &str) -> Result<u32, Fail> {
    let mut is_listed = false;
    let mut count: u32 = 0;
    for line in help.lines() {
        if line == "Commands:" {
            is_listed = true;
        } else if line.is_empty() {
            is_listed = false;
        } else if is_listed && first_word(line) != "help" {
            if !is_told_apart(alloc, first_word(line))? {
                return Err(Fail::new(format_args!("another command than that of {line}")));
            }
            count = count.saturating_add(1);
        }
    }
    Ok(count)
}

#[test]
fn each_command_of_the_help_is_asked_for(rt: HostRuntime) -> Result<(), Fail> {
    let help = show(rt.alloc(), "--help")?;
    let count = count_commands(rt.alloc(), help.as_str())?;
    assert!(rt; count == 16);
    Ok(())
}

// ---- an input without an end

// Never at its end: each read gives one byte, or is interrupted.
#[derive(Drop)]
struct Endless {
    gives: bool,
    calls: u32,
}

impl Read for Endless {
    fn read(&mut self, buf: &mut [u8]) -> io::Result<usize> {
        self.calls = self.calls.saturating_add(1);
        if self.gives && !buf.is_empty() {
            buf[0] = b'N';
            return Ok(1);
        }
        Err(io::Error::from(io::ErrorKind::Interrupted))
    }
}

const NO_END: &[u8] = b"file fault -\n-: it has no end, or is a stream of more than 512 MiB\n";

// It is read so often and no more, and nothing is written.
fn has_no_end(alloc: Global, gives: bool) -> bool {
    let mut endless = Endless { gives, calls: 0 };
    let mut console = new_console(alloc);
    let exit = once_on(&alloc, &mut endless, &mut console, 4);
    exit == Exit::FileFault
        && endless.calls == 1_048_576
        && console.output.is_empty()
        && console.errors.as_slice() == NO_END
}

#[test]
fn an_input_without_an_end(rt: HostRuntime) {
    let gives = has_no_end(rt.alloc(), true);
    let is_interrupted = has_no_end(rt.alloc(), false);
    assert!(rt; gives && is_interrupted);
}
