//! What the program is asked to do, and doing it.
ghost use Rattle.std.specs.Prelude.{◌≡◌, List, ℕ};
ghost use Rattle.std.specs.Io.KnownBytes.{Appends};
ghost use Rattle.seq_inputs.specs.declared.refusal.Refusal.{Refusal};
ghost use Rattle.recording.specs.declared.recording_fault.RecordingFault.{RecordingFault};
ghost use Rattle.seq_cli.specs.Commands.{ending_of, IsDone, MayFlag, MayRefuse, MayTell, MayLeave};

use edge_commands::{EdgeRequest, time_capture};
use nand_geometry::Parts;
use operation_commands::{OpsRequest, list_operations};
use page_commands::{make_page, show_page};
use program_commands::{
    LintEnding, LintRequest, VerifyRequest, assemble_file, assemble_file_for, disassemble_file,
    explain_file, lint_file, upgrade_file, verify_file,
};
use recording::{
    CaptureRequest, CheckRequest, Ending, LINUX, TimesRequest, TimingSource, TraceRequest,
};
use run_once::run_program;
use seq_files::Files;
use seq_inputs::{Console, Exit, PageFile, Style};
use seq_run::{RunProgress, RunRequest, run_watched};
use std::alloc::Global;
use std::io::{Read, Write};
use std::sync::Wait;
use std::thread::Threads;
use std::time::Clock;
use trace_commands::{
    DrawRequest, ImageRequest, PageRequest, capture_trace, check_trace, draw_trace, take_page,
    write_image,
};
use trace_files::TraceOutputs;
use trace_text::CheckProgress;

/// A command with its paths. `-` as a path that is read is standard input.
#[derive(Clone, Copy, Debug, PartialEq, Eq)]
pub enum Command<'a> {
    /// To assemble a text into a word file.
    Assemble {
        input: &'a str,
        target: &'a str,
    },
    /// To assemble a text, with a header or without, into a word file with the least header that is enough for the geometry of a parameter page.
    AssembleFor {
        page: PageFile<'a>,
        input: &'a str,
        target: &'a str,
    },
    /// To verify a microprogram, as a word file or an assembly text, for the geometry of a parameter page. Where a refusal has its run, the files
    /// that are asked for of it are written. The notes to one that is accepted are said on standard error, unless it is to be quiet. What is said there is in a style.
    Verify(VerifyRequest<'a>),
    /// To print the notes to a microprogram that is accepted, or the header that is enough for it.
    Lint(LintRequest<'a>),
    /// To tell what is known before each word of a microprogram.
    Explain {
        page: PageFile<'a>,
        input: &'a str,
        style: Style,
    },
    /// To run the microprogram on standard input once, its rows counted from this index.
    Once {
        base: u32,
    },
    /// To run a channel as a run file says.
    Run(RunRequest<'a>),
    /// To write or to print the trace that a capture of a bus shows.
    Capture(CaptureRequest<'a>),
    /// To check a trace: whether it is legal on a channel, and where it is asked for, whether its times keep those of a chip and its outputs give what its dies hold.
    Check(CheckRequest<'a>),
    /// To judge the edges of a capture.
    Timing(EdgeRequest<'a>),
    /// To write what a die holds after a trace.
    WriteImage(ImageRequest<'a>),
    /// To list the operations of a trace.
    ListOperations(OpsRequest<'a>),
    /// To draw a trace, as a waveform, as a picture or as a page.
    Draw(DrawRequest<'a>),
    /// To print the assembly text of a word file.
    Disassemble {
        input: &'a str,
    },
    /// To make the parameter page of a chip with these numbers.
    MakePage {
        parts: Parts,
        target: &'a str,
    },
    /// To take a parameter page of a trace or a capture.
    TakePage(PageRequest<'a>),
    /// To show what a parameter page declares.
    ShowPage(PageFile<'a>),
    /// To write a word file of either format as one of format 2.
    Upgrade {
        input: &'a str,
        target: &'a str,
    },
}

/// The files that a command names: those that it reads, and those that it writes.
#[derive(Clone, Copy)]
pub(crate) struct Paths<'a> {
    pub inputs: [Option<&'a str>; 4],
    pub outputs: [Option<&'a str>; 3],
}

// One file that is read.
fn one_read<'a>(input: &'a str) -> [Option<&'a str>; 4] {
    [Some(input), None, None, None]
}

// Two files that are read.
fn both<'a>(first: &'a str, second: &'a str) -> [Option<&'a str>; 4] {
    [Some(first), Some(second), None, None]
}

// The vendor file that is read, unless it is the one that is built in.
fn file_of(vendor: Option<&str>) -> Option<&str> {
    match vendor {
        Some(path) if path != LINUX => Some(path),
        Some(_) | None => None,
    }
}

// One file that is written, if there is one.
fn one<'a>(path: Option<&'a str>) -> [Option<&'a str>; 3] {
    [path, None, None]
}

// The files that are written of a trace.
fn paths_of<'a>(outputs: TraceOutputs<'a>) -> [Option<&'a str>; 3] {
    let TraceOutputs {
        text,
        wave,
        drawing,
    } = outputs;
    [text, wave, drawing.map(|drawing| drawing.path)]
}

// The timing file that is read, if one is.
fn timing_file_of<'a>(source: TimingSource<'a>) -> Option<&'a str> {
    match source {
        TimingSource::Mode(_) => None,
        TimingSource::File(path) => Some(path),
    }
}

// What is read of a trace, and a file beside it.
fn inputs_of<'a>(trace: TraceRequest<'a>, beside: Option<&'a str>) -> [Option<&'a str>; 4] {
    [
        Some(trace.page),
        file_of(trace.vendor),
        beside,
        Some(trace.input),
    ]
}

// The timing file of a check, if it has one.
fn timing_of<'a>(times: Option<TimesRequest<'a>>) -> Option<&'a str> {
    timing_file_of(times?.source)
}

impl<'a> Command<'a> {
    /// Its paths. No image that a check is given is `-`, and none is one of the files that it writes.
    pub(crate) fn paths(self) -> Paths<'a> {
        let (inputs, outputs) = match self {
            Command::Assemble { input, target } | Command::Upgrade { input, target } => {
                (one_read(input), one(Some(target)))
            }
            Command::AssembleFor {
                page,
                input,
                target,
            } => (both(page.path, input), one(Some(target))),
            Command::Verify(request) => {
                (
                    both(request.page.path, request.input),
                    paths_of(request.counter),
                )
            }
            Command::Lint(request) => (both(request.page.path, request.input), one(None)),
            Command::Explain {
                page,
                input,
                style: _,
            } => (both(page.path, input), one(None)),
            Command::Once { .. } => ([None, None, None, None], one(None)),
            Command::Run(request) => (one_read(request.path), paths_of(request.trace)),
            Command::Capture(request) => (
                [
                    Some(request.page),
                    file_of(request.vendor),
                    Some(request.input),
                    None,
                ],
                one(request.target),
            ),
            Command::Check(request) => (
                inputs_of(request.trace, timing_of(request.times)),
                one(request.copy),
            ),
            Command::Timing(request) => (
                [
                    Some(request.page),
                    timing_file_of(request.source),
                    Some(request.input),
                    None,
                ],
                one(None),
            ),
            Command::WriteImage(request) => {
                (
                    inputs_of(request.trace, request.on),
                    one(Some(request.output)),
                )
            }
            Command::ListOperations(request) => (inputs_of(request.trace, None), one(None)),
            Command::Draw(request) => (inputs_of(request.trace, None), one(Some(request.target))),
            Command::Disassemble { input } => (one_read(input), one(None)),
            Command::ShowPage(page) => (one_read(page.path), one(None)),
            Command::MakePage { parts: _, target } => ([None, None, None, None], one(Some(target))),
            Command::TakePage(request) => (
                [file_of(request.vendor), Some(request.input), None, None],
                one(Some(request.target)),
            ),
        };
        Paths { inputs, outputs }
    }
}

/// How a command ends that is a lint.
pub(crate) fn ending_of(lint: LintEnding) -> Ending
    ensures { result ≡ ending_of lint }
{
    match lint {
        LintEnding::Exit(exit) => Ending::Exit(exit),
        LintEnding::Denied => Ending::Flagged,
    }
}

/// Does a command, as its own function says: [`run_program`] of the input, [`run_watched`], or one of `page_commands`, `program_commands`, `trace_commands`, `edge_commands` or `operation_commands`. What is wrong with a file is said in
/// words on the console's errors, and so is a fault of a file or a stream, or that there is no memory; its progress is told how far a check or a run has
/// come. A run starts threads by the handle and takes the time by the clock.
pub fn command_on<
    T: Threads + Wait + Sync,
    C: Clock,
    F: Files,
    R: Read,
    W: Write,
    E: Write,
    P: CheckProgress + RunProgress,
>(
    rt: &T,
    clock: &C,
    alloc: Global,
    files: &mut F,
    input: &mut R,
    console: &mut Console<W, E, P>,
    command: Command<'_>,
) -> Ending
    ensures done { result ≡ Ending.Exit Exit.Done → (printed : List ℕ)
        × IsDone command.entry (R.remaining input.old) (F.store files.old) (F.store files.new) printed
        × Appends (W.contents console.old.output) (W.contents console.new.output) printed }
    ensures flagged { result ≡ Ending.Flagged → (printed : List ℕ)
        × MayFlag command.entry (F.store files.old) (F.store files.new) printed
        × Appends (W.contents console.old.output) (W.contents console.new.output) printed }
    ensures refused { (refusal : Refusal) → result ≡ Ending.Exit (Exit.Refused refusal) → (printed : List ℕ)
        × MayRefuse command.entry (R.remaining input.old) (F.store files.old) (F.store files.new) refusal printed
        × Appends (W.contents console.old.output) (W.contents console.new.output) printed }
    ensures faulty { (fault : RecordingFault) → result ≡ Ending.Faulty fault → (printed : List ℕ)
        × MayTell command.entry (F.store files.old) (F.store files.new) fault printed
        × Appends (W.contents console.old.output) (W.contents console.new.output) printed }
    ensures files { MayLeave command.entry (F.store files.old) (F.store files.new) }
{
    match command {
        Command::Assemble { input, target } => {
            Ending::Exit(assemble_file(alloc, files, console, input, target))
        }
        Command::AssembleFor {
            page,
            input,
            target,
        } => Ending::Exit(assemble_file_for(alloc, files, console, page, input, target)),
        Command::Verify(request) => Ending::Exit(verify_file(alloc, files, console, request)),
        Command::Lint(request) => ending_of(lint_file(alloc, files, console, request)),
        Command::Explain { page, input, style } => {
            Ending::Exit(explain_file(alloc, files, console, page, input, style))
        }
        Command::Once { base } => Ending::Exit(run_program(&alloc, input, console, base)),
        Command::Run(request) => {
            Ending::Exit(run_watched(rt, clock, alloc, files, console, request))
        }
        Command::Capture(request) => capture_trace(alloc, files, console, request),
        Command::Check(request) => check_trace(alloc, files, console, request),
        Command::Timing(request) => time_capture(alloc, files, console, request),
        Command::WriteImage(request) => write_image(alloc, files, console, request),
        Command::ListOperations(request) => list_operations(alloc, files, console, request),
        Command::Draw(request) => draw_trace(alloc, files, console, request),
        Command::Disassemble { input } => {
            Ending::Exit(disassemble_file(alloc, files, console, input))
        }
        Command::MakePage { parts, target } => {
            Ending::Exit(make_page(alloc, files, console, parts, target))
        }
        Command::TakePage(request) => take_page(alloc, files, console, request),
        Command::ShowPage(page) => Ending::Exit(show_page(alloc, files, console, page)),
        Command::Upgrade { input, target } => {
            Ending::Exit(upgrade_file(alloc, files, console, input, target))
        }
    }
}
