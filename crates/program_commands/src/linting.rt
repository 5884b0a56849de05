//! The command that tells what an author surely didn't mean.
ghost use Rattle.std.specs.Prelude.{◌≡◌, ℕ, List};
ghost use Rattle.std.specs.Io.KnownBytes.{Appends};
ghost use Rattle.seq_inputs.specs.declared.refusal.Refusal.{Refusal};
ghost use Rattle.seq_inputs.specs.Stops.{Tells};
ghost use Rattle.seq_inputs.specs.Refusals.{line_of};
ghost use Rattle.trace_files.specs.Files.{no_outputs};
ghost use Rattle.program_commands.specs.Commands.{IsAccepted, VerifyRefuses};

use crate::lint_ending::LintEnding;
use crate::lint_request::LintRequest;
use crate::note_rules::NoteRules;
use crate::noting::{ToldNotes, lines_of_header, lines_of_notes, tell_notes};
use crate::verifying::verify_at;
use micro_program::Verified;
use seq_files::Files;
use seq_inputs::{Console, Exit, Style, end_without_memory, fail_as, finish, say_counted};
use std::alloc::{AllocError, Allocator};
use std::io::Write;
use trace_files::TraceOutputs;

/// What is wanted of a microprogram that is accepted.
#[derive(Clone, Copy, Debug, PartialEq, Eq)]
pub enum LintOutput {
    /// The notes to it, a line each, and how many they are.
    Notes,
    /// The notes to it as JSON, one object a line.
    Json,
    /// The three header lines with the least numbers that are enough.
    Header,
}

impl LintOutput {
    // How what is wrong is said.
    fn style(self) -> Style {
        match self {
            LintOutput::Notes | LintOutput::Header => Style::Plain,
            LintOutput::Json => Style::Json,
        }
    }

    // What is printed of a microprogram that was read from these bytes.
    fn lines<A: Allocator + Clone>(
        self,
        alloc: A,
        path: &str,
        bytes: &[u8],
        verified: &Verified<A>,
        rules: NoteRules<'_>,
    ) -> Result<ToldNotes<A>, AllocError> {
        match self {
            LintOutput::Notes => lines_of_notes(alloc, path, bytes, verified, rules),
            LintOutput::Json => tell_notes(alloc, Style::Json, path, bytes, verified, rules),
            LintOutput::Header => lines_of_header(alloc, verified),
        }
    }
}

// Prints what is told of the notes to a microprogram.
fn print_notes<A: Allocator, W: Write, E: Write, P>(
    console: &mut Console<W, E, P>,
    told: &ToldNotes<A>,
) -> LintEnding
    ensures done { result ≡ LintEnding.Exit Exit.Done → (printed : List ℕ) × Appends (W.contents console.old.output) (W.contents console.new.output) printed }
    ensures denied { result ≡ LintEnding.Denied → (printed : List ℕ) × Appends (W.contents console.old.output) (W.contents console.new.output) printed }
    ensures refused { (refusal : Refusal) → result ≡ LintEnding.Exit (Exit.Refused refusal) → ⊥ }
{
    match finish(console, told.lines.as_str()) {
        Exit::Done => {
            if told.is_denied {
                LintEnding::Denied
            } else {
                LintEnding::Exit(Exit::Done)
            }
        }
        exit => LintEnding::Exit(exit),
    }
}

/// Tells what the author of a microprogram surely didn't mean, though it is accepted for the geometry of a parameter page; or which header would be enough.
///
/// `Done`: [`verify_file`](crate::verify_file) would accept it, and the notes to it are printed, or the header lines. `Denied`: so are they, and one of them
/// isn't to pass. `Refused`: `verify_file` would refuse it so. `FileFault`: a file couldn't be read, or the output couldn't be written. No file is written.
pub fn lint_file<A: Allocator + Clone, F: Files, W: Write, E: Write, P>(
    alloc: A,
    files: &mut F,
    console: &mut Console<W, E, P>,
    request: LintRequest<'_>,
) -> LintEnding
    ensures done { result ≡ LintEnding.Exit Exit.Done → (printed : List ℕ) × IsAccepted (F.store files.old) request.entry.page request.entry.input.now
        × Appends (W.contents console.old.output) (W.contents console.new.output) printed }
    ensures denied { result ≡ LintEnding.Denied → (printed : List ℕ) × IsAccepted (F.store files.old) request.entry.page request.entry.input.now
        × Appends (W.contents console.old.output) (W.contents console.new.output) printed }
    ensures refused { (refusal : Refusal) → result ≡ LintEnding.Exit (Exit.Refused refusal)
        → Tells (VerifyRefuses (F.store files.old) (F.store files.old) request.entry.page request.entry.input.now no_outputs) refusal
        × Appends (W.contents console.old.output) (W.contents console.new.output) (line_of refusal) }
    ensures stays { F.store files.new ≡ F.store files.old }
{
    let LintRequest {
        page,
        input,
        output,
        rules,
    } = request;
    let copy = match alloc.clone() {
        Ok(copy) => copy,
        Err(_) => return LintEnding::Exit(end_without_memory(console)),
    };
    match verify_at(copy, files, page, input, TraceOutputs::NONE, 0) {
        Ok((bytes, verified)) => {
            match output.lines(alloc, input, bytes.as_slice(), &verified, rules) {
                Ok(told) => {
                    say_counted(
                        &mut console.errors,
                        output.style(),
                        input,
                        bytes.as_slice(),
                        verified.text(),
                    );
                    print_notes(console, &told)
                }
                Err(_) => LintEnding::Exit(end_without_memory(console)),
            }
        }
        Err(stop) => LintEnding::Exit(fail_as(alloc, console, output.style(), stop)),
    }
}
