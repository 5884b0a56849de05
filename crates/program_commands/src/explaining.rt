//! The command that tells what is known before each word of a microprogram.
ghost use Rattle.std.specs.Prelude.{◌≡◌, ℕ, List, IfOk, IfErr};
ghost use Rattle.std.specs.Io.KnownBytes.{Appends};
ghost use Rattle.seq_inputs.specs.declared.refusal.Refusal.{Refusal};
ghost use Rattle.seq_inputs.specs.Stops.{Says, Tells};
ghost use Rattle.seq_inputs.specs.Refusals.{line_of};
ghost use Rattle.program_commands.specs.Commands.{ReadRefuses, IsExplained};

use crate::explained::Explained;
use crate::json_lines::lines_of_json;
use crate::paged_program::{PagedProgram, read_paged};
use crate::text_lines::lines_of_text;
use seq_files::Files;
use seq_inputs::{Console, Exit, PageFile, Stop, Style, end_without_memory, fail_as, finish};
use std::alloc::Allocator;
use std::io::Write;

// What is printed of the microprogram at this path.
fn explain_at<'p, A: Allocator + Clone, F: Files>(
    alloc: A,
    files: &mut F,
    page: PageFile<'p>,
    input: &'p str,
    style: Style,
) -> Result<String<A>, Stop<'p, A>>
    ensures ok { IfOk result (λ lines. IsExplained (F.store files.old) page.entry input.now) }
    ensures err { IfErr result (Says (ReadRefuses (F.store files.old) page.entry input.now)) }
    ensures stays { F.store files.new ≡ F.store files.old }
{
    let PagedProgram { geometry, text, .. } = read_paged(alloc.clone()?, files, page, input)?;
    let explained = Explained::new(alloc.clone()?, text, geometry)?;
    let lines = match style {
        Style::Plain => lines_of_text(alloc, &explained)?,
        Style::Json => lines_of_json(alloc, &explained)?,
    };
    Ok(lines)
}

/// Tells what the verifier knows before each word of a microprogram, on chips of the geometry of a parameter page: as comments in its assembly, or as JSON, an
/// object a line. It is told of one that is refused, too, up to the word at which the verifier stops.
///
/// `Done`: page and microprogram can be read, and all is printed. `Refused`: the line `refused NAME at N` is printed, a fault of the page, of the word file or
/// of the assembly text. `FileFault`: a file couldn't be read, or the output couldn't be written. No file is written.
pub fn explain_file<'p, A: Allocator + Clone, F: Files, W: Write, E: Write, P>(
    alloc: A,
    files: &mut F,
    console: &mut Console<W, E, P>,
    page: PageFile<'p>,
    input: &'p str,
    style: Style,
) -> Exit
    ensures done { result ≡ Exit.Done → (printed : List ℕ) × IsExplained (F.store files.old) page.entry input.now
        × Appends (W.contents console.old.output) (W.contents console.new.output) printed }
    ensures refused { (refusal : Refusal) → result ≡ Exit.Refused refusal
        → Tells (ReadRefuses (F.store files.old) page.entry input.now) refusal
        × Appends (W.contents console.old.output) (W.contents console.new.output) (line_of refusal) }
    ensures stays { F.store files.new ≡ F.store files.old }
{
    let copy = match alloc.clone() {
        Ok(copy) => copy,
        Err(_) => return end_without_memory(console),
    };
    match explain_at(copy, files, page, input, style) {
        Ok(lines) => finish(console, lines.as_str()),
        Err(stop) => fail_as(alloc, console, style, stop),
    }
}
