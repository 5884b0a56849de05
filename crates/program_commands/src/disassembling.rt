//! The command that disassembles a word file.
ghost use Rattle.std.specs.Prelude.{◌≡◌, ℕ, List, IfOk, IfErr};
ghost use Rattle.std.specs.Io.KnownBytes.{Appends};
ghost use Rattle.std.specs.String.{string_bytes};
ghost use Rattle.seq_inputs.specs.declared.refusal.Refusal.{Refusal};
ghost use Rattle.seq_inputs.specs.Inputs.{FileIsRefused};
ghost use Rattle.program_commands.specs.Commands.{IsDisassembled};
ghost use Rattle.seq_inputs.specs.Stops.{Says, Tells};
ghost use Rattle.seq_inputs.specs.Refusals.{line_of};

use micro_asm::disassemble;
use seq_files::Files;
use seq_inputs::{Console, Exit, Stop, end_without_memory, fail, finish, words_at};
use std::alloc::Allocator;
use std::io::Write;

// Reads a word file: its assembly text.
fn disassemble_at<'p, A: Allocator + Clone, F: Files>(
    alloc: A,
    files: &mut F,
    input: &'p str,
) -> Result<String<A>, Stop<'p, A>>
    ensures ok { IfOk result (λ lines. IsDisassembled (F.store files.old) input.now (string_bytes lines)) }
    ensures err { IfErr result (Says (FileIsRefused (F.store files.old) input.now)) }
    ensures stays { F.store files.new ≡ F.store files.old }
{
    let text = words_at(alloc.clone()?, files, input)?;
    Ok(disassemble(alloc, &text)?)
}

/// Disassembles a word file of either format.
///
/// `Done`: the file is that of a microprogram, whose assembly text is printed, and assembled again gives it back. `Refused`: the line
/// `refused NAME at N` is printed, an M fault with its word. `FileFault`: the file couldn't be read or the output couldn't be
/// written. No file is written.
pub fn disassemble_file<A: Allocator + Clone, F: Files, W: Write, E: Write, P>(
    alloc: A,
    files: &mut F,
    console: &mut Console<W, E, P>,
    input: &str,
) -> Exit
    ensures done { result ≡ Exit.Done → (printed : List ℕ) × IsDisassembled (F.store files.old) input.now printed
        × Appends (W.contents console.old.output) (W.contents console.new.output) printed }
    ensures refused { (refusal : Refusal) → result ≡ Exit.Refused refusal → Tells (FileIsRefused (F.store files.old) input.now) refusal
        × Appends (W.contents console.old.output) (W.contents console.new.output) (line_of refusal) }
    ensures stays { F.store files.new ≡ F.store files.old }
{
    let alloc_of_lines = match alloc.clone() {
        Ok(alloc) => alloc,
        Err(_) => return end_without_memory(console),
    };
    match disassemble_at(alloc, files, input) {
        Ok(lines) => finish(console, lines.as_str()),
        Err(stop) => fail(alloc_of_lines, console, None, stop),
    }
}
