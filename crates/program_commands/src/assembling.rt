//! The command that assembles a text.
ghost use Rattle.std.specs.Prelude.{◌≡◌, ◌⊎◌, codes, None, IfOk, IfErr, OnOk, OnErr};
ghost use Rattle.std.specs.Io.KnownBytes.{Appends};
ghost use Rattle.seq_inputs.specs.declared.refusal.Refusal.{Refusal};
ghost use Rattle.seq_inputs.specs.Inputs.{RefusesSource};
ghost use Rattle.seq_inputs.specs.Stops.{Says, Tells};
ghost use Rattle.seq_inputs.specs.Refusals.{line_of};
ghost use Rattle.program_commands.specs.Commands.{SpellsFile, SourceIsRefused, IsAssembled};

use micro_word::write;
use seq_files::Files;
use seq_inputs::{
    Console, Exit, Stop, end_without_memory, fail, finish, read_file, read_source, write_file,
};
use std::alloc::Allocator;
use std::io::Write;

// The word file of the assembly text that has this path.
fn make_file<'p, A: Allocator + Clone>(
    alloc: A,
    path: &'p str,
    bytes: &[u8],
) -> Result<Vec<u8, A>, Stop<'p, A>>
    ensures ok { IfOk result (λ file. SpellsFile bytes.now file.items) }
    ensures err { IfErr result (Says (RefusesSource bytes.now)) }
{
    let program = read_source(alloc.clone()?, path, bytes)?;
    Ok(write(alloc, &program)?)
}

// Reads an assembly text, and writes its word file.
fn assemble_at<'p, A: Allocator + Clone, F: Files>(
    alloc: A,
    files: &mut F,
    input: &'p str,
    target: &'p str,
) -> Result<(), Stop<'p, A>>
    ensures ok { OnOk result (IsAssembled (F.store files.old) (F.store files.new) input.now target.now) }
    ensures err { IfErr result (Says (SourceIsRefused (F.store files.old) input.now)) }
    ensures stays { OnErr result (F.store files.new ≡ F.store files.old) }
{
    let bytes = read_file(alloc.clone()?, files, input)?;
    let file = make_file(alloc, input, bytes.as_slice())?;
    write_file(files, target, file.as_slice())
}

/// Assembles a text into a word file of format 2.
///
/// `Done`: the file is that of the microprogram which the lines of the text spell, and `ok` is printed. `Refused`: the line
/// `refused NAME at N` is printed, an A fault with its line, and no file is written. `FileFault`: the text couldn't be read
/// or isn't UTF-8, the file couldn't be written, or the output couldn't. However it ends, files are as they were, or that one file is
/// written whole; and if it is out of memory without the output asking for some, they are as they were.
pub fn assemble_file<A: Allocator + Clone, F: Files, W: Write, E: Write, P>(
    alloc: A,
    files: &mut F,
    console: &mut Console<W, E, P>,
    input: &str,
    target: &str,
) -> Exit
    ensures done { result ≡ Exit.Done → IsAssembled (F.store files.old) (F.store files.new) input.now target.now
        × Appends (W.contents console.old.output) (W.contents console.new.output) (codes "ok\n") }
    ensures refused { (refusal : Refusal) → result ≡ Exit.Refused refusal → Tells (SourceIsRefused (F.store files.old) input.now) refusal
        × (F.store files.new ≡ F.store files.old) × Appends (W.contents console.old.output) (W.contents console.new.output) (line_of refusal) }
    ensures files { (F.store files.new ≡ F.store files.old) ⊎ IsAssembled (F.store files.old) (F.store files.new) input.now target.now }
{
    let alloc_of_lines = match alloc.clone() {
        Ok(alloc) => alloc,
        Err(_) => return end_without_memory(console),
    };
    match assemble_at(alloc, files, input, target) {
        Ok(()) => finish(console, "ok\n"),
        Err(stop) => fail(alloc_of_lines, console, None, stop),
    }
}
