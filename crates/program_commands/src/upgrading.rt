//! The command that writes a word file anew, in format 2.
ghost use Rattle.std.specs.Prelude.{◌≡◌, ◌⊎◌, codes, IfErr, OnOk, OnErr};
ghost use Rattle.std.specs.Io.KnownBytes.{Appends};
ghost use Rattle.seq_inputs.specs.declared.refusal.Refusal.{Refusal};
ghost use Rattle.seq_inputs.specs.Inputs.{FileIsRefused};
ghost use Rattle.program_commands.specs.Commands.{IsUpgraded};
ghost use Rattle.seq_inputs.specs.Stops.{Says, Tells};
ghost use Rattle.seq_inputs.specs.Refusals.{line_of};

use micro_word::write;
use seq_files::Files;
use seq_inputs::{Console, Exit, Stop, end_without_memory, fail, finish, words_at, write_file};
use std::alloc::Allocator;
use std::io::Write;

// Reads a word file of either format, and writes that of format 2.
fn upgrade_at<'p, A: Allocator + Clone, F: Files>(
    alloc: A,
    files: &mut F,
    input: &'p str,
    target: &'p str,
) -> Result<(), Stop<'p, A>>
    ensures ok { OnOk result (IsUpgraded (F.store files.old) (F.store files.new) input.now target.now) }
    ensures err { IfErr result (Says (FileIsRefused (F.store files.old) input.now)) }
    ensures stays { OnErr result (F.store files.new ≡ F.store files.old) }
{
    let text = words_at(alloc.clone()?, files, input)?;
    let file = write(alloc, &text)?;
    write_file(files, target, file.as_slice())
}

/// Writes the microprogram of a word file of either format as a word file of format 2.
///
/// `Done`: the files are those of one microprogram, and `ok` is printed. `Refused`: the line `refused NAME at N` is printed, an M fault with
/// its word, and no file is written. `FileFault`: the file couldn't be read, the other couldn't be written, or the output
/// couldn't. However it ends, files are as they were, or that one file is written whole; and if it is out of memory without the
/// output asking for some, they are as they were.
pub fn upgrade_file<A: Allocator + Clone, F: Files, W: Write, E: Write, P>(
    alloc: A,
    files: &mut F,
    console: &mut Console<W, E, P>,
    input: &str,
    target: &str,
) -> Exit
    ensures done { result ≡ Exit.Done → IsUpgraded (F.store files.old) (F.store files.new) input.now target.now
        × Appends (W.contents console.old.output) (W.contents console.new.output) (codes "ok\n") }
    ensures refused { (refusal : Refusal) → result ≡ Exit.Refused refusal → Tells (FileIsRefused (F.store files.old) input.now) refusal
        × (F.store files.new ≡ F.store files.old) × Appends (W.contents console.old.output) (W.contents console.new.output) (line_of refusal) }
    ensures files { (F.store files.new ≡ F.store files.old) ⊎ IsUpgraded (F.store files.old) (F.store files.new) input.now target.now }
{
    let alloc_of_lines = match alloc.clone() {
        Ok(alloc) => alloc,
        Err(_) => return end_without_memory(console),
    };
    match upgrade_at(alloc, files, input, target) {
        Ok(()) => finish(console, "ok\n"),
        Err(stop) => fail(alloc_of_lines, console, None, stop),
    }
}
