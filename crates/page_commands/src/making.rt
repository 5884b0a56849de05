//! The command that makes a parameter page of numbers.
ghost use Rattle.std.specs.Prelude.{◌≡◌, ◌⊎◌, codes, IfErr, OnOk, OnErr};
ghost use Rattle.std.specs.Io.KnownBytes.{Appends};
ghost use Rattle.seq_inputs.specs.declared.refusal.Refusal.{Refusal};
ghost use Rattle.seq_inputs.specs.Stops.{Says, Tells};
ghost use Rattle.seq_inputs.specs.Refusals.{line_of};
ghost use Rattle.page_commands.specs.Pages.{IsPageMade, PartsAreRefused};

use nand_geometry::{Geometry, PageFault, Parts};
use seq_files::Files;
use seq_inputs::{Console, Exit, Fault, Stop, Words, end_without_memory, fail, finish, write_file};
use std::alloc::Allocator;
use std::io::Write;

// The options whose numbers have a fault.
fn options_of(fault: PageFault) -> &'static str {
    match fault {
        PageFault::SizeOutOfRange => "--data, --spare, --pages and --blocks",
        PageFault::LunsOutOfRange => "--luns, --blocks and --pages",
        PageFault::PlanesOutOfRange => "--planes and --blocks",
        PageFault::LunCommandsMissing => "--luns without --status-enhanced",
        PageFault::TooShort
        | PageFault::NoSignature
        | PageFault::WrongChecksum
        | PageFault::WideBus
        | PageFault::AddressCycles => "the page",
    }
}

// Numbers that no chip has here.
fn refuse_parts<'p, A: Allocator>(alloc: A, fault: PageFault) -> Stop<'p, A>
    ensures { Says (λ told. told ≡ Fault.Page fault) result }
{
    let options = options_of(fault);
    let words = format!(in alloc; "{options}: {fault} ({})", fault.code());
    Stop::refused(Fault::Page { fault }, Words::of(words))
}

// Writes the page of these numbers.
fn write_page<'p, A: Allocator, F: Files>(
    alloc: A,
    files: &mut F,
    parts: Parts,
    target: &'p str,
) -> Result<(), Stop<'p, A>>
    ensures ok { OnOk result (IsPageMade (F.store files.old) (F.store files.new) parts target.now) }
    ensures err { IfErr result (Says (PartsAreRefused parts)) }
    ensures stays { OnErr result (F.store files.new ≡ F.store files.old) }
{
    match Geometry::of(parts) {
        Ok(geometry) => write_file(files, target, &geometry.page()),
        Err(fault) => Err(refuse_parts(alloc, fault)),
    }
}

/// Makes the parameter page of a chip with these numbers: one copy of 256 bytes, which every other command reads as a chip with these numbers.
///
/// `Done`: the file is written, and `ok` is printed. `Refused`: the line `refused NAME at 0` is printed, a P fault of the numbers, and no file is written.
/// `FileFault`: the file or the output couldn't be written. However it ends, files are as they were, or that one file is written whole.
pub fn make_page<A: Allocator + Clone, F: Files, W: Write, E: Write, P>(
    alloc: A,
    files: &mut F,
    console: &mut Console<W, E, P>,
    parts: Parts,
    target: &str,
) -> Exit
    ensures done { result ≡ Exit.Done → IsPageMade (F.store files.old) (F.store files.new) parts target.now
        × Appends (W.contents console.old.output) (W.contents console.new.output) (codes "ok\n") }
    ensures refused { (refusal : Refusal) → result ≡ Exit.Refused refusal → Tells (PartsAreRefused parts) refusal
        × (F.store files.new ≡ F.store files.old) × Appends (W.contents console.old.output) (W.contents console.new.output) (line_of refusal) }
    ensures files { (F.store files.new ≡ F.store files.old) ⊎ IsPageMade (F.store files.old) (F.store files.new) parts target.now }
{
    let copy = match alloc.clone() {
        Ok(copy) => copy,
        Err(_) => return end_without_memory(console),
    };
    match write_page(copy, files, parts, target) {
        Ok(()) => finish(console, "ok\n"),
        Err(stop) => fail(alloc, console, None, stop),
    }
}
