//! The command that shows what a parameter page declares.
ghost use Rattle.std.specs.Prelude.{◌≡◌, ℕ, List, OnOk, IfErr};
ghost use Rattle.nand_geometry.specs.declared.parts.Parts.{Parts};
ghost use Rattle.std.specs.Io.KnownBytes.{Appends};
ghost use Rattle.seq_inputs.specs.declared.refusal.Refusal.{Refusal};
ghost use Rattle.seq_inputs.specs.Inputs.{HasPage, PageIsRefused};
ghost use Rattle.seq_inputs.specs.Stops.{Says, Tells};
ghost use Rattle.seq_inputs.specs.Refusals.{line_of};

use crate::copies::PageCopies;
use crate::declared::Declared;
use nand_geometry::Geometry;
use seq_files::Files;
use seq_inputs::{
    Console, Exit, PageFile, Stop, end_without_memory, fail, finish, geometry_in, read_file,
    say_words,
};
use std::alloc::{AllocError, Allocator};
use std::io::Write;

// Says what there is of the copies of a page, one after the other.
fn say_copies<A: Allocator, E: Write>(alloc: A, errors: &mut E, bytes: &[u8]) {
    if let Ok(words) = format!(in alloc; "{}", PageCopies(bytes)) {
        say_words(errors, words.as_str());
    }
}

// What the page in these bytes declares, in lines.
fn lines_of<A: Allocator>(
    alloc: A,
    geometry: &Geometry,
    bytes: &[u8],
) -> Result<String<A>, AllocError> {
    format!(in alloc; "{}{}", Declared(geometry), PageCopies(bytes))
}

// The lines of the page at a path. Where it is refused, its copies are said first.
fn show_at<'p, A: Allocator + Clone, F: Files, E: Write>(
    alloc: A,
    files: &mut F,
    errors: &mut E,
    page: PageFile<'p>,
) -> Result<String<A>, Stop<'p, A>>
    ensures ok { OnOk result ((g : Parts) × HasPage (F.store files.old) page.entry g) }
    ensures err { IfErr result (Says (PageIsRefused (F.store files.old) page.entry.path.now)) }
    ensures stays { F.store files.new ≡ F.store files.old }
{
    let bytes = read_file(alloc.clone()?, files, page.path)?;
    match geometry_in(alloc.clone()?, page.profile, page.path, bytes.as_slice()) {
        Ok(geometry) => Ok(lines_of(alloc, &geometry, bytes.as_slice())?),
        Err(stop) => {
            say_copies(alloc, errors, bytes.as_slice());
            Err(stop)
        }
    }
}

/// Shows all that is read of the parameter page at a path for a profile: the geometry, how a row is made of a LUN, a block and a page, which commands it declares, and
/// each copy of the page with its checksum.
///
/// `Done`: all that is printed. `Refused`: the line `refused NAME at 0` is printed, a P fault of the page, and what there is of each copy is said on the
/// console's errors. `FileFault`: the file couldn't be read, or the output couldn't be written. No file changes.
pub fn show_page<A: Allocator + Clone, F: Files, W: Write, E: Write, P>(
    alloc: A,
    files: &mut F,
    console: &mut Console<W, E, P>,
    page: PageFile<'_>,
) -> Exit
    ensures done { result ≡ Exit.Done → ((g : Parts) × HasPage (F.store files.old) page.entry g)
        × (printed : List ℕ) × Appends (W.contents console.old.output) (W.contents console.new.output) printed }
    ensures refused { (refusal : Refusal) → result ≡ Exit.Refused refusal → Tells (PageIsRefused (F.store files.old) page.entry.path.now) refusal
        × Appends (W.contents console.old.output) (W.contents console.new.output) (line_of refusal) }
    ensures stays { F.store files.new ≡ F.store files.old }
{
    let copy = match alloc.clone() {
        Ok(copy) => copy,
        Err(_) => return end_without_memory(console),
    };
    match show_at(copy, files, &mut console.errors, page) {
        Ok(lines) => finish(console, lines.as_str()),
        Err(stop) => fail(alloc, console, None, stop),
    }
}
