//! The command that assembles a text for a chip, and counts its header.
ghost use Rattle.std.specs.Prelude.{◌≡◌, ◌⊎◌, codes, None, IfOk, IfErr, OnOk, OnErr};
ghost use Rattle.std.specs.Io.KnownBytes.{Appends};
ghost use Rattle.micro_program.specs.Safe.{IsSafe};
ghost use Rattle.micro_walk.specs.Faults.{fault_of};
ghost use Rattle.seq_inputs.specs.declared.refusal.Refusal.{Refusal};
ghost use Rattle.seq_inputs.specs.Inputs.{RefusesReason};
ghost use Rattle.seq_inputs.specs.Stops.{Says, Tells};
ghost use Rattle.seq_inputs.specs.Refusals.{line_of};
ghost use Rattle.program_commands.specs.Commands.{HasSafeWordsOf, RefusesFor, AssembleForRefuses, IsAssembledFor};

use crate::header_lines::HeaderLines;
use micro_lint::Header;
use micro_program::Verified;
use micro_word::{Text, write};
use nand_geometry::Geometry;
use seq_files::Files;
use seq_inputs::{
    Console, Exit, Headed, PageFile, Stop, Words, end_without_memory, fail, finish, geometry_at,
    read_file, read_headed, verify_program, with_least_header, write_file,
};
use std::alloc::Allocator;
use std::io::Write;

// What is said of a line, so many lines further up.
fn raise_line<'p, A: Allocator>(words: Option<Words<'p, A>>, count: usize) -> Option<Words<'p, A>> {
    match words {
        Some(words) => Some(words.lines_up(count)),
        None => None,
    }
}

// Whether a text is safe for a geometry. What is against it is said of a line of the text without the header that was added.
fn verify_headed<'p, A: Allocator + Clone>(
    alloc: A,
    path: &'p str,
    headed: &Headed<A>,
    text: Text<A>,
    geometry: Geometry,
) -> Result<Verified<A>, Stop<'p, A>>
    ensures same { IfOk result (λ v. v.text ≡ text) }
    ensures safe { IfOk result (λ v. IsSafe text geometry) }
    ensures faultless { IfOk result (λ v. fault_of geometry text ≡ None) }
    ensures err { IfErr result (Says (RefusesReason geometry text)) }
{
    let bytes = headed.text.as_str().as_bytes();
    match verify_program(alloc, path, bytes, text, geometry) {
        Ok(verified) => Ok(verified),
        Err(Stop::Refused { refusal, words }) => Err(Stop::Refused {
            refusal,
            words: raise_line(words, headed.lines_added),
        }),
        Err(Stop::FileFault { path, fault, line }) => Err(Stop::FileFault { path, fault, line }),
        Err(Stop::ReaderGone) => Err(Stop::ReaderGone),
        Err(Stop::BuffersTooLarge { bytes, line }) => Err(Stop::BuffersTooLarge { bytes, line }),
        Err(Stop::OutOfMemory) => Err(Stop::OutOfMemory),
    }
}

// The microprogram of an assembly text for a geometry, with the header that is counted.
#[tactic(auto, using(crate::proofs::CountedHeaders::headed_said))]
fn assemble_for<'p, A: Allocator + Clone>(
    alloc: A,
    path: &'p str,
    bytes: &[u8],
    geometry: Geometry,
) -> Result<Verified<A>, Stop<'p, A>>
    ensures ok { IfOk result (λ v. HasSafeWordsOf geometry bytes.now v.text) }
    ensures err { IfErr result (Says (RefusesFor geometry bytes.now)) }
{
    let (headed, text) = match read_headed(alloc.clone()?, path, bytes) {
        Ok(found) => found,
        Err(stop) => return Err(stop),
    };
    let text = with_least_header(alloc.clone()?, text, &geometry)?;
    match verify_headed(alloc, path, &headed, text, geometry) {
        Ok(verified) => Ok(verified),
        Err(stop) => Err(stop),
    }
}

// Reads a page and an assembly text, counts the header, verifies, and writes the word file.
fn assemble_at<'p, A: Allocator + Clone, F: Files>(
    alloc: A,
    files: &mut F,
    page: PageFile<'p>,
    input: &'p str,
    target: &'p str,
) -> Result<Header, Stop<'p, A>>
    ensures ok { OnOk result (IsAssembledFor (F.store files.old) (F.store files.new) page.entry input.now target.now) }
    ensures err { IfErr result (Says (AssembleForRefuses (F.store files.old) page.entry input.now)) }
    ensures stays { OnErr result (F.store files.new ≡ F.store files.old) }
{
    let geometry = geometry_at(alloc.clone()?, files, page)?;
    let bytes = read_file(alloc.clone()?, files, input)?;
    let verified = assemble_for(alloc.clone()?, input, bytes.as_slice(), geometry)?;
    let file = write(alloc, verified.text())?;
    write_file(files, target, file.as_slice())?;
    Ok(Header::of(verified.text()))
}

// Says which header was counted.
fn say_header<E: Write>(errors: &mut E, header: Header) {
    let _ = write!(errors, "{}", HeaderLines(header));
    let _ = errors.flush();
}

/// Assembles a text, with a header or without, into a word file of format 2 for the geometry of a parameter page. The header of the file is the
/// least that is known to be enough there, whatever the text has; it is said on the console's errors.
///
/// `Done`: the file is that of a microprogram with the words of the text, which is safe for the geometry, and `ok` is printed. `Refused`: the line
/// `refused NAME at N` is printed, a P fault of the page, an A fault with its line in the text, or a V reason with its word, and no file is written.
/// `FileFault`: a file couldn't be read or written, the text isn't UTF-8, or the output couldn't be written. However it ends, files are as they were, or that one
/// file is written whole.
pub fn assemble_file_for<A: Allocator + Clone, F: Files, W: Write, E: Write, P>(
    alloc: A,
    files: &mut F,
    console: &mut Console<W, E, P>,
    page: PageFile<'_>,
    input: &str,
    target: &str,
) -> Exit
    ensures done { result ≡ Exit.Done → IsAssembledFor (F.store files.old) (F.store files.new) page.entry input.now target.now
        × Appends (W.contents console.old.output) (W.contents console.new.output) (codes "ok\n") }
    ensures refused { (refusal : Refusal) → result ≡ Exit.Refused refusal → Tells (AssembleForRefuses (F.store files.old) page.entry input.now) refusal
        × (F.store files.new ≡ F.store files.old) × Appends (W.contents console.old.output) (W.contents console.new.output) (line_of refusal) }
    ensures files { (F.store files.new ≡ F.store files.old) ⊎ IsAssembledFor (F.store files.old) (F.store files.new) page.entry input.now target.now }
{
    let copy = match alloc.clone() {
        Ok(copy) => copy,
        Err(_) => return end_without_memory(console),
    };
    match assemble_at(copy, files, page, input, target) {
        Ok(header) => {
            let exit = finish(console, "ok\n");
            if matches!(exit, Exit::Done) {
                say_header(&mut console.errors, header);
            }
            exit
        }
        Err(stop) => fail(alloc, console, None, stop),
    }
}
