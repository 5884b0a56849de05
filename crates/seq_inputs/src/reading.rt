//! What a command reads: files, and what they are.
ghost use Rattle.std.specs.Prelude.{◌≡◌, IfOk, IfErr, OnOk, OnErr, MatchResult, Ok, Err, None, map};
ghost use Rattle.nand_geometry.specs.Reading.{read_as, read_of};
ghost use Rattle.micro_word.specs.Text.{IsFileOf};
ghost use Rattle.micro_asm.specs.Reading.{Spells};
ghost use Rattle.micro_program.specs.Safe.{IsSafe};
ghost use Rattle.micro_walk.specs.Faults.{fault_of};
ghost use Rattle.seq_files.specs.Store.{Holds, with_file, with_all, written_of};
ghost use Rattle.seq_inputs.specs.Inputs.{HasPage, HasPageAs, PageIsRefused, RefusesPage, HasFile, FileIsRefused, RefusesFile, is_blank, is_source, RefusesSource, IsProgram, RefusesProgram, HasText, RefusesReason, FileOrTextIsRefused};
ghost use Rattle.seq_inputs.specs.Stops.{Says, RefusesNothing};

use crate::counted::CountedHeader;
use crate::explaining::{words_of, words_of_file, words_of_reason, words_of_source};
use crate::fault::Fault;
use crate::headed::{is_headless, read_headless};
use crate::page_file::PageFile;
use crate::stop::Stop;
use micro_asm::{AsmRefusal, assemble};
use micro_claims::Fault as TextFault;
use micro_program::Verified;
use micro_walk::examine;
use micro_word::{Text, WordRefusal, read};
use nand_geometry::{Geometry, PageFault, Profile};
use seq_files::{FileFault, Files, NewFile, NotWritten};
use std::alloc::{Allocator, Global};

/// The bytes of a file.
pub fn read_file<'p, A: Allocator, F: Files>(
    alloc: A,
    files: &mut F,
    path: &'p str,
) -> Result<Vec<u8, A>, Stop<'p, A>>
    ensures holds { IfOk result (λ bytes. Holds (F.store files.old) path.now bytes.items) }
    ensures nothing { IfErr result (λ e. RefusesNothing e) }
    ensures stays { F.store files.new ≡ F.store files.old }
{
    match files.read(alloc, path) {
        Ok(bytes) => Ok(bytes),
        Err(error) => Err(Stop::of_file(path, error)),
    }
}

/// Whether a file can be written at this path, as far as that can be tried without changing one.
pub fn try_file<'p, A: Allocator, F: Files>(files: &F, path: &'p str) -> Result<(), Stop<'p, A>>
    ensures { IfErr result (λ e. RefusesNothing e) }
{
    match files.try_output(path) {
        Ok(()) => Ok(()),
        Err(error) => Err(Stop::of_file(path, error)),
    }
}

/// Makes a file of these bytes.
pub fn write_file<'p, A: Allocator, F: Files>(
    files: &mut F,
    path: &'p str,
    bytes: &[u8],
) -> Result<(), Stop<'p, A>>
    ensures written { OnOk result (F.store files.new ≡ with_file (F.store files.old) path.now bytes.now) }
    ensures nothing { IfErr result (λ e. RefusesNothing e) }
    ensures stays { OnErr result (F.store files.new ≡ F.store files.old) }
{
    match files.write(path, bytes) {
        Ok(()) => Ok(()),
        Err(error) => Err(Stop::of_file(path, error)),
    }
}

// Why a command isn't done of whose files this one couldn't be written.
fn not_written<'p, A: Allocator>(made: &[NewFile<'p, '_>], refused: NotWritten) -> Stop<'p, A>
    ensures { RefusesNothing result }
{
    let path = match made.get(refused.file) {
        Some(file) => file.path,
        None => "-",
    };
    Stop::of_file(path, refused.error)
}

/// Makes these files, in their order, all or none.
pub fn write_files<'p, A: Allocator, F: Files>(
    files: &mut F,
    made: &[NewFile<'p, '_>],
) -> Result<(), Stop<'p, A>>
    ensures written { OnOk result (F.store files.new ≡ with_all (map written_of made.now) (F.store files.old)) }
    ensures nothing { IfErr result (λ e. RefusesNothing e) }
    ensures stays { OnErr result (F.store files.new ≡ F.store files.old) }
{
    match files.write_all(made) {
        Ok(()) => Ok(()),
        Err(refused) => Err(not_written(made, refused)),
    }
}

// What is wrong with a file that is to be a text.
fn fault_of_text(bytes: &[u8], at: usize) -> FileFault {
    if bytes.starts_with(b"NMP") {
        FileFault::WordFile
    } else {
        FileFault::NotText { at }
    }
}

/// The text of the file of this path; what isn't UTF-8 is a fault of the file.
pub fn text_of<'p, 'b, A: Allocator>(path: &'p str, bytes: &'b [u8]) -> Result<&'b str, Stop<'p, A>>
    ensures ok { IfOk result (λ text. text.now ≡ bytes.now) }
    ensures err { IfErr result (λ e. RefusesNothing e) }
{
    match str::from_utf8(bytes) {
        Ok(text) => Ok(text),
        Err(error) => Err(Stop::FileFault {
            path,
            fault: fault_of_text(bytes, error.valid_up_to()),
            line: None,
        }),
    }
}

// The geometry that these bytes declare for a profile; its fault is the same in each.
fn read_page(profile: Profile, bytes: &[u8]) -> Result<Geometry, PageFault>
    ensures { MatchResult result (λ g. read_as profile bytes.now ≡ Ok g) (λ e. read_of bytes.now ≡ Err e) }
{
    match Geometry::read_as(profile, bytes) {
        Ok(geometry) => Ok(geometry),
        Err(fault) => Err(fault),
    }
}

/// The geometry that the parameter page in these bytes declares, read for a profile.
pub fn geometry_in<'p, A: Allocator>(
    alloc: A,
    profile: Profile,
    path: &'p str,
    bytes: &[u8],
) -> Result<Geometry, Stop<'p, A>>
    ensures ok { IfOk result (λ g. read_as profile bytes.now ≡ Ok g) }
    ensures err { IfErr result (Says (RefusesPage bytes.now)) }
{
    match read_page(profile, bytes) {
        Ok(geometry) => Ok(geometry),
        Err(fault) => {
            let fault = Fault::Page { fault };
            Err(Stop::refused(fault, words_of(alloc, path, fault)))
        }
    }
}

/// The geometry of the page at a path, read for a profile.
pub fn geometry_as<'p, A: Allocator + Clone, F: Files>(
    alloc: A,
    files: &mut F,
    profile: Profile,
    path: &'p str,
) -> Result<Geometry, Stop<'p, A>>
    ensures ok { IfOk result (λ g. HasPageAs (F.store files.old) profile path.now g) }
    ensures err { IfErr result (Says (PageIsRefused (F.store files.old) path.now)) }
    ensures stays { F.store files.new ≡ F.store files.old }
{
    let bytes = read_file(alloc.clone()?, files, path)?;
    geometry_in(alloc, profile, path, bytes.as_slice())
}

/// The geometry of a page, read for its profile.
pub fn geometry_at<'p, A: Allocator + Clone, F: Files>(
    alloc: A,
    files: &mut F,
    page: PageFile<'p>,
) -> Result<Geometry, Stop<'p, A>>
    ensures ok { IfOk result (λ g. HasPage (F.store files.old) page.entry g) }
    ensures err { IfErr result (Says (PageIsRefused (F.store files.old) page.entry.path.now)) }
    ensures stays { F.store files.new ≡ F.store files.old }
{
    geometry_as(alloc, files, page.profile, page.path)
}

/// The microprogram of a word file, of either format, that has this path.
pub fn read_words<'p, A: Allocator + Clone>(
    alloc: A,
    path: &'p str,
    bytes: &[u8],
) -> Result<Text<A>, Stop<'p, A>>
    ensures ok { IfOk result (IsFileOf bytes.now) }
    ensures err { IfErr result (Says (RefusesFile bytes.now)) }
{
    match read(alloc.clone()?, bytes) {
        Ok(text) => Ok(text),
        Err(WordRefusal::Fault { fault, word }) => {
            let words = words_of_file(alloc, path, bytes, fault, word);
            Err(Stop::refused(Fault::File { fault, word }, words))
        }
        Err(WordRefusal::OutOfMemory) => Err(Stop::OutOfMemory),
    }
}

/// The microprogram of the word file at a path.
pub fn words_at<'p, A: Allocator + Clone, F: Files>(
    alloc: A,
    files: &mut F,
    path: &'p str,
) -> Result<Text<A>, Stop<'p, A>>
    ensures ok { IfOk result (λ x. HasFile (F.store files.old) path.now x) }
    ensures err { IfErr result (Says (FileIsRefused (F.store files.old) path.now)) }
    ensures stays { F.store files.new ≡ F.store files.old }
{
    let bytes = read_file(alloc.clone()?, files, path)?;
    read_words(alloc, path, bytes.as_slice())
}

/// The microprogram of an assembly text that has this path.
pub fn read_source<'p, A: Allocator + Clone>(
    alloc: A,
    path: &'p str,
    bytes: &[u8],
) -> Result<Text<A>, Stop<'p, A>>
    ensures ok { IfOk result (Spells bytes.now) }
    ensures err { IfErr result (Says (RefusesSource bytes.now)) }
{
    let text = text_of(path, bytes)?;
    match assemble(alloc.clone()?, text) {
        Ok(program) => Ok(program),
        Err(AsmRefusal::Fault { fault, line }) => {
            let words = words_of_source(alloc, path, text, fault, line);
            Err(Stop::refused(Fault::Source { fault, line }, words))
        }
        Err(AsmRefusal::OutOfMemory) => Err(Stop::OutOfMemory),
    }
}

// A space, a tab, or the end of a line.
fn is_blank(byte: u8) -> bool
    ensures { result ≡ is_blank byte }
{
    byte == b' ' || (byte == b'\t' || (byte == b'\n' || byte == b'\r'))
}

/// Whether a file is taken for an assembly text, and for no word file: it begins with a comment or with the header line `rows`, blanks before
/// it left out.
#[tactic(auto, unfolding(crate::specs::Inputs::is_source))]
pub fn is_source(bytes: &[u8]) -> bool
    ensures { result ≡ is_source bytes.now }
{
    let mut rest = bytes;
    'blanks: while let [first, after @ ..] = rest {
        if !is_blank(*first) {
            return *first == b';' || rest.starts_with(b"rows");
        }
        rest = after;
    }
    false
}

/// The microprogram of a file that has this path: an assembly text, or a word file of either format. The header that a text is without is counted for a geometry.
pub fn read_program<'p, A: Allocator + Clone>(
    alloc: A,
    path: &'p str,
    bytes: &[u8],
    geometry: &Geometry,
) -> Result<Text<A>, Stop<'p, A>>
    ensures ok { IfOk result (IsProgram bytes.now) }
    ensures err { IfErr result (Says (RefusesProgram bytes.now)) }
{
    if is_headless(bytes) {
        read_headless(alloc, path, bytes, geometry)
    } else if is_source(bytes) {
        read_source(alloc, path, bytes)
    } else {
        read_words(alloc, path, bytes)
    }
}

/// Verifies the microprogram that was read from these bytes for a geometry.
pub fn verify_program<'p, A: Allocator + Clone>(
    alloc: A,
    path: &'p str,
    bytes: &[u8],
    text: Text<A>,
    geometry: Geometry,
) -> Result<Verified<A>, Stop<'p, A>>
    ensures same { IfOk result (λ v. (v.text ≡ text) × (v.geometry ≡ geometry)) }
    ensures safe { OnOk result (IsSafe text geometry) }
    ensures faultless { OnOk result (fault_of geometry text ≡ None) }
    ensures err { IfErr result (Says (RefusesReason geometry text)) }
{
    match examine(&text, &geometry) {
        Ok(walked) => Ok(Verified::of(text, geometry, walked)),
        Err(TextFault { word, reason }) => {
            let words = words_of_reason(alloc, path, bytes, &text, &geometry, word, reason);
            Err(Stop::refused(Fault::Text { reason, word }, words))
        }
    }
}

/// A microprogram that was read and verified, and the header that was counted for it, if one was.
#[derive(Drop)]
pub struct VerifiedProgram<'p, A: Allocator = Global> {
    pub verified: Verified<A>,
    pub counted: Option<CountedHeader<'p>>,
}

/// The microprogram at a path, an assembly text or a word file, verified for a geometry.
#[tactic(auto, using(crate::proofs::Verifieds::has_text, crate::proofs::Verifieds::file_said, crate::proofs::Verifieds::reason_said))]
pub fn verified_at<'p, A: Allocator + Clone, F: Files>(
    alloc: A,
    files: &mut F,
    path: &'p str,
    geometry: Geometry,
) -> Result<VerifiedProgram<'p, A>, Stop<'p, A>>
    ensures ok { IfOk result (λ p. HasText (F.store files.old) geometry path.now p.verified.text × (p.verified.geometry ≡ geometry)) }
    ensures err { IfErr result (Says (FileOrTextIsRefused (F.store files.old) geometry path.now)) }
    ensures stays { F.store files.new ≡ F.store files.old }
{
    let bytes = read_file(alloc.clone()?, files, path)?;
    let text = match read_program(alloc.clone()?, path, bytes.as_slice(), &geometry) {
        Ok(text) => text,
        Err(stop) => return Err(stop),
    };
    let counted = CountedHeader::of(path, bytes.as_slice(), &text);
    match verify_program(alloc, path, bytes.as_slice(), text, geometry) {
        Ok(verified) => Ok(VerifiedProgram { verified, counted }),
        Err(stop) => Err(stop),
    }
}
