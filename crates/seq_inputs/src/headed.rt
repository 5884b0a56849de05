//! An assembly text that may be without its header.
ghost use Rattle.std.specs.Prelude.{◌≡◌, ◌-◌, ◌≤◌, IfOk, IfErr, OnOk};
ghost use Rattle.seq_inputs.specs.Headed.{is_bus_word, is_place_word, is_flow_word, is_word_name, begins_with_word, is_headless, HasWordsOf};
ghost use Rattle.std.specs.String.{string_bytes};
ghost use Rattle.micro_asm.specs.Reading.{Spells};
ghost use Rattle.micro_lint.specs.Least.{HasLeastHeader};
ghost use Rattle.seq_inputs.specs.Headed.{is_header_name, begins_with_header, has_header, with_header, lines_added, RefusesHeaded};
ghost use Rattle.seq_inputs.specs.Stops.{Says};

use crate::explaining::words_of_headed;
use crate::fault::Fault;
use crate::reading::text_of;
use crate::stop::Stop;
use micro_asm::{AsmRefusal, assemble, before_comment, next_field, next_line};
use micro_lint::{Header, least_header};
use micro_word::{Text, Word};
use nand_geometry::Geometry;
use std::alloc::{AllocError, Allocator, Global};

// The header with the largest numbers that there are.
const LARGEST_HEADER: &str = "rows 4096\nbuffer 16777215\nbudget 4294967295\n";

/// How many lines a header has.
pub(crate) const HEADER_LINES: usize = 3;

/// An assembly text with a header: its own, or the largest in front of it.
#[derive(Drop)]
pub struct Headed<A: Allocator = Global> {
    /// The whole text.
    pub text: String<A>,
    /// How many lines were put in front.
    pub lines_added: usize,
}

// Whether this is the name of a header line.
fn is_header_name(name: &[u8]) -> bool
    ensures { result ≡ is_header_name name.now }
{
    name == b"rows".as_slice() || name == b"buffer".as_slice() || name == b"budget".as_slice()
}

// Whether the first line of a text that has fields is a header line.
#[tactic(auto, unfolding(crate::specs::Headed::begins_with_header))]
fn has_header(text: &[u8]) -> bool
    ensures { result ≡ has_header text.now }
{
    let mut rest = text;
    'lines: while let Some((line, after)) = next_line(rest) {
        if let Some((name, _)) = next_field(before_comment(line)) {
            return is_header_name(name);
        }
        rest = after;
    }
    false
}

// Whether this is the name of a word that brings cycles on the bus.
fn is_bus_word(name: &[u8]) -> bool
    ensures { result ≡ is_bus_word name.now }
{
    name == b"cmd".as_slice()
        || (name == b"addr".as_slice()
            || (name == b"get".as_slice()
                || (name == b"put".as_slice()
                    || (name == b"wait".as_slice() || name == b"stat".as_slice()))))
}

// Whether this is the name of a word that says where the program is to work.
fn is_place_word(name: &[u8]) -> bool
    ensures { result ≡ is_place_word name.now }
{
    name == b"seek".as_slice()
        || (name == b"col".as_slice()
            || (name == b"row".as_slice()
                || (name == b"rowadd".as_slice() || name == b"plane".as_slice())))
}

// Whether this is the name of a word that says how the program goes on.
fn is_flow_word(name: &[u8]) -> bool
    ensures { result ≡ is_flow_word name.now }
{
    name == b"end".as_slice()
        || (name == b"yield".as_slice()
            || (name == b"brs".as_slice()
                || (name == b"jmp".as_slice()
                    || (name == b"loop".as_slice() || name == b"next".as_slice()))))
}

// Whether this is the name of a word.
fn is_word_name(name: &[u8]) -> bool
    ensures { result ≡ is_word_name name.now }
{
    is_bus_word(name) || (is_place_word(name) || is_flow_word(name))
}

/// Whether a file is taken for an assembly text without its header: its first line that has fields begins with the name of a word.
#[tactic(auto, unfolding(crate::specs::Headed::begins_with_word))]
pub fn is_headless(bytes: &[u8]) -> bool
    ensures { result ≡ is_headless bytes.now }
{
    let mut rest = bytes;
    'lines: while let Some((line, after)) = next_line(rest) {
        if let Some((name, _)) = next_field(before_comment(line)) {
            return is_word_name(name);
        }
        rest = after;
    }
    false
}

// The same words.
fn copy_words<A: Allocator>(alloc: A, words: &[Word]) -> Result<Vec<Word, A>, AllocError>
    ensures { IfOk result (λ copy. copy.items ≡ words.now) }
{
    let mut copy = Vec::new(alloc);
    copy.extend_from_slice(words)?;
    Ok(copy)
}

// The words of a text with another header, or the text as it is where that doesn't fit.
fn replace_header<A: Allocator>(
    alloc: A,
    text: Text<A>,
    header: Header,
) -> Result<Text<A>, AllocError>
    ensures words { IfOk result (λ y. y.words ≡ text.words) }
    ensures header { 1 ≤ header.rows → header.rows ≤ 4096 → header.buffer ≤ 16777215
        → IfOk result (λ y. (y.rows ≡ header.rows) × ((y.buffer ≡ header.buffer) × (y.budget ≡ header.budget))) }
{
    let words = copy_words(alloc, text.words())?;
    let Ok(rows) = u16::try_from(header.rows) else {
        return Ok(text);
    };
    match Text::of(rows, header.buffer, header.budget, words) {
        Ok(headed) => Ok(headed),
        Err(_) => Ok(text),
    }
}

/// The words of a text with the least header that is enough for a geometry, or with the largest where none is. Of a text with loops it is the least that their certificate
/// needs.
pub fn with_least_header<A: Allocator + Clone>(
    alloc: A,
    text: Text<A>,
    geometry: &Geometry,
) -> Result<Text<A>, AllocError>
    ensures words { IfOk result (λ y. y.words ≡ text.words) }
    ensures least { IfOk result (HasLeastHeader geometry.now) }
{
    let text = replace_header(alloc.clone()?, text, Header::LARGEST)?;
    match least_header(alloc.clone()?, &text, geometry)? {
        Some(header) => replace_header(alloc, text, header),
        None => Ok(text),
    }
}

impl<A: Allocator> Headed<A> {
    /// A text with its header, or with the largest in front.
    pub fn of(alloc: A, text: &str) -> Result<Headed<A>, AllocError>
        ensures text { IfOk result (λ headed. string_bytes headed.text ≡ with_header text.now) }
        ensures lines { IfOk result (λ headed. headed.lines_added ≡ lines_added text.now) }
    {
        if has_header(text.as_bytes()) {
            Ok(Headed {
                text: String::from_str(alloc, text)?,
                lines_added: 0,
            })
        } else {
            let mut whole = String::from_str(alloc, LARGEST_HEADER)?;
            whole.push_str(text)?;
            Ok(Headed {
                text: whole,
                lines_added: HEADER_LINES,
            })
        }
    }
}

/// The microprogram of an assembly text that has this path, and that text with its header, or with the largest in front. A fault is told with its line in
/// the text as it was.
pub fn read_headed<'p, A: Allocator + Clone>(
    alloc: A,
    path: &'p str,
    bytes: &[u8],
) -> Result<(Headed<A>, Text<A>), Stop<'p, A>>
    ensures ok { IfOk result (λ found. Spells (with_header bytes.now) found.1) }
    ensures err { IfErr result (Says (RefusesHeaded bytes.now)) }
{
    let text = text_of(path, bytes)?;
    let headed = Headed::of(alloc.clone()?, text)?;
    match assemble(alloc.clone()?, headed.text.as_str()) {
        Ok(program) => Ok((headed, program)),
        Err(AsmRefusal::Fault { fault, line }) => {
            let shown = line.saturating_sub(headed.lines_added);
            let words = words_of_headed(alloc, path, text, &headed, fault, line);
            Err(Stop::refused(Fault::Source { fault, line: shown }, words))
        }
        Err(AsmRefusal::OutOfMemory) => Err(Stop::OutOfMemory),
    }
}

/// The microprogram of an assembly text without its header that has this path, with the header that is counted for a geometry.
#[tactic(auto, using(crate::proofs::Headings::counted))]
pub(crate) fn read_headless<'p, A: Allocator + Clone>(
    alloc: A,
    path: &'p str,
    bytes: &[u8],
    geometry: &Geometry,
) -> Result<Text<A>, Stop<'p, A>>
    ensures ok { IfOk result (HasWordsOf bytes.now) }
    ensures err { IfErr result (Says (RefusesHeaded bytes.now)) }
{
    let text = match read_headed(alloc.clone()?, path, bytes) {
        Ok((_, text)) => text,
        Err(stop) => return Err(stop),
    };
    Ok(with_least_header(alloc, text, geometry)?)
}
