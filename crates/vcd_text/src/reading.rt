//! Reading the header of a dump.
ghost use Rattle.std.specs.Prelude.{◌≡◌, ◌+◌, ◌<◌, ◌≤◌, ◌^◌, length, Ok, Err, IfErr, IfOk, OnOk};
ghost use Rattle.vcd_text.specs.Words.{lines_from, IsCut};
ghost use Rattle.vcd_text.specs.Header.{ends, opened, unended, header};
ghost use Rattle.vcd_text.specs.Sections.{shown_section, shown_begun, IsSection};
ghost use Rattle.vcd_text.specs.Shown.{place_of};
ghost use Rattle.vcd_text.specs.Dumps.{read_of, beginning, stopped, IsClosing, IsHeaderWord, IsRefusalOf};

use crate::body::{Body, Next};
use crate::fault::{DumpFault, HeaderRefusal, LineFault};
use crate::header::{Header, SectionStop};
use crate::section::{Section, keyword_of};
use crate::tokens::is_named;
use crate::words::{Word, Words};
use std::alloc::Allocator;
use std::collections::BTreeMap;

/// A dump whose header is read.
#[derive(Debug, Drop)]
pub struct Dump<'a, A: Allocator> {
    pub header: Header<'a, A>,
    pub body: Body<'a>,
}

// A header that is being read: what it declares so far, the section that has begun, and the line of the last word.
#[derive(Drop)]
pub(crate) struct Reading<'a, A: Allocator> {
    header: Header<'a, A>,
    section: Option<Section<'a>>,
    line: usize,
}

// The section that a word ends.
fn ends<'a>(section: Option<Section<'a>>, word: &[u8]) -> Option<Section<'a>>
    ensures { shown_begun result ≡ ends (shown_begun section.entry) word.now }
{
    match section {
        None => None,
        Some(section) => {
            if is_named(word, "$end") {
                Some(section)
            } else {
                None
            }
        }
    }
}

// The section that a word begins, or to which it belongs.
fn opened<'a>(section: Option<Section<'a>>, word: &'a [u8]) -> Result<Section<'a>, DumpFault>
    ensures { IsSection result (opened (shown_begun section.entry) word.entry.now) }
{
    match section {
        None => match keyword_of(word) {
            Some(keyword) => Ok(Section::begun(keyword)),
            None => Err(DumpFault::UnknownSection),
        },
        Some(section) => Ok(section.with_word(word)),
    }
}

// What is wrong where the file ends within a header.
fn unended(section: Option<Section<'_>>) -> DumpFault
    ensures { result ≡ unended (shown_begun section.entry) }
{
    match section {
        None => DumpFault::HeaderNotEnded,
        Some(_) => DumpFault::SectionNotEnded,
    }
}

// A fault in this line, or that memory was refused.
fn stopped(stop: SectionStop, line: usize) -> HeaderRefusal
    ensures { result ≡ stopped stop line }
{
    match stop {
        SectionStop::Fault(fault) => HeaderRefusal::Fault(LineFault { fault, line }),
        SectionStop::OutOfMemory => HeaderRefusal::OutOfMemory,
    }
}

impl<'a, A: Allocator + Clone> Reading<'a, A> {
    // A section ends in this line: whether the header does.
    fn close(&mut self, section: Section<'a>, line: usize) -> Result<bool, HeaderRefusal>
        ensures { IsClosing self.old (shown_section section.entry) line result self.new }
    {
        match self.header.close(section) {
            Ok(()) => {
                self.section = None;
                self.line = line;
                Ok(section.keyword.ends_header())
            }
            Err(stop) => Err(stopped(stop, line)),
        }
    }

    // Reads a word: whether the header ends with it.
    fn read_word(&mut self, word: Word<'a>) -> Result<bool, HeaderRefusal>
        ensures { IsHeaderWord self.old word.entry result self.new }
    {
        match ends(self.section, word.text) {
            Some(section) => self.close(section, word.line),
            None => match opened(self.section, word.text) {
                Ok(section) => {
                    self.section = Some(section);
                    self.line = word.line;
                    Ok(false)
                }
                Err(fault) => Err(HeaderRefusal::Fault(LineFault {
                    fault,
                    line: word.line,
                })),
            },
        }
    }
}

/// Reads the header of a dump, up to `$end` after `$enddefinitions`: its names, and the widths of their codes. Of a header that isn't as it should be, its
/// first fault is told, G1 or G2, with the line. `OutOfMemory` is answered only where memory was refused, before a fault was met.
pub fn read_header<'a, A: Allocator + Clone>(
    alloc: A,
    text: &'a [u8],
) -> Result<Dump<'a, A>, HeaderRefusal>
    ensures ok { IfOk result (λ d. header text.entry.now ≡ Ok (read_of d)) }
    ensures body { IfOk result (λ d. place_of d.body ≡ beginning) }
    ensures room { IfOk result (λ d. d.body.words.line + length d.body.words.rest.now < 2 ^ 64) }
    ensures lines { IfOk result (λ d. lines_from d.body.words.line d.body.words.rest.now ≡ lines_from 1 text.entry.now) }
    ensures cut { IfOk result (λ d. IsCut text.entry.now → IsCut d.body.words.rest.now) }
    ensures err { IfErr result (λ e. IsRefusalOf e (header text.entry.now)) }
{
    let Ok(copy) = alloc.clone() else {
        return Err(HeaderRefusal::OutOfMemory);
    };
    let mut reading = Reading {
        header: Header {
            variables: Vec::new(copy),
            widths: BTreeMap::new(alloc),
        },
        section: None,
        line: 1,
    };
    let mut words = Words::of(text);
    'words: while let Some(word) = words.next_word() {
        if reading.read_word(word)? {
            return Ok(Dump {
                body: Body {
                    words,
                    time: 0,
                    next: Next::Anything,
                    line: reading.line,
                },
                header: reading.header,
            });
        }
    }
    Err(HeaderRefusal::Fault(LineFault {
        fault: unended(reading.section),
        line: reading.line,
    }))
}
