//! The sections of a header.
ghost use Rattle.std.specs.Prelude.{◌≡◌, ◌≤◌, ◌==◌, Some, None, Ok, Err, IfOk, IfErr};
ghost use Rattle.vcd_text.specs.Header.{is_skipped, keyword_of, begun, with_word, is_timescale, has_bits, is_width, bits_of, is_variable, sized, variable_of, ends_header, unended};
ghost use Rattle.vcd_text.specs.Sections.{shown_section, shown_variable, IsVariable};

use crate::fault::DumpFault;
use crate::tokens::{Scale, code_of, decimal, is_named};

// What a section is for.
#[derive(Clone, Copy)]
pub(crate) enum Keyword {
    Skipped,
    Timescale,
    Variable,
    EndDefinitions,
}

fn is_skipped(word: &[u8]) -> bool
    ensures { result ≡ is_skipped word.now }
{
    is_named(word, "$scope")
        || is_named(word, "$upscope")
        || is_named(word, "$comment")
        || is_named(word, "$date")
        || is_named(word, "$version")
        || is_named(word, "$attrbegin")
        || is_named(word, "$attrend")
}

// The section that a word begins.
pub(crate) fn keyword_of(word: &[u8]) -> Option<Keyword>
    ensures { result ≡ keyword_of word.now }
{
    if is_named(word, "$var") {
        return Some(Keyword::Variable);
    }
    if is_skipped(word) {
        return Some(Keyword::Skipped);
    }
    if is_named(word, "$timescale") {
        return Some(Keyword::Timescale);
    }
    if is_named(word, "$enddefinitions") {
        return Some(Keyword::EndDefinitions);
    }
    None
}

impl Keyword {
    pub(crate) fn ends_header(self) -> bool
        ensures { result ≡ ends_header self }
    {
        matches!(self, Keyword::EndDefinitions)
    }
}

/// A name that is declared.
#[derive(Clone, Copy, Debug)]
pub struct Variable<'a> {
    pub name: &'a [u8],
    /// The fifth word of its section, as `[7:0]`; empty if there is none.
    pub range: &'a [u8],
    /// How many bits it has; 0 if its kind has none.
    pub width: usize,
    /// The number of its code.
    pub code: u64,
}

// A section that has begun: the first five of its words, and how many it has, where 6 stands for more than five.
#[derive(Clone, Copy)]
pub(crate) struct Section<'a> {
    pub(crate) keyword: Keyword,
    count: u8,
    first: &'a [u8],
    second: &'a [u8],
    third: &'a [u8],
    fourth: &'a [u8],
    fifth: &'a [u8],
}

// Values of this kind have bits.
fn has_bits(kind: &[u8]) -> bool
    ensures { result ≡ has_bits kind.now }
{
    if is_named(kind, "real") {
        return false;
    }
    if is_named(kind, "realtime") {
        return false;
    }
    if is_named(kind, "string") {
        return false;
    }
    !is_named(kind, "event")
}

fn is_width(number: u64) -> bool
    ensures { result ≡ is_width number }
{
    1 <= number && number <= 65_536
}

fn sized(number: u64) -> Result<usize, DumpFault>
    ensures { result ≡ sized number }
{
    if is_width(number) {
        Ok(number as usize)
    } else {
        Err(DumpFault::BadVariable)
    }
}

fn bits_of(kind: &[u8], width: usize) -> usize
    ensures { result ≡ bits_of kind.now width }
{
    if has_bits(kind) { width } else { 0 }
}

impl<'a> Section<'a> {
    pub(crate) fn begun(keyword: Keyword) -> Section<'a>
        ensures { shown_section result ≡ begun keyword }
    {
        Section {
            keyword,
            count: 0,
            first: &[],
            second: &[],
            third: &[],
            fourth: &[],
            fifth: &[],
        }
    }

    // With one word more.
    pub(crate) fn with_word(self, word: &'a [u8]) -> Section<'a>
        ensures { shown_section result ≡ with_word (shown_section self.entry) word.entry.now }
    {
        let mut section = self;
        if section.count == 0 {
            section.count = 1;
            section.first = word;
        } else if section.count == 1 {
            section.count = 2;
            section.second = word;
        } else if section.count == 2 {
            section.count = 3;
            section.third = word;
        } else if section.count == 3 {
            section.count = 4;
            section.fourth = word;
        } else if section.count == 4 {
            section.count = 5;
            section.fifth = word;
        } else {
            section.count = 6;
        }
        section
    }

    pub(crate) fn is_timescale(self) -> bool
        ensures { result ≡ is_timescale (shown_section self.entry) }
    {
        self.count <= 2
            && Scale::Start
                .after_word(self.first)
                .after_word(self.second)
                .is_whole()
    }

    fn is_variable(self) -> bool
        ensures { result ≡ is_variable (shown_section self.entry) }
    {
        self.count == 4 || self.count == 5
    }

    // The name that the section declares.
    pub(crate) fn variable(self) -> Result<Variable<'a>, DumpFault>
        ensures { IsVariable result (variable_of (shown_section self.entry)) }
    {
        let number = decimal(self.second).ok_or(DumpFault::BadVariable)?;
        let width = sized(number)?;
        let code = code_of(self.third).ok_or(DumpFault::BadVariable)?;
        if self.is_variable() {
            Ok(Variable {
                name: self.fourth,
                range: self.fifth,
                width: bits_of(self.first, width),
                code,
            })
        } else {
            Err(DumpFault::BadVariable)
        }
    }
}
