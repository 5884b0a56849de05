//! What is wrong with a file, in words for whoever wrote it: ``word N, `WORD`: what is wrong (CODE)``, with its line, as far as there is a line and a word.

use crate::fault::Fault;
use crate::headed::{HEADER_LINES, Headed, is_headless};
use crate::reading::is_source;
use crate::words::Words;
use micro_asm::{AsmFault, AsmMessage, AsmRefusal, disassemble};
use micro_claims::{Fault as TextFault, Reason};
use micro_explain::{Cause, explain};
use micro_word::{Text, WordFault};
use nand_geometry::Geometry;
use seq_core::JobFault;
use shown_text::Shown;
use std::alloc::{AllocError, Allocator};
use std::fmt;

impl fmt::Display for Fault {
    fn fmt<W: fmt::Write>(&self, f: &mut fmt::Formatter<W>) -> fmt::Result {
        match self {
            Fault::Page { fault } => write!(f, "{fault}"),
            Fault::Source { fault, .. } => write!(f, "{fault}"),
            Fault::File { fault, .. } => write!(f, "{fault}"),
            Fault::Text { reason, .. } => write!(f, "{reason}"),
            Fault::Job { fault } => write!(f, "{fault}"),
            Fault::Image { fault } => write!(f, "{fault}"),
            Fault::Statement { fault } => write!(f, "{fault}"),
        }
    }
}

/// What is wrong with the file of this path as a whole, in words, unless there is no memory for them.
pub fn words_of<A: Allocator>(alloc: A, path: &str, fault: Fault) -> Option<Words<'_, A>> {
    Words::at(path, None, format!(in alloc; "{fault} ({})", fault.code()))
}

// What the number of a word file's fault is of, if it is of something.
fn place_of(fault: WordFault, word: usize) -> Option<&'static str> {
    match fault {
        // The header's numbers are told as word 0's.
        WordFault::OutOfRange if word == 0 => Some("the header or word"),
        WordFault::UnknownCode | WordFault::UnusedFieldSet | WordFault::OutOfRange => Some("word"),
        WordFault::TooShort
        | WordFault::UnknownFormat
        | WordFault::TooManyWords
        | WordFault::TrailingBytes => None,
    }
}

/// What is wrong with a word file.
pub fn words_of_file<'p, A: Allocator>(
    alloc: A,
    path: &'p str,
    bytes: &[u8],
    fault: WordFault,
    word: usize,
) -> Option<Words<'p, A>> {
    let code = fault.code();
    if is_source(bytes) || is_headless(bytes) {
        let text = format!(in alloc;
            "it is an assembly text, where a word file is wanted: `onfiseq asm` makes one ({code})"
        );
        return Words::at(path, None, text);
    }
    let text = match place_of(fault, word) {
        Some(place) => format!(in alloc; "{place} {word}: {fault} ({code})"),
        None => format!(in alloc; "{fault} ({code})"),
    };
    Words::at(path, None, text)
}

/// What is wrong with a line of an assembly text.
pub fn words_of_source<'p, A: Allocator>(
    alloc: A,
    path: &'p str,
    text: &str,
    fault: AsmFault,
    line: usize,
) -> Option<Words<'p, A>> {
    let message = AsmMessage::new(AsmRefusal::Fault { fault, line }, text);
    let words = if fault == AsmFault::HeaderOutOfOrder && is_headless(text.as_bytes()) {
        format!(in alloc;
            "{message}; `asm --auto PAGE` counts a header for the chip of a parameter page"
        )
    } else {
        format!(in alloc; "{message}")
    };
    Words::at(path, Some(line), words)
}

/// What is wrong with an assembly text to which a header was added: the line of it, counted with those that were added. The line that has a
/// label already is counted in the source.
pub(crate) fn words_of_headed<'p, A: Allocator, B: Allocator>(
    alloc: A,
    path: &'p str,
    source: &str,
    headed: &Headed<B>,
    fault: AsmFault,
    line: usize,
) -> Option<Words<'p, A>> {
    let shown = line.saturating_sub(headed.lines_added);
    let words = match fault {
        AsmFault::LabelTwice => words_of_source(alloc, path, source, fault, shown),
        AsmFault::UnknownWord
        | AsmFault::BadOperand
        | AsmFault::OperandOutOfRange
        | AsmFault::NoSuchLabel
        | AsmFault::LabelAfterLastWord
        | AsmFault::TooManyWords
        | AsmFault::HeaderOutOfOrder => {
            words_of_source(alloc, path, headed.text.as_str(), fault, line)
        }
    };
    Some(words?.at_line(shown))
}

// What a line of an assembly text says, its comment left out.
fn statement_of(line: &str) -> &str {
    match line.split_once(';') {
        Some((statement, _)) => statement.trim(),
        None => line.trim(),
    }
}

// Whether a statement is a header line or a word, and no label.
fn is_word(statement: &str) -> bool {
    !statement.is_empty() && !statement.ends_with(':')
}

// The line of a word in an assembly text, counted from 1, and what stands there. So many lines of its header come first.
fn find_word(assembly: &str, header: usize, word: usize) -> Option<(usize, &str)> {
    let mut left = word.saturating_add(header);
    for (place, line) in assembly.split('\n').enumerate() {
        let statement = statement_of(line);
        if !is_word(statement) {
            continue;
        }
        if left == 0 {
            return Some((place.saturating_add(1), statement));
        }
        left -= 1;
    }
    None
}

// A word of a microprogram: its line, its number, and what stands there, as far as that is known.
#[derive(Clone, Copy)]
struct Named<'a> {
    line: Option<usize>,
    word: usize,
    shown: Option<&'a str>,
}

impl fmt::Display for Named<'_> {
    fn fmt<W: fmt::Write>(&self, f: &mut fmt::Formatter<W>) -> fmt::Result {
        write!(f, "word {}", self.word)?;
        match self.shown {
            Some(shown) => write!(f, ", `{}`", Shown::line(shown)),
            None => Ok(()),
        }
    }
}

// What is against a word that is named so, and what stands behind it, if that is known; of V7 with the rule that the cycle would break.
fn say_reason<A: Allocator>(
    alloc: A,
    named: Named<'_>,
    reason: Reason,
    cause: Option<Cause>,
) -> Result<String<A>, AllocError> {
    let code = reason.code();
    let Some(cause) = cause else {
        return format!(in alloc; "{named}: {reason} ({code})");
    };
    match cause.rule() {
        None => format!(in alloc; "{named}: {reason}: {cause} ({code})"),
        Some(rule) => { format!(in alloc; "{named}: {reason}: {cause} ({code}, {})", rule.code()) }
    }
}

/// What is against a word of a microprogram that was read from these bytes: an assembly text, or a word file, whose word is shown as assembly.
pub fn words_of_reason<'p, A: Allocator + Clone>(
    alloc: A,
    path: &'p str,
    bytes: &[u8],
    text: &Text<A>,
    geometry: &Geometry,
    word: usize,
    reason: Reason,
) -> Option<Words<'p, A>> {
    if reason == Reason::NoWords {
        return words_of(alloc, path, Fault::Text { reason, word });
    }
    let alloc_of_words = alloc.clone().ok()?;
    let assembly = disassemble(alloc, text).ok()?;
    let named = name_word(bytes, assembly.as_str(), word);
    let cause = explain(text, geometry, TextFault { word, reason });
    let words = say_reason(alloc_of_words, named, reason, cause);
    Words::at(path, named.line, words)
}

/// A note to a microprogram that was read from these bytes and has this text as assembly: to one of its words, or to its header.
pub fn words_of_note<'p, A: Allocator, M: fmt::Display + Drop>(
    alloc: A,
    path: &'p str,
    bytes: &[u8],
    assembly: &str,
    word: Option<usize>,
    note: M,
    code: &'static str,
) -> Option<Words<'p, A>> {
    match word {
        Some(word) => {
            let named = name_word(bytes, assembly, word);
            let words = format!(in alloc; "{named}: {note} ({code})");
            Words::at(path, named.line, words)
        }
        None => Words::at(path, None, format!(in alloc; "{note} ({code})")),
    }
}

// A word of a microprogram that has these bytes, and this text as assembly.
fn name_word<'a>(bytes: &'a [u8], assembly: &'a str, word: usize) -> Named<'a> {
    let source = match str::from_utf8(bytes) {
        Ok(source) if is_headless(bytes) => Some((source, 0)),
        Ok(source) if is_source(bytes) => Some((source, HEADER_LINES)),
        Ok(_) | Err(_) => None,
    };
    let (line, shown) = match source {
        Some((source, header)) => find_word(source, header, word).unzip(),
        None => (
            None,
            find_word(assembly, HEADER_LINES, word).map(|found| found.1),
        ),
    };
    Named { line, word, shown }
}

/// What is wrong with the job of a program of so many rows, counted from this index, on a die of this geometry.
pub fn words_of_job<'p, A: Allocator>(
    alloc: A,
    path: &'p str,
    fault: JobFault,
    geometry: &Geometry,
    base: u32,
    rows: u16,
) -> Option<Words<'p, A>> {
    let code = fault.code();
    let text = match fault {
        JobFault::RowsOutside => format!(in alloc;
            "{fault}: {base} and {rows}, where a plane has {} ({code})",
            geometry.indices()
        ),
        JobFault::NotAtBlock => format!(in alloc;
            "{fault}: {base}, where a block has {} rows ({code})",
            geometry.parts().pages
        ),
        JobFault::NoSuchLun | JobFault::BufferLength | JobFault::OtherGeometry => {
            format!(in alloc; "{fault} ({code})")
        }
    };
    Words::at(path, None, text)
}
