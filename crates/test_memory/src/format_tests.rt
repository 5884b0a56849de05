//! Files and texts that are read and written.

use crate::turns::{Call, Memory, refuse_in_turn};
use micro_asm::{AsmRefusal, assemble, disassemble};
use micro_verify::{PlainOp, PlainRefusal, TextRefused, VerifyRefusal, plain, verify};
use micro_word::{Text, Word, WordRefusal, read, write};
use nand_geometry::{Geometry, SMALL_CHIP};
use run_file::parse_run;
use std::alloc::Global;
use std::process::Abort;
use std::test::Fail;
use test_heap::Refusal;
use trace_text::{TraceRefusal, is_printable, parse, print, print_bytes};

// The erase of a block that ends with another code where it failed, in format 2.
const FILE: [u8; 44] = [
    0x4e, 0x4d, 0x50, 0x32, 0x07, 0x00, 0x01, 0x00, 0x00, 0x00, 0x00, 0x00, 0x05, 0x00, 0x00, 0x00,
    0x01, 0x60, 0x00, 0x00, 0x02, 0x02, 0x03, 0x00, 0x01, 0xd0, 0x00, 0x00, 0x0a, 0x00, 0x00, 0x00,
    0x0d, 0x01, 0x06, 0x00, 0x00, 0x00, 0x00, 0x00, 0x00, 0x01, 0x00, 0x00,
];

const LINES: &str =
    "rows 1\nbuffer 0\nbudget 5\ncmd 60\naddr 2 3\ncmd d0\nwait\nbrs 01 L6\nend 0\nL6:\nend 1\n";

const WORDS: [Word; 7] = [
    Word::Command { byte: 0x60 },
    Word::Address { from: 2, count: 3 },
    Word::Command { byte: 0xd0 },
    Word::Wait,
    Word::BranchOnStatus { mask: 1, target: 6 },
    Word::End { code: 0 },
    Word::End { code: 1 },
];

// An erase, and another one while the LUN is busy.
const ERASE_TWICE: [Word; 5] = [
    Word::Command { byte: 0x60 },
    Word::Address { from: 2, count: 3 },
    Word::Command { byte: 0xd0 },
    Word::Command { byte: 0x60 },
    Word::End { code: 0 },
];

const TRACE: &str =
    "0 C 60\n0 A 00\n0 A 00\n0 A 00\n0 C d0\n0 C 70\n0 O 80\n0 R 0 0\n0 C 70\n0 O e0\n";

const RUN: &str = "page g2\ntargets 1\npolls 1\njob 0 0 0 erase - -\njob 0 1 0 erase - -\n";

// A program of a page and a read of it: 22 words with the two ends.
const OPERATIONS: [PlainOp; 2] = [
    PlainOp::Program {
        row: 0,
        plane: 0,
        column: 0,
        place: 0,
        len: 2,
    },
    PlainOp::Read {
        row: 0,
        plane: 0,
        column: 0,
        place: 2,
        len: 2,
    },
];

// The calls that read and write.
#[derive(Clone, Copy)]
enum Format {
    Read,
    Write,
    Assemble,
    Disassemble,
    Parse,
    Print,
    PrintBytes,
    ParseRun,
    Plain,
    VerifyRefused,
}

// An answer that isn't the expected one.
fn unexpected() -> Fail {
    Fail::from("another answer than with ample memory")
}

// That memory sufficed, where the answer is the expected one.
fn expect(is_expected: bool) -> Result<bool, Fail> {
    if is_expected {
        Ok(false)
    } else {
        Err(unexpected())
    }
}

// The text of the erase.
fn erase_text<'h>(heap: Memory<'h>) -> Result<Text<Memory<'h>>, Fail> {
    match read(heap, &FILE) {
        Ok(text) => Ok(text),
        Err(_) => Err(unexpected()),
    }
}

fn make_read(heap: Memory<'_>, refusal: Refusal) -> Result<bool, Fail> {
    heap.refuse(refusal);
    match read(heap, &FILE) {
        Ok(text) => expect(text.words() == WORDS.as_slice() && text.budget() == 5),
        Err(WordRefusal::OutOfMemory) => Ok(true),
        Err(_) => Err(unexpected()),
    }
}

fn make_write(heap: Memory<'_>, refusal: Refusal) -> Result<bool, Fail> {
    let text = erase_text(heap)?;
    heap.refuse(refusal);
    match write(heap, &text) {
        Ok(bytes) => expect(bytes.as_slice() == FILE.as_slice()),
        Err(_) => Ok(true),
    }
}

fn make_assemble(heap: Memory<'_>, refusal: Refusal) -> Result<bool, Fail> {
    heap.refuse(refusal);
    match assemble(heap, LINES) {
        Ok(text) => expect(text.words() == WORDS.as_slice() && text.budget() == 5),
        Err(AsmRefusal::OutOfMemory) => Ok(true),
        Err(_) => Err(unexpected()),
    }
}

fn make_disassemble(heap: Memory<'_>, refusal: Refusal) -> Result<bool, Fail> {
    let text = erase_text(heap)?;
    heap.refuse(refusal);
    match disassemble(heap, &text) {
        Ok(lines) => expect(lines.as_str() == LINES),
        Err(_) => Ok(true),
    }
}

fn make_parse(heap: Memory<'_>, refusal: Refusal) -> Result<bool, Fail> {
    heap.refuse(refusal);
    match parse(heap, TRACE) {
        Ok(items) => expect(items.len() == 10 && is_printable(items.as_slice())),
        Err(TraceRefusal::OutOfMemory) => Ok(true),
        Err(_) => Err(unexpected()),
    }
}

fn make_print(heap: Memory<'_>, refusal: Refusal) -> Result<bool, Fail> {
    let items = parse(heap, TRACE)?;
    if !is_printable(items.as_slice()) {
        return Err(unexpected());
    }
    heap.refuse(refusal);
    match print(heap, items.as_slice()) {
        Ok(text) => expect(text.as_str() == TRACE),
        Err(_) => Ok(true),
    }
}

fn make_print_bytes(heap: Memory<'_>, refusal: Refusal) -> Result<bool, Fail> {
    let items = parse(heap, TRACE)?;
    if !is_printable(items.as_slice()) {
        return Err(unexpected());
    }
    heap.refuse(refusal);
    match print_bytes(heap, items.as_slice()) {
        Ok(bytes) => expect(bytes.as_slice() == TRACE.as_bytes()),
        Err(_) => Ok(true),
    }
}

fn make_parse_run(heap: Memory<'_>, refusal: Refusal) -> Result<bool, Fail> {
    heap.refuse(refusal);
    match parse_run(RUN, heap) {
        Ok(run) => expect(run.fault.is_none() && run.statements.len() == 5),
        Err(_) => Ok(true),
    }
}

fn make_plain(heap: Memory<'_>, refusal: Refusal) -> Result<bool, Fail> {
    heap.refuse(refusal);
    match plain(heap, &OPERATIONS, Geometry::of(SMALL_CHIP)?) {
        Ok(verified) => {
            let text = verified.text();
            expect(text.words().len() == 22 && text.budget() == 19)
        }
        Err(PlainRefusal::OutOfMemory) => Ok(true),
        Err(_) => Err(unexpected()),
    }
}

// The text comes back, however it is refused.
fn make_verify_refused(heap: Memory<'_>, refusal: Refusal) -> Result<bool, Fail> {
    let words = Vec::from_slice(heap, &ERASE_TWICE)?;
    let Ok(text) = Text::of(1, 0, 9, words) else {
        return Err(unexpected());
    };
    heap.refuse(refusal);
    let Err(TextRefused { refusal, text }) = verify(text, Geometry::of(SMALL_CHIP)?) else {
        return Err(unexpected());
    };
    let is_back = text.words() == ERASE_TWICE.as_slice();
    match refusal {
        VerifyRefusal::OutOfMemory if is_back => Ok(true),
        VerifyRefusal::Refusal { word, counter, .. } => {
            expect(is_back && word == 3 && counter.is_some())
        }
        VerifyRefusal::OutOfMemory => Err(unexpected()),
    }
}

impl Call for Format {
    // `verify` collects the run of a refusal in lists, and goes on without the room that it asks for at first.
    fn spares(&self) -> u64 {
        match *self {
            Format::VerifyRefused => 2,
            _ => 0,
        }
    }

    fn make(&self, heap: Memory<'_>, refusal: Refusal) -> Result<bool, Fail> {
        match *self {
            Format::Read => make_read(heap, refusal),
            Format::Write => make_write(heap, refusal),
            Format::Assemble => make_assemble(heap, refusal),
            Format::Disassemble => make_disassemble(heap, refusal),
            Format::Parse => make_parse(heap, refusal),
            Format::Print => make_print(heap, refusal),
            Format::PrintBytes => make_print_bytes(heap, refusal),
            Format::ParseRun => make_parse_run(heap, refusal),
            Format::Plain => make_plain(heap, refusal),
            Format::VerifyRefused => make_verify_refused(heap, refusal),
        }
    }
}

const FORMATS: &[Format] = &[
    Format::Read,
    Format::Write,
    Format::Assemble,
    Format::Disassemble,
    Format::Parse,
    Format::Print,
    Format::PrintBytes,
    Format::ParseRun,
    Format::Plain,
    Format::VerifyRefused,
];

// The place of the first call that never answers out of memory.
fn first_never_short(alloc: Global) -> Result<Option<usize>, Fail> {
    for (place, format) in FORMATS.iter().enumerate() {
        if refuse_in_turn(alloc, format)? == 0 {
            return Ok(Some(place));
        }
    }
    Ok(None)
}

#[test]
fn formats(rt: HostRuntime) -> Result<(), Fail> {
    assert_eq!(rt; first_never_short(rt.alloc())?, None);
    Ok(())
}
