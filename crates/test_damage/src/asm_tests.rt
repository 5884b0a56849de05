//! Damaged assembly texts: what is refused is refused at a line of the text, and what is accepted is written and read as the same.

use crate::random::{Random, set_byte};
use micro_asm::{AsmFault, AsmRefusal, assemble, disassemble};
use micro_word::Text;
use std::alloc::{AllocError, Global};
use std::process::Abort;
use std::test::Fail;

// ---- texts and their damage

const HEADERS: [&str; 3] = ["rows 4", "buffer 528", "budget 10000"];

// Lines without fault, but for what labels and branches want of one another.
const LINES: [&str; 32] = [
    "cmd 60",
    "cmd fF ; a reset",
    "addr 2 3",
    "addr\t0 5",
    "get 528",
    "put 1",
    "seek 65536",
    "col 511",
    "rowadd 1",
    "row 0",
    "plane 3",
    "wait",
    "yield",
    "stat",
    "  loop 4096",
    "next",
    "end 0",
    "end 255",
    "",
    "; a comment",
    "wait ; once",
    "wait ; and once more",
    "cmd 00",
    "addr 0 5",
    "cmd 30",
    "get 16777215",
    "seek 0",
    "row 4095",
    "first:",
    "second_2:",
    "brs 01 first",
    "jmp second_2",
];

// What a changed byte becomes, and what noise is made of.
const BYTES: [u8; 32] = *b"0123456789abfxLz_:;\t\n\r rowcmdj+-";

fn some_byte(random: &mut Random) -> u8 {
    BYTES.get(random.below(32)).copied().unwrap_or(b' ')
}

fn some_line(random: &mut Random) -> &'static str {
    LINES.get(random.below(32)).copied().unwrap_or("")
}

// Three headers and up to 12 lines; one text in 512 has a thousand lines more.
fn make_lines(alloc: Global, random: &mut Random) -> Result<Vec<&'static str>, AllocError> {
    let mut lines = Vec::from_slice(alloc, &HEADERS)?;
    let count = random.below(12);
    for _ in 0..count {
        lines.push(some_line(random))?;
    }
    if random.once_in(512) {
        for _ in 0..1_030 {
            lines.push("wait")?;
        }
    }
    Ok(lines)
}

// The line of this place, empty where there is none.
fn line_at(lines: &[&'static str], place: usize) -> &'static str {
    lines.get(place).copied().unwrap_or("")
}

// Puts a line at a place, if there is one.
fn set_line(lines: &mut Vec<&'static str>, place: usize, line: &'static str) {
    if let Some(old) = lines.get_mut(place) {
        *old = line;
    }
}

// Two lines are swapped, one stands twice, one becomes another or is left out, or the last ones are cut off.
fn damage_lines(random: &mut Random, lines: &mut Vec<&'static str>) -> Result<(), AllocError> {
    let first = random.below(lines.len());
    let second = random.below(lines.len());
    let line = line_at(lines.as_slice(), first);
    match random.below(5) {
        0 => {
            let other = line_at(lines.as_slice(), second);
            set_line(lines, first, other);
            set_line(lines, second, line);
        }
        1 => lines.push(line)?,
        2 => set_line(lines, second, line),
        3 => set_line(lines, first, some_line(random)),
        _ => lines.truncate(first),
    }
    Ok(())
}

// The bytes of lines, each ended by a line feed.
fn join_lines(alloc: Global, lines: &[&'static str]) -> Result<Vec<u8>, AllocError> {
    let mut bytes = Vec::new(alloc);
    for line in lines {
        bytes.extend_from_slice(line.as_bytes())?;
        bytes.push(b'\n')?;
    }
    Ok(bytes)
}

// One byte to three are changed, or the text is cut off somewhere.
fn damage_bytes(random: &mut Random, bytes: &mut Vec<u8>) {
    if random.once_in(4) {
        bytes.truncate(random.below(bytes.len()));
        return;
    }
    let count = random.below(3).saturating_add(1);
    for _ in 0..count {
        let place = random.below(bytes.len());
        set_byte(bytes, place, some_byte(random));
    }
}

// Noise of up to 100 bytes.
fn make_noise(alloc: Global, random: &mut Random) -> Result<Vec<u8>, AllocError> {
    let mut bytes = Vec::new(alloc);
    let count = random.below(100);
    for _ in 0..count {
        bytes.push(some_byte(random))?;
    }
    Ok(bytes)
}

// The lines of a text, of which one in three is changed.
fn make_damaged(alloc: Global, random: &mut Random) -> Result<Vec<u8>, AllocError> {
    let mut lines = make_lines(alloc, random)?;
    if random.once_in(3) {
        damage_lines(random, &mut lines)?;
    }
    let mut bytes = join_lines(alloc, lines.as_slice())?;
    if random.once_in(3) {
        damage_bytes(random, &mut bytes);
    }
    Ok(bytes)
}

// The bytes with a letter that isn't ASCII somewhere among them.
fn with_letter(alloc: Global, random: &mut Random, bytes: &[u8]) -> Result<Vec<u8>, AllocError> {
    let place = random.below(bytes.len());
    let mut all = Vec::new(alloc);
    for (at, byte) in bytes.iter().enumerate() {
        if at == place {
            all.extend_from_slice("é".as_bytes())?;
        }
        all.push(*byte)?;
    }
    Ok(all)
}

// A damaged text, or noise.
fn make_bytes(alloc: Global, random: &mut Random) -> Result<Vec<u8>, AllocError> {
    let bytes = if random.once_in(16) {
        make_noise(alloc, random)?
    } else {
        make_damaged(alloc, random)?
    };
    if random.once_in(16) {
        return with_letter(alloc, random, bytes.as_slice());
    }
    Ok(bytes)
}

// ---- what comes of them

// How many lines there are: what stands behind the last line feed is one too, if it has a byte.
fn count_lines(text: &str) -> usize {
    let mut count = 0usize;
    for byte in text.bytes() {
        if byte == b'\n' {
            count = count.saturating_add(1);
        }
    }
    if text.is_empty() || text.ends_with('\n') {
        count
    } else {
        count.saturating_add(1)
    }
}

// The first lines of a text, so many.
fn first_lines(alloc: Global, text: &str, count: usize) -> Result<String, AllocError> {
    let mut lines = String::new(alloc);
    for line in text.split('\n').take(count) {
        lines.push_str(line)?;
        lines.push('\n')?;
    }
    Ok(lines)
}

// A text that ends may lack a label or a header, or have a label behind its last word. Anything else is a fault of its lines.
fn is_of_the_end(refusal: Option<AsmRefusal>) -> bool {
    match refusal {
        None => true,
        Some(AsmRefusal::OutOfMemory) => false,
        Some(AsmRefusal::Fault { fault, .. }) => matches!(
            fault,
            AsmFault::NoSuchLabel | AsmFault::LabelAfterLastWord | AsmFault::HeaderOutOfOrder
        ),
    }
}

// A fault is at a line of the text, or is a header that is missing in the line behind its last one. The lines before it have no fault of
// their own, and with it they have one: the same, but where the end of the text is told first.
fn is_at_its_line(
    alloc: Global,
    text: &str,
    fault: AsmFault,
    line: usize,
) -> Result<bool, AllocError> {
    let before = first_lines(alloc, text, line.saturating_sub(1))?;
    if line == 0 || !is_of_the_end(assemble(alloc, before.as_str()).err()) {
        return Ok(false);
    }
    let count = count_lines(text);
    if line > count {
        return Ok(fault == AsmFault::HeaderOutOfOrder && line == count.saturating_add(1));
    }
    let with = first_lines(alloc, text, line)?;
    let told = assemble(alloc, with.as_str()).err();
    let alike = told == Some(AsmRefusal::Fault { fault, line });
    Ok(alike || (told.is_some() && is_of_the_end(told)))
}

// The text is the same once it is written and read.
fn is_kept(alloc: Global, text: &Text) -> Result<bool, Fail> {
    let lines = disassemble(alloc, text)?;
    let again = assemble(alloc, lines.as_str())?;
    Ok(
        again.rows() == text.rows()
            && again.buffer() == text.buffer()
            && again.budget() == text.budget()
            && again.words() == text.words(),
    )
}

// Which fault it is, by its code.
fn number_of(fault: AsmFault) -> usize {
    match fault {
        AsmFault::UnknownWord => 1,
        AsmFault::BadOperand => 2,
        AsmFault::OperandOutOfRange => 3,
        AsmFault::NoSuchLabel => 4,
        AsmFault::LabelTwice => 5,
        AsmFault::LabelAfterLastWord => 6,
        AsmFault::TooManyWords => 7,
        AsmFault::HeaderOutOfOrder => 8,
    }
}

// Which fault a text has, 0 for none; None where something comes of it that mustn't.
fn comes_to(alloc: Global, text: &str) -> Result<Option<usize>, Fail> {
    match assemble(alloc, text) {
        Ok(read) => {
            if is_kept(alloc, &read)? {
                Ok(Some(0))
            } else {
                Ok(None)
            }
        }
        Err(AsmRefusal::Fault { fault, line }) => {
            if is_at_its_line(alloc, text, fault, line)? {
                Ok(Some(number_of(fault)))
            } else {
                Ok(None)
            }
        }
        Err(AsmRefusal::OutOfMemory) => Ok(None),
    }
}

#[test]
fn damaged_texts_of_a_generator(rt: HostRuntime) -> Result<(), Fail> {
    let mut random = Random::new(0x0a55_e3b1_e0a5_5e3b);
    let mut seen = [0u64; 9];
    for round in 0..10_000u32 {
        let bytes = make_bytes(rt.alloc(), &mut random)?;
        let text = str::from_utf8(bytes.as_slice())?;
        let kind = comes_to(rt.alloc(), text)?;
        assert!(rt; kind.is_some(), "text {round}: {text}");
        if let Some(count) = seen.get_mut(kind.unwrap_or(0)) {
            *count = count.saturating_add(1);
        }
    }
    for (kind, count) in seen.iter().enumerate() {
        assert!(rt; *count >= 10, "A{kind}: {count}");
    }
    Ok(())
}
