//! Writing the text of a microprogram.
ghost use Rattle.std.specs.Prelude.{◌≡◌, ◌++◌, ◌<◌, Bool, OnOk, IfOk};
ghost use Rattle.std.specs.String.{string_bytes};
ghost use Rattle.micro_word.specs.declared.word.Word.TheVariants.{Command, BranchOnStatus};
ghost use Rattle.micro_asm.specs.Assembly.{word_text, label_line, ended, header_lines, assembly};
ghost use Rattle.micro_asm.specs.Reading.{Spells};

use crate::labels::targets;
use micro_word::{Text, Word};
use std::alloc::{AllocError, Allocator};

// Adds the line of a command.
fn push_command<A: Allocator>(text: &mut String<A>, byte: u8) -> Result<(), AllocError>
    ensures { OnOk result (string_bytes text.new ≡ string_bytes text.old ++ ended (word_text (Command byte))) }
{
    writeln!(text, "cmd {byte:02x}")
}

// Adds the line of a branch on the status.
fn push_branch<A: Allocator>(text: &mut String<A>, mask: u8, target: u16) -> Result<(), AllocError>
    ensures { OnOk result (string_bytes text.new ≡ string_bytes text.old ++ ended (word_text (BranchOnStatus mask target))) }
{
    writeln!(text, "brs {mask:02x} L{target}")
}

// Adds the line of a word.
fn push_word<A: Allocator>(text: &mut String<A>, word: Word) -> Result<(), AllocError>
    ensures { OnOk result (string_bytes text.new ≡ string_bytes text.old ++ ended (word_text word)) }
{
    match word {
        Word::End { code } => writeln!(text, "end {code}"),
        Word::Command { byte } => push_command(text, byte),
        Word::Address { from, count } => writeln!(text, "addr {from} {count}"),
        Word::Get { len } => writeln!(text, "get {len}"),
        Word::Put { len } => writeln!(text, "put {len}"),
        Word::Seek { place } => writeln!(text, "seek {place}"),
        Word::Column { column } => writeln!(text, "col {column}"),
        Word::RowAdd { rows } => writeln!(text, "rowadd {rows}"),
        Word::Row { row } => writeln!(text, "row {row}"),
        Word::Plane { plane } => writeln!(text, "plane {plane}"),
        Word::Wait => writeln!(text, "wait"),
        Word::Yield => writeln!(text, "yield"),
        Word::ReadStatus => writeln!(text, "stat"),
        Word::BranchOnStatus { mask, target } => push_branch(text, mask, target),
        Word::Loop { turns } => writeln!(text, "loop {turns}"),
        Word::Next => writeln!(text, "next"),
        Word::Jump { target } => writeln!(text, "jmp L{target}"),
    }
}

// Adds the line of the label of a place, if a branch names it.
fn push_label<A: Allocator>(text: &mut String<A>, named: bool, at: usize) -> Result<(), AllocError>
    ensures { OnOk result (string_bytes text.new ≡ string_bytes text.old ++ label_line named at) }
{
    if named {
        writeln!(text, "L{at}:")?;
    }
    Ok(())
}

// Adds the three lines of the header.
fn push_header<A: Allocator>(lines: &mut String<A>, text: &Text<A>) -> Result<(), AllocError>
    ensures { OnOk result (string_bytes lines.new ≡ string_bytes lines.old ++ header_lines text.now) }
{
    let rows = text.rows();
    let buffer = text.buffer();
    let budget = text.budget();
    writeln!(lines, "rows {rows}")?;
    writeln!(lines, "buffer {buffer}")?;
    writeln!(lines, "budget {budget}")
}

/// The assembly text of a microprogram: three lines for its header, and then a line for each word, with single spaces
/// and lower-case hexadecimal; a word to which a branch leads has its label `Lk:` on a line before it, k being the number of the
/// word. The lines spell the microprogram, so `assemble` gives it back, or `OutOfMemory`. `AllocError` is answered only where memory
/// was refused.
pub fn disassemble<A: Allocator>(alloc: A, text: &Text<A>) -> Result<String<A>, AllocError>
    ensures written { IfOk result (λ lines. string_bytes lines ≡ assembly text.now) }
    // The lines spell the microprogram.
    ensures spells { IfOk result (λ lines. Spells (string_bytes lines) text.now) }
{
    let mut lines = String::new(alloc);
    push_header(&mut lines, text)?;
    let words = text.words();
    let named = targets(words);
    for (at, word) in words.iter().enumerate() {
        push_label(&mut lines, named[at], at)?;
        push_word(&mut lines, *word)?;
    }
    Ok(lines)
}
