//! Assembly text to word files, and back.
ghost use Rattle.std.specs.Prelude.{◌≡◌, IfOk, IfErr};
ghost use Rattle.std.specs.String.{string_bytes};
ghost use Rattle.micro_asm.specs.Assembly.{assembly};
ghost use Rattle.micro_word.specs.Text.{file2};
ghost use Rattle.onfiseq_text_c.specs.Assembly.{Comes, SpellsFile, FailsText, ShowsFile, FailsFile};

use crate::failure::Failure;
use micro_asm::{AsmRefusal, assemble, disassemble};
use micro_word::{Text, WordRefusal, read, write};
use placed_bytes::{OnfiseqPlaced, place};
use std::alloc::Global;

// The word file of a microprogram.
fn file_of(alloc: Global, program: &Text<Global>) -> Result<Vec<u8>, Failure>
    ensures ok { IfOk result (λ v. v.items ≡ file2 program.now) }
    ensures err { IfErr result (λ e. e ≡ Failure.OutOfMemory) }
{
    match write(alloc, program) {
        Ok(bytes) => Ok(bytes),
        Err(_) => Err(Failure::OutOfMemory),
    }
}

// The word file of the microprogram that a text spells.
fn file_of_text(alloc: Global, text: &[u8]) -> Result<Vec<u8>, Failure>
    ensures ok { IfOk result (λ v. SpellsFile text.now v.items) }
    ensures err { IfErr result (FailsText text.now) }
{
    let Ok(text) = str::from_utf8(text) else {
        return Err(Failure::NotText);
    };
    match assemble(alloc, text) {
        Ok(program) => file_of(alloc, &program),
        Err(AsmRefusal::Fault { fault, line }) => Err(Failure::Text { fault, line }),
        Err(AsmRefusal::OutOfMemory) => Err(Failure::OutOfMemory),
    }
}

/// Assembles a text: its word file, in format 2, stands in the buffer.
#[unsafe(no_mangle)]
pub extern "C" fn onfiseq_assemble(alloc: Global, text: &[u8], file: &mut [u8]) -> OnfiseqPlaced
    ensures { Comes (SpellsFile text.now) (FailsText text.now) file.old file.new result }
{
    match file_of_text(alloc, text) {
        Ok(bytes) => place(bytes.as_slice(), file),
        Err(failure) => failure.told(),
    }
}

// The assembly text of a microprogram.
fn text_of(alloc: Global, program: &Text<Global>) -> Result<String, Failure>
    ensures ok { IfOk result (λ lines. string_bytes lines ≡ assembly program.now) }
    ensures err { IfErr result (λ e. e ≡ Failure.OutOfMemory) }
{
    match disassemble(alloc, program) {
        Ok(lines) => Ok(lines),
        Err(_) => Err(Failure::OutOfMemory),
    }
}

// The assembly text of the microprogram of a word file.
fn text_of_file(alloc: Global, file: &[u8]) -> Result<String, Failure>
    ensures ok { IfOk result (λ lines. ShowsFile file.now (string_bytes lines)) }
    ensures err { IfErr result (FailsFile file.now) }
{
    match read(alloc, file) {
        Ok(program) => text_of(alloc, &program),
        Err(WordRefusal::Fault { fault, word }) => Err(Failure::File { fault, word }),
        Err(WordRefusal::OutOfMemory) => Err(Failure::OutOfMemory),
    }
}

/// Disassembles a word file of either format: its assembly text stands in the buffer.
#[unsafe(no_mangle)]
pub extern "C" fn onfiseq_disassemble(alloc: Global, file: &[u8], text: &mut [u8]) -> OnfiseqPlaced
    ensures { Comes (ShowsFile file.now) (FailsFile file.now) text.old text.new result }
{
    match text_of_file(alloc, file) {
        Ok(lines) => place(lines.as_bytes(), text),
        Err(failure) => failure.told(),
    }
}
