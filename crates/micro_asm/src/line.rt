//! What one line spells.

ghost use Rattle.std.specs.Prelude.{◌≡◌, ◌≤◌, ◌∷◌, IfOk, IfErr, Err, Ok};
ghost use Rattle.micro_word.specs.declared.format.Format.TheVariants.{Two};
ghost use Rattle.micro_word.specs.Word.{IsInRange};
ghost use Rattle.micro_asm.specs.Line.{plain_line, before_comment, fields, least, greatest, with_number, counted_line, bare_line, command_line, address_line, target_of, branch_line, jump_line, named_line, label_line, fields_line, spelled, begins_word};
ghost use Rattle.micro_asm.specs.Fits.{LineFits};
ghost use Rattle.micro_asm.specs.Shown.{shown_line, IsLine};

use crate::fields::{before_comment, next_field, one_field, two_fields};
use crate::names::{Bare, Counted, Name, name_of, word_name};
use crate::operands::{byte_of, is_label, label_of, number_of};
use crate::refusal::AsmFault;
use crate::statement::{Entry, Setting, Statement};
use micro_word::Word;

// A word that is no branch.
fn plain<'a>(word: Word) -> Statement<'a>
    requires { IsInRange Two 0 word }
    ensures value { shown_line result ≡ plain_line word }
    ensures fits { LineFits (shown_line result) }
{
    Statement::Entered(Entry::Plain(word))
}

// The line of a name and its number, which is in range.
fn with_number<'a>(kind: Counted, number: u64) -> Statement<'a>
    requires least { least kind ≤ number }
    requires greatest { number ≤ greatest kind }
    ensures value { shown_line result ≡ with_number kind number }
    ensures fits { LineFits (shown_line result) }
{
    match kind {
        Counted::Rows => Statement::Header(Setting::Rows(number as u16)),
        Counted::Buffer => Statement::Header(Setting::Buffer(number as u32)),
        Counted::Budget => Statement::Header(Setting::Budget(number as u32)),
        Counted::End => plain(Word::End { code: number as u8 }),
        Counted::Get => plain(Word::Get { len: number as u32 }),
        Counted::Put => plain(Word::Put { len: number as u32 }),
        Counted::Seek => plain(Word::Seek {
            place: number as u32,
        }),
        Counted::Column => plain(Word::Column {
            column: number as u16,
        }),
        Counted::RowAdd => plain(Word::RowAdd {
            rows: number as u16,
        }),
        Counted::Row => plain(Word::Row { row: number as u16 }),
        Counted::Plane => plain(Word::Plane {
            plane: number as u8,
        }),
        Counted::Loop => plain(Word::Loop {
            turns: number as u16,
        }),
    }
}

// One decimal number in the range of the name.
#[tactic(auto, unfolding(crate::specs::Line::counted_line))]
fn counted_line<'a>(kind: Counted, operands: &[u8]) -> Result<Statement<'a>, AsmFault>
    ensures value { IsLine result (counted_line kind (fields operands.now)) }
    ensures fits { IfOk result (λ s. LineFits (shown_line s)) }
{
    let field = one_field(operands).ok_or(AsmFault::BadOperand)?;
    let number = number_of(field).ok_or(AsmFault::BadOperand)?;
    if kind.least() <= number && number <= kind.greatest() {
        Ok(with_number(kind, number))
    } else {
        Err(AsmFault::OperandOutOfRange)
    }
}

// No operand.
#[tactic(auto, unfolding(crate::specs::Line::bare_line))]
fn bare_line<'a>(kind: Bare, operands: &[u8]) -> Result<Statement<'a>, AsmFault>
    ensures value { IsLine result (bare_line kind (fields operands.now)) }
    ensures fits { IfOk result (λ s. LineFits (shown_line s)) }
{
    match next_field(operands) {
        None => Ok(plain(kind.word())),
        Some(_) => Err(AsmFault::BadOperand),
    }
}

// A byte.
#[tactic(auto, unfolding(crate::specs::Line::command_line))]
fn command_line<'a>(operands: &[u8]) -> Result<Statement<'a>, AsmFault>
    ensures value { IsLine result (command_line (fields operands.now)) }
    ensures fits { IfOk result (λ s. LineFits (shown_line s)) }
{
    let field = one_field(operands).ok_or(AsmFault::BadOperand)?;
    let byte = byte_of(field).ok_or(AsmFault::BadOperand)?;
    Ok(plain(Word::Command { byte }))
}

// The address bytes of a row and a column.
const ADDRESS_BYTES: u64 = 5;

// The first of the five address bytes and their count.
#[tactic(auto, unfolding(crate::specs::Line::address_line))]
fn address_line<'a>(operands: &[u8]) -> Result<Statement<'a>, AsmFault>
    ensures value { IsLine result (address_line (fields operands.now)) }
    ensures fits { IfOk result (λ s. LineFits (shown_line s)) }
{
    let (first, second) = two_fields(operands).ok_or(AsmFault::BadOperand)?;
    let from = number_of(first).ok_or(AsmFault::BadOperand)?;
    let count = number_of(second).ok_or(AsmFault::BadOperand)?;
    if count < 1 || from > ADDRESS_BYTES || count > ADDRESS_BYTES - from {
        return Err(AsmFault::OperandOutOfRange);
    }
    Ok(plain(Word::Address {
        from: from as u8,
        count: count as u8,
    }))
}

// A label of the right form, and nothing after it.
#[tactic(auto, unfolding(crate::specs::Line::target_of))]
fn target_of(operands: &[u8]) -> Result<&[u8], AsmFault>
    ensures ok { IfOk result (λ to. target_of (fields operands.entry.now) ≡ Ok to.now) }
    ensures err { IfErr result (λ e. target_of (fields operands.entry.now) ≡ Err e) }
{
    let (to, after) = next_field(operands).ok_or(AsmFault::BadOperand)?;
    if !is_label(to) {
        return Err(AsmFault::UnknownWord);
    }
    match next_field(after) {
        None => Ok(to),
        Some(_) => Err(AsmFault::BadOperand),
    }
}

// A mask with a bit, and a label.
#[tactic(auto, unfolding(crate::specs::Line::branch_line))]
fn branch_line(operands: &[u8]) -> Result<Statement<'_>, AsmFault>
    ensures value { IsLine result (branch_line (fields operands.entry.now)) }
    ensures fits { IfOk result (λ s. LineFits (shown_line s)) }
{
    let (field, after) = next_field(operands).ok_or(AsmFault::BadOperand)?;
    let to = target_of(after)?;
    let mask = byte_of(field).ok_or(AsmFault::BadOperand)?;
    if mask == 0 {
        return Err(AsmFault::OperandOutOfRange);
    }
    Ok(Statement::Entered(Entry::Branch { mask, to }))
}

#[tactic(auto, unfolding(crate::specs::Line::jump_line))]
fn jump_line(operands: &[u8]) -> Result<Statement<'_>, AsmFault>
    ensures value { IsLine result (jump_line (fields operands.entry.now)) }
    ensures fits { IfOk result (λ s. LineFits (shown_line s)) }
{
    let to = target_of(operands)?;
    Ok(Statement::Entered(Entry::Jump { to }))
}

// The line of a name and its operands.
#[tactic(auto, unfolding(crate::specs::Line::named_line))]
fn named_line(name: Name, operands: &[u8]) -> Result<Statement<'_>, AsmFault>
    ensures value { IsLine result (named_line name (fields operands.entry.now)) }
    ensures fits { IfOk result (λ s. LineFits (shown_line s)) }
{
    match name {
        Name::Number(kind) => counted_line(kind, operands),
        Name::Bare(kind) => bare_line(kind, operands),
        Name::Command => command_line(operands),
        Name::Address => address_line(operands),
        Name::Branch => branch_line(operands),
        Name::Jump => jump_line(operands),
    }
}

// A label, which stands alone.
#[tactic(auto, unfolding(crate::specs::Line::label_line))]
fn label_line<'a>(first: &'a [u8], operands: &[u8]) -> Result<Statement<'a>, AsmFault>
    ensures value { IsLine result (label_line first.entry.now (fields operands.now)) }
    ensures fits { IfOk result (λ s. LineFits (shown_line s)) }
{
    let name = label_of(first).ok_or(AsmFault::UnknownWord)?;
    match next_field(operands) {
        None => Ok(Statement::Label(name)),
        Some(_) => Err(AsmFault::UnknownWord),
    }
}

// What a line spells, in the place of a header line or in that of a word.
#[tactic(auto, unfolding(crate::specs::Line::spelled, crate::specs::Line::fields_line))]
pub(crate) fn spelled(heads: bool, line: &[u8]) -> Result<Statement<'_>, AsmFault>
    ensures value { IsLine result (spelled heads line.entry.now) }
    ensures fits { IfOk result (λ s. LineFits (shown_line s)) }
{
    let Some((first, operands)) = next_field(before_comment(line)) else {
        return Ok(Statement::Nothing);
    };
    match name_of(heads, first) {
        Some(name) => named_line(name, operands),
        None => label_line(first, operands),
    }
}

// Whether the first field is the name of a word.
#[tactic(auto, unfolding(crate::specs::Line::begins_word))]
pub(crate) fn begins_word(line: &[u8]) -> bool
    ensures { result ≡ begins_word (fields (before_comment line.now)) }
{
    match next_field(before_comment(line)) {
        Some((first, _)) => word_name(first).is_some(),
        None => false,
    }
}
