//! A second look at a text, which takes no memory: its first fault. It looks each label up in the text itself, so its time grows
//! with the square of the number of lines.

ghost use Rattle.std.specs.Prelude.{◌≡◌, ◌+◌, ◌<◌, ◌^◌, IfOk, MatchOption, IsOk};
ghost use Rattle.micro_asm.specs.Judged.{at_start};
ghost use Rattle.micro_asm.specs.Line.{spelled};
ghost use Rattle.micro_asm.specs.Looked.{is_label_line, looked, is_taken_in, walked_line, walked, leads, lost, labels_in, fault_at_end, fault_in};
ghost use Rattle.micro_asm.specs.Reading.{lines, last_word, reading, IsRefusalOf};
ghost use Rattle.micro_asm.specs.Shown.{shown_line};

use crate::line::spelled;
use crate::lines::{last_word, next_line};
use crate::progress::Progress;
use crate::refusal::{AsmFault, AsmRefusal};
use crate::statement::{Entry, Statement};
use crate::survey::fault;

// Whether the line is the label of this name.
fn is_label(statement: Statement<'_>, name: &[u8]) -> bool
    ensures { result ≡ is_label_line name.now (shown_line statement.entry) }
{
    match statement {
        Statement::Label(own) => own == name,
        _ => false,
    }
}

// The place of the label's word, if the label stands in front of line number `until`.
#[tactic(auto, unfolding(crate::specs::Looked::looked))]
fn place_before(text: &[u8], last: usize, until: usize, name: &[u8]) -> Option<usize>
    ensures { result ≡ looked last name.now until at_start (lines text.now) }
{
    let mut at = Progress::at_start();
    let mut rest = text;
    'lines: while let Some((line, after)) = next_line(rest) {
        if at.line >= until {
            return None;
        }
        match at.read(last, line) {
            Some((statement, _)) if is_label(statement, name) => return Some(at.words),
            Some((_, next)) => at = next,
            None => return None,
        }
        rest = after;
    }
    None
}

// Whether the line is a label that stands in front already.
fn is_taken(text: &[u8], last: usize, at: Progress, statement: Statement<'_>) -> bool
    ensures { result ≡ is_taken_in last (lines text.now) at (shown_line statement.entry) }
{
    match statement {
        Statement::Label(name) => place_before(text, last, at.line, name).is_some(),
        _ => false,
    }
}

// After one more line.
#[tactic(auto, unfolding(crate::specs::Looked::walked_line))]
fn walk_line(text: &[u8], last: usize, at: Progress, line: &[u8]) -> Result<Progress, AsmFault>
    requires room { at.line < 2 ^ 63 }
    ensures value { result ≡ walked_line last (lines text.now) at line.now }
    ensures line { IfOk result (λ next. next.line ≡ at.line + 1) }
{
    let statement = spelled(at.heading.is_heading(), line)?;
    at.after(last, is_taken(text, last, at, statement), statement)
}

// After all lines, or the first fault of a line.
#[tactic(auto, unfolding(crate::specs::Looked::walked))]
fn walk(text: &[u8], last: usize) -> Result<Progress, AsmRefusal>
    ensures { result ≡ walked last (lines text.now) at_start (lines text.now) }
{
    let mut at = Progress::at_start();
    let mut rest = text;
    'lines: while let Some((line, after)) = next_line(rest) {
        match walk_line(text, last, at, line) {
            Ok(next) => at = next,
            Err(code) => return Err(fault(code, at.line)),
        }
        rest = after;
    }
    Ok(at)
}

// Whether each branch of the line leads to a word.
fn leads(text: &[u8], last: usize, end: Progress, statement: Statement<'_>) -> bool
    ensures { result ≡ leads end.words (labels_in last (lines text.now) end) (shown_line statement.entry) }
{
    match statement {
        Statement::Entered(Entry::Branch { to, .. } | Entry::Jump { to }) => {
            match place_before(text, last, end.line, to) {
                Some(place) => place < end.words,
                None => false,
            }
        }
        _ => true,
    }
}

// The first branch that leads to no word.
#[tactic(auto, unfolding(crate::specs::Looked::lost))]
fn find_lost_branch(text: &[u8], last: usize, end: Progress) -> Option<AsmRefusal>
    ensures { result ≡ lost last end.words (labels_in last (lines text.now) end) at_start (lines text.now) }
{
    let mut at = Progress::at_start();
    let mut rest = text;
    'lines: while let Some((line, after)) = next_line(rest) {
        match at.read(last, line) {
            Some((statement, next)) if leads(text, last, end, statement) => at = next,
            Some(_) => return Some(fault(AsmFault::NoSuchLabel, at.line)),
            None => return None,
        }
        rest = after;
    }
    None
}

// The fault that only the end of the text tells.
fn fault_at_end(text: &[u8], last: usize, end: Progress) -> Option<AsmRefusal>
    ensures { result ≡ fault_at_end last (lines text.now) end }
{
    if end.heading.is_heading() {
        Some(fault(AsmFault::HeaderOutOfOrder, end.line))
    } else {
        find_lost_branch(text, last, end)
    }
}

#[tactic(auto, unfolding(crate::specs::Looked::fault_in))]
fn first_fault(text: &[u8], last: usize) -> Option<AsmRefusal>
    ensures { result ≡ fault_in last (lines text.now) }
{
    match walk(text, last) {
        Ok(end) => fault_at_end(text, last, end),
        Err(refusal) => Some(refusal),
    }
}

// The first fault of a text. Takes no memory.
pub(crate) fn find_fault(text: &[u8]) -> Option<AsmRefusal>
    ensures { MatchOption result (IsOk (reading text.now)) (λ e. IsRefusalOf e (reading text.now)) }
{
    first_fault(text, last_word(text))
}
