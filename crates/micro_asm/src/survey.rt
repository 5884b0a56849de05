//! The lines of a text, one after another: the header, the words, and the place of each label.

ghost use Rattle.std.specs.Prelude.{◌≡◌, ◌+◌, ◌<◌, ◌^◌, Ok, OnOk, IfOk, IfErr, is_some};
ghost use Rattle.micro_asm.specs.Fits.{SeenFits, LineFits};
ghost use Rattle.micro_asm.specs.Kept.{seen};
ghost use Rattle.micro_asm.specs.Judged.{progress, is_taken, kept};
ghost use Rattle.micro_asm.specs.Reading.{placed, with_line, nothing_seen, with_lines, lines, MayRefuse};
ghost use Rattle.micro_asm.specs.Shown.{shown_line};

use crate::heading::Heading;
use crate::line::spelled;
use crate::lines::next_line;
use crate::progress::Progress;
use crate::refusal::{AsmFault, AsmRefusal};
use crate::statement::{Entry, Statement};
use std::alloc::{AllocError, Allocator};
use std::collections::BTreeMap;

// A word and the number of its line.
#[derive(Clone, Copy)]
pub(crate) struct Pending<'a> {
    pub(crate) line: usize,
    pub(crate) entry: Entry<'a>,
}

// What has been read in front of a line.
#[derive(Drop)]
pub(crate) struct Survey<'a, A: Allocator> {
    pub(crate) line: usize,
    pub(crate) heading: Heading,
    pub(crate) entries: Vec<Pending<'a>, A>,
    pub(crate) labels: BTreeMap<&'a [u8], usize, A>,
}

pub(crate) fn fault(fault: AsmFault, line: usize) -> AsmRefusal
    ensures { result ≡ AsmRefusal.Fault fault line }
{
    AsmRefusal::Fault { fault, line }
}

impl<'a, A: Allocator + Clone> Survey<'a, A> {
    // How far reading has come.
    fn progress(&self) -> Progress
        ensures { result ≡ progress (seen self.now) }
    {
        Progress {
            line: self.line,
            heading: self.heading,
            words: self.entries.len(),
        }
    }

    // Whether a line before has this label.
    fn has_label(&self, name: &[u8]) -> bool
        ensures { result ≡ is_some ((seen self.now).labels name.now) }
    {
        self.labels.get(name).is_some()
    }

    // Whether the line is a label that a line before has.
    fn is_taken(&self, statement: Statement<'_>) -> bool
        ensures { result ≡ is_taken (seen self.now) (shown_line statement.entry) }
    {
        match statement {
            Statement::Label(name) => self.has_label(name),
            _ => false,
        }
    }

    // Keeps a line's word or label.
    fn keep(&mut self, statement: Statement<'a>) -> Result<(), AsmRefusal>
        ensures ok { OnOk result (seen self.new ≡ kept (seen self.old) (shown_line statement.entry)) }
        ensures err { IfErr result (λ e. e ≡ AsmRefusal.OutOfMemory) }
    {
        match statement {
            Statement::Nothing | Statement::Header(_) => Ok(()),
            Statement::Label(name) => {
                let place = self.entries.len();
                self.labels.insert(name, place)?;
                Ok(())
            }
            Statement::Entered(entry) => {
                let line = self.line;
                self.entries.push(Pending { line, entry })?;
                Ok(())
            }
        }
    }

    // A line in its place.
    fn place(&mut self, last: usize, statement: Statement<'a>) -> Result<(), AsmRefusal>
        requires line { LineFits (shown_line statement) }
        requires room { self.old.line < 2 ^ 63 }
        requires fits { SeenFits (seen self.old) }
        ensures ok { OnOk result (placed last (seen self.old) (shown_line statement.entry) ≡ Ok (seen self.new)) }
        ensures err { IfErr result (λ e. MayRefuse e (placed last (seen self.old) (shown_line statement.entry))) }
        ensures fits { OnOk result (SeenFits (seen self.new)) }
        ensures line { OnOk result (self.new.line ≡ self.old.line + 1) }
    {
        let is_taken = self.is_taken(statement);
        match self.progress().after(last, is_taken, statement) {
            Ok(next) => {
                self.keep(statement)?;
                self.line = next.line;
                self.heading = next.heading;
                Ok(())
            }
            Err(code) => Err(fault(code, self.line)),
        }
    }

    // A line, judged by itself and then by its place.
    #[tactic(auto, unfolding(crate::specs::Reading::with_line))]
    fn add_line(&mut self, last: usize, line: &'a [u8]) -> Result<(), AsmRefusal>
        requires room { self.old.line < 2 ^ 63 }
        requires fits { SeenFits (seen self.old) }
        ensures ok { OnOk result (with_line last (seen self.old) line.now ≡ Ok (seen self.new)) }
        ensures err { IfErr result (λ e. MayRefuse e (with_line last (seen self.old) line.now)) }
        ensures fits { OnOk result (SeenFits (seen self.new)) }
        ensures line { OnOk result (self.new.line ≡ self.old.line + 1) }
    {
        match spelled(self.heading.is_heading(), line) {
            Ok(statement) => self.place(last, statement),
            Err(code) => Err(fault(code, self.line)),
        }
    }
}

// Nothing is read yet.
fn nothing_seen<'a, A: Allocator + Clone>(alloc: A) -> Result<Survey<'a, A>, AllocError>
    ensures value { IfOk result (λ s. seen s ≡ nothing_seen) }
    ensures line { IfOk result (λ s. s.line ≡ 1) }
{
    let entries = Vec::new(alloc.clone()?);
    Ok(Survey {
        line: 1,
        heading: Heading::Empty,
        entries,
        labels: BTreeMap::new(alloc),
    })
}

// The lines of a text, `last` being the number of the last line with a word.
#[tactic(auto, unfolding(crate::specs::Reading::with_lines))]
pub(crate) fn survey_of<'a, A: Allocator + Clone>(
    alloc: A,
    text: &'a [u8],
    last: usize,
) -> Result<Survey<'a, A>, AsmRefusal>
    ensures ok { IfOk result (λ s. with_lines last nothing_seen (lines text.entry.now) ≡ Ok (seen s)) }
    ensures fits { IfOk result (λ s. SeenFits (seen s)) }
    ensures err { IfErr result (λ e. MayRefuse e (with_lines last nothing_seen (lines text.entry.now))) }
{
    let mut survey = nothing_seen(alloc)?;
    let mut rest = text;
    'lines: while let Some((line, after)) = next_line(rest) {
        if let Err(refusal) = survey.add_line(last, line) {
            return Err(refusal);
        }
        rest = after;
    }
    Ok(survey)
}
