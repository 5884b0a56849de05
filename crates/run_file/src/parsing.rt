//! The statements of a whole text.

ghost use Rattle.std.specs.Prelude.{◌≡◌, ◌+◌, ◌<◌, ◌++◌, ◌∷◌, [], ℕ, List, IfOk, IfNone, OnOk};
ghost use Rattle.run_file.specs.Told.{told, told_from, judged, jobs_in, stopped, ended};
ghost use Rattle.run_file.specs.Run.{IsRun};
ghost use Rattle.run_file.specs.Shown.{shown_statement, shown_text, IsSpelled, SurveyFits, before, IsReading};

use crate::line::spelled;
use crate::order::place;
use crate::refusal::{RunFault, RunRefusal};
use crate::statement::{Numbered, Statement};
use micro_asm::next_line;
use std::alloc::{AllocError, Allocator};

/// What a text comes to: the statements of the lines before the first faulty one, in order, and that line's fault.
#[derive(Drop)]
pub struct RunText<'a, A: Allocator> {
    pub statements: Vec<Numbered<'a>, A>,
    pub fault: Option<RunRefusal>,
}

// What has been read in front of a line.
#[derive(Drop)]
struct Survey<'a, A: Allocator> {
    line: usize,
    jobs: usize,
    statements: Vec<Numbered<'a>, A>,
}

impl<'a, A: Allocator> Survey<'a, A> {
    // A line after the statements before it.
    #[tactic(auto, unfolding(crate::specs::Told::judged, crate::specs::Told::placed))]
    fn judged(&self, line: &'a [u8]) -> Result<Option<Statement<'a>>, RunFault>
        requires { SurveyFits self.now }
        ensures { IsSpelled result (judged (before self.now) line.entry.now) }
    {
        let Some(statement) = spelled(line)? else {
            return Ok(None);
        };
        place(self.statements.as_slice(), self.jobs, statement)?;
        Ok(Some(statement))
    }

    // Adds the statement of this line.
    fn add(&mut self, statement: Statement<'a>) -> Result<(), AllocError>
        requires { SurveyFits self.old }
        ensures statements { OnOk result (before self.new ≡ before self.old ++ (self.old.line, shown_statement statement.entry) ∷ []) }
        ensures line { OnOk result (self.new.line ≡ self.old.line + 1) }
        ensures jobs { OnOk result (self.new.jobs ≡ jobs_in (before self.new)) }
        ensures fewer { OnOk result (self.new.jobs < self.new.line) }
    {
        if statement.is_job() {
            self.jobs += 1;
        }
        let line = self.line;
        self.statements.push(Numbered { line, statement })?;
        self.line += 1;
        Ok(())
    }

    // Reads this line, or tells its fault and stays.
    fn read_line(&mut self, line: &'a [u8]) -> Result<Option<RunFault>, AllocError>
        requires { SurveyFits self.old }
        ensures read { IfOk result (λ fault. IsReading self.old line.entry.now fault self.new) }
        ensures line { IfOk result (λ fault. IfNone fault (self.new.line ≡ self.old.line + 1)) }
        ensures jobs { OnOk result (self.new.jobs ≡ jobs_in (before self.new)) }
        ensures fewer { OnOk result (self.new.jobs < self.new.line) }
    {
        match self.judged(line) {
            Ok(Some(statement)) => {
                self.add(statement)?;
                Ok(None)
            }
            Ok(None) => {
                self.line += 1;
                Ok(None)
            }
            Err(fault) => Ok(Some(fault)),
        }
    }

    // What has been read, and a fault in this line.
    fn stopped(self, fault: RunFault) -> RunText<'a, A>
        ensures { shown_text result ≡ stopped (before self.entry) fault self.entry.line }
    {
        RunText {
            statements: self.statements,
            fault: Some(RunRefusal {
                fault,
                line: self.line,
            }),
        }
    }

    // What has been read, where no line follows.
    fn ended(self) -> RunText<'a, A>
        ensures { shown_text result ≡ ended self.entry.line (before self.entry) }
    {
        if self.statements.len() < 2 {
            return self.stopped(RunFault::OutOfOrder);
        }
        RunText {
            statements: self.statements,
            fault: None,
        }
    }
}

/// The statements of a run file (docs/use/RUNFILES.md) up to its first faulty line, and the fault of that line; only J1, J2 and J3 are
/// told. `AllocError` is answered only where memory was refused.
#[tactic(auto, using(crate::proofs::Run::text_is_run))]
pub fn parse_run<'a, A: Allocator>(text: &'a str, alloc: A) -> Result<RunText<'a, A>, AllocError>
    ensures told { IfOk result (λ t. shown_text t ≡ told text.entry.now) }
    // What a caller may count on.
    ensures run { IfOk result (λ t. IsRun (shown_text t)) }
{
    read_lines(text, alloc)
}

// Line by line to the first fault.
#[tactic(auto, unfolding(crate::specs::Told::told))]
fn read_lines<'a, A: Allocator>(text: &'a str, alloc: A) -> Result<RunText<'a, A>, AllocError>
    ensures { IfOk result (λ t. shown_text t ≡ told text.entry.now) }
{
    let mut survey = Survey {
        line: 1,
        jobs: 0,
        statements: Vec::new(alloc),
    };
    let mut rest = text.as_bytes();
    'lines: while let Some((line, after)) = next_line(rest) {
        if let Some(fault) = survey.read_line(line)? {
            return Ok(survey.stopped(fault));
        }
        rest = after;
    }
    Ok(survey.ended())
}
