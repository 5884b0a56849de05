//! How far reading has come, and what that says of the next line.

ghost use Rattle.std.specs.Prelude.{◌≡◌, ◌+◌, ◌<◌, ◌^◌, Some, None, IfOk, IfSome, IfNone};
ghost use Rattle.micro_asm.specs.Reading.{with_setting};
ghost use Rattle.micro_asm.specs.Judged.{at_start, judged_setting, judged_label, judged_word, judged};
ghost use Rattle.micro_asm.specs.Looked.{stepped};
ghost use Rattle.micro_asm.specs.Shown.{shown_line};

use crate::heading::Heading;
use crate::line::spelled;
use crate::refusal::AsmFault;
use crate::statement::{Setting, Statement};
use micro_word::MAX_WORDS;

// The number of the next line, the header so far, and how many words stand in front.
#[derive(Clone, Copy)]
pub(crate) struct Progress {
    pub(crate) line: usize,
    pub(crate) heading: Heading,
    pub(crate) words: usize,
}

impl Progress {
    // At the first line.
    pub(crate) fn at_start() -> Progress
        ensures { result ≡ at_start }
    {
        Progress {
            line: 1,
            heading: Heading::Empty,
            words: 0,
        }
    }

    // One line further.
    fn further(self, heading: Heading, words: usize) -> Progress
        requires room { self.line < 2 ^ 63 }
        ensures { result ≡ (record { line = self.line + 1; heading = heading; words = words }) }
    {
        Progress {
            line: self.line + 1,
            heading,
            words,
        }
    }

    // After a header line, which must be the next.
    fn after_setting(self, setting: Setting) -> Result<Progress, AsmFault>
        requires room { self.line < 2 ^ 63 }
        ensures value { result ≡ judged_setting self (with_setting self.heading setting) }
        ensures line { IfOk result (λ next. next.line ≡ self.line + 1) }
    {
        match self.heading.with_setting(setting) {
            Some(heading) => Ok(self.further(heading, self.words)),
            None => Err(AsmFault::HeaderOutOfOrder),
        }
    }

    // After a label, which names the next word.
    fn after_label(self, last: usize, is_taken: bool) -> Result<Progress, AsmFault>
        requires room { self.line < 2 ^ 63 }
        ensures value { result ≡ judged_label last self is_taken }
        ensures line { IfOk result (λ next. next.line ≡ self.line + 1) }
    {
        if self.heading.is_heading() {
            return Err(AsmFault::HeaderOutOfOrder);
        }
        if is_taken {
            return Err(AsmFault::LabelTwice);
        }
        if self.line >= last {
            return Err(AsmFault::LabelAfterLastWord);
        }
        Ok(self.further(self.heading, self.words))
    }

    // After a word.
    fn after_word(self) -> Result<Progress, AsmFault>
        requires room { self.line < 2 ^ 63 }
        ensures value { result ≡ judged_word self }
        ensures line { IfOk result (λ next. next.line ≡ self.line + 1) }
    {
        if self.heading.is_heading() {
            return Err(AsmFault::HeaderOutOfOrder);
        }
        if self.words >= MAX_WORDS {
            return Err(AsmFault::TooManyWords);
        }
        Ok(self.further(self.heading, self.words + 1))
    }

    // After a line, whose label may stand in front already; `last` is the number of the last line with a word.
    #[tactic(auto, unfolding(crate::specs::Judged::judged))]
    pub(crate) fn after(
        self,
        last: usize,
        is_taken: bool,
        statement: Statement<'_>,
    ) -> Result<Progress, AsmFault>
        requires room { self.line < 2 ^ 63 }
        ensures value { result ≡ judged last self is_taken (shown_line statement.entry) }
        ensures line { IfOk result (λ next. next.line ≡ self.line + 1) }
    {
        match statement {
            Statement::Nothing => Ok(self.further(self.heading, self.words)),
            Statement::Header(setting) => self.after_setting(setting),
            Statement::Label(_) => self.after_label(last, is_taken),
            Statement::Entered(_) => self.after_word(),
        }
    }

    // What a line says, and how far reading has come after it, unless it has a fault. Its label isn't looked up.
    #[tactic(auto, unfolding(crate::specs::Looked::stepped))]
    pub(crate) fn read(self, last: usize, line: &[u8]) -> Option<(Statement<'_>, Progress)>
        requires room { self.line < 2 ^ 63 }
        ensures some { IfSome result (λ x. stepped last self line.entry.now ≡ Some (shown_line x.0, x.1)) }
        ensures none { IfNone result (stepped last self line.entry.now ≡ None) }
        ensures line { IfSome result (λ x. x.1.line ≡ self.line + 1) }
    {
        match spelled(self.heading.is_heading(), line) {
            Ok(statement) => match self.after(last, false, statement) {
                Ok(next) => Some((statement, next)),
                Err(_) => None,
            },
            Err(_) => None,
        }
    }
}
