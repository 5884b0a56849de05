//! The place of a statement after those before it.

ghost use Rattle.std.specs.Prelude.{◌≡◌, IfErr, IfOk, Ok, Err, Some};
ghost use Rattle.run_file.specs.Told.{is_page, is_targets, is_polls_of, is_image_of, is_job, stands_once, repeats, stands_before, is_in_order, jobs_in, placed};
ghost use Rattle.run_file.specs.Shown.{shown_statement, shown_all};

use crate::polled::Polled;
use crate::refusal::RunFault;
use crate::statement::{Numbered, Statement};

// The most jobs of a run.
const MAX_JOBS: usize = 65_536;

impl<'a> Statement<'a> {
    fn is_page(self) -> bool
        ensures { result ≡ is_page (shown_statement self.entry) }
    {
        matches!(self, Statement::Page { .. })
    }

    fn is_targets(self) -> bool
        ensures { result ≡ is_targets (shown_statement self.entry) }
    {
        matches!(self, Statement::Targets { .. })
    }

    // Whether it tells the polls of this work.
    fn is_polls_of(self, work: Polled) -> bool
        ensures { result ≡ is_polls_of work (shown_statement self.entry) }
    {
        match self {
            Statement::Polls { of, .. } => work.is_same(of),
            _ => false,
        }
    }

    pub(crate) fn is_job(self) -> bool
        ensures { result ≡ is_job (shown_statement self.entry) }
    {
        matches!(self, Statement::Job { .. })
    }

    // Page, targets, the polls of some work and the image of a die stand once.
    fn stands_once(self) -> bool
        ensures { result ≡ stands_once (shown_statement self.entry) }
    {
        !matches!(self, Statement::Job { .. } | Statement::Fail { .. })
    }

    // Whether it stands once, and the other is the same again.
    fn is_repeated_by(self, other: Statement<'_>) -> bool
        ensures { result ≡ repeats (shown_statement self.entry) (shown_statement other.entry) }
    {
        match self {
            Statement::Page { .. } => other.is_page(),
            Statement::Targets { .. } => other.is_targets(),
            Statement::Polls { of, .. } => other.is_polls_of(of),
            Statement::Image { target, lun, .. } => other.is_image_of(target, lun),
            Statement::Job { .. } | Statement::Fail { .. } => false,
        }
    }

    // Whether it is the image of this die.
    fn is_image_of(self, die_target: u32, die_lun: u32) -> bool
        ensures { result ≡ is_image_of die_target die_lun (shown_statement self.entry) }
    {
        match self {
            Statement::Image { target, lun, .. } => die_target == target && die_lun == lun,
            _ => false,
        }
    }
}

// Whether a statement before says the same.
#[tactic(auto, unfolding(crate::specs::Told::stands_before))]
fn stands_before(statement: Statement<'_>, before: &[Numbered<'_>]) -> bool
    ensures { result ≡ stands_before (shown_statement statement.entry) (shown_all before.now) }
{
    for earlier in before {
        if earlier.statement.is_repeated_by(statement) {
            return true;
        }
    }
    false
}

#[tactic(auto, unfolding(crate::specs::Told::is_in_order))]
fn is_in_order(before: &[Numbered<'_>], statement: Statement<'_>) -> bool
    ensures { result ≡ is_in_order (shown_all before.now) (shown_statement statement.entry) }
{
    match before {
        [] => statement.is_page(),
        [_] => statement.is_targets(),
        _ => !(statement.stands_once() && stands_before(statement, before)),
    }
}

// The fault of a statement after those before it, among which there are so many jobs.
#[tactic(auto, unfolding(crate::specs::Told::placed))]
pub(crate) fn place(
    before: &[Numbered<'_>],
    jobs: usize,
    statement: Statement<'_>,
) -> Result<(), RunFault>
    requires { jobs ≡ jobs_in (shown_all before.now) }
    ensures ok { IfOk result (λ _. placed (shown_all before.now) (Some (shown_statement statement.entry))
        ≡ Ok (Some (shown_statement statement.entry))) }
    ensures err { IfErr result (λ e. placed (shown_all before.now) (Some (shown_statement statement.entry)) ≡ Err e) }
{
    if statement.is_job() && jobs >= MAX_JOBS {
        return Err(RunFault::BadNumber);
    }
    if is_in_order(before, statement) {
        Ok(())
    } else {
        Err(RunFault::OutOfOrder)
    }
}
