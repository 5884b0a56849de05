//! What one line says.

ghost use Rattle.std.specs.Prelude.{◌≡◌, IfOk, IfErr, Ok, Err};
ghost use Rattle.micro_asm.specs.Line.{fields, before_comment};
ghost use Rattle.run_file.specs.Line.{page_line, targets_line, image_line, job_files, job_line, each_polls, work_polls, lun_polls, polls_line, tells_before, fail_line, named_line, spelled};
ghost use Rattle.run_file.specs.Shown.{shown_statement, shown_files, IsLine, IsSpelled};

use crate::fields::{field, last_field};
use crate::name::{Name, is_named, name_of};
use crate::operands::{any_number, number_in, optional_path, path_of, polled_of};
use crate::polled::Polled;
use crate::refusal::RunFault;
use crate::statement::Statement;
use micro_asm::{before_comment, next_field};

// The files of a job.
#[derive(Clone, Copy)]
struct Files<'a> {
    text: &'a str,
    input: Option<&'a str>,
    output: Option<&'a str>,
}

#[tactic(auto, unfolding(crate::specs::Line::page_line))]
fn page_line(rest: &[u8]) -> Result<Statement<'_>, RunFault>
    ensures { IsLine result (page_line (fields rest.entry.now)) }
{
    let path = path_of(last_field(rest)?)?;
    Ok(Statement::Page { path })
}

#[tactic(auto, unfolding(crate::specs::Line::targets_line))]
fn targets_line<'a>(rest: &[u8]) -> Result<Statement<'a>, RunFault>
    ensures { IsLine result (targets_line (fields rest.now)) }
{
    let count = number_in(1, 4, last_field(rest)?)? as u8;
    Ok(Statement::Targets { count })
}

#[tactic(auto, unfolding(crate::specs::Line::image_line))]
fn image_line(rest: &[u8]) -> Result<Statement<'_>, RunFault>
    ensures { IsLine result (image_line (fields rest.entry.now)) }
{
    let (target, rest) = field(rest)?;
    let (lun, rest) = field(rest)?;
    let path = path_of(last_field(rest)?)?;
    let target = any_number(target)?;
    let lun = any_number(lun)?;
    Ok(Statement::Image { target, lun, path })
}

// The files of a job: its word file, its input and its output.
#[tactic(auto, unfolding(crate::specs::Line::job_files))]
fn job_files(rest: &[u8]) -> Result<Files<'_>, RunFault>
    ensures ok { IfOk result (λ f. job_files (fields rest.entry.now) ≡ Ok (shown_files f)) }
    ensures err { IfErr result (λ e. job_files (fields rest.entry.now) ≡ Err e) }
{
    let (text, rest) = field(rest)?;
    let (input, rest) = field(rest)?;
    let output = last_field(rest)?;
    Ok(Files {
        text: path_of(text)?,
        input: optional_path(input)?,
        output: optional_path(output)?,
    })
}

#[tactic(auto, unfolding(crate::specs::Line::job_line))]
fn job_line(rest: &[u8]) -> Result<Statement<'_>, RunFault>
    ensures { IsLine result (job_line (fields rest.entry.now)) }
{
    let (target, rest) = field(rest)?;
    let (lun, rest) = field(rest)?;
    let (base, rest) = field(rest)?;
    let Files {
        text,
        input,
        output,
    } = job_files(rest)?;
    Ok(Statement::Job {
        target: any_number(target)?,
        lun: any_number(lun)?,
        base: any_number(base)?,
        text,
        input,
        output,
    })
}

// The polls of work of which no other line speaks.
#[tactic(auto, unfolding(crate::specs::Line::each_polls))]
fn each_polls<'a>(count: &[u8]) -> Result<Statement<'a>, RunFault>
    ensures { IsLine result (each_polls count.now) }
{
    let count = number_in(1, 1000, count)?;
    Ok(Statement::Polls {
        of: Polled::Each,
        count,
    })
}

// The polls of the work that a word names.
#[tactic(auto, unfolding(crate::specs::Line::work_polls))]
fn work_polls<'a>(work: &[u8], count: &[u8]) -> Result<Statement<'a>, RunFault>
    ensures { IsLine result (work_polls work.now count.now) }
{
    let of = polled_of(work).ok_or(RunFault::UnknownLine)?;
    let count = number_in(1, 1000, count)?;
    Ok(Statement::Polls { of, count })
}

// The polls of a LUN, behind the word for that.
#[tactic(auto, unfolding(crate::specs::Line::lun_polls))]
fn lun_polls<'a>(
    word: &[u8],
    target: &[u8],
    lun: &[u8],
    count: &[u8],
) -> Result<Statement<'a>, RunFault>
    ensures { IsLine result (lun_polls word.now target.now lun.now count.now) }
{
    if !is_named(word, "lun") {
        return Err(RunFault::UnknownLine);
    }
    let target = any_number(target)?;
    let lun = any_number(lun)?;
    let count = number_in(1, 1000, count)?;
    Ok(Statement::Polls {
        of: Polled::Lun { target, lun },
        count,
    })
}

#[tactic(auto, unfolding(crate::specs::Line::polls_line))]
fn polls_line<'a>(rest: &[u8]) -> Result<Statement<'a>, RunFault>
    ensures { IsLine result (polls_line (fields rest.now)) }
{
    let (first, rest) = field(rest)?;
    let Some((second, after)) = next_field(rest) else {
        return each_polls(first);
    };
    let Some((third, after)) = next_field(after) else {
        return work_polls(first, second);
    };
    lun_polls(first, second, third, last_field(after)?)
}

// The ready tells that the page before it failed.
#[tactic(auto, unfolding(crate::specs::Line::tells_before))]
fn tells_before(rest: &[u8]) -> Result<bool, RunFault>
    ensures ok { IfOk result (λ b. tells_before (fields rest.now) ≡ Ok b) }
    ensures err { IfErr result (λ e. tells_before (fields rest.now) ≡ Err e) }
{
    let Some((word, after)) = next_field(rest) else {
        return Ok(false);
    };
    if let Some(_) = next_field(after) {
        return Err(RunFault::UnknownLine);
    }
    if is_named(word, "before") {
        Ok(true)
    } else {
        Err(RunFault::UnknownLine)
    }
}

#[tactic(auto, unfolding(crate::specs::Line::fail_line))]
fn fail_line<'a>(rest: &[u8]) -> Result<Statement<'a>, RunFault>
    ensures { IsLine result (fail_line (fields rest.now)) }
{
    let (target, rest) = field(rest)?;
    let (lun, rest) = field(rest)?;
    let (ready, rest) = field(rest)?;
    let before = tells_before(rest)?;
    Ok(Statement::Fail {
        target: any_number(target)?,
        lun: any_number(lun)?,
        ready: number_in(1, u32::MAX, ready)?,
        before,
    })
}

// The line of a name and the fields after it.
#[tactic(auto, unfolding(crate::specs::Line::named_line))]
fn named_line(name: Name, rest: &[u8]) -> Result<Statement<'_>, RunFault>
    ensures { IsLine result (named_line name (fields rest.entry.now)) }
{
    match name {
        Name::Page => page_line(rest),
        Name::Targets => targets_line(rest),
        Name::Image => image_line(rest),
        Name::Job => job_line(rest),
        Name::Polls => polls_line(rest),
        Name::Fail => fail_line(rest),
    }
}

// The statement of a line, None where it has no fields.
#[tactic(auto, unfolding(crate::specs::Line::spelled, crate::specs::Line::fields_line))]
pub(crate) fn spelled(line: &[u8]) -> Result<Option<Statement<'_>>, RunFault>
    ensures { IsSpelled result (spelled line.entry.now) }
{
    let Some((first, rest)) = next_field(before_comment(line)) else {
        return Ok(None);
    };
    let name = name_of(first).ok_or(RunFault::UnknownLine)?;
    match named_line(name, rest) {
        Ok(statement) => Ok(Some(statement)),
        Err(fault) => Err(fault),
    }
}
