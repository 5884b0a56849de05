//! What a check prints and says of a trace.
ghost use Rattle.std.specs.Prelude.{◌≡◌, ◌++◌, ◌∷◌, IfOk, OnOk};
ghost use Rattle.std.specs.String.{string_bytes};
ghost use Rattle.recording.specs.declared.recording_fault.RecordingFault.TheVariants.{Item as ItemAt, Time, Output};
ghost use Rattle.trace_commands.specs.Reports.{fault_lines, late_lines, run_lines, assumed_line, assumed_lines, legal_text, faulty_text, first_of, report_text};

use crate::check_verdict::say_verdict;
use crate::difference_words::say_runs;
use crate::fault_words::say_faults;
use crate::late_telling::say_times;
use crate::remark_words::say_remarks;
use recording::{CheckRequest, CheckedTrace, RecordingFault};
use std::alloc::{AllocError, Global};
use std::io::Write;
use trace_data::{DifferenceRun, group_differences};
use trace_faults::{BrokenRule, NotShown};
use trace_timing::Violation;

/// What is wrong with a trace that breaks this rule.
pub(crate) fn fault_of(broken: BrokenRule) -> RecordingFault
    ensures { result ≡ ItemAt broken.rule broken.item }
{
    let BrokenRule { item, rule } = broken;
    RecordingFault::Item { rule, item }
}

/// What is wrong with the times of a trace.
pub(crate) fn late_fault_of(violation: Violation) -> RecordingFault
    ensures { result ≡ Time violation.fault violation.item }
{
    RecordingFault::Time {
        fault: violation.fault,
        item: violation.item,
    }
}

/// The lines of faults.
pub(crate) fn lines_of(alloc: Global, told: &[BrokenRule]) -> Result<String, AllocError>
    ensures { IfOk result (λ lines. string_bytes lines ≡ fault_lines told.now) }
{
    let mut lines = String::new(alloc);
    for fault in told {
        fault_of(*fault).push_line(&mut lines)?;
    }
    Ok(lines)
}

// Adds the lines of what comes too soon or takes too long.
fn push_late(lines: &mut String, late: &[Violation]) -> Result<(), AllocError>
    ensures { OnOk result (string_bytes lines.new ≡ string_bytes lines.old ++ late_lines late.now) }
{
    for violation in late {
        late_fault_of(*violation).push_line(lines)?;
    }
    Ok(())
}

// Adds the lines of outputs that differ.
fn push_runs(lines: &mut String, runs: &[DifferenceRun]) -> Result<(), AllocError>
    ensures { OnOk result (string_bytes lines.new ≡ string_bytes lines.old ++ run_lines runs.now) }
{
    for run in runs {
        let item = run.first.item;
        RecordingFault::Output { item }.push_line(lines)?;
    }
    Ok(())
}

// Adds the line of an item before which a LUN is assumed ready.
fn push_assumed_line(lines: &mut String, told: NotShown) -> Result<(), AllocError>
    ensures { OnOk result (string_bytes lines.new ≡ string_bytes lines.old ++ assumed_line told) }
{
    writeln!(lines, "assumed ready at {}", told.item)
}

/// Adds the lines of all such items.
pub(crate) fn push_assumed(lines: &mut String, assumed: &[NotShown]) -> Result<(), AllocError>
    ensures { OnOk result (string_bytes lines.new ≡ string_bytes lines.old ++ assumed_lines assumed.now) }
{
    for told in assumed {
        push_assumed_line(lines, *told)?;
    }
    Ok(())
}

// What is printed of a trace that has none.
fn legal_text(alloc: Global, assumed: &[NotShown]) -> Result<String, AllocError>
    ensures { IfOk result (λ text. string_bytes text ≡ legal_text assumed.now) }
{
    let mut text = String::new(alloc);
    text.push_str("legal\n")?;
    push_assumed(&mut text, assumed)?;
    Ok(text)
}

// What is printed of a trace that has faults.
fn faulty_text(alloc: Global, trace: &CheckedTrace) -> Result<String, AllocError>
    ensures { IfOk result (λ text. string_bytes text ≡ faulty_text trace.now.told.items trace.now.late.items trace.now.differences.items trace.now.assumed.items) }
{
    let runs = group_differences(alloc, trace.differences.as_slice())?;
    let mut text = lines_of(alloc, trace.told.as_slice())?;
    push_late(&mut text, trace.late.as_slice())?;
    push_runs(&mut text, runs.as_slice())?;
    push_assumed(&mut text, trace.assumed.as_slice())?;
    Ok(text)
}

/// The fault that is told first, if there is one.
pub(crate) fn first_fault(trace: &CheckedTrace) -> Option<RecordingFault>
    ensures { result ≡ first_of trace.now.told.items trace.now.late.items trace.now.differences.items }
{
    match (
        trace.told.as_slice(),
        trace.late.as_slice(),
        trace.differences.as_slice(),
    ) {
        ([first, ..], _, _) => Some(fault_of(*first)),
        ([], [first, ..], _) => Some(late_fault_of(*first)),
        ([], [], [first, ..]) => Some(RecordingFault::Output { item: first.item }),
        ([], [], []) => None,
    }
}

/// What is printed of a trace.
pub(crate) fn report_text(alloc: Global, trace: &CheckedTrace) -> Result<String, AllocError>
    ensures { IfOk result (λ text. string_bytes text ≡ report_text trace.now.told.items trace.now.late.items trace.now.differences.items trace.now.assumed.items) }
{
    match first_fault(trace) {
        None => legal_text(alloc, trace.assumed.as_slice()),
        Some(_) => faulty_text(alloc, trace),
    }
}

/// Says what is wrong with a trace, and what is found besides, unless there is no memory for that.
pub(crate) fn say_report<E: Write>(
    alloc: Global,
    errors: &mut E,
    request: CheckRequest<'_>,
    trace: &CheckedTrace,
) {
    if let Ok(text) = str::from_utf8(trace.text.as_slice()) {
        say_faults(alloc, errors, request, text, trace);
        say_remarks(alloc, errors, request, text, trace);
        say_times(alloc, errors, request, text, trace);
        let runs = say_runs(alloc, errors, request, text, trace);
        say_verdict(errors, request, trace, runs);
    }
}
