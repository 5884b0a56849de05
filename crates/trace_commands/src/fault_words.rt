//! The faults of a trace in words.

use crate::check_report::fault_of;
use recording::{
    CheckRequest, CheckedTrace, ItemLines, MOST_SAID, Remarks, push_message, words_of_item,
};
use seq_inputs::{Style, say_words};
use std::alloc::{AllocError, Global};
use std::io::Write;
use trace_causes::{Cause, CauseInLine};
use trace_faults::BrokenRule;

// A cause, and the line of the command that it names.
fn place_cause(found: &ItemLines<'_>, cause: Cause) -> Option<CauseInLine> {
    let line = match cause.named_command() {
        None => None,
        Some(command) => Some(found.line_of(command.item?)?.number),
    };
    Some(CauseInLine { cause, line })
}

// Adds what is said of one fault, which has this cause, if one is known.
fn push_words(
    lines: &mut String,
    alloc: Global,
    request: CheckRequest<'_>,
    found: &ItemLines<'_>,
    fault: BrokenRule,
    cause: Option<Cause>,
) -> Result<(), AllocError> {
    let Some(line) = found.line_of(fault.item) else {
        return Ok(());
    };
    let cause = match cause {
        None => None,
        Some(cause) => place_cause(found, cause),
    };
    match words_of_item(alloc, request.trace.input, line, fault, cause) {
        None => Err(AllocError),
        Some(words) => match request.style {
            Style::Plain => writeln!(lines, "{words}"),
            Style::Json => writeln!(lines, "{}", fault_of(fault).tell(&words)),
        },
    }
}

// The items of the first faults, and of the commands that their causes name; they rise.
fn items_named(
    alloc: Global,
    remarks: &Remarks,
    told: &[BrokenRule],
) -> Result<Vec<usize>, AllocError> {
    let mut items = Vec::new(alloc);
    for fault in told.iter().take(MOST_SAID) {
        items.push(fault.item)?;
        if let Some(cause) = remarks.cause_of(*fault) {
            if let Some(item) = cause.named_command().and_then(|command| command.item) {
                items.push(item)?;
            }
        }
    }
    items.sort()?;
    Ok(items)
}

// What is said of the first faults, and how many more there are.
fn words_of(
    alloc: Global,
    request: CheckRequest<'_>,
    text: &str,
    trace: &CheckedTrace,
) -> Result<String, AllocError> {
    let (told, remarks) = (trace.told.as_slice(), &trace.remarks);
    let items = items_named(alloc, remarks, told)?;
    let found = ItemLines::find(alloc, text, request.form(), items.as_slice())?;
    let mut lines = String::new(alloc);
    for fault in told.iter().take(MOST_SAID) {
        let cause = remarks.cause_of(*fault);
        push_words(&mut lines, alloc, request, &found, *fault, cause)?;
    }
    if MOST_SAID < told.len() {
        let more = told.len() - MOST_SAID;
        let words = format!(in alloc; "and {more} faults more: standard output names them")?;
        push_message(&mut lines, request.style, words.as_str())?;
    }
    Ok(lines)
}

/// Says the faults of a trace with this text, unless there is no memory for that.
pub(crate) fn say_faults<E: Write>(
    alloc: Global,
    errors: &mut E,
    request: CheckRequest<'_>,
    text: &str,
    trace: &CheckedTrace,
) {
    if let Ok(words) = words_of(alloc, request, text, trace) {
        say_words(errors, words.as_str());
    }
}
