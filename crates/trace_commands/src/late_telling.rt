//! What comes too soon or takes too long in a trace, in words.

use crate::check_report::late_fault_of;
use crate::margin_words::push_margins;
use recording::{
    CheckRequest, CheckedTrace, ItemLines, JsonNanoseconds, LateItem, MOST_SAID, RecordingFault,
    TimesRequest, TimingSource, push_message, undeclared_mode, words_at_item,
};
use seq_inputs::{Style, Words, say_words};
use std::alloc::{AllocError, Global};
use std::io::Write;
use trace_timing::TimingFault;

// The words of what comes too soon or takes too long, in the line where it stands; what is said of the whole trace stands in none.
fn words_of_late<'p>(
    alloc: Global,
    path: &'p str,
    found: &ItemLines<'_>,
    late: LateItem,
) -> Option<Words<'p>> {
    let item = late.violation.item;
    match (late.violation.fault, found.line_of(item)) {
        (TimingFault::NoTimes, _) | (_, None) => Words::at(path, None, format!(in alloc; "{late}")),
        (_, Some(line)) => words_at_item(alloc, path, line, item, late),
    }
}

// Adds a line for a tool: the fault with its words, and what was seen and is wanted, in nanoseconds.
fn push_json(
    lines: &mut String,
    alloc: Global,
    fault: RecordingFault,
    words: Words<'_>,
    late: LateItem,
) -> Result<(), AllocError> {
    let told = format!(in alloc; "{}", fault.tell(&words))?;
    match (late.distance(), told.as_str().strip_suffix('}')) {
        (Some((timing, seen, wanted)), Some(open)) => writeln!(
            lines,
            "{open},\"timing\":\"{timing}\",\"seen_ns\":{},\"wants_ns\":{}}}",
            JsonNanoseconds(seen),
            JsonNanoseconds(wanted)
        ),
        (None, _) | (_, None) => writeln!(lines, "{}", told.as_str()),
    }
}

// Adds what is said of one.
fn push_words(
    lines: &mut String,
    alloc: Global,
    request: CheckRequest<'_>,
    found: &ItemLines<'_>,
    late: LateItem,
) -> Result<(), AllocError> {
    let Some(words) = words_of_late(alloc, request.trace.input, found, late) else {
        return Err(AllocError);
    };
    match request.style {
        Style::Plain => writeln!(lines, "{words}"),
        Style::Json => push_json(lines, alloc, late_fault_of(late.violation), words, late),
    }
}

// Adds how many there are beside those that are said, and that the page doesn't declare the mode, where it declares others.
fn push_more(
    lines: &mut String,
    alloc: Global,
    style: Style,
    source: TimingSource<'_>,
    trace: &CheckedTrace,
) -> Result<(), AllocError> {
    let count = trace.late.len();
    if MOST_SAID < count {
        let words = format!(in alloc;
            "and {} more that come too soon or take too long",
            count - MOST_SAID
        )?;
        push_message(lines, style, words.as_str())?;
    }
    if let Some(number) = undeclared_mode(source, trace.modes) {
        let words = format!(in alloc; "the parameter page doesn't declare mode {number}")?;
        push_message(lines, style, words.as_str())?;
    }
    Ok(())
}

// What is said of the times of a trace with this text.
fn words_of(
    alloc: Global,
    request: CheckRequest<'_>,
    times: TimesRequest<'_>,
    text: &str,
    trace: &CheckedTrace,
) -> Result<String, AllocError> {
    let late = trace.remarks.late.as_slice();
    let mut items = Vec::new(alloc);
    for told in late.iter().take(trace.late.len()) {
        items.push(told.violation.item)?;
    }
    let found = ItemLines::find(alloc, text, request.form(), items.as_slice())?;
    let mut lines = String::new(alloc);
    for told in late.iter().take(trace.late.len()) {
        push_words(&mut lines, alloc, request, &found, *told)?;
    }
    push_more(&mut lines, alloc, request.style, times.source, trace)?;
    if let Some(margins) = &trace.remarks.margins {
        push_margins(&mut lines, margins, trace.late.len())?;
    }
    Ok(lines)
}

/// Says what comes too soon or takes too long in a trace with this text, and how near it comes to each time, where its times are judged, and unless there is no memory for that.
pub(crate) fn say_times<E: Write>(
    alloc: Global,
    errors: &mut E,
    request: CheckRequest<'_>,
    text: &str,
    trace: &CheckedTrace,
) {
    let Some(times) = request.times else {
        return;
    };
    if let Ok(words) = words_of(alloc, request, times, text, trace) {
        say_words(errors, words.as_str());
    }
}
