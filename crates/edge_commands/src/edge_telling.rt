//! What is told of the edges of a capture.
ghost use Rattle.std.specs.Prelude.{◌≡◌, ◌++◌, IfOk, OnOk};
ghost use Rattle.std.specs.String.{string_bytes};
ghost use Rattle.edge_commands.specs.Edges.{fault_of, late_lines};

use crate::edge_request::EdgeRequest;
use crate::edge_words::{LateEdge, Margin};
use edge_timing::{EdgeJudge, EdgeTiming, EdgeViolation};
use recording::{MOST_SAID, RecordingFault, push_message, undeclared_mode};
use seq_inputs::{Style, Words, say_words};
use std::alloc::{AllocError, Global};
use std::io::Write;

/// What is wrong with an edge that comes too soon.
pub(crate) fn fault_of(late: EdgeViolation) -> RecordingFault
    ensures { result ≡ fault_of late }
{
    RecordingFault::Edge {
        fault: late.timing.fault(),
        time: late.time,
    }
}

/// The lines of edges that come too soon.
pub(crate) fn late_text(alloc: Global, late: &[EdgeViolation]) -> Result<String, AllocError>
    ensures { IfOk result (λ text. string_bytes text ≡ late_lines late.now) }
{
    let mut lines = String::new(alloc);
    for found in late {
        fault_of(*found).push_line(&mut lines)?;
    }
    Ok(lines)
}

// Adds what is said of an edge that comes too soon.
fn push_late(
    lines: &mut String,
    alloc: Global,
    path: &str,
    late: EdgeViolation,
) -> Result<(), AllocError> {
    match Words::at(path, None, format!(in alloc; "{}", LateEdge(late))) {
        Some(words) => writeln!(lines, "{words}"),
        None => Err(AllocError),
    }
}

// Adds how many there are beside those that are said.
fn push_more(lines: &mut String, alloc: Global, count: usize) -> Result<(), AllocError> {
    if MOST_SAID < count {
        let words = format!(in alloc; "and {} more that come too soon", count - MOST_SAID)?;
        push_message(lines, Style::Plain, words.as_str())?;
    }
    Ok(())
}

// Adds that the page doesn't declare the mode, where it declares others.
fn push_mode(
    lines: &mut String,
    alloc: Global,
    request: EdgeRequest<'_>,
    modes: u16,
) -> Result<(), AllocError> {
    if let Some(number) = undeclared_mode(request.source, modes) {
        let words = format!(in alloc; "the parameter page doesn't declare mode {number}")?;
        push_message(lines, Style::Plain, words.as_str())?;
    }
    Ok(())
}

// Adds how near a capture comes to each time.
fn push_margins(lines: &mut String, judge: &EdgeJudge<Global>) -> Result<(), AllocError> {
    for (timing, nearest) in EdgeTiming::ALL.iter().zip(judge.nearest.iter()) {
        if let Some(nearest) = *nearest {
            let timing = *timing;
            writeln!(lines, "{}", Margin { timing, nearest })?;
        }
    }
    Ok(())
}

// What is said of the edges of a capture.
fn words_of(
    alloc: Global,
    request: EdgeRequest<'_>,
    judge: &EdgeJudge<Global>,
    modes: u16,
) -> Result<String, AllocError> {
    let late = judge.told.as_slice();
    let mut lines = String::new(alloc);
    for found in late.iter().take(MOST_SAID) {
        push_late(&mut lines, alloc, request.input, *found)?;
    }
    push_more(&mut lines, alloc, late.len())?;
    push_mode(&mut lines, alloc, request, modes)?;
    if request.tells_all {
        push_margins(&mut lines, judge)?;
    }
    Ok(lines)
}

/// Says which edges come too soon and, where all are told, how near a capture comes to each time, unless there is no memory for that.
pub(crate) fn say_edges<E: Write>(
    alloc: Global,
    errors: &mut E,
    request: EdgeRequest<'_>,
    judge: &EdgeJudge<Global>,
    modes: u16,
) {
    if let Ok(words) = words_of(alloc, request, judge, modes) {
        say_words(errors, words.as_str());
    }
}
