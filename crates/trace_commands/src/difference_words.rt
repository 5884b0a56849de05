//! What is said of outputs that differ from their dies.

use recording::{
    CheckRequest, CheckedTrace, ItemLines, MOST_SAID, RecordingFault, push_at_item, push_message,
    words_at_item,
};
use seq_inputs::say_words;
use std::alloc::{AllocError, Global};
use std::fmt;
use std::io::Write;
use trace_data::{Difference, DifferenceRun, Origin, PageShown, group_differences};

// Where a page has its bytes from, behind the byte that it holds.
#[derive(Clone, Copy)]
struct ShownOrigin(Origin);

impl fmt::Display for ShownOrigin {
    fn fmt<W: fmt::Write>(&self, f: &mut fmt::Formatter<W>) -> fmt::Result {
        match self.0 {
            Origin::Unknown => f.write_str("isn't known"),
            Origin::Beginning => f.write_str("was at the beginning"),
            Origin::Erased { item } => write!(f, "was left by the erase at item {item}"),
            Origin::Programmed { item } => write!(f, "was programmed at item {item}"),
        }
    }
}

// Differences of neighbouring outputs in words: where they are, what was seen, what the die holds, and where it has that from.
#[derive(Clone, Copy, Drop)]
struct ShownRun(DifferenceRun);

impl fmt::Display for ShownRun {
    fn fmt<W: fmt::Write>(&self, f: &mut fmt::Formatter<W>) -> fmt::Result {
        let DifferenceRun { first, last, count } = self.0;
        let Difference {
            shown: PageShown { lun, page, column },
            seen,
            expected,
            origin,
            ..
        } = first;
        write!(
            f,
            "chip enable {}, LUN {}, block {}, page {}, ",
            lun.ce, lun.lun, page.block, page.page
        )?;
        if 1 < count {
            write!(
                f,
                "columns {column} to {}: {count} outputs, the first ",
                last.shown.column
            )?;
        } else {
            write!(f, "column {column}: ")?;
        }
        write!(
            f,
            "{seen:02x}, where {expected:02x} {}",
            ShownOrigin(origin)
        )
    }
}

// Adds what is said of outputs that differ.
fn push_words(
    lines: &mut String,
    alloc: Global,
    request: CheckRequest<'_>,
    found: &ItemLines<'_>,
    run: DifferenceRun,
) -> Result<(), AllocError> {
    let item = run.first.item;
    let Some(line) = found.line_of(item) else {
        return Ok(());
    };
    let Some(words) = words_at_item(alloc, request.trace.input, line, item, ShownRun(run)) else {
        return Err(AllocError);
    };
    let code = RecordingFault::Output { item }.code();
    push_at_item(lines, request.style, item, Some(code), &words)
}

// What is said of outputs that differ in a trace with this text.
fn words_of_runs(
    alloc: Global,
    request: CheckRequest<'_>,
    text: &str,
    runs: &[DifferenceRun],
) -> Result<String, AllocError> {
    let mut items = Vec::new(alloc);
    for run in runs.iter().take(MOST_SAID) {
        items.push(run.first.item)?;
    }
    let found = ItemLines::find(alloc, text, request.form(), items.as_slice())?;
    let mut lines = String::new(alloc);
    for run in runs.iter().take(MOST_SAID) {
        push_words(&mut lines, alloc, request, &found, *run)?;
    }
    if MOST_SAID < runs.len() {
        let words = format!(in alloc; "and {} more that differ", runs.len() - MOST_SAID)?;
        push_message(&mut lines, request.style, words.as_str())?;
    }
    Ok(lines)
}

/// Says which outputs of a trace differ from its dies, unless there is no memory for that: how many runs of neighbouring ones there are.
pub(crate) fn say_runs<E: Write>(
    alloc: Global,
    errors: &mut E,
    request: CheckRequest<'_>,
    text: &str,
    trace: &CheckedTrace,
) -> usize {
    let Ok(runs) = group_differences(alloc, trace.differences.as_slice()) else {
        return 0;
    };
    if let Ok(words) = words_of_runs(alloc, request, text, runs.as_slice()) {
        say_words(errors, words.as_str());
    }
    runs.len()
}
