//! What is wrong with a recording, in words for whoever made it.

use crate::line_cursor::ItemLine;
use bus_capture::CaptureFault;
use nand_geometry::Profile;
use seq_inputs::Words;
use shown_text::Shown;
use std::alloc::Global;
use std::fmt;
use trace_causes::{BrokenInWords, CauseInLine};
use trace_faults::BrokenRule;
use trace_text::{TraceFault, TraceForm, TraceMessage, TraceRefusal};

/// What is wrong with a line of the text of a trace.
pub fn words_of_trace<'p>(
    alloc: Global,
    path: &'p str,
    text: &str,
    form: TraceForm,
    profile: Profile,
    fault: TraceFault,
    line: usize,
) -> Option<Words<'p>> {
    let message = TraceMessage::new(TraceRefusal::Fault { fault, line }, text, form, profile);
    Words::at(path, Some(line), format!(in alloc; "{message}"))
}

/// What is wrong with a capture: of a line with the text of that line, where that is given and is UTF-8.
pub(crate) fn words_of_capture<'p>(
    alloc: Global,
    path: &'p str,
    line: Option<&[u8]>,
    fault: CaptureFault,
) -> Option<Words<'p>> {
    let code = fault.code();
    let CaptureFault::File(at) = fault else {
        return Words::at(path, None, format!(in alloc; "{fault} ({code})"));
    };
    let text = match line.map(str::from_utf8) {
        Some(Ok(text)) => {
            let shown = Shown::line(text);
            format!(in alloc; "`{shown}`: {} ({code})", at.fault)
        }
        Some(Err(_)) | None => format!(in alloc; "{} ({code})", at.fault),
    };
    Words::at(path, Some(at.line), text)
}

/// What is said of an item of a trace, which stands in this line.
pub fn words_at_item<'p, M: fmt::Display + Drop>(
    alloc: Global,
    path: &'p str,
    line: ItemLine<'_>,
    item: usize,
    message: M,
) -> Option<Words<'p>> {
    let shown = Shown::line(line.text.trim_end());
    let words = match line.time {
        Some(time) => format!(in alloc; "item {item} at {time}, `{shown}`: {message}"),
        None => format!(in alloc; "item {item}, `{shown}`: {message}"),
    };
    let words = Words::at(path, Some(line.number), words)?;
    Some(words.at_time(line.time))
}

/// Which rule an item of a trace breaks, which stands in this line, and why.
pub fn words_of_item<'p>(
    alloc: Global,
    path: &'p str,
    line: ItemLine<'_>,
    fault: BrokenRule,
    cause: Option<CauseInLine>,
) -> Option<Words<'p>> {
    let BrokenRule { item, rule } = fault;
    words_at_item(alloc, path, line, item, BrokenInWords { rule, cause })
}
