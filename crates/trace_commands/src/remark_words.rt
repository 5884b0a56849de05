//! What a check says beside the faults: what was judged, which readies nothing showed, what was taken for granted, which status bytes contradict the trace, and
//! what the host surely didn't mean.

use host_notes::HostNoteAt;
use recording::{
    CheckRequest, CheckedTrace, LineCursor, Remarks, push_at_item, push_message, words_at_item,
};
use seq_inputs::{Style, say_words};
use shown_text::Shown;
use std::alloc::{AllocError, Global};
use std::fmt;
use std::io::Write;
use trace_faults::{Beginning, BrokenRule, DoubtedByte, NotShown};

// How many of a kind are said at most.
const MOST_SAID: usize = 20;

// What is said of an item that is no fault.
trait Remark: Copy + Drop {
    // The item, from 0.
    fn item(self) -> usize;

    // Its code, if it has one.
    fn code(self) -> Option<&'static str>;

    fn write<W: fmt::Write>(self, f: &mut fmt::Formatter<W>) -> fmt::Result;
}

impl Remark for DoubtedByte {
    fn item(self) -> usize {
        self.item
    }

    fn code(self) -> Option<&'static str> {
        None
    }

    fn write<W: fmt::Write>(self, f: &mut fmt::Formatter<W>) -> fmt::Result {
        write!(f, "{}", self.doubt)
    }
}

impl Remark for HostNoteAt {
    fn item(self) -> usize {
        self.item
    }

    fn code(self) -> Option<&'static str> {
        Some(self.note.code())
    }

    fn write<W: fmt::Write>(self, f: &mut fmt::Formatter<W>) -> fmt::Result {
        write!(f, "{} ({})", self.note, self.note.code())
    }
}

// A LUN that is assumed ready.
impl Remark for NotShown {
    fn item(self) -> usize {
        self.item
    }

    fn code(self) -> Option<&'static str> {
        None
    }

    fn write<W: fmt::Write>(self, f: &mut fmt::Formatter<W>) -> fmt::Result {
        let (lun, rule) = (self.ready.lun, self.ready.rule);
        write!(
            f,
            "assumed ready: LUN {} of target {} (else {}: {rule})",
            lun.lun,
            lun.ce,
            rule.code()
        )
    }
}

// A rule that would be broken, and is taken for granted.
impl Remark for BrokenRule {
    fn item(self) -> usize {
        self.item
    }

    fn code(self) -> Option<&'static str> {
        None
    }

    fn write<W: fmt::Write>(self, f: &mut fmt::Formatter<W>) -> fmt::Result {
        let rule = self.rule;
        write!(
            f,
            "taken for granted, since what was before isn't known: {rule} ({})",
            rule.code()
        )
    }
}

// A remark in words.
#[derive(Clone, Copy)]
struct InWords<R: Remark>(R);

impl<R: Remark> fmt::Display for InWords<R> {
    fn fmt<W: fmt::Write>(&self, f: &mut fmt::Formatter<W>) -> fmt::Result {
        self.0.write(f)
    }
}

// Adds what is said of the first of these items, which rise, and how many more there are.
fn push_remarks<R: Remark>(
    lines: &mut String,
    alloc: Global,
    request: CheckRequest<'_>,
    text: &str,
    remarks: &[R],
) -> Result<(), AllocError> {
    let (path, style) = (request.trace.input, request.style);
    let mut cursor = LineCursor::new(text, request.form());
    for remark in remarks.iter().take(MOST_SAID) {
        let item = remark.item();
        let words = words_at_item(alloc, path, cursor.find(item), item, InWords(*remark));
        let Some(words) = words else {
            return Err(AllocError);
        };
        push_at_item(lines, style, item, remark.code(), &words)?;
    }
    if MOST_SAID < remarks.len() {
        let words = format!(in alloc; "and {} more", remarks.len() - MOST_SAID)?;
        push_message(lines, style, words.as_str())?;
    }
    Ok(())
}

// Adds the readies that nothing showed, and how many they are, if there are some.
fn push_not_shown(
    lines: &mut String,
    alloc: Global,
    request: CheckRequest<'_>,
    text: &str,
    not_shown: &[NotShown],
) -> Result<(), AllocError> {
    if not_shown.is_empty() {
        return Ok(());
    }
    push_remarks(lines, alloc, request, text, not_shown)?;
    let words = format!(in alloc; "assumed ready: {} in all", not_shown.len())?;
    push_message(lines, request.style, words.as_str())
}

// Adds how much of a trace whose recording begins in the middle wasn't judged.
fn push_unknown(
    lines: &mut String,
    alloc: Global,
    request: CheckRequest<'_>,
    text: &str,
    remarks: &Remarks,
) -> Result<(), AllocError> {
    if request.beginning == Beginning::Start {
        return Ok(());
    }
    let granted = remarks.unknown.granted.as_slice();
    push_remarks(lines, alloc, request, text, granted)?;
    let words = format!(in alloc;
        "from the middle: cycles passed over {}, taken for granted {}",
        remarks.unknown.passed_over,
        granted.len()
    )?;
    push_message(lines, request.style, words.as_str())
}

// Adds how much was judged, and passed over.
fn push_amounts(
    lines: &mut String,
    alloc: Global,
    request: CheckRequest<'_>,
    trace: &CheckedTrace,
) -> Result<(), AllocError> {
    let Remarks { tally, passed, .. } = &trace.remarks;
    if request.tells_all && request.style == Style::Plain {
        writeln!(lines, "{tally}; {} faults", trace.told.len())?;
    }
    if let Some(passed) = passed {
        let words = format!(in alloc; "{}", passed.amount)?;
        push_message(lines, request.style, words.as_str())?;
    }
    match tally.items() {
        0 => push_message(lines, request.style, "0 items are judged"),
        _ => Ok(()),
    }
}

// Adds that the trace that is judged isn't written, where a sequence of the vendor breaks off.
fn push_unwritten(
    lines: &mut String,
    alloc: Global,
    request: CheckRequest<'_>,
    remarks: &Remarks,
) -> Result<(), AllocError> {
    match request.copy {
        Some(path) if remarks.breaks_off() => {
            let path = Shown::path(path);
            let words = format!(in alloc;
                "{path} isn't written, since a sequence of the vendor breaks off"
            )?;
            push_message(lines, request.style, words.as_str())
        }
        _ => Ok(()),
    }
}

// What is said beside the faults of a trace with this text.
fn words_of(
    alloc: Global,
    request: CheckRequest<'_>,
    text: &str,
    trace: &CheckedTrace,
) -> Result<String, AllocError> {
    let remarks = &trace.remarks;
    let mut lines = String::new(alloc);
    push_remarks(&mut lines, alloc, request, text, remarks.doubts.as_slice())?;
    push_remarks(&mut lines, alloc, request, text, remarks.notes.as_slice())?;
    push_not_shown(&mut lines, alloc, request, text, trace.assumed.as_slice())?;
    push_unknown(&mut lines, alloc, request, text, remarks)?;
    push_amounts(&mut lines, alloc, request, trace)?;
    push_unwritten(&mut lines, alloc, request, remarks)?;
    Ok(lines)
}

/// Says what is found beside the faults of a trace with this text, unless there is no memory for that.
pub(crate) fn say_remarks<E: Write>(
    alloc: Global,
    errors: &mut E,
    request: CheckRequest<'_>,
    text: &str,
    trace: &CheckedTrace,
) {
    if let Ok(words) = words_of(alloc, request, text, trace) {
        say_words(errors, words.as_str());
    }
}
