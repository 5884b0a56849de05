//! What a check has come to, for a tool.

use recording::{CheckRequest, CheckedTrace, Ending};
use seq_inputs::{Exit, Quoted, Style};
use std::fmt;
use std::io::Write;

// What a check of a trace has come to.
#[derive(Clone, Copy, Debug, PartialEq, Eq)]
enum Verdict {
    // It is legal, with what is taken for granted where that is asked for.
    Legal,
    // It, or a file beside it, has a fault.
    Refused,
    // It, or a file beside it, can't be read.
    Unreadable,
}

impl Verdict {
    // Its word.
    fn word(self) -> &'static str {
        match self {
            Verdict::Legal => "legal",
            Verdict::Refused => "refused",
            Verdict::Unreadable => "unreadable",
        }
    }
}

// How much a check has judged and found. It displays as one JSON object in a line.
#[derive(Clone, Copy)]
struct CheckVerdict<'a> {
    // The path of the trace.
    path: &'a str,
    verdict: Verdict,
    // The items that are judged.
    items: u64,
    // The faults that are told.
    faults: usize,
    // The items before which a LUN is assumed ready, and those that are taken for granted.
    assumed: usize,
    // The items that aren't judged.
    passed_over: usize,
}

impl<'a> CheckVerdict<'a> {
    // That of a trace of which nothing is judged.
    fn of_nothing(path: &'a str, verdict: Verdict) -> CheckVerdict<'a> {
        CheckVerdict {
            path,
            verdict,
            items: 0,
            faults: match verdict {
                Verdict::Refused => 1,
                Verdict::Legal | Verdict::Unreadable => 0,
            },
            assumed: 0,
            passed_over: 0,
        }
    }
}

impl fmt::Display for CheckVerdict<'_> {
    fn fmt<W: fmt::Write>(&self, f: &mut fmt::Formatter<W>) -> fmt::Result {
        write!(
            f,
            "{{\"file\":{},\"verdict\":{},\"items\":{},\"faults\":{},\"assumed\":{},\"passed_over\":{}}}",
            Quoted(&self.path),
            Quoted(&self.verdict.word()),
            self.items,
            self.faults,
            self.assumed,
            self.passed_over
        )
    }
}

// Says to a tool what a check has come to.
fn say_as_json<E: Write>(errors: &mut E, style: Style, verdict: CheckVerdict<'_>) {
    if style == Style::Json {
        let _ = writeln!(errors, "{verdict}");
        let _ = errors.flush();
    }
}

/// Says to a tool what a check of a trace has come to, whose outputs differ in so many runs.
pub(crate) fn say_verdict<E: Write>(
    errors: &mut E,
    request: CheckRequest<'_>,
    trace: &CheckedTrace,
    runs: usize,
) {
    let faults = trace.told.len().saturating_add(trace.late.len());
    let faults = faults.saturating_add(runs);
    let granted = trace.remarks.unknown.granted.len();
    let verdict = CheckVerdict {
        path: request.trace.input,
        verdict: match faults {
            0 => Verdict::Legal,
            _ => Verdict::Refused,
        },
        items: trace.remarks.tally.items(),
        faults,
        assumed: trace.assumed.len().saturating_add(granted),
        passed_over: trace.remarks.passed_over(),
    };
    say_as_json(errors, request.style, verdict);
}

/// Says to a tool what has come of a check that has judged nothing, for which it ended so.
pub(crate) fn say_unjudged<E: Write>(errors: &mut E, request: CheckRequest<'_>, ending: Ending) {
    let verdict = match ending {
        Ending::Faulty(_) | Ending::Exit(Exit::Refused(_)) => Verdict::Refused,
        Ending::Exit(Exit::FileFault) => Verdict::Unreadable,
        Ending::Exit(
            Exit::Done | Exit::ReaderGone | Exit::Usage | Exit::TooManySteps | Exit::OutOfMemory,
        )
        | Ending::Flagged => return,
    };
    let verdict = CheckVerdict::of_nothing(request.trace.input, verdict);
    say_as_json(errors, request.style, verdict);
}
