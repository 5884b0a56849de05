//! Where the lines of a code are among all lines.
ghost use Rattle.std.specs.Prelude.{◌≡◌, ◌≤◌, List, ℕ, length, take, drop, IfOk, IfErr};
ghost use Rattle.bus_capture.specs.Spans.{Keeps, IsSpan, AreSpans};

use crate::fault::CaptureRefusal;
use bus_signals::Source;
use std::alloc::Allocator;

/// So many codes of one character have a span: what is printed in ASCII.
const CODES: u64 = 128;

/// Among the lines from the one place on, in front of the other, are all of a code.
#[derive(Clone, Copy, Debug)]
pub(crate) struct Span {
    first: usize,
    behind: usize,
}

// How many lines stand in front of the first of a code.
fn count_front(sources: &[Source], code: u64) -> usize
    ensures within { result ≤ length sources.now }
    ensures keeps { Keeps code sources.now (drop result sources.now) }
{
    let mut count = 0;
    let mut rest = sources;
    'rest: while let Some((first, others)) = rest.split_first() {
        if first.code == code {
            return count;
        }
        count += 1;
        rest = others;
    }
    count
}

// How many there are up to the last of a code.
fn count_to_last(sources: &[Source], code: u64) -> usize
    ensures within { result ≤ length sources.now }
    ensures keeps { Keeps code sources.now (take result sources.now) }
{
    let mut rest = sources;
    'rest: while let Some((last, others)) = rest.split_last() {
        if last.code == code {
            return rest.len();
        }
        rest = others;
    }
    0
}

impl Span {
    // That of a code.
    fn find(sources: &[Source], code: u64) -> Span
        ensures { IsSpan sources.now code result }
    {
        let behind = count_to_last(sources, code);
        let (front, _) = sources.split_at(behind);
        let first = count_front(front, code);
        Span { first, behind }
    }
}

/// Those of codes of one character.
#[tactic(auto, using(crate::proofs::Spanning::spans_more))]
pub(crate) fn find_spans<A: Allocator>(
    alloc: A,
    sources: &[Source],
) -> Result<Vec<Span, A>, CaptureRefusal>
    ensures ok { IfOk result (λ spans. AreSpans sources.now 0 spans.items) }
    ensures err { IfErr result (λ e. e ≡ CaptureRefusal.OutOfMemory) }
{
    let mut spans = Vec::new(alloc);
    for code in 0..CODES {
        if spans.push(Span::find(sources, code)).is_err() {
            return Err(CaptureRefusal::OutOfMemory);
        }
    }
    Ok(spans)
}

/// The lines among which are all of a code.
#[inline(always)]
pub(crate) fn sources_at<'a>(sources: &'a [Source], spans: &[Span], code: u64) -> &'a [Source]
    requires { AreSpans sources.now 0 spans.now }
    ensures { Keeps code sources.entry.now result.now }
{
    if code >= spans.len() as u64 {
        return sources;
    }
    let span = spans[code as usize];
    let (front, _) = sources.split_at(span.behind);
    let (_, lines) = front.split_at(span.first);
    lines
}
