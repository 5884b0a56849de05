//! A number that is known by its bounds, in words.

use micro_claims::Span;
use std::fmt;

/// Writes a number: `5`, `2 to 7`, or `2 or more`.
pub(crate) fn write_span<W: fmt::Write>(f: &mut fmt::Formatter<W>, span: &Span) -> fmt::Result {
    let lo = span.lo();
    match span.hi() {
        Some(hi) if hi == lo => write!(f, "{lo}"),
        Some(hi) => write!(f, "{lo} to {hi}"),
        None => write!(f, "{lo} or more"),
    }
}
