//! How near a trace comes to the least times, in words.

use recording::Nanoseconds;
use std::alloc::AllocError;
use std::fmt;
use trace_timing::{Margins, Nearest, TimingFault};

// So many of a thing, whose name takes an s where they are not 1.
#[derive(Clone, Copy)]
struct Counted {
    count: u64,
    name: &'static str,
}

impl fmt::Display for Counted {
    fn fmt<W: fmt::Write>(&self, f: &mut fmt::Formatter<W>) -> fmt::Result {
        let Counted { count, name } = *self;
        match count {
            1 => write!(f, "1 {name}"),
            _ => write!(f, "{count} {name}s"),
        }
    }
}

// Adds the line of a timing, where a trace has pairs of it.
fn push_nearest(
    lines: &mut String,
    fault: TimingFault,
    nearest: Option<Nearest>,
) -> Result<(), AllocError> {
    if let (Some(timing), Some(nearest)) = (fault.timing(), nearest) {
        writeln!(
            lines,
            "{timing}: nearest {} ns at item {}, wants {}",
            Nanoseconds(nearest.seen),
            nearest.item,
            Nanoseconds(nearest.wanted)
        )?;
    }
    Ok(())
}

/// Adds how near a trace comes to each time, and how many pairs were judged and how many violations there are.
pub(crate) fn push_margins(
    lines: &mut String,
    margins: &Margins,
    violations: usize,
) -> Result<(), AllocError> {
    for (fault, nearest) in Margins::TIMINGS.iter().zip(margins.nearest.iter()) {
        push_nearest(lines, *fault, *nearest)?;
    }
    let pairs = Counted {
        count: margins.pairs,
        name: "pair",
    };
    let told = Counted {
        count: violations as u64,
        name: "violation",
    };
    writeln!(
        lines,
        "timing: {pairs} judged, {} without times, {told}",
        margins.without_times
    )
}
