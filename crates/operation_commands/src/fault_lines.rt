//! The faults beneath an operation.

use crate::listed_trace::ListedTrace;
use std::alloc::{AllocError, Global};
use trace_faults::{BrokenRule, NotShown};

// Blanks before what stands beneath a line.
const INDENT: &str = "                       ";

// Faults of one rule, of so many items in a row.
#[derive(Clone, Copy)]
struct Run {
    first: BrokenRule,
    count: usize,
}

impl Run {
    // Whether a fault is the next of it.
    fn goes_on(self, fault: BrokenRule) -> bool {
        fault.rule == self.first.rule && fault.item == self.first.item.saturating_add(self.count)
    }

    // Adds its line.
    fn push_line(self, text: &mut String, trace: &ListedTrace) -> Result<(), AllocError> {
        let BrokenRule { item, rule } = self.first;
        let code = rule.code();
        let last = trace.place(item.saturating_add(self.count.saturating_sub(1)));
        let item = trace.place(item);
        if item == last {
            writeln!(text, "{INDENT}{code} at {item}: {rule}")
        } else {
            writeln!(text, "{INDENT}{code} at {item} to {last}: {rule}")
        }
    }
}

// Goes on by a fault: the run that it belongs to. The line of one that has ended is added.
fn go_on(
    text: &mut String,
    trace: &ListedTrace,
    run: Option<Run>,
    fault: BrokenRule,
) -> Result<Run, AllocError> {
    let begun = Run {
        first: fault,
        count: 1,
    };
    match run {
        None => Ok(begun),
        Some(run) if run.goes_on(fault) => Ok(Run {
            first: run.first,
            count: run.count.saturating_add(1),
        }),
        Some(run) => {
            run.push_line(text, trace)?;
            Ok(begun)
        }
    }
}

// Adds the faults of an operation.
fn push_faults(
    text: &mut String,
    trace: &ListedTrace,
    faults: &[BrokenRule],
) -> Result<(), AllocError> {
    let mut run = None;
    for fault in faults {
        run = Some(go_on(text, trace, run, *fault)?);
    }
    match run {
        None => Ok(()),
        Some(run) => run.push_line(text, trace),
    }
}

// The fault of an item among these, which stand in the order of time.
fn fault_at(faults: &[BrokenRule], item: usize) -> Option<BrokenRule> {
    let place = faults.partition_point(|fault| fault.item < item);
    match faults.get(place) {
        Some(fault) if fault.item == item => Some(*fault),
        Some(_) | None => None,
    }
}

// The LUN that was assumed ready before an item, among these.
fn not_shown_at(told: &[NotShown], item: usize) -> Option<NotShown> {
    let place = told.partition_point(|told| told.item < item);
    match told.get(place) {
        Some(told) if told.item == item => Some(*told),
        Some(_) | None => None,
    }
}

/// The faults of the items of an operation, in the order of time.
pub(crate) fn faults_of(
    alloc: Global,
    trace: &ListedTrace,
    number: usize,
) -> Result<Vec<BrokenRule>, AllocError> {
    let mut faults = Vec::new(alloc);
    for item in trace.groups.items(number) {
        if let Some(fault) = fault_at(trace.faults.as_slice(), *item) {
            faults.push(fault)?;
        }
    }
    Ok(faults)
}

// Adds what was taken for granted of an item.
fn push_granted(text: &mut String, trace: &ListedTrace, item: usize) -> Result<(), AllocError> {
    if let Some(granted) = fault_at(trace.granted.as_slice(), item) {
        let code = granted.rule.code();
        let item = trace.place(item);
        writeln!(text, "{INDENT}at {item}: taken for granted (else {code})")?;
    }
    Ok(())
}

// Adds the LUN that was assumed ready before an item.
fn push_not_shown(text: &mut String, trace: &ListedTrace, item: usize) -> Result<(), AllocError> {
    if let Some(told) = not_shown_at(trace.not_shown.as_slice(), item) {
        let lun = told.ready.lun.lun;
        let item = trace.place(item);
        writeln!(text, "{INDENT}at {item}: LUN {lun} is assumed ready")?;
    }
    Ok(())
}

/// Adds what is wrong with an operation, and what was taken for granted.
pub(crate) fn push_beneath(
    text: &mut String,
    alloc: Global,
    trace: &ListedTrace,
    number: usize,
) -> Result<(), AllocError> {
    let faults = faults_of(alloc, trace, number)?;
    push_faults(text, trace, faults.as_slice())?;
    for item in trace.groups.items(number) {
        push_granted(text, trace, *item)?;
        push_not_shown(text, trace, *item)?;
    }
    Ok(())
}
