//! The line of an operation.

use crate::busy::{Busy, End, status_of};
use crate::listed_trace::ListedTrace;
use crate::place::Place;
use std::alloc::{AllocError, Global};
use std::fmt;
use trace_ops::Operation;

// A number, or `-`.
#[derive(Clone, Copy)]
struct OrDash<T>(Option<T>);

impl fmt::Display for OrDash<u64> {
    fn fmt<W: fmt::Write>(&self, f: &mut fmt::Formatter<W>) -> fmt::Result {
        match self.0 {
            Some(number) => write!(f, "{number:>12}"),
            None => write!(f, "{:>12}", "-"),
        }
    }
}

impl fmt::Display for OrDash<u8> {
    fn fmt<W: fmt::Write>(&self, f: &mut fmt::Formatter<W>) -> fmt::Result {
        match self.0 {
            Some(number) => write!(f, "{number}"),
            None => f.write_str("-"),
        }
    }
}

// What is said before a detail: a blank before the first, a semicolon before each other.
fn push_separator(line: &mut String, is_first: &mut bool) -> Result<(), AllocError> {
    let separator = if *is_first { " " } else { "; " };
    *is_first = false;
    line.push_str(separator)
}

// Adds a count of a thing, if there is one.
fn push_count(
    line: &mut String,
    is_first: &mut bool,
    name: &str,
    count: u64,
) -> Result<(), AllocError> {
    if 0 < count {
        push_separator(line, is_first)?;
        write!(line, "{name} {count}")?;
    }
    Ok(())
}

// Adds how an operation ended.
fn push_end(
    line: &mut String,
    is_first: &mut bool,
    trace: &ListedTrace,
    operation: Operation,
) -> Result<(), AllocError> {
    let end = End::of(operation);
    let status = status_of(operation);
    if end.is_none() && status.is_none() {
        return Ok(());
    }
    push_separator(line, is_first)?;
    match end {
        None => {}
        Some(End::NotShown) => line.push_str("ready, not shown")?,
        Some(End::Abandoned(at)) => write!(line, "abandoned at {}", trace.place(at))?,
        Some(end) => line.push_str(end.word())?,
    }
    match (end, status) {
        (_, None) => Ok(()),
        (None, Some(byte)) => write!(line, "{byte:02x}"),
        (Some(_), Some(byte)) => write!(line, " {byte:02x}"),
    }
}

// The name of an operation.
fn name_of(alloc: Global, operation: Operation) -> Result<String, AllocError> {
    let name = operation.name();
    format!(in alloc; "{name}")
}

// Adds a name, which has 16 places.
fn push_name(line: &mut String, name: &str) -> Result<(), AllocError> {
    write!(line, "{name:<16}")
}

// Adds what there is to be said of an operation.
fn push_details(
    line: &mut String,
    trace: &ListedTrace,
    operation: Operation,
    place: Place,
) -> Result<(), AllocError> {
    let mut is_first = true;
    if !place.is_nowhere() {
        push_separator(line, &mut is_first)?;
        write!(line, "{place}")?;
    }
    push_count(line, &mut is_first, "in", operation.inputs)?;
    push_count(line, &mut is_first, "out", operation.outputs)?;
    if let Some(busy) = Busy::of(trace, operation) {
        push_separator(line, &mut is_first)?;
        write!(line, "{busy}")?;
    }
    push_count(line, &mut is_first, "polls", operation.polls)?;
    push_end(line, &mut is_first, trace, operation)
}

/// Adds the line of an operation.
pub(crate) fn push_line(
    text: &mut String,
    alloc: Global,
    trace: &ListedTrace,
    operation: Operation,
) -> Result<(), AllocError> {
    let place = Place::of(&trace.geometry, operation);
    let lun = OrDash(place.lun_of(&trace.geometry, operation));
    let time = OrDash(trace.time(operation.first));
    let ce = operation.ce;
    let first = trace.place(operation.first);
    let name = name_of(alloc, operation)?;
    let mut line = String::new(alloc);
    write!(&mut line, "{first:>8} {time}  {ce}.{lun}  ")?;
    push_name(&mut line, name.as_str())?;
    push_details(&mut line, trace, operation, place)?;
    writeln!(text, "{}", line.as_str().trim_end())
}
