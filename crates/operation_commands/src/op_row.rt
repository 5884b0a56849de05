//! An operation as a row of CSV, or as an object of JSON.

use crate::busy::{Busy, End, end_item, status_of};
use crate::data_lines::{Data, Stretch};
use crate::fault_lines::faults_of;
use crate::listed_trace::ListedTrace;
use crate::place::Place;
use std::alloc::{AllocError, Global};
use std::fmt;
use trace_faults::BrokenRule;
use trace_ops::Operation;

/// The names of the fields.
pub(crate) const NAMES: &str =
    "item,last,time,ce,lun,operation,row,block,page,column,in,out,polls,start,ready,busy_least,busy_most,end,status,faults\n";

// What a row is written as.
#[derive(Clone, Copy, PartialEq, Eq)]
enum RowForm {
    Csv,
    Json,
}

// Adds a field: in CSV one more comma, in JSON the key with its value, if there is one.
fn push_field<D: fmt::Display + Drop>(
    row: &mut String,
    form: RowForm,
    name: &str,
    value: Option<D>,
) -> Result<(), AllocError> {
    match (form, value) {
        (RowForm::Csv, None) => row.push_str(","),
        (RowForm::Csv, Some(value)) => write!(row, "{value},"),
        (RowForm::Json, None) => Ok(()),
        (RowForm::Json, Some(value)) => write!(row, "\"{name}\":{value},"),
    }
}

// Text in a field: in JSON between quotes. It has no character that JSON escapes.
#[derive(Clone, Copy)]
struct InField<D> {
    form: RowForm,
    text: D,
}

impl<D: fmt::Display> fmt::Display for InField<D> {
    fn fmt<W: fmt::Write>(&self, f: &mut fmt::Formatter<W>) -> fmt::Result {
        match self.form {
            RowForm::Csv => write!(f, "{}", self.text),
            RowForm::Json => write!(f, "\"{}\"", self.text),
        }
    }
}

// A status byte.
#[derive(Clone, Copy)]
struct Hexadecimal(u8);

impl fmt::Display for Hexadecimal {
    fn fmt<W: fmt::Write>(&self, f: &mut fmt::Formatter<W>) -> fmt::Result {
        write!(f, "{:02x}", self.0)
    }
}

// Adds where an operation stands.
fn push_front(
    row: &mut String,
    form: RowForm,
    trace: &ListedTrace,
    operation: Operation,
) -> Result<(), AllocError> {
    let place = Place::of(&trace.geometry, operation);
    let name = InField {
        form,
        text: operation.name(),
    };
    push_field(row, form, "item", Some(trace.place(operation.first)))?;
    push_field(row, form, "last", Some(trace.place(operation.last)))?;
    push_field(row, form, "time", trace.time(operation.first))?;
    push_field(row, form, "ce", Some(operation.ce))?;
    push_field(row, form, "lun", place.lun_of(&trace.geometry, operation))?;
    push_field(row, form, "operation", Some(name))?;
    push_field(row, form, "row", place.row)?;
    push_field(row, form, "block", place.block())?;
    push_field(row, form, "page", place.page_number())?;
    push_field(row, form, "column", place.column)
}

// Adds what it did.
fn push_back(
    row: &mut String,
    form: RowForm,
    trace: &ListedTrace,
    operation: Operation,
) -> Result<(), AllocError> {
    let busy = Busy::of(trace, operation);
    let end = End::of(operation).map(|end| InField {
        form,
        text: end.word(),
    });
    let status = status_of(operation).map(|byte| InField {
        form,
        text: Hexadecimal(byte),
    });
    push_field(row, form, "in", Some(operation.inputs))?;
    push_field(row, form, "out", Some(operation.outputs))?;
    push_field(row, form, "polls", Some(operation.polls))?;
    push_field(row, form, "start", trace.place_if(operation.start))?;
    push_field(row, form, "ready", trace.place_if(end_item(operation)))?;
    push_field(row, form, "busy_least", busy.map(|busy| busy.least))?;
    push_field(row, form, "busy_most", busy.map(|busy| busy.most))?;
    push_field(row, form, "end", end)?;
    push_field(row, form, "status", status)
}

// Adds the faults of a row of CSV: `F8@3 F6@4`.
fn push_fault_field(
    row: &mut String,
    trace: &ListedTrace,
    faults: &[BrokenRule],
) -> Result<(), AllocError> {
    let mut separator = "";
    for fault in faults {
        write!(
            row,
            "{separator}{}@{}",
            fault.rule.code(),
            trace.place(fault.item)
        )?;
        separator = " ";
    }
    Ok(())
}

// Adds the faults of an object, if there are some.
fn push_fault_objects(
    row: &mut String,
    trace: &ListedTrace,
    faults: &[BrokenRule],
) -> Result<(), AllocError> {
    if faults.is_empty() {
        return Ok(());
    }
    let mut separator = "\"faults\":[";
    for fault in faults {
        let code = fault.rule.code();
        write!(
            row,
            "{separator}{{\"item\":{},\"code\":\"{code}\"}}",
            trace.place(fault.item)
        )?;
        separator = ",";
    }
    row.push_str("],")
}

// Adds a stretch of data.
fn push_stretch(row: &mut String, stretch: &Stretch) -> Result<(), AllocError> {
    write!(row, "{{\"column\":{},\"bytes\":\"", stretch.column)?;
    for byte in stretch.bytes.iter() {
        write!(row, "{byte:02x}")?;
    }
    row.push_str("\"}")
}

// Adds the data of an object, if there are some.
fn push_data(row: &mut String, data: &Data) -> Result<(), AllocError> {
    if data.stretches.is_empty() {
        return Ok(());
    }
    let mut separator = "\"data\":[";
    for stretch in data.stretches.iter() {
        row.push_str(separator)?;
        push_stretch(row, stretch)?;
        separator = ",";
    }
    row.push_str("],")
}

// The object without the comma behind its last key.
fn push_object(text: &mut String, row: &str) -> Result<(), AllocError> {
    writeln!(text, "{{{}}}", row.strip_suffix(',').unwrap_or(row))
}

// Adds what stands in front of the faults.
fn push_fields(
    row: &mut String,
    form: RowForm,
    trace: &ListedTrace,
    operation: Operation,
) -> Result<(), AllocError> {
    push_front(row, form, trace, operation)?;
    push_back(row, form, trace, operation)
}

/// Adds the row of an operation in CSV.
pub(crate) fn push_csv(
    text: &mut String,
    alloc: Global,
    trace: &ListedTrace,
    number: usize,
    operation: Operation,
) -> Result<(), AllocError> {
    let mut row = String::new(alloc);
    push_fields(&mut row, RowForm::Csv, trace, operation)?;
    let faults = faults_of(alloc, trace, number)?;
    push_fault_field(&mut row, trace, faults.as_slice())?;
    writeln!(text, "{}", row.as_str())
}

// Adds the data of an operation.
fn push_its_data(
    row: &mut String,
    alloc: Global,
    trace: &ListedTrace,
    number: usize,
    operation: Operation,
) -> Result<(), AllocError> {
    let data = Data::of(alloc, trace, number, operation)?;
    push_data(row, &data)
}

/// Adds an operation as an object of JSON, with its data where they are asked for.
pub(crate) fn push_json(
    text: &mut String,
    alloc: Global,
    trace: &ListedTrace,
    number: usize,
    operation: Operation,
    has_bytes: bool,
) -> Result<(), AllocError> {
    let mut row = String::new(alloc);
    push_fields(&mut row, RowForm::Json, trace, operation)?;
    let faults = faults_of(alloc, trace, number)?;
    push_fault_objects(&mut row, trace, faults.as_slice())?;
    if has_bytes {
        push_its_data(&mut row, alloc, trace, number, operation)?;
    }
    push_object(text, row.as_str())
}
