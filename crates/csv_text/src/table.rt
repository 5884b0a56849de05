//! The row of names.
ghost use Rattle.std.specs.Prelude.{◌≡◌, ℕ, List, [], ◌∷◌, ◌++◌, ◌+◌, ◌<◌, ◌≤◌, ◌^◌, length, None, Ok, Err, IfOk, IfErr, IfSome, IfNone, OnOk};
ghost use Rattle.std.specs.Option.{option_copied};
ghost use Rattle.vcd_text.specs.Sections.{shown_variables};
ghost use Rattle.vcd_text.specs.declared.fault.HeaderRefusal.TheVariants as refusal;
ghost use Rattle.csv_text.specs.Rows.{rows, MayFollow};
ghost use Rattle.csv_text.specs.Fields.{fields, separator_of};
ghost use Rattle.csv_text.specs.Notes.{no_heading};
ghost use Rattle.csv_text.specs.Table.{is_signal, is_value, are_values, begins_time, is_unit, names_time, is_seconds_mark, tells_seconds, are_logic, signal_names, variables_from, columns_of, no_names, named_table, table_from, table_of};
ghost use Rattle.csv_text.specs.Body.{told};
ghost use Rattle.csv_text.specs.Shown.{fields_in, room_in, row_of, rows_before, told_before, told_at, standing_of, HasRoom, table_before, shown_heading, heading_of, names_of, IsRefusalOf};

use crate::body::Body;
use crate::fields::{Fields, are_as_many, separator_of};
use crate::form::Form;
use crate::heading::Heading;
use crate::rows::{Rows, is_note};
use crate::times::{is_text, moment_of};
use std::alloc::Allocator;
use vcd_text::{DumpFault, HeaderRefusal, LineFault, Variable, level_of};

/// A CSV whose row of names is read.
#[derive(Debug, Drop)]
pub struct Table<'a, A: Allocator> {
    /// A signal of one bit for each column but that of the times; its code is the number of its column, from 0.
    pub variables: Vec<Variable<'a>, A>,
    pub body: Body<'a>,
}

// The field is that of a signal: one bit, or empty.
pub(crate) fn is_signal(field: &[u8]) -> bool
    ensures { result ≡ is_signal field.now }
{
    match field {
        [] => true,
        [bit] => level_of(*bit).is_some(),
        _ => false,
    }
}

// The field is a value, and no name.
fn is_value(field: &[u8]) -> bool
    ensures { result ≡ is_value field.now }
{
    is_signal(field) || moment_of(false, field).is_some()
}

// Each field is one.
fn are_values(separator: u8, row: Fields<'_>) -> bool
    ensures { result ≡ are_values (fields_in separator (option_copied row.entry.rest)) }
{
    let mut left = row;
    'fields: while let Some(field) = left.next_field(separator) {
        if !is_value(field) {
            return false;
        }
    }
    true
}

fn begins_time(name: &[u8]) -> bool
    ensures { result ≡ begins_time name.now }
{
    match name {
        [b'T' | b't', b'i', b'm', b'e', ..] => true,
        _ => false,
    }
}

// A unit of sigrok's.
fn is_unit(name: &[u8]) -> bool
    ensures { result ≡ is_unit name.now }
{
    is_text(name, "nanoseconds")
        || is_text(name, "microseconds")
        || is_text(name, "milliseconds")
        || is_text(name, "seconds")
}

// A column has times if its name begins with `Time`, or is a unit.
fn names_time(name: &[u8]) -> bool
    ensures { result ≡ names_time name.now }
{
    begins_time(name) || is_unit(name)
}

fn is_seconds_mark(text: &[u8]) -> bool
    ensures { result ≡ is_seconds_mark text.now }
{
    match text {
        [b'(' | b'[', b's', b')' | b']'] => true,
        _ => false,
    }
}

// Times are seconds if the name of their column ends in `(s)` or `[s]`.
fn tells_seconds(name: &[u8]) -> bool
    ensures { result ≡ tells_seconds name.now }
{
    let (_, end) = name.split_at(name.len().saturating_sub(3));
    is_seconds_mark(end)
}

// Each column is called `logic`, as sigrok calls what has no unit.
fn are_logic(separator: u8, names: Fields<'_>) -> bool
    ensures { result ≡ are_logic (fields_in separator (option_copied names.entry.rest)) }
{
    let mut left = names;
    'names: while let Some(name) = left.next_field(separator) {
        if !is_text(name, "logic") {
            return false;
        }
    }
    true
}

// A signal of one bit for each name, from column number `first` on.
fn variables_of<'a, A: Allocator>(
    alloc: A,
    first: u64,
    separator: u8,
    names: Fields<'a>,
) -> Result<Vec<Variable<'a>, A>, HeaderRefusal>
    requires room { first + room_in (option_copied names.rest) < 2 ^ 64 }
    ensures ok { IfOk result (λ v. shown_variables v.items ≡ variables_from first (fields_in separator (option_copied names.entry.rest))) }
    ensures err { IfErr result (λ e. e ≡ refusal.OutOfMemory) }
{
    let mut variables = Vec::new(alloc);
    let mut left = names;
    let mut code = first;
    'names: while let Some(name) = left.next_field(separator) {
        let variable = Variable {
            name,
            range: &[],
            width: 1,
            code,
        };
        if variables.push(variable).is_err() {
            return Err(HeaderRefusal::OutOfMemory);
        }
        code += 1;
    }
    Ok(variables)
}

// No row names the columns; told in this line.
fn no_names(line: usize) -> HeaderRefusal
    ensures { IsRefusalOf result (no_names line) }
{
    HeaderRefusal::Fault(LineFault {
        fault: DumpFault::NoColumnNames,
        line,
    })
}

// Names, and what separates them.
#[derive(Clone, Copy)]
struct Names<'a> {
    separator: u8,
    fields: Fields<'a>,
}

impl<'a> Heading<'a> {
    // The names of signals: those of the comment where the row has none of its own, and it is about as many.
    fn signal_names(self, separator: u8, names: Fields<'a>) -> Names<'a>
        requires names { room_in (option_copied names.rest) + 1 < 2 ^ 64 }
        ensures names { fields_in result.separator (option_copied result.fields.rest) ≡ signal_names (fields 44 self.entry.channels.now) (fields_in separator (option_copied names.entry.rest)) }
        ensures room { room_in (option_copied result.fields.rest) + 1 < 2 ^ 64 }
    {
        let channels = Fields::of(self.channels);
        if are_logic(separator, names) && are_as_many(b',', channels, separator, names) {
            Names {
                separator: b',',
                fields: channels,
            }
        } else {
            Names {
                separator,
                fields: names,
            }
        }
    }
}

// The columns that a row names: how the rows below are read, the number of the first signal's column, and the names of the signals.
#[derive(Clone, Copy)]
pub(crate) struct Columns<'a> {
    pub(crate) form: Form,
    first: u64,
    names: Names<'a>,
}

// What the columns of a row of names are, after these comments.
pub(crate) fn columns_of<'a>(heading: Heading<'a>, separator: u8, names: &'a [u8]) -> Columns<'a>
    ensures columns { columns_of (shown_heading heading.entry) separator (fields separator names.entry.now)
        ≡ record { form = result.form; variables = variables_from result.first (fields_in result.names.separator (option_copied result.names.fields.rest)) } }
    ensures separator { result.form.separator ≡ separator }
    ensures room { result.first + room_in (option_copied result.names.fields.rest) < 2 ^ 64 }
{
    let all = Fields::of(names);
    let mut signals = all;
    match signals.next_field(separator) {
        Some(name) if names_time(name) => Columns {
            form: Form {
                separator,
                has_times: true,
                in_seconds: tells_seconds(name),
                rate: heading.rate,
            },
            first: 1,
            names: heading.signal_names(separator, signals),
        },
        _ => Columns {
            form: Form {
                separator,
                has_times: false,
                in_seconds: false,
                rate: heading.rate,
            },
            first: 0,
            names: heading.signal_names(separator, all),
        },
    }
}

// A row of names, and what the comments above it tell.
#[derive(Clone, Copy)]
pub(crate) struct Headed<'a> {
    pub(crate) channels: &'a [u8],
    pub(crate) rate: u64,
    pub(crate) line: usize,
    pub(crate) text: &'a [u8],
}

impl<'a> Headed<'a> {
    pub(crate) fn heading(self) -> Heading<'a>
        ensures { shown_heading result ≡ heading_of self.entry }
    {
        Heading {
            channels: self.channels,
            rate: self.rate,
        }
    }
}

// The first row that is no comment.
pub(crate) fn find_names<'a>(rows: &mut Rows<'a>) -> Option<Headed<'a>>
    requires room { rows.old.line + length rows.old.rest.now < 2 ^ 64 }
    ensures some { IfSome result (λ h. (more : List ℕ) → MayFollow rows.old.rest.now more
        → table_of (rows_before rows.old more) ≡ named_table (heading_of h) (names_of h) (rows_before rows.new more)) }
    ensures none { IfNone result (table_of (rows_before rows.old []) ≡ no_names 1) }
    ensures follows { (more : List ℕ) → MayFollow rows.old.rest.now more → MayFollow rows.new.rest.now more }
    ensures room { rows.new.line + length rows.new.rest.now ≤ rows.old.line + length rows.old.rest.now }
    ensures line { rows.old.line ≤ rows.new.line }
{
    let mut channels: &'a [u8] = &[];
    let mut rate = 0;
    'rows: while let Some(row) = rows.next_row() {
        if !is_note(row.text) {
            return Some(Headed {
                channels,
                rate,
                line: row.line,
                text: row.text,
            });
        }
        let noted = Heading { channels, rate }.noted(row.text);
        channels = noted.channels;
        rate = noted.rate;
    }
    None
}

// The table whose columns this row names, of which some field is no value, and that has these rows below; or a row without names is refused. `OutOfMemory` is
// answered only where memory was refused, to a row that has names.
fn name_columns<'a, A: Allocator>(
    alloc: A,
    headed: Headed<'a>,
    rows: Rows<'a>,
) -> Result<Table<'a, A>, HeaderRefusal>
    requires first { 1 ≤ rows.line }
    requires room { rows.line + length rows.rest.now < 2 ^ 64 }
    ensures ok { IfOk result (λ t. (more : List ℕ) → named_table (heading_of headed.entry) (names_of headed.entry) (rows_before rows.entry more) ≡ Ok (table_before t more)) }
    // The body stands at the beginning of the rows below.
    ensures told { IfOk result (λ t. (more : List ℕ) → told_before t.body more ≡ told (table_before t more)) }
    ensures begins { IfOk result (λ t. (more : List ℕ) → told_before t.body more ≡ told_at (standing_of t.body) t.body.names.now None (rows.entry.rest.now ++ more)) }
    ensures rows { IfOk result (λ t. t.body.rows ≡ rows.entry) }
    ensures room { IfOk result (λ t. HasRoom t.body) }
    ensures err { IfErr result (λ e. (more : List ℕ) → IsRefusalOf e (named_table (heading_of headed.entry) (names_of headed.entry) (rows_before rows.entry more))) }
{
    let text = headed.text;
    let separator = separator_of(text);
    if are_values(separator, Fields::of(text)) {
        return Err(no_names(headed.line));
    }
    let columns = columns_of(headed.heading(), separator, text);
    match variables_of(
        alloc,
        columns.first,
        columns.names.separator,
        columns.names.fields,
    ) {
        Ok(variables) => Ok(Table {
            variables,
            body: Body::begin(rows, columns.form, text),
        }),
        Err(refusal) => Err(refusal),
    }
}

/// Reads the row of names of a CSV, if it is there: the first row that is no comment. Empty lines are no rows. `; Channels (2/2): A, B` in front of it gives the
/// names of columns that are all called `logic`, and `; Samplerate: 24 MHz` or `META samplerate: 24000000` how many samples there are in a second. What
/// separates is a comma, where that row has one, else a semicolon, else a tab. A row of values alone is refused by its line. What is said holds whatever text
/// may follow. `OutOfMemory` is answered only where memory was refused.
pub fn open_table<'a, A: Allocator>(
    alloc: A,
    text: &'a [u8],
) -> Result<Option<Table<'a, A>>, HeaderRefusal>
    ensures some { IfOk result (λ o. IfSome o (λ t. (more : List ℕ) → MayFollow text.entry.now more → table_of (rows (text.entry.now ++ more)) ≡ Ok (table_before t more))) }
    ensures none { IfOk result (λ o. IfNone o (table_of (rows text.entry.now) ≡ no_names 1)) }
    // The body stands at the beginning of the rows below.
    ensures told { IfOk result (λ o. IfSome o (λ t. (more : List ℕ) → told_before t.body more ≡ told (table_before t more))) }
    ensures begins { IfOk result (λ o. IfSome o (λ t. (more : List ℕ) → told_before t.body more ≡ told_at (standing_of t.body) t.body.names.now None (t.body.rows.rest.now ++ more))) }
    ensures room { IfOk result (λ o. IfSome o (λ t. HasRoom t.body)) }
    ensures err { IfErr result (λ e. (more : List ℕ) → MayFollow text.entry.now more → IsRefusalOf e (table_of (rows (text.entry.now ++ more)))) }
{
    let mut rows = Rows::of(text);
    let Some(headed) = find_names(&mut rows) else {
        return Ok(None);
    };
    match name_columns(alloc, headed, rows) {
        Ok(table) => Ok(Some(table)),
        Err(refusal) => Err(refusal),
    }
}

/// Reads the row of names of a whole CSV, which has to be there, as [`open_table`] does; a file without one is refused by line 1.
pub fn read_table<'a, A: Allocator>(alloc: A, text: &'a [u8]) -> Result<Table<'a, A>, HeaderRefusal>
    ensures ok { IfOk result (λ t. table_of (rows text.entry.now) ≡ Ok (table_before t [])) }
    // The body stands at the beginning of the rows below.
    ensures told { IfOk result (λ t. told_before t.body [] ≡ told (table_before t [])) }
    ensures room { IfOk result (λ t. HasRoom t.body) }
    ensures err { IfErr result (λ e. IsRefusalOf e (table_of (rows text.entry.now))) }
{
    match open_table(alloc, text) {
        Ok(Some(table)) => Ok(table),
        Ok(None) => Err(no_names(1)),
        Err(refusal) => Err(refusal),
    }
}
