//! The changes of a CSV.
ghost use Rattle.std.specs.Prelude.{◌≡◌, ℕ, ◌+◌, ◌<◌, ◌≤◌, ◌^◌, List, ◌∷◌, ◌++◌, length, None, Ok, Err, IfOk, IfSome, IfNone};
ghost use Rattle.std.specs.Option.{option_copied};
ghost use Rattle.vcd_text.specs.Body.{Told};
ghost use Rattle.vcd_text.specs.Shown.{shown_event};
ghost use Rattle.csv_text.specs.Fields.{fields};
ghost use Rattle.csv_text.specs.Body.{are_signals, signals_at, later_than, origin_of, before_trigger, moved, timed_at, timed, sampled, judged, is_same, with_changes, first_code, told_from, beginning};
ghost use Rattle.csv_text.specs.Rows.{MayFollow};
ghost use Rattle.csv_text.specs.Shown.{values_before, fields_in, room_in, IsJudged, IsRead, IsOver, place_of, standing_of, told_rows, with_row_left, told_before, told_at, HasRoom, bytes_left};

use crate::fields::{Fields, are_as_many};
use crate::form::Form;
use crate::rows::Rows;
use crate::table::is_signal;
use crate::times::{Moment, below_limit, moment_of, sample_time};
use vcd_text::{DumpFault, Event, LineFault};

// A row that may be told: its time, how long before a trigger the first row is, and the fields of its signals.
#[derive(Clone, Copy)]
pub(crate) struct Judged<'a> {
    time: u64,
    origin: u64,
    signals: Fields<'a>,
}

// Each field is that of a signal.
fn are_signals(separator: u8, fields: Fields<'_>) -> bool
    ensures { result ≡ are_signals (fields_in separator (option_copied fields.entry.rest)) }
{
    let mut left = fields;
    'fields: while let Some(field) = left.next_field(separator) {
        if !is_signal(field) {
            return false;
        }
    }
    true
}

// A row at this time.
fn signals_at(
    separator: u8,
    time: u64,
    origin: u64,
    signals: Fields<'_>,
) -> Result<Judged<'_>, DumpFault>
    ensures judged { IsJudged separator result (signals_at time origin (fields_in separator (option_copied signals.entry.rest))) }
    ensures same { IfOk result (λ j. j.signals ≡ signals.entry) }
{
    if are_signals(separator, signals) {
        Ok(Judged {
            time,
            origin,
            signals,
        })
    } else {
        Err(DumpFault::BadSignal)
    }
}

// A time doesn't go back.
fn later_than(before: u64, time: u64) -> Result<u64, DumpFault>
    ensures { result ≡ later_than before time }
{
    if before <= time {
        Ok(time)
    } else {
        Err(DumpFault::RowGoesBack)
    }
}

// How long before a trigger the first row is.
fn origin_of(count: u64, origin: u64, moment: Moment) -> u64
    ensures { result ≡ origin_of count origin moment }
{
    if count == 0 && moment.is_negative {
        moment.size
    } else {
        origin
    }
}

fn before_trigger(origin: u64, size: u64) -> Result<u64, DumpFault>
    ensures { result ≡ before_trigger origin size }
{
    if size <= origin {
        Ok(origin - size)
    } else {
        Err(DumpFault::RowGoesBack)
    }
}

// A time as it is told.
fn moved(origin: u64, moment: Moment) -> Result<u64, DumpFault>
    ensures { result ≡ moved origin moment }
{
    if moment.is_negative {
        return before_trigger(origin, moment.size);
    }
    match below_limit(u128::from(origin) + u128::from(moment.size)) {
        Some(time) => Ok(time),
        None => Err(DumpFault::BadRowTime),
    }
}

// A signal has the field that it had in the row before, if it had one.
fn is_same(before: Option<&[u8]>, field: &[u8]) -> bool
    ensures { result ≡ is_same (option_copied before.entry) field.now }
{
    match before {
        Some(before) => before == field,
        None => false,
    }
}

/// Where reading of the rows of a CSV is between two pieces of its text.
#[derive(Clone, Copy, Debug)]
pub struct Standing {
    pub(crate) form: Form,
    // The time, how many rows there were, and how long before a trigger the first one is.
    pub(crate) time: u64,
    pub(crate) count: u64,
    pub(crate) origin: u64,
    pub(crate) line: usize,
}

impl Standing {
    /// Goes on with this text, by the row of names and what [`Body::last`] said of the row before.
    pub fn with<'a>(self, names: &'a [u8], last: Option<&'a [u8]>, text: &'a [u8]) -> Body<'a>
        requires first { 1 ≤ self.line }
        requires lines { self.line + length text.now < 2 ^ 64 }
        requires rows { self.count + length text.now < 2 ^ 64 }
        ensures told { (more : List ℕ) → told_before result more ≡ told_at self names.entry.now (option_copied last.entry) (text.entry.now ++ more) }
        ensures rest { result.rows.rest.now ≡ text.entry.now }
        ensures names { result.names.now ≡ names.entry.now }
        ensures room { HasRoom result }
    {
        Body {
            rows: Rows {
                line: self.line,
                rest: text,
            },
            form: self.form,
            names,
            time: self.time,
            count: self.count,
            origin: self.origin,
            last: Fields { rest: last },
            row: Fields::none(),
            before: Fields::none(),
            code: 0,
        }
    }

    /// The number of the next line.
    pub fn line(self) -> usize
        ensures { result ≡ self.line }
    {
        self.line
    }

    /// How many rows there were.
    pub fn count(self) -> u64
        ensures { result ≡ self.count }
    {
        self.count
    }
}

/// What is left of the changes of a CSV.
#[derive(Clone, Copy, Debug)]
pub struct Body<'a> {
    pub(crate) rows: Rows<'a>,
    pub(crate) form: Form,
    pub(crate) names: &'a [u8],
    // What was before: the time, how many rows there were, how long before a trigger the first one is, and the fields of the last one.
    pub(crate) time: u64,
    pub(crate) count: u64,
    pub(crate) origin: u64,
    pub(crate) last: Fields<'a>,
    // What is left of a row, and of the row before it, and the column where this begins.
    pub(crate) row: Fields<'a>,
    pub(crate) before: Fields<'a>,
    pub(crate) code: u64,
}

impl<'a> Body<'a> {
    // The rows below a row of names.
    pub(crate) fn begin(rows: Rows<'a>, form: Form, names: &'a [u8]) -> Body<'a>
        requires first { 1 ≤ rows.line }
        requires room { rows.line + length rows.rest.now < 2 ^ 64 }
        ensures told { (more : List ℕ) → told_before result more ≡ told_from form (fields form.separator names.entry.now) beginning (values_before rows.entry more) }
        ensures begins { (more : List ℕ) → told_before result more ≡ told_at (standing_of result) names.entry.now None (rows.entry.rest.now ++ more) }
        ensures rows { result.rows ≡ rows.entry }
        ensures form { result.form ≡ form }
        ensures names { result.names.now ≡ names.entry.now }
        ensures room { HasRoom result }
    {
        Body {
            rows,
            form,
            names,
            time: 0,
            count: 0,
            origin: 0,
            last: Fields::none(),
            row: Fields::none(),
            before: Fields::none(),
            code: 0,
        }
    }

    /// Where reading is.
    pub fn standing(self) -> Standing
        ensures { result ≡ standing_of self.entry }
    {
        Standing {
            form: self.form,
            time: self.time,
            count: self.count,
            origin: self.origin,
            line: self.rows.line,
        }
    }

    /// The row of names.
    pub fn names(self) -> &'a [u8]
        ensures { result.now ≡ self.entry.names.now }
    {
        self.names
    }

    /// What of the last row is needed to go on: the fields of its signals.
    pub fn last(self) -> Option<&'a [u8]>
        ensures { option_copied result ≡ option_copied self.entry.last.rest }
    {
        self.last.rest
    }

    /// The text that isn't read yet.
    pub fn rest(self) -> &'a [u8]
        ensures { result.now ≡ self.entry.rows.rest.now }
    {
        self.rows.rest
    }

    // A row with its time in front.
    fn timed(&self, row: Fields<'a>) -> Result<Judged<'a>, DumpFault>
        ensures judged { IsJudged self.now.form.separator result (timed self.now.form (place_of self.now) (fields_in self.now.form.separator (option_copied row.entry.rest))) }
        ensures room { IfOk result (λ j. room_in (option_copied j.signals.rest) < room_in (option_copied row.entry.rest)) }
    {
        let separator = self.form.separator;
        let mut signals = row;
        let field = signals
            .next_field(separator)
            .ok_or(DumpFault::OtherFieldCount)?;
        let moment = moment_of(self.form.in_seconds, field).ok_or(DumpFault::BadRowTime)?;
        let origin = origin_of(self.count, self.origin, moment);
        let time = moved(origin, moment)?;
        let later = later_than(self.time, time)?;
        signals_at(separator, later, origin, signals)
    }

    // A row that is a sample.
    fn sampled(&self, row: Fields<'a>) -> Result<Judged<'a>, DumpFault>
        ensures judged { IsJudged self.now.form.separator result (sampled self.now.form (place_of self.now) (fields_in self.now.form.separator (option_copied row.entry.rest))) }
        ensures same { IfOk result (λ j. j.signals ≡ row.entry) }
    {
        let time = sample_time(self.form.rate, self.count).ok_or(DumpFault::BadRowTime)?;
        signals_at(self.form.separator, time, self.origin, row)
    }

    // Whether a row may be told.
    fn judge(&self, row: Fields<'a>) -> Result<Judged<'a>, DumpFault>
        ensures judged { IsJudged self.now.form.separator result
            (judged self.now.form (fields self.now.form.separator self.now.names.now) (place_of self.now) (fields_in self.now.form.separator (option_copied row.entry.rest))) }
        ensures room { IfOk result (λ j. first_code self.now.form + room_in (option_copied j.signals.rest) ≤ room_in (option_copied row.entry.rest)) }
    {
        let separator = self.form.separator;
        if !are_as_many(separator, Fields::of(self.names), separator, row) {
            return Err(DumpFault::OtherFieldCount);
        }
        if self.form.has_times {
            self.timed(row)
        } else {
            self.sampled(row)
        }
    }

    // The column of the first signal.
    fn first_code(&self) -> u64
        ensures { result ≡ first_code self.now.form }
    {
        if self.form.has_times { 1 } else { 0 }
    }

    // Goes on to the fields of a row.
    fn begin_row(&mut self, row: Judged<'a>)
        requires room { self.old.count + 1 < 2 ^ 64 }
        ensures told { (later : List Told) → with_row_left self.new later
            ≡ with_changes (first_code self.old.form) (fields_in self.old.form.separator (option_copied self.old.last.rest)) (fields_in self.old.form.separator (option_copied row.entry.signals.rest)) later }
        ensures place { place_of self.new
            ≡ record { time = row.entry.time; count = self.old.count + 1; origin = row.entry.origin; before = fields_in self.old.form.separator (option_copied row.entry.signals.rest) } }
        ensures names { self.new.names ≡ self.old.names }
        ensures form { self.new.form ≡ self.old.form }
        ensures rows { self.new.rows ≡ self.old.rows }
        ensures count { self.new.count ≡ self.old.count + 1 }
        ensures code { self.new.code ≡ first_code self.old.form }
        ensures row { self.new.row ≡ row.entry.signals }
    {
        self.time = row.time;
        self.origin = row.origin;
        self.count += 1;
        self.before = self.last;
        self.row = row.signals;
        self.last = row.signals;
        self.code = self.first_code();
    }

    // The time of the next row.
    fn next_row(&mut self) -> Result<Option<Event<'a>>, LineFault>
        requires room { HasRoom self.old }
        requires row { option_copied self.old.row.rest ≡ None }
        ensures told { (more : List ℕ) → MayFollow self.old.rows.rest.now more → IsRead result (told_rows self.old more) (told_before self.new more) }
        ensures follows { IfOk result (λ _. (more : List ℕ) → MayFollow self.old.rows.rest.now more → MayFollow self.new.rows.rest.now more) }
        ensures over { IfOk result (λ o. IfNone o (IsOver self.new)) }
        ensures names { self.new.names ≡ self.old.names }
        ensures room { IfOk result (λ _. HasRoom self.new) }
        ensures shorter { IfOk result (λ o. IfSome o (λ _. bytes_left self.new < bytes_left self.old)) }
    {
        let Some(row) = self.rows.next_values() else {
            return Ok(None);
        };
        match self.judge(Fields::of(row.text)) {
            Ok(judged) => {
                self.begin_row(judged);
                Ok(Some(Event::Time(judged.time)))
            }
            Err(fault) => Err(LineFault {
                fault,
                line: row.line,
            }),
        }
    }

    // The next change of the row.
    fn next_change(&mut self) -> Option<Event<'a>>
        requires room { HasRoom self.old }
        ensures some { IfSome result (λ e. (later : List Told) → with_row_left self.old later ≡ Ok (shown_event e) ∷ with_row_left self.new later) }
        ensures none { IfNone result ((later : List Told) → with_row_left self.old later ≡ later) }
        ensures rows { self.new.rows ≡ self.old.rows }
        ensures told { (more : List ℕ) → told_rows self.new more ≡ told_rows self.old more }
        ensures row { IfNone result (option_copied self.new.row.rest ≡ None) }
        ensures names { self.new.names ≡ self.old.names }
        ensures room { HasRoom self.new }
        ensures less { bytes_left self.new ≤ bytes_left self.old }
        ensures shorter { IfSome result (λ _. bytes_left self.new < bytes_left self.old) }
    {
        let separator = self.form.separator;
        'fields: while let Some(field) = self.row.next_field(separator) {
            let before = self.before.next_field(separator);
            let code = self.code;
            self.code += 1;
            if !is_same(before, field) {
                return Some(Event::Change { code, bits: field });
            }
        }
        None
    }

    /// The next of what the rows tell: the time of a row, and then its changes, each of one column. After a fault nothing more is to be asked for.
    pub fn next_event(&mut self) -> Result<Option<Event<'a>>, LineFault>
        requires room { HasRoom self.old }
        ensures told { (more : List ℕ) → MayFollow self.old.rows.rest.now more → IsRead result (told_before self.old more) (told_before self.new more) }
        ensures follows { IfOk result (λ _. (more : List ℕ) → MayFollow self.old.rows.rest.now more → MayFollow self.new.rows.rest.now more) }
        ensures over { IfOk result (λ o. IfNone o (IsOver self.new)) }
        ensures names { self.new.names ≡ self.old.names }
        ensures room { IfOk result (λ _. HasRoom self.new) }
        ensures shorter { IfOk result (λ o. IfSome o (λ _. bytes_left self.new < bytes_left self.old)) }
    {
        match self.next_change() {
            Some(event) => Ok(Some(event)),
            None => self.next_row(),
        }
    }
}
