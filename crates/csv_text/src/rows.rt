//! The rows of a CSV.
ghost use Rattle.std.specs.Prelude.{◌≡◌, ◌==◌, ℕ, ◌+◌, ◌<◌, ◌≤◌, ◌^◌, false, List, [], ◌++◌, length, take, drop, IfSome, IfNone};
ghost use Rattle.std.specs.List.{All};
ghost use Rattle.std.specs.Str.Lines.{strip_carriage_return};
ghost use Rattle.csv_text.specs.Fields.{is_blank, trim_front};
ghost use Rattle.csv_text.specs.Rows.{is_row, begins_meta, is_note, ended, rows_from, rows, values, AreLines, MayFollow};
ghost use Rattle.csv_text.specs.Shown.{rows_left, rows_before, values_before, with_row};

use crate::fields::trim_front;

/// A line that isn't empty, and its number, from 1.
#[derive(Clone, Copy, Debug)]
pub struct Row<'a> {
    pub line: usize,
    pub text: &'a [u8],
}

/// The rows that are left of a CSV.
#[derive(Clone, Copy, Debug)]
pub struct Rows<'a> {
    pub(crate) line: usize,
    pub(crate) rest: &'a [u8],
}

// A line is a row if it has more than blanks.
fn is_row(text: &[u8]) -> bool
    ensures { result ≡ is_row text.now }
{
    match trim_front(text) {
        [] => false,
        [_, ..] => true,
    }
}

fn begins_meta(text: &[u8]) -> bool
    ensures { result ≡ begins_meta text.now }
{
    match text {
        [b'M', b'E', b'T', b'A', b' ', ..] => true,
        _ => false,
    }
}

/// A row is a comment if a semicolon stands at its front; and so is a line `META` of sigrok-cli.
pub fn is_note(text: &[u8]) -> bool
    ensures { result ≡ is_note text.now }
{
    let front = trim_front(text);
    match front {
        [] => false,
        [first, ..] => *first == b';' || begins_meta(front),
    }
}

// The line without the carriage return that may stand at its end.
fn strip_carriage_return(line: &[u8]) -> &[u8]
    ensures { result.now ≡ strip_carriage_return line.entry.now }
{
    match line.split_last() {
        Some((b'\r', front)) => front,
        _ => line,
    }
}

// How many bytes stand in front of the first line feed, or in the whole text.
fn line_len(text: &[u8]) -> usize
    requires some { 0 < length text.now }
    ensures within { result ≤ length text.now }
    ensures ended { (line : ℕ) (more : List ℕ) → MayFollow text.now more
        → rows_from line [] (text.now ++ more) ≡ ended line (take result text.now) (rows_from (line + 1) [] (drop 1 (drop result text.now) ++ more)) }
    ensures follows { (more : List ℕ) → MayFollow text.now more → MayFollow (drop 1 (drop result text.now)) more }
{
    let mut count = 0;
    'bytes: while count < text.len() && text[count] != b'\n' {
        count += 1;
    }
    count
}

/// How many bytes of a piece stand in whole lines.
pub fn whole_lines_len(piece: &[u8]) -> usize
    ensures within { result ≤ length piece.now }
    ensures lines { AreLines (take result piece.now) }
    ensures rest { All (λ b. (b == 10) ≡ false) (drop result piece.now) }
{
    let mut count = piece.len();
    'bytes: while count > 0 && piece[count - 1] != b'\n' {
        count -= 1;
    }
    count
}

// The text without its first byte, if it has one.
fn without_first(text: &[u8]) -> &[u8]
    ensures { result.now ≡ drop 1 text.entry.now }
{
    match text {
        [] => text,
        [_, after @ ..] => after,
    }
}

impl<'a> Rows<'a> {
    /// The rows of a text.
    pub fn of(text: &'a [u8]) -> Rows<'a>
        ensures rows { rows_left result ≡ rows text.entry.now }
        ensures room { result.line + length result.rest.now < 2 ^ 64 }
        ensures first { result.line ≡ 1 }
        ensures rest { result.rest.now ≡ text.entry.now }
    {
        Rows {
            line: 1,
            rest: text,
        }
    }

    // Takes the first line, if there is one: a row, or none.
    fn take_line(&mut self) -> Option<Row<'a>>
        requires some { 0 < length self.old.rest.now }
        requires room { self.old.line + length self.old.rest.now < 2 ^ 64 }
        ensures rows { (more : List ℕ) → MayFollow self.old.rest.now more → rows_before self.old more ≡ with_row result (rows_before self.new more) }
        ensures follows { (more : List ℕ) → MayFollow self.old.rest.now more → MayFollow self.new.rest.now more }
        ensures room { self.new.line + length self.new.rest.now ≤ self.old.line + length self.old.rest.now }
        ensures line { self.old.line ≤ self.new.line }
        ensures shorter { length self.new.rest.now < length self.old.rest.now }
        ensures within { IfSome result (λ r. length r.text.now + length self.new.rest.now ≤ length self.old.rest.now) }
    {
        let line = self.line;
        let count = line_len(self.rest);
        let (front, rest) = self.rest.split_at(count);
        self.rest = without_first(rest);
        self.line += 1;
        let text = strip_carriage_return(front);
        if is_row(text) {
            Some(Row { line, text })
        } else {
            None
        }
    }

    /// The next row.
    pub fn next_row(&mut self) -> Option<Row<'a>>
        requires room { self.old.line + length self.old.rest.now < 2 ^ 64 }
        ensures rows { (more : List ℕ) → MayFollow self.old.rest.now more → rows_before self.old more ≡ with_row result (rows_before self.new more) }
        ensures follows { (more : List ℕ) → MayFollow self.old.rest.now more → MayFollow self.new.rest.now more }
        ensures none { IfNone result (self.new.rest.now ≡ []) }
        ensures room { self.new.line + length self.new.rest.now ≤ self.old.line + length self.old.rest.now }
        ensures line { self.old.line ≤ self.new.line }
        ensures shorter { IfSome result (λ _. length self.new.rest.now < length self.old.rest.now) }
        ensures within { IfSome result (λ r. length r.text.now + length self.new.rest.now ≤ length self.old.rest.now) }
    {
        'lines: while !self.rest.is_empty() {
            if let Some(row) = self.take_line() {
                return Some(row);
            }
        }
        None
    }
    /// The next row that is no comment.
    pub fn next_values(&mut self) -> Option<Row<'a>>
        requires room { self.old.line + length self.old.rest.now < 2 ^ 64 }
        ensures rows { (more : List ℕ) → MayFollow self.old.rest.now more → values_before self.old more ≡ with_row result (values_before self.new more) }
        ensures follows { (more : List ℕ) → MayFollow self.old.rest.now more → MayFollow self.new.rest.now more }
        ensures none { IfNone result (self.new.rest.now ≡ []) }
        ensures room { self.new.line + length self.new.rest.now ≤ self.old.line + length self.old.rest.now }
        ensures line { self.old.line ≤ self.new.line }
        ensures shorter { IfSome result (λ _. length self.new.rest.now < length self.old.rest.now) }
        ensures within { IfSome result (λ r. length r.text.now + length self.new.rest.now ≤ length self.old.rest.now) }
    {
        'rows: while let Some(row) = self.next_row() {
            if !is_note(row.text) {
                return Some(row);
            }
        }
        None
    }
}
