//! The lines of a recorded text.

ghost use Rattle.std.specs.Prelude.{◌≡◌, ℕ, ◌+◌, ◌<◌, ◌≤◌, ◌^◌, List, [], length, take, drop, IfSome, IfOk};
ghost use Rattle.nand_geometry.specs.declared.optional.Profile.{Profile as ProfileValue};
ghost use Rattle.trace_text.specs.Reading.{item_of};
ghost use Rattle.trace_text.specs.Recorded.{placed, words, has_no_word, recorded_line, Told, after_line, at_end, told_from, told};
ghost use Rattle.trace_text.specs.RecordedLines.{words_left, told_left, IsFirst, IsTaken, IsEnd};

use crate::line::Fields;
use crate::recorded_item::RecordedItem;
use crate::refusal::{TraceFault, TraceRefusal};
use crate::time::{number, time_text};
use crate::words::Words;
use nand_geometry::Profile;

// An item of these words, in this line.
fn placed(
    profile: Profile,
    line: usize,
    time: Option<u64>,
    words: Words<'_>,
) -> Result<Option<RecordedItem>, TraceFault>
    ensures { result ≡ placed line time (item_of profile (words_left words.entry)) }
{
    let fields = Fields::in_words(words).ok_or(TraceFault::BadShape)?;
    let item = fields.item(profile)?;
    Ok(Some(RecordedItem { line, time, item }))
}

// What the line of this number has, which is given without its line feed.
#[tactic(auto, unfolding(crate::specs::Recorded::recorded_line))]
fn recorded_line(
    profile: Profile,
    line: usize,
    text: &[u8],
) -> Result<Option<RecordedItem>, TraceFault>
    ensures { result ≡ recorded_line profile line text.now }
{
    let words = Words::of(text);
    let mut behind = words;
    let Some(first) = behind.next_word() else {
        return Ok(None);
    };
    match time_text(first) {
        Some(digits) => {
            let time = number(digits).ok_or(TraceFault::BadShape)?;
            placed(profile, line, Some(time), behind)
        }
        None => placed(profile, line, None, words),
    }
}

// Whether a line has no word.
fn is_blank_line(text: &[u8]) -> bool
    ensures { result ≡ has_no_word (words text.now) }
{
    Words::of(text).next_word().is_none()
}

// How many bytes stand in front of the first line feed, or in the whole text.
fn line_len(text: &[u8]) -> usize
    ensures within { result ≤ length text.now }
    ensures ended { result < length text.now → (p : ProfileValue) (line : ℕ) → told_from p line [] text.now
        ≡ after_line line (recorded_line p line (take result text.now)) (told_from p (line + 1) [] (drop (result + 1) text.now)) }
    ensures last { result ≡ length text.now → (p : ProfileValue) (line : ℕ) → told_from p line [] text.now ≡ at_end line (words text.now) }
{
    let mut count = 0;
    'bytes: while count < text.len() && text[count] != b'\n' {
        count += 1;
    }
    count
}

// What is left of a recorded text, and the number of its first line.
#[derive(Clone, Copy)]
pub(crate) struct RecordedLines<'a> {
    profile: Profile,
    line: usize,
    rest: &'a [u8],
}

impl<'a> RecordedLines<'a> {
    // The lines of a text.
    pub(crate) fn of(text: &'a str, profile: Profile) -> RecordedLines<'a>
        ensures told { told_left result ≡ told profile text.entry.now }
        ensures room { result.line + length result.rest.now < 2 ^ 64 }
    {
        RecordedLines {
            profile,
            line: 1,
            rest: text.as_bytes(),
        }
    }

    // Takes the first line, which has so many bytes and a line feed behind it.
    fn take_line(&mut self, count: usize) -> Result<Option<RecordedItem>, TraceRefusal>
        requires ended { count < length self.old.rest.now }
        requires room { self.old.line + length self.old.rest.now < 2 ^ 64 }
        ensures line { (later : List Told) → IsTaken result (after_line self.old.line (recorded_line self.old.profile self.old.line (take count self.old.rest.now)) later) later }
        ensures next { self.new.line ≡ self.old.line + 1 }
        ensures rest { self.new.rest.now ≡ drop (count + 1) self.old.rest.now }
        ensures profile { self.new.profile ≡ self.old.profile }
    {
        let line = self.line;
        let (text, _) = self.rest.split_at(count);
        let (_, rest) = self.rest.split_at(count + 1);
        self.rest = rest;
        self.line += 1;
        match recorded_line(self.profile, line, text) {
            Ok(item) => Ok(item),
            Err(fault) => Err(TraceRefusal::Fault { fault, line }),
        }
    }

    // What is wrong with the last line, which no line feed ends.
    fn end(&self) -> Option<TraceRefusal>
        ensures { IsEnd result (at_end self.now.line (words self.now.rest.now)) }
    {
        if is_blank_line(self.rest) {
            None
        } else {
            Some(TraceRefusal::Fault {
                fault: TraceFault::BadShape,
                line: self.line,
            })
        }
    }

    // The next item; None at the end of the text. After a fault nothing more is to be asked for.
    pub(crate) fn next_item(&mut self) -> Result<Option<RecordedItem>, TraceRefusal>
        requires room { self.old.line + length self.old.rest.now < 2 ^ 64 }
        ensures told { IsFirst result (told_left self.old) (told_left self.new) }
        ensures room { self.new.line + length self.new.rest.now ≤ self.old.line + length self.old.rest.now }
        ensures shorter { IfOk result (λ o. IfSome o (λ _. length self.new.rest.now < length self.old.rest.now)) }
    {
        'lines: loop {
            let count = line_len(self.rest);
            if count == self.rest.len() {
                return match self.end() {
                    Some(refusal) => Err(refusal),
                    None => Ok(None),
                };
            }
            if let Some(item) = self.take_line(count)? {
                return Ok(Some(item));
            }
        }
    }
}
