//! The changes of a dump.
ghost use Rattle.std.specs.Prelude.{◌≡◌, ℕ, ◌+◌, ◌<◌, ◌≤◌, ◌^◌, ◌==◌, List, length, Ok, Err, IfOk, IfSome, IfNone};
ghost use Rattle.vcd_text.specs.Tokens.{is_known, level_of};
ghost use Rattle.vcd_text.specs.Words.{words_left, GoesOn, IsCut};
ghost use Rattle.vcd_text.specs.Body.{fits, change, new_time, vector, is_mark, mark, begins_vector, begins_other, other_word, any_word, comment, said, ended_by, time_after, Anything};
ghost use Rattle.vcd_text.specs.Shown.{IsTelling, IsSaid, IsCoded, IsProgress, IsNext, IsOver, IsEnd, Moves, shown_event, shown_said, place_of, told_left, standing_of};

use crate::fault::{DumpFault, LineFault};
use crate::scalar::Scalar;
use crate::timed::Timed;
use crate::tokens::{are_bits, code_of, decimal, is_bit, is_named};
use crate::widths::Widths;
use crate::words::Words;
use std::alloc::Allocator;

/// What a dump tells.
#[derive(Clone, Copy, Debug)]
pub enum Event<'a> {
    /// The time is this from here on.
    Time(u64),
    /// The code of this number has these bits, each 0, 1, x or z, the highest first. Bits that aren't there are 0, or x or z where the first is.
    Change { code: u64, bits: &'a [u8] },
}

// What the next word is.
#[derive(Clone, Copy, Debug)]
pub(crate) enum Next {
    Anything,
    OtherCode,
    Comment,
}

// What a word says.
#[derive(Clone, Copy)]
pub(crate) enum Said<'a> {
    // Nothing, and the next word is this.
    Nothing(Next),
    // This, and anything may follow.
    Told(Event<'a>),
    // The bits of a vector, whose code is the next word.
    Bits(&'a [u8]),
}

// What came of reading on.
#[derive(Clone, Copy)]
pub(crate) enum Progress<'a> {
    Told(Event<'a>),
    // Nothing is told yet.
    Quiet,
    // No whole change is left.
    Over,
}

// The bits fit the width that was declared.
#[inline(always)]
fn fits(width: usize, bits: &[u8]) -> bool
    ensures { result ≡ fits width bits.now }
{
    width == 0 || bits.len() <= width
}

// A change of a code.
#[inline(always)]
fn change<'a, A: Allocator>(
    widths: &Widths<A>,
    bits: &'a [u8],
    word: &[u8],
) -> Result<Event<'a>, DumpFault>
    ensures { IsTelling result (change widths.now bits.entry.now word.now) }
{
    let code = code_of(word).ok_or(DumpFault::NotDeclared)?;
    let width = widths.get(code).ok_or(DumpFault::NotDeclared)?;
    if fits(width, bits) {
        Ok(Event::Change { code, bits })
    } else {
        Err(DumpFault::VectorTooLong)
    }
}

// The same as what a word says.
#[inline(always)]
fn say_change<'a, A: Allocator>(
    widths: &Widths<A>,
    bits: &'a [u8],
    word: &[u8],
) -> Result<Said<'a>, DumpFault>
    ensures { IsSaid result (change widths.now bits.entry.now word.now) }
{
    match change(widths, bits, word) {
        Ok(event) => Ok(Said::Told(event)),
        Err(fault) => Err(fault),
    }
}

fn new_time<'a>(time: u64, word: &[u8]) -> Result<Said<'a>, DumpFault>
    ensures { IsSaid result (new_time time word.now) }
{
    let later = decimal(word).ok_or(DumpFault::BadTime)?;
    if time <= later {
        Ok(Said::Told(Event::Time(later)))
    } else {
        Err(DumpFault::TimeGoesBack)
    }
}

fn vector(bits: &[u8]) -> Result<Said<'_>, DumpFault>
    ensures { IsSaid result (vector bits.entry.now) }
{
    if !bits.is_empty() && are_bits(bits) {
        Ok(Said::Bits(bits))
    } else {
        Err(DumpFault::BadVector)
    }
}

// The marks of a dump, of which nothing is told.
fn is_mark(word: &[u8]) -> bool
    ensures { result ≡ is_mark word.now }
{
    is_named(word, "$dumpvars")
        || is_named(word, "$end")
        || is_named(word, "$dumpall")
        || is_named(word, "$dumpon")
        || is_named(word, "$dumpoff")
}

fn mark<'a>(word: &[u8]) -> Result<Said<'a>, DumpFault>
    ensures { IsSaid result (mark word.now) }
{
    if is_mark(word) {
        Ok(Said::Nothing(Next::Anything))
    } else if is_named(word, "$comment") {
        Ok(Said::Nothing(Next::Comment))
    } else {
        Err(DumpFault::UnknownChange)
    }
}

fn begins_vector(byte: u8) -> bool
    ensures { result ≡ begins_vector byte }
{
    byte == b'b' || byte == b'B'
}

fn begins_other(byte: u8) -> bool
    ensures { result ≡ begins_other byte }
{
    byte == b'r' || byte == b'R' || byte == b's' || byte == b'S'
}

// A word that is neither a time nor a bit in front of its code: the bits of a vector, something without bits, or a mark.
fn other_word(word: &[u8]) -> Result<Said<'_>, DumpFault>
    ensures { IsSaid result (other_word word.entry.now) }
{
    let [byte, rest @ ..] = word else {
        return Err(DumpFault::UnknownChange);
    };
    if begins_vector(*byte) {
        return vector(rest);
    }
    if begins_other(*byte) {
        return Ok(Said::Nothing(Next::OtherCode));
    }
    mark(word)
}

// A word that may be anything: a time, a bit in front of its code, or something else.
#[inline(always)]
fn any_word<'a, A: Allocator>(
    widths: &Widths<A>,
    time: u64,
    word: &'a [u8],
) -> Result<Said<'a>, DumpFault>
    ensures { IsSaid result (any_word widths.now time word.entry.now) }
{
    if word.is_empty() {
        return Err(DumpFault::UnknownChange);
    }
    let (first, rest) = word.split_at(1);
    let byte = first[0];
    if byte == b'#' {
        return new_time(time, rest);
    }
    if is_bit(byte) {
        return say_change(widths, first, rest);
    }
    other_word(word)
}

fn comment<'a>(word: &[u8]) -> Said<'a>
    ensures { shown_said result ≡ comment word.now }
{
    if is_named(word, "$end") {
        Said::Nothing(Next::Anything)
    } else {
        Said::Nothing(Next::Comment)
    }
}

/// What is left of the changes of a dump, or of a piece of them.
#[derive(Clone, Copy, Debug)]
pub struct Body<'a> {
    pub(crate) words: Words<'a>,
    pub(crate) time: u64,
    pub(crate) next: Next,
    // The line of the last word.
    pub(crate) line: usize,
}

/// Where reading of the changes of a dump is between two pieces of its text.
#[derive(Clone, Copy, Debug)]
pub struct Standing {
    pub(crate) time: u64,
    pub(crate) next: Next,
    // The line of the last word, and that of the byte that comes next.
    pub(crate) line: usize,
    pub(crate) next_line: usize,
}

impl Standing {
    /// Goes on with this text.
    pub fn with<'a>(self, text: &'a [u8]) -> Body<'a>
        ensures standing { standing_of result ≡ self }
        ensures rest { result.words.rest.now ≡ text.entry.now }
    {
        Body {
            words: Words {
                line: self.next_line,
                rest: text,
            },
            time: self.time,
            next: self.next,
            line: self.line,
        }
    }

    /// The line of the byte that comes next.
    pub fn next_line(self) -> usize
        ensures { result ≡ self.next_line }
    {
        self.next_line
    }
}

impl<'a> Body<'a> {
    /// Where reading is.
    pub fn standing(self) -> Standing
        ensures { result ≡ standing_of self.entry }
    {
        Standing {
            time: self.time,
            next: self.next,
            line: self.line,
            next_line: self.words.line,
        }
    }

    /// The text that isn't read yet.
    pub fn rest(self) -> &'a [u8]
        ensures { result.now ≡ self.entry.words.rest.now }
    {
        self.words.rest
    }

    // What a word says.
    #[inline(always)]
    fn say<A: Allocator>(self, widths: &Widths<A>, word: &'a [u8]) -> Result<Said<'a>, DumpFault>
        ensures { IsSaid result (said widths.now (place_of self.entry) word.entry.now) }
    {
        match self.next {
            Next::Anything => any_word(widths, self.time, word),
            Next::OtherCode => Ok(Said::Nothing(Next::Anything)),
            Next::Comment => Ok(comment(word)),
        }
    }

    /// What is wrong at the end of the file, where no whole change is left.
    pub fn end<A: Allocator>(self, widths: &Widths<A>) -> Option<LineFault>
        requires room { self.words.line + length self.words.rest.now < 2 ^ 64 }
        requires over { IsOver widths.now self }
        ensures { IsEnd result (told_left widths.now self.entry) }
    {
        let mut words = self.words;
        if let Some(word) = words.next_word() {
            return Some(LineFault {
                fault: DumpFault::NoCode,
                line: word.line,
            });
        }
        let fault = match self.next {
            Next::Anything => return None,
            Next::OtherCode => DumpFault::NoCode,
            Next::Comment => DumpFault::SectionNotEnded,
        };
        Some(LineFault {
            fault,
            line: self.line,
        })
    }

    // Tells something, after a word of this line.
    #[inline(always)]
    fn tell(&mut self, event: Event<'a>, line: usize)
        ensures place { place_of self.new ≡ record { time = time_after self.old.time (shown_event event.entry); next = Anything } }
        ensures line { self.new.line ≡ line }
        ensures words { self.new.words ≡ self.old.words }
    {
        self.next = Next::Anything;
        self.line = line;
        if let Event::Time(time) = event {
            self.time = time;
        }
    }

    // Reads the code of a vector with these bits, if it is there.
    #[inline(always)]
    fn read_code<A: Allocator>(
        &mut self,
        widths: &Widths<A>,
        words: Words<'a>,
        bits: &'a [u8],
    ) -> Result<Progress<'a>, LineFault>
        requires room { words.line + length words.rest.now < 2 ^ 64 }
        ensures coded { IsCoded widths.now self.old words.entry bits.entry.now result self.new }
    {
        let mut left = words;
        let Some(word) = left.next_word() else {
            return Ok(Progress::Over);
        };
        match change(widths, bits, word.text) {
            Ok(event) => {
                self.words = left;
                self.tell(event, word.line);
                Ok(Progress::Told(event))
            }
            Err(fault) => Err(LineFault {
                fault,
                line: word.line,
            }),
        }
    }

    // Reads the next line if it is a change of one bit whose code has one character.
    #[inline(always)]
    fn read_scalar<A: Allocator>(&mut self, widths: &Widths<A>) -> Option<Event<'a>>
        requires room { self.old.words.line + length self.old.words.rest.now < 2 ^ 64 }
        requires anything { self.old.next ≡ Next.Anything }
        ensures told { IfSome result (λ e. IsProgress widths.now self.old (Ok (Progress.Told e)) self.new) }
        ensures moves { IfSome result (λ e. Moves self.old (Ok (Progress.Told e)) self.new) }
        ensures none { IfNone result (self.new ≡ self.old) }
    {
        let scalar = Scalar::in_line(self.words.rest)?;
        let code = u64::from(scalar.code);
        let _ = widths.get(code)?;
        self.words.line += 1;
        self.words.rest = scalar.rest;
        self.line = self.words.line;
        Some(Event::Change {
            code,
            bits: scalar.bits,
        })
    }

    // Reads the next line if it is a time.
    #[inline(always)]
    fn read_time(&mut self) -> Option<Event<'a>>
        requires room { self.old.words.line + length self.old.words.rest.now < 2 ^ 64 }
        requires anything { self.old.next ≡ Next.Anything }
        ensures told { IfSome result (λ e. (widths : List (ℕ × ℕ)) → IsProgress widths self.old (Ok (Progress.Told e)) self.new) }
        ensures moves { IfSome result (λ e. Moves self.old (Ok (Progress.Told e)) self.new) }
        ensures none { IfNone result (self.new ≡ self.old) }
    {
        let timed = Timed::in_line(self.words.rest)?;
        if timed.time < self.time {
            return None;
        }
        self.words.line += 1;
        self.words.rest = timed.rest;
        self.line = self.words.line;
        self.time = timed.time;
        Some(Event::Time(timed.time))
    }

    // Reads the next line if it is a time or such a change.
    #[inline(always)]
    fn read_line<A: Allocator>(&mut self, widths: &Widths<A>) -> Option<Event<'a>>
        requires room { self.old.words.line + length self.old.words.rest.now < 2 ^ 64 }
        ensures told { IfSome result (λ e. IsProgress widths.now self.old (Ok (Progress.Told e)) self.new) }
        ensures moves { IfSome result (λ e. Moves self.old (Ok (Progress.Told e)) self.new) }
        ensures none { IfNone result (self.new ≡ self.old) }
    {
        if !matches!(self.next, Next::Anything) {
            return None;
        }
        match self.read_scalar(widths) {
            Some(event) => Some(event),
            None => self.read_time(),
        }
    }

    // Reads a word, and where it has the bits of a vector its code too, if that is there.
    #[inline(always)]
    #[tactic(auto, using(crate::proofs::Going::coded_moves))]
    fn read_on<A: Allocator>(&mut self, widths: &Widths<A>) -> Result<Progress<'a>, LineFault>
        requires room { self.old.words.line + length self.old.words.rest.now < 2 ^ 64 }
        ensures told { IsProgress widths.now self.old result self.new }
        ensures moves { Moves self.old result self.new }
    {
        let mut words = self.words;
        let Some(word) = words.next_word() else {
            self.words = words;
            return Ok(Progress::Over);
        };
        match self.say(widths, word.text) {
            Ok(Said::Nothing(next)) => {
                self.words = words;
                self.next = next;
                self.line = word.line;
                Ok(Progress::Quiet)
            }
            Ok(Said::Told(event)) => {
                self.words = words;
                self.tell(event, word.line);
                Ok(Progress::Told(event))
            }
            Ok(Said::Bits(bits)) => self.read_code(widths, words, bits),
            Err(fault) => Err(LineFault {
                fault,
                line: word.line,
            }),
        }
    }

    // The same as [`Body::next_in_piece`], word by word.
    #[tactic(auto, using(crate::proofs::Going::progress_on, crate::proofs::Going::goes_on, crate::proofs::Going::shorter_on))]
    fn next_by_words<A: Allocator>(
        &mut self,
        widths: &Widths<A>,
    ) -> Result<Option<Event<'a>>, LineFault>
        requires room { self.old.words.line + length self.old.words.rest.now < 2 ^ 64 }
        ensures told { IsNext widths.now self.old result self.new }
        ensures goes_on { GoesOn self.old.words self.new.words }
        ensures shorter { IfOk result (λ o. IfSome o (λ _. length self.new.words.rest.now < length self.old.words.rest.now)) }
    {
        let mut progress = Progress::Quiet;
        'words: while matches!(progress, Progress::Quiet) {
            progress = self.read_on(widths)?;
        }
        match progress {
            Progress::Told(event) => Ok(Some(event)),
            Progress::Quiet | Progress::Over => Ok(None),
        }
    }

    /// The next of what a piece of a dump tells, with the widths of its header; None where no whole change is left in it. What is left then
    /// ([`Body::rest`]) is to stand in front of the next piece. A piece ends in white space, or it is the last. After a fault nothing more is to be asked for.
    #[inline(always)]
    pub fn next_in_piece<A: Allocator>(
        &mut self,
        widths: &Widths<A>,
    ) -> Result<Option<Event<'a>>, LineFault>
        requires room { self.old.words.line + length self.old.words.rest.now < 2 ^ 64 }
        ensures told { IsNext widths.now self.old result self.new }
        ensures goes_on { GoesOn self.old.words self.new.words }
        ensures shorter { IfOk result (λ o. IfSome o (λ _. length self.new.words.rest.now < length self.old.words.rest.now)) }
    {
        match self.read_line(widths) {
            Some(event) => Ok(Some(event)),
            None => self.next_by_words(widths),
        }
    }
}
