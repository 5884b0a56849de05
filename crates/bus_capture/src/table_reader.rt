//! A CSV that is read in pieces.
ghost use Rattle.std.specs.Prelude.{◌≡◌, ℕ, ◌+◌, ◌<◌, ◌≤◌, ◌^◌, ◌++◌, true, List, [], length, is_some, None, Ok, IfErr, IfOk, IfSome, IfNone, OnOk};
ghost use Rattle.std.specs.Option.{option_copied};
ghost use Rattle.csv_text.specs.Rows.{MayFollow};
ghost use Rattle.csv_text.specs.Body.{told};
ghost use Rattle.csv_text.specs.Shown.{told_before, told_at, standing_of, table_before, IsOver, HasRoom, bytes_left};
ghost use Rattle.bus_capture.specs.Capturing.{IsRefusalOf};
ghost use Rattle.bus_capture.specs.Inside.{AreInside};
ghost use Rattle.bus_capture.specs.Recorded.{IsRead};
ghost use Rattle.bus_capture.specs.Tracing.{last_of, table_read, table_after, IsTabling, traced, IsTracing};

use crate::dump_reader::{find_sources, find_strobe, join};
use crate::fault::{CaptureFault, CaptureRefusal, copy_of};
use crate::inferring::Stamped;
use crate::reading::Setup;
use crate::tracer::Tracer;
use csv_text::{Body, Standing, Table, whole_lines_len};
use std::alloc::Allocator;
use vcd_text::Event;

// The next of what rows tell.
#[inline(always)]
fn next_of<'a>(body: &mut Body<'a>) -> Result<Option<Event<'a>>, CaptureRefusal>
    requires room { HasRoom body.old }
    ensures told { (more : List ℕ) → MayFollow body.old.rows.rest.now more → IsRead result (told_before body.old more) (told_before body.new more) }
    ensures follows { IfOk result (λ _. (more : List ℕ) → MayFollow body.old.rows.rest.now more → MayFollow body.new.rows.rest.now more) }
    ensures over { IfOk result (λ o. IfNone o (IsOver body.new)) }
    ensures names { body.new.names ≡ body.old.names }
    ensures room { IfOk result (λ _. HasRoom body.new) }
    ensures shorter { IfOk result (λ o. IfSome o (λ _. bytes_left body.new < bytes_left body.old)) }
{
    match body.next_event() {
        Ok(event) => Ok(event),
        Err(fault) => Err(CaptureRefusal::Fault(CaptureFault::File(fault))),
    }
}

// Goes on by what rows tell.
fn take_rows<A: Allocator + Clone>(
    tracer: &mut Tracer<A>,
    body: &mut Body<'_>,
) -> Result<(), CaptureRefusal>
    requires tracing { IsTracing tracer.old }
    requires room { HasRoom body.old }
    ensures ok { OnOk result ((stamped : List Stamped) (more : List ℕ) → MayFollow body.old.rows.rest.now more
        → traced tracer.old stamped (told_before body.old more) ≡ traced tracer.new stamped (told_before body.new more)) }
    ensures over { OnOk result (IsOver body.new) }
    ensures names { OnOk result (body.new.names ≡ body.old.names) }
    ensures room { OnOk result (HasRoom body.new) }
    ensures tracing { OnOk result (IsTracing tracer.new) }
    ensures err { IfErr result (λ e. (stamped : List Stamped) (more : List ℕ) → MayFollow body.old.rows.rest.now more → IsRefusalOf e (traced tracer.old stamped (told_before body.old more))) }
{
    'events: while let Some(event) = next_of(body)? {
        tracer.take_event(event)?;
    }
    Ok(())
}

// What is kept of the last row, if there was one.
fn last_of(has_last: bool, last: &[u8]) -> Option<&[u8]>
    ensures { option_copied result ≡ last_of has_last last.entry.now }
{
    if has_last { Some(last) } else { None }
}

// What is to be kept of it.
fn text_of(last: Option<&[u8]>) -> &[u8]
    ensures { last_of (is_some last.entry) result.now ≡ option_copied last.entry }
{
    match last {
        Some(text) => text,
        None => &[],
    }
}

/// A CSV whose row of names is read: what is told of the bus so far, that row, where reading is in the rows below, what is needed of the last one, and the text
/// that isn't read yet.
#[derive(Drop)]
pub(crate) struct TableReader<A: Allocator> {
    alloc: A,
    names: Vec<u8, A>,
    standing: Standing,
    has_last: bool,
    last: Vec<u8, A>,
    left: Vec<u8, A>,
    // How much was left when whole lines were last looked for.
    tried: usize,
    pub(crate) tracer: Tracer<A>,
}

impl<A: Allocator + Clone> TableReader<A> {
    /// How many bytes are kept of what isn't whole yet.
    pub(crate) fn kept(&self) -> usize
        ensures { result ≡ length self.now.left.items }
    {
        self.left.len()
    }

    /// The rows below a row of names, with this text after them.
    pub(crate) fn begun(
        alloc: A,
        setup: &Setup<'_>,
        table: Table<'_, A>,
        tail: &[u8],
    ) -> Result<TableReader<A>, CaptureRefusal>
        requires few { setup.now.targets ≤ 4 }
        requires told { (more : List ℕ) → told (table_before table more) ≡ told_at (standing_of table.body) table.body.names.now None (table.body.rows.rest.now ++ more) }
        requires first { 1 ≤ table.body.rows.line }
        ensures ok { IfOk result (λ t. (stamped : List Stamped) (rest : List ℕ) → table_read setup.now stamped (table_before table.entry (tail.now ++ rest)) ≡ table_after t stamped rest) }
        ensures tabling { IfOk result (λ t. IsTabling t) }
        ensures err { IfErr result (λ e. (stamped : List Stamped) (more : List ℕ) → IsRefusalOf e (table_read setup.now stamped (table_before table.entry more))) }
    {
        let sources = find_sources(copy_of(&alloc)?, setup, table.variables.as_slice())?;
        let strobe = find_strobe(table.variables.as_slice());
        let tracer = Tracer::begun(copy_of(&alloc)?, setup, sources, strobe)?;
        let names = join(copy_of(&alloc)?, table.body.names(), &[])?;
        let left = join(copy_of(&alloc)?, table.body.rest(), tail)?;
        Ok(TableReader {
            names,
            standing: table.body.standing(),
            has_last: false,
            last: Vec::new(copy_of(&alloc)?),
            left,
            tried: 0,
            alloc,
            tracer,
        })
    }

    // The lines and the rows of so many bytes more can be counted.
    fn has_room(&self, count: usize) -> bool
        ensures { result ≡ true → (self.now.standing.line + count < 2 ^ 64) × (self.now.standing.count + count < 2 ^ 64) }
    {
        self.standing.line().checked_add(count).is_some()
            && self.standing.count().checked_add(count as u64).is_some()
    }

    // Goes on by the whole lines of the text that isn't read yet.
    fn take_lines(&mut self) -> Result<(), CaptureRefusal>
        requires tabling { IsTabling self.old }
        ensures ok { OnOk result ((stamped : List Stamped) (rest : List ℕ) → table_after self.old stamped rest ≡ table_after self.new stamped rest) }
        ensures tabling { OnOk result (IsTabling self.new) }
        ensures err { IfErr result (λ e. (stamped : List Stamped) (rest : List ℕ) → IsRefusalOf e (table_after self.old stamped rest)) }
    {
        let copy = copy_of(&self.alloc)?;
        let other = copy_of(&self.alloc)?;
        let count = whole_lines_len(self.left.as_slice());
        if !self.has_room(count) {
            return Err(CaptureRefusal::OutOfMemory);
        }
        let (whole, tail) = self.left.as_slice().split_at(count);
        let mut body = self.standing.with(
            self.names.as_slice(),
            last_of(self.has_last, self.last.as_slice()),
            whole,
        );
        match take_rows(&mut self.tracer, &mut body) {
            Ok(()) => {
                let last = join(copy, text_of(body.last()), &[])?;
                let left = join(other, tail, &[])?;
                self.has_last = body.last().is_some();
                self.standing = body.standing();
                self.last = last;
                self.left = left;
                Ok(())
            }
            Err(refusal) => Err(refusal),
        }
    }

    // Goes on by whole lines once there is twice the text that was left when they were last looked for, so that a long row isn't looked through for each piece.
    fn try_lines(&mut self) -> Result<(), CaptureRefusal>
        requires tabling { IsTabling self.old }
        ensures ok { OnOk result ((stamped : List Stamped) (rest : List ℕ) → table_after self.old stamped rest ≡ table_after self.new stamped rest) }
        ensures tabling { OnOk result (IsTabling self.new) }
        ensures err { IfErr result (λ e. (stamped : List Stamped) (rest : List ℕ) → IsRefusalOf e (table_after self.old stamped rest)) }
    {
        if self.left.len() / 2 < self.tried {
            return Ok(());
        }
        match self.take_lines() {
            Ok(()) => {
                self.tried = self.left.len();
                Ok(())
            }
            Err(refusal) => Err(refusal),
        }
    }

    /// Goes on by a piece of text, and adds the items that are known then.
    pub(crate) fn take<B: Allocator>(
        &mut self,
        piece: &[u8],
        stamped: &mut Vec<Stamped, B>,
    ) -> Result<(), CaptureRefusal>
        requires tabling { IsTabling self.old }
        requires inside { AreInside stamped.old.items }
        ensures ok { OnOk result ((rest : List ℕ) → table_after self.old stamped.old.items (piece.now ++ rest) ≡ table_after self.new stamped.new.items rest) }
        ensures tabling { OnOk result (IsTabling self.new) }
        ensures inside { OnOk result (AreInside stamped.new.items) }
        ensures err { IfErr result (λ e. (rest : List ℕ) → IsRefusalOf e (table_after self.old stamped.old.items (piece.now ++ rest))) }
    {
        if self.left.extend_from_slice(piece).is_err() {
            return Err(CaptureRefusal::OutOfMemory);
        }
        self.try_lines()?;
        self.tracer.hand_on(stamped)
    }

    /// Adds the items that are left where the text ends.
    pub(crate) fn finish<B: Allocator>(
        &mut self,
        stamped: &mut Vec<Stamped, B>,
    ) -> Result<(), CaptureRefusal>
        requires tabling { IsTabling self.old }
        requires inside { AreInside stamped.old.items }
        ensures ok { OnOk result (table_after self.old stamped.old.items [] ≡ Ok stamped.new.items) }
        ensures inside { OnOk result (AreInside stamped.new.items) }
        ensures err { IfErr result (λ e. IsRefusalOf e (table_after self.old stamped.old.items [])) }
    {
        if !self.has_room(self.left.len()) {
            return Err(CaptureRefusal::OutOfMemory);
        }
        let mut body = self.standing.with(
            self.names.as_slice(),
            last_of(self.has_last, self.last.as_slice()),
            self.left.as_slice(),
        );
        match take_rows(&mut self.tracer, &mut body) {
            Ok(()) => self.tracer.finish(stamped),
            Err(refusal) => Err(refusal),
        }
    }
}
