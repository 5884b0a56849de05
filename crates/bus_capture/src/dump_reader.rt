//! A dump that is read in pieces.
ghost use Rattle.std.specs.Prelude.{◌≡◌, ◌+◌, ◌<◌, ◌≤◌, ◌^◌, ◌++◌, true, List, ℕ, [], length, map, Ok, IfOk, IfErr, IfSome, OnOk};
ghost use Rattle.vcd_text.specs.Words.{Word, words_from, lines_from, GoesOn, IsCut};
ghost use Rattle.vcd_text.specs.Sections.{shown_variables};
ghost use Rattle.vcd_text.specs.Dumps.{read_of, beginning};
ghost use Rattle.vcd_text.specs.Shown.{told_before, place_of, IsOver, IsNext};
ghost use Rattle.bus_signals.specs.Roles.{carriers_of, sources_of};
ghost use Rattle.bus_capture.specs.Capturing.{in_roles, IsRefusalOf};
ghost use Rattle.bus_capture.specs.Inside.{AreInside};
ghost use Rattle.bus_capture.specs.Recorded.{IsNextOf};
ghost use Rattle.bus_capture.specs.Tracing.{traced, read_after, dump_after, IsTracing};

use crate::fault::{CaptureFault, CaptureRefusal, copy_of};
use crate::inferring::Stamped;
use crate::reading::Setup;
use crate::tracer::Tracer;
use bus_signals::{RoleRefusal, Source, carriers_of, is_data_strobe, sources_of};
use std::alloc::Allocator;
use std::collections::BTreeMap;
use vcd_text::{Body, Dump, Event, Standing, Variable, Widths, whole_len};

// The next of what a piece tells.
#[inline(always)]
fn next_of<'a, A: Allocator>(
    body: &mut Body<'a>,
    widths: &Widths<A>,
) -> Result<Option<Event<'a>>, CaptureRefusal>
    requires room { body.old.words.line + length body.old.words.rest.now < 2 ^ 64 }
    ensures told { IsNextOf widths.now body.old result body.new }
    ensures goes_on { GoesOn body.old.words body.new.words }
    ensures shorter { IfOk result (λ o. IfSome o (λ _. length body.new.words.rest.now < length body.old.words.rest.now)) }
{
    match body.next_in_piece(widths) {
        Ok(event) => Ok(event),
        Err(fault) => Err(CaptureRefusal::Fault(CaptureFault::File(fault))),
    }
}

// Goes on by what a piece tells.
fn take_events<A: Allocator + Clone>(
    tracer: &mut Tracer<A>,
    widths: &Widths<A>,
    body: &mut Body<'_>,
) -> Result<(), CaptureRefusal>
    requires tracing { IsTracing tracer.old }
    requires room { body.old.words.line + length body.old.words.rest.now < 2 ^ 64 }
    ensures ok { OnOk result ((stamped : List Stamped) (more : List Word) → traced tracer.old stamped (told_before widths.now body.old more)
        ≡ traced tracer.new stamped (told_before widths.now body.new more)) }
    ensures tracing { OnOk result (IsTracing tracer.new) }
    ensures over { OnOk result (IsOver widths.now body.new) }
    ensures goes_on { OnOk result (GoesOn body.old.words body.new.words) }
    ensures err { IfErr result (λ e. (stamped : List Stamped) (more : List Word) → IsRefusalOf e (traced tracer.old stamped (told_before widths.now body.old more))) }
{
    'events: while let Some(event) = next_of(body, widths)? {
        tracer.take_event(event)?;
    }
    Ok(())
}

/// Where the lines of a channel of so many targets are among these signals.
pub(crate) fn find_sources<A: Allocator + Clone>(
    alloc: A,
    setup: &Setup<'_>,
    variables: &[Variable<'_>],
) -> Result<Vec<Source, A>, CaptureRefusal>
    ensures ok { IfOk result (λ sources. in_roles (sources_of setup.now.targets (carriers_of setup.now.mappings.now (shown_variables variables.now))) ≡ Ok sources.items) }
    ensures err { IfErr result (λ e. IsRefusalOf e (in_roles (sources_of setup.now.targets (carriers_of setup.now.mappings.now (shown_variables variables.now))))) }
{
    let Ok(copy) = alloc.clone() else {
        return Err(CaptureRefusal::OutOfMemory);
    };
    let Ok(carriers) = carriers_of(copy, setup.mappings, variables) else {
        return Err(CaptureRefusal::OutOfMemory);
    };
    match sources_of(alloc, setup.targets, carriers.as_slice()) {
        Ok(sources) => Ok(sources),
        Err(RoleRefusal::Fault(fault)) => Err(CaptureRefusal::Fault(CaptureFault::Role(fault))),
        Err(RoleRefusal::OutOfMemory) => Err(CaptureRefusal::OutOfMemory),
    }
}

/// The code of the first data strobe among these signals, or one that no signal has.
pub(crate) fn find_strobe(variables: &[Variable<'_>]) -> u64 {
    for variable in variables {
        if is_data_strobe(variable.name) {
            return variable.code;
        }
    }
    u64::MAX
}

/// One text after the other.
pub(crate) fn join<A: Allocator>(
    alloc: A,
    first: &[u8],
    second: &[u8],
) -> Result<Vec<u8, A>, CaptureRefusal>
    ensures ok { IfOk result (λ v. v.items ≡ first.now ++ second.now) }
    ensures err { IfErr result (λ e. e ≡ CaptureRefusal.OutOfMemory) }
{
    let mut text = Vec::new(alloc);
    if text.extend_from_slice(first).is_err() || text.extend_from_slice(second).is_err() {
        return Err(CaptureRefusal::OutOfMemory);
    }
    Ok(text)
}

// The widths of a header, made for looking them up.
fn widths_of<A: Allocator>(
    alloc: A,
    all: BTreeMap<u64, usize, A>,
) -> Result<Widths<A>, CaptureRefusal>
    ensures ok { IfOk result (λ w. w ≡ all.entries) }
    ensures err { IfErr result (λ e. e ≡ CaptureRefusal.OutOfMemory) }
{
    match Widths::of(alloc, all) {
        Ok(widths) => Ok(widths),
        Err(_) => Err(CaptureRefusal::OutOfMemory),
    }
}

/// A dump whose header is read: what is told of the bus so far, where reading is in its body, and the text that isn't read yet.
#[derive(Drop)]
pub(crate) struct DumpReader<A: Allocator> {
    alloc: A,
    widths: Widths<A>,
    standing: Standing,
    left: Vec<u8, A>,
    // How much was left when whole words were last looked for.
    tried: usize,
    pub(crate) tracer: Tracer<A>,
}

impl<A: Allocator + Clone> DumpReader<A> {
    /// How many bytes are kept of what isn't whole yet.
    pub(crate) fn kept(&self) -> usize
        ensures { result ≡ length self.now.left.items }
    {
        self.left.len()
    }

    /// The body of a dump, with this text after it.
    pub(crate) fn begun(
        alloc: A,
        setup: &Setup<'_>,
        dump: Dump<'_, A>,
        tail: &[u8],
    ) -> Result<DumpReader<A>, CaptureRefusal>
        requires few { setup.now.targets ≤ 4 }
        requires begins { place_of dump.body ≡ beginning }
        ensures ok { IfOk result (λ d. IsCut dump.entry.body.words.rest.now → (stamped : List Stamped) (rest : List ℕ) → read_after setup.now stamped (read_of dump.entry)
            (words_from (lines_from dump.entry.body.words.line dump.entry.body.words.rest.now) [] (tail.now ++ rest)) ≡ dump_after d stamped rest) }
        ensures last { IfOk result (λ d. tail.now ≡ [] → (stamped : List Stamped) → read_after setup.now stamped (read_of dump.entry) [] ≡ dump_after d stamped []) }
        ensures tracing { IfOk result (λ d. IsTracing d.tracer) }
        ensures err { IfErr result (λ e. (stamped : List Stamped) (more : List Word) → IsRefusalOf e (read_after setup.now stamped (read_of dump.entry) more)) }
    {
        let Dump { header, body } = dump;
        let sources = find_sources(copy_of(&alloc)?, setup, header.variables.as_slice())?;
        let strobe = find_strobe(header.variables.as_slice());
        let tracer = Tracer::begun(copy_of(&alloc)?, setup, sources, strobe)?;
        let left = join(copy_of(&alloc)?, body.rest(), tail)?;
        let widths = widths_of(copy_of(&alloc)?, header.widths)?;
        Ok(DumpReader {
            alloc,
            widths,
            standing: body.standing(),
            left,
            tried: 0,
            tracer,
        })
    }

    // The lines of so many bytes more can be counted.
    fn has_room(&self, count: usize) -> bool
        ensures { result ≡ true → self.now.standing.next_line + count < 2 ^ 64 }
    {
        self.standing.next_line().checked_add(count).is_some()
    }

    // Goes on by the words of the text that isn't read yet which are whole.
    fn take_whole(&mut self) -> Result<(), CaptureRefusal>
        requires tracing { IsTracing self.old.tracer }
        ensures ok { OnOk result ((stamped : List Stamped) (rest : List ℕ) → dump_after self.old stamped rest ≡ dump_after self.new stamped rest) }
        ensures tracing { OnOk result (IsTracing self.new.tracer) }
        ensures err { IfErr result (λ e. (stamped : List Stamped) (rest : List ℕ) → IsRefusalOf e (dump_after self.old stamped rest)) }
    {
        let Ok(copy) = self.alloc.clone() else {
            return Err(CaptureRefusal::OutOfMemory);
        };
        let count = whole_len(self.left.as_slice());
        if !self.has_room(count) {
            return Err(CaptureRefusal::OutOfMemory);
        }
        let (whole, tail) = self.left.as_slice().split_at(count);
        let mut body = self.standing.with(whole);
        match take_events(&mut self.tracer, &self.widths, &mut body) {
            Ok(()) => {
                let left = join(copy, body.rest(), tail)?;
                self.standing = body.standing();
                self.left = left;
                Ok(())
            }
            Err(refusal) => Err(refusal),
        }
    }

    // Goes on by whole words once there is twice the text that was left when they were last looked for, so that a long word isn't looked through for each piece.
    fn try_whole(&mut self) -> Result<(), CaptureRefusal>
        requires tracing { IsTracing self.old.tracer }
        ensures ok { OnOk result ((stamped : List Stamped) (rest : List ℕ) → dump_after self.old stamped rest ≡ dump_after self.new stamped rest) }
        ensures tracing { OnOk result (IsTracing self.new.tracer) }
        ensures err { IfErr result (λ e. (stamped : List Stamped) (rest : List ℕ) → IsRefusalOf e (dump_after self.old stamped rest)) }
    {
        if self.left.len() / 2 < self.tried {
            return Ok(());
        }
        match self.take_whole() {
            Ok(()) => {
                self.tried = self.left.len();
                Ok(())
            }
            Err(refusal) => Err(refusal),
        }
    }

    /// Goes on by a piece of text, and adds the items that are known then.
    pub(crate) fn take<B: Allocator>(
        &mut self,
        piece: &[u8],
        stamped: &mut Vec<Stamped, B>,
    ) -> Result<(), CaptureRefusal>
        requires tracing { IsTracing self.old.tracer }
        requires inside { AreInside stamped.old.items }
        ensures ok { OnOk result ((rest : List ℕ) → dump_after self.old stamped.old.items (piece.now ++ rest) ≡ dump_after self.new stamped.new.items rest) }
        ensures tracing { OnOk result (IsTracing self.new.tracer) }
        ensures inside { OnOk result (AreInside stamped.new.items) }
        ensures err { IfErr result (λ e. (rest : List ℕ) → IsRefusalOf e (dump_after self.old stamped.old.items (piece.now ++ rest))) }
    {
        if self.left.extend_from_slice(piece).is_err() {
            return Err(CaptureRefusal::OutOfMemory);
        }
        self.try_whole()?;
        self.tracer.hand_on(stamped)
    }

    /// Adds the items that are left where the text ends.
    pub(crate) fn finish<B: Allocator>(
        &mut self,
        stamped: &mut Vec<Stamped, B>,
    ) -> Result<(), CaptureRefusal>
        requires tracing { IsTracing self.old.tracer }
        requires inside { AreInside stamped.old.items }
        ensures ok { OnOk result (dump_after self.old stamped.old.items [] ≡ Ok stamped.new.items) }
        ensures inside { OnOk result (AreInside stamped.new.items) }
        ensures err { IfErr result (λ e. IsRefusalOf e (dump_after self.old stamped.old.items [])) }
    {
        if !self.has_room(self.left.len()) {
            return Err(CaptureRefusal::OutOfMemory);
        }
        let mut body = self.standing.with(self.left.as_slice());
        match take_events(&mut self.tracer, &self.widths, &mut body) {
            Ok(()) => match body.end(&self.widths) {
                None => self.tracer.finish(stamped),
                Some(fault) => Err(CaptureRefusal::Fault(CaptureFault::File(fault))),
            },
            Err(refusal) => Err(refusal),
        }
    }
}
