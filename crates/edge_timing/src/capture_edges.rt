//! The edges of a capture.
ghost use Rattle.std.specs.Prelude.{◌≡◌, ◌+◌, ◌<◌, ◌^◌, length, IfOk, IfSome, OnOk};
ghost use Rattle.vcd_text.specs.Words.{GoesOn};
ghost use Rattle.vcd_text.specs.Shown.{IsOver};
ghost use Rattle.csv_text.specs.Shown.{HasRoom, bytes_left};
ghost use Rattle.bus_capture.specs.Recorded.{IsNextOf};
ghost use Rattle.edge_timing.specs.Judged.{MayJudge};

use crate::edge_watch::{EdgeWatch, WatchStop};
use crate::given::Given;
use crate::judge::EdgeJudge;
use crate::moment::Moment;
use bus_capture::{CaptureFault, CaptureForm, CaptureRefusal, Levels, Setup};
use bus_signals::{Role, RoleRefusal, Source, carriers_of, sources_of};
use csv_text::{Body as TableBody, Table, read_table};
use std::alloc::Allocator;
use vcd_text::{
    Body as DumpBody, Dump, Event, Header, HeaderRefusal, Variable, Widths, read_header,
};

/// What a capture was made of.
#[derive(Clone, Copy, Debug, PartialEq, Eq)]
pub enum Recorded {
    /// A bus.
    Bus,
    /// A run of a model, of which its lines tell what LUNs do (`busy0_1`). Its times are no timing.
    Model,
}

// What is known of a capture so far.
#[derive(Drop)]
struct Watching<A: Allocator> {
    targets: u8,
    sources: Vec<Source, A>,
    watch: EdgeWatch,
    moment: Moment,
    // Which lines have a level now.
    given: Given,
}

// Where the lines of a channel of so many targets are among these signals.
fn find_sources<A: Allocator + Clone>(
    alloc: A,
    setup: &Setup<'_>,
    variables: &[Variable<'_>],
) -> Result<Vec<Source, A>, CaptureRefusal> {
    let Ok(copy) = alloc.clone() else {
        return Err(CaptureRefusal::OutOfMemory);
    };
    let Ok(carriers) = carriers_of(copy, setup.mappings, variables) else {
        return Err(CaptureRefusal::OutOfMemory);
    };
    match sources_of(alloc, setup.targets, carriers.as_slice()) {
        Ok(sources) => Ok(sources),
        Err(RoleRefusal::Fault(fault)) => Err(CaptureRefusal::Fault(CaptureFault::Role(fault))),
        Err(RoleRefusal::OutOfMemory) => Err(CaptureRefusal::OutOfMemory),
    }
}

// A line that only a model has.
fn is_of_model(role: Role) -> bool {
    match role {
        Role::Busy { .. } | Role::ArrayBusy { .. } | Role::Failed { .. } => true,
        Role::Enable(_)
        | Role::Cle
        | Role::Ale
        | Role::We
        | Role::Re
        | Role::Dq(_)
        | Role::ReadyBusy(_) => false,
    }
}

// What a capture with these lines was made of.
fn made_of(sources: &[Source]) -> Recorded {
    if sources.iter().any(|source| is_of_model(source.role)) {
        Recorded::Model
    } else {
        Recorded::Bus
    }
}

impl<A: Allocator> Watching<A> {
    // Nothing has been seen.
    fn begun(targets: u8, sources: Vec<Source, A>) -> Watching<A>
        ensures { result.targets ≡ targets }
    {
        let given = Given::none();
        Watching {
            targets,
            sources,
            watch: EdgeWatch::new(),
            moment: Moment {
                time: 0,
                before: Levels::unknown(),
                after: Levels::unknown(),
                given,
            },
            given,
        }
    }

    // Judges the moment that is over.
    fn settle<B: Allocator>(&mut self, judge: &mut EdgeJudge<B>) -> Result<(), CaptureRefusal>
        requires judging { MayJudge self.old.targets judge.old.ruler }
        ensures judging { OnOk result (MayJudge self.new.targets judge.new.ruler) }
    {
        match self.watch.take(judge, self.targets, &self.moment) {
            Ok(()) => Ok(()),
            Err(WatchStop::Bus(fault)) => Err(CaptureRefusal::Fault(CaptureFault::Bus {
                fault,
                time: self.moment.time,
            })),
            Err(WatchStop::OutOfMemory) => Err(CaptureRefusal::OutOfMemory),
        }
    }

    // Goes on to this time, if it isn't there yet.
    fn go_on_to<B: Allocator>(
        &mut self,
        judge: &mut EdgeJudge<B>,
        time: u64,
    ) -> Result<(), CaptureRefusal>
        requires judging { MayJudge self.old.targets judge.old.ruler }
        ensures judging { OnOk result (MayJudge self.new.targets judge.new.ruler) }
    {
        if time == self.moment.time {
            return Ok(());
        }
        self.settle(judge)?;
        self.moment = Moment {
            time,
            before: self.moment.after,
            after: self.moment.after,
            given: self.given,
        };
        Ok(())
    }

    // Goes on by what is told.
    fn take_event<B: Allocator>(
        &mut self,
        judge: &mut EdgeJudge<B>,
        event: Event<'_>,
    ) -> Result<(), CaptureRefusal>
        requires judging { MayJudge self.old.targets judge.old.ruler }
        ensures judging { OnOk result (MayJudge self.new.targets judge.new.ruler) }
    {
        match event {
            Event::Time(time) => self.go_on_to(judge, time),
            Event::Change { code, bits } => {
                let sources = self.sources.as_slice();
                let _ = self.moment.after.change(sources, code, bits);
                self.given.give(sources, code);
                Ok(())
            }
        }
    }
}

// Why a header isn't read.
fn refusal_of(refusal: HeaderRefusal) -> CaptureRefusal {
    match refusal {
        HeaderRefusal::Fault(fault) => CaptureRefusal::Fault(CaptureFault::File(fault)),
        HeaderRefusal::OutOfMemory => CaptureRefusal::OutOfMemory,
    }
}

// A copy of an allocator.
fn copy_of<A: Clone>(alloc: &A) -> Result<A, CaptureRefusal> {
    match alloc.clone() {
        Ok(copy) => Ok(copy),
        Err(_) => Err(CaptureRefusal::OutOfMemory),
    }
}

// The next of what a dump tells.
fn next_of<'a, A: Allocator>(
    body: &mut DumpBody<'a>,
    widths: &Widths<A>,
) -> Result<Option<Event<'a>>, CaptureRefusal>
    requires room { body.old.words.line + length body.old.words.rest.now < 2 ^ 64 }
    ensures told { IsNextOf widths.now body.old result body.new }
    ensures goes_on { GoesOn body.old.words body.new.words }
    ensures shorter { IfOk result (λ o. IfSome o (λ _. length body.new.words.rest.now < length body.old.words.rest.now)) }
{
    match body.next_in_piece(widths) {
        Ok(event) => Ok(event),
        Err(fault) => Err(CaptureRefusal::Fault(CaptureFault::File(fault))),
    }
}

// Goes on by all that a dump tells.
fn take_dump<A: Allocator, B: Allocator, C: Allocator>(
    watching: &mut Watching<A>,
    judge: &mut EdgeJudge<B>,
    widths: &Widths<C>,
    body: &mut DumpBody<'_>,
) -> Result<(), CaptureRefusal>
    requires judging { MayJudge watching.old.targets judge.old.ruler }
    requires room { body.old.words.line + length body.old.words.rest.now < 2 ^ 64 }
    ensures judging { OnOk result (MayJudge watching.new.targets judge.new.ruler) }
    ensures over { OnOk result (IsOver widths.now body.new) }
    ensures room { OnOk result (body.new.words.line + length body.new.words.rest.now < 2 ^ 64) }
{
    'events: while let Some(event) = next_of(body, widths)? {
        watching.take_event(judge, event)?;
    }
    Ok(())
}

// The next of what a CSV tells.
fn next_in<'a>(body: &mut TableBody<'a>) -> Result<Option<Event<'a>>, CaptureRefusal>
    requires room { HasRoom body.old }
    ensures room { OnOk result (HasRoom body.new) }
    ensures shorter { IfOk result (λ o. IfSome o (λ _. bytes_left body.new < bytes_left body.old)) }
{
    match body.next_event() {
        Ok(event) => Ok(event),
        Err(fault) => Err(CaptureRefusal::Fault(CaptureFault::File(fault))),
    }
}

// Goes on by all that a CSV tells.
fn take_table<A: Allocator, B: Allocator>(
    watching: &mut Watching<A>,
    judge: &mut EdgeJudge<B>,
    body: &mut TableBody<'_>,
) -> Result<(), CaptureRefusal>
    requires judging { MayJudge watching.old.targets judge.old.ruler }
    requires room { HasRoom body.old }
    ensures judging { OnOk result (MayJudge watching.new.targets judge.new.ruler) }
{
    'events: while let Some(event) = next_in(body)? {
        watching.take_event(judge, event)?;
    }
    Ok(())
}

// Judges the edges of a dump.
fn judge_dump<A: Allocator + Clone, B: Allocator>(
    alloc: A,
    judge: &mut EdgeJudge<B>,
    setup: &Setup<'_>,
    text: &[u8],
) -> Result<Recorded, CaptureRefusal>
    requires judging { MayJudge setup.now.targets judge.old.ruler }
{
    let Dump { header, mut body } = match read_header(copy_of(&alloc)?, text) {
        Ok(dump) => dump,
        Err(refusal) => return Err(refusal_of(refusal)),
    };
    let Header { variables, widths } = header;
    let sources = find_sources(copy_of(&alloc)?, setup, variables.as_slice())?;
    let Ok(widths) = Widths::of(alloc, widths) else {
        return Err(CaptureRefusal::OutOfMemory);
    };
    let mut watching = Watching::begun(setup.targets, sources);
    take_dump(&mut watching, judge, &widths, &mut body)?;
    match body.end(&widths) {
        None => {
            watching.settle(judge)?;
            Ok(made_of(watching.sources.as_slice()))
        }
        Some(fault) => Err(CaptureRefusal::Fault(CaptureFault::File(fault))),
    }
}

// Judges the edges of a CSV.
fn judge_table<A: Allocator + Clone, B: Allocator>(
    alloc: A,
    judge: &mut EdgeJudge<B>,
    setup: &Setup<'_>,
    text: &[u8],
) -> Result<Recorded, CaptureRefusal>
    requires judging { MayJudge setup.now.targets judge.old.ruler }
{
    let table = match read_table(copy_of(&alloc)?, text) {
        Ok(table) => table,
        Err(refusal) => return Err(refusal_of(refusal)),
    };
    let Table {
        variables,
        mut body,
    } = table;
    let sources = find_sources(alloc, setup, variables.as_slice())?;
    let mut watching = Watching::begun(setup.targets, sources);
    take_table(&mut watching, judge, &mut body)?;
    watching.settle(judge)?;
    Ok(made_of(watching.sources.as_slice()))
}

/// Judges the edges of a whole capture, and tells what it was made of. The capture is refused as [`bus_capture::read_capture`] refuses it, but for glitches: a pulse that is too short is judged.
pub fn judge_edges<A: Allocator + Clone, B: Allocator>(
    alloc: A,
    judge: &mut EdgeJudge<B>,
    setup: &Setup<'_>,
    text: &[u8],
) -> Result<Recorded, CaptureRefusal>
    requires judging { MayJudge setup.now.targets judge.old.ruler }
{
    let recorded = match setup.form {
        CaptureForm::Dump => judge_dump(alloc, judge, setup, text)?,
        CaptureForm::Table => judge_table(alloc, judge, setup, text)?,
    };
    match judge.sort() {
        Ok(()) => Ok(recorded),
        Err(_) => Err(CaptureRefusal::OutOfMemory),
    }
}
