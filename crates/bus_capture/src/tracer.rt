//! The items of what is told of a bus.
ghost use Rattle.std.specs.Prelude.{◌≡◌, ◌≤◌, ◌∷◌, ◌++◌, [], true, List, length, drop, Ok, IfOk, IfErr, OnOk, not};
ghost use Rattle.vcd_text.specs.Body.{Told, Time};
ghost use Rattle.vcd_text.specs.Shown.{shown_event};
ghost use Rattle.bus_capture.specs.Capturing.{unknown, begun, capturing, told_items, is_busy_line, tells_readies, IsRefusalOf};
ghost use Rattle.bus_capture.specs.Inferring.{items_after};
ghost use Rattle.bus_capture.specs.Inside.{AreInside, AreSeenInside};
ghost use Rattle.bus_capture.specs.Tracing.{traced, items_told, inferred_on, MayFollow, IsTracing, IsTaken};

use crate::fault::{CaptureRefusal, copy_of};
use crate::inferring::{Inferring, Stamped};
use crate::reading::Setup;
use crate::sampler::{Observed, Sampler};
use crate::spans::{Span, find_spans, sources_at};
use bus_signals::{Role, Source};
use std::alloc::Allocator;
use vcd_text::Event;

fn is_busy_line(role: Role) -> bool
    ensures { result ≡ is_busy_line role }
{
    matches!(role, Role::Busy { .. })
}

// Lines of a model tell when a LUN becomes ready.
fn tells_readies(sources: &[Source]) -> bool
    ensures { result ≡ tells_readies sources.now }
{
    for source in sources {
        if is_busy_line(source.role) {
            return true;
        }
    }
    false
}

/// What is told of a bus, on its way to items.
#[derive(Drop)]
pub(crate) struct Tracer<A: Allocator> {
    alloc: A,
    sources: Vec<Source, A>,
    spans: Vec<Span, A>,
    sampler: Sampler,
    // A line beside the bus may have changed at the time of the sampler.
    beside: bool,
    // What is seen, of which no items are made yet.
    observed: Vec<Observed, A>,
    inferring: Inferring,
    /// How many strobes rose with no chip enabled.
    pub(crate) unselected: u64,
    // The code of a data strobe, or one that no signal has, and how often that changed.
    strobe: u64,
    pub(crate) strobe_changes: u64,
}

// A count of changes with one more, where this one is of the data strobe.
fn counted(count: u64, strobe: u64, code: u64) -> u64 {
    if code == strobe {
        count.saturating_add(1)
    } else {
        count
    }
}

impl<A: Allocator + Clone> Tracer<A> {
    /// Nothing is told yet.
    pub(crate) fn begun(
        alloc: A,
        setup: &Setup<'_>,
        sources: Vec<Source, A>,
        strobe: u64,
    ) -> Result<Tracer<A>, CaptureRefusal>
        requires few { setup.now.targets ≤ 4 }
        ensures traced { IfOk result (λ t. (stamped : List Stamped) (told : List Told) → traced t stamped told ≡ items_told setup.now sources.items stamped told) }
        ensures tracing { IfOk result (λ t. IsTracing t) }
        ensures err { IfErr result (λ e. e ≡ CaptureRefusal.OutOfMemory) }
    {
        let copy = copy_of(&alloc)?;
        let spans = find_spans(copy_of(&alloc)?, sources.as_slice())?;
        let tells = tells_readies(sources.as_slice());
        Ok(Tracer {
            alloc,
            sources,
            spans,
            sampler: Sampler::begun(
                setup.targets,
                setup.glitch,
                setup.late,
                setup.geometry.parts().optional.has_program_cache(),
            ),
            beside: false,
            observed: Vec::new(copy),
            inferring: Inferring::begun(&setup.geometry, setup.targets, tells),
            unselected: 0,
            strobe,
            strobe_changes: 0,
        })
    }

    // Goes on to this time, if it isn't there yet.
    #[inline(always)]
    #[tactic(auto, using(crate::proofs::Captured::settled_fine))]
    fn go_on_to(&mut self, time: u64) -> Result<(), CaptureRefusal>
        requires tracing { IsTracing self.old }
        ensures taken { (stamped : List Stamped) (later : List Told) → IsTaken result (traced self.old stamped (Ok (Time time) ∷ later)) (traced self.new stamped later) }
        ensures tracing { OnOk result (IsTracing self.new) }
    {
        if time == self.sampler.time {
            return Ok(());
        }
        match self
            .sampler
            .settle(&mut self.observed, self.beside, &mut self.unselected)
        {
            Ok(()) => {
                self.sampler.go_on_to(time);
                self.beside = false;
                Ok(())
            }
            Err(refusal) => Err(refusal),
        }
    }

    /// Goes on by what is told.
    #[inline(always)]
    pub(crate) fn take_event(&mut self, event: Event<'_>) -> Result<(), CaptureRefusal>
        requires tracing { IsTracing self.old }
        ensures taken { (stamped : List Stamped) (later : List Told) → IsTaken result (traced self.old stamped (Ok (shown_event event.entry) ∷ later)) (traced self.new stamped later) }
        ensures tracing { OnOk result (IsTracing self.new) }
    {
        match event {
            Event::Change { code, bits } => {
                self.strobe_changes = counted(self.strobe_changes, self.strobe, code);
                let lines = sources_at(self.sources.as_slice(), self.spans.as_slice(), code);
                if self.sampler.change(lines, code, bits) {
                    self.beside = true;
                }
                Ok(())
            }
            Event::Time(time) => self.go_on_to(time),
        }
    }

    // Adds the items of what is seen, as far as they don't hang on what is seen later.
    fn infer<B: Allocator>(
        &mut self,
        stamped: &mut Vec<Stamped, B>,
        is_last: bool,
    ) -> Result<usize, CaptureRefusal>
        ensures within { IfOk result (λ count. count ≤ length self.old.observed.items) }
        ensures taken { IfOk result (λ count. (more : List Observed) → MayFollow is_last more
            → inferred_on self.old.inferring stamped.old.items (self.old.observed.items ++ more) ≡ inferred_on self.new.inferring stamped.new.items (drop count self.old.observed.items ++ more)) }
        ensures inside { OnOk result (AreSeenInside self.old.observed.items → AreInside stamped.old.items → AreInside stamped.new.items) }
        ensures all { IfOk result (λ count. is_last ≡ true → count ≡ length self.old.observed.items) }
        ensures same { (self.new.sources ≡ self.old.sources) × (self.new.spans ≡ self.old.spans) × (self.new.sampler ≡ self.old.sampler) × (self.new.beside ≡ self.old.beside) × (self.new.observed ≡ self.old.observed) }
        ensures err { IfErr result (λ e. e ≡ CaptureRefusal.OutOfMemory) }
    {
        match self
            .inferring
            .infer(stamped, self.observed.as_slice(), is_last)
        {
            Ok(count) => Ok(count),
            Err(_) => Err(CaptureRefusal::OutOfMemory),
        }
    }

    /// Adds the items of what is seen, as far as they don't hang on what is told later.
    pub(crate) fn hand_on<B: Allocator>(
        &mut self,
        stamped: &mut Vec<Stamped, B>,
    ) -> Result<(), CaptureRefusal>
        requires tracing { IsTracing self.old }
        requires inside { AreInside stamped.old.items }
        ensures taken { OnOk result ((later : List Told) → traced self.old stamped.old.items later ≡ traced self.new stamped.new.items later) }
        ensures tracing { OnOk result (IsTracing self.new) }
        ensures inside { OnOk result (AreInside stamped.new.items) }
        ensures err { IfErr result (λ e. e ≡ CaptureRefusal.OutOfMemory) }
    {
        let count = self.infer(stamped, false)?;
        let mut left = Vec::new(copy_of(&self.alloc)?);
        let (_, later) = self.observed.as_slice().split_at(count);
        match left.extend_from_slice(later) {
            Ok(()) => {
                self.observed = left;
                Ok(())
            }
            Err(_) => Err(CaptureRefusal::OutOfMemory),
        }
    }

    // What is seen where nothing more is told.
    fn settle_last(&mut self) -> Result<(), CaptureRefusal>
        requires tracing { IsTracing self.old }
        ensures ok { OnOk result (capturing self.old.sources.items self.old.sampler self.old.observed.items [] ≡ Ok self.new.observed.items) }
        ensures inside { OnOk result (AreSeenInside self.new.observed.items) }
        ensures same { self.new.inferring ≡ self.old.inferring }
        ensures err { IfErr result (λ e. IsRefusalOf e (capturing self.old.sources.items self.old.sampler self.old.observed.items [])) }
    {
        match self
            .sampler
            .settle(&mut self.observed, self.beside, &mut self.unselected)
        {
            Ok(()) => {
                let now = self.sampler.time;
                self.sampler.go_on_to(now);
                self.sampler.close(&mut self.observed, &mut self.unselected)
            }
            Err(refusal) => Err(refusal),
        }
    }

    /// Adds the items of what is seen where nothing more is told.
    pub(crate) fn finish<B: Allocator>(
        &mut self,
        stamped: &mut Vec<Stamped, B>,
    ) -> Result<(), CaptureRefusal>
        requires tracing { IsTracing self.old }
        requires inside { AreInside stamped.old.items }
        ensures ok { OnOk result (traced self.old stamped.old.items [] ≡ Ok stamped.new.items) }
        ensures inside { OnOk result (AreInside stamped.new.items) }
        ensures err { IfErr result (λ e. IsRefusalOf e (traced self.old stamped.old.items [])) }
    {
        match self.settle_last() {
            Ok(()) => {
                let _ = self.infer(stamped, true)?;
                Ok(())
            }
            Err(refusal) => Err(refusal),
        }
    }
}
