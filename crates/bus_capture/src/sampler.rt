//! What is seen of a bus, from one time to the next.
ghost use Rattle.std.specs.Prelude.{◌≡◌, ◌+◌, ◌*◌, ◌/◌, ◌%◌, ◌<◌, ◌≤◌, [], ◌∷◌, ◌++◌, true, Ok, IfErr, OnOk};
ghost use Rattle.bus_capture.specs.Sampling.{level, item_of};
ghost use Rattle.bus_capture.specs.Capturing.{counted, time_of, output_time, late_of, is_due, is_taken, owes, last_seen, closed, with_item, with_release, with_releases, with_readies, with_seen, at_time, settled, is_known, unknown, untouched, strobing_after, begun, later, changed, strobe_seen, IsSeen, IsRefusalOf};
ghost use Rattle.bus_capture.specs.Still.{IsStill, IsStillUnless};

use crate::fault::{BusFault, CaptureFault, CaptureRefusal};
use crate::levels::Levels;
use crate::sampling::{
    Seen, Strobe, is_edge, is_moved, is_short, ready_of, rises, same_level, seen_if, steady,
    take_cycle,
};
use bus_signals::{Role, Source};
use onfi_cycle::Item;
use std::alloc::Allocator;
use vcd_text::Level;

/// What is seen of a bus.
#[derive(Clone, Copy, Debug, PartialEq, Eq)]
pub enum Observation {
    /// A cycle, or a ready that a model tells.
    Item(Item),
    /// R/B# of this target rises.
    Released(u8),
}

/// What is seen, and when.
#[derive(Clone, Copy, Debug, PartialEq, Eq)]
pub struct Observed {
    pub time: u64,
    pub observation: Observation,
}

// What is known of a strobe: whether somebody has driven it, when it last went from low to high or back, and whether its cycle is still to be taken.
#[derive(Clone, Copy)]
pub(crate) struct Strobing {
    driven: bool,
    since: Option<u64>,
    owed: bool,
}

// The bus of so many targets at a time: its levels before and after it, and what is known of the strobes before. A strobe that changes again before the time
// of a glitch is one. An output may be taken late, so far behind the rise of RE#. Its chips program caches or not.
#[derive(Clone, Copy)]
pub(crate) struct Sampler {
    pub(crate) targets: u8,
    pub(crate) glitch: u64,
    pub(crate) late: Option<u64>,
    pub(crate) caches: bool,
    pub(crate) time: u64,
    before: Levels,
    after: Levels,
    we: Strobing,
    re: Strobing,
}

#[inline(always)]
fn is_known(level: Level) -> bool
    ensures { result ≡ is_known level }
{
    match level {
        Level::Low | Level::High => true,
        Level::Unknown => false,
    }
}

#[inline(always)]
fn item_of(seen: Seen) -> Option<Item>
    ensures { result ≡ item_of seen }
{
    match seen {
        Seen::Nothing | Seen::Unselected => None,
        Seen::Sampled(cycle) => Some(Item::Cyc(cycle)),
    }
}

// One more strobe that is none of ours is counted.
#[inline(always)]
fn count_unselected(unselected: &mut u64, seen: Seen)
    ensures { unselected.new ≡ counted unselected.old seen }
{
    match seen {
        Seen::Nothing | Seen::Sampled(_) => {}
        Seen::Unselected => *unselected = unselected.saturating_add(1),
    }
}

// Adds something that is seen.
#[inline(always)]
fn push<A: Allocator>(
    observed: &mut Vec<Observed, A>,
    time: u64,
    observation: Observation,
) -> Result<(), CaptureRefusal>
    ensures ok { OnOk result (observed.new.items ≡ observed.old.items ++ record { time = time; observation = observation } ∷ []) }
    ensures err { IfErr result (λ e. e ≡ CaptureRefusal.OutOfMemory) }
{
    match observed.push(Observed { time, observation }) {
        Ok(()) => Ok(()),
        Err(_) => Err(CaptureRefusal::OutOfMemory),
    }
}

// Adds an item, if there is one.
#[inline(always)]
fn push_item<A: Allocator>(
    observed: &mut Vec<Observed, A>,
    time: u64,
    item: Option<Item>,
) -> Result<(), CaptureRefusal>
    ensures ok { OnOk result (observed.new.items ≡ with_item time item observed.old.items) }
    ensures err { IfErr result (λ e. e ≡ CaptureRefusal.OutOfMemory) }
{
    match item {
        None => Ok(()),
        Some(item) => push(observed, time, Observation::Item(item)),
    }
}

// Adds that R/B# of a target rises, if it does.
#[inline(always)]
fn push_release<A: Allocator>(
    observed: &mut Vec<Observed, A>,
    time: u64,
    before: &Levels,
    after: &Levels,
    number: u8,
) -> Result<(), CaptureRefusal>
    ensures ok { OnOk result (observed.new.items ≡ with_release time before.now.of after.now.of number observed.old.items) }
    ensures err { IfErr result (λ e. e ≡ CaptureRefusal.OutOfMemory) }
{
    if rises(
        before.level(Role::ReadyBusy(number)),
        after.level(Role::ReadyBusy(number)),
    ) {
        push(observed, time, Observation::Released(number))
    } else {
        Ok(())
    }
}

// Adds which R/B# of so many targets rise, from this number on.
fn push_releases<A: Allocator>(
    observed: &mut Vec<Observed, A>,
    time: u64,
    before: &Levels,
    after: &Levels,
    count: u8,
    number: u8,
) -> Result<(), CaptureRefusal>
    requires few { count + number ≤ 4 }
    ensures ok { OnOk result (observed.new.items ≡ with_releases time before.now.of after.now.of observed.old.items count number) }
    ensures err { IfErr result (λ e. e ≡ CaptureRefusal.OutOfMemory) }
{
    if count == 0 {
        return Ok(());
    }
    match push_release(observed, time, before, after, number) {
        Ok(()) => push_releases(observed, time, before, after, count - 1, number + 1),
        Err(refusal) => Err(refusal),
    }
}

// Adds the readies of so many LUNs from this number on, of which each target has four.
fn push_readies<A: Allocator>(
    observed: &mut Vec<Observed, A>,
    caches: bool,
    time: u64,
    before: &Levels,
    after: &Levels,
    count: u8,
    number: u8,
) -> Result<(), CaptureRefusal>
    requires few { count + number ≤ 16 }
    ensures ok { OnOk result (observed.new.items ≡ with_readies caches time before.now.of after.now.of observed.old.items count number) }
    ensures err { IfErr result (λ e. e ≡ CaptureRefusal.OutOfMemory) }
{
    if count == 0 {
        return Ok(());
    }
    match push_item(
        observed,
        time,
        ready_of(caches, before, after, number / 4, number % 4),
    ) {
        Ok(()) => push_readies(observed, caches, time, before, after, count - 1, number + 1),
        Err(refusal) => Err(refusal),
    }
}

impl Strobing {
    // Nothing is known of it.
    fn untouched() -> Strobing
        ensures { result ≡ untouched }
    {
        Strobing {
            driven: false,
            since: None,
            owed: false,
        }
    }

    // After these levels of the strobe before and after a time, where its cycle is still to be taken or not.
    #[inline(always)]
    fn after(self, owed: bool, time: u64, before: Level, after: Level) -> Strobing
        ensures { result ≡ strobing_after owed self time before after }
    {
        Strobing {
            driven: self.driven || is_known(after),
            since: if is_edge(before, after) {
                Some(time)
            } else {
                self.since
            },
            owed,
        }
    }
}

impl Sampler {
    /// Nothing has been seen of a bus of so many targets.
    pub(crate) fn begun(targets: u8, glitch: u64, late: Option<u64>, caches: bool) -> Sampler
        ensures begun { result ≡ begun targets glitch late caches unknown }
        ensures still { IsStill result }
    {
        Sampler {
            targets,
            glitch,
            late,
            caches,
            time: 0,
            before: Levels::unknown(),
            after: Levels::unknown(),
            we: Strobing::untouched(),
            re: Strobing::untouched(),
        }
    }

    // How far behind its rise the cycle of a strobe is taken, if it is.
    #[inline(always)]
    fn late_of(&self, strobe: Strobe) -> Option<u64>
        ensures { result ≡ late_of self.now strobe }
    {
        match strobe {
            Strobe::Write => None,
            Strobe::Read => self.late,
        }
    }

    // A cycle is still to be taken, and is now.
    fn is_due(&self, known: Strobing, late: u64) -> bool
        ensures { result ≡ is_due self.now known late }
    {
        known.owed
            && (is_moved(&self.before, &self.after) || !is_short(late, self.time, known.since))
    }

    // What is seen now of a strobe whose cycle is taken as it rises.
    #[inline(always)]
    #[tactic(auto, using(crate::proofs::Strobes::nothing_seen))]
    fn look(&self, strobe: Strobe, known: Strobing) -> Result<Seen, BusFault>
        requires few { self.now.targets ≤ 4 }
        requires early { late_of self.now strobe ≡ None }
        ensures { result ≡ strobe_seen self.now strobe known }
    {
        let was = self.before.level(strobe.line());
        let is = self.after.level(strobe.line());
        if same_level(was, is) {
            return Ok(Seen::Nothing);
        }
        let short = is_short(self.glitch, self.time, known.since);
        let _ = steady(self.targets, strobe, short, &self.before, &self.after)?;
        seen_if(
            rises(was, is),
            self.targets,
            strobe,
            known.driven,
            &self.before,
            &self.after,
        )
    }

    // What is seen now of a strobe whose cycle is taken so far behind its rise.
    fn look_late(&self, strobe: Strobe, known: Strobing, late: u64) -> Result<Seen, BusFault>
        requires few { self.now.targets ≤ 4 }
        requires late { late_of self.now strobe ≡ Some late }
        ensures { result ≡ strobe_seen self.now strobe known }
    {
        let short = is_short(self.glitch, self.time, known.since);
        let _ = steady(self.targets, strobe, short, &self.before, &self.after)?;
        seen_if(
            self.is_due(known, late),
            self.targets,
            strobe,
            known.driven,
            &self.before,
            &self.after,
        )
    }

    // What is seen of a strobe now.
    #[inline(always)]
    fn look_at(&self, strobe: Strobe, known: Strobing) -> Result<Seen, BusFault>
        requires few { self.now.targets ≤ 4 }
        ensures { result ≡ strobe_seen self.now strobe known }
    {
        match self.late_of(strobe) {
            None => self.look(strobe, known),
            Some(late) => self.look_late(strobe, known, late),
        }
    }

    // What is wrong now.
    fn refusal_of(&self, fault: BusFault) -> CaptureRefusal
        ensures { result ≡ CaptureRefusal.Fault (CaptureFault.Bus fault self.now.time) }
    {
        CaptureRefusal::Fault(CaptureFault::Bus {
            fault,
            time: self.time,
        })
    }

    // The same, with the time of what is wrong.
    #[inline(always)]
    fn seen(&self, strobe: Strobe, known: Strobing) -> Result<Seen, CaptureRefusal>
        requires few { self.now.targets ≤ 4 }
        ensures { IsSeen result (at_time self.now.time (strobe_seen self.now strobe known)) }
    {
        match self.look_at(strobe, known) {
            Ok(seen) => Ok(seen),
            Err(fault) => Err(self.refusal_of(fault)),
        }
    }

    // The time of an output that is taken now.
    #[inline(always)]
    fn output_time(&self) -> u64
        ensures { result ≡ output_time self.now }
    {
        match self.late {
            None => self.time,
            Some(_) => self.re.since.unwrap_or(self.time),
        }
    }

    // Adds what the lines beside the bus tell now.
    fn push_beside<A: Allocator>(
        &self,
        observed: &mut Vec<Observed, A>,
    ) -> Result<(), CaptureRefusal>
        requires few { self.now.targets ≤ 4 }
        ensures ok { OnOk result (observed.new.items ≡ with_releases self.now.time self.now.before.of self.now.after.of
            (with_readies self.now.caches self.now.time self.now.before.of self.now.after.of observed.old.items (4 * self.now.targets) 0) self.now.targets 0) }
        ensures err { IfErr result (λ e. e ≡ CaptureRefusal.OutOfMemory) }
    {
        push_readies(
            observed,
            self.caches,
            self.time,
            &self.before,
            &self.after,
            4 * self.targets,
            0,
        )?;
        push_releases(
            observed,
            self.time,
            &self.before,
            &self.after,
            self.targets,
            0,
        )
    }

    // Adds what strobes and the lines beside the bus tell now; of those one may have changed.
    #[inline(always)]
    #[tactic(auto, using(crate::proofs::Unchanged::nothing_beside))]
    fn push_seen<A: Allocator>(
        &self,
        observed: &mut Vec<Observed, A>,
        beside: bool,
        written: Seen,
        read: Seen,
    ) -> Result<(), CaptureRefusal>
        requires few { self.now.targets ≤ 4 }
        requires still { IsStillUnless beside self.now }
        ensures ok { OnOk result (observed.new.items ≡ with_seen self.now written read observed.old.items) }
        ensures err { IfErr result (λ e. e ≡ CaptureRefusal.OutOfMemory) }
    {
        push_item(observed, self.time, item_of(written))?;
        push_item(observed, self.output_time(), item_of(read))?;
        if beside {
            self.push_beside(observed)
        } else {
            Ok(())
        }
    }

    /// Adds what is seen where the levels before become those of now. One of the lines beside the bus may have changed.
    #[inline(always)]
    pub(crate) fn settle<A: Allocator>(
        &self,
        observed: &mut Vec<Observed, A>,
        beside: bool,
        unselected: &mut u64,
    ) -> Result<(), CaptureRefusal>
        requires few { self.now.targets ≤ 4 }
        requires still { IsStillUnless beside self.now }
        ensures ok { OnOk result (settled self.now observed.old.items ≡ Ok observed.new.items) }
        ensures err { IfErr result (λ e. IsRefusalOf e (settled self.now observed.old.items)) }
    {
        match self.seen(Strobe::Write, self.we) {
            Ok(written) => match self.seen(Strobe::Read, self.re) {
                Ok(read) => {
                    count_unselected(unselected, written);
                    count_unselected(unselected, read);
                    self.push_seen(observed, beside, written, read)
                }
                Err(refusal) => Err(refusal),
            },
            Err(refusal) => Err(refusal),
        }
    }

    // An output is still to be taken after this time.
    #[inline(always)]
    fn owes(&self) -> bool
        ensures { result ≡ owes self.now.late self.now }
    {
        match self.late {
            None => false,
            Some(late) => {
                rises(self.before.level(Role::Re), self.after.level(Role::Re))
                    || self.re.owed && !self.is_due(self.re, late)
            }
        }
    }

    // What is seen of RE# where nothing more comes.
    fn last_seen(&self) -> Result<Seen, CaptureRefusal>
        requires few { self.now.targets ≤ 4 }
        ensures { IsSeen result (at_time self.now.time (last_seen self.now)) }
    {
        if !self.re.owed {
            return Ok(Seen::Nothing);
        }
        match take_cycle(self.targets, Strobe::Read, &self.before) {
            Ok(seen) => Ok(seen),
            Err(fault) => Err(self.refusal_of(fault)),
        }
    }

    /// Adds the last output, where one is still to be taken and nothing more comes.
    pub(crate) fn close<A: Allocator>(
        &self,
        observed: &mut Vec<Observed, A>,
        unselected: &mut u64,
    ) -> Result<(), CaptureRefusal>
        requires few { self.now.targets ≤ 4 }
        ensures ok { OnOk result (closed self.now observed.old.items ≡ Ok observed.new.items) }
        ensures err { IfErr result (λ e. IsRefusalOf e (closed self.now observed.old.items)) }
    {
        match self.last_seen() {
            Ok(read) => {
                count_unselected(unselected, read);
                push_item(observed, self.output_time(), item_of(read))
            }
            Err(refusal) => Err(refusal),
        }
    }

    /// Goes on to a later time.
    #[inline(always)]
    pub(crate) fn go_on_to(&mut self, time: u64)
        ensures later { self.new ≡ later self.old time }
        ensures still { IsStill self.new }
    {
        let owed = self.owes();
        self.we = self.we.after(
            false,
            self.time,
            self.before.level(Role::We),
            self.after.level(Role::We),
        );
        self.re = self.re.after(
            owed,
            self.time,
            self.before.level(Role::Re),
            self.after.level(Role::Re),
        );
        self.before = self.after;
        self.time = time;
    }

    /// A code changes: whether one of the lines beside the bus may have.
    #[inline(always)]
    pub(crate) fn change(&mut self, sources: &[Source], code: u64, bits: &[u8]) -> bool
        ensures changed { self.new ≡ changed sources.now code bits.now self.old }
        ensures still { IsStill self.old → IsStillUnless result self.new }
    {
        self.after.change(sources, code, bits)
    }
}
