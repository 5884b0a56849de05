//! The programs and erases of a LUN, as a trace tells them.
ghost use Rattle.std.specs.Prelude.{◌≡◌, ◌++◌, OnOk, map, true};
ghost use Rattle.trace_data.specs.Data.{no_works, begun, begun_cached, over, array_over, goes_on, handed_on, ready_leaves, unqueued, works_after, is_unknown, origin_from, origin_by, ended_as};

use crate::lun_work::{BegunWork, EndedWork};
use crate::origin::Origin;
use onfi_cycle::{Effect, Failures, PageAddress, Queued};
use std::alloc::{AllocError, Global};
use std::marker::Model;

/// The programs and erases of a LUN, the oldest first.
#[derive(Drop)]
pub struct LunWorks {
    /// A program copies a page: one was read for a copyback, and no Page Program with a row came since.
    copying: bool,
    /// A Page Cache Program closed what works, so the array goes on with that behind the next ready.
    cached: bool,
    /// Those that wait for the command that begins them all.
    queued: Vec<BegunWork>,
    /// Those that the next ready ends.
    working: Vec<BegunWork>,
    /// Those that the array goes on with behind the ready of a Page Cache Program.
    in_array: Vec<BegunWork>,
    ended: Vec<EndedWork>,
}

impl Model for LunWorks {
    ghost use Rattle.trace_data.specs.Data.{Works};

    ghost Value = { Works };

    ghost view = { λ w. record { copying = w.copying; cached = w.cached; queued = w.queued.items; working = w.working.items; in_array = w.in_array.items; ended = w.ended.items } };
}

// Adds works that are over, with failure or without.
fn push_ended(
    ended: &mut Vec<EndedWork>,
    working: &[BegunWork],
    failed: bool,
) -> Result<(), AllocError>
    ensures { OnOk result (ended.new.items ≡ ended.old.items ++ map (ended_as failed) working.now) }
{
    for work in working {
        ended.push(work.ended(failed))?;
    }
    Ok(())
}

// Nobody knows what it holds.
fn is_unknown(origin: Origin) -> bool
    ensures { result ≡ is_unknown origin }
{
    match origin {
        Origin::Unknown => true,
        Origin::Beginning | Origin::Erased { .. } | Origin::Programmed { .. } => false,
    }
}

// Where a page has its bytes from after works that are over, where nobody may know what other pages of its LUN hold.
fn origin_from(works: &[EndedWork], page: PageAddress, doubted: bool, before: Origin) -> Origin
    ensures { result ≡ origin_from doubted works.now page before }
{
    match works {
        [] => before,
        [first, rest @ ..] => origin_from(
            rest,
            page,
            doubted || first.failed,
            first.leaves(page, doubted, before),
        ),
    }
}

impl LunWorks {
    /// No work has begun.
    pub(crate) fn new(alloc: Global) -> LunWorks
        ensures { result ≡ no_works }
    {
        LunWorks {
            copying: false,
            cached: false,
            queued: Vec::new(alloc),
            working: Vec::new(alloc),
            in_array: Vec::new(alloc),
            ended: Vec::new(alloc),
        }
    }

    // A work begins at an item, with those that wait, or waits itself.
    fn begin(&mut self, is_queued: bool, work: BegunWork) -> Result<(), AllocError>
        ensures { OnOk result (self.new ≡ begun is_queued work self.old) }
    {
        self.queued.push(work)?;
        if !is_queued {
            self.cached = false;
            self.working.clear();
            self.working.extend_from_slice(self.queued.as_slice())?;
            self.queued.clear();
        }
        Ok(())
    }

    // A work begins with those that wait, and the array goes on with them behind the next ready.
    fn begin_cached(&mut self, work: BegunWork) -> Result<(), AllocError>
        ensures { OnOk result (self.new ≡ begun_cached work self.old) }
    {
        self.begin(false, work)?;
        self.cached = true;
        Ok(())
    }

    // What works is over, with failure or without.
    fn end(&mut self, failed: bool) -> Result<(), AllocError>
        ensures { OnOk result (self.new ≡ over failed self.old) }
    {
        push_ended(&mut self.ended, self.working.as_slice(), failed)?;
        self.working.clear();
        Ok(())
    }

    // What the array goes on with is over, with failure or without.
    fn end_array(&mut self, failed: bool) -> Result<(), AllocError>
        ensures { OnOk result (self.new ≡ array_over failed self.old) }
    {
        push_ended(&mut self.ended, self.in_array.as_slice(), failed)?;
        self.in_array.clear();
        Ok(())
    }

    // The array goes on with what works.
    fn go_on_in_array(&mut self) -> Result<(), AllocError>
        ensures { OnOk result (self.new ≡ goes_on self.old) }
    {
        self.in_array.clear();
        self.in_array.extend_from_slice(self.working.as_slice())?;
        self.working.clear();
        Ok(())
    }

    // What works is over, or left to the array.
    fn hand_on(&mut self, failed: bool) -> Result<(), AllocError>
        ensures { OnOk result (self.new ≡ handed_on failed self.old) }
    {
        if self.cached {
            self.go_on_in_array()
        } else {
            self.end(failed)
        }
    }

    // A ready ends what works, and what the array went on with before it.
    fn become_ready(&mut self, fail: Failures) -> Result<(), AllocError>
        ensures { OnOk result (self.new ≡ ready_leaves fail self.old.working self.old) }
    {
        if self.working.is_empty() {
            return Ok(());
        }
        self.end_array(fail.before)?;
        self.hand_on(fail.last)
    }

    // A reset drops what waits and breaks off the rest.
    fn break_off(&mut self) -> Result<(), AllocError>
        ensures { OnOk result (self.new ≡ over true (array_over true (unqueued self.old))) }
    {
        self.queued.clear();
        self.end_array(true)?;
        self.end(true)
    }

    /// Goes on by what an item does to the LUN. Without memory for that nothing is known of it.
    pub(crate) fn go_on(&mut self, effect: Effect, item: usize) -> Result<(), AllocError>
        ensures { OnOk result (self.new ≡ works_after effect item self.old) }
    {
        match effect {
            Effect::EraseStarted { queued, row } => {
                let work = Queued::Erase(row);
                self.begin(
                    queued,
                    BegunWork {
                        work,
                        item,
                        copies: false,
                    },
                )
            }
            Effect::ProgramStarted { queued, page } => {
                let work = Queued::Program(page);
                self.begin(
                    queued,
                    BegunWork {
                        work,
                        item,
                        copies: self.copying,
                    },
                )
            }
            Effect::CacheProgramStarted { page } => {
                let work = Queued::Program(page);
                self.begin_cached(BegunWork {
                    work,
                    item,
                    copies: self.copying,
                })
            }
            Effect::CopybackReadStarted { .. } => {
                self.copying = true;
                Ok(())
            }
            Effect::ProgramAddressed => {
                self.copying = false;
                Ok(())
            }
            Effect::ResetStarted | Effect::TargetResetStarted { .. } => self.break_off(),
            Effect::BecameReady { fail } => self.become_ready(fail),
            Effect::ArrayBecameReady { fail } => self.end_array(fail),
            Effect::Unaffected
            | Effect::DataOutputEnabled
            | Effect::StatusSelected
            | Effect::StatusOfSelected
            | Effect::AnotherAddressed { .. }
            | Effect::StatusRowAwaited
            | Effect::SelectedForStatus
            | Effect::Deselected
            | Effect::ReadStarted { .. }
            | Effect::ReadQueued { .. }
            | Effect::IdRead
            | Effect::IdentityRead { .. }
            | Effect::UniqueIdReadStarted
            | Effect::FeaturesReadStarted { .. }
            | Effect::FeaturesSet { .. }
            | Effect::ParameterPageReadStarted
            | Effect::CacheReadContinued { .. }
            | Effect::CacheReadEnded
            | Effect::ReadColumnChanged { .. }
            | Effect::PlaneSelected { .. }
            | Effect::DataOutput => Ok(()),
        }
    }

    /// Where a page has its bytes from, where it had them from there at the beginning.
    pub fn origin(&self, page: PageAddress, beginning: Origin) -> Origin
        ensures { result ≡ origin_by self.now.ended page beginning }
    {
        origin_from(
            self.ended.as_slice(),
            page,
            is_unknown(beginning),
            beginning,
        )
    }
}
