//! A channel of one target in a run: its running state, and what has happened.
ghost use Rattle.std.specs.Prelude.{◌≡◌, ℕ, ◌+◌, ◌≤◌, [], replicate, reverse, IfOk, OnErr};
ghost use Rattle.onfi_cycle.specs.Look.{look_after};
ghost use Rattle.onfi_cycle.specs.Sequence.{tail, facts_of};
ghost use Rattle.refused_run.specs.Course.{HasPushed, HasPlayed, IsOfFive, some_of, listed, the_lun};

use crate::cycles::Cycles;
use nand_geometry::Geometry;
use onfi_cycle::{BusState, Forbidden, Item, Lun, LunState, TailFacts};
use std::alloc::{AllocError, Allocator};
use std::marker::Model;

/// The LUN that the program runs on.
pub(crate) const THE_LUN: Lun = Lun { ce: 0, lun: 0 };

/// A channel of one target: its running state and its trace, which is legal.
#[derive(Drop)]
pub(crate) struct Bench<A: Allocator> {
    bus: BusState,
    trace: Vec<Item, A>,
}

impl<A: Allocator> Model for Bench<A> {
    ghost use Rattle.std.specs.Prelude.{reverse};
    ghost use Rattle.onfi_cycle.specs.State.{Follows};
    ghost use Rattle.refused_run.specs.Course.{Scene};

    ghost Value = { Scene };

    ghost view = { λ b. record { geometry = b.bus.geometry; past = reverse b.trace.items } };

    ghost invariant = { λ b. Follows b.bus.geometry 1 b.bus (reverse b.trace.items) };
}

/// An item that isn't permitted, and the rule that it breaks first.
#[derive(Clone, Copy, Debug, PartialEq, Eq)]
pub struct Stop {
    pub item: Item,
    pub rule: Forbidden,
}

impl<A: Allocator> Bench<A> {
    /// A channel to which nothing has happened.
    pub(crate) fn new(alloc: A, geometry: Geometry) -> Bench<A>
        ensures { result ≡ record { geometry = geometry; past = [] } }
    {
        Bench {
            bus: BusState::new(geometry, 1),
            trace: Vec::new(alloc),
        }
    }

    /// Its geometry.
    pub(crate) fn geometry(&self) -> Geometry
        ensures { result ≡ self.now.geometry }
    {
        self.bus.geometry()
    }

    /// What has happened, in the order of time.
    pub(crate) fn items(&self) -> &[Item]
        ensures { result.now ≡ reverse self.now.past }
    {
        self.trace.as_slice()
    }

    /// A look at a LUN of its target.
    pub(crate) fn look(&self, lun: u8) -> Option<LunState>
        ensures { result ≡ look_after self.now.geometry 1 self.now.past (record { ce = 0; lun = lun }) }
    {
        self.bus.lun_state(Lun { ce: 0, lun })
    }

    /// The facts of the tail of its target.
    pub(crate) fn tail(&self) -> TailFacts
        ensures { result ≡ facts_of (tail self.now.past 0) }
    {
        match self.bus.tail(0) {
            Some(tail) => tail,
            None => unreachable!(),
        }
    }

    /// Nothing has happened.
    pub(crate) fn restart(&mut self)
        ensures { self.new ≡ record { geometry = self.old.geometry; past = [] } }
    {
        self.bus = BusState::new(self.bus.geometry(), 1);
        self.trace.clear();
    }

    /// An item comes, or the rule that it breaks first, and nothing has happened.
    pub(crate) fn push(&mut self, item: Item) -> Result<Option<Stop>, AllocError>
        ensures value { IfOk result (λ stop. HasPushed self.old self.new item stop) }
        ensures err { OnErr result (self.new ≡ self.old) }
    {
        match self.bus.judge(item) {
            Some(rule) => Ok(Some(Stop { item, rule })),
            None => {
                self.trace.push(item)?;
                self.bus.apply(item);
                Ok(None)
            }
        }
    }

    /// Items come one after another, up to one that isn't permitted.
    pub(crate) fn play(&mut self, items: &[Item]) -> Result<Option<Stop>, AllocError>
        ensures same { self.new.geometry ≡ self.old.geometry }
        ensures value { IfOk result (λ stop. HasPlayed self.old self.new items.now stop) }
    {
        for item in items {
            if let Some(stop) = self.push(*item)? {
                return Ok(Some(stop));
            }
        }
        Ok(None)
    }

    /// The same item comes so often, up to one that isn't permitted.
    pub(crate) fn repeat(&mut self, item: Item, count: usize) -> Result<Option<Stop>, AllocError>
        ensures same { self.new.geometry ≡ self.old.geometry }
        ensures value { IfOk result (λ stop. HasPlayed self.old self.new (replicate count item) stop) }
    {
        for _ in 0..count {
            if let Some(stop) = self.push(item)? {
                return Ok(Some(stop));
            }
        }
        Ok(None)
    }

    // So many of five items come, from a place on, up to one that isn't permitted.
    fn play_some(
        &mut self,
        items: &[Item; 5],
        from: usize,
        count: usize,
    ) -> Result<Option<Stop>, AllocError>
        requires { from + count ≤ 5 }
        ensures same { self.new.geometry ≡ self.old.geometry }
        ensures value { IfOk result (λ stop. HasPlayed self.old self.new (some_of from count items.now) stop) }
    {
        self.play(&items[from..from + count])
    }

    /// The cycles of a word come, up to one that isn't permitted.
    pub(crate) fn perform(&mut self, cycles: &Cycles) -> Result<Option<Stop>, AllocError>
        requires { IsOfFive cycles.now }
        ensures same { self.new.geometry ≡ self.old.geometry }
        ensures value { IfOk result (λ stop. HasPlayed self.old self.new (listed cycles.now) stop) }
    {
        match *cycles {
            Cycles::Few { items, from, count } => self.play_some(&items, from, count),
            Cycles::Many { item, count } => self.repeat(item, count),
        }
    }
}
