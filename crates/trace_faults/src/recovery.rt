//! Going on with a trace, whether its items are permitted or not.
ghost use Rattle.std.specs.Prelude.{◌≡◌};
ghost use Rattle.onfi_cycle.specs.Sequence.{target_of};
ghost use Rattle.onfi_cycle.specs.State.{judged, bus_without};
ghost use Rattle.trace_faults.specs.Recovery.{done_unless, judged_here, recovered, bus_by, gone_on, gone_on_by, without_sequence};
ghost use Rattle.trace_faults.specs.OutsideSequences.{mark_of};

use crate::denied::{note_addresses, note_busy};
use crate::outside::{is_opening, leaves_profile, note_standing};
use crate::outside_sequences::{Mark, mark_inside};
use crate::trace_state::TraceState;
use crate::watching::{NoWatcher, TraceWatcher};
use onfi_cycle::{BusState, Forbidden, Item};

// Goes on after an opener that isn't permitted.
fn reopen(bus: &mut BusState, item: Item)
    ensures { bus.new ≡ done_unless (judged (bus_without (target_of item) bus.old) item) item (bus_without (target_of item) bus.old) }
{
    bus.drop_sequence(item.target());
    if bus.judge(item).is_none() {
        bus.apply(item);
    }
}

// Goes on after an item that breaks this rule.
fn recover(bus: &mut BusState, rule: Forbidden, item: Item)
    ensures { bus.new ≡ recovered rule item bus.old }
{
    if leaves_profile(Some(rule), bus, item.target()) {
        bus.drop_sequence(item.target());
    } else if is_opening(&bus.geometry(), item) {
        reopen(bus, item);
    }
}

// Goes on after an item, which breaks this rule first.
fn go_on_by(bus: &mut BusState, rule: Option<Forbidden>, item: Item)
    requires { rule ≡ judged bus.old item }
    ensures { bus.new ≡ bus_by rule item bus.old }
{
    match rule {
        None => bus.apply(item),
        Some(rule) => recover(bus, rule, item),
    }
}

/// How an item is judged, and what it is to the sequences outside of the profile.
#[derive(Clone, Copy)]
pub(crate) struct Judgement {
    pub(crate) rule: Option<Forbidden>,
    pub(crate) mark: Mark,
}

impl TraceState {
    /// The first rule that an item breaks; None where it is permitted, or passed over.
    pub fn judge(&self, item: Item) -> Option<Forbidden>
        ensures { result ≡ judged_here self.now item }
    {
        if self.is_outside(item) {
            None
        } else {
            self.bus.judge(item)
        }
    }

    // Goes on by an item that isn't passed over, and breaks this rule first.
    fn go_on_inside(&mut self, rule: Option<Forbidden>, item: Item)
        requires { rule ≡ judged self.old.bus item }
        ensures { self.new ≡ gone_on_by (judged self.old.bus item) item self.old }
    {
        note_standing(&mut self.standings, rule, &self.bus, item);
        note_busy(&mut self.shown_busy, &self.bus, item);
        go_on_by(&mut self.bus, rule, item);
        note_addresses(&mut self.shown_busy, &self.bus, item);
    }

    /// The same as [`TraceState::go_on`], and what the item is to the sequences outside of the profile. The watcher sees it before it is gone on by.
    pub(crate) fn go_on_watched<W: TraceWatcher>(
        &mut self,
        watcher: &mut W,
        place: usize,
        item: Item,
    ) -> Judgement
        ensures rule { result.rule ≡ judged_here self.old item }
        ensures mark { result.mark ≡ mark_of self.old item }
        ensures state { self.new ≡ gone_on item self.old }
    {
        if self.is_outside(item) {
            watcher.pass_over(self, place, item);
            return Judgement {
                rule: None,
                mark: Mark::PassedOver,
            };
        }
        let rule = self.bus.judge(item);
        let mark = mark_inside(rule, &self.bus, item);
        watcher.see(self, place, item, rule);
        self.go_on_inside(rule, item);
        Judgement { rule, mark }
    }

    /// Goes on by an item, and tells the first rule that it breaks, None where it is permitted. Of an item that isn't permitted nothing is left; but an
    /// opener drops the sequence that its target is in, and is done where it is permitted then. So does a command that isn't in the profile, and an address
    /// that the profile hasn't of 90 or EC: what follows it on its target is passed over, up to the next command that begins a sequence.
    pub fn go_on(&mut self, item: Item) -> Option<Forbidden>
        ensures rule { result ≡ judged_here self.old item }
        ensures state { self.new ≡ gone_on item self.old }
    {
        self.go_on_watched(&mut NoWatcher, 0, item).rule
    }

    /// Drops the sequence that a target is in.
    pub(crate) fn drop_sequence(&mut self, ce: u8)
        ensures { self.new ≡ without_sequence ce self.old }
    {
        self.bus.drop_sequence(ce);
    }
}
