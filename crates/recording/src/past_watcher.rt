//! What stands before the first faults of a trace, gathered while the trace is judged.

use crate::explained_fault::ExplainedFault;
use crate::places::Places;
use nand_geometry::Geometry;
use onfi_cycle::{Command, Cycle, Forbidden, Item, Kind, starts_work};
use std::alloc::Global;
use trace_causes::{Cause, CommandAt, FaultyCycle, TargetLook, TargetPast};
use trace_faults::{OutsideSequence, TraceState, TraceWatcher};

// How many targets a channel has at most.
const MOST_TARGETS: usize = 4;

// An item that was seen, and whether it was permitted.
#[derive(Clone, Copy)]
struct SeenItem {
    place: usize,
    item: Item,
    is_permitted: bool,
}

/// How many faults are said in words at most; the lines of the output name all.
pub const MOST_SAID: usize = 100;

/// Whoever looks on at items that are judged, and keeps what the words of their first faults name, by the places of these items in the trace.
#[derive(Drop)]
pub(crate) struct PastWatcher<'p> {
    geometry: Geometry,
    places: Places<'p>,
    pasts: [TargetPast; MOST_TARGETS],
    // The item seen last: what it makes of its target shows at the next.
    last: Option<SeenItem>,
    pub(crate) explained: Vec<ExplainedFault>,
}

// The opener was done, though it came too early.
fn is_opened(state: &TraceState, cycle: Cycle) -> bool {
    match state.bus.tail(cycle.ce) {
        None => false,
        Some(tail) => match tail.opening {
            None => false,
            Some(opening) => opening.addresses == 0 && opening.opener == Command::of(cycle.byte),
        },
    }
}

impl<'p> PastWatcher<'p> {
    /// Nothing of a trace has been seen yet, of chips of this geometry.
    pub(crate) fn new(alloc: Global, geometry: Geometry, places: Places<'p>) -> PastWatcher<'p> {
        PastWatcher {
            geometry,
            places,
            pasts: [TargetPast::nothing(); MOST_TARGETS],
            last: None,
            explained: Vec::new(alloc),
        }
    }

    fn past(&self, ce: u8) -> TargetPast {
        let place = usize::from(ce);
        if place < MOST_TARGETS {
            self.pasts[place]
        } else {
            TargetPast::nothing()
        }
    }

    fn set_past(&mut self, ce: u8, past: TargetPast) {
        let place = usize::from(ce);
        if place < MOST_TARGETS {
            self.pasts[place] = past;
        }
    }

    // Notes which LUNs of a target work.
    fn note_work(&mut self, state: &TraceState, ce: u8) {
        let mut past = self.past(ce);
        past.note_work(TargetLook::of(&state.bus, ce));
        self.set_past(ce, past);
    }

    // Notes a command that its target has taken.
    fn note_command(&mut self, state: &TraceState, cycle: Cycle, item: usize) {
        let mut past = self.past(cycle.ce);
        let target = TargetLook::of(&state.bus, cycle.ce);
        let command = CommandAt {
            byte: cycle.byte,
            item: Some(item),
        };
        past.note_command(command, target.tail);
        if starts_work(Item::Cyc(cycle)) {
            past.note_work(target);
        }
        self.set_past(cycle.ce, past);
    }

    // Notes an address that its target has taken: the work of a parameter page begins with it.
    fn note_address(&mut self, state: &TraceState, cycle: Cycle) {
        let past = self.past(cycle.ce);
        if past.is_reading_parameters() {
            self.note_work(state, cycle.ce);
        }
    }

    // Notes what the item seen last made of its target, which is there now.
    fn note_last(&mut self, state: &TraceState) {
        let Some(seen) = self.last else {
            return;
        };
        let Item::Cyc(cycle) = seen.item else {
            return;
        };
        match cycle.kind {
            Kind::Cmd => {
                if seen.is_permitted || is_opened(state, cycle) {
                    self.note_command(state, cycle, seen.place);
                }
            }
            Kind::Adr => {
                if seen.is_permitted {
                    self.note_address(state, cycle);
                }
            }
            Kind::Din | Kind::Dout => {}
        }
    }

    // Keeps why a cycle breaks this rule, if it is one of the first.
    fn explain(&mut self, state: &TraceState, item: usize, cycle: Cycle, rule: Forbidden) {
        if MOST_SAID <= self.explained.len() {
            return;
        }
        let faulty = FaultyCycle {
            geometry: self.geometry,
            target: TargetLook::of(&state.bus, cycle.ce),
            past: self.past(cycle.ce),
            cycle,
        };
        // Without memory the fault is told by its rule.
        let _ = self.explained.push(ExplainedFault {
            item,
            cause: faulty.cause_of(rule),
            opener: faulty.opener_of_address(),
        });
    }
}

impl TraceWatcher for PastWatcher<'_> {
    fn see(&mut self, state: &TraceState, number: usize, item: Item, rule: Option<Forbidden>) {
        let place = self.places.of(number);
        self.note_last(state);
        if starts_work(item) {
            self.note_work(state, item.target());
        }
        if let (Item::Cyc(cycle), Some(rule)) = (item, rule) {
            self.explain(state, place, cycle, rule);
        }
        self.last = Some(SeenItem {
            place,
            item,
            is_permitted: rule.is_none(),
        });
    }

    fn pass_over(&mut self, state: &TraceState, _place: usize, _item: Item) {
        self.note_last(state);
        self.last = None;
    }
}
