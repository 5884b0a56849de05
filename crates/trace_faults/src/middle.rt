//! Going on with a trace whose recording began in the middle.
ghost use Rattle.std.specs.Prelude.{◌≡◌, slice_set};
ghost use Rattle.trace_faults.specs.Middle.{Seen, verdict_on, verdict_here, is_passed_over, granted_to, judged_on, seen_by, said_of, here, verdict, seen_after, learned, known_of};
ghost use Rattle.trace_faults.specs.Recovery.{gone_on};
ghost use Rattle.onfi_cycle.specs.Sequence.{target_of};

use crate::known::{AllKnown, Known, begins_here, known_of, note_known};
use crate::looks::Looks;
use crate::readies::Readies;
use crate::trace_state::TraceState;
use crate::verdict::Verdict;
use nand_geometry::Geometry;
use onfi_cycle::Item;

// Whether an item belongs to a sequence whose opener wasn't seen.
fn is_passed_over(geometry: &Geometry, known: Known, item: Item) -> bool
    ensures { result ≡ is_passed_over geometry.now known item }
{
    match item {
        Item::Cyc(_) => !(known.opened || begins_here(geometry, item)),
        Item::Rdy { .. } | Item::Ard { .. } => false,
    }
}

// Whether an item is passed over where this is kept.
fn passes_over(state: &TraceState, known: &AllKnown, item: Item) -> bool
    ensures { result ≡ is_passed_over state.now.bus.geometry (known_of known.now (target_of item)) item }
{
    is_passed_over(&state.bus.geometry(), known_of(known, item.target()), item)
}

// What is said of an item that is judged on this state, of whose target this is known.
fn verdict_on(state: &TraceState, known: Known, item: Item) -> Verdict
    ensures { result ≡ verdict_on state.now known item }
{
    let rule = state.judge(item);
    match item {
        Item::Cyc(cycle) => Verdict::of_cycle(known.doubts(&state.bus, cycle.ce), rule),
        Item::Rdy { ce, lun, .. } => Verdict::of_ready(
            known.doubts_ready(&state.bus, ce, lun),
            rule,
        ),
        Item::Ard { ce, lun, .. } => Verdict::of_ready(
            known.doubts_ready(&state.bus, ce, lun),
            rule,
        ),
    }
}

// What is said of an item that is judged on this state.
fn verdict_here(state: &TraceState, known: &AllKnown, item: Item) -> Verdict
    ensures { result ≡ verdict_here (record { state = state.now; known = known.now }) item }
{
    verdict_on(state, known_of(known, item.target()), item)
}

// Takes an item for granted.
fn grant(state: &mut TraceState, known: &mut AllKnown, item: Item)
    ensures state { state.new ≡ (granted_to item (record { state = state.old; known = known.old })).state }
    ensures known { known.new ≡ (granted_to item (record { state = state.old; known = known.old })).known }
{
    match item {
        Item::Cyc(cycle) => {
            state.drop_sequence(cycle.ce);
            note_known(known, cycle.ce, Known::nothing());
        }
        Item::Rdy { .. } | Item::Ard { .. } => {}
    }
}

// Writes down what an item shows of its target, with a look at its LUNs before it and one after it.
fn note_learned(known: &mut AllKnown, geometry: &Geometry, item: Item, before: Looks, after: Looks)
    ensures { known.new ≡ slice_set known.old (target_of item) (learned geometry.now item before after (known_of known.old (target_of item))) }
{
    let target = item.target();
    let now = known_of(known, target).learned(geometry, item, before, after);
    note_known(known, target, now);
}

// Goes on after an item that was judged, and notes what it shows.
fn go_on_learning(state: &mut TraceState, known: &mut AllKnown, item: Item)
    ensures state { state.new ≡ gone_on item state.old }
    ensures known { known.new ≡ (judged_on item (record { state = state.old; known = known.old })).known }
{
    let geometry = state.bus.geometry();
    let before = Looks::of(&state.bus, item.target());
    let _ = state.go_on(item);
    note_learned(
        known,
        &geometry,
        item,
        before,
        Looks::of(&state.bus, item.target()),
    );
}

// Goes on after an item that was judged.
fn go_on_judged(state: &mut TraceState, known: &mut AllKnown, item: Item)
    ensures state { state.new ≡ gone_on item state.old }
    ensures known { known.new ≡ (judged_on item (record { state = state.old; known = known.old })).known }
{
    if known_of(known, item.target()).is_whole() {
        let _ = state.go_on(item);
        return;
    }
    go_on_learning(state, known, item);
}

// Goes on after an item of which this is said.
fn go_on_by(state: &mut TraceState, known: &mut AllKnown, item: Item, said: Verdict)
    ensures state { state.new ≡ (seen_by said item (record { state = state.old; known = known.old })).state }
    ensures known { known.new ≡ (seen_by said item (record { state = state.old; known = known.old })).known }
{
    match said {
        Verdict::Permitted | Verdict::Broken(_) | Verdict::NotShown(_) => {
            go_on_judged(state, known, item);
        }
        Verdict::PassedOver => {}
        Verdict::Granted(_) => grant(state, known, item),
    }
}

// Goes on to where an item is judged that isn't passed over, and tells what is said of it.
fn go_on_to(
    state: &mut TraceState,
    known: &AllKnown,
    readies: Readies,
    item: Item,
    later: &[Item],
) -> Verdict
    ensures said { result ≡ said_of readies (record { state = state.old; known = known.now }) item later.now }
    ensures state { state.new ≡ (here readies (record { state = state.old; known = known.now }) item later.now).state }
{
    readies.go_on_by_shown(state, item);
    let as_it_stands = verdict_here(state, known, item);
    if as_it_stands.is_granted() {
        return as_it_stands;
    }
    let ready = readies.go_on_by_taken(state, item, later);
    verdict_here(state, known, item).with_ready_taken(ready)
}

/// Goes on by an item, and tells what is said of it.
pub(crate) fn go_on_from_middle(
    state: &mut TraceState,
    known: &mut AllKnown,
    readies: Readies,
    item: Item,
    later: &[Item],
) -> Verdict
    ensures said { result ≡ verdict readies (record { state = state.old; known = known.old }) item later.now }
    ensures state { state.new ≡ (seen_after readies (record { state = state.old; known = known.old }) item later.now).state }
    ensures known { known.new ≡ (seen_after readies (record { state = state.old; known = known.old }) item later.now).known }
{
    if passes_over(state, known, item) {
        return Verdict::PassedOver;
    }
    let said = go_on_to(state, known, readies, item, later);
    go_on_by(state, known, item, said);
    said
}
