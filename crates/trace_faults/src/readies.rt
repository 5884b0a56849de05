//! Where the readies of a trace are.
ghost use Rattle.std.specs.Prelude.{◌≡◌};
ghost use Rattle.trace_faults.specs.Faults.{before_taken, taken_on, with_unshown, with_further, with_each, with_taken, before_item};
ghost use Rattle.trace_faults.specs.Unshown.{unshown, further, ready_taken};

use crate::shown_readies::{go_on_by_readies, go_on_by_some};
use crate::trace_state::TraceState;
use crate::unshown::{UnshownReady, further, ready_taken, unshown};
use onfi_cycle::Item;

/// Goes on by the ready of a LUN that an item needs, and that nothing showed, and tells it.
pub(crate) fn go_on_by_unshown(
    state: &mut TraceState,
    item: Item,
    later: &[Item],
) -> Option<UnshownReady>
    ensures ready { result ≡ unshown state.old item later.now }
    ensures state { state.new ≡ with_unshown state.old item later.now }
{
    let ready = unshown(state, item, later);
    go_on_by_some(state, ready_taken(ready));
    ready
}

/// Goes on by the ready of a further LUN that an item needs, and tells it.
pub(crate) fn go_on_by_further(state: &mut TraceState, item: Item, later: &[Item]) -> Option<Item>
    ensures ready { result ≡ ready_taken (further state.old item later.now) }
    ensures state { state.new ≡ with_further state.old item later.now }
{
    let ready = ready_taken(further(state, item, later));
    go_on_by_some(state, ready);
    ready
}

// Goes on by the readies of all further LUNs that an item needs.
fn go_on_by_each(state: &mut TraceState, item: Item, later: &[Item])
    ensures { state.new ≡ with_each state.old item later.now }
{
    let _ = go_on_by_further(state, item, later);
    let _ = go_on_by_further(state, item, later);
    let _ = go_on_by_further(state, item, later);
}

/// Where the readies of a trace are.
#[derive(Clone, Copy, Debug, PartialEq, Eq)]
pub enum Readies {
    /// They are items of the trace.
    Written,
    /// The status outputs show them: a LUN that was busy and shows RDY became ready before, with failure if it shows FAIL; one whose array
    /// was busy and that shows ARDY has an array that became ready before.
    Shown,
}

impl Readies {
    /// Goes on by the readies that an item shows, where they aren't written.
    pub(crate) fn go_on_by_shown(self, state: &mut TraceState, item: Item)
        ensures { state.new ≡ before_taken self state.old item }
    {
        match self {
            Readies::Written => {}
            Readies::Shown => {
                let _ = go_on_by_readies(state, item);
            }
        }
    }

    /// Goes on by the readies that an item needs besides, where readies aren't written, and tells the first.
    pub(crate) fn go_on_by_taken(
        self,
        state: &mut TraceState,
        item: Item,
        later: &[Item],
    ) -> Option<UnshownReady>
        ensures ready { result ≡ taken_on self state.old item later.now }
        ensures state { state.new ≡ with_taken self state.old item later.now }
    {
        match self {
            Readies::Written => None,
            Readies::Shown => {
                let ready = go_on_by_unshown(state, item, later);
                go_on_by_each(state, item, later);
                ready
            }
        }
    }

    /// Goes on to where an item is judged: by the readies that it shows, where they aren't written, and those that it needs besides, of which it tells the first.
    pub fn go_on_to(
        self,
        state: &mut TraceState,
        item: Item,
        later: &[Item],
    ) -> Option<UnshownReady>
        ensures ready { result ≡ taken_on self (before_taken self state.old item) item later.now }
        ensures state { state.new ≡ before_item self state.old item later.now }
    {
        self.go_on_by_shown(state, item);
        self.go_on_by_taken(state, item, later)
    }
}
