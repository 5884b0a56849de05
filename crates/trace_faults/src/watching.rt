//! Whoever looks on while a trace is judged.

use crate::trace_state::TraceState;
use onfi_cycle::{Forbidden, Item};

/// Whoever looks on while a trace is judged, item by item. Nothing that it does changes a verdict.
pub trait TraceWatcher {
    /// The item at this place of the trace, from 0 on, comes to this channel and breaks this rule first; None: it is permitted.
    fn see(&mut self, state: &TraceState, place: usize, item: Item, rule: Option<Forbidden>);

    /// The item at this place is passed over, since it belongs to a sequence outside of the profile.
    fn pass_over(&mut self, state: &TraceState, place: usize, item: Item);
}

/// Takes no notice of it.
#[derive(Drop)]
pub(crate) struct NoWatcher;

impl TraceWatcher for NoWatcher {
    fn see(&mut self, _state: &TraceState, _place: usize, _item: Item, _rule: Option<Forbidden>) {}

    fn pass_over(&mut self, _state: &TraceState, _place: usize, _item: Item) {}
}
