//! Which operations are printed.

use crate::listed_trace::ListedTrace;
use crate::ops_request::{OpsFilter, OpsForm, OpsRequest, OpsText};
use crate::place::Place;
use std::alloc::{AllocError, Global};
use trace_ops::Operation;

// A name is among those, with commas between.
fn is_among(kinds: &str, name: &str) -> bool {
    kinds.split(',').any(|kind| kind == name)
}

// Nothing is asked for, or it is this.
fn is_none_or<T: PartialEq + Copy + Drop>(asked: Option<T>, found: Option<T>) -> bool {
    match (asked, found) {
        (None, _) => true,
        (Some(_), None) => false,
        (Some(asked), Some(found)) => asked == found,
    }
}

// A time is within bounds; one that isn't there is within none.
fn is_within(filter: OpsFilter<'_>, time: Option<u64>) -> bool {
    let from = filter.from.unwrap_or(0);
    let to = filter.to.unwrap_or(u64::MAX);
    match time {
        None => filter.from.is_none() && filter.to.is_none(),
        Some(time) => from <= time && time <= to,
    }
}

// An item is within bounds.
fn is_item_within(items: Option<(usize, usize)>, item: usize) -> bool {
    match items {
        None => true,
        Some((first, last)) => first <= item && item <= last,
    }
}

// Whether polls have lines of their own.
fn has_polls(form: OpsForm) -> bool {
    match form {
        OpsForm::Text(OpsText { has_polls, .. }) => has_polls,
        OpsForm::Csv | OpsForm::Json { .. } => false,
    }
}

/// Whether an operation is printed.
pub(crate) fn is_printed(
    alloc: Global,
    request: OpsRequest<'_>,
    trace: &ListedTrace,
    operation: Operation,
) -> Result<bool, AllocError> {
    if operation.is_folded() && !has_polls(request.form) {
        return Ok(false);
    }
    let filter = request.filter;
    let place = Place::of(&trace.geometry, operation);
    let lun = place.lun_of(&trace.geometry, operation);
    if let Some(kinds) = filter.kinds {
        let name = format!(in alloc; "{}", operation.name())?;
        if !is_among(kinds, name.as_str()) {
            return Ok(false);
        }
    }
    Ok(
        is_none_or(filter.lun.map(|asked| asked.0), Some(operation.ce))
            && is_none_or(filter.lun.map(|asked| asked.1), lun)
            && is_none_or(filter.block, place.block())
            && is_item_within(filter.items, trace.place(operation.first))
            && is_within(filter, trace.time(operation.first)),
    )
}
