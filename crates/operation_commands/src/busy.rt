//! How long the work of an operation took, and how it ended.

use crate::listed_trace::ListedTrace;
use onfi_cycle::{Item, Kind};
use std::alloc::Global;
use std::fmt;
use trace_ops::{Beginning, Ending, Operation};

/// How long a LUN was busy: at the least and at the most.
#[derive(Clone, Copy, PartialEq, Eq)]
pub(crate) struct Busy {
    pub(crate) least: u64,
    pub(crate) most: u64,
}

impl fmt::Display for Busy {
    fn fmt<W: fmt::Write>(&self, f: &mut fmt::Formatter<W>) -> fmt::Result {
        if self.least == self.most {
            write!(f, "busy {}", self.most)
        } else {
            write!(f, "busy {} to {}", self.least, self.most)
        }
    }
}

// Whether the item behind a ready is a status output of the same time: so `capture` writes a ready that it took from a status.
fn is_from_status(trace: &ListedTrace, at: usize) -> bool {
    let next = at.saturating_add(1);
    match trace.item(next) {
        Some(Item::Cyc(cycle)) => {
            cycle.kind == Kind::Dout
                && trace.time(at).is_some()
                && trace.time(at) == trace.time(next)
        }
        Some(Item::Rdy { .. } | Item::Ard { .. }) | None => false,
    }
}

// The time from the beginning of work to an item.
fn time_to(trace: &ListedTrace, operation: Operation, at: usize) -> Option<u64> {
    let start = trace.time(operation.start?)?;
    Some(trace.time(at)?.saturating_sub(start))
}

// The least time: up to the last status byte that said busy.
fn least_time(trace: &ListedTrace, operation: Operation) -> Option<u64> {
    match operation.last_busy {
        None => Some(0),
        Some(at) => time_to(trace, operation, at),
    }
}

impl Busy {
    /// How long an operation's LUN was busy, where times tell it.
    pub(crate) fn of(trace: &ListedTrace, operation: Operation) -> Option<Busy> {
        let (at, is_exact) = match operation.end? {
            Ending::Ready { at, .. } => (at, !is_from_status(trace, at)),
            Ending::Shown { at, .. } | Ending::NotShown { at } => (at, false),
            Ending::Abandoned { .. } => return None,
        };
        let most = time_to(trace, operation, at)?;
        let least = if is_exact {
            most
        } else {
            least_time(trace, operation)?.min(most)
        };
        Some(Busy { least, most })
    }
}

/// How an operation ended, in one word.
#[derive(Clone, Copy, PartialEq, Eq)]
pub(crate) enum End {
    Ready,
    Failed,
    NotShown,
    Abandoned(usize),
    WorksOn,
    /// Its sequence isn't whole.
    Unended,
    /// Its last cycle wasn't permitted.
    NotDone,
}

impl End {
    /// The word of it.
    pub(crate) fn word(self) -> &'static str {
        match self {
            End::Ready => "ready",
            End::Failed => "failed",
            End::NotShown => "not-shown",
            End::Abandoned(_) => "abandoned",
            End::WorksOn => "works-on",
            End::Unended => "unended",
            End::NotDone => "not-done",
        }
    }
}

// A closer or an address is missing.
fn is_unended(operation: Operation, opener: u8) -> bool {
    match opener {
        0x00 => !operation.is_alone() && operation.closer.is_none(),
        0x05 | 0x06 | 0x60 | 0x80 | 0x85 => operation.closer.is_none(),
        0x78 => operation.address_count < 3,
        0x90 | 0xec => operation.address_count < 1,
        _ => false,
    }
}

// How an operation without work ended, if that is to be said.
fn end_without_work(operation: Operation) -> Option<End> {
    let Beginning::Opener(opener) = operation.beginning else {
        return None;
    };
    if is_unended(operation, opener) {
        return Some(End::Unended);
    }
    let works = matches!(
        opener,
        0x00 | 0x05 | 0x06 | 0x60 | 0x80 | 0xec | 0xff | 0x31 | 0x3f
    );
    (works && !operation.is_permitted).then_some(End::NotDone)
}

// How work ended.
fn end_of_work(end: Option<Ending>) -> End {
    match end {
        None => End::WorksOn,
        Some(Ending::Ready { failed, .. } | Ending::Shown { failed, .. }) => {
            if failed { End::Failed } else { End::Ready }
        }
        Some(Ending::NotShown { .. }) => End::NotShown,
        Some(Ending::Abandoned { at }) => End::Abandoned(at),
    }
}

impl End {
    /// How an operation ended, if that is to be said.
    pub(crate) fn of(operation: Operation) -> Option<End> {
        match (operation.start, operation.beginning) {
            (Some(_), _) => Some(end_of_work(operation.end)),
            (None, Beginning::Ready | Beginning::Cut) => None,
            (None, Beginning::Opener(_)) => end_without_work(operation),
        }
    }
}

/// The item that ended the work of an operation.
pub(crate) fn end_item(operation: Operation) -> Option<usize> {
    match operation.end? {
        Ending::Ready { at, .. } | Ending::Shown { at, .. } | Ending::NotShown { at } => Some(at),
        Ending::Abandoned { .. } => None,
    }
}

/// The status byte that tells how an operation ended: the first that said ready, or the last that it asked for.
pub(crate) fn status_of(operation: Operation) -> Option<u8> {
    match operation.start {
        Some(_) => operation.status,
        None => operation.shown,
    }
}
