//! What an item makes of an operation.
ghost use Rattle.std.specs.Prelude.{◌≡◌};
ghost use Rattle.trace_ops.specs.Operation.{changed, changed_at, changed_if};

use crate::operation::{Ending, Operation};
use onfi_cycle::{Kind, PageAddress};
use std::alloc::Allocator;
use trace_faults::Verdict;

/// What an item makes of an operation.
#[derive(Clone, Copy)]
pub(crate) enum Change {
    /// Its opener, at this item.
    Opened {
        item: usize,
        said: Verdict,
    },
    /// A cycle of it, at this item.
    Cycle {
        item: usize,
        kind: Kind,
        byte: u8,
        said: Verdict,
    },
    /// A ready of it.
    LoneReady {
        item: usize,
        said: Verdict,
    },
    /// Its work ends, if it hasn't.
    End {
        end: Ending,
    },
    /// Its work begins, on this LUN.
    Begin {
        item: usize,
        lun: u8,
    },
    /// A status byte of its LUN.
    Poll {
        item: usize,
        byte: u8,
    },
    /// It asked for a status, which is this byte.
    Show {
        byte: u8,
    },
    /// Its outputs give this page.
    Hold {
        page: PageAddress,
    },
    /// It is of this LUN.
    SetLun {
        lun: u8,
    },
    /// It is a part of another.
    Fold {
        parent: usize,
    },
    /// It is no part of another.
    Unfold,
}

impl Operation {
    // Once this has come.
    fn changed(self, change: Change) -> Operation
        ensures { result ≡ changed change self }
    {
        match change {
            Change::Opened { item, said } => self.noted(item, said, false),
            Change::Cycle {
                item,
                kind,
                byte,
                said,
            } => self.with_cycle(item, kind, byte, said),
            Change::LoneReady { item, said } => self.noted(item, said, true),
            Change::End { end } => self.with_end(end),
            Change::Begin { item, lun } => Operation {
                start: Some(item),
                lun: Some(lun),
                ..self
            },
            Change::Poll { item, byte } => self.with_poll(item, byte),
            Change::Show { byte } => Operation {
                shown: Some(byte),
                ..self
            },
            Change::Hold { page } => Operation {
                held: Some(page),
                ..self
            },
            Change::SetLun { lun } => Operation {
                lun: Some(lun),
                ..self
            },
            Change::Fold { parent } => Operation {
                parent: Some(parent),
                ..self
            },
            Change::Unfold => Operation {
                parent: None,
                lun: None,
                ..self
            },
        }
    }
}

/// Changes the operation of this number, if it is there.
pub(crate) fn change_at<A: Allocator>(ops: &mut Vec<Operation, A>, at: usize, change: Change)
    ensures { ops.new.items ≡ changed_at at change ops.old.items }
{
    if at < ops.len() {
        let operation = ops[at];
        ops[at] = operation.changed(change);
    }
}

/// The same, if there is such a number.
pub(crate) fn change_if<A: Allocator>(
    ops: &mut Vec<Operation, A>,
    at: Option<usize>,
    change: Change,
)
    ensures { ops.new.items ≡ changed_if at change ops.old.items }
{
    if let Some(at) = at {
        change_at(ops, at, change);
    }
}
