//! What isn't meant, found in the operations of a trace.

use crate::array_work::ArrayWork;
use crate::history::History;
use crate::note::{HostNote, HostNoteAt};
use nand_geometry::Geometry;
use std::alloc::{AllocError, Allocator};
use trace_ops::{Ending, Operation};

// The item with which the work of an operation began, if it failed and no status said so.
fn unseen_of(operation: Operation) -> Option<usize> {
    match (operation.end, operation.status) {
        (Some(Ending::Ready { failed: true, .. }), None) => operation.start,
        (
            Some(
                Ending::Ready { .. }
                | Ending::Shown { .. }
                | Ending::NotShown { .. }
                | Ending::Abandoned { .. },
            )
            | None,
            _,
        ) => None,
    }
}

// Some later operation begins work on the LUN of this one.
fn has_later_work(operation: Operation, later: &[Operation]) -> bool {
    later.iter().any(|other| {
        other.start.is_some() && other.ce == operation.ce && other.lun == operation.lun
    })
}

/// What the host surely didn't mean by these operations of a trace, in the order of the items: N2 to N4, as `lint` notes them of a program. A failure that no
/// status showed counts where its LUN begins more work.
pub fn find_host_notes<A: Allocator + Clone>(
    alloc: A,
    geometry: &Geometry,
    operations: &[Operation],
) -> Result<Vec<HostNoteAt, A>, AllocError> {
    let mut history = History::new(alloc)?;
    let mut rest = operations;
    'rest: while let Some((operation, later)) = rest.split_first() {
        if let Some(item) = operation.start
            && let Some(work) = ArrayWork::of(geometry, *operation)
        {
            history.go_on(item, work)?;
        }
        if let Some(item) = unseen_of(*operation)
            && has_later_work(*operation, later)
        {
            history.note(item, HostNote::Unseen)?;
        }
        rest = later;
    }
    let History { mut notes, .. } = history;
    notes.as_mut_slice().sort_unstable();
    Ok(notes)
}
