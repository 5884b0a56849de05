//! A program that may not be closed by `cmd 15`.

use crate::command_at::CommandAt;
use crate::queue_cause::queued_by;
use crate::refused::Refused;
use micro_claims::QueuedRows;
use onfi_cycle::Forbidden;
use std::fmt;

/// Why `cmd 15` may not close a program that takes data.
#[derive(Clone, Copy, Debug, PartialEq, Eq)]
pub enum ProgramCause {
    /// A row of another plane is queued, and the chip caches programs of one plane alone.
    Group(CommandAt),
    /// The page may be a copy.
    Copy,
}

impl ProgramCause {
    pub(crate) fn of(refused: &Refused<'_>) -> Option<ProgramCause> {
        let optional = refused.geometry.parts().optional;
        let lun = &refused.state.lun;
        if !optional.has_group_cache() && !matches!(lun.queue, QueuedRows::NoRows) {
            Some(ProgramCause::Group(queued_by(refused)))
        } else if optional.has_copyback() && lun.copies.holds {
            Some(ProgramCause::Copy)
        } else {
            None
        }
    }

    /// The rule that this breaks.
    pub fn rule(self) -> Forbidden {
        match self {
            ProgramCause::Group(_) => Forbidden::CacheProgramMisplaced,
            ProgramCause::Copy => Forbidden::CopybackMisplaced,
        }
    }
}

impl fmt::Display for ProgramCause {
    fn fmt<W: fmt::Write>(&self, f: &mut fmt::Formatter<W>) -> fmt::Result {
        match self {
            ProgramCause::Group(queued) => write!(
                f,
                "the row of {queued} is queued: `cmd 10` must come here, as the chip doesn't declare cache programs of several planes"
            ),
            ProgramCause::Copy => f.write_str(
                "the LUN may hold a page that was read, as for a copy: `cmd 10` must come here",
            ),
        }
    }
}
