//! A LUN that may not be ready for more work.

use crate::busy::Busy;
use crate::command_at::CommandAt;
use crate::copy_cause::CopyCause;
use crate::plane_cause::PlaneCause;
use crate::queue_cause::QueueCause;
use crate::refused::Refused;
use onfi_cycle::{Command, Forbidden};
use std::fmt;

/// Why the LUN may not take on more work.
#[derive(Clone, Copy)]
pub enum LunCause {
    /// It may be busy.
    Busy(Busy),
    /// Its queue doesn't go together with it.
    Queue(QueueCause),
    /// It reads a cache since this command.
    CacheRead(CommandAt),
    /// Its array may be at the program of this command.
    CacheProgram(CommandAt),
    /// The plane of the row can't be selected.
    Plane(PlaneCause),
    /// No page may be copied to the row, or it comes amid copies.
    Copy(CopyCause),
}

// The row of the opener may name a LUN whose cache read goes on: that of a Read in the wider profile.
fn may_name_caching(refused: &Refused<'_>, opener: Command) -> bool {
    opener == Command::Read && refused.is_wide()
}

impl LunCause {
    /// Against what wants the LUN to be ready.
    pub(crate) fn of_busy(refused: &Refused<'_>) -> Option<LunCause> {
        if refused.state.lun.busy {
            Some(LunCause::Busy(Busy::of(refused)))
        } else {
            None
        }
    }

    // Against what wants that no cache read goes on.
    fn of_cache(refused: &Refused<'_>) -> Option<LunCause> {
        if refused.state.lun.last.may_be_31() {
            Some(LunCause::CacheRead(refused.cache_read()))
        } else {
            None
        }
    }

    // Against what wants that the array programs nothing.
    fn of_program(refused: &Refused<'_>) -> Option<LunCause> {
        if refused.state.lun.programming {
            Some(LunCause::CacheProgram(refused.last(Command::ProgramCache)))
        } else {
            None
        }
    }

    /// Against work that wants the LUN for itself.
    pub(crate) fn of_lone_work(refused: &Refused<'_>) -> Option<LunCause> {
        if let Some(busy) = LunCause::of_busy(refused) {
            Some(busy)
        } else if let Some(queue) = QueueCause::of_lone_work(refused) {
            Some(LunCause::Queue(queue))
        } else if let Some(cache) = LunCause::of_cache(refused) {
            Some(cache)
        } else {
            LunCause::of_program(refused)
        }
    }

    /// Against the row of an opener.
    pub(crate) fn of_row(refused: &Refused<'_>, opener: Command) -> Option<LunCause> {
        if let Some(busy) = LunCause::of_busy(refused) {
            Some(busy)
        } else if opener == Command::ChangeReadColumnEnhanced {
            LunCause::of_selection(refused)
        } else if let Some(queue) = QueueCause::of_row(refused, opener) {
            Some(LunCause::Queue(queue))
        } else {
            LunCause::of_array(refused, opener)
        }
    }

    // Against the row of `cmd 06`.
    fn of_selection(refused: &Refused<'_>) -> Option<LunCause> {
        if let Some(program) = LunCause::of_program(refused) {
            Some(program)
        } else {
            Some(LunCause::Plane(PlaneCause::of(refused)?))
        }
    }

    // Against the row of another opener, by what the array may do and which pages are held.
    fn of_array(refused: &Refused<'_>, opener: Command) -> Option<LunCause> {
        if !may_name_caching(refused, opener) {
            if let Some(cache) = LunCause::of_cache(refused) {
                return Some(cache);
            }
        }
        if opener != Command::PageProgram {
            if let Some(program) = LunCause::of_program(refused) {
                return Some(program);
            }
        }
        Some(LunCause::Copy(CopyCause::of_row(refused, opener)?))
    }

    /// The rule that this breaks.
    pub fn rule(self) -> Forbidden {
        match self {
            LunCause::Busy(_) => Forbidden::LunBusy,
            LunCause::Queue(_) => Forbidden::QueueClash,
            LunCause::CacheRead(_) => Forbidden::CacheReadMisplaced,
            LunCause::CacheProgram(_) => Forbidden::CacheProgramMisplaced,
            LunCause::Plane(_) => Forbidden::PlaneNotHeld,
            LunCause::Copy(_) => Forbidden::CopybackMisplaced,
        }
    }
}

impl fmt::Display for LunCause {
    fn fmt<W: fmt::Write>(&self, f: &mut fmt::Formatter<W>) -> fmt::Result {
        match self {
            LunCause::Busy(busy) => write!(f, "{busy}"),
            LunCause::Queue(queue) => write!(f, "{queue}"),
            LunCause::Plane(plane) => write!(f, "{plane}"),
            LunCause::Copy(copy) => write!(f, "{copy}"),
            LunCause::CacheRead(command) => write!(
                f,
                "the cache read of {command} goes on: `cmd 3f` and a `wait` must end it"
            ),
            LunCause::CacheProgram(command) => write!(
                f,
                "the array may be at the program of {command}: a program that `cmd 10` closes, and a `wait`, must come first"
            ),
        }
    }
}
