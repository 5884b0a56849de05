//! The works on the pages of a LUN that are to come.
ghost use Rattle.std.specs.Prelude.{[], ◌≡◌, ◌∷◌, IfOk, if◌then◌else◌};
ghost use Rattle.onfi_cycle.specs.Content.{array_work_after, pending_work_after, queued_work_after};
ghost use Rattle.onfi_cycle.specs.Lun.{is_cache_program, is_plane_program};
ghost use Rattle.onfi_cycle.specs.Content.ArrayWork.{ErasesBlock, ProgramsPage};

use onfi_cycle::{Command, Effect, PageAddress, is_cache_program, is_plane_program};
use std::alloc::{AllocError, Global};
use std::marker::Model;

/// What the array of a LUN is to do to its pages.
#[derive(Clone, Copy, Debug, PartialEq, Eq)]
pub enum WorkKind {
    /// Erase the block of a page.
    Erase,
    /// Program a page.
    Program,
}

/// A work on the pages of a LUN, with the bytes of a program.
#[derive(Drop)]
pub struct ArrayWork {
    pub kind: WorkKind,
    pub at: PageAddress,
    pub bytes: Vec<u8>,
}

impl Model for ArrayWork {
    ghost use Rattle.onfi_cycle.specs.Content.{ArrayWork};

    ghost Value = { ArrayWork };

    ghost use Rattle.oracle_onfi.specs.Opening.{work_of};

    ghost view = { λ w. work_of w.kind w.at w.bytes.items };
}

/// The erase of a row's block.
fn erase_of(alloc: Global, at: PageAddress) -> ArrayWork
    ensures { result ≡ ErasesBlock at }
{
    ArrayWork {
        kind: WorkKind::Erase,
        at,
        bytes: Vec::new(alloc),
    }
}

/// The program of a page.
fn program_of(at: PageAddress, bytes: Vec<u8>) -> ArrayWork
    ensures { result ≡ ProgramsPage at bytes.items }
{
    ArrayWork {
        kind: WorkKind::Program,
        at,
        bytes,
    }
}

/// The works that wait in the queue of a LUN, those that its next ready ends, and those that its array goes on with behind
/// the ready of a Page Cache Program; the newest first.
#[derive(Drop)]
pub(crate) struct Works {
    pub(crate) queued: Vec<ArrayWork>,
    pub(crate) pending: Vec<ArrayWork>,
    pub(crate) in_array: Vec<ArrayWork>,
}

impl Works {
    /// No works.
    pub(crate) fn none(alloc: Global) -> Works
        ensures queued { result.queued.items ≡ [] }
        ensures pending { result.pending.items ≡ [] }
        ensures array { result.in_array.items ≡ [] }
    {
        Works {
            queued: Vec::new(alloc),
            pending: Vec::new(alloc),
            in_array: Vec::new(alloc),
        }
    }

    // The array goes on with nothing.
    fn without_array(self, alloc: Global) -> Works
        ensures queued { result.queued.items ≡ self.queued.items }
        ensures pending { result.pending.items ≡ self.pending.items }
        ensures array { result.in_array.items ≡ [] }
    {
        Works {
            queued: self.queued,
            pending: self.pending,
            in_array: Vec::new(alloc),
        }
    }

    // Nothing goes on; what waits stays.
    fn waiting(self, alloc: Global) -> Works
        ensures queued { result.queued.items ≡ self.queued.items }
        ensures pending { result.pending.items ≡ [] }
        ensures array { result.in_array.items ≡ [] }
    {
        Works {
            queued: self.queued,
            pending: Vec::new(alloc),
            in_array: Vec::new(alloc),
        }
    }

    // A ready ends what goes on: behind a Page Cache Program the array has it, and behind a plane of a program the array goes on.
    fn at_ready(self, alloc: Global, last: Option<Command>) -> Works
        ensures queued { result.queued.items ≡ self.queued.items }
        ensures pending { result.pending.items ≡ [] }
        ensures array { result.in_array.items ≡ (if is_cache_program last then self.pending.items else (if is_plane_program last then self.in_array.items else [])) }
    {
        if is_cache_program(last) {
            return Works {
                queued: self.queued,
                pending: Vec::new(alloc),
                in_array: self.pending,
            };
        }
        if is_plane_program(last) {
            return Works {
                queued: self.queued,
                pending: Vec::new(alloc),
                in_array: self.in_array,
            };
        }
        self.waiting(alloc)
    }

    // A work is closed: it joins the queue, or goes on with all that waited.
    fn with_closed(self, alloc: Global, work: ArrayWork, queued: bool) -> Result<Works, AllocError>
        ensures queued { IfOk result (λ w. w.queued.items ≡ (if queued then work ∷ self.queued.items else [])) }
        ensures pending { IfOk result (λ w. w.pending.items ≡ (if queued then [] else work ∷ self.queued.items)) }
        ensures array { IfOk result (λ w. w.in_array.items ≡ self.in_array.items) }
    {
        let mut works = self.queued;
        let in_array = self.in_array;
        works.insert(0, work)?;
        let none = Vec::new(alloc);
        Ok(if queued {
            Works {
                queued: works,
                pending: none,
                in_array,
            }
        } else {
            Works {
                queued: none,
                pending: works,
                in_array,
            }
        })
    }

    /// The works after an effect on a LUN with this last closer; the bytes are those of the program that it closes.
    pub(crate) fn after(
        self,
        alloc: Global,
        effect: Effect,
        last: Option<Command>,
        bytes: Vec<u8>,
    ) -> Result<Works, AllocError>
        ensures queued { IfOk result (λ w. w.queued.items ≡ queued_work_after effect bytes.items self.queued.items) }
        ensures pending { IfOk result (λ w. w.pending.items ≡ pending_work_after effect bytes.items self.queued.items self.pending.items) }
        ensures array { IfOk result (λ w. w.in_array.items ≡ array_work_after effect last self.pending.items self.in_array.items) }
    {
        match effect {
            Effect::EraseStarted { queued, row } => {
                Ok(
                    self.with_closed(alloc, erase_of(alloc, row), queued)?
                        .without_array(alloc),
                )
            }
            Effect::ProgramStarted { queued, page } => {
                self.with_closed(alloc, program_of(page, bytes), queued)
            }
            Effect::CacheProgramStarted { page } => {
                self.with_closed(alloc, program_of(page, bytes), false)
            }
            Effect::IdRead | Effect::IdentityRead { .. } | Effect::ArrayBecameReady { .. } => {
                Ok(self.without_array(alloc))
            }
            Effect::BecameReady { .. } => Ok(self.at_ready(alloc, last)),
            Effect::ReadStarted { .. }
            | Effect::CopybackReadStarted { .. }
            | Effect::ResetStarted
            | Effect::TargetResetStarted { .. } => Ok(Works::none(alloc)),
            Effect::ReadQueued { .. }
            | Effect::ParameterPageReadStarted
            | Effect::UniqueIdReadStarted
            | Effect::FeaturesReadStarted { .. }
            | Effect::FeaturesSet { .. }
            | Effect::CacheReadContinued { .. }
            | Effect::CacheReadEnded => Ok(self.waiting(alloc)),
            _ => Ok(self),
        }
    }
}
