//! What a bus refuses.
ghost use Rattle.std.specs.Prelude.{◌≡◌};

use die_model::LunDie;
use onfi_cycle::Forbidden;
use std::alloc::{AllocError, Allocator, Global};
use thiserror::Error;

/// Why dies are no channel.
#[derive(Clone, Copy, Debug, PartialEq, Eq, Error)]
pub enum BusFault {
    /// They aren't 1 to 4 targets of whole LUNs.
    #[error("the dies aren't 1 to 4 targets with all their LUNs")]
    DiesMissing,
    /// A die has another geometry, or isn't new.
    #[error("a die has another geometry, or has worked already")]
    DieUnfit,
    /// There is no memory to keep what its pages are at the opening.
    #[error("out of memory")]
    OutOfMemory,
}

/// Dies that are no channel: why, and the dies again.
#[derive(Drop)]
pub struct DiesRefused<A: Allocator = Global> {
    pub fault: BusFault,
    pub dies: Vec<LunDie<A>, A>,
}

/// Why a cycle doesn't come.
#[derive(Clone, Copy, Debug, PartialEq, Eq, Error)]
pub enum BusRefusal {
    /// It breaks this rule first.
    #[error("{0}")]
    Forbidden(Forbidden),
    /// There is no memory to keep it in the trace.
    #[error("out of memory")]
    OutOfMemory,
}

impl From<AllocError> for BusRefusal {
    ghost use Rattle.std.specs.Prelude.{◌≡◌};
    ghost use Rattle.target_bus.specs.declared.refusal.BusRefusal.TheVariants.{OutOfMemory};

    ghost from_gives = { λ e r. r ≡ OutOfMemory };

    fn from(_error: AllocError) -> BusRefusal {
        BusRefusal::OutOfMemory
    }
}
