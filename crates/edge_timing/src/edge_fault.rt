//! What may be wrong with the edges of a capture.
ghost use Rattle.std.specs.Prelude.{◌≡◌};
ghost use Rattle.edge_timing.specs.Codes.{edge_fault_code};

use thiserror::Error;
use trace_timing::TimingFault;

/// What is wrong with the edges of a capture.
#[derive(Clone, Copy, Debug, PartialEq, Eq, Error)]
pub enum EdgeFault {
    /// T0 to T8: what may be wrong with the times of a trace too.
    #[error("{0}")]
    Pause(TimingFault),
    #[error("a strobe is low or high for too short a time (tWP, tWH, tRP, tREH)")]
    Pulse,
    #[error("a level isn't there long enough before WE# rises (tDS, tCLS, tALS, tCS)")]
    Setup,
    #[error("a level doesn't stay long enough after WE# rises (tDH, tCLH, tALH, tCH), or CE# isn't high for long enough (tCEH)")]
    Hold,
    #[error("RE# falls too soon after CLE or ALE fell (tCLR, tAR)")]
    LatchToRead,
}

impl EdgeFault {
    /// Its code, `T0` to `T8` and `T11` to `T14`.
    pub fn code(self) -> &'static str
        ensures { result.now ≡ edge_fault_code self }
    {
        match self {
            EdgeFault::Pause(fault) => fault.code(),
            EdgeFault::Pulse => "T11",
            EdgeFault::Setup => "T12",
            EdgeFault::Hold => "T13",
            EdgeFault::LatchToRead => "T14",
        }
    }
}
