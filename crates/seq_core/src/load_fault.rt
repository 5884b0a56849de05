//! Why a job isn't loaded.
ghost use Rattle.std.specs.Prelude.{◌≡◌};
ghost use Rattle.seq_core.specs.Codes.{load_fault_code};

use thiserror::Error;

/// Why a job isn't loaded: the first of these that stands.
#[derive(Clone, Copy, Debug, PartialEq, Eq, Error)]
pub enum LoadFault {
    /// The slot has a job.
    #[error("the LUN has a job already")]
    SlotTaken,
    /// The LUN isn't there, or isn't the one of the job.
    #[error("the LUN isn't there, or isn't the job's")]
    OtherLun,
    /// The text was verified for another geometry.
    #[error("the program was verified for another die")]
    OtherGeometry,
}

impl LoadFault {
    /// Its code, `S1`, `S2` or `S5`.
    pub fn code(self) -> &'static str
        ensures { result.now ≡ load_fault_code self }
    {
        match self {
            LoadFault::SlotTaken => "S1",
            LoadFault::OtherLun => "S2",
            LoadFault::OtherGeometry => "S5",
        }
    }
}
