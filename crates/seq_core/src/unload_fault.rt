//! Why nothing is unloaded.
ghost use Rattle.std.specs.Prelude.{◌≡◌};
ghost use Rattle.seq_core.specs.Codes.{unload_fault_code};

use thiserror::Error;

/// Why nothing is unloaded.
#[derive(Clone, Copy, Debug, PartialEq, Eq, Error)]
pub enum UnloadFault {
    /// The slot has no job.
    #[error("the LUN has no job")]
    NoJob,
    /// The job hasn't ended.
    #[error("the job hasn't ended")]
    StillRunning,
}

impl UnloadFault {
    /// Its code, `U1` to `U2`.
    pub fn code(self) -> &'static str
        ensures { result.now ≡ unload_fault_code self }
    {
        match self {
            UnloadFault::NoJob => "U1",
            UnloadFault::StillRunning => "U2",
        }
    }
}
