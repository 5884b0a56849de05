//! What the slot of a LUN holds.
ghost use Rattle.std.specs.Prelude.{◌≡◌};
ghost use Rattle.seq_core.specs.Calls.{state_of, has_job};

/// What the slot of a LUN holds.
#[derive(Clone, Copy, Debug, PartialEq, Eq)]
pub enum SlotState {
    /// It has no job.
    Empty,
    /// Its job goes on.
    Running,
    /// Its job has ended, with this code.
    Ended(u8),
}

impl SlotState {
    /// That of a job with the code that it has ended with, if it has.
    pub fn of(code: Option<u8>) -> SlotState
        ensures { result ≡ state_of code }
    {
        match code {
            None => SlotState::Running,
            Some(code) => SlotState::Ended(code),
        }
    }

    /// It has a job.
    pub fn has_job(self) -> bool
        ensures { result ≡ has_job self }
    {
        !matches!(self, SlotState::Empty)
    }
}
