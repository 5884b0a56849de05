//! How a target stands to the profile.
ghost use Rattle.std.specs.Prelude.{◌≡◌};
ghost use Rattle.trace_faults.specs.Outside.{interrupted, resumed, after_command, after_cycle};

use onfi_cycle::{Command, TargetCycle};

/// How a target stands to the profile.
#[derive(Clone, Copy, Debug, PartialEq, Eq)]
pub enum Standing {
    /// In the profile: each cycle is judged.
    Inside,
    /// In a sequence outside of the profile, whose cycles are passed over up to the next command that begins one.
    Outside,
    /// In such a sequence, in which the status was asked for: what the target outputs besides status is passed over.
    Interrupted,
}

impl Standing {
    // Where the status is asked for.
    fn interrupted(self) -> Standing
        ensures { result ≡ interrupted self }
    {
        match self {
            Standing::Inside => Standing::Inside,
            Standing::Outside | Standing::Interrupted => Standing::Interrupted,
        }
    }

    // Where the command 00 comes, which goes back from status to data.
    fn resumed(self) -> Standing
        ensures { result ≡ resumed self }
    {
        match self {
            Standing::Inside | Standing::Outside => Standing::Inside,
            Standing::Interrupted => Standing::Interrupted,
        }
    }

    // After a command that is in the profile.
    fn after_command(self, command: Command) -> Standing
        ensures { result ≡ after_command command self }
    {
        match command {
            Command::ReadStatus | Command::ReadStatusEnhanced => self.interrupted(),
            Command::Read => self.resumed(),
            _ => Standing::Inside,
        }
    }

    /// After a cycle that doesn't leave the profile.
    pub(crate) fn after_cycle(self, cycle: TargetCycle) -> Standing
        ensures { result ≡ after_cycle cycle self }
    {
        match cycle {
            TargetCycle::CommandCycle(command) => self.after_command(command),
            TargetCycle::AddressCycle(_) | TargetCycle::InputCycle(_) | TargetCycle::OutputCycle =>
                self,
        }
    }
}
