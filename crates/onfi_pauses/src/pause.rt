//! The pauses before a cycle, by what came last on its target.
ghost use Rattle.std.specs.Prelude.{◌≡◌};
ghost use Rattle.onfi_pauses.specs.Pauses.{begins_work, of_output, of_input, of_command, of_cycle, of_busy, of_ready, pauses_before, command_of, after_input, last_after};

use onfi_cycle::{Command, FEATURE_BYTES, Kind};

/// A pause before a cycle, by its name in ONFI.
#[derive(Clone, Copy, Debug, PartialEq, Eq)]
pub enum Pause {
    /// tADL: from an address to a data input.
    AddressToInput,
    /// tWHR: from a command, an address or a data input to a data output.
    ToOutput,
    /// tCCS: from a change of the column, by E0h or by the column of 85h, to the data.
    ColumnChange,
    /// tRHW: from a data output to a command, an address or an input.
    OutputToCommand,
    /// tWB: from the cycle that begins work until R/B# and the status tell of it.
    ToBusy,
    /// tRR: from a ready to a data output.
    ReadyToOutput,
}

/// The last cycle of a target.
#[derive(Clone, Copy, Debug, PartialEq, Eq)]
pub enum LastCycle {
    Nothing,
    Command(Command),
    /// An address of this command.
    Address(Command),
    /// An input, but those of a Set Features.
    Input,
    /// The first to the fourth byte of a Set Features.
    FeatureByte { number: u8 },
    Output,
}

/// The pauses before a cycle: each of them is to be kept.
#[derive(Clone, Copy, Debug, PartialEq, Eq)]
pub struct Pauses {
    /// Since the last cycle of the target, by what that was.
    pub cycle: Option<Pause>,
    /// Since it too, where it began work.
    pub busy: Option<Pause>,
    /// Since the ready, where one came after it.
    pub ready: Option<Pause>,
}

impl LastCycle {
    /// The cycle has begun work.
    pub fn begins_work(self) -> bool
        ensures { result ≡ begins_work self }
    {
        match self {
            LastCycle::Command(command) => matches!(
                command,
                Command::ReadConfirm
                    | Command::ReadPlane
                    | Command::CopybackRead
                    | Command::BlockEraseConfirm
                    | Command::BlockErasePlane
                    | Command::ProgramConfirm
                    | Command::ProgramPlane
                    | Command::ProgramCache
                    | Command::Reset
                    | Command::SynchronousReset
                    | Command::ReadCacheSequential
                    | Command::ReadCacheEnd
            ),
            LastCycle::Address(command) => matches!(
                command,
                Command::ReadParameterPage
                    | Command::ReadUniqueId
                    | Command::GetFeatures
                    | Command::ResetLun
            ),
            LastCycle::FeatureByte { number } => number == FEATURE_BYTES as u8,
            LastCycle::Nothing | LastCycle::Input | LastCycle::Output => false,
        }
    }

    // The command whose addresses come.
    fn command(self) -> Command
        ensures { result ≡ command_of self }
    {
        match self {
            LastCycle::Command(command) | LastCycle::Address(command) => command,
            LastCycle::Nothing
            | LastCycle::Input
            | LastCycle::FeatureByte { .. }
            | LastCycle::Output => Command::Unknown,
        }
    }

    // The last cycle once an input has come.
    fn after_input(self) -> LastCycle
        ensures { result ≡ after_input self }
    {
        match self {
            LastCycle::Address(Command::SetFeatures) => LastCycle::FeatureByte { number: 1 },
            LastCycle::FeatureByte { number } if number < FEATURE_BYTES as u8 => {
                LastCycle::FeatureByte { number: number + 1 }
            }
            LastCycle::Nothing
            | LastCycle::Command(_)
            | LastCycle::Address(_)
            | LastCycle::Input
            | LastCycle::FeatureByte { .. }
            | LastCycle::Output => LastCycle::Input,
        }
    }

    /// The last cycle once this one has come.
    pub fn after(self, kind: Kind, byte: u8) -> LastCycle
        ensures { result ≡ last_after self kind byte }
    {
        match kind {
            Kind::Cmd => LastCycle::Command(Command::of(byte)),
            Kind::Adr => LastCycle::Address(self.command()),
            Kind::Din => self.after_input(),
            Kind::Dout => LastCycle::Output,
        }
    }

    fn of_output(self) -> Option<Pause>
        ensures { result ≡ of_output self }
    {
        match self {
            LastCycle::Command(Command::ChangeReadColumnConfirm) => Some(Pause::ColumnChange),
            LastCycle::Command(_)
            | LastCycle::Address(_)
            | LastCycle::Input
            | LastCycle::FeatureByte { .. } => Some(Pause::ToOutput),
            LastCycle::Nothing | LastCycle::Output => None,
        }
    }

    fn of_input(self) -> Option<Pause>
        ensures { result ≡ of_input self }
    {
        match self {
            LastCycle::Address(Command::ChangeWriteColumn) => Some(Pause::ColumnChange),
            LastCycle::Address(_) => Some(Pause::AddressToInput),
            LastCycle::Output => Some(Pause::OutputToCommand),
            LastCycle::Nothing
            | LastCycle::Command(_)
            | LastCycle::Input
            | LastCycle::FeatureByte { .. } => None,
        }
    }

    // Before a command or an address.
    fn of_command(self) -> Option<Pause>
        ensures { result ≡ of_command self }
    {
        match self {
            LastCycle::Output => Some(Pause::OutputToCommand),
            LastCycle::Nothing
            | LastCycle::Command(_)
            | LastCycle::Address(_)
            | LastCycle::Input
            | LastCycle::FeatureByte { .. } => None,
        }
    }

    fn of_cycle(self, kind: Kind) -> Option<Pause>
        ensures { result ≡ of_cycle self kind }
    {
        match kind {
            Kind::Cmd | Kind::Adr => self.of_command(),
            Kind::Din => self.of_input(),
            Kind::Dout => self.of_output(),
        }
    }
}

// tWB, before a command, and before an output while no ready has come.
fn of_busy(begins_work: bool, ready: bool, kind: Kind) -> Option<Pause>
    ensures { result ≡ of_busy begins_work ready kind }
{
    match kind {
        Kind::Cmd if begins_work => Some(Pause::ToBusy),
        Kind::Dout if begins_work && !ready => Some(Pause::ToBusy),
        Kind::Cmd | Kind::Adr | Kind::Din | Kind::Dout => None,
    }
}

// tRR, before an output.
fn of_ready(ready: bool, kind: Kind) -> Option<Pause>
    ensures { result ≡ of_ready ready kind }
{
    match kind {
        Kind::Dout if ready => Some(Pause::ReadyToOutput),
        Kind::Cmd | Kind::Adr | Kind::Din | Kind::Dout => None,
    }
}

/// The pauses before a cycle of this kind, by the last cycle of its target, and whether a ready of the target came since.
pub fn pauses_before(last: LastCycle, ready: bool, kind: Kind) -> Pauses
    ensures { result ≡ pauses_before last ready kind }
{
    Pauses {
        cycle: last.of_cycle(kind),
        busy: of_busy(last.begins_work(), ready, kind),
        ready: of_ready(ready, kind),
    }
}
