//! Where a tail is in the data of a program or of a Set Features.
ghost use Rattle.std.specs.Prelude.{◌≡◌};
ghost use Rattle.onfi_cycle.specs.Sequence.{phase_after_command, phase_after_address, phase_after_input, takes_data, takes_features, takes_inputs, wants_column, wants_second_column};

use crate::{Command, Opening};

/// How many bytes a Set Features sets.
pub const FEATURE_BYTES: usize = 4;

/// Where a tail is in the data of a program or of a Set Features.
#[derive(Clone, Copy, Debug, PartialEq, Eq)]
pub enum DataPhase {
    /// In neither.
    Outside,
    /// Inputs may come, a Change Write Column, or a closer.
    Inputs,
    /// A Change Write Column waits for its first column byte.
    FirstColumn,
    /// A Change Write Column waits for its second column byte.
    SecondColumn,
    /// A Set Features waits for more of its four bytes.
    FeatureInputs,
}

impl DataPhase {
    /// The data of a program goes on.
    pub fn takes_data(self) -> bool
        ensures { result ≡ takes_data self }
    {
        matches!(self, DataPhase::Inputs)
    }

    /// A Set Features waits for more of its bytes.
    pub fn takes_features(self) -> bool
        ensures { result ≡ takes_features self }
    {
        matches!(self, DataPhase::FeatureInputs)
    }

    /// The next cycle may be an input.
    pub fn takes_inputs(self) -> bool
        ensures { result ≡ takes_inputs self }
    {
        self.takes_data() || self.takes_features()
    }

    /// A Change Write Column waits for a byte of its column.
    pub fn wants_column(self) -> bool
        ensures { result ≡ wants_column self }
    {
        matches!(self, DataPhase::FirstColumn | DataPhase::SecondColumn)
    }

    /// A Change Write Column waits for the second byte of its column.
    pub(crate) fn wants_second_column(self) -> bool
        ensures { result ≡ wants_second_column self }
    {
        matches!(self, DataPhase::SecondColumn)
    }

    /// After a command.
    pub(crate) fn after_command(self, command: Command) -> DataPhase
        ensures { result ≡ phase_after_command command self }
    {
        match (command, self) {
            (Command::ChangeWriteColumn, DataPhase::Inputs) => DataPhase::FirstColumn,
            _ => DataPhase::Outside,
        }
    }

    /// After an address of a tail with this opening.
    pub(crate) fn after_address(self, opening: Option<Opening>) -> DataPhase
        ensures { result ≡ phase_after_address opening self }
    {
        match self {
            DataPhase::FirstColumn => DataPhase::SecondColumn,
            DataPhase::SecondColumn => DataPhase::Inputs,
            DataPhase::Inputs | DataPhase::FeatureInputs => DataPhase::Outside,
            DataPhase::Outside => match opening {
                Some(opening) if opening.ends_data_row() => DataPhase::Inputs,
                Some(opening) if opening.names_feature() => DataPhase::FeatureInputs,
                _ => DataPhase::Outside,
            },
        }
    }

    /// After an input that follows so many others.
    pub(crate) fn after_input(self, inputs: usize) -> DataPhase
        ensures { result ≡ phase_after_input inputs self }
    {
        match self {
            DataPhase::Inputs => DataPhase::Inputs,
            DataPhase::FeatureInputs if inputs < FEATURE_BYTES - 1 => DataPhase::FeatureInputs,
            _ => DataPhase::Outside,
        }
    }
}
