//! A cycle as its target sees it.
ghost use Rattle.std.specs.Prelude.{◌≡◌};
ghost use Rattle.onfi_cycle.specs.Sequence.{target_cycle, begins_sequence};

use crate::{Command, Kind};

/// A cycle of one target. The byte of an output isn't looked at.
#[derive(Clone, Copy, Debug, PartialEq, Eq)]
pub enum TargetCycle {
    CommandCycle(Command),
    AddressCycle(u8),
    InputCycle(u8),
    OutputCycle,
}

impl TargetCycle {
    /// A cycle without its chip enable. The byte of an output isn't looked at.
    #[inline(always)]
    pub fn of(kind: Kind, byte: u8) -> TargetCycle
        ensures { result ≡ target_cycle kind byte }
    {
        match kind {
            Kind::Cmd => TargetCycle::CommandCycle(Command::of(byte)),
            Kind::Adr => TargetCycle::AddressCycle(byte),
            Kind::Din => TargetCycle::InputCycle(byte),
            Kind::Dout => TargetCycle::OutputCycle,
        }
    }

    /// The cycle is an opener, so that a tail begins with it.
    pub fn begins_sequence(self) -> bool
        ensures { result ≡ begins_sequence self }
    {
        match self {
            TargetCycle::CommandCycle(command) => command.is_opener(),
            _ => false,
        }
    }
}
