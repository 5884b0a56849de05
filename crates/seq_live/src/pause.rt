//! The pauses that a datasheet asks for before a burst (`onfi_pauses` names them). Nothing is proved of how long they are.
ghost use Rattle.std.specs.Prelude.{◌≡◌};
ghost use Rattle.seq_live.specs.Pause.{nothing, kind_of, after, after_ready, pauses_before};

use crate::burst::Burst;
use onfi_cycle::Kind;
use onfi_pauses::{LastCycle, Pauses, pauses_before};

/// What the pauses before a burst go by: the last cycle of its target, and whether R/B# has shown a ready since.
#[derive(Clone, Copy, Debug, PartialEq, Eq)]
pub struct LastOnTarget {
    pub cycle: LastCycle,
    pub is_ready: bool,
}

// The kind of the cycles of a burst.
fn kind_of(burst: Burst) -> Kind
    ensures { result ≡ kind_of burst }
{
    match burst {
        Burst::Command { .. } => Kind::Cmd,
        Burst::Address { .. } => Kind::Adr,
        Burst::Input { .. } => Kind::Din,
        Burst::Output { .. } => Kind::Dout,
    }
}

impl LastOnTarget {
    /// Nothing has come on the target.
    pub fn nothing() -> LastOnTarget
        ensures { result ≡ nothing }
    {
        LastOnTarget {
            cycle: LastCycle::Nothing,
            is_ready: false,
        }
    }

    /// Once a burst is done.
    pub fn after(self, burst: Burst) -> LastOnTarget
        ensures { result ≡ after self burst }
    {
        let byte = match burst {
            Burst::Command { byte, .. } => byte,
            Burst::Address { .. } | Burst::Input { .. } | Burst::Output { .. } => 0,
        };
        LastOnTarget {
            cycle: self.cycle.after(kind_of(burst), byte),
            is_ready: false,
        }
    }

    /// Once R/B# has shown that the target is ready.
    pub fn after_ready(self) -> LastOnTarget
        ensures { result ≡ after_ready self }
    {
        LastOnTarget {
            is_ready: true,
            ..self
        }
    }

    /// The pauses before a burst: each of them is to be kept.
    pub fn pauses_before(self, burst: Burst) -> Pauses
        ensures { result ≡ pauses_before self burst }
    {
        pauses_before(self.cycle, self.is_ready, kind_of(burst))
    }
}
