//! What is kept of a trace whose items may be permitted or not.
ghost use Rattle.std.specs.Prelude.{◌≡◌, ◌≤◌};
ghost use Rattle.trace_faults.specs.Denied.{told_in};
ghost use Rattle.trace_faults.specs.Recovery.{fresh, fresh_for};

use crate::denied::told_in;
use crate::standing::Standing;
use nand_geometry::Geometry;
use onfi_cycle::{BusState, Item};

/// What is kept of a trace whose items may be permitted or not. It takes no memory.
#[derive(Drop)]
pub struct TraceState {
    /// The channel, after all that was permitted.
    pub bus: BusState,
    /// How each target stands to the profile.
    pub standings: [Standing; 4],
    /// Of which targets the recording tells the readies.
    pub told: [bool; 4],
    /// Of which LUNs, four a target, the last status since they began their work says that they work.
    pub shown_busy: [bool; 16],
}

impl TraceState {
    /// A channel of so many targets of this geometry, 4 at most, to which nothing has happened.
    pub fn new(geometry: &Geometry, targets: u8) -> TraceState
        requires { targets ≤ 4 }
        ensures { result ≡ fresh geometry.now targets }
    {
        TraceState {
            bus: BusState::new(*geometry, targets),
            standings: [Standing::Inside; 4],
            told: [false; 4],
            shown_busy: [false; 16],
        }
    }

    /// The same before these items, which may tell readies.
    pub fn before(geometry: &Geometry, targets: u8, items: &[Item]) -> TraceState
        requires { targets ≤ 4 }
        ensures { result ≡ fresh_for geometry.now targets items.now }
    {
        TraceState {
            bus: BusState::new(*geometry, targets),
            standings: [Standing::Inside; 4],
            told: told_in(items),
            shown_busy: [false; 16],
        }
    }
}
