//! A look at each LUN of a target.
ghost use Rattle.std.specs.Prelude.{◌≡◌};
ghost use Rattle.trace_faults.specs.Middle.{looks_of};

use onfi_cycle::{BusState, Lun, LunState};

/// A look at each of the four LUNs of a target, None where it isn't there.
#[derive(Clone, Copy)]
pub(crate) struct Looks {
    pub(crate) zeroth: Option<LunState>,
    pub(crate) first: Option<LunState>,
    pub(crate) second: Option<LunState>,
    pub(crate) third: Option<LunState>,
}

impl Looks {
    /// A look at the LUNs of this target.
    pub(crate) fn of(state: &BusState, ce: u8) -> Looks
        ensures { result ≡ looks_of state.now ce }
    {
        Looks {
            zeroth: state.lun_state(Lun { ce, lun: 0 }),
            first: state.lun_state(Lun { ce, lun: 1 }),
            second: state.lun_state(Lun { ce, lun: 2 }),
            third: state.lun_state(Lun { ce, lun: 3 }),
        }
    }
}
