//! A look at the LUNs of a target.
ghost use Rattle.std.specs.Prelude.{◌≡◌};
ghost use Rattle.trace_ops.specs.Listing.{looks_of, look_at, is_busy, latch_of, gives_data, has_data, gives_status, has_status, is_off_look, is_off_latch, driver_of};

use onfi_cycle::{BusState, Latch, Lun, LunState};

/// A look at each of the four LUNs of a target, None where it isn't there.
#[derive(Clone, Copy)]
pub(crate) struct Looks {
    pub(crate) zeroth: Option<LunState>,
    pub(crate) first: Option<LunState>,
    pub(crate) second: Option<LunState>,
    pub(crate) third: Option<LunState>,
}

/// The LUN works.
pub(crate) fn is_busy(lun: Option<LunState>) -> bool
    ensures { result ≡ is_busy lun }
{
    match lun {
        None => false,
        Some(lun) => lun.busy,
    }
}

/// What the LUN drives the bus with.
pub(crate) fn latch_of(lun: Option<LunState>) -> Latch
    ensures { result ≡ latch_of lun }
{
    match lun {
        None => Latch::Off,
        Some(lun) => lun.latch,
    }
}

fn has_data(latch: Latch) -> bool
    ensures { result ≡ has_data latch }
{
    match latch {
        Latch::Data => true,
        Latch::Off | Latch::Status => false,
    }
}

/// The LUN drives the bus with data.
pub(crate) fn gives_data(lun: Option<LunState>) -> bool
    ensures { result ≡ gives_data lun }
{
    has_data(latch_of(lun))
}

fn has_status(latch: Latch) -> bool
    ensures { result ≡ has_status latch }
{
    match latch {
        Latch::Status => true,
        Latch::Off | Latch::Data => false,
    }
}

/// The LUN drives the bus with its status.
pub(crate) fn gives_status(lun: Option<LunState>) -> bool
    ensures { result ≡ gives_status lun }
{
    has_status(latch_of(lun))
}

fn is_off_latch(latch: Latch) -> bool
    ensures { result ≡ is_off_latch latch }
{
    match latch {
        Latch::Off => true,
        Latch::Status | Latch::Data => false,
    }
}

fn is_off_look(lun: Option<LunState>) -> bool
    ensures { result ≡ is_off_look lun }
{
    is_off_latch(latch_of(lun))
}

impl Looks {
    /// A look at the LUNs of this target.
    pub(crate) fn of(state: &BusState, ce: u8) -> Looks
        ensures { result ≡ looks_of state.now ce }
    {
        Looks {
            zeroth: state.lun_state(Lun { ce, lun: 0 }),
            first: state.lun_state(Lun { ce, lun: 1 }),
            second: state.lun_state(Lun { ce, lun: 2 }),
            third: state.lun_state(Lun { ce, lun: 3 }),
        }
    }

    /// The LUN of a number; that of 3 for any number past it.
    pub(crate) fn at(self, lun: u8) -> Option<LunState>
        ensures { result ≡ look_at self lun }
    {
        match lun {
            0 => self.zeroth,
            1 => self.first,
            2 => self.second,
            _ => self.third,
        }
    }

    /// The number of the LUN that drives the bus.
    pub(crate) fn driver(self) -> Option<u8>
        ensures { result ≡ driver_of self }
    {
        if !is_off_look(self.zeroth) {
            Some(0)
        } else if !is_off_look(self.first) {
            Some(1)
        } else if !is_off_look(self.second) {
            Some(2)
        } else if !is_off_look(self.third) {
            Some(3)
        } else {
            None
        }
    }
}
