//! The lines of a bus that a capture shows.
ghost use Rattle.std.specs.Prelude.{◌≡◌, ◌+◌, ◌*◌, ◌<◌, min};
ghost use Rattle.bus_signals.specs.Roles.{of_sixteen, place_of, family_of_role};

use crate::names::Family;

/// A line of the bus, or of a model beside it.
#[derive(Clone, Copy, Debug, PartialEq, Eq)]
pub enum Role {
    /// The chip enable of this number.
    Enable(u8),
    Cle,
    Ale,
    We,
    Re,
    /// The bit of this number of DQ.
    Dq(u8),
    /// R/B# of the target of this number.
    ReadyBusy(u8),
    /// The LUN is busy.
    Busy { ce: u8, lun: u8 },
    /// Its array is.
    ArrayBusy { ce: u8, lun: u8 },
    /// It has just become ready, with failure.
    Failed { ce: u8, lun: u8 },
}

// A number below four.
#[inline(always)]
fn of_four(number: u8) -> usize
    ensures value { result ≡ min number 3 }
    ensures below { result < 4 }
{
    usize::from(number.min(3))
}

// The place of a LUN among sixteen.
#[inline(always)]
fn of_sixteen(ce: u8, lun: u8) -> usize
    ensures value { result ≡ 4 * min ce 3 + min lun 3 }
    ensures below { result < 16 }
{
    4 * of_four(ce) + of_four(lun)
}

impl Role {
    /// Its place among the levels of all lines.
    #[inline(always)]
    pub fn place(self) -> usize
        ensures value { result ≡ place_of self }
        ensures below { result < 68 }
    {
        match self {
            Role::Enable(number) => of_four(number),
            Role::Cle => 4,
            Role::Ale => 5,
            Role::We => 6,
            Role::Re => 7,
            Role::Dq(bit) => 8 + usize::from(bit.min(7)),
            Role::ReadyBusy(number) => 64 + of_four(number),
            Role::Busy { ce, lun } => 16 + of_sixteen(ce, lun),
            Role::ArrayBusy { ce, lun } => 32 + of_sixteen(ce, lun),
            Role::Failed { ce, lun } => 48 + of_sixteen(ce, lun),
        }
    }

    /// What the names of its signal tell.
    pub fn family(self) -> Family
        ensures { result ≡ family_of_role self }
    {
        match self {
            Role::Enable(_) => Family::Enable,
            Role::Cle => Family::Cle,
            Role::Ale => Family::Ale,
            Role::We => Family::We,
            Role::Re => Family::Re,
            Role::Dq(_) => Family::Dq,
            Role::ReadyBusy(_) => Family::ReadyBusy,
            Role::Busy { .. } => Family::Busy,
            Role::ArrayBusy { .. } => Family::ArrayBusy,
            Role::Failed { .. } => Family::Failed,
        }
    }
}
