//! An address that isn't permitted.

use crate::lun_cause::LunCause;
use crate::open::Open;
use crate::refused::Refused;
use micro_claims::Place;
use onfi_cycle::Forbidden;
use std::fmt;

/// Why an address may not be permitted.
#[derive(Clone, Copy)]
pub enum AddressCause {
    /// No address is wanted.
    Unwanted(Open),
    /// More bytes come than are wanted.
    TooMany(Open),
    /// An opener that reads what stands beside the array, or sets it, wants another byte.
    OtherByte(Open),
    /// The LUN may not take the row.
    Lun(LunCause),
}

impl AddressCause {
    pub(crate) fn of(refused: &Refused<'_>, count: u8) -> Option<AddressCause> {
        let tail = refused.state.target.tail;
        let left = tail.addresses_left();
        if left == 0 {
            Some(AddressCause::Unwanted(refused.open()))
        } else if left < usize::from(count) {
            Some(AddressCause::TooMany(refused.open()))
        } else if tail.takes_identity() {
            Some(AddressCause::OtherByte(refused.open()))
        } else {
            AddressCause::of_row(refused, tail)
        }
    }

    // Against the last byte of a row.
    fn of_row(refused: &Refused<'_>, tail: Place) -> Option<AddressCause> {
        match tail {
            Place::After { opener, .. } => {
                Some(AddressCause::Lun(LunCause::of_row(refused, opener)?))
            }
            Place::Closed
            | Place::InData
            | Place::InColumn { .. }
            | Place::InFeatures { .. }
            | Place::Unknown => None,
        }
    }

    /// The rule that it breaks.
    pub fn rule(self) -> Forbidden {
        match self {
            AddressCause::Unwanted(_) | AddressCause::TooMany(_) | AddressCause::OtherByte(_) => {
                Forbidden::AddressMisplaced
            }
            AddressCause::Lun(lun) => lun.rule(),
        }
    }
}

impl fmt::Display for AddressCause {
    fn fmt<W: fmt::Write>(&self, f: &mut fmt::Formatter<W>) -> fmt::Result {
        match self {
            AddressCause::Unwanted(open) => write!(f, "no address is wanted: {open}"),
            AddressCause::TooMany(open) => write!(f, "too many address bytes: {open}"),
            AddressCause::OtherByte(open) => write!(f, "another address byte is wanted: {open}"),
            AddressCause::Lun(lun) => write!(f, "{lun}"),
        }
    }
}
