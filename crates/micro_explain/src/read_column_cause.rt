//! A change of the read column that may find nothing to change.

use crate::busy::Busy;
use crate::emptied::Emptied;
use crate::no_driver::NoDriver;
use crate::poll_at::PollAt;
use crate::refused::Refused;
use std::fmt;

/// Why `cmd 05` may find no column to change.
#[derive(Clone, Copy, Debug, PartialEq, Eq)]
pub enum ReadColumnCause {
    NoDriver(NoDriver),
    /// The LUN may show its status.
    StatusShown { poll: Option<PollAt> },
    Busy(Busy),
    Empty(Emptied),
    /// The register may hold the identifier, which has no columns to choose from.
    Identifier,
    /// The register may hold another identity or a feature, which have none either.
    Short,
}

impl ReadColumnCause {
    pub(crate) fn of(refused: &Refused<'_>) -> Option<ReadColumnCause> {
        if let Some(no_driver) = NoDriver::of(refused) {
            return Some(ReadColumnCause::NoDriver(no_driver));
        }
        if refused.state.lun.busy {
            return Some(ReadColumnCause::Busy(Busy::of(refused)));
        }
        match refused.state.target.shows {
            Some(shown) if shown.shows_status() => Some(ReadColumnCause::StatusShown {
                poll: refused.whole_history().status,
            }),
            _ => ReadColumnCause::of_register(refused),
        }
    }

    // Against what the register may hold.
    fn of_register(refused: &Refused<'_>) -> Option<ReadColumnCause> {
        match refused.state.lun.register {
            None => Some(ReadColumnCause::Empty(Emptied::of(refused))),
            Some(held) if held.holds_identifier() => Some(ReadColumnCause::Identifier),
            Some(held) if held.holds_short() => Some(ReadColumnCause::Short),
            Some(_) => None,
        }
    }
}

impl fmt::Display for ReadColumnCause {
    fn fmt<W: fmt::Write>(&self, f: &mut fmt::Formatter<W>) -> fmt::Result {
        match self {
            ReadColumnCause::NoDriver(no_driver) => write!(f, "{no_driver}"),
            ReadColumnCause::StatusShown { poll: Some(poll) } => {
                write!(
                    f,
                    "after {poll} the LUN shows its status: a `cmd 00` is missing"
                )
            }
            ReadColumnCause::StatusShown { poll: None } => {
                f.write_str("the LUN may show its status: a `cmd 00` is missing")
            }
            ReadColumnCause::Busy(busy) => write!(f, "{busy}"),
            ReadColumnCause::Empty(emptied) => write!(f, "{emptied}"),
            ReadColumnCause::Identifier => f.write_str(
                "the register may hold the identifier of `cmd 90`, whose column can't be changed",
            ),
            ReadColumnCause::Short => f.write_str(
                "the register may hold what `cmd 90` or `cmd ee` reads, whose column can't be changed",
            ),
        }
    }
}
