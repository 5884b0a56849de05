//! An output that isn't permitted.

use crate::busy::Busy;
use crate::emptied::Emptied;
use crate::no_driver::NoDriver;
use crate::open::Open;
use crate::poll_at::PollAt;
use crate::refused::Refused;
use micro_claims::Held;
use onfi_cycle::Forbidden;
use std::fmt;

/// Why an output may not be permitted.
#[derive(Clone, Copy)]
pub enum OutputCause {
    /// A sequence may be open.
    SequenceOpen(Open),
    NoDriver(NoDriver),
    /// The LUN may show data while it is busy.
    Busy(Busy),
    /// The LUN may show data and have none.
    Empty(Emptied),
    /// The column may be lost, by this word.
    ColumnLost { poll: Option<PollAt>, anew: Anew },
}

// The word that lost the column.
fn lost_by(refused: &Refused<'_>) -> Option<PollAt> {
    let history = refused.whole_history();
    history.lost.or(history.last_lost)
}

impl OutputCause {
    pub(crate) fn of(refused: &Refused<'_>) -> Option<OutputCause> {
        if refused.state.may_be_open() {
            Some(OutputCause::SequenceOpen(refused.open()))
        } else if let Some(no_driver) = NoDriver::of(refused) {
            Some(OutputCause::NoDriver(no_driver))
        } else {
            OutputCause::of_data(refused)
        }
    }

    // Against data that is to come.
    fn of_data(refused: &Refused<'_>) -> Option<OutputCause> {
        let lun = &refused.state.lun;
        if lun.busy {
            return Some(OutputCause::Busy(Busy::of(refused)));
        }
        match lun.register {
            None => Some(OutputCause::Empty(Emptied::of(refused))),
            Some(held) if lun.column.is_none() => Some(OutputCause::of_column(refused, held)),
            Some(_) => None,
        }
    }

    fn of_column(refused: &Refused<'_>, held: Held) -> OutputCause {
        OutputCause::ColumnLost {
            poll: lost_by(refused),
            anew: Anew::of(held),
        }
    }

    /// The rule that it breaks.
    pub fn rule(self) -> Forbidden {
        match self {
            OutputCause::SequenceOpen(_) | OutputCause::NoDriver(_) => Forbidden::NoSoleDriver,
            OutputCause::Busy(_) | OutputCause::Empty(_) | OutputCause::ColumnLost { .. } => {
                Forbidden::DataNotReady
            }
        }
    }
}

/// What gives the column anew, by what the register may hold.
#[derive(Clone, Copy, Debug, PartialEq, Eq)]
pub enum Anew {
    /// A change of the read column.
    ReadColumn,
    /// Read ID.
    ReadId,
    /// Get Features.
    GetFeatures,
}

impl Anew {
    fn of(held: Held) -> Anew {
        if held.holds_identifier() || held.holds_identity() || held.holds_jedec() {
            Anew::ReadId
        } else if held.holds_feature() {
            Anew::GetFeatures
        } else {
            Anew::ReadColumn
        }
    }

    fn words(self) -> &'static str {
        match self {
            Anew::ReadColumn => "`cmd 05`, `addr 0 2`, `cmd e0` give it anew",
            Anew::ReadId => "`cmd 90` and its address give it anew",
            Anew::GetFeatures => "`cmd ee`, its address and a `wait` give it anew",
        }
    }
}

impl fmt::Display for OutputCause {
    fn fmt<W: fmt::Write>(&self, f: &mut fmt::Formatter<W>) -> fmt::Result {
        match self {
            OutputCause::SequenceOpen(open) => write!(f, "{open}"),
            OutputCause::NoDriver(no_driver) => write!(f, "{no_driver}"),
            OutputCause::Busy(busy) => write!(f, "{busy}"),
            OutputCause::Empty(emptied) => write!(f, "{emptied}"),
            OutputCause::ColumnLost { poll, anew } => {
                match poll {
                    Some(poll) => write!(f, "the column is lost, {poll} came after a `get`: ")?,
                    None => f.write_str("the column may be lost: ")?,
                }
                f.write_str(anew.words())
            }
        }
    }
}
