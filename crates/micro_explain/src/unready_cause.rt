//! A program that may end too soon.

use crate::lun_cause::LunCause;
use crate::open::Open;
use crate::refused::Refused;
use std::fmt;

/// What may be left undone where a program ends.
#[derive(Clone, Copy)]
pub enum UnreadyCause {
    SequenceOpen(Open),
    Lun(LunCause),
}

impl UnreadyCause {
    pub(crate) fn of(refused: &Refused<'_>) -> Option<UnreadyCause> {
        if refused.state.may_be_open() {
            Some(UnreadyCause::SequenceOpen(refused.open()))
        } else {
            Some(UnreadyCause::Lun(LunCause::of_lone_work(refused)?))
        }
    }
}

impl fmt::Display for UnreadyCause {
    fn fmt<W: fmt::Write>(&self, f: &mut fmt::Formatter<W>) -> fmt::Result {
        match self {
            UnreadyCause::SequenceOpen(open) => write!(f, "{open}"),
            UnreadyCause::Lun(lun) => write!(f, "{lun}"),
        }
    }
}
