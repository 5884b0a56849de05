//! A cache read that may not go on, may not end, or isn't ended.

use crate::busy::Busy;
use crate::command_at::CommandAt;
use crate::no_driver::NoDriver;
use crate::refused::Refused;
use micro_claims::{KnownLun, bound_plus, is_at_most};
use onfi_cycle::Command;
use std::fmt;

/// Why `cmd 31` or `cmd 3f` may come at a wrong time, or `cmd 30`, `cmd 32` or `cmd 35` amid a cache read.
#[derive(Clone, Copy, Debug, PartialEq, Eq)]
pub enum CacheCause {
    NoDriver(NoDriver),
    Busy(Busy),
    /// `cmd 31` where the last work may be none of `cmd 30` and `cmd 31`.
    NothingToContinue,
    /// The same at a row.
    NothingBeforeRow,
    /// `cmd 31` where the LUN holds the pages of several planes.
    SeveralPages,
    /// `cmd 31` where the page that it reads may be past its block, of so many pages.
    PastBlock {
        pages: u32,
    },
    /// `cmd 3f` where the last work may be another than `cmd 31`.
    NothingToEnd,
    /// `cmd 30`, `cmd 32` or `cmd 35` where a cache read may go on since this command.
    NotEnded {
        since: CommandAt,
        /// It surely goes on.
        surely: bool,
        /// `cmd 31` may come in its place.
        goes_on_here: bool,
    },
}

impl CacheCause {
    /// Against `cmd 31` behind no row.
    pub(crate) fn of_next(refused: &Refused<'_>) -> Option<CacheCause> {
        let lun = &refused.state.lun;
        let pages = refused.geometry.parts().pages;
        if let Some(cause) = CacheCause::of_lun(refused) {
            Some(cause)
        } else if lun.last.may_be_other() {
            Some(CacheCause::of_last(lun, CacheCause::NothingToContinue))
        } else if !is_at_most(bound_plus(lun.cached.page.hi(), 2), u64::from(pages)) {
            Some(CacheCause::PastBlock { pages })
        } else {
            None
        }
    }

    /// Against `cmd 3f`.
    pub(crate) fn of_end(refused: &Refused<'_>) -> Option<CacheCause> {
        let last = refused.state.lun.last;
        if let Some(cause) = CacheCause::of_lun(refused) {
            Some(cause)
        } else if last.may_be_other() || last.may_be_30() {
            Some(CacheCause::NothingToEnd)
        } else {
            None
        }
    }

    /// Against `cmd 31` at a row.
    pub(crate) fn of_row(refused: &Refused<'_>) -> Option<CacheCause> {
        let lun = &refused.state.lun;
        if lun.last.may_be_other() {
            Some(CacheCause::of_last(lun, CacheCause::NothingBeforeRow))
        } else {
            None
        }
    }

    // Against `cmd 31` behind another closer, or behind a read of several planes.
    fn of_last(lun: &KnownLun, another: CacheCause) -> CacheCause {
        if lun.held.are_several() {
            CacheCause::SeveralPages
        } else {
            another
        }
    }

    /// Against `cmd 30` or `cmd 32`.
    pub(crate) fn of_page_read(refused: &Refused<'_>) -> Option<CacheCause> {
        let last = refused.state.lun.last;
        if last.may_be_31() {
            Some(CacheCause::NotEnded {
                since: refused.cache_read(),
                surely: !last.may_be_30() && !last.may_be_other(),
                goes_on_here: !last.may_be_other(),
            })
        } else {
            None
        }
    }

    // Against `cmd 31` behind no row, and `cmd 3f`.
    fn of_lun(refused: &Refused<'_>) -> Option<CacheCause> {
        if let Some(no_driver) = NoDriver::of(refused) {
            Some(CacheCause::NoDriver(no_driver))
        } else if refused.state.lun.busy {
            Some(CacheCause::Busy(Busy::of(refused)))
        } else {
            None
        }
    }
}

impl fmt::Display for CacheCause {
    fn fmt<W: fmt::Write>(&self, f: &mut fmt::Formatter<W>) -> fmt::Result {
        match self {
            CacheCause::NoDriver(no_driver) => write!(f, "{no_driver}"),
            CacheCause::Busy(busy) => write!(f, "{busy}"),
            CacheCause::NothingToContinue => f.write_str(
                "the last work of the LUN must be `cmd 30` or `cmd 31`, and it may be another",
            ),
            CacheCause::PastBlock { pages } => write!(
                f,
                "the next page may be past the end of its block, which has {pages}"
            ),
            CacheCause::NothingToEnd => {
                f.write_str("the last work of the LUN must be `cmd 31`, and it may be another")
            }
            CacheCause::SeveralPages => f.write_str(
                "the LUN holds pages of several planes: a cache read begins with a `cmd 30` behind no `cmd 32`",
            ),
            CacheCause::NothingBeforeRow => f.write_str(
                "the last work of the LUN must be `cmd 30` or `cmd 31`, and it may be another: a cache read begins with `cmd 30`",
            ),
            CacheCause::NotEnded {
                since,
                surely,
                goes_on_here,
            } => write!(
                f,
                "the cache read of {since} {}: {}`cmd 3f` and a `wait` must end it before `cmd 00`",
                if *surely { "goes on" } else { "may go on" },
                if *goes_on_here {
                    "`cmd 31` goes on with it at this row, or "
                } else {
                    ""
                }
            ),
        }
    }
}
