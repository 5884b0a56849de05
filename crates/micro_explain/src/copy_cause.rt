//! A row to which no page may be copied, or a program that may come amid copies.

use crate::command_at::CommandAt;
use crate::refused::Refused;
use micro_claims::Planes;
use onfi_cycle::Command;
use std::fmt;

/// Why the row of `cmd 85` may take no page that the LUN holds, or that of `cmd 80` may come amid copies.
#[derive(Clone, Copy, Debug, PartialEq, Eq)]
pub enum CopyCause {
    /// The last work may be none of `cmd 35` and `cmd 11`.
    NothingRead,
    /// The plane of the row may hold no page.
    NotHeld { plane: u8 },
    /// The row may be of several planes, and one of them may hold no page.
    SomeNotHeld,
    /// The page that the plane holds lies an odd number of rows away.
    OddRows { plane: u8 },
    /// It may lie so.
    PerhapsOdd { plane: u8 },
    /// The row may be of several planes, and the page of one of them may lie so.
    SomeOdd,
    /// A block has so many pages, an odd number, and the index has moved since the page was read.
    OddBlock { pages: u32 },
    /// `cmd 80` where a row to which a page is copied is queued.
    AmidCopies(CommandAt),
}

impl CopyCause {
    /// Against the row of an opener.
    pub(crate) fn of_row(refused: &Refused<'_>, opener: Command) -> Option<CopyCause> {
        match opener {
            Command::ChangeWriteColumn => CopyCause::of_copy(refused),
            Command::PageProgram => Some(CopyCause::AmidCopies(refused.last(
                Command::ProgramPlane,
            ))),
            _ => None,
        }
    }

    // Against the row of a copy.
    fn of_copy(refused: &Refused<'_>) -> Option<CopyCause> {
        let planes = refused.state.registers.planes;
        let lun = &refused.state.lun;
        if !lun.copies.keeps {
            Some(CopyCause::NothingRead)
        } else if !planes.are_within(lun.held) {
            Some(CopyCause::of_planes(planes))
        } else if planes.are_within(lun.copies.even) {
            None
        } else {
            Some(CopyCause::of_parity(refused, planes))
        }
    }

    // Where a plane may hold no page.
    fn of_planes(planes: Planes) -> CopyCause {
        if planes.is_one() {
            CopyCause::NotHeld {
                plane: planes.greatest(),
            }
        } else {
            CopyCause::SomeNotHeld
        }
    }

    // Where a page may lie an odd number of rows away.
    fn of_parity(refused: &Refused<'_>, planes: Planes) -> CopyCause {
        let pages = refused.geometry.parts().pages;
        let plane = planes.greatest();
        if pages % 2 == 1 {
            CopyCause::OddBlock { pages }
        } else if !planes.is_one() {
            CopyCause::SomeOdd
        } else if planes.are_within(refused.state.lun.copies.odd) {
            CopyCause::OddRows { plane }
        } else {
            CopyCause::PerhapsOdd { plane }
        }
    }
}

impl fmt::Display for CopyCause {
    fn fmt<W: fmt::Write>(&self, f: &mut fmt::Formatter<W>) -> fmt::Result {
        match self {
            CopyCause::NothingRead => f.write_str(
                "no page may have been read to be copied: `cmd 00`, `addr 0 5`, `cmd 35` and a `wait` must come first",
            ),
            CopyCause::NotHeld { plane } => write!(
                f,
                "plane {plane} may hold no page to be copied: `cmd 35` of a row of it must come first"
            ),
            CopyCause::SomeNotHeld => f.write_str(
                "the plane depends on the way, and may hold no page to be copied: `cmd 35` of a row of it must come first",
            ),
            CopyCause::OddRows { plane } => write!(
                f,
                "the page of plane {plane} was read an odd number of rows from here: `row` or `rowadd` must move by an even number, as the chip doesn't declare copies between even and odd pages"
            ),
            CopyCause::PerhapsOdd { plane } => write!(
                f,
                "the page of plane {plane} may have been read an odd number of rows from here: `row` or `rowadd` must move by an even number on each way"
            ),
            CopyCause::SomeOdd => f.write_str(
                "the plane depends on the way, and its page may have been read an odd number of rows from here: `row` or `rowadd` must move by an even number on each way",
            ),
            CopyCause::OddBlock { pages } => write!(
                f,
                "a block has {pages} pages, an odd number, so it isn't known whether another row is even or odd as this one: no `row` or `rowadd` may come between"
            ),
            CopyCause::AmidCopies(queued) => write!(
                f,
                "the row of {queued} is queued, to which a page is copied: `cmd 85` to `cmd 10`, on another plane, must come next"
            ),
        }
    }
}
