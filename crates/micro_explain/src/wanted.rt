//! What a sequence wants next.

use micro_claims::Place;
use onfi_cycle::{Command, FEATURE_BYTES};
use std::fmt;

/// What the sequence of a place wants next.
#[derive(Clone, Copy)]
pub(crate) struct Wanted {
    pub place: Place,
    /// Operations of several planes are declared.
    pub multi_plane: bool,
    /// A cache read may go on at any row.
    pub reads_cache_at_rows: bool,
    /// Reads of several planes are declared.
    pub reads_planes: bool,
    /// Copybacks are declared.
    pub copies_pages: bool,
    /// Cache programs are declared.
    pub programs_cache: bool,
}

impl Wanted {
    // What ends the sequence of an opener whose addresses have come.
    fn closer(self, opener: Command) -> &'static str {
        match opener {
            Command::Read => self.read_closer(),
            Command::ChangeReadColumn | Command::ChangeReadColumnEnhanced => "`cmd e0`",
            Command::BlockErase if self.multi_plane => "`cmd d0` or `cmd d1`",
            Command::BlockErase => "`cmd d0`",
            Command::PageProgram | Command::ChangeWriteColumn => self.in_data(),
            Command::ReadConfirm
            | Command::ReadPlane
            | Command::CopybackRead
            | Command::ChangeReadColumnConfirm
            | Command::BlockEraseConfirm
            | Command::BlockErasePlane
            | Command::ReadStatus
            | Command::ReadStatusEnhanced
            | Command::ProgramConfirm
            | Command::ProgramPlane
            | Command::ProgramCache
            | Command::ReadId
            | Command::ReadParameterPage
            | Command::Reset
            | Command::ReadCacheSequential
            | Command::ReadCacheEnd
            | Command::ReadUniqueId
            | Command::GetFeatures
            | Command::SetFeatures
            | Command::ResetLun
            | Command::SynchronousReset
            | Command::Unknown => "nothing",
        }
    }

    // What ends the sequence of a read.
    fn read_closer(self) -> &'static str {
        match (
            self.reads_cache_at_rows,
            self.reads_planes,
            self.copies_pages,
        ) {
            (true, true, true) => "`cmd 30`, `cmd 31`, `cmd 32` or `cmd 35`",
            (true, true, false) => "`cmd 30`, `cmd 31` or `cmd 32`",
            (true, false, true) => "`cmd 30`, `cmd 31` or `cmd 35`",
            (true, false, false) => "`cmd 30` or `cmd 31`",
            (false, true, true) => "`cmd 30`, `cmd 32` or `cmd 35`",
            (false, true, false) => "`cmd 30` or `cmd 32`",
            (false, false, true) => "`cmd 30` or `cmd 35`",
            (false, false, false) => "`cmd 30`",
        }
    }

    // What comes in the data of a program.
    fn in_data(self) -> &'static str {
        match (self.multi_plane, self.programs_cache) {
            (true, true) => "`put`, `cmd 85`, `cmd 10`, `cmd 11` or `cmd 15`",
            (true, false) => "`put`, `cmd 85`, `cmd 10` or `cmd 11`",
            (false, true) => "`put`, `cmd 85`, `cmd 10` or `cmd 15`",
            (false, false) => "`put`, `cmd 85` or `cmd 10`",
        }
    }

    // What comes where no address is wanted.
    fn command(self) -> &'static str {
        match self.place {
            Place::After { opener, .. } => self.closer(opener),
            Place::InData | Place::InColumn { .. } => self.in_data(),
            Place::InFeatures { .. } => "`put`",
            Place::Closed | Place::Unknown => "nothing",
        }
    }
}

impl fmt::Display for Wanted {
    fn fmt<W: fmt::Write>(&self, f: &mut fmt::Formatter<W>) -> fmt::Result {
        let (next, left) = (self.place.next_address(), self.place.addresses_left());
        match self.place {
            Place::After {
                opener: Command::ReadId,
                ..
            } => f.write_str("`addr 0 1` with `col 32`"),
            Place::After {
                opener: Command::ReadParameterPage | Command::ReadUniqueId,
                ..
            } => { f.write_str("`addr 0 1` with `col 0`") }
            Place::InFeatures { inputs } => {
                write!(
                    f,
                    "`put {}`",
                    FEATURE_BYTES.saturating_sub(usize::from(inputs))
                )
            }
            _ if left > 0 => write!(f, "`addr {next} {left}`"),
            _ => f.write_str(self.command()),
        }
    }
}
