//! A command that programs may not use.

use crate::outside::name_outside;
use crate::refused::Refused;
use onfi_cycle::{Command, is_undeclared};
use std::fmt;

/// Why programs may not use a command.
#[derive(Clone, Copy, Debug, PartialEq, Eq)]
pub enum BarredCause {
    /// `stat` and `wait` ask for the status.
    Poll,
    /// No command of the profile has this byte.
    NoCommand { byte: u8 },
    /// The parameter page declares no operations of several planes.
    SeveralPlanes,
    /// The parameter page declares no cache read.
    CacheRead,
    /// The parameter page declares no unique identifier.
    UniqueId,
    /// The parameter page declares no features.
    Features,
    /// The parameter page declares no enhanced change of the read column.
    EnhancedColumn,
    /// The parameter page declares no reads of several planes.
    PlaneReads,
    /// The parameter page declares no copyback.
    Copyback,
    /// The parameter page declares no cache program.
    CacheProgram,
    /// The parameter page declares no reset of a LUN.
    LunReset,
    /// The parameter page declares no synchronous reset.
    SynchronousReset,
    /// The command wants the only LUN of a target, and this one has so many.
    SeveralLuns { luns: u8 },
}

impl BarredCause {
    pub(crate) fn of(refused: &Refused<'_>, byte: u8) -> Option<BarredCause> {
        let parts = refused.geometry.parts();
        let command = Command::of(byte);
        match command {
            Command::Unknown => Some(BarredCause::NoCommand { byte }),
            Command::ReadUniqueId => {
                BarredCause::of_optional(refused, command, byte, BarredCause::UniqueId)
            }
            Command::GetFeatures | Command::SetFeatures => {
                BarredCause::of_optional(refused, command, byte, BarredCause::Features)
            }
            Command::ResetLun => {
                BarredCause::of_optional(refused, command, byte, BarredCause::LunReset)
            }
            Command::SynchronousReset => {
                BarredCause::of_optional(refused, command, byte, BarredCause::SynchronousReset)
            }
            Command::ChangeReadColumnEnhanced => {
                BarredCause::of_optional(refused, command, byte, BarredCause::EnhancedColumn)
            }
            Command::ReadPlane => {
                BarredCause::of_optional(refused, command, byte, BarredCause::PlaneReads)
            }
            Command::CopybackRead => {
                BarredCause::of_optional(refused, command, byte, BarredCause::Copyback)
            }
            Command::ProgramCache => {
                BarredCause::of_optional(refused, command, byte, BarredCause::CacheProgram)
            }
            Command::ReadStatus | Command::ReadStatusEnhanced => Some(BarredCause::Poll),
            Command::BlockErasePlane | Command::ProgramPlane => {
                told_if(!parts.multi_plane, BarredCause::SeveralPlanes)
            }
            Command::ReadCacheSequential | Command::ReadCacheEnd => {
                told_if(!parts.cache, BarredCause::CacheRead)
            }
            Command::ReadId | Command::ReadParameterPage | Command::Reset => {
                BarredCause::of_several_luns(refused)
            }
            Command::Read
            | Command::ReadConfirm
            | Command::ChangeReadColumn
            | Command::ChangeReadColumnConfirm
            | Command::BlockErase
            | Command::BlockEraseConfirm
            | Command::PageProgram
            | Command::ChangeWriteColumn
            | Command::ProgramConfirm => None,
        }
    }

    // Of a command of the wider profile, which has this cause where it isn't declared.
    fn of_optional(
        refused: &Refused<'_>,
        command: Command,
        byte: u8,
        undeclared: BarredCause,
    ) -> Option<BarredCause> {
        if !refused.geometry.parts().optional.is_wide() {
            Some(BarredCause::NoCommand { byte })
        } else if is_undeclared(refused.geometry, command) {
            Some(undeclared)
        } else {
            BarredCause::of_several_luns(refused)
        }
    }

    // Of a command that wants the only LUN of a target.
    fn of_several_luns(refused: &Refused<'_>) -> Option<BarredCause> {
        let luns = refused.geometry.parts().luns;
        told_if(luns > 1, BarredCause::SeveralLuns { luns })
    }
}

// The cause, where it stands.
fn told_if(stands: bool, cause: BarredCause) -> Option<BarredCause> {
    if stands { Some(cause) } else { None }
}

impl fmt::Display for BarredCause {
    fn fmt<W: fmt::Write>(&self, f: &mut fmt::Formatter<W>) -> fmt::Result {
        match self {
            BarredCause::Poll => f.write_str("programs ask for the status by `stat` or `wait`"),
            BarredCause::NoCommand { byte } => match name_outside(*byte) {
                Some(name) => write!(f, "{byte:02x}h ({name}) isn't in the profile"),
                None => write!(f, "no command has the byte {byte:02x}"),
            },
            BarredCause::SeveralPlanes => f.write_str(
                "the parameter page declares no program and erase of several planes",
            ),
            BarredCause::CacheRead => f.write_str("the parameter page declares no cache read"),
            BarredCause::UniqueId => f.write_str(
                "the parameter page declares no unique identifier",
            ),
            BarredCause::Features => f.write_str("the parameter page declares no features"),
            BarredCause::EnhancedColumn => f.write_str(
                "the parameter page declares no enhanced change of the read column",
            ),
            BarredCause::PlaneReads => f.write_str(
                "the parameter page declares no reads of several planes",
            ),
            BarredCause::Copyback => f.write_str("the parameter page declares no copyback"),
            BarredCause::CacheProgram => {
                f.write_str("the parameter page declares no cache program")
            }
            BarredCause::LunReset => f.write_str("the parameter page declares no reset of a LUN"),
            BarredCause::SynchronousReset => f.write_str(
                "the parameter page declares no synchronous reset",
            ),
            BarredCause::SeveralLuns { luns } => write!(
                f,
                "it works on a target with one LUN alone, and this one has {luns}"
            ),
        }
    }
}
