//! A row or a plane that may be outside.

use crate::header_number::HeaderNumber;
use crate::need::Need;
use crate::refused::Refused;
use micro_claims::{bound_plus, is_at_most};
use onfi_cycle::Command;
use std::fmt;

/// Which row or plane may be outside.
#[derive(Clone, Copy, Debug, PartialEq, Eq)]
pub enum RowsCause {
    /// An address may name a row that isn't among those of the header.
    Row(Need),
    /// A cache read may go on to one.
    CachedRow(Need),
    /// An address may name this plane of a die with fewer.
    Plane { plane: u8, planes: u32 },
    /// No die has this plane.
    NoPlane { plane: u8 },
}

// So many rows are needed.
fn need(refused: &Refused<'_>, needed: Option<u32>) -> Option<Need> {
    let given = refused.bounds.rows;
    if is_at_most(needed, u64::from(given)) {
        None
    } else {
        Some(Need {
            number: HeaderNumber::Rows,
            needed,
            given,
        })
    }
}

impl RowsCause {
    /// Against an address.
    pub(crate) fn of_address(refused: &Refused<'_>) -> Option<RowsCause> {
        let registers = &refused.state.registers;
        let planes = refused.geometry.planes();
        match need(refused, bound_plus(registers.index.hi(), 1)) {
            Some(need) => Some(RowsCause::Row(need)),
            None if !registers.planes.are_below(planes) => Some(RowsCause::Plane {
                plane: registers.planes.greatest(),
                planes,
            }),
            None => None,
        }
    }

    /// Against a command: `cmd 31` goes on to the next row.
    pub(crate) fn of_command(refused: &Refused<'_>, command: Command) -> Option<RowsCause> {
        if command == Command::ReadCacheSequential {
            let index = refused.state.lun.cached.index.hi();
            Some(RowsCause::CachedRow(need(refused, bound_plus(index, 2))?))
        } else {
            None
        }
    }
}

impl fmt::Display for RowsCause {
    fn fmt<W: fmt::Write>(&self, f: &mut fmt::Formatter<W>) -> fmt::Result {
        match self {
            RowsCause::Row(need) => write!(f, "{need}"),
            RowsCause::CachedRow(need) => write!(
                f,
                "the cache read goes on to the next row: {need}"
            ),
            RowsCause::Plane { plane, planes: 1 } => {
                write!(
                    f,
                    "plane {plane} may be named, and the die has plane 0 alone"
                )
            }
            RowsCause::Plane { plane, planes } => write!(
                f,
                "plane {plane} may be named, and the die has planes 0 to {}",
                planes.saturating_sub(1)
            ),
            RowsCause::NoPlane { plane } => {
                write!(
                    f,
                    "plane {plane} is named, and no die has more than planes 0 to 3"
                )
            }
        }
    }
}
