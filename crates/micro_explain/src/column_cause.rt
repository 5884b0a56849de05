//! A column that may be too large.

use crate::refused::Refused;
use micro_claims::{Place, bound_plus};
use onfi_cycle::Command;
use std::fmt;

/// Which column may be past the end, and of what.
#[derive(Clone, Copy, Debug, PartialEq, Eq)]
pub struct ColumnCause {
    /// The greatest column that may be named, read or written; None where there is no bound.
    pub column: Option<u32>,
    /// The number of columns that there are at least.
    pub length: u32,
    /// They are those of the register, not of a page.
    pub in_register: bool,
}

// The least length that the register may have.
fn register_length(refused: &Refused<'_>) -> u32 {
    match refused.state.lun.register {
        None => 0,
        Some(held) => held.least_length(refused.geometry),
    }
}

// The last of so many columns from this one on.
fn last_of(column: Option<u32>, count: u32) -> Option<u32> {
    bound_plus(column, u64::from(count.saturating_sub(1)))
}

impl ColumnCause {
    // A column of the register.
    fn of_register(refused: &Refused<'_>, column: Option<u32>) -> ColumnCause {
        ColumnCause {
            column,
            length: register_length(refused),
            in_register: true,
        }
    }

    // A column of a page.
    fn of_page(refused: &Refused<'_>, column: Option<u32>) -> ColumnCause {
        ColumnCause {
            column,
            length: refused.geometry.page_len(),
            in_register: false,
        }
    }

    /// Against an address.
    pub(crate) fn of_address(refused: &Refused<'_>) -> ColumnCause {
        let column = refused.state.registers.column.hi();
        match refused.state.target.tail {
            Place::After {
                opener: Command::ChangeReadColumn,
                ..
            } => { ColumnCause::of_register(refused, column) }
            Place::After { .. }
            | Place::Closed
            | Place::InData
            | Place::InColumn { .. }
            | Place::InFeatures { .. }
            | Place::Unknown => ColumnCause::of_page(refused, column),
        }
    }

    /// Against so many outputs.
    pub(crate) fn of_outputs(refused: &Refused<'_>, count: u32) -> ColumnCause {
        let column = match refused.state.lun.column {
            None => None,
            Some(column) => column.at.hi(),
        };
        ColumnCause::of_register(refused, last_of(column, count))
    }

    /// Against so many inputs.
    pub(crate) fn of_inputs(refused: &Refused<'_>, count: u32) -> ColumnCause {
        let column = match refused.state.target.column {
            None => None,
            Some(column) => column.hi(),
        };
        ColumnCause::of_page(refused, last_of(column, count))
    }
}

impl fmt::Display for ColumnCause {
    fn fmt<W: fmt::Write>(&self, f: &mut fmt::Formatter<W>) -> fmt::Result {
        match self.column {
            Some(column) => write!(f, "it may reach column {column}, and ")?,
            None => f.write_str("no bound is known for the column that it reaches, and ")?,
        }
        f.write_str(if self.in_register {
            "the register"
        } else {
            "the page"
        })?;
        match self.length.checked_sub(1) {
            Some(last) => write!(f, " has columns 0 to {last}"),
            None => f.write_str(" has none"),
        }
    }
}
