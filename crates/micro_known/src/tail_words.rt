//! Where the sequence of a target is, in words.

use crate::span_words::write_span;
use micro_claims::{KnownTarget, NamedRow, Place};
use onfi_cycle::Command;
use std::fmt;

// The command that an opener with all its addresses wants.
fn closer_of(opener: Command) -> &'static str {
    match opener {
        Command::Read => "`30`",
        Command::ChangeReadColumn | Command::ChangeReadColumnEnhanced => "`e0`",
        Command::BlockErase => "`d0` or `d1`",
        _ => "its closer",
    }
}

// After an opener and so many of its addresses.
fn write_after<W: fmt::Write>(
    f: &mut fmt::Formatter<W>,
    opener: Command,
    addresses: u8,
) -> fmt::Result {
    let byte = opener.opcode().unwrap_or(0);
    let count = opener.address_cycles();
    let next = usize::from(addresses).saturating_add(1);
    if next <= count {
        write!(f, "`{byte:02x}` wants address {next} of {count}")
    } else {
        write!(f, "`{byte:02x}` wants {}", closer_of(opener))
    }
}

// The row that the addresses name, where they name one.
fn write_named<W: fmt::Write>(f: &mut fmt::Formatter<W>, named: &Option<NamedRow>) -> fmt::Result {
    match named {
        None => Ok(()),
        Some(row) => {
            f.write_str(" for row ")?;
            write_span(f, &row.index)
        }
    }
}

/// Writes what is open on a target.
pub(crate) fn write_tail<W: fmt::Write>(
    f: &mut fmt::Formatter<W>,
    target: &KnownTarget,
) -> fmt::Result {
    match target.tail {
        Place::Closed => f.write_str("nothing is open"),
        Place::After { opener, addresses } => {
            write_after(f, opener, addresses)?;
            write_named(f, &target.named)
        }
        Place::InData => {
            f.write_str("a program takes data")?;
            write_named(f, &target.named)
        }
        Place::InColumn { addresses } => {
            write!(
                f,
                "`85` wants byte {} of a column",
                addresses.saturating_add(1)
            )
        }
        Place::InFeatures { inputs } => {
            write!(f, "`ef` wants byte {} of 4", inputs.saturating_add(1))
        }
        Place::Unknown => f.write_str("what is open depends on the way"),
    }
}
