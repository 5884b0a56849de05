//! What a parameter page declares, as it is shown.

use crate::optional_parts::OPTIONAL_PARTS;
use nand_geometry::{Geometry, Optional, Parts};
use std::fmt;

// The bits that numbers below a count have.
fn bits_of(count: u32) -> u32 {
    u32::BITS - count.saturating_sub(1).leading_zeros()
}

// A field of a row: so many bits, from one on.
#[derive(Clone, Copy)]
struct Field {
    name: &'static str,
    from: u32,
    bits: u32,
}

impl fmt::Display for Field {
    fn fmt<W: fmt::Write>(&self, f: &mut fmt::Formatter<W>) -> fmt::Result {
        match self.bits {
            0 => write!(f, "{} in no bit", self.name),
            1 => write!(f, "{} in bit {}", self.name, self.from),
            bits => {
                let last = self.from.saturating_add(bits).saturating_sub(1);
                write!(f, "{} in bits {} to {last}", self.name, self.from)
            }
        }
    }
}

// How a row is made of a page, a block and a LUN.
#[derive(Clone, Copy)]
struct RowFields(Parts);

impl fmt::Display for RowFields {
    fn fmt<W: fmt::Write>(&self, f: &mut fmt::Formatter<W>) -> fmt::Result {
        let Parts {
            pages,
            blocks,
            luns,
            ..
        } = self.0;
        let page = Field {
            name: "page",
            from: 0,
            bits: bits_of(pages),
        };
        let block = Field {
            name: "block",
            from: page.bits,
            bits: bits_of(blocks),
        };
        let lun = Field {
            name: "LUN",
            from: block.from.saturating_add(block.bits),
            bits: bits_of(u32::from(luns)),
        };
        write!(f, "{page}, {block}, {lun}")
    }
}

// What every chip of the profile takes.
const COMMANDS: &str =
    "00h 30h read, 05h E0h change read column, 60h D0h block erase, 70h read status, 80h 10h page program, 85h change write column, 90h read ID, ECh read parameter page, FFh reset";

// Whether commands are declared.
fn said(is_declared: bool) -> &'static str {
    if is_declared {
        "declared"
    } else {
        "not declared"
    }
}

// What a page declares of the wider profile, if it is read for that.
#[derive(Clone, Copy)]
struct DeclaredParts(Optional);

impl fmt::Display for DeclaredParts {
    fn fmt<W: fmt::Write>(&self, f: &mut fmt::Formatter<W>) -> fmt::Result {
        if !self.0.is_wide() {
            return Ok(());
        }
        for part in OPTIONAL_PARTS {
            writeln!(f, "{}: {}", part.words, said(part.is_in(self.0)))?;
        }
        Ok(())
    }
}

/// What a page declares, a line for each fact.
#[derive(Clone, Copy)]
pub(crate) struct Declared<'a>(pub &'a Geometry);

impl fmt::Display for Declared<'_> {
    fn fmt<W: fmt::Write>(&self, f: &mut fmt::Formatter<W>) -> fmt::Result {
        let parts = self.0.parts();
        writeln!(f, "data bytes of a page: {}", parts.page_bytes)?;
        writeln!(f, "spare bytes of a page: {}", parts.spare_bytes)?;
        writeln!(f, "pages of a block: {}", parts.pages)?;
        writeln!(f, "blocks of a LUN: {}", parts.blocks)?;
        writeln!(f, "LUNs: {}", parts.luns)?;
        writeln!(f, "planes of a LUN: {}", self.0.planes())?;
        writeln!(f, "row: {}", RowFields(parts))?;
        writeln!(f, "commands: {COMMANDS}")?;
        writeln!(f, "78h read status enhanced: {}", said(parts.enhanced))?;
        writeln!(f, "31h 3Fh read cache: {}", said(parts.cache))?;
        writeln!(
            f,
            "11h D1h multi-plane program and erase: {}",
            said(parts.multi_plane)
        )?;
        write!(f, "{}", DeclaredParts(parts.optional))
    }
}
