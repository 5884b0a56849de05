//! The copies of a parameter page, as they are shown.

use nand_geometry::checksum::checksum;
use std::fmt;

// How many bytes a copy has.
const COPY_LEN: usize = 256;

// Where the checksum stands, after the bytes that it is of.
const CHECKSUM_PLACE: usize = 254;

// A whole copy of a parameter page.
#[derive(Clone, Copy)]
struct PageCopy<'a>(&'a [u8]);

impl PageCopy<'_> {
    // The checksum that stands in the copy, and the one that its other bytes have; none for a part of a copy.
    fn checksums(self) -> Option<(u16, u16)> {
        let (covered, rest) = self.0.split_at_checked(CHECKSUM_PLACE)?;
        let low = *rest.first()?;
        let high = *rest.get(1)?;
        Some((u16::from(low) + 256 * u16::from(high), checksum(covered)))
    }
}

impl fmt::Display for PageCopy<'_> {
    fn fmt<W: fmt::Write>(&self, f: &mut fmt::Formatter<W>) -> fmt::Result {
        if !self.0.starts_with(b"ONFI") {
            return f.write_str("no signature");
        }
        match self.checksums() {
            Some((found, right)) if found == right => write!(f, "checksum {found:04x}, right"),
            Some((found, right)) => write!(f, "checksum {found:04x}, and {right:04x} is right"),
            None => f.write_str("cut short"),
        }
    }
}

/// The copies of a parameter page: a line for each, and one for the bytes behind the last whole copy.
#[derive(Clone, Copy)]
pub(crate) struct PageCopies<'a>(pub &'a [u8]);

impl fmt::Display for PageCopies<'_> {
    fn fmt<W: fmt::Write>(&self, f: &mut fmt::Formatter<W>) -> fmt::Result {
        for (number, copy) in self.0.chunks_exact(COPY_LEN).enumerate() {
            writeln!(f, "copy {number}: {}", PageCopy(copy))?;
        }
        match self.0.len() % COPY_LEN {
            0 => Ok(()),
            rest => writeln!(
                f,
                "{rest} bytes behind the last whole copy, which aren't read"
            ),
        }
    }
}
