//! Pages of a block that are programmed out of order.

use crate::rewritten::way;
use crate::row_at::RowAt;
use std::fmt;

/// A page that is programmed after a higher one of its block, with no erase between, on the way that takes no branch and for a base that
/// begins a block.
#[derive(Clone, Copy, Debug, PartialEq, Eq)]
pub struct Misordered {
    /// The word that programs the lower page.
    pub word: usize,
    /// The word that has programmed the higher one.
    pub before: usize,
    pub row: RowAt,
    pub higher: RowAt,
    /// A branch is passed on the way.
    pub branched: bool,
}

impl fmt::Display for Misordered {
    fn fmt<W: fmt::Write>(&self, f: &mut fmt::Formatter<W>) -> fmt::Result {
        let (row, higher, before) = (self.row, self.higher, self.before);
        f.write_str(way(self.branched))?;
        write!(
            f,
            "it programs {row} after {higher} (word {before}), in the same block if the base begins one: program the pages of a block in rising order"
        )
    }
}
