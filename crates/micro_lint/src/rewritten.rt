//! A row that is programmed twice.

use crate::row_at::RowAt;
use std::fmt;

/// A row that is programmed twice, with no erase of its block between, on the way that takes no branch.
#[derive(Clone, Copy, Debug, PartialEq, Eq)]
pub struct Rewritten {
    /// The word that programs it for the second time.
    pub word: usize,
    /// The word that has programmed it: this word or one after it, where that was in an earlier turn of a loop.
    pub before: usize,
    pub row: RowAt,
    /// A branch is passed on the way.
    pub branched: bool,
}

/// What a note of the way that takes no branch begins with.
pub(crate) fn way(branched: bool) -> &'static str {
    if branched {
        "if no branch is taken, "
    } else {
        ""
    }
}

impl fmt::Display for Rewritten {
    fn fmt<W: fmt::Write>(&self, f: &mut fmt::Formatter<W>) -> fmt::Result {
        let (row, before) = (self.row, self.before);
        f.write_str(way(self.branched))?;
        if before == self.word {
            write!(
                f,
                "it programs {row} in two turns, without an erase between: a `rowadd` or an erase is missing in the loop"
            )
        } else if before < self.word {
            write!(
                f,
                "it programs {row}, as word {before} does before, without an erase between: erase it first, or give both parts in one program by `cmd 85`"
            )
        } else {
            write!(
                f,
                "it programs {row}, as word {before} does in the turn before, without an erase between: erase it first"
            )
        }
    }
}
