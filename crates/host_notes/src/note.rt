//! What a host surely didn't mean.

use std::fmt;

/// What a host surely didn't mean.
#[derive(Clone, Copy, Debug, PartialEq, Eq, PartialOrd, Ord)]
pub enum HostNote {
    /// N2: a page is programmed twice with no erase between, the first time with this item.
    Rewritten {
        block: u32,
        page: u32,
        before: usize,
    },
    /// N3: a page is programmed after a later one of its block, which this item programs.
    Misordered {
        block: u32,
        page: u32,
        after: u32,
        before: usize,
    },
    /// N4: an erase or a program failed, and no status says so to the host before more work of its LUN.
    Unseen,
}

impl HostNote {
    /// Its code, which is that of a note to a program that does the same.
    pub fn code(self) -> &'static str {
        match self {
            HostNote::Rewritten { .. } => "N2",
            HostNote::Misordered { .. } => "N3",
            HostNote::Unseen => "N4",
        }
    }
}

impl HostNote {
    /// The item before it that it speaks of, if there is one.
    pub fn before(self) -> Option<usize> {
        match self {
            HostNote::Rewritten { before, .. } | HostNote::Misordered { before, .. } => Some(
                before,
            ),
            HostNote::Unseen => None,
        }
    }

    /// The same, where this is the number of that item.
    pub fn with_before(self, before: usize) -> HostNote {
        match self {
            HostNote::Rewritten { block, page, .. } => HostNote::Rewritten {
                block,
                page,
                before,
            },
            HostNote::Misordered {
                block,
                page,
                after,
                ..
            } => HostNote::Misordered {
                block,
                page,
                after,
                before,
            },
            HostNote::Unseen => HostNote::Unseen,
        }
    }
}

impl fmt::Display for HostNote {
    fn fmt<W: fmt::Write>(&self, f: &mut fmt::Formatter<W>) -> fmt::Result {
        match *self {
            HostNote::Rewritten {
                block,
                page,
                before,
            } => write!(
                f,
                "page {page} of block {block} is programmed again after item {before}, without an erase between"
            ),
            HostNote::Misordered {
                block,
                page,
                after,
                before,
            } => write!(
                f,
                "page {page} of block {block} is programmed after page {after} (item {before}): a block is programmed in rising order"
            ),
            HostNote::Unseen => {
                f.write_str(
                    "this work failed, and no status says so before the next work of its LUN",
                )
            }
        }
    }
}

/// What a host surely didn't mean with an item of its trace, from 0: that with which work begins.
#[derive(Clone, Copy, Debug, PartialEq, Eq, PartialOrd, Ord)]
pub struct HostNoteAt {
    pub item: usize,
    pub note: HostNote,
}
