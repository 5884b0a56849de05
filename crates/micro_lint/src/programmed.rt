//! The rows that are programmed and not erased since.

use crate::row_at::RowAt;
use std::alloc::{AllocError, Allocator};

/// A row that is programmed, and the last word that has done it.
#[derive(Clone, Copy)]
pub(crate) struct ProgrammedRow {
    pub at: RowAt,
    pub word: usize,
}

/// The rows that are programmed, each once.
#[derive(Drop)]
pub(crate) struct Programmed<B: Allocator> {
    rows: Vec<ProgrammedRow, B>,
    // The pages of a block.
    pages: u64,
}

impl<B: Allocator> Programmed<B> {
    /// No row is programmed; a block has so many pages.
    pub(crate) fn new(alloc: B, pages: u64) -> Programmed<B> {
        Programmed {
            rows: Vec::new(alloc),
            pages,
        }
    }

    /// The entry of this row.
    pub(crate) fn of(&self, at: RowAt) -> Option<ProgrammedRow> {
        for row in self.rows.as_slice() {
            if row.at == at {
                return Some(*row);
            }
        }
        None
    }

    /// A row after this one in the same block, where the base begins a block.
    pub(crate) fn after(&self, at: RowAt) -> Option<ProgrammedRow> {
        for row in self.rows.as_slice() {
            if at.row < row.at.row && at.shares_block(row.at, self.pages) {
                return Some(*row);
            }
        }
        None
    }

    /// A row is programmed.
    pub(crate) fn add(&mut self, row: ProgrammedRow) -> Result<(), AllocError> {
        self.rows.retain(|other| other.at != row.at);
        self.rows.push(row)?;
        Ok(())
    }

    /// The block of a row is erased: all rows that may be in it, whatever the base is.
    pub(crate) fn erase(&mut self, at: RowAt) {
        let pages = self.pages;
        self.rows.retain(|row| !row.at.may_share_block(at, pages));
    }

    /// Nothing is known any more.
    pub(crate) fn forget(&mut self) {
        self.rows.clear();
    }
}
