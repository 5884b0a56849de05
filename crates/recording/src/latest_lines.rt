//! The lines that were read last.

use std::alloc::{AllocError, Global};

/// The last two pieces of a text that is read piece by piece, so that a line of them can be shown.
#[derive(Drop)]
pub(crate) struct LatestLines {
    text: Vec<u8>,
    // The number of the line in which it begins, from 1, and how long the last piece is.
    first: usize,
    last_len: usize,
}

impl LatestLines {
    /// Of a text of which nothing is read yet.
    pub(crate) fn new(alloc: Global) -> LatestLines {
        LatestLines {
            text: Vec::new(alloc),
            first: 1,
            last_len: 0,
        }
    }

    /// Goes on by a piece.
    pub(crate) fn push(&mut self, piece: &[u8]) -> Result<(), AllocError> {
        let old = self.text.len().saturating_sub(self.last_len);
        let ended = self.text.iter().take(old).filter(|byte| **byte == b'\n');
        self.first = self.first.saturating_add(ended.count());
        self.text.drain(..old);
        self.text.extend_from_slice(piece)?;
        self.last_len = piece.len();
        Ok(())
    }

    /// The line of this number, as far as it is there.
    pub(crate) fn line(&self, number: usize) -> Option<&[u8]> {
        let place = number.checked_sub(self.first)?;
        let line = self.text.as_slice().split(|byte| *byte == b'\n').nth(place);
        line.or(Some(b""))
    }
}
