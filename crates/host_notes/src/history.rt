//! What was done to blocks and pages, and what isn't meant of it.

use crate::array_work::{ArrayWork, BlockAt};
use crate::note::{HostNote, HostNoteAt};
use std::alloc::{AllocError, Allocator};
use std::collections::BTreeMap;

// A page of a block.
#[derive(Clone, Copy, Debug, PartialEq, Eq, PartialOrd, Ord)]
struct PageAt {
    block: BlockAt,
    page: u32,
}

// A page that was programmed by an item, after so many erases of its block.
#[derive(Clone, Copy, Debug, PartialEq, Eq)]
struct Programmed {
    erases: u64,
    page: u32,
    item: usize,
}

// How often a block was erased, and the last of its pages that is programmed since.
#[derive(Clone, Copy, Debug, PartialEq, Eq)]
struct BlockPast {
    erases: u64,
    highest: Option<Programmed>,
}

// Nothing was done to a block.
const UNTOUCHED: BlockPast = BlockPast {
    erases: 0,
    highest: None,
};

/// What was done to blocks and pages so far, and what isn't meant of it.
#[derive(Drop)]
pub(crate) struct History<A: Allocator> {
    blocks: BTreeMap<BlockAt, BlockPast, A>,
    pages: BTreeMap<PageAt, Programmed, A>,
    pub(crate) notes: Vec<HostNoteAt, A>,
}

impl<A: Allocator + Clone> History<A> {
    /// Nothing was done.
    pub(crate) fn new(alloc: A) -> Result<History<A>, AllocError> {
        Ok(History {
            blocks: BTreeMap::new(alloc.clone()?),
            pages: BTreeMap::new(alloc.clone()?),
            notes: Vec::new(alloc),
        })
    }
}

impl<A: Allocator + Clone> History<A> {
    /// Adds what isn't meant with an item.
    pub(crate) fn note(&mut self, item: usize, note: HostNote) -> Result<(), AllocError> {
        self.notes.push(HostNoteAt { item, note })?;
        Ok(())
    }

    // What was done to a block.
    fn past_of(&self, block: BlockAt) -> BlockPast {
        match self.blocks.get(&block) {
            Some(past) => *past,
            None => UNTOUCHED,
        }
    }

    // What isn't meant with the program of a page of a block of which this is known.
    fn fault_of(&self, at: PageAt, past: BlockPast) -> Option<HostNote> {
        let PageAt { block, page } = at;
        if let Some(before) = self.pages.get(&at)
            && before.erases == past.erases
        {
            return Some(HostNote::Rewritten {
                block: block.block,
                page,
                before: before.item,
            });
        }
        match past.highest {
            Some(highest) if page < highest.page => Some(HostNote::Misordered {
                block: block.block,
                page,
                after: highest.page,
                before: highest.item,
            }),
            Some(_) | None => None,
        }
    }

    // Goes on by an erase.
    fn erase(&mut self, block: BlockAt) -> Result<(), AllocError> {
        let past = BlockPast {
            erases: self.past_of(block).erases.saturating_add(1),
            highest: None,
        };
        self.blocks.insert(block, past)?;
        Ok(())
    }

    // Goes on by a program with this item.
    fn program(&mut self, item: usize, at: PageAt) -> Result<(), AllocError> {
        let past = self.past_of(at.block);
        if let Some(note) = self.fault_of(at, past) {
            self.note(item, note)?;
        }
        let programmed = Programmed {
            erases: past.erases,
            page: at.page,
            item,
        };
        let highest = match past.highest {
            Some(highest) if at.page < highest.page => highest,
            Some(_) | None => programmed,
        };
        self.pages.insert(at, programmed)?;
        self.blocks.insert(
            at.block,
            BlockPast {
                highest: Some(highest),
                ..past
            },
        )?;
        Ok(())
    }

    /// Goes on by work that begins with this item.
    pub(crate) fn go_on(&mut self, item: usize, work: ArrayWork) -> Result<(), AllocError> {
        match work {
            ArrayWork::Erase(block) => self.erase(block),
            ArrayWork::Program { block, page } => self.program(item, PageAt { block, page }),
        }
    }
}
