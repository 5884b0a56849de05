//! A page as a LUN gave it.
ghost use Rattle.std.specs.Prelude.{◌≡◌, ◌∷◌, ◌++◌, [], IfOk, OnOk};
ghost use Rattle.onfi_cycle.specs.declared.page_address.PageAddress.{PageAddress as Page};
ghost use Rattle.die_model.specs.Pages.{kept};
ghost use Rattle.trace_data.specs.Reads.{is_next, continued, read_with, filled_by, AreFilled};

use crate::page_shown::PageShown;
use die_model::Pages;
use onfi_cycle::PageAddress;
use std::alloc::{AllocError, Global};
use std::marker::Model;

/// A page and its bytes as the outputs of a LUN gave them, from column 0 on.
#[derive(Drop)]
pub struct PageRead {
    pub page: PageAddress,
    pub bytes: Vec<u8>,
}

impl Model for PageRead {
    ghost use Rattle.trace_data.specs.Reads.{PageBytes};

    ghost Value = { PageBytes };

    ghost view = { λ r. record { page = r.page; bytes = r.bytes.items } };
}

impl PageRead {
    // Begins with the byte of column 0.
    fn begin(alloc: Global, page: PageAddress, byte: u8) -> Result<PageRead, AllocError>
        ensures { IfOk result (λ r. r ≡ record { page = page; bytes = byte ∷ [] }) }
    {
        let mut bytes = Vec::new(alloc);
        bytes.push(byte)?;
        Ok(PageRead { page, bytes })
    }

    // Whether an output gives the byte behind these.
    fn is_next(&self, shown: PageShown) -> bool
        ensures { result ≡ is_next self.now shown }
    {
        shown.page == self.page && shown.column as usize == self.bytes.len()
    }

    // With the byte of the next column.
    fn with_byte(self, byte: u8) -> Result<PageRead, AllocError>
        ensures { IfOk result (λ r. r ≡ record self { bytes = self.bytes ++ byte ∷ [] }) }
    {
        let PageRead { page, mut bytes } = self;
        bytes.push(byte)?;
        Ok(PageRead { page, bytes })
    }
}

// The read that goes on, after an output of the LUN that is no output of column 0.
fn continue_read(
    going: Option<PageRead>,
    shown: PageShown,
    byte: u8,
) -> Result<Option<PageRead>, AllocError>
    ensures { IfOk result (λ read. read ≡ continued going shown byte) }
{
    match going {
        Some(read) if read.is_next(shown) => Ok(Some(read.with_byte(byte)?)),
        Some(_) | None => Ok(None),
    }
}

/// The read that goes on, after an output of the LUN.
pub(crate) fn read_with(
    alloc: Global,
    going: Option<PageRead>,
    shown: PageShown,
    byte: u8,
) -> Result<Option<PageRead>, AllocError>
    ensures { IfOk result (λ read. read ≡ read_with going shown byte) }
{
    if shown.column == 0 {
        return Ok(Some(PageRead::begin(alloc, shown.page, byte)?));
    }
    continue_read(going, shown, byte)
}

// Keeps a page as it was read, unless it is kept.
fn fill_page(pages: &mut Pages<Global>, read: &PageRead) -> Result<(), AllocError>
    ensures { OnOk result ((p : Page) → kept pages.new p ≡ filled_by read.now p (kept pages.old p)) }
{
    if pages.get(read.page).is_some() {
        return Ok(());
    }
    pages.put(read.page, read.bytes.as_slice())
}

/// Keeps each page that was read and isn't kept, as the first of these reads gave it; nothing else changes.
pub fn fill_pages(pages: &mut Pages<Global>, reads: &[PageRead]) -> Result<(), AllocError>
    ensures { OnOk result (AreFilled reads.now pages.old pages.new) }
{
    for read in reads {
        fill_page(pages, read)?;
    }
    Ok(())
}
