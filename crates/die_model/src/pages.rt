//! The pages of a die that were programmed.
ghost use Rattle.std.specs.Prelude.{◌≡◌, ℕ, ◌%◌, ◌^◌, ◌<◌, ◌≤◌, ◌==◌, ◌&&◌, nat_lt, ◌++◌, if◌then◌else◌, List, [], Some, None, IsOk, IfOk, OnErr, length, replicate};
ghost use Rattle.std.specs.Option.{option_copied};
ghost use Rattle.onfi_cycle.specs.declared.page_address.PageAddress.{PageAddress as At};
ghost use Rattle.onfi_cycle.specs.Content.{same_page};
ghost use Rattle.die_model.specs.Image.{entries_of, count_of, header};
ghost use Rattle.die_model.specs.Pages.{kept, page_in, programmed, is_given, AreInOrder};

use crate::image::{begin_image, count_entry, write_entry};
use crate::page::Page;
use nand_geometry::Geometry;
use onfi_cycle::PageAddress;
use std::alloc::{AllocError, Allocator};
use std::collections::BTreeMap;
use std::marker::Model;

/// The pages that were programmed, by block and page. Every other page is all FF.
#[derive(Drop)]
pub struct Pages<A: Allocator> {
    alloc: A,
    map: BTreeMap<(u32, u64), Page<A>, A>,
}

impl<A: Allocator> Model for Pages<A> {
    ghost use Rattle.std.specs.Prelude.{ℕ, List};

    ghost Value = { List ((ℕ × ℕ) × List ℕ) };

    ghost view = { λ s. s.map.entries };
}

impl<A: Allocator + Copy> Pages<A> {
    /// No page was programmed.
    pub fn new(alloc: A) -> Pages<A>
        ensures { result ≡ [] }
    {
        Pages {
            map: BTreeMap::new(alloc),
            alloc,
        }
    }

    /// No page was programmed, over the same memory.
    pub fn emptied(&self) -> Pages<A>
        ensures { result ≡ [] }
    {
        Pages::new(self.alloc)
    }

    /// The same pages again.
    pub fn copy(&self) -> Result<Pages<A>, AllocError>
        ensures { IfOk result (λ pages. pages ≡ self.now) }
    {
        Ok(Pages {
            alloc: self.alloc,
            map: self.map.clone()?,
        })
    }

    /// The bytes of a page, if it is kept.
    pub fn get(&self, at: PageAddress) -> Option<&Page<A>>
        ensures { option_copied result ≡ kept self.now at }
    {
        self.map.get(&(at.block, at.page))
    }

    /// Keeps a page, FF if it wasn't kept before. Without memory for that all stays as it was.
    pub fn keep(&mut self, at: PageAddress, len: usize) -> Result<(), AllocError>
        ensures kept { IfOk result (λ _. (p : At) → kept self.new p
            ≡ (if same_page p at then Some (page_in len self.old p) else kept self.old p)) }
        ensures err { OnErr result (self.new ≡ self.old) }
    {
        if self.map.contains_key(&(at.block, at.page)) {
            return Ok(());
        }
        let page = Page::blank(self.alloc, len)?;
        self.map.insert((at.block, at.page), page)?;
        Ok(())
    }

    /// Keeps these bytes of a page, whatever it held. Without memory for that all stays as it was.
    pub fn put(&mut self, at: PageAddress, bytes: &[u8]) -> Result<(), AllocError>
        ensures { IfOk result (λ _. (p : At) → kept self.new p ≡ (if same_page p at then Some bytes.now else kept self.old p)) }
    {
        let page = Page::of(self.alloc, bytes)?;
        self.map.insert((at.block, at.page), page)?;
        Ok(())
    }

    /// Keeps a page, if one is given.
    pub fn keep_some(&mut self, at: Option<PageAddress>, len: usize) -> Result<(), AllocError>
        ensures kept { IfOk result (λ _. (p : At) → kept self.new p
            ≡ (if is_given p at then Some (page_in len self.old p) else kept self.old p)) }
        ensures err { OnErr result (self.new ≡ self.old) }
        ensures none { at ≡ None → IsOk result }
    {
        match at {
            None => Ok(()),
            Some(at) => self.keep(at, len),
        }
    }

    /// Programs a page that is kept.
    pub fn program(&mut self, at: PageAddress, new: &[u8])
        requires { (old : List ℕ) → kept self.old at ≡ Some old → length new.now ≡ length old }
        ensures { (p : At) → kept self.new p ≡ (if same_page p at then programmed new.now (kept self.old p) else kept self.old p) }
    {
        if let Some(page) = self.map.get_mut(&(at.block, at.page)) {
            page.program(new);
        }
    }

    /// Erases a block of so many pages: none of them is kept any more.
    pub fn erase(&mut self, block: u32, pages: u64)
        ensures { (p : At) → kept self.new p ≡ (if p.block == block && nat_lt p.page pages then None else kept self.old p) }
    {
        for page in 0..pages {
            self.map.remove(&(block, page));
        }
    }

    /// How many entries an image has, which are fewer than 2^24 as rows are.
    pub fn count_entries(&self, geometry: &Geometry) -> u32
        ensures { result ≡ count_of geometry.now self.now % 2 ^ 32 }
    {
        let mut count: u32 = 0;
        for (row, page) in &self.map {
            count = count.wrapping_add(count_entry(geometry, row.0, row.1, page.bytes()));
        }
        count
    }

    /// Writes the entries of an image, in the order of their rows.
    pub fn write_entries(&self, geometry: &Geometry, out: &mut Vec<u8, A>) -> Result<(), AllocError>
        ensures value { IfOk result (λ _. out.new.items ≡ out.old.items ++ entries_of geometry.now self.now) }
        ensures order { IfOk result (λ _. AreInOrder self.now) }
    {
        for (row, page) in &self.map {
            write_entry(geometry, row.0, row.1, page.bytes(), out)?;
        }
        Ok(())
    }

    /// The image of a die that keeps these pages.
    pub fn image(&self, geometry: &Geometry) -> Result<Vec<u8, A>, AllocError>
        ensures value { IfOk result (λ v. v.items ≡ header geometry.now (count_of geometry.now self.now)
            ++ entries_of geometry.now self.now) }
        ensures order { IfOk result (λ _. AreInOrder self.now) }
    {
        let mut out = begin_image(self.alloc, geometry.parts(), self.count_entries(geometry))?;
        self.write_entries(geometry, &mut out)?;
        Ok(out)
    }
}
