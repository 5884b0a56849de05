//! Gathering the pages that the outputs of a LUN give whole.
ghost use Rattle.std.specs.Prelude.{◌≡◌, ◌≤◌, ◌<◌, ◌++◌, ◌==◌, [], IfOk, OnOk};
ghost use Rattle.nand_geometry.specs.Limits.{page_len};
ghost use Rattle.onfi_cycle.specs.declared.item.Item.TheVariants.{Cyc};
ghost use Rattle.trace_data.specs.Reads.{nothing_gathered, has_page, with_whole, gone_on, with_output, with_cycle, with_bytes, with_effect, with_item, gathered_from, is_beginning, left_alone, reads_of, page_reads};

use crate::lun_works::LunWorks;
use crate::origin::Origin;
use crate::page_read::{PageRead, read_with};
use crate::page_shown::{PageShown, shown_of};
use nand_geometry::Geometry;
use onfi_cycle::{BusState, Cycle, Effect, Item, Kind, Lun, LunState, PageAddress};
use std::alloc::{AllocError, Global};
use std::marker::Model;

/// What is gathered of a LUN.
#[derive(Drop)]
struct Gathered {
    /// The read that goes on.
    going: Option<PageRead>,
    /// The first whole read of each page.
    whole: Vec<PageRead>,
    works: LunWorks,
}

impl Model for Gathered {
    ghost use Rattle.trace_data.specs.Reads.{Gathering};

    ghost Value = { Gathering };

    ghost view = { λ r. record { going = r.going; whole = r.whole.items; works = r.works } };
}

// Whether one of the reads is of this page.
fn has_page(reads: &[PageRead], page: PageAddress) -> bool
    ensures { result ≡ has_page reads.now page }
{
    reads.iter().any(|read| read.page == page)
}

// Keeps a whole read, unless its page has one.
fn keep_read(reads: &mut Vec<PageRead>, read: PageRead) -> Result<(), AllocError>
    ensures { OnOk result (reads.new.items ≡ with_whole reads.old.items read) }
{
    if has_page(reads.as_slice(), read.page) {
        return Ok(());
    }
    reads.push(read)?;
    Ok(())
}

impl Gathered {
    // Nothing has come.
    fn new(alloc: Global) -> Gathered
        ensures { result ≡ nothing_gathered }
    {
        Gathered {
            going: None,
            whole: Vec::new(alloc),
            works: LunWorks::new(alloc),
        }
    }

    // With the read that goes on, which is whole where it has so many bytes.
    fn go_on(self, len: usize, going: Option<PageRead>) -> Result<Gathered, AllocError>
        ensures { IfOk result (λ r. r ≡ gone_on len going self) }
    {
        let Gathered {
            going: _,
            mut whole,
            works,
        } = self;
        match going {
            Some(read) if read.bytes.len() == len => {
                keep_read(&mut whole, read)?;
                let going = None;
                Ok(Gathered {
                    going,
                    whole,
                    works,
                })
            }
            Some(_) | None => Ok(Gathered {
                going,
                whole,
                works,
            }),
        }
    }

    // With an output of the LUN, by the page and the column that it gives, if it gives one.
    fn with_output(
        self,
        alloc: Global,
        len: usize,
        shown: Option<PageShown>,
        byte: u8,
    ) -> Result<Gathered, AllocError>
        ensures { IfOk result (λ r. r ≡ with_output len shown byte self) }
    {
        let Some(shown) = shown else {
            return Ok(self);
        };
        let Gathered {
            going,
            whole,
            works,
        } = self;
        let going = read_with(alloc, going, shown, byte)?;
        let rest = Gathered {
            going: None,
            whole,
            works,
        };
        rest.go_on(len, going)
    }

    // With a cycle of the LUN's target, or of another.
    fn with_cycle(
        self,
        alloc: Global,
        len: usize,
        lun: Lun,
        look: Option<LunState>,
        cycle: Cycle,
    ) -> Result<Gathered, AllocError>
        ensures { IfOk result (λ r. r ≡ with_bytes len lun look (Cyc cycle) self) }
    {
        match cycle.kind {
            Kind::Dout if cycle.ce == lun.ce => {
                self.with_output(alloc, len, shown_of(lun, look), cycle.byte)
            }
            Kind::Dout | Kind::Cmd | Kind::Adr | Kind::Din => Ok(self),
        }
    }

    // With an item, where the LUN looks so before it and is affected so by it.
    fn with_item(
        self,
        alloc: Global,
        len: usize,
        lun: Lun,
        look: Option<LunState>,
        effect: Effect,
        item: Item,
    ) -> Result<Gathered, AllocError>
        ensures { IfOk result (λ r. r ≡ with_item len lun look effect item self) }
    {
        let Gathered {
            going,
            whole,
            mut works,
        } = match item {
            Item::Cyc(cycle) => self.with_cycle(alloc, len, lun, look, cycle)?,
            Item::Rdy { .. } | Item::Ard { .. } => self,
        };
        works.go_on(effect, 0)?;
        Ok(Gathered {
            going,
            whole,
            works,
        })
    }

    // The reads whose pages hold what they held at the beginning.
    fn into_reads(self, alloc: Global) -> Result<Vec<PageRead>, AllocError>
        ensures { IfOk result (λ reads. reads.items ≡ reads_of self) }
    {
        let Gathered {
            going: _,
            whole,
            works,
        } = self;
        let mut reads = Vec::new(alloc);
        for read in whole {
            if works.origin(read.page, Origin::Beginning) == Origin::Beginning {
                reads.push(read)?;
            }
        }
        Ok(reads)
    }
}

// What is gathered of the items up to the first that isn't permitted.
fn gather_items(
    alloc: Global,
    geometry: &Geometry,
    targets: u8,
    lun: Lun,
    items: &[Item],
) -> Result<Gathered, AllocError>
    requires few { targets ≤ 4 }
    requires there { (lun.ce < targets) × (lun.lun < geometry.now.luns) }
    ensures { IfOk result (λ r. r ≡ gathered_from geometry.now targets lun [] items.now nothing_gathered) }
{
    let len = geometry.page_len() as usize;
    let mut state = BusState::new(*geometry, targets);
    let mut gathered = Gathered::new(alloc);
    let mut rest = items;
    'rest: while let Some((first, later)) = rest.split_first() {
        if state.judge(*first).is_some() {
            return Ok(gathered);
        }
        let look = state.lun_state(lun);
        let effect = state.effect(*first, lun);
        gathered = gathered.with_item(alloc, len, lun, look, effect, *first)?;
        state.apply(*first);
        rest = later;
    }
    Ok(gathered)
}

/// Of each page of a LUN that no program and no erase of the trace has left otherwise than it was, the first read that gave all its bytes: from column 0 to its last
/// one after the other, whatever came between. The items count up to the first that isn't permitted.
pub fn find_page_reads(
    alloc: Global,
    geometry: &Geometry,
    targets: u8,
    lun: Lun,
    items: &[Item],
) -> Result<Vec<PageRead>, AllocError>
    requires few { targets ≤ 4 }
    requires there { (lun.ce < targets) × (lun.lun < geometry.now.luns) }
    ensures { IfOk result (λ reads. reads.items ≡ page_reads geometry.now targets lun items.now) }
{
    gather_items(alloc, geometry, targets, lun, items)?.into_reads(alloc)
}
