//! What an item does to the page registers of a LUN, by the facts of its target's tail.
ghost use Rattle.std.specs.Prelude.{◌≡◌, ◌<◌, ◌^◌, Option};
ghost use Rattle.onfi_cycle.specs.Filling.{filling, cycle_filling, row_filling, copied};

use crate::held::page_in_plane;
use crate::item_effects::names_lun;
use crate::{Item, Lun, PageAddress, TailFacts, TargetCycle};
use nand_geometry::Geometry;

/// What an item does to the page registers of a LUN.
#[derive(Clone, Copy, Debug, PartialEq, Eq)]
pub enum Filling {
    /// Nothing.
    Leaves,
    /// The last row cycle of 80h: the register of this page's plane becomes FF.
    Clears(PageAddress),
    /// The last row cycle of 85h: the register of the first page's plane gets the bytes of the second.
    Copies(PageAddress, PageAddress),
    /// An input of a program: the register of this page's plane has this byte at this column.
    Fills(PageAddress, usize, u8),
}

// The register of this page's plane gets the bytes of the page that is held there, if one is.
fn copied(page: PageAddress, held: Option<PageAddress>) -> Filling
    ensures { result ≡ copied page held }
{
    match held {
        None => Filling::Clears(page),
        Some(from) => Filling::Copies(page, from),
    }
}

// What the whole row of 80h, or of 85h, does at the LUN that it names and that holds these pages.
fn row_filling(geometry: &Geometry, tail: TailFacts, row: u32, held: &[PageAddress]) -> Filling
    ensures { result ≡ row_filling geometry.now tail row held.now }
{
    let page = PageAddress::of_row(geometry, row);
    if tail.ends_program_row() {
        Filling::Clears(page)
    } else if tail.ends_copyback_row() {
        let planes = geometry.planes();
        copied(page, page_in_plane(planes, page.block % planes, held))
    } else {
        Filling::Leaves
    }
}

// What a cycle of its target does.
fn cycle_filling(
    geometry: &Geometry,
    tail: TailFacts,
    cycle: TargetCycle,
    lun: u8,
    held: &[PageAddress],
) -> Filling
    requires { (tail.column < 2 ^ 16) × (tail.inputs < 2 ^ 63) }
    ensures { result ≡ cycle_filling geometry.now tail cycle lun held.now }
{
    match cycle {
        TargetCycle::AddressCycle(byte) => {
            let row = tail.row_with(byte);
            if names_lun(geometry, row, lun) {
                row_filling(geometry, tail, row, held)
            } else {
                Filling::Leaves
            }
        }
        TargetCycle::InputCycle(byte) => {
            let row = tail.named_row();
            if tail.phase.takes_data() && names_lun(geometry, row, lun) {
                let column = tail.input_column() as usize;
                Filling::Fills(PageAddress::of_row(geometry, row), column, byte)
            } else {
                Filling::Leaves
            }
        }
        _ => Filling::Leaves,
    }
}

impl Filling {
    /// What an item does to the page registers of a LUN, by the facts of its target's tail and the pages that the LUN holds.
    pub fn of_item(
        geometry: &Geometry,
        tail: TailFacts,
        item: Item,
        lun: Lun,
        held: &[PageAddress],
    ) -> Filling
        requires { (tail.column < 2 ^ 16) × (tail.inputs < 2 ^ 63) }
        ensures { result ≡ filling geometry.now tail item lun held.now }
    {
        match item {
            Item::Cyc(cycle) if cycle.ce == lun.ce => cycle_filling(
                geometry,
                tail,
                TargetCycle::of(cycle.kind, cycle.byte),
                lun.lun,
                held,
            ),
            _ => Filling::Leaves,
        }
    }
}
