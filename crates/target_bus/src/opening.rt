//! Whether dies are a channel, and what a bus keeps of them at its opening.
ghost use Rattle.std.specs.Prelude.{◌≡◌, ◌+◌, ◌<◌, ◌++◌, Some, IfOk, length, map, slice_get, slice_set};
ghost use Rattle.die_model.specs.Die.{Die};
ghost use Rattle.target_bus.specs.Bus.{are_targets, is_new_of, are_new, WholeDies, forgotten};

use die_model::{LunDie, Pages};
use nand_geometry::Geometry;
use std::alloc::{AllocError, Allocator};

/// So many dies are 1 to 4 targets of whole LUNs.
pub fn are_targets(geometry: &Geometry, count: usize) -> bool
    ensures { result ≡ are_targets geometry.now count }
{
    let luns = usize::from(geometry.parts().luns);
    count == luns || count == 2 * luns || count == 3 * luns || count == 4 * luns
}

// The die is new and has this geometry.
fn is_new_of<A: Allocator + Copy>(geometry: &Geometry, die: &LunDie<A>) -> bool
    ensures { result ≡ is_new_of geometry.now die.now }
{
    die.geometry().parts() == geometry.parts() && die.is_new()
}

/// Each die is new and has this geometry.
pub fn are_new<A: Allocator + Copy>(geometry: &Geometry, dies: &[LunDie<A>]) -> bool
    ensures { result ≡ are_new geometry.now dies.now }
{
    dies.iter().all(|die| is_new_of(geometry, die))
}

// Copies of the pages of each die are added to these.
fn push_pages<A: Allocator + Copy>(
    pages: &mut Vec<Pages<A>, A>,
    dies: &[LunDie<A>],
) -> Result<(), AllocError>
    ensures value { IfOk result (λ _. pages.new.items ≡ pages.old.items ++ map (λ (d : Die). d.pages) dies.now) }
    ensures whole { IfOk result (λ _. WholeDies dies.now) }
{
    match dies {
        [] => Ok(()),
        [die, rest @ ..] => {
            pages.push(die.pages()?)?;
            push_pages(pages, rest)
        }
    }
}

/// Copies of the pages of each die.
pub fn copy_pages<A: Allocator + Copy>(
    alloc: A,
    dies: &[LunDie<A>],
) -> Result<Vec<Pages<A>, A>, AllocError>
    ensures value { IfOk result (λ v. v.items ≡ map (λ (d : Die). d.pages) dies.now) }
    ensures whole { IfOk result (λ v. WholeDies dies.now) }
{
    let mut pages = Vec::new(alloc);
    push_pages(&mut pages, dies)?;
    Ok(pages)
}

// The die of a number forgets which page its array read last.
fn forget_in<A: Allocator + Copy>(dies: &mut [LunDie<A>], place: usize)
    requires inside { place < length dies.old }
    ensures { (old : Die) × (slice_get dies.old place ≡ Some old) × (dies.new ≡ slice_set dies.old place (forgotten old)) }
{
    dies[place].forget_array_page();
}

/// Each die forgets which page its array read last.
pub fn forget_array_pages<A: Allocator + Copy>(dies: &mut [LunDie<A>])
    ensures { dies.new ≡ map forgotten dies.old }
{
    for place in 0..dies.len() {
        forget_in(dies, place);
    }
}
