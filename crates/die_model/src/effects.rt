//! What works do to the pages.
ghost use Rattle.std.specs.Prelude.{◌≡◌, ℕ, ◌%◌, ◌<◌, ◌||◌, if◌then◌else◌, true, false, List, [], ◌∷◌, Some, None, length, slice_get};
ghost use Rattle.nand_geometry.specs.Limits.{InLimits, page_len, planes};
ghost use Rattle.onfi_cycle.specs.declared.page_address.PageAddress.{PageAddress as At};
ghost use Rattle.onfi_cycle.specs.declared.queued.Queued.{Queued as Row};
ghost use Rattle.onfi_cycle.specs.declared.effect.Effect.TheVariants.{BecameReady};
ghost use Rattle.onfi_cycle.specs.Content.{content_after, left_by_all, left_unless};
ghost use Rattle.onfi_cycle.specs.Lun.{is_cache_program, is_plane_program};
ghost use Rattle.die_model.specs.Pages.{kept, page_in};
ghost use Rattle.die_model.specs.Die.{works_of, AreKept, is_erase, are_erases, are_programs, HasRows, HasArray, ClosedBy};

use crate::activity::Activity;
use crate::page::Page;
use crate::pages::Pages;
use nand_geometry::Parts;
use onfi_cycle::{Failures, PageAddress, Queued, is_cache_program, is_plane_program};
use std::alloc::Allocator;

/// The plane in which a page lies.
pub fn plane_of(parts: Parts, at: PageAddress) -> usize
    requires { InLimits parts }
    ensures value { result ≡ at.block % planes parts }
    ensures there { result < planes parts }
{
    let planes: u32 = match parts.plane_bits {
        0 => 1,
        1 => 2,
        _ => 4,
    };
    (at.block % planes) as usize
}

// One row takes effect.
fn take_one<A: Allocator + Copy>(
    pages: &mut Pages<A>,
    parts: Parts,
    planes: &[Page<A>],
    row: Queued,
)
    requires rows { HasRows parts pages.old planes.now }
    requires limits { InLimits parts }
    requires there { AreKept pages.old (row ∷ []) }
    ensures pages { (p : At) → page_in (page_len parts) pages.new p
        ≡ left_by_all (page_len parts) (works_of parts planes.now (row ∷ [])) p (page_in (page_len parts) pages.old p) }
    ensures rows { HasRows parts pages.new planes.now }
    ensures still { is_erase row ≡ false → (queue : List Row) → AreKept pages.old queue → AreKept pages.new queue }
{
    match row {
        Queued::Erase(at) => pages.erase(at.block, u64::from(parts.pages)),
        Queued::Program(at) => {
            let plane = plane_of(parts, at);
            pages.program(at, planes[plane].bytes());
        }
        Queued::Read(_) => {}
    }
}

/// Rows take effect, the last one of the list first.
pub fn take_effect<A: Allocator + Copy>(
    pages: &mut Pages<A>,
    parts: Parts,
    planes: &[Page<A>],
    rows: &[Queued],
)
    requires rows { HasRows parts pages.old planes.now }
    requires limits { InLimits parts }
    requires there { AreKept pages.old rows.now }
    requires alike { are_erases rows.now || are_programs rows.now ≡ true }
    ensures pages { (p : At) → page_in (page_len parts) pages.new p
        ≡ left_by_all (page_len parts) (works_of parts planes.now rows.now) p (page_in (page_len parts) pages.old p) }
    ensures rows { HasRows parts pages.new planes.now }
    ensures still { are_programs rows.now ≡ true → (queue : List Row) → AreKept pages.old queue → AreKept pages.new queue }
{
    match rows {
        [] => {}
        [first, rest @ ..] => {
            take_effect(pages, parts, planes, rest);
            take_one(pages, parts, planes, *first);
        }
    }
}

// Rows take effect, unless they are spoilt.
pub(crate) fn take_unless<A: Allocator + Copy>(
    pages: &mut Pages<A>,
    parts: Parts,
    planes: &[Page<A>],
    rows: &[Queued],
    spoilt: bool,
)
    requires rows { HasRows parts pages.old planes.now }
    requires limits { InLimits parts }
    requires there { AreKept pages.old rows.now }
    requires alike { are_erases rows.now || are_programs rows.now ≡ true }
    ensures pages { (p : At) → page_in (page_len parts) pages.new p
        ≡ left_unless spoilt (page_len parts) (works_of parts planes.now rows.now) p (page_in (page_len parts) pages.old p) }
    ensures rows { HasRows parts pages.new planes.now }
    ensures still { are_programs rows.now ≡ true → (queue : List Row) → AreKept pages.old queue → AreKept pages.new queue }
    ensures spoilt { spoilt ≡ true → pages.new ≡ pages.old }
{
    if !spoilt {
        take_effect(pages, parts, planes, rows);
    }
}

// What the array went on with doesn't take effect at a ready: it failed, or it goes on.
fn leaves_array(activity: &Activity, fail: Failures) -> bool
    ensures { result ≡ (fail.before || is_plane_program activity.now.closer) }
{
    fail.before || is_plane_program(activity.closer)
}

// The rows that a ready ends don't take effect: they failed, or the array goes on with them.
fn leaves_queue(activity: &Activity, fail: Failures) -> bool
    ensures { result ≡ (fail.last || is_cache_program activity.now.closer) }
{
    fail.last || is_cache_program(activity.closer)
}

/// Becoming ready, a LUN ends what its array went on with, and the rows of its queue, if that is closed: they take effect unless they failed.
pub(crate) fn end_works<A: Allocator + Copy>(
    pages: &mut Pages<A>,
    parts: Parts,
    planes: &[Page<A>],
    array_planes: &[Page<A>],
    activity: &Activity,
    fail: Failures,
)
    requires rows { HasRows parts pages.old planes.now }
    requires limits { InLimits parts }
    requires there { AreKept pages.old activity.now.queue.items }
    requires alike { are_erases activity.now.queue.items || are_programs activity.now.queue.items ≡ true }
    requires array { HasArray parts pages.old array_planes.now activity.now.in_array.items }
    requires closed { ClosedBy activity.now.closer activity.now.queue.items activity.now.closed }
    ensures pages { (p : At) → page_in (page_len parts) pages.new p
        ≡ content_after parts (BecameReady fail) activity.now.closer
        (works_of parts planes.now (if activity.now.closed then activity.now.queue.items else []))
        (works_of parts array_planes.now activity.now.in_array.items) p (page_in (page_len parts) pages.old p) }
    ensures rows { HasRows parts pages.new planes.now }
    ensures waiting { AreKept pages.new (if activity.now.closed then [] else activity.now.queue.items) }
    ensures cached { is_cache_program activity.now.closer ≡ true
        → AreKept pages.new (if activity.now.closed then activity.now.queue.items else []) }
    ensures queued { is_plane_program activity.now.closer ≡ true → AreKept pages.new activity.now.in_array.items }
{
    take_unless(
        pages,
        parts,
        array_planes,
        activity.in_array.as_slice(),
        leaves_array(activity, fail),
    );
    take_unless(
        pages,
        parts,
        planes,
        activity.ended(),
        leaves_queue(activity, fail),
    );
}
