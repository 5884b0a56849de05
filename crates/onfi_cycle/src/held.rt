//! The pages that the plane registers of a LUN hold.
ghost use Rattle.std.specs.Prelude.{◌≡◌, ◌%◌, ◌==◌, ◌<◌, ◌≤◌, ◌++◌, List, [], ◌∷◌, length, take};
ghost use Rattle.std.specs.List.{list_any};
ghost use Rattle.onfi_cycle.specs.Lun.{has_reads, held_after, held_on, of_other_planes, page_in_plane, pages_of_reads};
ghost use Rattle.onfi_cycle.specs.Effect.{HasPlanes};

use crate::{Effect, PageAddress, Queued};
use arrayvec::ArrayVec;

/// The most planes of a LUN, each of which has a register.
pub const MAX_PLANES: usize = 4;

/// The pages that the plane registers hold, in an array of fixed size.
pub type HeldPages = ArrayVec<PageAddress, MAX_PLANES>;

/// A read is queued.
pub fn has_reads(queue: &[Queued]) -> bool
    ensures { result ≡ has_reads queue.now }
{
    queue.iter().any(|queued| matches!(queued, Queued::Read(_)))
}

/// The page of this plane, where a LUN has so many planes.
pub fn page_in_plane(planes: u32, plane: u32, held: &[PageAddress]) -> Option<PageAddress>
    requires { 0 < planes }
    ensures { result ≡ page_in_plane planes plane held.now }
{
    match held {
        [] => None,
        [first, rest @ ..] => {
            if first.block % planes == plane {
                Some(*first)
            } else {
                page_in_plane(planes, plane, rest)
            }
        }
    }
}

/// Some page lies in this plane, where a LUN has so many planes.
pub(crate) fn holds_plane(planes: u32, plane: u32, held: &[PageAddress]) -> bool
    requires { 0 < planes }
    ensures { result ≡ list_any (λ page. page.block % planes == plane) held.now }
{
    held.iter().any(|page| page.block % planes == plane)
}

// Adds a page, if there is room.
fn hold_page(held: &mut HeldPages, page: PageAddress)
    requires { length held.old.items ≤ 4 }
    ensures { held.new.items ≡ take 4 (held.old.items ++ (page ∷ [])) }
{
    if held.len() < MAX_PLANES {
        held.push(page);
    }
}

// Adds the page of a queued read, as far as there is room.
fn hold_read(held: &mut HeldPages, queued: Queued)
    requires { length held.old.items ≤ 4 }
    ensures { held.new.items ≡ take 4 (held.old.items ++ pages_of_reads (queued ∷ [])) }
{
    match queued {
        Queued::Read(page) => hold_page(held, page),
        Queued::Erase(_) | Queued::Program(_) => {}
    }
}

// Adds the pages of the reads of a queue, as far as there is room.
fn hold_reads(held: &mut HeldPages, queue: &[Queued])
    requires { length held.old.items ≤ 4 }
    ensures { held.new.items ≡ take 4 (held.old.items ++ pages_of_reads queue.now) }
{
    match queue {
        [] => {}
        [first, rest @ ..] => {
            hold_read(held, *first);
            hold_reads(held, rest)
        }
    }
}

// Adds a page of another plane, as far as there is room.
fn hold_other(kept: &mut HeldPages, planes: u32, page: PageAddress, other: PageAddress)
    requires some { 0 < planes }
    requires room { length kept.old.items ≤ 4 }
    ensures { kept.new.items ≡ take 4 (kept.old.items ++ of_other_planes planes page (other ∷ [])) }
{
    if other.block % planes != page.block % planes {
        hold_page(kept, other);
    }
}

// Adds the pages of other planes, as far as there is room.
fn hold_others(kept: &mut HeldPages, planes: u32, page: PageAddress, held: &[PageAddress])
    requires some { 0 < planes }
    requires room { length kept.old.items ≤ 4 }
    ensures { kept.new.items ≡ take 4 (kept.old.items ++ of_other_planes planes page held.now) }
{
    match held {
        [] => {}
        [first, rest @ ..] => {
            hold_other(kept, planes, page, *first);
            hold_others(kept, planes, page, rest)
        }
    }
}

// A page that is read for a copyback, with the reads of the queue, and with those of other planes where they were read for one too.
fn held_for_copyback(
    page: PageAddress,
    planes: u32,
    is_copyback: bool,
    queue: &[Queued],
    held: &HeldPages,
) -> HeldPages
    requires { 0 < planes }
    ensures { result.items ≡ take 4 (page ∷ (pages_of_reads queue.now ++ held_on planes page is_copyback held.now.items)) }
{
    let mut kept = HeldPages::new();
    kept.push(page);
    hold_reads(&mut kept, queue);
    if is_copyback {
        hold_others(&mut kept, planes, page, held.as_slice());
    }
    kept
}

/// What an effect leaves of them, behind a Copyback Read or not, `array_page` being the page that the array was told to read before it and
/// `queue` the rows that were queued.
#[inline(always)]
pub fn apply_to_held(
    held: &mut HeldPages,
    effect: Effect,
    is_copyback: bool,
    array_page: PageAddress,
    queue: &[Queued],
)
    requires { HasPlanes effect }
    ensures { held.new.items ≡ held_after effect is_copyback array_page queue.now held.old.items }
{
    match effect {
        Effect::CopybackReadStarted { page, planes, .. } => {
            *held = held_for_copyback(page, planes, is_copyback, queue, held);
        }
        Effect::ReadStarted { page, .. } => {
            held.clear();
            held.push(page);
            hold_reads(held, queue);
        }
        Effect::CacheReadContinued { .. } | Effect::CacheReadEnded => {
            held.clear();
            held.push(array_page);
        }
        Effect::ReadQueued { .. }
        | Effect::ProgramAddressed
        | Effect::EraseStarted { .. }
        | Effect::ProgramStarted { queued: false, .. }
        | Effect::CacheProgramStarted { .. }
        | Effect::IdRead
        | Effect::IdentityRead { .. }
        | Effect::ParameterPageReadStarted
        | Effect::UniqueIdReadStarted
        | Effect::FeaturesReadStarted { .. }
        | Effect::FeaturesSet { .. }
        | Effect::ResetStarted
        | Effect::TargetResetStarted { .. } => held.clear(),
        _ => {}
    }
}
