//! What the pages of a LUN contain, and what a LUN shows, by looking back over a past, the newest item first.
ghost use Rattle.std.specs.Prelude.{map, [], ◌≡◌, ◌^◌, ◌<◌, ◌∷◌, IfOk, bit_and, length, replicate, IsTrue};
ghost use Rattle.std.specs.List.{zip};
ghost use Rattle.nand_geometry.specs.Limits.{page_len};
ghost use Rattle.onfi_cycle.specs.Sequence.{AreSmall, filled, tail};
ghost use Rattle.onfi_cycle.specs.Lun.{output_column, read_column, register};
ghost use Rattle.onfi_cycle.specs.Content.{and_bytes, byte_at, array_changes, array_changes_after, array_work, before_failed_after, changes_after, changes_pages, content, content_after, failed_after, has_failed, has_failed_before, left_unless, identifiers, left_by, left_by_all, pending_work, queued_work, register_bytes, same_page, shown, status};
ghost use Rattle.oracle_onfi.specs.Driven.{driven_byte};
ghost use Rattle.oracle_onfi.specs.Filled.{filled_after};
ghost use Rattle.oracle_onfi.specs.Copied.{page_begun_with, page_copied};
ghost use Rattle.oracle_onfi.specs.Opening.{opening_of, same_lun};

use crate::WrittenPage;
use crate::past::{
    closer, drivers, effect_on, is_array_busy, is_busy, latch, lun_facts, read_column, register,
    tail_facts,
};
use crate::works::{ArrayWork, WorkKind, Works};
use nand_geometry::Geometry;
use onfi_cycle::{
    Command, Effect, Failures, Item, Latch, Lun, PageAddress, Register, Status, TailFacts,
    TargetCycle, is_cache_program, is_plane_program, keeps_array_busy, page_in_plane,
};
use std::alloc::{AllocError, Global};

/// A page of FF.
fn erased_page(alloc: Global, geometry: &Geometry) -> Result<Vec<u8>, AllocError>
    ensures { IfOk result (λ v. v.items ≡ replicate (page_len geometry.now) 0xff) }
{
    vec![in alloc; 0xff; geometry.page_len() as usize]
}

/// The bytes of a program that began with these, with one cycle more after this tail.
fn filled_after(
    alloc: Global,
    begun: &[u8],
    cycle: TargetCycle,
    tail: TailFacts,
    before: Vec<u8>,
) -> Result<Vec<u8>, AllocError>
    requires { (tail.column < 2 ^ 16) × (tail.inputs < 2 ^ 63) }
    ensures { IfOk result (λ v. v.items ≡ filled_after begun.now cycle tail before.items) }
{
    match cycle {
        TargetCycle::CommandCycle(command) if command.is_opener() && !tail.goes_on_with(command) =>
            { begun.to_vec(alloc) }
        TargetCycle::InputCycle(byte) if !tail.is_empty => {
            let mut bytes = before;
            let column = tail.input_column();
            if column < bytes.len() as u64 {
                bytes[column as usize] = byte;
            }
            Ok(bytes)
        }
        _ => Ok(before),
    }
}

/// The bytes of the program that the tail of a target holds: those of its inputs, and elsewhere those that it began with.
pub fn filled(alloc: Global, begun: &[u8], past: &[Item], ce: u8) -> Result<Vec<u8>, AllocError>
    ensures { IfOk result (λ v. v.items ≡ filled begun.now (tail past.now ce)) }
{
    match past {
        [] => begun.to_vec(alloc),
        [first, rest @ ..] => {
            let before = filled(alloc, begun, rest, ce)?;
            match first {
                Item::Cyc(c) => {
                    if c.ce == ce {
                        let t = tail_facts(rest, ce);
                        filled_after(alloc, begun, TargetCycle::of(c.kind, c.byte), t, before)
                    } else {
                        Ok(before)
                    }
                }
                Item::Rdy { .. } => Ok(before),
                Item::Ard { .. } => Ok(before),
            }
        }
    }
}

fn same_page(page: PageAddress, other: PageAddress) -> bool
    ensures { result ≡ same_page page other }
{
    page == other
}

fn same_lun(lun: Lun, other: Lun) -> bool
    ensures { result ≡ same_lun lun other }
{
    lun == other
}

/// Each old byte AND the new one in its place, as far as both reach.
fn and_bytes(alloc: Global, old: &[u8], new: &[u8]) -> Result<Vec<u8>, AllocError>
    ensures { IfOk result (λ v. v.items ≡ map (λ p. bit_and p.0 p.1) (zip old.now new.now)) }
{
    old.iter().zip(new).map(|(x, y)| *x & *y).collect(alloc)
}

/// What a work leaves of a page.
#[tactic(auto, using(crate::proofs::AndBytes::and_bytes_by_pairs))]
fn left_by(
    alloc: Global,
    geometry: &Geometry,
    work: &ArrayWork,
    page: PageAddress,
    old: Vec<u8>,
) -> Result<Vec<u8>, AllocError>
    ensures { IfOk result (λ v. v.items ≡ left_by (page_len geometry.now) work.now page old.items) }
{
    match work.kind {
        WorkKind::Erase if page.block == work.at.block => erased_page(alloc, geometry),
        WorkKind::Program if same_page(page, work.at) => and_bytes(alloc, &old, &work.bytes),
        _ => Ok(old),
    }
}

/// What works leave of a page, the last of them first.
fn left_by_all(
    alloc: Global,
    geometry: &Geometry,
    works: &[ArrayWork],
    page: PageAddress,
    old: Vec<u8>,
) -> Result<Vec<u8>, AllocError>
    ensures { IfOk result (λ v. v.items ≡ left_by_all (page_len geometry.now) works.now page old.items) }
{
    match works {
        [] => Ok(old),
        [last, rest @ ..] => {
            let before = left_by_all(alloc, geometry, rest, page, old)?;
            left_by(alloc, geometry, last, page, before)
        }
    }
}

/// The bytes of a page at the opening.
fn opening_of(
    alloc: Global,
    geometry: &Geometry,
    opening: &[WrittenPage],
    lun: Lun,
    page: PageAddress,
) -> Result<Vec<u8>, AllocError>
    ensures { IfOk result (λ v. v.items ≡ opening_of (page_len geometry.now) opening.now lun page) }
{
    match opening {
        [] => erased_page(alloc, geometry),
        [entry, rest @ ..] => {
            if same_lun(entry.lun, lun) && same_page(entry.at, page) {
                entry.bytes.to_vec(alloc)
            } else {
                opening_of(alloc, geometry, rest, lun, page)
            }
        }
    }
}

/// What works leave of a page that take effect, or don't.
fn left_unless(
    alloc: Global,
    geometry: &Geometry,
    is_lost: bool,
    works: &[ArrayWork],
    page: PageAddress,
    old: Vec<u8>,
) -> Result<Vec<u8>, AllocError>
    ensures { IfOk result (λ v. v.items ≡ left_unless is_lost (page_len geometry.now) works.now page old.items) }
{
    if is_lost {
        Ok(old)
    } else {
        left_by_all(alloc, geometry, works, page, old)
    }
}

/// What an effect leaves of a page, behind this last closer; the works are those that go on before it.
fn content_after(
    alloc: Global,
    geometry: &Geometry,
    effect: Effect,
    last: Option<Command>,
    works: &Works,
    page: PageAddress,
    old: Vec<u8>,
) -> Result<Vec<u8>, AllocError>
    ensures { IfOk result (λ v. v.items ≡ content_after geometry.now effect last works.now.pending.items works.now.in_array.items page old.items) }
{
    match effect {
        Effect::BecameReady { fail } => {
            let is_lost = fail.before || is_plane_program(last);
            let before = left_unless(alloc, geometry, is_lost, &works.in_array, page, old)?;
            let is_lost = fail.last || is_cache_program(last);
            left_unless(alloc, geometry, is_lost, &works.pending, page, before)
        }
        Effect::ArrayBecameReady { fail } => {
            left_unless(alloc, geometry, fail, &works.in_array, page, old)
        }
        _ => Ok(old),
    }
}

/// The page that the LUN holds in the plane of the row of its target, whose bytes a program of that row begins with.
fn page_begun_with(
    alloc: Global,
    geometry: &Geometry,
    past: &[Item],
    lun: Lun,
) -> Result<Option<PageAddress>, AllocError>
    ensures { IfOk result (λ p. p ≡ page_begun_with geometry.now past.now lun) }
{
    let row = tail_facts(past, lun.ce).named_row();
    let planes = geometry.planes();
    let plane = PageAddress::of_row(geometry, row).block % planes;
    let facts = lun_facts(alloc, geometry, past, lun)?;
    Ok(page_in_plane(planes, plane, facts.held.as_slice()))
}

/// The page that an effect copies: that with whose bytes the program begins that it closes.
fn page_copied(
    alloc: Global,
    geometry: &Geometry,
    effect: Effect,
    past: &[Item],
    lun: Lun,
) -> Result<Option<PageAddress>, AllocError>
    ensures { IfOk result (λ p. p ≡ page_copied effect (page_begun_with geometry.now past.now lun)) }
{
    match effect {
        Effect::ProgramStarted { .. } | Effect::CacheProgramStarted { .. } => {
            page_begun_with(alloc, geometry, past, lun)
        }
        _ => Ok(None),
    }
}

/// What is to come of a LUN, and the bytes of one of its pages.
#[derive(Drop)]
struct PageState {
    works: Works,
    bytes: Vec<u8>,
}

/// The works of a LUN that are to come, and the bytes of a page of it.
fn page_state(
    alloc: Global,
    geometry: &Geometry,
    opening: &[WrittenPage],
    past: &[Item],
    lun: Lun,
    page: PageAddress,
) -> Result<PageState, AllocError>
    ensures queued { IfOk result (λ s. s.works.queued.items ≡ queued_work geometry.now (opening_of (page_len geometry.now) opening.now) past.now lun) }
    ensures pending { IfOk result (λ s. s.works.pending.items ≡ pending_work geometry.now (opening_of (page_len geometry.now) opening.now) past.now lun) }
    ensures array { IfOk result (λ s. s.works.in_array.items ≡ array_work geometry.now (opening_of (page_len geometry.now) opening.now) past.now lun) }
    ensures bytes { IfOk result (λ s. s.bytes.items ≡ content geometry.now (opening_of (page_len geometry.now) opening.now) past.now lun page) }
{
    match past {
        [] => Ok(PageState {
            works: Works::none(alloc),
            bytes: opening_of(alloc, geometry, opening, lun, page)?,
        }),
        [item, rest @ ..] => {
            let before = page_state(alloc, geometry, opening, rest, lun, page)?;
            let effect = effect_on(alloc, geometry, rest, *item, lun)?;
            let begun = match page_copied(alloc, geometry, effect, rest, lun)? {
                Some(copied) => page_state(alloc, geometry, opening, rest, lun, copied)?.bytes,
                None => erased_page(alloc, geometry)?,
            };
            let program = filled(alloc, &begun, rest, lun.ce)?;
            let PageState { works, bytes } = before;
            let last = closer(alloc, geometry, rest, lun)?;
            let bytes = content_after(alloc, geometry, effect, last, &works, page, bytes)?;
            let works = works.after(alloc, effect, last, program)?;
            Ok(PageState { works, bytes })
        }
    }
}

/// Some page of a LUN, where it doesn't matter which.
const SOME_PAGE: PageAddress = PageAddress { block: 0, page: 0 };

/// The works in the queue of the LUN, with their bytes, the newest first.
pub fn queued_work(
    alloc: Global,
    geometry: &Geometry,
    opening: &[WrittenPage],
    past: &[Item],
    lun: Lun,
) -> Result<Vec<ArrayWork>, AllocError>
    ensures { IfOk result (λ v. v.items ≡ queued_work geometry.now (opening_of (page_len geometry.now) opening.now) past.now lun) }
{
    Ok(
        page_state(alloc, geometry, opening, past, lun, SOME_PAGE)?
            .works
            .queued,
    )
}

/// The works that the array of the LUN goes on with behind the ready of a Page Cache Program, the newest first.
pub fn array_work(
    alloc: Global,
    geometry: &Geometry,
    opening: &[WrittenPage],
    past: &[Item],
    lun: Lun,
) -> Result<Vec<ArrayWork>, AllocError>
    ensures { IfOk result (λ v. v.items ≡ array_work geometry.now (opening_of (page_len geometry.now) opening.now) past.now lun) }
{
    Ok(
        page_state(alloc, geometry, opening, past, lun, SOME_PAGE)?
            .works
            .in_array,
    )
}

/// The works that the next ready of the LUN ends: they take effect at it, if that is without failure, and behind a Page
/// Cache Program the array goes on with them. The newest first.
pub fn pending_work(
    alloc: Global,
    geometry: &Geometry,
    opening: &[WrittenPage],
    past: &[Item],
    lun: Lun,
) -> Result<Vec<ArrayWork>, AllocError>
    ensures { IfOk result (λ v. v.items ≡ pending_work geometry.now (opening_of (page_len geometry.now) opening.now) past.now lun) }
{
    Ok(
        page_state(alloc, geometry, opening, past, lun, SOME_PAGE)?
            .works
            .pending,
    )
}

/// The bytes of a page of the LUN: those of its opening content, AND-ed with each program that took effect, and
/// FF after an erase that did.
pub fn content(
    alloc: Global,
    geometry: &Geometry,
    opening: &[WrittenPage],
    past: &[Item],
    lun: Lun,
    page: PageAddress,
) -> Result<Vec<u8>, AllocError>
    ensures { IfOk result (λ v. v.items ≡ content geometry.now (opening_of (page_len geometry.now) opening.now) past.now lun page) }
{
    Ok(page_state(alloc, geometry, opening, past, lun, page)?.bytes)
}

/// What is told of the works of a LUN.
#[derive(Clone, Copy, Debug)]
struct Told {
    /// The work that goes on changes pages.
    changes: bool,
    /// The array goes on with pages, behind the ready of a Page Cache Program.
    array_changes: bool,
    /// The last work failed.
    failed: bool,
    /// The page before it failed.
    before: bool,
}

/// Nothing has happened.
const NOTHING_TOLD: Told = Told {
    changes: false,
    array_changes: false,
    failed: false,
    before: false,
};

fn changes_after(effect: Effect, before: bool) -> bool
    ensures { result ≡ changes_after effect before }
{
    match effect {
        Effect::EraseStarted { queued, .. } | Effect::ProgramStarted { queued, .. } => !queued,
        Effect::CacheProgramStarted { .. } => true,
        Effect::ReadStarted { .. }
        | Effect::ReadQueued { .. }
        | Effect::CopybackReadStarted { .. }
        | Effect::ParameterPageReadStarted
        | Effect::UniqueIdReadStarted
        | Effect::FeaturesReadStarted { .. }
        | Effect::FeaturesSet { .. }
        | Effect::CacheReadContinued { .. }
        | Effect::CacheReadEnded
        | Effect::ResetStarted
        | Effect::TargetResetStarted { .. }
        | Effect::BecameReady { .. } => false,
        _ => before,
    }
}

fn array_changes_after(effect: Effect, last: Option<Command>, before: Told) -> bool
    ensures { result ≡ array_changes_after effect last before.changes before.array_changes }
{
    match effect {
        Effect::BecameReady { .. } => {
            if is_cache_program(last) {
                before.changes
            } else {
                is_plane_program(last) && before.array_changes
            }
        }
        Effect::ArrayBecameReady { .. }
        | Effect::ReadStarted { .. }
        | Effect::ReadQueued { .. }
        | Effect::CopybackReadStarted { .. }
        | Effect::EraseStarted { .. }
        | Effect::IdRead
        | Effect::IdentityRead { .. }
        | Effect::ParameterPageReadStarted
        | Effect::UniqueIdReadStarted
        | Effect::FeaturesReadStarted { .. }
        | Effect::FeaturesSet { .. }
        | Effect::CacheReadContinued { .. }
        | Effect::CacheReadEnded
        | Effect::ResetStarted
        | Effect::TargetResetStarted { .. } => false,
        _ => before.array_changes,
    }
}

fn failed_after(effect: Effect, last: Option<Command>, before: Told) -> bool
    ensures { result ≡ failed_after effect last before.changes before.failed }
{
    match effect {
        Effect::BecameReady { fail } => {
            if is_plane_program(last) {
                before.failed
            } else {
                fail.last && before.changes && !is_cache_program(last)
            }
        }
        Effect::ArrayBecameReady { fail } => {
            if keeps_array_busy(last) {
                fail
            } else {
                before.failed
            }
        }
        Effect::ProgramStarted { queued: true, .. } => keeps_array_busy(last) && before.failed,
        Effect::CacheProgramStarted { .. } => false,
        _ => before.failed,
    }
}

fn before_failed_after(effect: Effect, last: Option<Command>, before: Told) -> bool
    ensures { result ≡ before_failed_after effect last before.array_changes before.failed before.before }
{
    match effect {
        Effect::BecameReady { fail } => {
            if before.array_changes && !is_plane_program(last) {
                fail.before
            } else {
                before.before
            }
        }
        Effect::ProgramStarted { queued: false, .. } | Effect::CacheProgramStarted { .. } => {
            keeps_array_busy(last) && before.failed
        }
        Effect::ProgramStarted { .. }
        | Effect::ReadStarted { .. }
        | Effect::ReadQueued { .. }
        | Effect::CopybackReadStarted { .. }
        | Effect::EraseStarted { .. }
        | Effect::ParameterPageReadStarted
        | Effect::UniqueIdReadStarted
        | Effect::FeaturesReadStarted { .. }
        | Effect::FeaturesSet { .. }
        | Effect::CacheReadContinued { .. }
        | Effect::CacheReadEnded
        | Effect::ResetStarted
        | Effect::TargetResetStarted { .. } => false,
        _ => before.before,
    }
}

/// What is told of the works of a LUN after a past.
fn tell(alloc: Global, geometry: &Geometry, past: &[Item], lun: Lun) -> Result<Told, AllocError>
    ensures changes { IfOk result (λ t. t.changes ≡ changes_pages geometry.now past.now lun) }
    ensures array { IfOk result (λ t. t.array_changes ≡ array_changes geometry.now past.now lun) }
    ensures failed { IfOk result (λ t. t.failed ≡ has_failed geometry.now past.now lun) }
    ensures before { IfOk result (λ t. t.before ≡ has_failed_before geometry.now past.now lun) }
{
    match past {
        [] => Ok(NOTHING_TOLD),
        [item, rest @ ..] => {
            let before = tell(alloc, geometry, rest, lun)?;
            let effect = effect_on(alloc, geometry, rest, *item, lun)?;
            let last = closer(alloc, geometry, rest, lun)?;
            Ok(Told {
                changes: changes_after(effect, before.changes),
                array_changes: array_changes_after(effect, last, before),
                failed: failed_after(effect, last, before),
                before: before_failed_after(effect, last, before),
            })
        }
    }
}

/// The work that goes on changes pages: Program Confirm, Page Cache Program or Block Erase Confirm closed it.
pub fn changes_pages(
    alloc: Global,
    geometry: &Geometry,
    past: &[Item],
    lun: Lun,
) -> Result<bool, AllocError>
    ensures { IfOk result (λ a. a ≡ changes_pages geometry.now past.now lun) }
{
    Ok(tell(alloc, geometry, past, lun)?.changes)
}

/// The last work of the LUN was a program or an erase, and what is told of it is a failure.
pub fn has_failed(
    alloc: Global,
    geometry: &Geometry,
    past: &[Item],
    lun: Lun,
) -> Result<bool, AllocError>
    ensures { IfOk result (λ a. a ≡ has_failed geometry.now past.now lun) }
{
    Ok(tell(alloc, geometry, past, lun)?.failed)
}

/// The status byte of the LUN.
pub fn status(
    alloc: Global,
    geometry: &Geometry,
    past: &[Item],
    lun: Lun,
) -> Result<Status, AllocError>
    ensures { IfOk result (λ s. s.0 ≡ status geometry.now past.now lun) }
{
    let busy = is_busy(alloc, geometry, past, lun)?;
    let array_busy = is_array_busy(alloc, geometry, past, lun)?;
    let told = tell(alloc, geometry, past, lun)?;
    let fail = Failures {
        last: told.failed && !is_plane_program(closer(alloc, geometry, past, lun)?),
        before: told.before,
    };
    Ok(Status::of(busy, array_busy, fail))
}

/// The bytes of the LUN's register; `parameters` are those of the parameter page, three copies.
pub fn register_bytes(
    alloc: Global,
    geometry: &Geometry,
    parameters: &[u8],
    opening: &[WrittenPage],
    past: &[Item],
    lun: Lun,
) -> Result<Vec<u8>, AllocError>
    ensures { IfOk result (λ v. v.items ≡ register_bytes parameters.now
        (content geometry.now (opening_of (page_len geometry.now) opening.now) past.now lun) (register geometry.now past.now lun)) }
{
    match register(alloc, geometry, past, lun)? {
        Register::Empty => Ok(Vec::new(alloc)),
        Register::Page(p) => content(alloc, geometry, opening, past, lun, p),
        Register::ParameterPage => parameters.to_vec(alloc),
        Register::Identifier => b"ONFI".to_vec(alloc),
        Register::Identity => [0; 8].to_vec(alloc),
        Register::JedecIdentity => b"JEDEC\0".to_vec(alloc),
        Register::UniqueId => identifiers(alloc, 16),
        Register::Features(_) => [0; 4].to_vec(alloc),
    }
}

/// So many times sixteen zeros and their complement.
fn identifiers(alloc: Global, count: u8) -> Result<Vec<u8>, AllocError>
    ensures { IfOk result (λ v. v.items ≡ identifiers count) }
{
    if count == 0 {
        return Ok(Vec::new(alloc));
    }
    let rest = identifiers(alloc, count - 1)?;
    let mut bytes = [0; 16].to_vec(alloc)?;
    bytes.extend_from_slice(&[0xff; 16])?;
    bytes.extend_from_slice(&rest)?;
    Ok(bytes)
}

/// The byte of the LUN's register at its read column, None where there is no column, or it is past the register.
fn data_byte(
    alloc: Global,
    geometry: &Geometry,
    parameters: &[u8],
    opening: &[WrittenPage],
    past: &[Item],
    lun: Lun,
) -> Result<Option<u8>, AllocError>
    ensures { IfOk result (λ b. b ≡ byte_at (register_bytes parameters.now
        (content geometry.now (opening_of (page_len geometry.now) opening.now) past.now lun) (register geometry.now past.now lun))
        (output_column (read_column geometry.now past.now lun))) }
{
    match read_column(alloc, geometry, past, lun)?.output_column() {
        None => Ok(None),
        Some(column) => {
            let bytes = register_bytes(alloc, geometry, parameters, opening, past, lun)?;
            Ok(bytes.get(column as usize).copied())
        }
    }
}

/// The byte that the LUN gives next, None where it gives none.
pub fn shown(
    alloc: Global,
    geometry: &Geometry,
    parameters: &[u8],
    opening: &[WrittenPage],
    past: &[Item],
    lun: Lun,
) -> Result<Option<u8>, AllocError>
    ensures { IfOk result (λ b. b ≡ shown geometry.now parameters.now (opening_of (page_len geometry.now) opening.now) past.now lun) }
{
    match latch(alloc, geometry, past, lun)? {
        Latch::Off => Ok(None),
        Latch::Status => Ok(Some(status(alloc, geometry, past, lun)?.0)),
        Latch::Data => data_byte(alloc, geometry, parameters, opening, past, lun),
    }
}

/// The byte that the one driver of a target gives next, None where there is none, or more than one.
pub fn driven_byte(
    alloc: Global,
    geometry: &Geometry,
    parameters: &[u8],
    opening: &[WrittenPage],
    past: &[Item],
    ce: u8,
) -> Result<Option<u8>, AllocError>
    ensures { IfOk result (λ b. b ≡ driven_byte geometry.now parameters.now (opening_of (page_len geometry.now) opening.now) past.now ce) }
{
    let numbers = drivers(alloc, geometry, past, ce)?;
    match numbers.as_slice() {
        [lun] => shown(
            alloc,
            geometry,
            parameters,
            opening,
            past,
            Lun { ce, lun: *lun },
        ),
        _ => Ok(None),
    }
}
