//! The rules F1 to F18, and the judge that tries them in order, by the facts of one target.
ghost use Rattle.std.specs.Prelude.{◌≡◌, ◌+◌, ◌^◌, ◌<◌, ◌≤◌, length, true, false, not, slice_get};
ghost use Rattle.std.specs.List.{list_all, list_any};
ghost use Rattle.std.specs.Option.{option_copied};
ghost use Rattle.nand_geometry.specs.Row.{parts_of};
ghost use Rattle.onfi_cycle.specs.declared.target_cycle.TargetCycle.{TargetCycle};
ghost use Rattle.onfi_cycle.specs.Effect.{is_off, page_address};
ghost use Rattle.onfi_cycle.specs.Lun.{programs};
ghost use Rattle.onfi_cycle.specs.Rules.{breaks_not_there, breaks_command_unknown, breaks_sequence_open, breaks_several_luns, breaks_no_column_to_change, breaks_command_misplaced, breaks_address_misplaced, breaks_row_outside, breaks_lun_busy, breaks_queue_clash, breaks_input_misplaced, breaks_no_sole_driver, breaks_data_not_ready, breaks_column_outside, breaks_cache_read_misplaced, breaks_cache_program_misplaced, breaks_copyback_misplaced, breaks_plane_not_held, holds_none, excludes_program, may_copy, is_copying, opens_here, begins_on_ready, holds_plane_of, blocks_clash, read_clashes, some_read_clashes, has_read_one, driving, are_none, driver, is_undeclared, is_undeclared_address, planes_clash, queued_clashes, some_queued_clashes, refused_by, is_refused_by, caching, has_some, is_unclear, works_for_target, named_lun_is, driver_is, continues_cache, ends_row, excludes_cache, finds_no_cache_read};
ghost use Rattle.onfi_cycle.specs.Permitted.{judge, judge_cycle, judge_known_cycle};

use crate::{
    Command, Forbidden, Item, LunFacts, Opening, PageAddress, Queued, TailFacts, TargetCycle,
    WorkQueue, is_shared,
};
use nand_geometry::Geometry;

fn all_are_off<Q: WorkQueue>(luns: &[LunFacts<Q>]) -> bool
    ensures { result ≡ list_all (λ v. is_off v.latch) luns.now }
{
    luns.iter().all(|lun| lun.latch.is_off())
}

/// No LUN drives the bus.
fn drives_none<Q: WorkQueue>(luns: &[LunFacts<Q>]) -> bool
    ensures { result ≡ are_none (driving luns.now) }
{
    all_are_off(luns)
}

/// The one LUN that drives the bus, None where none does, or more than one.
pub fn driver<Q: WorkQueue>(luns: &[LunFacts<Q>]) -> Option<&LunFacts<Q>>
    ensures { option_copied result ≡ driver luns.now }
{
    match luns {
        [] => None,
        [first, rest @ ..] if first.latch.is_off() => driver(rest),
        [first, rest @ ..] if drives_none(rest) => Some(first),
        _ => None,
    }
}

/// The LUN that a row names.
fn find_named<'a, Q: WorkQueue>(
    geometry: &Geometry,
    row: u32,
    luns: &'a [LunFacts<Q>],
) -> Option<&'a LunFacts<Q>>
    ensures { option_copied result ≡ slice_get luns.now (parts_of geometry.now row).lun }
{
    luns.get(geometry.parts_of(row).lun as usize)
}

#[tactic(auto, unfolding(crate::specs::Rules::breaks_not_there))]
fn breaks_not_there<Q: WorkQueue>(targets: u8, luns: &[LunFacts<Q>], item: Item) -> bool
    ensures { result ≡ breaks_not_there targets luns.now item }
{
    match item {
        Item::Cyc(cycle) => targets <= cycle.ce,
        Item::Rdy { ce, lun, .. } => {
            targets <= ce
                || match luns.get(lun as usize) {
                    None => true,
                    Some(lun) => !lun.busy,
                }
        }
        Item::Ard { ce, lun, .. } => {
            targets <= ce
                || match luns.get(lun as usize) {
                    None => true,
                    Some(lun) => !lun.array_busy,
                }
        }
    }
}

/// The command needs what the parameter page doesn't declare.
pub fn is_undeclared(geometry: &Geometry, command: Command) -> bool
    ensures { result ≡ is_undeclared geometry.now command }
{
    let parts = geometry.parts();
    match command {
        Command::ReadStatusEnhanced => !parts.enhanced,
        Command::BlockErasePlane | Command::ProgramPlane => !parts.multi_plane,
        Command::ReadCacheSequential | Command::ReadCacheEnd => !parts.cache,
        Command::ChangeReadColumnEnhanced => !parts.optional.has_enhanced_column(),
        Command::ReadPlane => !parts.optional.has_plane_reads(),
        Command::CopybackRead => !parts.optional.has_copyback(),
        Command::ProgramCache => !parts.optional.has_program_cache(),
        Command::ReadUniqueId => !parts.optional.has_unique_id(),
        Command::GetFeatures | Command::SetFeatures => !parts.optional.has_features(),
        Command::ResetLun => !parts.optional.has_lun_reset(),
        Command::SynchronousReset => !parts.optional.has_synchronous_reset(),
        _ => false,
    }
}

#[tactic(auto, unfolding(crate::specs::Rules::breaks_command_unknown))]
fn breaks_command_unknown(geometry: &Geometry, cycle: TargetCycle) -> bool
    ensures { result ≡ breaks_command_unknown geometry.now cycle }
{
    match cycle {
        TargetCycle::CommandCycle(command) => !command.is_known()
            || is_undeclared(geometry, command),
        _ => false,
    }
}

/// The command begins sequences of the chip: a Change Write Column does where a copyback is declared.
#[inline(always)]
fn opens_here(geometry: &Geometry, command: Command) -> bool
    ensures { result ≡ opens_here geometry.now command }
{
    match command {
        Command::ChangeWriteColumn => geometry.parts().optional.has_copyback(),
        _ => command.is_opener(),
    }
}

#[tactic(auto, unfolding(crate::specs::Rules::breaks_sequence_open))]
fn breaks_sequence_open(geometry: &Geometry, tail: &TailFacts, cycle: TargetCycle) -> bool
    ensures { result ≡ breaks_sequence_open geometry.now tail.now cycle }
{
    match cycle {
        TargetCycle::CommandCycle(command) => {
            opens_here(geometry, command)
                && tail.is_open()
                && !((command.is_reset() || tail.goes_on_with(command))
                    && geometry.parts().optional.is_wide())
        }
        _ => false,
    }
}

fn some_overlapped<Q: WorkQueue>(luns: &[LunFacts<Q>]) -> bool
    ensures { result ≡ list_any (λ v. v.overlapped) luns.now }
{
    luns.iter().any(|lun| lun.overlapped)
}

/// Work of the whole target goes on at one of its LUNs.
pub(crate) fn some_works_for_target<Q: WorkQueue>(luns: &[LunFacts<Q>]) -> bool
    ensures { result ≡ list_any works_for_target luns.now }
{
    luns.iter().any(|lun| lun.works_for_target())
}

/// Several LUNs could answer 70, and none answers 78 while work of the whole target goes on.
fn is_unclear<Q: WorkQueue>(luns: &[LunFacts<Q>], command: Command) -> bool
    ensures { result ≡ is_unclear luns.now command }
{
    match command {
        Command::ReadStatus => some_overlapped(luns),
        Command::ReadStatusEnhanced => some_works_for_target(luns),
        _ => false,
    }
}

#[tactic(auto, unfolding(crate::specs::Rules::breaks_several_luns))]
fn breaks_several_luns<Q: WorkQueue>(
    geometry: &Geometry,
    luns: &[LunFacts<Q>],
    cycle: TargetCycle,
) -> bool
    ensures { result ≡ breaks_several_luns geometry.now luns.now cycle }
{
    match cycle {
        TargetCycle::CommandCycle(command) => {
            if is_shared(geometry) {
                is_unclear(luns, command)
            } else {
                command.wants_one_lun() && 1 < geometry.parts().luns
            }
        }
        _ => false,
    }
}

#[tactic(auto, unfolding(crate::specs::Rules::breaks_no_column_to_change))]
fn breaks_no_column_to_change<Q: WorkQueue>(luns: &[LunFacts<Q>], cycle: TargetCycle) -> bool
    ensures { result ≡ breaks_no_column_to_change luns.now cycle }
{
    match cycle {
        TargetCycle::CommandCycle(Command::ChangeReadColumn) => match driver(luns) {
            None => true,
            Some(lun) => !lun.may_change_column(),
        },
        _ => false,
    }
}

#[tactic(auto, unfolding(crate::specs::Rules::breaks_command_misplaced))]
fn breaks_command_misplaced(geometry: &Geometry, tail: &TailFacts, cycle: TargetCycle) -> bool
    ensures { result ≡ breaks_command_misplaced geometry.now tail.now cycle }
{
    match cycle {
        TargetCycle::CommandCycle(command) => !opens_here(geometry, command)
            && !tail.wants_command(command),
        _ => false,
    }
}

/// The address of a Read ID that the base profile hasn't.
fn is_undeclared_address(geometry: &Geometry, tail: &TailFacts, byte: u8) -> bool
    ensures { result ≡ is_undeclared_address geometry.now tail.now byte }
{
    match tail.opening {
        Some(
            Opening {
                opener: Command::ReadId,
                ..
            },
        ) => { byte != 0x20 && !geometry.parts().optional.is_wide() }
        _ => false,
    }
}

#[tactic(auto, unfolding(crate::specs::Rules::breaks_address_misplaced))]
fn breaks_address_misplaced(geometry: &Geometry, tail: &TailFacts, cycle: TargetCycle) -> bool
    ensures { result ≡ breaks_address_misplaced geometry.now tail.now cycle }
{
    match cycle {
        TargetCycle::AddressCycle(byte) => {
            !tail.wants_address(byte) || is_undeclared_address(geometry, tail, byte)
        }
        _ => false,
    }
}

#[tactic(auto, unfolding(crate::specs::Rules::breaks_row_outside))]
fn breaks_row_outside(geometry: &Geometry, tail: &TailFacts, cycle: TargetCycle) -> bool
    ensures { result ≡ breaks_row_outside geometry.now tail.now cycle }
{
    match cycle {
        TargetCycle::AddressCycle(byte) => {
            tail.ends_row() && !geometry.is_inside(geometry.parts_of(tail.row_with(byte)))
        }
        _ => false,
    }
}

fn some_ready<Q: WorkQueue>(luns: &[LunFacts<Q>]) -> bool
    ensures { result ≡ list_any (λ v. not v.busy) luns.now }
{
    luns.iter().any(|lun| !lun.busy)
}

fn some_busy<Q: WorkQueue>(luns: &[LunFacts<Q>]) -> bool
    ensures { result ≡ list_any (λ v. v.busy) luns.now }
{
    luns.iter().any(|lun| lun.busy)
}

/// The LUN that a row names is there, and busy.
fn named_is_busy<Q: WorkQueue>(geometry: &Geometry, row: u32, luns: &[LunFacts<Q>]) -> bool
    ensures { result ≡ named_lun_is geometry.now row (λ v. v.busy) luns.now }
{
    match find_named(geometry, row, luns) {
        None => false,
        Some(lun) => lun.busy,
    }
}

/// The command begins a sequence and wants a ready LUN for it.
#[inline(always)]
fn begins_on_ready(tail: &TailFacts, command: Command) -> bool
    ensures { result ≡ begins_on_ready tail.now command }
{
    command.wants_ready() && !tail.goes_on_with(command)
}

#[tactic(auto, unfolding(crate::specs::Rules::breaks_lun_busy))]
fn breaks_lun_busy<Q: WorkQueue>(
    geometry: &Geometry,
    tail: &TailFacts,
    luns: &[LunFacts<Q>],
    cycle: TargetCycle,
) -> bool
    ensures { result ≡ breaks_lun_busy geometry.now tail.now luns.now cycle }
{
    match cycle {
        TargetCycle::CommandCycle(command) => {
            begins_on_ready(tail, command) && !some_ready(luns)
                || is_shared(geometry) && command.reads_identity() && some_busy(luns)
        }
        TargetCycle::AddressCycle(byte) => {
            tail.ends_array_row()
                && (named_is_busy(geometry, tail.row_with(byte), luns)
                    || is_shared(geometry) && some_works_for_target(luns))
        }
        _ => false,
    }
}

/// Two pages of one queue have other block bits above the plane, where that matters.
fn blocks_clash(geometry: &Geometry, page: PageAddress, other: PageAddress) -> bool
    ensures { result ≡ blocks_clash geometry.now page other }
{
    let planes = geometry.planes();
    !geometry.parts().optional.has_free_blocks() && page.block / planes != other.block / planes
}

/// Two pages of one queue don't go together: the same plane, another page, or other block bits above the plane.
fn planes_clash(geometry: &Geometry, page: PageAddress, other: PageAddress) -> bool
    ensures { result ≡ planes_clash geometry.now page other }
{
    let planes = geometry.planes();
    page.block % planes == other.block % planes
        || page.page != other.page
        || blocks_clash(geometry, page, other)
}

/// A queued row doesn't go together with an erase of this page, or with a program of it.
fn queued_clashes(geometry: &Geometry, is_erase: bool, page: PageAddress, queued: Queued) -> bool
    ensures { result ≡ queued_clashes geometry.now is_erase page queued }
{
    match queued {
        Queued::Erase(other) => !is_erase || planes_clash(geometry, page, other),
        Queued::Program(other) => is_erase || planes_clash(geometry, page, other),
        Queued::Read(_) => true,
    }
}

/// A queued row doesn't go together with a read of this page.
fn read_clashes(geometry: &Geometry, page: PageAddress, queued: Queued) -> bool
    ensures { result ≡ read_clashes geometry.now page queued }
{
    match queued {
        Queued::Read(other) => {
            !geometry.parts().optional.has_plane_reads() || planes_clash(geometry, page, other)
        }
        Queued::Erase(_) | Queued::Program(_) => true,
    }
}

fn some_read_clashes(geometry: &Geometry, page: PageAddress, queue: &[Queued]) -> bool
    ensures { result ≡ some_read_clashes geometry.now page queue.now }
{
    queue
        .iter()
        .any(|queued| read_clashes(geometry, page, *queued))
}

fn some_queued_clashes(
    geometry: &Geometry,
    is_erase: bool,
    page: PageAddress,
    queue: &[Queued],
) -> bool
    ensures { result ≡ some_queued_clashes geometry.now is_erase page queue.now }
{
    queue
        .iter()
        .any(|queued| queued_clashes(geometry, is_erase, page, *queued))
}

/// The queue refuses the last row cycle of this opener, with this page.
fn refused_by(geometry: &Geometry, opener: Command, page: PageAddress, queue: &[Queued]) -> bool
    ensures { result ≡ refused_by geometry.now opener page queue.now }
{
    match opener {
        Command::Read => some_read_clashes(geometry, page, queue),
        Command::BlockErase => some_queued_clashes(geometry, true, page, queue),
        Command::PageProgram | Command::ChangeWriteColumn => {
            some_queued_clashes(geometry, false, page, queue)
        }
        _ => false,
    }
}

fn is_refused_by(geometry: &Geometry, tail: &TailFacts, page: PageAddress, queue: &[Queued]) -> bool
    ensures { result ≡ is_refused_by geometry.now tail.now.opening page queue.now }
{
    match tail.opening {
        None => false,
        Some(opening) => opening.is_at_last_row()
            && refused_by(geometry, opening.opener, page, queue),
    }
}

fn some_queue<Q: WorkQueue>(luns: &[LunFacts<Q>]) -> bool
    ensures { result ≡ list_any (λ v. has_some v.queue) luns.now }
{
    luns.iter().any(|lun| !lun.queue.works().is_empty())
}

#[tactic(auto, unfolding(crate::specs::Rules::breaks_queue_clash))]
fn breaks_queue_clash<Q: WorkQueue>(
    geometry: &Geometry,
    tail: &TailFacts,
    luns: &[LunFacts<Q>],
    cycle: TargetCycle,
) -> bool
    ensures { result ≡ breaks_queue_clash geometry.now tail.now luns.now cycle }
{
    match cycle {
        TargetCycle::CommandCycle(command) => command.reads_identity() && some_queue(luns),
        TargetCycle::AddressCycle(byte) => match find_named(geometry, tail.row_with(byte), luns) {
            None => false,
            Some(lun) => {
                let page = PageAddress::of_row(geometry, tail.row_with(byte));
                is_refused_by(geometry, tail, page, lun.queue.works())
            }
        },
        _ => false,
    }
}

#[tactic(auto, unfolding(crate::specs::Rules::breaks_input_misplaced))]
fn breaks_input_misplaced(tail: &TailFacts, cycle: TargetCycle) -> bool
    ensures { result ≡ breaks_input_misplaced tail.now cycle }
{
    match cycle {
        TargetCycle::InputCycle(_) => !tail.phase.takes_inputs(),
        _ => false,
    }
}

#[tactic(auto, unfolding(crate::specs::Rules::breaks_no_sole_driver))]
fn breaks_no_sole_driver<Q: WorkQueue>(
    tail: &TailFacts,
    luns: &[LunFacts<Q>],
    cycle: TargetCycle,
) -> bool
    ensures { result ≡ breaks_no_sole_driver tail.now luns.now cycle }
{
    match cycle {
        TargetCycle::OutputCycle => tail.is_open() || driver(luns).is_none(),
        _ => false,
    }
}

#[tactic(auto, unfolding(crate::specs::Rules::breaks_data_not_ready))]
fn breaks_data_not_ready<Q: WorkQueue>(luns: &[LunFacts<Q>], cycle: TargetCycle) -> bool
    ensures { result ≡ breaks_data_not_ready luns.now cycle }
{
    match cycle {
        TargetCycle::OutputCycle => match driver(luns) {
            None => false,
            Some(lun) => lun.has_no_byte(),
        },
        _ => false,
    }
}

#[inline(always)]
#[tactic(auto, unfolding(crate::specs::Rules::breaks_column_outside))]
fn breaks_column_outside<Q: WorkQueue>(
    geometry: &Geometry,
    tail: &TailFacts,
    luns: &[LunFacts<Q>],
    cycle: TargetCycle,
) -> bool
    requires { (tail.now.column < 2 ^ 16) × (tail.now.inputs < 2 ^ 63) }
    ensures { result ≡ breaks_column_outside geometry.now tail.now luns.now cycle }
{
    match cycle {
        TargetCycle::CommandCycle(_) => false,
        TargetCycle::AddressCycle(byte) => {
            let past_page = tail.is_at_second_column_of_page()
                && geometry.page_len() <= tail.column_with(byte);
            let past_register = tail.is_at_second_column_of_register()
                && match driver(luns) {
                    None => false,
                    Some(lun) => lun.register.len(geometry) <= tail.column_with(byte),
                };
            past_page || past_register
        }
        TargetCycle::InputCycle(_) => {
            !tail.phase.takes_features() && geometry.page_len() as u64 <= tail.input_column()
        }
        TargetCycle::OutputCycle => match driver(luns) {
            None => false,
            Some(lun) => lun.is_past_register(geometry),
        },
    }
}

fn some_caching<Q: WorkQueue>(luns: &[LunFacts<Q>]) -> bool
    ensures { result ≡ list_any caching luns.now }
{
    luns.iter().any(|lun| lun.is_caching())
}

/// The LUN that a row names is there, and a cache read goes on at it.
fn named_is_caching<Q: WorkQueue>(geometry: &Geometry, row: u32, luns: &[LunFacts<Q>]) -> bool
    ensures { result ≡ named_lun_is geometry.now row caching luns.now }
{
    match find_named(geometry, row, luns) {
        None => false,
        Some(lun) => lun.is_caching(),
    }
}

/// The LUN that a row names is there, and has read one page, so that a cache read may go on from it.
fn named_has_read<Q: WorkQueue>(geometry: &Geometry, row: u32, luns: &[LunFacts<Q>]) -> bool
    ensures { result ≡ named_lun_is geometry.now row has_read_one luns.now }
{
    match find_named(geometry, row, luns) {
        None => false,
        Some(lun) => lun.has_read_one(),
    }
}

/// The one driver may go on with a cache read.
fn driver_continues_cache<Q: WorkQueue>(geometry: &Geometry, luns: &[LunFacts<Q>]) -> bool
    ensures { result ≡ driver_is (continues_cache geometry.now) luns.now }
{
    match driver(luns) {
        None => false,
        Some(lun) => lun.continues_cache(geometry),
    }
}

/// A 31h finds no LUN that may go on with a cache read: that of the row, where the tail wants it, or the one driver.
#[inline(always)]
fn finds_no_cache_read<Q: WorkQueue>(
    geometry: &Geometry,
    tail: &TailFacts,
    luns: &[LunFacts<Q>],
) -> bool
    ensures { result ≡ finds_no_cache_read geometry.now tail.now luns.now }
{
    if tail.wants_command(Command::ReadCacheSequential) {
        !named_has_read(geometry, tail.named_row(), luns)
    } else {
        !driver_continues_cache(geometry, luns)
    }
}

/// The opener's row names a LUN that does no cache read: a Read may name one in the wider profile, and so may a Change Read Column
/// Enhanced.
fn excludes_cache(geometry: &Geometry, opener: Command) -> bool
    ensures { result ≡ excludes_cache geometry.now opener }
{
    match opener {
        Command::Read => !geometry.parts().optional.is_wide(),
        Command::ChangeReadColumnEnhanced => false,
        _ => opener.addresses_the_array(),
    }
}

/// The next address is the last row cycle of such an opener.
fn ends_row_without_cache(geometry: &Geometry, tail: &TailFacts) -> bool
    ensures { result ≡ ends_row (excludes_cache geometry.now) tail.now }
{
    match tail.opening {
        None => false,
        Some(opening) => excludes_cache(geometry, opening.opener) && opening.is_at_last_row(),
    }
}

#[inline(always)]
#[tactic(auto, unfolding(crate::specs::Rules::breaks_cache_read_misplaced))]
fn breaks_cache_read_misplaced<Q: WorkQueue>(
    geometry: &Geometry,
    tail: &TailFacts,
    luns: &[LunFacts<Q>],
    cycle: TargetCycle,
) -> bool
    ensures { result ≡ breaks_cache_read_misplaced geometry.now tail.now luns.now cycle }
{
    match cycle {
        TargetCycle::CommandCycle(Command::ReadCacheSequential) => {
            finds_no_cache_read(geometry, tail, luns)
        }
        TargetCycle::CommandCycle(Command::ReadConfirm) => {
            geometry.parts().optional.is_wide()
                && named_is_caching(geometry, tail.named_row(), luns)
        }
        TargetCycle::CommandCycle(Command::ReadPlane | Command::CopybackRead) => {
            named_is_caching(geometry, tail.named_row(), luns)
        }
        TargetCycle::CommandCycle(Command::ReadCacheEnd) => match driver(luns) {
            None => true,
            Some(lun) => !lun.ends_cache(),
        },
        TargetCycle::CommandCycle(command) => command.reads_identity() && some_caching(luns),
        TargetCycle::AddressCycle(byte) => {
            ends_row_without_cache(geometry, tail)
                && named_is_caching(geometry, tail.row_with(byte), luns)
        }
        _ => false,
    }
}

fn some_programs<Q: WorkQueue>(luns: &[LunFacts<Q>]) -> bool
    ensures { result ≡ list_any programs luns.now }
{
    luns.iter().any(|lun| lun.programs())
}

/// The LUN that a row names is there, and programs behind a Page Cache Program.
fn named_programs<Q: WorkQueue>(geometry: &Geometry, row: u32, luns: &[LunFacts<Q>]) -> bool
    ensures { result ≡ named_lun_is geometry.now row programs luns.now }
{
    match find_named(geometry, row, luns) {
        None => false,
        Some(lun) => lun.programs(),
    }
}

/// The LUN that a row names is there, and has a queue.
fn named_has_queue<Q: WorkQueue>(geometry: &Geometry, row: u32, luns: &[LunFacts<Q>]) -> bool
    ensures { result ≡ named_lun_is geometry.now row (λ v. has_some v.queue) luns.now }
{
    match find_named(geometry, row, luns) {
        None => false,
        Some(lun) => !lun.queue.works().is_empty(),
    }
}

/// The LUN that a row names is there, and holds a page.
fn named_holds_some<Q: WorkQueue>(geometry: &Geometry, row: u32, luns: &[LunFacts<Q>]) -> bool
    ensures { result ≡ named_lun_is geometry.now row (λ v. not (holds_none v.held)) luns.now }
{
    match find_named(geometry, row, luns) {
        None => false,
        Some(lun) => !lun.held.is_empty(),
    }
}

/// The openers whose row names a LUN that programs no cache.
fn excludes_program(opener: Command) -> bool
    ensures { result ≡ excludes_program opener }
{
    matches!(
        opener,
        Command::Read
            | Command::ChangeReadColumnEnhanced
            | Command::BlockErase
            | Command::ChangeWriteColumn
    )
}

/// The next address is the last row cycle of such an opener.
fn ends_row_without_program(tail: &TailFacts) -> bool
    ensures { result ≡ ends_row excludes_program tail.now }
{
    match tail.opening {
        None => false,
        Some(opening) => excludes_program(opening.opener) && opening.is_at_last_row(),
    }
}

#[inline(always)]
#[tactic(auto, unfolding(crate::specs::Rules::breaks_cache_program_misplaced))]
fn breaks_cache_program_misplaced<Q: WorkQueue>(
    geometry: &Geometry,
    tail: &TailFacts,
    luns: &[LunFacts<Q>],
    cycle: TargetCycle,
) -> bool
    ensures { result ≡ breaks_cache_program_misplaced geometry.now tail.now luns.now cycle }
{
    match cycle {
        TargetCycle::CommandCycle(Command::ProgramCache) => {
            !geometry.parts().optional.has_group_cache()
                && named_has_queue(geometry, tail.named_row(), luns)
        }
        TargetCycle::CommandCycle(command) => command.reads_identity() && some_programs(luns),
        TargetCycle::AddressCycle(byte) => {
            ends_row_without_program(tail) && named_programs(geometry, tail.row_with(byte), luns)
        }
        _ => false,
    }
}

/// The LUN that a row names is there, and holds no page that may be copied to that row.
fn named_may_not_copy<Q: WorkQueue>(geometry: &Geometry, row: u32, luns: &[LunFacts<Q>]) -> bool
    ensures { result ≡ named_lun_is geometry.now row (λ v. not (may_copy geometry.now (page_address geometry.now row) v)) luns.now }
{
    match find_named(geometry, row, luns) {
        None => false,
        Some(lun) => {
            let page = PageAddress::of_row(geometry, row);
            !lun.may_copy(geometry, page)
        }
    }
}

/// The LUN that a row names is there, and a group of copybacks has begun on it.
fn named_is_copying<Q: WorkQueue>(geometry: &Geometry, row: u32, luns: &[LunFacts<Q>]) -> bool
    ensures { result ≡ named_lun_is geometry.now row is_copying luns.now }
{
    match find_named(geometry, row, luns) {
        None => false,
        Some(lun) => lun.is_copying(),
    }
}

#[inline(always)]
#[tactic(auto, unfolding(crate::specs::Rules::breaks_copyback_misplaced))]
fn breaks_copyback_misplaced<Q: WorkQueue>(
    geometry: &Geometry,
    tail: &TailFacts,
    luns: &[LunFacts<Q>],
    cycle: TargetCycle,
) -> bool
    ensures { result ≡ breaks_copyback_misplaced geometry.now tail.now luns.now cycle }
{
    match cycle {
        TargetCycle::CommandCycle(Command::ProgramCache) => {
            geometry.parts().optional.has_copyback()
                && named_holds_some(geometry, tail.named_row(), luns)
        }
        TargetCycle::AddressCycle(byte) => {
            let row = tail.row_with(byte);
            geometry.parts().optional.has_copyback()
                && (tail.ends_copyback_row() && named_may_not_copy(geometry, row, luns)
                    || tail.ends_program_row() && named_is_copying(geometry, row, luns))
        }
        _ => false,
    }
}

/// The LUN that a row names is there, and holds no page of the plane of that row, or has a queue.
fn named_holds_no_plane<Q: WorkQueue>(geometry: &Geometry, row: u32, luns: &[LunFacts<Q>]) -> bool
    ensures { result ≡ named_lun_is geometry.now row (λ v. not (holds_plane_of geometry.now (page_address geometry.now row) v)) luns.now }
{
    match find_named(geometry, row, luns) {
        None => false,
        Some(lun) => {
            let page = PageAddress::of_row(geometry, row);
            !lun.holds_plane_of(geometry, page)
        }
    }
}

#[tactic(auto, unfolding(crate::specs::Rules::breaks_plane_not_held))]
fn breaks_plane_not_held<Q: WorkQueue>(
    geometry: &Geometry,
    tail: &TailFacts,
    luns: &[LunFacts<Q>],
    cycle: TargetCycle,
) -> bool
    ensures { result ≡ breaks_plane_not_held geometry.now tail.now luns.now cycle }
{
    match cycle {
        TargetCycle::AddressCycle(byte) => {
            tail.ends_plane_row() && named_holds_no_plane(geometry, tail.row_with(byte), luns)
        }
        _ => false,
    }
}

/// The first of F3 to F18 that a command breaks. A closer can break F6 and F15 to F17 alone.
#[tactic(auto, using(crate::proofs::Closers::closer_misplaced, crate::proofs::Closers::closer_reads, crate::proofs::Closers::closer_programs, crate::proofs::Closers::closer_copies, crate::proofs::Closers::closer_passes), unfolding(crate::specs::Rules::breaks_sequence_open, crate::specs::Rules::breaks_several_luns, crate::specs::Rules::breaks_no_column_to_change, crate::specs::Rules::breaks_command_misplaced, crate::specs::Rules::breaks_address_misplaced, crate::specs::Rules::breaks_row_outside, crate::specs::Rules::breaks_lun_busy, crate::specs::Rules::breaks_queue_clash, crate::specs::Rules::breaks_input_misplaced, crate::specs::Rules::breaks_no_sole_driver, crate::specs::Rules::breaks_data_not_ready, crate::specs::Rules::breaks_column_outside, crate::specs::Rules::breaks_cache_read_misplaced, crate::specs::Rules::breaks_cache_program_misplaced, crate::specs::Rules::breaks_copyback_misplaced, crate::specs::Rules::breaks_plane_not_held))]
fn judge_command<Q: WorkQueue>(
    geometry: &Geometry,
    tail: &TailFacts,
    luns: &[LunFacts<Q>],
    command: Command,
) -> Option<Forbidden>
    ensures { result ≡ judge_known_cycle geometry.now tail.now luns.now (TargetCycle.CommandCycle command) }
{
    let cycle = TargetCycle::CommandCycle(command);
    if !opens_here(geometry, command) {
        if breaks_command_misplaced(geometry, tail, cycle) {
            Some(Forbidden::CommandMisplaced)
        } else if breaks_cache_read_misplaced(geometry, tail, luns, cycle) {
            Some(Forbidden::CacheReadMisplaced)
        } else if breaks_cache_program_misplaced(geometry, tail, luns, cycle) {
            Some(Forbidden::CacheProgramMisplaced)
        } else if breaks_copyback_misplaced(geometry, tail, luns, cycle) {
            Some(Forbidden::CopybackMisplaced)
        } else {
            None
        }
    } else if breaks_sequence_open(geometry, tail, cycle) {
        Some(Forbidden::SequenceOpen)
    } else if breaks_several_luns(geometry, luns, cycle) {
        Some(Forbidden::SeveralLuns)
    } else if breaks_no_column_to_change(luns, cycle) {
        Some(Forbidden::NoColumnToChange)
    } else if breaks_lun_busy(geometry, tail, luns, cycle) {
        Some(Forbidden::LunBusy)
    } else if breaks_queue_clash(geometry, tail, luns, cycle) {
        Some(Forbidden::QueueClash)
    } else if breaks_cache_read_misplaced(geometry, tail, luns, cycle) {
        Some(Forbidden::CacheReadMisplaced)
    } else if breaks_cache_program_misplaced(geometry, tail, luns, cycle) {
        Some(Forbidden::CacheProgramMisplaced)
    } else {
        None
    }
}

/// The first of F8 to F18 that the last address of a row breaks.
#[tactic(auto, unfolding(crate::specs::Rules::breaks_sequence_open, crate::specs::Rules::breaks_several_luns, crate::specs::Rules::breaks_no_column_to_change, crate::specs::Rules::breaks_command_misplaced, crate::specs::Rules::breaks_input_misplaced, crate::specs::Rules::breaks_no_sole_driver, crate::specs::Rules::breaks_data_not_ready))]
fn judge_end_of_row<Q: WorkQueue>(
    geometry: &Geometry,
    tail: &TailFacts,
    luns: &[LunFacts<Q>],
    byte: u8,
) -> Option<Forbidden>
    requires small { (tail.now.column < 2 ^ 16) × (tail.now.inputs < 2 ^ 63) }
    requires wanted { breaks_address_misplaced geometry.now tail.now (TargetCycle.AddressCycle byte) ≡ false }
    ensures { result ≡ judge_known_cycle geometry.now tail.now luns.now (TargetCycle.AddressCycle byte) }
{
    let cycle = TargetCycle::AddressCycle(byte);
    if breaks_row_outside(geometry, tail, cycle) {
        Some(Forbidden::RowOutside)
    } else if breaks_lun_busy(geometry, tail, luns, cycle) {
        Some(Forbidden::LunBusy)
    } else if breaks_queue_clash(geometry, tail, luns, cycle) {
        Some(Forbidden::QueueClash)
    } else if breaks_column_outside(geometry, tail, luns, cycle) {
        Some(Forbidden::ColumnOutside)
    } else if breaks_cache_read_misplaced(geometry, tail, luns, cycle) {
        Some(Forbidden::CacheReadMisplaced)
    } else if breaks_cache_program_misplaced(geometry, tail, luns, cycle) {
        Some(Forbidden::CacheProgramMisplaced)
    } else if breaks_copyback_misplaced(geometry, tail, luns, cycle) {
        Some(Forbidden::CopybackMisplaced)
    } else if breaks_plane_not_held(geometry, tail, luns, cycle) {
        Some(Forbidden::PlaneNotHeld)
    } else {
        None
    }
}

/// The first of F3 to F18 that an address breaks. One that isn't the last of a row can break F7 and F14 alone.
#[tactic(auto, using(crate::proofs::NoRow::no_copyback), unfolding(crate::specs::Rules::breaks_sequence_open, crate::specs::Rules::breaks_several_luns, crate::specs::Rules::breaks_no_column_to_change, crate::specs::Rules::breaks_command_misplaced, crate::specs::Rules::breaks_row_outside, crate::specs::Rules::breaks_lun_busy, crate::specs::Rules::breaks_queue_clash, crate::specs::Rules::breaks_input_misplaced, crate::specs::Rules::breaks_no_sole_driver, crate::specs::Rules::breaks_data_not_ready, crate::specs::Rules::breaks_cache_read_misplaced, crate::specs::Rules::breaks_cache_program_misplaced, crate::specs::Rules::breaks_plane_not_held))]
fn judge_address<Q: WorkQueue>(
    geometry: &Geometry,
    tail: &TailFacts,
    luns: &[LunFacts<Q>],
    byte: u8,
) -> Option<Forbidden>
    requires { (tail.now.column < 2 ^ 16) × (tail.now.inputs < 2 ^ 63) }
    ensures { result ≡ judge_known_cycle geometry.now tail.now luns.now (TargetCycle.AddressCycle byte) }
{
    let cycle = TargetCycle::AddressCycle(byte);
    if breaks_address_misplaced(geometry, tail, cycle) {
        Some(Forbidden::AddressMisplaced)
    } else if tail.ends_row() {
        judge_end_of_row(geometry, tail, luns, byte)
    } else if breaks_column_outside(geometry, tail, luns, cycle) {
        Some(Forbidden::ColumnOutside)
    } else {
        None
    }
}

/// The first of F3 to F18 that an input breaks.
#[tactic(auto, unfolding(crate::specs::Rules::breaks_sequence_open, crate::specs::Rules::breaks_several_luns, crate::specs::Rules::breaks_no_column_to_change, crate::specs::Rules::breaks_command_misplaced, crate::specs::Rules::breaks_address_misplaced, crate::specs::Rules::breaks_row_outside, crate::specs::Rules::breaks_lun_busy, crate::specs::Rules::breaks_queue_clash, crate::specs::Rules::breaks_no_sole_driver, crate::specs::Rules::breaks_data_not_ready, crate::specs::Rules::breaks_cache_read_misplaced, crate::specs::Rules::breaks_cache_program_misplaced, crate::specs::Rules::breaks_copyback_misplaced, crate::specs::Rules::breaks_plane_not_held))]
fn judge_input<Q: WorkQueue>(
    geometry: &Geometry,
    tail: &TailFacts,
    luns: &[LunFacts<Q>],
    byte: u8,
) -> Option<Forbidden>
    requires { (tail.now.column < 2 ^ 16) × (tail.now.inputs < 2 ^ 63) }
    ensures { result ≡ judge_known_cycle geometry.now tail.now luns.now (TargetCycle.InputCycle byte) }
{
    let cycle = TargetCycle::InputCycle(byte);
    if breaks_input_misplaced(tail, cycle) {
        Some(Forbidden::InputMisplaced)
    } else if breaks_column_outside(geometry, tail, luns, cycle) {
        Some(Forbidden::ColumnOutside)
    } else {
        None
    }
}

/// The first of F3 to F18 that an output breaks.
#[tactic(auto, unfolding(crate::specs::Rules::breaks_sequence_open, crate::specs::Rules::breaks_several_luns, crate::specs::Rules::breaks_no_column_to_change, crate::specs::Rules::breaks_command_misplaced, crate::specs::Rules::breaks_address_misplaced, crate::specs::Rules::breaks_row_outside, crate::specs::Rules::breaks_lun_busy, crate::specs::Rules::breaks_queue_clash, crate::specs::Rules::breaks_input_misplaced, crate::specs::Rules::breaks_cache_read_misplaced, crate::specs::Rules::breaks_cache_program_misplaced, crate::specs::Rules::breaks_copyback_misplaced, crate::specs::Rules::breaks_plane_not_held))]
fn judge_output<Q: WorkQueue>(
    geometry: &Geometry,
    tail: &TailFacts,
    luns: &[LunFacts<Q>],
) -> Option<Forbidden>
    requires { (tail.now.column < 2 ^ 16) × (tail.now.inputs < 2 ^ 63) }
    ensures { result ≡ judge_known_cycle geometry.now tail.now luns.now TargetCycle.OutputCycle }
{
    let cycle = TargetCycle::OutputCycle;
    if breaks_no_sole_driver(tail, luns, cycle) {
        Some(Forbidden::NoSoleDriver)
    } else if breaks_data_not_ready(luns, cycle) {
        Some(Forbidden::DataNotReady)
    } else if breaks_column_outside(geometry, tail, luns, cycle) {
        Some(Forbidden::ColumnOutside)
    } else {
        None
    }
}

/// The first of F3 to F18 that a cycle breaks: what is forbidden of a cycle whose command F2 lets pass.
#[inline(always)]
pub fn judge_known_cycle<Q: WorkQueue>(
    geometry: &Geometry,
    tail: &TailFacts,
    luns: &[LunFacts<Q>],
    cycle: TargetCycle,
) -> Option<Forbidden>
    requires { (tail.now.column < 2 ^ 16) × (tail.now.inputs < 2 ^ 63) }
    ensures { result ≡ judge_known_cycle geometry.now tail.now luns.now cycle }
{
    match cycle {
        TargetCycle::CommandCycle(command) => judge_command(geometry, tail, luns, command),
        TargetCycle::AddressCycle(byte) => judge_address(geometry, tail, luns, byte),
        TargetCycle::InputCycle(byte) => judge_input(geometry, tail, luns, byte),
        TargetCycle::OutputCycle => judge_output(geometry, tail, luns),
    }
}

/// The first of F2 to F18 that a cycle breaks.
#[inline(always)]
pub fn judge_cycle<Q: WorkQueue>(
    geometry: &Geometry,
    tail: &TailFacts,
    luns: &[LunFacts<Q>],
    cycle: TargetCycle,
) -> Option<Forbidden>
    requires { (tail.now.column < 2 ^ 16) × (tail.now.inputs < 2 ^ 63) }
    ensures { result ≡ judge_cycle geometry.now tail.now luns.now cycle }
{
    if breaks_command_unknown(geometry, cycle) {
        Some(Forbidden::CommandUnknown)
    } else {
        judge_known_cycle(geometry, tail, luns, cycle)
    }
}

/// The first rule that an item breaks, by the facts of its target: those of the tail and of each LUN, in order.
/// `targets` is the number of chip enables.
#[inline(always)]
pub fn judge<Q: WorkQueue>(
    geometry: &Geometry,
    targets: u8,
    tail: &TailFacts,
    luns: &[LunFacts<Q>],
    item: Item,
) -> Option<Forbidden>
    requires { (tail.now.column < 2 ^ 16) × (tail.now.inputs < 2 ^ 63) }
    ensures { result ≡ judge geometry.now targets tail.now luns.now item }
{
    if breaks_not_there(targets, luns, item) {
        return Some(Forbidden::NotThere);
    }
    match item {
        Item::Cyc(cycle) => judge_cycle(
            geometry,
            tail,
            luns,
            TargetCycle::of(cycle.kind, cycle.byte),
        ),
        Item::Rdy { .. } | Item::Ard { .. } => None,
    }
}
