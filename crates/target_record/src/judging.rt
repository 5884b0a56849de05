//! The rules F1 to F18 by the record of a target: of its LUNs only what a rule looks at is read, so nothing is taken out of the record.
ghost use Rattle.std.specs.Prelude.{◌≡◌, ℕ, ◌%◌, ◌==◌, length, List, ◌^◌, ◌<◌, ◌≤◌, IfSome, true, false, not, slice_get};
ghost use Rattle.std.specs.List.{All, list_all, list_any};
ghost use Rattle.std.specs.Option.{option_copied, option_map};
ghost use Rattle.nand_geometry.specs.Limits.{InLimits};
ghost use Rattle.onfi_cycle.specs.declared.command.Command.{Command as CommandValue};
ghost use Rattle.onfi_cycle.specs.declared.item.Item.{Item as ItemValue};
ghost use Rattle.onfi_cycle.specs.declared.item.Kind.{Kind as KindValue};
ghost use Rattle.onfi_cycle.specs.declared.tail_facts.TailFacts.{TailFacts as TailValue};
ghost use Rattle.onfi_cycle.specs.declared.target_cycle.TargetCycle.{TargetCycle};
ghost use Rattle.onfi_cycle.specs.Effect.{is_off, is_data, is_shared, page_address};
ghost use Rattle.onfi_cycle.specs.Lun.{output_column, is_copyback_read, page_in_plane, programs};
ghost use Rattle.nand_geometry.specs.Optional.{has_copyback};
ghost use Rattle.onfi_cycle.specs.LunView.{LunView};
ghost use Rattle.onfi_cycle.specs.Sequence.{is_open, target_cycle, goes_on_with, wants_command, row};
ghost use Rattle.onfi_cycle.specs.Permitted.{judge, judge_cycle, judge_known_cycle};
ghost use Rattle.onfi_cycle.specs.Rules.{breaks_command_misplaced, breaks_cache_program_misplaced, breaks_copyback_misplaced, excludes_program, holds_none, has_read_one, opens_here, keeps_copy, may_copy_to, may_copy, is_copying, blocks_clash, read_clashes, some_read_clashes, are_none, is_undeclared_address, breaks_address_misplaced, breaks_cache_read_misplaced, breaks_column_outside, breaks_command_unknown, breaks_lun_busy, breaks_no_column_to_change, breaks_several_luns, is_unclear, works_for_target, caching, continues_cache, driver, driving, ends_cache, ends_row, excludes_cache, named_lun_is, has_no_byte, holds_plane_of, has_some, is_past_register, lun_is, is_refused_by, is_undeclared, may_change_column, planes_clash, queued_clashes, refused_by, register_len, second_column, second_of_page, some_queued_clashes};
ghost use Rattle.onfi_cycle.specs.Command.{command, addresses_the_array, is_change_read_column, is_enhanced_column, is_page_program, is_write_column};
ghost use Rattle.onfi_cycle.specs.Bounds.{TargetFits};
ghost use Rattle.target_record.specs.Geometry.{parts_of};
ghost use Rattle.target_record.specs.Record.{IsRecord, tail_of, lun_of, luns_of, queue_of, pages_of, target_of};
ghost use Rattle.target_record.specs.Record.{IsTarget};
ghost use Rattle.target_record.specs.Judging.{named_rule, nobody_rule, copies_badly, is_kept_from_cache};

use crate::geometry::OnfiseqGeometry;
use crate::lun_change::page_in_plane;
use crate::record::{
    OnfiseqHeld, OnfiseqLun, OnfiseqQueued, OnfiseqTarget, closer_of, given_of, is_set, latch_of,
    opening_of, page_of, phase_of, queued_of, register_of, tail_of,
};
use nand_geometry::{Geometry, Optional};
use onfi_cycle::{
    Command, Cycle, DataPhase, Forbidden, Item, Kind, PageAddress, Queued, ReadColumn, Register,
    TailFacts, is_cache_program, is_cache_read, is_page_read, is_target_work, keeps_array_busy,
    keeps_copy,
};

// ---- what a record says of its LUN

fn is_off(lun: &OnfiseqLun) -> bool
    ensures { result ≡ is_off (lun_of lun.now).latch }
{
    latch_of(lun.latch).is_off()
}

/// It drives the bus with data.
#[inline(always)]
pub fn shows_data(lun: &OnfiseqLun) -> bool
    ensures { result ≡ is_data (lun_of lun.now).latch }
{
    latch_of(lun.latch).is_data()
}

#[inline(always)]
pub(crate) fn register(lun: &OnfiseqLun) -> Register
    ensures { result ≡ (lun_of lun.now).register }
{
    register_of(lun.register, lun.register_block, lun.register_page)
}

pub(crate) fn closer(lun: &OnfiseqLun) -> Option<Command>
    ensures { result ≡ (lun_of lun.now).closer }
{
    closer_of(is_set(lun.has_closer), lun.closer)
}

/// The column of its next output.
#[inline(always)]
pub fn output_column(lun: &OnfiseqLun) -> Option<u64>
    requires { IsRecord lun.now }
    ensures { result ≡ output_column (lun_of lun.now).column }
{
    let column = ReadColumn {
        given: given_of(is_set(lun.has_column), lun.column),
        outputs: lun.outputs,
        lost: is_set(lun.lost),
    };
    column.output_column()
}

/// How many bytes its register has.
#[inline(always)]
pub fn register_len(geometry: &OnfiseqGeometry, lun: &OnfiseqLun) -> u64
    ensures { result ≡ register_len (parts_of geometry.now) (lun_of lun.now).register }
{
    match register(lun) {
        Register::Empty => 0,
        Register::Page(_) => geometry.page_len(),
        Register::ParameterPage => 768,
        Register::Identifier => 4,
        Register::Identity => 8,
        Register::JedecIdentity => 6,
        Register::UniqueId => 512,
        Register::Features(_) => 4,
    }
}

/// A cache read goes on.
pub fn is_caching(lun: &OnfiseqLun) -> bool
    ensures { result ≡ caching (lun_of lun.now) }
{
    is_cache_read(closer(lun))
}

/// It programs behind a Page Cache Program, queued programs left out, and no ready of its array came since.
pub fn is_programming(lun: &OnfiseqLun) -> bool
    ensures { result ≡ programs (lun_of lun.now) }
{
    let closer = closer(lun);
    is_set(lun.busy) && is_cache_program(closer)
        || is_set(lun.array_busy) && keeps_array_busy(closer)
}

fn may_change_column(lun: &OnfiseqLun) -> bool
    ensures { result ≡ may_change_column (lun_of lun.now) }
{
    shows_data(lun) && !is_set(lun.busy) && register(lun).has_columns()
}

// It shows data and has no byte to give: it works, its register is empty, or its column was lost.
#[inline(always)]
fn has_no_byte(lun: &OnfiseqLun) -> bool
    requires { IsRecord lun.now }
    ensures { result ≡ has_no_byte (lun_of lun.now) }
{
    shows_data(lun)
        && (is_set(lun.busy) || register(lun).is_empty() || output_column(lun).is_none())
}

// It shows data, and its column is past its register.
#[inline(always)]
fn is_past_register(geometry: &OnfiseqGeometry, lun: &OnfiseqLun) -> bool
    requires { IsRecord lun.now }
    ensures { result ≡ is_past_register (parts_of geometry.now) (lun_of lun.now) }
{
    let is_outside = match output_column(lun) {
        None => false,
        Some(column) => register_len(geometry, lun) <= column,
    };
    shows_data(lun) && is_outside
}

// Read Cache Sequential may come.
fn continues_cache(geometry: &OnfiseqGeometry, lun: &OnfiseqLun) -> bool
    requires { IsRecord lun.now }
    ensures { result ≡ continues_cache (parts_of geometry.now) (lun_of lun.now) }
{
    let pages = u64::from(geometry.pages);
    !is_set(lun.busy) && has_read_one(lun) && lun.array_page < pages && lun.array_page + 1 < pages
}

// It has read a page, and holds no more than one, so that a cache read may go on from it.
fn has_read_one(lun: &OnfiseqLun) -> bool
    requires { IsRecord lun.now }
    ensures { result ≡ has_read_one (lun_of lun.now) }
{
    is_page_read(closer(lun)) && lun.holds <= 1
}

// Read Cache End may come.
fn ends_cache(lun: &OnfiseqLun) -> bool
    ensures { result ≡ ends_cache (lun_of lun.now) }
{
    !is_set(lun.busy) && is_caching(lun)
}

// ---- the LUNs of a target

fn all_are_off(luns: &[OnfiseqLun]) -> bool
    ensures { result ≡ are_none (driving (luns_of luns.now)) }
{
    match luns {
        [] => true,
        [first, rest @ ..] => is_off(first) && all_are_off(rest),
    }
}

/// The one LUN that drives the bus, None where none does, or more than one.
pub fn driver(luns: &[OnfiseqLun]) -> Option<&OnfiseqLun>
    requires { All IsRecord luns.now }
    ensures value { option_map lun_of (option_copied result) ≡ driver (luns_of luns.now) }
    ensures fits { IfSome (option_copied result) IsRecord }
{
    match luns {
        [] => None,
        [first, rest @ ..] if is_off(first) => driver(rest),
        [first, rest @ ..] if all_are_off(rest) => Some(first),
        _ => None,
    }
}

// The LUN of this number, if it is there.
fn lun_at(luns: &[OnfiseqLun], number: usize) -> Option<&OnfiseqLun>
    requires { All IsRecord luns.now }
    ensures value { option_map lun_of (option_copied result) ≡ slice_get (luns_of luns.now) number }
    ensures fits { IfSome (option_copied result) IsRecord }
{
    luns.get(number)
}

fn some_ready(luns: &[OnfiseqLun]) -> bool
    ensures { result ≡ list_any (λ v. not v.busy) (luns_of luns.now) }
{
    match luns {
        [] => false,
        [first, rest @ ..] => !is_set(first.busy) || some_ready(rest),
    }
}

fn some_busy(luns: &[OnfiseqLun]) -> bool
    ensures { result ≡ list_any (λ v. v.busy) (luns_of luns.now) }
{
    match luns {
        [] => false,
        [first, rest @ ..] => is_set(first.busy) || some_busy(rest),
    }
}

fn some_overlapped(luns: &[OnfiseqLun]) -> bool
    ensures { result ≡ list_any (λ v. v.overlapped) (luns_of luns.now) }
{
    match luns {
        [] => false,
        [first, rest @ ..] => is_set(first.overlapped) || some_overlapped(rest),
    }
}

// Work of its whole target goes on at it.
fn works_for_target(lun: &OnfiseqLun) -> bool
    ensures { result ≡ works_for_target (lun_of lun.now) }
{
    is_set(lun.busy) && is_target_work(closer(lun))
}

fn some_works_for_target(luns: &[OnfiseqLun]) -> bool
    ensures { result ≡ list_any works_for_target (luns_of luns.now) }
{
    match luns {
        [] => false,
        [first, rest @ ..] => works_for_target(first) || some_works_for_target(rest),
    }
}

// Several LUNs could answer 70, and none answers 78 while work of the whole target goes on.
fn is_unclear(luns: &[OnfiseqLun], command: Command) -> bool
    ensures { result ≡ is_unclear (luns_of luns.now) command }
{
    match command {
        Command::ReadStatus => some_overlapped(luns),
        Command::ReadStatusEnhanced => some_works_for_target(luns),
        _ => false,
    }
}

fn some_queue(luns: &[OnfiseqLun]) -> bool
    requires { All IsRecord luns.now }
    ensures { result ≡ list_any (λ v. has_some v.queue) (luns_of luns.now) }
{
    match luns {
        [] => false,
        [first, rest @ ..] => has_queue(first) || some_queue(rest),
    }
}

/// How many rows its queue has.
#[inline(always)]
pub fn queue_len(lun: &OnfiseqLun) -> usize
    requires { IsRecord lun.now }
    ensures { result ≡ length (lun_of lun.now).queue }
{
    lun.queued
}

fn has_queue(lun: &OnfiseqLun) -> bool
    requires { IsRecord lun.now }
    ensures { result ≡ has_some (lun_of lun.now).queue }
{
    lun.queued > 0
}

fn some_caching(luns: &[OnfiseqLun]) -> bool
    ensures { result ≡ list_any caching (luns_of luns.now) }
{
    match luns {
        [] => false,
        [first, rest @ ..] => is_caching(first) || some_caching(rest),
    }
}

fn some_programs(luns: &[OnfiseqLun]) -> bool
    ensures { result ≡ list_any programs (luns_of luns.now) }
{
    match luns {
        [] => false,
        [first, rest @ ..] => is_programming(first) || some_programs(rest),
    }
}

// ---- the tail of a target

// A sequence is open on the target.
#[inline(always)]
fn is_open(kept: &OnfiseqTarget) -> bool
    ensures { result ≡ is_open (tail_of kept.now) }
{
    let opens = match opening_of(is_set(kept.is_open), kept.opener, kept.addresses) {
        None => false,
        Some(opening) => opening.opener.is_proper_beginning(opening.addresses),
    };
    let phase = phase_of(kept.phase);
    opens || phase.takes_inputs() || phase.wants_column()
}

/// The tail goes on with this command, which closes its sequence or is amid its data.
pub fn wants_command(kept: &OnfiseqTarget, command: Command) -> bool
    ensures { result ≡ wants_command (tail_of kept.now) command }
{
    match command {
        Command::ChangeWriteColumn
        | Command::ProgramConfirm
        | Command::ProgramPlane
        | Command::ProgramCache => phase_of(kept.phase).takes_data(),
        _ => match opening_of(is_set(kept.is_open), kept.opener, kept.addresses) {
            None => false,
            Some(opening) => {
                opening.opener.closes(command)
                    && opening.addresses == opening.opener.address_cycles()
            }
        },
    }
}

// ---- commands

// It needs what the parameter page doesn't declare.
fn is_undeclared(geometry: &OnfiseqGeometry, command: Command) -> bool
    ensures { result ≡ is_undeclared (parts_of geometry.now) command }
{
    match command {
        Command::ReadStatusEnhanced => !is_set(geometry.enhanced),
        Command::BlockErasePlane | Command::ProgramPlane => !is_set(geometry.multi_plane),
        Command::ReadCacheSequential | Command::ReadCacheEnd => !is_set(geometry.cache),
        Command::ChangeReadColumnEnhanced => { !Optional(geometry.optional).has_enhanced_column() }
        Command::ReadPlane => !Optional(geometry.optional).has_plane_reads(),
        Command::CopybackRead => !Optional(geometry.optional).has_copyback(),
        Command::ProgramCache => !Optional(geometry.optional).has_program_cache(),
        Command::ReadUniqueId => !Optional(geometry.optional).has_unique_id(),
        Command::GetFeatures | Command::SetFeatures => {
            !Optional(geometry.optional).has_features()
        }
        Command::ResetLun => !Optional(geometry.optional).has_lun_reset(),
        Command::SynchronousReset => !Optional(geometry.optional).has_synchronous_reset(),
        _ => false,
    }
}

#[tactic(auto, unfolding(onfi_cycle::specs::Rules::breaks_command_unknown))]
fn breaks_command_unknown(geometry: &OnfiseqGeometry, command: Command) -> bool
    ensures { result ≡ breaks_command_unknown (parts_of geometry.now) (TargetCycle.CommandCycle command) }
{
    !command.is_known() || is_undeclared(geometry, command)
}

#[tactic(auto, unfolding(onfi_cycle::specs::Rules::breaks_no_column_to_change))]
fn breaks_no_column_to_change(luns: &[OnfiseqLun], command: Command) -> bool
    requires { All IsRecord luns.now }
    ensures { result ≡ breaks_no_column_to_change (luns_of luns.now) (TargetCycle.CommandCycle command) }
{
    match command {
        Command::ChangeReadColumn => match driver(luns) {
            None => true,
            Some(lun) => !may_change_column(lun),
        },
        _ => false,
    }
}

#[tactic(auto, unfolding(onfi_cycle::specs::Rules::breaks_cache_read_misplaced))]
fn breaks_cache_read_misplaced(
    geometry: &OnfiseqGeometry,
    luns: &[OnfiseqLun],
    command: Command,
) -> bool
    requires opener { opens_here (parts_of geometry.now) command ≡ true }
    requires numbers { All IsRecord luns.now }
    ensures { (t : TailValue) → goes_on_with t command ≡ false → result ≡ breaks_cache_read_misplaced (parts_of geometry.now) t (luns_of luns.now) (TargetCycle.CommandCycle command) }
{
    match command {
        Command::ReadCacheSequential => match driver(luns) {
            None => true,
            Some(lun) => !continues_cache(geometry, lun),
        },
        Command::ReadCacheEnd => match driver(luns) {
            None => true,
            Some(lun) => !ends_cache(lun),
        },
        _ => command.reads_identity() && some_caching(luns),
    }
}

#[tactic(auto, unfolding(onfi_cycle::specs::Rules::breaks_cache_program_misplaced))]
fn breaks_cache_program_misplaced(
    geometry: &OnfiseqGeometry,
    luns: &[OnfiseqLun],
    command: Command,
) -> bool
    requires opener { opens_here (parts_of geometry.now) command ≡ true }
    requires numbers { All IsRecord luns.now }
    ensures { (t : TailValue) → result ≡ breaks_cache_program_misplaced (parts_of geometry.now) t (luns_of luns.now) (TargetCycle.CommandCycle command) }
{
    let _geometry = geometry;
    command.reads_identity() && some_programs(luns)
}

// In the wider profile: the target has several LUNs, and commands that are of all of them.
#[inline(always)]
pub fn is_shared(geometry: &OnfiseqGeometry) -> bool
    ensures { result ≡ is_shared (parts_of geometry.now) }
{
    Optional(geometry.optional).is_wide() && 1 < geometry.luns
}

#[tactic(auto, unfolding(onfi_cycle::specs::Rules::breaks_several_luns))]
fn breaks_several_luns(geometry: &OnfiseqGeometry, luns: &[OnfiseqLun], command: Command) -> bool
    ensures { result ≡ breaks_several_luns (parts_of geometry.now) (luns_of luns.now) (TargetCycle.CommandCycle command) }
{
    if is_shared(geometry) {
        is_unclear(luns, command)
    } else {
        command.wants_one_lun() && 1 < geometry.luns
    }
}

#[tactic(auto, unfolding(onfi_cycle::specs::Rules::breaks_lun_busy))]
fn breaks_lun_busy(geometry: &OnfiseqGeometry, luns: &[OnfiseqLun], command: Command) -> bool
    ensures { (t : TailValue) → goes_on_with t command ≡ false → result ≡ breaks_lun_busy (parts_of geometry.now) t (luns_of luns.now) (TargetCycle.CommandCycle command) }
{
    command.wants_ready() && !some_ready(luns)
        || is_shared(geometry) && command.reads_identity() && some_busy(luns)
}

// The command begins sequences of the chip: a Change Write Column does where a copyback is declared.
fn opens_here(geometry: &OnfiseqGeometry, command: Command) -> bool
    ensures { result ≡ opens_here (parts_of geometry.now) command }
{
    match command {
        Command::ChangeWriteColumn => Optional(geometry.optional).has_copyback(),
        _ => command.is_opener(),
    }
}

// The first of F3 to F18 that an opener breaks which the tail doesn't want.
#[inline(always)]
#[tactic(auto, unfolding(onfi_cycle::specs::Rules::breaks_sequence_open, onfi_cycle::specs::Rules::breaks_command_misplaced, onfi_cycle::specs::Rules::breaks_address_misplaced, onfi_cycle::specs::Rules::breaks_row_outside, onfi_cycle::specs::Rules::breaks_queue_clash, onfi_cycle::specs::Rules::breaks_input_misplaced, onfi_cycle::specs::Rules::breaks_no_sole_driver, onfi_cycle::specs::Rules::breaks_data_not_ready, onfi_cycle::specs::Rules::breaks_column_outside, onfi_cycle::specs::Rules::breaks_copyback_misplaced, onfi_cycle::specs::Rules::breaks_plane_not_held))]
fn judge_opener(
    geometry: &OnfiseqGeometry,
    in_sequence: bool,
    luns: &[OnfiseqLun],
    command: Command,
) -> Option<Forbidden>
    requires opener { opens_here (parts_of geometry.now) command ≡ true }
    requires numbers { All IsRecord luns.now }
    ensures { (t : TailValue) → is_open t ≡ in_sequence → goes_on_with t command ≡ false → result ≡ judge_known_cycle (parts_of geometry.now) t (luns_of luns.now) (TargetCycle.CommandCycle command) }
{
    if in_sequence && !(command.is_reset() && Optional(geometry.optional).is_wide()) {
        Some(Forbidden::SequenceOpen)
    } else if breaks_several_luns(geometry, luns, command) {
        Some(Forbidden::SeveralLuns)
    } else if breaks_no_column_to_change(luns, command) {
        Some(Forbidden::NoColumnToChange)
    } else if breaks_lun_busy(geometry, luns, command) {
        Some(Forbidden::LunBusy)
    } else if command.reads_identity() && some_queue(luns) {
        Some(Forbidden::QueueClash)
    } else if breaks_cache_read_misplaced(geometry, luns, command) {
        Some(Forbidden::CacheReadMisplaced)
    } else if breaks_cache_program_misplaced(geometry, luns, command) {
        Some(Forbidden::CacheProgramMisplaced)
    } else {
        None
    }
}

// ---- cache reads of a row

// The LUN that the row of the tail names is there, and a cache read goes on at it.
fn named_is_caching(geometry: &OnfiseqGeometry, kept: &OnfiseqTarget) -> bool
    requires limits { InLimits (parts_of geometry.now) }
    requires numbers { IsTarget kept.now }
    ensures { result ≡ named_lun_is (parts_of geometry.now) (row (tail_of kept.now)) caching (target_of kept.now).luns }
{
    let named = geometry.known().parts_of(tail_of(kept).named_row()).lun;
    match lun_at(&kept.luns[..kept.count], named as usize) {
        None => false,
        Some(lun) => is_caching(lun),
    }
}

// The LUN that the row of the tail names is there, and has read a page and holds no more.
fn named_has_read_one(geometry: &OnfiseqGeometry, kept: &OnfiseqTarget) -> bool
    requires limits { InLimits (parts_of geometry.now) }
    requires numbers { IsTarget kept.now }
    ensures { result ≡ named_lun_is (parts_of geometry.now) (row (tail_of kept.now)) has_read_one (target_of kept.now).luns }
{
    let named = geometry.known().parts_of(tail_of(kept).named_row()).lun;
    match lun_at(&kept.luns[..kept.count], named as usize) {
        None => false,
        Some(lun) => has_read_one(lun),
    }
}

// The first of F3 to F18 that a 31h breaks which the tail wants.
#[inline(never)]
#[tactic(auto, unfolding(onfi_cycle::specs::Rules::breaks_sequence_open, onfi_cycle::specs::Rules::breaks_several_luns, onfi_cycle::specs::Rules::breaks_no_column_to_change, onfi_cycle::specs::Rules::breaks_command_misplaced, onfi_cycle::specs::Rules::breaks_address_misplaced, onfi_cycle::specs::Rules::breaks_row_outside, onfi_cycle::specs::Rules::breaks_lun_busy, onfi_cycle::specs::Rules::breaks_queue_clash, onfi_cycle::specs::Rules::breaks_input_misplaced, onfi_cycle::specs::Rules::breaks_no_sole_driver, onfi_cycle::specs::Rules::breaks_data_not_ready, onfi_cycle::specs::Rules::breaks_column_outside, onfi_cycle::specs::Rules::breaks_cache_read_misplaced, onfi_cycle::specs::Rules::breaks_cache_program_misplaced, onfi_cycle::specs::Rules::breaks_copyback_misplaced, onfi_cycle::specs::Rules::breaks_plane_not_held))]
fn judge_random_cache_read(geometry: &OnfiseqGeometry, kept: &OnfiseqTarget) -> Option<Forbidden>
    requires limits { InLimits (parts_of geometry.now) }
    requires numbers { IsTarget kept.now }
    requires wanted { wants_command (tail_of kept.now) CommandValue.ReadCacheSequential ≡ true }
    ensures { result ≡ judge_known_cycle (parts_of geometry.now) (tail_of kept.now) (target_of kept.now).luns (TargetCycle.CommandCycle CommandValue.ReadCacheSequential) }
{
    if is_open(kept) && !Optional(geometry.optional).is_wide() {
        Some(Forbidden::SequenceOpen)
    } else if named_has_read_one(geometry, kept) {
        None
    } else {
        Some(Forbidden::CacheReadMisplaced)
    }
}

// The tail goes on with this opener: a 31h that it wants, and an 85h in the data of a program.
fn goes_on_with(kept: &OnfiseqTarget, command: Command) -> bool
    ensures { result ≡ goes_on_with (tail_of kept.now) command }
{
    match command {
        Command::ReadCacheSequential | Command::ChangeWriteColumn => wants_command(kept, command),
        _ => false,
    }
}

// The first of F3 to F18 that an opener breaks with which the tail goes on: an 85h breaks none.
fn judge_going_on(
    geometry: &OnfiseqGeometry,
    kept: &OnfiseqTarget,
    command: Command,
) -> Option<Forbidden>
    requires limits { InLimits (parts_of geometry.now) }
    requires numbers { IsTarget kept.now }
    requires opener { opens_here (parts_of geometry.now) command ≡ true }
    requires wanted { goes_on_with (tail_of kept.now) command ≡ true }
    ensures { result ≡ judge_known_cycle (parts_of geometry.now) (tail_of kept.now) (target_of kept.now).luns (TargetCycle.CommandCycle command) }
{
    match command {
        Command::ReadCacheSequential => judge_random_cache_read(geometry, kept),
        _ => None,
    }
}

// The closer may not come while a cache read goes on at the LUN of its row: 32h and 35h, and in the wider profile 30h.
fn is_kept_from_cache(geometry: &OnfiseqGeometry, command: Command) -> bool
    ensures { result ≡ is_kept_from_cache (parts_of geometry.now) command }
{
    match command {
        Command::ReadConfirm => Optional(geometry.optional).is_wide(),
        Command::ReadPlane | Command::CopybackRead => true,
        _ => false,
    }
}

// The LUN that the row of the tail names is there, and has a queue.
fn named_has_queue(geometry: &OnfiseqGeometry, kept: &OnfiseqTarget) -> bool
    requires limits { InLimits (parts_of geometry.now) }
    requires numbers { IsTarget kept.now }
    ensures { result ≡ named_lun_is (parts_of geometry.now) (row (tail_of kept.now)) (λ v. has_some v.queue) (target_of kept.now).luns }
{
    let named = geometry.known().parts_of(tail_of(kept).named_row()).lun;
    match lun_at(&kept.luns[..kept.count], named as usize) {
        None => false,
        Some(lun) => has_queue(lun),
    }
}

// The LUN holds a page.
fn holds_some(lun: &OnfiseqLun) -> bool
    requires { IsRecord lun.now }
    ensures { result ≡ not (holds_none (lun_of lun.now).held) }
{
    lun.holds > 0
}

// The LUN that the row of the tail names is there, and holds a page.
fn named_holds_some(geometry: &OnfiseqGeometry, kept: &OnfiseqTarget) -> bool
    requires limits { InLimits (parts_of geometry.now) }
    requires numbers { IsTarget kept.now }
    ensures { result ≡ named_lun_is (parts_of geometry.now) (row (tail_of kept.now)) (λ v. not (holds_none v.held)) (target_of kept.now).luns }
{
    let named = geometry.known().parts_of(tail_of(kept).named_row()).lun;
    match lun_at(&kept.luns[..kept.count], named as usize) {
        None => false,
        Some(lun) => holds_some(lun),
    }
}

// The tail doesn't want the closer.
#[tactic(auto, unfolding(onfi_cycle::specs::Rules::breaks_command_misplaced))]
fn closer_breaks_sequence(
    geometry: &OnfiseqGeometry,
    kept: &OnfiseqTarget,
    command: Command,
) -> bool
    requires closer { opens_here (parts_of geometry.now) command ≡ false }
    ensures { result ≡ breaks_command_misplaced (parts_of geometry.now) (tail_of kept.now) (TargetCycle.CommandCycle command) }
{
    let _geometry = geometry;
    !wants_command(kept, command)
}

// The closer comes while a cache read goes on at the LUN of its row, and may not then.
#[tactic(auto, unfolding(onfi_cycle::specs::Rules::breaks_cache_read_misplaced))]
fn closer_breaks_cache_read(
    geometry: &OnfiseqGeometry,
    kept: &OnfiseqTarget,
    command: Command,
) -> bool
    requires closer { opens_here (parts_of geometry.now) command ≡ false }
    requires limits { InLimits (parts_of geometry.now) }
    requires numbers { IsTarget kept.now }
    ensures { result ≡ breaks_cache_read_misplaced (parts_of geometry.now) (tail_of kept.now) (target_of kept.now).luns (TargetCycle.CommandCycle command) }
{
    is_kept_from_cache(geometry, command) && named_is_caching(geometry, kept)
}

// The closer is a 15h of a LUN with a queue, whose chip caches no program of several planes.
#[tactic(auto, unfolding(onfi_cycle::specs::Rules::breaks_cache_program_misplaced))]
fn closer_breaks_cache_program(
    geometry: &OnfiseqGeometry,
    kept: &OnfiseqTarget,
    command: Command,
) -> bool
    requires closer { opens_here (parts_of geometry.now) command ≡ false }
    requires limits { InLimits (parts_of geometry.now) }
    requires numbers { IsTarget kept.now }
    ensures { result ≡ breaks_cache_program_misplaced (parts_of geometry.now) (tail_of kept.now) (target_of kept.now).luns (TargetCycle.CommandCycle command) }
{
    match command {
        Command::ProgramCache => {
            !Optional(geometry.optional).has_group_cache() && named_has_queue(geometry, kept)
        }
        _ => false,
    }
}

// The closer is a 15h of a LUN that holds a page.
#[tactic(auto, unfolding(onfi_cycle::specs::Rules::breaks_copyback_misplaced))]
fn closer_breaks_copyback(
    geometry: &OnfiseqGeometry,
    kept: &OnfiseqTarget,
    command: Command,
) -> bool
    requires limits { InLimits (parts_of geometry.now) }
    requires numbers { IsTarget kept.now }
    ensures { result ≡ breaks_copyback_misplaced (parts_of geometry.now) (tail_of kept.now) (target_of kept.now).luns (TargetCycle.CommandCycle command) }
{
    match command {
        Command::ProgramCache => {
            Optional(geometry.optional).has_copyback() && named_holds_some(geometry, kept)
        }
        _ => false,
    }
}

// The first of F6 to F17 that a closer breaks.
#[tactic(auto, using(onfi_cycle::proofs::Closers::closer_misplaced, onfi_cycle::proofs::Closers::closer_reads, onfi_cycle::proofs::Closers::closer_programs, onfi_cycle::proofs::Closers::closer_copies, onfi_cycle::proofs::Closers::closer_passes))]
fn judge_closer(
    geometry: &OnfiseqGeometry,
    kept: &OnfiseqTarget,
    command: Command,
) -> Option<Forbidden>
    requires closer { opens_here (parts_of geometry.now) command ≡ false }
    requires limits { InLimits (parts_of geometry.now) }
    requires numbers { IsTarget kept.now }
    ensures { result ≡ judge_known_cycle (parts_of geometry.now) (tail_of kept.now) (target_of kept.now).luns (TargetCycle.CommandCycle command) }
{
    if closer_breaks_sequence(geometry, kept, command) {
        Some(Forbidden::CommandMisplaced)
    } else if closer_breaks_cache_read(geometry, kept, command) {
        Some(Forbidden::CacheReadMisplaced)
    } else if closer_breaks_cache_program(geometry, kept, command) {
        Some(Forbidden::CacheProgramMisplaced)
    } else if closer_breaks_copyback(geometry, kept, command) {
        Some(Forbidden::CopybackMisplaced)
    } else {
        None
    }
}

// ---- addresses

// Two pages of one queue have other block bits above the plane, where that matters.
fn blocks_clash(geometry: &Geometry, page: PageAddress, other: PageAddress) -> bool
    ensures { result ≡ blocks_clash geometry.now page other }
{
    let planes = geometry.planes();
    !geometry.parts().optional.has_free_blocks() && page.block / planes != other.block / planes
}

// Two pages of one queue don't go together: the same plane, another page, or other block bits above the plane.
fn planes_clash(geometry: &Geometry, page: PageAddress, other: PageAddress) -> bool
    ensures { result ≡ planes_clash geometry.now page other }
{
    let planes = geometry.planes();
    page.block % planes == other.block % planes
        || page.page != other.page
        || blocks_clash(geometry, page, other)
}

// A queued row doesn't go together with an erase of this page, or with a program of it.
fn queued_clashes(geometry: &Geometry, is_erase: bool, page: PageAddress, queued: Queued) -> bool
    ensures { result ≡ queued_clashes geometry.now is_erase page queued }
{
    match queued {
        Queued::Erase(other) => !is_erase || planes_clash(geometry, page, other),
        Queued::Program(other) => is_erase || planes_clash(geometry, page, other),
        Queued::Read(_) => true,
    }
}

// A queued row doesn't go together with a read of this page.
fn read_clashes(geometry: &Geometry, page: PageAddress, queued: Queued) -> bool
    ensures { result ≡ read_clashes geometry.now page queued }
{
    match queued {
        Queued::Read(other) => !geometry.parts().optional.has_plane_reads()
            || planes_clash(geometry, page, other),
        Queued::Erase(_) | Queued::Program(_) => true,
    }
}

pub(crate) fn some_read_clashes(
    geometry: &Geometry,
    page: PageAddress,
    queue: &[OnfiseqQueued],
) -> bool
    ensures { result ≡ some_read_clashes geometry.now page (queue_of queue.now) }
{
    match queue {
        [] => false,
        [first, rest @ ..] => {
            read_clashes(geometry, page, queued_of(first))
                || some_read_clashes(geometry, page, rest)
        }
    }
}

pub(crate) fn some_queued_clashes(
    geometry: &Geometry,
    is_erase: bool,
    page: PageAddress,
    queue: &[OnfiseqQueued],
) -> bool
    ensures { result ≡ some_queued_clashes geometry.now is_erase page (queue_of queue.now) }
{
    match queue {
        [] => false,
        [first, rest @ ..] => {
            queued_clashes(geometry, is_erase, page, queued_of(first))
                || some_queued_clashes(geometry, is_erase, page, rest)
        }
    }
}

// The queue refuses the last row cycle of this opener, with this page.
fn refused_by(
    geometry: &Geometry,
    opener: Command,
    page: PageAddress,
    queue: &[OnfiseqQueued],
) -> bool
    ensures { result ≡ refused_by geometry.now opener page (queue_of queue.now) }
{
    match opener {
        Command::Read => some_read_clashes(geometry, page, queue),
        Command::BlockErase => some_queued_clashes(geometry, true, page, queue),
        Command::PageProgram | Command::ChangeWriteColumn => {
            some_queued_clashes(geometry, false, page, queue)
        }
        _ => false,
    }
}

// The queue of a LUN refuses the last row cycle, with this page.
fn is_refused_by(geometry: &Geometry, tail: TailFacts, page: PageAddress, lun: &OnfiseqLun) -> bool
    requires { IsRecord lun.now }
    ensures { result ≡ is_refused_by geometry.now tail.opening page (lun_of lun.now).queue }
{
    match tail.opening {
        None => false,
        Some(opening) => opening.opener.at_last_row(opening.addresses)
            && refused_by(geometry, opening.opener, page, &lun.queue[..lun.queued]),
    }
}

// The next address is the last of a row.
fn ends_row(tail: TailFacts) -> bool
    ensures { result ≡ ends_row (λ c. true) tail }
{
    match tail.opening {
        None => false,
        Some(opening) => opening.opener.at_last_row(opening.addresses),
    }
}

// The next address is the last of a row of a LUN that has to be ready.
fn ends_array_row(tail: TailFacts) -> bool
    ensures { result ≡ ends_row addresses_the_array tail }
{
    match tail.opening {
        None => false,
        Some(opening) => opening.opener.addresses_the_array()
            && opening.opener.at_last_row(opening.addresses),
    }
}

// The opener's row names a LUN that does no cache read: a Read may name one in the wider profile, and so may a Change Read Column
// Enhanced.
fn excludes_cache(geometry: &Geometry, opener: Command) -> bool
    ensures { result ≡ excludes_cache geometry.now opener }
{
    match opener {
        Command::Read => !geometry.parts().optional.is_wide(),
        Command::ChangeReadColumnEnhanced => false,
        _ => opener.addresses_the_array(),
    }
}

// The next address is the last row cycle of such an opener.
fn ends_row_without_cache(geometry: &Geometry, tail: TailFacts) -> bool
    ensures { result ≡ ends_row (excludes_cache geometry.now) tail }
{
    match tail.opening {
        None => false,
        Some(opening) => excludes_cache(geometry, opening.opener)
            && opening.opener.at_last_row(opening.addresses),
    }
}

// The next address is the second column cycle of a Read, a Change Read Column Enhanced, a Page Program, a Copyback Program or a Change Write Column.
fn is_at_second_column_of_page(tail: TailFacts) -> bool
    ensures { result ≡ second_of_page tail }
{
    let opens = match tail.opening {
        None => false,
        Some(opening) => {
            matches!(
                opening.opener,
                Command::Read
                    | Command::ChangeReadColumnEnhanced
                    | Command::PageProgram
                    | Command::ChangeWriteColumn
            ) && opening.addresses == 1
        }
    };
    opens || matches!(tail.phase, DataPhase::SecondColumn)
}

// The next address is the second column cycle of a Change Read Column.
fn is_at_second_column_of_register(tail: TailFacts) -> bool
    ensures { result ≡ second_column is_change_read_column tail }
{
    match tail.opening {
        None => false,
        Some(opening) => opening.opener == Command::ChangeReadColumn && opening.addresses == 1,
    }
}

// The next address is the last of the row of a Change Read Column Enhanced.
fn ends_plane_row(tail: TailFacts) -> bool
    ensures { result ≡ ends_row is_enhanced_column tail }
{
    match tail.opening {
        None => false,
        Some(opening) => opening.opener == Command::ChangeReadColumnEnhanced
            && opening.opener.at_last_row(opening.addresses),
    }
}

// Some page of these lies in this plane, where a LUN has so many planes.
fn holds_plane(planes: u32, plane: u32, held: &[OnfiseqHeld]) -> bool
    requires { 0 < planes }
    ensures { result ≡ list_any (λ page. page.block % planes == plane) (pages_of held.now) }
{
    match held {
        [] => false,
        [first, rest @ ..] => {
            page_of(first).block % planes == plane || holds_plane(planes, plane, rest)
        }
    }
}

// The LUN holds a page of the plane in which this one lies, and nothing is queued.
fn holds_plane_of(geometry: &Geometry, page: PageAddress, lun: &OnfiseqLun) -> bool
    requires { IsRecord lun.now }
    ensures { result ≡ holds_plane_of geometry.now page (lun_of lun.now) }
{
    let planes = geometry.planes();
    !has_queue(lun) && holds_plane(planes, page.block % planes, &lun.held[..lun.holds])
}

// A page may be copied to another of its plane: both are odd, or both even, where that matters.
fn may_copy_to(geometry: &Geometry, page: PageAddress, held: Option<PageAddress>) -> bool
    ensures { result ≡ may_copy_to geometry.now page held }
{
    match held {
        None => false,
        Some(from) => { geometry.parts().optional.has_odd_even() || page.page % 2 == from.page % 2 }
    }
}

// The LUN holds a page that was read for a copyback, and may be copied to this one.
fn may_copy(geometry: &Geometry, page: PageAddress, lun: &OnfiseqLun) -> bool
    requires { IsRecord lun.now }
    ensures { result ≡ may_copy geometry.now page (lun_of lun.now) }
{
    let planes = geometry.planes();
    let held = page_in_plane(planes, page.block % planes, &lun.held[..lun.holds]);
    keeps_copy(closer(lun)) && may_copy_to(geometry, page, held)
}

// A group of copybacks has begun on it.
fn is_copying(lun: &OnfiseqLun) -> bool
    requires { IsRecord lun.now }
    ensures { result ≡ is_copying (lun_of lun.now) }
{
    has_queue(lun) && lun.holds > 0
}

// The next address is the last of the row of a Copyback Program.
fn ends_copyback_row(tail: TailFacts) -> bool
    ensures { result ≡ ends_row is_write_column tail }
{
    match tail.opening {
        None => false,
        Some(opening) => opening.opener == Command::ChangeWriteColumn
            && opening.opener.at_last_row(opening.addresses),
    }
}

// The next address is the last of the row of a Page Program.
fn ends_program_row(tail: TailFacts) -> bool
    ensures { result ≡ ends_row is_page_program tail }
{
    match tail.opening {
        None => false,
        Some(opening) => opening.opener == Command::PageProgram
            && opening.opener.at_last_row(opening.addresses),
    }
}

// The last address of a row breaks F17 on the LUN that it names.
fn copies_badly(geometry: &Geometry, tail: TailFacts, page: PageAddress, lun: &OnfiseqLun) -> bool
    requires { IsRecord lun.now }
    ensures { result ≡ copies_badly geometry.now tail page (lun_of lun.now) }
{
    geometry.parts().optional.has_copyback()
        && (ends_copyback_row(tail) && !may_copy(geometry, page, lun)
            || ends_program_row(tail) && is_copying(lun))
}

// The openers whose row names a LUN that programs no cache.
fn excludes_program(opener: Command) -> bool
    ensures { result ≡ excludes_program opener }
{
    matches!(
        opener,
        Command::Read
            | Command::ChangeReadColumnEnhanced
            | Command::BlockErase
            | Command::ChangeWriteColumn
    )
}

// The next address is the last row cycle of such an opener.
fn ends_row_without_program(tail: TailFacts) -> bool
    ensures { result ≡ ends_row excludes_program tail }
{
    match tail.opening {
        None => false,
        Some(opening) => excludes_program(opening.opener)
            && opening.opener.at_last_row(opening.addresses),
    }
}

// The column is outside the page, or outside the register of the LUN that drives.
#[tactic(auto, unfolding(onfi_cycle::specs::Rules::breaks_column_outside))]
fn breaks_column_outside(
    geometry: &OnfiseqGeometry,
    tail: TailFacts,
    luns: &[OnfiseqLun],
    byte: u8,
) -> bool
    requires numbers { All IsRecord luns.now }
    ensures { result ≡ breaks_column_outside (parts_of geometry.now) tail (luns_of luns.now) (TargetCycle.AddressCycle byte) }
{
    let column = u64::from(tail.column_with(byte));
    let past_page = is_at_second_column_of_page(tail) && geometry.page_len() <= column;
    let past_register = is_at_second_column_of_register(tail)
        && match driver(luns) {
            None => false,
            Some(lun) => register_len(geometry, lun) <= column,
        };
    past_page || past_register
}

// The first of F9 to F18 that the last address of a row inside the geometry breaks, on the LUN that it names.
fn judge_named(
    geometry: &Geometry,
    tail: TailFacts,
    lun: &OnfiseqLun,
    row: u32,
    is_outside: bool,
    target_works: bool,
) -> Option<Forbidden>
    requires { IsRecord lun.now }
    ensures { result ≡ named_rule geometry.now tail row is_outside target_works (lun_of lun.now) }
{
    let is_of_array = ends_array_row(tail);
    let page = PageAddress::of_row(geometry, row);
    if is_of_array && (is_set(lun.busy) || target_works) {
        Some(Forbidden::LunBusy)
    } else if is_refused_by(geometry, tail, page, lun) {
        Some(Forbidden::QueueClash)
    } else if is_outside {
        Some(Forbidden::ColumnOutside)
    } else if ends_row_without_cache(geometry, tail) && is_caching(lun) {
        Some(Forbidden::CacheReadMisplaced)
    } else if ends_row_without_program(tail) && is_programming(lun) {
        Some(Forbidden::CacheProgramMisplaced)
    } else if copies_badly(geometry, tail, page, lun) {
        Some(Forbidden::CopybackMisplaced)
    } else if ends_plane_row(tail) && !holds_plane_of(geometry, page, lun) {
        Some(Forbidden::PlaneNotHeld)
    } else {
        None
    }
}

// The same where the row names none of them.
fn judge_nobody(tail: TailFacts, is_outside: bool, target_works: bool) -> Option<Forbidden>
    ensures { result ≡ nobody_rule tail is_outside target_works }
{
    if ends_array_row(tail) && target_works {
        Some(Forbidden::LunBusy)
    } else if is_outside {
        Some(Forbidden::ColumnOutside)
    } else {
        None
    }
}

// The first of F8 to F18 that the last address of a row breaks.
#[tactic(auto, unfolding(onfi_cycle::specs::Rules::breaks_sequence_open, onfi_cycle::specs::Rules::breaks_several_luns, onfi_cycle::specs::Rules::breaks_no_column_to_change, onfi_cycle::specs::Rules::breaks_command_misplaced, onfi_cycle::specs::Rules::breaks_input_misplaced, onfi_cycle::specs::Rules::breaks_no_sole_driver, onfi_cycle::specs::Rules::breaks_data_not_ready, onfi_cycle::specs::Rules::breaks_row_outside, onfi_cycle::specs::Rules::breaks_lun_busy, onfi_cycle::specs::Rules::breaks_queue_clash, onfi_cycle::specs::Rules::breaks_cache_read_misplaced, onfi_cycle::specs::Rules::breaks_cache_program_misplaced, onfi_cycle::specs::Rules::breaks_copyback_misplaced, onfi_cycle::specs::Rules::breaks_plane_not_held))]
#[inline(never)]
fn judge_end_of_row(
    geometry: &OnfiseqGeometry,
    tail: TailFacts,
    luns: &[OnfiseqLun],
    byte: u8,
) -> Option<Forbidden>
    requires limits { InLimits (parts_of geometry.now) }
    requires numbers { All IsRecord luns.now }
    requires wanted { breaks_address_misplaced (parts_of geometry.now) tail (TargetCycle.AddressCycle byte) ≡ false }
    requires last { ends_row (λ c. true) tail ≡ true }
    ensures { result ≡ judge_known_cycle (parts_of geometry.now) tail (luns_of luns.now) (TargetCycle.AddressCycle byte) }
{
    let known = geometry.known();
    let row = tail.row_with(byte);
    let parts = known.parts_of(row);
    if !known.is_inside(parts) {
        return Some(Forbidden::RowOutside);
    }
    let is_outside = breaks_column_outside(geometry, tail, luns, byte);
    let target_works = is_shared(geometry) && some_works_for_target(luns);
    match lun_at(luns, parts.lun as usize) {
        None => judge_nobody(tail, is_outside, target_works),
        Some(lun) => judge_named(&known, tail, lun, row, is_outside, target_works),
    }
}

// The address isn't wanted, or needs the wider profile.
#[tactic(auto, unfolding(onfi_cycle::specs::Rules::breaks_address_misplaced))]
fn breaks_address_misplaced(geometry: &OnfiseqGeometry, tail: TailFacts, byte: u8) -> bool
    ensures { result ≡ breaks_address_misplaced (parts_of geometry.now) tail (TargetCycle.AddressCycle byte) }
{
    !tail.wants_address(byte) || is_undeclared_address(geometry, tail, byte)
}

// The address of a Read ID that the base profile hasn't.
fn is_undeclared_address(geometry: &OnfiseqGeometry, tail: TailFacts, byte: u8) -> bool
    ensures { result ≡ is_undeclared_address (parts_of geometry.now) tail byte }
{
    let reads_id = match tail.opening {
        None => false,
        Some(opening) => opening.opener == Command::ReadId,
    };
    !Optional(geometry.optional).is_wide() && reads_id && byte != 0x20
}

// The first of F3 to F18 that an address breaks. One that isn't the last of a row can break F7 and F14 alone.
#[tactic(auto, using(onfi_cycle::proofs::NoRow::no_copyback), unfolding(onfi_cycle::specs::Rules::breaks_sequence_open, onfi_cycle::specs::Rules::breaks_several_luns, onfi_cycle::specs::Rules::breaks_no_column_to_change, onfi_cycle::specs::Rules::breaks_command_misplaced, onfi_cycle::specs::Rules::breaks_row_outside, onfi_cycle::specs::Rules::breaks_lun_busy, onfi_cycle::specs::Rules::breaks_queue_clash, onfi_cycle::specs::Rules::breaks_input_misplaced, onfi_cycle::specs::Rules::breaks_no_sole_driver, onfi_cycle::specs::Rules::breaks_data_not_ready, onfi_cycle::specs::Rules::breaks_cache_read_misplaced, onfi_cycle::specs::Rules::breaks_cache_program_misplaced, onfi_cycle::specs::Rules::breaks_plane_not_held))]
#[inline(always)]
fn judge_address(
    geometry: &OnfiseqGeometry,
    tail: TailFacts,
    luns: &[OnfiseqLun],
    byte: u8,
) -> Option<Forbidden>
    requires limits { InLimits (parts_of geometry.now) }
    requires numbers { All IsRecord luns.now }
    ensures { result ≡ judge_known_cycle (parts_of geometry.now) tail (luns_of luns.now) (TargetCycle.AddressCycle byte) }
{
    if breaks_address_misplaced(geometry, tail, byte) {
        Some(Forbidden::AddressMisplaced)
    } else if ends_row(tail) {
        judge_end_of_row(geometry, tail, luns, byte)
    } else if breaks_column_outside(geometry, tail, luns, byte) {
        Some(Forbidden::ColumnOutside)
    } else {
        None
    }
}

// ---- data

// The first of F3 to F18 that an input breaks.
#[inline(always)]
#[tactic(auto, unfolding(onfi_cycle::specs::Rules::breaks_sequence_open, onfi_cycle::specs::Rules::breaks_several_luns, onfi_cycle::specs::Rules::breaks_no_column_to_change, onfi_cycle::specs::Rules::breaks_command_misplaced, onfi_cycle::specs::Rules::breaks_address_misplaced, onfi_cycle::specs::Rules::breaks_row_outside, onfi_cycle::specs::Rules::breaks_lun_busy, onfi_cycle::specs::Rules::breaks_queue_clash, onfi_cycle::specs::Rules::breaks_input_misplaced, onfi_cycle::specs::Rules::breaks_no_sole_driver, onfi_cycle::specs::Rules::breaks_data_not_ready, onfi_cycle::specs::Rules::breaks_column_outside, onfi_cycle::specs::Rules::breaks_cache_read_misplaced, onfi_cycle::specs::Rules::breaks_cache_program_misplaced, onfi_cycle::specs::Rules::breaks_copyback_misplaced, onfi_cycle::specs::Rules::breaks_plane_not_held))]
fn judge_input(geometry: &OnfiseqGeometry, kept: &OnfiseqTarget) -> Option<Forbidden>
    requires { (kept.now.column < 2 ^ 16) × (kept.now.inputs < 2 ^ 63) }
    ensures { (luns : List LunView) (byte : ℕ) → result ≡ judge_known_cycle (parts_of geometry.now) (tail_of kept.now) luns (TargetCycle.InputCycle byte) }
{
    let phase = phase_of(kept.phase);
    if !phase.takes_inputs() {
        Some(Forbidden::InputMisplaced)
    } else if phase.takes_features() {
        None
    } else if geometry.page_len() <= u64::from(kept.column) + kept.inputs as u64 {
        Some(Forbidden::ColumnOutside)
    } else {
        None
    }
}

// The first of F3 to F18 that an output breaks.
#[inline(always)]
#[tactic(auto, unfolding(onfi_cycle::specs::Rules::breaks_sequence_open, onfi_cycle::specs::Rules::breaks_several_luns, onfi_cycle::specs::Rules::breaks_no_column_to_change, onfi_cycle::specs::Rules::breaks_command_misplaced, onfi_cycle::specs::Rules::breaks_address_misplaced, onfi_cycle::specs::Rules::breaks_row_outside, onfi_cycle::specs::Rules::breaks_lun_busy, onfi_cycle::specs::Rules::breaks_queue_clash, onfi_cycle::specs::Rules::breaks_input_misplaced, onfi_cycle::specs::Rules::breaks_no_sole_driver, onfi_cycle::specs::Rules::breaks_data_not_ready, onfi_cycle::specs::Rules::breaks_column_outside, onfi_cycle::specs::Rules::breaks_cache_read_misplaced, onfi_cycle::specs::Rules::breaks_cache_program_misplaced, onfi_cycle::specs::Rules::breaks_copyback_misplaced, onfi_cycle::specs::Rules::breaks_plane_not_held))]
fn judge_output(geometry: &OnfiseqGeometry, kept: &OnfiseqTarget) -> Option<Forbidden>
    requires { IsTarget kept.now }
    ensures { result ≡ judge_known_cycle (parts_of geometry.now) (tail_of kept.now) (target_of kept.now).luns TargetCycle.OutputCycle }
{
    if is_open(kept) {
        return Some(Forbidden::NoSoleDriver);
    }
    match driver(&kept.luns[..kept.count]) {
        None => Some(Forbidden::NoSoleDriver),
        Some(lun) => {
            if has_no_byte(lun) {
                Some(Forbidden::DataNotReady)
            } else if is_past_register(geometry, lun) {
                Some(Forbidden::ColumnOutside)
            } else {
                None
            }
        }
    }
}

// ---- items

// The LUN of this number isn't there, or isn't busy.
fn is_not_busy(luns: &[OnfiseqLun], number: u8) -> bool
    requires { All IsRecord luns.now }
    ensures { result ≡ not (lun_is (λ v. v.busy) (luns_of luns.now) number) }
{
    match lun_at(luns, usize::from(number)) {
        None => true,
        Some(lun) => !is_set(lun.busy),
    }
}

// The LUN of this number isn't there, or its array isn't busy.
fn is_array_not_busy(luns: &[OnfiseqLun], number: u8) -> bool
    requires { All IsRecord luns.now }
    ensures { result ≡ not (lun_is (λ v. v.array_busy) (luns_of luns.now) number) }
{
    match lun_at(luns, usize::from(number)) {
        None => true,
        Some(lun) => !is_set(lun.array_busy),
    }
}

// The first of F3 to F18 that a command breaks. A closer can break F6 and F15 to F17 alone.
#[inline(always)]
fn judge_command(
    geometry: &OnfiseqGeometry,
    kept: &OnfiseqTarget,
    command: Command,
) -> Option<Forbidden>
    requires limits { InLimits (parts_of geometry.now) }
    requires numbers { IsTarget kept.now }
    ensures { result ≡ judge_known_cycle (parts_of geometry.now) (tail_of kept.now) (target_of kept.now).luns (TargetCycle.CommandCycle command) }
{
    if !opens_here(geometry, command) {
        judge_closer(geometry, kept, command)
    } else if goes_on_with(kept, command) {
        judge_going_on(geometry, kept, command)
    } else {
        judge_opener(geometry, is_open(kept), &kept.luns[..kept.count], command)
    }
}

// The first of F2 to F18 that a command breaks.
#[inline(always)]
#[tactic(auto, unfolding(onfi_cycle::specs::Rules::breaks_command_unknown))]
fn judge_command_there(
    geometry: &OnfiseqGeometry,
    kept: &OnfiseqTarget,
    command: Command,
) -> Option<Forbidden>
    requires limits { InLimits (parts_of geometry.now) }
    requires numbers { IsTarget kept.now }
    ensures { result ≡ judge_cycle (parts_of geometry.now) (tail_of kept.now) (target_of kept.now).luns (TargetCycle.CommandCycle command) }
{
    if breaks_command_unknown(geometry, command) {
        return Some(Forbidden::CommandUnknown);
    }
    judge_command(geometry, kept, command)
}

// The first of F2 to F18 that an address breaks.
#[inline(never)]
#[tactic(auto, unfolding(onfi_cycle::specs::Rules::breaks_command_unknown))]
fn judge_address_there(
    geometry: &OnfiseqGeometry,
    kept: &OnfiseqTarget,
    byte: u8,
) -> Option<Forbidden>
    requires limits { InLimits (parts_of geometry.now) }
    requires numbers { IsTarget kept.now }
    ensures { result ≡ judge_cycle (parts_of geometry.now) (tail_of kept.now) (target_of kept.now).luns (TargetCycle.AddressCycle byte) }
{
    judge_address(geometry, tail_of(kept), &kept.luns[..kept.count], byte)
}

// The first of F2 to F18 that a cycle breaks.
#[inline(always)]
#[tactic(auto, unfolding(onfi_cycle::specs::Rules::breaks_command_unknown))]
pub(crate) fn judge_kept(
    geometry: &OnfiseqGeometry,
    kept: &OnfiseqTarget,
    cycle: Cycle,
) -> Option<Forbidden>
    requires limits { InLimits (parts_of geometry.now) }
    requires small { (kept.now.column < 2 ^ 16) × (kept.now.inputs < 2 ^ 63) }
    requires numbers { IsTarget kept.now }
    ensures { result ≡ judge_cycle (parts_of geometry.now) (tail_of kept.now) (target_of kept.now).luns (target_cycle cycle.kind cycle.byte) }
{
    match cycle.kind {
        Kind::Cmd => judge_command_there(geometry, kept, Command::of(cycle.byte)),
        Kind::Adr => judge_address_there(geometry, kept, cycle.byte),
        Kind::Din => judge_input(geometry, kept),
        Kind::Dout => judge_output(geometry, kept),
    }
}

/// The first rule that an item breaks, by the record of its target. `targets` is the number of chip enables.
#[inline(always)]
#[tactic(auto, unfolding(onfi_cycle::specs::Rules::breaks_not_there))]
pub fn judge_there(
    geometry: &OnfiseqGeometry,
    targets: u8,
    kept: &OnfiseqTarget,
    item: Item,
) -> Option<Forbidden>
    requires limits { InLimits (parts_of geometry.now) }
    requires numbers { IsTarget kept.now }
    requires fits { TargetFits (parts_of geometry.now) (target_of kept.now) }
    ensures { result ≡ judge (parts_of geometry.now) targets (target_of kept.now).tail (target_of kept.now).luns item }
{
    if targets <= item.target() {
        return Some(Forbidden::NotThere);
    }
    match item {
        Item::Cyc(cycle) => judge_kept(geometry, kept, cycle),
        Item::Rdy { lun, .. } => {
            if is_not_busy(&kept.luns[..kept.count], lun) {
                Some(Forbidden::NotThere)
            } else {
                None
            }
        }
        Item::Ard { lun, .. } => {
            if is_array_not_busy(&kept.luns[..kept.count], lun) {
                Some(Forbidden::NotThere)
            } else {
                None
            }
        }
    }
}

/// The first rule that a command breaks, by the record of its target.
#[inline(always)]
#[tactic(auto, unfolding(onfi_cycle::specs::Rules::breaks_not_there))]
pub fn judge_command_of(
    geometry: &OnfiseqGeometry,
    targets: u8,
    kept: &OnfiseqTarget,
    cycle: Cycle,
    named: Command,
) -> Option<Forbidden>
    requires kind { cycle.kind ≡ KindValue.Cmd }
    requires named { named ≡ command cycle.byte }
    requires limits { InLimits (parts_of geometry.now) }
    requires numbers { IsTarget kept.now }
    requires fits { TargetFits (parts_of geometry.now) (target_of kept.now) }
    ensures { result ≡ judge (parts_of geometry.now) targets (target_of kept.now).tail (target_of kept.now).luns (ItemValue.Cyc cycle) }
{
    if targets <= cycle.ce {
        return Some(Forbidden::NotThere);
    }
    judge_command_there(geometry, kept, named)
}

/// The first rule that an address breaks, by the record of its target.
#[inline(always)]
#[tactic(auto, unfolding(onfi_cycle::specs::Rules::breaks_not_there))]
pub fn judge_address_of(
    geometry: &OnfiseqGeometry,
    targets: u8,
    kept: &OnfiseqTarget,
    cycle: Cycle,
) -> Option<Forbidden>
    requires kind { cycle.kind ≡ KindValue.Adr }
    requires limits { InLimits (parts_of geometry.now) }
    requires numbers { IsTarget kept.now }
    requires fits { TargetFits (parts_of geometry.now) (target_of kept.now) }
    ensures { result ≡ judge (parts_of geometry.now) targets (target_of kept.now).tail (target_of kept.now).luns (ItemValue.Cyc cycle) }
{
    if targets <= cycle.ce {
        return Some(Forbidden::NotThere);
    }
    judge_address_there(geometry, kept, cycle.byte)
}

/// The first rule that an output breaks, by the record of its target.
#[inline(always)]
#[tactic(auto, unfolding(onfi_cycle::specs::Rules::breaks_not_there, onfi_cycle::specs::Rules::breaks_command_unknown))]
pub fn judge_output_of(
    geometry: &OnfiseqGeometry,
    targets: u8,
    kept: &OnfiseqTarget,
    cycle: Cycle,
) -> Option<Forbidden>
    requires kind { cycle.kind ≡ KindValue.Dout }
    requires limits { InLimits (parts_of geometry.now) }
    requires numbers { IsTarget kept.now }
    requires fits { TargetFits (parts_of geometry.now) (target_of kept.now) }
    ensures { result ≡ judge (parts_of geometry.now) targets (target_of kept.now).tail (target_of kept.now).luns (ItemValue.Cyc cycle) }
{
    if targets <= cycle.ce {
        return Some(Forbidden::NotThere);
    }
    judge_output(geometry, kept)
}

/// The first rule that an input breaks, by the record of its target.
#[inline(always)]
#[tactic(auto, unfolding(onfi_cycle::specs::Rules::breaks_not_there, onfi_cycle::specs::Rules::breaks_command_unknown))]
pub fn judge_input_of(
    geometry: &OnfiseqGeometry,
    targets: u8,
    kept: &OnfiseqTarget,
    cycle: Cycle,
) -> Option<Forbidden>
    requires kind { cycle.kind ≡ KindValue.Din }
    requires limits { InLimits (parts_of geometry.now) }
    requires numbers { IsTarget kept.now }
    requires fits { TargetFits (parts_of geometry.now) (target_of kept.now) }
    ensures { result ≡ judge (parts_of geometry.now) targets (target_of kept.now).tail (target_of kept.now).luns (ItemValue.Cyc cycle) }
{
    if targets <= cycle.ce {
        return Some(Forbidden::NotThere);
    }
    judge_input(geometry, kept)
}
