//! What a command or an address does to the LUNs of its target.
ghost use Rattle.std.specs.Prelude.{◌≡◌};
ghost use Rattle.nand_geometry.specs.Limits.{InLimits};
ghost use Rattle.onfi_cycle.specs.Effect.{confirm_effect, id_effect};
ghost use Rattle.bus_record.specs.Changing.{effect_of_status, effect_of_reset, effect_of_target, on_named, effect_of_closer, effect_of_cache_read, effect_of_plane, effect_of_column_confirm, effect_of_command, selection, reset_of_lun, program_row, effect_of_input, effect_of_identity, effect_of_address};
ghost use Rattle.target_record.specs.Geometry.{parts_of};
ghost use Rattle.target_record.specs.Record.{tail_of};

use nand_geometry::Geometry;
use onfi_cycle::{Command, Effect, FEATURE_BYTES, PageAddress};
use target_record::{
    OnfiseqGeometry, OnfiseqTarget, is_set, is_shared, opening_of, tail_of, wants_command,
};

/// What a cycle does to the LUNs of its target.
#[derive(Clone, Copy)]
pub(crate) enum TargetEffect {
    Nothing,
    /// The same to each.
    OnEach(Effect),
    /// To the one that alone drives the bus, if one does.
    OnDriver(Effect),
    /// To the one of this number, if it is there.
    OnOne {
        lun: u32,
        effect: Effect,
    },
    /// The one of this number, if it is there, shows its status, and the others nothing.
    Selection {
        lun: u32,
    },
    /// This to the one of this number, if it is there, and that to the others.
    Apart {
        lun: u32,
        effect: Effect,
        others: Effect,
    },
}

// What the closer of a row does to the LUN that it names.
fn confirm_effect(geometry: &Geometry, kept: &OnfiseqTarget, named: Command) -> Effect
    ensures { result ≡ confirm_effect geometry.now (tail_of kept.now) named }
{
    let page = PageAddress::of_row(geometry, tail_of(kept).named_row());
    match named {
        Command::ReadConfirm => Effect::ReadStarted {
            page,
            column: kept.column,
        },
        Command::ReadPlane => Effect::ReadQueued { page },
        Command::CopybackRead => Effect::CopybackReadStarted {
            page,
            column: kept.column,
            planes: geometry.planes(),
        },
        Command::ReadCacheSequential => Effect::CacheReadContinued { to: Some(page) },
        Command::BlockEraseConfirm => Effect::EraseStarted {
            queued: false,
            row: page,
        },
        Command::BlockErasePlane => Effect::EraseStarted {
            queued: true,
            row: page,
        },
        Command::ProgramConfirm => Effect::ProgramStarted {
            queued: false,
            page,
        },
        Command::ProgramPlane => Effect::ProgramStarted { queued: true, page },
        Command::ProgramCache => Effect::CacheProgramStarted { page },
        _ => Effect::Unaffected,
    }
}

// The work of a LUN, which is work of another for the others where they share their target.
fn on_named(geometry: &OnfiseqGeometry, lun: u32, effect: Effect, reads: bool) -> TargetEffect
    ensures { result ≡ on_named (parts_of geometry.now) lun effect reads }
{
    if is_shared(geometry) {
        TargetEffect::Apart {
            lun,
            effect,
            others: Effect::AnotherAddressed { reads },
        }
    } else {
        TargetEffect::OnOne { lun, effect }
    }
}

// What the closer of a row does.
#[inline(never)]
fn effect_of_closer(
    geometry: &OnfiseqGeometry,
    kept: &OnfiseqTarget,
    named: Command,
) -> TargetEffect
    requires { InLimits (parts_of geometry.now) }
    ensures { result ≡ effect_of_closer (parts_of geometry.now) (tail_of kept.now) named }
{
    if !wants_command(kept, named) {
        return TargetEffect::Nothing;
    }
    let known = geometry.known();
    let lun = known.parts_of(tail_of(kept).named_row()).lun;
    let effect = confirm_effect(&known, kept, named);
    on_named(geometry, lun, effect, named.reads_row())
}

// What FFh or FCh does.
fn effect_of_reset(geometry: &OnfiseqGeometry) -> TargetEffect
    ensures { result ≡ effect_of_reset (parts_of geometry.now) }
{
    if is_shared(geometry) {
        TargetEffect::Apart {
            lun: 0,
            effect: Effect::TargetResetStarted { first: true },
            others: Effect::TargetResetStarted { first: false },
        }
    } else {
        TargetEffect::OnEach(Effect::ResetStarted)
    }
}

// What 70h does.
fn effect_of_status(geometry: &OnfiseqGeometry) -> TargetEffect
    ensures { result ≡ effect_of_status (parts_of geometry.now) }
{
    if is_shared(geometry) {
        TargetEffect::OnEach(Effect::StatusOfSelected)
    } else {
        TargetEffect::OnEach(Effect::StatusSelected)
    }
}

// What is done for a whole target.
fn effect_of_target(geometry: &OnfiseqGeometry, effect: Effect) -> TargetEffect
    ensures { result ≡ effect_of_target (parts_of geometry.now) effect }
{
    if is_shared(geometry) {
        TargetEffect::Apart {
            lun: 0,
            effect,
            others: Effect::Deselected,
        }
    } else {
        TargetEffect::OnEach(effect)
    }
}

// What E0h does behind 06h.
fn effect_of_plane(geometry: &OnfiseqGeometry, kept: &OnfiseqTarget) -> TargetEffect
    requires { InLimits (parts_of geometry.now) }
    ensures { result ≡ effect_of_plane (parts_of geometry.now) (tail_of kept.now) }
{
    let known = geometry.known();
    let planes = known.planes();
    let row = tail_of(kept).named_row();
    TargetEffect::Apart {
        lun: known.parts_of(row).lun,
        effect: Effect::PlaneSelected {
            plane: PageAddress::of_row(&known, row).block % planes,
            planes,
            column: kept.column,
        },
        others: Effect::Deselected,
    }
}

// What E0h does.
fn effect_of_column_confirm(geometry: &OnfiseqGeometry, kept: &OnfiseqTarget) -> TargetEffect
    requires { InLimits (parts_of geometry.now) }
    ensures { result ≡ effect_of_column_confirm (parts_of geometry.now) (tail_of kept.now) }
{
    if tail_of(kept).selects_plane() {
        effect_of_plane(geometry, kept)
    } else if wants_command(kept, Command::ChangeReadColumnConfirm) {
        TargetEffect::OnDriver(Effect::ReadColumnChanged {
            column: kept.column,
        })
    } else {
        TargetEffect::Nothing
    }
}

// What 31h does: it works on the row of the tail where that wants it, and else on the one driver.
fn effect_of_cache_read(geometry: &OnfiseqGeometry, kept: &OnfiseqTarget) -> TargetEffect
    requires { InLimits (parts_of geometry.now) }
    ensures { result ≡ effect_of_cache_read (parts_of geometry.now) (tail_of kept.now) }
{
    if wants_command(kept, Command::ReadCacheSequential) {
        effect_of_closer(geometry, kept, Command::ReadCacheSequential)
    } else {
        TargetEffect::OnDriver(Effect::CacheReadContinued { to: None })
    }
}

/// What a command does.
#[inline(always)]
pub(crate) fn effect_of_command(
    geometry: &OnfiseqGeometry,
    kept: &OnfiseqTarget,
    named: Command,
) -> TargetEffect
    requires { InLimits (parts_of geometry.now) }
    ensures { result ≡ effect_of_command (parts_of geometry.now) (tail_of kept.now) named }
{
    match named {
        Command::Read => TargetEffect::OnEach(Effect::DataOutputEnabled),
        Command::ReadStatus => effect_of_status(geometry),
        Command::ReadStatusEnhanced => TargetEffect::OnEach(Effect::StatusRowAwaited),
        Command::Reset | Command::SynchronousReset => effect_of_reset(geometry),
        Command::ReadCacheSequential => effect_of_cache_read(geometry, kept),
        Command::ReadCacheEnd => TargetEffect::OnDriver(Effect::CacheReadEnded),
        Command::ChangeReadColumnConfirm => effect_of_column_confirm(geometry, kept),
        Command::ReadConfirm
        | Command::ReadPlane
        | Command::CopybackRead
        | Command::BlockEraseConfirm
        | Command::BlockErasePlane
        | Command::ProgramConfirm
        | Command::ProgramPlane
        | Command::ProgramCache => effect_of_closer(geometry, kept, named),
        Command::ChangeReadColumn
        | Command::ChangeReadColumnEnhanced
        | Command::BlockErase
        | Command::PageProgram
        | Command::ChangeWriteColumn
        | Command::ReadId
        | Command::ReadParameterPage
        | Command::ReadUniqueId
        | Command::GetFeatures
        | Command::SetFeatures
        | Command::ResetLun
        | Command::Unknown => TargetEffect::Nothing,
    }
}

// What the last address of a 78h does.
#[inline(never)]
fn selection(geometry: &OnfiseqGeometry, kept: &OnfiseqTarget, byte: u8) -> TargetEffect
    requires { InLimits (parts_of geometry.now) }
    ensures { result ≡ selection (parts_of geometry.now) (tail_of kept.now) byte }
{
    let row = tail_of(kept).row_with(byte);
    TargetEffect::Selection {
        lun: geometry.known().parts_of(row).lun,
    }
}

// What the last address of a FAh does.
#[inline(never)]
fn reset_of_lun(geometry: &OnfiseqGeometry, kept: &OnfiseqTarget, byte: u8) -> TargetEffect
    requires { InLimits (parts_of geometry.now) }
    ensures { result ≡ reset_of_lun (parts_of geometry.now) (tail_of kept.now) byte }
{
    let row = tail_of(kept).row_with(byte);
    let lun = geometry.known().parts_of(row).lun;
    on_named(geometry, lun, Effect::ResetStarted, false)
}

// What the last address of an 80h does.
#[inline(never)]
fn program_row(geometry: &OnfiseqGeometry, kept: &OnfiseqTarget, byte: u8) -> TargetEffect
    requires { InLimits (parts_of geometry.now) }
    ensures { result ≡ program_row (parts_of geometry.now) (tail_of kept.now) byte }
{
    let row = tail_of(kept).row_with(byte);
    TargetEffect::OnOne {
        lun: geometry.known().parts_of(row).lun,
        effect: Effect::ProgramAddressed,
    }
}

// What the address of a 90h does.
fn id_effect(byte: u8) -> Effect
    ensures { result ≡ id_effect byte }
{
    match byte {
        0x20 => Effect::IdRead,
        _ => Effect::IdentityRead {
            jedec: byte == 0x40,
        },
    }
}

/// What an input does: the last one of a Set Features starts it.
#[inline(always)]
pub(crate) fn effect_of_input(geometry: &OnfiseqGeometry, kept: &OnfiseqTarget) -> TargetEffect
    ensures { result ≡ effect_of_input (parts_of geometry.now) (tail_of kept.now) }
{
    let tail = tail_of(kept);
    if tail.phase.takes_features() && tail.inputs == FEATURE_BYTES - 1 {
        let address = (tail.column % 256) as u8;
        effect_of_target(geometry, Effect::FeaturesSet { address })
    } else {
        TargetEffect::Nothing
    }
}

// What the address of what stands beside the array does, if it is wanted.
fn effect_of_identity(
    geometry: &OnfiseqGeometry,
    kept: &OnfiseqTarget,
    byte: u8,
    effect: Effect,
) -> TargetEffect
    ensures { result ≡ effect_of_identity (parts_of geometry.now) (tail_of kept.now) byte effect }
{
    if tail_of(kept).wants_address(byte) {
        effect_of_target(geometry, effect)
    } else {
        TargetEffect::Nothing
    }
}

/// What an address does.
#[inline(always)]
pub(crate) fn effect_of_address(
    geometry: &OnfiseqGeometry,
    kept: &OnfiseqTarget,
    byte: u8,
) -> TargetEffect
    requires { InLimits (parts_of geometry.now) }
    ensures { result ≡ effect_of_address (parts_of geometry.now) (tail_of kept.now) byte }
{
    let Some(opening) = opening_of(is_set(kept.is_open), kept.opener, kept.addresses) else {
        return TargetEffect::Nothing;
    };
    match opening.opener {
        Command::ReadStatusEnhanced if opening.addresses == 2 => selection(geometry, kept, byte),
        Command::ResetLun if opening.addresses == 2 => reset_of_lun(geometry, kept, byte),
        Command::PageProgram if opening.addresses == 4 => program_row(geometry, kept, byte),
        Command::ReadId => effect_of_identity(geometry, kept, byte, id_effect(byte)),
        Command::ReadParameterPage => {
            effect_of_identity(geometry, kept, byte, Effect::ParameterPageReadStarted)
        }
        Command::ReadUniqueId => {
            effect_of_identity(geometry, kept, byte, Effect::UniqueIdReadStarted)
        }
        Command::GetFeatures => effect_of_identity(
            geometry,
            kept,
            byte,
            Effect::FeaturesReadStarted { address: byte },
        ),
        _ => TargetEffect::Nothing,
    }
}
