//! What an item does to a LUN, by the facts of its target's tail.
ghost use Rattle.std.specs.Prelude.{◌≡◌};
ghost use Rattle.onfi_cycle.specs.Effect.{names_lun, is_shared, acts_for_target, of_target, status_effect, reset_effect, other_effect, row_effect, cache_effect, plane_of_row, plane_effect, column_effect, lun_reset_effect, program_row_effect, confirm_effect, command_effect, address_effect, opening_address_effect, id_effect, ends_features, input_effect, cycle_effect, item_effect, IsSmallEffect};

use crate::data_phase::FEATURE_BYTES;
use crate::{Command, Effect, Item, Latch, Lun, PageAddress, TailFacts, TargetCycle};
use nand_geometry::Geometry;

/// The row names the LUN of this number.
pub(crate) fn names_lun(geometry: &Geometry, row: u32, lun: u8) -> bool
    ensures { result ≡ names_lun geometry.now row lun }
{
    geometry.parts_of(row).lun == u32::from(lun)
}

/// In the wider profile: the target has several LUNs, and commands that are of all of them.
pub fn is_shared(geometry: &Geometry) -> bool
    ensures { result ≡ is_shared geometry.now }
{
    let parts = geometry.parts();
    parts.optional.is_wide() && 1 < parts.luns
}

/// The LUN of this number does what is to be done for its whole target: the first one does.
pub fn acts_for_target(geometry: &Geometry, lun: u8) -> bool
    ensures { result ≡ acts_for_target geometry.now lun }
{
    !is_shared(geometry) || lun == 0
}

/// What is done for a whole target, at a LUN of it: the others stop driving.
fn of_target(geometry: &Geometry, lun: u8, effect: Effect) -> Effect
    requires { IsSmallEffect effect }
    ensures value { result ≡ of_target geometry.now lun effect }
    ensures small { IsSmallEffect result }
{
    if acts_for_target(geometry, lun) {
        effect
    } else {
        Effect::Deselected
    }
}

/// What a reset of a target does.
fn reset_effect(geometry: &Geometry, lun: u8) -> Effect
    ensures value { result ≡ reset_effect geometry.now lun }
    ensures small { IsSmallEffect result }
{
    if is_shared(geometry) {
        Effect::TargetResetStarted { first: lun == 0 }
    } else {
        Effect::ResetStarted
    }
}

/// What a Read Status does.
fn status_effect(geometry: &Geometry) -> Effect
    ensures value { result ≡ status_effect geometry.now }
    ensures small { IsSmallEffect result }
{
    if is_shared(geometry) {
        Effect::StatusOfSelected
    } else {
        Effect::StatusSelected
    }
}

/// What the closer of a row does to a LUN that its tail doesn't name.
fn other_effect(geometry: &Geometry, tail: &TailFacts, command: Command) -> Effect
    ensures value { result ≡ other_effect geometry.now tail.now command }
    ensures small { IsSmallEffect result }
{
    if command.closes_row() && tail.wants_command(command) && is_shared(geometry) {
        Effect::AnotherAddressed {
            reads: command.reads_row(),
        }
    } else {
        Effect::Unaffected
    }
}

/// What the closer of a row does to the LUN that its tail names.
fn confirm_effect(geometry: &Geometry, tail: &TailFacts, command: Command) -> Effect
    ensures value { result ≡ confirm_effect geometry.now tail.now command }
    ensures small { IsSmallEffect result }
{
    let at = PageAddress::of_row(geometry, tail.named_row());
    match command {
        Command::ReadConfirm => Effect::ReadStarted {
            page: at,
            column: tail.column,
        },
        Command::ReadPlane => Effect::ReadQueued { page: at },
        Command::CopybackRead => Effect::CopybackReadStarted {
            page: at,
            column: tail.column,
            planes: geometry.planes(),
        },
        Command::ReadCacheSequential => Effect::CacheReadContinued { to: Some(at) },
        Command::BlockEraseConfirm => Effect::EraseStarted {
            queued: false,
            row: at,
        },
        Command::BlockErasePlane => Effect::EraseStarted {
            queued: true,
            row: at,
        },
        Command::ProgramConfirm => Effect::ProgramStarted {
            queued: false,
            page: at,
        },
        Command::ProgramPlane => Effect::ProgramStarted {
            queued: true,
            page: at,
        },
        Command::ProgramCache => Effect::CacheProgramStarted { page: at },
        _ => Effect::Unaffected,
    }
}

/// What the closer of a row does to a LUN.
fn row_effect(geometry: &Geometry, tail: &TailFacts, command: Command, lun: u8) -> Effect
    ensures value { result ≡ row_effect geometry.now tail.now command lun }
    ensures small { IsSmallEffect result }
{
    if tail.wants_command(command) && names_lun(geometry, tail.named_row(), lun) {
        confirm_effect(geometry, tail, command)
    } else {
        other_effect(geometry, tail, command)
    }
}

/// What a 31h does that no tail wants: it is of the one driver.
fn cache_effect(latch_alone: Latch) -> Effect
    ensures value { result ≡ cache_effect latch_alone }
    ensures small { IsSmallEffect result }
{
    if latch_alone.is_off() {
        Effect::Unaffected
    } else {
        Effect::CacheReadContinued { to: None }
    }
}

/// The plane in which the page of a row lies.
fn plane_of_row(geometry: &Geometry, row: u32) -> u32
    ensures { result ≡ plane_of_row geometry.now row }
{
    PageAddress::of_row(geometry, row).block % geometry.planes()
}

/// What E0h does behind 06h: the LUN of its row gives the page that it holds in the plane of the row, and the others of its target stop
/// driving.
fn plane_effect(geometry: &Geometry, tail: &TailFacts, lun: u8) -> Effect
    ensures value { result ≡ plane_effect geometry.now tail.now lun }
    ensures small { IsSmallEffect result }
{
    if names_lun(geometry, tail.named_row(), lun) {
        Effect::PlaneSelected {
            plane: plane_of_row(geometry, tail.named_row()),
            planes: geometry.planes(),
            column: tail.column,
        }
    } else {
        Effect::Deselected
    }
}

/// What E0h does else: the one driver gives its register from another column on.
fn column_effect(tail: &TailFacts, latch_alone: Latch) -> Effect
    ensures value { result ≡ column_effect tail.now latch_alone }
    ensures small { IsSmallEffect result }
{
    if tail.wants_command(Command::ChangeReadColumnConfirm) && !latch_alone.is_off() {
        Effect::ReadColumnChanged {
            column: tail.column,
        }
    } else {
        Effect::Unaffected
    }
}

/// What a command does to a LUN of its target, after this tail. `latch_alone` is the LUN's latch if it is
/// the one driver of its target, and else `Off`.
fn command_effect(
    geometry: &Geometry,
    tail: &TailFacts,
    latch_alone: Latch,
    command: Command,
    lun: u8,
) -> Effect
    ensures value { result ≡ command_effect geometry.now tail.now latch_alone command lun }
    ensures small { IsSmallEffect result }
{
    let drives = !latch_alone.is_off();
    match command {
        Command::Read => Effect::DataOutputEnabled,
        Command::ReadStatus => status_effect(geometry),
        Command::ReadStatusEnhanced => Effect::StatusRowAwaited,
        Command::Reset | Command::SynchronousReset => reset_effect(geometry, lun),
        Command::ReadCacheSequential if !tail.wants_command(command) => cache_effect(latch_alone),
        Command::ReadCacheEnd if drives => Effect::CacheReadEnded,
        Command::ReadCacheEnd => Effect::Unaffected,
        Command::ChangeReadColumnConfirm if tail.selects_plane() => {
            plane_effect(geometry, tail, lun)
        }
        Command::ChangeReadColumnConfirm => column_effect(tail, latch_alone),
        _ => row_effect(geometry, tail, command, lun),
    }
}

/// What the third address of a Read Status Enhanced does to a LUN.
fn selection_effect(geometry: &Geometry, tail: &TailFacts, byte: u8, lun: u8) -> Effect
    ensures value { result ≡ address_effect geometry.now tail.now byte Command.ReadStatusEnhanced 2 lun }
    ensures small { IsSmallEffect result }
{
    if names_lun(geometry, tail.row_with(byte), lun) {
        Effect::SelectedForStatus
    } else {
        Effect::Deselected
    }
}

/// What the last row cycle of a Reset LUN does.
fn lun_reset_effect(geometry: &Geometry, is_named: bool) -> Effect
    ensures value { result ≡ lun_reset_effect geometry.now is_named }
    ensures small { IsSmallEffect result }
{
    if is_named {
        Effect::ResetStarted
    } else if is_shared(geometry) {
        Effect::AnotherAddressed { reads: false }
    } else {
        Effect::Unaffected
    }
}

/// What the last row cycle of a Page Program does.
fn program_row_effect(is_named: bool) -> Effect
    ensures value { result ≡ program_row_effect is_named }
    ensures small { IsSmallEffect result }
{
    if is_named {
        Effect::ProgramAddressed
    } else {
        Effect::Unaffected
    }
}

/// What the address of a Read ID does.
fn id_effect(byte: u8) -> Effect
    ensures value { result ≡ id_effect byte }
    ensures small { IsSmallEffect result }
{
    match byte {
        0x20 => Effect::IdRead,
        _ => Effect::IdentityRead {
            jedec: byte == 0x40,
        },
    }
}

/// What an address does to a LUN of its target, after this tail.
fn address_effect(geometry: &Geometry, tail: &TailFacts, byte: u8, lun: u8) -> Effect
    ensures value { result ≡ opening_address_effect geometry.now tail.now byte tail.now.opening lun }
    ensures small { IsSmallEffect result }
{
    let Some(opening) = tail.opening else {
        return Effect::Unaffected;
    };
    match opening.opener {
        Command::ReadStatusEnhanced if opening.addresses == 2 => {
            selection_effect(geometry, tail, byte, lun)
        }
        Command::ResetLun if opening.addresses == 2 => {
            lun_reset_effect(geometry, names_lun(geometry, tail.row_with(byte), lun))
        }
        Command::PageProgram if opening.addresses == 4 => {
            program_row_effect(names_lun(geometry, tail.row_with(byte), lun))
        }
        Command::ReadId if tail.wants_address(byte) => of_target(geometry, lun, id_effect(byte)),
        Command::ReadParameterPage if tail.wants_address(byte) => {
            of_target(geometry, lun, Effect::ParameterPageReadStarted)
        }
        Command::ReadUniqueId if tail.wants_address(byte) => {
            of_target(geometry, lun, Effect::UniqueIdReadStarted)
        }
        Command::GetFeatures if tail.wants_address(byte) => {
            of_target(geometry, lun, Effect::FeaturesReadStarted { address: byte })
        }
        _ => Effect::Unaffected,
    }
}

/// The next input is the last one of a Set Features.
pub(crate) fn ends_features(tail: &TailFacts) -> bool
    ensures { result ≡ ends_features tail.now }
{
    tail.phase.takes_features() && tail.inputs == FEATURE_BYTES - 1
}

/// What an input does: the last one of a Set Features starts it.
fn input_effect(geometry: &Geometry, tail: &TailFacts, lun: u8) -> Effect
    ensures value { result ≡ input_effect geometry.now tail.now lun }
    ensures small { IsSmallEffect result }
{
    if ends_features(tail) {
        let address = (tail.column % 256) as u8;
        of_target(geometry, lun, Effect::FeaturesSet { address })
    } else {
        Effect::Unaffected
    }
}

/// What a cycle does to a LUN of its target, after this tail. `latch_alone` is the LUN's latch if it is the
/// one driver of its target, and else `Off`.
pub fn cycle_effect(
    geometry: &Geometry,
    tail: &TailFacts,
    latch_alone: Latch,
    cycle: TargetCycle,
    lun: u8,
) -> Effect
    ensures value { result ≡ cycle_effect geometry.now tail.now latch_alone cycle lun }
    ensures small { IsSmallEffect result }
{
    match cycle {
        TargetCycle::CommandCycle(command) => command_effect(
            geometry,
            tail,
            latch_alone,
            command,
            lun,
        ),
        TargetCycle::AddressCycle(byte) => address_effect(geometry, tail, byte, lun),
        TargetCycle::InputCycle(_) => input_effect(geometry, tail, lun),
        TargetCycle::OutputCycle if latch_alone.is_data() => Effect::DataOutput,
        TargetCycle::OutputCycle => Effect::Unaffected,
    }
}

/// What an item does to a LUN, by the facts of the tail of that LUN's target. `latch_alone` is as of [`cycle_effect`].
pub fn item_effect(
    geometry: &Geometry,
    tail: &TailFacts,
    latch_alone: Latch,
    item: Item,
    lun: Lun,
) -> Effect
    ensures value { result ≡ item_effect geometry.now tail.now latch_alone item lun }
    ensures small { IsSmallEffect result }
{
    match item {
        Item::Cyc(cycle) if cycle.ce == lun.ce => cycle_effect(
            geometry,
            tail,
            latch_alone,
            TargetCycle::of(cycle.kind, cycle.byte),
            lun.lun,
        ),
        Item::Rdy {
            ce,
            lun: number,
            fail,
        } if (Lun { ce, lun: number }) == lun => Effect::BecameReady { fail },
        Item::Ard {
            ce,
            lun: number,
            fail,
        } if (Lun { ce, lun: number }) == lun => Effect::ArrayBecameReady { fail },
        _ => Effect::Unaffected,
    }
}
