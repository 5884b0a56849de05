//! What an item does to a LUN, and what that leaves of each fact of the LUN.
ghost use Rattle.std.specs.Prelude.{◌≡◌, ◌+◌, ◌^◌, ◌<◌, ◌≤◌, ◌⊎◌};
ghost use Rattle.onfi_cycle.specs.Effect.{IsSmallEffect, HasPlanes};
ghost use Rattle.onfi_cycle.specs.Lun.{latch_after, selected_after, overlapped_after, busy_after, closer_after, array_busy_after, array_page_after, register_after, read_column_after};

use crate::held::{has_reads, page_in_plane};
use crate::lun_facts::{keeps_array_busy, leaves_array_busy};
use crate::{Command, Failures, Latch, PageAddress, Queued, ReadColumn, Register};

/// What an item does to a LUN.
#[derive(Clone, Copy, Debug, PartialEq, Eq)]
pub enum Effect {
    /// Nothing.
    Unaffected,
    /// 00h: if it shows status, it shows data again.
    DataOutputEnabled,
    /// 70h: it shows its status.
    StatusSelected,
    /// 78h has come, its row not yet.
    StatusRowAwaited,
    /// The row of a 78h names it: it shows its status.
    SelectedForStatus,
    /// The row of a 78h, or of a 06h, names another LUN: it stops driving.
    Deselected,
    /// 30h: it reads a page, and gives it from this column on.
    ReadStarted {
        page: PageAddress,
        column: u32,
    },
    /// 32h: it queues the read of a page.
    ReadQueued {
        page: PageAddress,
    },
    /// 35h: it reads a page for a copyback, and gives it from this column on; it has so many planes.
    CopybackReadStarted {
        page: PageAddress,
        column: u32,
        planes: u32,
    },
    /// The last row cycle of 80h: its plane registers are cleared.
    ProgramAddressed,
    /// D0h, or D1h if queued.
    EraseStarted {
        queued: bool,
        row: PageAddress,
    },
    /// 10h, or 11h if queued.
    ProgramStarted {
        queued: bool,
        page: PageAddress,
    },
    /// 15h: it programs a page, and its array goes on with that behind its ready.
    CacheProgramStarted {
        page: PageAddress,
    },
    /// The address 20h of 90h: its register is the identifier.
    IdRead,
    /// The address 00h of 90h, or 40h for what JEDEC says: its register is that.
    IdentityRead {
        jedec: bool,
    },
    /// The address of EDh: it reads its unique identifier.
    UniqueIdReadStarted,
    /// The address of EEh: it reads this feature.
    FeaturesReadStarted {
        address: u8,
    },
    /// The fourth byte of EFh: it sets this feature.
    FeaturesSet {
        address: u8,
    },
    /// The address of ECh: it reads its parameter page.
    ParameterPageReadStarted,
    /// 31h: it gives the page that its array has read, and its array reads the page of the row before, or the next one.
    CacheReadContinued {
        to: Option<PageAddress>,
    },
    /// 3Fh: it gives the page that its array has read.
    CacheReadEnded,
    /// E0h: it gives its register from this column on.
    ReadColumnChanged {
        column: u32,
    },
    /// E0h behind the row of a 06h names it: it shows data, and gives the page that it holds in this one of so many planes, from this column on.
    PlaneSelected {
        plane: u32,
        planes: u32,
        column: u32,
    },
    /// It gives a byte of its register.
    DataOutput,
    /// FFh or FCh, or FAh for this LUN.
    ResetStarted,
    /// FFh or FCh on a target with several LUNs, of which it is the first, or not.
    TargetResetStarted {
        first: bool,
    },
    /// 70h on a target with several LUNs: it shows its status if it is the selected one, and else stops driving.
    StatusOfSelected,
    /// A closer of a row, or FAh, gives work to another LUN of its target; 30h reads there.
    AnotherAddressed {
        reads: bool,
    },
    /// It becomes ready, with failures or without.
    BecameReady {
        fail: Failures,
    },
    /// Its array becomes ready, with failure or without.
    ArrayBecameReady {
        fail: bool,
    },
}

impl Effect {
    /// What an effect leaves of the latch of a LUN that is selected, and that works, or not.
    pub fn latch_after(self, selected: bool, works: bool, before: Latch) -> Latch
        ensures { result ≡ latch_after self selected works before }
    {
        match self {
            Effect::DataOutputEnabled => match before {
                Latch::Off => Latch::Off,
                _ => Latch::Data,
            },
            Effect::StatusSelected | Effect::SelectedForStatus => Latch::Status,
            Effect::StatusOfSelected if selected => Latch::Status,
            Effect::Deselected
            | Effect::ResetStarted
            | Effect::TargetResetStarted { .. }
            | Effect::StatusOfSelected => Latch::Off,
            Effect::AnotherAddressed { reads: true } if !works => Latch::Off,
            Effect::PlaneSelected { .. }
            | Effect::ReadStarted { .. }
            | Effect::ReadQueued { .. }
            | Effect::CopybackReadStarted { .. }
            | Effect::IdRead
            | Effect::IdentityRead { .. }
            | Effect::ParameterPageReadStarted
            | Effect::UniqueIdReadStarted
            | Effect::FeaturesReadStarted { .. }
            | Effect::CacheReadContinued { .. }
            | Effect::CacheReadEnded => Latch::Data,
            _ => before,
        }
    }

    /// Whether the LUN is the selected one of its target after an effect.
    pub fn selected_after(self, before: bool) -> bool
        ensures { result ≡ selected_after self before }
    {
        match self {
            Effect::TargetResetStarted { first } => first,
            Effect::SelectedForStatus
            | Effect::PlaneSelected { .. }
            | Effect::ReadStarted { .. }
            | Effect::ReadQueued { .. }
            | Effect::CopybackReadStarted { .. }
            | Effect::CacheReadContinued { to: Some(_) }
            | Effect::EraseStarted { .. }
            | Effect::ProgramStarted { .. }
            | Effect::CacheProgramStarted { .. }
            | Effect::IdRead
            | Effect::IdentityRead { .. }
            | Effect::ParameterPageReadStarted
            | Effect::UniqueIdReadStarted
            | Effect::FeaturesReadStarted { .. }
            | Effect::FeaturesSet { .. }
            | Effect::ResetStarted => true,
            Effect::Deselected | Effect::AnotherAddressed { .. } => false,
            _ => before,
        }
    }

    /// Whether another LUN was given work while this one worked, after an effect on a LUN that works, or not.
    pub fn overlapped_after(self, works: bool, before: bool) -> bool
        ensures { result ≡ overlapped_after self works before }
    {
        match self {
            Effect::AnotherAddressed { .. } => before || works,
            Effect::SelectedForStatus
            | Effect::Deselected
            | Effect::PlaneSelected { .. }
            | Effect::IdRead
            | Effect::IdentityRead { .. }
            | Effect::ParameterPageReadStarted
            | Effect::UniqueIdReadStarted
            | Effect::FeaturesReadStarted { .. }
            | Effect::FeaturesSet { .. }
            | Effect::TargetResetStarted { .. } => false,
            _ => before,
        }
    }

    /// Whether the LUN is busy after an effect.
    pub fn busy_after(self, before: bool) -> bool
        ensures { result ≡ busy_after self before }
    {
        match self {
            Effect::ReadStarted { .. }
            | Effect::ReadQueued { .. }
            | Effect::CopybackReadStarted { .. }
            | Effect::EraseStarted { .. }
            | Effect::ProgramStarted { .. }
            | Effect::CacheProgramStarted { .. }
            | Effect::ParameterPageReadStarted
            | Effect::UniqueIdReadStarted
            | Effect::FeaturesReadStarted { .. }
            | Effect::FeaturesSet { .. }
            | Effect::CacheReadContinued { .. }
            | Effect::CacheReadEnded
            | Effect::ResetStarted
            | Effect::TargetResetStarted { .. } => true,
            Effect::BecameReady { .. } => false,
            _ => before,
        }
    }

    /// The last closer after an effect.
    pub fn closer_after(self, before: Option<Command>) -> Option<Command>
        ensures { result ≡ closer_after self before }
    {
        match self {
            Effect::ReadStarted { .. } => Some(Command::ReadConfirm),
            Effect::ReadQueued { .. } => Some(Command::ReadPlane),
            Effect::CopybackReadStarted { .. } => Some(Command::CopybackRead),
            Effect::EraseStarted { queued: true, .. } => Some(Command::BlockErasePlane),
            Effect::EraseStarted { queued: false, .. } => Some(Command::BlockEraseConfirm),
            Effect::ProgramStarted { queued: true, .. } => Some(Command::ProgramPlane),
            Effect::ProgramStarted { queued: false, .. } => Some(Command::ProgramConfirm),
            Effect::CacheProgramStarted { .. } => Some(Command::ProgramCache),
            Effect::IdRead | Effect::IdentityRead { .. } => Some(Command::ReadId),
            Effect::ParameterPageReadStarted => Some(Command::ReadParameterPage),
            Effect::UniqueIdReadStarted => Some(Command::ReadUniqueId),
            Effect::FeaturesReadStarted { .. } => Some(Command::GetFeatures),
            Effect::FeaturesSet { .. } => Some(Command::SetFeatures),
            Effect::CacheReadContinued { .. } => Some(Command::ReadCacheSequential),
            Effect::CacheReadEnded => Some(Command::ReadCacheEnd),
            Effect::ResetStarted | Effect::TargetResetStarted { .. } => Some(Command::Reset),
            _ => before,
        }
    }

    /// Whether the array is busy after an effect on a LUN that was busy, or not, and whose last closer was this one.
    #[inline(always)]
    pub fn array_busy_after(self, busy: bool, last: Option<Command>, before: bool) -> bool
        ensures { result ≡ array_busy_after self busy last before }
    {
        match self {
            Effect::BecameReady { .. } => before || busy && leaves_array_busy(last),
            Effect::ProgramStarted { queued: true, .. } => keeps_array_busy(last) && before,
            Effect::ArrayBecameReady { .. }
            | Effect::ReadStarted { .. }
            | Effect::ReadQueued { .. }
            | Effect::CopybackReadStarted { .. }
            | Effect::EraseStarted { .. }
            | Effect::ProgramStarted { queued: false, .. }
            | Effect::CacheProgramStarted { .. }
            | Effect::IdRead
            | Effect::IdentityRead { .. }
            | Effect::ParameterPageReadStarted
            | Effect::UniqueIdReadStarted
            | Effect::FeaturesReadStarted { .. }
            | Effect::FeaturesSet { .. }
            | Effect::CacheReadContinued { .. }
            | Effect::CacheReadEnded
            | Effect::ResetStarted
            | Effect::TargetResetStarted { .. } => false,
            _ => before,
        }
    }

    /// The page that the array was last told to read, after an effect.
    #[inline(always)]
    pub fn array_page_after(self, before: PageAddress) -> PageAddress
        requires { before.page < 2 ^ 63 + 2 ^ 32 }
        ensures value { result ≡ array_page_after self before }
        ensures small { IsSmallEffect self → result.page ≤ 2 ^ 32 ⊎ result.page ≤ before.page + 1 }
    {
        match self {
            Effect::ReadStarted { page, .. }
            | Effect::CopybackReadStarted { page, .. }
            | Effect::CacheReadContinued { to: Some(page) } => page,
            Effect::CacheReadContinued { to: None } => PageAddress {
                block: before.block,
                page: before.page + 1,
            },
            _ => before,
        }
    }

    /// What the register holds after an effect, `array_page` being the page that the array was told to read before it, `queue` the rows that
    /// were queued and `held` the pages that the plane registers held.
    #[inline(always)]
    pub fn register_after(
        self,
        array_page: PageAddress,
        queue: &[Queued],
        held: &[PageAddress],
        before: Register,
    ) -> Register
        requires { HasPlanes self }
        ensures { result ≡ register_after self array_page queue.now held.now before }
    {
        match self {
            Effect::ReadStarted { page, .. } | Effect::CopybackReadStarted { page, .. }
                if !has_reads(queue) => Register::Page(page),
            Effect::PlaneSelected { plane, planes, .. } => match page_in_plane(
                planes, plane, held,
            ) {
                None => Register::Empty,
                Some(page) => Register::Page(page),
            },
            Effect::ReadStarted { .. }
            | Effect::ReadQueued { .. }
            | Effect::CopybackReadStarted { .. }
            | Effect::EraseStarted { .. }
            | Effect::ProgramStarted { .. }
            | Effect::CacheProgramStarted { .. }
            | Effect::FeaturesSet { .. }
            | Effect::ResetStarted
            | Effect::TargetResetStarted { .. } => Register::Empty,
            Effect::IdRead => Register::Identifier,
            Effect::IdentityRead { jedec: true } => Register::JedecIdentity,
            Effect::IdentityRead { jedec: false } => Register::Identity,
            Effect::ParameterPageReadStarted => Register::ParameterPage,
            Effect::UniqueIdReadStarted => Register::UniqueId,
            Effect::FeaturesReadStarted { address } => Register::Features(address),
            Effect::CacheReadContinued { .. } | Effect::CacheReadEnded => Register::Page(
                array_page,
            ),
            _ => before,
        }
    }

    /// The read column after an effect.
    #[inline(always)]
    pub fn read_column_after(self, before: ReadColumn) -> ReadColumn
        requires { before.outputs < 2 ^ 63 }
        ensures value { result ≡ read_column_after self before }
        ensures small { result.outputs ≤ before.outputs + 1 }
    {
        match self {
            Effect::ReadStarted { column, .. }
            | Effect::CopybackReadStarted { column, .. }
            | Effect::ReadColumnChanged { column }
            | Effect::PlaneSelected { column, .. } => { ReadColumn::given(column) }
            Effect::IdRead
            | Effect::IdentityRead { .. }
            | Effect::ParameterPageReadStarted
            | Effect::UniqueIdReadStarted
            | Effect::FeaturesReadStarted { .. }
            | Effect::CacheReadContinued { .. }
            | Effect::CacheReadEnded => ReadColumn::given(0),
            Effect::DataOutput => ReadColumn {
                outputs: before.outputs + 1,
                ..before
            },
            Effect::StatusSelected | Effect::StatusOfSelected | Effect::StatusRowAwaited => {
                ReadColumn {
                    lost: before.lost || 0 < before.outputs,
                    ..before
                }
            }
            _ => before,
        }
    }
}
