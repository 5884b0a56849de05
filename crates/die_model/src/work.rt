//! What an array is told to do.
ghost use Rattle.std.specs.Prelude.{◌≡◌, ◌<◌, false, length};
ghost use Rattle.die_model.specs.Die.{effect_of, work_begun, queue_with, closes, is_reset, page_to_keep};

use onfi_cycle::{Effect, PageAddress, Queued, RowQueue};

/// What an array is told to do.
#[derive(Clone, Copy, Debug, PartialEq, Eq)]
pub enum Work {
    /// A page is read into the register, and those of the queue with it.
    Read(PageAddress),
    /// A page is read for a copyback, and those of the queue with it, by a LUN of so many planes.
    Copyback { page: PageAddress, planes: u32 },
    /// The register of its plane goes into a page, and the queue with it.
    Program(PageAddress),
    /// The same, and the array goes on with it behind the ready.
    CacheProgram(PageAddress),
    /// The block of this row is erased, and the queue goes with it.
    Erase(PageAddress),
    /// A row waits for the last one of its queue.
    Queue(Queued),
    /// The identifier is put into the register; that ends at once.
    Identifier,
    /// The parameter page is read into the register.
    Parameters,
    /// The manufacturer and the device are put into the register, or what JEDEC says; that ends at once.
    Identity { jedec: bool },
    /// The unique identifier is read into the register.
    UniqueId,
    /// The feature of this address is read into the register.
    Features(u8),
    /// The feature of this address is set.
    SetFeatures(u8),
    /// All work stops, and nothing stays queued.
    Reset,
    /// The page that the array has read is put into the register, and the array reads this page, or the next one.
    Cache(Option<PageAddress>),
    /// The page that the array has read is put into the register.
    CacheEnd,
}

impl Work {
    /// The work that an effect begins, None where it begins none.
    pub(crate) fn begun_by(effect: Effect) -> Option<Work>
        ensures { result ≡ work_begun effect }
    {
        match effect {
            Effect::ReadStarted { page, .. } => Some(Work::Read(page)),
            Effect::ReadQueued { page } => Some(Work::Queue(Queued::Read(page))),
            Effect::CopybackReadStarted { page, planes, .. } => Some(Work::Copyback {
                page,
                planes,
            }),
            Effect::ProgramStarted {
                queued: false,
                page,
            } => Some(Work::Program(page)),
            Effect::ProgramStarted { queued: true, page } => {
                Some(Work::Queue(Queued::Program(page)))
            }
            Effect::CacheProgramStarted { page } => Some(Work::CacheProgram(page)),
            Effect::EraseStarted { queued: false, row } => Some(Work::Erase(row)),
            Effect::EraseStarted { queued: true, row } => Some(Work::Queue(Queued::Erase(row))),
            Effect::IdRead => Some(Work::Identifier),
            Effect::ParameterPageReadStarted => Some(Work::Parameters),
            Effect::IdentityRead { jedec } => Some(Work::Identity { jedec }),
            Effect::UniqueIdReadStarted => Some(Work::UniqueId),
            Effect::FeaturesReadStarted { address } => Some(Work::Features(address)),
            Effect::FeaturesSet { address } => Some(Work::SetFeatures(address)),
            Effect::ResetStarted | Effect::TargetResetStarted { .. } => Some(Work::Reset),
            Effect::CacheReadContinued { to } => Some(Work::Cache(to)),
            Effect::CacheReadEnded => Some(Work::CacheEnd),
            _ => None,
        }
    }

    /// The effect that it stands for.
    pub(crate) fn effect(self) -> Effect
        ensures { result ≡ effect_of self }
    {
        match self {
            Work::Read(page) => Effect::ReadStarted { page, column: 0 },
            Work::Copyback { page, planes } => Effect::CopybackReadStarted {
                page,
                column: 0,
                planes,
            },
            Work::Program(page) => Effect::ProgramStarted {
                queued: false,
                page,
            },
            Work::CacheProgram(page) => Effect::CacheProgramStarted { page },
            Work::Erase(row) => Effect::EraseStarted { queued: false, row },
            Work::Queue(Queued::Erase(row)) => Effect::EraseStarted { queued: true, row },
            Work::Queue(Queued::Program(page)) => Effect::ProgramStarted { queued: true, page },
            Work::Queue(Queued::Read(page)) => Effect::ReadQueued { page },
            Work::Identifier => Effect::IdRead,
            Work::Parameters => Effect::ParameterPageReadStarted,
            Work::Identity { jedec } => Effect::IdentityRead { jedec },
            Work::UniqueId => Effect::UniqueIdReadStarted,
            Work::Features(address) => Effect::FeaturesReadStarted { address },
            Work::SetFeatures(address) => Effect::FeaturesSet { address },
            Work::Reset => Effect::ResetStarted,
            Work::Cache(to) => Effect::CacheReadContinued { to },
            Work::CacheEnd => Effect::CacheReadEnded,
        }
    }

    /// The page that it will program.
    pub(crate) fn page_to_keep(self) -> Option<PageAddress>
        ensures { result ≡ page_to_keep self }
    {
        match self {
            Work::Program(at) | Work::CacheProgram(at) | Work::Queue(Queued::Program(at)) => {
                Some(at)
            }
            _ => None,
        }
    }

    /// Joins the rows that wait, and tells whether it closes them.
    pub(crate) fn join(self, queue: &mut RowQueue) -> bool
        requires { is_reset self ≡ false → length queue.old.items < 16 }
        ensures queue { queue.new.items ≡ queue_with self queue.old.items }
        ensures closed { result ≡ closes self }
    {
        match self {
            Work::Program(at) | Work::CacheProgram(at) => {
                queue.insert(0, Queued::Program(at));
                true
            }
            Work::Erase(at) => {
                queue.insert(0, Queued::Erase(at));
                true
            }
            Work::Queue(row) => {
                queue.insert(0, row);
                false
            }
            Work::Read(_) | Work::Copyback { .. } | Work::Reset => {
                queue.clear();
                false
            }
            _ => false,
        }
    }
}
