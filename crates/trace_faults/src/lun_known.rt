//! What a recording that began in the middle has shown of a LUN.
ghost use Rattle.std.specs.Prelude.{◌≡◌};
ghost use Rattle.trace_faults.specs.Middle.{has_begun, is_all, is_reset, begins_anew, is_driving, holds_page, once_begun, first_begun, learned_lun};

use onfi_cycle::{Command, Item, LunState, Register, TargetCycle};

/// What a recording that began in the middle has shown of a LUN.
#[derive(Clone, Copy, PartialEq, Eq)]
pub enum LunKnown {
    /// It hasn't begun work, or none that tells what is queued.
    Nothing,
    /// It has read a page, so nothing that nobody saw is queued: known is which pages it holds once it begins work again.
    Queue,
    /// It has begun work: what it holds and has begun is known, and whether it is busy.
    Work,
    /// And whether it drives the bus.
    All,
}

/// The item is the command of a reset.
pub(crate) fn is_reset(item: Item) -> bool
    ensures { result ≡ is_reset item }
{
    let Item::Cyc(cycle) = item else {
        return false;
    };
    matches!(
        TargetCycle::of(cycle.kind, cycle.byte),
        TargetCycle::CommandCycle(Command::Reset)
    )
}

// Whether a LUN has begun work between these looks at it, other than to go on with a cache read or to end one.
fn begins_anew(before: Option<LunState>, after: Option<LunState>) -> bool
    ensures { result ≡ begins_anew before after }
{
    match (before, after) {
        (Some(before), Some(after)) => {
            !before.busy && (after.busy && !(before.caching || after.caching))
        }
        (None, _) | (Some(_), None) => false,
    }
}

// Whether a LUN is there and drives the bus.
fn is_driving(lun: Option<LunState>) -> bool
    ensures { result ≡ is_driving lun }
{
    match lun {
        None => false,
        Some(lun) => !lun.latch.is_off(),
    }
}

// Whether a LUN is there and its register holds a page.
fn holds_page(lun: Option<LunState>) -> bool
    ensures { result ≡ holds_page lun }
{
    match lun {
        None => false,
        Some(lun) => match lun.register {
            Register::Page(_) => true,
            Register::Empty
            | Register::ParameterPage
            | Register::Identifier
            | Register::Identity
            | Register::JedecIdentity
            | Register::UniqueId
            | Register::Features(_) => false,
        },
    }
}

// What is known of a LUN that has begun work, where it is known whether it drives the bus or isn't.
fn once_begun(drives: bool) -> LunKnown
    ensures { result ≡ once_begun drives }
{
    if drives {
        LunKnown::All
    } else {
        LunKnown::Work
    }
}

// What the first work of a LUN tells of it, where its chip reads several planes or doesn't.
fn first_begun(planes: bool, resets: bool, pages: bool, drives: bool) -> LunKnown
    ensures { result ≡ first_begun planes resets pages drives }
{
    if planes && !resets {
        if pages {
            LunKnown::Queue
        } else {
            LunKnown::Nothing
        }
    } else {
        once_begun(drives)
    }
}

impl LunKnown {
    /// It has begun work.
    pub(crate) fn has_begun(self) -> bool
        ensures { result ≡ has_begun self }
    {
        match self {
            LunKnown::Nothing | LunKnown::Queue => false,
            LunKnown::Work | LunKnown::All => true,
        }
    }

    /// It has begun work, and whether it drives the bus is known.
    pub(crate) fn is_all(self) -> bool
        ensures { result ≡ is_all self }
    {
        match self {
            LunKnown::Nothing | LunKnown::Queue | LunKnown::Work => false,
            LunKnown::All => true,
        }
    }

    /// What is known after an item, with a look at the LUN before it and one after it, where its chip reads several planes or doesn't.
    pub(crate) fn learned(
        self,
        planes: bool,
        item: Item,
        before: Option<LunState>,
        after: Option<LunState>,
    ) -> LunKnown
        ensures { result ≡ learned_lun planes item before after self }
    {
        let begins = begins_anew(before, after);
        let resets = is_reset(item);
        let drives = is_driving(after) || begins && resets;
        match self {
            LunKnown::Nothing if begins => first_begun(planes, resets, holds_page(after), drives),
            LunKnown::Nothing => LunKnown::Nothing,
            LunKnown::Queue if begins => once_begun(drives),
            LunKnown::Queue => LunKnown::Queue,
            LunKnown::Work => once_begun(drives),
            LunKnown::All => LunKnown::All,
        }
    }
}
