//! How many readies are still to come, and which items bring more.
ghost use Rattle.std.specs.Prelude.{◌≡◌, ◌≤◌, ◌*◌, length};
ghost use Rattle.onfi_cycle.specs.Readies.{starts, starts_work, starts_later, awaits_start, due_at, due_of, ReadiesAreDue};

use crate::lun_facts::leaves_array_busy;
use crate::{Command, Item, LunFacts, RowQueue, TailFacts, TargetCycle};

// The command starts work, or its address or input does.
fn starts(command: Command) -> bool
    ensures { result ≡ starts command }
{
    matches!(
        command,
        Command::ReadConfirm
            | Command::ReadPlane
            | Command::CopybackRead
            | Command::BlockEraseConfirm
            | Command::BlockErasePlane
            | Command::ProgramConfirm
            | Command::ProgramPlane
            | Command::ProgramCache
            | Command::ReadParameterPage
            | Command::Reset
            | Command::ReadCacheSequential
            | Command::ReadCacheEnd
            | Command::ReadUniqueId
            | Command::GetFeatures
            | Command::SetFeatures
            | Command::ResetLun
            | Command::SynchronousReset
    )
}

/// The item may start work on a LUN, so that a ready of it may come. Of an opener whose work an address or an input starts the opener counts,
/// and not that one.
pub fn starts_work(item: Item) -> bool
    ensures { result ≡ starts_work item }
{
    match item {
        Item::Cyc(cycle) => match TargetCycle::of(cycle.kind, cycle.byte) {
            TargetCycle::CommandCycle(command) => starts(command),
            _ => false,
        },
        Item::Rdy { .. } | Item::Ard { .. } => false,
    }
}

// The opener's work is started by an address or an input.
fn starts_later(opener: Command) -> bool
    ensures { result ≡ starts_later opener }
{
    matches!(
        opener,
        Command::ReadParameterPage
            | Command::ReadUniqueId
            | Command::GetFeatures
            | Command::SetFeatures
            | Command::ResetLun
    )
}

// Work of the opener is still to be started by an address or an input.
fn awaits_start(tail: &TailFacts) -> bool
    ensures { result ≡ awaits_start tail.now }
{
    let opens = match tail.opening {
        None => false,
        Some(opening) => {
            starts_later(opening.opener) && opening.addresses < opening.opener.address_cycles()
        }
    };
    opens || tail.phase.takes_features()
}

// The readies still to come of a LUN.
fn due_at(tail: &TailFacts, lun: &LunFacts<RowQueue>) -> usize
    ensures value { result ≡ due_at tail.now lun.now }
    ensures most { result ≤ 4 }
{
    let of_cache = lun.busy && leaves_array_busy(lun.closer);
    usize::from(lun.busy)
        + (usize::from(lun.array_busy) + (usize::from(of_cache) + usize::from(awaits_start(tail))))
}

/// The readies still to come of the LUNs of a target.
pub(crate) fn due_of(tail: &TailFacts, luns: &[LunFacts<RowQueue>]) -> usize
    requires { length luns.now ≤ 4 }
    ensures value { result ≡ due_of tail.now luns.now }
    ensures most { result ≤ 4 * length luns.now }
{
    match luns {
        [] => 0,
        [first, rest @ ..] => due_at(tail, first) + due_of(tail, rest),
    }
}

/// A law: a cycle that starts no work brings no ready, a ready that comes is one of those that were to come, and an item
/// changes those of its target alone.
pub fn readies_are_due()
    ensures { ReadiesAreDue }
{}
