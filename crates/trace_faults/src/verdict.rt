//! What is said of an item of a trace whose recording began in the middle.
ghost use Rattle.std.specs.Prelude.{◌≡◌};
ghost use Rattle.trace_faults.specs.Middle.{hangs_on_before, of_cycle, of_ready, is_granted, with_ready_taken};

use crate::unshown::UnshownReady;
use onfi_cycle::Forbidden;

/// What is said of an item of a trace whose recording began in the middle.
#[derive(Clone, Copy, Debug, PartialEq, Eq)]
pub enum Verdict {
    /// It is permitted after what was seen.
    Permitted,
    /// It isn't judged: a cycle whose opener wasn't seen, or was taken for granted.
    PassedOver,
    /// It is permitted unless what wasn't seen is against it: after what was seen it would break this rule.
    Granted(Forbidden),
    /// It breaks this rule, whatever was before.
    Broken(Forbidden),
    /// It is permitted, with a ready before it that nothing showed.
    NotShown(UnshownReady),
}

// Whether a rule may be kept for what was before: it hangs on what a LUN drives, holds or had begun.
fn hangs_on_before(rule: Forbidden) -> bool
    ensures { result ≡ hangs_on_before rule }
{
    match rule {
        Forbidden::NoColumnToChange
        | Forbidden::NoSoleDriver
        | Forbidden::DataNotReady
        | Forbidden::ColumnOutside
        | Forbidden::CacheReadMisplaced
        | Forbidden::CacheProgramMisplaced
        | Forbidden::CopybackMisplaced
        | Forbidden::PlaneNotHeld => true,
        Forbidden::NotThere
        | Forbidden::CommandUnknown
        | Forbidden::SequenceOpen
        | Forbidden::SeveralLuns
        | Forbidden::CommandMisplaced
        | Forbidden::AddressMisplaced
        | Forbidden::RowOutside
        | Forbidden::LunBusy
        | Forbidden::QueueClash
        | Forbidden::InputMisplaced => false,
    }
}

impl Verdict {
    /// What is said of a cycle that breaks this rule first, if it breaks one, where a LUN of its target is in doubt or none is.
    pub(crate) fn of_cycle(doubted: bool, rule: Option<Forbidden>) -> Verdict
        ensures { result ≡ of_cycle doubted rule }
    {
        match rule {
            None => Verdict::Permitted,
            Some(rule) if doubted && hangs_on_before(rule) => Verdict::Granted(rule),
            Some(rule) => Verdict::Broken(rule),
        }
    }

    /// What is said of a ready that breaks this rule first, if it breaks one, where its LUN is in doubt or isn't.
    pub(crate) fn of_ready(doubted: bool, rule: Option<Forbidden>) -> Verdict
        ensures { result ≡ of_ready doubted rule }
    {
        match rule {
            None => Verdict::Permitted,
            Some(rule) if doubted => Verdict::Granted(rule),
            Some(rule) => Verdict::Broken(rule),
        }
    }

    /// It is permitted unless what wasn't seen is against it.
    pub(crate) fn is_granted(self) -> bool
        ensures { result ≡ is_granted self }
    {
        match self {
            Verdict::Granted(_) => true,
            Verdict::Permitted | Verdict::PassedOver | Verdict::Broken(_) | Verdict::NotShown(_) =>
                false,
        }
    }

    /// What is said of an item before which this LUN was taken for ready, if one was.
    pub(crate) fn with_ready_taken(self, ready: Option<UnshownReady>) -> Verdict
        ensures { result ≡ with_ready_taken ready self }
    {
        match (self, ready) {
            (Verdict::Permitted, Some(ready)) => Verdict::NotShown(ready),
            (said, None | Some(_)) => said,
        }
    }
}
