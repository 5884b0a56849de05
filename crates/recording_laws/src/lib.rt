//! What a check says of a recording of a legal trace. Each law is the contract of a function that does nothing.
#![tactic(auto)]

ghost use Rattle.recording_laws.specs.FromMiddle.{PartsHaveNoFaults};
ghost use Rattle.recording_laws.specs.Whole.{WholeChecksArentVoid};

/// A check from the middle tells no fault of a legal trace, wherever its recording began: it reads a part of the items, with their readies, and finds none that
/// breaks a rule.
pub fn parts_have_no_faults()
    ensures { PartsHaveNoFaults }
{}

/// Once all is known of each target that is there, no item is passed over or taken for granted any more, and what is said of the rest are exactly its faults, on the
/// channel as it stands there.
pub fn whole_checks_arent_void()
    ensures { WholeChecksArentVoid }
{}
