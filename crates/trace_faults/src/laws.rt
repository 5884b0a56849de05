//! What holds of the definitions: the contracts of functions that do nothing.
ghost use Rattle.trace_faults.specs.Laws.{FaultlessAreLegal, FirstBrokenIsFirst, FirstIsFirstBroken, CompletedAreJudged, TakenAtWork, NotShownArePermitted, WholeAreJudgedWhole};

/// A trace has no fault exactly when it is legal.
pub fn faultless_are_legal()
    ensures { FaultlessAreLegal }
{}

/// The first item of a trace that isn't permitted after those before it is its first fault, with the first rule that this breaks.
pub fn first_broken_is_first()
    ensures { FirstBrokenIsFirst }
{}

/// The first fault of a trace is its first forbidden item, with the first rule that this breaks.
pub fn first_is_first_broken()
    ensures { FirstIsFirstBroken }
{}

/// With the readies that its status outputs show, and those that are taken for granted, a trace has no fault exactly when it is legal, completed by them.
pub fn completed_are_judged()
    ensures { CompletedAreJudged }
{}

/// A LUN that is taken for ready before an item is of the target of that, and works.
pub fn taken_at_work()
    ensures { TakenAtWork }
{}

/// An item that is told as not shown ready is permitted after the ready of one LUN of its target that works.
pub fn not_shown_are_permitted()
    ensures { NotShownArePermitted }
{}

/// A trace of which nothing is passed over or taken for granted has the same faults, wherever its recording began.
pub fn whole_are_judged_whole()
    ensures { WholeAreJudgedWhole }
{}
