//! What always holds of claims: each function here does nothing, and its contract is a law.

ghost use Rattle.micro_claims.specs.SafePrograms.{AcceptedLinesAreSafe};

/// A text whose lines are accepted from the first state, word by word and in each way that a branch may go, is safe.
pub fn accepted_lines_are_safe()
    ensures { AcceptedLinesAreSafe }
{}

ghost use Rattle.micro_claims.specs.SafePrograms.{SomeAreSafe};
ghost use Rattle.micro_claims.specs.Codes.{ReasonsAreNumbered};

/// Programs that are safe since they are accepted: a read and its data, on one LUN and on several; a read that lets others have the
/// bus; a program of a page, also in parts; a change of the read column; an erase with its status, of two planes, and of two blocks in
/// a loop; a cache read; the identifier, the parameter page and a reset. And of the wider profile: the identities and the unique identifier;
/// a feature that is set and read back; a reset of a LUN, on one and on several; resets amid a program; a read of two planes; and a read
/// whose LUN is selected again, on one and on several.
pub fn some_are_safe()
    ensures { SomeAreSafe }
{}

/// Each reason against a text is that of its number.
pub fn reasons_are_numbered()
    ensures { ReasonsAreNumbered }
{}
