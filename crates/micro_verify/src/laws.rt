//! Laws of refusals, each a statement of `specs/`.

ghost use Rattle.micro_verify.specs.CauseRows.{RefusalsAreShown};

/// Texts that are refused, with what stands there: an erase of a busy LUN, data whose column a status lost, a plane that is queued
/// already, and a column past the page.
pub fn refusals_are_shown()
    ensures { RefusalsAreShown }
{}

ghost use Rattle.micro_verify.specs.Cause.{RefusalsHaveCauses};

/// Where a straight text for one LUN is refused for a word, the cause of it stands after the text's lazy run up to that word.
pub fn refusals_have_causes()
    ensures { RefusalsHaveCauses }
{}

ghost use Rattle.micro_verify.specs.Counters.{CountersAreThere};

/// Where some first cycles of a word are permitted and its next one is forbidden, the word's counter is there: a legal trace, and
/// then that cycle, which breaks the rule.
pub fn counters_are_there()
    ensures { CountersAreThere }
{}

ghost use Rattle.micro_verify.specs.Counters.{RefusalsShowRuns};

/// Where a straight text for one LUN is refused by V7, its counter is there, unless the bytes of the word may not be: the lazy run up to the
/// word with its first cycles is legal, and the cycle after them breaks a rule of V7.
pub fn refusals_show_runs()
    ensures { RefusalsShowRuns }
{}
