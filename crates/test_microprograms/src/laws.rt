//! Worked examples of the definitions themselves: each function here does nothing, and its contract is what the definitions compute.

ghost use Rattle.test_microprograms.specs.Runs.{WorkedRuns};
ghost use Rattle.test_microprograms.specs.Ways.{WorkedWays};
ghost use Rattle.test_microprograms.specs.Premises.{PremisesAreMet};

/// Erases on one LUN and on two, reads, read cache, and calls that are refused: the trace and each reply.
pub fn runs_come_to_their_traces()
    ensures { WorkedRuns }
{}

/// Loops one in another, branches and jumps: the words in the order in which they are performed.
pub fn ways_lead_where_they_do()
    ensures { WorkedWays }
{}

/// What the headline asks of a run can be met.
pub fn premises_are_met()
    ensures { PremisesAreMet }
{}
