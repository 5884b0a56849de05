//! What a reader of value change dumps is told of the dump of a trace. Each law is the contract of a function that does nothing.
#![tactic(auto)]

ghost use Rattle.wave_laws.specs.Told.{DrawnIsTold};
ghost use Rattle.wave_laws.specs.Heard.{LevelsAreHeard};
ghost use Rattle.wave_laws.specs.Lines.{NamesAreLines};
ghost use Rattle.wave_laws.specs.Cycles.{CyclesAreSampled};
ghost use Rattle.wave_laws.specs.Readies.{ReadiesAreSeen};

/// The dump that is drawn of a trace is read without a fault: its header declares a signal for each line, and what is told of it are the times and changes that were
/// drawn, in order.
pub fn drawn_is_told()
    ensures { DrawnIsTold }
{}

/// A reader that keeps the last level of each line holds the levels that were drawn: after each item, where the strobe of the next is low, and at the end.
pub fn levels_are_heard()
    ensures { LevelsAreHeard }
{}

/// By their names alone the signals of such a dump are the lines of the bus and of its model, and each of them is found.
pub fn names_are_lines()
    ensures { NamesAreLines }
{}

/// Who samples the held levels where a strobe rises, by those just before, gets each cycle of the trace as it was drawn.
pub fn cycles_are_sampled()
    ensures { CyclesAreSampled }
{}

/// Up to the first item that breaks a rule, the held level of a busy LUN falls with its ready alone, that of a busy array, where no strobe rises, with its ready
/// alone, and a ready tells whether it is with failure.
pub fn readies_are_seen()
    ensures { ReadiesAreSeen }
{}
