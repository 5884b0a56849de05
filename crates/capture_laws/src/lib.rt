//! What is drawn comes back. The laws are the contracts of functions that do nothing.
#![tactic(auto)]

ghost use Rattle.capture_laws.specs.Drawn.{DrawnComesBack, DrawnIsCaptured};

/// The dump that is drawn of a legal trace is captured as this trace: item after item, each at its time. Of a ready no line tells the failure of the page before.
pub fn drawn_is_captured()
    ensures { DrawnIsCaptured }
{}

/// Where no ready of the trace tells that failure, it comes back as it is.
pub fn drawn_comes_back()
    ensures { DrawnComesBack }
{}
