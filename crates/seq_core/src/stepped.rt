//! How a step went.
ghost use Rattle.std.specs.Prelude.{◌≡◌};
ghost use Rattle.seq_core.specs.Names.{step_name};

use std::fmt;

/// How a step went.
#[derive(Clone, Copy, Debug, PartialEq, Eq)]
pub enum Stepped {
    /// The slot has no job; nothing was done.
    Empty,
    /// The job had ended before, and nothing was done. Or the word was `end`: its code is kept, and the bus let go.
    Ended,
    /// Another slot has the bus, and the job goes on; nothing was done.
    Held,
    /// The word was `yield`: it is done, and the bus let go.
    HandedOver,
    /// The word was `wait` and its poll says busy: the poll is in the trace, the word isn't done, and the bus let go.
    NotReady,
    /// Any other word, or a `wait` whose poll says ready: it is done, and the slot has the bus.
    Went,
}

impl Stepped {
    // How it is shown.
    fn name(self) -> &'static str
        ensures { result.now ≡ step_name self }
    {
        match self {
            Stepped::Empty => "empty",
            Stepped::Ended => "ended",
            Stepped::Held => "held",
            Stepped::HandedOver => "handed over",
            Stepped::NotReady => "not ready",
            Stepped::Went => "went",
        }
    }
}

impl fmt::Display for Stepped {
    ghost use Rattle.std.specs.Prelude.{Some};

    ghost output = { λ answer. Some (step_name answer) };

    fn fmt<W: fmt::Write>(&self, f: &mut fmt::Formatter<W>) -> fmt::Result {
        f.write_str(self.name())
    }
}
