//! What a ready answers.
ghost use Rattle.std.specs.Prelude.{◌≡◌};
ghost use Rattle.channel_work.specs.State.{came_of};

/// What a ready answers.
#[derive(Clone, Copy, Debug, PartialEq, Eq)]
pub enum Readied {
    Yes,
    /// The LUN isn't there, or it isn't busy, whether there is memory or not.
    NotBusy,
    /// It would become ready, and there is no memory to store that.
    OutOfMemory,
}

impl Readied {
    /// Whether it came, None where it would have come and there was no memory.
    pub(crate) fn of(came: Option<bool>) -> Readied
        ensures { came_of result ≡ came }
    {
        match came {
            None => Readied::OutOfMemory,
            Some(true) => Readied::Yes,
            Some(false) => Readied::NotBusy,
        }
    }
}
