//! How many targets a channel has.
ghost use Rattle.std.specs.Prelude.{◌≡◌, ◌≤◌};
ghost use Rattle.recording.specs.Targets.{count_of};

/// How many targets a channel has.
#[derive(Clone, Copy, Debug, PartialEq, Eq)]
pub enum Targets {
    One,
    Two,
    Three,
    Four,
}

impl Targets {
    /// Their number.
    pub fn count(self) -> u8
        ensures value { result ≡ count_of self }
        ensures few { result ≤ 4 }
    {
        match self {
            Targets::One => 1,
            Targets::Two => 2,
            Targets::Three => 3,
            Targets::Four => 4,
        }
    }
}
