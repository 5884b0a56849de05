//! What a LUN drives the bus with.
ghost use Rattle.std.specs.Prelude.{◌≡◌};
ghost use Rattle.onfi_cycle.specs.Effect.{is_off, is_data};

/// What a LUN drives the bus with when its target is read.
#[derive(Clone, Copy, Debug, PartialEq, Eq)]
pub enum Latch {
    Off,
    Status,
    Data,
}

impl Latch {
    /// The LUN doesn't drive the bus.
    pub fn is_off(self) -> bool
        ensures { result ≡ is_off self }
    {
        matches!(self, Latch::Off)
    }

    /// The LUN drives the bus with its register.
    pub fn is_data(self) -> bool
        ensures { result ≡ is_data self }
    {
        matches!(self, Latch::Data)
    }
}
